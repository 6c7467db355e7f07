//! The search for circles: cells whose terms properly contain them.
#![tactic(auto)]

pub mod circles;
pub mod explorer;
pub mod following;
mod marks;
mod passing;
mod structures;
mod walk;

pub use circles::{Circle, cycle};
pub use explorer::{Explored, Explorer};
pub use following::ends_soon;
