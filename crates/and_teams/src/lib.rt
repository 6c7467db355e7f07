//! The search by several teams over one choicepoint tree (Santos Costa, Warren and Yang, 1991).
//!
//! Each team goes depth first, hands on the oldest of its branches where others may take them, and
//! takes those of others where it has none. Before it goes on with a branch, its workers reduce determinate
//! goals of it at once.
#![tactic(auto)]

pub mod exploring;
pub mod laws;
mod turning;
mod work;

pub use exploring::{Explored, explore};
pub use laws::explorations_agree;
