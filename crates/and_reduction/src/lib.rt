//! The steps of a branch in its cells: the query's items, a call that is taken by a clause, and a goal
//! of arithmetic that is run.
#![tactic(auto)]

pub mod asking;
pub mod running;
mod settling;
mod sides;
pub mod taking;
pub mod trail;

pub use asking::node_of;
pub use running::{Ran, run, run_item};
pub use taking::{Entered, Tools, begin, take};
pub use trail::Trail;
