//! A team of the search over one choicepoint tree: what it has found, and what it has still to explore.
//!
//! Its forks stand on a stack and have one row together. A branch that came to its state is told, retired or forked;
//! the oldest branch is handed on where others may take it, and theirs are taken over.
#![tactic(auto)]

mod handing;
mod leading;
mod placed;
mod stack;
mod team;

pub use placed::PlacedBranch;
pub use stack::{Hand, Level, Task, untold};
pub use team::{Shared, Team};
