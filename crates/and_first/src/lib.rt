//! The first answers of a program: it is searched within 256, 1,024, 4,096 and so on, until so many entries are
//! listed, so that a branch that never ends does not keep back answers that lie elsewhere.
#![tactic(auto)]

pub mod first;
mod steps;
mod telling;

pub use first::{End, First, first_by};
pub use telling::are_floundered;
