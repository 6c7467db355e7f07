//! Unification over rows of words, with lists of what is still to be done in place of recursion.
#![tactic(auto)]

pub mod cases;
mod classes;
mod descending;
pub mod heads;
pub mod laws;
mod meeting;
pub mod noting;
pub mod pairs;
pub mod settling;
mod stepping;
pub mod structures;
mod turning;
pub mod unifying;

pub use and_circles::{Circle, cycle};
pub use laws::{references_that_end_have_terms, references_without_circles_have_terms};
pub use pairs::{Pair, PairList};
pub use settling::{Settled, Solver, settle};
pub use unifying::{Unified, unify};
