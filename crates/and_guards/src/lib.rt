//! What the guards of clauses come to in cells, and what can be said of a goal in cells before its clauses are tried.
//!
//! [`evaluate`] tells what a side of a comparison comes to: a number, none, or the cell for which it waits; [`fails`]
//! whether a comparison of two sides is false, and [`is_guard_false`] whether some comparison of a guard is.
#![tactic(auto)]

pub mod guards;
mod known;

pub use guards::{Side, evaluate, fails, is_guard_false, number_at_once};
