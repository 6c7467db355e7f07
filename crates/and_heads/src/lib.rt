//! A call settled with the head of a clause in a new frame, argument by argument: what unification promises of the
//! two, in less time.
#![tactic(auto)]

mod arguments;
mod ending;
mod entering;
mod owing;
mod parts;
pub mod settling;

pub use settling::HeadSolver;
