//! The goals of a branch that are left, in their order, with a place of work among them. A goal may be watched:
//! nothing need be done for it as long as certain cells are free, and it is passed over at a look at these.
#![tactic(auto)]

mod copying;
mod filling;
mod pending;
mod spares;
mod watch;

pub use pending::{PendingGoal, PendingGoals};
