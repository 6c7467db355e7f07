//! Which clauses a goal can still be taken by, over cells that others set too.
//!
//! [`select`] tries the clauses of a goal over any cells, keeps to itself what is set, and leaves out none
//! that may still be a candidate. [`waits_on`] tells which cell a goal waits for.
#![tactic(auto)]

pub mod awaiting;
mod matching;
pub mod selecting;
mod weighing;

pub use awaiting::waits_on;
pub use selecting::{Selected, Selector, select};
