//! What passes know of a queue that they share: what was put is what was taken and what it holds.
//!
//! Nothing here runs: `specs/` has the rule, and `proofs/` that each move keeps it.
#![tactic(auto)]

pub mod share;

pub use share::Share;
