//! Codes of trees that are written down as lists of reductions.
//!
//! [`CodeSoFar`] is how far a code was told: the clauses that are decided, in preorder, up to the first open call.
#![tactic(auto)]

mod places;
pub mod telling;
mod visiting;

pub use telling::CodeSoFar;
