//! Proofs that can be checked: the text of the proof of a code, and whether a text is one.
//!
//! Nothing here searches. A code is unfolded, clause by clause, by the steps that a branch makes, and its equations
//! are solved.
#![tactic(auto)]

mod checking;
mod documents;
mod explaining;
mod goals;
mod reading;
mod unfolding;
mod waiting;
mod workspace;

pub use checking::{check_proof, proof_text};
pub use documents::split_document;
