//! What a run found: the lines of the proofs, and how the run ended; and their codes beside them, where somebody reads
//! these.
#![tactic(auto)]

pub mod coded;
mod codes;
mod comparing;
mod cutting;
mod entries;
pub mod found;
pub mod latest;
mod lines;
mod meeting;
mod merging;
mod piece;
mod printing;
mod run;
mod tail;

pub use coded::Coded;
pub use found::{Entry, Found};
pub use latest::Latest;
