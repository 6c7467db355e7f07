//! One clause of a text as a term, as it is written.
//!
//! A `ClauseDraft` is given in postfix order: arguments first, then the name that takes them. It is
//! read by the numbers of its parts.
#![tactic(auto)]

pub mod draft;
mod variables;

pub use draft::{ClauseDraft, DraftPart, Part};
