//! Clauses of a text, from the terms as they are written to a program of skeleton nodes.
//!
//! A `ClauseDraft` is one clause as a term. A `ClauseTable` takes drafts in the order of the text,
//! refuses what is no pure clause, and keeps the others as nodes that name each other. Sealed, it is
//! a `Loaded` program, in which each disjunction is a predicate of its own.
#![tactic(auto)]

mod added;
mod asked;
mod asking;
mod known;
mod lifting;
mod making;
mod scratch;
pub mod table;

pub use asked::{Asked, Asking, Clauses};
pub use table::ClauseTable;

// What a table takes, and why it refuses it.
pub use and_drafts::{ClauseDraft, Part};
pub use and_judging::{SealFault, TableFault, What};

// What a sealed table is read by.
pub use and_program::{ItemNode, Loaded, NodeKind};
