//! A sealed program: what runs, and nothing of the text that it was read from.
//!
//! Clauses are kept as nodes that name each other. A `Loaded` is made of nodes and entries that are
//! known to fit each other, and is read without taking memory.
#![tactic(auto)]

pub mod entry;
pub mod item;
pub mod loaded;
mod names;
pub mod node;
pub mod predicates;
mod short;

pub use entry::ClauseEntry;
pub use item::ItemNode;
pub use loaded::{Loaded, LoadedParts};
pub use names::name_at;
pub use node::{Node, NodeKind};
pub use predicates::{ClauseNumbers, Predicate, clause_numbers, clauses_at, predicate_at};
pub use short::ShortText;
