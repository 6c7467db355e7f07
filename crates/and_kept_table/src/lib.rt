//! The table of clauses to which one query after another is put: the clauses are compiled once, and of each query its
//! own calls alone.
//!
//! [`table_for`] makes the table of a program, and of that the table of the next program that has the same clauses.
#![tactic(auto)]

mod kept;

pub use kept::{KeptTable, table_for};
