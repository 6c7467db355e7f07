//! The index of a program's clauses: which of them a call can be taken by, as far as its arguments tell at a look.
//!
//! [`compile`] makes a program's table once: for each call of a body the clauses of its predicate, by their first
//! arguments, and for each clause the print of its head. A [`Look`] at a call tells what is known of its first
//! argument, and which heads have another print.
#![tactic(auto)]

pub mod looking;
mod prints;
mod sieve;
pub mod table;

pub use looking::{Look, clauses_by_first};
pub use prints::count_in;
pub use table::{Determinacy, compile};
