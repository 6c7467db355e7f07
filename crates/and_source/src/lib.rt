//! The definitions of programs whose bodies may hold disjunctions: what their clauses and alternatives
//! weigh, the unfolding of a code, the listing, and the program without disjunctions to which one is
//! lifted.
//!
//! They stand in `specs/`. Nothing in this crate runs.
#![tactic(auto)]
