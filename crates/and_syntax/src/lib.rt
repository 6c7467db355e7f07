//! The definitions of written terms, the clauses that they stand for, and tables of clauses.
//!
//! They stand in `specs/`; `proofs/` has what several crates show of them. Nothing in this crate runs.
#![tactic(auto)]
