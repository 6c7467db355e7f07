//! The definitions of grammar rules: what their bodies are made of, and the clauses for which they
//! stand.
//!
//! They stand in `specs/`. Nothing in this crate runs.
#![tactic(auto)]
