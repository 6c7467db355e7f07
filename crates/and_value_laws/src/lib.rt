//! What an expression comes to under what is known of cells: its parts, its term and its value; and the laws that each
//! part has one term. The definitions stand in `specs/`, the laws in `proofs/`. Nothing in this crate runs.
#![tactic(auto)]
