//! What a search of a query by branches has found, and the laws that each search goes by, on one thread or on several:
//! how its counts and its cut go on, and which splits a tree has by its state.
//!
//! The definitions stand in `specs/`, the laws in `proofs/`. Nothing in this crate runs.
#![tactic(auto)]
