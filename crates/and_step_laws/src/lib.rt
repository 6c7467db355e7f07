//! What a step asks of cells: a clause that is entered, and a goal of arithmetic that is run; and the laws by which
//! what unification answers says what the step comes to. They serve the search and the checker of proofs, each of
//! which has its own code for these steps.
//!
//! The definitions stand in `specs/`, the laws in `proofs/`. Nothing in this crate runs.
#![tactic(auto)]
