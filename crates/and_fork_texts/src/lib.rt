//! The text of a fork tree, as it is defined.
//!
//! The definitions stand in `specs/`. Nothing in this crate runs.
#![tactic(auto)]
