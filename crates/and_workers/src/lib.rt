//! Workers over one row of cells: each reduces calls that have one candidate and runs arithmetic whose terms are
//! known, and hands on what it did.
#![tactic(auto)]

mod asking;
mod calls;
mod items;
mod running;
mod suspended;
mod taking;
mod worker;

pub use worker::{Beginning, Shared, work};
