//! What the workers of a phase did, put together when all have ended.
#![tactic(auto)]

mod bodies;
mod gathering;
mod links;

pub use gathering::{Gathered, gather};
pub use links::Taken;
