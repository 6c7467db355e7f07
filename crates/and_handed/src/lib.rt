//! What a worker of a phase hands on: what it did, and what of it is still to be done.
#![tactic(auto)]

mod told;

pub use told::{Cause, Ended, HandedOn, Ran, Reduced};
