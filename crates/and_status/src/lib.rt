//! How a run ended.
#![tactic(auto)]

mod status;

pub use status::Status;
