//! The queries of a text that has several, found and read before any of them is answered.
#![tactic(auto)]

mod opening;

pub use opening::{Opened, Sought, beginning_of, open, seek};
