//! What is done with the words of a command line, whoever answers the bytes of a source.
#![tactic(auto)]

mod asking;
mod obeying;
mod work;

pub use obeying::obey;
pub use work::{Work, work_of};
