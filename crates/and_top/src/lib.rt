//! The top call: what the program does with the words of its command line, a source and a sink.
//!
//! [`andorra`] is for all words. [`andorra_alone`] waits for nobody and starts no thread, so that it is proved to
//! return; it answers with the same bytes.
#![tactic(auto)]

mod replying;
mod searching;
pub mod top;

pub use top::{andorra, andorra_alone};
