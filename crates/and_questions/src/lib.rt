//! What the bytes of a source are asked for, and what they are answered with: the definitions, and the data of both.
#![tactic(auto)]

mod question;
mod reply;

pub use question::{MAX_DOCUMENT, Question, Request};
pub use reply::Reply;
