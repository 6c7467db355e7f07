//! The queries of a text that has several, and the text of each by itself.
#![tactic(auto)]

mod blanking;
mod finding;
mod span;

pub use blanking::single;
pub use finding::queries;
pub use span::Span;
