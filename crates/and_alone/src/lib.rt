//! What the bytes of a source are answered with where each search is made by one thread: the thread of the caller, or
//! for the queries of a batch several, each of which takes queries of its own.
#![tactic(auto)]

mod forks;
mod jobs;
mod replying;
mod searching;
mod texts;

pub use jobs::batched_by;
pub use replying::answered_alone;
pub use texts::answer_to;
