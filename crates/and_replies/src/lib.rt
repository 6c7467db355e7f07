//! What the bytes of a source are answered with, whoever searches.
//!
//! Its user has a way to search a program for its answers, and makes an answer to bytes of it.
#![tactic(auto)]

pub mod answering;
pub mod batches;
pub mod explaining;
pub mod linting;
pub mod parts;
pub mod verifying;

pub use answering::{first_in, found_in, refused, told_of};
pub use batches::{batched, reply_of};
pub use explaining::explained;
pub use linting::linted;
pub use parts::{Kept, Part, kept_of, part_of};
pub use verifying::verified;
