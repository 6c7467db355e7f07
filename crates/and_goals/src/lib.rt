//! Goals that are dealt between workers: each worker has a deque of its own, and takes goals of the others where its
//! own has none.
#![tactic(auto)]

mod deque;
mod hand;
mod leaving;
mod opening;

pub use hand::{Hand, HandList};
pub use leaving::rest;
pub use opening::open_hands;
