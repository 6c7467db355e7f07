//! A row of words that several workers set at the same time, each word once, without locks.
#![tactic(auto)]

mod calls;
mod closing;
mod hanging;
mod leaving;
mod opening;
mod pass;
mod plays;
mod rule;
mod steps;
mod store;
mod store_cells;
mod view;

pub use closing::Closed;
pub use hanging::Hung;
pub use pass::{Pass, PassList};
pub use store::Store;
pub use store_cells::{StoreCells, a_used_worker_grew};
