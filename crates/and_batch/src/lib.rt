//! A batch of numbered jobs, each done once by one of several workers, who take the numbers from a queue.
#![tactic(auto)]

mod job;
mod list;
mod numbers;
mod placing;
mod running;
mod signal;
mod working;

pub use job::{Done, Job, Ticket, Trade};
pub use list::TextList;
pub use running::{run_all, run_trade};
