//! What is written of what was found, the answers of a program or the verdict of a check, and the status of that.
#![tactic(auto)]

mod checking;
mod showing;
mod statuses;

pub use checking::{judged, verdict_line};
pub use showing::{Show, written};
pub use statuses::{status_of, status_of_first, status_of_verdict};
