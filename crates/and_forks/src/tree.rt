//! What a walk of the fork tree comes to.

use and_model::{Cut, Text};

/// The fork tree of a query, or why there is none.
#[derive(Drop, Debug)]
pub enum Walk {
    /// The tree as a text, each line with a newline, and how many of its lines tell of a fork, of a failed branch, of
    /// an answer, and of a branch that floundered. Each number stays at its last value.
    Whole {
        text: Text,
        forks: u64,
        failed: u64,
        answers: u64,
        floundered: u64,
    },
    /// Where the limit kept the search from going on.
    Cut(Cut),
}
