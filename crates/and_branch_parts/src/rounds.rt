//! What rounds over the goals of a branch come to.

use crate::finding::{RoundSoFar, Seen};
use and_model::Goal;

/// What a look at the next goal came to.
#[derive(Clone, Copy)]
pub enum Looked {
    /// There is no next goal.
    Ended,
    /// The goal was passed over, and this was seen of it.
    Passed { goal: Goal, seen: Seen },
    /// It was arithmetic, and was run.
    Ran,
    /// It was a call, and was reduced; perhaps calls of its clause's body were too. So many were taken in all.
    Reduced(u32),
    /// The tree is dead.
    Failed,
}

/// What a round over all goals came to.
#[derive(Clone, Copy)]
pub enum Round {
    /// Some goal was run or reduced, and for some there may be more to do.
    Changed,
    /// For none is anything to be done, and this was found of them.
    Still(RoundSoFar),
    /// The tree is dead.
    Failed,
}
