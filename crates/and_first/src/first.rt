//! The search for the first answers.

ghost use Rattle.std.specs.Prelude.{◌≤◌, ℕ, IfOk};
ghost use Rattle.and_model.specs.declared.limits.TheConstants.{MAX_LIMIT};
ghost use Rattle.and_program.specs.Loaded.{program_of};
ghost use Rattle.and_search_laws.specs.Found.{FindsFirst};
ghost use Rattle.and_first.specs.First.{IsFirstOf};

use crate::steps::{end_at, first_step, step_after};
use crate::telling::told;
use and_answers::Found;
use and_model::Text;
use and_program::Loaded;
use std::alloc::{AllocError, Global};
use std::snapshot::Snapshot;

/// How a search for the first answers ended.
#[derive(Clone, Copy, Debug, PartialEq, Eq)]
pub enum End {
    /// There are as many as were asked for within this step, and within no smaller one.
    Within(u32),
    /// There are fewer, and no more within any limit.
    Complete,
    /// There are fewer within the limit, and it was met.
    LimitMet,
}

/// The first answers of a program.
#[derive(Drop, Debug)]
pub struct First {
    /// Their lines, and the line of how the search ended.
    pub text: Text,
    /// How the search ended.
    pub end: End,
    /// How many they are.
    pub lines: usize,
    /// Whether one of them is no answer, since some of its arithmetic waits forever.
    pub floundered: bool,
}

/// The first answers of a program, as many as are asked for, within the first step of the limit that lists so many; or
/// all within the limit. Each step is searched so. An error is want of memory.
pub fn first_by<F: Fn(u32) -> Result<Found, AllocError>>(
    search: &F,
    alloc: Global,
    program: Snapshot<Loaded>,
    limit: u32,
    count: usize,
) -> Result<First, AllocError>
    requires limit { limit ≤ MAX_LIMIT }
    requires callable { (n : ℕ) → n ≤ MAX_LIMIT → F.pre search.now n }
    requires finds { (n : ℕ) (found : _) → n ≤ MAX_LIMIT → F.post search.now n found
        → IfOk found (FindsFirst (program_of program.value) n count) }
    ensures { IfOk result (IsFirstOf (program_of program.value) limit count) }
{
    let mut step = first_step(limit);
    'steps: loop {
        let found = search(step)?;
        if let Some(end) = end_at(&found, step, limit, count) {
            return told(alloc, &found, end, count);
        }
        step = step_after(step, limit);
    }
}
