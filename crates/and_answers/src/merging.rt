//! Runs of entries become one, in which all entries are in the order of their codes.

ghost use Rattle.std.specs.Prelude.{◌≡◌, ◌-◌, ◌<◌, ◌≤◌, [], ◌++◌, length, IfOk, IfSome, IfNone, OnOk};
ghost use Rattle.std.specs.List.Sorted.{IsPermutation};
ghost use Rattle.and_answers.specs.Runs.{IsTakenOff, entries_of};
ghost use Rattle.and_answers.specs.Merged.{all_entries};

use crate::meeting::{Ordered, meet};
use crate::run::Run;
use crate::tail::Tail;
use std::alloc::AllocError;

/// The runs as one, if there are any. An error is want of memory.
pub(crate) fn as_one(runs: Vec<Run>) -> Result<Vec<Run>, AllocError>
    ensures same { IfOk result (λ one. IsPermutation (all_entries runs.items) (all_entries one.items)) }
    ensures one { IfOk result (λ one. length one.items ≤ 1) }
{
    let mut ahead = runs;
    'joining: while ahead.len() > 1 {
        ahead = halved(ahead)?;
    }
    Ok(ahead)
}

/// Half as many runs, of the same entries. An error is want of memory.
fn halved(mut runs: Vec<Run>) -> Result<Vec<Run>, AllocError>
    ensures same { IfOk result (λ fewer. IsPermutation (all_entries runs.items) (all_entries fewer.items)) }
    ensures fewer { IfOk result (λ fewer. 1 < length runs.items → length fewer.items < length runs.items) }
{
    let mut fewer = Vec::new(*runs.allocator());
    while let Some(run) = runs.pop() {
        let both = with_next(run, &mut runs)?;
        fewer.push(both)?;
    }
    Ok(fewer)
}

/// A run with the next one, if there is one. An error is want of memory.
fn with_next(run: Run, runs: &mut Vec<Run>) -> Result<Run, AllocError>
    ensures same { IfOk result (λ both. IsPermutation (entries_of run ++ all_entries runs.old.items)
        (entries_of both ++ all_entries runs.new.items)) }
    ensures fewer { OnOk result (length runs.new.items ≡ length runs.old.items - 1) }
{
    match runs.pop() {
        Some(other) => merged(run, other),
        None => Ok(run),
    }
}

/// The entries of both runs as one run. An error is want of memory.
fn merged(run: Run, other: Run) -> Result<Run, AllocError>
    ensures { IfOk result (λ both. IsPermutation (entries_of run ++ entries_of other) (entries_of both)) }
{
    let Run { tails: mut one } = run;
    let Run { tails: mut other } = other;
    let mut tails = Vec::new(*one.allocator());
    // Room for all of them at once, so that none is moved while others come.
    tails.reserve(one.len().saturating_add(other.len()))?;
    while let Some(first) = next(&mut one, &mut other)? {
        tails.push(first)?;
    }
    tails.reverse();
    Ok(Run { tails })
}

/// Takes off the first entry of both, where there is one. An error is want of memory.
fn next(one: &mut Vec<Tail>, other: &mut Vec<Tail>) -> Result<Option<Tail>, AllocError>
    ensures first { IfOk result (λ next. IfSome next
        (λ tail. IsTakenOff tail one.old.items other.old.items one.new.items other.new.items)) }
    ensures none { IfOk result (λ next. IfNone next ((one.old.items ≡ []) × (other.old.items ≡ []))) }
{
    let Some(first) = one.pop() else {
        return Ok(other.pop());
    };
    let Some(second) = other.pop() else {
        return Ok(Some(first));
    };
    let Ordered {
        first,
        second,
        is_turned,
    } = meet(first, second);
    if is_turned {
        one.push(second)?;
        return Ok(Some(first));
    }
    other.push(second)?;
    Ok(Some(first))
}
