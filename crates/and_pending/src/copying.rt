//! Goals that are copied, with the cells by which they are watched.

ghost use Rattle.std.specs.Prelude.{All, OnOk, IfOk};
ghost use Rattle.and_pending.specs.Copies.{AreCopied, IsCopied};
ghost use Rattle.and_pending.specs.Pending.{IsWithin};

use crate::pending::PendingGoal;
use crate::watch::{Watch, range_of};
use std::alloc::AllocError;

/// How many cells of a goal stand in a list. Takes no memory.
fn width(pending: PendingGoal) -> usize {
    match pending.watch {
        Watch::Listed { range } => range.past.saturating_sub(range.first) as usize,
        Watch::Unwatched => 0,
        Watch::One { cell: _ } => 0,
        Watch::Two { one: _, other: _ } => 0,
    }
}

/// How many cells of all of these goals stand in a list. Takes no memory.
pub(crate) fn total_width(goals: &[PendingGoal]) -> usize {
    let mut total: usize = 0;
    for pending in goals {
        total = total.saturating_add(width(*pending));
    }
    total
}

/// Puts goals at the end of a list, and their cells at the end of a list of cells. An error is want of memory.
pub(crate) fn put_watched(
    list: &mut Vec<PendingGoal>,
    cells: &mut Vec<u32>,
    goals: &[PendingGoal],
    from: &[u32],
) -> Result<(), AllocError>
    requires { All (IsWithin from.now) goals.now }
    ensures { OnOk result (AreCopied from.now goals.now cells.old.items list.old.items cells.new.items list.new.items) }
{
    for pending in goals {
        let copied = with_cells(cells, *pending, from)?;
        list.push(copied)?;
    }
    Ok(())
}

/// The same goal, with its cells at the end of a list of cells. An error is want of memory.
fn with_cells(
    cells: &mut Vec<u32>,
    pending: PendingGoal,
    from: &[u32],
) -> Result<PendingGoal, AllocError>
    requires { IsWithin from.now pending }
    ensures { IfOk result (IsCopied from.now pending cells.old.items cells.new.items) }
{
    match pending.watch {
        Watch::Unwatched => Ok(pending),
        Watch::One { cell: _ } => Ok(pending),
        Watch::Two { one: _, other: _ } => Ok(pending),
        Watch::Listed { range } => {
            let first = cells.len();
            cells.extend_from_slice(&from[range.first as usize..range.past as usize])?;
            let moved = range_of(first, cells.len())?;
            Ok(PendingGoal {
                goal: pending.goal,
                watch: Watch::Listed { range: moved },
            })
        }
    }
}
