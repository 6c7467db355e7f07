//! Cells that are watched.

ghost use Rattle.std.specs.Prelude.{◌≡◌, ◌++◌, true, ℕ, List, length, slice_range, All, IfOk};
ghost use Rattle.and_model.specs.declared.reference.Ref.{Ref};
ghost use Rattle.and_cells.specs.Seen.{word_at};
ghost use Rattle.and_cells.specs.Seen.{AreFree};
ghost use Rattle.and_pending.specs.Pending.{Watches};

use and_cells::{Naming, PlainCells};
use and_model::Ref;
use std::alloc::AllocError;

/// Where cells stand in a list: from the first place on, and before the last.
#[derive(Clone, Copy)]
pub(crate) struct Range {
    pub first: u32,
    pub past: u32,
}

/// By which cells a goal is watched.
#[derive(Clone, Copy)]
pub(crate) enum Watch {
    /// It is not watched.
    Unwatched,
    /// By this one.
    One { cell: u32 },
    /// By these two.
    Two { one: u32, other: u32 },
    /// By those that stand here in a list.
    Listed { range: Range },
}

impl Watch {
    /// Whether a goal is watched. Takes no memory.
    pub fn is_some(self) -> bool {
        !matches!(self, Watch::Unwatched)
    }
}

/// How a goal is watched by these cells, which are put at the end of a list where there are neither one nor two. An
/// error is want of memory, or more cells than a range can tell.
#[inline(always)]
pub(crate) fn watch_by(list: &mut Vec<u32>, cells: &[u32]) -> Result<Watch, AllocError>
    ensures grown { (gained : List ℕ) × (list.new.items ≡ list.old.items ++ gained) }
    ensures watched { IfOk result (Watches list.new.items cells.now) }
{
    if cells.len() == 1 {
        return Ok(Watch::One { cell: cells[0] });
    }
    if cells.len() == 2 {
        return Ok(Watch::Two {
            one: cells[0],
            other: cells[1],
        });
    }
    list_cells(list, cells)
}

/// The same where they are put into the list.
fn list_cells(list: &mut Vec<u32>, cells: &[u32]) -> Result<Watch, AllocError>
    ensures grown { (gained : List ℕ) × (list.new.items ≡ list.old.items ++ gained) }
    ensures watched { IfOk result (Watches list.new.items cells.now) }
{
    let first = list.len();
    list.extend_from_slice(cells)?;
    let range = range_of(first, list.len())?;
    Ok(Watch::Listed { range })
}

/// Whether these cells are there and free. This is a call of its own, since most goals are watched by one cell or two.
/// Takes no memory.
#[inline(never)]
pub(crate) fn all_free<N: Naming>(cells: &PlainCells<N>, which: &[u32]) -> bool
    ensures { result ≡ true → AreFree cells.now which.now }
{
    for cell in which {
        if !is_free(cells, *cell) {
            return false;
        }
    }
    true
}

/// Whether a cell is there and free.
#[inline(always)]
pub(crate) fn is_free<N: Naming>(cells: &PlainCells<N>, cell: u32) -> bool
    ensures { result ≡ true → word_at cells.now cell ≡ Ref.Free }
{
    cell < cells.len() && matches!(cells.word(cell), Ref::Free)
}

/// The range between two places. An error is want of memory. (There is none for 2^32 cells.)
pub(crate) fn range_of(first: usize, past: usize) -> Result<Range, AllocError>
    ensures { IfOk result (λ range. range ≡ record { first = first; past = past }) }
{
    let (Ok(first), Ok(past)) = (u32::try_from(first), u32::try_from(past)) else {
        return Err(AllocError);
    };
    Ok(Range { first, past })
}
