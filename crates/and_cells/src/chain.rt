//! Chains of cells, followed to their end.

ghost use Rattle.std.specs.Prelude.{◌≡◌};
ghost use Rattle.and_cells.specs.Ranges.{IsInRange, IsInRangeOrHalf};
ghost use Rattle.and_cells.specs.Seen.{IsWrittenIfNumber, OnlyReads, LeadsTo, EndsAt};

use crate::cells::Cells;
use and_model::Ref;

/// What a reference leads to: a node, a number, a cell that the last look found free, or, where the
/// chain ends in a word of a pair, a half. Takes no memory.
pub fn deref<C: Cells>(cells: &mut C, from: Ref) -> Ref
    requires in_range { IsInRange C.program (C.seen cells.old).words from }
    requires written { IsWrittenIfNumber (C.seen cells.old) from }
    ensures over { C.over cells.new ≡ C.over cells.old }
    ensures grew { C.Grew cells.old cells.new }
    ensures reads { OnlyReads (C.seen cells.old) (C.seen cells.new) }
    ensures leads { LeadsTo (C.seen cells.new) from result }
    ensures ends { EndsAt (C.shared (C.over cells.old)) result (C.seen cells.old) (C.seen cells.new) }
    ensures in_range { IsInRangeOrHalf C.program (C.seen cells.old).words result }
    ensures written { IsWrittenIfNumber (C.seen cells.new) result }
{
    let mut at = from;
    while let Ref::Cell(cell) = at {
        match cells.look(cell) {
            Ref::Free => break,
            set => at = set,
        }
    }
    at
}
