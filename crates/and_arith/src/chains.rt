//! Chains of cells, followed to their last cell.

ghost use Rattle.std.specs.Prelude.{◌≡◌, ◌≢◌, ◌<◌, ℕ};
ghost use Rattle.and_model.specs.declared.reference.Ref.{Ref};
ghost use Rattle.and_cells.specs.Ranges.{IsInRangeOrHalf};
ghost use Rattle.and_cells.specs.Seen.{Knows, IsWrittenIfNumber, OnlyReads, LeadsTo, FoundFree};

use and_cells::Cells;
use and_model::Ref;

/// Where a chain of cells ends.
#[derive(Clone, Copy, PartialEq, Eq, Debug)]
pub(crate) enum Followed {
    /// At this cell, which the last look found free.
    Free(u32),
    /// At this cell, which is set to what is no cell.
    Set { cell: u32, to: Ref },
}

/// Follows a chain of cells to the last of them. Takes no memory.
pub(crate) fn follow<C: Cells>(cells: &mut C, from: u32) -> Followed
    requires { from < (C.seen cells.old).words }
    ensures over { C.over cells.new ≡ C.over cells.old }
    ensures grew { C.Grew cells.old cells.new }
    ensures reads { OnlyReads (C.seen cells.old) (C.seen cells.new) }
    ensures free { (cell : ℕ) → result ≡ Followed.Free cell
        → LeadsTo (C.seen cells.new) (Ref.Cell from) (Ref.Cell cell)
        × FoundFree (C.shared (C.over cells.old)) cell (C.seen cells.old) (C.seen cells.new) }
    ensures set { (cell : ℕ) (to : Ref) → result ≡ Followed.Set cell to
        → LeadsTo (C.seen cells.new) (Ref.Cell from) (Ref.Cell cell) × Knows (C.seen cells.new) cell to
        × IsInRangeOrHalf C.program (C.seen cells.new).words to × IsWrittenIfNumber (C.seen cells.new) to
        × ((other : ℕ) → to ≢ Ref.Cell other) }
{
    let mut cell = from;
    let mut word = cells.look(cell);
    while let Ref::Cell(next) = word {
        cell = next;
        word = cells.look(cell);
    }
    end_of(cell, word)
}

/// What a chain ends at whose last cell has this word.
fn end_of(cell: u32, word: Ref) -> Followed
    requires { (other : ℕ) → word ≢ Ref.Cell other }
    ensures free { (c : ℕ) → result ≡ Followed.Free c → (c ≡ cell) × (word ≡ Ref.Free) }
    ensures set { (c : ℕ) (to : Ref) → result ≡ Followed.Set c to → (c ≡ cell) × (to ≡ word) × (word ≢ Ref.Free) }
{
    match word {
        Ref::Free => Followed::Free(cell),
        Ref::Cell(_) => unreachable!(),
        Ref::Node { .. } => Followed::Set { cell, to: word },
        Ref::Number(_) => Followed::Set { cell, to: word },
        Ref::Half(_) => Followed::Set { cell, to: word },
    }
}
