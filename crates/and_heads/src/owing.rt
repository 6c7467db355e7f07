//! Cells that were set and are still to be looked at.

ghost use Rattle.std.specs.Prelude.{◌≡◌, ℕ, true};
ghost use Rattle.and_model.specs.declared.reference.Ref.{Ref};
ghost use Rattle.and_cells.specs.Ranges.{IsInRange};
ghost use Rattle.and_cells.specs.Parts.{named};
ghost use Rattle.and_heads.specs.Owing.{EndsAt, Owes, with_one};

use and_model::Ref;
use and_program::Loaded;
use and_unify::structures::argument_count;

/// Of which of the cells that were set it is not seen yet that each path from them ends.
#[derive(Clone, Copy)]
pub(crate) enum Owed {
    /// Of none.
    Nothing,
    /// Of this one alone.
    One(u32),
    /// It may be several.
    Several,
}

/// Notes a cell that is to be set to a reference, unless each path from it ends there. Mostly the cell is one of the
/// new frame, and the reference lies below the floor.
#[inline(always)]
pub(crate) fn owe(loaded: &Loaded, floor: u32, cell: u32, to: Ref, owed: &mut Owed)
    requires in_range { (words : ℕ) × IsInRange (named loaded.now) words to }
    ensures { Owes (named loaded.now) floor cell to owed.old owed.new }
{
    if ends_at(loaded, floor, cell, to) {
        return;
    }
    *owed = with(*owed, cell);
}

/// What is owed with one cell more.
fn with(owed: Owed, cell: u32) -> Owed
    ensures { result ≡ with_one owed cell }
{
    match owed {
        Owed::Nothing => Owed::One(cell),
        Owed::One(_) => Owed::Several,
        Owed::Several => Owed::Several,
    }
}

/// Whether each path from a cell that is to be set to a reference ends there, or comes below the floor from above it.
#[inline(always)]
fn ends_at(loaded: &Loaded, floor: u32, cell: u32, to: Ref) -> bool
    requires in_range { (words : ℕ) × IsInRange (named loaded.now) words to }
    ensures { result ≡ true → EndsAt (named loaded.now) floor cell to }
{
    match to {
        Ref::Number(_) => true,
        Ref::Cell(other) => floor <= cell && other < floor,
        Ref::Node { node, base } => (floor <= cell && base < floor)
            || argument_count(loaded, node) == 0,
        Ref::Free => false,
        Ref::Half(_) => false,
    }
}
