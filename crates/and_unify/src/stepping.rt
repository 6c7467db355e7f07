//! One pair in its turn: it is met, and the arguments of structures that are made equal come to do.

ghost use Rattle.std.specs.Prelude.{◌≡◌, ◌≢◌, ◌⊎◌, ◌≤◌, ◌++◌, ℕ};
ghost use Rattle.and_model.specs.declared.reference.Ref.{Ref};
ghost use Rattle.and_cells.specs.Ranges.{IsInRange};
ghost use Rattle.and_cells.specs.Seen.{IsWrittenIfNumber, OnlyReads};
ghost use Rattle.and_cells.specs.Parts.{named, parts_of};
ghost use Rattle.and_unify.specs.Classes.{InOneClass, Joins};
ghost use Rattle.and_unify.specs.Meeting.{AreOfOneShape, MeetApart};
ghost use Rattle.and_unify.specs.Turns.{pairs_of, Steps, weight};

use crate::classes::Classes;
use crate::meeting::{Met, meet};
use crate::noting::{make_room, note};
use crate::pairs::{Pair, PairList};
use crate::structures::push_arguments;
use and_cells::Cells;
use and_model::Ref;
use and_program::Loaded;

/// What became of a pair in its turn.
#[derive(Clone, Copy, PartialEq, Eq, Debug)]
pub(crate) enum Stepped {
    /// What it asks for is made so, or is left to the pairs of its arguments.
    Done,
    /// The sides led to these two, which are never the same.
    Apart { left: Ref, right: Ref },
    /// Want of memory.
    Memory,
}

/// Meets the sides of a pair. A cell that is set goes on the list `bound`, and where structures of two
/// classes are joined, the pairs of their arguments go on `list`. Where memory is wanting, no cell was set.
pub(crate) fn step<C: Cells>(
    loaded: &Loaded,
    cells: &mut C,
    classes: &mut Classes,
    bound: &mut Vec<u32>,
    pair: Pair,
    list: &mut PairList,
) -> Stepped
    requires program { C.program ≡ named loaded.now }
    requires in_range { IsInRange C.program (C.seen cells.old).words pair.left
        × IsInRange C.program (C.seen cells.old).words pair.right }
    requires written { IsWrittenIfNumber (C.seen cells.old) pair.left
        × IsWrittenIfNumber (C.seen cells.old) pair.right }
    ensures over { C.over cells.new ≡ C.over cells.old }
    ensures grew { C.Grew cells.old cells.new }
    ensures done { result ≡ Stepped.Done
        → Steps C.program pair (C.seen cells.old) (C.seen cells.new) classes.old classes.new list.old list.new
        bound.old.items bound.new.items }
    ensures apart { (one other : Ref) → result ≡ Stepped.Apart one other
        → MeetApart C.program pair.left pair.right (C.seen cells.old) (C.seen cells.new) one other }
    ensures stopped { result ≢ Stepped.Done → OnlyReads (C.seen cells.old) (C.seen cells.new)
        × (bound.new.items ≡ bound.old.items) }
    ensures lighter { result ≡ Stepped.Done → weight classes.new list.new ≤ weight classes.old list.old }
{
    // Room for a cell is made before one is set, so that each that is set goes on the list.
    if make_room(bound).is_err() {
        return Stepped::Memory;
    }
    match meet(loaded, cells, pair.left, pair.right) {
        Met::Same => Stepped::Done,
        Met::Bound { cell } => {
            note(bound, cell);
            Stepped::Done
        }
        Met::Structures { left, right } => descend(loaded, classes, left, right, list),
        Met::Apart { left, right } => Stepped::Apart { left, right },
    }
}

/// Joins the classes of two structures of one shape, and where these were two, puts the pairs of their
/// arguments on the list.
fn descend(
    loaded: &Loaded,
    classes: &mut Classes,
    left: Ref,
    right: Ref,
    list: &mut PairList,
) -> Stepped
    requires { (words : ℕ) × AreOfOneShape (named loaded.now) words left right }
    ensures done { result ≡ Stepped.Done
        → (InOneClass classes.old left right × (classes.new ≡ classes.old) × (list.new ≡ list.old))
        ⊎ (Joins left right classes.old classes.new
        × (list.new ≡ list.old ++ pairs_of (parts_of (named loaded.now) left)
        (parts_of (named loaded.now) right))) }
    ensures no_end { (one other : Ref) → result ≢ Stepped.Apart one other }
    ensures lighter { result ≡ Stepped.Done → weight classes.new list.new ≤ weight classes.old list.old }
{
    match classes.join(left, right) {
        Ok(false) => Stepped::Done,
        Ok(true) => match push_arguments(loaded, left, right, list) {
            Ok(()) => Stepped::Done,
            Err(_) => Stepped::Memory,
        },
        Err(_) => Stepped::Memory,
    }
}
