//! One pair of references, followed to where they lead.

ghost use Rattle.std.specs.Prelude.{◌≡◌, ℕ, true};
ghost use Rattle.and_model.specs.declared.reference.Ref.{Ref};
ghost use Rattle.and_cells.specs.Ranges.{IsInRange, IsInRangeOrHalf};
ghost use Rattle.and_cells.specs.Seen.{Keeps, OnlyReads, LeadsTo, IsWrittenIfNumber};
ghost use Rattle.and_cells.specs.Parts.{named};
ghost use Rattle.and_unify.specs.Heads.{IsEnd};
ghost use Rattle.and_unify.specs.Meeting.{IsToBeSet, GoesOn, MeetAlike, MeetFree, MeetStructures, MeetApart};

use crate::cases::{Case, case_of};
use crate::heads::{Head, head_of};
use and_cells::{Bound, Cells, deref};
use and_model::Ref;
use and_program::Loaded;

/// What became of a pair.
#[derive(Clone, Copy, PartialEq, Eq, Debug)]
pub(crate) enum Met {
    /// Both sides are the same.
    Same,
    /// This cell was free, and is now set to the other side.
    Bound { cell: u32 },
    /// The sides are structures of one name and number of arguments.
    Structures { left: Ref, right: Ref },
    /// The sides are never the same.
    Apart { left: Ref, right: Ref },
}

/// What became of one try at two references.
#[derive(Clone, Copy, PartialEq, Eq, Debug)]
enum Tried {
    Done(Met),
    /// The left side is a cell that was set to this meanwhile.
    LeftIs(Ref),
    /// The right side is a cell that was set to this meanwhile.
    RightIs(Ref),
}

/// Follows both sides of a pair, and sets a free cell to the other side. Takes no memory.
pub(crate) fn meet<C: Cells>(loaded: &Loaded, cells: &mut C, left: Ref, right: Ref) -> Met
    requires program { C.program ≡ named loaded.now }
    requires left_in_range { IsInRange C.program (C.seen cells.old).words left }
    requires right_in_range { IsInRange C.program (C.seen cells.old).words right }
    requires left_written { IsWrittenIfNumber (C.seen cells.old) left }
    requires right_written { IsWrittenIfNumber (C.seen cells.old) right }
    ensures over { C.over cells.new ≡ C.over cells.old }
    ensures grew { C.Grew cells.old cells.new }
    ensures keeps { Keeps (C.seen cells.old) (C.seen cells.new) }
    ensures same { result ≡ Met.Same → MeetAlike C.program left right (C.seen cells.old) (C.seen cells.new) }
    ensures bound { (cell : ℕ) → result ≡ Met.Bound cell
        → MeetFree C.program left right cell (C.seen cells.old) (C.seen cells.new) }
    ensures structures { (one other : Ref) → result ≡ Met.Structures one other
        → MeetStructures C.program left right (C.seen cells.old) (C.seen cells.new) one other }
    ensures apart { (one other : Ref) → result ≡ Met.Apart one other
        → MeetApart C.program left right (C.seen cells.old) (C.seen cells.new) one other }
{
    let mut one = deref(cells, left);
    let mut other = end_beside(cells, one, right);
    loop {
        match try_both(loaded, cells, one, other) {
            Tried::Done(met) => return met,
            Tried::LeftIs(set) => one = set,
            Tried::RightIs(set) => other = set,
        }
    }
}

/// What a reference leads to, or itself where it is a cell that can be set to another, if it is free.
fn end_beside<C: Cells>(cells: &mut C, one: Ref, from: Ref) -> Ref
    requires in_range { IsInRange C.program (C.seen cells.old).words from }
    requires written { IsWrittenIfNumber (C.seen cells.old) from }
    ensures over { C.over cells.new ≡ C.over cells.old }
    ensures grew { C.Grew cells.old cells.new }
    ensures reads { OnlyReads (C.seen cells.old) (C.seen cells.new) }
    ensures leads { LeadsTo (C.seen cells.new) from result }
    ensures in_range { IsInRangeOrHalf C.program (C.seen cells.old).words result }
    ensures written { IsWrittenIfNumber (C.seen cells.new) result }
{
    if may_be_set(from, one) {
        return from;
    }
    deref(cells, from)
}

/// Whether a reference is a cell that can be set to another, if it is free: to no word of a pair, and to
/// no cell that has the same or a larger number.
fn may_be_set(from: Ref, to: Ref) -> bool {
    match from {
        Ref::Cell(cell) => may_hold(cell, to),
        Ref::Free | Ref::Node { .. } | Ref::Number(_) | Ref::Half(_) => false,
    }
}

/// Whether a cell can be set to a reference, if it is free.
pub(crate) fn may_hold(cell: u32, to: Ref) -> bool
    ensures { result ≡ true → IsToBeSet cell (Ref.Cell cell) to }
{
    match to {
        Ref::Cell(other) => other < cell,
        Ref::Node { .. } | Ref::Number(_) => true,
        Ref::Free | Ref::Half(_) => false,
    }
}

/// Compares two references, or tries to set one that is a cell to the other. Takes no memory.
fn try_both<C: Cells>(loaded: &Loaded, cells: &mut C, one: Ref, other: Ref) -> Tried
    requires program { C.program ≡ named loaded.now }
    requires one_in_range { IsInRangeOrHalf C.program (C.seen cells.old).words one }
    requires other_in_range { IsInRangeOrHalf C.program (C.seen cells.old).words other }
    requires one_written { IsWrittenIfNumber (C.seen cells.old) one }
    requires other_written { IsWrittenIfNumber (C.seen cells.old) other }
    ensures over { C.over cells.new ≡ C.over cells.old }
    ensures grew { C.Grew cells.old cells.new }
    ensures keeps { Keeps (C.seen cells.old) (C.seen cells.new) }
    ensures same { result ≡ Tried.Done Met.Same → MeetAlike C.program one other (C.seen cells.old) (C.seen cells.new) }
    ensures bound { (cell : ℕ) → result ≡ Tried.Done (Met.Bound cell)
        → MeetFree C.program one other cell (C.seen cells.old) (C.seen cells.new) }
    ensures structures { (p q : Ref) → result ≡ Tried.Done (Met.Structures p q)
        → MeetStructures C.program one other (C.seen cells.old) (C.seen cells.new) p q }
    ensures apart { (p q : Ref) → result ≡ Tried.Done (Met.Apart p q)
        → MeetApart C.program one other (C.seen cells.old) (C.seen cells.new) p q }
    ensures left_is { (r : Ref) → result ≡ Tried.LeftIs r
        → GoesOn C.program one r (C.seen cells.old) (C.seen cells.new) }
    ensures right_is { (r : Ref) → result ≡ Tried.RightIs r
        → GoesOn C.program other r (C.seen cells.old) (C.seen cells.new) }
{
    match case_of(one, other) {
        Case::Half => Tried::Done(Met::Apart {
            left: one,
            right: other,
        }),
        Case::OneCell => Tried::Done(Met::Same),
        Case::SetLeft(cell) => match cells.bind(cell, other) {
            Bound::Won => Tried::Done(Met::Bound { cell }),
            Bound::Already(set) => Tried::LeftIs(set),
        },
        Case::SetRight(cell) => match cells.bind(cell, one) {
            Bound::Won => Tried::Done(Met::Bound { cell }),
            Bound::Already(set) => Tried::RightIs(set),
        },
        Case::Compare => Tried::Done(compare(loaded, cells, one, other)),
    }
}

/// Compares two references that are numbers or structures. Takes no memory.
fn compare<C: Cells>(loaded: &Loaded, cells: &mut C, one: Ref, other: Ref) -> Met
    requires program { C.program ≡ named loaded.now }
    requires ends { IsEnd one × IsEnd other }
    requires one_in_range { IsInRange C.program (C.seen cells.old).words one }
    requires other_in_range { IsInRange C.program (C.seen cells.old).words other }
    requires one_written { IsWrittenIfNumber (C.seen cells.old) one }
    requires other_written { IsWrittenIfNumber (C.seen cells.old) other }
    ensures over { C.over cells.new ≡ C.over cells.old }
    ensures grew { C.Grew cells.old cells.new }
    ensures keeps { Keeps (C.seen cells.old) (C.seen cells.new) }
    ensures same { result ≡ Met.Same → MeetAlike C.program one other (C.seen cells.old) (C.seen cells.new) }
    ensures bound { (cell : ℕ) → result ≡ Met.Bound cell → ⊥ }
    ensures structures { (p q : Ref) → result ≡ Met.Structures p q
        → MeetStructures C.program one other (C.seen cells.old) (C.seen cells.new) p q }
    ensures apart { (p q : Ref) → result ≡ Met.Apart p q
        → MeetApart C.program one other (C.seen cells.old) (C.seen cells.new) p q }
{
    if one == other {
        return Met::Same;
    }
    let left_head = head_of(loaded, cells, one);
    let right_head = head_of(loaded, cells, other);
    if left_head != right_head {
        return Met::Apart {
            left: one,
            right: other,
        };
    }
    match left_head {
        Head::Number(_) => Met::Same,
        Head::Name { .. } => Met::Structures {
            left: one,
            right: other,
        },
    }
}
