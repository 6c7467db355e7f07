//! A plain descent into pairs, which hashes nothing, before unification with classes.

ghost use Rattle.std.specs.Prelude.{◌≡◌, ◌≤◌, ◌⊎◌, ◌∷◌, ◌++◌, [], ℕ, length, true, false, Some, None};
ghost use Rattle.std.specs.Prelude.{IfSome, IfOk};
ghost use Rattle.and_model.specs.declared.reference.Ref.{Ref};
ghost use Rattle.and_program.specs.Skeletons.{AllFall};
ghost use Rattle.and_cells.specs.Ranges.{IsInRange};
ghost use Rattle.and_cells.specs.Rows.{plain};
ghost use Rattle.and_cells.specs.Seen.{Keeps, OnlyReads, IsWrittenIfNumber};
ghost use Rattle.and_cells.specs.Parts.{named, parts_of};
ghost use Rattle.and_unify.specs.declared.pairs.Pair.{Pair};
ghost use Rattle.and_unify.specs.Pairs.{AreInRange, AreWritten};
ghost use Rattle.and_unify.specs.Meeting.{AreOfOneShape, MeetFree};
ghost use Rattle.and_unify.specs.Setting.{Lists};
ghost use Rattle.and_unify.specs.Turns.{pairs_of};
ghost use Rattle.and_unify.specs.Unifying.{Unifies, Spends};
ghost use Rattle.and_unify.specs.Descending.{SetPlaces, ComesDown};
ghost use Rattle.and_unify.specs.Running.{MeetsPlainly, ComesTo};
ghost use Rattle.and_unify.specs.declared.unifying.Unified.{Unified};

use crate::meeting::{Met, may_hold, meet};
use crate::noting::{make_room, note};
use crate::pairs::{Pair, PairList};
use crate::structures::{argument_count, argument_pair, as_structure, push_arguments};
use crate::unifying::{Unified, solve};
use and_cells::{Bound, Cells, Naming, PlainCells, deref};
use and_model::Ref;
use and_program::Loaded;
use std::alloc::AllocError;

/// What a plain descent came to.
#[derive(Clone, Copy, PartialEq, Eq, Debug)]
enum Descended {
    Over(Unified),
    /// As many structures were descended into as were allowed. The pairs that are left stay in the list.
    Left,
}

/// What became of pairs that were met plainly.
#[derive(Clone, Copy, PartialEq, Eq, Debug)]
enum Plainly {
    /// What they ask for is made so, or is left to pairs on the list.
    Done,
    /// It is left to the arguments of these two structures of one shape, and to pairs on the list.
    Onward(Pair),
    /// The sides of one led to these two, which are never the same.
    Apart { left: Ref, right: Ref },
    /// Want of memory.
    Memory,
}

/// Makes the pairs equal in the most general way, without looking for circles. The cells that are set
/// go on the list.
///
/// So many structures are descended into plainly at most as is bounded by the row and by the nodes that
/// the pairs name, as most pairs need few. Only work beyond that, where parts are shared, goes to classes.
pub(crate) fn equate<N: Naming>(
    loaded: &Loaded,
    cells: &mut PlainCells<N>,
    pairs: &mut PairList,
    bound: &mut Vec<u32>,
) -> Unified
    requires program { N.program ≡ named loaded.now }
    requires in_range { AreInRange N.program (length cells.old) pairs.old }
    requires written { AreWritten (plain cells.old) pairs.old }
    ensures keeps { Keeps (plain cells.old) (plain cells.new) }
    ensures unifies { Unifies N.program (plain cells.old) (plain cells.new) pairs.old pairs.new result }
    ensures sets { SetPlaces N.program (plain cells.old) (plain cells.new) pairs.old bound.new.items }
    ensures bound { Lists (plain cells.old) (plain cells.new) bound.old.items bound.new.items }
{
    let most = u64::from(cells.len()) + u64::from(greatest_node(pairs)) + 64;
    let mut fuel = u64::MAX;
    descend_then_solve(loaded, cells, most, &mut fuel, pairs, bound)
}

/// The greatest number of a node among the sides of pairs. The term of a node has no more nodes than
/// its number says, as arguments come before their nodes.
pub(crate) fn greatest_node(pairs: &PairList) -> u32 {
    let mut greatest = 0;
    for place in 0..pairs.len() {
        let pair = pairs.at(place);
        greatest = later_node(later_node(greatest, pair.left), pair.right);
    }
    greatest
}

/// The greater of a number and that of the node which a reference names, if it names one.
fn later_node(number: u32, reference: Ref) -> u32 {
    match reference {
        Ref::Node { node, .. } if node.0 > number => node.0,
        _ => number,
    }
}

/// Descends into so many structures plainly at most, and puts what is left into classes, by the fuel. The
/// cells that are set go on the list.
pub(crate) fn descend_then_solve<C: Cells>(
    loaded: &Loaded,
    cells: &mut C,
    most: u64,
    fuel: &mut u64,
    pairs: &mut PairList,
    bound: &mut Vec<u32>,
) -> Unified
    requires program { C.program ≡ named loaded.now }
    requires fuel { 1 ≤ fuel.old }
    requires in_range { AreInRange C.program (C.seen cells.old).words pairs.old }
    requires written { AreWritten (C.seen cells.old) pairs.old }
    ensures over { C.over cells.new ≡ C.over cells.old }
    ensures grew { C.Grew cells.old cells.new }
    ensures keeps { Keeps (C.seen cells.old) (C.seen cells.new) }
    ensures unifies { Unifies C.program (C.seen cells.old) (C.seen cells.new) pairs.old pairs.new result }
    ensures spends { Spends C.program (C.seen cells.new) pairs.old pairs.new fuel.old fuel.new result }
    ensures sets { IfSome (C.seen cells.old).told
        (λ row. SetPlaces C.program (C.seen cells.old) (C.seen cells.new) pairs.old bound.new.items) }
    ensures bound { Lists (C.seen cells.old) (C.seen cells.new) bound.old.items bound.new.items }
{
    match descend(loaded, cells, most, pairs, bound) {
        Descended::Over(unified) => unified,
        Descended::Left => {
            let alloc = *bound.allocator();
            solve(alloc, loaded, cells, fuel, pairs, bound)
        }
    }
}

/// Makes the pairs equal, part by part, by so many structures at most, and remembers nothing of what was
/// made equal.
fn descend<C: Cells>(
    loaded: &Loaded,
    cells: &mut C,
    most: u64,
    pairs: &mut PairList,
    bound: &mut Vec<u32>,
) -> Descended
    requires program { C.program ≡ named loaded.now }
    requires in_range { AreInRange C.program (C.seen cells.old).words pairs.old }
    requires written { AreWritten (C.seen cells.old) pairs.old }
    ensures over { C.over cells.new ≡ C.over cells.old }
    ensures grew { C.Grew cells.old cells.new }
    ensures comes { ComesDown C.program (C.seen cells.old) (C.seen cells.new) pairs.old pairs.new bound.old.items
        bound.new.items result }
{
    loaded.skeleton_is_of_the_program();
    match meet_all(loaded, cells, most, pairs, bound) {
        Plainly::Done => Descended::Over(Unified::Same),
        Plainly::Onward(both) => match push_arguments(loaded, both.left, both.right, pairs) {
            Ok(()) => Descended::Left,
            Err(_) => Descended::Over(Unified::Memory),
        },
        Plainly::Apart { left, right } => Descended::Over(Unified::Apart { left, right }),
        Plainly::Memory => Descended::Over(Unified::Memory),
    }
}

/// Meets all pairs of the list and what they lead to, by so many structures at most. The first arguments
/// that lead to structures are gone on with, without a place in the list.
fn meet_all<C: Cells>(
    loaded: &Loaded,
    cells: &mut C,
    most: u64,
    pairs: &mut PairList,
    bound: &mut Vec<u32>,
) -> Plainly
    requires program { C.program ≡ named loaded.now }
    requires falls { AllFall 0 C.program.skeleton.nodes }
    requires in_range { AreInRange C.program (C.seen cells.old).words pairs.old }
    requires written { AreWritten (C.seen cells.old) pairs.old }
    ensures over { C.over cells.new ≡ C.over cells.old }
    ensures grew { C.Grew cells.old cells.new }
    ensures comes { ComesTo C.program (C.seen cells.old) (C.seen cells.new) pairs.old pairs.new bound.old.items
        bound.new.items result }
    ensures empty { result ≡ Plainly.Done → pairs.new ≡ [] }
{
    let mut came = meet_listed(loaded, cells, bound, pairs);
    for _turn in 0..most {
        let Plainly::Onward(both) = came else {
            return came;
        };
        came = meet_below(loaded, cells, bound, both, pairs);
    }
    came
}

/// Meets the arguments of two structures of one shape, and where none of them goes on, the pairs of the
/// list, up to the first that leads to structures.
fn meet_below<C: Cells>(
    loaded: &Loaded,
    cells: &mut C,
    bound: &mut Vec<u32>,
    both: Pair,
    list: &mut PairList,
) -> Plainly
    requires program { C.program ≡ named loaded.now }
    requires falls { AllFall 0 C.program.skeleton.nodes }
    requires shape { AreOfOneShape C.program (C.seen cells.old).words both.left both.right }
    requires in_range { AreInRange C.program (C.seen cells.old).words list.old }
    requires written { AreWritten (C.seen cells.old) list.old }
    ensures over { C.over cells.new ≡ C.over cells.old }
    ensures grew { C.Grew cells.old cells.new }
    ensures comes { ComesTo C.program (C.seen cells.old) (C.seen cells.new)
        (pairs_of (parts_of C.program both.left) (parts_of C.program both.right) ++ list.old) list.new bound.old.items
        bound.new.items result }
    ensures empty { result ≡ Plainly.Done → list.new ≡ [] }
{
    match meet_arguments(loaded, cells, bound, both, list) {
        Plainly::Done => meet_listed(loaded, cells, bound, list),
        Plainly::Onward(next) => Plainly::Onward(next),
        Plainly::Apart { left, right } => Plainly::Apart { left, right },
        Plainly::Memory => Plainly::Memory,
    }
}

/// Takes pairs from the list and meets them, up to the first that leads to structures.
fn meet_listed<C: Cells>(
    loaded: &Loaded,
    cells: &mut C,
    bound: &mut Vec<u32>,
    list: &mut PairList,
) -> Plainly
    requires program { C.program ≡ named loaded.now }
    requires falls { AllFall 0 C.program.skeleton.nodes }
    requires in_range { AreInRange C.program (C.seen cells.old).words list.old }
    requires written { AreWritten (C.seen cells.old) list.old }
    ensures over { C.over cells.new ≡ C.over cells.old }
    ensures grew { C.Grew cells.old cells.new }
    ensures comes { ComesTo C.program (C.seen cells.old) (C.seen cells.new) list.old list.new bound.old.items
        bound.new.items result }
    ensures empty { result ≡ Plainly.Done → list.new ≡ [] }
{
    while let Some(pair) = list.pop() {
        match meet_pair(loaded, cells, bound, pair) {
            Plainly::Done => {}
            Plainly::Onward(both) => return Plainly::Onward(both),
            Plainly::Apart { left, right } => return Plainly::Apart { left, right },
            Plainly::Memory => return Plainly::Memory,
        }
    }
    Plainly::Done
}

/// Meets the arguments of two structures of one shape, pair by pair. The first that lead to structures
/// are gone on with, and the others that do go on the list.
fn meet_arguments<C: Cells>(
    loaded: &Loaded,
    cells: &mut C,
    bound: &mut Vec<u32>,
    both: Pair,
    list: &mut PairList,
) -> Plainly
    requires program { C.program ≡ named loaded.now }
    requires falls { AllFall 0 C.program.skeleton.nodes }
    requires shape { AreOfOneShape C.program (C.seen cells.old).words both.left both.right }
    ensures over { C.over cells.new ≡ C.over cells.old }
    ensures grew { C.Grew cells.old cells.new }
    ensures comes { ComesTo C.program (C.seen cells.old) (C.seen cells.new)
        (pairs_of (parts_of C.program both.left) (parts_of C.program both.right) ++ list.old) list.new bound.old.items
        bound.new.items result }
{
    let left = as_structure(both.left);
    let right = as_structure(both.right);
    let mut next = None;
    for place in 0..argument_count(loaded, left.node) {
        let pair = argument_pair(loaded, left, right, place);
        match meet_argument(loaded, cells, bound, pair) {
            Plainly::Done => {}
            Plainly::Onward(inner) => match put_by(next, inner, pair, list) {
                Ok(first) => next = Some(first),
                Err(_) => return Plainly::Memory,
            },
            Plainly::Apart { left, right } => return Plainly::Apart { left, right },
            Plainly::Memory => return Plainly::Memory,
        }
    }
    onward(next)
}

/// The first structures that arguments led to. Of later ones the pair goes on the list.
fn put_by(
    first: Option<Pair>,
    both: Pair,
    pair: Pair,
    list: &mut PairList,
) -> Result<Pair, AllocError>
    ensures { IfOk result (λ kept. ((first ≡ None) × (kept ≡ both) × (list.new ≡ list.old))
        ⊎ ((first ≡ Some kept) × (list.new ≡ list.old ++ pair ∷ []))) }
{
    match first {
        Some(before) => {
            list.push(pair.left, pair.right)?;
            Ok(before)
        }
        None => Ok(both),
    }
}

/// What became of pairs of which these structures are gone on with.
fn onward(next: Option<Pair>) -> Plainly
    ensures some { (both : Pair) → next ≡ Some both → result ≡ Plainly.Onward both }
    ensures none { next ≡ None → result ≡ Plainly.Done }
{
    match next {
        Some(both) => Plainly::Onward(both),
        None => Plainly::Done,
    }
}

/// Meets a pair of arguments. Mostly the right side is a cell of a new frame, which takes the left side.
fn meet_argument<C: Cells>(
    loaded: &Loaded,
    cells: &mut C,
    bound: &mut Vec<u32>,
    pair: Pair,
) -> Plainly
    requires program { C.program ≡ named loaded.now }
    requires in_range { IsInRange C.program (C.seen cells.old).words pair.left
        × IsInRange C.program (C.seen cells.old).words pair.right }
    requires written { IsWrittenIfNumber (C.seen cells.old) pair.left
        × IsWrittenIfNumber (C.seen cells.old) pair.right }
    ensures over { C.over cells.new ≡ C.over cells.old }
    ensures grew { C.Grew cells.old cells.new }
    ensures meets { MeetsPlainly C.program pair (C.seen cells.old) (C.seen cells.new) bound.old.items
        bound.new.items result }
{
    if takes(cells, bound, pair) {
        return Plainly::Done;
    }
    meet_pair(loaded, cells, bound, pair)
}

/// Whether the right side of a pair is a free cell that is now set to what the left side leads to. It is
/// on the list then. Where there is no room on the list, none is set.
fn takes<C: Cells>(cells: &mut C, bound: &mut Vec<u32>, pair: Pair) -> bool
    requires in_range { IsInRange C.program (C.seen cells.old).words pair.left
        × IsInRange C.program (C.seen cells.old).words pair.right }
    requires written { IsWrittenIfNumber (C.seen cells.old) pair.left }
    ensures over { C.over cells.new ≡ C.over cells.old }
    ensures grew { C.Grew cells.old cells.new }
    ensures sets { result ≡ true → (cell : ℕ)
        × MeetFree C.program pair.left pair.right cell (C.seen cells.old) (C.seen cells.new)
        × (bound.new.items ≡ bound.old.items ++ cell ∷ []) }
    ensures reads { result ≡ false → OnlyReads (C.seen cells.old) (C.seen cells.new)
        × (bound.new.items ≡ bound.old.items) }
{
    let Ref::Cell(cell) = pair.right else {
        return false;
    };
    if bound.len() == bound.capacity() {
        return false;
    }
    let to = deref(cells, pair.left);
    if !may_hold(cell, to) {
        return false;
    }
    match cells.bind(cell, to) {
        Bound::Won => {
            note(bound, cell);
            true
        }
        Bound::Already(_) => false,
    }
}

/// Meets the sides of a pair. A cell that is set goes on the list. Where memory is wanting, none was set.
fn meet_pair<C: Cells>(loaded: &Loaded, cells: &mut C, bound: &mut Vec<u32>, pair: Pair) -> Plainly
    requires program { C.program ≡ named loaded.now }
    requires in_range { IsInRange C.program (C.seen cells.old).words pair.left
        × IsInRange C.program (C.seen cells.old).words pair.right }
    requires written { IsWrittenIfNumber (C.seen cells.old) pair.left
        × IsWrittenIfNumber (C.seen cells.old) pair.right }
    ensures over { C.over cells.new ≡ C.over cells.old }
    ensures grew { C.Grew cells.old cells.new }
    ensures meets { MeetsPlainly C.program pair (C.seen cells.old) (C.seen cells.new) bound.old.items
        bound.new.items result }
{
    // Room for a cell is made before one is set, so that each that is set goes on the list.
    if make_room(bound).is_err() {
        return Plainly::Memory;
    }
    match meet(loaded, cells, pair.left, pair.right) {
        Met::Same => Plainly::Done,
        Met::Bound { cell } => {
            note(bound, cell);
            Plainly::Done
        }
        Met::Structures { left, right } => Plainly::Onward(Pair { left, right }),
        Met::Apart { left, right } => Plainly::Apart { left, right },
    }
}
