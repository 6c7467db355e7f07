//! A call and the head of a clause, met argument by argument.

ghost use Rattle.std.specs.Prelude.{◌≡◌, ◌≢◌, ◌<◌, ◌≤◌, [], ◌∷◌, ◌++◌, ℕ, List, length, All, IfSome};
ghost use Rattle.and_model.specs.declared.reference.Ref.{Ref};
ghost use Rattle.and_program.specs.Loaded.{skeleton_of};
ghost use Rattle.and_program.specs.Skeletons.{AllFall};
ghost use Rattle.and_cells.specs.Ranges.{IsInRange, IsInRangeOrHalf, IsNodeInRange};
ghost use Rattle.and_cells.specs.Rows.{plain, IsBelow};
ghost use Rattle.and_cells.specs.Seen.{IsWrittenIfNumber, OnlyReads, Sets, word_at};
ghost use Rattle.and_cells.specs.Parts.{named};
ghost use Rattle.and_unify.specs.Pairs.{AreInRange, AreWritten};
ghost use Rattle.and_unify.specs.Running.{arguments_of_both};
ghost use Rattle.and_heads.specs.Calls.{call_and_head, IsCallPart};
ghost use Rattle.and_heads.specs.Entering.{Meets, ComesToParts, Begins};
ghost use Rattle.and_heads.specs.Owing.{AreOwed};
ghost use Rattle.and_heads.specs.declared.owing.Owed.{Owed};
ghost use Rattle.and_heads.specs.Parts.{HasShape, Puts, both_of, arguments_of_parts};

use crate::arguments::enter_argument;
use crate::owing::{Owed, owe};
use crate::parts::{Part, arguments_of_both, end_of, head_at};
use and_cells::{Naming, PlainCells};
use and_model::{NodeNo, Ref};
use and_program::{Loaded, NodeKind};
use and_unify::cases::{Case, case_of};
use and_unify::noting::make_room;
use and_unify::structures::Structure;
use and_unify::{Pair, PairList};

/// So many parts are met at most.
const MOST_PARTS: u32 = 64;

/// What became of pairs of parts of a call and of a head.
#[derive(Clone, Copy, PartialEq, Eq, Debug)]
pub(crate) enum Entered {
    /// They are made the same.
    Done,
    /// Two of them are never the same.
    Apart,
    /// It is not told here.
    GivenUp,
}

/// How pairs begin that are to be made the same.
#[derive(Clone, Copy, PartialEq, Eq, Debug)]
pub(crate) enum Begun {
    /// With this part, and those on the list.
    At(Part),
    /// All is told.
    Ended(Entered),
}

/// Makes the sides of pairs the same, by so many parts at most. The cells that are set go on the list.
pub(crate) fn enter<N: Naming>(
    loaded: &Loaded,
    cells: &mut PlainCells<N>,
    pairs: &PairList,
    floor: u32,
    bound: &mut Vec<u32>,
    owed: &mut Owed,
    parts: &mut Vec<Part>,
) -> Entered
    requires program { N.program ≡ named loaded.now }
    requires falls { AllFall 0 N.program.skeleton.nodes }
    requires in_range { AreInRange N.program (length cells.old) pairs.now }
    requires written { AreWritten (plain cells.old) pairs.now }
    ensures comes { ComesToParts N.program (plain cells.old) (plain cells.new) pairs.now [] bound.old.items
        bound.new.items result }
    ensures owed { AreOwed N.program floor cells.old bound.old.items owed.old
        → AreOwed N.program floor cells.new bound.new.items owed.new }
{
    parts.clear();
    match begin(loaded, cells, pairs, floor, bound, owed, parts) {
        Begun::At(part) => enter_parts(loaded, cells, part, floor, bound, owed, parts),
        Begun::Ended(entered) => entered,
    }
}

/// The same of a node in the frame at a base and one in the frame at the floor, where they are structures of one name
/// and number of arguments. Others are given up.
#[inline(always)]
pub(crate) fn enter_call<N: Naming>(
    loaded: &Loaded,
    cells: &mut PlainCells<N>,
    floor: u32,
    call: NodeNo,
    base: u32,
    head: NodeNo,
    bound: &mut Vec<u32>,
    owed: &mut Owed,
    parts: &mut Vec<Part>,
) -> Entered
    requires program { N.program ≡ named loaded.now }
    requires falls { AllFall 0 N.program.skeleton.nodes }
    requires call { IsNodeInRange N.program (length cells.old) call.0 base }
    requires head { IsNodeInRange N.program (length cells.old) head.0 floor }
    ensures comes { ComesToParts N.program (plain cells.old) (plain cells.new)
        (call_and_head N.program base call.0 floor head.0) [] bound.old.items bound.new.items result }
    ensures owed { AreOwed N.program floor cells.old bound.old.items owed.old
        → AreOwed N.program floor cells.new bound.new.items owed.new }
{
    parts.clear();
    match part_of(loaded, floor, call, base, head) {
        Some(part) => enter_parts(loaded, cells, part, floor, bound, owed, parts),
        None => Entered::GivenUp,
    }
}

/// A node in the frame at a base and one in the frame at the floor as a part, where they are structures of one name and
/// number of arguments.
#[inline(always)]
fn part_of(loaded: &Loaded, floor: u32, call: NodeNo, base: u32, head: NodeNo) -> Option<Part>
    requires call { call.0 < length (skeleton_of loaded.now).nodes }
    requires head { head.0 < length (skeleton_of loaded.now).nodes }
    ensures { IfSome result (IsCallPart (named loaded.now) base call.0 floor head.0) }
{
    match loaded.kind(call) {
        NodeKind::Compound { name, count } => match loaded.kind(head) {
            NodeKind::Compound {
                name: called,
                count: many,
            } if called.0 == name.0 && many == count => Some(Part {
                left: Structure { node: call, base },
                right: Structure {
                    node: head,
                    base: floor,
                },
            }),
            NodeKind::Compound { .. } => None,
            NodeKind::Number(_) => None,
            NodeKind::Variable(_) => None,
        },
        NodeKind::Number(_) => None,
        NodeKind::Variable(_) => None,
    }
}

/// Finds the part with which to begin: the last of those that stand on the list once the sides of all pairs have met.
#[inline(always)]
fn begin<N: Naming>(
    loaded: &Loaded,
    cells: &mut PlainCells<N>,
    pairs: &PairList,
    floor: u32,
    bound: &mut Vec<u32>,
    owed: &mut Owed,
    parts: &mut Vec<Part>,
) -> Begun
    requires program { N.program ≡ named loaded.now }
    requires falls { AllFall 0 N.program.skeleton.nodes }
    requires in_range { AreInRange N.program (length cells.old) pairs.now }
    requires written { AreWritten (plain cells.old) pairs.now }
    requires none { parts.old.items ≡ [] }
    ensures begins { Begins N.program (plain cells.old) (plain cells.new) pairs.now parts.new.items bound.old.items
        bound.new.items result }
    ensures owed { AreOwed N.program floor cells.old bound.old.items owed.old
        → AreOwed N.program floor cells.new bound.new.items owed.new }
{
    match enter_pairs(loaded, cells, pairs, floor, bound, owed, parts) {
        Entered::Done => last_of(parts),
        Entered::Apart => Begun::Ended(Entered::Apart),
        Entered::GivenUp => Begun::Ended(Entered::GivenUp),
    }
}

/// Takes the last part from the list.
#[inline(always)]
fn last_of(parts: &mut Vec<Part>) -> Begun
    ensures at { (part : Part) → result ≡ Begun.At part → parts.old.items ≡ parts.new.items ++ part ∷ [] }
    ensures ended { (entered : Entered) → result ≡ Begun.Ended entered
        → (entered ≡ Entered.Done) × (parts.old.items ≡ []) × (parts.new.items ≡ []) }
{
    match parts.pop() {
        Some(part) => Begun::At(part),
        None => Begun::Ended(Entered::Done),
    }
}

/// Meets the sides of pairs, and puts those that lead to structures on the list of parts.
#[cold]
#[inline(never)]
fn enter_pairs<N: Naming>(
    loaded: &Loaded,
    cells: &mut PlainCells<N>,
    pairs: &PairList,
    floor: u32,
    bound: &mut Vec<u32>,
    owed: &mut Owed,
    parts: &mut Vec<Part>,
) -> Entered
    requires program { N.program ≡ named loaded.now }
    requires falls { AllFall 0 N.program.skeleton.nodes }
    requires in_range { AreInRange N.program (length cells.old) pairs.now }
    requires written { AreWritten (plain cells.old) pairs.now }
    requires none { parts.old.items ≡ [] }
    ensures comes { ComesToParts N.program (plain cells.old) (plain cells.new) pairs.now parts.new.items
        bound.old.items bound.new.items result }
    ensures shapes { result ≡ Entered.Done → All (HasShape N.program (length cells.old)) parts.new.items }
    ensures owed { AreOwed N.program floor cells.old bound.old.items owed.old
        → AreOwed N.program floor cells.new bound.new.items owed.new }
{
    for place in 0..pairs.len() {
        match enter_pair(loaded, cells, *pairs.at(place), floor, bound, owed, parts) {
            Entered::Done => {}
            Entered::Apart => return Entered::Apart,
            Entered::GivenUp => return Entered::GivenUp,
        }
    }
    Entered::Done
}

/// Meets the sides of a pair. Two structures of one name and number of arguments go on the list of parts at once.
fn enter_pair<N: Naming>(
    loaded: &Loaded,
    cells: &mut PlainCells<N>,
    pair: Pair,
    floor: u32,
    bound: &mut Vec<u32>,
    owed: &mut Owed,
    parts: &mut Vec<Part>,
) -> Entered
    requires program { N.program ≡ named loaded.now }
    requires in_range { IsInRange N.program (length cells.old) pair.left
        × IsInRange N.program (length cells.old) pair.right }
    requires written { IsWrittenIfNumber (plain cells.old) pair.left × IsWrittenIfNumber (plain cells.old) pair.right }
    ensures meets { Meets N.program pair (plain cells.old) (plain cells.new) parts.old.items parts.new.items
        bound.old.items bound.new.items result }
    ensures owed { AreOwed N.program floor cells.old bound.old.items owed.old
        → AreOwed N.program floor cells.new bound.new.items owed.new }
{
    let Some(whole) = whole_of(loaded, cells, pair.left, pair.right) else {
        return enter_ends(
            loaded, cells, pair.left, pair.right, floor, bound, owed, parts,
        );
    };
    match parts.push(whole) {
        Ok(()) => Entered::Done,
        Err(_) => Entered::GivenUp,
    }
}

/// Two references as a part, where they are structures of one name and number of arguments.
fn whole_of<N: Naming>(loaded: &Loaded, cells: &PlainCells<N>, one: Ref, other: Ref) -> Option<Part>
    requires program { N.program ≡ named loaded.now }
    requires one_in_range { IsInRange N.program (length cells.now) one }
    requires other_in_range { IsInRange N.program (length cells.now) other }
    requires one_written { IsWrittenIfNumber (plain cells.now) one }
    requires other_written { IsWrittenIfNumber (plain cells.now) other }
    ensures { IfSome result (λ whole. (both_of whole ≡ record { left = one; right = other })
        × HasShape N.program (length cells.now) whole) }
{
    let Ref::Node { node, base } = one else {
        return None;
    };
    let Ref::Node {
        node: there,
        base: by,
    } = other
    else {
        return None;
    };
    let first = head_at(loaded, cells, one)?;
    let second = head_at(loaded, cells, other)?;
    let count = arguments_of_both(first, second)?;
    if count == 0 {
        return None;
    }
    Some(Part {
        left: Structure { node, base },
        right: Structure {
            node: there,
            base: by,
        },
    })
}

/// Meets the arguments of a part, of those on the list of parts, and of those that they put there.
#[inline(always)]
fn enter_parts<N: Naming>(
    loaded: &Loaded,
    cells: &mut PlainCells<N>,
    first: Part,
    floor: u32,
    bound: &mut Vec<u32>,
    owed: &mut Owed,
    parts: &mut Vec<Part>,
) -> Entered
    requires program { N.program ≡ named loaded.now }
    requires falls { AllFall 0 N.program.skeleton.nodes }
    requires shape { HasShape N.program (length cells.old) first }
    requires shapes { All (HasShape N.program (length cells.old)) parts.old.items }
    ensures comes { ComesToParts N.program (plain cells.old) (plain cells.new)
        (arguments_of_both N.program (both_of first) ++ arguments_of_parts N.program parts.old.items) []
        bound.old.items bound.new.items result }
    ensures owed { AreOwed N.program floor cells.old bound.old.items owed.old
        → AreOwed N.program floor cells.new bound.new.items owed.new }
{
    let mut part = first;
    for _turn in 0..MOST_PARTS {
        match enter_arguments(loaded, cells, part, floor, bound, owed, parts) {
            Entered::Done => {}
            Entered::Apart => return Entered::Apart,
            Entered::GivenUp => return Entered::GivenUp,
        }
        match parts.pop() {
            Some(next) => part = next,
            None => return Entered::Done,
        }
    }
    Entered::GivenUp
}

/// Meets the arguments of two structures, and puts those that lead to structures on the list of parts.
#[inline(always)]
fn enter_arguments<N: Naming>(
    loaded: &Loaded,
    cells: &mut PlainCells<N>,
    part: Part,
    floor: u32,
    bound: &mut Vec<u32>,
    owed: &mut Owed,
    parts: &mut Vec<Part>,
) -> Entered
    requires program { N.program ≡ named loaded.now }
    requires falls { AllFall 0 N.program.skeleton.nodes }
    requires shape { HasShape N.program (length cells.old) part }
    requires shapes { All (HasShape N.program (length cells.old)) parts.old.items }
    ensures comes { ComesToParts N.program (plain cells.old) (plain cells.new)
        (arguments_of_both N.program (both_of part) ++ arguments_of_parts N.program parts.old.items) parts.new.items
        bound.old.items bound.new.items result }
    ensures shapes { result ≡ Entered.Done → All (HasShape N.program (length cells.old)) parts.new.items }
    ensures owed { AreOwed N.program floor cells.old bound.old.items owed.old
        → AreOwed N.program floor cells.new bound.new.items owed.new }
{
    let lefts = loaded.arguments(part.left.node);
    let rights = loaded.arguments(part.right.node);
    for place in 0..lefts.len() {
        let right = loaded.resolve(rights[place], part.right.base);
        match enter_argument(
            loaded,
            cells,
            lefts[place],
            part.left.base,
            right,
            floor,
            bound,
            owed,
            parts,
        ) {
            Entered::Done => {}
            Entered::Apart => return Entered::Apart,
            Entered::GivenUp => return Entered::GivenUp,
        }
    }
    Entered::Done
}

/// Follows two references, and meets what they lead to.
#[inline(always)]
pub(crate) fn enter_ends<N: Naming>(
    loaded: &Loaded,
    cells: &mut PlainCells<N>,
    left: Ref,
    right: Ref,
    floor: u32,
    bound: &mut Vec<u32>,
    owed: &mut Owed,
    parts: &mut Vec<Part>,
) -> Entered
    requires program { N.program ≡ named loaded.now }
    requires in_range { IsInRange N.program (length cells.old) left
        × IsInRange N.program (length cells.old) right }
    requires written { IsWrittenIfNumber (plain cells.old) left × IsWrittenIfNumber (plain cells.old) right }
    ensures meets { Meets N.program (record { left = left; right = right }) (plain cells.old) (plain cells.new)
        parts.old.items parts.new.items bound.old.items bound.new.items result }
    ensures owed { AreOwed N.program floor cells.old bound.old.items owed.old
        → AreOwed N.program floor cells.new bound.new.items owed.new }
{
    let one = end_of(cells, left);
    let other = end_of(cells, right);
    meet(loaded, cells, one, other, floor, bound, owed, parts)
}

/// Sets one of two references to the other, or compares them.
#[inline(always)]
fn meet<N: Naming>(
    loaded: &Loaded,
    cells: &mut PlainCells<N>,
    one: Ref,
    other: Ref,
    floor: u32,
    bound: &mut Vec<u32>,
    owed: &mut Owed,
    parts: &mut Vec<Part>,
) -> Entered
    requires program { N.program ≡ named loaded.now }
    requires one_in_range { IsInRangeOrHalf N.program (length cells.old) one }
    requires other_in_range { IsInRangeOrHalf N.program (length cells.old) other }
    requires one_written { IsWrittenIfNumber (plain cells.old) one }
    requires other_written { IsWrittenIfNumber (plain cells.old) other }
    requires one_free { (cell : ℕ) → one ≡ Ref.Cell cell → word_at cells.old cell ≡ Ref.Free }
    requires other_free { (cell : ℕ) → other ≡ Ref.Cell cell → word_at cells.old cell ≡ Ref.Free }
    ensures meets { Meets N.program (record { left = one; right = other }) (plain cells.old) (plain cells.new)
        parts.old.items parts.new.items bound.old.items bound.new.items result }
    ensures owed { AreOwed N.program floor cells.old bound.old.items owed.old
        → AreOwed N.program floor cells.new bound.new.items owed.new }
{
    // Mostly the other one is a cell, so it is looked at first.
    match case_of(other, one) {
        Case::Half => Entered::GivenUp,
        Case::OneCell => Entered::Done,
        Case::SetLeft(cell) => take(loaded, cells, floor, bound, owed, cell, one),
        Case::SetRight(cell) => take(loaded, cells, floor, bound, owed, cell, other),
        Case::Compare => compare(loaded, cells, one, other, parts),
    }
}

/// Sets a free cell, which goes on the list. Where there is no room on the list, nothing is set.
#[inline(always)]
pub(crate) fn take<N: Naming>(
    loaded: &Loaded,
    cells: &mut PlainCells<N>,
    floor: u32,
    bound: &mut Vec<u32>,
    owed: &mut Owed,
    cell: u32,
    to: Ref,
) -> Entered
    requires program { N.program ≡ named loaded.now }
    requires in_row { cell < length cells.old }
    requires free { word_at cells.old cell ≡ Ref.Free }
    requires in_range { IsInRange N.program (length cells.old) to }
    requires falls { (other : ℕ) → to ≡ Ref.Cell other → other < cell }
    requires written { IsWrittenIfNumber (plain cells.old) to }
    ensures done { result ≡ Entered.Done → Sets cell to (plain cells.old) (plain cells.new)
        × (bound.new.items ≡ bound.old.items ++ cell ∷ []) }
    ensures apart { result ≢ Entered.Apart }
    ensures given_up { result ≡ Entered.GivenUp → OnlyReads (plain cells.old) (plain cells.new)
        × (bound.new.items ≡ bound.old.items) }
    ensures owed { AreOwed N.program floor cells.old bound.old.items owed.old
        → AreOwed N.program floor cells.new bound.new.items owed.new }
{
    if make_room(bound).is_err() {
        return Entered::GivenUp;
    }
    let _words = cells.len();
    owe(loaded, floor, cell, to, owed);
    cells.set(cell, to);
    bound.push_reserved(cell);
    Entered::Done
}

/// Sets a free cell to the structure or number that another one is set to. It goes on the list. Where there is no room
/// on the list, nothing is set.
#[inline(always)]
pub(crate) fn take_as<N: Naming>(
    cells: &mut PlainCells<N>,
    bound: &mut Vec<u32>,
    cell: u32,
    from: u32,
) -> Entered
    requires in_row { cell < length cells.old × from < length cells.old }
    requires free { word_at cells.old cell ≡ Ref.Free }
    requires below { (floor : ℕ) × IsBelow floor (word_at cells.old from) }
    ensures done { result ≡ Entered.Done → Sets cell (word_at cells.old from) (plain cells.old) (plain cells.new)
        × (bound.new.items ≡ bound.old.items ++ cell ∷ []) }
    ensures apart { result ≢ Entered.Apart }
    ensures given_up { result ≡ Entered.GivenUp → OnlyReads (plain cells.old) (plain cells.new)
        × (bound.new.items ≡ bound.old.items) }
    ensures owed { (floor : ℕ) (owed : Owed) → floor ≤ cell → IsBelow floor (word_at cells.old from)
        → AreOwed N.program floor cells.old bound.old.items owed
        → AreOwed N.program floor cells.new bound.new.items owed }
{
    if make_room(bound).is_err() {
        return Entered::GivenUp;
    }
    let _words = cells.len();
    cells.set_as(cell, from);
    bound.push_reserved(cell);
    Entered::Done
}

/// Compares two references, of which structures of one shape go on the list of parts.
#[inline(always)]
pub(crate) fn compare<N: Naming>(
    loaded: &Loaded,
    cells: &PlainCells<N>,
    one: Ref,
    other: Ref,
    parts: &mut Vec<Part>,
) -> Entered
    requires program { N.program ≡ named loaded.now }
    requires one_in_range { IsInRangeOrHalf N.program (length cells.now) one }
    requires other_in_range { IsInRangeOrHalf N.program (length cells.now) other }
    requires one_written { IsWrittenIfNumber (plain cells.now) one }
    requires other_written { IsWrittenIfNumber (plain cells.now) other }
    ensures { (bound : List ℕ) → Meets N.program (record { left = one; right = other }) (plain cells.now)
        (plain cells.now) parts.old.items parts.new.items bound bound result }
{
    let Some(first) = head_at(loaded, cells, one) else {
        return Entered::GivenUp;
    };
    let Some(second) = head_at(loaded, cells, other) else {
        return Entered::GivenUp;
    };
    match arguments_of_both(first, second) {
        None => Entered::Apart,
        Some(0) => Entered::Done,
        Some(_) => put(one, other, parts),
    }
}

/// Puts two structures on the list of parts, unless they are one.
#[inline(always)]
fn put(one: Ref, other: Ref, parts: &mut Vec<Part>) -> Entered
    ensures done { result ≡ Entered.Done → Puts one other parts.old.items parts.new.items }
    ensures apart { result ≢ Entered.Apart }
{
    let Ref::Node { node, base } = one else {
        return Entered::GivenUp;
    };
    let Ref::Node {
        node: there,
        base: by,
    } = other
    else {
        return Entered::GivenUp;
    };
    if node.0 == there.0 && base == by {
        return Entered::Done;
    }
    let part = Part {
        left: Structure { node, base },
        right: Structure {
            node: there,
            base: by,
        },
    };
    if make_room(parts).is_err() {
        return Entered::GivenUp;
    }
    parts.push_reserved(part);
    Entered::Done
}
