//! Pairs of terms that are made one over any cells, by fuel, so far as that tells them apart.
//!
//! A cell is set only where some pair leads to it, and to what it has to be. So what is set in cells over
//! others holds of every row that has what is known below and in which the pairs have a solution.

ghost use Rattle.std.specs.Prelude.{◌≡◌, ◌≢◌, ◌<◌, ◌≤◌, ◌++◌, ◌∷◌, [], ℕ};
ghost use Rattle.and_model.specs.declared.reference.Ref.{Ref};
ghost use Rattle.and_cells.specs.Seen.{Keeps};
ghost use Rattle.and_cells.specs.Parts.{named, parts_of};
ghost use Rattle.and_unify.specs.Heads.{IsEnd};
ghost use Rattle.and_unify.specs.Meeting.{AreOfOneShape};
ghost use Rattle.and_unify.specs.Turns.{pairs_of};
ghost use Rattle.and_shared_determinacy.specs.Truths.{CanFollow, CanFollowPairs, LeadsOn, AreNeverOne};
ghost use Rattle.and_shared_determinacy.specs.Matches.{IsChainEnd, MatchesAll, NeverMatch};

use and_cells::{Bound, Cells, deref};
use and_model::Ref;
use and_program::Loaded;
use and_unify::cases::{Case, case_of};
use and_unify::heads::{Head, head_of};
use and_unify::structures::push_arguments;
use and_unify::{Pair, PairList};

/// What became of pairs.
#[derive(Clone, Copy, PartialEq, Eq, Debug)]
pub(crate) enum Matched {
    /// Nothing tells them apart.
    Same,
    /// They have no solution.
    Apart,
    /// The fuel was used up with a pair left.
    PutOff,
    /// Want of memory.
    Memory,
}

/// What became of one pair.
#[derive(Clone, Copy, PartialEq, Eq, Debug)]
enum Met {
    /// Its sides are one, as far as pairs behind it on the list are.
    On,
    /// Its sides are never one.
    Apart,
    /// Want of memory.
    Memory,
}

/// Makes pairs equal, without looking for circles. Each pair that is taken from the list takes 1 of the
/// fuel; the pairs of the arguments of structures go to its end.
pub(crate) fn match_all<C: Cells>(
    loaded: &Loaded,
    cells: &mut C,
    fuel: &mut u64,
    pairs: &mut PairList,
) -> Matched
    requires program { C.program ≡ named loaded.now }
    requires pairs { CanFollowPairs C.program (C.seen cells.old) pairs.old }
    ensures over { C.over cells.new ≡ C.over cells.old }
    ensures grew { C.Grew cells.old cells.new }
    ensures keeps { Keeps (C.seen cells.old) (C.seen cells.new) }
    ensures same { result ≡ Matched.Same → MatchesAll C.program pairs.old (C.seen cells.old) (C.seen cells.new) }
    ensures apart { result ≡ Matched.Apart → NeverMatch C.program pairs.old (C.seen cells.old) (C.seen cells.new) }
    ensures fuel { fuel.new ≤ fuel.old }
    ensures put_off { result ≡ Matched.PutOff → fuel.new ≡ 0 }
{
    loaded.skeleton_is_of_the_program();
    let mut next = 0;
    loop {
        if next >= pairs.len() {
            return Matched::Same;
        }
        if *fuel == 0 {
            return Matched::PutOff;
        }
        *fuel -= 1;
        let pair = *pairs.at(next);
        match meet(loaded, cells, pair, pairs) {
            Met::On => next += 1,
            Met::Apart => return Matched::Apart,
            Met::Memory => return Matched::Memory,
        }
    }
}

/// Follows both sides of a pair, and makes what they lead to one, or puts what is left to do on the list.
fn meet<C: Cells>(loaded: &Loaded, cells: &mut C, pair: Pair, pairs: &mut PairList) -> Met
    requires program { C.program ≡ named loaded.now }
    requires left { CanFollow C.program (C.seen cells.old) pair.left }
    requires right { CanFollow C.program (C.seen cells.old) pair.right }
    requires pairs { CanFollowPairs C.program (C.seen cells.old) pairs.old }
    ensures over { C.over cells.new ≡ C.over cells.old }
    ensures grew { C.Grew cells.old cells.new }
    ensures keeps { Keeps (C.seen cells.old) (C.seen cells.new) }
    ensures pairs { result ≡ Met.On → CanFollowPairs C.program (C.seen cells.new) pairs.new }
    ensures on { result ≡ Met.On
        → LeadsOn C.program pair.left pair.right (C.seen cells.old) (C.seen cells.new) pairs.old pairs.new }
    ensures apart { result ≡ Met.Apart
        → AreNeverOne C.program pair.left pair.right (C.seen cells.old) (C.seen cells.new) }
{
    let one = deref(cells, pair.left);
    let other = deref(cells, pair.right);
    meet_ends(loaded, cells, one, other, pairs)
}

/// The same of what two chains end at.
fn meet_ends<C: Cells>(
    loaded: &Loaded,
    cells: &mut C,
    one: Ref,
    other: Ref,
    pairs: &mut PairList,
) -> Met
    requires program { C.program ≡ named loaded.now }
    requires one { IsChainEnd C.program (C.seen cells.old) one }
    requires other { IsChainEnd C.program (C.seen cells.old) other }
    requires pairs { CanFollowPairs C.program (C.seen cells.old) pairs.old }
    ensures over { C.over cells.new ≡ C.over cells.old }
    ensures grew { C.Grew cells.old cells.new }
    ensures keeps { Keeps (C.seen cells.old) (C.seen cells.new) }
    ensures pairs { result ≡ Met.On → CanFollowPairs C.program (C.seen cells.new) pairs.new }
    ensures on { result ≡ Met.On
        → LeadsOn C.program one other (C.seen cells.old) (C.seen cells.new) pairs.old pairs.new }
    ensures apart { result ≡ Met.Apart → AreNeverOne C.program one other (C.seen cells.old) (C.seen cells.new) }
{
    match case_of(one, other) {
        Case::Half => Met::Apart,
        Case::OneCell => Met::On,
        Case::SetLeft(cell) => set(cells, cell, other, pairs),
        Case::SetRight(cell) => set(cells, cell, one, pairs),
        Case::Compare => compare(loaded, cells, one, other, pairs),
    }
}

/// Sets a cell to what it has to be. Where it was set meanwhile, the two go on the list again.
fn set<C: Cells>(cells: &mut C, cell: u32, to: Ref, pairs: &mut PairList) -> Met
    requires cell { cell < (C.seen cells.old).words }
    requires to { CanFollow C.program (C.seen cells.old) to }
    requires falls { (other : ℕ) → to ≡ Ref.Cell other → other < cell }
    requires pairs { CanFollowPairs C.program (C.seen cells.old) pairs.old }
    ensures over { C.over cells.new ≡ C.over cells.old }
    ensures grew { C.Grew cells.old cells.new }
    ensures keeps { Keeps (C.seen cells.old) (C.seen cells.new) }
    ensures pairs { result ≡ Met.On → CanFollowPairs C.program (C.seen cells.new) pairs.new }
    ensures on { result ≡ Met.On
        → LeadsOn C.program (Ref.Cell cell) to (C.seen cells.old) (C.seen cells.new) pairs.old pairs.new }
    ensures apart { result ≢ Met.Apart }
{
    match cells.bind(cell, to) {
        Bound::Won => Met::On,
        Bound::Already(_) => put_off(pairs, Ref::Cell(cell), to),
    }
}

/// Puts a pair on the list.
fn put_off(pairs: &mut PairList, left: Ref, right: Ref) -> Met
    ensures on { result ≡ Met.On → pairs.new ≡ pairs.old ++ record { left = left; right = right } ∷ [] }
    ensures apart { result ≢ Met.Apart }
{
    match pairs.push(left, right) {
        Ok(()) => Met::On,
        Err(_) => Met::Memory,
    }
}

/// Compares two numbers or structures. The pairs of the arguments of two structures go on the list.
fn compare<C: Cells>(
    loaded: &Loaded,
    cells: &mut C,
    one: Ref,
    other: Ref,
    pairs: &mut PairList,
) -> Met
    requires program { C.program ≡ named loaded.now }
    requires ends { IsEnd one × IsEnd other }
    requires one { CanFollow C.program (C.seen cells.old) one }
    requires other { CanFollow C.program (C.seen cells.old) other }
    requires pairs { CanFollowPairs C.program (C.seen cells.old) pairs.old }
    ensures over { C.over cells.new ≡ C.over cells.old }
    ensures grew { C.Grew cells.old cells.new }
    ensures keeps { Keeps (C.seen cells.old) (C.seen cells.new) }
    ensures pairs { result ≡ Met.On → CanFollowPairs C.program (C.seen cells.new) pairs.new }
    ensures on { result ≡ Met.On
        → LeadsOn C.program one other (C.seen cells.old) (C.seen cells.new) pairs.old pairs.new }
    ensures apart { result ≡ Met.Apart → AreNeverOne C.program one other (C.seen cells.old) (C.seen cells.new) }
{
    loaded.skeleton_is_of_the_program();
    let left = head_of(loaded, cells, one);
    let right = head_of(loaded, cells, other);
    if left != right {
        return Met::Apart;
    }
    match left {
        Head::Number(_) => Met::On,
        Head::Name { .. } => descend(loaded, one, other, pairs),
    }
}

/// Puts the pairs of the arguments of two structures of one shape on the list.
fn descend(loaded: &Loaded, one: Ref, other: Ref, pairs: &mut PairList) -> Met
    requires { (words : ℕ) × AreOfOneShape (named loaded.now) words one other }
    ensures on { result ≡ Met.On → pairs.new
        ≡ pairs.old ++ pairs_of (parts_of (named loaded.now) one) (parts_of (named loaded.now) other) }
    ensures apart { result ≢ Met.Apart }
{
    match push_arguments(loaded, one, other, pairs) {
        Ok(()) => Met::On,
        Err(_) => Met::Memory,
    }
}
