//! Unification over any cells, by fuel (Robinson, 1965; classes of places that were made equal: Huet,
//! 1976). It binds without looking for circles.

ghost use Rattle.std.specs.Prelude.{◌≡◌, ◌≤◌, ◌⊎◌, IfSome};
ghost use Rattle.and_cells.specs.Seen.{Keeps};
ghost use Rattle.and_cells.specs.Parts.{named};
ghost use Rattle.and_unify.specs.Pairs.{AreInRange, AreWritten};
ghost use Rattle.and_unify.specs.Setting.{Lists};
ghost use Rattle.and_unify.specs.Unifying.{Unifies, Spends};
ghost use Rattle.and_unify.specs.Descending.{SetPlaces, Suffice};
ghost use Rattle.and_unify.specs.declared.unifying.Unified.{Unified};

use crate::descending::{descend_then_solve, greatest_node};
use crate::pairs::PairList;
use crate::turning::{Turn, Work, take_turn};
use and_cells::Cells;
use and_model::Ref;
use and_program::Loaded;
use std::alloc::Global;

/// So many structures more than the greatest node among pairs has a number are descended into plainly before classes
/// are made.
const PLAIN_STRUCTURES: u64 = 1024;

/// What became of pairs.
#[derive(Clone, Copy, PartialEq, Eq, Debug)]
pub enum Unified {
    /// All pairs are equal under what is known.
    Same,
    /// These two, to which some pair led, are never the same term: they differ in name, number of
    /// arguments or value, or one of them is a word of a pair.
    Apart { left: Ref, right: Ref },
    /// The fuel was used up with a pair left. The pairs that are left stay in the list.
    PutOff,
    /// Want of memory. The list is spent.
    Memory,
}

/// Makes the pairs equal in the most general way, without looking for circles.
///
/// At first pairs are met plainly, by a descent into so many structures at most as the greatest node that the
/// pairs name has a number, and 1024 more, unless there is less fuel than that; it takes none of the
/// fuel. Of what is left then, each place of
/// the left sides takes 1 of the fuel when it is first come to, and nothing later, however often it is come
/// to. So the fuel is never used up with a pair left where the left sides have at most as many places as
/// there was fuel.
pub fn unify<C: Cells>(
    alloc: Global,
    loaded: &Loaded,
    cells: &mut C,
    fuel: &mut u64,
    pairs: &mut PairList,
) -> Unified
    requires program { C.program ≡ named loaded.now }
    requires fuel { 1 ≤ fuel.old }
    requires in_range { AreInRange C.program (C.seen cells.old).words pairs.old }
    requires written { AreWritten (C.seen cells.old) pairs.old }
    ensures over { C.over cells.new ≡ C.over cells.old }
    ensures grew { C.Grew cells.old cells.new }
    ensures keeps { Keeps (C.seen cells.old) (C.seen cells.new) }
    ensures unifies { Unifies C.program (C.seen cells.old) (C.seen cells.new) pairs.old pairs.new result }
    ensures spends { Spends C.program (C.seen cells.new) pairs.old pairs.new fuel.old fuel.new result }
{
    let mut bound = Vec::new(alloc);
    let most = u64::from(greatest_node(pairs)) + PLAIN_STRUCTURES;
    if *fuel < most {
        return solve(alloc, loaded, cells, fuel, pairs, &mut bound);
    }
    descend_then_solve(loaded, cells, most, fuel, pairs, &mut bound)
}

/// The same, where the cells that are set here are also put on a list.
pub(crate) fn solve<C: Cells>(
    alloc: Global,
    loaded: &Loaded,
    cells: &mut C,
    fuel: &mut u64,
    pairs: &mut PairList,
    bound: &mut Vec<u32>,
) -> Unified
    requires program { C.program ≡ named loaded.now }
    requires fuel { 1 ≤ fuel.old }
    requires in_range { AreInRange C.program (C.seen cells.old).words pairs.old }
    requires written { AreWritten (C.seen cells.old) pairs.old }
    ensures over { C.over cells.new ≡ C.over cells.old }
    ensures grew { C.Grew cells.old cells.new }
    ensures keeps { Keeps (C.seen cells.old) (C.seen cells.new) }
    ensures unifies { Unifies C.program (C.seen cells.old) (C.seen cells.new) pairs.old pairs.new result }
    ensures spends { Spends C.program (C.seen cells.new) pairs.old pairs.new fuel.old fuel.new result }
    // Where the row is told, what was set here is on the list, and leads on from the sides.
    ensures sets { IfSome (C.seen cells.old).told
        (λ row. SetPlaces C.program (C.seen cells.old) (C.seen cells.new) pairs.old bound.new.items) }
    ensures bound { Lists (C.seen cells.old) (C.seen cells.new) bound.old.items bound.new.items }
    ensures suffice { (result ≡ Unified.Same) ⊎ (result ≡ Unified.PutOff)
        → Suffice C.program (C.seen cells.new) pairs.new pairs.old }
{
    loaded.skeleton_is_of_the_program();
    let mut work = Work::new(alloc);
    loop {
        match take_turn(loaded, cells, fuel, pairs, &mut work, bound) {
            Turn::Again => {}
            Turn::Over(unified) => return unified,
        }
    }
}
