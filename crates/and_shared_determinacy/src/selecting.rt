//! The clauses of goals that are left over any cells.

ghost use Rattle.std.specs.Prelude.{◌≡◌, ◌≢◌, ◌≤◌, ◌+◌, ◌++◌, ◌∷◌, [], ℕ, true, Some, length, slice_get, All, OnOk};
ghost use Rattle.and_model.specs.Programs.{Of};
ghost use Rattle.and_model.specs.declared.limits.TheConstants.{MAX_LIMIT};
ghost use Rattle.and_model.specs.declared.numbers.ClauseNo.{ClauseNo};
ghost use Rattle.and_program.specs.Loaded.{nodes_at, program_of, skeleton_of};
ghost use Rattle.and_program.specs.Skeletons.{call, node_term};
ghost use Rattle.and_cells.specs.Ranges.{IsNodeInRange};
ghost use Rattle.and_cells.specs.Seen.{OnlyReads};
ghost use Rattle.and_cells.specs.Parts.{named};
ghost use Rattle.and_overlay.specs.Overlaid.{IsKnownFit};
ghost use Rattle.and_clause_index.specs.Selecting.{CanBeTried, IsNodeOver, IsNoCandidate, AreLeft};
ghost use Rattle.and_shared_determinacy.specs.Sifting.{AreSifted};
ghost use Rattle.and_clause_index.specs.Looks.{IsLookOver};
ghost use Rattle.and_clause_index.specs.Tables.{IsTableOf};

use crate::matching::{Matched, match_all};
use crate::weighing::{Weighed, weigh_guard};
use and_arith::WorkList;
use and_cells::Cells;
use and_clause_index::{Determinacy, Look};
use and_model::{ClauseList, ClauseNo, Goal, NodeNo, Ref};
use and_overlay::{Overlay, Scratch};
use and_program::{ItemNode, Loaded};
use and_unify::PairList;
use std::alloc::{AllocError, Global};

/// What became of a selection.
#[derive(Clone, Copy, PartialEq, Eq, Debug)]
pub enum Selected {
    /// The list has the clauses that are left.
    Clauses,
    /// The fuel was used up first.
    Unsure,
    /// Want of memory.
    Memory,
}

/// What clauses are tried with, kept by the caller and used again.
#[derive(Drop)]
pub struct Selector {
    pairs: PairList,
    values: WorkList,
}

/// What became of the trial of a clause.
#[derive(Clone, Copy, PartialEq, Eq, Debug)]
enum Tried {
    /// Nothing is known against it.
    Stays,
    /// It is no candidate.
    Falls,
    /// The fuel was used up.
    PutOff,
    /// Want of memory.
    Memory,
}

impl Selector {
    /// Nothing was tried yet. Takes no memory.
    pub fn new(alloc: Global) -> Selector {
        Selector {
            pairs: PairList::new(alloc),
            values: WorkList::new(alloc),
        }
    }
}

/// A frame of so many words has room for the variables of each clause.
const FRAME: u32 = 256;

/// Fills a list with the clauses of a goal that are left, in textual order. A clause is left out where
/// its head and the goal have no common solution under what is known, or a comparison of its guard is
/// ground there and does not hold. Each pair and each part of an expression takes 1 of the fuel. A clause
/// that a look at the goal tells apart takes none, nor does one that alone serves its first argument: that
/// is left without a trial, since to reduce the goal by it tells as much.
///
/// The cells have so many words. What is set on trial is kept apart, so that none of them changes.
pub fn select<C: Cells>(
    table: &Determinacy,
    loaded: &Loaded,
    cells: &mut C,
    words: u32,
    goal: Goal,
    fuel: &mut u64,
    scratch: &mut Scratch<C>,
    selector: &mut Selector,
    out: &mut ClauseList,
) -> Selected
    requires program { C.program ≡ named loaded.now }
    requires table { IsTableOf C.program table.now }
    requires words { words ≡ (C.seen cells.old).words }
    requires short { words ≤ MAX_LIMIT }
    requires fits { IsKnownFit C.program (C.seen cells.old) }
    requires goal { CanBeTried C.program words goal }
    requires fuel { 1 ≤ fuel.old }
    ensures over { C.over cells.new ≡ C.over cells.old }
    ensures grew { C.Grew cells.old cells.new }
    ensures reads { OnlyReads (C.seen cells.old) (C.seen cells.new) }
    ensures left { result ≡ Selected.Clauses → AreLeft C.program (C.seen cells.new) goal out.new }
    ensures fuel { result ≢ Selected.Memory → fuel.new ≤ fuel.old }
    ensures unsure { result ≡ Selected.Unsure → fuel.new ≡ 0 }
{
    empty(out);
    if scratch.make_room(words + FRAME).is_err() {
        return Selected::Memory;
    }
    let node = call_node(loaded, goal);
    let mut overlay = Overlay::over(cells, words, FRAME, scratch);
    let look = look_through(table, loaded, &mut overlay, node, goal.base);
    let clauses = table.clauses(node, look.first());
    sift(
        table,
        loaded,
        &mut overlay,
        words,
        node,
        goal.base,
        &look,
        clauses,
        fuel,
        selector,
        out,
    )
}

/// Looks at a call, whose node is given, in the frame at the base, through an overlay in which nothing is
/// set. Takes no memory.
fn look_through<'a, C: Cells>(
    table: &Determinacy,
    loaded: &Loaded,
    overlay: &mut Overlay<'a, C>,
    node: NodeNo,
    base: u32,
) -> Look
    requires program { C.program ≡ named loaded.now }
    requires node { IsNodeInRange C.program overlay.old.below node.0 base }
    requires nothing { overlay.old.scratch.now.settings.items ≡ [] }
    ensures cells_name { overlay.new.cells.ghost_name ≡ overlay.old.cells.ghost_name }
    ensures scratch_name { overlay.new.scratch.ghost_name ≡ overlay.old.scratch.ghost_name }
    ensures below { overlay.new.below ≡ overlay.old.below }
    ensures room { overlay.new.scratch.now.places.room ≡ overlay.old.scratch.now.places.room }
    ensures over { C.over overlay.new.cells.now ≡ C.over overlay.old.cells.now }
    ensures grew { C.Grew overlay.old.cells.now overlay.new.cells.now }
    ensures reads { OnlyReads (C.seen overlay.old.cells.now) (C.seen overlay.new.cells.now) }
    ensures look { IsLookOver C.program (C.seen overlay.new.cells.now) node.0 base result }
{
    Look::at(table, loaded, overlay, node, base)
}

/// Puts those of the clauses on a list that are left of a call, whose node is given, in the frame at the
/// base, and at which there was a look.
fn sift<'a, C: Cells>(
    table: &Determinacy,
    loaded: &Loaded,
    overlay: &mut Overlay<'a, C>,
    words: u32,
    node: NodeNo,
    base: u32,
    look: &Look,
    clauses: &[ClauseNo],
    fuel: &mut u64,
    selector: &mut Selector,
    out: &mut ClauseList,
) -> Selected
    requires program { C.program ≡ named loaded.now }
    requires words { words ≡ overlay.old.below }
    requires short { words ≤ MAX_LIMIT }
    requires room { words + 256 ≤ overlay.old.scratch.now.places.room }
    requires node { IsNodeInRange C.program words node.0 base }
    requires table { IsTableOf C.program table.now }
    requires look { IsLookOver C.program (C.seen overlay.old.cells.now) node.0 base look.now }
    requires clauses { All (λ (c : ClauseNo). Of C.program.program (node_term C.program.skeleton.nodes node.0) c.0)
        clauses.now }
    requires empty { out.old ≡ [] }
    ensures cells_name { overlay.new.cells.ghost_name ≡ overlay.old.cells.ghost_name }
    ensures scratch_name { overlay.new.scratch.ghost_name ≡ overlay.old.scratch.ghost_name }
    ensures over { C.over overlay.new.cells.now ≡ C.over overlay.old.cells.now }
    ensures grew { C.Grew overlay.old.cells.now overlay.new.cells.now }
    ensures reads { OnlyReads (C.seen overlay.old.cells.now) (C.seen overlay.new.cells.now) }
    ensures sifted { result ≡ Selected.Clauses
        → AreSifted (IsNoCandidate C.program (C.seen overlay.new.cells.now) node.0 base) clauses.now out.new }
    ensures fuel { result ≢ Selected.Memory → fuel.new ≤ fuel.old }
    ensures unsure { result ≡ Selected.Unsure → fuel.new ≡ 0 }
{
    let is_alone = clauses.len() == 1;
    for clause in clauses {
        match try_clause(
            table, loaded, overlay, words, node, base, look, *clause, is_alone, fuel, selector,
        ) {
            Tried::Stays => {
                if put(out, *clause).is_err() {
                    return Selected::Memory;
                }
            }
            Tried::Falls => {}
            Tried::PutOff => return Selected::Unsure,
            Tried::Memory => return Selected::Memory,
        }
    }
    Selected::Clauses
}

/// Tries a clause of a call, whose node is given, in the frame at the base, unless a look at the call tells
/// it apart. One that stands alone stays without a trial: to reduce the call by it tells as much.
fn try_clause<'a, C: Cells>(
    table: &Determinacy,
    loaded: &Loaded,
    overlay: &mut Overlay<'a, C>,
    words: u32,
    node: NodeNo,
    base: u32,
    look: &Look,
    clause: ClauseNo,
    is_alone: bool,
    fuel: &mut u64,
    selector: &mut Selector,
) -> Tried
    requires program { C.program ≡ named loaded.now }
    requires words { words ≡ overlay.old.below }
    requires short { words ≤ MAX_LIMIT }
    requires room { words + 256 ≤ overlay.old.scratch.now.places.room }
    requires node { IsNodeInRange C.program words node.0 base }
    requires table { IsTableOf C.program table.now }
    requires look { IsLookOver C.program (C.seen overlay.old.cells.now) node.0 base look.now }
    requires of { Of C.program.program (node_term C.program.skeleton.nodes node.0) clause.0 }
    ensures cells_name { overlay.new.cells.ghost_name ≡ overlay.old.cells.ghost_name }
    ensures scratch_name { overlay.new.scratch.ghost_name ≡ overlay.old.scratch.ghost_name }
    ensures below { overlay.new.below ≡ overlay.old.below }
    ensures room { overlay.new.scratch.now.places.room ≡ overlay.old.scratch.now.places.room }
    ensures over { C.over overlay.new.cells.now ≡ C.over overlay.old.cells.now }
    ensures grew { C.Grew overlay.old.cells.now overlay.new.cells.now }
    ensures reads { OnlyReads (C.seen overlay.old.cells.now) (C.seen overlay.new.cells.now) }
    ensures falls { result ≡ Tried.Falls → IsNoCandidate C.program (C.seen overlay.new.cells.now) node.0 base clause }
    ensures fuel { result ≢ Tried.Memory → fuel.new ≤ fuel.old }
    ensures put_off { result ≡ Tried.PutOff → fuel.new ≡ 0 }
{
    if is_alone {
        return Tried::Stays;
    }
    if look.is_apart(table, clause) {
        return Tried::Falls;
    }
    loaded.skeleton_is_of_the_program();
    overlay.begin_again(FRAME);
    let call = loaded.resolve(node, base);
    let head = loaded.resolve(loaded.head(clause), words);
    if !ask(&mut selector.pairs, call, head) {
        return Tried::Memory;
    }
    match match_all(loaded, overlay, fuel, &mut selector.pairs) {
        Matched::Same => {
            let items = loaded.items(clause);
            let weighed = weigh_guard(loaded, overlay, words, items, fuel, &mut selector.values);
            outcome(weighed)
        }
        Matched::Apart => Tried::Falls,
        Matched::PutOff => Tried::PutOff,
        Matched::Memory => Tried::Memory,
    }
}

/// Asks for one pair. It answers whether there was memory.
fn ask(pairs: &mut PairList, left: Ref, right: Ref) -> bool
    ensures { result ≡ true → pairs.new ≡ record { left = left; right = right } ∷ [] }
{
    pairs.clear();
    match pairs.push(left, right) {
        Ok(()) => true,
        Err(_) => false,
    }
}

/// What a guard says of its clause.
fn outcome(weighed: Weighed) -> Tried
    ensures falls { result ≡ Tried.Falls → weighed ≡ Weighed.Fails }
    ensures put_off { result ≡ Tried.PutOff → weighed ≡ Weighed.PutOff }
    ensures memory { weighed ≡ Weighed.Memory → result ≡ Tried.Memory }
{
    match weighed {
        Weighed::Stands => Tried::Stays,
        Weighed::Fails => Tried::Falls,
        Weighed::PutOff => Tried::PutOff,
        Weighed::Memory => Tried::Memory,
    }
}

/// The node of a goal, which is a call.
pub(crate) fn call_node(loaded: &Loaded, goal: Goal) -> NodeNo
    requires { (words : ℕ) × CanBeTried (named loaded.now) words goal }
    ensures { (words : ℕ) → CanBeTried (named loaded.now) words goal
        → IsNodeOver (named loaded.now) words goal result.0 }
{
    loaded.skeleton_is_of_the_program();
    item_node(loaded, goal.clause, goal.item)
}

/// The node of a call, by its place in the body of a clause.
fn item_node(loaded: &Loaded, clause: ClauseNo, item: u32) -> NodeNo
    requires clause { clause.0 ≤ length (program_of loaded.now).clauses }
    requires call { (node : ℕ)
        × (slice_get (nodes_at (skeleton_of loaded.now) clause.0).items item ≡ Some (call node)) }
    ensures { slice_get (nodes_at (skeleton_of loaded.now) clause.0).items item ≡ Some (call result.0) }
{
    match loaded.items(clause)[item as usize] {
        ItemNode::Call { goal } => goal,
        ItemNode::Equal { left: _, right: _ } => unreachable!(),
        ItemNode::Is {
            left: _,
            right: _,
            pair: _,
        } => unreachable!(),
        ItemNode::Compare {
            relation: _,
            left: _,
            right: _,
        } => unreachable!(),
        ItemNode::Fail => unreachable!(),
    }
}

/// Takes out all clauses of a list.
fn empty(list: &mut ClauseList)
    ensures { list.new ≡ [] }
{
    while list.pop().is_some() {}
}

/// Puts a clause at the end of a list. An error is want of memory.
fn put(list: &mut ClauseList, clause: ClauseNo) -> Result<(), AllocError>
    ensures { OnOk result (list.new ≡ list.old ++ clause ∷ []) }
{
    list.push(clause).map_err(|_| AllocError)
}
