//! What unification is asked in a new frame.

ghost use Rattle.std.specs.Prelude.{◌≡◌, ◌≤◌, ◌∷◌, ◌++◌, [], ℕ, true, false, Some, Ok, length, slice_get, OnOk};
ghost use Rattle.std.specs.Prelude.{Contains};
ghost use Rattle.and_model.specs.Programs.{clause_at, fail};
ghost use Rattle.and_model.specs.Stands.{term_of};
ghost use Rattle.and_program.specs.Items.{node_item};
ghost use Rattle.and_program.specs.Loaded.{nodes_at, program_of, skeleton_of};
ghost use Rattle.and_program.specs.Skeletons.{call, equal, item_of};
ghost use Rattle.and_cells.specs.Ranges.{IsNodeInRange};
ghost use Rattle.and_cells.specs.Parts.{named};
ghost use Rattle.and_cells.specs.Seen.{word_at};
ghost use Rattle.and_unify.specs.Pairs.{equations_of_pairs};
ghost use Rattle.and_unify.specs.Places.{sides};
ghost use Rattle.and_branch_laws.specs.Reducing.{body_equations};
ghost use Rattle.and_branch_laws.specs.Variables.{placed};
ghost use Rattle.and_branch_laws.specs.Goals.{CanBeJudged, IsNodeOf};
ghost use Rattle.and_step_laws.specs.Asking.{AreReady, Ask, CanBeAsked};
ghost use Rattle.and_step_laws.specs.Frames.{IsFrame};
ghost use Rattle.and_heads.specs.Calls.{call_and_head};
ghost use Rattle.and_reduction.specs.Items.{AreItemsOf, AsksNothing};
ghost use Rattle.and_reduction.specs.Writes.{AskNodes};

use and_cells::{Naming, PlainCells};
use and_model::{ClauseNo, Goal, NodeNo};
use and_program::{ItemNode, Loaded};
use and_unify::PairList;
use std::alloc::AllocError;

/// The node of a call, by its place in the body of a clause.
fn call_at(loaded: &Loaded, clause: ClauseNo, item: u32) -> NodeNo
    requires clause { clause.0 ≤ length (program_of loaded.now).clauses }
    requires call { (node : ℕ)
        × (slice_get (nodes_at (skeleton_of loaded.now) clause.0).items item ≡ Some (call node)) }
    ensures { slice_get (nodes_at (skeleton_of loaded.now) clause.0).items item ≡ Some (call result.0) }
{
    match loaded.items(clause)[item as usize] {
        ItemNode::Call { goal } => goal,
        ItemNode::Equal { left: _, right: _ } => unreachable!(),
        ItemNode::Is {
            left: _,
            right: _,
            pair: _,
        } => unreachable!(),
        ItemNode::Compare {
            relation: _,
            left: _,
            right: _,
        } => unreachable!(),
        ItemNode::Fail => unreachable!(),
    }
}

/// The node of a goal, which is a call. Takes no memory.
pub fn node_of<N: Naming>(loaded: &Loaded, cells: &PlainCells<N>, goal: Goal) -> NodeNo
    requires program { N.program ≡ named loaded.now }
    requires goal { CanBeJudged N.program cells.now goal }
    ensures { IsNodeOf N.program cells.now goal result.0 }
{
    loaded.skeleton_is_of_the_program();
    call_at(loaded, goal.clause, goal.item)
}

/// Asks that a node in the frame at the base, which is a call, be made one with a node in the frame at the floor, and
/// nothing else. An error is want of memory.
pub(crate) fn ask_call<N: Naming>(
    loaded: &Loaded,
    cells: &PlainCells<N>,
    floor: u32,
    call: NodeNo,
    base: u32,
    head: NodeNo,
    pairs: &mut PairList,
) -> Result<(), AllocError>
    requires program { N.program ≡ named loaded.now }
    requires call { IsNodeInRange N.program (length cells.now) call.0 base }
    requires head { IsNodeInRange N.program (length cells.now) head.0 floor }
    ensures { OnOk result (pairs.new ≡ call_and_head N.program base call.0 floor head.0) }
{
    let call = loaded.resolve(call, base);
    let head = loaded.resolve(head, floor);
    pairs.clear();
    pairs.push(call, head)?;
    Ok(())
}

/// Whether none of the items of a body asks for anything: none is `=` or `fail`.
#[inline(always)]
pub(crate) fn ask_nothing(items: &[ItemNode]) -> bool
    ensures { result ≡ true → AsksNothing items.now }
{
    for item in items {
        if asks(item) {
            return false;
        }
    }
    true
}

/// Whether an item asks for something: it is `=` or `fail`.
#[inline(always)]
fn asks(item: &ItemNode) -> bool
    ensures { result ≡ false → AsksNothing (item.now ∷ []) }
{
    match item {
        ItemNode::Call { goal: _ } => false,
        ItemNode::Is {
            left: _,
            right: _,
            pair: _,
        } => false,
        ItemNode::Compare {
            relation: _,
            left: _,
            right: _,
        } => false,
        ItemNode::Equal { left: _, right: _ } => true,
        ItemNode::Fail => true,
    }
}

/// Asks for what the `=` items of the clause's body, which has these items, say in its frame, and answers whether no
/// item is `fail`. An error is want of memory.
pub(crate) fn ask_items<N: Naming>(
    loaded: &Loaded,
    cells: &PlainCells<N>,
    _clause: ClauseNo,
    items: &[ItemNode],
    floor: u32,
    pairs: &mut PairList,
) -> Result<bool, AllocError>
    requires program { N.program ≡ named loaded.now }
    requires clause { _clause.0 ≤ length N.program.program.clauses }
    requires items { AreItemsOf N.program _clause.0 items.now }
    requires frame { IsFrame N.program cells.now _clause.0 floor }
    requires ready { AreReady N.program cells.now floor pairs.old }
    ensures asked { result ≡ Ok true → Ask N.program cells.now floor pairs.new
        (equations_of_pairs N.program (word_at cells.now) pairs.old ++ body_equations (placed floor)
        (clause_at N.program.program _clause.0).body) }
    ensures failing { result ≡ Ok false → Contains (clause_at N.program.program _clause.0).body fail }
    ensures nodes { result ≡ Ok true → AskNodes N.program floor (sides pairs.old) pairs.new }
{
    loaded.skeleton_is_of_the_program();
    for item in items {
        if !ask_item(loaded, cells, floor, *item, pairs)? {
            return Ok(false);
        }
    }
    Ok(true)
}

/// Asks for what an item says, if it is `=`, and answers whether it is not `fail`. An error is want of
/// memory.
#[inline(always)]
fn ask_item<N: Naming>(
    loaded: &Loaded,
    cells: &PlainCells<N>,
    floor: u32,
    item: ItemNode,
    pairs: &mut PairList,
) -> Result<bool, AllocError>
    requires program { N.program ≡ named loaded.now }
    requires item { CanBeAsked N.program cells.now floor (node_item item) }
    requires ready { AreReady N.program cells.now floor pairs.old }
    ensures asked { result ≡ Ok true
        → Ask N.program cells.now floor pairs.new (equations_of_pairs N.program (word_at cells.now) pairs.old
        ++ body_equations (placed floor) (item_of N.program.skeleton.nodes (node_item item) ∷ [])) }
    ensures failing { result ≡ Ok false → item ≡ ItemNode.Fail }
    ensures nodes { result ≡ Ok true → AskNodes N.program floor (sides pairs.old) pairs.new }
{
    match item {
        ItemNode::Equal { left, right } => {
            ask_equal(loaded, cells, floor, left, right, pairs)?;
            Ok(true)
        }
        ItemNode::Call { goal: _ } => Ok(true),
        ItemNode::Is {
            left: _,
            right: _,
            pair: _,
        } => Ok(true),
        ItemNode::Compare {
            relation: _,
            left: _,
            right: _,
        } => Ok(true),
        ItemNode::Fail => Ok(false),
    }
}

/// Asks that two nodes be made one in a frame. An error is want of memory. This stands in a call of its own, so that
/// a body without `=` is passed over in a few steps.
#[inline(never)]
fn ask_equal<N: Naming>(
    loaded: &Loaded,
    cells: &PlainCells<N>,
    floor: u32,
    left: NodeNo,
    right: NodeNo,
    pairs: &mut PairList,
) -> Result<(), AllocError>
    requires program { N.program ≡ named loaded.now }
    requires item { CanBeAsked N.program cells.now floor (equal left.0 right.0) }
    requires ready { AreReady N.program cells.now floor pairs.old }
    ensures asked { OnOk result (Ask N.program cells.now floor pairs.new
        (equations_of_pairs N.program (word_at cells.now) pairs.old
        ++ body_equations (placed floor) (item_of N.program.skeleton.nodes (equal left.0 right.0) ∷ []))) }
    ensures nodes { OnOk result (AskNodes N.program floor (sides pairs.old) pairs.new) }
{
    loaded.skeleton_is_of_the_program();
    let left = loaded.resolve(left, floor);
    let right = loaded.resolve(right, floor);
    pairs.push(left, right)?;
    Ok(())
}
