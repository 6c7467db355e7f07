//! The goals of an unfolding.

ghost use Rattle.std.specs.Prelude.{◌≡◌, ◌≤◌, ◌⊎◌, ℕ, true, false, [], ◌∷◌, ◌++◌, map, reverse, length, OnOk};
ghost use Rattle.std.specs.Prelude.{Some, slice_get};
ghost use Rattle.and_model.specs.Terms.{Term};
ghost use Rattle.and_model.specs.Programs.{call, arithmetic, Arithmetic, clause_at};
ghost use Rattle.and_cells.specs.Ranges.{IsGoalInRange};
ghost use Rattle.and_cells.specs.Parts.{named};
ghost use Rattle.and_program.specs.Loaded.{nodes_at, program_of, skeleton_of};
ghost use Rattle.and_program.specs.Skeletons;
ghost use Rattle.and_program.specs.Items.{node_item};
ghost use Rattle.and_branch_laws.specs.Kept.{item_at};
ghost use Rattle.and_branch_laws.specs.Reducing.{body_goals};
ghost use Rattle.and_proof.specs.Stacks.{is_goal_item, at_depth};

use and_model::{ClauseNo, Goal, NodeNo};
use and_program::{ItemNode, Loaded};
use std::alloc::{AllocError, Global};

/// A goal that is still to be come to, and the length of the path that a clause for it has.
#[derive(Clone, Copy, Debug)]
pub(crate) struct Ahead {
    pub goal: Goal,
    pub depth: u32,
}

/// A call that was replaced by a clause, and the length of the clause's path.
#[derive(Clone, Copy, Debug)]
pub(crate) struct Taken {
    pub call: Goal,
    pub clause: ClauseNo,
    pub depth: u32,
}

/// The goals of an unfolding, by what was done with them.
#[derive(Drop)]
pub(crate) struct Goals {
    /// Those that are still to be come to, the next one last.
    pub ahead: Vec<Ahead>,
    /// Arithmetic that was come to, in preorder.
    pub passed: Vec<Goal>,
    /// The calls that were replaced, in preorder.
    pub taken: Vec<Taken>,
}

impl Goals {
    /// No goal. Takes no memory.
    pub(crate) fn new(alloc: Global) -> Goals
        ensures ahead { result.ahead.items ≡ [] }
        ensures passed { result.passed.items ≡ [] }
        ensures taken { result.taken.items ≡ [] }
    {
        Goals {
            ahead: Vec::new(alloc),
            passed: Vec::new(alloc),
            taken: Vec::new(alloc),
        }
    }
}

/// Puts the calls and the arithmetic of a clause's body, whose frame begins at the node, on the stack, the
/// first of them last. An error is want of memory.
pub(crate) fn push_body(
    ahead: &mut Vec<Ahead>,
    loaded: &Loaded,
    clause: ClauseNo,
    node: u32,
    depth: u32,
) -> Result<(), AllocError>
    requires { clause.0 ≤ length (program_of loaded.now).clauses }
    ensures { OnOk result (ahead.new.items ≡ ahead.old.items ++ reverse (map (at_depth depth)
        (body_goals clause.0 node [] 0 (clause_at (program_of loaded.now) clause.0).body))) }
{
    let items = loaded.items(clause);
    let mut place = items.len();
    while place > 0 {
        place -= 1;
        push_item(ahead, items[place], clause, node, place, depth)?;
    }
    Ok(())
}

/// Puts an item, if it is a call or arithmetic, as a goal on the stack. An error is want of memory.
fn push_item(
    ahead: &mut Vec<Ahead>,
    item: ItemNode,
    clause: ClauseNo,
    node: u32,
    place: usize,
    depth: u32,
) -> Result<(), AllocError>
    ensures goal { is_goal_item (node_item item) ≡ true → OnOk result (ahead.new.items ≡ ahead.old.items
        ++ record { goal = record { node = node; item = place; clause = clause; base = node }; depth = depth } ∷ []) }
    ensures other { is_goal_item (node_item item) ≡ false → OnOk result (ahead.new.items ≡ ahead.old.items) }
{
    if is_goal(item) {
        push_goal(ahead, clause, node, place, depth)
    } else {
        Ok(())
    }
}

/// Whether the item is a call or arithmetic. Takes no memory.
fn is_goal(item: ItemNode) -> bool
    ensures { result ≡ is_goal_item (node_item item) }
{
    match item {
        ItemNode::Call { .. } => true,
        ItemNode::Equal { .. } => false,
        ItemNode::Is { .. } => true,
        ItemNode::Compare { .. } => true,
        ItemNode::Fail => false,
    }
}

/// Puts an item as a goal on the stack. An error is want of memory. (There is none for a body of 2^32
/// items.)
fn push_goal(
    ahead: &mut Vec<Ahead>,
    clause: ClauseNo,
    node: u32,
    place: usize,
    depth: u32,
) -> Result<(), AllocError>
    ensures { OnOk result (ahead.new.items ≡ ahead.old.items
        ++ record { goal = record { node = node; item = place; clause = clause; base = node }; depth = depth } ∷ []) }
{
    let Ok(item) = u32::try_from(place) else {
        return Err(AllocError);
    };
    let goal = Goal {
        node,
        item,
        clause,
        base: node,
    };
    ahead.push(Ahead { goal, depth })?;
    Ok(())
}

/// Whether a goal, which is a call or arithmetic, is a call. Takes no memory.
pub(crate) fn is_call(loaded: &Loaded, goal: Goal) -> bool
    requires in_range { (words : ℕ) × IsGoalInRange (named loaded.now) words goal }
    requires kind { ((term : Term) × (item_at (program_of loaded.now) goal ≡ call term))
        ⊎ ((a : Arithmetic) × (item_at (program_of loaded.now) goal ≡ arithmetic a)) }
    ensures call { result ≡ true → (term : Term) × (item_at (program_of loaded.now) goal ≡ call term) }
    ensures arithmetic { result ≡ false → (a : Arithmetic) × (item_at (program_of loaded.now) goal ≡ arithmetic a) }
{
    loaded.items(goal.clause)[goal.item as usize].is_call()
}

/// The node of a call, by its place in the body of a clause. Takes no memory.
pub(crate) fn call_at(loaded: &Loaded, clause: ClauseNo, item: u32) -> NodeNo
    requires clause { clause.0 ≤ length (program_of loaded.now).clauses }
    requires call { (node : ℕ)
        × (slice_get (nodes_at (skeleton_of loaded.now) clause.0).items item ≡ Some (Skeletons.call node)) }
    ensures { slice_get (nodes_at (skeleton_of loaded.now) clause.0).items item ≡ Some (Skeletons.call result.0) }
{
    let ItemNode::Call { goal } = loaded.items(clause)[item as usize] else {
        unreachable!()
    };
    goal
}
