//! The goals of a body, put where the next goals are.

ghost use Rattle.std.specs.Prelude.{◌≡◌, ◌≤◌, ◌⊎◌, ℕ, true, false, [], ◌∷◌, ◌++◌, drop, map, length, OnOk, IfOk};
ghost use Rattle.and_model.specs.Terms.{Term};
ghost use Rattle.and_model.specs.Programs.{call, arithmetic, Arithmetic, clause_at};
ghost use Rattle.and_cells.specs.Ranges.{IsGoalInRange};
ghost use Rattle.and_cells.specs.Parts.{named};
ghost use Rattle.and_program.specs.Loaded.{program_of, skeleton_of};
ghost use Rattle.and_program.specs.Items.{is_call_node, node_item};
ghost use Rattle.and_program.specs.Skeletons;
ghost use Rattle.and_branch_laws.specs.Kept.{goal_of, item_at, node_item_at};
ghost use Rattle.and_branch_laws.specs.Reducing.{goal_at, body_goals};
ghost use Rattle.and_branch_parts.specs.Next.{goals_from, is_goal_item, HasPut};

use and_model::{ClauseNo, Goal, GoalList};
use and_pending::PendingGoals;
use and_program::{ItemNode, Loaded};
use std::alloc::{AllocError, Global};

/// Puts the calls and the arithmetic of a clause's body, which has these items and whose frame begins at the node, at
/// the place of work: those of the items from a place on. An error is want of memory. (There is none for a body of 2^32
/// items.)
#[inline(always)]
pub fn push_body_from(
    goals: &mut PendingGoals,
    _loaded: &Loaded,
    items: &[ItemNode],
    from: u32,
    clause: ClauseNo,
    node: u32,
) -> Result<(), AllocError>
    requires items { map (Skeletons.item_of (skeleton_of _loaded.now).nodes) (map node_item items.now)
        ≡ (clause_at (program_of _loaded.now) clause.0).body }
    requires from { from ≤ length items.now }
    ensures { OnOk result (HasPut
        (goals_from clause.0 node from (drop from (clause_at (program_of _loaded.now) clause.0).body))
        goals.old goals.new) }
{
    let Ok(count) = u32::try_from(items.len()) else {
        return Err(AllocError);
    };
    let mut place = count;
    while place > from {
        place -= 1;
        push_item(goals, items[place as usize], clause, node, place)?;
    }
    Ok(())
}

/// Puts an item, if it is a call or arithmetic, as a goal at the place of work. An error is want of memory.
fn push_item(
    goals: &mut PendingGoals,
    item: ItemNode,
    clause: ClauseNo,
    node: u32,
    place: u32,
) -> Result<(), AllocError>
    ensures goal { is_goal_item (node_item item) ≡ true
        → OnOk result (HasPut (goal_of (goal_at clause.0 node [] place) ∷ []) goals.old goals.new) }
    ensures other { is_goal_item (node_item item) ≡ false → OnOk result (goals.new ≡ goals.old) }
{
    if is_goal(item) {
        push_goal(goals, clause, node, place)
    } else {
        Ok(())
    }
}

/// Whether the item is arithmetic. Takes no memory.
pub fn is_arithmetic_item(item: ItemNode) -> bool
    ensures goal { result ≡ true → is_goal_item (node_item item) ≡ true }
    ensures other { result ≡ true → is_call_node (node_item item) ≡ false }
{
    match item {
        ItemNode::Call { .. } => false,
        ItemNode::Equal { .. } => false,
        ItemNode::Is { .. } => true,
        ItemNode::Compare { .. } => true,
        ItemNode::Fail => false,
    }
}

/// Whether the item is a call or arithmetic.
fn is_goal(item: ItemNode) -> bool
    ensures { result ≡ is_goal_item (node_item item) }
{
    match item {
        ItemNode::Call { .. } => true,
        ItemNode::Equal { .. } => false,
        ItemNode::Is { .. } => true,
        ItemNode::Compare { .. } => true,
        ItemNode::Fail => false,
    }
}

/// Puts an item as a goal at the place of work. An error is want of memory.
fn push_goal(
    goals: &mut PendingGoals,
    clause: ClauseNo,
    node: u32,
    place: u32,
) -> Result<(), AllocError>
    ensures { OnOk result (HasPut (goal_of (goal_at clause.0 node [] place) ∷ []) goals.old goals.new) }
{
    goals.push(Goal {
        node,
        item: place,
        clause,
        base: node,
    })
}

/// Whether a goal, which is a call or arithmetic, is a call. Takes no memory.
pub fn is_call(loaded: &Loaded, goal: Goal) -> bool
    requires in_range { (words : ℕ) × IsGoalInRange (named loaded.now) words goal }
    requires kind { ((term : Term) × (item_at (program_of loaded.now) goal ≡ call term))
        ⊎ ((a : Arithmetic) × (item_at (program_of loaded.now) goal ≡ arithmetic a)) }
    ensures call { result ≡ true → (term : Term) × (item_at (program_of loaded.now) goal ≡ call term) }
    ensures arithmetic { result ≡ false → (a : Arithmetic) × (item_at (program_of loaded.now) goal ≡ arithmetic a) }
{
    loaded.items(goal.clause)[goal.item as usize].is_call()
}

/// The item of a goal that is in range. Takes no memory.
pub fn item_of(loaded: &Loaded, goal: Goal) -> ItemNode
    requires { (words : ℕ) × IsGoalInRange (named loaded.now) words goal }
    ensures { node_item result ≡ node_item_at (named loaded.now) goal }
{
    loaded.items(goal.clause)[goal.item as usize]
}

/// Puts a goal at the end. An error is want of memory.
fn put(list: &mut GoalList, goal: Goal) -> Result<(), AllocError>
    ensures { OnOk result (list.new ≡ list.old ++ goal ∷ []) }
{
    match list.push(goal) {
        Ok(()) => Ok(()),
        Err(_) => Err(AllocError),
    }
}

/// A list of these goals. An error is want of memory.
pub fn list_of(alloc: Global, goals: &[Goal]) -> Result<GoalList, AllocError>
    ensures { IfOk result (λ list. list ≡ goals.now) }
{
    let mut list = GoalList::new(alloc);
    for goal in goals {
        put(&mut list, *goal)?;
    }
    Ok(list)
}
