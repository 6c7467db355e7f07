//! The goals of bodies.

ghost use Rattle.std.specs.Prelude.{◌≡◌, ◌≤◌, ◌++◌, ◌∷◌, [], List, length, map, reverse, IfSome, IfNone, OnOk, Some};
ghost use Rattle.std.specs.Prelude.{None};
ghost use Rattle.and_model.specs.Programs.{clause_at};
ghost use Rattle.and_program.specs.Items.{node_item};
ghost use Rattle.and_program.specs.Loaded.{program_of};
ghost use Rattle.and_program.specs.Skeletons.{Shape, item_of};
ghost use Rattle.and_branch_laws.specs.Kept.{goal_of};
ghost use Rattle.and_branch_laws.specs.Reducing.{body_goals};
ghost use Rattle.and_gathering.specs.Gathering.{goals_of_item};

use and_model::{ClauseNo, Goal};
use and_program::{ItemNode, Loaded};
use std::alloc::AllocError;

/// The goal of an item, if it is a call or arithmetic, of the clause whose frame begins at the node.
fn goal_in(item: ItemNode, place: u32, clause: ClauseNo, node: u32) -> Option<Goal>
    ensures some { IfSome result (λ goal. (shapes : List Shape)
        → goals_of_item clause.0 node place (item_of shapes (node_item item)) ≡ goal ∷ []) }
    ensures none { IfNone result ((shapes : List Shape)
        → goals_of_item clause.0 node place (item_of shapes (node_item item)) ≡ []) }
{
    match item {
        ItemNode::Equal { .. } => None,
        ItemNode::Fail => None,
        ItemNode::Call { .. } => Some(goal_placed(place, clause, node)),
        ItemNode::Is { .. } => Some(goal_placed(place, clause, node)),
        ItemNode::Compare { .. } => Some(goal_placed(place, clause, node)),
    }
}

/// The goal at that place of the clause's body.
fn goal_placed(place: u32, clause: ClauseNo, node: u32) -> Goal
    ensures { (result.node ≡ node) × (result.item ≡ place) × (result.clause ≡ clause) × (result.base ≡ node) }
{
    Goal {
        node,
        item: place,
        clause,
        base: node,
    }
}

/// Puts the goals of a clause's body on a stack, the first one last. An error is want of memory.
pub(crate) fn push_body(
    stack: &mut Vec<Goal>,
    loaded: &Loaded,
    clause: ClauseNo,
    node: u32,
) -> Result<(), AllocError>
    requires { clause.0 ≤ length (program_of loaded.now).clauses }
    ensures { OnOk result (reverse stack.new.items
        ≡ map goal_of (body_goals clause.0 node [] 0 (clause_at (program_of loaded.now) clause.0).body)
        ++ reverse stack.old.items) }
{
    let items = loaded.items(clause);
    let mut place = items.len();
    while place > 0 {
        place -= 1;
        push_item(stack, items[place], place, clause, node)?;
    }
    Ok(())
}

/// Puts the goal of an item on a stack, if it is one. An error is want of memory. (There is none for a body of 2^32
/// items.)
fn push_item(
    stack: &mut Vec<Goal>,
    item: ItemNode,
    place: usize,
    clause: ClauseNo,
    node: u32,
) -> Result<(), AllocError>
    ensures { OnOk result ((shapes : List Shape)
        → stack.new.items ≡ stack.old.items ++ goals_of_item clause.0 node place (item_of shapes (node_item item))) }
{
    let Ok(number) = u32::try_from(place) else {
        return Err(AllocError);
    };
    push_goal(stack, goal_in(item, number, clause, node))
}

/// Puts a goal on a stack, if there is one. An error is want of memory.
fn push_goal(stack: &mut Vec<Goal>, goal: Option<Goal>) -> Result<(), AllocError>
    ensures some { OnOk result (IfSome goal (λ g. stack.new.items ≡ stack.old.items ++ g ∷ [])) }
    ensures none { OnOk result (IfNone goal (stack.new.items ≡ stack.old.items)) }
{
    match goal {
        Some(goal) => {
            stack.push(goal)?;
            Ok(())
        }
        None => Ok(()),
    }
}
