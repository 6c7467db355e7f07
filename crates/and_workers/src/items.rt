//! Items of bodies, and the goals among them.

ghost use Rattle.std.specs.Prelude.{◌≤◌, ◌≡◌, IfSome};
ghost use Rattle.and_model.specs.declared.limits.TheConstants.{MAX_LIMIT};
ghost use Rattle.and_program.specs.Items.{node_item};
ghost use Rattle.and_cells.specs.Parts.{named};
ghost use Rattle.and_workers.specs.Items.{IsItemOver};

use and_model::{ClauseNo, Goal};
use and_program::{ItemNode, Loaded};

/// The item of a goal whose frame lies among so many words; `None` where the program has no such clause or item, or the
/// frame lies elsewhere.
pub(crate) fn item_over(loaded: &Loaded, words: u32, goal: Goal) -> Option<ItemNode>
    requires { words ≤ MAX_LIMIT }
    ensures { IfSome result (λ item. IsItemOver (named loaded.now) words goal (node_item item)) }
{
    if goal.clause.0 as u32 > loaded.clause_count() {
        return None;
    }
    let weight = loaded.weight(goal.clause);
    if words < weight || words - weight < goal.base {
        return None;
    }
    loaded.skeleton_is_of_the_program();
    loaded.items(goal.clause).get(goal.item as usize).copied()
}

/// The goal of an item, if it is a call or arithmetic, of the clause whose frame begins at the node.
pub(crate) fn goal_in(item: ItemNode, place: u32, clause: ClauseNo, node: u32) -> Option<Goal> {
    match item {
        ItemNode::Equal { .. } => None,
        ItemNode::Fail => None,
        ItemNode::Call { .. } => Some(goal_placed(place, clause, node)),
        ItemNode::Is { .. } => Some(goal_placed(place, clause, node)),
        ItemNode::Compare { .. } => Some(goal_placed(place, clause, node)),
    }
}

/// The goal at that place of the clause's body.
fn goal_placed(place: u32, clause: ClauseNo, node: u32) -> Goal {
    Goal {
        node,
        item: place,
        clause,
        base: node,
    }
}
