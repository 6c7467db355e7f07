//! Looks at the goals that workers leave: that they are in range of the row, and that the pairs of their arithmetic
//! are free.

ghost use Rattle.std.specs.Prelude.{◌≡◌, ◌≤◌, true, length, IfSome};
ghost use Rattle.and_model.specs.declared.limits.TheConstants.{MAX_LIMIT};
ghost use Rattle.and_model.specs.declared.reference.Ref.{Ref};
ghost use Rattle.and_program.specs.Items.{node_item};
ghost use Rattle.and_program.specs.Loaded.{program_of};
ghost use Rattle.and_cells.specs.Parts.{named};
ghost use Rattle.and_cells.specs.Ranges.{IsGoalInRange};
ghost use Rattle.and_cells.specs.Seen.{word_at};
ghost use Rattle.and_branch_laws.specs.Kept.{HasFreePair, node_item_at};
ghost use Rattle.and_worker_laws.specs.Leavings.{AreReady};

use and_cells::LooseCells;
use and_model::{Goal, Ref};
use and_program::{ItemNode, Loaded};

/// The item of a goal whose frame lies among so many words; `None` where the program has no such clause or item, or the
/// frame lies elsewhere.
fn item_within(loaded: &Loaded, words: u32, goal: Goal) -> Option<ItemNode>
    requires { words ≤ MAX_LIMIT }
    ensures there { IfSome result (λ item. goal.clause.0 ≤ length (program_of loaded.now).clauses) }
    ensures item { IfSome result (λ item. node_item_at (named loaded.now) goal ≡ node_item item) }
    ensures in_range { IfSome result (λ item. IsGoalInRange (named loaded.now) words goal) }
{
    if goal.clause.0 as u32 > loaded.clause_count() {
        return None;
    }
    let weight = loaded.weight(goal.clause);
    if words < weight || words - weight < goal.base {
        return None;
    }
    let items = loaded.items(goal.clause);
    if goal.item as usize >= items.len() {
        return None;
    }
    loaded.skeleton_is_of_the_program();
    Some(items[goal.item as usize])
}

/// Whether a place is among the words, and its word is free.
fn is_free(cells: &LooseCells, place: usize) -> bool
    ensures { result ≡ true → word_at cells.now place ≡ Ref.Free }
{
    if place >= cells.len() {
        return false;
    }
    match cells.word(place) {
        Ref::Free => true,
        Ref::Half(_) => false,
        Ref::Cell(_) => false,
        Ref::Number(_) => false,
        Ref::Node { .. } => false,
    }
}

/// Whether the pair of a goal, which is this item, is free if it is an `is` goal.
fn has_free_pair(loaded: &Loaded, cells: &LooseCells, goal: Goal, item: ItemNode) -> bool
    requires { goal.clause.0 ≤ length (program_of loaded.now).clauses }
    ensures { result ≡ true → HasFreePair (named loaded.now) cells.now goal (node_item item) }
{
    match item {
        ItemNode::Call { .. } => true,
        ItemNode::Equal { .. } => true,
        ItemNode::Is {
            left: _,
            right: _,
            pair: number,
        } => {
            let variables = loaded.variables(goal.clause) as usize;
            let pair = goal.base as usize + 1 + variables + 2 * number as usize;
            is_free(cells, pair) && is_free(cells, pair + 1)
        }
        ItemNode::Compare { .. } => true,
        ItemNode::Fail => true,
    }
}

/// Whether a goal is in range of the row, and its pair is free if it is an `is` goal.
fn is_ready(loaded: &Loaded, cells: &LooseCells, goal: Goal) -> bool
    requires { length cells.now ≤ MAX_LIMIT }
    ensures in_range { result ≡ true → IsGoalInRange (named loaded.now) (length cells.now) goal }
    ensures free { result ≡ true
        → HasFreePair (named loaded.now) cells.now goal (node_item_at (named loaded.now) goal) }
{
    match item_within(loaded, cells.len() as u32, goal) {
        Some(item) => has_free_pair(loaded, cells, goal, item),
        None => false,
    }
}

/// Whether all these goals are in range of the row, and the pairs of those that are `is` goals are free. Each goal is
/// looked at once. Takes no memory.
pub fn are_ready(loaded: &Loaded, cells: &LooseCells, goals: &[Goal]) -> bool
    requires short { length cells.now ≤ MAX_LIMIT }
    ensures { result ≡ true → AreReady (named loaded.now) cells.now goals.now }
{
    for goal in goals {
        if !is_ready(loaded, cells, *goal) {
            return false;
        }
    }
    true
}
