//! What a reduction asks of the cells.

ghost use Rattle.std.specs.Prelude.{◌≡◌, ◌≤◌, ◌<◌, ◌^◌, ◌∷◌, ◌++◌, [], true, false, Ok, length, OnOk, OnErr};
ghost use Rattle.and_program.specs.Items.{node_item};
ghost use Rattle.and_program.specs.Loaded.{nodes_at, program_of, skeleton_of};
ghost use Rattle.and_cells.specs.Parts.{named};
ghost use Rattle.and_workers.specs.Asking.{call_pair, item_pairs, HasSides, is_fail, has_fail};

use and_model::{ClauseNo, NodeNo};
use and_program::{ItemNode, Loaded};
use and_unify::PairList;
use std::alloc::AllocError;

/// Asks that the call of this node, in the frame at the base, be made one with the head of the clause in the new
/// frame, and nothing else. An error is want of memory.
pub(crate) fn ask_call(
    loaded: &Loaded,
    node: NodeNo,
    base: u32,
    clause: ClauseNo,
    floor: u32,
    pairs: &mut PairList,
) -> Result<(), AllocError>
    requires node { node.0 < length (skeleton_of loaded.now).nodes }
    requires clause { clause.0 ≤ length (program_of loaded.now).clauses }
    requires base { base < 2 ^ 23 }
    requires floor { floor < 2 ^ 23 }
    ensures { OnOk result (pairs.new ≡ call_pair (named loaded.now) base node.0 clause.0 floor ∷ []) }
{
    let call = loaded.resolve(node, base);
    let head = loaded.resolve(loaded.head(clause), floor);
    pairs.clear();
    pairs.push(call, head)?;
    Ok(())
}

/// Asks for what the `=` items of the clause's body say in its frame, and answers whether no item is `fail`. An
/// error is want of memory.
pub(crate) fn ask_items(
    loaded: &Loaded,
    clause: ClauseNo,
    floor: u32,
    pairs: &mut PairList,
) -> Result<bool, AllocError>
    requires clause { clause.0 ≤ length (program_of loaded.now).clauses }
    requires floor { floor < 2 ^ 23 }
    ensures asked { result ≡ Ok true → pairs.new ≡ pairs.old
        ++ item_pairs (named loaded.now) floor (nodes_at (skeleton_of loaded.now) clause.0).items }
    ensures none { result ≡ Ok true → has_fail (nodes_at (skeleton_of loaded.now) clause.0).items ≡ false }
    ensures failing { result ≡ Ok false → has_fail (nodes_at (skeleton_of loaded.now) clause.0).items ≡ true }
{
    for item in loaded.items(clause) {
        if !ask_item(loaded, *item, floor, pairs)? {
            return Ok(false);
        }
    }
    Ok(true)
}

/// Asks for what an item says, if it is `=`, and answers whether it is not `fail`. An error is want of memory.
fn ask_item(
    loaded: &Loaded,
    item: ItemNode,
    floor: u32,
    pairs: &mut PairList,
) -> Result<bool, AllocError>
    requires item { HasSides (length (skeleton_of loaded.now).nodes) (node_item item) }
    requires floor { floor < 2 ^ 23 }
    ensures asked { result ≡ Ok true → pairs.new
        ≡ pairs.old ++ item_pairs (named loaded.now) floor (node_item item ∷ []) }
    ensures none { result ≡ Ok true → is_fail (node_item item) ≡ false }
    ensures failing { result ≡ Ok false → is_fail (node_item item) ≡ true }
{
    match item {
        ItemNode::Equal { left, right } => {
            let left = loaded.resolve(left, floor);
            let right = loaded.resolve(right, floor);
            pairs.push(left, right)?;
            Ok(true)
        }
        ItemNode::Call { goal: _ } => Ok(true),
        ItemNode::Is {
            left: _,
            right: _,
            pair: _,
        } => Ok(true),
        ItemNode::Compare {
            relation: _,
            left: _,
            right: _,
        } => Ok(true),
        ItemNode::Fail => Ok(false),
    }
}
