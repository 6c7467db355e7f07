//! Calls on a tree of two teams one after another, as worked examples.

use crate::leaves::{claimed, closed, opened};
use crate::saying::say;
use and_rows::{Untold, line};
use and_tree::{Claimed, Published};
use std::alloc::Global;
use std::snapshot::Snapshot;

/// One team claims the root, the other is too late; then the first publishes it in its own cell, and the other claims
/// it there and retires it.
pub(crate) fn tree_calls(alloc: Global) -> Result<String, Untold> {
    let (tree, mut first, mut second) = opened(alloc)?;
    let mut out = line(alloc, &(tree.left(&mut first), tree.look(&mut first, 0)))?;
    let branch = claimed(&tree, &mut first, 0, 1)?;
    match tree.claim(&mut second, 0, 1) {
        Claimed::Taken(_branch) => return Err(Untold::Malformed),
        Claimed::Moved(seen) => say(alloc, &mut out, seen)?,
    }
    tree.meet(&mut first, &mut second);
    match tree.publish(&mut first, 1, branch) {
        Published::Done => {}
        Published::NotFree { .. } | Published::Spent { .. } => return Err(Untold::Malformed),
    }
    let branch = claimed(&tree, &mut second, 1, 1)?;
    say(
        alloc,
        &mut out,
        (
            tree.retire(&mut second, &branch.key),
            tree.left(&mut second),
        ),
    )?;
    let closed = closed(tree, alloc, first, second)?;
    say(
        alloc,
        &mut out,
        (closed.counts.forks, closed.counts.retired),
    )?;
    Ok(out)
}

/// The root is claimed and given up.
pub(crate) fn given_up(alloc: Global) -> Result<String, Untold> {
    let (tree, mut first, mut second) = opened(alloc)?;
    let branch = claimed(&tree, &mut first, 0, 1)?;
    let last = tree.give_up(&mut first, &Snapshot::of(&branch.key));
    let left = tree.left(&mut second);
    let closed = closed(tree, alloc, first, second)?;
    line(
        alloc,
        &(last, left, closed.counts.given_up, closed.counts.answers),
    )
}
