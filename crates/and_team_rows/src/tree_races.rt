//! Two threads claim the same branch of a tree.

ghost use Rattle.std.specs.Prelude.{◌≡◌, ◌<◌, ◌*◌, Contains, IfSome};

use crate::leaves::{Leaf, closed, opened};
use and_rows::{Untold, line};
use and_tree::{Claimed, Last, Tree, TreePass};
use std::alloc::Global;
use std::thread::{Threads, join};

/// A pass, and the branch that it took.
type Took = (TreePass<Leaf>, Option<Leaf>);

/// Claims the root.
fn claim_root(tree: &Tree<Leaf>, mut pass: TreePass<Leaf>) -> Took
    requires { (pass.tree ≡ tree.now) × (tree.now.about.teams ≡ 2) }
    ensures tree { result.0.tree ≡ tree.now }
    ensures hand { IfSome result.1 (λ leaf. Contains result.0.hand leaf.key) }
{
    match tree.claim(&mut pass, 0, 1) {
        Claimed::Taken(leaf) => (pass, Some(leaf)),
        Claimed::Moved(_seen) => (pass, None),
    }
}

/// Both threads claim the root.
fn claim_twice<R: Threads + Sync>(
    rt: &R,
    tree: &Tree<Leaf>,
    one: TreePass<Leaf>,
    other: TreePass<Leaf>,
) -> (Took, Took)
    requires { (one.tree ≡ tree.now) × (other.tree ≡ tree.now) × (tree.now.about.teams ≡ 2) }
    ensures one { (result.0.0.tree ≡ tree.now) × IfSome result.0.1 (λ leaf. Contains result.0.0.hand leaf.key) }
    ensures other { (result.1.0.tree ≡ tree.now) × IfSome result.1.1 (λ leaf. Contains result.1.0.hand leaf.key) }
{
    join(
        rt,
        move || -> Took
            requires { (one.tree ≡ tree.now) × (tree.now.about.teams ≡ 2) }
            ensures { (result.0.tree ≡ tree.entry.now) × IfSome result.1 (λ leaf. Contains result.0.hand leaf.key) }
        { claim_root(tree, one) },
        move || -> Took
            requires { (other.tree ≡ tree.now) × (tree.now.about.teams ≡ 2) }
            ensures { (result.0.tree ≡ tree.entry.now) × IfSome result.1 (λ leaf. Contains result.0.hand leaf.key) }
        { claim_root(tree, other) },
    )
}

/// Retires the branch that a pass took. Answers whether there was one.
fn retired(tree: &Tree<Leaf>, took: Took) -> (TreePass<Leaf>, Option<Last>)
    requires { (took.0.tree ≡ tree.now) × IfSome took.1 (λ leaf. Contains took.0.hand leaf.key) }
    ensures { result.0.tree ≡ tree.now }
{
    let (mut pass, leaf) = took;
    match leaf {
        Some(leaf) => {
            let last = tree.retire(&mut pass, &leaf.key);
            (pass, Some(last))
        }
        None => (pass, None),
    }
}

/// Whether just one of two threads took the root, whether it was the last key, and how many keys were retired.
pub(crate) fn tree_race<R: Threads + Sync>(rt: &R, alloc: Global) -> Result<String, Untold> {
    let (tree, first, second) = opened(alloc)?;
    let (one, other) = claim_twice(rt, &tree, first, second);
    let (first, one) = retired(&tree, one);
    let (second, other) = retired(&tree, other);
    let closed = closed(tree, alloc, first, second)?;
    line(
        alloc,
        &(
            one.is_some() != other.is_some(),
            one.or(other),
            closed.counts.retired,
        ),
    )
}
