//! Branches that are nothing but their keys, and trees of them.

ghost use Rattle.std.specs.Prelude.{◌≡◌, ◌∷◌, [], ◌<◌, ◌*◌, IfOk, OnOk, Contains};
ghost use Rattle.and_tree.specs.Passes.{fresh};

use and_model::Code;
use and_rows::Untold;
use and_tree::{Claimed, ClosedTree, Keyed, Tree, TreePass, TreePassList};
use std::alloc::Global;

/// A branch that is nothing but its key.
#[derive(Drop)]
pub struct Leaf {
    pub key: Code,
}

impl Keyed for Leaf {
    ghost key_of = { λ leaf. leaf.key };

    ghost Stands = { λ limit leaf. Unit {0} };

    ghost IsFork = { λ limit fork. Unit {0} };

    fn key(&self) -> &Code {
        &self.key
    }
}

pub type Trees = (Tree<Leaf>, TreePass<Leaf>, TreePass<Leaf>);

/// A tree of two teams that was opened just now, and their passes.
pub fn opened(alloc: Global) -> Result<Trees, Untold>
    ensures { IfOk result (λ r. (r.0.about.teams ≡ 2) × (r.1 ≡ fresh r.0 0) × (r.2 ≡ fresh r.0 1)) }
{
    let root = Leaf {
        key: Code::new(alloc),
    };
    let Ok((tree, mut passes)) = Tree::open(alloc, 2, 100, root) else {
        return Err(Untold::Memory);
    };
    let Some(second) = passes.pop() else {
        return Err(Untold::Memory);
    };
    let Some(first) = passes.pop() else {
        return Err(Untold::Memory);
    };
    Ok((tree, first, second))
}

/// The branch that lies open in the cell with this serial.
pub fn claimed(
    tree: &Tree<Leaf>,
    pass: &mut TreePass<Leaf>,
    cell: u32,
    serial: u64,
) -> Result<Leaf, Untold>
    requires tree { pass.old.tree ≡ tree.now }
    requires cell { cell < 8 * tree.now.about.teams }
    ensures tree { OnOk result (pass.new.tree ≡ tree.now) }
    ensures team { OnOk result (pass.new.team ≡ pass.old.team) }
    ensures hand { IfOk result (λ leaf. Contains pass.new.hand leaf.key) }
{
    match tree.claim(pass, cell, serial) {
        Claimed::Taken(leaf) => Ok(leaf),
        Claimed::Moved(_seen) => Err(Untold::Malformed),
    }
}

/// Closes a tree with the passes of its two teams.
pub fn closed(
    tree: Tree<Leaf>,
    alloc: Global,
    first: TreePass<Leaf>,
    second: TreePass<Leaf>,
) -> Result<ClosedTree, Untold>
    requires { (tree.about.teams ≡ 2) × (first.tree ≡ tree) × (second.tree ≡ tree) }
{
    let mut passes = TreePassList::new(alloc);
    if passes.push(first).is_err() || passes.push(second).is_err() {
        return Err(Untold::Memory);
    }
    Ok(tree.close(passes))
}
