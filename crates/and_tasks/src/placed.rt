//! Branches and forks, as a choicepoint tree knows of them.

ghost use Rattle.std.specs.Prelude.{◌≡◌};

use and_branch::{Branch, Choicepoint};
use and_cells::Naming;
use and_model::Code;
use and_tree::{Forking, Keyed};

/// A branch that may lie in a tree.
#[derive(Drop)]
pub struct PlacedBranch<N: Naming> {
    pub branch: Branch<N>,
}

impl<N: Naming> Keyed for PlacedBranch<N> {
    ghost use Rattle.and_tasks.specs.Placed.{StandsWithin, IsForkWithin};

    ghost key_of = { λ placed. placed.branch.key };

    ghost Stands = { λ limit placed. StandsWithin N.program limit placed.branch };

    ghost IsFork = { λ limit fork. IsForkWithin N.program limit fork };

    fn key(&self) -> &Code {
        self.branch.key()
    }
}

/// A fork that is made in a tree.
#[derive(Drop)]
pub struct PlacedFork<N: Naming> {
    pub point: Choicepoint<N>,
}

impl<N: Naming> Forking for PlacedFork<N> {
    ghost use Rattle.and_tasks.specs.Placed.{fork_of};

    ghost fork_of = { λ placed. fork_of placed.point };

    fn count(&self) -> usize {
        self.point.left()
    }
}
