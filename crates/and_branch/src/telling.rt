//! The line of a branch that has ended.

ghost use Rattle.std.specs.Prelude.{◌≡◌, IfOk};
ghost use Rattle.and_model.specs.Trees.{QueryTree};
ghost use Rattle.and_cells.specs.Parts.{named};
ghost use Rattle.and_branch_parts.specs.Branches.{IsBranchOf};
ghost use Rattle.and_branch_parts.specs.Ended.{HasEnded, IsLineOf};

use crate::branch::Branch;
use and_branch_parts::list_of;
use and_cells::Naming;
use and_model::Text;
use and_print::show_line;
use and_program::Loaded;
use std::alloc::{AllocError, Global};

impl<N: Naming> Branch<N> {
    /// The line of a branch whose state is an answer, or floundered. An error is want of memory.
    pub fn line(&self, alloc: Global, loaded: &Loaded) -> Result<Text, AllocError>
        requires program { N.program ≡ named loaded.now }
        requires ended { HasEnded N.program self.now }
        ensures { IfOk result (λ text. (t : QueryTree N.program.program) → IsBranchOf N.program self.now t
            → IsLineOf N.program self.now t text) }
    {
        loaded.skeleton_is_of_the_program();
        let goals = self.goals.all(alloc)?;
        let waiting = list_of(alloc, &goals)?;
        show_line(alloc, loaded, &self.cells, &waiting)
    }
}
