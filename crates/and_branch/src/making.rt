//! How the children of a fork are made, each of what is left of a branch.

ghost use Rattle.std.specs.Prelude.{◌≡◌, length, OnOk};
ghost use Rattle.and_cells.specs.Parts.{named};
ghost use Rattle.and_cells.specs.Rows.{IsSound};
ghost use Rattle.and_branch_parts.specs.Children.{Fork};
ghost use Rattle.and_branch_parts.specs.Origins.{GoesBack, KeepsBack};
ghost use Rattle.and_branch_parts.specs.Making.{IsAgain, IsMade, noted_from};

use crate::branch::Branch;
use crate::workspace::Workspace;
use and_branch_parts::cut_off;
use and_cells::Naming;
use and_model::{ClauseNo, Goal};
use and_program::Loaded;
use std::alloc::AllocError;
use std::snapshot::Snapshot;

impl<N: Naming> Branch<N> {
    /// Goes back to the row and the reductions of the first branch, whose row has so many words, and which has so many
    /// reductions. Takes no memory.
    pub(crate) fn go_back_by(&mut self, first: &Snapshot<Branch<N>>, words: u32, count: usize)
        requires sound { IsSound N.program first.now.value.row }
        requires words { length first.now.value.row ≡ words }
        requires count { length first.now.value.reductions ≡ count }
        requires back { GoesBack first.now.value self.old }
        ensures { self.new ≡ record self.old {
          row = first.now.value.row;
          reductions = first.now.value.reductions;
          trail = noted_from first.now.value.row;
        } }
    {
        self.cells.take_back(self.trail.cells(), words);
        self.trail.begin_again(words);
        cut_off(&mut self.reductions, count);
    }

    /// Becomes the child of a fork by this clause, where it is the branch that was forked again: behind so many clauses
    /// of its key comes this one, and the goal is taken by it. An error is want of memory, and the branch is spent.
    pub(crate) fn become_child(
        &mut self,
        loaded: &Loaded,
        goal: Goal,
        decided: usize,
        clause: ClauseNo,
        workspace: &mut Workspace,
    ) -> Result<(), AllocError>
        requires program { N.program ≡ named loaded.now }
        requires again { (f : Fork) × IsAgain N.program f clause.0 goal decided self.old }
        ensures made { OnOk result ((f : Fork) → IsAgain N.program f clause.0 goal decided self.old
            → IsMade N.program f clause.0 self.new) }
        ensures back { OnOk result (KeepsBack self.old self.new) }
    {
        self.end_key(decided, clause)?;
        self.seek(goal)?;
        self.reduce_next(loaded, clause, workspace)?;
        Ok(())
    }
}
