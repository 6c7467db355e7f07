//! Copies of branches: of what is left of one, taken back to those that were forked.

ghost use Rattle.std.specs.Prelude.{◌≡◌, length, IfOk};
ghost use Rattle.and_cells.specs.Rows.{IsSound};
ghost use Rattle.and_branch_parts.specs.Copies.{IsBackAt};
ghost use Rattle.and_branch_parts.specs.Making.{noted_from};
ghost use Rattle.and_branch_parts.specs.Origins.{GoesBack};

use crate::branch::Branch;
use and_branch_parts::cut_off;
use and_cells::Naming;
use and_pending::PendingGoals;
use and_reduction::Trail;
use std::alloc::{AllocError, Global};
use std::snapshot::Snapshot;

impl<N: Naming> Branch<N> {
    /// Another branch of the same, which notes what is set of its row from here on. An error is want of memory.
    pub fn copy(&self, alloc: Global) -> Result<Branch<N>, AllocError>
        ensures { IfOk result (λ b. b ≡ record self.now { trail = noted_from self.now.row }) }
    {
        let key = self.key.copy()?;
        let cells = self.cells.copy()?;
        let reductions = self.reductions.copy()?;
        let goals = self.goals.copy(alloc)?;
        Ok(Branch {
            key,
            limit: self.limit,
            cells,
            reductions,
            goals,
            used: self.used,
            is_failed: self.is_failed,
            trail: Trail::begun(alloc, self.cells.len()),
        })
    }

    /// A copy of its key, and of its row and its reductions as the first branch had them: so many words, and so many
    /// reductions. It has no goals. An error is want of memory.
    pub(crate) fn copied_back(
        &self,
        alloc: Global,
        first: &Snapshot<Branch<N>>,
        words: u32,
        count: usize,
    ) -> Result<Branch<N>, AllocError>
        requires sound { IsSound N.program first.now.value.row }
        requires words { length first.now.value.row ≡ words }
        requires count { length first.now.value.reductions ≡ count }
        requires back { GoesBack first.now.value self.now }
        ensures back { IfOk result (IsBackAt first.now.value) }
        ensures key { IfOk result (λ b. b.key ≡ self.now.key) }
    {
        let key = self.key.copy()?;
        let mut cells = self.cells.copy()?;
        cells.take_back(self.trail.cells(), words);
        let mut reductions = self.reductions.copy()?;
        cut_off(&mut reductions, count);
        Ok(Branch {
            key,
            limit: self.limit,
            cells,
            reductions,
            goals: PendingGoals::new(alloc),
            used: self.used,
            is_failed: self.is_failed,
            trail: Trail::begun(alloc, words),
        })
    }

    /// Goes back from the row and the reductions of a branch that noted this to those of the first branch. Takes no
    /// memory.
    pub(crate) fn go_below(
        &mut self,
        first: &Snapshot<Branch<N>>,
        above: &Snapshot<Branch<N>>,
        noted: &Trail,
        words: u32,
        count: usize,
    )
        requires sound { IsSound N.program first.now.value.row }
        requires words { length first.now.value.row ≡ words }
        requires count { length first.now.value.reductions ≡ count }
        requires noted { above.now.value.trail ≡ noted.now }
        requires below { GoesBack first.now.value above.now.value }
        requires back { IsBackAt above.now.value self.old }
        ensures back { IsBackAt first.now.value self.new }
        ensures key { self.new.key ≡ self.old.key }
    {
        let _above = above;
        self.cells.take_back(noted.cells(), words);
        self.trail.begin_again(words);
        cut_off(&mut self.reductions, count);
    }
}
