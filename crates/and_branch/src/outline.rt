//! Outlines of branches, whose rows others have.

ghost use Rattle.std.specs.Prelude.{◌≡◌, ◌++◌, ◌∷◌, [], take, OnOk};
ghost use Rattle.and_cells.specs.Rows.{IsSound};
ghost use Rattle.and_branch_parts.specs.Making.{noted_from};
ghost use Rattle.and_branch_parts.specs.Origins.{GoesBack};
ghost use Rattle.and_branch.specs.Outlines.{IsOutlineOf, outlined};

use crate::branch::Branch;
use and_cells::Naming;
use and_model::ClauseNo;
use and_pending::PendingGoals;
use and_reduction::Trail;
use std::alloc::{AllocError, Global};
use std::snapshot::Snapshot;

/// A branch without its row: all of it but its key, and of its row and its reductions how many they are.
pub(crate) struct Outline {
    pub limit: u32,
    pub goals: PendingGoals,
    pub used: u32,
    pub is_failed: bool,
    pub trail: Trail,
    /// How many words its row has.
    pub words: u32,
    /// How many reductions it has.
    pub count: usize,
}

// By hand, so that it is proved once, here.
impl Drop for Outline {
    fn drop(self) {
        let Outline {
            limit: _,
            goals: _,
            used: _,
            is_failed: _,
            trail: _,
            words: _,
            count: _,
        } = self;
    }
}

impl Outline {
    /// Puts what stands here into a branch, which puts its own lists by.
    fn put_into<N: Naming>(self, branch: &mut Branch<N>)
        ensures { branch.new ≡ record (outlined branch.old self) { trail = self.trail } }
    {
        let Outline {
            limit,
            goals,
            used,
            is_failed,
            trail,
            words: _,
            count: _,
        } = self;
        branch.goals.take(goals);
        branch.used = used;
        branch.limit = limit;
        branch.is_failed = is_failed;
        branch.trail.take(trail);
    }
}

impl<N: Naming> Branch<N> {
    /// Gives its outline, and becomes a branch of which it can be had again, without goals. Takes no memory.
    pub(crate) fn give_outline(&mut self, alloc: Global) -> Outline
        ensures outline { IsOutlineOf self.old result }
        ensures back { GoesBack self.old self.new }
        ensures key { self.new.key ≡ self.old.key }
    {
        let words = self.cells.len();
        let count = self.reductions.len();
        let goals = self.goals.give(alloc);
        let trail = self.trail.give(alloc, words);
        Outline {
            limit: self.limit,
            goals,
            used: self.used,
            is_failed: self.is_failed,
            trail,
            words,
            count,
        }
    }

    /// Becomes the first branch again, but for the key: it keeps its own. What is set of its row from here on is noted.
    /// An error is want of memory, and the branch is spent.
    pub(crate) fn become_again(
        &mut self,
        first: &Snapshot<Branch<N>>,
        outline: &Outline,
    ) -> Result<(), AllocError>
        requires outline { IsOutlineOf first.now.value outline.now }
        requires sound { IsSound N.program first.now.value.row }
        requires back { GoesBack first.now.value self.old }
        ensures { OnOk result (self.new ≡ record first.now.value {
          key = self.old.key;
          trail = noted_from first.now.value.row;
        }) }
    {
        self.go_back_by(first, outline.words, outline.count);
        self.fill_by(outline)?;
        Ok(())
    }

    /// Becomes the first branch again, but for the key: it keeps its own. What was noted of its row still is. Takes no
    /// memory.
    pub(crate) fn become_first(&mut self, first: &Snapshot<Branch<N>>, outline: Outline)
        requires outline { IsOutlineOf first.now.value outline }
        requires sound { IsSound N.program first.now.value.row }
        requires back { GoesBack first.now.value self.old }
        ensures { self.new ≡ record first.now.value { key = self.old.key } }
    {
        self.go_back_by(first, outline.words, outline.count);
        outline.put_into(self);
    }

    /// Has the first clauses of its key, and then this one, for its key. An error is want of memory, and the branch is
    /// spent.
    pub(crate) fn end_key(&mut self, length: usize, clause: ClauseNo) -> Result<(), AllocError>
        ensures { OnOk result (self.new ≡ record self.old { key = take length self.old.key ++ clause.0 ∷ [] }) }
    {
        self.key.truncate(length);
        self.key.push(clause)?;
        Ok(())
    }

    /// Takes over what stands in the outline, but for the trail. An error is want of memory, and the branch is spent.
    fn fill_by(&mut self, outline: &Outline) -> Result<(), AllocError>
        ensures { OnOk result (self.new ≡ outlined self.old outline.now) }
    {
        self.goals.fill_from(&outline.goals)?;
        self.used = outline.used;
        self.limit = outline.limit;
        self.is_failed = outline.is_failed;
        Ok(())
    }
}
