//! Branches that are taken apart.

ghost use Rattle.std.specs.Prelude.{◌≡◌, ◌++◌, IfOk, IfErr};
ghost use Rattle.and_branch.specs.Parts.{held_of};

use crate::branch::Branch;
use crate::rebuilding::NoRoom;
use and_cells::{Naming, PlainCells};
use and_model::{Code, Goal, ReductionList};
use and_pending::PendingGoals;
use and_reduction::Trail;
use std::alloc::AllocError;

/// What a branch is made of.
pub struct Parts<N: Naming> {
    pub key: Code,
    pub limit: u32,
    pub cells: PlainCells<N>,
    pub reductions: ReductionList,
    /// Its goals, calls and arithmetic among each other in preorder.
    pub goals: Vec<Goal>,
    /// The weight of its tree.
    pub used: u32,
    /// Whether its tree was found dead. Its cells and goals then say nothing.
    pub is_failed: bool,
}

// By hand, so that it is proved once, here.
impl<N: Naming> Drop for Parts<N> {
    fn drop(self) {
        let Parts {
            key: _,
            limit: _,
            cells: _,
            reductions: _,
            goals: _,
            used: _,
            is_failed: _,
        } = self;
    }
}

impl<N: Naming> Branch<N> {
    /// Its goals, calls and arithmetic among each other in preorder. An error is want of memory.
    pub fn listed_goals(&self) -> Result<Vec<Goal>, AllocError>
        ensures { IfOk result (λ goals. goals.items ≡ self.now.left ++ self.now.right) }
    {
        self.goals.all(self.goals.allocator())
    }
}

impl<N: Naming> Parts<N> {
    /// The branch of these parts. An error is want of memory, and tells the key of the branch that was lost.
    pub fn into_branch(self) -> Result<Branch<N>, NoRoom>
        ensures branch { IfOk result (λ branch. branch ≡ held_of self) }
        ensures no_room { IfErr result (λ refused. refused.key ≡ self.key) }
    {
        let alloc = *self.goals.allocator();
        let Parts {
            key,
            limit,
            cells,
            reductions,
            goals,
            used,
            is_failed,
        } = self;
        let Ok(goals) = PendingGoals::of(alloc, &goals) else {
            return Err(NoRoom { key });
        };
        Ok(Branch {
            key,
            limit,
            cells,
            reductions,
            goals,
            used,
            is_failed,
            trail: Trail::none(alloc),
        })
    }
}
