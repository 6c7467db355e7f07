//! Branches that are made again of what a phase left.

ghost use Rattle.std.specs.Prelude.{◌≡◌, true, None, IfOk};
ghost use Rattle.and_model.specs.Trees.{QueryTree};
ghost use Rattle.and_cells.specs.Parts.{named};
ghost use Rattle.and_branch_parts.specs.Branches.{IsBranchOf, SameKey};
ghost use Rattle.and_branch.specs.Parts.{held_of};
ghost use Rattle.and_branch.specs.Rebuilding.{IsWorked, reductions_of};

use crate::branch::Branch;
use crate::parts::Parts;
use and_branch_parts::{add_all, is_dead};
use and_cells::{Naming, PlainCells};
use and_model::{Code, Goal, ReductionList};
use and_pending::PendingGoals;
use and_program::Loaded;
use and_reduction::Trail;
use and_unify::PairList;
use std::alloc::{AllocError, Global};

/// What a phase left of a branch that was taken apart.
#[derive(Drop)]
pub struct Worked<N: Naming> {
    /// The cells as they are now, with a frame more for each reduction that was made.
    pub cells: PlainCells<N>,
    /// The reductions that were made.
    pub made: ReductionList,
    /// The goals that are left, calls and arithmetic among each other in preorder.
    pub goals: Vec<Goal>,
    /// What is still to be made the same term.
    pub pairs: PairList,
    /// Whether the tree was found dead. What is said of cells, goals and pairs then need not hold.
    pub failed: bool,
}

/// Want of memory. It tells the key of the branch that was lost.
#[derive(Drop)]
pub struct NoRoom {
    pub key: Code,
}

impl<N: Naming> Branch<N> {
    /// Settles what a phase left of the branch with these parts, and makes a branch of it, of whose row nothing is
    /// noted. It is marked failed where the phase found the tree dead, and where what is left has no solution. An
    /// error is want of memory. (The parts are kept, so that the branch of before can be had again.)
    pub fn rebuild(
        alloc: Global,
        loaded: &Loaded,
        parts: &Parts<N>,
        work: Worked<N>,
    ) -> Result<Branch<N>, AllocError>
        requires program { N.program ≡ named loaded.now }
        requires worked { (t : QueryTree N.program.program) × (u : QueryTree N.program.program)
            × IsWorked N.program parts.now work t u }
        ensures same { IfOk result (λ branch. SameKey (held_of parts.now) branch) }
        ensures reductions { IfOk result (λ branch. branch.reductions ≡ reductions_of parts.now work) }
        ensures stands { IfOk result (λ branch. (t u : QueryTree N.program.program)
            → IsWorked N.program parts.now work t u
            → IsBranchOf N.program branch u) }
        ensures trail { IfOk result (λ branch. branch.trail.mark ≡ None) }
        ensures failed { IfOk result (λ branch. work.failed ≡ true → branch.is_failed ≡ true) }
    {
        loaded.skeleton_is_of_the_program();
        let Worked {
            mut cells,
            made,
            goals,
            mut pairs,
            failed,
        } = work;
        let key = parts.key.copy()?;
        let mut reductions = parts.reductions.copy()?;
        let used = add_all(loaded, &mut reductions, &made, parts.used)?;
        let goals = PendingGoals::of(alloc, &goals)?;
        let is_failed = is_dead(alloc, loaded, &mut cells, &mut pairs, failed)?;
        Ok(Branch {
            key,
            limit: parts.limit,
            cells,
            reductions,
            goals,
            used,
            is_failed,
            trail: Trail::none(alloc),
        })
    }
}
