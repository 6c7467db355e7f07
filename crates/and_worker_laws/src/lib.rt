//! The laws by which what the workers of a phase did, each knowing of its own acts alone, leads to one tree, and what
//! they leave is a branch of it.
//!
//! Each function here does nothing. Its contract is a law over the definitions below and of `specs/`. The proofs' own
//! lemmas stand in `proofs/`.
#![tactic(auto)]

pub mod rebuilding;

ghost use Rattle.std.specs.Prelude.{◌+◌, ◌≡◌, List, ◌++◌, map};
ghost use Rattle.and_model.specs.Solutions.{Equation};
ghost use Rattle.and_model.specs.Trees.{QueryTree, weight};
ghost use Rattle.and_model.specs.Reached.{Dead, Steps};
ghost use Rattle.and_model.specs.Reductions.{Reduction, Makes};
ghost use Rattle.and_model.specs.Stands.{Framed};
ghost use Rattle.and_model.specs.declared.goal.Goal.{Goal};
ghost use Rattle.and_model.specs.declared.reference.Ref.{Ref};
ghost use Rattle.and_cells.specs.Ranges.{NamedProgram};
ghost use Rattle.and_cells.specs.Meaning.{equations_of};
ghost use Rattle.and_branch_laws.specs.OwnVariables.{OwnVariables};
ghost use Rattle.and_branch_laws.specs.Kept.{Kept, Unsettled, goal_of};
ghost use Rattle.and_worker_laws.specs.Acts.{Act, RunInCells, reductions, weight_taken, HasFailed};
ghost use Rattle.and_worker_laws.specs.Facts.{IsDone};
ghost use Rattle.and_worker_laws.specs.Unfolding.{AreLeftOf};
ghost use Rattle.and_worker_laws.specs.Leavings.{IsLeftIn, AreReady};

pub use rebuilding::{
    candidates_of_fewer_cells, kept_branches_open_phases, phases_close_in_cells,
    tasks_tell_what_was_run, variables_have_cells, what_was_run_among_tasks,
};

/// Workers make Steps: what the workers of a phase did on a branch leads by Steps from its tree to another, which
/// their reductions make with those of the branch. Where one of them called `fail`, that tree is dead. And what they
/// leave is the tree's: the goals are its open calls and its arithmetic that was not run, in preorder, and the cells
/// with the pairs state its equations and nothing else.
pub fn workers_make_steps()
    ensures { (P : NamedProgram) → OwnVariables P
        → (rs : List Reduction) (first : List Ref) (kept : List Framed) (t : QueryTree P.program)
        → Kept P rs first kept t
        → (acts : List Act) (runs : List RunInCells)
        → IsDone P (map goal_of kept) (weight t) (equations_of P first) acts runs
        → (u : QueryTree P.program) × Makes P.program (rs ++ reductions acts) u × Steps t u
        × (weight u ≡ weight t + weight_taken P.program acts)
        × (HasFailed acts → Dead u)
        × ((row : List Ref) (pairs : List Equation) (left : List Goal)
        → IsLeftIn P (rs ++ reductions acts) (weight t) (equations_of P first) acts runs row pairs
        → AreLeftOf P.program (map goal_of kept) acts runs left → AreReady P row left
        → (rest : List Framed) × (map goal_of rest ≡ left) × Unsettled P (rs ++ reductions acts) row pairs rest u) }
{}
