//! The law by which what the workers of a phase hand on, and the row that they leave, is a branch's again: each
//! worker speaks of its own entries of the store's journal alone, and looks at the row and at what was done find
//! nothing amiss.
//!
//! The function here does nothing. Its contract is a law over the definitions below and of `specs/`. The proofs' own
//! lemmas stand in `proofs/`.
#![tactic(auto)]

ghost use Rattle.std.specs.Prelude.{ℕ, ◌≡◌, ◌≤◌, ◌++◌, true, false, List, map, length};
ghost use Rattle.and_model.specs.Trees.{QueryTree, weight};
ghost use Rattle.and_model.specs.Reached.{Dead, Steps};
ghost use Rattle.and_model.specs.Reductions.{Makes};
ghost use Rattle.and_model.specs.Stands.{Framed};
ghost use Rattle.and_model.specs.declared.goal.Reduction as declared;
ghost use Rattle.and_model.specs.declared.reference.Ref.{Ref};
ghost use Rattle.and_cells.specs.Ranges.{NamedProgram};
ghost use Rattle.and_cells.specs.Seen.{word_at};
ghost use Rattle.and_unify.specs.Pairs.{equations_of_pairs};
ghost use Rattle.and_code.specs.Written.{all_written};
ghost use Rattle.and_branch_laws.specs.OwnVariables.{OwnVariables};
ghost use Rattle.and_branch_laws.specs.Kept.{Kept, Unsettled, goal_of};
ghost use Rattle.and_worker_laws.specs.Leavings.{AreReady};
ghost use Rattle.and_handed.specs.declared.told.HandedOn.{HandedOn};
ghost use Rattle.and_gathering.specs.declared.gathering.Gathered.{Gathered};
ghost use Rattle.and_gathering.specs.Gathering.{IsGathered};
ghost use Rattle.and_row_check.specs.Places.{all_frames, IsWhole, ArePairsWhole};
ghost use Rattle.and_closing_laws.specs.Phases.{HasPhased};

/// Phases leave branches: from the tree of a branch, what all workers made of it leads by Steps to the tree that
/// their reductions make with those of the branch, within the limit. Where one of them found it dead, it is. Else the
/// goals that are left, and the row with the pairs, are that tree's.
pub fn phases_leave_branches()
    ensures { (P : NamedProgram) → OwnVariables P
        → (old : List declared.Reduction) (first row : List Ref) (kept : List Framed)
        (t : QueryTree P.program) (tolds : List HandedOn) (limit : ℕ) (g : Gathered)
        → Kept P (all_written old) first kept t
        → HasPhased P first row tolds → IsGathered P.program (map goal_of kept) (weight t) limit tolds g
        → length row ≡ g.end → IsWhole P (all_frames (old ++ g.made)) row
        → (u : QueryTree P.program) × Makes P.program (all_written old ++ all_written g.made) u × Steps t u
        × (weight u ≤ limit)
        × (g.failed ≡ true → Dead u)
        × (g.failed ≡ false → ArePairsWhole P (all_frames (old ++ g.made)) row g.pairs → AreReady P row g.goals.items
        → (rest : List Framed) × (map goal_of rest ≡ g.goals.items)
        × Unsettled P (all_written old ++ all_written g.made) row (equations_of_pairs P (word_at row) g.pairs) rest u) }
{}
