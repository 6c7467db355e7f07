//! Branches as they are held, each with the tree that it stands for.

ghost use Rattle.std.specs.Prelude.{[], ◌∷◌, true, false};
ghost use Rattle.and_branch_parts.specs.Branches.{IsBranchOf};
ghost use Rattle.and_examples.specs.BasesExamples.{tree};
ghost use Rattle.and_examples.specs.BranchExamples.{item_of_query};
ghost use Rattle.and_examples.specs.KeptExamples.{text, summing, sum_start};
ghost use Rattle.and_examples.specs.ViewExamples.{failing, bound_row};
ghost use Rattle.and_examples.specs.HeldExamples.{reduced, split_held, split_tree_1, split_tree_2, sum_held};

/// A branch after a reduction, with its goals on both sides of the place where it is at work; one whose sum
/// has run; and, each under the key of its clause, a branch that has failed and one that has not, which must
/// not be marked as failed.
pub fn branches_that_are_held()
    ensures reduced_is { IsBranchOf text reduced tree }
    ensures sum_is { IsBranchOf summing sum_held sum_start }
    ensures failed_is { IsBranchOf failing (split_held 1 [] [] true) split_tree_1 }
    ensures split_is { IsBranchOf failing (split_held 2 bound_row (item_of_query 1 ∷ []) false) split_tree_2 }
    ensures marked { IsBranchOf failing (split_held 2 bound_row (item_of_query 1 ∷ []) true) split_tree_2 → ⊥ }
{}
