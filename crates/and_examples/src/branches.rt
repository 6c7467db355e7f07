//! What a branch over cells stands for.

ghost use Rattle.std.specs.Prelude.{[], ◌∷◌, true, false};
ghost use Rattle.and_model.specs.Stands.{AreVariants, Stands};
ghost use Rattle.and_examples.specs.Texts.{own};
ghost use Rattle.and_examples.specs.NumbersExamples.{fails};
ghost use Rattle.and_examples.specs.BranchExamples.{split_by, item_of_query, at_root, with_sum, without_sum, sum_text};
ghost use Rattle.and_examples.specs.StandsExamples.{P, read, root, bound_too_much, bound_too_little};

/// `p(a,b). ?- X = a, p(X,Y).` At the root, X is read as a and Y as a variable. A branch in whose cells Y
/// is bound too, or X is not, does not stand for the query's tree.
pub fn branch_of_the_query()
    ensures root_stands { Stands (root read) [] P 10 }
    ensures too_much { Stands (root bound_too_much) [] P 10 → ⊥ }
    ensures too_little { Stands (root bound_too_little) [] P 10 → ⊥ }
{}

/// `p(1). p(2). q(2). q(3). ?- p(X), q(X).` The branch that takes p(X) by clause 1 has failed. That by clause 2 is
/// live, and has q(2) before it. Each stands under the key of its clause, and under no other.
pub fn branches_of_a_split()
    ensures failed_stands { Stands (split_by 1 [] true) (1 ∷ []) fails 10 }
    ensures split_stands { Stands (split_by 2 (item_of_query 1 ∷ []) false) (2 ∷ []) fails 10 }
    ensures other_key { Stands (split_by 2 (item_of_query 1 ∷ []) false) [] fails 10 → ⊥ }
{}

/// `p(1). p(2). ?- Y is 1 + 2, p(X).` A branch that has run the sum, so that Y is read as 3, stands. So does one
/// that has yet to run it, where Y is a free cell and the sum waits.
pub fn branches_with_a_sum()
    ensures ran_stands { Stands (at_root with_sum []) [] sum_text 10 }
    ensures waiting_stands { Stands (at_root without_sum (item_of_query 0 ∷ [])) [] sum_text 10 }
{}

/// Variants are made by one renaming of the whole list: two variables are not read in one cell.
pub fn one_renaming_of_all()
    ensures { AreVariants (own 1 ∷ own 1 ∷ []) (own 0 ∷ own 1 ∷ []) → ⊥ }
{}
