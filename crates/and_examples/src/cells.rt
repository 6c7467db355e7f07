//! What branches keep in their cells, and what is read there.

ghost use Rattle.std.specs.Prelude.{[], ◌∷◌, ◌≡◌, true, false, codes};
ghost use Rattle.std.proofs.Common.{inl};
ghost use Rattle.and_model.specs.Limits.{query_alone, at_goal};
ghost use Rattle.and_model.specs.Lines.{line};
ghost use Rattle.and_program.specs.Skeletons.{IsSkeleton};
ghost use Rattle.and_branch_laws.specs.Judging.{CandidateInCells};
ghost use Rattle.and_branch_laws.specs.Kept.{Kept, KeptIn};
ghost use Rattle.and_branch_laws.specs.Lines.{LineIsRead};
ghost use Rattle.and_branch_laws.specs.States.{IsCut};
ghost use Rattle.and_branch_laws.specs.Views.{StandsIn};
ghost use Rattle.and_branch_laws.specs.Visits.{at_query, Decides};
ghost use Rattle.and_examples.specs.BasesExamples.{P, tree, by_first};
ghost use Rattle.and_examples.specs.BranchExamples.{sum_text, item_of_query};
ghost use Rattle.and_examples.specs.NumbersExamples.{fails};
ghost use Rattle.and_examples.specs.ReachedExamples.{early, by_three, by_two};
ghost use Rattle.and_examples.specs.LimitExamples.{naturals, at_least_2};
ghost use Rattle.and_examples.specs.WrittenTreeExamples.{twice, innermost, no_goal};
ghost use Rattle.and_examples.specs.ViewExamples.{fails_skeleton, failing, split_view, bound_row, free_row, sum_view};
ghost use Rattle.and_examples.specs.KeptExamples.{skeleton, text, row, goals, turned, more_bound, less_bound, view};
ghost use Rattle.and_examples.specs.KeptExamples.{item_of_first};
ghost use Rattle.and_examples.specs.KeptExamples.{of_query, sum_skeleton, summing, summed, not_summed, written};
ghost use Rattle.and_examples.specs.KeptExamples.{sum_start};

/// `p(X) :- q(X), X < 3. q(1). q(2). ?- p(Y).` After the first reduction the frame of clause 1 begins at its
/// place, and its X is bound to the query's Y. A row in which Y is bound too says more than the tree, and
/// one in which X is not says less. The goals stand in the order of the text.
pub fn cells_after_a_reduction()
    ensures skeleton_is { IsSkeleton skeleton P }
    ensures kept { Kept text (by_first ∷ []) row goals tree }
    ensures in_view { KeptIn text view tree }
    ensures says_more { Kept text (by_first ∷ []) more_bound goals tree → ⊥ }
    ensures says_less { Kept text (by_first ∷ []) less_bound goals tree → ⊥ }
    ensures out_of_order { Kept text (by_first ∷ []) row turned tree → ⊥ }
    ensures both_are { CandidateInCells text row (item_of_first 0) 2 × CandidateInCells text row (item_of_first 0) 3 }
    ensures one_is_none { CandidateInCells text more_bound (item_of_first 0) 3 → ⊥ }
{}

/// `p(1). p(2). ?- Y is 1 + 2, p(X).` Once the sum has run, Y is set to the pair in which 3 is written. As long
/// as it waits, its pair is free.
pub fn cells_with_a_sum()
    ensures skeleton_is { IsSkeleton sum_skeleton sum_text }
    ensures ran { Kept summing [] summed (of_query 1 ∷ []) sum_start }
    ensures waits { Kept summing [] not_summed (of_query 0 ∷ of_query 1 ∷ []) sum_start }
    ensures written_early { Kept summing [] written (of_query 0 ∷ of_query 1 ∷ []) sum_start → ⊥ }
{}

/// The branches of `p(1). p(2). q(2). q(3). ?- p(X), q(X).`, read in their cells, each under its key: that by clause
/// 1 has failed, and nothing is read in it; in that by clause 2, X is read as the 2 of the clause's head, and must
/// not be read as a free cell. Of `p(1). p(2). ?- Y is 1 + 2, p(X).` the root stands once the sum has run.
pub fn branches_in_cells()
    ensures skeleton_is { IsSkeleton fails_skeleton fails }
    ensures failed { StandsIn (split_view 1 [] [] true) (1 ∷ []) failing 10 }
    ensures split { StandsIn (split_view 2 bound_row (item_of_query 1 ∷ []) false) (2 ∷ []) failing 10 }
    ensures ran { StandsIn sum_view [] summing 10 }
    ensures not_read { StandsIn (split_view 2 free_row (item_of_query 1 ∷ []) false) (2 ∷ []) failing 10 → ⊥ }
{}

/// The line of `p(1). p(2). ?- Y is 1 + 2, p(X).` as it is read in the cells, while the sum waits and once it has run.
pub fn lines_in_cells()
    ensures line_before { (r : LineIsRead summing not_summed (item_of_query 0 ∷ []))
        × (line sum_text r.terms r.waits ≡ codes "Y = _0, X = _1 with is(_0,+(1,2))") }
    ensures line_after { (r : LineIsRead summing summed []) × (line sum_text r.terms r.waits ≡ codes "Y = 3, X = _0") }
{}

/// `p(1). p(2). q(2). ?- p(X), q(X).` From the two reductions of the proof, q(X) first, its code is found; from
/// the first of them alone, nothing is decided. Of `nat(z). nat(s(N)) :- nat(N). ?- nat(X).`, where the second
/// clause was used twice, the first clause is cut off at the call of the second use.
pub fn trees_by_their_reductions()
    ensures decided { Decides early (by_three ∷ by_two ∷ []) (at_query ∷ []) (2 ∷ 3 ∷ []) }
    ensures nothing_decided { Decides early (by_three ∷ []) (at_query ∷ []) [] }
    ensures cut_at_goal { IsCut twice innermost 1 (at_goal at_least_2 (inl tt) 1) }
    ensures cut_alone { IsCut {P = naturals} [] no_goal 0 query_alone }
{}
