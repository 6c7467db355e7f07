//! Where the premises of laws hold, and words that laws need.

ghost use Rattle.std.specs.Prelude.{◌≡◌, ◌++◌, [], ◌∷◌, map, codes, refl};
ghost use Rattle.std.proofs.Common.{inl};
ghost use Rattle.and_model.specs.Closure.{Ran};
ghost use Rattle.and_model.specs.Candidates.{Candidate};
ghost use Rattle.and_model.specs.Trees.{equations, arithmetics, reduce};
ghost use Rattle.and_model.specs.Programs.{Arithmetic};
ghost use Rattle.and_model.specs.Lines.{line_of};
ghost use Rattle.and_model.specs.Listing.{Outcome, answer};
ghost use Rattle.and_model.specs.Stands.{AreVariants, numbers_below};
ghost use Rattle.and_laws.specs.Naming.{EquationsOver, IsOver, others};
ghost use Rattle.and_laws.specs.CodeOrder.{Before};
ghost use Rattle.and_laws.specs.Entries.{IsWithin};
ghost use Rattle.and_laws.specs.Fitting.{AllFit};
ghost use Rattle.and_laws.specs.Outcomes.{Covers};
ghost use Rattle.and_laws.specs.Paths.{At};
ghost use Rattle.and_laws.specs.Weaving.{Woven, RanAlike};
ghost use Rattle.and_examples.specs.Ending.{entry};
ghost use Rattle.and_examples.specs.LineExamples.{asking};
ghost use Rattle.and_examples.specs.ReachedExamples.{early, early_answer};
ghost use Rattle.and_examples.specs.LimitExamples.{naturals};
ghost use Rattle.and_examples.specs.WordExamples.{by_one, by_two};
ghost use Rattle.and_examples.specs.Texts.{own, p, floundered_text, x_is_x, x_below_3};
ghost use Rattle.and_examples.specs.LawExamples.{sum_first, added, below_five, filtered, beginning, to_seven};
ghost use Rattle.and_examples.specs.LawExamples.{filtered_in_seven, named, moved, below};

/// `p(X) :- X < 5. ?- Y is 1 + 2, p(Y).` The sum has run, and adds Y = 3. Once the call was taken it has still run
/// and adds the same, while the clause's comparison waits.
pub fn sum_that_stays_run()
    ensures sum_ran { Ran (equations sum_first) (arithmetics sum_first) added [] }
    ensures still_ran { RanAlike sum_first (reduce sum_first (inl tt) 1 refl) (below_five ∷ []) added [] }
{}

/// `p(1). p(2). q(2). ?- p(X), q(X).` Where q(X) was taken, clause 2 is a candidate of p(X) in the frame of that call;
/// in the frame `[5]`, of which nothing speaks; and where X is a variable of the frame `[7]`.
pub fn candidate_under_other_names()
    ensures in_its_frame { Candidate early filtered (0 ∷ []) (p (own 0)) 2 }
    ensures nothing_in_five { EquationsOver (others (beginning 5)) filtered
        × IsOver (others (beginning 5)) (p (own 0)) }
    ensures in_frame_five { Candidate early filtered (5 ∷ []) (p (own 0)) 2 }
    ensures renamed { Candidate early filtered_in_seven (0 ∷ []) (p (to_seven [] 0)) 2 }
{}

/// Two free variables and a comparison of them are written alike, whichever cells the variables are.
pub fn line_under_other_names()
    ensures variants { AreVariants (map (named []) (numbers_below 2) ++ below named)
        (map (moved []) (numbers_below 2) ++ below moved) }
    ensures same_line { line_of (asking (codes "X" ∷ codes "Y" ∷ [])) named (below named)
        ≡ line_of (asking (codes "X" ∷ codes "Y" ∷ [])) moved (below moved) }
    ensures that_line { line_of (asking (codes "X" ∷ codes "Y" ∷ [])) moved (below moved)
        ≡ codes "X = _0, Y = _1 with <(_0,_1)" }
{}

/// Words that the laws need: which clause is at a path, which entry comes before another or is within a limit,
/// where all fits, goals that are woven, and trees that cover the outcomes of a key.
pub fn words_of_the_laws()
    ensures at_paths { At early_answer (0 ∷ []) 2 × At early_answer (1 ∷ []) 3 }
    ensures not_at { At early_answer (0 ∷ []) 3 → ⊥ }
    ensures before { (o r : Outcome) → Before (entry (1 ∷ 3 ∷ []) o) (entry (2 ∷ []) r)
        × Before (entry (2 ∷ []) o) (entry (2 ∷ 1 ∷ []) r) }
    ensures not_before { (o r : Outcome) → Before (entry (2 ∷ []) o) (entry (1 ∷ 3 ∷ []) r) → ⊥ }
    ensures within { IsWithin early 4 (entry (2 ∷ 3 ∷ []) (answer (codes "X = 2"))) }
    ensures not_within { (o : Outcome) → IsWithin early 3 (entry (2 ∷ 3 ∷ []) o) → ⊥ }
    ensures all_fit { AllFit floundered_text 4 }
    ensures not_all_fit { AllFit naturals 6 → ⊥ }
    ensures woven { (a b c : Arithmetic) → Woven (a ∷ c ∷ []) (b ∷ []) (a ∷ b ∷ c ∷ []) }
    ensures not_turned { Woven (x_is_x ∷ x_below_3 ∷ []) [] (x_below_3 ∷ x_is_x ∷ []) → ⊥ }
    ensures covers { Covers by_two (2 ∷ []) }
    ensures covers_not { Covers by_one [] → ⊥ }
{}
