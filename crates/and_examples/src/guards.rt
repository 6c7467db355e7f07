//! Comparisons in front of clauses.

ghost use Rattle.std.specs.Prelude.{◌≡◌, false, [], ◌∷◌, codes};
ghost use Rattle.std.proofs.Common.{inl};
ghost use Rattle.and_model.specs.Arithmetic.{holds, differs};
ghost use Rattle.and_model.specs.Programs.{clause_weight, clause_at};
ghost use Rattle.and_model.specs.Candidates.{guard, Refuted};
ghost use Rattle.and_model.specs.Reached.{CandidateOf, Step, Shut, Dead};
ghost use Rattle.and_model.specs.Listing.{answer};
ghost use Rattle.and_examples.specs.Ending.{CodeEnds, SearchForks};
ghost use Rattle.and_examples.specs.Texts.{whole};
ghost use Rattle.and_examples.specs.GuardExamples.{at_least_second, taken, greatest_text, greatest_start};
ghost use Rattle.and_examples.specs.GuardExamples.{greatest_answer, ending_text, ending_start, below_3, all_kinds};
ghost use Rattle.and_examples.specs.GuardExamples.{atom, atom_text, atom_start};

/// `max(X,Y,X) :- X >= Y. max(X,Y,Y) :- X < Y. ?- max(3,5,M).` The head of each clause fits, and the
/// comparison of the first does not hold of 3 and 5. So the second is the one candidate: the search
/// makes a step and has no fork.
pub fn guard_that_decides()
    ensures refuted { Refuted (taken 1) at_least_second }
    ensures first_is_none { CandidateOf greatest_start [] (inl tt) 1 → ⊥ }
    ensures second_is_one { CandidateOf greatest_start [] (inl tt) 2 }
    ensures not_shut { Shut greatest_start → ⊥ }
    ensures step { Step greatest_start greatest_answer }
    ensures no_forks { SearchForks greatest_text [] }
    ensures ends { CodeEnds greatest_text (2 ∷ []) (answer (codes "M = 5")) }
{}

/// `p(X) :- Y is X, X < 3. p(X) :- X < 3, Y is X. ?- p(5).` The guard ends where the body has something
/// else than a comparison. So the first clause is a candidate, though its comparison does not hold,
/// and the second is none. A clause weighs 1, 1 for each variable and 2 for each `is`: a comparison,
/// a call and an equation weigh nothing.
pub fn guard_that_ends()
    ensures guards { (guard [] (clause_at ending_text 1).body ≡ [])
        × (guard [] (clause_at ending_text 2).body ≡ below_3 ∷ []) }
    ensures first_is_one { CandidateOf ending_start [] (inl tt) 1 }
    ensures second_is_none { CandidateOf ending_start [] (inl tt) 2 → ⊥ }
    ensures weights { (clause_weight (clause_at ending_text 1) ≡ 5) × (clause_weight all_kinds ≡ 8) }
{}

/// `p(X) :- X > a. p(X) :- X =\= a. ?- p(5).` An atom has no value, so neither comparison holds, and no clause
/// is a candidate.
pub fn guard_without_value()
    ensures differs_from_atom { holds differs (whole 5) atom ≡ false }
    ensures first_is_none { CandidateOf atom_start [] (inl tt) 1 → ⊥ }
    ensures second_is_none { CandidateOf atom_start [] (inl tt) 2 → ⊥ }
    ensures dead { Dead atom_start }
{}
