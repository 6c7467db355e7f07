//! What the definitions say of some small texts with disjunctions, worked out by hand.

ghost use Rattle.std.specs.Prelude.{ℕ, ◌≡◌, ◌≤◌, List, [], ◌∷◌, ◌++◌, Some, None, codes};
ghost use Rattle.and_model.specs.Terms.{none, more, compound};
ghost use Rattle.and_model.specs.Programs.{clause_weight, call, equal, clause_at, own_name};
ghost use Rattle.and_model.specs.Listing.{answer};
ghost use Rattle.and_source.specs.Source.{IsNumbered, source_weight, numbers_in};
ghost use Rattle.and_source.specs.Unfolding.{source_unfold};
ghost use Rattle.and_source.specs.SourceListing.{SourceListing};
ghost use Rattle.and_source.specs.Lifted.{lift};
ghost use Rattle.and_lifting.specs.Trials.{own, whole, atom, entry, SourceCodeEnds, answers_text, guards_text};
ghost use Rattle.and_lifting.specs.Trials.{forks_text, nested_text, lifted_rule};

/// `?- X = 1 ; X = 2.` The query and each alternative weigh 2. Within 3 nothing fits.
pub fn either_answers()
    ensures numbered { IsNumbered answers_text }
    ensures weights { (source_weight answers_text.query ≡ 2)
        × (clause_weight (clause_at (lift answers_text) 1) ≡ 2) }
    ensures lifted { (lift answers_text).clauses
        ≡ lifted_rule (compound (own_name 0) (more (own 0) none)) (equal (own 0) (whole 1) ∷ []) (codes "X" ∷ [])
        ∷ lifted_rule (compound (own_name 0) (more (own 0) none)) (equal (own 0) (whole 2) ∷ []) (codes "X" ∷ []) ∷ [] }
    ensures no_unfolding { (source_unfold answers_text (3 ∷ []) ≡ None)
        × (source_unfold answers_text (1 ∷ 1 ∷ []) ≡ None) }
    ensures listing { (limit : ℕ) → 4 ≤ limit → SourceListing answers_text limit
        (entry (1 ∷ []) (answer (codes "X = 1")) ∷ entry (2 ∷ []) (answer (codes "X = 2")) ∷ []) }
    ensures within_three { SourceListing answers_text 3 [] }
{}

/// `m(X,Y,M) :- ( X >= Y, M = X ; X < Y, M = Y ). ?- m(3,5,M).` The alternatives are clauses 2 and 3,
/// and the first of them has no outcome. The query weighs 2, the clause and the alternatives 4 each.
pub fn either_guards()
    ensures numbered { IsNumbered guards_text }
    ensures ends { SourceCodeEnds guards_text (1 ∷ 3 ∷ []) (answer (codes "M = 5")) }
    ensures listing { (limit : ℕ) → 10 ≤ limit → SourceListing guards_text limit
        (entry (1 ∷ 3 ∷ []) (answer (codes "M = 5")) ∷ []) }
{}

/// `?- (X = 1 ; X = 2), (Y = 3 ; Y = X).` The right choice changes fastest, and shares `X` with the
/// left one. The query weighs 3, an alternative of the left choice 2, and one of the right choice 3.
pub fn either_forks()
    ensures numbered { IsNumbered forks_text }
    ensures lifted { (lift forks_text).query.body
        ≡ call (compound (own_name 0) (more (own 0) none))
        ∷ call (compound (own_name 1) (more (own 1) (more (own 0) none))) ∷ [] }
    ensures last_clause { clause_at (lift forks_text) 4
        ≡ lifted_rule (compound (own_name 1) (more (own 0) (more (own 1) none))) (equal (own 0) (own 1) ∷ [])
        (codes "Y" ∷ codes "X" ∷ []) }
    ensures listing { (limit : ℕ) → 8 ≤ limit → SourceListing forks_text limit
        (entry (1 ∷ 3 ∷ []) (answer (codes "X = 1, Y = 3"))
        ∷ entry (1 ∷ 4 ∷ []) (answer (codes "X = 1, Y = 1"))
        ∷ entry (2 ∷ 3 ∷ []) (answer (codes "X = 2, Y = 3"))
        ∷ entry (2 ∷ 4 ∷ []) (answer (codes "X = 2, Y = 2")) ∷ []) }
{}

/// `p(X) :- ((q(X) ; r) ; X = Y). ?- (p(Z) ; true). q(1).` An outer alternative is numbered before
/// those inside it, and the query's are numbered where it stands. The inner disjunction has the
/// variable `X` alone, the outer one `X` and `Y`.
pub fn nested_disjunctions()
    ensures numbers { numbers_in nested_text ≡ 1 ∷ 2 ∷ 3 ∷ 4 ∷ 5 ∷ 6 ∷ 7 ∷ 8 ∷ [] }
    ensures numbered { IsNumbered nested_text }
    ensures outer { clause_at (lift nested_text) 2
        ≡ lifted_rule (compound (own_name 3) (more (own 0) (more (own 1) none)))
        (call (compound (own_name 4) (more (own 0) none)) ∷ []) (codes "X" ∷ codes "Y" ∷ []) }
    ensures inner { (clause_at (lift nested_text) 4
        ≡ lifted_rule (compound (own_name 4) (more (own 0) none)) (call (atom (own_name 2)) ∷ []) (codes "X" ∷ []))
        × (clause_at (lift nested_text) 7
        ≡ lifted_rule (compound (own_name 5) (more (own 0) none)) [] (codes "Z" ∷ [])) }
    ensures last { clause_at (lift nested_text) 8 ≡ lifted_rule (compound (own_name 1) (more (whole 1) none)) [] [] }
    ensures ends { SourceCodeEnds nested_text (6 ∷ 1 ∷ 2 ∷ 3 ∷ 8 ∷ []) (answer (codes "Z = 1")) }
    ensures no_clause_of_another { source_unfold nested_text (6 ∷ 1 ∷ 3 ∷ []) ≡ None }
{}
