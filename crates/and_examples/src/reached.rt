//! Steps, splits and limits of a search that takes determinate goals first.

ghost use Rattle.std.specs.Prelude.{ℕ, ◌≡◌, [], ◌∷◌, codes, refl, AllPairs};
ghost use Rattle.and_model.specs.Trees.{Open, code, decided, weight, reduce};
ghost use Rattle.and_model.specs.Listing.{Ends, answer, Listing};
ghost use Rattle.and_model.specs.Reductions.{Makes};
ghost use Rattle.and_model.specs.Reached.{CandidateOf, Step, Shut, Split, ReachedBy, Dead, Numbers};
ghost use Rattle.and_examples.specs.ReachedExamples.{early, early_start, early_filtered, early_answer, by_three};
ghost use Rattle.and_examples.specs.ReachedExamples.{by_two, forks, forks_start};
ghost use Rattle.std.proofs.Common.{inl, inr};
ghost use Rattle.and_model.specs.Limits.{at_goal, OverLimit};
ghost use Rattle.and_examples.specs.LimitExamples.{naturals, at_least_2};
ghost use Rattle.and_model.specs.Output.{OverLeft};
ghost use Rattle.and_examples.specs.DeadExamples.{hopeless, hopeless_start, circle_start, not_below_start};
ghost use Rattle.and_model.specs.Prefixes.{IsPrefix};
ghost use Rattle.and_laws.specs.CodeOrder.{Rises};
ghost use Rattle.and_examples.specs.Ending.{SearchForks};
ghost use Rattle.and_examples.specs.ForksExamples.{three_forks};
ghost use Rattle.and_laws.specs.Explorations.{Explores};
ghost use Rattle.and_examples.specs.NumbersExamples.{fails, fails_start, splits_0};

/// `p(1). p(2). q(2). ?- p(X), q(X).` The goal q(X) has one candidate and is reduced first; then p(X) has the
/// candidate 2 alone. The proof's code is `[2, 3]` all the same, and in either order of the two
/// reductions its tree is the same.
pub fn early_filter()
    ensures early_start_weighs { weight early_start ≡ 2 }
    ensures early_first { Step early_start early_filtered }
    ensures early_step { Step early_filtered early_answer }
    ensures early_code { code early_answer ≡ 2 ∷ 3 ∷ [] }
    ensures early_weighs { weight early_answer ≡ 4 }
    ensures early_ends { Ends early_answer (answer (codes "X = 2")) }
    ensures early_made { Makes early (by_three ∷ by_two ∷ []) early_answer
        × Makes early (by_two ∷ by_three ∷ []) early_answer }
    ensures early_listing { Listing early 4 (record { code = 2 ∷ 3 ∷ []; outcome = answer (codes "X = 2") } ∷ []) }
{}

/// `p(1). p(2). q(3). q(4). ?- p(X), q(Y).` Both goals have two candidates, so the first is split. The
/// splits are reached by the keys `[1]` and `[2]`.
pub fn keys_of_two_forks()
    ensures forks_shut { Shut forks_start }
    ensures forks_first { Split forks_start 1 (reduce forks_start (inl tt) 1 refl) }
    ensures forks_second { Split forks_start 2 (reduce forks_start (inl tt) 2 refl) }
    ensures forks_keys { ReachedBy forks 4 (1 ∷ []) (reduce forks_start (inl tt) 1 refl)
        × ReachedBy forks 4 (2 ∷ []) (reduce forks_start (inl tt) 2 refl) }
{}

/// `nat(z). nat(s(N)) :- nat(N). ?- nat(X).` The tree of s(s(X)) weighs 6, is reached by the key `[2, 2]`, and
/// is not dead. There the first clause is over the limit 6.
pub fn clause_over_the_limit()
    ensures at_least_2_weighs { weight at_least_2 ≡ 6 }
    ensures at_least_2_reached { ReachedBy naturals 6 (2 ∷ 2 ∷ []) at_least_2 }
    ensures at_least_2_lives { Dead at_least_2 → ⊥ }
    ensures over_six { OverLimit naturals 6 (at_goal at_least_2 (inl tt) 1) }
{}

/// `p(1). p(2). q(2). q(3). ?- p(X), q(X).` There is one fork, whose first split fails; by the second the one
/// answer is found.
pub fn one_fork_one_failure()
    ensures fails_numbers { Numbers fails_start 1 1 }
    ensures fails_explored { Explores fails 4 fails_start
        (record { code = 2 ∷ 3 ∷ []; outcome = answer (codes "X = 2") } ∷ []) }
{}

/// `app([],L,L). app([H|T],L,[H|R]) :- app(T,L,R). ?- app(X,Y,[1,2]).` There are two forks, and nothing fails.
pub fn two_forks_no_failure()
    ensures { Numbers splits_0 2 0 }
{}

/// Of `p(1). p(2). q(2). ?- p(X), q(X).` the query weighs 2. Within the limit 2 the one candidate of q(X) is
/// over, though the tree is not shut, and neither of the two candidates of p(X) is. What is left over
/// goes by the leftmost call instead: clause 1 is, and clause 3 is not.
pub fn one_candidate_over_the_limit()
    ensures over { OverLimit early 2 (at_goal early_start (inr (inl tt)) 3) }
    ensures not_shut { Shut early_start → ⊥ }
    ensures neither_of_two { (c : ℕ) → OverLimit early 2 (at_goal early_start (inl tt) c) → ⊥ }
    ensures left_over { OverLeft early 2 [] 1 }
    ensures not_left_over { OverLeft early 2 [] 3 → ⊥ }
{}

/// `p(1). q(2). ?- p(X), q(3).` No clause is a candidate of q(3), so the tree is dead. A dead tree has nothing
/// over any limit, though p(X) has one candidate. It may still go on, by any clause of q.
pub fn goal_without_a_candidate()
    ensures dead { Dead hopeless_start }
    ensures one_candidate { CandidateOf hopeless_start [] (inl tt) 1
        × ((c : ℕ) → CandidateOf hopeless_start [] (inl tt) c → c ≡ 1) }
    ensures none_over { (limit c : ℕ) (o : Open hopeless_start)
        → OverLimit hopeless limit (at_goal hopeless_start o c) → ⊥ }
    ensures steps_on { Step hopeless_start (reduce hopeless_start (inr (inl tt)) 2 refl) }
{}

/// `?- X = f(X).` and `?- X = 3, X < 3.` have no call, and their trees are dead: nothing solves the equation of
/// the first, nor those of the second once the comparison has run. Such a tree counts as a failure.
pub fn equations_without_a_solution()
    ensures circle_dead { Dead circle_start }
    ensures not_below_dead { Dead not_below_start }
    ensures circle_fails { Numbers circle_start 0 1 }
{}

/// `p(1). p(2). q(3). q(4). ?- p(X), q(Y).` There is a fork of p(X), and under each of its two clauses one of q(Y).
/// They come in the order of the text, which is that of their keys.
pub fn forks_within_a_fork()
    ensures in_order { SearchForks forks three_forks }
    ensures rising { IsPrefix [] (decided forks_start) × AllPairs Rises three_forks }
{}
