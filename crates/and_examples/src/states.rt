//! The states of a branch's tree, each of their cases once.

ghost use Rattle.std.specs.Prelude.{ℕ, [], ◌∷◌, Some, None};
ghost use Rattle.and_model.specs.Limits.{at_goal, OverLimit};
ghost use Rattle.std.proofs.Common.{inl, inr};
ghost use Rattle.and_branch_laws.specs.States.{StateOf, failed, determinate, over_one, over_all, fork, floundered};
ghost use Rattle.and_branch_laws.specs.States.{answer};
ghost use Rattle.and_examples.specs.Texts.{circle, floundered_text, late_text};
ghost use Rattle.and_examples.specs.LimitExamples.{naturals, at_least_0};
ghost use Rattle.and_examples.specs.DeadExamples.{hopeless, hopeless_start, circle_start};
ghost use Rattle.and_examples.specs.StateExamples.{heavy_first, heavy_start, floundered_start, late_start};

/// `p(X) :- q(X). q(1). ?- p(X), q(Y).` Each goal has one candidate. The query weighs 3, and the clauses 2 and
/// 1. So within 5 the first goal is told, and within 4 the second, since the first one's clause does not
/// fit: no clause of the first goal is the cause of a cut then. Within 3 neither fits, and the first goal is
/// told as the one that is over.
pub fn goals_with_one_candidate()
    ensures first_fits { StateOf heavy_first 5 heavy_start (determinate (inl tt) 1) }
    ensures second_fits { StateOf heavy_first 4 heavy_start (determinate (inr (inl tt)) 2) }
    ensures neither_fits { StateOf heavy_first 3 heavy_start (over_one (inl tt) 1) }
    ensures not_over { StateOf heavy_first 4 heavy_start (over_one (inl tt) 1) → ⊥ }
    ensures no_cut { (c : ℕ) → OverLimit heavy_first 4 (at_goal heavy_start (inl tt) c) → ⊥ }
{}

/// `nat(z). nat(s(N)) :- nat(N). ?- nat(X).` The goal has both clauses for candidates. The query weighs 2, and the
/// clauses 1 and 2. So within 4 there is a fork by both, and within 3 one by the first, with the
/// second cut off. Within 2 neither fits, and the first clause is told as the one that is over.
pub fn goal_with_two_candidates()
    ensures both_fit { StateOf naturals 4 at_least_0 (fork (inl tt) (1 ∷ 2 ∷ []) None) }
    ensures first_alone_fits { StateOf naturals 3 at_least_0 (fork (inl tt) (1 ∷ []) (Some 2)) }
    ensures all_over { StateOf naturals 2 at_least_0 (over_all (inl tt) 1) }
    ensures not_uncut { StateOf naturals 3 at_least_0 (fork (inl tt) (1 ∷ []) None) → ⊥ }
{}

/// `p(1). q(2). ?- p(X), q(3).` fails, since q(3) has no candidate, though p(X) has one. So does `?- X = f(X).`,
/// which nothing solves. Of `?- X is X + 0.` the arithmetic waits forever; that of `?- X < 3, X = 2.` runs.
pub fn branches_that_end()
    ensures goal_fails { StateOf hopeless 10 hopeless_start failed }
    ensures not_determinate { StateOf hopeless 10 hopeless_start (determinate (inl tt) 1) → ⊥ }
    ensures equations_fail { StateOf circle 10 circle_start failed }
    ensures waits { StateOf floundered_text 10 floundered_start floundered }
    ensures answers { StateOf late_text 10 late_start answer }
{}
