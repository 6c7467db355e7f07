//! The choicepoint tree, and forks.

ghost use Rattle.std.specs.Prelude.{◌≡◌, true, [], ◌∷◌, ℕ};
ghost use Rattle.and_histories.specs.PlainTree;
ghost use Rattle.and_histories.specs.PlainTree.{State, Does, retired, seen_open, taken, done, seen, cleared, last};
ghost use Rattle.and_histories.specs.PlainTree.{last_serial, spent, number, with_keys, keys_left, children, fork};
ghost use Rattle.and_histories.specs.Histories.{Legal, calls};
ghost use Rattle.and_examples.specs.PlainTreeExamples.{root, entry, history, in_hand, claimed_twice, two_keys};
ghost use Rattle.and_examples.specs.PlainTreeExamples.{forking, opened_often};
ghost use Rattle.and_histories.specs.Covering.{IsCovering};
ghost use Rattle.and_examples.specs.CoveringExamples.{P, one_asked};

/// Two teams hand one key to each other and end it. No two claims take one key, an end is the last only if
/// no other key is left, and a fork by two clauses leaves two keys.
pub fn history_of_two_teams()
    ensures history_is_legal { Legal 2 history }
    ensures first_calls { calls history 0 ≡
        entry (PlainTree.left 0) (number 1)
        ∷ entry (PlainTree.look 0 0) (seen (seen_open 1))
        ∷ entry (PlainTree.claim 0 0 1) (taken root)
        ∷ entry (PlainTree.clear 0 0) cleared
        ∷ entry (PlainTree.publish 0 1 root) done
        ∷ entry (PlainTree.left 0) (number 0)
        ∷ [] }
    ensures claimed_twice_is_illegal { Legal 2 claimed_twice → ⊥ }
    ensures last_is_told { (after : State) → Does two_keys (PlainTree.end 0 (1 ∷ []) retired) (last true) after → ⊥ }
    ensures forked_keys { keys_left (with_keys in_hand 0 root (children root (1 ∷ 2 ∷ []))) ≡ (1 ∷ []) ∷ (2 ∷ []) ∷ [] }
{}

/// One team claims the root and forks it. What it publishes finds its cell not free, at first because the branch
/// is still being taken out, and later because a key lies there. A cell at its last serial is spent.
pub fn history_with_a_fork()
    ensures forking_is_legal { Legal 1 forking }
    ensures spent_at_last { Does (opened_often last_serial) (PlainTree.publish 0 0 (1 ∷ [])) spent
        (opened_often last_serial) }
    ensures not_opened_then { (after : State)
        → Does (opened_often last_serial) (PlainTree.publish 0 0 (1 ∷ [])) done after → ⊥ }
{}

/// `p(1). p(2). ?- p(X).` The fork of the query by both clauses is covering. One by the first alone is not,
/// nor is one that has the second twice.
pub fn covering_fork()
    ensures both_cover { (limit : ℕ) → IsCovering P limit (fork 0 [] [] (1 ∷ 2 ∷ [])) }
    ensures first_alone { IsCovering P 10 (fork 0 [] [] (1 ∷ [])) → ⊥ }
    ensures second_twice { IsCovering P 10 (fork 0 [] [] (1 ∷ 2 ∷ 2 ∷ [])) → ⊥ }
{}

/// `p(1). p(2). ?- p(1).` The fork by the first clause alone is covering, since by the second there is no outcome.
/// Within the limit 0, below the query's weight, a fork by no clause is.
pub fn fork_by_candidates()
    ensures candidate_covers { (limit : ℕ) → IsCovering one_asked limit (fork 0 [] [] (1 ∷ [])) }
    ensures nothing_within { IsCovering one_asked 0 (fork 0 [] [] []) }
{}
