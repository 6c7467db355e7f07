//! Examples of the definitions: what they say of some small texts, worked out by hand.
//!
//! Each function here does nothing. Its contract says what the definitions make of one example, and
//! is proved in `proofs/`. The texts are in `specs/`. In the root are whole examples, from terms to
//! listings. The modules try the rest: `terms` what substitutions do, `lines` how answers and names are
//! written, `guards` comparisons in front of clauses, `reached` steps, splits and limits, `states` the
//! states of a branch, `branches` and `reductions` what a branch stands for, `stores` and `hanging` rows
//! that several set, `histories` the choicepoint tree and covering forks, `modes` what is known of
//! arguments, and `laws` where the premises of laws hold. No other crate stands on this one.
#![tactic(auto)]

pub mod branches;
pub mod cells;
pub mod guards;
pub mod hanging;
pub mod held;
pub mod histories;
pub mod laws;
pub mod lines;
pub mod modes;
pub mod reached;
pub mod reductions;
pub mod states;
pub mod stores;
pub mod terms;

ghost use Rattle.std.specs.Prelude.{ℕ, ℤ, pos, negsuc, ◌≡◌, ◌<◌, ◌≤◌, ◌-◌, ◌^◌, List, [], ◌∷◌, ◌++◌, length, Some};
ghost use Rattle.std.specs.Prelude.{None, codes};
ghost use Rattle.and_model.specs.Terms.{Path, Term, variable, number, compound, none};
ghost use Rattle.and_model.specs.Solutions.{Equation, Solvable, falsehood};
ghost use Rattle.and_model.specs.Arithmetic.{value};
ghost use Rattle.and_model.specs.Programs.{Program, Arithmetic, clause_at, clause_weight, own_name};
ghost use Rattle.and_model.specs.Closure.{Closes};
ghost use Rattle.and_model.specs.Candidates.{Candidate};
ghost use Rattle.and_model.specs.Trees.{QueryTree, Open, call_of, unfold_code, weight};
ghost use Rattle.and_model.specs.Lines.{Bytes};
ghost use Rattle.and_model.specs.Listing.{Outcome, answer, floundered, Listing, Exhausted};
ghost use Rattle.and_model.specs.Output.{limit_met, complete, complete_with, counted, last_lines, Output, OverLeft};
ghost use Rattle.and_model.specs.declared.builtins.TheConstants.{DIVIDE, GREATEST, LEAST, MINUS, MODULO, PLUS};
ghost use Rattle.and_model.specs.declared.builtins.TheConstants.{REMAINDER, TIMES};
ghost use Rattle.and_model.specs.declared.limits.TheConstants.{DEFAULT_LIMIT};
ghost use Rattle.and_examples.specs.Ending.{UnfoldsTo, CodeEnds, SearchForks, entry};
ghost use Rattle.and_examples.specs.Texts.{own, at, whole, unary, binary, app, nil, cell, append_text, forks_text};
ghost use Rattle.and_examples.specs.Texts.{x_is_x, floundered_text, x_below_3, late_text, not_below, circle};
ghost use Rattle.and_examples.specs.Texts.{equal_text, x_is_too_much, too_much, quotients, naturals, endless_text};
ghost use Rattle.and_examples.specs.Texts.{lightest, next_lightest};

pub use branches::{
    branch_of_the_query, branches_of_a_split, branches_with_a_sum, one_renaming_of_all,
};
pub use cells::{
    branches_in_cells, cells_after_a_reduction, cells_with_a_sum, lines_in_cells,
    trees_by_their_reductions,
};
pub use guards::{guard_that_decides, guard_that_ends, guard_without_value};
pub use hanging::goal_that_hangs_on_a_cell;
pub use held::branches_that_are_held;
pub use histories::{covering_fork, fork_by_candidates, history_of_two_teams, history_with_a_fork};
pub use laws::{
    candidate_under_other_names, line_under_other_names, sum_that_stays_run, words_of_the_laws,
};
pub use lines::{answers_on_one_line, names_as_written, names_of_every_table};
pub use modes::{increment_of_a_number, increment_of_a_variable, levels_that_items_raise};
pub use reached::{
    clause_over_the_limit, early_filter, equations_without_a_solution, forks_within_a_fork,
    goal_without_a_candidate, keys_of_two_forks, one_candidate_over_the_limit,
    one_fork_one_failure, two_forks_no_failure,
};
pub use reductions::branch_after_a_reduction;
pub use states::{branches_that_end, goal_with_two_candidates, goals_with_one_candidate};
pub use stores::{row_of_two_passes, row_with_a_number};
pub use terms::{renamed_solution, terms_once_replaced};

/// Example append-cells: `app(nil,L,L). app(c(H,T),L,c(H,R)) :- app(T,L,R). ?- app(X,Y,c(1,nil)).`
///
/// A clause weighs 1 and 1 for each of its variables, and so does the query. Code `[2]` leaves the
/// call of the second clause open; the first clause has no call, so nothing follows it. The
/// heavier of the two proofs weighs 10, so each limit from 10 on lists both. Code `[2, 2]` is
/// never left over, heavy as it is, since its equations have no solution.
pub fn append_cells()
    ensures weights { (clause_weight (clause_at append_text 1) ≡ 2)
        × (clause_weight (clause_at append_text 2) ≡ 5)
        × (clause_weight append_text.query ≡ 3) }
    ensures first { UnfoldsTo append_text (1 ∷ [])
        ((app (own 0) (own 1) (cell (whole 1) nil), app nil (at (0 ∷ []) 0) (at (0 ∷ []) 0)) ∷ []) 5 }
    ensures second { UnfoldsTo append_text (2 ∷ 1 ∷ [])
        ((
          app (own 0) (own 1) (cell (whole 1) nil),
          app (cell (at (0 ∷ []) 0) (at (0 ∷ []) 1)) (at (0 ∷ []) 2) (cell (at (0 ∷ []) 0) (at (0 ∷ []) 3)),
        )
        ∷ (
          app (at (0 ∷ []) 1) (at (0 ∷ []) 2) (at (0 ∷ []) 3),
          app nil (at (0 ∷ 0 ∷ []) 0) (at (0 ∷ 0 ∷ []) 0),
        ) ∷ []) 10 }
    ensures left_open { (t : QueryTree append_text) × (unfold_code append_text (2 ∷ []) ≡ Some t)
        × (o : Open t) × (call_of t o ≡ app (at (0 ∷ []) 1) (at (0 ∷ []) 2) (at (0 ∷ []) 3)) }
    ensures no_tree { (unfold_code append_text (1 ∷ 1 ∷ []) ≡ None)
        × (unfold_code append_text (3 ∷ []) ≡ None) }
    ensures first_ends { CodeEnds append_text (1 ∷ []) (answer (codes "X = nil, Y = c(1,nil)")) }
    ensures second_ends { CodeEnds append_text (2 ∷ 1 ∷ []) (answer (codes "X = c(1,nil), Y = nil")) }
    ensures listing { (limit : ℕ) → 10 ≤ limit → Listing append_text limit
        (entry (1 ∷ []) (answer (codes "X = nil, Y = c(1,nil)"))
        ∷ entry (2 ∷ 1 ∷ []) (answer (codes "X = c(1,nil), Y = nil")) ∷ []) }
    ensures exhausted { Exhausted append_text 10 }
    ensures not_over { (limit c : ℕ) → OverLeft append_text limit (2 ∷ 2 ∷ []) c → ⊥ }
{}

/// Example two-forks: `p(1). p(2). q(3). q(4). ?- p(X), q(Y).` The rightmost call changes fastest, and
/// a clause of another predicate takes no call. The query weighs 3 and each proof 5.
pub fn two_forks()
    ensures listing { (limit : ℕ) → 5 ≤ limit → Listing forks_text limit
        (entry (1 ∷ 3 ∷ []) (answer (codes "X = 1, Y = 3"))
        ∷ entry (1 ∷ 4 ∷ []) (answer (codes "X = 1, Y = 4"))
        ∷ entry (2 ∷ 3 ∷ []) (answer (codes "X = 2, Y = 3"))
        ∷ entry (2 ∷ 4 ∷ []) (answer (codes "X = 2, Y = 4")) ∷ []) }
    ensures exhausted { Exhausted forks_text 5 }
    ensures no_tree { (unfold_code forks_text (3 ∷ []) ≡ None)
        × (unfold_code forks_text (1 ∷ 1 ∷ []) ≡ None)
        × (unfold_code forks_text (1 ∷ 3 ∷ 3 ∷ []) ≡ None) }
{}

/// Example floundered: `?- X is X + 0.` Nothing makes X ground, so the goal waits, and no equation is
/// added. The text has no call, so no limit cuts anything off.
pub fn floundered_goal()
    ensures closes { Closes [] (x_is_x ∷ []) [] (x_is_x ∷ []) }
    ensures only { (es : List Equation) (gs : List Arithmetic) → Closes [] (x_is_x ∷ []) es gs
        → (es ≡ []) × (gs ≡ x_is_x ∷ []) }
    ensures ends { CodeEnds floundered_text [] (floundered (codes "X = _0 with is(_0,+(_0,0))")) }
    ensures no_answer { (text : Bytes) → CodeEnds floundered_text [] (answer text) → ⊥ }
    ensures exhausted { Exhausted floundered_text 4 }
{}

/// Example late-comparison: `?- X < 3, X = 2.` The comparison is written first, and is run once X is 2.
/// Alone it waits. `?- X = 3, X < 3.` adds falsehood, and ends with nothing.
pub fn late_comparison()
    ensures closes { Closes ((own 0, whole 2) ∷ []) (x_below_3 ∷ []) ((own 0, whole 2) ∷ []) [] }
    ensures alone { Closes [] (x_below_3 ∷ []) [] (x_below_3 ∷ []) }
    ensures ends { CodeEnds late_text [] (answer (codes "X = 2")) }
    ensures refuted { Closes ((own 0, whole 3) ∷ []) (x_below_3 ∷ []) (falsehood ∷ (own 0, whole 3) ∷ []) [] }
    ensures no_end { (o : Outcome) → CodeEnds not_below [] o → ⊥ }
{}

/// Example occurs-check: `?- X = f(X).` Terms are finite, and so nothing solves the equation.
pub fn occurs_check()
    ensures unsolved { Solvable ((own 0, unary (own_name 0) (own 0)) ∷ []) → ⊥ }
    ensures no_end { (o : Outcome) → CodeEnds circle [] o → ⊥ }
    ensures listing { (limit : ℕ) → Listing circle limit [] }
{}

/// Example equal-answers: `p(a). p(a). ?- p(X).` Each proof has its own entry, though their lines are
/// the same. There is one fork, of both clauses.
pub fn equal_answers()
    ensures listing { (limit : ℕ) → 3 ≤ limit → Listing equal_text limit
        (entry (1 ∷ []) (answer (codes "X = a")) ∷ entry (2 ∷ []) (answer (codes "X = a")) ∷ []) }
    ensures forks { SearchForks equal_text (record { key = []; decided = []; candidates = 1 ∷ 2 ∷ [] } ∷ []) }
    ensures exhausted { Exhausted equal_text 3 }
    ensures too_heavy { Listing equal_text 2 [] × OverLeft equal_text 2 [] 1 × OverLeft equal_text 2 [] 2 }
{}

/// Example overflow: `?- X is 9223372036854775807 + 1.` has no value, so that falsehood is added and
/// nothing is listed; and `?- X is -7 // 2, Y is -7 mod 2.` gives values.
pub fn overflow()
    ensures closes { Closes [] (x_is_too_much ∷ []) (falsehood ∷ []) [] }
    ensures no_end { (o : Outcome) → CodeEnds too_much [] o → ⊥ }
    ensures listing { Listing too_much DEFAULT_LIMIT [] }
    ensures quotients { CodeEnds quotients [] (answer (codes "X = -3, Y = 1")) }
{}

/// Values of terms. `//` truncates toward zero, `mod` has the sign of its right number and `rem` that
/// of its left one. Where there is no number of 64 bits, there is no value.
pub fn values_of_terms()
    ensures numbers { (value (whole (2 ^ 63 - 1)) ≡ Some (pos (2 ^ 63 - 1)))
        × (value (number (negsuc (2 ^ 63 - 1))) ≡ Some (negsuc (2 ^ 63 - 1)))
        × (value (whole (2 ^ 63)) ≡ None) × (value (number (negsuc (2 ^ 63))) ≡ None) }
    ensures sums { (value (binary PLUS (whole 2) (whole 3)) ≡ Some (pos 5))
        × (value (binary MINUS (whole 2) (whole 3)) ≡ Some (negsuc 0))
        × (value (binary TIMES (whole 2) (number (negsuc 2))) ≡ Some (negsuc 5)) }
    ensures precedence { value (binary PLUS (whole 1) (binary TIMES (whole 2) (whole 3))) ≡ Some (pos 7) }
    ensures quotients { (value (binary DIVIDE (number (negsuc 6)) (whole 2)) ≡ Some (negsuc 2))
        × (value (binary DIVIDE (whole 7) (number (negsuc 1))) ≡ Some (negsuc 2))
        × (value (binary DIVIDE (number (negsuc 6)) (number (negsuc 1))) ≡ Some (pos 3)) }
    ensures moduli { (value (binary MODULO (number (negsuc 6)) (whole 2)) ≡ Some (pos 1))
        × (value (binary MODULO (whole 7) (number (negsuc 1))) ≡ Some (negsuc 0))
        × (value (binary MODULO (number (negsuc 6)) (number (negsuc 1))) ≡ Some (negsuc 0)) }
    ensures remainders { (value (binary REMAINDER (number (negsuc 6)) (whole 2)) ≡ Some (negsuc 0))
        × (value (binary REMAINDER (whole 7) (number (negsuc 1))) ≡ Some (pos 1))
        × (value (binary REMAINDER (number (negsuc 6)) (number (negsuc 1))) ≡ Some (negsuc 0)) }
    ensures least_integer { (value (binary DIVIDE (number (negsuc (2 ^ 63 - 1))) (number (negsuc 0))) ≡ None)
        × (value (binary MODULO (number (negsuc (2 ^ 63 - 1))) (number (negsuc 0))) ≡ Some (pos 0))
        × (value (binary REMAINDER (number (negsuc (2 ^ 63 - 1))) (number (negsuc 0))) ≡ Some (pos 0))
        × (value (unary MINUS (number (negsuc (2 ^ 63 - 1)))) ≡ None) }
    ensures negated { (value (unary MINUS (whole 7)) ≡ Some (negsuc 6))
        × (value (unary MINUS (whole 0)) ≡ Some (pos 0)) }
    ensures extremes { (value (binary LEAST (whole 3) (number (negsuc 4))) ≡ Some (negsuc 4))
        × (value (binary GREATEST (whole 3) (number (negsuc 4))) ≡ Some (pos 3)) }
    ensures by_zero { (value (binary DIVIDE (whole 1) (whole 0)) ≡ None)
        × (value (binary MODULO (whole 1) (whole 0)) ≡ None)
        × (value (binary REMAINDER (whole 1) (whole 0)) ≡ None) }
    ensures too_wide { (value (binary PLUS (whole (2 ^ 63 - 1)) (whole 1)) ≡ None)
        × (value (binary MINUS (binary PLUS (whole (2 ^ 63 - 1)) (whole 1)) (whole 1)) ≡ None) }
    ensures no_value { (value (own 0) ≡ None) × (value (compound (own_name 0) none) ≡ None)
        × (value (binary PLUS (whole 1) (own 0)) ≡ None)
        × (value (binary PLUS (whole 1) (compound (own_name 0) none)) ≡ None)
        × (value (binary (own_name 0) (whole 1) (whole 2)) ≡ None) × (value (unary PLUS (whole 1)) ≡ None) }
{}

/// Example nat-cut: `nat(z). nat(s(N)) :- nat(N). ?- nat(X).` The query weighs 2, the first clause 1 and
/// the second 2. So with the limit 6 two proofs are listed, which weigh 3 and 5, and the code
/// `[2, 2]` leaves over what weighs 7. The limit 7 lists one more: 6 does not exhaust the text.
pub fn nat_cut()
    ensures weights { ((t : QueryTree naturals)
        × (unfold_code naturals (1 ∷ []) ≡ Some t) × (weight t ≡ 3))
        × ((t : QueryTree naturals)
        × (unfold_code naturals (2 ∷ 1 ∷ []) ≡ Some t) × (weight t ≡ 5))
        × ((t : QueryTree naturals)
        × (unfold_code naturals (2 ∷ 2 ∷ 1 ∷ []) ≡ Some t) × (weight t ≡ 7)) }
    ensures listing { Listing naturals 6
        (entry (1 ∷ []) (answer (codes "X = z")) ∷ entry (2 ∷ 1 ∷ []) (answer (codes "X = s(z)")) ∷ []) }
    ensures over { OverLeft naturals 6 (2 ∷ 2 ∷ []) 1 }
    ensures not_over { OverLeft naturals 7 (2 ∷ 2 ∷ []) 1 → ⊥ }
    ensures third { Listing naturals 7
        (entry (1 ∷ []) (answer (codes "X = z")) ∷ entry (2 ∷ 1 ∷ []) (answer (codes "X = s(z)"))
        ∷ entry (2 ∷ 2 ∷ 1 ∷ []) (answer (codes "X = s(s(z))")) ∷ []) }
    ensures not_exhausted { Exhausted naturals 6 → ⊥ }
{}

/// Example endless-loop: `loop(X) :- loop(X). ?- loop(a).` The query weighs 1 and the clause 2. With the
/// limit 4 the code `[1]`, of weight 3, leaves over what weighs 5. Yet no limit lists anything: what
/// is left over need not lead to an answer.
pub fn endless_loop()
    ensures listing { (limit : ℕ) → Listing endless_text limit [] }
    ensures exhausted { (limit : ℕ) → Exhausted endless_text limit }
    ensures over { OverLeft endless_text 4 (1 ∷ []) 1 }
{}

/// What is written: each answer on a line of its own, and then how the run ended, with the numbers of
/// forks and of failures where these are told. A count stays at the largest number of 64 bits.
pub fn written_lines()
    ensures limit_met { Output naturals 6 limit_met
        (codes "X = z" ++ 10 ∷ codes "X = s(z)" ++ 10 ∷ codes "% limit met" ++ 10 ∷ []) }
    ensures complete { Output equal_text 3 complete
        (codes "X = a" ++ 10 ∷ codes "X = a" ++ 10 ∷ codes "% complete" ++ 10 ∷ []) }
    ensures nothing { Output circle DEFAULT_LIMIT complete (codes "% complete" ++ 10 ∷ []) }
    ensures numbers { last_lines (complete_with 15 44)
        ≡ codes "% complete" ++ 10 ∷ codes "% forks 15 failed 44" ++ 10 ∷ [] }
    ensures counts { (counted (2 ^ 64 - 1) ≡ codes "18446744073709551615")
        × (counted (2 ^ 64) ≡ codes "18446744073709551615") × (counted 0 ≡ codes "0") }
{}

/// Readings that do not hold. Clause 0 is the query, which takes no call, and a number past the
/// clauses takes none. The query is counted once: `?- true.` weighs 1 and has its proof within the
/// limit 1, while `?- X = 1.`, of weight 2, is left over by itself.
pub fn wrong_readings()
    ensures clause_zero { (P : Program) (es : List Equation) (q : Path) (goal : Term)
        → Candidate P es q goal 0 → ⊥ }
    ensures past_the_end { (P : Program) (es : List Equation) (q : Path) (goal : Term) (c : ℕ)
        → length P.clauses < c → Candidate P es q goal c → ⊥ }
    ensures lightest { Listing lightest 1 (entry [] (answer (codes "true")) ∷ []) }
    ensures not_twice { Listing lightest 1 [] → ⊥ }
    ensures next_lightest { Listing next_lightest 1 [] × OverLeft next_lightest 1 [] 0 }
{}
