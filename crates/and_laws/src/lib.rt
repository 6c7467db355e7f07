//! The laws of the definitions: what makes the engine's way of going about a query, by
//! determinate goals first, find exactly the answers that the definitions list.
//!
//! Each function here does nothing. Its contract is a law over the definitions of `and_model`
//! alone, proved for all programs, trees and limits. The proofs' own lemmas stand in `proofs/`.
#![tactic(auto)]

ghost use Rattle.std.specs.Prelude.{ℕ, ◌≡◌, ◌+◌, ◌<◌, ◌≤◌, ◌≢◌, ◌⊎◌, ◌↔◌, List, [], ◌∷◌, ◌++◌, AllPairs, Contains};
ghost use Rattle.std.specs.Prelude.{Some, map, length, true};
ghost use Rattle.and_model.specs.Terms.{Path, Term, Substitution, apply};
ghost use Rattle.and_model.specs.Solutions.{Equation, Solvable, Entails, MostGeneral};
ghost use Rattle.and_model.specs.Programs.{Program, Arithmetic, clause_at, Of};
ghost use Rattle.and_model.specs.Closure.{Closes, ClosesAnyhow, Ran};
ghost use Rattle.and_model.specs.Candidates.{Candidate};
ghost use Rattle.and_model.specs.Trees.{Agenda, Tree, QueryTree, query_agenda, equations, arithmetics, path, call_of};
ghost use Rattle.and_model.specs.Trees.{reduce, blank, IsWhole, Open, Below, Closed, HasOutcome, code, decided};
ghost use Rattle.and_model.specs.Trees.{weight, unfold_code};
ghost use Rattle.and_model.specs.Reached.{Step, Shut, Dead, Split, Steps, Reached, ReachedBy, Numbers, Fork, Forks};
ghost use Rattle.and_model.specs.Limits.{Cut, OverLimit};
ghost use Rattle.and_model.specs.Reductions.{Reduction, Makes};
ghost use Rattle.and_model.specs.Lines.{line_of, line};
ghost use Rattle.and_model.specs.Stands.{numbers_below, AreVariants};
ghost use Rattle.and_model.specs.Codes.{IsProperPrefix};
ghost use Rattle.and_model.specs.Listing.{Entry, Listing, Exhausted};
ghost use Rattle.and_model.specs.Prefixes.{IsPrefix};
ghost use Rattle.and_laws.specs.Paths.{At};
ghost use Rattle.and_laws.specs.Outcomes.{Covers};
ghost use Rattle.and_laws.specs.Fitting.{AllFit};
ghost use Rattle.and_laws.specs.CodeOrder.{Before, Rises};
ghost use Rattle.and_laws.specs.Entries.{IsWithin};
ghost use Rattle.and_laws.specs.Explorations.{Explores};
ghost use Rattle.and_laws.specs.Naming.{Variables, IsOver, EquationsOver, others, under};
ghost use Rattle.and_laws.specs.Weaving.{body_arithmetic, RanAlike};

// ---- Solutions

/// Unification: a list of equations has a most general solution, or no solution. One more
/// equation has a solution with the list exactly where its two sides, under a most general
/// solution of the list, have one; and a most general solution of these, after that of the list,
/// is one of the whole.
pub fn unification()
    ensures theorem { (es : List Equation)
        → ((s : Substitution) × MostGeneral s es) ⊎ (Solvable es → ⊥) }
    ensures one_more { (s : Substitution) (es : List Equation) (a b : Term) → MostGeneral s es
        → Solvable ((a, b) ∷ es) ↔ Solvable ((apply s a, apply s b) ∷ []) }
    ensures composed { (s r : Substitution) (es : List Equation) (a b : Term) → MostGeneral s es
        → MostGeneral r ((apply s a, apply s b) ∷ [])
        → MostGeneral (λ q k. apply r (s q k)) ((a, b) ∷ es) }
{}

/// Two most general solutions of equations that entail each other make variants of any terms.
pub fn general_solutions_make_variants()
    ensures { (es ds : List Equation) (s t : Substitution) (terms : List Term)
        → MostGeneral s es → MostGeneral t ds → Entails es ds → Entails ds es
        → AreVariants (map (apply s) terms) (map (apply t) terms) }
{}

/// Values of the query's variables with goals that wait, and variants of them, give one line.
pub fn variants_give_one_line()
    ensures { (P : Program) (n : ℕ) (s t : Substitution) (goals others : List Term)
        → length P.query.written ≤ n → length goals ≡ length others
        → AreVariants (map (s []) (numbers_below n) ++ goals) (map (t []) (numbers_below n) ++ others)
        → line_of P s goals ≡ line_of P t others }
{}

/// One line: two most general solutions of equations that entail each other give one line.
pub fn one_line()
    ensures { (P : Program) (es ds : List Equation) (s t : Substitution) (waiting : List Arithmetic)
        → MostGeneral s es → MostGeneral t ds → Entails es ds → Entails ds es
        → line P s waiting ≡ line P t waiting }
{}

// ---- Closure and candidates

/// Closure order: the closure takes known goals in some order, and whichever are taken first, the
/// ends entail each other, and where they have a solution, the same goals wait. Where some goals
/// were run, closing the rest closes the whole.
pub fn closure_order()
    ensures some_order { (es ds : List Equation) (gs ws : List Arithmetic)
        → Closes es gs ds ws → ClosesAnyhow es gs ds ws }
    ensures any_order { (es ds cs : List Equation) (gs ws vs : List Arithmetic)
        → ClosesAnyhow es gs ds ws → ClosesAnyhow es gs cs vs
        → Entails ds cs × Entails cs ds × (Solvable ds → ws ≡ vs) }
    ensures so_far { (es ds cs : List Equation) (gs ws vs : List Arithmetic)
        → Ran es gs ds ws → ClosesAnyhow ds ws cs vs → ClosesAnyhow es gs cs vs }
{}

/// Candidates fall: a clause that is no candidate of a call under equations is none under equations
/// that entail them, and so none in any larger tree.
pub fn candidates_fall()
    ensures equations { (P : Program) (es ds : List Equation) (q : Path) (goal : Term) (c : ℕ)
        → Entails ds es → Candidate P ds q goal c → Candidate P es q goal c }
    ensures trees { (P : Program) (ag : Agenda) (t u : Tree P ag)
        (es ds : List Equation) (gs ws : List Arithmetic)
        → Below P ag t u → Closed t es gs → Closed u ds ws
        → (q : Path) (goal : Term) (c : ℕ) → Candidate P ds q goal c → Candidate P es q goal c }
{}

/// Candidates under other names: a candidate of a call is one in each frame that neither the
/// equations nor the call speak of; and it stays one where the variables of these are renamed. So
/// cells can be read in a name space of their own.
pub fn candidates_have_no_names()
    ensures fresh { (P : Program) (es : List Equation) (frame : Variables) (q p : Path) (goal : Term) (c : ℕ)
        → ((k : ℕ) → frame p k ≡ true) → EquationsOver (others frame) es → IsOver (others frame) goal
        → Candidate P es q goal c → Candidate P es p goal c }
    ensures renamed { (P : Program) (es : List Equation) (r back : Substitution) (frame : Variables) (q : Path)
        (goal : Term) (c : ℕ) → ((k : ℕ) → frame q k ≡ true)
        → EquationsOver (others frame) (under r es) → IsOver (others frame) (apply r goal)
        → under back (under r es) ≡ es → apply back (apply r goal) ≡ goal
        → Candidate P es q goal c → Candidate P (under r es) q (apply r goal) c }
{}

// ---- Steps

/// Steps agree: from one tree they never reach both a Dead tree and a Shut tree, and the Shut
/// trees that they reach are one.
pub fn steps_agree()
    ensures one_end { (P : Program) (ag : Agenda) (t d s : Tree P ag)
        → Steps t d → Dead d → Steps t s → Shut s → ⊥ }
    ensures one_shut { (P : Program) (ag : Agenda) (t r s : Tree P ag)
        → Steps t r → Shut r → Steps t s → Shut s → r ≡ s }
{}

/// A tree has at most one pair of numbers of forks and failures.
pub fn numbers_agree()
    ensures { (P : Program) (ag : Agenda) (t : Tree P ag) (forks failed others missed : ℕ)
        → Numbers t forks failed → Numbers t others missed → (forks ≡ others) × (failed ≡ missed) }
{}

/// A tree with a key has at most one list of forks.
pub fn forks_agree()
    ensures { (P : Program) (ag : Agenda) (t : Tree P ag) (key : List ℕ) (forks others : List Fork)
        → Forks t key forks → Forks t key others → forks ≡ others }
{}

/// Forks rise by key: where a tree has decided what its key says, the keys of its forks are in
/// strictly rising lexicographic order.
pub fn forks_rise_by_key()
    ensures { (P : Program) (ag : Agenda) (t : Tree P ag) (key : List ℕ) (forks : List Fork)
        → IsPrefix key (decided t) → Forks t key forks → AllPairs Rises forks }
{}

/// All trees that are reached by one key come by Steps from one tree.
pub fn keys_agree()
    ensures { (P : Program) (limit : ℕ) (key : List ℕ) (t : QueryTree P) → ReachedBy P limit key t
        → (root : QueryTree P) × ((u : QueryTree P) → ReachedBy P limit key u → Steps root u) }
{}

/// Steps keep outcomes: a tree with an outcome that is above a tree is above each of its Steps.
/// So where a tree covers a key, each of its Steps does.
pub fn steps_keep_outcomes()
    ensures trees { (P : Program) (ag : Agenda) (t next u : Tree P ag)
        → Below P ag t u → HasOutcome u → Step t next → Below P ag next u }
    ensures keys { (P : Program) (key : List ℕ) (t next : QueryTree P)
        → Covers t key → Step t next → Covers next key }
{}

/// No tree with an outcome is above a Dead tree. So where a Dead tree covers a key, no code that
/// begins with the key has an outcome.
pub fn dead_has_none()
    ensures trees { (P : Program) (ag : Agenda) (t u : Tree P ag)
        → Below P ag t u → HasOutcome u → Dead t → ⊥ }
    ensures keys { (P : Program) (key : List ℕ) (t : QueryTree P) → Covers t key → Dead t
        → (u : QueryTree P) → HasOutcome u → IsPrefix key (code u) → ⊥ }
{}

/// What was run stays run: where some arithmetic goals of a tree were run, the same goals are run,
/// and add the same, in each tree in which an open goal was taken by a clause. The goals of the
/// clause's body then wait among those that waited.
pub fn what_was_run_stays_run()
    ensures { (P : Program) (ag : Agenda) (t : Tree P ag) (o : Open t) (c : ℕ) (h : Of P (call_of t o) c)
        (solved : List Equation) (waits : List Arithmetic)
        → Ran (equations t) (arithmetics t) solved waits
        → RanAlike t (reduce t o c h) (body_arithmetic (path t o) (clause_at P c).body) solved waits }
{}

// ---- Splits

/// Splits divide outcomes: a tree with an outcome that is above a Shut tree with open goals is
/// above one of its splits, and only one. Its code begins with what the Shut tree has decided,
/// and then the split's clause. A split that weighs more than a limit has only such trees above
/// it.
pub fn splits_divide_outcomes()
    ensures one_of_them { (P : Program) (ag : Agenda) (t u : Tree P ag)
        → Below P ag t u → HasOutcome u → Shut t → Open t
        → (c : ℕ) × (next : Tree P ag) × Split t c next × Below P ag next u }
    ensures only_one { (P : Program) (ag : Agenda) (t u next other : Tree P ag) (c d : ℕ)
        → Split t c next → Below P ag next u → Split t d other → Below P ag other u
        → (c ≡ d) × (next ≡ other) }
    ensures begins { (P : Program) (ag : Agenda) (t u next : Tree P ag) (c : ℕ)
        → Split t c next → Below P ag next u → IsPrefix (decided t ++ c ∷ []) (code u) }
    ensures heavy { (P : Program) (limit : ℕ) (t u : QueryTree P)
        → Below P (query_agenda P) t u → limit < weight t → limit < weight u }
{}

/// Reached trees cover: a tree that is reached by a key covers it, and has decided what the key
/// says, since a split of a tree that covers a beginning of what it has decided covers the
/// split's key.
pub fn reached_trees_cover()
    ensures split { (P : Program) (key : List ℕ) (t : QueryTree P) (c : ℕ) (next : QueryTree P)
        → IsPrefix key (decided t) → Covers t key → Split t c next
        → Covers next (decided t ++ c ∷ []) }
    ensures covers { (P : Program) (limit : ℕ) (key : List ℕ) (t : QueryTree P)
        → ReachedBy P limit key t → Covers t key }
    ensures begins { (P : Program) (limit : ℕ) (key : List ℕ) (t : QueryTree P)
        → ReachedBy P limit key t → IsPrefix key (decided t) }
{}

// ---- Proofs

/// Closed trees are proofs: a partial tree without open goals is whole, and is the only tree that
/// it is below; so it agrees with one whole code alone, of which it is the tree.
pub fn closed_trees_are_proofs()
    ensures whole { (P : Program) (ag : Agenda) (t : Tree P ag)
        → (Open t → ⊥) → IsWhole t × Below P ag t t }
    ensures only_one { (P : Program) (ag : Agenda) (t u : Tree P ag)
        → (Open t → ⊥) → Below P ag t u → t ≡ u }
    ensures one_code { (P : Program) (ag : Agenda) (t u : Tree P ag)
        → IsWhole t → IsWhole u → code t ≡ code u → t ≡ u }
{}

/// Every outcome is reached: a tree with an outcome that weighs at most the limit is reached.
pub fn every_outcome_is_reached()
    ensures { (P : Program) (limit : ℕ) (u : QueryTree P)
        → HasOutcome u → weight u ≤ limit → Reached P limit u }
{}

/// Unfolded codes: the unfolding of a code has this code, and its taken calls come before its
/// open ones, since these are all the clauses before the leftmost open call. Each such tree is
/// the unfolding of its code, and so is each whole tree.
pub fn unfolded_codes()
    ensures unfolding { (P : Program) (cs : List ℕ) (t : QueryTree P)
        → unfold_code P cs ≡ Some t → (code t ≡ cs) × (decided t ≡ cs) }
    ensures decided { (P : Program) (t : QueryTree P)
        → decided t ≡ code t → unfold_code P (code t) ≡ Some t }
    ensures whole { (P : Program) (t : QueryTree P) → IsWhole t → unfold_code P (code t) ≡ Some t }
{}

/// Agreement by paths: a tree is below another of the query exactly where that has its clause at
/// each of its paths, and two trees that have the same clauses at the same paths are one.
pub fn agreement_by_paths()
    ensures below { (P : Program) (t u : QueryTree P)
        → Below P (query_agenda P) t u ↔ ((q : Path) (c : ℕ) → At t q c → At u q c) }
    ensures same { (P : Program) (t u : QueryTree P)
        → ((q : Path) (c : ℕ) → At t q c ↔ At u q c) → t ≡ u }
{}

/// Reductions make one tree: a list of reductions, in whatever order it is written, makes at most
/// one tree. Each place has a number of its own, which is above its parent's and below the tree's
/// weight.
pub fn reductions_make_one_tree()
    ensures one { (P : Program) (rs qs : List Reduction) (t u : QueryTree P)
        → Makes P rs t → Makes P qs u
        → ((r : Reduction) → Contains rs r ↔ Contains qs r) → t ≡ u }
    ensures numbers { (P : Program) (rs : List Reduction) (t : QueryTree P) → Makes P rs t
        → (r : Reduction) → Contains rs r → (r.parent < r.node) × (r.node < weight t) }
    ensures own { (P : Program) (rs : List Reduction) (t : QueryTree P) → Makes P rs t
        → (r other : Reduction) → Contains rs r → Contains rs other
        → r.node ≡ other.node → r ≡ other }
{}

// ---- Listings

/// There is at most one listing of a program within a limit.
pub fn one_listing()
    ensures { (P : Program) (limit : ℕ) (ks ls : List Entry)
        → Listing P limit ks → Listing P limit ls → ks ≡ ls }
{}

/// There is a listing of each program within each limit.
pub fn some_listing()
    ensures { (P : Program) (limit : ℕ) → (ls : List Entry) × Listing P limit ls }
{}

/// Codes in order: no whole code is a proper prefix of another of the same program, and the codes
/// of a listing are strictly rising in the lexicographic order.
pub fn codes_in_order()
    ensures prefixes { (P : Program) (ag : Agenda) (t u : Tree P ag)
        → IsWhole t → IsWhole u → IsProperPrefix (code t) (code u) → ⊥ }
    ensures rising { (P : Program) (limit : ℕ) (ls : List Entry)
        → Listing P limit ls → AllPairs Before ls }
{}

/// The entries of a listing are those within the limit, and a list of these in order is the
/// listing.
pub fn listed_entries()
    ensures all { (P : Program) (limit : ℕ) (ls : List Entry) → Listing P limit ls
        → (e : Entry) → Contains ls e ↔ IsWithin P limit e }
    ensures determined { (P : Program) (limit : ℕ) (ls : List Entry) → AllPairs Before ls
        → ((e : Entry) → Contains ls e ↔ IsWithin P limit e) → Listing P limit ls }
{}

/// Fitting trees exhaust: where the query and every reached tree with any candidate added weigh
/// at most the limit, every larger limit has the same listing, and nothing is over the limit.
pub fn fitting_trees_exhaust()
    ensures exhausted { (P : Program) (limit : ℕ) → AllFit P limit → Exhausted P limit }
    ensures no_cut { (P : Program) (limit : ℕ) → AllFit P limit
        → (cut : Cut P) → OverLimit P limit cut → ⊥ }
{}

/// Exploring suffices: an exploration of the query finds the entries within the limit and no
/// others, and no code twice.
pub fn exploring_suffices()
    ensures entries { (P : Program) (limit : ℕ) (found : List Entry)
        → Explores P limit (blank (query_agenda P)) found
        → (e : Entry) → Contains found e ↔ IsWithin P limit e }
    ensures once { (P : Program) (limit : ℕ) (found : List Entry)
        → Explores P limit (blank (query_agenda P)) found
        → AllPairs (λ (x y : Entry). x.code ≢ y.code) found }
{}
