//! The laws of a branch of the search: what its list of reductions, its row of cells and its goals
//! stand for, and what keeps them so.
//!
//! Each function here does nothing. Its contract is a law over the definitions of `and_model`, of
//! `and_cells` and of `specs/`. The proofs' own lemmas stand in `proofs/`. Beside each law stands
//! which steps of a branch rest on it: its root, its state, reducing a goal, splitting, its line.
#![tactic(auto)]

ghost use Rattle.std.specs.Prelude.{ℕ, ℤ, suc, ◌+◌, ◌≡◌, ◌≢◌, ◌<◌, ◌≤◌, ◌↔◌, true, false, List, [], ◌∷◌, ◌++◌, map};
ghost use Rattle.std.specs.Prelude.{length, replicate};
ghost use Rattle.std.specs.Prelude.{Option, Some, None, AllPairs, Contains};
ghost use Rattle.and_model.specs.Terms.{Path, Term, Terms, number, none, more, is_ground, are_ground, Substitution};
ghost use Rattle.and_model.specs.Terms.{variables_of};
ghost use Rattle.and_model.specs.Solutions.{Equation, Solvable, Entails};
ghost use Rattle.and_model.specs.Arithmetic.{Relation, value, holds};
ghost use Rattle.and_model.specs.Programs.{fail, arithmetic, Arithmetic, is, compare, clause_at, clause_weight, Of};
ghost use Rattle.and_model.specs.Closure.{needs, Ran};
ghost use Rattle.and_model.specs.Candidates.{In, Candidate};
ghost use Rattle.and_model.specs.Trees.{QueryTree, query_agenda, blank, equations, arithmetics, Open, IsWhole, path};
ghost use Rattle.and_model.specs.Trees.{call_of, reduce, code};
ghost use Rattle.and_model.specs.Trees.{decided, weight, Closed};
ghost use Rattle.and_model.specs.Reached.{CandidateOf, Step, Shut, Dead, Split, ReachedBy};
ghost use Rattle.and_model.specs.Reductions.{Reduction, Makes};
ghost use Rattle.and_model.specs.Limits.{at_goal, OverLimit};
ghost use Rattle.and_model.specs.Listing.{outcome_of, Ends};
ghost use Rattle.and_model.specs.Lines.{line};
ghost use Rattle.and_model.specs.Stands.{ClauseHas, Framed, term_of, in_tree, calls_left};
ghost use Rattle.and_model.specs.Store.{is_half};
ghost use Rattle.and_model.specs.declared.reference.Ref.{Ref};
ghost use Rattle.and_program.specs.Skeletons;
ghost use Rattle.and_program.specs.Skeletons.{node_term, AllFall};
ghost use Rattle.and_cells.specs.Ranges.{NamedProgram, pair_of};
ghost use Rattle.and_cells.specs.Rows.{IsSound};
ghost use Rattle.and_cells.specs.Seen.{word_at};
ghost use Rattle.and_cells.specs.Meaning.{Words, equations_of, equations_between};
ghost use Rattle.and_cells.specs.Parts.{part_at};
ghost use Rattle.and_laws.specs.Naming.{under};
ghost use Rattle.and_branch_laws.specs.OwnVariables.{OwnVariables, IsLoaded};
ghost use Rattle.and_branch_laws.specs.Variables.{SpeaksOf, EquationsSpeakOf, ArithmeticSpeaksOf, IsVariable};
ghost use Rattle.and_branch_laws.specs.Variables.{AreNames, placed};
ghost use Rattle.and_branch_laws.specs.Tasks.{arithmetic_among};
ghost use Rattle.and_branch_laws.specs.Reducing.{body_equations, reduction_in_cells, reduction_by, body_goals};
ghost use Rattle.and_branch_laws.specs.Settling.{widened, Settled, IsWritten};
ghost use Rattle.and_branch_laws.specs.Running.{IsRead, AreRead};
ghost use Rattle.and_branch_laws.specs.Judging.{CandidateInCells, SoleInCells, FitsBehind, NoneIsGround, EachHasOne};
ghost use Rattle.and_branch_laws.specs.Judging.{EachHasTwo, NoCall};
ghost use Rattle.and_branch_laws.specs.States.{Fits, IsFirst, State, determinate, over_one, over_all, fork};
ghost use Rattle.and_branch_laws.specs.States.{floundered, answer, StateOf};
ghost use Rattle.and_branch_laws.specs.Views.{View, StandsIn};
ghost use Rattle.and_branch_laws.specs.Kept.{item_at, node_item_at, task_of, IsCall, goal_of, calls_kept};
ghost use Rattle.and_branch_laws.specs.Kept.{arithmetic_kept, Kept, Unsettled};
ghost use Rattle.and_branch_laws.specs.Kept.{KeptIn};
ghost use Rattle.and_branch_laws.specs.Lines.{LineIsRead};
ghost use Rattle.and_branch_laws.specs.Visits.{at_query, Decides};

// ---- Names

/// Frames lie side by side: in a tree that reductions make, the frame of each place ends where the
/// next begins or before, and within the tree's weight. (Reducing a goal: the new frame begins
/// where the row ends.)
pub fn frames_lie_side_by_side()
    ensures within { (P : NamedProgram) (rs : List Reduction) (t : QueryTree P.program)
        (n c : ℕ) → Makes P.program rs t → ClauseHas rs n c
        → n + clause_weight (clause_at P.program c) ≤ weight t }
    ensures apart { (P : NamedProgram) (rs : List Reduction) (t : QueryTree P.program)
        (n c m d : ℕ) → Makes P.program rs t → ClauseHas rs n c → ClauseHas rs m d → n < m
        → n + clause_weight (clause_at P.program c) ≤ m }
{}

/// Variables have names: the variables of a tree that reductions make can be named by the cells of
/// the frames at its places, and there is a way back, so that nothing is lost. The tree's
/// equations, arithmetic and calls speak of these variables alone, and no open goal's path is a
/// frame of theirs. (All that follows rests on this.)
pub fn variables_have_names()
    ensures names { (P : NamedProgram) (rs : List Reduction) (t : QueryTree P.program)
        → Makes P.program rs t → (names : Substitution) × AreNames rs names }
    ensures back { (P : NamedProgram) (rs : List Reduction) (t : QueryTree P.program)
        → Makes P.program rs t → (back : Substitution) × ((names : Substitution) (es : List Equation)
        → AreNames rs names → EquationsSpeakOf (IsVariable P rs) es → under back (under names es) ≡ es) }
    ensures equations { (P : NamedProgram) (rs : List Reduction) (t : QueryTree P.program)
        → OwnVariables P → Makes P.program rs t → EquationsSpeakOf (IsVariable P rs) (equations t) }
    ensures arithmetic { (P : NamedProgram) (rs : List Reduction) (t : QueryTree P.program)
        (a : Arithmetic) → OwnVariables P → Makes P.program rs t → In a (arithmetics t)
        → ArithmeticSpeaksOf (IsVariable P rs) a }
    ensures calls { (P : NamedProgram) (rs : List Reduction) (t : QueryTree P.program)
        (o : Open t) → OwnVariables P → Makes P.program rs t → SpeaksOf (IsVariable P rs) (call_of t o) }
    ensures apart { (P : NamedProgram) (rs : List Reduction) (t : QueryTree P.program)
        (o : Open t) (v : Path × ℕ) → Makes P.program rs t → IsVariable P rs v → v.0 ≢ path t o }
{}

/// Kept goals are the tree's: the kept calls are its open goals, one open goal for each path, and
/// the kept arithmetic is what was not run of its own. (All calls: what is kept says what they see.)
pub fn kept_goals_are_the_trees()
    ensures calls { (P : NamedProgram) (rs : List Reduction) (row : List Ref) (kept : List Framed)
        (t : QueryTree P.program) → Kept P rs row kept t
        → map (λ (f : Framed). (f.frame ++ f.goal.item ∷ [], in_tree P.program f)) (calls_kept P.program kept)
        ≡ calls_left t }
    ensures arithmetic { (P : NamedProgram) (rs : List Reduction) (row : List Ref)
        (kept : List Framed) (t : QueryTree P.program) (k : Kept P rs row kept t)
        → Ran (equations t) (arithmetics t) k.solved (arithmetic_among (map (task_of P.program) kept)) }
    ensures open { (P : NamedProgram) (rs : List Reduction) (row : List Ref) (kept : List Framed)
        (t : QueryTree P.program) (f : Framed) → OwnVariables P → Kept P rs row kept t → Contains kept f
        → IsCall P.program f → (o : Open t) × (path t o ≡ f.frame ++ f.goal.item ∷ [])
        × (call_of t o ≡ in_tree P.program f) }
    ensures one { (P : NamedProgram) (t : QueryTree P.program) (o p : Open t) → path t o ≡ path t p → o ≡ p }
{}

// ---- What a branch stands for

/// Kept branches stand: what a branch keeps makes it stand for the key by which its tree is
/// reached; and so does a mark, where the tree is dead. (All calls that keep or make a branch.)
pub fn kept_branches_stand()
    ensures kept { (P : NamedProgram) (limit : ℕ) (key : List ℕ) (v : View)
        (t : QueryTree P.program) → IsLoaded P → KeptIn P v t → ReachedBy P.program limit key t
        → v.limit ≡ limit → v.key ≡ key → StandsIn v key P limit }
    ensures failed { (P : NamedProgram) (limit : ℕ) (key : List ℕ) (v : View)
        (t : QueryTree P.program) → Makes P.program v.reductions t → ReachedBy P.program limit key t
        → Dead t → weight t ≡ v.used → v.limit ≡ limit → v.key ≡ key → v.is_failed ≡ true
        → StandsIn v key P limit }
{}

/// Candidates of cells: a clause is a candidate of a kept call under what was solved exactly where
/// it is one in the cells, with the call read there, in whatever frame that is no cell's. (State
/// and split: what is selected over the cells is what the tree's goal has.)
pub fn candidates_of_cells()
    ensures { (P : NamedProgram) (rs : List Reduction) (row : List Ref) (kept : List Framed)
        (t : QueryTree P.program) (k : Kept P rs row kept t) (f : Framed) (fresh : Path) (c : ℕ)
        → OwnVariables P → Contains kept f → IsCall P.program f → fresh ≢ []
        → Candidate P.program k.solved (f.frame ++ f.goal.item ∷ []) (in_tree P.program f) c
        ↔ Candidate P.program (equations_of P row) fresh (placed f.goal.base (term_of P.program f.goal)) c }
{}

// ---- Steps of a branch

/// Settling keeps: what holds of a branch before its cells are settled with further equations gives
/// what it keeps after; and where these have no solution, its tree is dead. (The next three laws
/// are cases of it. Rebuilding what a phase left is another.)
pub fn settling_keeps()
    ensures kept { (P : NamedProgram) (rs : List Reduction) (row new : List Ref) (es : List Equation)
        (kept : List Framed) (t : QueryTree P.program) → IsLoaded P → Unsettled P rs row es kept t
        → Settled P row new es → Kept P rs new kept t }
    ensures unsolved { (P : NamedProgram) (rs : List Reduction) (row : List Ref) (es : List Equation)
        (kept : List Framed) (t : QueryTree P.program) → IsLoaded P → Unsettled P rs row es kept t
        → (Solvable (equations_of P row ++ es) → ⊥) → Dead t }
{}

/// Roots keep: with the query's frame alone, and the `=` items of the query settled in it, a
/// branch keeps the query's goals, and no reduction. Where these have no solution, or where the
/// query has `fail`, its tree is dead. (Root.)
pub fn roots_keep()
    ensures kept { (P : NamedProgram) (new : List Ref) → IsLoaded P
        → Settled P (replicate (clause_weight P.program.query) Ref.Free) new
        (body_equations (placed 0) P.program.query.body)
        → Kept P [] new (body_goals 0 0 [] 0 P.program.query.body) (blank (query_agenda P.program)) }
    ensures unsolved { (P : NamedProgram) → IsLoaded P
        → (Solvable (equations_of P (replicate (clause_weight P.program.query) Ref.Free) ++ body_equations
        (placed 0) P.program.query.body) → ⊥)
        → Dead (blank {P = P.program} (query_agenda P.program)) }
    ensures failing { (P : NamedProgram) → IsLoaded P → Contains P.program.query.body fail
        → Dead (blank {P = P.program} (query_agenda P.program)) }
{}

/// Reductions keep: where a kept call is reduced by a clause, and the row, with a frame more, is
/// settled with what that asks of the cells, the branch keeps the body's goals in the place of the
/// call. (Reducing a goal, and each child of a split.)
pub fn reductions_keep()
    ensures { (P : NamedProgram) (rs : List Reduction) (row new : List Ref) (front : List Framed)
        (f : Framed) (back : List Framed) (t : QueryTree P.program) (o : Open t) (c : ℕ)
        (of_it : Of P.program (call_of t o) c) → IsLoaded P → Kept P rs row (front ++ f ∷ back) t
        → IsCall P.program f → path t o ≡ f.frame ++ f.goal.item ∷ []
        → Settled P (widened row (clause_weight (clause_at P.program c))) new
        (reduction_in_cells P.program f.goal c (length row))
        → Kept P (rs ++ reduction_by f.goal c (length row) ∷ []) new
        (front ++ (body_goals c (length row) (f.frame ++ f.goal.item ∷ []) 0 (clause_at P.program c).body ++ back))
        (reduce t o c of_it) }
{}

/// Runs keep: where the terms that a kept goal of arithmetic needs read as ground terms, a
/// comparison that holds is dropped; and an `is` goal with a value is, where this was written into
/// its pair and its left side was settled with it. (State.)
pub fn runs_keep()
    ensures comparison { (P : NamedProgram) (rs : List Reduction) (row : List Ref)
        (front : List Framed) (f : Framed) (back : List Framed) (t : QueryTree P.program)
        (r : Relation) (a b u v : Term) → IsLoaded P → Kept P rs row (front ++ f ∷ back) t
        → item_at P.program f.goal ≡ arithmetic (compare r a b)
        → IsRead P row f.goal.base a u → IsRead P row f.goal.base b v
        → is_ground u ≡ true → is_ground v ≡ true → holds r u v ≡ true
        → Kept P rs row (front ++ back) t }
    ensures assignment { (P : NamedProgram) (rs : List Reduction) (row written new : List Ref)
        (front : List Framed) (f : Framed) (back : List Framed) (t : QueryTree P.program)
        (l r u : Term) (z : ℤ) (left right pair : ℕ) → IsLoaded P → Kept P rs row (front ++ f ∷ back) t
        → item_at P.program f.goal ≡ arithmetic (is l r)
        → node_item_at P f.goal ≡ Skeletons.is left right pair
        → IsRead P row f.goal.base r u → is_ground u ≡ true → value u ≡ Some z
        → IsSound P written → IsWritten row written (pair_of P f.goal.clause.0 f.goal.base pair) z
        → Settled P written new ((placed f.goal.base l, number z) ∷ [])
        → Kept P rs new (front ++ back) t }
    ensures pair_is_free { (P : NamedProgram) (rs : List Reduction) (row : List Ref) (kept : List Framed)
        (f : Framed) (t : QueryTree P.program) (left right pair : ℕ) → Kept P rs row kept t
        → Contains kept f → node_item_at P f.goal ≡ Skeletons.is left right pair
        → (word_at row (pair_of P f.goal.clause.0 f.goal.base pair) ≡ Ref.Free)
        × (word_at row (suc (pair_of P f.goal.clause.0 f.goal.base pair)) ≡ Ref.Free) }
{}

/// Sole candidates step: where no other clause is a candidate of a kept call in the cells, and be
/// it before any arithmetic was run, reducing the call by this clause is a Step. (Reducing a goal.)
pub fn sole_candidates_step()
    ensures { (P : NamedProgram) (rs : List Reduction) (row : List Ref) (kept : List Framed)
        (t : QueryTree P.program) (f : Framed) (o : Open t) (c : ℕ) (of_it : Of P.program (call_of t o) c)
        → IsLoaded P → Kept P rs row kept t → Contains kept f → IsCall P.program f
        → path t o ≡ f.frame ++ f.goal.item ∷ []
        → ((d : ℕ) → CandidateInCells P row f.goal d → d ≡ c) → Step t (reduce t o c of_it) }
{}

/// Dead branches: the tree is dead where a kept call has no candidate in the cells; where a goal of
/// arithmetic that reads as ground terms is false or has no value; and where the number of an `is`
/// goal has no solution with its left side. A reduced tree is dead where what it asks of the cells
/// has no solution, and where the body has `fail`. (State, reducing a goal, and splitting.)
pub fn dead_branches()
    ensures candidate { (P : NamedProgram) (rs : List Reduction) (row : List Ref) (kept : List Framed)
        (t : QueryTree P.program) (f : Framed) → IsLoaded P → Kept P rs row kept t → Contains kept f
        → IsCall P.program f → ((d : ℕ) → CandidateInCells P row f.goal d → ⊥) → Dead t }
    ensures comparison { (P : NamedProgram) (rs : List Reduction) (row : List Ref) (kept : List Framed)
        (t : QueryTree P.program) (f : Framed) (r : Relation) (a b u v : Term) → IsLoaded P
        → Kept P rs row kept t → Contains kept f → item_at P.program f.goal ≡ arithmetic (compare r a b)
        → IsRead P row f.goal.base a u → IsRead P row f.goal.base b v
        → is_ground u ≡ true → is_ground v ≡ true → holds r u v ≡ false → Dead t }
    ensures no_value { (P : NamedProgram) (rs : List Reduction) (row : List Ref) (kept : List Framed)
        (t : QueryTree P.program) (f : Framed) (l r u : Term) → IsLoaded P
        → Kept P rs row kept t → Contains kept f → item_at P.program f.goal ≡ arithmetic (is l r)
        → IsRead P row f.goal.base r u → is_ground u ≡ true → value u ≡ None → Dead t }
    ensures assignment { (P : NamedProgram) (rs : List Reduction) (row written : List Ref)
        (front : List Framed) (f : Framed) (back : List Framed) (t : QueryTree P.program)
        (l r u : Term) (z : ℤ) (left right pair : ℕ) → IsLoaded P → Kept P rs row (front ++ f ∷ back) t
        → item_at P.program f.goal ≡ arithmetic (is l r)
        → node_item_at P f.goal ≡ Skeletons.is left right pair
        → IsRead P row f.goal.base r u → is_ground u ≡ true → value u ≡ Some z
        → IsSound P written → IsWritten row written (pair_of P f.goal.clause.0 f.goal.base pair) z
        → (Solvable (equations_of P written ++ (placed f.goal.base l, number z) ∷ []) → ⊥) → Dead t }
    ensures reduction { (P : NamedProgram) (rs : List Reduction) (row : List Ref) (front : List Framed)
        (f : Framed) (back : List Framed) (t : QueryTree P.program) (o : Open t) (c : ℕ)
        (of_it : Of P.program (call_of t o) c) → IsLoaded P → Kept P rs row (front ++ f ∷ back) t
        → IsCall P.program f → path t o ≡ f.frame ++ f.goal.item ∷ []
        → (Solvable (equations_of P (widened row (clause_weight (clause_at P.program c)))
        ++ reduction_in_cells P.program f.goal c
        (length row)) → ⊥)
        → Dead (reduce t o c of_it) }
    ensures failing { (P : NamedProgram) (rs : List Reduction) (row : List Ref) (front : List Framed)
        (f : Framed) (back : List Framed) (t : QueryTree P.program) (o : Open t) (c : ℕ)
        (of_it : Of P.program (call_of t o) c) → IsLoaded P → Kept P rs row (front ++ f ∷ back) t
        → IsCall P.program f → path t o ≡ f.frame ++ f.goal.item ∷ []
        → Contains (clause_at P.program c).body fail → Dead (reduce t o c of_it) }
{}

// ---- The state

/// A tree has one state under a limit, and only one. (State.)
pub fn one_state()
    ensures some { (P : NamedProgram) (limit : ℕ) (t : QueryTree P.program)
        → (s : State t) × StateOf P.program limit t s }
    ensures only_one { (P : NamedProgram) (limit : ℕ) (t : QueryTree P.program) (s r : State t)
        → StateOf P.program limit t s → StateOf P.program limit t r → s ≡ r }
{}

/// Closed where none is ground: where no kept arithmetic reads as ground terms, what was solved is
/// the tree's closure, and the candidates in the cells are those under it. (State and split.)
pub fn closed_where_none_is_ground()
    ensures closed { (P : NamedProgram) (rs : List Reduction) (row : List Ref) (kept : List Framed)
        (t : QueryTree P.program) (k : Kept P rs row kept t) (es : List Equation) (gs : List Arithmetic)
        → IsLoaded P → NoneIsGround P row kept → Closed t es gs
        → Entails es k.solved × Entails k.solved es × (gs ≡ arithmetic_among (map (task_of P.program) kept)) }
    ensures candidates { (P : NamedProgram) (rs : List Reduction) (row : List Ref) (kept : List Framed)
        (t : QueryTree P.program) (es : List Equation) (gs : List Arithmetic) (f : Framed) (o : Open t) (c : ℕ)
        → IsLoaded P → Kept P rs row kept t → NoneIsGround P row kept → Closed t es gs → Contains kept f
        → IsCall P.program f → path t o ≡ f.frame ++ f.goal.item ∷ []
        → CandidateInCells P row f.goal c ↔ CandidateOf t es o c }
    ensures shut { (P : NamedProgram) (rs : List Reduction) (row : List Ref) (kept : List Framed)
        (t : QueryTree P.program) → IsLoaded P → Kept P rs row kept t → NoneIsGround P row kept
        → EachHasTwo P row kept → Shut t }
{}

/// States of cells: where no kept arithmetic reads as ground terms, what the calls' candidates in
/// the cells are, and which fit, says the state of the tree. (State. That it is failed, say the dead
/// branches.)
pub fn states_of_cells()
    ensures determinate { (P : NamedProgram) (rs : List Reduction) (row : List Ref) (front : List Framed)
        (f : Framed) (back : List Framed) (t : QueryTree P.program) (limit : ℕ) (o : Open t) (c : ℕ)
        → IsLoaded P → Kept P rs row (front ++ f ∷ back) t → NoneIsGround P row (front ++ f ∷ back)
        → IsCall P.program f → path t o ≡ f.frame ++ f.goal.item ∷ [] → EachHasOne P row (front ++ f ∷ back)
        → SoleInCells P row f.goal c → FitsBehind P limit row c
        → ((h : Framed) (d : ℕ) → Contains front h → IsCall P.program h → SoleInCells P row h.goal d
        → FitsBehind P limit row d → ⊥)
        → StateOf P.program limit t (determinate o c) }
    ensures over_one { (P : NamedProgram) (rs : List Reduction) (row : List Ref) (front : List Framed)
        (f : Framed) (back : List Framed) (t : QueryTree P.program) (limit : ℕ) (o : Open t) (c : ℕ)
        → IsLoaded P → Kept P rs row (front ++ f ∷ back) t → NoneIsGround P row (front ++ f ∷ back)
        → IsCall P.program f → path t o ≡ f.frame ++ f.goal.item ∷ [] → EachHasOne P row (front ++ f ∷ back)
        → SoleInCells P row f.goal c
        → ((h : Framed) (d : ℕ) → Contains (front ++ f ∷ back) h → IsCall P.program h → SoleInCells P row h.goal d
        → FitsBehind P limit row d → ⊥)
        → ((h : Framed) (d : ℕ) → Contains front h → IsCall P.program h → SoleInCells P row h.goal d → ⊥)
        → StateOf P.program limit t (over_one o c) }
    ensures over_all { (P : NamedProgram) (rs : List Reduction) (row : List Ref) (front : List Framed)
        (f : Framed) (back : List Framed) (t : QueryTree P.program) (limit : ℕ) (o : Open t) (c : ℕ)
        → IsLoaded P → Kept P rs row (front ++ f ∷ back) t → NoneIsGround P row (front ++ f ∷ back)
        → IsCall P.program f → path t o ≡ f.frame ++ f.goal.item ∷ [] → EachHasTwo P row (front ++ f ∷ back)
        → NoCall P front → ((d : ℕ) → CandidateInCells P row f.goal d → FitsBehind P limit row d → ⊥)
        → IsFirst (λ d. CandidateInCells P row f.goal d) (Some c)
        → StateOf P.program limit t (over_all o c) }
    ensures fork { (P : NamedProgram) (rs : List Reduction) (row : List Ref) (front : List Framed)
        (f : Framed) (back : List Framed) (t : QueryTree P.program) (limit : ℕ) (o : Open t) (cs : List ℕ)
        (cut : Option ℕ)
        → IsLoaded P → Kept P rs row (front ++ f ∷ back) t → NoneIsGround P row (front ++ f ∷ back)
        → IsCall P.program f → path t o ≡ f.frame ++ f.goal.item ∷ [] → EachHasTwo P row (front ++ f ∷ back)
        → NoCall P front → cs ≢ [] → AllPairs (λ (c d : ℕ). c < d) cs
        → ((c : ℕ) → Contains cs c ↔ (CandidateInCells P row f.goal c × FitsBehind P limit row c))
        → IsFirst (λ d. CandidateInCells P row f.goal d × (FitsBehind P limit row d → ⊥)) cut
        → StateOf P.program limit t (fork o cs cut) }
    ensures floundered { (P : NamedProgram) (rs : List Reduction) (row : List Ref) (kept : List Framed)
        (t : QueryTree P.program) (limit : ℕ) → IsLoaded P → Kept P rs row kept t → NoneIsGround P row kept
        → NoCall P kept → kept ≢ [] → StateOf P.program limit t floundered }
    ensures answer { (P : NamedProgram) (rs : List Reduction) (row : List Ref)
        (t : QueryTree P.program) (limit : ℕ) → IsLoaded P → Kept P rs row [] t
        → StateOf P.program limit t answer }
{}

/// States go on: a determinate goal is reduced by a Step, with the same key; a fork splits the tree
/// by each of its clauses, each child with the key of what was decided and its clause; and what
/// does not fit is over the limit. (State's cuts, reducing a goal, and split.)
pub fn states_go_on()
    ensures determinate { (P : NamedProgram) (limit : ℕ) (key : List ℕ) (t : QueryTree P.program)
        (o : Open t) (c : ℕ) (of_it : Of P.program (call_of t o) c) → ReachedBy P.program limit key t
        → StateOf P.program limit t (determinate o c)
        → Step t (reduce t o c of_it) × ReachedBy P.program limit key (reduce t o c of_it) }
    ensures fork { (P : NamedProgram) (limit : ℕ) (key : List ℕ) (t : QueryTree P.program)
        (o : Open t) (cs : List ℕ) (cut : Option ℕ) (c : ℕ) (of_it : Of P.program (call_of t o) c)
        → ReachedBy P.program limit key t → StateOf P.program limit t (fork o cs cut) → Contains cs c
        → Split t c (reduce t o c of_it) × ReachedBy P.program limit (decided t ++ c ∷ []) (reduce t o c of_it) }
    ensures over_one { (P : NamedProgram) (limit : ℕ) (key : List ℕ) (t : QueryTree P.program)
        (o : Open t) (c : ℕ) → ReachedBy P.program limit key t → StateOf P.program limit t (over_one o c)
        → OverLimit P.program limit (at_goal t o c) }
    ensures over_all { (P : NamedProgram) (limit : ℕ) (key : List ℕ) (t : QueryTree P.program)
        (o : Open t) (c : ℕ) → ReachedBy P.program limit key t → StateOf P.program limit t (over_all o c)
        → OverLimit P.program limit (at_goal t o c) }
    ensures cut { (P : NamedProgram) (limit : ℕ) (key : List ℕ) (t : QueryTree P.program)
        (o : Open t) (cs : List ℕ) (c : ℕ) → ReachedBy P.program limit key t
        → StateOf P.program limit t (fork o cs (Some c)) → OverLimit P.program limit (at_goal t o c) }
{}

/// Lines of cells: from a branch's cells the terms of a line can be read; and where no call is
/// left and no arithmetic can run, the tree ends with the line of these. (Line and code.)
pub fn lines_of_cells()
    ensures { (P : NamedProgram) (rs : List Reduction) (row : List Ref) (kept : List Framed)
        (t : QueryTree P.program) → IsLoaded P → Kept P rs row kept t
        → (r : LineIsRead P row (map goal_of (arithmetic_kept P.program kept)))
        × (NoneIsGround P row kept → NoCall P kept → Ends t (outcome_of r.waits (line P.program r.terms r.waits))) }
{}

/// Reductions decide: the clauses that are found from the reductions, by going through the bodies
/// from the query's on, are what the tree that they make has decided; and a whole tree has decided
/// its code. (Code, and the longer key of a split.)
pub fn reductions_decide()
    ensures decided { (P : NamedProgram) (rs : List Reduction) (t : QueryTree P.program) (cs : List ℕ)
        → Makes P.program rs t → Decides P.program rs (at_query ∷ []) cs → decided t ≡ cs }
    ensures whole { (P : NamedProgram) (t : QueryTree P.program) → IsWhole t → decided t ≡ code t }
{}

// ---- What unification is asked

/// Cells are whole: the cells of a kept goal's variables are no words of pairs, nor are they in the
/// row with a frame more, whose words are those of the row and then free. (Reducing a goal, state.)
pub fn cells_are_whole()
    ensures goals { (P : NamedProgram) (rs : List Reduction) (row : List Ref) (kept : List Framed)
        (t : QueryTree P.program) (f : Framed) (v : Path × ℕ) → OwnVariables P → Kept P rs row kept t
        → Contains kept f → Contains (variables_of (term_of P.program f.goal)) v
        → is_half (word_at row (f.goal.base + 1 + v.1)) ≡ false }
    ensures widened { (row : List Ref) (by place : ℕ) → word_at (widened row by) place ≡ word_at row place }
{}

/// Pairs ask: two nodes, each found in its frame, ask for the equation of their terms in the cells
/// of their frames, and a node with a number that was written for that of its term with the number.
/// Settling with equations is settling with others that ask for the same. (Reducing a goal, state:
/// these tie the pairs that are handed to unification to the equations of these laws.)
pub fn pairs_ask()
    ensures nodes { (P : NamedProgram) (w : Words) (b n d m : ℕ) → AllFall 0 P.skeleton.nodes
        → ((v : Path × ℕ) → Contains (variables_of (node_term P.skeleton.nodes n)) v
        → is_half (w (b + 1 + v.1)) ≡ false)
        → ((v : Path × ℕ) → Contains (variables_of (node_term P.skeleton.nodes m)) v
        → is_half (w (d + 1 + v.1)) ≡ false)
        → equations_between P w (part_at P b n) (part_at P d m)
        ≡ (placed b (node_term P.skeleton.nodes n), placed d (node_term P.skeleton.nodes m)) ∷ [] }
    ensures number { (P : NamedProgram) (row written : List Ref) (b n pair : ℕ) (z : ℤ)
        → AllFall 0 P.skeleton.nodes → IsWritten row written pair z
        → ((v : Path × ℕ) → Contains (variables_of (node_term P.skeleton.nodes n)) v
        → is_half (word_at written (b + 1 + v.1)) ≡ false)
        → equations_between P (word_at written) (part_at P b n) (Ref.Number pair)
        ≡ (placed b (node_term P.skeleton.nodes n), number z) ∷ [] }
    ensures alike { (P : NamedProgram) (old new : List Ref) (es ds : List Equation)
        → Entails es ds → Entails ds es → Settled P old new es → Settled P old new ds }
{}
