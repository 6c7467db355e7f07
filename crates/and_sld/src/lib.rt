//! SLD resolution as a textbook has it, and the law that the codes with an outcome are its
//! computations.
//!
//! Each function here does nothing. Its contract is a law, or a trial of the definitions.
#![tactic(auto)]

ghost use Rattle.std.specs.Prelude.{ℕ, ◌≡◌, ◌≤◌, ◌↔◌, List, [], ◌∷◌, ◌++◌, Some, None, Contains, length, map, pos};
ghost use Rattle.and_model.specs.Terms.{Path, Term, Substitution, variable, number, compound, none, more, apply};
ghost use Rattle.and_model.specs.Solutions.{Equation, MostGeneral};
ghost use Rattle.and_model.specs.Programs.{Program, Arithmetic, is, clause_at, head_in, own_name};
ghost use Rattle.and_model.specs.OwnVariables.{HasOwnVariables, terms_of_clause};
ghost use Rattle.and_model.specs.Simple.{IsSimple};
ghost use Rattle.and_model.specs.Trees.{QueryTree, HasOutcome, Closed, unfold_code};
ghost use Rattle.and_model.specs.Lines.{Bytes, goal_term};
ghost use Rattle.and_model.specs.Listing.{Outcome, answer, Entry, Listing, Ends};
ghost use Rattle.and_model.specs.Stands.{AreVariants};
ghost use Rattle.and_sld.specs.Resolution.{moved, apply_arithmetic, query_goal, query_values};
ghost use Rattle.and_sld.specs.Resolution.{Derives, Computes, IsRefuted, Shows};
ghost use Rattle.and_sld.specs.Relevant.{AreRelevant, IsStrict};
ghost use Rattle.and_sld.specs.Atoms.{HasAtoms};
ghost use Rattle.and_sld.specs.Computed.{IsComputed};
ghost use Rattle.and_sld.specs.Trials.{p, f_of, renames, calls_variable, merges, late, waits, nil, cell, append};

/// Codes are SLD resolution. In a program of atoms a code has an outcome exactly where there is a
/// computation whose input clauses have its numbers, in order: a refutation, or one that flounders.
/// Its answer and the goals that wait are then variants of the values of the query's variables and
/// of the tree's waiting goals, under any most general solution of the closed equations. The outcome
/// is the one that shows them, so that a code has an answer exactly where there is a refutation.
/// And whatever unifiers and frames were taken, all computations by one code end in variants.
pub fn codes_are_sld()
    ensures outcomes { (P : Program) (cs : List ℕ) → HasAtoms P
        → ((answer : List Term) × (waiting : List Arithmetic) × Computes P cs answer waiting)
        ↔ ((t : QueryTree P) × (unfold_code P cs ≡ Some t) × HasOutcome t) }
    ensures answers { (P : Program) (cs : List ℕ) (answer : List Term) (waiting : List Arithmetic)
        (t : QueryTree P) (es : List Equation) (gs : List Arithmetic) (s : Substitution) → HasAtoms P
        → Computes P cs answer waiting → unfold_code P cs ≡ Some t → Closed t es gs → MostGeneral s es
        → AreVariants (answer ++ map goal_term waiting)
        (query_values P s ++ map goal_term (map (apply_arithmetic s) gs)) }
    ensures lines { (P : Program) (cs : List ℕ) (answer : List Term) (waiting : List Arithmetic)
        (t : QueryTree P) (o : Outcome) → HasAtoms P → length P.query.written ≤ P.query.variables
        → Computes P cs answer waiting → unfold_code P cs ≡ Some t
        → Ends t o ↔ Shows P answer waiting o }
    ensures refutations { (P : Program) (cs : List ℕ) → HasAtoms P
        → length P.query.written ≤ P.query.variables
        → ((values : List Term) × IsRefuted P cs values)
        ↔ ((t : QueryTree P) × (unfold_code P cs ≡ Some t) × ((text : Bytes) × Ends t (answer text))) }
    ensures variants { (P : Program) (cs : List ℕ) (one other : List Term) (waits others : List Arithmetic)
        → HasAtoms P → Computes P cs one waits → Computes P cs other others
        → AreVariants (one ++ map goal_term waits) (other ++ map goal_term others) }
{}

/// Listings are SLD resolution: the entries of a listing are what computations show whose clauses
/// weigh no more than the limit. (Their order is that of the codes: `codes_in_order` of and_laws.)
pub fn listings_are_sld()
    ensures { (P : Program) (limit : ℕ) (ls : List Entry) → HasAtoms P
        → length P.query.written ≤ P.query.variables → Listing P limit ls
        → (e : Entry) → Contains ls e ↔ IsComputed P limit e }
{}

/// Without arithmetic a computation is a refutation, and nothing but SLD resolution as the textbook
/// has it: no goal waits, and its answer is what a derivation of the empty goal finds.
pub fn pure_programs_are_refuted()
    ensures none_wait { (P : Program) (cs : List ℕ) (answer : List Term) (waiting : List Arithmetic)
        → IsSimple P → Computes P cs answer waiting → waiting ≡ [] }
    ensures refuted { (P : Program) (cs : List ℕ) (answer : List Term) → IsSimple P
        → IsRefuted P cs answer
        ↔ Derives P ([] ∷ []) [] (query_goal P) (query_values P (moved [])) cs [] answer }
{}

/// Relevant unifiers suffice: where there is a computation there is one by the same input clauses in
/// which each unifier speaks of the variables of its two terms alone. (What it ends with is
/// a variant: `codes_are_sld`.) And then the variables of an input clause stand in no unifier before.
pub fn relevant_unifiers_suffice()
    ensures relevant { (P : Program) (cs : List ℕ) (answer : List Term) (waiting : List Arithmetic) → HasAtoms P
        → Computes P cs answer waiting
        → (other : List Term) × (others : List Arithmetic) × (c : Computes P cs other others)
        × AreRelevant c.derived }
    ensures strict { (P : Program) (cs : List ℕ) (left : List Arithmetic) (found : List Term)
        (d : Derives P ([] ∷ []) [] (query_goal P) (query_values P (moved [])) cs left found)
        → AreRelevant d → IsStrict d }
{}

/// An input clause is a variant of the clause where that names its own variables alone.
pub fn input_clauses_are_variants()
    ensures { (P : Program) (c : ℕ) (q : Path) → HasOwnVariables (clause_at P c)
        → AreVariants (terms_of_clause (clause_at P c)) (map (apply (moved q)) (terms_of_clause (clause_at P c))) }
{}

/// A list is taken apart: in the second proof of `?- app(X, Y, [1]).` the second clause is resolved
/// with and then the first, and X is [1] and Y is [].
pub fn append_is_refuted()
    ensures { IsRefuted append (2 ∷ 1 ∷ []) (cell (number (pos 1)) nil ∷ nil ∷ []) }
{}

/// A clause is standardised apart: of `p(f(X)). ?- p(X).` there is an answer.
pub fn clauses_are_renamed()
    ensures { IsRefuted renames (1 ∷ []) (f_of (variable (0 ∷ []) 0) ∷ []) }
{}

/// A call that is a variable in its clause is nobody's in a tree, whatever its instance is; a
/// derivation would resolve the instance. So the law asks that calls are atoms.
pub fn variables_are_not_called()
    ensures refuted { IsRefuted calls_variable (1 ∷ []) (p ∷ []) }
    ensures no_tree { unfold_code calls_variable (1 ∷ []) ≡ None }
{}

/// In a frame two variables of a clause that have one number become one, whatever their paths are:
/// it is a variant of the clause only where the clause's variables are its own.
pub fn frames_merge_paths()
    ensures { head_in merges (5 ∷ []) 1
        ≡ compound (own_name 0) (more (variable (5 ∷ []) 0) (more (variable (5 ∷ []) 0) none)) }
{}

/// Arithmetic is passed over until it can be selected: of `?- X is Y, Y = 2.` there is an answer.
/// And of `?- X is Y.` the computation flounders.
pub fn arithmetic_waits()
    ensures late { IsRefuted late [] (number (pos 2) ∷ number (pos 2) ∷ []) }
    ensures flounders { Computes waits [] (variable [] 0 ∷ variable [] 1 ∷ [])
        (is (variable [] 0) (variable [] 1) ∷ []) }
{}
