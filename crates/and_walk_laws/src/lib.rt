//! The laws of a walk: what a search on one thread that goes depth first, by determinate goals
//! first, finds and counts, and what its stack owes.
//!
//! Each function here does nothing. Its contract is a law over the definitions of `and_model`,
//! `and_laws` and of `specs/`. The proofs' own lemmas stand in `proofs/`.
#![tactic(auto)]

ghost use Rattle.std.specs.Prelude.{ℕ, ◌≡◌, ◌≢◌, ◌+◌, ◌≤◌, ◌<◌, ◌↔◌, Bool, true, false, ◌||◌, List, [], ◌∷◌, ◌++◌};
ghost use Rattle.std.specs.Prelude.{AllPairs, Contains};
ghost use Rattle.and_model.specs.Programs.{Program};
ghost use Rattle.and_model.specs.Trees.{QueryTree, query_agenda, blank, Open, code, weight};
ghost use Rattle.and_model.specs.Reached.{Step, Steps, Shut, Dead, Split, SplitClauses, Numbers};
ghost use Rattle.and_model.specs.Limits.{query_alone, OverLimit};
ghost use Rattle.and_model.specs.Listing.{Outcome, Ends, Entry, Listing, Exhausted};
ghost use Rattle.and_laws.specs.CodeOrder.{Before};
ghost use Rattle.and_laws.specs.Explorations.{Explores};
ghost use Rattle.and_walk_laws.specs.Walks.{Walks, Owes, SplitsThatFit, SplitsBy};

/// A walk explores: a walk of a tree is an exploration of it, with the same entries.
pub fn walks_explore()
    ensures { (P : Program) (limit : ℕ) (t : QueryTree P) (entries : List Entry) (forks failed : ℕ) (is_cut : Bool)
        → Walks P limit t entries forks failed is_cut → Explores P limit t entries }
{}

/// Whole walks: a walk that was not cut counts the forks and failures of the tree, and explores it
/// within every larger limit. So where the query's walk was not cut, every larger limit has the
/// same listing.
pub fn whole_walks()
    ensures numbers { (P : Program) (limit : ℕ) (t : QueryTree P) (entries : List Entry) (forks failed : ℕ)
        → Walks P limit t entries forks failed false → Numbers t forks failed }
    ensures larger { (P : Program) (limit : ℕ) (t : QueryTree P) (entries : List Entry) (forks failed : ℕ)
        → Walks P limit t entries forks failed false → (more : ℕ) → limit ≤ more → Explores P more t entries }
    ensures exhausted { (P : Program) (limit : ℕ) (entries : List Entry) (forks failed : ℕ)
        → Walks P limit (blank (query_agenda P)) entries forks failed false → Exhausted P limit }
{}

/// Walks list: what the query's walk finds is the listing within the limit, since the walk of any
/// tree finds its entries in the order of their codes, each code once. So is each list in order
/// that has these entries and no others.
pub fn walks_list()
    ensures listing { (P : Program) (limit : ℕ) (entries : List Entry) (forks failed : ℕ) (is_cut : Bool)
        → Walks P limit (blank (query_agenda P)) entries forks failed is_cut → Listing P limit entries }
    ensures ordered { (P : Program) (limit : ℕ) (entries ls : List Entry) (forks failed : ℕ) (is_cut : Bool)
        → Walks P limit (blank (query_agenda P)) entries forks failed is_cut
        → AllPairs Before ls → ((e : Entry) → Contains ls e ↔ Contains entries e) → Listing P limit ls }
    ensures rising { (P : Program) (limit : ℕ) (t : QueryTree P) (entries : List Entry)
        (forks failed : ℕ) (is_cut : Bool)
        → Walks P limit t entries forks failed is_cut → AllPairs Before entries }
    ensures once { (P : Program) (limit : ℕ) (t : QueryTree P) (entries : List Entry) (forks failed : ℕ) (is_cut : Bool)
        → Walks P limit t entries forks failed is_cut → AllPairs (λ (x y : Entry). x.code ≢ y.code) entries }
{}

/// Owed steps: what each step of a search does to what its stack owes. At first the tree stands
/// there alone. The top is replaced by a tree that it comes to by Steps. It is taken off where it
/// is Dead, where it ends, and where a Step leads to a tree that is too heavy. A Shut tree with
/// open goals is replaced by its splits that fit, in order. And where the stack is empty, the tree
/// was walked.
pub fn owed_steps()
    ensures root { (P : Program) (limit : ℕ) (t : QueryTree P) → Owes P limit t (t ∷ []) [] 0 0 false }
    ensures steps { (P : Program) (limit : ℕ) (t u v : QueryTree P) (stack : List (QueryTree P)) (entries : List Entry)
        (forks failed : ℕ) (is_cut : Bool) → Owes P limit t (u ∷ stack) entries forks failed is_cut
        → Steps u v → Owes P limit t (v ∷ stack) entries forks failed is_cut }
    ensures dead { (P : Program) (limit : ℕ) (t u : QueryTree P) (stack : List (QueryTree P)) (entries : List Entry)
        (forks failed : ℕ) (is_cut : Bool) → Owes P limit t (u ∷ stack) entries forks failed is_cut
        → Dead u → Owes P limit t stack entries forks (failed + 1) is_cut }
    ensures ended { (P : Program) (limit : ℕ) (t u : QueryTree P) (stack : List (QueryTree P)) (entries : List Entry)
        (forks failed : ℕ) (is_cut : Bool) (o : Outcome) → Owes P limit t (u ∷ stack) entries forks failed is_cut
        → weight u ≤ limit → Ends u o
        → Owes P limit t stack (entries ++ record { code = code u; outcome = o } ∷ []) forks failed is_cut }
    ensures over { (P : Program) (limit : ℕ) (t u v : QueryTree P) (stack : List (QueryTree P)) (entries : List Entry)
        (forks failed : ℕ) (is_cut : Bool) → Owes P limit t (u ∷ stack) entries forks failed is_cut
        → Step u v → limit < weight v → Owes P limit t stack entries forks failed true }
    ensures forked { (P : Program) (limit : ℕ) (t u : QueryTree P) (cs : List ℕ) (splits stack : List (QueryTree P))
        (entries : List Entry) (forks failed : ℕ) (is_cut is_now_cut : Bool)
        → Owes P limit t (u ∷ stack) entries forks failed is_cut
        → Shut u → Open u → SplitClauses u cs → SplitsThatFit P limit u cs splits is_now_cut
        → Owes P limit t (splits ++ stack) entries (forks + 1) failed (is_cut || is_now_cut) }
    ensures empty { (P : Program) (limit : ℕ) (t : QueryTree P) (entries : List Entry)
        (forks failed : ℕ) (is_cut : Bool)
        → Owes P limit t [] entries forks failed is_cut → Walks P limit t entries forks failed is_cut }
{}

/// Owed forks: a Shut tree with open goals that is the top may also be replaced by the splits by all
/// clauses that fit, rising, whatever the other clauses are; and the walk is cut where some split
/// does not fit. Each such tree has its list of clauses.
pub fn owed_forks()
    ensures fitting { (P : Program) (limit : ℕ) (t u : QueryTree P) (cs : List ℕ) (splits stack : List (QueryTree P))
        (entries : List Entry) (forks failed : ℕ) (is_cut is_now_cut : Bool)
        → Owes P limit t (u ∷ stack) entries forks failed is_cut
        → Shut u → Open u → AllPairs (λ (c d : ℕ). c < d) cs
        → ((c : ℕ) → Contains cs c ↔ ((next : QueryTree P) × Split u c next × (weight next ≤ limit)))
        → SplitsBy u cs splits
        → ((is_now_cut ≡ true) ↔ ((c : ℕ) × (next : QueryTree P) × Split u c next × (limit < weight next)))
        → Owes P limit t (splits ++ stack) entries (forks + 1) failed (is_cut || is_now_cut) }
    ensures clauses { (P : Program) (t : QueryTree P) → Shut t → Open t → (cs : List ℕ) × SplitClauses t cs }
{}

/// Too heavy: a query that weighs more than the limit lists nothing within it, and is over it by
/// itself.
pub fn too_heavy()
    ensures { (P : Program) (limit : ℕ) → limit < weight (blank {P = P} (query_agenda P))
        → Listing P limit [] × OverLimit P limit query_alone }
{}
