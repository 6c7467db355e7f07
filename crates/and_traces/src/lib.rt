//! What a walk tells of a program's query, branch by branch, and the laws of what is told.
//!
//! Each function here does nothing. Its contract is a law over the definitions of `and_model`, `and_walk_laws` and of
//! `specs/`. The proofs' own lemmas stand in `proofs/`.
#![tactic(auto)]

ghost use Rattle.std.specs.Prelude.{ℕ, ◌≤◌, List};
ghost use Rattle.and_model.specs.Programs.{Program};
ghost use Rattle.and_model.specs.Trees.{QueryTree, weight};
ghost use Rattle.and_model.specs.Listing.{Listing};
ghost use Rattle.and_traces.specs.Traces.{Report, Traces, TracesQuery, IsWalkOf, entries_of};

/// What is told of a tree is a walk of it; and what is told of the query is its listing.
pub fn traces_are_walks()
    ensures walks { (P : Program) (limit : ℕ) (t : QueryTree P) (depth : ℕ) (reports : List Report)
        → Traces P limit t depth reports → IsWalkOf P limit t reports }
    ensures listing { (P : Program) (limit : ℕ) (reports : List Report)
        → TracesQuery P limit reports → Listing P limit (entries_of reports) }
{}

/// There is something to tell of each tree within the limit, and of each query. So what is told while something is
/// still to be walked begins what there is to tell.
pub fn each_has_a_trace()
    ensures tree { (P : Program) (limit : ℕ) (t : QueryTree P) (depth : ℕ) → weight t ≤ limit
        → (reports : List Report) × Traces P limit t depth reports }
    ensures query { (P : Program) (limit : ℕ) → (reports : List Report) × TracesQuery P limit reports }
{}
