//! Programs with disjunctions, and the programs without them to which they are lifted.
//!
//! Each function here does nothing. Its contract is a law over the definitions of `specs/`, proved
//! for all programs, codes and limits. The proofs' own lemmas stand in `proofs/`. The module `trials`
//! shows what the definitions say of some small texts.
#![tactic(auto)]

pub mod trials;

ghost use Rattle.std.specs.Prelude.{ℕ, ◌↔◌, List};
ghost use Rattle.and_model.specs.Trees.{unfold_code};
ghost use Rattle.and_model.specs.Lines.{Bytes};
ghost use Rattle.and_model.specs.Listing.{Entry, Listing, Exhausted};
ghost use Rattle.and_model.specs.Output.{Finish, Output};
ghost use Rattle.and_source.specs.Source.{SourceProgram, IsNumbered};
ghost use Rattle.and_source.specs.Unfolding.{source_unfold};
ghost use Rattle.and_source.specs.SourceListing.{SourceListing, SourceExhausted, SourceOutput};
ghost use Rattle.and_source.specs.Lifted.{lift};
ghost use Rattle.and_lifting.specs.Alike.{AreAlike};

pub use trials::{either_answers, either_forks, either_guards, nested_disjunctions};

/// Lifting keeps the listing. For each program with disjunctions, numbered and named as a table
/// does it, and each code: its unfolding and that of the lifted program are both none; or both are
/// there with the same weight, both whole or neither, and their outcomes are the same. So the
/// listings within each limit are the same, and so are what every larger limit lists and what a run
/// writes.
pub fn lifting_keeps_the_listing()
    ensures unfoldings { (P : SourceProgram) (cs : List ℕ) → IsNumbered P
        → AreAlike P (source_unfold P cs) (unfold_code (lift P) cs) }
    ensures listings { (P : SourceProgram) (limit : ℕ) (ls : List Entry) → IsNumbered P
        → SourceListing P limit ls ↔ Listing (lift P) limit ls }
    ensures exhausted { (P : SourceProgram) (limit : ℕ) → IsNumbered P
        → SourceExhausted P limit ↔ Exhausted (lift P) limit }
    ensures outputs { (P : SourceProgram) (limit : ℕ) (finish : Finish) (bytes : Bytes) → IsNumbered P
        → SourceOutput P limit finish bytes ↔ Output (lift P) limit finish bytes }
{}
