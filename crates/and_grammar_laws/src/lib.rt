//! What grammar rules of atoms mean: their codes are those of derivations.
//!
//! Each function here does nothing. Its contract is a law.
#![tactic(auto)]

ghost use Rattle.std.specs.Prelude.{ℕ, ◌≡◌, ◌↔◌, List, Some, codes};
ghost use Rattle.and_model.specs.Lines.{Bytes};
ghost use Rattle.and_model.specs.Trees.{QueryTree, HasOutcome, unfold_code};
ghost use Rattle.and_model.specs.Listing.{Outcome, answer, Ends};
ghost use Rattle.and_grammar_laws.specs.Derivations.{Rule, Derives};
ghost use Rattle.and_source.specs.Source.{SourceProgram};
ghost use Rattle.and_source.specs.Lifted.{lift};
ghost use Rattle.and_grammar_laws.specs.Grammars.{Text, IsTextOf, program_for};
ghost use Rattle.and_grammar_laws.specs.Texts.{Holds};

/// Grammars list derivations. Let a text hold rules of atoms and lists of atoms, none of them
/// refused, and a query for a word from the head of one of them. A code has an outcome exactly where
/// it is that of a derivation of the word, and that outcome is the answer `true`.
pub fn grammars_list_derivations()
    ensures codes { (t : Text) (grammar : List Rule) (n : Bytes) (word : List Bytes) (cs : List ℕ)
        → IsTextOf t grammar n word
        → Derives grammar n word cs
        ↔ ((u : QueryTree (program_for t n word)) × (unfold_code (program_for t n word) cs ≡ Some u) × HasOutcome u) }
    ensures answers { (t : Text) (grammar : List Rule) (n : Bytes) (word : List Bytes)
        (u : QueryTree (program_for t n word)) (o : Outcome) → IsTextOf t grammar n word → Ends u o
        → o ≡ answer (codes "true") }
{}

/// So it is of texts. Of each text that reads as a program and holds nothing but such rules and the
/// query for a word: in the program that runs, a code has an outcome exactly where it is that of a
/// derivation of the word, and that outcome is the answer `true`.
pub fn texts_list_derivations()
    ensures codes { (bytes : Bytes) (P : SourceProgram) (grammar : List Rule) (n : Bytes)
        (word : List Bytes) (cs : List ℕ)
        → Holds bytes P grammar n word
        → Derives grammar n word cs ↔ ((u : QueryTree (lift P)) × (unfold_code (lift P) cs ≡ Some u) × HasOutcome u) }
    ensures answers { (bytes : Bytes) (P : SourceProgram) (grammar : List Rule) (n : Bytes) (word : List Bytes)
        (u : QueryTree (lift P)) (o : Outcome) → Holds bytes P grammar n word → Ends u o → o ≡ answer (codes "true") }
{}
