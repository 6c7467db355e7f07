//! The law of the generated text: it is a text of the language, so that no reader refuses it.
//!
//! The function here does nothing. Its contract is a law, and its proof stands in `proofs/`: the
//! text line by line as tokens (`Pieces`, `Lines`), as a text of the grammar (`Texts`), and as
//! clauses that a table takes one after another (`Taken`).

ghost use Rattle.std.specs.Prelude.{ℕ, ◌≤◌};
ghost use Rattle.and_source.specs.Source.{SourceProgram};
ghost use Rattle.and_language.specs.Refusals.{Reads};
ghost use Rattle.and_gen.specs.Layered.{layered};

/// The generated text reads as a program: that of each number up to 64.
pub fn generated_texts_are_read()
    ensures { (n : ℕ) → n ≤ 64 → (P : SourceProgram) × Reads (layered n) P }
{}
