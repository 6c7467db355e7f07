//! The definitions of what a text is: its tokens, its grammar, and the program that it stands for.
//!
//! They stand in `specs/`, and are what the reader's crates promise. Nothing in this crate runs.
#![tactic(auto)]

ghost use Rattle.and_model.specs.Lines.{Bytes};
ghost use Rattle.and_source.specs.Source.{SourceProgram, IsNumbered};
ghost use Rattle.and_source.specs.Lifted.{lift};
ghost use Rattle.and_language.specs.Refusals.{Reads};
ghost use Rattle.and_model.specs.OwnVariables.{HaveOwnVariables};

/// In the lifted program of a text the terms of a clause have no variables but the clause's own.
pub fn programs_of_texts_have_own_variables()
    ensures { (bytes : Bytes) (P : SourceProgram) → Reads bytes P → HaveOwnVariables (lift P) }
{}

/// The program of a text is numbered: its clauses and alternatives are 1, 2, 3 and so on in textual
/// order, and each of its disjunctions has a name of its own, which no clause and no call has.
pub fn programs_of_texts_are_numbered()
    ensures { (bytes : Bytes) (P : SourceProgram) → Reads bytes P → IsNumbered P }
{}
