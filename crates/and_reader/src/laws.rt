//! Laws of the definitions of a text's program and its refusal. Each function here does nothing:
//! its contract is the law.

ghost use Rattle.std.specs.Prelude.{◌≡◌, ◌⊎◌};
ghost use Rattle.and_model.specs.Lines.{Bytes};
ghost use Rattle.and_source.specs.Source.{SourceProgram};
ghost use Rattle.and_language.specs.Refusals.{Refusal, Reads, IsRefused};

/// One program: a text that reads as two programs reads as one.
pub fn one_program()
    ensures { (bytes : Bytes) (p q : SourceProgram) → Reads bytes p → Reads bytes q → p ≡ q }
{}

/// One refusal: a text that reads as a program is not refused, and a refused text has one refusal.
pub fn one_refusal()
    ensures read { (bytes : Bytes) (p : SourceProgram) (r : Refusal)
        → Reads bytes p → IsRefused bytes r → ⊥ }
    ensures refused { (bytes : Bytes) (r s : Refusal)
        → IsRefused bytes r → IsRefused bytes s → r ≡ s }
{}

/// Each text is read or refused: each list of bytes reads as a program, or is refused.
pub fn each_text_is_read_or_refused()
    ensures { (bytes : Bytes)
        → ((P : SourceProgram) × Reads bytes P) ⊎ ((r : Refusal) × IsRefused bytes r) }
{}
