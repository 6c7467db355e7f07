//! The texts of proofs, and whether a text is one.

ghost use Rattle.std.specs.Prelude.{◌≡◌, ◌↔◌, ℕ, List, true, IfOk, IsTrue};
ghost use Rattle.and_program.specs.Loaded.{program_of};
ghost use Rattle.and_proof.specs.Proofs.{HasProof, ProofText};

use crate::explaining::explain;
use crate::reading::code_of;
use and_model::{Code, Text};
use and_program::Loaded;
use std::alloc::{AllocError, Global};

/// The text of the proof of a code: the mark, a line for each of its clauses with the call that the
/// clause replaced, and the outcome's line. An error is want of memory.
pub fn proof_text(alloc: Global, loaded: &Loaded, code: &Code) -> Result<Text, AllocError>
    requires { HasProof (program_of loaded.now) code.now }
    ensures { IfOk result (λ text. ProofText (program_of loaded.now) code.now text) }
{
    match explain(alloc, loaded, code)? {
        Some(text) => Ok(text),
        None => unreachable!(),
    }
}

/// Whether a text is that of the proof of some code. An error is want of memory.
pub fn check_proof(alloc: Global, loaded: &Loaded, text: &[u8]) -> Result<bool, AllocError>
    ensures { IfOk result (λ holds. (holds ≡ true) ↔ ((cs : List ℕ) × ProofText (program_of loaded.now) cs text.now)) }
{
    // A program has fewer than 2^16 clauses.
    let _clauses = loaded.clause_count();
    let code = code_of(alloc, text)?;
    let proof = explain(alloc, loaded, &code)?;
    match proof {
        Some(made) => Ok(is_same(made.bytes(), text)),
        None => Ok(false),
    }
}

/// Whether both have the same bytes. Takes no memory.
fn is_same(made: &[u8], text: &[u8]) -> bool
    ensures { IsTrue result ↔ (made.now ≡ text.now) }
{
    made == text
}
