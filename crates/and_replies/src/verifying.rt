//! Whether a document proves an answer of its program.

ghost use Rattle.std.specs.Prelude.{◌≡◌, ◌↔◌, ◌<◌, true, length, IfOk, IfSome};
ghost use Rattle.and_program.specs.Loaded.{program_of};
ghost use Rattle.and_reader.specs.Causes.{refusal_of};
ghost use Rattle.and_questions.specs.Verified as specs;
ghost use Rattle.and_questions.specs.Verified.{IsDivided, IsDocumentRefused, IsProved, WasVerified};

use crate::answering::refused;
use and_model::Text;
use and_program::Loaded;
use and_proof::{check_proof, split_document};
use and_questions::{MAX_DOCUMENT, Reply};
use and_reader::{Cause, ReadRefusal, What, line_at, read_program};
use and_status::Status;
use std::alloc::{AllocError, Global};

/// The refusal of a document that is too large.
fn too_large(bytes: &[u8]) -> ReadRefusal
    requires { MAX_DOCUMENT < length bytes.now }
    ensures { IfSome (refusal_of result) (IsDocumentRefused bytes.now) }
{
    ReadRefusal {
        line: line_at(bytes, MAX_DOCUMENT),
        cause: Cause::TooBig(What::Source),
    }
}

/// Where the proof part of a document begins, if it has one.
fn divided(bytes: &[u8]) -> Option<usize>
    ensures { IsDivided bytes.now result }
{
    split_document(bytes)
}

/// The program part of a document whose proof part begins there.
fn program_part(bytes: &[u8], place: Option<usize>) -> &[u8]
    requires { IsDivided bytes.now place }
    ensures { result.now ≡ specs.program_part bytes.now place }
{
    match place {
        Some(place) => &bytes[..place],
        None => bytes,
    }
}

/// Whether the proof part of a document, which begins there, is a proof of the program. An error is want of memory.
fn is_proved(
    alloc: Global,
    loaded: &Loaded,
    bytes: &[u8],
    place: Option<usize>,
) -> Result<bool, AllocError>
    requires { IsDivided bytes.now place }
    ensures { IfOk result (λ holds. (holds ≡ true) ↔ IsProved (program_of loaded.now) bytes.now place) }
{
    match place {
        Some(place) => check_proof(alloc, loaded, &bytes[place..]),
        None => Ok(false),
    }
}

/// What is told of a document. An error is want of memory.
fn told(alloc: Global, holds: bool) -> Result<Reply, AllocError>
    ensures { IfOk result (λ reply. (reply.status ≡ specs.status_of holds) × (reply.text ≡ specs.line_of holds)) }
{
    if holds {
        return Ok(Reply {
            text: Text::of(alloc, b"holds\n")?,
            status: Status::Answers,
            refusal: None,
        });
    }
    Ok(Reply {
        text: Text::of(alloc, b"fails\n")?,
        status: Status::NoAnswer,
        refusal: None,
    })
}

/// What a document is answered with. An error is want of memory.
pub fn verified(alloc: Global, bytes: &[u8]) -> Result<Reply, AllocError>
    ensures { IfOk result (λ reply. WasVerified reply.status bytes.now reply.text) }
{
    if bytes.len() > MAX_DOCUMENT {
        return refused(alloc, too_large(bytes));
    }
    let place = divided(bytes);
    match read_program(alloc, program_part(bytes, place)) {
        Ok(loaded) => told(alloc, is_proved(alloc, &loaded, bytes, place)?),
        Err(refusal) => refused(alloc, refusal),
    }
}
