//! What is told of a program that can be run, and may still not be meant.

ghost use Rattle.std.specs.Prelude.{◌≡◌, IfOk};
ghost use Rattle.and_program.specs.Loaded.{program_of};
ghost use Rattle.and_questions.specs.Linted.{WasLinted, status_found};

use and_lint::lint;
use and_program::Loaded;
use and_questions::Reply;
use and_status::Status;
use std::alloc::{AllocError, Global};

/// The status of so many findings.
fn status_of_findings(count: usize) -> Status
    ensures { result ≡ status_found count }
{
    if count == 0 {
        Status::Answers
    } else {
        Status::NoAnswer
    }
}

/// The findings of a program, and last how many they are. An error is want of memory.
pub fn linted(alloc: Global, loaded: &Loaded) -> Result<Reply, AllocError>
    ensures { IfOk result (λ reply. WasLinted (program_of loaded.now) reply.status reply.text) }
{
    let findings = lint(alloc, loaded)?;
    let status = status_of_findings(findings.count);
    Ok(Reply {
        text: findings.text,
        status,
        refusal: None,
    })
}
