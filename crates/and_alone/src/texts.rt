//! What a text is answered with.

ghost use Rattle.std.specs.Prelude.{◌≤◌, ℕ, IfOk};
ghost use Rattle.and_program.specs.Loaded.{program_of};
ghost use Rattle.and_model.specs.declared.limits.TheConstants.{MAX_LIMIT};
ghost use Rattle.and_replies.specs.Finding.{Finds};
ghost use Rattle.and_questions.specs.Lifted.{IsLifted};
ghost use Rattle.and_questions.specs.Replied.{IsBounded, IsReply, WasAnswered, WasExplained};

use crate::forks::forked;
use crate::searching::found_to;
use and_answers::Found;
use and_gate::Gate;
use and_program::Loaded;
use and_questions::{Question, Reply};
use and_reader::read_program;
use and_replies::{explained, first_in, found_in, linted, refused, told_of};
use std::alloc::{AllocError, Global};
use std::mem::forget;

/// Why an answer of a program is one.
fn explained_in<G: Gate>(
    gate: &G,
    alloc: Global,
    place: u32,
    limit: u32,
    bytes: &[u8],
    loaded: &Loaded,
) -> Result<Reply, AllocError>
    requires place { 1 ≤ place }
    requires limited { limit ≤ MAX_LIMIT }
    ensures { (program : _) → IsLifted program (program_of loaded.now)
        → IfOk result (λ reply. WasExplained place limit bytes.now program reply.status reply.text) }
{
    let latest = found_to(alloc, loaded, limit, place, gate)?;
    explained(alloc, place, bytes, loaded, latest)
}

/// What a program is answered with.
fn reply_to<F: Fn(&Loaded, u32, Option<u32>) -> Result<Found, AllocError>, G: Gate>(
    search: &F,
    gate: &G,
    alloc: Global,
    question: Question,
    bytes: &[u8],
    loaded: &Loaded,
) -> Result<Reply, AllocError>
    requires bounded { IsBounded question }
    requires callable { (l : _) (n : ℕ) (o : _) → n ≤ MAX_LIMIT → F.pre search.now l n o }
    requires finds { (l : _) (n : ℕ) (o : _) (found : _) → n ≤ MAX_LIMIT → F.post search.now l n o found
        → IfOk found (Finds (program_of l.now) n o) }
    ensures { (program : _) → IsLifted program (program_of loaded.now)
        → IfOk result (λ reply. IsReply question bytes.now program reply.status reply.text) }
{
    match question {
        Question::Run { show, limit } => found_in(search, alloc, show, limit, loaded),
        Question::Check => told_of(alloc, loaded),
        Question::Explain { place, limit } => {
            explained_in(gate, alloc, place, limit, bytes, loaded)
        }
        Question::Tree { limit } => forked(alloc, limit, loaded, gate),
        Question::Lint => linted(alloc, loaded),
        Question::First { count, limit } => first_in(search, alloc, count, limit, loaded),
    }
}

/// What a program is answered with that is not wanted again. It is not let go of piece by piece: a process ends behind
/// its reply, and gives back all at once.
fn reply_at_last<F: Fn(&Loaded, u32, Option<u32>) -> Result<Found, AllocError>, G: Gate>(
    search: &F,
    gate: &G,
    alloc: Global,
    question: Question,
    bytes: &[u8],
    loaded: Loaded,
) -> Result<Reply, AllocError>
    requires bounded { IsBounded question }
    requires callable { (l : _) (n : ℕ) (o : _) → n ≤ MAX_LIMIT → F.pre search.now l n o }
    requires finds { (l : _) (n : ℕ) (o : _) (found : _) → n ≤ MAX_LIMIT → F.post search.now l n o found
        → IfOk found (Finds (program_of l.now) n o) }
    ensures { (program : _) → IsLifted program (program_of loaded)
        → IfOk result (λ reply. IsReply question bytes.now program reply.status reply.text) }
{
    let reply = reply_to(search, gate, alloc, question, bytes, &loaded);
    forget(loaded);
    reply
}

/// The answer to a text. An error is want of memory.
pub fn answer_to<F: Fn(&Loaded, u32, Option<u32>) -> Result<Found, AllocError>, G: Gate>(
    search: &F,
    gate: &G,
    alloc: Global,
    question: Question,
    text: &[u8],
) -> Result<Reply, AllocError>
    requires bounded { IsBounded question }
    requires callable { (l : _) (n : ℕ) (o : _) → n ≤ MAX_LIMIT → F.pre search.now l n o }
    requires finds { (l : _) (n : ℕ) (o : _) (found : _) → n ≤ MAX_LIMIT → F.post search.now l n o found
        → IfOk found (Finds (program_of l.now) n o) }
    ensures { IfOk result (λ reply. WasAnswered question reply.status text.now reply.text) }
{
    match read_program(alloc, text) {
        Ok(loaded) => reply_at_last(search, gate, alloc, question, text, loaded),
        Err(refusal) => refused(alloc, refusal),
    }
}
