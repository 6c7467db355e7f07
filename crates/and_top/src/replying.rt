//! The answers of several workers.

ghost use Rattle.std.specs.Prelude.{◌≡◌, ◌≤◌, IfOk, IfSome};
ghost use Rattle.and_cells.specs.Parts.{named};
ghost use Rattle.and_clause_index.specs.Tables.{IsTableOf};
ghost use Rattle.and_model.specs.Limits.{AreInRange};
ghost use Rattle.and_model.specs.declared.limits.TheConstants.{MAX_LIMIT};
ghost use Rattle.and_program.specs.Loaded.{program_of};
ghost use Rattle.and_search_laws.specs.Found.{IsFound};
ghost use Rattle.and_questions.specs.Batched.{WasBatched};
ghost use Rattle.and_replies.specs.Finding.{Finds};
ghost use Rattle.and_questions.specs.Replied.{IsAllowed, IsAnswer, IsBounded, IsRunOf, WasAnswered};

use crate::searching::{explored_by, found_by};
use and_alone::{answer_to, batched_by};
use and_clause_index::Determinacy;
use and_gate::Gate;
use and_model::limits::Hands;
use and_program::Loaded;
use and_questions::{Question, Reply, Request};
use and_replies::{batched, verified};
use std::alloc::{AllocError, Global};
use std::sync::Wait;
use std::thread::Threads;

/// The answer to a text, by these workers. An error is want of memory.
fn text_together<R: Threads + Wait + Sync, G: Gate>(
    rt: &R,
    alloc: Global,
    question: Question,
    bytes: &[u8],
    hands: Hands,
    gate: &G,
) -> Result<Reply, AllocError>
    requires question { IsBounded question }
    requires hands { AreInRange hands }
    ensures { IfOk result (λ reply. WasAnswered question reply.status bytes.now reply.text) }
{
    let together = |loaded: &Loaded, limit: u32, wanted: Option<u32>|
        requires { (limit ≤ MAX_LIMIT) × AreInRange hands }
        ensures { IfOk result (Finds (program_of loaded.now) limit wanted) }
    { found_by(rt, alloc, loaded, limit, wanted, hands, gate) };
    answer_to(&together, gate, alloc, question, bytes)
}

/// The answer to a text of several queries, by these workers, who go through one query after another. An error is
/// want of memory.
fn batch_together<R: Threads + Wait + Sync, G: Gate>(
    rt: &R,
    alloc: Global,
    limit: u32,
    bytes: &[u8],
    hands: Hands,
    gate: &G,
) -> Result<Reply, AllocError>
    requires limit { limit ≤ MAX_LIMIT }
    requires hands { AreInRange hands }
    ensures { IfOk result (λ reply. WasBatched (IsRunOf limit) reply.status bytes.now reply.text) }
{
    let together = |loaded: &Loaded, table: &Determinacy, limit: u32|
        requires { IsTableOf (named loaded.now) table.now × (limit ≤ MAX_LIMIT) × AreInRange hands }
        ensures { IfOk result (IsFound (program_of loaded.now) limit) }
    { explored_by(rt, alloc, loaded, table, limit, hands, gate) };
    batched(&together, alloc, limit, bytes)
}

/// The answer to the bytes of a source, by these workers. An error is want of memory.
fn answered_together<R: Threads + Wait + Sync, G: Gate>(
    rt: &R,
    alloc: Global,
    request: Request,
    bytes: &[u8],
    hands: Hands,
    gate: &G,
) -> Result<Reply, AllocError>
    requires request { IsAllowed request }
    requires hands { AreInRange hands }
    ensures { IfOk result (λ reply. IsAnswer request reply.status bytes.now reply.text) }
{
    match request {
        Request::Text(question) => text_together(rt, alloc, question, bytes, hands, gate),
        Request::Document => verified(alloc, bytes),
        Request::Batch { jobs: _, limit } => batch_together(rt, alloc, limit, bytes, hands, gate),
    }
}

/// How many queries are answered at the same time, each by one worker, and within which limit, where these workers are
/// one and the bytes are those of several queries.
fn jobs_in(request: Request, hands: Hands) -> Option<(u32, u32)>
    ensures { IfSome result (λ asked. request ≡ Request.Batch asked.0 asked.1) }
{
    match request {
        Request::Batch { jobs, limit } => {
            if hands.teams == 1 && hands.workers == 1 {
                return Some((jobs, limit));
            }
            None
        }
        Request::Text(_) | Request::Document => None,
    }
}

/// The answer to the bytes of a source, by these workers. Where they are one, several queries are answered at the same
/// time. An error is want of memory.
pub fn answered_by<R: Threads + Wait + Sync, G: Gate>(
    rt: &R,
    alloc: Global,
    request: Request,
    bytes: &[u8],
    hands: Hands,
    gate: &G,
) -> Result<Reply, AllocError>
    requires request { IsAllowed request }
    requires hands { AreInRange hands }
    ensures { IfOk result (λ reply. IsAnswer request reply.status bytes.now reply.text) }
{
    match jobs_in(request, hands) {
        Some((jobs, limit)) => batched_by(rt, alloc, jobs, limit, bytes),
        None => answered_together(rt, alloc, request, bytes, hands, gate),
    }
}
