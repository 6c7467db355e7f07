//! Who answers the bytes of a source alone.

ghost use Rattle.std.specs.Prelude.{◌≤◌, IfOk};
ghost use Rattle.and_cells.specs.Parts.{named};
ghost use Rattle.and_clause_index.specs.Tables.{IsTableOf};
ghost use Rattle.and_model.specs.declared.limits.TheConstants.{MAX_LIMIT};
ghost use Rattle.and_program.specs.Loaded.{program_of};
ghost use Rattle.and_questions.specs.Batched.{WasBatched};
ghost use Rattle.and_questions.specs.Replied.{IsAllowed, IsAnswer, IsBounded, IsRunOf, WasAnswered};
ghost use Rattle.and_replies.specs.Finding.{Finds};
ghost use Rattle.and_search_laws.specs.Found.{IsFound};

use crate::searching::found_alone;
use crate::texts::answer_to;
use and_clause_index::Determinacy;
use and_gate::Gate;
use and_program::Loaded;
use and_questions::{Question, Reply, Request};
use and_replies::{batched, verified};
use and_walk::walk_watched;
use std::alloc::{AllocError, Global};

/// The answer to a text, on the thread of the caller, who waits for nobody. An error is want of memory.
fn text_alone<G: Gate>(
    alloc: Global,
    question: Question,
    bytes: &[u8],
    gate: &G,
) -> Result<Reply, AllocError>
    requires { IsBounded question }
    ensures { IfOk result (λ reply. WasAnswered question reply.status bytes.now reply.text) }
{
    let alone = |loaded: &Loaded, limit: u32, wanted: Option<u32>|
        requires { limit ≤ MAX_LIMIT }
        ensures { IfOk result (Finds (program_of loaded.now) limit wanted) }
    { found_alone(alloc, loaded, limit, wanted, gate) };
    answer_to(&alone, gate, alloc, question, bytes)
}

/// The answer to a text of several queries, on the thread of the caller, who waits for nobody. An error is want of
/// memory.
fn batch_alone<G: Gate>(
    alloc: Global,
    limit: u32,
    bytes: &[u8],
    gate: &G,
) -> Result<Reply, AllocError>
    requires { limit ≤ MAX_LIMIT }
    ensures { IfOk result (λ reply. WasBatched (IsRunOf limit) reply.status bytes.now reply.text) }
{
    let alone = |loaded: &Loaded, table: &Determinacy, limit: u32|
        requires { IsTableOf (named loaded.now) table.now × (limit ≤ MAX_LIMIT) }
        ensures { IfOk result (IsFound (program_of loaded.now) limit) }
    { walk_watched(alloc, loaded, table, limit, gate) };
    batched(&alone, alloc, limit, bytes)
}

/// The answer to the bytes of a source, on the thread of the caller, who waits for nobody. An error is want of memory.
pub fn answered_alone<G: Gate>(
    alloc: Global,
    request: Request,
    bytes: &[u8],
    gate: &G,
) -> Result<Reply, AllocError>
    requires { IsAllowed request }
    ensures { IfOk result (λ reply. IsAnswer request reply.status bytes.now reply.text) }
{
    match request {
        Request::Text(question) => text_alone(alloc, question, bytes, gate),
        Request::Document => verified(alloc, bytes),
        Request::Batch { jobs: _, limit } => batch_alone(alloc, limit, bytes, gate),
    }
}
