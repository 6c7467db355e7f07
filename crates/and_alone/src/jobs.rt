//! The queries of a text, of which several are answered at the same time.

ghost use Rattle.std.specs.Prelude.{◌≤◌, ◌<◌, IfOk, IfSome};
ghost use Rattle.and_batch_reader.specs.Opened.{AreFew, IsRefusedAs};
ghost use Rattle.and_batch_text.specs.Refused.{IsBatch, IsBatchRefused};
ghost use Rattle.and_batch_text.specs.Views.{spans_of};
ghost use Rattle.and_cells.specs.Parts.{named};
ghost use Rattle.and_clause_index.specs.Tables.{IsTableOf};
ghost use Rattle.and_model.specs.declared.limits.TheConstants.{MAX_LIMIT};
ghost use Rattle.and_program.specs.Loaded.{program_of};
ghost use Rattle.and_questions.specs.Batched.{WasBatched};
ghost use Rattle.and_replies.specs.Handed.{IsDue};
ghost use Rattle.and_replies.specs.Keeping.{IsKept};
ghost use Rattle.and_questions.specs.Replied.{IsRunOf};
ghost use Rattle.and_search_laws.specs.Found.{IsFound};

use and_batch::{Done, Ticket, Trade, run_trade};
use and_batch_reader::{Opened, Sought, beginning_of, open, seek};
use and_batch_text::Span;
use and_clause_index::Determinacy;
use and_gate::Quiet;
use and_model::Text;
use and_program::Loaded;
use and_questions::Reply;
use and_reader::ReadRefusal;
use and_replies::{Kept, Part, kept_of, part_of, refused, reply_of};
use and_walk::walk_watched;
use std::alloc::{AllocError, Global};
use std::sync::Wait;
use std::thread::Threads;

/// The trade of answering queries, each on the thread that it is done on. What a worker has at hand is what is kept of
/// the beginning that the texts of all queries have.
#[derive(Drop)]
struct QueryJob<'a> {
    alloc: Global,
    bytes: &'a [u8],
    spans: &'a [Span],
    limit: u32,
    ghost limited: { limit ≤ MAX_LIMIT },
}

impl QueryJob<'_> {
    /// What the query with that number is answered with, as it is handed on. An error is want of memory.
    fn answer(&self, kept: Option<Kept>, number: usize) -> Result<Part, AllocError>
        requires { IfSome kept IsKept }
        ensures due { IfOk result (λ part.
            IsDue (IsRunOf self.now.limit) self.now.bytes.now (spans_of self.now.spans.now) number part.handed) }
        ensures kept { IfOk result (λ part. IfSome part.kept IsKept) }
    {
        let alloc = self.alloc;
        if number >= self.spans.len() {
            return Ok(Part {
                handed: Text::new(alloc),
                kept,
            });
        }
        let alone = |loaded: &Loaded, table: &Determinacy, limit: u32|
            requires { IsTableOf (named loaded.now) table.now × (limit ≤ MAX_LIMIT) }
            ensures { IfOk result (IsFound (program_of loaded.now) limit) }
        { walk_watched(alloc, loaded, table, limit, &Quiet) };
        part_of(
            &alone, alloc, self.limit, self.bytes, self.spans, number, kept,
        )
    }
}

impl Trade for QueryJob<'_> {
    type Tools = Option<Kept>;

    type Refusal = ReadRefusal;

    ghost due = { λ job number text.
        IsDue (IsRunOf job.limit) job.bytes.now (spans_of job.spans.now) number text };

    ghost fit = { λ job kept. IfSome kept IsKept };

    ghost wanted = { λ job. AreFew job.bytes.now (spans_of job.spans.now)
        → IsBatch job.bytes.now (spans_of job.spans.now) };

    ghost refused = { λ job refusal. AreFew job.bytes.now (spans_of job.spans.now)
        → IsRefusedAs (IsBatchRefused job.bytes.now) refusal };

    fn lead(&self) -> Result<Result<Option<Kept>, ReadRefusal>, AllocError> {
        match open(self.alloc, self.bytes, self.spans)? {
            Opened::Read(beginning) => Ok(Ok(kept_of(beginning))),
            Opened::Refused(refusal) => Ok(Err(refusal)),
        }
    }

    fn begin(&self) -> Result<Option<Kept>, AllocError> {
        let beginning = beginning_of(self.alloc, self.bytes, self.spans)?;
        Ok(kept_of(beginning))
    }

    fn run(&self, tools: Option<Kept>, ticket: Ticket) -> Result<(Done, Option<Kept>), AllocError> {
        let Part { handed, kept } = self.answer(tools, ticket.number() as usize)?;
        Ok((ticket.done(handed), kept))
    }

    fn end(&self, _tools: Option<Kept>) {}
}

/// The answer to a text that has these queries, of which so many are answered at the same time. An error is want of
/// memory.
fn side_by_side<R: Threads + Wait + Sync>(
    rt: &R,
    alloc: Global,
    jobs: u32,
    limit: u32,
    bytes: &[u8],
    spans: &[Span],
) -> Result<Reply, AllocError>
    requires jobs { (0 < jobs) × (jobs ≤ 8) }
    requires limited { limit ≤ MAX_LIMIT }
    requires few { AreFew bytes.now (spans_of spans.now) }
    ensures { IfOk result (λ reply. WasBatched (IsRunOf limit) reply.status bytes.now reply.text) }
{
    let job = QueryJob {
        alloc,
        bytes,
        spans,
        limit,
    };
    match run_trade(rt, alloc, &job, spans.len() as u32, jobs)? {
        Ok(texts) => reply_of(alloc, &texts),
        Err(refusal) => refused(alloc, refusal),
    }
}

/// The answer to a text of several queries, of which so many are answered at the same time. An error is want of memory.
pub fn batched_by<R: Threads + Wait + Sync>(
    rt: &R,
    alloc: Global,
    jobs: u32,
    limit: u32,
    bytes: &[u8],
) -> Result<Reply, AllocError>
    requires jobs { (0 < jobs) × (jobs ≤ 8) }
    requires limited { limit ≤ MAX_LIMIT }
    ensures { IfOk result (λ reply. WasBatched (IsRunOf limit) reply.status bytes.now reply.text) }
{
    match seek(alloc, bytes)? {
        Sought::Refused(refusal) => refused(alloc, refusal),
        Sought::Queries(spans) => side_by_side(rt, alloc, jobs, limit, bytes, spans.as_slice()),
    }
}
