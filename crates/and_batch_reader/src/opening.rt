//! What is done with a text of several queries before any is answered.

ghost use Rattle.std.specs.Prelude.{◌≡◌, ◌≤◌, ◌<◌, length, IfOk, IfSome};
ghost use Rattle.and_batch_reader.specs.Opened.{AreFew, AreJudged, IsBegun, IsJudged, IsJudgedWhole, IsOpened};
ghost use Rattle.and_batch_reader.specs.Opened.{IsRefusedAs, IsSought};
ghost use Rattle.and_batch_text.specs.Queries.{HasQueries};
ghost use Rattle.and_batch_text.specs.Singles.{single};
ghost use Rattle.and_batch_text.specs.Refused.{IsBatchRefused};
ghost use Rattle.and_batch_text.specs.Views.{spans_of};
ghost use Rattle.and_reader.specs.Beginning.{IsBeginning};
ghost use Rattle.and_model.specs.declared.limits.TheConstants.{MAX_BYTES};

use and_batch_text::{Span, queries, single};
use and_model::limits::MAX_BYTES;
use and_reader::{Beginning, Cause, GoneOn, ReadRefusal, What, line_at, read_program};
use std::alloc::{AllocError, Global};

/// The most queries of a text.
const MAX_QUERIES: usize = 256;

/// Where the queries of a text stand, or why it is refused before any of them is read.
#[derive(Drop)]
pub enum Sought {
    /// They stand there.
    Queries(Vec<Span>),
    /// The text is refused.
    Refused(ReadRefusal),
}

/// What comes of reading each of a text's queries by itself.
#[derive(Drop)]
pub enum Opened {
    /// Each is that of a program, and their texts begin so, where that is read.
    Read(Option<Beginning>),
    /// The text is refused.
    Refused(ReadRefusal),
}

/// Why a text is refused, where it is, and the beginning by which it was read.
#[derive(Drop)]
struct Verdict {
    refusal: Option<ReadRefusal>,
    beginning: Option<Beginning>,
}

/// Why a text is refused, where it is. An error is want of memory.
fn refusal_in(alloc: Global, text: &[u8]) -> Result<Option<ReadRefusal>, AllocError>
    ensures { IfOk result (IsJudged text.now) }
{
    match read_program(alloc, text) {
        Ok(_) => Ok(None),
        Err(refusal) => {
            if refusal.is_memory() {
                return Err(AllocError);
            }
            Ok(Some(refusal))
        }
    }
}

/// Why a text is refused, where it is, by what is read of its beginning, where that is. An error is want of memory.
fn verdict_on(
    alloc: Global,
    beginning: Option<Beginning>,
    text: &[u8],
) -> Result<Verdict, AllocError>
    ensures judged { IfSome beginning IsBeginning → IfOk result (λ v. IsJudged text.now v.refusal) }
    ensures beginning { IfSome beginning IsBeginning → IfOk result (λ v. IfSome v.beginning IsBeginning) }
{
    let Some(beginning) = beginning else {
        return Ok(Verdict {
            refusal: refusal_in(alloc, text)?,
            beginning: None,
        });
    };
    match beginning.read_on(alloc, text)? {
        GoneOn::Whole(whole) => Ok(Verdict {
            refusal: None,
            beginning: Some(whole.into_beginning()),
        }),
        GoneOn::Left(beginning) => Ok(Verdict {
            refusal: refusal_in(alloc, text)?,
            beginning: Some(beginning),
        }),
    }
}

/// Why the query with that number is refused by itself, where it is. An error is want of memory.
fn query_verdict(
    alloc: Global,
    beginning: Option<Beginning>,
    bytes: &[u8],
    spans: &[Span],
    number: usize,
) -> Result<Verdict, AllocError>
    requires { number < length spans.now }
    ensures judged { IfSome beginning IsBeginning
        → IfOk result (λ v. IsJudged (single bytes.now (spans_of spans.now) number) v.refusal) }
    ensures beginning { IfSome beginning IsBeginning → IfOk result (λ v. IfSome v.beginning IsBeginning) }
{
    let text = single(alloc, bytes, spans, number)?;
    verdict_on(alloc, beginning, text.as_slice())
}

/// Why the first of the queries that is refused by itself is. An error is want of memory.
fn first_refusal(
    alloc: Global,
    beginning: Option<Beginning>,
    bytes: &[u8],
    spans: &[Span],
) -> Result<Verdict, AllocError>
    requires { IfSome beginning IsBeginning }
    ensures judged { IfOk result (λ v. AreJudged bytes.now (spans_of spans.now) v.refusal) }
    ensures beginning { IfOk result (λ v. IfSome v.beginning IsBeginning) }
{
    let mut kept = beginning;
    for number in 0..spans.len() {
        let verdict = query_verdict(alloc, kept, bytes, spans, number)?;
        if verdict.refusal.is_some() {
            return Ok(verdict);
        }
        let Verdict {
            refusal: _,
            beginning,
        } = verdict;
        kept = beginning;
    }
    Ok(Verdict {
        refusal: None,
        beginning: kept,
    })
}

/// The beginning that the texts of all queries have: what stands before the first. An error is want of memory.
pub fn beginning_of(
    alloc: Global,
    bytes: &[u8],
    spans: &[Span],
) -> Result<Option<Beginning>, AllocError>
    ensures { IfOk result (λ o. IfSome o IsBeginning) }
{
    if spans.len() < 2 {
        return Ok(None);
    }
    Beginning::read(alloc, bytes, spans[0].start)
}

/// Why the first of the queries that is refused is, or where there is none the text. An error is want of memory.
fn refusal_of_queries(alloc: Global, bytes: &[u8], spans: &[Span]) -> Result<Verdict, AllocError>
    ensures judged { IfOk result (λ v. IsJudgedWhole bytes.now (spans_of spans.now) v.refusal) }
    ensures beginning { IfOk result (λ v. IfSome v.beginning IsBeginning) }
{
    if spans.is_empty() {
        return verdict_on(alloc, None, bytes);
    }
    let beginning = beginning_of(alloc, bytes, spans)?;
    first_refusal(alloc, beginning, bytes, spans)
}

/// The refusal of a text that is too large.
fn too_large(bytes: &[u8]) -> ReadRefusal
    requires { MAX_BYTES < length bytes.now }
    ensures { IsRefusedAs (IsBatchRefused bytes.now) result }
{
    ReadRefusal {
        line: line_at(bytes, MAX_BYTES),
        cause: Cause::TooBig(What::Source),
    }
}

/// The refusal of a text that has too many queries.
fn too_many(bytes: &[u8], spans: &[Span]) -> ReadRefusal
    requires size { length bytes.now ≤ MAX_BYTES }
    requires queries { HasQueries bytes.now (spans_of spans.now) }
    requires many { 256 < length spans.now }
    ensures { IsRefusedAs (IsBatchRefused bytes.now) result }
{
    ReadRefusal {
        line: line_at(bytes, spans[MAX_QUERIES].start),
        cause: Cause::SecondQuery,
    }
}

/// Finds the queries of a text. An error is want of memory.
pub fn seek(alloc: Global, bytes: &[u8]) -> Result<Sought, AllocError>
    ensures { IfOk result (IsSought bytes.now) }
{
    if bytes.len() > MAX_BYTES {
        return Ok(Sought::Refused(too_large(bytes)));
    }
    let spans = queries(alloc, bytes)?;
    if spans.len() > MAX_QUERIES {
        return Ok(Sought::Refused(too_many(bytes, spans.as_slice())));
    }
    Ok(Sought::Queries(spans))
}

/// Reads each of a text's queries by itself. An error is want of memory.
pub fn open(alloc: Global, bytes: &[u8], spans: &[Span]) -> Result<Opened, AllocError>
    ensures opened { AreFew bytes.now (spans_of spans.now) → IfOk result (IsOpened bytes.now (spans_of spans.now)) }
    ensures begun { IfOk result IsBegun }
{
    let Verdict { refusal, beginning } = refusal_of_queries(alloc, bytes, spans)?;
    match refusal {
        Some(refusal) => Ok(Opened::Refused(refusal)),
        None => Ok(Opened::Read(beginning)),
    }
}
