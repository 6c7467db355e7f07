//! What one query of a text of several is answered with, and what is kept of it for the next.

ghost use Rattle.std.specs.Prelude.{◌≡◌, ◌≤◌, ◌<◌, ℕ, false, length, IfOk, IfSome};
ghost use Rattle.and_batch_text.specs.Refused.{IsBatch};
ghost use Rattle.and_batch_text.specs.Singles.{single};
ghost use Rattle.and_batch_text.specs.Views.{spans_of};
ghost use Rattle.and_cells.specs.Parts.{named};
ghost use Rattle.and_clause_index.specs.Tables.{IsTableOf};
ghost use Rattle.and_kept_table.specs.KeptTables.{IsKeptOn};
ghost use Rattle.and_language.specs.Refusals.{IsLiftedFrom};
ghost use Rattle.and_model.specs.Lines.{Bytes};
ghost use Rattle.and_model.specs.declared.limits.TheConstants.{MAX_LIMIT};
ghost use Rattle.and_program.specs.Loaded.{program_of};
ghost use Rattle.and_reader.specs.Beginning.{IsBeginning, IsBeginningOf, whole_ground};
ghost use Rattle.and_search_laws.specs.Found.{IsFound};
ghost use Rattle.and_replies.specs.Handed as specs;
ghost use Rattle.and_replies.specs.Handed.{IsHanded, IsHandedFor};
ghost use Rattle.and_replies.specs.Keeping.{IsKept};
ghost use Rattle.and_questions.specs.Lifted.{IsLifted};
ghost use Rattle.and_questions.specs.Replied.{IsRunOf, WasAnswered, WasRun};

use crate::answering::refused;
use and_answers::Found;
use and_batch_text::{Span, single};
use and_clause_index::{Determinacy, compile};
use and_kept_table::{KeptTable, table_for};
use and_model::Text;
use and_program::Loaded;
use and_questions::{Question, Reply};
use and_reader::{Beginning, GoneOn, Whole, read_program};
use and_reports::{Show, status_of, written};
use std::alloc::{AllocError, Global};

/// What is kept from one query to the next: the beginning that their texts have, and what is compiled of its clauses.
#[derive(Drop)]
pub struct Kept {
    pub(crate) beginning: Beginning,
    pub(crate) table: Option<KeptTable>,
}

/// What a query is answered with, as it is handed on, and what is kept for the next.
#[derive(Drop)]
pub struct Part {
    /// The answer, as it is handed on.
    pub handed: Text,
    /// What is kept.
    pub kept: Option<Kept>,
}

/// What is kept at first: the beginning of a text's queries, of whose clauses nothing is compiled yet.
pub fn kept_of(beginning: Option<Beginning>) -> Option<Kept>
    requires { IfSome beginning IsBeginning }
    ensures { IfSome result IsKept }
{
    match beginning {
        Some(beginning) => Some(Kept {
            beginning,
            table: None,
        }),
        None => None,
    }
}

/// What a program is answered with, by this search and its table. An error is want of memory.
fn searched<F: Fn(&Loaded, &Determinacy, u32) -> Result<Found, AllocError>>(
    search: &F,
    alloc: Global,
    limit: u32,
    loaded: &Loaded,
    table: &Determinacy,
) -> Result<Reply, AllocError>
    requires table { IsTableOf (named loaded.now) table.now }
    requires limited { limit ≤ MAX_LIMIT }
    requires callable { (l : _) (t : _) (n : ℕ) → IsTableOf (named l.now) t.now → n ≤ MAX_LIMIT
        → F.pre search.now l t n }
    requires finds { (l : _) (t : _) (n : ℕ) (found : _) → IsTableOf (named l.now) t.now → n ≤ MAX_LIMIT
        → F.post search.now l t n found → IfOk found (IsFound (program_of l.now) n) }
    ensures { (program : _) → IsLifted program (program_of loaded.now)
        → IfOk result (λ reply. WasRun (Show.Whole false) limit program reply.status reply.text) }
{
    let found = search(loaded, table, limit)?;
    let text = written(alloc, Show::Whole { stats: false }, &found)?;
    let status = status_of(&found);
    Ok(Reply {
        text,
        status,
        refusal: None,
    })
}

/// What a text is answered with, by this search. An error is want of memory.
fn answered_anew<F: Fn(&Loaded, &Determinacy, u32) -> Result<Found, AllocError>>(
    search: &F,
    alloc: Global,
    limit: u32,
    text: &[u8],
) -> Result<Reply, AllocError>
    requires limited { limit ≤ MAX_LIMIT }
    requires callable { (l : _) (t : _) (n : ℕ) → IsTableOf (named l.now) t.now → n ≤ MAX_LIMIT
        → F.pre search.now l t n }
    requires finds { (l : _) (t : _) (n : ℕ) (found : _) → IsTableOf (named l.now) t.now → n ≤ MAX_LIMIT
        → F.post search.now l t n found → IfOk found (IsFound (program_of l.now) n) }
    ensures { IfOk result
        (λ reply. WasAnswered (Question.Run (Show.Whole false) limit) reply.status text.now reply.text) }
{
    match read_program(alloc, text) {
        Ok(loaded) => {
            let table = compile(alloc, &loaded)?;
            searched(search, alloc, limit, &loaded, &table)
        }
        Err(refusal) => refused(alloc, refusal),
    }
}

/// What a query is answered with, as it is handed on. An error is want of memory.
fn handed(alloc: Global, reply: &Reply) -> Result<Text, AllocError>
    ensures { IfOk result (λ text. text ≡ specs.handed reply.now.status reply.now.text) }
{
    let mut text = Text::of(alloc, &[reply.status as u8])?;
    text.append(reply.text.bytes())?;
    Ok(text)
}

/// What a text is answered with that is read by itself, as it is handed on, by this search. An error is want of memory.
fn handed_anew<F: Fn(&Loaded, &Determinacy, u32) -> Result<Found, AllocError>>(
    search: &F,
    alloc: Global,
    limit: u32,
    text: &[u8],
) -> Result<Text, AllocError>
    requires limited { limit ≤ MAX_LIMIT }
    requires callable { (l : _) (t : _) (n : ℕ) → IsTableOf (named l.now) t.now → n ≤ MAX_LIMIT
        → F.pre search.now l t n }
    requires finds { (l : _) (t : _) (n : ℕ) (found : _) → IsTableOf (named l.now) t.now → n ≤ MAX_LIMIT
        → F.post search.now l t n found → IfOk found (IsFound (program_of l.now) n) }
    ensures { IfOk result (IsHandedFor (WasAnswered (Question.Run (Show.Whole false) limit)) text.now) }
{
    let reply = answered_anew(search, alloc, limit, text)?;
    handed(alloc, &reply)
}

/// What a text is answered with that was read on from a beginning, by this search and what was compiled of the
/// beginning's clauses. An error is want of memory.
fn part_of_whole<F: Fn(&Loaded, &Determinacy, u32) -> Result<Found, AllocError>>(
    search: &F,
    alloc: Global,
    limit: u32,
    whole: Whole,
    table: Option<KeptTable>,
) -> Result<Part, AllocError>
    requires limited { limit ≤ MAX_LIMIT }
    requires callable { (l : _) (t : _) (n : ℕ) → IsTableOf (named l.now) t.now → n ≤ MAX_LIMIT
        → F.pre search.now l t n }
    requires finds { (l : _) (t : _) (n : ℕ) (found : _) → IsTableOf (named l.now) t.now → n ≤ MAX_LIMIT
        → F.post search.now l t n found → IfOk found (IsFound (program_of l.now) n) }
    requires table { IfSome table (IsKeptOn (whole_ground whole)) }
    ensures handed { (text : Bytes) → IsLiftedFrom text (program_of whole.asked.loaded)
        → IfOk result (λ part. IsHandedFor (WasAnswered (Question.Run (Show.Whole false) limit)) text part.handed) }
    ensures kept { IsBeginningOf whole → IfOk result (λ part. IfSome part.kept IsKept) }
{
    let loaded = whole.loaded();
    let kept = table_for(alloc, table, loaded)?;
    let reply = searched(search, alloc, limit, loaded, kept.table())?;
    let handed = handed(alloc, &reply)?;
    let beginning = whole.into_beginning();
    Ok(Part {
        handed,
        kept: Some(Kept {
            beginning,
            table: Some(kept),
        }),
    })
}

/// What a text is answered with, as it is handed on, by this search and what was kept. An error is want of memory.
fn next_part<F: Fn(&Loaded, &Determinacy, u32) -> Result<Found, AllocError>>(
    search: &F,
    alloc: Global,
    limit: u32,
    text: &[u8],
    kept: Option<Kept>,
) -> Result<Part, AllocError>
    requires limited { limit ≤ MAX_LIMIT }
    requires callable { (l : _) (t : _) (n : ℕ) → IsTableOf (named l.now) t.now → n ≤ MAX_LIMIT
        → F.pre search.now l t n }
    requires finds { (l : _) (t : _) (n : ℕ) (found : _) → IsTableOf (named l.now) t.now → n ≤ MAX_LIMIT
        → F.post search.now l t n found → IfOk found (IsFound (program_of l.now) n) }
    requires kept { IfSome kept IsKept }
    ensures handed { IfOk result
        (λ part. IsHandedFor (WasAnswered (Question.Run (Show.Whole false) limit)) text.now part.handed) }
    ensures kept { IfOk result (λ part. IfSome part.kept IsKept) }
{
    let Some(kept) = kept else {
        return Ok(Part {
            handed: handed_anew(search, alloc, limit, text)?,
            kept: None,
        });
    };
    let Kept { beginning, table } = kept;
    match beginning.read_on(alloc, text)? {
        GoneOn::Whole(whole) => part_of_whole(search, alloc, limit, whole, table),
        GoneOn::Left(beginning) => Ok(Part {
            handed: handed_anew(search, alloc, limit, text)?,
            kept: Some(Kept { beginning, table }),
        }),
    }
}

/// What the query with that number is answered with, as it is handed on, by this search and what was kept. An error is
/// want of memory.
pub fn part_of<F: Fn(&Loaded, &Determinacy, u32) -> Result<Found, AllocError>>(
    search: &F,
    alloc: Global,
    limit: u32,
    bytes: &[u8],
    spans: &[Span],
    number: usize,
    kept: Option<Kept>,
) -> Result<Part, AllocError>
    requires limited { limit ≤ MAX_LIMIT }
    requires number { number < length spans.now }
    requires callable { (l : _) (t : _) (n : ℕ) → IsTableOf (named l.now) t.now → n ≤ MAX_LIMIT
        → F.pre search.now l t n }
    requires finds { (l : _) (t : _) (n : ℕ) (found : _) → IsTableOf (named l.now) t.now → n ≤ MAX_LIMIT
        → F.post search.now l t n found → IfOk found (IsFound (program_of l.now) n) }
    requires kept { IfSome kept IsKept }
    ensures handed { IsBatch bytes.now (spans_of spans.now)
        → IfOk result (λ part. IsHanded (IsRunOf limit) bytes.now (spans_of spans.now) number part.handed) }
    ensures kept { IfOk result (λ part. IfSome part.kept IsKept) }
{
    let text = single(alloc, bytes, spans, number)?;
    next_part(search, alloc, limit, text.as_slice(), kept)
}
