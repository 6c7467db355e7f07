//! What a text of several queries is answered with.

ghost use Rattle.std.specs.Prelude.{◌≡◌, ◌≤◌, ◌<◌, ◌++◌, ◌||◌, ◌^◌, ℕ, false, nat_eq, length, drop};
ghost use Rattle.std.specs.Prelude.{IfOk, IfSome, OnOk, All};
ghost use Rattle.and_batch.specs.Working.{IsDueAtEach};
ghost use Rattle.and_batch_reader.specs.Opened.{AreFew};
ghost use Rattle.and_batch_text.specs.Views.{spans_of};
ghost use Rattle.and_cells.specs.Parts.{named};
ghost use Rattle.and_clause_index.specs.Tables.{IsTableOf};
ghost use Rattle.and_model.specs.declared.limits.TheConstants.{MAX_LIMIT};
ghost use Rattle.and_program.specs.Loaded.{program_of};
ghost use Rattle.and_reader.specs.Beginning.{IsBeginning};
ghost use Rattle.and_search_laws.specs.Found.{IsFound};
ghost use Rattle.and_questions.specs.Batched.{WasBatched, query_line, status_by};
ghost use Rattle.and_replies.specs.Handed.{IsDue, joined_texts, status_of_texts};
ghost use Rattle.and_questions.specs.Replied.{IsRunOf};

use crate::answering::refused;
use crate::parts::{kept_of, part_of};
use and_answers::Found;
use and_batch::TextList;
use and_batch_reader::{Opened, Sought, open, seek};
use and_batch_text::Span;
use and_clause_index::Determinacy;
use and_model::Text;
use and_program::Loaded;
use and_questions::Reply;
use and_reader::Beginning;
use and_status::Status;
use std::alloc::{AllocError, Global};

/// The answers to all queries, one after another, by this search. An error is want of memory.
fn one_by_one<F: Fn(&Loaded, &Determinacy, u32) -> Result<Found, AllocError>>(
    search: &F,
    alloc: Global,
    limit: u32,
    bytes: &[u8],
    spans: &[Span],
    beginning: Option<Beginning>,
) -> Result<TextList, AllocError>
    requires limited { limit ≤ MAX_LIMIT }
    requires callable { (l : _) (t : _) (n : ℕ) → IsTableOf (named l.now) t.now → n ≤ MAX_LIMIT
        → F.pre search.now l t n }
    requires finds { (l : _) (t : _) (n : ℕ) (found : _) → IsTableOf (named l.now) t.now → n ≤ MAX_LIMIT
        → F.post search.now l t n found → IfOk found (IsFound (program_of l.now) n) }
    requires beginning { IfSome beginning IsBeginning }
    ensures len { IfOk result (λ texts. length texts ≡ length spans.now) }
    ensures due { IfOk result (IsDueAtEach (IsDue (IsRunOf limit) bytes.now (spans_of spans.now))) }
{
    let mut texts = TextList::new(alloc);
    let mut kept = kept_of(beginning);
    for number in 0..spans.len() {
        let part = part_of(search, alloc, limit, bytes, spans, number, kept)?;
        kept = part.kept;
        if texts.push(part.handed).is_err() {
            return Err(AllocError);
        }
    }
    Ok(texts)
}

/// Which statuses parts have had.
#[derive(Clone, Copy)]
struct Seen {
    limit: bool,
    floundered: bool,
    none: bool,
}

impl Seen {
    /// None.
    fn nothing() -> Seen
        ensures { result ≡ record { limit = false; floundered = false; none = false } }
    {
        Seen {
            limit: false,
            floundered: false,
            none: false,
        }
    }

    /// The same and the one of that number.
    fn with(self, number: u8) -> Seen
        ensures { result ≡ record {
          limit = self.limit || nat_eq number 6;
          floundered = self.floundered || nat_eq number 8;
          none = self.none || nat_eq number 1;
        } }
    {
        Seen {
            limit: self.limit || number == Status::Limit as u8,
            floundered: self.floundered || number == Status::Floundered as u8,
            none: self.none || number == Status::NoAnswer as u8,
        }
    }

    /// The status of all parts.
    fn status(self) -> Status
        ensures { result ≡ status_by self.limit self.floundered self.none }
    {
        if self.limit {
            Status::Limit
        } else if self.floundered {
            Status::Floundered
        } else if self.none {
            Status::NoAnswer
        } else {
            Status::Answers
        }
    }
}

/// Puts a part behind the line of its number. An error is want of memory.
fn write_part(alloc: Global, out: &mut Text, number: usize, handed: &[u8]) -> Result<(), AllocError>
    requires few { number < 2 ^ 32 }
    requires some { 0 < length handed.now }
    ensures { OnOk result (out.new ≡ out.old ++ query_line number ++ drop 1 handed.now) }
{
    let shown = number + 1;
    let line = format!(in alloc; "% query {shown}\n")?;
    out.append(line.as_bytes())?;
    out.append(&handed[1..])
}

/// The reply to all queries, by what was handed on for each. An error is want of memory.
pub fn reply_of(alloc: Global, texts: &TextList) -> Result<Reply, AllocError>
    requires few { length texts.now ≤ 256 }
    requires some { All (λ text. 0 < length text) texts.now }
    ensures text { IfOk result (λ reply. reply.text ≡ joined_texts 0 texts.now) }
    ensures status { IfOk result (λ reply. reply.status ≡ status_of_texts texts.now) }
{
    let mut out = Text::new(alloc);
    let mut seen = Seen::nothing();
    for number in 0..texts.len() {
        let handed = texts.at(number).bytes();
        write_part(alloc, &mut out, number, handed)?;
        seen = seen.with(handed[0]);
    }
    Ok(Reply {
        text: out,
        status: seen.status(),
        refusal: None,
    })
}

/// The answer to a text that has these queries, by this search. An error is want of memory.
fn batched_alone<F: Fn(&Loaded, &Determinacy, u32) -> Result<Found, AllocError>>(
    search: &F,
    alloc: Global,
    limit: u32,
    bytes: &[u8],
    spans: &[Span],
) -> Result<Reply, AllocError>
    requires few { AreFew bytes.now (spans_of spans.now) }
    requires limited { limit ≤ MAX_LIMIT }
    requires callable { (l : _) (t : _) (n : ℕ) → IsTableOf (named l.now) t.now → n ≤ MAX_LIMIT
        → F.pre search.now l t n }
    requires finds { (l : _) (t : _) (n : ℕ) (found : _) → IsTableOf (named l.now) t.now → n ≤ MAX_LIMIT
        → F.post search.now l t n found → IfOk found (IsFound (program_of l.now) n) }
    ensures { IfOk result (λ reply. WasBatched (IsRunOf limit) reply.status bytes.now reply.text) }
{
    match open(alloc, bytes, spans)? {
        Opened::Refused(refusal) => refused(alloc, refusal),
        Opened::Read(beginning) => {
            let texts = one_by_one(search, alloc, limit, bytes, spans, beginning)?;
            reply_of(alloc, &texts)
        }
    }
}

/// The answer to a text of several queries, by this search. An error is want of memory.
pub fn batched<F: Fn(&Loaded, &Determinacy, u32) -> Result<Found, AllocError>>(
    search: &F,
    alloc: Global,
    limit: u32,
    bytes: &[u8],
) -> Result<Reply, AllocError>
    requires limited { limit ≤ MAX_LIMIT }
    requires callable { (l : _) (t : _) (n : ℕ) → IsTableOf (named l.now) t.now → n ≤ MAX_LIMIT
        → F.pre search.now l t n }
    requires finds { (l : _) (t : _) (n : ℕ) (found : _) → IsTableOf (named l.now) t.now → n ≤ MAX_LIMIT
        → F.post search.now l t n found → IfOk found (IsFound (program_of l.now) n) }
    ensures { IfOk result (λ reply. WasBatched (IsRunOf limit) reply.status bytes.now reply.text) }
{
    match seek(alloc, bytes)? {
        Sought::Refused(refusal) => refused(alloc, refusal),
        Sought::Queries(spans) => batched_alone(search, alloc, limit, bytes, spans.as_slice()),
    }
}
