//! The beginning of a text, read once for all texts that begin with the same bytes.

ghost use Rattle.std.specs.Prelude.{◌≡◌, ◌≤◌, ◌<◌, ℕ, List, [], true, false, nat_eq, None, length, get_or, take};
ghost use Rattle.std.specs.Prelude.{IsTrue, IfOk, IfSome};
ghost use Rattle.and_model.specs.Lines.{Bytes};
ghost use Rattle.and_model.specs.declared.limits.TheConstants.{MAX_BYTES};
ghost use Rattle.and_language.specs.Tokens.{line_at, Answer, one, no_more, Comes};
ghost use Rattle.and_lex.specs.Views.{answer_of, token_of};
ghost use Rattle.and_language.specs.Words.{Placed};
ghost use Rattle.and_language.specs.Refusals.{HasWords};
ghost use Rattle.and_beginnings.specs.Beginnings.{IsValidTo};
ghost use Rattle.and_drafts.specs.Drafts.{draft_of};
ghost use Rattle.and_clauses.specs.Views.{is_query};
ghost use Rattle.and_reader.specs.Beginning.{IsReadTo, IsQueryOf, IsBeginning, IsGoneOn};
ghost use Rattle.and_reader.specs.Beginning.{beginning_ground, StaysOn};
ghost use Rattle.and_reader.specs.Reading.{IsRead};

use crate::kept::{Beginning, GoneOn};
use crate::lines::{Cursor, line_at};
use crate::parser::Parser;
use crate::reading::{Begun, Reader, memory};
use crate::refusal::{Cause, ReadRefusal};
use crate::state::{Next, Sort};
use crate::words::word_of;
use and_clauses::{ClauseDraft, ClauseTable};
use and_lex::{LexFault, Lexer, Token};
use and_model::limits::MAX_BYTES;
use std::alloc::{AllocError, Global};

/// The text is UTF-8 up to the place.
fn is_text_to(bytes: &[u8], place: usize) -> bool
    ensures { result ≡ true → IsValidTo bytes.now place }
{
    let mut lexer = Lexer::new(bytes);
    lexer.go_to(place)
}

impl<'a> Reader<'a> {
    /// Reads the text as far as its tokens begin before the place, and answers where the last of them ends; nothing
    /// where the text is refused, or ends, before that. A refusal is want of memory.
    fn read_to(&mut self, place: usize) -> Result<Option<usize>, ReadRefusal>
        requires read { (bytes : Bytes) × IsRead bytes self.old [] }
        requires first { self.old.cursor.place ≡ 0 }
        requires few { length self.old.bytes.now ≤ MAX_BYTES }
        ensures { IfOk result (λ o. IfSome o (IsReadTo self.old.bytes.now self.new)) }
    {
        let bytes = self.bytes;
        let mut lexer = Lexer::new(bytes);
        let mut end = 0;
        let mut next = lexer.next();
        'reading: loop {
            match next {
                Ok(None) => return Ok(None),
                Err(_) => return Ok(None),
                Ok(Some(token)) => {
                    if token.start >= place {
                        return Ok(Some(end));
                    }
                    let following = lexer.next();
                    let Ok(word) = word_of(self.alloc, bytes, &token, &following) else {
                        return Err(memory());
                    };
                    self.take(word, token.start)?;
                    end = token.end;
                    next = following;
                }
            }
        }
    }
}

/// Whether a text can be gone on with at the place where one that begins with the same bytes, up to the other place,
/// has the end of a token.
fn goes_on(bytes: &[u8], end: usize, place: usize) -> bool
    requires { place ≤ length bytes.now }
    ensures before { result ≡ true → end < place }
    ensures point { result ≡ true → nat_eq (get_or bytes.now end 0) 46 ≡ false }
{
    if end < place {
        return bytes[end] != b'.';
    }
    false
}

/// What is kept of a text that was read up to that end of a token, for all that have the same bytes before the place.
fn beginning_by(
    alloc: Global,
    reader: Reader<'_>,
    end: usize,
    place: usize,
) -> Result<Option<Beginning>, AllocError>
    requires few { length reader.bytes.now ≤ MAX_BYTES }
    requires within { place ≤ length reader.bytes.now }
    requires before { end < place }
    requires point { nat_eq (get_or reader.bytes.now end 0) 46 ≡ false }
    requires whole { reader.is_begun ≡ false }
    ensures { (bytes : Bytes) → IsValidTo bytes place → IsReadTo bytes reader.entry end
        → IfOk result (λ o. IfSome o IsBeginning) }
{
    let front = Vec::from_slice(alloc, &reader.bytes[..place])?;
    let line = line_at(reader.bytes, place);
    match reader.table.into_clauses()? {
        Some(clauses) => Ok(Some(Beginning {
            front,
            end,
            line,
            clauses,
        })),
        None => Ok(None),
    }
}

/// The same, where other texts can be gone on with there.
fn begun(
    alloc: Global,
    reader: Reader<'_>,
    end: usize,
    place: usize,
) -> Result<Option<Beginning>, AllocError>
    requires few { length reader.bytes.now ≤ MAX_BYTES }
    requires within { place ≤ length reader.bytes.now }
    ensures { (bytes : Bytes) → IsValidTo bytes place → IsReadTo bytes reader.entry end
        → IfOk result (λ o. IfSome o IsBeginning) }
{
    if reader.is_begun {
        return Ok(None);
    }
    if goes_on(reader.bytes, end, place) {
        return beginning_by(alloc, reader, end, place);
    }
    Ok(None)
}

/// The draft, where nothing comes behind it.
fn last(draft: ClauseDraft, next: &Result<Option<Token>, LexFault>) -> Option<ClauseDraft>
    ensures { IfSome result (λ d. (d ≡ draft) × (answer_of next.now ≡ no_more)) }
{
    match next {
        Ok(None) => Some(draft),
        Ok(Some(_)) | Err(_) => None,
    }
}

/// The draft of a clause of that sort, where it is a query and nothing comes behind it.
fn alone(
    draft: ClauseDraft,
    sort: Sort,
    next: &Result<Option<Token>, LexFault>,
) -> Option<ClauseDraft>
    ensures { IfSome result (λ d. (sort ≡ Sort.Query) × (d ≡ draft) × (answer_of next.now ≡ no_more)) }
{
    match sort {
        Sort::Query => last(draft, next),
        Sort::Clause => None,
        Sort::GrammarRule => None,
    }
}

/// A word that is refused: nothing, or want of memory.
fn no_query(cause: Cause) -> Result<Option<ClauseDraft>, AllocError>
    ensures { IfOk result (λ o. o ≡ None) }
{
    match cause {
        Cause::Memory => Err(AllocError),
        Cause::Syntax
        | Cause::NotText
        | Cause::TooWide
        | Cause::TooBig(_)
        | Cause::NotPure
        | Cause::Redefines { .. }
        | Cause::Unknown { .. }
        | Cause::NoQuery
        | Cause::SecondQuery => Ok(None),
    }
}

/// Reads the query whose first token is that, and nothing else. An error is want of memory.
fn read_clause<'a>(
    alloc: Global,
    bytes: &'a [u8],
    lexer: &mut Lexer<'a>,
    first: Token,
    line: u32,
) -> Result<Option<ClauseDraft>, AllocError>
    requires text { lexer.old.text ≡ bytes.now }
    requires comes { (place : ℕ) × Comes bytes.now place (one (token_of first)) }
    requires place { lexer.old.place ≡ first.end }
    requires within { (first.start ≤ first.end) × (first.end ≤ length bytes.now) }
    requires line { line ≡ line_at bytes.now first.start }
    ensures asks { IfOk result (λ o. IfSome o (λ d. IsTrue (is_query (draft_of d).finished))) }
    ensures query { (ws : List Placed) → HasWords bytes.now ws (one (token_of first))
        → IfOk result (λ o. IfSome o (IsQueryOf bytes.now ws)) }
{
    let mut begun = Begun {
        line,
        parser: Parser::new(alloc, line),
    };
    let mut token = first;
    'reading: loop {
        let following = lexer.next();
        let word = word_of(alloc, bytes, &token, &following)?;
        match begun.take(word) {
            Ok(Next::Inside) => {
                let Ok(Some(next)) = following else {
                    return Ok(None);
                };
                token = next;
            }
            Ok(Next::Over(sort)) => {
                let Begun { line: _, parser } = begun;
                return Ok(alone(parser.draft, sort, &following));
            }
            Err(cause) => return no_query(cause),
        }
    }
}

/// The query that is read behind the place `end`, if there is one behind the cursor, and nothing else. An error is
/// want of memory.
fn read_query(
    alloc: Global,
    bytes: &[u8],
    end: usize,
    mut cursor: Cursor,
) -> Result<Option<ClauseDraft>, AllocError>
    requires few { length bytes.now ≤ MAX_BYTES }
    requires within { cursor.place ≤ length bytes.now }
    requires line { cursor.line ≡ line_at bytes.now cursor.place }
    ensures asks { IfOk result (λ o. IfSome o (λ d. IsTrue (is_query (draft_of d).finished))) }
    ensures query { (ws : List Placed)
        → (IsValidTo bytes.now cursor.place → (a : Answer) → Comes bytes.now end a → HasWords bytes.now ws a)
        → IfOk result (λ o. IfSome o (λ d. IsValidTo bytes.now cursor.place × IsQueryOf bytes.now ws d)) }
{
    let mut lexer = Lexer::new(bytes);
    if !lexer.go_to(cursor.place) {
        return Ok(None);
    }
    if !lexer.go_to(end) {
        return Ok(None);
    }
    let Ok(Some(first)) = lexer.next() else {
        return Ok(None);
    };
    if first.start < cursor.place {
        return Ok(None);
    }
    let line = cursor.go_to(bytes, first.start);
    read_clause(alloc, bytes, &mut lexer, first, line)
}

impl Beginning {
    /// Reads a text as far as its tokens begin before the place; nothing, where that can't be kept. An error is want of
    /// memory.
    pub fn read(alloc: Global, bytes: &[u8], place: usize) -> Result<Option<Beginning>, AllocError>
        ensures { IfOk result (λ o. IfSome o IsBeginning) }
    {
        if bytes.len() > MAX_BYTES {
            return Ok(None);
        }
        if place > bytes.len() {
            return Ok(None);
        }
        if !is_text_to(bytes, place) {
            return Ok(None);
        }
        let table = ClauseTable::new(alloc)?;
        let mut reader = Reader {
            alloc,
            bytes,
            table,
            cursor: Cursor::new(),
            is_begun: false,
            clause: Begun {
                line: 1,
                parser: Parser::new(alloc, 1),
            },
            spare: None,
        };
        match reader.read_to(place) {
            Ok(Some(end)) => begun(alloc, reader, end, place),
            Ok(None) => Ok(None),
            Err(refusal) => {
                if refusal.is_memory() {
                    return Err(AllocError);
                }
                Ok(None)
            }
        }
    }

    /// Whether a text begins with the bytes of the beginning.
    fn begins(&self, text: &[u8]) -> bool
        ensures { result ≡ true → (take (length self.now.front.items) text.now ≡ self.now.front.items)
            × (length self.now.front.items ≤ length text.now) }
    {
        let place = self.front.len();
        if place <= text.len() {
            return &text[..place] == self.front.as_slice();
        }
        false
    }

    /// Reads a text that begins so, and has one query behind that, and nothing else. An error is want of memory.
    pub fn read_on(self, alloc: Global, text: &[u8]) -> Result<GoneOn, AllocError>
        ensures text { IsBeginning self → IfOk result (IsGoneOn text.now) }
        ensures ground { IfOk result (StaysOn (beginning_ground self)) }
    {
        if text.len() > MAX_BYTES {
            return Ok(GoneOn::Left(self));
        }
        if !self.begins(text) {
            return Ok(GoneOn::Left(self));
        }
        let cursor = Cursor {
            place: self.front.len(),
            line: self.line,
        };
        match read_query(alloc, text, self.end, cursor)? {
            Some(draft) => self.put(&draft),
            None => Ok(GoneOn::Left(self)),
        }
    }
}
