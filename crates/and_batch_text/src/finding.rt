//! The queries of a text, found among its tokens.

ghost use Rattle.std.specs.Prelude.{◌≡◌, ◌≤◌, ◌++◌, length, codes, OnOk, IfOk};
ghost use Rattle.std.specs.Str.{bytes_eq};
ghost use Rattle.and_lex.specs.Views.{kind_of, token_of};
ghost use Rattle.and_batch_text.specs.Queries.{is_end_kind, is_query_symbol, goes_on, behind, before_end, at_token};
ghost use Rattle.and_batch_text.specs.Queries.{HasQueries};
ghost use Rattle.and_batch_text.specs.Views.{place_of, spans_of};

use crate::span::Span;
use and_lex::{Kind, Lexer, Token};
use std::alloc::{AllocError, Global};

/// Where a token stands: at the beginning of a clause; within a clause that is no query; or within a query, which
/// begins at that place.
#[derive(Clone, Copy)]
pub enum Place {
    Fresh,
    Inside,
    Asking { start: usize },
}

/// Such a token ends a clause.
fn is_end(kind: Kind) -> bool
    ensures { result ≡ is_end_kind (kind_of kind) }
{
    match kind {
        Kind::End => true,
        Kind::Symbol
        | Kind::Variable
        | Kind::Name
        | Kind::Quoted
        | Kind::Integer(_)
        | Kind::Open
        | Kind::Close
        | Kind::OpenList
        | Kind::CloseList
        | Kind::OpenBrace
        | Kind::CloseBrace
        | Kind::Comma
        | Kind::Semicolon
        | Kind::Bar => false,
    }
}

/// The symbol with which a query begins.
fn is_question(symbol: &[u8]) -> bool
    ensures { result ≡ bytes_eq symbol.now (codes "?-") }
{
    symbol == b"?-".as_slice()
}

/// The token is the symbol `?-`.
fn asks(bytes: &[u8], token: &Token) -> bool
    requires ordered { token.now.start ≤ token.now.end }
    requires within { token.now.end ≤ length bytes.now }
    ensures { result ≡ is_query_symbol bytes.now (token_of token.now) }
{
    match token.kind {
        Kind::Symbol => is_question(&bytes[token.start..token.end]),
        Kind::End
        | Kind::Variable
        | Kind::Name
        | Kind::Quoted
        | Kind::Integer(_)
        | Kind::Open
        | Kind::Close
        | Kind::OpenList
        | Kind::CloseList
        | Kind::OpenBrace
        | Kind::CloseBrace
        | Kind::Comma
        | Kind::Semicolon
        | Kind::Bar => false,
    }
}

/// Where the token behind one that ends no clause stands.
fn place_behind(bytes: &[u8], place: Place, token: &Token) -> Place
    requires ordered { token.now.start ≤ token.now.end }
    requires within { token.now.end ≤ length bytes.now }
    ensures { place_of result ≡ goes_on bytes.now (place_of place) (token_of token.now) }
{
    match place {
        Place::Fresh => {
            if asks(bytes, token) {
                return Place::Asking { start: token.start };
            }
            Place::Inside
        }
        Place::Inside => Place::Inside,
        Place::Asking { start } => Place::Asking { start },
    }
}

/// The query that is begun, if one is, ends at this place. An error is want of memory.
fn close(spans: &mut Vec<Span>, place: Place, end: usize) -> Result<(), AllocError>
    ensures { OnOk result (spans_of spans.new.items ≡ spans_of spans.old.items ++ before_end (place_of place) end) }
{
    match place {
        Place::Fresh | Place::Inside => Ok(()),
        Place::Asking { start } => {
            spans.push(Span { start, end })?;
            Ok(())
        }
    }
}

/// Reads a token: notes the query that it ends, if it ends one, and answers where the next one stands. An error is want
/// of memory.
fn take(
    bytes: &[u8],
    spans: &mut Vec<Span>,
    place: Place,
    token: &Token,
) -> Result<Place, AllocError>
    requires ordered { token.now.start ≤ token.now.end }
    requires within { token.now.end ≤ length bytes.now }
    ensures spans { OnOk result (spans_of spans.new.items
        ≡ spans_of spans.old.items ++ at_token (place_of place) (token_of token.now)) }
    ensures place { IfOk result (λ p. place_of p ≡ behind bytes.now (place_of place) (token_of token.now)) }
{
    if is_end(token.kind) {
        close(spans, place, token.end)?;
        return Ok(Place::Fresh);
    }
    Ok(place_behind(bytes, place, token))
}

/// The queries of a text, in order. Reads the text once. An error is want of memory.
pub fn queries(alloc: Global, bytes: &[u8]) -> Result<Vec<Span>, AllocError>
    ensures { IfOk result (λ spans. HasQueries bytes.now (spans_of spans.items)) }
{
    let mut spans = Vec::new(alloc);
    let mut lexer = Lexer::new(bytes);
    let mut place = Place::Fresh;
    'reading: loop {
        match lexer.next() {
            Ok(Some(token)) => place = take(bytes, &mut spans, place, &token)?,
            Ok(None) => return ended(spans, place, bytes.len()),
            Err(_) => return ended(spans, place, bytes.len()),
        }
    }
}

/// All queries, where the text ends. An error is want of memory.
fn ended(mut spans: Vec<Span>, place: Place, end: usize) -> Result<Vec<Span>, AllocError>
    ensures { IfOk result (λ all. spans_of all.items ≡ spans_of spans.items ++ before_end (place_of place) end) }
{
    close(&mut spans, place, end)?;
    Ok(spans)
}
