//! Where in a text a refusal is met.

ghost use Rattle.std.specs.Prelude.{IsSome};
ghost use Rattle.and_reader.specs.Causes.{refusal_of};

use and_lex::{LexFault, Lexer, Token};
use and_model::Text;
use and_reader::{Cause, ReadRefusal, read_program, refusal_text};
use std::alloc::{AllocError, Global};

/// A piece of a text: its bytes stand from `start` up to `end`.
#[derive(Clone, Copy)]
pub struct Piece {
    pub start: usize,
    pub end: usize,
}

/// The bytes of a text from a place up to another, as far as they are there.
pub fn part(text: &[u8], from: usize, to: usize) -> &[u8] {
    let end = to.min(text.len());
    let start = from.min(end);
    &text[start..end]
}

/// Where a line begins, from 1 on; the end of a text that has fewer.
fn line_start(text: &[u8], line: u32) -> usize {
    let mut here = 1u32;
    for (place, byte) in text.iter().enumerate() {
        if here == line {
            return place;
        }
        if *byte == b'\n' {
            here = here.saturating_add(1);
        }
    }
    text.len()
}

/// A line of a text, without its newline.
pub fn line_of(text: &[u8], line: u32) -> Piece {
    let start = line_start(text, line);
    let rest = part(text, start, text.len());
    let length = rest.iter().take_while(|byte| **byte != b'\n').count();
    Piece {
        start,
        end: start.saturating_add(length),
    }
}

/// Whether a byte stands in symbols.
fn is_symbolic(byte: u8) -> bool {
    b"+-*/\\^<>=~:.?@#&$".contains(&byte)
}

/// Whether a byte stands in numbers, as others write them.
fn is_numeric(byte: u8) -> bool {
    byte.is_ascii_alphanumeric() || byte == b'.' || byte == b'_'
}

/// How many bytes at the beginning of a text belong together.
fn run_length(text: &[u8]) -> usize {
    match text.first() {
        Some(first) if is_symbolic(*first) => {
            text.iter().take_while(|byte| is_symbolic(**byte)).count()
        }
        Some(first) if is_numeric(*first) => {
            text.iter().take_while(|byte| is_numeric(**byte)).count()
        }
        _ => 1,
    }
}

/// The piece of a text at which no token can be read.
fn faulty(text: &[u8], fault: LexFault) -> Piece {
    let start = match fault {
        LexFault::Syntax { at } => at,
        LexFault::NotText { at } => at,
        LexFault::TooWide { at } => at,
        LexFault::NotPure { at } => at,
    };
    let length = run_length(part(text, start, text.len()));
    Piece {
        start,
        end: start.saturating_add(length),
    }
}

/// The tokens that begin in a piece of a text, and what stands where none can be read.
pub fn tokens_in(alloc: Global, text: &[u8], within: Piece) -> Result<Vec<Piece>, AllocError> {
    let mut tokens = Vec::new(alloc);
    let mut lexer = Lexer::new(text);
    for _turn in 0..=text.len() {
        let found = match lexer.next() {
            Ok(Some(Token { start, end, .. })) => Piece { start, end },
            Ok(None) => return Ok(tokens),
            Err(fault) => {
                let found = faulty(text, fault);
                if within.start <= found.start && found.start < within.end {
                    tokens.push(found)?;
                }
                return Ok(tokens);
            }
        };
        if found.start >= within.end {
            return Ok(tokens);
        }
        if within.start <= found.start {
            tokens.push(found)?;
        }
    }
    Ok(tokens)
}

/// Whether a text is refused by this line, if it ends at a place.
fn is_met(alloc: Global, text: &[u8], end: usize, line: &Text) -> Result<bool, AllocError> {
    let mut front = Text::of(alloc, part(text, 0, end))?;
    front.append(b"\n")?;
    match read_program(alloc, front.bytes()) {
        Ok(_loaded) => Ok(false),
        Err(refusal) => {
            if refusal.is_memory() {
                return Err(AllocError);
            }
            let told = refusal_text(alloc, &refusal)?;
            Ok(told.bytes() == line.bytes())
        }
    }
}

/// The first of these tokens with which the text is refused by this line. What is refused stays so, whatever follows.
fn first_met(
    alloc: Global,
    text: &[u8],
    tokens: &[Piece],
    line: &Text,
) -> Result<Option<Piece>, AllocError> {
    let mut rest = tokens;
    let mut found = None;
    for _turn in 0..64 {
        let (before, from) = rest.split_at(rest.len() / 2);
        match from {
            [token, behind @ ..] => {
                if is_met(alloc, text, token.end, line)? {
                    found = Some(*token);
                    rest = before;
                } else {
                    rest = behind;
                }
            }
            [] => return Ok(found),
        }
    }
    Ok(found)
}

/// The first of these tokens that is a name, as it is written.
fn named(text: &[u8], tokens: &[Piece], name: &[u8]) -> Option<Piece> {
    for token in tokens {
        if part(text, token.start, token.end) == name {
            return Some(*token);
        }
    }
    None
}

/// The one of these tokens at which a refusal is met, or that names what is unknown.
fn found_in(
    alloc: Global,
    text: &[u8],
    refusal: &ReadRefusal,
    tokens: &[Piece],
) -> Result<Option<Piece>, AllocError>
    requires { IsSome (refusal_of refusal.now) }
{
    let line = refusal_text(alloc, refusal)?;
    if let Cause::Unknown { name, arity: _ } = &refusal.cause {
        return Ok(named(text, tokens, name.bytes()));
    }
    first_met(alloc, text, tokens, &line)
}

/// The token at which a refusal is met, or that names what is unknown; or the first of its line; or nothing, where that
/// line has none.
pub fn place_of(
    alloc: Global,
    text: &[u8],
    refusal: &ReadRefusal,
) -> Result<Option<Piece>, AllocError> {
    if refusal.is_memory() {
        return Err(AllocError);
    }
    let tokens = tokens_in(alloc, text, line_of(text, refusal.line))?;
    match found_in(alloc, text, refusal, &tokens)? {
        Some(token) => Ok(Some(token)),
        None => Ok(tokens.first().copied()),
    }
}
