//! Hints for who sits at a terminal: where a text is refused and what to write instead, and what to do about a limit.

use crate::causes::{are_terms_met, hint_of};
use crate::names::nearest;
use crate::places::{Piece, line_of, part, place_of};
use and_command::{Command, command_of};
use and_model::limits::{DEFAULT_LIMIT, MAX_LIMIT};
use and_reader::{Cause, ReadRefusal};
use and_status::Status;
use std::alloc::{AllocError, Global};

/// The most bytes that are shown of a line on each side of a token.
const WIDTH: usize = 60;

/// How many characters bytes of a text are.
fn width_of(bytes: &[u8]) -> usize {
    bytes.iter().filter(|byte| (**byte & 0xC0) != 0x80).count()
}

/// As many blanks and tabs as bring a mark below what follows these bytes.
fn blanks_below(alloc: Global, bytes: &[u8]) -> Result<String, AllocError> {
    let mut blanks = String::new(alloc);
    for byte in bytes {
        if *byte == b'\t' {
            blanks.push('\t')?;
        } else if (*byte & 0xC0) != 0x80 {
            blanks.push(' ')?;
        }
    }
    Ok(blanks)
}

/// A mark of so many characters, at least one.
fn mark(alloc: Global, width: usize) -> Result<String, AllocError> {
    let mut mark = String::new(alloc);
    for _place in 0..width.clamp(1, WIDTH) {
        mark.push('^')?;
    }
    Ok(mark)
}

/// The line of a token, with a mark under the token.
fn shown(alloc: Global, text: &[u8], line: u32, token: Piece) -> Result<String, AllocError> {
    let within = line_of(text, line);
    let start = within.start.max(token.start.saturating_sub(WIDTH));
    let end = within.end.min(token.end.saturating_add(WIDTH));
    let front = part(text, start, token.start);
    let marked = part(text, token.start, token.end.min(within.end));
    let whole = String::from_utf8_lossy(alloc, part(text, start, end))?;
    let blanks = blanks_below(alloc, front)?;
    let mark = mark(alloc, width_of(marked))?;
    format!(in alloc; "{line:>6} | {whole}\n       | {blanks}{mark}\n")
}

/// What is said of a call of a predicate that has no clause.
fn hint_of_unknown(alloc: Global, text: &[u8], name: &[u8]) -> Result<Option<String>, AllocError> {
    let Some(near) = nearest(alloc, text, name)? else {
        return Ok(None);
    };
    if near.as_bytes() == name {
        let hint = format!(in alloc; "the clauses of {near} have another number of arguments")?;
        return Ok(Some(hint));
    }
    Ok(Some(format!(in alloc; "did you mean {near}?")?))
}

/// What is said of a token that is no part of a clause, or that is not in the language.
fn hint_of_token(text: &[u8], token: Piece) -> Option<&'static str> {
    let bytes = part(text, token.start, token.end);
    if let Some(hint) = hint_of(bytes) {
        return Some(hint);
    }
    if are_terms_met(part(text, 0, token.start), bytes) {
        return Some("expected , or .");
    }
    None
}

/// What is said of a token at which a refusal is met, if there is one.
fn hint_at(text: &[u8], token: Option<Piece>) -> Option<&'static str> {
    match token {
        Some(token) => hint_of_token(text, token),
        None => Some("expected . at the end of the last clause"),
    }
}

/// A text of these words, if there are some.
fn owned(alloc: Global, words: Option<&'static str>) -> Result<Option<String>, AllocError> {
    match words {
        Some(words) => Ok(Some(String::from_str(alloc, words)?)),
        None => Ok(None),
    }
}

/// What is said of a cause that is met at a token.
fn hint_of_cause(
    alloc: Global,
    text: &[u8],
    cause: &Cause,
    token: Option<Piece>,
) -> Result<Option<String>, AllocError> {
    match cause {
        Cause::Unknown { name, arity: _ } => hint_of_unknown(alloc, text, name.bytes()),
        Cause::NoQuery => owned(alloc, Some("a text has a query, as ?- p(X).")),
        Cause::SecondQuery => owned(alloc, Some("a text has one query")),
        Cause::Redefines { name: _, arity: _ } => {
            owned(
                alloc,
                Some("this name has a meaning of its own: take another"),
            )
        }
        Cause::TooBig(_) => Ok(None),
        Cause::Memory => Ok(None),
        Cause::Syntax => owned(alloc, hint_at(text, token)),
        Cause::NotText => owned(alloc, hint_at(text, token)),
        Cause::TooWide => owned(alloc, hint_at(text, token)),
        Cause::NotPure => owned(alloc, hint_at(text, token)),
    }
}

/// Where a text is refused, and what to write instead. An error is want of memory.
pub fn about_refusal(
    alloc: Global,
    text: &[u8],
    refusal: &ReadRefusal,
) -> Result<String, AllocError> {
    let mut told = String::new(alloc);
    let token = place_of(alloc, text, refusal)?;
    if let Some(token) = token {
        told.push_str(&shown(alloc, text, refusal.line, token)?)?;
    }
    if let Some(hint) = hint_of_cause(alloc, text, &refusal.cause, token)? {
        told.push_str(&format!(in alloc; "hint: {hint}\n")?)?;
    }
    Ok(told)
}

/// The limit of a command.
fn limit_of(command: Command) -> u32 {
    match command {
        Command::Run { settings } => settings.limit,
        Command::Demo { settings, .. } => settings.limit,
        Command::Explain { settings, .. } => settings.limit,
        Command::Tree { limit } => limit,
        Command::Batch { settings, .. } => settings.limit,
        Command::First { settings, .. } => settings.limit,
        Command::Check | Command::Verify | Command::Lint => DEFAULT_LIMIT,
    }
}

/// The limit that these words name. An error is want of memory.
fn limit_in(alloc: Global, words: &[String]) -> Result<u32, AllocError> {
    match command_of(alloc, words)? {
        Some(command) => Ok(limit_of(command)),
        None => Ok(DEFAULT_LIMIT),
    }
}

/// What is said of a limit that was met.
fn about_limit(alloc: Global, limit: u32) -> Result<String, AllocError> {
    if limit >= MAX_LIMIT {
        return format!(in alloc;
            "hint: a proof weighs more than {limit}, and no limit is larger: a search that has no end is served by a smaller one, or by andorra first K\n"
        );
    }
    let larger = limit.saturating_mul(4).min(MAX_LIMIT);
    format!(in alloc;
        "hint: a proof weighs more than {limit}: try --limit {larger}; a search that has no end is better served by a smaller limit, or by andorra first K\n"
    )
}

/// What is said of how a run ended. An error is want of memory.
pub fn about_end(alloc: Global, words: &[String], status: Status) -> Result<String, AllocError> {
    match status {
        Status::Limit => about_limit(alloc, limit_in(alloc, words)?),
        Status::Memory => String::from_str(
            alloc,
            "hint: memory was wanting: a smaller --limit, or fewer --teams and --workers, take less\n",
        ),
        Status::Floundered => String::from_str(
            alloc,
            "hint: the goals behind a line wait for numbers that nothing gives: andorra check names the variable\n",
        ),
        _ => Ok(String::new(alloc)),
    }
}
