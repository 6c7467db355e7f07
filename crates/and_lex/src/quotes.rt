//! Quoted tokens.

ghost use Rattle.std.specs.Prelude.{◌≡◌, ◌≤◌, ◌+◌, length, IfOk};
ghost use Rattle.and_model.specs.Lines.{Bytes};
ghost use Rattle.and_language.specs.Tokens.{Quotes};
ghost use Rattle.and_lex.specs.Quoting.{quote_end, EndsWithin};

use and_model::Text;
use std::alloc::{AllocError, Global};

/// What the bytes behind an opening quote come to first, and how many bytes stand before it.
#[derive(Clone, Copy)]
pub(crate) enum QuoteEnd {
    /// The closing quote.
    Closed(usize),
    /// The end of the bytes.
    Open,
    /// A newline.
    Newline,
    /// A backslash with a character behind it that has no meaning there.
    Unknown(usize),
}

/// Where a quoted token ends whose opening quote stands before these bytes.
pub(crate) fn find_quote_end(bytes: &[u8]) -> QuoteEnd
    ensures end { result ≡ quote_end 0 bytes.now }
    ensures within { EndsWithin (length bytes.now) result }
{
    let mut index = 0;
    while index < bytes.len() {
        match &bytes[index..] {
            [b'\'', b'\'', ..] | [b'\\', b'\'' | b'\\' | b'n', ..] => index += 2,
            [b'\'', ..] => return QuoteEnd::Closed(index),
            [b'\\', b'\n', ..] | [b'\n', ..] => return QuoteEnd::Newline,
            [b'\\', _, ..] => return QuoteEnd::Unknown(index),
            [b'\\'] => return QuoteEnd::Open,
            _ => index += 1,
        }
    }
    QuoteEnd::Open
}

/// The bytes that a quoted token names. An error is want of memory.
pub fn quoted_text(alloc: Global, token: &[u8]) -> Result<Text, AllocError>
    requires { (t : Bytes) × Quotes token.now t }
    ensures { IfOk result (λ t. Quotes token.now t) }
{
    let mut text = Text::new(alloc);
    let mut is_escaped = false;
    for byte in &token[1..token.len() - 1] {
        if is_escaped {
            let named = if *byte == b'n' { b'\n' } else { *byte };
            text.append(&[named])?;
            is_escaped = false;
        } else if matches!(*byte, b'\'' | b'\\') {
            is_escaped = true;
        } else {
            text.append(&[*byte])?;
        }
    }
    Ok(text)
}
