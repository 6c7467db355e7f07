//! What a text begins with, behind layout and comments.

ghost use Rattle.std.specs.Prelude.{◌≡◌, ◌≤◌, ◌<◌, ◌+◌, ◌^◌, length, leb, Some, None, if◌then◌else◌};
ghost use Rattle.and_language.specs.Tokens;
ghost use Rattle.and_language.specs.Tokens.{goes_on, ends_clause, is_impure, number_of};
ghost use Rattle.and_lex.specs.Scanning.{numeral_found, symbol_found, quoted_found, single_found, found_at, IsWithin};
ghost use Rattle.and_lex.specs.Views.{found_of, fault_of};

use crate::classes::{
    digits_len, is_capital_byte, is_digit_byte, is_impure_byte, is_layout_byte, is_small_byte,
    is_symbol_byte, is_word_byte, symbols_len, word_len,
};
use crate::quotes::{QuoteEnd, find_quote_end};
use crate::tokens::{Kind, LexFault};

/// A token's kind and length, or `None` at the end of the text.
type Found = Result<Option<(Kind, usize)>, LexFault>;

/// The largest number of a text.
const LARGEST: u64 = 9_223_372_036_854_775_808;

/// Whether a numeral with these bytes behind it is not pure.
fn is_continued(rest: &[u8]) -> bool
    ensures { result ≡ goes_on rest.now }
{
    match rest {
        [] => false,
        [b'.', digit, ..] => is_digit_byte(*digit),
        [byte, ..] => is_word_byte(*byte) || *byte == b'\'',
    }
}

/// Whether a point with these bytes behind it ends a clause.
fn is_end(is_cut: bool, rest: &[u8]) -> bool
    ensures { result ≡ ends_clause is_cut rest.now }
{
    match rest {
        [] => !is_cut,
        [byte, ..] => is_layout_byte(*byte) || *byte == b'%',
    }
}

/// Whether pure programs do not have this symbol.
fn is_impure_symbol(symbol: &[u8]) -> bool
    ensures { result ≡ is_impure symbol.now }
{
    symbol == b"\\+".as_slice() || symbol == b"->".as_slice()
}

/// The number that digits stand for, and `None` where it is above `LARGEST`.
fn number(digits: &[u8]) -> Option<u64>
    ensures { result
        ≡ (if leb (number_of digits.now) LARGEST then Some (number_of digits.now) else None) }
{
    let mut value: u64 = 0;
    for digit in digits {
        if value > LARGEST / 10 {
            return None;
        }
        value = value * 10 + u64::from(digit.saturating_sub(b'0'));
    }
    (value <= LARGEST).then_some(value)
}

/// The integer of these digits.
fn find_integer(at: usize, digits: &[u8], rest: &[u8]) -> Found
    requires { 0 < length digits.now }
    ensures found { found_of result ≡ numeral_found at digits.now rest.now }
    ensures within { IsWithin (length digits.now) (found_of result) }
{
    if is_continued(rest) {
        return Err(LexFault::NotPure { at });
    }
    match number(digits) {
        Some(value) => Ok(Some((Kind::Integer(value), digits.len()))),
        None => Err(LexFault::TooWide { at }),
    }
}

/// The fault of a comment or quoted token that begins at a place, and that the text ends within.
fn broken(is_cut: bool, start: usize, behind: usize) -> LexFault
    ensures { fault_of result ≡ Tokens.broken is_cut start behind }
{
    if is_cut {
        LexFault::NotText { at: behind }
    } else {
        LexFault::Syntax { at: start }
    }
}

/// What these symbol characters are.
fn find_symbol(is_cut: bool, at: usize, run: &[u8], rest: &[u8]) -> Found
    requires some { 0 < length run.now }
    requires room { at + length run.now + length rest.now < 2 ^ 64 }
    ensures found { found_of result ≡ symbol_found is_cut at run.now rest.now }
    ensures within { IsWithin (length run.now + length rest.now) (found_of result) }
{
    if run.starts_with(b"/*") {
        Err(broken(is_cut, at, at + run.len() + rest.len()))
    } else if is_impure_symbol(run) {
        Err(LexFault::NotPure { at })
    } else if run == b".".as_slice() && is_end(is_cut, rest) {
        Ok(Some((Kind::End, 1)))
    } else {
        Ok(Some((Kind::Symbol, run.len())))
    }
}

/// The quoted token whose opening quote stands at the place, before these bytes.
fn find_quoted(is_cut: bool, at: usize, bytes: &[u8]) -> Found
    requires { at + length bytes.now + 1 < 2 ^ 64 }
    ensures found { found_of result ≡ quoted_found is_cut at bytes.now }
    ensures within { IsWithin (length bytes.now + 1) (found_of result) }
{
    match find_quote_end(bytes) {
        QuoteEnd::Closed(len) => Ok(Some((Kind::Quoted, len + 2))),
        QuoteEnd::Open => Err(broken(is_cut, at, at + 1 + bytes.len())),
        QuoteEnd::Newline => Err(LexFault::Syntax { at }),
        QuoteEnd::Unknown(len) => Err(LexFault::NotPure { at: at + 1 + len }),
    }
}

/// What one character is that begins no longer token.
fn find_single(at: usize, byte: u8) -> Found
    ensures found { found_of result ≡ single_found at byte }
    ensures within { IsWithin 1 (found_of result) }
{
    match byte {
        b'(' => Ok(Some((Kind::Open, 1))),
        b')' => Ok(Some((Kind::Close, 1))),
        b'[' => Ok(Some((Kind::OpenList, 1))),
        b']' => Ok(Some((Kind::CloseList, 1))),
        b'{' => Ok(Some((Kind::OpenBrace, 1))),
        b'}' => Ok(Some((Kind::CloseBrace, 1))),
        b',' => Ok(Some((Kind::Comma, 1))),
        b';' => Ok(Some((Kind::Semicolon, 1))),
        b'|' => Ok(Some((Kind::Bar, 1))),
        _ if is_impure_byte(byte) => Err(LexFault::NotPure { at }),
        _ => Err(LexFault::Syntax { at }),
    }
}

/// What the bytes at a place begin with, where no layout and no whole comment begins them.
pub(crate) fn find_token(is_cut: bool, at: usize, bytes: &[u8]) -> Found
    requires { at + length bytes.now < 2 ^ 64 }
    ensures found { found_of result ≡ found_at is_cut at bytes.now }
    ensures within { IsWithin (length bytes.now) (found_of result) }
{
    let Some((first, behind)) = bytes.split_first() else {
        return if is_cut {
            Err(LexFault::NotText { at })
        } else {
            Ok(None)
        };
    };
    let first = *first;
    if is_capital_byte(first) {
        Ok(Some((Kind::Variable, word_len(bytes))))
    } else if is_small_byte(first) {
        Ok(Some((Kind::Name, word_len(bytes))))
    } else if is_digit_byte(first) {
        let (digits, rest) = bytes.split_at(digits_len(bytes));
        find_integer(at, digits, rest)
    } else if is_symbol_byte(first) {
        let (run, rest) = bytes.split_at(symbols_len(bytes));
        find_symbol(is_cut, at, run, rest)
    } else if first == b'\'' {
        find_quoted(is_cut, at, behind)
    } else {
        find_single(at, first)
    }
}
