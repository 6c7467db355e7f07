//! The tokens of a text, one after the other.

ghost use Rattle.std.specs.Prelude.{◌≡◌, ◌≤◌, ◌<◌, ◌+◌, ◌^◌, ℕ, true, length, IfOk, IfSome, OnErr, IfNone};
ghost use Rattle.and_language.specs.Tokens.{Next, Comes, IsFront};
ghost use Rattle.and_lex.specs.Views.{answer_of, LiesBetween};

use crate::found::find_token;
use crate::gaps::gap_len;
use crate::tokens::{LexFault, Token};
use std::marker::Model;
use std::str;

/// The token that comes next, where these bytes stand at the place.
fn next_token(is_cut: bool, place: usize, bytes: &[u8]) -> Result<Option<Token>, LexFault>
    requires { place + length bytes.now < 2 ^ 64 }
    ensures next { Next is_cut place bytes.now (answer_of result) }
    ensures bounds { IfOk result (λ o. IfSome o (LiesBetween place (place + length bytes.now))) }
{
    let gap = gap_len(bytes);
    let start = place + gap;
    let found = find_token(is_cut, start, &bytes[gap..])?;
    match found {
        None => Ok(None),
        Some((kind, len)) => Ok(Some(Token {
            kind,
            start,
            end: start + len,
            layout_before: gap > 0,
        })),
    }
}

/// A text, read up to a place.
pub struct Lexer<'a> {
    text: &'a [u8],
    /// How long the longest front of the text is that is UTF-8.
    valid: usize,
    place: usize,
}

// By hand, so that it is proved once, here.
impl<'a> Drop for Lexer<'a> {
    fn drop(self) {
        let Lexer {
            text: _,
            valid: _,
            place: _,
        } = self;
    }
}

impl<'a> Model for Lexer<'a> {
    ghost use Rattle.std.specs.Prelude.{◌≤◌};
    ghost use Rattle.and_language.specs.Tokens.{IsFront};
    ghost use Rattle.and_lex.specs.Reading.{Reading};

    ghost Value = { Reading };

    ghost view = { λ l. record { text = l.text.now; place = l.place } };

    ghost invariant = { λ l. IsFront l.text.now l.valid × (l.place ≤ l.valid) };
}

impl<'a> Lexer<'a> {
    /// A lexer at the text's beginning. Takes no memory, and reads the text once.
    pub fn new(text: &'a [u8]) -> Lexer<'a>
        ensures text { result.text ≡ text.now }
        ensures place { result.place ≡ 0 }
    {
        let valid = match str::from_utf8(text) {
            Ok(_) => text.len(),
            Err(error) => error.valid_up_to(),
        };
        Lexer {
            text,
            valid,
            place: 0,
        }
    }

    /// Goes to a place, and tells whether the text is UTF-8 up to it; where it is not stays. Takes no memory.
    pub fn go_to(&mut self, place: usize) -> bool
        ensures text { self.new.text ≡ self.old.text }
        ensures reached { result ≡ true → self.new.place ≡ place }
        ensures valid { result ≡ true → (n : ℕ) × IsFront self.old.text n × (place ≤ n) }
    {
        if place > self.valid {
            return false;
        }
        self.place = place;
        true
    }

    /// The next token, `None` at the end of the text, or why no token can be read. After `None` or
    /// a fault the same answer comes again. Takes no memory.
    pub fn next(&mut self) -> Result<Option<Token>, LexFault>
        ensures next { Comes self.old.text self.old.place (answer_of result) }
        ensures text { self.new.text ≡ self.old.text }
        ensures read { IfOk result (λ o. IfSome o (λ t. self.new.place ≡ t.end)) }
        ensures ended { IfOk result (λ o. IfNone o (self.new.place ≡ self.old.place)) }
        ensures stopped { OnErr result (self.new.place ≡ self.old.place) }
        ensures within { IfOk result
            (λ o. IfSome o (LiesBetween self.old.place (length self.old.text))) }
    {
        let is_cut = self.valid < self.text.len();
        let token = next_token(is_cut, self.place, &self.text[self.place..self.valid])?;
        if let Some(token) = &token {
            self.place = token.end;
        }
        Ok(token)
    }
}
