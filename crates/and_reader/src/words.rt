//! The words of a text, as its grammar sees them.

ghost use Rattle.std.specs.Prelude.{◌≡◌, ◌≤◌, ℕ, length, [], IfOk, Ok, Some, codes};
ghost use Rattle.std.specs.Str.{bytes_eq};
ghost use Rattle.and_language.specs.Words.{is_one_of, products, sums, relations, is_operator, is_reserved};
ghost use Rattle.and_language.specs.Words.{bytes_of, before_kind, before, IsWord};
ghost use Rattle.and_language.specs.Tokens.{Comes, one, symbol as symbol_kind};
ghost use Rattle.and_language.specs.Tokens;
ghost use Rattle.and_lex.specs.Views.{token_of, kind_of, answer_of};
ghost use Rattle.and_automaton.specs.Machine.{closes_list};
ghost use Rattle.and_reader.specs.Views.{name_of, word_of};
ghost use Rattle.and_reader.specs.Seen.{seen_of, IsWithin};
ghost use Rattle.and_reader.specs.Standing.{IsFit};
ghost use Rattle.and_reader.specs.Answered.{first_of, is_functor_bracket};

use and_lex::{Kind, LexFault, Token, quoted_text};
use and_model::Text;
use std::alloc::{AllocError, Global};

/// A name: as it is written, or what a quoted token names.
pub(crate) enum Name<'a> {
    Written(&'a [u8]),
    Quoted(Text),
}

// By hand, so that it is proved once, here.
impl<'a> Drop for Name<'a> {
    fn drop(self) {
        match self {
            Name::Written(_) => {}
            Name::Quoted(_) => {}
        }
    }
}

impl Name<'_> {
    /// The bytes that it names.
    pub(crate) fn bytes(&self) -> &[u8]
        ensures { result.now ≡ name_of self.now }
    {
        match self {
            Name::Written(bytes) => bytes,
            Name::Quoted(text) => text.bytes(),
        }
    }
}

/// What a minus stands before, unless a bracket stands right behind it.
#[derive(Clone, Copy)]
pub(crate) enum Before {
    /// An integer right behind it.
    Integer,
    /// Something that no operand begins with.
    Stop,
    Operand,
}

/// A word.
#[derive(Drop)]
pub(crate) enum Word<'a> {
    Variable(&'a [u8]),
    Integer(u64),
    /// An unquoted name or symbol, and the minus that a bracket stands right behind.
    Name(&'a [u8]),
    Quoted(Text),
    Minus(Before),
    /// `(`, and whether it stands right behind the word before it.
    OpenBracket { behind: bool },
    CloseBracket,
    OpenList,
    CloseList,
    OpenBrace,
    CloseBrace,
    Comma,
    Semicolon,
    Bar,
    End,
}

/// The name of a product.
pub(crate) fn is_product(name: &[u8]) -> bool
    ensures { result ≡ is_one_of products name.now }
{
    name == b"*".as_slice()
        || name == b"//".as_slice()
        || name == b"mod".as_slice()
        || name == b"rem".as_slice()
}

/// The name of a sum.
pub(crate) fn is_sum(name: &[u8]) -> bool
    ensures { result ≡ is_one_of sums name.now }
{
    name == b"+".as_slice() || name == b"-".as_slice()
}

/// The name of a relation.
pub(crate) fn is_relation(name: &[u8]) -> bool
    ensures { result ≡ is_one_of relations name.now }
{
    name == b"=".as_slice()
        || name == b"is".as_slice()
        || name == b"<".as_slice()
        || name == b">".as_slice()
        || name == b"=<".as_slice()
        || name == b">=".as_slice()
        || name == b"=:=".as_slice()
        || name == b"=\\=".as_slice()
}

/// The symbol between a head and its body.
pub(crate) fn is_neck(name: &[u8]) -> bool
    ensures { result ≡ bytes_eq name.now (codes ":-") }
{
    name == b":-".as_slice()
}

/// The symbol between the head and the body of a grammar rule.
pub(crate) fn is_arrow(name: &[u8]) -> bool
    ensures { result ≡ bytes_eq name.now (codes "-->") }
{
    name == b"-->".as_slice()
}

/// The symbol that begins a query.
pub(crate) fn is_query(name: &[u8]) -> bool
    ensures { result ≡ bytes_eq name.now (codes "?-") }
{
    name == b"?-".as_slice()
}

/// A symbol that is no atom.
pub(crate) fn is_reserved(name: &[u8]) -> bool
    ensures { result ≡ is_reserved name.now }
{
    is_neck(name) || is_arrow(name) || is_query(name)
}

/// An operator other than the minus.
fn is_operator(name: &[u8]) -> bool
    ensures { result ≡ is_operator name.now }
{
    name == b":-".as_slice()
        || name == b"-->".as_slice()
        || name == b"+".as_slice()
        || is_product(name)
        || is_relation(name)
}

/// What comes next, seen from a minus; `None` for a bracket right behind it.
fn before_token(bytes: &[u8], token: &Token) -> Option<Before>
    requires ordered { token.now.start ≤ token.now.end }
    requires within { token.now.end ≤ length bytes.now }
    ensures { seen_of result
        ≡ before_kind bytes.now (token_of token.now) (kind_of token.now.kind) }
{
    match token.kind {
        Kind::Variable | Kind::Quoted | Kind::OpenList | Kind::OpenBrace => Some(Before::Operand),
        Kind::Name | Kind::Symbol => {
            if is_operator(&bytes[token.start..token.end]) {
                Some(Before::Stop)
            } else {
                Some(Before::Operand)
            }
        }
        Kind::Integer(_) => {
            if token.layout_before {
                Some(Before::Operand)
            } else {
                Some(Before::Integer)
            }
        }
        Kind::Open => {
            if token.layout_before {
                Some(Before::Operand)
            } else {
                None
            }
        }
        Kind::Close
        | Kind::CloseList
        | Kind::CloseBrace
        | Kind::Comma
        | Kind::Semicolon
        | Kind::Bar
        | Kind::End => Some(Before::Stop),
    }
}

fn before_answer(bytes: &[u8], next: &Result<Option<Token>, LexFault>) -> Option<Before>
    requires { IsWithin bytes.now next.now }
    ensures { seen_of result ≡ before bytes.now [] (answer_of next.now) }
{
    match next {
        Ok(None) => Some(Before::Stop),
        Ok(Some(token)) => before_token(bytes, token),
        Err(_) => Some(Before::Operand),
    }
}

/// The word that an unquoted symbol is.
fn symbol_word<'a>(
    bytes: &'a [u8],
    symbol: &'a [u8],
    next: &Result<Option<Token>, LexFault>,
) -> Word<'a>
    requires { IsWithin bytes.now next.now }
    ensures word { (t : Tokens.Token)
        → symbol.now ≡ bytes_of bytes.now t
        → IsWord bytes.now t (before bytes.now [] (answer_of next.now))
        symbol_kind (word_of result) }
    ensures fits { IsFit (word_of result) }
{
    if symbol != b"-".as_slice() {
        return Word::Name(symbol);
    }
    match before_answer(bytes, next) {
        Some(before) => Word::Minus(before),
        None => Word::Name(symbol),
    }
}

/// The word that a token of the text is, where the other comes next. An error is want of memory.
pub(crate) fn word_of<'a>(
    alloc: Global,
    bytes: &'a [u8],
    token: &Token,
    next: &Result<Option<Token>, LexFault>,
) -> Result<Word<'a>, AllocError>
    requires token { IsWithin bytes.now (Ok (Some token.now)) }
    requires next { IsWithin bytes.now next.now }
    requires comes { (place : ℕ) × Comes bytes.now place (one (token_of token.now)) }
    ensures word { IfOk result (λ w. IsWord bytes.now (token_of token.now)
        (before bytes.now [] (answer_of next.now)) (kind_of token.now.kind) (word_of w)) }
    ensures fits { IfOk result (λ w. IsFit (word_of w)) }
{
    let written = &bytes[token.start..token.end];
    match token.kind {
        Kind::Variable => Ok(Word::Variable(written)),
        Kind::Name => Ok(Word::Name(written)),
        Kind::Quoted => Ok(Word::Quoted(quoted_text(alloc, written)?)),
        Kind::Symbol => Ok(symbol_word(bytes, written, next)),
        Kind::Integer(value) => Ok(Word::Integer(value)),
        Kind::Open => Ok(Word::OpenBracket {
            behind: !token.layout_before,
        }),
        Kind::Close => Ok(Word::CloseBracket),
        Kind::OpenList => Ok(Word::OpenList),
        Kind::CloseList => Ok(Word::CloseList),
        Kind::OpenBrace => Ok(Word::OpenBrace),
        Kind::CloseBrace => Ok(Word::CloseBrace),
        Kind::Comma => Ok(Word::Comma),
        Kind::Semicolon => Ok(Word::Semicolon),
        Kind::Bar => Ok(Word::Bar),
        Kind::End => Ok(Word::End),
    }
}

/// What the first word of a clause begins.
#[derive(Clone, Copy)]
pub(crate) enum First {
    Query,
    Directive,
    Other,
}

/// What a first word begins.
pub(crate) fn start_of(word: &Word) -> First
    ensures { result ≡ first_of (word_of word.now) }
{
    match word {
        Word::Name(name) => {
            if is_query(name) {
                First::Query
            } else if is_neck(name) {
                First::Directive
            } else {
                First::Other
            }
        }
        Word::Variable(_)
        | Word::Integer(_)
        | Word::Quoted(_)
        | Word::Minus(_)
        | Word::OpenBracket { .. }
        | Word::CloseBracket
        | Word::OpenList
        | Word::CloseList
        | Word::OpenBrace
        | Word::CloseBrace
        | Word::Comma
        | Word::Semicolon
        | Word::Bar
        | Word::End => First::Other,
    }
}

/// Whether the word closes a list.
pub(crate) fn closes_list(word: &Word) -> bool
    ensures { result ≡ closes_list (word_of word.now) }
{
    matches!(word, Word::CloseList)
}

/// Whether the word is a bracket right behind the word before it.
pub(crate) fn is_behind(word: &Word) -> bool
    ensures { result ≡ is_functor_bracket (word_of word.now) }
{
    matches!(word, Word::OpenBracket { behind: true })
}
