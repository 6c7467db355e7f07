//! Tokens and faults.

/// What a token is.
#[derive(Clone, Copy, PartialEq, Eq, Debug)]
pub enum Kind {
    Variable,
    Name,
    Quoted,
    Symbol,
    Integer(u64),
    Open,
    Close,
    OpenList,
    CloseList,
    OpenBrace,
    CloseBrace,
    Comma,
    Semicolon,
    Bar,
    End,
}

/// A token of a text: its bytes stand from `start` up to `end`.
#[derive(Clone, Copy, PartialEq, Eq, Debug)]
pub struct Token {
    pub kind: Kind,
    pub start: usize,
    pub end: usize,
    /// Whether layout or a comment stands right before it.
    pub layout_before: bool,
}

/// Why no token can be read, and the place of that.
#[derive(Clone, Copy, PartialEq, Eq, Debug)]
pub enum LexFault {
    Syntax { at: usize },
    NotText { at: usize },
    TooWide { at: usize },
    NotPure { at: usize },
}
