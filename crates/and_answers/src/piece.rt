//! A code or a line, kept as what it has behind another one.

ghost use Rattle.std.specs.Prelude.{◌+◌, ◌<◌, ◌^◌, length};

use and_model::{Code, Text};

/// A code, as what it has behind the one before it.
#[derive(Drop)]
pub(crate) struct Piece {
    /// How many clauses it has from the one before it.
    pub common: usize,
    /// Its clauses behind these.
    pub rest: Code,
    ghost fits: { common + length rest < 2 ^ 64 },
}

/// A line, as what it has behind the one before it.
#[derive(Drop)]
pub(crate) struct LinePiece {
    /// How many bytes it has from the one before it.
    pub common: usize,
    /// Its bytes behind these.
    pub rest: Text,
}
