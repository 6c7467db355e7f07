//! The limits on programs, and on what a search of their answers may take; and who searches.

/// The most bytes of a program's text.
pub const MAX_BYTES: usize = 1_048_576;
/// The most clauses of a program, without the query.
pub const MAX_CLAUSES: usize = 65_535;
/// The most arguments of a term.
pub const MAX_ARGUMENTS: usize = 255;
/// The most variables of a clause.
pub const MAX_VARIABLES: usize = 255;
/// The most nodes of a program's clauses, in which their terms are kept.
pub const MAX_NODES: usize = 524_288;
/// How deep terms of a text may nest.
pub const MAX_NESTING: u32 = 256;
/// The limit on the weight of trees where none is given.
pub const DEFAULT_LIMIT: u32 = 262_144;
/// The greatest limit on the weight of trees.
pub const MAX_LIMIT: u32 = 4_194_304;
/// The most words of a row: a tree has no more than it weighs, and the variables of a clause that is
/// tried stand behind them.
pub const MAX_WORDS: u32 = MAX_LIMIT + 256;
/// The most teams of a search.
pub const MAX_TEAMS: u32 = 16;
/// The most workers of a team.
pub const MAX_WORKERS: u32 = 8;

/// Who searches: so many teams of so many workers.
#[derive(Clone, Copy, Debug, PartialEq, Eq)]
pub struct Hands {
    /// How many teams explore.
    pub teams: u32,
    /// How many workers a team has.
    pub workers: u32,
}
