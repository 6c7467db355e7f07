//! What clauses call, and why tables refuse.

ghost use Rattle.std.specs.Prelude.{◌≡◌};
ghost use Rattle.and_judging.specs.declared.data.TableFault.TheVariants.{Memory};

use and_model::Text;
use and_program::Predicate;
use std::alloc::{AllocError, AllocFailed};

/// A predicate that a clause calls, and the line of the clause.
#[derive(Clone, Copy)]
pub struct Called {
    pub predicate: Predicate,
    pub line: u32,
}

/// What there is too much of.
#[derive(Clone, Copy, PartialEq, Eq, Debug)]
pub enum What {
    Source,
    Clauses,
    Arguments,
    Variables,
    Nodes,
    Nesting,
}

/// Why a table refuses a draft.
#[derive(Drop, Debug)]
pub enum TableFault {
    SecondQuery,
    NotPure,
    /// The head has the name and the number of arguments of what already means something else.
    Redefines { name: Text, arity: u8 },
    TooBig { what: What },
    Memory,
}

/// Why a table is no program.
#[derive(Drop, Debug)]
pub enum SealFault {
    NoQuery,
    /// The first called name and number of arguments without a clause, and the line of its clause.
    Unknown { name: Text, arity: u8, line: u32 },
    Memory,
}

impl From<AllocError> for TableFault {
    ghost from_gives = { λ _ fault. fault ≡ Memory };

    fn from(_error: AllocError) -> TableFault {
        TableFault::Memory
    }
}

impl<T: Drop> From<AllocFailed<T>> for TableFault {
    ghost from_gives = { λ _ fault. fault ≡ Memory };

    fn from(_error: AllocFailed<T>) -> TableFault {
        TableFault::Memory
    }
}

impl From<AllocError> for SealFault {
    ghost use Rattle.and_judging.specs.declared.data.SealFault.{SealFault};

    ghost from_gives = { λ _ fault. fault ≡ SealFault.Memory };

    fn from(_error: AllocError) -> SealFault {
        SealFault::Memory
    }
}
