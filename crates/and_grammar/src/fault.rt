//! Why a rule stands for no clause.

ghost use Rattle.std.specs.Prelude.{◌≡◌};
ghost use Rattle.and_grammar.specs.declared.fault.RuleFault.TheVariants.{Memory};

use std::alloc::{AllocError, AllocFailed};

/// Why a rule stands for no clause.
#[derive(Drop, Debug)]
pub enum RuleFault {
    /// The head or something in the body is what no rule has.
    NotPure,
    /// The head or a nonterminal has no room for two arguments more.
    TooManyArguments,
    Memory,
}

impl From<AllocError> for RuleFault {
    ghost from_gives = { λ _ fault. fault ≡ Memory };

    fn from(_error: AllocError) -> RuleFault {
        RuleFault::Memory
    }
}

impl<T: Drop> From<AllocFailed<T>> for RuleFault {
    ghost from_gives = { λ _ fault. fault ≡ Memory };

    fn from(_error: AllocFailed<T>) -> RuleFault {
        RuleFault::Memory
    }
}
