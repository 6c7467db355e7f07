//! What is known of an argument's value, and when it is known.

ghost use Rattle.std.specs.Prelude.{◌≡◌, leb};
ghost use Rattle.and_modes.specs.Modes.{rank, higher};

/// How much is known of a term. Each level is above the ones before it.
#[derive(Clone, Copy, PartialEq, Eq, PartialOrd, Ord, Hash, Debug)]
pub enum Level {
    /// It may be any term.
    Any,
    /// It has no variable.
    Ground,
    /// It is an integer.
    Integer,
}

/// The moment of which a level speaks.
#[derive(Clone, Copy, PartialEq, Eq, Hash, Debug)]
pub enum Side {
    /// When a predicate is called.
    Called,
    /// When the call has succeeded.
    Succeeded,
}

/// Whether the one level is above the other, or is the same.
pub(crate) fn is_at_least(high: Level, low: Level) -> bool
    ensures { result ≡ leb (rank low) (rank high) }
{
    match low {
        Level::Any => true,
        Level::Ground => match high {
            Level::Any => false,
            Level::Ground => true,
            Level::Integer => true,
        },
        Level::Integer => match high {
            Level::Any => false,
            Level::Ground => false,
            Level::Integer => true,
        },
    }
}

/// The higher one of two levels.
pub(crate) fn higher(one: Level, other: Level) -> Level
    ensures { result ≡ higher one other }
{
    if is_at_least(other, one) { other } else { one }
}
