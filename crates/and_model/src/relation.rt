//! The relations by which a comparison tests two numbers.

/// What a comparison asks of its left number and its right one.
#[derive(Clone, Copy, PartialEq, Eq, Hash, Debug)]
pub enum Relation {
    /// The left is below the right, `<`.
    Less,
    /// The left is above the right, `>`.
    Greater,
    /// The left is at most the right, `=<`.
    AtMost,
    /// The left is at least the right, `>=`.
    AtLeast,
    /// The two are the same number, `=:=`.
    Same,
    /// The two are different numbers, `=\=`.
    Differs,
}
