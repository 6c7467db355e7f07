//! Keys of first arguments.

use and_model::NameNo;

/// What a term that is no variable begins with.
#[derive(Clone, Copy, PartialEq, Eq, Hash, Debug)]
pub enum Key {
    /// An atom or a compound: its name, and how many arguments it has.
    Name {
        /// The name.
        name: NameNo,
        /// How many arguments, 0 for an atom.
        count: u8,
    },
    /// An integer.
    Number(i64),
}
