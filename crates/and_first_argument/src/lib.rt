//! Which clauses a call may use, by the key of its first argument.
//!
//! Its user gives [`FirstArguments::of`] the clauses of a predicate in order, each with the key of its
//! head's first argument or as one that every key may use, and asks [`FirstArguments::pick`] for those
//! of a key. Up to 64 keys stand in a [`Switch`], more in a [`KeyIndex`].
#![tactic(auto)]

pub mod first_arguments;
pub mod index;
pub mod key;
mod lists;
pub mod switch;

pub use first_arguments::{Addition, FirstArguments};
pub use index::KeyIndex;
pub use key::Key;
pub use switch::{Switch, SwitchFault};
