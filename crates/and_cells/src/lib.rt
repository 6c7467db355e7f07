//! Rows of words, each of which is set at most once: the bindings of variables, and numbers.
#![tactic(auto)]

pub mod cells;
pub mod chain;
mod ground;
mod known;
pub mod laws;
pub mod loose;
pub mod naming;
pub mod number;
pub mod plain;

ghost use Rattle.and_cells.specs.Ranges.{IsGoalInRange};
ghost use Rattle.and_cells.specs.Meaning.{IsSettled, equations_of};

pub use cells::{Bound, Cells};
pub use chain::deref;
pub use laws::{one_term_of_a_reference, what_was_set_is_taken_back};
pub use loose::LooseCells;
pub use naming::Naming;
pub use number::{halves, joined};
pub use plain::PlainCells;
