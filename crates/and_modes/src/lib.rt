//! Modes: which arguments of a program's calls are known to be ground, or integers.
//!
//! `specs/Modes` says what an assignment of levels promises, which one is the greatest, and which
//! arithmetic goals may wait under it. `infer` finds the greatest, and `verdict` the first variable
//! that a goal may wait for.
#![tactic(auto)]

pub mod assignment;
mod callers;
pub mod demands;
pub mod inference;
mod known;
pub mod level;
mod variables;
pub mod verdicts;
pub mod waiting;
mod worklist;

ghost use Rattle.and_modes.specs.Modes.{Assignment};

pub use assignment::Modes;
pub use inference::infer;
pub use level::{Level, Side};
pub use waiting::verdict;
