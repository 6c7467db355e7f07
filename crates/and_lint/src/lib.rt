//! What is told of a program that can be run, and may still not be meant: variables that occur once,
//! predicates that are never called, arithmetic that can have no value, arithmetic that an equation
//! leaves as a term.
//!
//! `specs/Findings` says what the findings of a program are. `lint` writes them.
#![tactic(auto)]

mod bodies;
mod counting;
mod expressions;
pub mod findings;
pub mod laws;
mod leaving;
mod linting;
mod lone;
mod names;
mod occurring;
mod operators;
mod printing;
mod reaching;
mod walking;

ghost use Rattle.and_lint.specs.Findings.{IsLint};

pub use findings::Findings;
pub use laws::what_is_told_has_no_value;
pub use linting::lint;
