//! Grammar rules as clauses.
//!
//! `translate` makes a draft of the clause for which the draft of a rule `HEAD --> BODY` stands, by
//! threading states through its body.
#![tactic(auto)]

mod bodies;
mod checking;
mod copying;
mod counting;
pub mod fault;
mod plain;
mod threading;
mod translating;

pub use fault::RuleFault;
pub use translating::translate;
