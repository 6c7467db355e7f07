//! Arithmetic: the operations on numbers of 64 bits, and the values of expressions over rows of words.
#![tactic(auto)]

mod chains;
mod glancing;
pub mod laws;
pub mod operations;
mod taken;
pub mod values;
mod walk;

pub use laws::{
    ground_references_have_known_terms, known_terms_are_ground, known_terms_are_in_each_solution,
    known_terms_of_plain_cells_are_theirs,
};
pub use operations::{Operator, apply, compare, negate, operator_of};
pub use values::{Valued, WorkList, value, value_of};
