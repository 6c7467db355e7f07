//! What a draft is as a clause or as a query of a table, and what is wrong with it.
//!
//! Its names are numbered among those of the table, and its body is read: the tokens of it, what its
//! disjunctions are lifted by, and what it calls. A draft that is refused has a fault, and so has a
//! table whose calls have no clause.
#![tactic(auto)]

mod body;
pub mod data;
mod guesses;
mod items;
mod judging;
mod numbering;
mod sorting;
mod unknown;

pub use body::BodyToken;
pub use data::{Called, SealFault, TableFault, What};
pub use guesses::Guesses;
pub use judging::{Judged, Used, judge_clause, judge_query};
pub use numbering::{built_in_names, note_disjunctions, note_names, number_of, written_names};
pub use sorting::{Disjunction, Outline, Piece, Sorted};
pub use unknown::{append_calls, first_unknown_call, unknown_fault};
