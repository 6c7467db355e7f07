//! Terms, programs and what their answers are, as definitions for contracts, and the data that the
//! system's crates hand to each other.
#![tactic(auto)]

pub mod builtins;
pub mod code;
pub mod goal;
pub mod laws_of_stores;
pub mod limits;
pub mod list;
pub mod numbers;
pub mod reference;
pub mod relation;
pub mod text;

ghost use Rattle.and_model.specs.Output.{Output};

pub use builtins::{numbers_of_names_are_places, what_is_no_operation_has_no_value};
pub use code::{Code, codes_are_in_total_order};
pub use goal::{CallList, ClauseList, Cut, Frame, Goal, GoalList, Reduction, ReductionList};
pub use laws_of_stores::{a_word_has_one_winner, what_is_known_stays};
pub use list::ListOf;
pub use numbers::{ClauseNo, NameNo, NodeNo};
pub use reference::{Ref, word_read_back, words_tell_references_apart};
pub use relation::Relation;
pub use text::Text;
