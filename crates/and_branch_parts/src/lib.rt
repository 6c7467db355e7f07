//! Parts of branches, and what is said of a branch as a whole.
//!
//! The contracts of a branch see it as what it holds (`Held`). Here stand the words that are said of that, with their
//! laws, and the steps that need a part of a branch alone: its goals, its reductions, or what was seen in a round.
#![tactic(auto)]

pub mod finding;
pub mod forking;
pub mod goals;
pub mod reductions;
pub mod rounds;
pub mod settling;
pub mod ways;

pub use finding::{HeavyCall, RoundSoFar, Seen, first_call, is_arithmetic, with_passed};
pub use forking::{Parted, fits, part};
pub use goals::{is_arithmetic_item, is_call, item_of, list_of, push_body_from};
pub use reductions::{add_all, cut_off, push_reduction};
pub use rounds::{Looked, Round};
pub use settling::is_dead;
pub use ways::{Share, Way, turns_back};
