//! Branches of the search (the basic Andorra model: Santos Costa, Warren and Yang, 1991).
//!
//! A [`Branch`] stands for a partial proof. Determinate goals are reduced first, wherever they stand;
//! where there are none, the leftmost goal is forked, with a child for each of its candidates.
#![tactic(auto)]

pub mod advancing;
mod beginning;
pub mod branch;
pub mod choicepoint;
mod copying;
mod making;
mod outline;
pub mod parts;
pub mod rebuilding;
mod reducing;
mod seeking;
mod sleeping;
pub mod state;
pub mod telling;
mod ways;
pub mod workspace;

pub use advancing::FIRST_ROUND;
pub use and_branch_parts::is_call;
pub use branch::{Branch, Rooted};
pub use choicepoint::Choicepoint;
pub use parts::Parts;
pub use rebuilding::{NoRoom, Worked};
pub use state::BranchState;
pub use workspace::Workspace;
