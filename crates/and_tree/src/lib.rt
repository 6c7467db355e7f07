//! The choicepoint tree of a search by several teams: branches lie under their keys in the hands of
//! teams, or open in cells, where any team may take them.
//!
//! [`PlainTree`] is the tree of one thread. [`Tree`] is shared by teams that run at the same time,
//! without locks.
#![tactic(auto)]

mod calls;
mod closing;
mod counts;
mod hand;
mod keyed;
mod laws;
mod opening;
mod pass;
mod places;
mod plain;
mod plays;
mod replies;
mod rule;
mod steps;
mod tree;
mod view;
mod words;

pub use closing::ClosedTree;
pub use counts::Counts;
pub use keyed::{Forking, Keyed};
pub use laws::{hands_after_calls, passes_at_the_opening};
pub use pass::{TreePass, TreePassList};
pub use plain::PlainTree;
pub use replies::{CellSeen, Claimed, Last, Published};
pub use tree::Tree;
pub use words::{CELLS_PER_TEAM, LAST_SERIAL};
