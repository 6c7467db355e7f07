//! Which clauses the goals of a branch can still be taken by.
//!
//! [`judge`] tells whether a goal has no candidate, one or more, [`narrow`] the same but for a trial of a clause that
//! alone is left, and [`candidates_of`] all of them ([`candidates_of_several`] of a goal that was judged). They pass
//! over what the index of clauses leaves out, try the others on the cells themselves, unless one is seen to fit or to
//! be apart, and take back what was set.
//! [`watch`] tells the cells on which this rests: while they are free, each candidate stays one. [`Trials::told`] tells
//! those on which two rest that [`narrow`] tried, which are mostly fewer.
#![tactic(auto)]

pub mod judging;
mod parting;
mod rests;
mod seeing;
mod trying;
pub mod watching;

pub use judging::{Judged, Narrowed, candidates_of, candidates_of_several, judge, narrow};
pub use trying::Trials;
pub use watching::watch;
