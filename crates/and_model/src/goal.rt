//! Goals that a branch has still to run, the reductions that it has made, and the lists of both.

use crate::list::ListOf;
use crate::numbers::ClauseNo;

/// A goal: an item of a clause's body, in a frame of the clause's variables.
#[derive(Clone, Copy, PartialEq, Eq, Hash, Debug)]
pub struct Goal {
    /// The weight of the tree that stood before this frame was added. It names the place of the
    /// clause in its tree.
    pub node: u32,
    /// The number of the item in the clause's body, from 0.
    pub item: u32,
    /// The clause.
    pub clause: ClauseNo,
    /// The cell at which the frame begins.
    pub base: u32,
}

/// A reduction: a call of the clause at one node of a tree was replaced by the body of a clause,
/// which stands at a node of its own.
#[derive(Clone, Copy, PartialEq, Eq, Hash, Debug)]
pub struct Reduction {
    /// The node whose clause has the call.
    pub parent: u32,
    /// The number of the call in that clause's body, from 0.
    pub item: u32,
    /// The clause by which the call was reduced.
    pub clause: ClauseNo,
    /// The node at which that clause stands.
    pub node: u32,
}

/// The cells of a clause's variables and pairs, by the first of them, and the clause.
#[derive(Clone, Copy, PartialEq, Eq, Debug)]
pub struct Frame {
    pub base: u32,
    pub clause: ClauseNo,
}

/// Where a search was cut off by the limit: a partial tree, an open goal of it, and a candidate of
/// this goal that is too heavy to be added.
///
/// A query that is too heavy by itself has no tree: the list is empty, the clause is 0 and each
/// number of the goal is 0.
#[derive(Drop, Debug)]
pub struct Cut {
    /// The partial tree, by its reductions.
    pub partial: ReductionList,
    /// The candidate.
    pub clause: ClauseNo,
    /// The open goal.
    pub goal: Goal,
}

/// A list of goals.
pub type GoalList = ListOf<Goal>;

/// A list of clauses, by their numbers.
pub type ClauseList = ListOf<ClauseNo>;

/// A list of reductions.
pub type ReductionList = ListOf<Reduction>;

/// A list of the numbers of calls, of which the first is 1.
pub type CallList = ListOf<u64>;
