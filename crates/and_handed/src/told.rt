//! What a worker hands on.

ghost use Rattle.std.specs.Prelude.{◌≡◌, [], None, false};

use and_model::{Goal, Reduction};
use and_store::Pass;
use and_unify::PairList;
use std::alloc::Global;
use std::snapshot::Snapshot;

/// A reduction that a worker made.
pub struct Reduced {
    pub reduction: Reduction,
    /// The call.
    pub goal: Goal,
    /// The worker's pass, as it was when the call had been judged. Contracts alone see it.
    pub judged: Snapshot<Pass>,
}

// By hand, so that it is proved once, here.
impl Drop for Reduced {
    fn drop(self) {
        let Reduced {
            reduction: _,
            goal: _,
            judged: _,
        } = self;
    }
}

/// Arithmetic that a worker ran.
pub struct Ran {
    pub goal: Goal,
    /// The worker's pass, as it was when the value was known. Contracts alone see it.
    pub judged: Snapshot<Pass>,
}

// By hand, so that it is proved once, here.
impl Drop for Ran {
    fn drop(self) {
        let Ran { goal: _, judged: _ } = self;
    }
}

/// Why a worker found the tree dead.
#[derive(Clone, Copy, PartialEq, Eq, Debug)]
pub enum Cause {
    /// No clause is a candidate of this call.
    NoCandidate(Goal),
    /// What its reductions and its arithmetic ask has no solution.
    NoSolution,
}

/// What a worker hands on: what it did, and what of it is still to be done.
pub struct HandedOn {
    /// The reductions that it made, in order.
    pub made: Vec<Reduced>,
    /// The arithmetic that it ran, in order.
    pub ran: Vec<Ran>,
    /// What its reductions and its arithmetic ask that is still to be made the same term.
    pub pairs: PairList,
    /// Why it called `fail`, where it did.
    pub cause: Option<Cause>,
    /// Whether a word that should have been free was not. Nothing is then rested on what it did.
    pub is_spoilt: bool,
}

// By hand, so that it is proved once, here.
impl Drop for HandedOn {
    fn drop(self) {
        let HandedOn {
            made: _,
            ran: _,
            pairs: _,
            cause: _,
            is_spoilt: _,
        } = self;
    }
}

impl HandedOn {
    /// Nothing was done. Takes no memory.
    pub fn nothing(alloc: Global) -> HandedOn
        ensures { (result.made.items ≡ []) × (result.ran.items ≡ []) × (result.pairs ≡ []) × (result.cause ≡ None)
            × (result.is_spoilt ≡ false) }
    {
        HandedOn {
            made: Vec::new(alloc),
            ran: Vec::new(alloc),
            pairs: PairList::new(alloc),
            cause: None,
            is_spoilt: false,
        }
    }
}

/// How a worker ended: its pass, and what it hands on; nothing where it met want of memory.
#[derive(Drop)]
pub struct Ended {
    pub pass: Pass,
    pub told: Option<HandedOn>,
}
