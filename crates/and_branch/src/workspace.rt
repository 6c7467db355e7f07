//! What branches work with.

use and_determinacy::Trials;
use and_model::{ClauseList, Ref};
use and_reduction::Tools;
use std::alloc::Global;

/// A list of no more clauses is put by,
const SHORT: usize = 8;

/// and no more lists at a time.
const MANY: usize = 64;

/// What branches work with, kept by their caller and used again.
pub struct Workspace {
    pub(crate) trials: Trials,
    pub(crate) tools: Tools,
    pub(crate) candidates: ClauseList,
    /// Lists that are not in use. What stands in them is of no account.
    pub(crate) spares: Vec<ClauseList>,
    pub(crate) visits: Vec<Ref>,
    pub(crate) watched: Vec<u32>,
}

// By hand, so that it is proved once, here.
impl Drop for Workspace {
    fn drop(self) {
        let Workspace {
            trials: _,
            tools: _,
            candidates: _,
            spares: _,
            visits: _,
            watched: _,
        } = self;
    }
}

impl Workspace {
    /// Nothing was done yet. Takes no memory.
    pub fn new(alloc: Global) -> Workspace {
        Workspace {
            trials: Trials::new(alloc),
            tools: Tools::new(alloc),
            candidates: ClauseList::new(alloc),
            spares: Vec::new(alloc),
            visits: Vec::new(alloc),
            watched: Vec::new(alloc),
        }
    }

    /// Puts a list of clauses by, if it is short and few are. Where memory is wanted for that, it is let go of.
    #[inline(always)]
    pub(crate) fn put_by(&mut self, clauses: ClauseList) {
        if clauses.len() <= SHORT && self.spares.len() < MANY {
            let _kept = self.spares.push(clauses);
        }
    }
}

/// A list of clauses: that which was put by last, where there is one. Takes no memory.
#[inline(always)]
pub(crate) fn spare_list(spares: &mut Vec<ClauseList>, alloc: Global) -> ClauseList {
    match spares.pop() {
        Some(list) => list,
        None => ClauseList::new(alloc),
    }
}
