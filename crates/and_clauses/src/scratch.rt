//! Lists that are used again for each clause.

use crate::known::{CallNodes, VariableNodes};
use crate::lifting::Copying;
use and_judging::Guesses;
use and_model::NodeNo;
use std::alloc::Global;

/// Lists that are used again for each clause. What is in them between two clauses means nothing.
pub(crate) struct Scratch {
    pub(crate) guesses: Guesses,
    /// Parts that come next.
    pub(crate) parts: Vec<u32>,
    pub(crate) copying: CopyLists,
}

// By hand, so that it is proved once, here.
impl Drop for Scratch {
    fn drop(self) {
        let Scratch {
            guesses: _,
            parts: _,
            copying: _,
        } = self;
    }
}

/// What comes next of a term that is copied, and the terms that are; and the nodes of variables and of calls that may be
/// taken again.
pub(crate) struct CopyLists {
    pub(crate) pending: Vec<Copying>,
    pub(crate) finished: Vec<NodeNo>,
    pub(crate) variables: VariableNodes,
    pub(crate) calls: CallNodes,
}

// By hand, so that it is proved once, here.
impl Drop for CopyLists {
    fn drop(self) {
        let CopyLists {
            pending: _,
            finished: _,
            variables: _,
            calls: _,
        } = self;
    }
}

impl Scratch {
    /// Empty lists. Takes no memory.
    pub(crate) fn new(alloc: Global) -> Scratch {
        Scratch {
            guesses: Guesses::new(alloc),
            parts: Vec::new(alloc),
            copying: CopyLists {
                pending: Vec::new(alloc),
                finished: Vec::new(alloc),
                variables: VariableNodes::new(alloc),
                calls: CallNodes::new(alloc),
            },
        }
    }
}
