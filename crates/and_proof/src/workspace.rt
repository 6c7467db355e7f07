//! What the steps of an unfolding work with.

use and_reduction::{Tools, Trail};
use std::alloc::Global;

/// What steps work with, kept by their caller and used again.
pub(crate) struct Workspace {
    pub(crate) tools: Tools,
    /// Nothing is noted on it, since no row is had again.
    pub(crate) trail: Trail,
}

// By hand, so that it is proved once, here.
impl Drop for Workspace {
    fn drop(self) {
        let Workspace { tools: _, trail: _ } = self;
    }
}

impl Workspace {
    /// Nothing was done yet. Takes no memory.
    pub(crate) fn new(alloc: Global) -> Workspace {
        Workspace {
            tools: Tools::new(alloc),
            trail: Trail::none(alloc),
        }
    }
}
