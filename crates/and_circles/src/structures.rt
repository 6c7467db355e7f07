//! Structures that need not be entered again.

ghost use Rattle.std.specs.Prelude.{◌≡◌, [], Contains, IsTrue};
ghost use Rattle.and_model.specs.declared.reference.Ref.{Ref};
ghost use Rattle.and_circles.specs.Marked.{Adds};

use and_model::{NodeNo, Ref};
use std::alloc::{AllocError, Global};
use std::marker::Model;

/// Some of the structures that were left. Each has one slot, where the one that is put last stays, so
/// that nothing is hashed, and no memory is taken where one is put.
#[derive(Drop)]
pub(crate) struct Structures {
    /// In an empty slot stands a number, from which each path ends as well.
    slots: Vec<Ref>,
}

impl Model for Structures {
    ghost use Rattle.std.specs.Prelude.{List};
    ghost use Rattle.and_model.specs.declared.reference.Ref.{Ref};

    ghost Value = { List Ref };

    ghost view = { λ structures. structures.slots.items };
}

impl Structures {
    /// There are none, and no slots. Takes no memory.
    pub(crate) fn new(alloc: Global) -> Structures
        ensures { result ≡ [] }
    {
        Structures {
            slots: Vec::new(alloc),
        }
    }

    /// Makes so many slots. An error is want of memory.
    pub(crate) fn make_slots(&mut self, slots: usize) -> Result<(), AllocError>
        ensures { Adds (Ref.Number 0) self.old self.new }
    {
        if slots <= self.slots.len() {
            return Ok(());
        }
        self.slots.resize(slots, Ref::Number(0))
    }

    /// Whether a structure is seen to be among them. `false` says nothing.
    pub(crate) fn has(&self, node: NodeNo, base: u32) -> bool
        ensures { IsTrue result → Contains self.now (Ref.Node node base) }
    {
        let slot = self.slot(node, base);
        slot < self.slots.len() && self.slots[slot] == Ref::Node { node, base }
    }

    /// Puts a structure into its slot, if there is one.
    pub(crate) fn put(&mut self, node: NodeNo, base: u32)
        ensures { Adds (Ref.Node node base) self.old self.new }
    {
        let slot = self.slot(node, base);
        if slot < self.slots.len() {
            self.slots[slot] = Ref::Node { node, base };
        }
    }

    /// There are none any more, and no slots. Takes no memory, and keeps what was taken.
    pub(crate) fn clear(&mut self)
        ensures { self.new ≡ [] }
    {
        self.slots.clear();
    }

    /// The slot of a structure. Those of one frame stand in it by their nodes.
    fn slot(&self, node: NodeNo, base: u32) -> usize {
        let slots = self.slots.len();
        if slots == 0 {
            return 0;
        }
        (node.0 as usize + base as usize) % slots
    }
}
