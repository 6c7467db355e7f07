//! Pairs of references that are to be made the same term.

ghost use Rattle.std.specs.Prelude.{◌≡◌, ◌<◌, [], ◌∷◌, ◌++◌, length, slice_get, Some, None, OnOk, OnErr};
ghost use Rattle.and_unify.specs.declared.pairs.Pair.{Pair};

use and_model::Ref;
use std::alloc::{AllocError, Global};
use std::marker::Model;

/// Two references that are to be made the same term.
#[derive(Clone, Copy, PartialEq, Eq, Debug)]
pub struct Pair {
    pub left: Ref,
    pub right: Ref,
}

/// A list of pairs. It keeps the allocator that it was made with.
#[derive(Drop, Debug)]
pub struct PairList {
    items: Vec<Pair>,
}

impl Model for PairList {
    ghost use Rattle.std.specs.Prelude.{List};
    ghost use Rattle.and_unify.specs.declared.pairs.Pair.{Pair};

    ghost Value = { List Pair };

    ghost view = { λ list. list.items.items };
}

impl PairList {
    /// The empty list. Takes no memory.
    pub fn new(alloc: Global) -> PairList
        ensures { result ≡ [] }
    {
        PairList {
            items: Vec::new(alloc),
        }
    }

    /// How many pairs it has. Takes no memory.
    pub fn len(&self) -> usize
        ensures { result ≡ length self.now }
    {
        self.items.len()
    }

    /// The pair at a place, counted from 0. Takes no memory.
    pub fn at(&self, place: usize) -> &Pair
        requires { place < length self.now }
        ensures { slice_get self.now place ≡ Some result.now }
    {
        &self.items[place]
    }

    /// Puts a pair at the end. An error is want of memory, and leaves the list as it was.
    pub fn push(&mut self, left: Ref, right: Ref) -> Result<(), AllocError>
        ensures ok { OnOk result (self.new ≡ self.old ++ record { left = left; right = right } ∷ []) }
        ensures unchanged { OnErr result (self.new ≡ self.old) }
    {
        self.items.push(Pair { left, right })?;
        Ok(())
    }

    /// Takes out all pairs. Takes no memory.
    pub fn clear(&mut self)
        ensures { self.new ≡ [] }
    {
        self.items.clear();
    }

    /// Takes out the last pair, if there is one. Takes no memory.
    pub(crate) fn pop(&mut self) -> Option<Pair>
        ensures some { (pair : Pair) → result ≡ Some pair → self.old ≡ self.new ++ pair ∷ [] }
        ensures none { result ≡ None → (self.old ≡ []) × (self.new ≡ []) }
    {
        self.items.pop()
    }
}
