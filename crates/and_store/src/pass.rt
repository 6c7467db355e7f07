//! Passes: what one worker may do with a store.

ghost use Rattle.std.specs.Prelude.{◌≡◌, List, [], ◌∷◌, ◌++◌, length, IfSome, IfNone, IfErr, OnOk, OnErr};

use crate::view::View;
use atomic_table::Seat;
use std::alloc::Global;
use std::marker::Model;

/// The right of one worker to set words of a store. It remembers what the worker has seen, and keeps
/// the waiters that it took until their goals are handed out.
#[derive(Drop)]
pub struct Pass {
    pub(crate) seat: Seat<(), View>,
    pub(crate) number: u32,
    pub(crate) hung: u32,
    pub(crate) is_refused: bool,
    pub(crate) frames_end: u32,
    pub(crate) taken: Vec<u32>,
    pub(crate) handed: usize,
}

impl Model for Pass {
    ghost use Rattle.std.specs.Prelude.{◌≡◌, [], drop, vec_capacity};
    ghost use Rattle.and_store.specs.Passes.{PassSeen, IsPass};
    ghost use Rattle.and_store.specs.Told.{mine_of};

    ghost Value = { PassSeen };

    ghost view = { λ p. record {
      store = record { table = p.seat.table_id; about = p.seat.me.0.about };
      pass = (mine_of p.seat.me.0).pass;
      kept = drop p.handed p.taken.items;
    } };

    ghost invariant = { λ p. (p.seat.me.1 ≡ [])
        × IsPass p.seat.me.0 p.number p.hung p.is_refused p.frames_end p.taken.items (vec_capacity p.taken) p.handed };
}

/// The passes of a store.
#[derive(Drop)]
pub struct PassList {
    pub(crate) passes: Vec<Pass>,
}

impl Model for PassList {
    ghost use Rattle.std.specs.Prelude.{List};
    ghost use Rattle.and_store.specs.Passes.{PassSeen};

    ghost Value = { List PassSeen };

    ghost view = { λ list. list.passes.items };
}

impl PassList {
    /// The empty list. Takes no memory.
    pub fn new(alloc: Global) -> PassList
        ensures { result ≡ [] }
    {
        PassList {
            passes: Vec::new(alloc),
        }
    }

    /// How many passes it has. Takes no memory.
    pub fn len(&self) -> usize
        ensures { result ≡ length self.now }
    {
        self.passes.len()
    }

    /// Takes out the last pass; `None` where there is none. Takes no memory.
    pub fn pop(&mut self) -> Option<Pass>
        ensures none { IfNone result ((self.old ≡ []) × (self.new ≡ [])) }
        ensures last { IfSome result (λ pass. self.old ≡ self.new ++ pass ∷ []) }
    {
        self.passes.pop()
    }

    /// Puts a pass at the end. An error is want of memory, and hands the pass back.
    pub fn push(&mut self, pass: Pass) -> Result<(), Pass>
        ensures ok { OnOk result (self.new ≡ self.old ++ pass ∷ []) }
        ensures unchanged { OnErr result (self.new ≡ self.old) }
        ensures given_back { IfErr result (λ back. back ≡ pass) }
    {
        self.passes.push(pass).map_err(|refused| refused.value)
    }
}
