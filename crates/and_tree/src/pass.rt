//! Passes: what one team may do with a shared tree.

ghost use Rattle.std.specs.Prelude.{◌≡◌, List, [], ◌∷◌, ◌++◌, length, IfSome, IfNone, IfErr, OnOk, OnErr};

use crate::counts::Counts;
use crate::view::View;
use atomic_table::Seat;
use std::alloc::Global;
use std::marker::Model;

/// The right of one team to take part in a tree. It remembers what the team has seen and which keys it
/// has in hand; neither takes memory.
#[derive(Drop)]
pub struct TreePass<B> {
    pub(crate) seat: Seat<Option<B>, View>,
    pub(crate) team: u32,
    pub(crate) counts: Counts,
}

impl<B> Model for TreePass<B> {
    ghost use Rattle.std.specs.Prelude.{◌≡◌, []};
    ghost use Rattle.and_tree.specs.Passes.{PassSeen, IsPass};
    ghost use Rattle.and_tree.specs.Sight.{mine_of};
    ghost use Rattle.and_tree.specs.Counted.{tally};

    ghost Value = { PassSeen };

    ghost view = { λ p. record {
      tree = record { table = p.seat.table_id; about = p.seat.me.0.about };
      team = (mine_of p.seat.me.0).team;
      seen = (mine_of p.seat.me.0).seen;
      hand = (mine_of p.seat.me.0).hand;
    } };

    ghost invariant = { λ p. (p.seat.me.1 ≡ []) × IsPass p.seat.me.0 p.team (tally p.counts) };
}

/// The passes of a tree.
#[derive(Drop)]
pub struct TreePassList<B> {
    pub(crate) passes: Vec<TreePass<B>>,
}

impl<B> Model for TreePassList<B> {
    ghost use Rattle.std.specs.Prelude.{List};
    ghost use Rattle.and_tree.specs.Passes.{PassSeen};

    ghost Value = { List PassSeen };

    ghost view = { λ list. list.passes.items };
}

impl<B> TreePassList<B> {
    /// The empty list. Takes no memory.
    pub fn new(alloc: Global) -> TreePassList<B>
        ensures { result ≡ [] }
    {
        TreePassList {
            passes: Vec::new(alloc),
        }
    }

    /// How many passes it has. Takes no memory.
    pub fn len(&self) -> usize
        ensures { result ≡ length self.now }
    {
        self.passes.len()
    }

    /// Takes out the last pass; `None` where there is none. Takes no memory.
    pub fn pop(&mut self) -> Option<TreePass<B>>
        ensures none { IfNone result ((self.old ≡ []) × (self.new ≡ [])) }
        ensures last { IfSome result (λ pass. self.old ≡ self.new ++ pass ∷ []) }
    {
        self.passes.pop()
    }

    /// Puts a pass at the end. An error is want of memory, and hands the pass back.
    pub fn push(&mut self, pass: TreePass<B>) -> Result<(), TreePass<B>>
        ensures ok { OnOk result (self.new ≡ self.old ++ pass ∷ []) }
        ensures unchanged { OnErr result (self.new ≡ self.old) }
        ensures given_back { IfErr result (λ back. back ≡ pass) }
    {
        self.passes.push(pass).map_err(|refused| refused.value)
    }
}
