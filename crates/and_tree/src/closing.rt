//! How a tree is closed.

ghost use Rattle.std.specs.Prelude.{◌≡◌, ◌≢◌, ◌∷◌, [], length, All};
ghost use Rattle.and_tree.specs.Counted.{tally};
ghost use Rattle.std.specs.Slots.{IsFull};
ghost use Rattle.and_tree.specs.Ended.{Closes, IsGathered, history_in, tally_of_all};

use crate::counts::Counts;
use crate::keyed::Keyed;
use crate::pass::{TreePass, TreePassList};
use crate::plays::Gathers;
use crate::tree::Tree;
use crate::view::View;
use atomic_table::{Badge, Closed, Seat};
use std::alloc::Global;
use std::snapshot::Snapshot;

/// What a tree leaves.
pub struct ClosedTree {
    /// How many forks were made, and how many keys ended in each way.
    pub counts: Counts,
    /// What the passes have seen. It takes no memory.
    pub(crate) last: Snapshot<Badge<View>>,
}

// By hand, so that it is proved once, here.
impl Drop for ClosedTree {
    fn drop(self) {
        let ClosedTree { counts: _, last: _ } = self;
    }
}

/// Drops what lies in the slots.
fn discard<B: Drop>(table: Closed<Option<B>, Global>)
    requires { IsFull table.slots }
{
    let mut table = table;
    for slot in 0..table.slot_count() {
        drop(table.take(slot));
    }
    table.free();
}

impl<B: Keyed + Drop> Tree<B> {
    /// One seat that has taken in those of all passes, and what all their calls count.
    fn gather(&self, mut passes: TreePassList<B>) -> (Seat<Option<B>, View>, Counts)
        requires some { passes ≢ [] }
        requires tree { All (λ p. p.tree ≡ self.now) passes }
        ensures same { (result.0.table_id ≡ self.now.table) × (result.0.me.1 ≡ []) }
        ensures gathered { IsGathered self.now.about result.0.me.0 passes }
        ensures counts { tally result.1 ≡ tally_of_all passes }
    {
        let TreePass {
            seat: mut all,
            team: _,
            mut counts,
        } = match passes.pop() {
            Some(last) => last,
            None => unreachable!(),
        };
        while let Some(pass) = passes.pop() {
            let TreePass {
                mut seat,
                team: _,
                counts: of_pass,
            } = pass;
            self.table.shared.join_seat::<Gathers>(&mut seat, all);
            counts.add(&of_pass);
            all = seat;
        }
        (all, counts)
    }

    /// Closes a tree, with all its passes. Branches that are still open are dropped. Takes no memory.
    pub fn close(self, passes: TreePassList<B>) -> ClosedTree
        requires tree { All (λ p. p.tree ≡ self) passes }
        requires all { length passes ≡ self.about.teams }
        ensures { Closes self.about passes (history_in result.last.value.views) (tally result.counts) }
    {
        let (seat, counts) = self.gather(passes);
        let badge = seat.into_badge();
        let last = Snapshot::of(&badge);
        let Tree { table, teams: _ } = self;
        discard(table.close_with(badge.into_seat()));
        ClosedTree { counts, last }
    }
}
