//! The steps of a pass on the table, one atomic step each.

ghost use Rattle.std.specs.Prelude.{◌≡◌, ◌≢◌, ◌⊎◌, ◌+◌, ◌*◌, ◌<◌, ◌≤◌, [], ◌∷◌, Some, None, List, length, ℕ};
ghost use Rattle.and_histories.specs.PlainTree.{Event, Key, last_serial};
ghost use Rattle.and_tree.specs.Counted.{ending_of, with_last};
ghost use Rattle.and_tree.specs.Kept.{word_with};
ghost use Rattle.and_tree.specs.Sight.{mine_of, IsAlone, Work, at_rest, opening_cell, clearing_cell};
ghost use Rattle.and_tree.specs.Told.{CanCall, CallTold, PublishTold, ClaimTold, HasBranch, HearTold, added_by};

use crate::counts::Ended;
use crate::keyed::{Forking, Keyed};
use crate::plays::{Calling, Calls, Claims, Learns, LooksToPublish};
use crate::tree::Tree;
use crate::view::View;
use crate::words::{FIRST_TAKING, FREE, OPEN, word_of};
use and_model::{ClauseNo, Code};
use atomic_table::Seat;
use std::snapshot::Snapshot;

/// One less than so many, and the largest number for none.
fn one_less(clauses: u64) -> u64
    ensures { result ≡ added_by clauses }
{
    clauses.wrapping_sub(1)
}

/// Where the live word is. The word of a cell is one place behind its number.
const LIVE: usize = 0;

impl<B: Keyed + Drop> Tree<B> {
    /// Adds to the live word, for a fork.
    pub(crate) fn add_to_live<C: Calling, S: Forking>(
        &self,
        seat: &mut Seat<Option<B>, View>,
        split: &S,
    )
        requires same { (seat.old.table_id ≡ self.now.table) × (seat.old.me.1 ≡ []) }
        requires can { CanCall self.now.about seat.old.me.0 C.event × ((mine_of seat.old.me.0).work ≡ at_rest) }
        requires forks { C.event
            ≡ Event.fork (mine_of seat.old.me.0).team (S.fork_of split.now).key (S.fork_of split.now).longer
            (S.fork_of split.now).clauses }
        ensures same { seat.new.table_id ≡ seat.old.table_id }
        ensures told { (found : ℕ) × CallTold C.event seat.old.me.0 found seat.new.me.0 × (seat.new.me.1 ≡ []) }
    {
        let more = one_less(split.count() as u64);
        self.table.shared.fetch_add::<Calls<C>>(seat, LIVE, more);
    }

    /// Takes one from the live word, for a key that ends. Answers what was found.
    pub(crate) fn take_from_live<C: Calling>(
        &self,
        seat: &mut Seat<Option<B>, View>,
        longer: &Snapshot<Code>,
        last: Option<ClauseNo>,
        how: Ended,
    ) -> u64
        requires same { (seat.old.table_id ≡ self.now.table) × (seat.old.me.1 ≡ []) }
        requires can { CanCall self.now.about seat.old.me.0 C.event × ((mine_of seat.old.me.0).work ≡ at_rest) }
        requires ends { C.event
            ≡ Event.end (mine_of seat.old.me.0).team (with_last longer.now.value last) (ending_of how) }
        ensures same { seat.new.table_id ≡ seat.old.table_id }
        ensures told { CallTold C.event seat.old.me.0 result seat.new.me.0 × (seat.new.me.1 ≡ []) }
    {
        let _longer = longer;
        let _last = last;
        let _how = how;
        self.table.shared.fetch_sub::<Calls<C>>(seat, LIVE, 1)
    }

    /// Looks how many keys are left.
    pub(crate) fn load_live<C: Calling>(&self, seat: &mut Seat<Option<B>, View>) -> u64
        requires same { (seat.old.table_id ≡ self.now.table) × (seat.old.me.1 ≡ []) }
        requires can { CanCall self.now.about seat.old.me.0 C.event × ((mine_of seat.old.me.0).work ≡ at_rest) }
        requires counts { C.event ≡ Event.left (mine_of seat.old.me.0).team }
        ensures same { seat.new.table_id ≡ seat.old.table_id }
        ensures told { CallTold C.event seat.old.me.0 result seat.new.me.0 × (seat.new.me.1 ≡ []) }
    {
        self.table.shared.load::<Calls<C>>(seat, LIVE)
    }

    /// Sees all that was done.
    pub(crate) fn learn(&self, seat: &mut Seat<Option<B>, View>)
        requires same { (seat.old.table_id ≡ self.now.table) × (seat.old.me.1 ≡ []) }
        requires alone { (seat.old.me.0.members ≡ mine_of seat.old.me.0 ∷ []) × (seat.old.me.0.about ≡ self.now.about) }
        ensures same { seat.new.table_id ≡ seat.old.table_id }
        ensures told { HearTold seat.old.me.0 seat.new.me.0 × (seat.new.me.1 ≡ []) }
    {
        self.table.shared.load::<Learns>(seat, LIVE);
    }

    /// Looks at a cell.
    pub(crate) fn look_at_cell<C: Calling>(
        &self,
        seat: &mut Seat<Option<B>, View>,
        cell: u32,
    ) -> u64
        requires same { (seat.old.table_id ≡ self.now.table) × (seat.old.me.1 ≡ []) }
        requires can { CanCall self.now.about seat.old.me.0 C.event × ((mine_of seat.old.me.0).work ≡ at_rest) }
        requires looks { C.event ≡ Event.look (mine_of seat.old.me.0).team cell }
        ensures same { seat.new.table_id ≡ seat.old.table_id }
        ensures told { CallTold C.event seat.old.me.0 result seat.new.me.0 × (seat.new.me.1 ≡ []) }
    {
        self.table.shared.load::<Calls<C>>(seat, cell as usize + 1)
    }

    /// Claims what is open in a cell under a serial that no cell has.
    pub(crate) fn claim_in_vain<C: Calling>(
        &self,
        seat: &mut Seat<Option<B>, View>,
        cell: u32,
        serial: u64,
    ) -> u64
        requires same { (seat.old.table_id ≡ self.now.table) × (seat.old.me.1 ≡ []) }
        requires can { CanCall self.now.about seat.old.me.0 C.event × ((mine_of seat.old.me.0).work ≡ at_rest) }
        requires claims { C.event ≡ Event.claim (mine_of seat.old.me.0).team cell serial }
        requires above { last_serial < serial }
        ensures same { seat.new.table_id ≡ seat.old.table_id }
        ensures told { CallTold C.event seat.old.me.0 result seat.new.me.0 × (seat.new.me.1 ≡ []) }
    {
        let _serial = serial;
        self.table.shared.load::<Calls<C>>(seat, cell as usize + 1)
    }

    /// Loads the word of a cell of its own, and takes the slot where the cell is free and may be opened.
    pub(crate) fn load_to_publish<C: Calling>(
        &self,
        seat: &mut Seat<Option<B>, View>,
        cell: u32,
        branch: &B,
    ) -> u64
        requires same { (seat.old.table_id ≡ self.now.table) × (seat.old.me.1 ≡ []) }
        requires can { CanCall self.now.about seat.old.me.0 C.event × ((mine_of seat.old.me.0).work ≡ at_rest) }
        requires publishes { C.event ≡ Event.publish (mine_of seat.old.me.0).team cell (B.key_of branch.now) }
        ensures same { seat.new.table_id ≡ seat.old.table_id }
        ensures told { PublishTold cell (B.key_of branch.now) seat.old.me.0 result seat.new.me }
    {
        let _branch = branch;
        self.table
            .shared
            .load::<LooksToPublish<C>>(seat, cell as usize + 1)
    }

    /// Opens a cell of its own, whose slot the pass has, with a branch in it.
    pub(crate) fn open_cell<C: Calling>(
        &self,
        seat: &mut Seat<Option<B>, View>,
        cell: u32,
        serial: u64,
    )
        requires same { seat.old.table_id ≡ self.now.table }
        requires can { CanCall self.now.about seat.old.me.0 C.event }
        requires works { (before : ℕ) × ((mine_of seat.old.me.0).work ≡ opening_cell cell before)
            × (serial ≡ before + 1) × (serial ≤ last_serial) }
        requires branch { (key : Key) × (C.event ≡ Event.publish (mine_of seat.old.me.0).team cell key)
            × HasBranch B.key_of B.Stands self.now.about.limit cell key seat.old.me.1 }
        ensures same { seat.new.table_id ≡ seat.old.table_id }
        ensures told { (found : ℕ) × CallTold C.event seat.old.me.0 found seat.new.me.0 × (seat.new.me.1 ≡ []) }
    {
        let word = word_of(serial, OPEN);
        self.table
            .shared
            .store::<Calls<C>>(seat, cell as usize + 1, word);
    }

    /// Claims what is open in a cell under this serial, and takes the slot.
    pub(crate) fn claim_cell<C: Calling>(
        &self,
        seat: &mut Seat<Option<B>, View>,
        cell: u32,
        serial: u64,
        team: u32,
    ) -> u64
        requires same { (seat.old.table_id ≡ self.now.table) × (seat.old.me.1 ≡ []) }
        requires can { CanCall self.now.about seat.old.me.0 C.event × ((mine_of seat.old.me.0).work ≡ at_rest) }
        requires claims { C.event ≡ Event.claim (mine_of seat.old.me.0).team cell serial }
        requires serial { serial ≤ last_serial }
        requires team { (team ≡ (mine_of seat.old.me.0).team) × (team < 16) }
        ensures same { seat.new.table_id ≡ seat.old.table_id }
        ensures told { ClaimTold B.key_of B.Stands cell serial seat.old.me.0 result seat.new.me }
    {
        let open = word_of(serial, OPEN);
        let taking = word_of(serial, FIRST_TAKING + team as u64);
        self.table
            .shared
            .compare_exchange::<Claims<C>>(seat, cell as usize + 1, open, taking)
    }

    /// Clears a cell that the pass is taking, whose slot it has, empty.
    pub(crate) fn clear_cell<C: Calling>(
        &self,
        seat: &mut Seat<Option<B>, View>,
        cell: u32,
        serial: u64,
    )
        requires same { seat.old.table_id ≡ self.now.table }
        requires can { CanCall self.now.about seat.old.me.0 C.event }
        requires clears { C.event ≡ Event.clear (mine_of seat.old.me.0).team cell }
        requires works { (mine_of seat.old.me.0).work ≡ clearing_cell cell serial }
        requires slot { seat.old.me.1 ≡ (cell, None) ∷ [] }
        requires serial { serial ≤ last_serial }
        ensures same { seat.new.table_id ≡ seat.old.table_id }
        ensures told { (found : ℕ) × CallTold C.event seat.old.me.0 found seat.new.me.0 × (seat.new.me.1 ≡ []) }
    {
        let word = word_of(serial, FREE);
        self.table
            .shared
            .store::<Calls<C>>(seat, cell as usize + 1, word);
    }
}
