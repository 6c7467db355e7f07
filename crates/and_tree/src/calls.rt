//! The calls that a team makes with its pass.

ghost use Rattle.std.specs.Prelude.{◌≡◌, ◌+◌, ◌++◌, ◌*◌, ◌<◌, ◌≤◌, ◌∷◌, [], ℕ, length, Contains, Some, None};
ghost use Rattle.and_model.specs.Prefixes.{IsPrefix};
ghost use Rattle.and_histories.specs.PlainTree.{Event, Reply, Key, Owns, Ending, last_serial};
ghost use Rattle.and_tree.specs.Counted.{ending_of, with_last};
ghost use Rattle.and_tree.specs.Few.{most_in_hand};
ghost use Rattle.and_tree.specs.Passes.{Makes, Takes, Hears, Meets};
ghost use Rattle.and_tree.specs.Replies.{seen_of, is_last};
ghost use Rattle.and_tree.specs.Sight.{mine_of, opening_cell, clearing_cell};
ghost use Rattle.and_tree.specs.Told.{CanCall, CallTold};

use crate::counts::Ended;
use crate::keyed::{Forking, Keyed};
use crate::pass::TreePass;
use crate::plays::{Notes, Tells};
use crate::replies::{CellSeen, Claimed, Last, Published};
use crate::tree::Tree;
use crate::view::View;
use crate::words::{FREE, LAST_SERIAL, OPEN, content_in, seen_in_word, serial_in, word_of};
use and_model::{ClauseNo, Code};
use atomic_table::Seat;
use std::marker::Brand;
use std::snapshot::Snapshot;

impl<B: Keyed + Drop> Tree<B> {
    /// Puts a branch into the slot of a cell of its own that was found free, and opens the cell.
    fn put_in(&self, seat: &mut Seat<Option<B>, View>, cell: u32, serial: u64, branch: B)
        requires same { seat.old.table_id ≡ self.now.table }
        requires can { CanCall self.now.about seat.old.me.0
            (Event.publish (mine_of seat.old.me.0).team cell (B.key_of branch)) }
        requires works { (before : ℕ) × ((mine_of seat.old.me.0).work ≡ opening_cell cell before)
            × (serial ≡ before + 1) × (serial ≤ last_serial) }
        requires slot { seat.old.me.1 ≡ (cell, None) ∷ [] }
        requires stands { B.Stands self.now.about.limit branch }
        ensures same { seat.new.table_id ≡ seat.old.table_id }
        ensures told { (found : ℕ)
            × CallTold (Event.publish (mine_of seat.old.me.0).team cell (B.key_of branch))
            seat.old.me.0 found seat.new.me.0
            × (seat.new.me.1 ≡ []) }
    {
        let _empty = self
            .table
            .shared
            .exchange(seat, cell as usize, Some(branch));
        self.open_cell::<Brand>(seat, cell, serial);
    }

    /// Takes the branch out of the slot of a cell that it claimed, and clears the cell.
    fn take_out(&self, seat: &mut Seat<Option<B>, View>, cell: u32, serial: u64) -> B
        requires same { seat.old.table_id ≡ self.now.table }
        requires can { CanCall self.now.about seat.old.me.0 (Event.clear (mine_of seat.old.me.0).team cell) }
        requires works { (mine_of seat.old.me.0).work ≡ clearing_cell cell serial }
        requires slot { (branch : B) × (seat.old.me.1 ≡ (cell, Some branch) ∷ []) }
        requires serial { serial ≤ last_serial }
        ensures same { seat.new.table_id ≡ seat.old.table_id }
        ensures told { (found : ℕ)
            × CallTold (Event.clear (mine_of seat.old.me.0).team cell) seat.old.me.0 found seat.new.me.0
            × (seat.new.me.1 ≡ []) }
        ensures branch { seat.old.me.1 ≡ (cell, Some result) ∷ [] }
    {
        let taken = self.table.shared.exchange(seat, cell as usize, None);
        self.clear_cell::<Brand>(seat, cell, serial);
        match taken {
            Some(branch) => branch,
            None => unreachable!(),
        }
    }

    /// Ends a key in hand: this one, with a clause at its end if there is one. Only contracts read it.
    fn end(
        &self,
        pass: &mut TreePass<B>,
        longer: &Snapshot<Code>,
        last: Option<ClauseNo>,
        how: Ended,
    ) -> Last
        requires tree { pass.old.tree ≡ self.now }
        requires hand { Contains pass.old.hand (with_last longer.now.value last) }
        ensures { Makes (Event.end pass.old.team (with_last longer.now.value last) (ending_of how))
            (Reply.last (is_last result)) pass.old pass.new }
    {
        let found = self.take_from_live::<Brand>(&mut pass.seat, longer, last, how);
        pass.counts.count_end(how);
        if found == 1 { Last::Yes } else { Last::No }
    }

    /// Tells a pass what another has seen.
    fn tell(&self, pass: &mut TreePass<B>, other: &mut TreePass<B>)
        requires tree { (pass.old.tree ≡ self.now) × (other.old.tree ≡ self.now) }
        ensures told { Hears pass.old pass.new × IsPrefix other.old.seen pass.new.seen }
        ensures same { other.new ≡ other.old }
    {
        let note = self.table.shared.split_seat::<Notes>(&mut other.seat);
        self.table.shared.join_seat::<Tells>(&mut pass.seat, note);
        self.learn(&mut pass.seat);
    }

    /// Puts the keys of the children of a branch that is split in the place of its key. Takes no
    /// memory.
    pub fn fork<S: Forking>(&self, pass: &mut TreePass<B>, split: &S)
        requires tree { pass.old.tree ≡ self.now }
        requires hand { Contains pass.old.hand (S.fork_of split.now).key }
        requires longer { IsPrefix (S.fork_of split.now).key (S.fork_of split.now).longer }
        requires is_fork { B.IsFork self.now.about.limit (S.fork_of split.now) }
        requires few { length pass.old.hand + length (S.fork_of split.now).clauses ≤ most_in_hand }
        ensures { Makes (Event.fork pass.old.team (S.fork_of split.now).key (S.fork_of split.now).longer
            (S.fork_of split.now).clauses) Reply.forked
            pass.old pass.new }
    {
        self.add_to_live::<Brand, S>(&mut pass.seat, split);
        pass.counts.count_fork();
    }

    /// Opens one of the team's own cells with a branch whose key it has in hand. The branch is handed
    /// back where the cell is not free, or is used up. Takes no memory.
    pub fn publish(&self, pass: &mut TreePass<B>, cell: u32, branch: B) -> Published<B>
        requires tree { pass.old.tree ≡ self.now }
        requires stands { B.Stands self.now.about.limit branch }
        requires hand { Contains pass.old.hand (B.key_of branch) }
        requires own { Owns pass.old.team cell }
        ensures done { result ≡ Published.Done
            → Makes (Event.publish pass.old.team cell (B.key_of branch)) Reply.done pass.old pass.new }
        ensures not_free { (back : B) (seen : CellSeen) → result ≡ Published.NotFree back seen
            → (back ≡ branch) × Makes (Event.publish pass.old.team cell (B.key_of branch))
            (Reply.not_free (seen_of seen)) pass.old pass.new }
        ensures spent { (back : B) → result ≡ Published.Spent back
            → (back ≡ branch) × Makes (Event.publish pass.old.team cell (B.key_of branch))
            Reply.spent pass.old pass.new }
    {
        let found = self.load_to_publish::<Brand>(&mut pass.seat, cell, &branch);
        if serial_in(found) == LAST_SERIAL {
            return Published::Spent { branch };
        }
        if content_in(found) != FREE {
            let seen = seen_in_word(found);
            return Published::NotFree { branch, seen };
        }
        self.put_in(&mut pass.seat, cell, serial_in(found) + 1, branch);
        Published::Done
    }

    /// Looks at a cell. Takes no memory.
    pub fn look(&self, pass: &mut TreePass<B>, cell: u32) -> CellSeen
        requires tree { pass.old.tree ≡ self.now }
        requires cell { cell < 8 * self.now.about.teams }
        ensures { Makes (Event.look pass.old.team cell) (Reply.seen (seen_of result)) pass.old pass.new }
    {
        let found = self.look_at_cell::<Brand>(&mut pass.seat, cell);
        seen_in_word(found)
    }

    /// Claims what lies open in a cell under this serial: its key joins the team's hand, and the cell
    /// is cleared. Else the call tells what is there. Takes no memory.
    pub fn claim(&self, pass: &mut TreePass<B>, cell: u32, serial: u64) -> Claimed<B>
        requires tree { pass.old.tree ≡ self.now }
        requires cell { cell < 8 * self.now.about.teams }
        ensures taken { (branch : B) → result ≡ Claimed.Taken branch
            → B.Stands self.now.about.limit branch × Takes cell serial (B.key_of branch) pass.old pass.new }
        ensures moved { (seen : CellSeen) → result ≡ Claimed.Moved seen
            → Makes (Event.claim pass.old.team cell serial) (Reply.moved (seen_of seen)) pass.old pass.new }
    {
        if serial > LAST_SERIAL {
            let found = self.claim_in_vain::<Brand>(&mut pass.seat, cell, serial);
            return Claimed::Moved(seen_in_word(found));
        }
        let found = self.claim_cell::<Brand>(&mut pass.seat, cell, serial, pass.team);
        if found != word_of(serial, OPEN) {
            return Claimed::Moved(seen_in_word(found));
        }
        Claimed::Taken(self.take_out(&mut pass.seat, cell, serial))
    }

    /// Ends a key in hand: its branch has answered. Takes no memory.
    pub fn answer(&self, pass: &mut TreePass<B>, key: &Code) -> Last
        requires tree { pass.old.tree ≡ self.now }
        requires hand { Contains pass.old.hand key.now }
        ensures { Makes (Event.end pass.old.team key.now Ending.answered)
            (Reply.last (is_last result)) pass.old pass.new }
    {
        self.end(pass, &Snapshot::of(key), None, Ended::Answered)
    }

    /// Ends a key in hand: its branch has failed or outgrown the limit. Takes no memory.
    pub fn retire(&self, pass: &mut TreePass<B>, key: &Code) -> Last
        requires tree { pass.old.tree ≡ self.now }
        requires hand { Contains pass.old.hand key.now }
        ensures { Makes (Event.end pass.old.team key.now Ending.retired)
            (Reply.last (is_last result)) pass.old pass.new }
    {
        self.end(pass, &Snapshot::of(key), None, Ended::Retired)
    }

    /// Ends a key in hand, for want of memory. Takes no memory.
    pub fn give_up(&self, pass: &mut TreePass<B>, key: &Snapshot<Code>) -> Last
        requires tree { pass.old.tree ≡ self.now }
        requires hand { Contains pass.old.hand key.now.value }
        ensures { Makes (Event.end pass.old.team key.now.value Ending.given_up)
            (Reply.last (is_last result)) pass.old pass.new }
    {
        self.end(pass, key, None, Ended::GivenUp)
    }

    /// Ends a key in hand, for want of memory: that of a child by this clause, which need not have been
    /// made. Takes no memory.
    pub fn give_up_child(
        &self,
        pass: &mut TreePass<B>,
        longer: &Snapshot<Code>,
        clause: ClauseNo,
    ) -> Last
        requires tree { pass.old.tree ≡ self.now }
        requires hand { Contains pass.old.hand (longer.now.value ++ clause.0 ∷ []) }
        ensures { Makes (Event.end pass.old.team (longer.now.value ++ clause.0 ∷ []) Ending.given_up)
            (Reply.last (is_last result)) pass.old pass.new }
    {
        self.end(pass, longer, Some(clause), Ended::GivenUp)
    }

    /// How many keys are in a hand or open. Takes no memory.
    pub fn left(&self, pass: &mut TreePass<B>) -> u64
        requires tree { pass.old.tree ≡ self.now }
        ensures { Makes (Event.left pass.old.team) (Reply.number result) pass.old pass.new }
    {
        self.load_live::<Brand>(&mut pass.seat)
    }

    /// Tells each of two passes what the other has seen. Takes no memory.
    pub fn meet(&self, one: &mut TreePass<B>, other: &mut TreePass<B>)
        requires tree { (one.old.tree ≡ self.now) × (other.old.tree ≡ self.now) }
        ensures { Meets one.old other.old one.new other.new }
    {
        self.tell(one, other);
        self.tell(other, one);
    }
}
