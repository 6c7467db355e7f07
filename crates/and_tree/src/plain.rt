//! The choicepoint tree of one thread.

ghost use Rattle.std.specs.Prelude.{◌≡◌, ◌<◌, ◌≤◌, ◌+◌, [], length, OnOk, OnErr, Ok, IfOk, IfErr, nat_eq};
ghost use Rattle.and_model.specs.Codes.{numbers_of};
ghost use Rattle.and_model.specs.Prefixes.{IsPrefix};
ghost use Rattle.and_histories.specs.PlainTree.{Event, Reply, Ending, Holds, IsTeam, IsCell, Owns, hand_of};
ghost use Rattle.and_tree.specs.Counted.{tally, ending_of};
ghost use Rattle.and_tree.specs.Few.{most_in_hand};
ghost use Rattle.and_tree.specs.Plain.{Turns, Takes, fresh_tree};
ghost use Rattle.and_tree.specs.Replies.{seen_of, is_last};

use crate::counts::{Counts, Ended};
use crate::hand::children_of;
use crate::keyed::Keyed;
use crate::places::Places;
use crate::replies::{CellSeen, Claimed, Last, Published};
use crate::words::LAST_SERIAL;
use and_model::{ClauseList, Code};
use std::alloc::{AllocError, Global};
use std::marker::Model;

/// A choicepoint tree as one thread has it, which plays all teams.
pub struct PlainTree<B: Keyed + Drop> {
    places: Places<B>,
    /// How many keys are in a hand or open.
    left: u64,
    counts: Counts,
    alloc: Global,
}

// By hand, so that it is proved once, here.
impl<B: Keyed + Drop> Drop for PlainTree<B> {
    fn drop(self) {
        let PlainTree {
            places: _,
            left: _,
            counts: _,
            alloc: _,
        } = self;
    }
}

impl<B: Keyed + Drop> Model for PlainTree<B> {
    ghost use Rattle.std.specs.Prelude.{◌≡◌};
    ghost use Rattle.and_histories.specs.PlainTree.{left_of};
    ghost use Rattle.and_tree.specs.Counted.{tally};
    ghost use Rattle.and_tree.specs.Plain.{Plain};

    ghost Value = { Plain };

    ghost view = { λ t. record { limit = t.places.limit; state = t.places.state; tally = tally t.counts } };

    ghost invariant = { λ t. t.left ≡ left_of t.places.state };
}

impl<B: Keyed + Drop> PlainTree<B> {
    /// Opens a tree of so many teams, whose root lies open in the first cell with serial 1. An error is
    /// want of memory, and hands the root back.
    pub fn open(alloc: Global, teams: u32, limit: u32, root: B) -> Result<PlainTree<B>, B>
        requires teams { (0 < teams) × (teams ≤ 16) }
        requires root { B.Stands limit root × (B.key_of root ≡ []) }
        ensures ok { IfOk result (λ tree. tree ≡ fresh_tree limit teams) }
        ensures given_back { IfErr result (λ back. back ≡ root) }
    {
        let places = Places::open(alloc, teams, limit, root)?;
        Ok(PlainTree {
            places,
            left: 1,
            counts: Counts::new(),
            alloc,
        })
    }

    /// Puts the keys of the children of a branch that is split in the place of its key: the longer one, with one of the
    /// clauses behind it. An error is want of memory, and leaves the tree as it was.
    pub fn fork(
        &mut self,
        team: u32,
        key: &Code,
        longer: &Code,
        clauses: &ClauseList,
    ) -> Result<(), AllocError>
        requires hand { Holds self.old.state team key.now }
        requires longer { IsPrefix key.now longer.now }
        requires is_fork { B.IsFork self.old.limit
            (record { key = key.now; longer = longer.now; clauses = numbers_of clauses.now }) }
        requires few { length (hand_of self.old.state team) + length (numbers_of clauses.now) ≤ most_in_hand }
        ensures ok { OnOk result (Turns (Event.fork team key.now longer.now (numbers_of clauses.now)) Reply.forked
            self.old self.new) }
        ensures unchanged { OnErr result (self.new ≡ self.old) }
    {
        let children = children_of(self.alloc, longer, clauses)?;
        // More keys than a number of 64 bits counts would take more memory than there is.
        let Some(left) = self.left.checked_add(children.len() as u64) else {
            return Err(AllocError);
        };
        self.places.put_in_place(team, key, children)?;
        self.left = left - 1;
        self.counts.count_fork();
        Ok(())
    }

    /// Opens one of the team's own cells with a branch whose key it has in hand. The branch is handed
    /// back where the cell is not free, or is used up. Takes no memory.
    pub fn publish(&mut self, team: u32, cell: u32, branch: B) -> Published<B>
        requires team { IsTeam self.old.state team }
        requires stands { B.Stands self.old.limit branch }
        requires hand { Holds self.old.state team (B.key_of branch) }
        requires own { Owns team cell }
        ensures done { result ≡ Published.Done
            → Turns (Event.publish team cell (B.key_of branch)) Reply.done self.old self.new }
        ensures not_free { (back : B) (seen : CellSeen) → result ≡ Published.NotFree back seen
            → (back ≡ branch) × Turns (Event.publish team cell (B.key_of branch))
            (Reply.not_free (seen_of seen)) self.old self.new }
        ensures spent { (back : B) → result ≡ Published.Spent back
            → (back ≡ branch) × Turns (Event.publish team cell (B.key_of branch)) Reply.spent self.old self.new }
    {
        if self.places.own_serial(team, cell) == LAST_SERIAL {
            return Published::Spent { branch };
        }
        let seen = self.places.seen(cell);
        if seen != CellSeen::Free {
            return Published::NotFree { branch, seen };
        }
        self.places.take_out(team, branch.key());
        self.places.open_cell(cell, branch);
        Published::Done
    }

    /// Looks at a cell. Takes no memory.
    pub fn look(&mut self, team: u32, cell: u32) -> CellSeen
        requires team { IsTeam self.old.state team }
        requires cell { IsCell self.old.state cell }
        ensures { Turns (Event.look team cell) (Reply.seen (seen_of result)) self.old self.new }
    {
        let _team = team;
        self.places.seen(cell)
    }

    /// Claims what lies open in a cell under this serial: its key joins the team's hand, and the cell
    /// is cleared. Else the call tells what is there. An error is want of memory, and leaves the tree as
    /// it was.
    pub fn claim(&mut self, team: u32, cell: u32, serial: u64) -> Result<Claimed<B>, AllocError>
        requires team { IsTeam self.old.state team }
        requires cell { IsCell self.old.state cell }
        ensures taken { (branch : B) → result ≡ Ok (Claimed.Taken branch)
            → B.Stands self.old.limit branch × Takes team cell serial (B.key_of branch) self.old self.new }
        ensures moved { (seen : CellSeen) → result ≡ Ok (Claimed.Moved seen)
            → Turns (Event.claim team cell serial) (Reply.moved (seen_of seen)) self.old self.new }
        ensures unchanged { OnErr result (self.new ≡ self.old) }
    {
        let seen = self.places.seen(cell);
        if seen != (CellSeen::Open { serial }) {
            return Ok(Claimed::Moved(seen));
        }
        let key = self.places.key(cell)?;
        self.places.add(team, key)?;
        let branch = self.places.clear(cell);
        Ok(Claimed::Taken(branch))
    }

    /// Ends a key in hand: its branch has answered. Takes no memory.
    pub fn answer(&mut self, team: u32, key: &Code) -> Last
        requires { Holds self.old.state team key.now }
        ensures { Turns (Event.end team key.now Ending.answered) (Reply.last (is_last result)) self.old self.new }
    {
        self.end(team, key, Ended::Answered)
    }

    /// Ends a key in hand: its branch has failed or outgrown the limit. Takes no memory.
    pub fn retire(&mut self, team: u32, key: &Code) -> Last
        requires { Holds self.old.state team key.now }
        ensures { Turns (Event.end team key.now Ending.retired) (Reply.last (is_last result)) self.old self.new }
    {
        self.end(team, key, Ended::Retired)
    }

    /// Ends a key in hand, for want of memory. Takes no memory.
    pub fn give_up(&mut self, team: u32, key: &Code) -> Last
        requires { Holds self.old.state team key.now }
        ensures { Turns (Event.end team key.now Ending.given_up) (Reply.last (is_last result)) self.old self.new }
    {
        self.end(team, key, Ended::GivenUp)
    }

    /// How many keys are in a hand or open. Takes no memory.
    pub fn left(&mut self, team: u32) -> u64
        requires { IsTeam self.old.state team }
        ensures { Turns (Event.left team) (Reply.number result) self.old self.new }
    {
        let _team = team;
        self.left
    }

    /// Closes the tree, and tells how many forks were made and keys ended in each way. Takes no memory.
    pub fn close(self) -> Counts
        ensures { tally result ≡ self.tally }
    {
        self.counts
    }

    /// Ends a key in hand.
    fn end(&mut self, team: u32, key: &Code, how: Ended) -> Last
        requires { Holds self.old.state team key.now }
        ensures { Turns (Event.end team key.now (ending_of how)) (Reply.last (is_last result)) self.old self.new }
    {
        self.places.take_out(team, key);
        self.left -= 1;
        self.counts.count_end(how);
        last_if(self.left)
    }
}

/// Whether the last key has ended, where so many are left.
fn last_if(left: u64) -> Last
    ensures { is_last result ≡ nat_eq left 0 }
{
    if left == 0 { Last::Yes } else { Last::No }
}
