//! The steps of a pass on the table, one atomic step each.

ghost use Rattle.std.specs.Prelude.{◌≡◌, ◌≢◌, ◌+◌, ◌*◌, ◌<◌, ◌≤◌, [], ◌∷◌, length, Some, None, ◌^◌, cond, ℕ};
ghost use Rattle.and_cells.specs.Ranges.{IsGoalInRange};
ghost use Rattle.and_store_laws.specs.AtWork.{over};
ghost use Rattle.and_store_laws.specs.Steps.{next_waiter};
ghost use Rattle.and_store.specs.Kept.{UpperIs, LowerIs};
ghost use Rattle.and_store.specs.Passes.{CanSet, size_of};
ghost use Rattle.and_store.specs.Sight.{opening_of};
ghost use Rattle.and_store.specs.Told.{mine_of, IsAlone, LookTold, BindTold, TakeTold, FrameTold, FailTold};
ghost use Rattle.and_store.specs.Told.{FailedTold, NoteTold, HangTold, GoalTold};

use crate::plays::{
    ClosesPlace, HangsWaiter, LooksAtCell, LooksAtFail, LooksAtGoal, NotesWord, RaisesFail,
    RaisesMark, SetsCell,
};
use crate::store::Store;
use crate::view::View;
use and_cells::Naming;
use and_model::{Goal, Ref};
use atomic_table::Seat;

/// The word of a place that is closed. That of an empty one is 0, and a waiter's is its number and 2.
pub(crate) const CLOSED: u64 = 1;

pub(crate) const EMPTY: u64 = 0;

pub(crate) const FIRST_WAITER: u64 = 2;

impl<N: Naming> Store<N> {
    /// Looks at the word of a cell.
    pub(crate) fn look_at_cell(&self, seat: &mut Seat<(), View>, cell: u32) -> u64
        requires same { seat.old.table_id ≡ self.now.table }
        requires alone { IsAlone seat.old.me.0 × (seat.old.me.1 ≡ []) }
        requires cell { cell < self.now.about.words }
        ensures same { seat.new.table_id ≡ seat.old.table_id }
        ensures told { LookTold N.program cell seat.old.me.0 result seat.new.me.0 × (seat.new.me.1 ≡ []) }
    {
        self.table
            .shared
            .load::<LooksAtCell<N>>(seat, cell as usize)
    }

    /// Sets the word of a cell, if it is free.
    pub(crate) fn set_cell(&self, seat: &mut Seat<(), View>, cell: u32, to: Ref) -> u64
        requires same { seat.old.table_id ≡ self.now.table }
        requires alone { IsAlone seat.old.me.0 × (seat.old.me.1 ≡ []) }
        requires at_rest { (mine_of seat.old.me.0).pending ≡ None }
        requires cell { cell < self.now.about.words }
        requires can { CanSet N.program self.now.about.words cell to (mine_of seat.old.me.0).pass.known }
        ensures same { seat.new.table_id ≡ seat.old.table_id }
        ensures told { BindTold N.program cell to seat.old.me.0 result seat.new.me.0 × (seat.new.me.1 ≡ []) }
    {
        self.table
            .shared
            .compare_exchange::<SetsCell<N>>(seat, cell as usize, Ref::Free.to_word(), to.to_word())
    }

    /// Closes the place of the cell that was set last.
    pub(crate) fn close_place(&self, seat: &mut Seat<(), View>, cell: u32) -> u64
        requires same { seat.old.table_id ≡ self.now.table }
        requires alone { IsAlone seat.old.me.0 × (seat.old.me.1 ≡ []) }
        requires about { seat.old.me.0.about ≡ self.now.about }
        requires pends { (mine_of seat.old.me.0).pending ≡ Some cell }
        requires cell { cell < self.now.about.words }
        ensures same { seat.new.table_id ≡ seat.old.table_id }
        ensures told { TakeTold N.program cell seat.old.me.0 result seat.new.me.0 × (seat.new.me.1 ≡ []) }
    {
        let place = self.words as usize + cell as usize;
        self.table
            .shared
            .swap::<ClosesPlace<N>>(seat, place, CLOSED)
    }

    /// Raises the mark.
    pub(crate) fn raise_mark(&self, seat: &mut Seat<(), View>, weight: u32) -> u64
        requires same { seat.old.table_id ≡ self.now.table }
        requires alone { IsAlone seat.old.me.0 × (seat.old.me.1 ≡ []) }
        requires weight { weight ≤ 4194304 }
        requires none_over { over self.now.about.words (mine_of seat.old.me.0).pass.asked ≡ [] }
        ensures same { seat.new.table_id ≡ seat.old.table_id }
        ensures told { FrameTold N.program weight seat.old.me.0 result seat.new.me.0 × (seat.new.me.1 ≡ []) }
    {
        let mark = self.mark_place();
        self.table
            .shared
            .fetch_add::<RaisesMark<N>>(seat, mark, weight as u64)
    }

    /// Raises the fail word.
    pub(crate) fn raise_fail(&self, seat: &mut Seat<(), View>)
        requires same { seat.old.table_id ≡ self.now.table }
        requires alone { IsAlone seat.old.me.0 × (seat.old.me.1 ≡ []) }
        ensures same { seat.new.table_id ≡ seat.old.table_id }
        ensures told { FailTold N.program seat.old.me.0 seat.new.me.0 × (seat.new.me.1 ≡ []) }
    {
        let fail = self.mark_place() + 1;
        self.table.shared.store::<RaisesFail<N>>(seat, fail, 1);
    }

    /// Looks at the fail word.
    pub(crate) fn look_at_fail(&self, seat: &mut Seat<(), View>) -> u64
        requires same { seat.old.table_id ≡ self.now.table }
        requires alone { IsAlone seat.old.me.0 × (seat.old.me.1 ≡ []) }
        ensures same { seat.new.table_id ≡ seat.old.table_id }
        ensures told { FailedTold N.program seat.old.me.0 result seat.new.me.0 × (seat.new.me.1 ≡ []) }
    {
        let fail = self.mark_place() + 1;
        self.table.shared.load::<LooksAtFail<N>>(seat, fail)
    }

    /// Writes a word of the goal of the pass's next waiter: the upper one first.
    pub(crate) fn note_word(
        &self,
        seat: &mut Seat<(), View>,
        waiter: u32,
        is_lower: bool,
        word: u64,
    )
        requires same { seat.old.table_id ≡ self.now.table }
        requires alone { IsAlone seat.old.me.0 × (seat.old.me.1 ≡ []) }
        requires left { length (mine_of seat.old.me.0).pass.hung < self.now.about.waiters }
        requires waiter { (waiter ≡ next_waiter (opening_of N.program self.now.about) (mine_of seat.old.me.0))
            × (waiter < self.now.about.seats * self.now.about.waiters) }
        requires noted { length seat.old.me.0.noted ≡ cond is_lower 1 0 }
        ensures same { seat.new.table_id ≡ seat.old.table_id }
        ensures told { NoteTold N.program word seat.old.me.0 seat.new.me.0 × (seat.new.me.1 ≡ []) }
    {
        let place = self.goal_place(waiter, is_lower);
        self.table.shared.store::<NotesWord<N>>(seat, place, word);
    }

    /// Hangs the pass's next waiter on a cell, if its place is empty.
    pub(crate) fn hang_waiter(
        &self,
        seat: &mut Seat<(), View>,
        cell: u32,
        waiter: u32,
        goal: &Goal,
    ) -> u64
        requires same { seat.old.table_id ≡ self.now.table }
        requires alone { IsAlone seat.old.me.0 × (seat.old.me.1 ≡ []) }
        requires about { seat.old.me.0.about ≡ self.now.about }
        requires cell { cell < self.now.about.words }
        requires left { length (mine_of seat.old.me.0).pass.hung < self.now.about.waiters }
        requires waiter { waiter ≡ next_waiter (opening_of N.program self.now.about) (mine_of seat.old.me.0) }
        requires noted { (upper : ℕ) × (lower : ℕ) × (seat.old.me.0.noted ≡ upper ∷ lower ∷ [])
            × UpperIs upper goal.now × LowerIs lower goal.now }
        requires in_range { IsGoalInRange N.program self.now.about.words goal.now }
        ensures same { seat.new.table_id ≡ seat.old.table_id }
        ensures told { HangTold N.program cell goal.now seat.old.me.0 result seat.new.me.0 × (seat.new.me.1 ≡ []) }
    {
        let _goal = *goal;
        let place = self.words as usize + cell as usize;
        self.table
            .shared
            .compare_exchange::<HangsWaiter<N>>(seat, place, EMPTY, FIRST_WAITER + waiter as u64)
    }

    /// Looks at a word of the goal of a waiter.
    pub(crate) fn look_at_goal(&self, seat: &mut Seat<(), View>, waiter: u32, is_lower: bool) -> u64
        requires same { seat.old.table_id ≡ self.now.table }
        requires alone { IsAlone seat.old.me.0 × (seat.old.me.1 ≡ []) }
        requires about { seat.old.me.0.about ≡ self.now.about }
        requires waiter { waiter < self.now.about.seats * self.now.about.waiters }
        ensures same { seat.new.table_id ≡ seat.old.table_id }
        ensures told { GoalTold N.program (2 * waiter + cond is_lower 1 0) seat.old.me.0 result seat.new.me.0
            × (seat.new.me.1 ≡ []) }
    {
        let place = self.goal_place(waiter, is_lower);
        self.table.shared.load::<LooksAtGoal<N>>(seat, place)
    }

    /// Where a word of the goal of a waiter is.
    fn goal_place(&self, waiter: u32, is_lower: bool) -> usize
        requires { waiter < self.now.about.seats * self.now.about.waiters }
        ensures value { result ≡ self.now.about.words + (self.now.about.words + (2 * waiter + cond is_lower 1 0)) }
        ensures within { result < self.now.table.words }
        ensures index { 2 * waiter + cond is_lower 1 0 < 2 * (self.now.about.seats * self.now.about.waiters) }
    {
        let upper = self.goals_place() + 2 * waiter as usize;
        if is_lower { upper + 1 } else { upper }
    }

    /// Where the words of goals begin.
    pub(crate) fn goals_place(&self) -> usize
        ensures value { result ≡ self.now.about.words + self.now.about.words }
        ensures size { self.now.table.words ≡ size_of self.now.about }
        ensures fits { result + (2 * (self.now.about.seats * self.now.about.waiters) + 2) < 2 ^ 32 }
    {
        self.words as usize + self.words as usize
    }

    /// Where the mark is; the fail word is the next one, and the last.
    pub(crate) fn mark_place(&self) -> usize
        ensures value { result ≡ self.now.about.words
            + (self.now.about.words + 2 * (self.now.about.seats * self.now.about.waiters)) }
        ensures size { self.now.table.words ≡ result + 2 }
        ensures fits { result < 2 ^ 32 }
    {
        let waiters = self.seats as usize * self.waiters as usize;
        self.goals_place() + 2 * waiters
    }
}
