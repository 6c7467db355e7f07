//! The calls by which goals wait for cells.

ghost use Rattle.std.specs.Prelude.{◌≡◌, ◌≢◌, ◌<◌, ◌≤◌, ◌+◌, ◌*◌, ◌^◌, [], ◌∷◌, ℕ, length, IfSome, IfNone};
ghost use Rattle.and_model.specs.declared.goal.Goal.{Goal};
ghost use Rattle.and_model.specs.declared.reference.Ref.{Ref};
ghost use Rattle.and_cells.specs.Ranges.{IsGoalInRange};
ghost use Rattle.and_store.specs.Calls.{HangsGoal, FindsWaiter, FindsSet, HandsOut};
ghost use Rattle.and_store.specs.Kept.{UpperIs, LowerIs};

use crate::pass::Pass;
use crate::steps::{CLOSED, EMPTY};
use crate::store::Store;
use and_cells::Naming;
use and_model::{ClauseNo, Goal, Ref};

/// What became of the wish to hang a goal on a cell.
#[derive(Clone, Copy, PartialEq, Eq, Debug)]
pub enum Hung {
    /// The goal hangs there. Who sets the cell hands it out.
    Done,
    /// This pass has hung as many goals as it may. No step was made.
    Full { goal: Goal },
    /// The cell is set already, to this.
    Bound { to: Ref, goal: Goal },
    /// Another goal hangs there.
    Occupied { goal: Goal },
}

const HALVES: u64 = 1 << 32;

const CLAUSES: u64 = 1 << 16;

/// The upper one of the two words that hold a goal.
fn upper_word(goal: &Goal) -> u64
    ensures { UpperIs result goal.now }
{
    let Goal {
        node,
        item,
        clause: _,
        base: _,
    } = *goal;
    HALVES * node as u64 + item as u64
}

/// The lower one of the two words that hold a goal.
fn lower_word(goal: &Goal) -> u64
    ensures { LowerIs result goal.now }
{
    let Goal {
        node: _,
        item: _,
        clause,
        base,
    } = *goal;
    HALVES * clause.0 as u64 + base as u64
}

/// The goal that two words hold.
pub(crate) fn goal_of_words(upper: u64, lower: u64) -> Goal
    ensures { UpperIs upper result × LowerIs lower result }
{
    Goal {
        node: (upper / HALVES) as u32,
        item: (upper % HALVES) as u32,
        clause: ClauseNo((lower / HALVES % CLAUSES) as u16),
        base: (lower % HALVES) as u32,
    }
}

impl<N: Naming> Store<N> {
    /// Hangs a goal on a cell, where it waits until the cell is set. Takes no memory.
    pub fn hang(&self, pass: &mut Pass, cell: u32, goal: Goal) -> Hung
        requires store { pass.old.store ≡ self.now }
        requires cell { cell < self.now.about.words }
        requires goal { IsGoalInRange N.program self.now.about.words goal }
        ensures same { (pass.new.store ≡ pass.old.store) × (pass.new.kept ≡ pass.old.kept) }
        ensures done { result ≡ Hung.Done → HangsGoal self.now.about.waiters cell goal pass.old.pass pass.new.pass }
        ensures full { (back : Goal) → result ≡ Hung.Full back
            → (back ≡ goal) × (pass.new.pass ≡ pass.old.pass) × (length pass.old.pass.hung ≡ self.now.about.waiters) }
        ensures occupied { (back : Goal) → result ≡ Hung.Occupied back
            → (back ≡ goal) × (length pass.old.pass.hung < self.now.about.waiters)
            × FindsWaiter cell pass.old.pass pass.new.pass }
        ensures bound { (to : Ref) (back : Goal) → result ≡ Hung.Bound to back
            → (back ≡ goal) × (length pass.old.pass.hung < self.now.about.waiters)
            × FindsSet N.program self.now.about cell to pass.old.pass pass.new.pass }
    {
        if pass.hung >= self.waiters {
            return Hung::Full { goal };
        }
        let waiter = pass.number * self.waiters + pass.hung;
        self.note_word(&mut pass.seat, waiter, false, upper_word(&goal));
        self.note_word(&mut pass.seat, waiter, true, lower_word(&goal));
        let place = self.hang_waiter(&mut pass.seat, cell, waiter, &goal);
        if place == EMPTY {
            pass.hung += 1;
            return Hung::Done;
        }
        if place != CLOSED {
            return Hung::Occupied { goal };
        }
        let to = self.look(pass, cell);
        Hung::Bound { to, goal }
    }

    /// Hands out the goal of the first waiter that the pass still keeps; `None` where it keeps none.
    /// Takes no memory.
    pub fn woken(&self, pass: &mut Pass) -> Option<Goal>
        requires store { pass.old.store ≡ self.now }
        ensures store { pass.new.store ≡ pass.old.store }
        ensures none { IfNone result ((pass.old.kept ≡ []) × (pass.new ≡ pass.old)) }
        ensures some { IfSome result (λ goal. HandsOut N.program self.now.about.words goal pass.old pass.new) }
    {
        if pass.handed >= pass.taken.len() {
            return None;
        }
        let waiter = pass.taken[pass.handed];
        let upper = self.look_at_goal(&mut pass.seat, waiter, false);
        let lower = self.look_at_goal(&mut pass.seat, waiter, true);
        pass.handed += 1;
        Some(goal_of_words(upper, lower))
    }
}
