//! How the leader of a team explores branches alone.
//!
//! A branch and what it holds are large, and a child is made of what is left of another one. So the branch in hand
//! stays in its place, and one after another comes to be there.

ghost use Rattle.std.specs.Prelude.{◌≡◌, ◌<◌, ◌++◌, ◌∷◌, [], List, length, None, OnOk, OnErr, IfOk, true, false};
ghost use Rattle.and_cells.specs.Parts.{named};
ghost use Rattle.and_clause_index.specs.Tables.{IsTableOf};
ghost use Rattle.and_tasks.specs.Working.{Has, IsAtWork, IsLeftInHand, IsReady};

use crate::stack::{Hand, Level, Task, left_on_top};
use crate::team::{Shared, Team};
use and_cells::Naming;
use and_gate::Gate;
use std::alloc::AllocError;
use std::snapshot::Snapshot;

/// How many children a leader explores in a row at most, before what is left of the last one is put by: enough that
/// this costs nothing.
const IN_A_ROW: u32 = 1 << 16;

impl<N: Naming> Team<N> {
    /// Explores a branch by the leader alone; and children of the forks of its stack as well, as long as they can be
    /// made of what is left of it, and are left to the leader.
    pub fn lead<G: Gate>(&mut self, shared: &Shared<N, G>, hand: Hand<N>) -> Result<(), AllocError>
        requires program { N.program ≡ named shared.now.loaded.now }
        requires table { IsTableOf N.program shared.now.table.now }
        requires ready { IsReady N.program shared.now.tree.now self.old.pass self.old.found self.old.stack.items hand }
        ensures has { Has N.program shared.now.tree.now self.new.pass self.new.stack.items }
        ensures at_work { OnOk result
            (IsAtWork N.program shared.now.tree.now self.new.pass self.new.found self.new.stack.items self.new.left) }
        ensures same { self.new.number ≡ self.old.number }
    {
        let mut hand = hand;
        self.left = None;
        match self.lead_in_hand(shared, &mut hand) {
            Ok(()) => {
                self.put_by(hand);
                Ok(())
            }
            Err(AllocError) => {
                drop(hand);
                Err(AllocError)
            }
        }
    }

    /// The same of the branch in hand, in whose place the children are made. What is left of the last one is in hand.
    fn lead_in_hand<G: Gate>(
        &mut self,
        shared: &Shared<N, G>,
        hand: &mut Hand<N>,
    ) -> Result<(), AllocError>
        requires program { N.program ≡ named shared.now.loaded.now }
        requires table { IsTableOf N.program shared.now.table.now }
        requires ready { IsReady N.program shared.now.tree.now self.old.pass self.old.found self.old.stack.items
            hand.old }
        requires none { self.old.left ≡ None }
        ensures has { Has N.program shared.now.tree.now self.new.pass self.new.stack.items }
        ensures at_work { OnOk result (IsLeftInHand N.program shared.now.tree.now self.new.pass self.new.found
            self.new.stack.items hand.new) }
        ensures same { self.new.number ≡ self.old.number }
    {
        self.lead_one(shared, hand)?;
        'leading: for _ in 0..IN_A_ROW {
            if shared.workers > 1 && self.rests == 0 {
                return Ok(());
            }
            let is_there = self.next_in_hand(shared, hand)?;
            if !is_there {
                return Ok(());
            }
            self.rests = self.rests.saturating_sub(1);
            self.lead_one(shared, hand)?;
        }
        Ok(())
    }

    /// Explores the branch in hand. What is left of it is in hand then.
    fn lead_one<G: Gate>(
        &mut self,
        shared: &Shared<N, G>,
        hand: &mut Hand<N>,
    ) -> Result<(), AllocError>
        requires program { N.program ≡ named shared.now.loaded.now }
        requires table { IsTableOf N.program shared.now.table.now }
        requires ready { IsReady N.program shared.now.tree.now self.old.pass self.old.found self.old.stack.items
            hand.old }
        requires none { self.old.left ≡ None }
        ensures has { Has N.program shared.now.tree.now self.new.pass self.new.stack.items }
        ensures at_work { OnOk result (IsLeftInHand N.program shared.now.tree.now self.new.pass self.new.found
            self.new.stack.items hand.new) }
        ensures same { (self.new.number ≡ self.old.number) × (self.new.left ≡ None) }
    {
        let before = hand.branch.weight();
        let advanced = hand.branch.advance_to_state(
            shared.loaded,
            shared.table,
            shared.gate,
            &mut self.workspace,
        );
        self.note_work(before, hand.branch.weight());
        match advanced {
            Ok(state) => self.go_in_hand(shared, hand, state),
            Err(AllocError) => {
                self.give_up_key(shared, &Snapshot::of(hand.branch.key()));
                Err(AllocError)
            }
        }
    }

    /// Has the next child of the fork on top of the stack in hand, made of what is left of a branch there. Answers
    /// whether there is one. After want of memory all children of the fork have been given up.
    fn next_in_hand<G: Gate>(
        &mut self,
        shared: &Shared<N, G>,
        hand: &mut Hand<N>,
    ) -> Result<bool, AllocError>
        requires program { N.program ≡ named shared.now.loaded.now }
        requires left { IsLeftInHand N.program shared.now.tree.now self.old.pass self.old.found self.old.stack.items
            hand.old }
        ensures ready { IfOk result (λ is_there. is_there ≡ true
            → IsReady N.program shared.now.tree.now self.new.pass self.new.found self.new.stack.items hand.new) }
        ensures left { IfOk result (λ is_there. is_there ≡ false
            → IsLeftInHand N.program shared.now.tree.now self.new.pass self.new.found self.new.stack.items hand.new) }
        ensures given_up { OnErr result (Has N.program shared.now.tree.now self.new.pass self.new.stack.items) }
        ensures same { (self.new.number ≡ self.old.number) × (self.new.left ≡ self.old.left) }
    {
        let left = left_on_top(self.stack.as_slice());
        if left > 1 {
            self.next_on_top(shared, hand)?;
            return Ok(true);
        }
        if left == 0 {
            return Ok(false);
        }
        match self.stack.pop() {
            Some(Task::Children(level)) => {
                self.child_in_hand(shared, level, hand)?;
                Ok(true)
            }
            Some(Task::One(_branch)) => unreachable!(),
            Some(Task::Left(_left)) => unreachable!(),
            None => unreachable!(),
        }
    }

    /// Has the next child of the fork on top in hand, behind which others come. The fork stays in its place.
    fn next_on_top<G: Gate>(
        &mut self,
        shared: &Shared<N, G>,
        hand: &mut Hand<N>,
    ) -> Result<(), AllocError>
        requires program { N.program ≡ named shared.now.loaded.now }
        requires left { IsLeftInHand N.program shared.now.tree.now self.old.pass self.old.found self.old.stack.items
            hand.old }
        requires fork { (level : Level N) × (below : List (Task N))
            × (self.old.stack.items ≡ below ++ Task.Children level ∷ []) × (1 < length level.point.clauses) }
        ensures ready { OnOk result
            (IsReady N.program shared.now.tree.now self.new.pass self.new.found self.new.stack.items hand.new) }
        ensures given_up { OnErr result (Has N.program shared.now.tree.now self.new.pass self.new.stack.items) }
        ensures same { (self.new.number ≡ self.old.number) × (self.new.left ≡ self.old.left) }
    {
        let last = self.stack.len() - 1;
        let next = self.stack[last].next_in_hand(
            shared.alloc,
            shared.loaded,
            hand,
            &mut self.workspace,
        );
        match next {
            Ok(()) => Ok(()),
            Err(AllocError) => {
                self.give_up_top(shared);
                Err(AllocError)
            }
        }
    }

    /// Gives up the task on top.
    fn give_up_top<G: Gate>(&mut self, shared: &Shared<N, G>)
        requires has { Has N.program shared.now.tree.now self.old.pass self.old.stack.items }
        ensures has { Has N.program shared.now.tree.now self.new.pass self.new.stack.items }
        ensures same { (self.new.number ≡ self.old.number) × (self.new.left ≡ self.old.left) }
    {
        match self.stack.pop() {
            Some(task) => self.give_up_task(shared, task),
            None => {}
        }
    }
}
