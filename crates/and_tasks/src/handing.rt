//! What a team hands on to others, and takes over from them.

ghost use Rattle.std.specs.Prelude.{◌≡◌, ◌≢◌, ◌<◌, ◌*◌, ◌∷◌, [], List, OnOk, OnErr, IfOk, IfSome, IfNone, true};
ghost use Rattle.std.specs.Prelude.{Option, Some};
ghost use Rattle.and_cells.specs.Parts.{named};
ghost use Rattle.and_histories.specs.PlainTree.{Owns};
ghost use Rattle.and_tasks.specs.Copying.{IsCopyOf};
ghost use Rattle.and_branch.specs.Branches.{Held};
ghost use Rattle.and_tasks.specs.Working.{AreServed, Has, IsAtWork, IsLeftInHand, Works};

use crate::placed::PlacedBranch;
use crate::stack::{Hand, Level, Task, copy_for_oldest};
use crate::team::{Shared, Team};
use and_branch::Branch;
use and_cells::Naming;
use and_gate::Gate;
use and_tree::{CELLS_PER_TEAM, CellSeen, Claimed, Published};
use std::alloc::AllocError;
use std::snapshot::Snapshot;

impl<N: Naming> Team<N> {
    /// Publishes its oldest branch, if it has more than one, finds its cell free, and has set up as many words since it
    /// last copied a row as this one has. What is left of a branch is in hand.
    pub(crate) fn hand_on<G: Gate>(
        &mut self,
        shared: &Shared<N, G>,
        hand: &Hand<N>,
        words: u32,
    ) -> Result<(), AllocError>
        requires program { N.program ≡ named shared.now.loaded.now }
        requires at_work { IsLeftInHand N.program shared.now.tree.now self.old.pass self.old.found self.old.stack.items
            hand.now }
        ensures has { Has N.program shared.now.tree.now self.new.pass self.new.stack.items }
        ensures at_work { OnOk result (IsLeftInHand N.program shared.now.tree.now self.new.pass self.new.found
            self.new.stack.items hand.now) }
        ensures same { (self.new.number ≡ self.old.number) × (self.new.left ≡ self.old.left) }
    {
        // (Each team's number is below that of the teams. This says so to what follows.)
        if shared.teams == 1 || self.number >= shared.teams {
            return Ok(());
        }
        if self.worked < words || !self.has_several() {
            return Ok(());
        }
        let cell = self.number * CELLS_PER_TEAM;
        if shared.tree.look(&mut self.pass, cell) != CellSeen::Free {
            return Ok(());
        }
        self.worked = 0;
        self.hand_on_oldest(shared, &hand.branch, cell)
    }

    /// Whether it has more than one branch, the oldest of which it can hand on.
    fn has_several(&self) -> bool
        ensures { result ≡ true → self.now.stack.items ≢ [] }
    {
        match self.stack.first() {
            Some(Task::Children(level)) => self.stack.len() > 1 || level.point.left() > 1,
            Some(Task::One(_)) => self.stack.len() > 1,
            Some(Task::Left(_)) => true,
            None => false,
        }
    }

    /// Publishes its oldest branch in a cell that was found free. On top of the stack is what is left of a branch.
    fn hand_on_oldest<G: Gate>(
        &mut self,
        shared: &Shared<N, G>,
        left: &Branch<N>,
        cell: u32,
    ) -> Result<(), AllocError>
        requires program { N.program ≡ named shared.now.loaded.now }
        requires at_work { IsAtWork N.program shared.now.tree.now self.old.pass self.old.found self.old.stack.items
            (Some left.now) }
        requires some { self.old.stack.items ≢ [] }
        requires own { Owns self.old.number cell }
        ensures has { Has N.program shared.now.tree.now self.new.pass self.new.stack.items }
        ensures at_work { OnOk result
            (IsAtWork N.program shared.now.tree.now self.new.pass self.new.found self.new.stack.items
            (Some left.now)) }
        ensures same { (self.new.number ≡ self.old.number) × (self.new.found ≡ self.old.found)
            × (self.new.left ≡ self.old.left) }
    {
        let taken = self.take_oldest(shared, left)?;
        let Some(branch) = taken else {
            return Ok(());
        };
        match self.offer(shared, cell, branch) {
            None => Ok(()),
            Some(back) => self.put_below(shared, Task::One(back)),
        }
    }

    /// Publishes a branch in a cell that was found free. It comes back where the cell is free no more.
    fn offer<G: Gate>(
        &mut self,
        shared: &Shared<N, G>,
        cell: u32,
        branch: Branch<N>,
    ) -> Option<Branch<N>>
        requires works { Works N.program shared.now.tree.now self.old.pass self.old.found
            (Task.One branch ∷ self.old.stack.items) }
        requires own { Owns self.old.number cell }
        ensures none { IfNone result
            (Works N.program shared.now.tree.now self.new.pass self.new.found (self.new.stack.items)) }
        ensures some { IfSome result
            (λ back. Works N.program shared.now.tree.now self.new.pass self.new.found
            (Task.One back ∷ self.new.stack.items)) }
        ensures same { (self.new.number ≡ self.old.number) × (self.new.stack ≡ self.old.stack)
            × (self.new.found ≡ self.old.found) × (self.new.left ≡ self.old.left) }
    {
        match shared
            .tree
            .publish(&mut self.pass, cell, PlacedBranch { branch })
        {
            Published::Done => {
                shared.gate.publish(self.number);
                None
            }
            Published::NotFree { branch, seen: _ } => Some(branch.branch),
            Published::Spent { branch } => Some(branch.branch),
        }
    }

    /// Takes its oldest branch out of the stack, which is not empty: a child of the oldest fork, made of a copy. `None`
    /// where what is left of a branch stood there, which serves no fork. After want of memory what was taken has been
    /// given up.
    fn take_oldest<G: Gate>(
        &mut self,
        shared: &Shared<N, G>,
        left: &Branch<N>,
    ) -> Result<Option<Branch<N>>, AllocError>
        requires program { N.program ≡ named shared.now.loaded.now }
        requires has { Has N.program shared.now.tree.now self.old.pass self.old.stack.items }
        requires served { AreServed (Some left.now) self.old.stack.items }
        requires some { self.old.stack.items ≢ [] }
        ensures same { (self.new.number ≡ self.old.number) × (self.new.found ≡ self.old.found)
            × (self.new.left ≡ self.old.left) }
        ensures pass { OnOk result (self.new.pass ≡ self.old.pass) }
        ensures branch { IfOk result (λ taken. IfSome taken
            (λ branch. Has N.program shared.now.tree.now self.new.pass (Task.One branch ∷ self.new.stack.items))) }
        ensures none { IfOk result (λ taken. IfNone taken
            (Has N.program shared.now.tree.now self.new.pass self.new.stack.items)) }
        ensures served { OnOk result (AreServed (Some left.now) self.new.stack.items) }
        ensures given_up { OnErr result (Has N.program shared.now.tree.now self.new.pass self.new.stack.items) }
    {
        let copy = copy_for_oldest(shared.alloc, self.stack.as_slice(), left)?;
        match self.stack.remove(0) {
            Task::One(branch) => {
                drop(copy);
                Ok(Some(branch))
            }
            Task::Children(level) => {
                let child = self.part_child(shared, level, copy)?;
                Ok(Some(child))
            }
            Task::Left(left) => {
                drop(left);
                drop(copy);
                Ok(None)
            }
        }
    }

    /// The next child of a fork that was the oldest task, made of a copy. The fork is the oldest task again then, if
    /// others are still to come. After want of memory all of them have been given up.
    fn part_child<G: Gate>(
        &mut self,
        shared: &Shared<N, G>,
        level: Level<N>,
        copy: Option<Branch<N>>,
    ) -> Result<Branch<N>, AllocError>
        requires program { N.program ≡ named shared.now.loaded.now }
        requires has { Has N.program shared.now.tree.now self.old.pass (Task.Children level ∷ self.old.stack.items) }
        requires copy { IfSome copy (IsCopyOf level) }
        ensures same { (self.new.number ≡ self.old.number) × (self.new.found ≡ self.old.found)
            × (self.new.left ≡ self.old.left) }
        ensures branch { IfOk result (λ branch. (self.new.pass ≡ self.old.pass)
            × Has N.program shared.now.tree.now self.new.pass (Task.One branch ∷ self.new.stack.items)) }
        ensures served { OnOk result ((on_top : Option Held)
            → AreServed on_top (Task.Children level ∷ self.old.stack.items)
            → AreServed on_top self.new.stack.items) }
        ensures given_up { OnErr result (Has N.program shared.now.tree.now self.new.pass self.new.stack.items) }
    {
        let mut level = level;
        let Some(left) = copy else {
            self.give_up_children(shared, &level);
            drop(level);
            return Err(AllocError);
        };
        let mut branch = left;
        let Ok(()) = level.next(shared.loaded, &mut branch, &mut self.workspace) else {
            self.give_up_children(shared, &level);
            drop(branch);
            drop(level);
            return Err(AllocError);
        };
        if level.point.left() == 0 {
            drop(level);
            return Ok(branch);
        }
        match self.put_below(shared, Task::Children(level)) {
            Ok(()) => Ok(branch),
            Err(AllocError) => {
                self.give_up_key(shared, &Snapshot::of(branch.key()));
                drop(branch);
                Err(AllocError)
            }
        }
    }

    /// Puts a task below all others, as the oldest. After want of memory it has been given up.
    fn put_below<G: Gate>(&mut self, shared: &Shared<N, G>, task: Task<N>) -> Result<(), AllocError>
        requires has { (others : List (Task N)) × Has N.program shared.now.tree.now self.old.pass (task ∷ others) }
        ensures same { (self.new.number ≡ self.old.number) × (self.new.found ≡ self.old.found)
            × (self.new.left ≡ self.old.left) }
        ensures put { OnOk result ((self.new.pass ≡ self.old.pass)
            × (self.new.stack.items ≡ task ∷ self.old.stack.items)) }
        ensures given_up { OnErr result ((self.new.stack.items ≡ self.old.stack.items) × ((others : List (Task N))
            → Has N.program shared.now.tree.now self.old.pass (task ∷ others)
            → Has N.program shared.now.tree.now self.new.pass others)) }
    {
        match self.stack.insert(0, task) {
            Ok(()) => Ok(()),
            Err(refused) => {
                self.give_up_task(shared, refused.value);
                Err(AllocError)
            }
        }
    }

    /// Puts a branch below all tasks, as the oldest. After want of memory it has been given up.
    fn put_branch<G: Gate>(
        &mut self,
        shared: &Shared<N, G>,
        branch: Branch<N>,
    ) -> Result<(), AllocError>
        requires works { Works N.program shared.now.tree.now self.old.pass self.old.found
            (Task.One branch ∷ self.old.stack.items) }
        requires served { AreServed self.old.left self.old.stack.items }
        ensures has { Has N.program shared.now.tree.now self.new.pass self.new.stack.items }
        ensures at_work { OnOk result
            (IsAtWork N.program shared.now.tree.now self.new.pass self.new.found self.new.stack.items self.new.left) }
        ensures same { self.new.number ≡ self.old.number }
    {
        self.put_below(shared, Task::One(branch))
    }

    /// Looks at each cell once, and takes what is open in the first where it succeeds. Answers whether it
    /// did. After want of memory what it took has been given up.
    pub fn take_over<G: Gate>(&mut self, shared: &Shared<N, G>) -> Result<bool, AllocError>
        requires at_work { IsAtWork N.program shared.now.tree.now self.old.pass self.old.found self.old.stack.items
            self.old.left }
        ensures has { Has N.program shared.now.tree.now self.new.pass self.new.stack.items }
        ensures at_work { OnOk result
            (IsAtWork N.program shared.now.tree.now self.new.pass self.new.found self.new.stack.items self.new.left) }
        ensures same { self.new.number ≡ self.old.number }
    {
        let cells = shared.teams * CELLS_PER_TEAM;
        let first = self.number % shared.teams * CELLS_PER_TEAM;
        for turn in 0..cells {
            let cell = (first + turn) % cells;
            if let Some(branch) = self.claim(shared, cell) {
                shared.gate.claim(self.number);
                self.put_branch(shared, branch)?;
                return Ok(true);
            }
        }
        Ok(false)
    }

    /// What lies open in a cell, if this team gets it.
    fn claim<G: Gate>(&mut self, shared: &Shared<N, G>, cell: u32) -> Option<Branch<N>>
        requires works { Works N.program shared.now.tree.now self.old.pass self.old.found (self.old.stack.items) }
        requires cell { cell < 8 * shared.now.teams }
        ensures none { IfNone result
            (Works N.program shared.now.tree.now self.new.pass self.new.found (self.new.stack.items)) }
        ensures some { IfSome result
            (λ branch. Works N.program shared.now.tree.now self.new.pass self.new.found
            (Task.One branch ∷ self.new.stack.items)) }
        ensures same { (self.new.number ≡ self.old.number) × (self.new.stack ≡ self.old.stack)
            × (self.new.left ≡ self.old.left) }
    {
        match shared.tree.look(&mut self.pass, cell) {
            CellSeen::Open { serial } => match shared.tree.claim(&mut self.pass, cell, serial) {
                Claimed::Taken(placed) => Some(placed.branch),
                Claimed::Moved(_seen) => None,
            },
            CellSeen::Free => None,
            CellSeen::Taking { team: _, serial: _ } => None,
        }
    }
}
