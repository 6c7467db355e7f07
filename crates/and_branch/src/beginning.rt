//! Calls that are reduced, with the goals with which a body begins, before they are put.

ghost use Rattle.std.specs.Prelude.{◌≡◌, ◌≤◌, ◌<◌, ◌+◌, true, false, [], ◌∷◌, length, suc, Ok, Some, None, OnOk, IfOk};
ghost use Rattle.and_model.specs.Programs.{clause_at, clause_weight};
ghost use Rattle.and_model.specs.declared.goal.Goal.{Goal};
ghost use Rattle.and_model.specs.declared.numbers.ClauseNo.{ClauseNo};
ghost use Rattle.and_model.specs.declared.numbers.NodeNo.{NodeNo};
ghost use Rattle.and_cells.specs.Parts.{named};
ghost use Rattle.and_clause_index.specs.Tables.{IsTableOf};
ghost use Rattle.and_branch_laws.specs.Kept.{goal_of};
ghost use Rattle.and_branch_laws.specs.Reducing.{goal_at};
ghost use Rattle.and_reduction.specs.Items.{AreItemsOf};
ghost use Rattle.and_branch_parts.specs.Branches.{IsBranch, SameKey};
ghost use Rattle.and_branch_parts.specs.Rounds.{StepsOn, IsAtMost};
ghost use Rattle.and_branch.specs.Bodies.{with_body, with_next, IsCallInHand};

use crate::advancing::{LEADER, called_by};
use crate::branch::Branch;
use crate::workspace::Workspace;
use and_branch_parts::{is_arithmetic_item, push_body_from};
use and_cells::Naming;
use and_clause_index::Determinacy;
use and_determinacy::Narrowed;
use and_gate::Gate;
use and_model::{ClauseNo, Goal, NodeNo};
use and_program::{ItemNode, Loaded};
use and_reduction::{Entered, Ran};
use std::alloc::AllocError;

/// What came of an item of a body that comes next.
#[derive(Clone, Copy)]
enum Begun {
    /// It was arithmetic, and was run.
    Ran,
    /// It is no arithmetic, or waits, or there is none.
    Stays,
    /// It cannot hold, and the branch is marked failed.
    Failed,
}

/// What came first in a body, behind the arithmetic that was run.
#[derive(Clone, Copy)]
enum First {
    /// A call, whose node this is. It is still to be put, and the goals behind it are put.
    Call { goal: Goal, node: NodeNo },
    /// Something else, or nothing. All goals are put, or the branch is marked failed.
    Other,
}

/// An item of a body as a goal, in the frame of the clause at the node.
fn body_goal(clause: ClauseNo, node: u32, item: u32) -> Goal
    ensures { result ≡ goal_of (goal_at clause.0 node [] item) }
{
    Goal {
        node,
        item,
        clause,
        base: node,
    }
}

impl<N: Naming> Branch<N> {
    /// Reduces a call that is still to be put by the clause that alone is left for it, for which there is room; then
    /// the call with which the clause's body begins behind arithmetic, if one clause at most is left for that and
    /// there is room; and so on, for so many calls at most. Answers how many they were. The gate is told of each
    /// reduction before it is made. The branch is marked failed where something cannot hold. An error is want of
    /// memory, and the branch is spent.
    #[inline(never)]
    pub(crate) fn run_on<G: Gate>(
        &mut self,
        loaded: &Loaded,
        table: &Determinacy,
        gate: &G,
        goal: Goal,
        called: NodeNo,
        clause: ClauseNo,
        left: u32,
        workspace: &mut Workspace,
    ) -> Result<u32, AllocError>
        requires program { N.program ≡ named loaded.now }
        requires table { IsTableOf N.program table.now }
        requires call { IsCallInHand N.program self.old goal called.0 }
        requires last { IsAtMost N.program self.old.row goal clause.0 }
        requires room { self.old.used + clause_weight (clause_at N.program.program clause.0) ≤ self.old.limit }
        requires left { 1 ≤ left }
        ensures same { SameKey self.old self.new }
        ensures used { OnOk result (self.old.used < self.new.used) }
        ensures steps { OnOk result (StepsOn N.program (with_next goal self.old) self.new) }
        ensures taken { IfOk result (λ taken. (1 ≤ taken) × (taken ≤ left)) }
    {
        let mut call = goal;
        let mut node = called;
        let mut by = clause;
        let mut taken = 0;
        'calls: loop {
            let first = self.reduce_call(loaded, gate, call, node, by, workspace)?;
            taken += 1;
            match first {
                First::Other => return Ok(taken),
                First::Call {
                    goal: next,
                    node: place,
                } => {
                    if taken >= left {
                        self.put_goal(next)?;
                        return Ok(taken);
                    }
                    match self.last_clause(loaded, table, next, place, workspace)? {
                        None => return Ok(taken),
                        Some(last) => {
                            call = next;
                            node = place;
                            by = last;
                        }
                    }
                }
            }
        }
    }

    /// Reduces a call that is still to be put by the clause that alone is left for it, and begins with the clause's
    /// body. Where there is no room for the clause the call is put. The gate is told of the reduction before it is
    /// made. The branch is marked failed where something cannot hold. An error is want of memory, and the branch is
    /// spent.
    #[inline(always)]
    fn reduce_call<G: Gate>(
        &mut self,
        loaded: &Loaded,
        gate: &G,
        goal: Goal,
        called: NodeNo,
        clause: ClauseNo,
        workspace: &mut Workspace,
    ) -> Result<First, AllocError>
        requires program { N.program ≡ named loaded.now }
        requires call { IsCallInHand N.program self.old goal called.0 }
        requires last { IsAtMost N.program self.old.row goal clause.0 }
        ensures same { SameKey self.old self.new }
        ensures used { OnOk result (self.old.used ≤ self.new.used) }
        ensures grows { self.old.used + clause_weight (clause_at N.program.program clause.0) ≤ self.old.limit
            → OnOk result (self.old.used < self.new.used) }
        ensures call { (g : Goal) (n : NodeNo) → result ≡ Ok (First.Call g n) → IsCallInHand N.program self.new g n.0
            × StepsOn N.program (with_next goal self.old) (with_next g self.new) }
        ensures other { result ≡ Ok First.Other → StepsOn N.program (with_next goal self.old) self.new }
    {
        loaded.skeleton_is_of_the_program();
        let weight = loaded.weight(clause);
        let head = loaded.head(clause);
        let items = loaded.items(clause);
        if !self.has_room(weight) {
            self.put_goal(goal)?;
            return Ok(First::Other);
        }
        gate.reduce(LEADER);
        let node = self.used;
        match self.enter_goal(loaded, goal, called, clause, weight, head, items, workspace)? {
            Entered::Solved => self.begin_body(loaded, items, clause, node, workspace),
            Entered::NoSolution => Ok(First::Other),
        }
    }

    /// The clause that alone is left for a call which is still to be put. Where there is none, or several are left,
    /// there is no answer: the call is put, and watched if several are. An error is want of memory, and the branch is
    /// spent.
    #[inline(always)]
    fn last_clause(
        &mut self,
        loaded: &Loaded,
        table: &Determinacy,
        goal: Goal,
        node: NodeNo,
        workspace: &mut Workspace,
    ) -> Result<Option<ClauseNo>, AllocError>
        requires program { N.program ≡ named loaded.now }
        requires table { IsTableOf N.program table.now }
        requires call { IsCallInHand N.program self.old goal node.0 }
        ensures same { SameKey self.old self.new }
        ensures used { OnOk result (self.new.used ≡ self.old.used) }
        ensures last { (c : ClauseNo) → result ≡ Ok (Some c)
            → (self.new ≡ self.old) × IsAtMost N.program self.old.row goal c.0 }
        ensures put { result ≡ Ok None → StepsOn N.program (with_next goal self.old) self.new }
    {
        loaded.skeleton_is_of_the_program();
        match self.narrow_call(loaded, table, goal, node, workspace)? {
            Narrowed::AtMost(clause) => Ok(Some(clause)),
            Narrowed::Several => {
                // A copy of its own: what is handed on from here stays out of memory on the other ways.
                let passed = goal;
                self.put_goal(passed)?;
                self.watch_call(loaded, passed, workspace)?;
                Ok(None)
            }
            Narrowed::Nothing => {
                self.put_goal(goal)?;
                Ok(None)
            }
        }
    }

    /// Puts a goal at the place of work. An error is want of memory, and the branch is spent.
    #[inline(always)]
    fn put_goal(&mut self, goal: Goal) -> Result<(), AllocError>
        ensures same { SameKey self.old self.new }
        ensures put { OnOk result (self.new ≡ with_next goal self.old) }
    {
        self.goals.push(goal)
    }

    /// Puts the goals of a body from an item on at the place of work: that of the clause with these items, in the frame
    /// at the node. An error is want of memory, and the branch is spent.
    #[inline(always)]
    pub(crate) fn put_body(
        &mut self,
        loaded: &Loaded,
        items: &[ItemNode],
        from: u32,
        clause: ClauseNo,
        node: u32,
    ) -> Result<(), AllocError>
        requires program { N.program ≡ named loaded.now }
        requires items { AreItemsOf N.program clause.0 items.now }
        requires from { from ≤ length items.now }
        ensures same { SameKey self.old self.new }
        ensures put { OnOk result (self.new ≡ with_body N.program clause.0 node from self.old) }
    {
        push_body_from(&mut self.goals, loaded, items, from, clause, node)
    }

    /// Runs the arithmetic with which a body begins, as long as what it needs is ground, and puts the goals behind it,
    /// but for a call that comes first of them. An error is want of memory, and the branch is spent.
    #[inline(always)]
    fn begin_body(
        &mut self,
        loaded: &Loaded,
        items: &[ItemNode],
        clause: ClauseNo,
        node: u32,
        workspace: &mut Workspace,
    ) -> Result<First, AllocError>
        requires program { N.program ≡ named loaded.now }
        requires items { AreItemsOf N.program clause.0 items.now }
        requires branch { IsBranch N.program (with_body N.program clause.0 node 0 self.old) }
        requires live { self.old.is_failed ≡ false }
        ensures same { SameKey self.old self.new }
        ensures used { OnOk result (self.new.used ≡ self.old.used) }
        ensures call { (g : Goal) (n : NodeNo) → result ≡ Ok (First.Call g n) → IsCallInHand N.program self.new g n.0
            × StepsOn N.program (with_body N.program clause.0 node 0 self.old) (with_next g self.new) }
        ensures other { result ≡ Ok First.Other
            → StepsOn N.program (with_body N.program clause.0 node 0 self.old) self.new }
    {
        let Ok(count) = u32::try_from(items.len()) else {
            return Err(AllocError);
        };
        let mut place = 0;
        'places: loop {
            match self.begin_item(loaded, items, count, place, clause, node, workspace)? {
                Begun::Ran => place += 1,
                Begun::Stays => return self.put_behind(loaded, items, count, place, clause, node),
                Begun::Failed => return Ok(First::Other),
            }
        }
    }

    /// Puts the goals of a body from an item on, but for that item, if it is a call. An error is want of memory, and
    /// the branch is spent.
    #[inline(always)]
    fn put_behind(
        &mut self,
        loaded: &Loaded,
        items: &[ItemNode],
        count: u32,
        place: u32,
        clause: ClauseNo,
        node: u32,
    ) -> Result<First, AllocError>
        requires program { N.program ≡ named loaded.now }
        requires items { AreItemsOf N.program clause.0 items.now }
        requires count { count ≡ length items.now }
        requires place { place ≤ length items.now }
        requires branch { IsBranch N.program (with_body N.program clause.0 node place self.old) }
        requires live { self.old.is_failed ≡ false }
        ensures same { SameKey self.old self.new }
        ensures used { OnOk result (self.new.used ≡ self.old.used) }
        ensures call { (g : Goal) (n : NodeNo) → result ≡ Ok (First.Call g n) → IsCallInHand N.program self.new g n.0
            × (with_next g self.new ≡ with_body N.program clause.0 node place self.old) }
        ensures other { result ≡ Ok First.Other → self.new ≡ with_body N.program clause.0 node place self.old }
    {
        loaded.skeleton_is_of_the_program();
        if place < count {
            let item = items[place as usize];
            if let Some(called) = called_by(item) {
                let goal = body_goal(clause, node, place);
                self.put_body(loaded, items, place + 1, clause, node)?;
                return Ok(First::Call { goal, node: called });
            }
        }
        self.put_body(loaded, items, place, clause, node)?;
        Ok(First::Other)
    }

    /// Runs an item of a body whose goals from there on are still to be put, if it is arithmetic and what it needs is
    /// ground. An error is want of memory, and the branch is spent.
    #[inline(always)]
    fn begin_item(
        &mut self,
        loaded: &Loaded,
        items: &[ItemNode],
        count: u32,
        place: u32,
        clause: ClauseNo,
        node: u32,
        workspace: &mut Workspace,
    ) -> Result<Begun, AllocError>
        requires program { N.program ≡ named loaded.now }
        requires items { AreItemsOf N.program clause.0 items.now }
        requires count { count ≡ length items.now }
        requires branch { IsBranch N.program (with_body N.program clause.0 node place self.old) }
        requires live { self.old.is_failed ≡ false }
        ensures same { SameKey self.old self.new }
        ensures used { OnOk result (self.new.used ≡ self.old.used) }
        ensures ran { result ≡ Ok Begun.Ran → (place < count) × (self.new.is_failed ≡ false)
            × StepsOn N.program (with_body N.program clause.0 node place self.old)
            (with_body N.program clause.0 node (suc place) self.new) }
        ensures stays { result ≡ Ok Begun.Stays → (self.new.is_failed ≡ false)
            × StepsOn N.program (with_body N.program clause.0 node place self.old)
            (with_body N.program clause.0 node place self.new) }
        ensures failed { result ≡ Ok Begun.Failed
            → StepsOn N.program (with_body N.program clause.0 node place self.old) self.new }
    {
        loaded.skeleton_is_of_the_program();
        if place >= count {
            return Ok(Begun::Stays);
        }
        let item = items[place as usize];
        if !is_arithmetic_item(item) {
            return Ok(Begun::Stays);
        }
        let goal = body_goal(clause, node, place);
        match self.run_next(loaded, goal, item, workspace)? {
            Ran::Waits { cell: _ } => Ok(Begun::Stays),
            Ran::Done => Ok(Begun::Ran),
            Ran::False => {
                self.mark_failed();
                Ok(Begun::Failed)
            }
        }
    }
}
