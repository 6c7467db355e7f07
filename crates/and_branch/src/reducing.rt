//! The next goal, reduced.

ghost use Rattle.std.specs.Prelude.{◌≡◌, ◌+◌, ℕ, List, ◌∷◌, true, Ok, OnOk};
ghost use Rattle.and_model.specs.Programs.{clause_at, clause_weight};
ghost use Rattle.and_model.specs.declared.goal.Goal.{Goal};
ghost use Rattle.and_cells.specs.Parts.{named};
ghost use Rattle.and_guards.specs.Goals.{IsNodeOf};
ghost use Rattle.and_reduction.specs.Items.{AreItemsOf, IsHeadOf};
ghost use Rattle.and_branch_parts.specs.Branches.{SameKey};
ghost use Rattle.and_branch_parts.specs.Next.{HasNextCall, IsReduced};
ghost use Rattle.and_branch_parts.specs.Origins.{KeepsBack};
ghost use Rattle.and_branch_parts.specs.Rounds.{IsDropped};
ghost use Rattle.and_branch.specs.Bodies.{with_body, with_next};
ghost use Rattle.and_branch.specs.Nodes.{IsNextNode};

use crate::branch::Branch;
use crate::workspace::Workspace;
use and_branch_parts::push_reduction;
use and_cells::Naming;
use and_model::{ClauseNo, Goal, NodeNo};
use and_program::{ItemNode, Loaded};
use and_reduction::{Entered, node_of, take};
use std::alloc::AllocError;

impl<N: Naming> Branch<N> {
    /// Reduces the next goal, a call, by the clause, whose body's goals are then the next ones. The
    /// branch is marked failed where what this asks has no solution. An error is want of memory, and
    /// the branch is spent.
    pub(crate) fn reduce_next(
        &mut self,
        loaded: &Loaded,
        clause: ClauseNo,
        workspace: &mut Workspace,
    ) -> Result<(), AllocError>
        requires program { N.program ≡ named loaded.now }
        requires next { HasNextCall N.program self.old clause.0 }
        ensures same { SameKey self.old self.new }
        ensures used { OnOk result (self.new.used
            ≡ self.old.used + clause_weight (clause_at N.program.program clause.0)) }
        ensures reduced { OnOk result (IsReduced N.program self.old self.new clause.0) }
        ensures back { OnOk result (KeepsBack self.old self.new) }
    {
        let weight = loaded.weight(clause);
        let head = loaded.head(clause);
        let items = loaded.items(clause);
        let node = self.used;
        let call = self.next_node(loaded);
        match self.enter_next(loaded, call, clause, weight, head, items, workspace)? {
            Entered::Solved => self.put_body(loaded, items, 0, clause, node),
            Entered::NoSolution => Ok(()),
        }
    }

    /// The node of the next goal, a call. Takes no memory.
    fn next_node(&self, loaded: &Loaded) -> NodeNo
        requires program { N.program ≡ named loaded.now }
        requires next { (clause : ℕ) × HasNextCall N.program self.now clause }
        ensures { IsNextNode N.program self.now result.0 }
    {
        loaded.skeleton_is_of_the_program();
        let Some(goal) = self.goals.next() else {
            unreachable!()
        };
        node_of(loaded, &self.cells, goal)
    }

    /// The same by a clause that has this weight, this head and these items, of a call whose node this is, where the
    /// goals of the body are still to be put.
    #[inline(always)]
    fn enter_next(
        &mut self,
        loaded: &Loaded,
        call: NodeNo,
        clause: ClauseNo,
        weight: u32,
        head: NodeNo,
        items: &[ItemNode],
        workspace: &mut Workspace,
    ) -> Result<Entered, AllocError>
        requires program { N.program ≡ named loaded.now }
        requires next { HasNextCall N.program self.old clause.0 }
        requires call { IsNextNode N.program self.old call.0 }
        requires weight { weight ≡ clause_weight (clause_at N.program.program clause.0) }
        requires head { IsHeadOf N.program clause.0 head.0 }
        requires items { AreItemsOf N.program clause.0 items.now }
        ensures same { SameKey self.old self.new }
        ensures used { OnOk result (self.new.used
            ≡ self.old.used + clause_weight (clause_at N.program.program clause.0)) }
        ensures live { result ≡ Ok Entered.Solved → self.new.is_failed ≡ self.old.is_failed }
        ensures entered { result ≡ Ok Entered.Solved → IsReduced N.program self.old
            (with_body N.program clause.0 self.old.used 0 self.new) clause.0 }
        ensures fails { result ≡ Ok Entered.NoSolution
            → IsReduced N.program self.old self.new clause.0 × (self.new.is_failed ≡ true) }
        ensures back { OnOk result (KeepsBack self.old self.new) }
    {
        let goal = self.take_next();
        self.enter_goal(loaded, goal, call, clause, weight, head, items, workspace)
    }

    /// Takes the next goal out. Takes no memory.
    #[inline(always)]
    fn take_next(&mut self) -> Goal
        requires next { (goal : Goal) × (rest : List Goal) × (self.old.right ≡ goal ∷ rest) }
        ensures same { SameKey self.old self.new }
        ensures next { self.old.right ≡ result ∷ self.new.right }
        ensures dropped { IsDropped self.old self.new self.new.right }
    {
        let Some(goal) = self.goals.pop() else {
            unreachable!()
        };
        goal
    }

    /// The same of a call that is not on the list of goals.
    #[inline(always)]
    pub(crate) fn enter_goal(
        &mut self,
        loaded: &Loaded,
        goal: Goal,
        call: NodeNo,
        clause: ClauseNo,
        weight: u32,
        head: NodeNo,
        items: &[ItemNode],
        workspace: &mut Workspace,
    ) -> Result<Entered, AllocError>
        requires program { N.program ≡ named loaded.now }
        requires next { HasNextCall N.program (with_next goal self.old) clause.0 }
        requires call { IsNodeOf N.program self.old.row goal call.0 }
        requires weight { weight ≡ clause_weight (clause_at N.program.program clause.0) }
        requires head { IsHeadOf N.program clause.0 head.0 }
        requires items { AreItemsOf N.program clause.0 items.now }
        ensures same { SameKey self.old self.new }
        ensures used { OnOk result (self.new.used
            ≡ self.old.used + clause_weight (clause_at N.program.program clause.0)) }
        ensures live { result ≡ Ok Entered.Solved → self.new.is_failed ≡ self.old.is_failed }
        ensures entered { result ≡ Ok Entered.Solved → IsReduced N.program (with_next goal self.old)
            (with_body N.program clause.0 self.old.used 0 self.new) clause.0 }
        ensures fails { result ≡ Ok Entered.NoSolution
            → IsReduced N.program (with_next goal self.old) self.new clause.0 × (self.new.is_failed ≡ true) }
        ensures back { OnOk result (KeepsBack self.old self.new) }
    {
        loaded.skeleton_is_of_the_program();
        let node = self.used;
        self.used += weight;
        push_reduction(&mut self.reductions, goal, clause, node)?;
        let tools = &mut workspace.tools;
        match take(
            loaded,
            &mut self.cells,
            goal,
            call,
            clause,
            weight,
            head,
            items,
            &mut self.trail,
            tools,
        )? {
            Entered::Solved => Ok(Entered::Solved),
            Entered::NoSolution => {
                self.is_failed = true;
                Ok(Entered::NoSolution)
            }
        }
    }
}
