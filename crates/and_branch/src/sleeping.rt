//! What a branch watches of its goals, so that it need not look at them again.

ghost use Rattle.std.specs.Prelude.{◌≡◌, ◌∷◌, List, OnOk, IfSome};
ghost use Rattle.and_model.specs.Programs.{Arithmetic, arithmetic};
ghost use Rattle.and_model.specs.declared.goal.Goal.{Goal};
ghost use Rattle.and_cells.specs.Meaning.{IsSettled};
ghost use Rattle.and_cells.specs.Parts.{named};
ghost use Rattle.and_guards.specs.Goals.{CanBeJudged};
ghost use Rattle.and_determinacy.specs.Watching.{TwoStayWhile};
ghost use Rattle.and_branch_laws.specs.Kept.{item_at};
ghost use Rattle.and_reduction.specs.Runs.{WaitsFor};
ghost use Rattle.and_branch_parts.specs.Branches.{SameKey, IsBranch};
ghost use Rattle.and_branch_parts.specs.Next.{IsMoved};
ghost use Rattle.and_branch_parts.specs.Rounds.{StepsOn, WatchesOn, HasPassedSleepers};
ghost use Rattle.and_branch_parts.specs.Watching.{HasTwo, IsAsleep};

use crate::branch::Branch;
use crate::workspace::Workspace;
use and_cells::Naming;
use and_determinacy::watch;
use and_model::Goal;
use and_program::Loaded;
use std::alloc::AllocError;

impl<N: Naming> Branch<N> {
    /// Passes over the goals that are asleep, up to the next that is not. An error is want of memory, and the
    /// branch is spent.
    #[inline(always)]
    pub(crate) fn pass_sleepers(&mut self) -> Result<(), AllocError>
        requires branch { IsBranch N.program self.old }
        ensures same { SameKey self.old self.new }
        ensures steps { OnOk result (StepsOn N.program self.old self.new) }
        ensures passed { OnOk result (HasPassedSleepers N.program self.old self.new) }
    {
        self.goals.pass_sleepers(&self.cells)
    }

    /// Watches the next goal, a call of two candidates: by the cells that the trials tell, or else by those
    /// that it holds, if these are not too many. An error is want of memory, and the branch is spent.
    pub(crate) fn watch_call(
        &mut self,
        loaded: &Loaded,
        goal: Goal,
        workspace: &mut Workspace,
    ) -> Result<(), AllocError>
        requires program { N.program ≡ named loaded.now }
        requires settled { IsSettled N.program self.old.row }
        requires next { (rest : List Goal) × (self.old.right ≡ goal ∷ rest) }
        requires goal { CanBeJudged N.program self.old.row goal }
        requires several { HasTwo N.program self.old.row goal }
        requires told { IfSome workspace.old.trials.rests (TwoStayWhile N.program self.old.row goal) }
        ensures same { SameKey self.old self.new }
        ensures watches { OnOk result (WatchesOn N.program self.old self.new) }
    {
        if let Some(cells) = workspace.trials.told() {
            return self.watch_goal(goal, cells);
        }
        let cells = &mut workspace.watched;
        cells.clear();
        if watch(loaded, &self.cells, goal, &mut workspace.visits, cells)? {
            self.watch_goal(goal, cells)
        } else {
            Ok(())
        }
    }

    /// Watches the next goal, arithmetic that waits for a cell. An error is want of memory, and the branch is
    /// spent.
    pub(crate) fn watch_arithmetic(&mut self, goal: Goal, cell: u32) -> Result<(), AllocError>
        requires next { (rest : List Goal) × (self.old.right ≡ goal ∷ rest) }
        requires arithmetic { (a : Arithmetic) × (item_at N.program.program goal ≡ arithmetic a) }
        requires waits { WaitsFor N.program self.old.row goal cell }
        ensures same { SameKey self.old self.new }
        ensures watches { OnOk result (WatchesOn N.program self.old self.new) }
    {
        self.watch_goal(goal, &[cell])
    }

    /// Watches the next goal, which is asleep while these cells are free. An error is want of memory, and the
    /// branch is spent.
    fn watch_goal(&mut self, goal: Goal, cells: &[u32]) -> Result<(), AllocError>
        requires next { (rest : List Goal) × (self.old.right ≡ goal ∷ rest) }
        requires asleep { IsAsleep N.program self.old.row (record { goal = goal; cells = cells.now }) }
        ensures same { SameKey self.old self.new }
        ensures watches { OnOk result (WatchesOn N.program self.old self.new) }
    {
        self.goals.watch(cells)
    }

    /// Watches no goal any longer, where most cells that are watched are those of goals that are gone. Takes no
    /// memory.
    pub(crate) fn clear_out(&mut self)
        ensures same { SameKey self.old self.new }
        ensures moved { IsMoved self.old self.new }
        ensures left { self.new.left ≡ self.old.left }
    {
        if self.goals.are_worn() {
            self.goals.forget_watches();
        }
    }
}
