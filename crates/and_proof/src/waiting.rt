//! Goals of arithmetic that wait, and rounds of running them.

ghost use Rattle.std.specs.Prelude.{◌≡◌, ◌++◌, ◌∷◌, [], true, false, Ok, IfOk, OnOk, IsNone, IfSome, List};
ghost use Rattle.and_model.specs.Reductions.{Reduction};
ghost use Rattle.and_model.specs.Trees.{QueryTree};
ghost use Rattle.and_cells.specs.Parts.{named};
ghost use Rattle.and_proof.specs.Stacks.{in_order, goals_before, goals_behind, NoneBehind, NoneBefore};
ghost use Rattle.and_proof.specs.Rounds.{KeepsWhole, HasNone, IsRound};
ghost use Rattle.and_proof.specs.declared.waiting.Waiting.{Waiting};
ghost use Rattle.and_proof.specs.Unfolding.{IsWholeIn, AllWait};

use crate::workspace::Workspace;
use and_cells::{Naming, PlainCells};
use and_model::{Goal, GoalList};
use and_program::Loaded;
use and_reduction::{Ran, run};
use std::alloc::{AllocError, Global};

/// Which way a round goes through the goals.
#[derive(Clone, Copy, PartialEq, Eq, Debug)]
pub(crate) enum Way {
    /// From the first to the last.
    Onward,
    /// From the last to the first.
    Back,
}

/// What a round comes to.
#[derive(Clone, Copy, PartialEq, Eq, Debug)]
pub(crate) enum Round {
    /// All goals that are left wait.
    Still,
    /// Some goal was run.
    Changed,
    /// Some goal cannot hold.
    False,
}

/// Goals of arithmetic in their order, in two stacks about a place of work.
pub(crate) struct Waiting {
    /// Those before the place, the nearest last.
    left: Vec<Goal>,
    /// Those behind it, the nearest last.
    right: Vec<Goal>,
}

// By hand, so that it is proved once, here.
impl Drop for Waiting {
    fn drop(self) {
        let Waiting { left: _, right: _ } = self;
    }
}

impl Waiting {
    /// These goals, behind which work begins. Takes no memory.
    pub(crate) fn behind(alloc: Global, goals: Vec<Goal>) -> Waiting
        ensures left { result.left.items ≡ goals.items }
        ensures right { result.right.items ≡ [] }
    {
        Waiting {
            left: goals,
            right: Vec::new(alloc),
        }
    }

    /// Takes out the next goal on the way; `None` where there is none. Takes no memory.
    fn take(&mut self, way: Way) -> Option<Goal>
        ensures some { IfSome result (λ goal. goals_before way self.old ≡ goals_before way self.new ++ goal ∷ []) }
        ensures none { IsNone result → NoneBefore way self.old × NoneBefore way self.new }
        ensures behind { goals_behind way self.new ≡ goals_behind way self.old }
    {
        match way {
            Way::Onward => self.right.pop(),
            Way::Back => self.left.pop(),
        }
    }

    /// Puts a goal behind who goes that way. An error is want of memory.
    fn put(&mut self, way: Way, goal: Goal) -> Result<(), AllocError>
        ensures put { OnOk result (goals_behind way self.new ≡ goals_behind way self.old ++ goal ∷ []) }
        ensures before { goals_before way self.new ≡ goals_before way self.old }
    {
        match way {
            Way::Onward => self.left.push(goal)?,
            Way::Back => self.right.push(goal)?,
        }
        Ok(())
    }

    /// All of them, in their order. An error is want of memory.
    pub(crate) fn all(&self, alloc: Global) -> Result<GoalList, AllocError>
        ensures { IfOk result (λ goals. goals ≡ in_order self.now) }
    {
        let mut goals = GoalList::new(alloc);
        for goal in &self.left {
            push(&mut goals, *goal)?;
        }
        let mut place = self.right.len();
        while place > 0 {
            place -= 1;
            push(&mut goals, self.right[place])?;
        }
        Ok(goals)
    }
}

/// Puts a goal at the end. An error is want of memory.
fn push(goals: &mut GoalList, goal: Goal) -> Result<(), AllocError>
    ensures { OnOk result (goals.new ≡ goals.old ++ goal ∷ []) }
{
    match goals.push(goal) {
        Ok(()) => Ok(()),
        Err(_) => Err(AllocError),
    }
}

/// Runs the arithmetic of a whole tree until all that is left waits, and answers whether none was false. An error is
/// want of memory.
pub(crate) fn run_arithmetic<N: Naming>(
    loaded: &Loaded,
    cells: &mut PlainCells<N>,
    waiting: &mut Waiting,
    workspace: &mut Workspace,
) -> Result<bool, AllocError>
    requires program { N.program ≡ named loaded.now }
    requires whole { (rs : List Reduction) × (t : QueryTree N.program.program)
        × IsWholeIn N.program rs cells.old (in_order waiting.old) t }
    requires behind { waiting.old.right.items ≡ [] }
    ensures run { result ≡ Ok true → KeepsWhole N.program cells.old cells.new waiting.old waiting.new }
    ensures still { result ≡ Ok true → AllWait N.program cells.new (in_order waiting.new) }
    ensures none { result ≡ Ok false → HasNone N.program cells.old waiting.old }
{
    let mut way = Way::Back;
    'rounds: loop {
        match go_round(loaded, cells, waiting, way, workspace)? {
            Round::Still => return Ok(true),
            Round::Changed => {}
            Round::False => return Ok(false),
        }
        way = other(way);
    }
}

/// The other way. Takes no memory.
fn other(way: Way) -> Way
    ensures { (waiting : Waiting) → NoneBefore way waiting → NoneBehind result waiting }
{
    match way {
        Way::Onward => Way::Back,
        Way::Back => Way::Onward,
    }
}

/// Runs once each goal of arithmetic that can be run, going that way. An error is want of memory.
fn go_round<N: Naming>(
    loaded: &Loaded,
    cells: &mut PlainCells<N>,
    waiting: &mut Waiting,
    way: Way,
    workspace: &mut Workspace,
) -> Result<Round, AllocError>
    requires program { N.program ≡ named loaded.now }
    requires whole { (rs : List Reduction) × (t : QueryTree N.program.program)
        × IsWholeIn N.program rs cells.old (in_order waiting.old) t }
    requires start { NoneBehind way waiting.old }
    ensures { IfOk result (IsRound N.program cells.old cells.new waiting.old waiting.new way) }
{
    loaded.skeleton_is_of_the_program();
    let mut round = Round::Still;
    'goals: loop {
        let Some(goal) = waiting.take(way) else {
            return Ok(round);
        };
        match run(
            loaded,
            cells,
            goal,
            &mut workspace.trail,
            &mut workspace.tools,
        )? {
            Ran::Waits { cell: _ } => {
                waiting.put(way, goal)?;
            }
            Ran::Done => round = Round::Changed,
            Ran::False => return Ok(Round::False),
        }
    }
}
