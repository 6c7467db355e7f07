//! What is found of a branch's calls: how many candidates they have.

ghost use Rattle.std.specs.Prelude.{◌≡◌, ◌↔◌, length, All, IsTrue, IsNone, IfSome};
ghost use Rattle.and_model.specs.declared.goal.Goal.{Goal};
ghost use Rattle.and_cells.specs.Parts.{named};
ghost use Rattle.and_cells.specs.Ranges.{IsGoalInRange};
ghost use Rattle.and_pending.specs.Pending.{goals_of};
ghost use Rattle.and_branch_parts.specs.Branches.{IsArithmeticGoal};
ghost use Rattle.and_branch_parts.specs.Finding.{AllCalls, IsFirstCall, with_passed};

use and_cells::{Naming, PlainCells};
use and_model::{ClauseNo, Goal};
use and_pending::PendingGoals;
use and_program::{ItemNode, Loaded};

/// What was found of goals, from left to right.
#[derive(Clone, Copy)]
pub enum RoundSoFar {
    /// None is a call.
    NoCall,
    /// Each call has two candidates or more; the leftmost.
    Several { goal: Goal },
    /// The leftmost call with one candidate alone, and none has one alone that fits.
    Heavy { goal: Goal, clause: ClauseNo },
}

/// What was seen of a goal that was passed over.
#[derive(Clone, Copy)]
pub enum Seen {
    /// Arithmetic, which waits.
    Arithmetic,
    /// A call of two candidates or more.
    Several,
    /// A call of this candidate alone, for which there is no room.
    Heavy(ClauseNo),
    /// A call that was not judged.
    NotJudged,
}

/// A call of one candidate alone, for which there is no room.
#[derive(Clone, Copy)]
pub struct HeavyCall {
    pub goal: Goal,
    pub clause: ClauseNo,
}

/// The first of the calls for whose one candidate there is no room, with one more goal behind, of which this was seen.
pub fn with_passed(heavy: Option<HeavyCall>, goal: Goal, seen: Seen) -> Option<HeavyCall>
    ensures { result ≡ with_passed heavy goal seen }
{
    match seen {
        Seen::Arithmetic => heavy,
        Seen::Several => heavy,
        Seen::Heavy(clause) => match heavy {
            None => Some(HeavyCall { goal, clause }),
            Some(first) => Some(first),
        },
        Seen::NotJudged => heavy,
    }
}

/// The first call among the goals before the place of work, if there is one. Takes no memory.
pub fn first_call<N: Naming>(
    loaded: &Loaded,
    cells: &PlainCells<N>,
    goals: &PendingGoals,
) -> Option<Goal>
    requires program { N.program ≡ named loaded.now }
    requires in_range { All (IsGoalInRange N.program (length cells.now)) (goals_of goals.now.left) }
    ensures none { IsNone result → AllCalls N.program (λ g. ⊥) (goals_of goals.now.left) }
    ensures some { IfSome result (IsFirstCall N.program (goals_of goals.now.left)) }
{
    for place in 0..goals.count_before() {
        let goal = goals.at(place);
        if !is_arithmetic(loaded, cells, goal) {
            return Some(goal);
        }
    }
    None
}

/// Whether the goal is arithmetic.
pub fn is_arithmetic<N: Naming>(loaded: &Loaded, cells: &PlainCells<N>, goal: Goal) -> bool
    requires program { N.program ≡ named loaded.now }
    requires in_range { IsGoalInRange N.program (length cells.now) goal }
    ensures { IsTrue result ↔ IsArithmeticGoal N.program goal }
{
    match loaded.items(goal.clause)[goal.item as usize] {
        ItemNode::Call { .. } => false,
        ItemNode::Equal { .. } => false,
        ItemNode::Is { .. } => true,
        ItemNode::Compare { .. } => true,
        ItemNode::Fail => false,
    }
}
