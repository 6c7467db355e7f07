//! The ways in which a round goes over the goals of a branch.

ghost use Rattle.std.specs.Prelude.{◌≡◌, ◌≤◌, ◌+◌, ◌++◌, ◌∷◌, [], List, OnOk, IfOk, length};
ghost use Rattle.and_model.specs.declared.goal.Goal.{Goal};
ghost use Rattle.and_branch_parts.specs.Branches.{IsBranch, SameKey};
ghost use Rattle.and_branch_parts.specs.Finding.{with_passed};
ghost use Rattle.and_branch_parts.specs.Next.{IsMoved};
ghost use Rattle.and_branch_parts.specs.Rounds.{StepsOn};
ghost use Rattle.and_branch_parts.specs.Ways.{HasCome, HasNoted};

use crate::branch::Branch;
use and_branch_parts::{HeavyCall, Seen, Way, with_passed};
use and_cells::Naming;
use and_model::Goal;
use std::alloc::AllocError;

impl<N: Naming> Branch<N> {
    /// Goes to the next goal on a round's way, past those that sleep. Answers whether there may be one. An error is
    /// want of memory, and the branch is spent.
    #[inline(always)]
    pub(crate) fn come_to_next(&mut self, way: Way) -> Result<bool, AllocError>
        requires branch { IsBranch N.program self.old }
        ensures same { SameKey self.old self.new }
        ensures steps { OnOk result (StepsOn N.program self.old self.new) }
        ensures came { IfOk result (HasCome N.program way self.old self.new) }
    {
        match way {
            Way::Onward => {
                self.pass_sleepers()?;
                Ok(true)
            }
            Way::Back => self.back_up(),
        }
    }

    /// Turns to a goal that waited for what was set just now, on the way onward, if it is the last that was passed (on
    /// the way back it comes next anyway): so goals that wake one another across the place of work need no round each.
    /// An error is want of memory, and the branch is spent.
    #[inline(always)]
    pub(crate) fn turn_to_woken(&mut self, way: Way) -> Result<(), AllocError>
        ensures same { SameKey self.old self.new }
        ensures moved { OnOk result (IsMoved self.old self.new) }
        ensures near { OnOk result (length self.new.right ≤ length self.old.right + 1) }
    {
        match way {
            Way::Onward => self.back_to_woken(),
            Way::Back => Ok(()),
        }
    }

    /// Notes what was seen of the goal that was passed, on the way onward, and goes back before it on the way back.
    /// An error is want of memory, and the branch is spent.
    pub(crate) fn note_passed(
        &mut self,
        way: Way,
        heavy: Option<HeavyCall>,
        goal: Goal,
        seen: Seen,
    ) -> Result<Option<HeavyCall>, AllocError>
        requires passed { (front : List Goal) × (self.old.left ≡ front ++ goal ∷ []) }
        ensures same { SameKey self.old self.new }
        ensures noted { IfOk result (HasNoted way self.old self.new (with_passed heavy goal seen)) }
    {
        match way {
            Way::Onward => Ok(with_passed(heavy, goal, seen)),
            Way::Back => {
                self.pass_back()?;
                Ok(heavy)
            }
        }
    }
}
