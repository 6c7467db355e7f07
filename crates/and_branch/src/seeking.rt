//! The place where a branch is at work among its goals.

ghost use Rattle.std.specs.Prelude.{◌≡◌, ◌<◌, ◌≤◌, ◌+◌, ◌++◌, ◌∷◌, [], List, OnOk, Ok, true, false, length};
ghost use Rattle.and_model.specs.declared.goal.Goal.{Goal};
ghost use Rattle.and_branch_parts.specs.Branches.{SameKey};
ghost use Rattle.and_branch_parts.specs.Next.{IsMoved, IsSameItem, HasItem};

use crate::branch::Branch;
use and_cells::Naming;
use and_model::Goal;
use std::alloc::AllocError;

impl<N: Naming> Branch<N> {
    /// Begins before the first goal. An error is want of memory, and the branch is spent.
    pub(crate) fn rewind(&mut self) -> Result<(), AllocError>
        ensures same { SameKey self.old self.new }
        ensures moved { OnOk result (IsMoved self.old self.new) }
        ensures first { OnOk result (self.new.left ≡ []) }
    {
        self.goals.rewind()
    }

    /// Goes past the next goal. An error is want of memory, and the branch is spent.
    pub(crate) fn pass(&mut self) -> Result<(), AllocError>
        requires next { (g : Goal) × (rest : List Goal) × (self.old.right ≡ g ∷ rest) }
        ensures same { SameKey self.old self.new }
        ensures moved { OnOk result (IsMoved self.old self.new) }
        ensures passed { OnOk result ((g : Goal) (rest : List Goal) → self.old.right ≡ g ∷ rest
            → (self.new.right ≡ rest) × (self.new.left ≡ self.old.left ++ g ∷ [])) }
    {
        self.goals.pass()
    }

    /// Goes to a goal, which is there. An error is want of memory, and the branch is spent.
    pub(crate) fn seek(&mut self, goal: Goal) -> Result<(), AllocError>
        requires there { HasItem (self.old.left ++ self.old.right) goal }
        ensures same { SameKey self.old self.new }
        ensures moved { OnOk result (IsMoved self.old self.new) }
        ensures found { OnOk result ((g : Goal) × (rest : List Goal) × (self.new.right ≡ g ∷ rest)
            × IsSameItem g goal) }
    {
        self.pass_all()?;
        while !self.is_next(goal) {
            self.pass_back()?;
        }
        Ok(())
    }

    /// Goes past all goals. An error is want of memory, and the branch is spent.
    fn pass_all(&mut self) -> Result<(), AllocError>
        ensures same { SameKey self.old self.new }
        ensures moved { OnOk result (IsMoved self.old self.new) }
        ensures last { OnOk result (self.new.right ≡ []) }
    {
        while self.has_next() {
            self.pass()?;
        }
        Ok(())
    }

    /// Whether there is a goal at the place of work.
    fn has_next(&self) -> bool
        ensures next { result ≡ true → (g : Goal) × (rest : List Goal) × (self.now.right ≡ g ∷ rest) }
        ensures none { result ≡ false → self.now.right ≡ [] }
    {
        self.goals.next().is_some()
    }

    /// How many goals there are from the place of work on. Takes no memory.
    pub(crate) fn count_ahead(&self) -> usize
        ensures { result ≡ length self.now.right }
    {
        self.goals.count_ahead()
    }

    /// Goes back before the last goal that was passed, which is there. An error is want of memory, and the
    /// branch is spent.
    pub(crate) fn pass_back(&mut self) -> Result<(), AllocError>
        requires { (front : List Goal) × (g : Goal) × (self.old.left ≡ front ++ g ∷ []) }
        ensures same { SameKey self.old self.new }
        ensures moved { OnOk result (IsMoved self.old self.new) }
        ensures passed { OnOk result ((front : List Goal) (g : Goal) → self.old.left ≡ front ++ g ∷ []
            → (self.new.left ≡ front) × (self.new.right ≡ g ∷ self.old.right)) }
    {
        let _is_there = self.goals.go_back()?;
        Ok(())
    }

    /// Goes back over goals that are asleep, to before the last that was passed and is not. Answers whether there is
    /// one. An error is want of memory, and the branch is spent.
    pub(crate) fn back_up(&mut self) -> Result<bool, AllocError>
        ensures same { SameKey self.old self.new }
        ensures moved { OnOk result (IsMoved self.old self.new) }
        ensures before { result ≡ Ok true → length self.new.left < length self.old.left }
    {
        self.goals.go_back_over_sleepers(&self.cells)
    }

    /// Goes back before the goal that was passed last, if it was asleep and no longer is. An error is want of memory,
    /// and the branch is spent.
    #[inline(always)]
    pub(crate) fn back_to_woken(&mut self) -> Result<(), AllocError>
        ensures same { SameKey self.old self.new }
        ensures moved { OnOk result (IsMoved self.old self.new) }
        ensures near { OnOk result (length self.new.right ≤ length self.old.right + 1) }
    {
        self.goals.go_back_to_woken(&self.cells)
    }

    /// Whether the next goal is this one.
    fn is_next(&self, goal: Goal) -> bool
        ensures next { result ≡ true → (g : Goal) × (rest : List Goal) × (self.now.right ≡ g ∷ rest)
            × IsSameItem g goal }
        ensures another { result ≡ false → (g : Goal) (rest : List Goal) → self.now.right ≡ g ∷ rest
            → IsSameItem g goal → ⊥ }
    {
        match self.goals.next() {
            Some(next) => next.node == goal.node && next.item == goal.item,
            None => false,
        }
    }
}
