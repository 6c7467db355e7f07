//! The choicepoints of a walk, which have one row together.

ghost use Rattle.std.specs.Prelude.{◌≡◌, ◌≢◌, ◌∷◌, [], reverse, OnOk, IfSome, IfNone};
ghost use Rattle.and_model.specs.Prefixes.{IsPrefix};
ghost use Rattle.and_model.specs.Trees.{QueryTree};
ghost use Rattle.and_cells.specs.Parts.{named};
ghost use Rattle.and_code.specs.Telling.{left_of};
ghost use Rattle.and_branch.specs.Children.{AreChildren, Fork, IsChild};
ghost use Rattle.and_branch.specs.Origins.{GoesBack, KeepsBack};
ghost use Rattle.and_visit.specs.Walking.{left_on_top};

use and_branch::{Branch, Choicepoint, Workspace};
use and_cells::Naming;
use and_code::CodeSoFar;
use and_program::Loaded;
use std::alloc::{AllocError, Global};

/// A branch that is to be walked, how far its key is told, and how many forks it stands below.
pub struct Hand<N: Naming> {
    pub branch: Branch<N>,
    pub told: CodeSoFar,
    pub depth: u32,
}

// By hand, so that it is proved once, here.
impl<N: Naming> Drop for Hand<N> {
    fn drop(self) {
        let Hand {
            branch: _,
            told: _,
            depth: _,
        } = self;
    }
}

/// A choicepoint, how far the key of the branch that was forked is told: as far as it was decided; and how many forks
/// its children stand below.
pub struct Level<N: Naming> {
    pub point: Choicepoint<N>,
    pub told: CodeSoFar,
    pub depth: u32,
}

// By hand, so that it is proved once, here.
impl<N: Naming> Drop for Level<N> {
    fn drop(self) {
        let Level {
            point: _,
            told: _,
            depth: _,
        } = self;
    }
}

/// Puts a choicepoint on top. An error is want of memory.
pub fn put<N: Naming>(stack: &mut Vec<Level<N>>, level: Level<N>) -> Result<(), AllocError>
    ensures { OnOk result (reverse stack.new.items ≡ level ∷ reverse stack.old.items) }
{
    stack.push(level)?;
    Ok(())
}

/// Takes the one that is on top; `None` where there is none. Takes no memory.
pub fn take_top<N: Naming>(stack: &mut Vec<Level<N>>) -> Option<Level<N>>
    ensures none { IfNone result (reverse stack.old.items ≡ []) }
    ensures some { IfSome result (λ level. reverse stack.old.items ≡ level ∷ reverse stack.new.items) }
{
    stack.pop()
}

/// How many children of the fork on top are still to come; none where there is no fork. Takes no memory.
pub fn left_on_top<N: Naming>(stack: &Vec<Level<N>>) -> usize
    ensures { result ≡ left_on_top (reverse stack.now.items) }
{
    let count = stack.len();
    if count == 0 {
        return 0;
    }
    stack[count - 1].point.left()
}

impl<N: Naming> Level<N> {
    /// Has the next child in hand, made of what is left of a branch there. An error is want of memory.
    pub fn next(
        &mut self,
        alloc: Global,
        loaded: &Loaded,
        hand: &mut Hand<N>,
        workspace: &mut Workspace,
    ) -> Result<(), AllocError>
        requires program { N.program ≡ named loaded.now }
        requires children { (t : QueryTree N.program.program) × AreChildren N.program self.old.point t }
        requires key { IsPrefix self.old.point.longer hand.old.branch.key }
        requires some { self.old.point.clauses ≢ [] }
        requires back { GoesBack self.old.point.parent hand.old.branch }
        ensures child { OnOk result (IsChild N.program self.old.point self.new.point hand.new.branch) }
        ensures back { OnOk result (GoesBack self.old.point.parent hand.new.branch) }
        ensures length { OnOk result (hand.new.told.length ≡ self.old.told.length) }
        ensures left { OnOk result (left_of hand.new.told ≡ left_of self.old.told) }
        ensures depth { OnOk result (hand.new.depth ≡ self.old.depth) }
        ensures same { self.new ≡ record self.old { point = self.new.point } }
    {
        self.point
            .next_in_place(loaded, &mut hand.branch, workspace)?;
        let own = self.told.copy(alloc)?;
        hand.told = own;
        hand.depth = self.depth;
        Ok(())
    }

    /// Has the last child in hand, made in the same way. An error is want of memory.
    pub fn last(
        self,
        loaded: &Loaded,
        hand: &mut Hand<N>,
        workspace: &mut Workspace,
    ) -> Result<(), AllocError>
        requires program { N.program ≡ named loaded.now }
        requires children { (t : QueryTree N.program.program) × AreChildren N.program self.point t }
        requires key { IsPrefix self.point.longer hand.old.branch.key }
        requires some { self.point.clauses ≢ [] }
        requires back { GoesBack self.point.parent hand.old.branch }
        ensures child { OnOk result ((rest : Fork) × IsChild N.program self.point rest hand.new.branch) }
        ensures back { OnOk result (KeepsBack self.point.parent hand.new.branch) }
        ensures placed { OnOk result (hand.new
            ≡ record { branch = hand.new.branch; told = self.told; depth = self.depth }) }
    {
        let Level { point, told, depth } = self;
        point.last_in_place(loaded, &mut hand.branch, workspace)?;
        hand.told = told;
        hand.depth = depth;
        Ok(())
    }
}
