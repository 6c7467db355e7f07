//! What a team has still to explore.
//!
//! The forks of a stack have one row together, that of the branch at work on top of them.

ghost use Rattle.std.specs.Prelude.{ℕ, ◌≡◌, ◌≢◌, ◌<◌, ◌≤◌, ◌++◌, ◌∷◌, List, [], drop, length, slice_get, OnErr, OnOk};
ghost use Rattle.std.specs.Prelude.{Option, Some};
ghost use Rattle.std.specs.Prelude.{IfOk};
ghost use Rattle.std.specs.Prelude.{IfSome};
ghost use Rattle.and_program.specs.Loaded.{program_of};
ghost use Rattle.and_model.specs.Trees.{QueryTree};
ghost use Rattle.and_cells.specs.Parts.{named};
ghost use Rattle.and_code.specs.Telling.{IsTold};
ghost use Rattle.and_branch.specs.Branches.{Held};
ghost use Rattle.and_branch.specs.Children.{AreChildren, IsChild};
ghost use Rattle.and_branch.specs.Origins.{GoesBack};
ghost use Rattle.and_tasks.specs.Working.{AreServed, AreTasks, HasNext, Serves, above};
ghost use Rattle.and_tasks.specs.Copying.{IsCopyAt};

use and_branch::{Branch, Choicepoint, Workspace};
use and_cells::Naming;
use and_code::CodeSoFar;
use and_model::Code;
use and_program::Loaded;
use std::alloc::{AllocError, Global};
use std::snapshot::Snapshot;

/// A branch that is to be explored, how far its key is told, and how many clauses of that are the first of the last
/// answer's code too, as far as the team knows.
#[derive(Drop)]
pub struct Hand<N: Naming> {
    pub branch: Branch<N>,
    pub told: CodeSoFar,
    pub common: usize,
}

/// A fork some of whose children are still to come. Each is made of what is left of a branch above it.
#[derive(Drop)]
pub struct Level<N: Naming> {
    pub point: Choicepoint<N>,
    /// How far the key of the branch that was forked is told: as far as it was decided.
    pub told: CodeSoFar,
    /// What was decided in it: the keys of its children, but for their clauses. (For contracts alone.)
    pub longer: Snapshot<Code>,
}

/// What a team has still to explore.
#[derive(Drop)]
pub enum Task<N: Naming> {
    /// A branch.
    One(Branch<N>),
    /// The children of a fork that are still to come. Their keys are those of the fork with a clause at
    /// their ends, so that they can be given up without memory, and before they are made.
    Children(Level<N>),
    /// What is left of a branch, of which children of the forks below are made, where a branch with a row of its own
    /// stands above.
    Left(Branch<N>),
}

/// Nothing of a key is told. Takes no memory.
pub fn untold(alloc: Global, loaded: &Loaded) -> CodeSoFar
    ensures told { IsTold (program_of loaded.now) [] result [] }
    ensures length { result.length ≡ 0 }
{
    let mut told = CodeSoFar::begun(alloc, loaded);
    told.length = 0;
    told
}

impl<N: Naming> Level<N> {
    /// The children of a fork, of which none was made yet. Takes no memory.
    pub fn new(point: Choicepoint<N>, told: CodeSoFar, longer: Snapshot<Code>) -> Level<N>
        ensures { result ≡ record { point = point; told = told; longer = longer } }
    {
        Level {
            point,
            told,
            longer,
        }
    }

    /// What is left of a branch becomes the next child. An error is want of memory, and the branch is spent.
    pub fn next(
        &mut self,
        loaded: &Loaded,
        branch: &mut Branch<N>,
        workspace: &mut Workspace,
    ) -> Result<(), AllocError>
        requires program { N.program ≡ named loaded.now }
        requires children { (t : QueryTree N.program.program) × AreChildren N.program self.old.point t }
        requires left { Serves self.old branch.old }
        requires some { self.old.point.clauses ≢ [] }
        ensures child { OnOk result (IsChild N.program self.old.point self.new.point branch.new) }
        ensures back { OnOk result (GoesBack self.old.point.parent branch.new) }
        ensures unchanged { OnErr result (self.new.point ≡ self.old.point) }
        ensures same { self.new ≡ record self.old { point = self.new.point } }
    {
        self.point.next_in_place(loaded, branch, workspace)
    }

    /// Has the next child in hand, made of what is left of a branch there. An error is want of memory, and the branch
    /// is spent.
    pub fn next_in_hand(
        &mut self,
        alloc: Global,
        loaded: &Loaded,
        hand: &mut Hand<N>,
        workspace: &mut Workspace,
    ) -> Result<(), AllocError>
        requires program { N.program ≡ named loaded.now }
        requires children { (t : QueryTree N.program.program) × AreChildren N.program self.old.point t }
        requires left { Serves self.old hand.old.branch }
        requires some { self.old.point.clauses ≢ [] }
        ensures next { OnOk result (HasNext N.program self.old self.new hand.old.common hand.new) }
        ensures unchanged { OnErr result (self.new.point ≡ self.old.point) }
        ensures same { self.new ≡ record self.old { point = self.new.point } }
    {
        let told = self.told.copy(alloc)?;
        let common = lesser(hand.common, self.told.length);
        hand.common = common;
        hand.told = told;
        self.next(loaded, &mut hand.branch, workspace)
    }
}

impl<N: Naming> Task<N> {
    /// Has the next child of the fork that it is in hand, made of what is left of a branch there. An error is want of
    /// memory, and the branch is spent.
    pub fn next_in_hand(
        &mut self,
        alloc: Global,
        loaded: &Loaded,
        hand: &mut Hand<N>,
        workspace: &mut Workspace,
    ) -> Result<(), AllocError>
        requires program { N.program ≡ named loaded.now }
        requires fork { (level : Level N) × (self.old ≡ Task.Children level) × (level.point.clauses ≢ [])
            × Serves level hand.old.branch
            × (t : QueryTree N.program.program) × AreChildren N.program level.point t }
        ensures next { (level : Level N) → self.old ≡ Task.Children level → OnOk result ((now : Level N)
            × (self.new ≡ Task.Children now) × HasNext N.program level now hand.old.common hand.new) }
        ensures unchanged { OnErr result (self.new ≡ self.old) }
    {
        match self {
            Task::Children(level) => level.next_in_hand(alloc, loaded, hand, workspace),
            Task::One(_) => Err(AllocError),
            Task::Left(_) => Err(AllocError),
        }
    }
}

/// The lesser of two numbers.
pub fn lesser(one: usize, other: usize) -> usize
    ensures first { result ≤ one }
    ensures second { result ≤ other }
{
    if one < other { one } else { other }
}

/// The fork at a place of a stack, if one stands there. Takes no memory.
fn level_at<N: Naming>(stack: &[Task<N>], place: usize) -> Option<&Level<N>>
    requires { place < length stack.now }
    ensures { IfSome result (λ level. slice_get stack.now place ≡ Some (Task.Children level.now)) }
{
    match &stack[place] {
        Task::One(_) => None,
        Task::Children(level) => Some(level),
        Task::Left(_) => None,
    }
}

/// How many children of the fork on top of a stack are still to come; none where no fork is on top. Takes no memory.
pub fn left_on_top<N: Naming>(stack: &[Task<N>]) -> usize
    ensures { result ≢ 0 → (level : Level N) × (below : List (Task N)) × (stack.now ≡ below ++ Task.Children level ∷ [])
        × (result ≡ length level.point.clauses) }
{
    let count = stack.len();
    if count == 0 {
        return 0;
    }
    match level_at(stack, count - 1) {
        Some(level) => level.point.left(),
        None => 0,
    }
}

/// How many forks stand at the bottom of a stack, with nothing between them. Takes no memory.
fn forks_below<N: Naming>(stack: &[Task<N>]) -> usize
    ensures { result ≤ length stack.now }
{
    for place in 0..stack.len() {
        if level_at(stack, place).is_none() {
            return place;
        }
    }
    stack.len()
}

/// What is left of a branch at a place of the stack, if anything is; behind its end what is left in hand. Takes no
/// memory.
fn left_at<'a, N: Naming>(
    stack: &'a [Task<N>],
    place: usize,
    left: &'a Branch<N>,
) -> Option<&'a Branch<N>>
    requires { place ≤ length stack.now }
    ensures { IfSome result (λ b. above (Some left.now) (drop place stack.now) ≡ Some b.now) }
{
    if place >= stack.len() {
        return Some(left);
    }
    match &stack[place] {
        Task::One(_) => None,
        Task::Children(_) => None,
        Task::Left(branch) => Some(branch),
    }
}

/// A copy of which the next child of the oldest fork can be made, if a fork is the oldest task. An error is want of
/// memory.
pub fn copy_for_oldest<N: Naming>(
    alloc: Global,
    stack: &[Task<N>],
    left: &Branch<N>,
) -> Result<Option<Branch<N>>, AllocError>
    requires tasks { (limit : ℕ) × AreTasks N.program limit stack.now }
    requires served { AreServed (Some left.now) stack.now }
    ensures { IfOk result (λ copy. IfSome copy (IsCopyAt stack.now 0)) }
{
    let forks = forks_below(stack);
    if forks == 0 {
        return Ok(None);
    }
    let Some(level) = level_at(stack, forks - 1) else {
        return Ok(None);
    };
    let Some(branch) = left_at(stack, forks, left) else {
        return Ok(None);
    };
    let copy = level.point.copied(alloc, branch)?;
    Ok(taken_down(stack, forks - 1, copy))
}

/// A copy for the fork at this place, taken down to the oldest. Takes no memory.
fn taken_down<N: Naming>(stack: &[Task<N>], place: usize, copy: Branch<N>) -> Option<Branch<N>>
    requires tasks { (limit : ℕ) × AreTasks N.program limit stack.now }
    requires served { (left : Option Held) × AreServed left stack.now }
    requires place { place < length stack.now }
    requires copy { IsCopyAt stack.now place copy }
    ensures { IfSome result (IsCopyAt stack.now 0) }
{
    let mut copy = copy;
    let mut at = place;
    while at > 0 {
        let Some(above) = level_at(stack, at) else {
            drop(copy);
            return None;
        };
        at -= 1;
        let Some(level) = level_at(stack, at) else {
            drop(copy);
            return None;
        };
        copy = level.point.taken_below(&above.point, copy);
    }
    Some(copy)
}
