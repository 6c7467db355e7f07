//! A team: what it has found, and what it has still to explore.

ghost use Rattle.std.specs.Prelude.{◌≡◌, ◌≢◌, ◌⊎◌, ◌<◌, ◌*◌, ◌^◌, ◌≤◌, length, ◌++◌, ◌∷◌, [], ℕ, List, Option, None};
ghost use Rattle.std.specs.Prelude.{Some, OnOk, OnErr, IfOk, IfSome, IfNone, true};
ghost use Rattle.and_model.specs.declared.limits.TheConstants.{MAX_LIMIT};
ghost use Rattle.and_model.specs.Trees.{QueryTree, Open};
ghost use Rattle.and_model.specs.Trees as trees;
ghost use Rattle.and_model.specs.Listing.{Outcome, Ends};
ghost use Rattle.and_cells.specs.Parts.{named};
ghost use Rattle.and_clause_index.specs.Tables.{IsTableOf};
ghost use Rattle.and_branch_laws.specs.States.{StateOf, fork};
ghost use Rattle.and_model.specs.Prefixes.{IsPrefix};
ghost use Rattle.and_branch.specs.Branches.{Held, IsBranch, IsBranchOf};
ghost use Rattle.and_branch.specs.Children.{AreChildren};
ghost use Rattle.and_branch.specs.Ended.{HasEnded};
ghost use Rattle.and_branch.specs.Origins.{GoesBack};
ghost use Rattle.and_code.specs.Telling.{IsTold};
ghost use Rattle.and_branch.specs.States.{IsState, IsAtRest, IsCutOf};
ghost use Rattle.and_answers.specs.Kept.{SameEnd, last_code_or, listed};
ghost use Rattle.and_histories.specs.PlainTree.{Key, Owns, children};
ghost use Rattle.and_branch.specs.Ended.{EndsSo};
ghost use Rattle.and_team_laws.specs.Owed.{SameItems};
ghost use Rattle.and_tasks.specs.Working.{AreServed, Has, IsAtWork, IsLeftInHand, IsReady, LeftShares, Serves, Shares};
ghost use Rattle.and_tasks.specs.Working.{Works};
ghost use Rattle.and_tasks.specs.Working.{as_told, at_fork, forked};
ghost use Rattle.and_tasks.specs.Props.{left_shares-prop};
ghost use Rattle.and_tasks.specs.declared.team.TheConstants.{MOST_TASKS};

use crate::placed::{PlacedBranch, PlacedFork};
use crate::stack::{Hand, Level, Task, lesser, untold};
use and_answers::Coded;
use and_branch::{Branch, BranchState, Choicepoint, Workspace};
use and_cells::Naming;
use and_clause_index::Determinacy;
use and_gate::Gate;
use and_model::{ClauseList, Code, Cut, Goal};
use and_program::Loaded;
use and_tree::{Tree, TreePass};
use std::alloc::{AllocError, Global};
use std::mem::replace;
use std::snapshot::Snapshot;

/// A team that has more tasks forks no more: so its hand has no more keys than a tree allows. No team comes
/// so far, since it would have as many branches.
const MOST_TASKS: usize = 1 << 22;

/// How many words a child counts for beside those that its branch grows by.
const A_CHILD: u32 = 8;

/// What all teams share.
#[derive(Drop)]
pub struct Shared<'a, N: Naming, G: Gate> {
    pub alloc: Global,
    pub loaded: &'a Loaded,
    pub table: &'a Determinacy,
    pub tree: &'a Tree<PlacedBranch<N>>,
    pub gate: &'a G,
    /// How many teams there are.
    pub teams: u32,
    /// How many workers each of them has.
    pub workers: u32,
    ghost teams_are: { tree.now.about.teams ≡ teams },
    ghost few_teams: { (0 < teams) × (teams ≤ 16) },
    ghost few_workers: { (0 < workers) × (workers ≤ 8) },
    ghost limited: { tree.now.about.limit ≤ MAX_LIMIT },
}

/// A team.
pub struct Team<N: Naming> {
    pub number: u32,
    pub pass: TreePass<PlacedBranch<N>>,
    pub found: Coded,
    /// What it has still to explore, the oldest first.
    pub stack: Vec<Task<N>>,
    /// What is left of a branch that has ended: the next child of the fork on top of the stack is made of it.
    pub left: Option<Branch<N>>,
    /// How many first clauses of its key are those of the last answer's code too, as far as the team knows.
    pub common: usize,
    pub workspace: Workspace,
    /// How many words it set up since it last copied a row.
    pub(crate) worked: u32,
    /// How many branches more are left to the leader alone, before the other workers may be tried again.
    pub rests: u32,
    ghost number_is: { pass.team ≡ number },
    ghost left_shares: { LeftShares found common left } by { left_shares-prop found common left },
}

// By hand, so that it is proved once, here.
impl<N: Naming> Drop for Team<N> {
    fn drop(self) {
        let Team {
            number: _,
            pass: _,
            found: _,
            stack: _,
            left: _,
            common: _,
            workspace: _,
            worked: _,
            rests: _,
        } = self;
    }
}

impl<N: Naming> Team<N> {
    /// A team that has done nothing.
    pub fn new(alloc: Global, number: u32, pass: TreePass<PlacedBranch<N>>) -> Team<N>
        requires { pass.team ≡ number }
        ensures { (result.pass ≡ pass) × (listed result.found ≡ []) × (result.found.cut ≡ None)
            × (result.found.forks ≡ 0)
            × (result.found.failed ≡ 0) × (result.stack.items ≡ []) }
    {
        Team {
            number,
            pass,
            found: Coded::new(alloc),
            stack: Vec::new(alloc),
            left: None,
            common: 0,
            workspace: Workspace::new(alloc),
            worked: 0,
            rests: 0,
        }
    }

    /// What it found, and its pass. Takes no memory.
    pub fn into_parts(self) -> (Coded, TreePass<PlacedBranch<N>>)
        ensures { (result.0 ≡ self.found) × (result.1 ≡ self.pass) }
    {
        let Team {
            number: _,
            pass,
            found,
            stack,
            left,
            common: _,
            workspace,
            worked: _,
            rests: _,
        } = self;
        drop(stack);
        drop(left);
        drop(workspace);
        (found, pass)
    }
}

impl<N: Naming> Team<N> {
    /// The branch in hand with a row of its own: a copy, where the stack needs its row, which lies there then. After
    /// want of memory it has been given up.
    pub fn own_row<G: Gate>(
        &mut self,
        shared: &Shared<N, G>,
        hand: Hand<N>,
    ) -> Result<Branch<N>, AllocError>
        requires ready { IsReady N.program shared.now.tree.now self.old.pass self.old.found self.old.stack.items hand }
        ensures works { IfOk result (λ own. Works N.program shared.now.tree.now self.new.pass self.new.found
            (Task.One own ∷ self.new.stack.items)) }
        ensures served { OnOk result (AreServed None self.new.stack.items) }
        ensures given_up { OnErr result (Has N.program shared.now.tree.now self.new.pass self.new.stack.items) }
        ensures same { self.new.number ≡ self.old.number }
    {
        let Hand {
            branch,
            told,
            common: _,
        } = hand;
        drop(told);
        if self.stack.len() == 0 {
            return Ok(branch);
        }
        let key = Snapshot::of(branch.key());
        let Ok(own) = branch.copy(shared.alloc) else {
            self.give_up_key(shared, &key);
            drop(branch);
            return Err(AllocError);
        };
        match self.stack.push(Task::Left(branch)) {
            Ok(()) => Ok(own),
            Err(refused) => {
                self.give_up_key(shared, &key);
                drop(refused);
                drop(own);
                Err(AllocError)
            }
        }
    }

    /// Notes that a branch grew.
    pub(crate) fn note_work(&mut self, before: u32, after: u32)
        ensures { (self.new.number ≡ self.old.number) × (self.new.pass ≡ self.old.pass)
            × (self.new.found ≡ self.old.found) × (self.new.stack ≡ self.old.stack) × (self.new.left ≡ self.old.left) }
    {
        let more = after.saturating_sub(before).saturating_add(A_CHILD);
        self.worked = self.worked.saturating_add(more);
    }

    /// The next child of a fork, made of what is left of a branch. The fork is on top of the stack again then, if
    /// others are still to come. After want of memory all of them have been given up.
    pub fn next_child<G: Gate>(
        &mut self,
        shared: &Shared<N, G>,
        level: Level<N>,
    ) -> Result<Hand<N>, AllocError>
        requires program { N.program ≡ named shared.now.loaded.now }
        requires at_work { IsAtWork N.program shared.now.tree.now self.old.pass self.old.found
            (self.old.stack.items ++ Task.Children level ∷ []) self.old.left }
        ensures ready { IfOk result
            (IsReady N.program shared.now.tree.now self.new.pass self.new.found self.new.stack.items) }
        ensures given_up { OnErr result (Has N.program shared.now.tree.now self.new.pass self.new.stack.items) }
        ensures same { self.new.number ≡ self.old.number }
    {
        let Some(left) = self.left.take() else {
            unreachable!()
        };
        let mut hand = Hand {
            branch: left,
            told: untold(shared.alloc, shared.loaded),
            common: self.common,
        };
        match self.child_in_hand(shared, level, &mut hand) {
            Ok(()) => Ok(hand),
            Err(AllocError) => {
                drop(hand);
                Err(AllocError)
            }
        }
    }

    /// Has the next child of a fork in hand, made of what is left of a branch there. The fork is on top of the stack
    /// again then, if others are still to come. After want of memory all of them have been given up.
    pub(crate) fn child_in_hand<G: Gate>(
        &mut self,
        shared: &Shared<N, G>,
        level: Level<N>,
        hand: &mut Hand<N>,
    ) -> Result<(), AllocError>
        requires program { N.program ≡ named shared.now.loaded.now }
        requires works { Works N.program shared.now.tree.now self.old.pass self.old.found
            (Task.Children level ∷ self.old.stack.items) }
        requires left { Serves level hand.old.branch }
        requires served { AreServed (Some (forked level)) self.old.stack.items }
        requires shares { Shares self.old.found hand.old.common hand.old.branch.key }
        ensures ready { OnOk result
            (IsReady N.program shared.now.tree.now self.new.pass self.new.found self.new.stack.items hand.new) }
        ensures given_up { OnErr result (Has N.program shared.now.tree.now self.new.pass self.new.stack.items) }
        ensures same { (self.new.number ≡ self.old.number) × (self.new.left ≡ self.old.left) }
    {
        if level.point.left() == 1 {
            self.last_child(shared, level, hand)
        } else {
            self.another_child(shared, level, hand)
        }
    }

    /// Has the last child of a fork in hand.
    fn last_child<G: Gate>(
        &mut self,
        shared: &Shared<N, G>,
        level: Level<N>,
        hand: &mut Hand<N>,
    ) -> Result<(), AllocError>
        requires program { N.program ≡ named shared.now.loaded.now }
        requires works { Works N.program shared.now.tree.now self.old.pass self.old.found
            (Task.Children level ∷ self.old.stack.items) }
        requires left { Serves level hand.old.branch }
        requires served { AreServed (Some (forked level)) self.old.stack.items }
        requires shares { Shares self.old.found hand.old.common hand.old.branch.key }
        requires one { length level.point.clauses ≡ 1 }
        ensures ready { OnOk result
            (IsReady N.program shared.now.tree.now self.new.pass self.new.found self.new.stack.items hand.new) }
        ensures given_up { OnErr result (Has N.program shared.now.tree.now self.new.pass self.new.stack.items) }
        ensures same { (self.new.number ≡ self.old.number) × (self.new.left ≡ self.old.left) }
    {
        let Level {
            point,
            told,
            longer,
        } = level;
        let clause = point.clause_left(0);
        let common = lesser(hand.common, told.length);
        hand.common = common;
        hand.told = told;
        match point.last_in_place(shared.loaded, &mut hand.branch, &mut self.workspace) {
            Ok(()) => Ok(()),
            Err(AllocError) => {
                shared.tree.give_up_child(&mut self.pass, &longer, clause);
                Err(AllocError)
            }
        }
    }

    /// Has the next child of a fork in hand, behind which others come.
    fn another_child<G: Gate>(
        &mut self,
        shared: &Shared<N, G>,
        level: Level<N>,
        hand: &mut Hand<N>,
    ) -> Result<(), AllocError>
        requires program { N.program ≡ named shared.now.loaded.now }
        requires works { Works N.program shared.now.tree.now self.old.pass self.old.found
            (Task.Children level ∷ self.old.stack.items) }
        requires left { Serves level hand.old.branch }
        requires served { AreServed (Some (forked level)) self.old.stack.items }
        requires shares { Shares self.old.found hand.old.common hand.old.branch.key }
        requires more { length level.point.clauses ≢ 1 }
        ensures ready { OnOk result
            (IsReady N.program shared.now.tree.now self.new.pass self.new.found self.new.stack.items hand.new) }
        ensures given_up { OnErr result (Has N.program shared.now.tree.now self.new.pass self.new.stack.items) }
        ensures same { (self.new.number ≡ self.old.number) × (self.new.left ≡ self.old.left) }
    {
        let mut level = level;
        let Ok(()) = level.next_in_hand(shared.alloc, shared.loaded, hand, &mut self.workspace)
        else {
            self.give_up_children(shared, &level);
            drop(level);
            return Err(AllocError);
        };
        match self.put(shared, Task::Children(level)) {
            Ok(()) => Ok(()),
            Err(AllocError) => {
                self.give_up_key(shared, &Snapshot::of(hand.branch.key()));
                Err(AllocError)
            }
        }
    }

    /// Goes on with a branch by its state.
    pub fn go_by<G: Gate>(
        &mut self,
        shared: &Shared<N, G>,
        hand: Hand<N>,
        state: BranchState,
    ) -> Result<(), AllocError>
        requires program { N.program ≡ named shared.now.loaded.now }
        requires ready { IsReady N.program shared.now.tree.now self.old.pass self.old.found self.old.stack.items hand }
        requires state { (t : QueryTree N.program.program) → IsBranchOf N.program hand.branch t
            → IsState N.program hand.branch t state }
        requires at_rest { IsAtRest N.program hand.branch state }
        ensures has { Has N.program shared.now.tree.now self.new.pass self.new.stack.items }
        ensures at_work { OnOk result
            (IsAtWork N.program shared.now.tree.now self.new.pass self.new.found self.new.stack.items self.new.left) }
        ensures same { self.new.number ≡ self.old.number }
    {
        let mut hand = hand;
        self.left = None;
        match self.go_in_hand(shared, &mut hand, state) {
            Ok(()) => {
                self.put_by(hand);
                Ok(())
            }
            Err(AllocError) => {
                drop(hand);
                Err(AllocError)
            }
        }
    }

    /// Goes on with the branch in hand by its state, and hands on what may be handed on then. What is left of the
    /// branch is in hand.
    pub(crate) fn go_in_hand<G: Gate>(
        &mut self,
        shared: &Shared<N, G>,
        hand: &mut Hand<N>,
        state: BranchState,
    ) -> Result<(), AllocError>
        requires program { N.program ≡ named shared.now.loaded.now }
        requires ready { IsReady N.program shared.now.tree.now self.old.pass self.old.found self.old.stack.items
            hand.old }
        requires state { (t : QueryTree N.program.program) → IsBranchOf N.program hand.old.branch t
            → IsState N.program hand.old.branch t state }
        requires at_rest { IsAtRest N.program hand.old.branch state }
        requires none { self.old.left ≡ None }
        ensures has { Has N.program shared.now.tree.now self.new.pass self.new.stack.items }
        ensures at_work { OnOk result (IsLeftInHand N.program shared.now.tree.now self.new.pass self.new.found
            self.new.stack.items hand.new) }
        ensures same { (self.new.number ≡ self.old.number) × (self.new.left ≡ None) }
    {
        let is_forked = forks(&state);
        let words = hand.branch.weight();
        self.go_on(shared, hand, state)?;
        if is_forked {
            self.hand_on(shared, &*hand, words)
        } else {
            Ok(())
        }
    }

    /// Puts by what is left of the branch in hand.
    pub(crate) fn put_by(&mut self, hand: Hand<N>)
        requires { Shares self.old.found hand.common hand.branch.key }
        ensures left { self.new.left ≡ Some hand.branch }
        ensures same { (self.new.number ≡ self.old.number) × (self.new.pass ≡ self.old.pass)
            × (self.new.found ≡ self.old.found) × (self.new.stack ≡ self.old.stack) }
    {
        let Hand {
            branch,
            told,
            common,
        } = hand;
        drop(told);
        self.common = common;
        self.left = Some(branch);
    }

    /// Goes on with the branch in hand by its state. What is left of it is in hand then.
    fn go_on<G: Gate>(
        &mut self,
        shared: &Shared<N, G>,
        hand: &mut Hand<N>,
        state: BranchState,
    ) -> Result<(), AllocError>
        requires program { N.program ≡ named shared.now.loaded.now }
        requires ready { IsReady N.program shared.now.tree.now self.old.pass self.old.found self.old.stack.items
            hand.old }
        requires state { (t : QueryTree N.program.program) → IsBranchOf N.program hand.old.branch t
            → IsState N.program hand.old.branch t state }
        requires at_rest { IsAtRest N.program hand.old.branch state }
        requires none { self.old.left ≡ None }
        ensures has { Has N.program shared.now.tree.now self.new.pass self.new.stack.items }
        ensures at_work { OnOk result (IsLeftInHand N.program shared.now.tree.now self.new.pass self.new.found
            self.new.stack.items hand.new) }
        ensures same { (self.new.number ≡ self.old.number) × (self.new.left ≡ None) }
    {
        match state {
            BranchState::Fork { goal, clauses, cut } => self.fork(shared, hand, goal, clauses, cut),
            BranchState::Answer => self.tell(shared, hand, false),
            BranchState::Floundered => self.tell(shared, hand, true),
            BranchState::Failed => {
                self.found.count_failed();
                shared.tree.retire(&mut self.pass, hand.branch.key());
                Ok(())
            }
            BranchState::OverLimit(cut) => {
                self.found.keep_cut(Some(cut));
                shared.tree.retire(&mut self.pass, hand.branch.key());
                Ok(())
            }
        }
    }

    /// Forks the branch in hand, whose children are to come then. What is left of it serves them.
    fn fork<G: Gate>(
        &mut self,
        shared: &Shared<N, G>,
        hand: &mut Hand<N>,
        goal: Goal,
        clauses: ClauseList,
        cut: Option<Cut>,
    ) -> Result<(), AllocError>
        requires program { N.program ≡ named shared.now.loaded.now }
        requires ready { IsReady N.program shared.now.tree.now self.old.pass self.old.found self.old.stack.items
            hand.old }
        requires state { (t : QueryTree N.program.program) → IsBranchOf N.program hand.old.branch t
            → IsState N.program hand.old.branch t (BranchState.Fork goal clauses cut) }
        requires none { self.old.left ≡ None }
        ensures has { Has N.program shared.now.tree.now self.new.pass self.new.stack.items }
        ensures at_work { OnOk result (IsLeftInHand N.program shared.now.tree.now self.new.pass self.new.found
            self.new.stack.items hand.new) }
        ensures same { (self.new.number ≡ self.old.number) × (self.new.left ≡ None) }
    {
        let key = Snapshot::of(hand.branch.key());
        if self.stack.len() >= MOST_TASKS {
            self.give_up_key(shared, &key);
            drop(clauses);
            return Err(AllocError);
        }
        match hand
            .branch
            .fork_in_place(shared.alloc, shared.loaded, goal, clauses, &mut hand.told)
        {
            Ok(point) => self.put_children(shared, hand, point, cut),
            Err(AllocError) => {
                self.give_up_key(shared, &key);
                Err(AllocError)
            }
        }
    }

    /// Puts the children of a fork in the place of the branch that is forked. What is left of it is in hand.
    fn put_children<G: Gate>(
        &mut self,
        shared: &Shared<N, G>,
        hand: &mut Hand<N>,
        choicepoint: Choicepoint<N>,
        cut: Option<Cut>,
    ) -> Result<(), AllocError>
        requires program { N.program ≡ named shared.now.loaded.now }
        requires works { Works N.program shared.now.tree.now self.old.pass self.old.found
            (Task.One choicepoint.parent ∷ self.old.stack.items) }
        requires few { length self.old.stack.items < MOST_TASKS }
        requires split { (t : QueryTree N.program.program) × (o : Open t) × (first : Option ℕ)
            × IsBranchOf N.program choicepoint.parent t
            × AreChildren N.program choicepoint t × IsCutOf N.program t o first cut
            × StateOf N.program.program choicepoint.parent.limit t (fork o choicepoint.clauses first) }
        requires told { IsTold N.program.program choicepoint.parent.reductions hand.old.told choicepoint.longer }
        requires length { hand.old.told.length ≡ length choicepoint.longer }
        requires left { GoesBack choicepoint.parent hand.old.branch }
        requires key { hand.old.branch.key ≡ choicepoint.longer }
        requires served { AreServed (Some (at_fork choicepoint)) self.old.stack.items }
        requires shares { Shares self.old.found hand.old.common hand.old.branch.key }
        requires none { self.old.left ≡ None }
        ensures has { Has N.program shared.now.tree.now self.new.pass self.new.stack.items }
        ensures at_work { OnOk result (IsLeftInHand N.program shared.now.tree.now self.new.pass self.new.found
            self.new.stack.items hand.new) }
        ensures same { (self.new.number ≡ self.old.number) × (self.new.left ≡ None) }
    {
        let longer = Snapshot::of(hand.branch.key());
        let placed = PlacedFork { point: choicepoint };
        shared.tree.fork(&mut self.pass, &placed);
        self.found.count_fork();
        self.found.keep_cut(cut);
        let PlacedFork { point } = placed;
        let told = replace(&mut hand.told, untold(shared.alloc, shared.loaded));
        let level = Level::new(point, told, longer);
        self.put_fork(shared, &*hand, level)
    }

    /// Puts a fork on top of the stack, which what is left of the branch in hand serves. After want of memory its
    /// children have been given up.
    fn put_fork<G: Gate>(
        &mut self,
        shared: &Shared<N, G>,
        hand: &Hand<N>,
        level: Level<N>,
    ) -> Result<(), AllocError>
        requires works { Works N.program shared.now.tree.now self.old.pass self.old.found
            (Task.Children level ∷ self.old.stack.items) }
        requires left { Serves level hand.now.branch }
        requires served { AreServed (Some (forked level)) self.old.stack.items }
        requires shares { Shares self.old.found hand.now.common hand.now.branch.key }
        ensures has { Has N.program shared.now.tree.now self.new.pass self.new.stack.items }
        ensures at_work { OnOk result (IsLeftInHand N.program shared.now.tree.now self.new.pass self.new.found
            self.new.stack.items hand.now) }
        ensures same { (self.new.number ≡ self.old.number) × (self.new.left ≡ self.old.left) }
    {
        self.put(shared, Task::Children(level))
    }

    /// Adds what the branch in hand ended with. What is left of it is in hand then.
    fn tell<G: Gate>(
        &mut self,
        shared: &Shared<N, G>,
        hand: &mut Hand<N>,
        floundered: bool,
    ) -> Result<(), AllocError>
        requires program { N.program ≡ named shared.now.loaded.now }
        requires ready { IsReady N.program shared.now.tree.now self.old.pass self.old.found self.old.stack.items
            hand.old }
        requires ended { HasEnded N.program hand.old.branch }
        requires state { (t : QueryTree N.program.program) → IsBranchOf N.program hand.old.branch t
            → EndsSo N.program hand.old.branch t floundered }
        requires none { self.old.left ≡ None }
        ensures has { Has N.program shared.now.tree.now self.new.pass self.new.stack.items }
        ensures at_work { OnOk result (IsLeftInHand N.program shared.now.tree.now self.new.pass self.new.found
            self.new.stack.items hand.new) }
        ensures same { (self.new.number ≡ self.old.number) × (self.new.left ≡ None) }
    {
        shared.tree.answer(&mut self.pass, hand.branch.key());
        self.add(shared, hand, floundered)?;
        shared.gate.found(self.number);
        let common = hand.branch.key().len();
        hand.common = common;
        Ok(())
    }

    /// Adds the entry of the branch in hand, whose key is then the code: what is left of it. An error is want of
    /// memory.
    fn add<G: Gate>(
        &mut self,
        shared: &Shared<N, G>,
        hand: &mut Hand<N>,
        floundered: bool,
    ) -> Result<(), AllocError>
        requires program { N.program ≡ named shared.now.loaded.now }
        requires branch { IsBranch N.program hand.old.branch }
        requires told { IsTold N.program.program hand.old.branch.reductions hand.old.told hand.old.branch.key }
        requires ended { HasEnded N.program hand.old.branch }
        requires shares { Shares self.old.found hand.old.common (as_told hand.old).key }
        requires none { self.old.left ≡ None }
        ensures entries { OnOk result ((t : QueryTree N.program.program) → IsBranchOf N.program hand.old.branch t
            → EndsSo N.program hand.old.branch t floundered → (outcome : Outcome) × Ends t outcome
            × (listed self.new.found ≡ listed self.old.found
            ++ record { code = trees.code t; outcome = outcome } ∷ [])) }
        ensures end { SameEnd self.old.found self.new.found }
        ensures left { OnOk result ((hand.new.branch ≡ record hand.old.branch { key = hand.new.branch.key })
            × IsPrefix (as_told hand.old).key hand.new.branch.key) }
        ensures last { OnOk result (last_code_or [] (listed self.new.found) ≡ hand.new.branch.key) }
        ensures same { (self.new.number ≡ self.old.number) × (self.new.pass ≡ self.old.pass)
            × (self.new.stack ≡ self.old.stack) × (self.new.left ≡ None) }
    {
        let told = replace(&mut hand.told, untold(shared.alloc, shared.loaded));
        let line = hand.branch.line(shared.alloc, shared.loaded)?;
        hand.branch.tell_code(shared.alloc, shared.loaded, told)?;
        self.found
            .add(hand.common, hand.branch.key(), line, floundered)?;
        Ok(())
    }

    // ---- want of memory

    /// Puts a task on top of the stack. After want of memory it has been given up.
    #[inline(always)]
    fn put<G: Gate>(&mut self, shared: &Shared<N, G>, task: Task<N>) -> Result<(), AllocError>
        requires has { (others : List (Task N)) × Has N.program shared.now.tree.now self.old.pass (task ∷ others) }
        ensures same { (self.new.number ≡ self.old.number) × (self.new.found ≡ self.old.found)
            × (self.new.left ≡ self.old.left) }
        ensures put { OnOk result ((self.new.pass ≡ self.old.pass)
            × (self.new.stack.items ≡ self.old.stack.items ++ task ∷ [])) }
        ensures given_up { OnErr result ((self.new.stack.items ≡ self.old.stack.items) × ((others : List (Task N))
            → Has N.program shared.now.tree.now self.old.pass (task ∷ others)
            → Has N.program shared.now.tree.now self.new.pass others)) }
    {
        match self.stack.push(task) {
            Ok(()) => Ok(()),
            Err(refused) => {
                self.give_up_task(shared, refused.value);
                Err(AllocError)
            }
        }
    }

    /// Gives up all that it has still to explore.
    pub fn give_up<G: Gate>(&mut self, shared: &Shared<N, G>)
        requires has { Has N.program shared.now.tree.now self.old.pass (self.old.stack.items) }
        ensures has { (self.new.stack.items ≡ [])
            × Has N.program shared.now.tree.now self.new.pass (self.new.stack.items) }
        ensures hand { self.new.pass.hand ≡ [] }
        ensures same { self.new.number ≡ self.old.number }
    {
        while let Some(task) = self.stack.pop() {
            self.give_up_task(shared, task);
        }
    }

    /// Gives up a task.
    pub(crate) fn give_up_task<G: Gate>(&mut self, shared: &Shared<N, G>, task: Task<N>)
        requires has { (others : List (Task N)) × Has N.program shared.now.tree.now self.old.pass (task ∷ others) }
        ensures has { (others : List (Task N)) → Has N.program shared.now.tree.now self.old.pass (task ∷ others)
            → Has N.program shared.now.tree.now self.new.pass others }
        ensures same { (self.new.number ≡ self.old.number) × (self.new.found ≡ self.old.found)
            × (self.new.stack ≡ self.old.stack) × (self.new.left ≡ self.old.left) }
    {
        match task {
            Task::One(branch) => {
                shared
                    .tree
                    .give_up(&mut self.pass, &Snapshot::of(branch.key()));
                drop(branch);
            }
            Task::Children(level) => {
                self.give_up_children(shared, &level);
                drop(level);
            }
            Task::Left(left) => drop(left),
        }
    }

    /// Gives up the branch in hand that has this key.
    pub(crate) fn give_up_key<G: Gate>(&mut self, shared: &Shared<N, G>, key: &Snapshot<Code>)
        requires has { (b : Held) × (key.now.value ≡ b.key)
            × Has N.program shared.now.tree.now self.old.pass (Task.One b ∷ self.old.stack.items) }
        ensures has { Has N.program shared.now.tree.now self.new.pass self.new.stack.items }
        ensures same { (self.new.number ≡ self.old.number) × (self.new.found ≡ self.old.found)
            × (self.new.stack ≡ self.old.stack) × (self.new.left ≡ self.old.left) }
    {
        shared.tree.give_up(&mut self.pass, key);
    }

    /// Gives up the children of a fork that are still to come.
    pub(crate) fn give_up_children<G: Gate>(&mut self, shared: &Shared<N, G>, level: &Level<N>)
        requires tree { self.old.pass.tree ≡ shared.now.tree.now }
        requires longer { level.now.longer.value ≡ level.now.point.longer }
        requires hand { (rest : List Key)
            × SameItems self.old.pass.hand (children level.now.point.longer level.now.point.clauses ++ rest) }
        ensures hand { (rest : List Key)
            → SameItems self.old.pass.hand (children level.now.point.longer level.now.point.clauses ++ rest)
            → SameItems self.new.pass.hand rest }
        ensures tree { self.new.pass.tree ≡ self.old.pass.tree }
        ensures same { (self.new.number ≡ self.old.number) × (self.new.found ≡ self.old.found)
            × (self.new.stack ≡ self.old.stack) × (self.new.left ≡ self.old.left) }
    {
        for place in 0..level.point.left() {
            shared.tree.give_up_child(
                &mut self.pass,
                &level.longer,
                level.point.clause_left(place),
            );
        }
    }
}

/// Whether a branch of this state is forked.
fn forks(state: &BranchState) -> bool {
    matches!(state, BranchState::Fork { .. })
}
