//! Choicepoints: forks in a stack, which have one row together, that of the branch at work.
//!
//! A choicepoint holds no row. Whatever comes of its children leaves a branch of which the branch that was forked
//! can be had again, and the next child is made of it. So nothing is copied, and each word that is set is taken back
//! once. The key of the branch at work begins with what was decided in each of the branches that were forked, and is
//! cut off where the next child of one is made.

ghost use Rattle.std.specs.Prelude.{◌≡◌, ◌≢◌, ◌<◌, ◌+◌, ◌∷◌, [], drop, take, length, ℕ, Option, OnOk, OnErr, IfOk};
ghost use Rattle.and_model.specs.Prefixes.{IsPrefix};
ghost use Rattle.and_model.specs.Trees.{QueryTree, Open};
ghost use Rattle.and_model.specs.Trees as trees;
ghost use Rattle.and_model.specs.Trees.{IsWhole, decided};
ghost use Rattle.and_cells.specs.Parts.{named};
ghost use Rattle.and_code.specs.Telling.{IsTold};
ghost use Rattle.and_branch_laws.specs.States.{StateOf, fork};
ghost use Rattle.and_branch_parts.specs.Branches.{IsBranch, IsBranchOf, IsOpenGoal};
ghost use Rattle.and_branch_parts.specs.Forking.{numbers};
ghost use Rattle.and_branch_parts.specs.Children.{Fork, AreChildren, IsChild, IsForkOf};
ghost use Rattle.and_branch_parts.specs.Copies.{IsBackAt};
ghost use Rattle.and_branch_parts.specs.Origins.{GoesBack, KeepsBack};

use crate::branch::Branch;
use crate::outline::Outline;
use crate::workspace::Workspace;
use and_cells::Naming;
use and_code::CodeSoFar;
use and_model::{ClauseList, ClauseNo, Code, Goal};
use and_program::Loaded;
use std::alloc::{AllocError, Global};
use std::marker::Model;
use std::snapshot::Snapshot;

/// A fork some of whose children are still to come, without the row of the branch that was forked. Each child is made
/// when its turn comes, of what the one before it left.
pub struct Choicepoint<N: Naming> {
    /// The branch that was forked. It is there for contracts alone.
    parent: Snapshot<Branch<N>>,
    outline: Outline,
    goal: Goal,
    /// What was decided in it. (For contracts alone, too.)
    longer: Snapshot<Code>,
    /// How many clauses that is.
    decided: usize,
    clauses: ClauseList,
    /// How many children were made.
    made: usize,
}

// By hand, so that it is proved once, here.
impl<N: Naming> Drop for Choicepoint<N> {
    fn drop(self) {
        let Choicepoint {
            parent: _,
            outline: _,
            goal: _,
            longer: _,
            decided: _,
            clauses: _,
            made: _,
        } = self;
    }
}

impl<N: Naming> Model for Choicepoint<N> {
    ghost use Rattle.std.specs.Prelude.{◌≡◌, drop, length};
    ghost use Rattle.and_branch_parts.specs.Children.{Fork};
    ghost use Rattle.and_branch_parts.specs.Forking.{numbers};
    ghost use Rattle.and_branch.specs.Outlines.{IsOutlineOf};

    ghost Value = { Fork };

    ghost view = { λ point. record {
      parent = point.parent.value;
      goal = point.goal;
      longer = point.longer.value;
      clauses = drop point.made (numbers point.clauses);
    } };

    ghost invariant = { λ point.
        IsOutlineOf point.parent.value point.outline × (length point.longer.value ≡ point.decided) };
}

impl<N: Naming> Branch<N> {
    /// Forks the branch, whose state is a fork of this goal by these clauses. The branch becomes what is left of it, of
    /// which the first child is made, and its key is told on to that goal. An error is want of memory, and the branch
    /// is spent.
    pub fn fork_in_place(
        &mut self,
        alloc: Global,
        loaded: &Loaded,
        goal: Goal,
        clauses: ClauseList,
        told: &mut CodeSoFar,
    ) -> Result<Choicepoint<N>, AllocError>
        requires program { N.program ≡ named loaded.now }
        requires told { IsTold N.program.program self.old.reductions told.old self.old.key }
        requires fork { (t : QueryTree N.program.program) × (o : Open t) × (cut : Option ℕ)
            × IsBranchOf N.program self.old t
            × IsOpenGoal N.program self.old.reductions t o goal
            × StateOf N.program.program self.old.limit t (fork o (numbers clauses) cut) }
        ensures fork { IfOk result (IsForkOf self.old goal (numbers clauses)) }
        ensures children { IfOk result (λ point. (t : QueryTree N.program.program) → IsBranchOf N.program self.old t
            → AreChildren N.program point t) }
        ensures back { OnOk result (GoesBack self.old self.new) }
        ensures key { IfOk result (λ point. self.new.key ≡ point.longer) }
        ensures begins { IfOk result (λ point. IsPrefix (take told.old.length self.old.key) point.longer) }
        ensures told { IfOk result (λ point. IsTold N.program.program self.old.reductions told.new point.longer) }
        ensures length { IfOk result (λ point. told.new.length ≡ length point.longer) }
    {
        let parent = Snapshot::of(&*self);
        self.decide(alloc, loaded, goal, told)?;
        let longer = Snapshot::of(self.key());
        let decided = self.key().len();
        let outline = self.give_outline(alloc);
        let choicepoint = Choicepoint {
            parent,
            outline,
            goal,
            longer,
            decided,
            clauses,
            made: 0,
        };
        Ok(choicepoint)
    }

    /// Tells its key on to an open goal, so that it is what was decided. An error is want of memory.
    fn decide(
        &mut self,
        alloc: Global,
        loaded: &Loaded,
        goal: Goal,
        told: &mut CodeSoFar,
    ) -> Result<(), AllocError>
        requires program { N.program ≡ named loaded.now }
        requires told { IsTold N.program.program self.old.reductions told.old self.old.key }
        requires goal { (t : QueryTree N.program.program) × (o : Open t) × IsBranchOf N.program self.old t
            × IsOpenGoal N.program self.old.reductions t o goal }
        ensures same { OnOk result (self.new ≡ record self.old { key = self.new.key }) }
        ensures told { OnOk result (IsTold N.program.program self.old.reductions told.new self.new.key) }
        ensures length { OnOk result (told.new.length ≡ length self.new.key) }
        ensures begins { OnOk result (IsPrefix (take told.old.length self.old.key) self.new.key) }
        ensures decided { OnOk result ((t : QueryTree N.program.program) → IsBranchOf N.program self.old t
            → decided t ≡ self.new.key) }
    {
        told.tell_on(alloc, loaded, &self.reductions, Some(goal), &mut self.key)?;
        Ok(())
    }

    /// The code of a branch whose state is an answer, or floundered. Its key was told so far. An error is want of
    /// memory.
    pub fn code_of(
        &self,
        alloc: Global,
        loaded: &Loaded,
        told: CodeSoFar,
    ) -> Result<Code, AllocError>
        requires program { N.program ≡ named loaded.now }
        requires branch { IsBranch N.program self.now }
        requires told { IsTold N.program.program self.now.reductions told self.now.key }
        ensures { IfOk result (λ code. (t : QueryTree N.program.program) → IsBranchOf N.program self.now t → IsWhole t
            → code ≡ trees.code t) }
    {
        let mut told = told;
        let mut code = self.key.copy()?;
        told.tell_on(alloc, loaded, &self.reductions, None, &mut code)?;
        Ok(code)
    }

    /// Tells the key of a branch whose state is an answer, or floundered, on to its end, so that it is the code. The
    /// key was told so far. An error is want of memory.
    pub fn tell_code(
        &mut self,
        alloc: Global,
        loaded: &Loaded,
        told: CodeSoFar,
    ) -> Result<(), AllocError>
        requires program { N.program ≡ named loaded.now }
        requires branch { IsBranch N.program self.old }
        requires told { IsTold N.program.program self.old.reductions told self.old.key }
        ensures same { OnOk result (self.new ≡ record self.old { key = self.new.key }) }
        ensures begins { OnOk result (IsPrefix (take told.length self.old.key) self.new.key) }
        ensures code { OnOk result ((t : QueryTree N.program.program) → IsBranchOf N.program self.old t → IsWhole t
            → self.new.key ≡ trees.code t) }
    {
        let mut told = told;
        told.tell_on(alloc, loaded, &self.reductions, None, &mut self.key)?;
        Ok(())
    }
}

impl<N: Naming> Choicepoint<N> {
    /// The clause of a child that is still to come, behind so many others. Takes no memory.
    pub fn clause_left(&self, place: usize) -> ClauseNo
        requires { place < length self.now.clauses }
        ensures { drop place self.now.clauses ≡ result.0 ∷ drop (place + 1) self.now.clauses }
    {
        // (So many fit a word. This says so to what follows.)
        let _all = self.clauses.len();
        *self.clauses.at(self.made + place)
    }

    /// A copy of what is left, of which the next child can be made too. An error is want of memory.
    pub fn copied(&self, alloc: Global, left: &Branch<N>) -> Result<Branch<N>, AllocError>
        requires children { (t : QueryTree N.program.program) × AreChildren N.program self.now t }
        requires back { GoesBack self.now.parent left.now }
        ensures back { IfOk result (IsBackAt self.now.parent) }
        ensures key { IfOk result (λ b. b.key ≡ left.now.key) }
    {
        left.copied_back(alloc, &self.parent, self.outline.words, self.outline.count)
    }

    /// Such a copy, as one of which the next child of this fork can be made, which stands below the one above. Takes no
    /// memory.
    pub fn taken_below(&self, above: &Choicepoint<N>, copy: Branch<N>) -> Branch<N>
        requires children { (t : QueryTree N.program.program) × AreChildren N.program self.now t }
        requires below { GoesBack self.now.parent above.now.parent }
        requires copy { IsBackAt above.now.parent copy }
        ensures back { IsBackAt self.now.parent result }
        ensures key { result.key ≡ copy.key }
    {
        let mut branch = copy;
        branch.go_below(
            &self.parent,
            &above.parent,
            &above.outline.trail,
            self.outline.words,
            self.outline.count,
        );
        branch
    }

    /// How many children are still to come. Takes no memory.
    pub fn left(&self) -> usize
        ensures { result ≡ length self.now.clauses }
    {
        self.clauses.len().saturating_sub(self.made)
    }

    /// Makes the next child of what is left of the branch that was forked, or of what came of its children, which
    /// becomes the child. An error is want of memory, and the branch is spent.
    pub fn next_in_place(
        &mut self,
        loaded: &Loaded,
        branch: &mut Branch<N>,
        workspace: &mut Workspace,
    ) -> Result<(), AllocError>
        requires program { N.program ≡ named loaded.now }
        requires children { (t : QueryTree N.program.program) × AreChildren N.program self.old t }
        requires key { IsPrefix self.old.longer branch.old.key }
        requires some { self.old.clauses ≢ [] }
        requires back { GoesBack self.old.parent branch.old }
        ensures child { OnOk result (IsChild N.program self.old self.new branch.new) }
        ensures back { OnOk result (GoesBack self.old.parent branch.new) }
        ensures unchanged { OnErr result (self.new ≡ self.old) }
    {
        let clause = *self.clauses.at(self.made);
        // (So many fit a word. This says so to what follows.)
        let _all = self.clauses.len();
        branch.become_again(&self.parent, &self.outline)?;
        branch.become_child(loaded, self.goal, self.decided, clause, workspace)?;
        self.made += 1;
        Ok(())
    }

    /// Makes the last child in the same way. An error is want of memory, and the branch is spent.
    pub fn last_in_place(
        self,
        loaded: &Loaded,
        branch: &mut Branch<N>,
        workspace: &mut Workspace,
    ) -> Result<(), AllocError>
        requires program { N.program ≡ named loaded.now }
        requires children { (t : QueryTree N.program.program) × AreChildren N.program self t }
        requires key { IsPrefix self.longer branch.old.key }
        requires some { self.clauses ≢ [] }
        requires back { GoesBack self.parent branch.old }
        ensures child { OnOk result ((rest : Fork) × IsChild N.program self rest branch.new) }
        ensures back { OnOk result (KeepsBack self.parent branch.new) }
    {
        let Choicepoint {
            parent,
            outline,
            goal,
            longer: _,
            decided,
            clauses,
            made,
        } = self;
        let clause = *clauses.at(made);
        workspace.put_by(clauses);
        branch.become_first(&parent, outline);
        branch.become_child(loaded, goal, decided, clause, workspace)?;
        Ok(())
    }
}
