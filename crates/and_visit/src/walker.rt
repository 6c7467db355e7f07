//! A walk, as far as it has come.

ghost use Rattle.std.specs.Prelude.{◌≡◌, ◌≤◌, ◌<◌, ◌∷◌, [], length, reverse, false, IfOk, OnOk};
ghost use Rattle.and_model.specs.Trees.{QueryTree};
ghost use Rattle.and_model.specs.Reached.{Dead};
ghost use Rattle.and_model.specs.declared.limits.TheConstants.{MAX_LIMIT};
ghost use Rattle.and_cells.specs.Parts.{named};
ghost use Rattle.and_clause_index.specs.Tables.{IsTableOf};
ghost use Rattle.and_branch.specs.Branches.{IsBranchOf};
ghost use Rattle.and_branch.specs.Ended.{HasEnded};
ghost use Rattle.and_branch.specs.States.{IsState, IsAtRest};
ghost use Rattle.and_branch.specs.declared.state.BranchState.TheVariants.{OverLimit};
ghost use Rattle.and_branch.specs.Ended.{EndsSo};
ghost use Rattle.and_visit.specs.Searched.{IsSearched};
ghost use Rattle.and_visit.specs.Walking.{One, IsReady, IsLeft, IsAfter, HasNext, HasTurned, places_of};
ghost use Rattle.and_visit.specs.Walking.{left_on_top, turns};

use crate::seeing::{Coded, code_if};
use crate::stack::{Hand, Level, left_on_top, put, take_top};
use crate::visitor::Visitor;
use and_branch::{Branch, BranchState, Rooted, Workspace};
use and_cells::Naming;
use and_clause_index::Determinacy;
use and_code::CodeSoFar;
use and_gate::Gate;
use and_model::{ClauseList, Cut, Goal};
use and_program::Loaded;
use std::alloc::{AllocError, Global};
use std::mem::replace;

/// A walk, as far as it has come.
struct Walker<N: Naming, V: Visitor> {
    /// The limit of every branch.
    limit: u32,
    visitor: V,
    /// The forks some of whose children are still to come, the innermost last. Their row is that of the branch at hand.
    stack: Vec<Level<N>>,
    workspace: Workspace,
}

// By hand, so that it is proved once, here.
impl<N: Naming, V: Visitor> Drop for Walker<N, V> {
    fn drop(self) {
        let Walker {
            limit: _,
            visitor: _,
            stack: _,
            workspace: _,
        } = self;
    }
}

/// Walks a program's query within a limit and tells a visitor what it comes to, until that has enough. An error is want
/// of memory.
pub fn search_named<N: Naming, V: Visitor, G: Gate>(
    alloc: Global,
    loaded: &Loaded,
    table: &Determinacy,
    limit: u32,
    gate: &G,
    visitor: V,
) -> Result<V, AllocError>
    requires program { N.program ≡ named loaded.now }
    requires table { IsTableOf N.program table.now }
    requires limit { limit ≤ MAX_LIMIT }
    requires begins { V.has_seen visitor [] }
    ensures searched { IfOk result (λ v. IsSearched N.program.program limit (V.has_seen v) (V.has_enough v)) }
    ensures asks { IfOk result (λ v. V.asks v ≡ V.asks visitor) }
{
    let mut visitor = visitor;
    let mut workspace = Workspace::new(alloc);
    match Branch::<N>::root(alloc, loaded, limit, &mut workspace) {
        Rooted::Ready(branch) => {
            let walker = Walker {
                limit,
                visitor,
                stack: Vec::new(alloc),
                workspace,
            };
            let told = CodeSoFar::begun(alloc, loaded);
            let depth = 0;
            walker.finish(
                alloc,
                loaded,
                table,
                gate,
                Hand {
                    branch,
                    told,
                    depth,
                },
            )
        }
        Rooted::TooHeavy(cut) => {
            if visitor.is_done() {
                return Ok(visitor);
            }
            visitor.see_cut(0, cut)?;
            Ok(visitor)
        }
        Rooted::Memory => Err(AllocError),
    }
}

impl<N: Naming, V: Visitor> Walker<N, V> {
    /// Walks a branch, and then what is on the stack, until the visitor has enough. An error is want of memory.
    fn finish<G: Gate>(
        mut self,
        alloc: Global,
        loaded: &Loaded,
        table: &Determinacy,
        gate: &G,
        first: Hand<N>,
    ) -> Result<V, AllocError>
        requires program { N.program ≡ named loaded.now }
        requires table { IsTableOf N.program table.now }
        requires ready { IsReady N.program self.limit (V.has_seen self.visitor) (reverse self.stack.items) first }
        ensures searched { IfOk result (λ v.
            IsSearched N.program.program self.limit (V.has_seen v) (V.has_enough v)) }
        ensures asks { IfOk result (λ v. V.asks v ≡ V.asks self.visitor) }
    {
        let mut hand = first;
        self.walk(alloc, loaded, table, gate, &mut hand)?;
        drop(hand);
        Ok(self.into_visitor())
    }

    /// The visitor, when all is told. Takes no memory.
    fn into_visitor(self) -> V
        ensures { result ≡ self.visitor }
    {
        let Walker {
            limit: _,
            visitor,
            stack: _,
            workspace: _,
        } = self;
        visitor
    }

    /// The same, with the branch in a hand in which each branch comes to be in its turn.
    #[inline(always)]
    fn walk<G: Gate>(
        &mut self,
        alloc: Global,
        loaded: &Loaded,
        table: &Determinacy,
        gate: &G,
        hand: &mut Hand<N>,
    ) -> Result<(), AllocError>
        requires program { N.program ≡ named loaded.now }
        requires table { IsTableOf N.program table.now }
        requires ready { IsReady N.program self.old.limit (V.has_seen self.old.visitor)
            (reverse self.old.stack.items) hand.old }
        ensures searched { OnOk result (IsSearched N.program.program self.old.limit
            (V.has_seen self.new.visitor) (V.has_enough self.new.visitor)) }
        ensures asks { OnOk result (V.asks self.new.visitor ≡ V.asks self.old.visitor) }
    {
        'walking: loop {
            if self.visitor.is_done() {
                return Ok(());
            }
            self.explore(alloc, loaded, table, gate, hand)?;
            let is_there = self.next_child(alloc, loaded, hand)?;
            if !is_there {
                return Ok(());
            }
        }
    }

    /// Has the next child of the innermost fork in hand, made of what is left of a branch there. Answers whether there
    /// is one.
    fn next_child(
        &mut self,
        alloc: Global,
        loaded: &Loaded,
        hand: &mut Hand<N>,
    ) -> Result<bool, AllocError>
        requires program { N.program ≡ named loaded.now }
        requires left { IsLeft N.program self.old.limit (V.has_seen self.old.visitor)
            (reverse self.old.stack.items) hand.old.branch }
        ensures turned { IfOk result (HasTurned N.program self.old.limit
            (turns self.old.limit (places_of (reverse self.old.stack.items)))
            (V.has_seen self.old.visitor) (reverse self.new.stack.items) hand.new) }
        ensures limit { self.new.limit ≡ self.old.limit }
        ensures visitor { self.new.visitor ≡ self.old.visitor }
    {
        let left = left_on_top(&self.stack);
        if left > 1 {
            self.next_on_top(alloc, loaded, hand)?;
            return Ok(true);
        }
        match take_top(&mut self.stack) {
            Some(level) => {
                self.last_of(loaded, level, hand)?;
                Ok(true)
            }
            None => Ok(false),
        }
    }

    /// Has the next child of the fork on top in hand, which is not the last.
    fn next_on_top(
        &mut self,
        alloc: Global,
        loaded: &Loaded,
        hand: &mut Hand<N>,
    ) -> Result<(), AllocError>
        requires program { N.program ≡ named loaded.now }
        requires left { IsLeft N.program self.old.limit (V.has_seen self.old.visitor)
            (reverse self.old.stack.items) hand.old.branch }
        requires many { 1 < left_on_top (reverse self.old.stack.items) }
        ensures next { OnOk result (HasNext N.program self.old.limit
            (turns self.old.limit (places_of (reverse self.old.stack.items)))
            (V.has_seen self.old.visitor) (reverse self.new.stack.items) hand.new) }
        ensures limit { self.new.limit ≡ self.old.limit }
        ensures visitor { self.new.visitor ≡ self.old.visitor }
    {
        let last = self.stack.len() - 1;
        self.stack[last].next(alloc, loaded, hand, &mut self.workspace)?;
        Ok(())
    }

    /// Has the last child of the fork that was on top in hand.
    fn last_of(
        &mut self,
        loaded: &Loaded,
        level: Level<N>,
        hand: &mut Hand<N>,
    ) -> Result<(), AllocError>
        requires program { N.program ≡ named loaded.now }
        requires left { IsLeft N.program self.old.limit (V.has_seen self.old.visitor)
            (level ∷ reverse self.old.stack.items) hand.old.branch }
        requires few { length level.point.clauses ≤ 1 }
        ensures next { OnOk result (HasNext N.program self.old.limit
            (turns self.old.limit (places_of (level ∷ reverse self.old.stack.items)))
            (V.has_seen self.old.visitor) (reverse self.new.stack.items) hand.new) }
        ensures limit { self.new.limit ≡ self.old.limit }
        ensures visitor { self.new.visitor ≡ self.old.visitor }
    {
        level.last(loaded, hand, &mut self.workspace)?;
        Ok(())
    }

    /// Goes on with the branch in hand: reduces its determinate goals, and then by its state. What is left of it is in
    /// hand then.
    fn explore<G: Gate>(
        &mut self,
        alloc: Global,
        loaded: &Loaded,
        table: &Determinacy,
        gate: &G,
        hand: &mut Hand<N>,
    ) -> Result<(), AllocError>
        requires program { N.program ≡ named loaded.now }
        requires table { IsTableOf N.program table.now }
        requires going { V.has_enough self.old.visitor ≡ false }
        requires ready { IsReady N.program self.old.limit (V.has_seen self.old.visitor)
            (reverse self.old.stack.items) hand.old }
        ensures after { OnOk result (IsAfter N.program self.old.limit
            (turns self.old.limit (One hand.old.depth hand.old.branch ∷ places_of (reverse self.old.stack.items)))
            (V.has_seen self.new.visitor) (reverse self.new.stack.items) hand.new.branch) }
        ensures limit { self.new.limit ≡ self.old.limit }
        ensures asks { V.asks self.new.visitor ≡ V.asks self.old.visitor }
    {
        let state = hand
            .branch
            .advance_to_state(loaded, table, gate, &mut self.workspace)?;
        self.go_by(alloc, loaded, gate, hand, state)
    }

    /// Goes on with the branch in hand by its state. What is left of it is in hand then.
    fn go_by<G: Gate>(
        &mut self,
        alloc: Global,
        loaded: &Loaded,
        gate: &G,
        hand: &mut Hand<N>,
        state: BranchState,
    ) -> Result<(), AllocError>
        requires program { N.program ≡ named loaded.now }
        requires going { V.has_enough self.old.visitor ≡ false }
        requires ready { IsReady N.program self.old.limit (V.has_seen self.old.visitor)
            (reverse self.old.stack.items) hand.old }
        requires state { (t : QueryTree N.program.program) → IsBranchOf N.program hand.old.branch t
            → IsState N.program hand.old.branch t state }
        requires at_rest { IsAtRest N.program hand.old.branch state }
        ensures after { OnOk result (IsAfter N.program self.old.limit
            (turns self.old.limit (One hand.old.depth hand.old.branch ∷ places_of (reverse self.old.stack.items)))
            (V.has_seen self.new.visitor) (reverse self.new.stack.items) hand.new.branch) }
        ensures limit { self.new.limit ≡ self.old.limit }
        ensures asks { V.asks self.new.visitor ≡ V.asks self.old.visitor }
    {
        match state {
            BranchState::Fork { goal, clauses, cut } => {
                self.fork(alloc, loaded, hand, goal, clauses, cut)
            }
            BranchState::Answer => self.end(alloc, loaded, gate, hand, false),
            BranchState::Floundered => self.end(alloc, loaded, gate, hand, true),
            BranchState::Failed => self.fail(&*hand),
            BranchState::OverLimit(cut) => self.over(&*hand, cut),
        }
    }

    /// Forks the branch in hand, whose state is a fork so: its children are on top then.
    fn fork(
        &mut self,
        alloc: Global,
        loaded: &Loaded,
        hand: &mut Hand<N>,
        goal: Goal,
        clauses: ClauseList,
        cut: Option<Cut>,
    ) -> Result<(), AllocError>
        requires program { N.program ≡ named loaded.now }
        requires going { V.has_enough self.old.visitor ≡ false }
        requires ready { IsReady N.program self.old.limit (V.has_seen self.old.visitor)
            (reverse self.old.stack.items) hand.old }
        requires state { (t : QueryTree N.program.program) → IsBranchOf N.program hand.old.branch t
            → IsState N.program hand.old.branch t (BranchState.Fork goal clauses cut) }
        ensures after { OnOk result (IsAfter N.program self.old.limit
            (turns self.old.limit (One hand.old.depth hand.old.branch ∷ places_of (reverse self.old.stack.items)))
            (V.has_seen self.new.visitor) (reverse self.new.stack.items) hand.new.branch) }
        ensures limit { self.new.limit ≡ self.old.limit }
        ensures asks { V.asks self.new.visitor ≡ V.asks self.old.visitor }
    {
        self.visitor.see_fork(hand.depth, &clauses, cut)?;
        let depth = hand.depth + 1;
        // (So many fit a word. This says so to what follows.)
        let _all = clauses.len();
        let point = hand
            .branch
            .fork_in_place(alloc, loaded, goal, clauses, &mut hand.told)?;
        let told = replace(&mut hand.told, CodeSoFar::begun(alloc, loaded));
        put(&mut self.stack, Level { point, told, depth })?;
        Ok(())
    }

    /// Tells of a branch in hand that failed.
    fn fail(&mut self, hand: &Hand<N>) -> Result<(), AllocError>
        requires going { V.has_enough self.old.visitor ≡ false }
        requires ready { IsReady N.program self.old.limit (V.has_seen self.old.visitor)
            (reverse self.old.stack.items) hand.now }
        requires dead { (t : QueryTree N.program.program) → IsBranchOf N.program hand.now.branch t → Dead t }
        ensures after { OnOk result (IsAfter N.program self.old.limit
            (turns self.old.limit (One hand.now.depth hand.now.branch ∷ places_of (reverse self.old.stack.items)))
            (V.has_seen self.new.visitor) (reverse self.new.stack.items) hand.now.branch) }
        ensures limit { self.new.limit ≡ self.old.limit }
        ensures asks { V.asks self.new.visitor ≡ V.asks self.old.visitor }
    {
        self.visitor.see_failed(hand.depth)?;
        Ok(())
    }

    /// Tells of a branch in hand that the limit keeps from going on.
    fn over(&mut self, hand: &Hand<N>, cut: Cut) -> Result<(), AllocError>
        requires going { V.has_enough self.old.visitor ≡ false }
        requires ready { IsReady N.program self.old.limit (V.has_seen self.old.visitor)
            (reverse self.old.stack.items) hand.now }
        requires state { (t : QueryTree N.program.program) → IsBranchOf N.program hand.now.branch t
            → IsState N.program hand.now.branch t (OverLimit cut) }
        ensures after { OnOk result (IsAfter N.program self.old.limit
            (turns self.old.limit (One hand.now.depth hand.now.branch ∷ places_of (reverse self.old.stack.items)))
            (V.has_seen self.new.visitor) (reverse self.new.stack.items) hand.now.branch) }
        ensures limit { self.new.limit ≡ self.old.limit }
        ensures asks { V.asks self.new.visitor ≡ V.asks self.old.visitor }
    {
        self.visitor.see_cut(hand.depth, cut)?;
        Ok(())
    }

    /// Tells of a branch in hand that ended, and tells the gate of it.
    fn end<G: Gate>(
        &mut self,
        alloc: Global,
        loaded: &Loaded,
        gate: &G,
        hand: &mut Hand<N>,
        floundered: bool,
    ) -> Result<(), AllocError>
        requires program { N.program ≡ named loaded.now }
        requires going { V.has_enough self.old.visitor ≡ false }
        requires ready { IsReady N.program self.old.limit (V.has_seen self.old.visitor)
            (reverse self.old.stack.items) hand.old }
        requires ended { HasEnded N.program hand.old.branch }
        requires state { (t : QueryTree N.program.program) → IsBranchOf N.program hand.old.branch t
            → EndsSo N.program hand.old.branch t floundered }
        ensures after { OnOk result (IsAfter N.program self.old.limit
            (turns self.old.limit (One hand.old.depth hand.old.branch ∷ places_of (reverse self.old.stack.items)))
            (V.has_seen self.new.visitor) (reverse self.new.stack.items) hand.new.branch) }
        ensures limit { self.new.limit ≡ self.old.limit }
        ensures asks { V.asks self.new.visitor ≡ V.asks self.old.visitor }
    {
        let wanted = self.visitor.wants_code();
        let told = replace(&mut hand.told, CodeSoFar::begun(alloc, loaded));
        let coded = code_if(alloc, loaded, &hand.branch, told, wanted)?;
        let line = hand.branch.line(alloc, loaded)?;
        let Coded { named, code } = coded;
        self.visitor
            .see_end(hand.depth, named, code, line, floundered)?;
        gate.found(0);
        Ok(())
    }
}
