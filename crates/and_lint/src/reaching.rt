//! To which clauses a chain of calls leads from the query.

ghost use Rattle.std.specs.Prelude.{◌≡◌, ◌<◌, ◌≤◌, ◌||◌, ℕ, suc, true, false, nat_eq, IfOk, OnOk, length, get_or};
ghost use Rattle.std.specs.Prelude.{replicate};
ghost use Rattle.and_model.specs.Programs.{clause_at, is_of};
ghost use Rattle.and_program.specs.Items.{node_item};
ghost use Rattle.and_program.specs.Loaded.{program_of, skeleton_of};
ghost use Rattle.and_program.specs.Skeletons.{IsThere, item_of, node_term};
ghost use Rattle.and_lint.specs.Marked.{AreBelow, Grows, IsEven, calls, is_among, is_first_marked, marked, some_calls};
ghost use Rattle.and_lint.specs.Reached.{TellsReached};

use and_model::{ClauseNo, NodeNo};
use and_program::{ItemNode, Loaded, NodeKind};
use std::alloc::{AllocError, Global};

/// Tells of each clause, by its number, whether a chain of calls leads to it from the query. Each
/// clause that is reached is gone through once. An error is want of memory.
pub(crate) fn reached_clauses(alloc: Global, loaded: &Loaded) -> Result<Vec<bool>, AllocError>
    ensures { IfOk result (λ reached. TellsReached (program_of loaded.now) (λ c. get_or reached.items c false)) }
{
    let marks = no_marks(alloc, loaded.clause_count() as usize + 1)?;
    let work = Vec::new(alloc);
    let mut reached = Reached { marks, work };
    reached.reach(ClauseNo(0))?;
    while let Some(no) = reached.work.pop() {
        reached.reach_from(loaded, no)?;
    }
    Ok(reached.marks)
}

/// So many marks, of which none is set. An error is want of memory.
fn no_marks(alloc: Global, count: usize) -> Result<Vec<bool>, AllocError>
    ensures { IfOk result (λ marks. marks.items ≡ replicate count false) }
{
    vec![in alloc; false; count]
}

/// Which clauses are reached, and which of them are still to be gone through.
#[derive(Drop)]
struct Reached {
    marks: Vec<bool>,
    work: Vec<ClauseNo>,
}

impl Reached {
    /// Whether a clause is marked.
    fn is_marked(&self, no: ClauseNo) -> bool
        requires { no.0 < length self.now.marks.items }
        ensures { result ≡ marked self.now.marks.items no.0 }
    {
        self.marks[no.0 as usize]
    }

    /// Marks a clause, and lists it as one to be gone through, where it was not marked.
    fn reach(&mut self, no: ClauseNo) -> Result<(), AllocError>
        requires { no.0 < length self.old.marks.items }
        ensures marked { OnOk result ((c : ℕ) → marked self.new.marks.items c
            ≡ marked self.old.marks.items c || nat_eq no.0 c) }
        ensures grows { OnOk result (Grows self.old.marks.items self.new.marks.items
            self.old.work.items self.new.work.items) }
    {
        if self.is_marked(no) {
            return Ok(());
        }
        self.marks[no.0 as usize] = true;
        self.work.push(no)?;
        Ok(())
    }

    /// Whether the first of these clauses is marked.
    fn is_first_reached(&self, clauses: &[ClauseNo]) -> bool
        requires { AreBelow (length self.now.marks.items) clauses.now }
        ensures { result ≡ is_first_marked self.now.marks.items clauses.now }
    {
        match clauses {
            [first, ..] => self.is_marked(*first),
            [] => false,
        }
    }

    /// Marks these clauses, which are those of one predicate: all of them are marked, or none is.
    fn reach_all(&mut self, clauses: &[ClauseNo]) -> Result<(), AllocError>
        requires below { AreBelow (length self.old.marks.items) clauses.now }
        requires even { (c d : ℕ) → is_among clauses.now c ≡ true → is_among clauses.now d ≡ true
            → marked self.old.marks.items c ≡ marked self.old.marks.items d }
        ensures marked { OnOk result ((c : ℕ) → marked self.new.marks.items c
            ≡ marked self.old.marks.items c || is_among clauses.now c) }
        ensures grows { OnOk result (Grows self.old.marks.items self.new.marks.items
            self.old.work.items self.new.work.items) }
    {
        if self.is_first_reached(clauses) {
            return Ok(());
        }
        for no in clauses {
            self.reach(*no)?;
        }
        Ok(())
    }

    /// Marks the clauses that a call can be taken by.
    fn reach_called(&mut self, loaded: &Loaded, goal: NodeNo) -> Result<(), AllocError>
        requires goal { goal.0 < length (skeleton_of loaded.now).nodes }
        requires long { length self.old.marks.items ≡ suc (length (program_of loaded.now).clauses) }
        requires even { IsEven (program_of loaded.now) self.old.marks.items }
        ensures marked { OnOk result ((c : ℕ) → marked self.new.marks.items c ≡ marked self.old.marks.items c
            || is_of (program_of loaded.now) (node_term (skeleton_of loaded.now).nodes goal.0) c) }
        ensures grows { OnOk result (Grows self.old.marks.items self.new.marks.items
            self.old.work.items self.new.work.items) }
    {
        match loaded.kind(goal) {
            NodeKind::Variable(_) => Ok(()),
            NodeKind::Number(_) => Ok(()),
            NodeKind::Compound { name, count } => self.reach_all(loaded.clauses_of(name, count)),
        }
    }

    /// Marks the clauses that an item can be taken by, where it is a call.
    fn reach_by_item(&mut self, loaded: &Loaded, item: ItemNode) -> Result<(), AllocError>
        requires item { (k : ℕ) × IsThere (skeleton_of loaded.now).nodes k (node_item item) }
        requires long { length self.old.marks.items ≡ suc (length (program_of loaded.now).clauses) }
        requires even { IsEven (program_of loaded.now) self.old.marks.items }
        ensures marked { OnOk result ((c : ℕ) → marked self.new.marks.items c ≡ marked self.old.marks.items c
            || calls (program_of loaded.now) (item_of (skeleton_of loaded.now).nodes (node_item item)) c) }
        ensures grows { OnOk result (Grows self.old.marks.items self.new.marks.items
            self.old.work.items self.new.work.items) }
        ensures even { OnOk result (IsEven (program_of loaded.now) self.new.marks.items) }
    {
        match item {
            ItemNode::Call { goal } => self.reach_called(loaded, goal),
            ItemNode::Equal { left: _, right: _ } => Ok(()),
            ItemNode::Is {
                left: _,
                right: _,
                pair: _,
            } => Ok(()),
            ItemNode::Compare {
                relation: _,
                left: _,
                right: _,
            } => Ok(()),
            ItemNode::Fail => Ok(()),
        }
    }

    /// Marks the clauses that the calls of a clause can be taken by.
    fn reach_from(&mut self, loaded: &Loaded, no: ClauseNo) -> Result<(), AllocError>
        requires there { no.0 ≤ length (program_of loaded.now).clauses }
        requires long { length self.old.marks.items ≡ suc (length (program_of loaded.now).clauses) }
        requires even { IsEven (program_of loaded.now) self.old.marks.items }
        ensures marked { OnOk result ((c : ℕ) → marked self.new.marks.items c ≡ marked self.old.marks.items c
            || some_calls (program_of loaded.now) (clause_at (program_of loaded.now) no.0).body c) }
        ensures grows { OnOk result (Grows self.old.marks.items self.new.marks.items
            self.old.work.items self.new.work.items) }
        ensures even { OnOk result (IsEven (program_of loaded.now) self.new.marks.items) }
    {
        for item in loaded.items(no) {
            self.reach_by_item(loaded, *item)?;
        }
        Ok(())
    }
}
