//! Bodies that are gone through, in preorder.

ghost use Rattle.std.specs.Prelude.{◌≡◌, ◌≤◌, ◌++◌, ◌∷◌, List, map, length, IfOk, OnOk};
ghost use Rattle.and_program.specs.Items.{node_item};
ghost use Rattle.and_program.specs.Loaded.{program_of, skeleton_of};
ghost use Rattle.and_program.specs.Skeletons.{item_of};
ghost use Rattle.and_model.specs.Programs.{clause_at};
ghost use Rattle.and_branch_laws.specs.Visits;
ghost use Rattle.and_branch_laws.specs.Visits.{into, onward};
ghost use Rattle.and_code.specs.Visiting.{AreAtCalls, IsAtCall, LeadsTo, visit_of, visited, visits_of, waiting};
ghost use Rattle.and_code.specs.Written.{written};

use and_model::{ClauseNo, Reduction};
use and_program::{ItemNode, Loaded};
use std::alloc::AllocError;

/// A body that is gone through, from an item on: that of the clause at a node.
#[derive(Clone, Copy, PartialEq, Eq, Debug)]
pub(crate) struct Visit {
    pub(crate) node: u32,
    pub(crate) clause: ClauseNo,
    pub(crate) item: usize,
    /// Where the reduction that takes the call is looked for first: just behind the one that was found last.
    pub(crate) from: usize,
}

/// The visit of the first call of a body, which has these items, from one on; `None` where no call comes.
pub(crate) fn at_call(_loaded: &Loaded, items: &[ItemNode], visit: Visit) -> Option<Visit>
    requires named { visit.clause.0 ≤ length (program_of _loaded.now).clauses }
    requires body { map (item_of (skeleton_of _loaded.now).nodes) (map node_item items.now)
        ≡ (clause_at (program_of _loaded.now) visit.clause.0).body }
    ensures calls { AreAtCalls (program_of _loaded.now) (visited result) }
    ensures leads { (vs : List Visits.Visit)
        → LeadsTo (program_of _loaded.now) (visit_of visit ∷ vs) (visited result ++ vs) }
{
    for item in visit.item..items.len() {
        if items[item].is_call() {
            return Some(Visit { item, ..visit });
        }
    }
    None
}

/// Goes on behind a call that a reduction took: in the body of its clause, later behind the call, and
/// then in the bodies that wait. Their calls are looked for from a place on. An error is want of memory.
pub(crate) fn go_on(
    loaded: &Loaded,
    visit: Visit,
    reduction: Reduction,
    from: usize,
    visits: &mut Vec<Visit>,
) -> Result<Option<Visit>, AllocError>
    requires here { IsAtCall (program_of loaded.now) (visit_of visit) }
    requires named { reduction.clause.0 ≤ length (program_of loaded.now).clauses }
    requires calls { AreAtCalls (program_of loaded.now) (visits_of visits.old.items) }
    ensures calls { IfOk result (λ next. AreAtCalls (program_of loaded.now) (waiting visits.new.items next)) }
    ensures leads { IfOk result (λ next. LeadsTo (program_of loaded.now)
        (into (written reduction) ∷ onward (visit_of visit) ∷ visits_of visits.old.items)
        (waiting visits.new.items next)) }
{
    let rest = behind(loaded, visit, from);
    match entered(loaded, reduction, from) {
        None => match rest {
            None => Ok(visits.pop()),
            Some(visit) => Ok(Some(visit)),
        },
        Some(child) => {
            keep(rest, visits)?;
            Ok(Some(child))
        }
    }
}

/// The visit of the first call behind one.
fn behind(loaded: &Loaded, visit: Visit, from: usize) -> Option<Visit>
    requires { IsAtCall (program_of loaded.now) (visit_of visit) }
    ensures calls { AreAtCalls (program_of loaded.now) (visited result) }
    ensures leads { (vs : List Visits.Visit)
        → LeadsTo (program_of loaded.now) (onward (visit_of visit) ∷ vs) (visited result ++ vs) }
{
    let items = loaded.items(visit.clause);
    prove!(visit.item < items.len());
    let item = visit.item + 1;
    at_call(
        loaded,
        items,
        Visit {
            item,
            from,
            ..visit
        },
    )
}

/// Lets a visit wait, if there is one. An error is want of memory.
fn keep(visit: Option<Visit>, visits: &mut Vec<Visit>) -> Result<(), AllocError>
    ensures { OnOk result (visits_of visits.new.items ≡ visited visit ++ visits_of visits.old.items) }
{
    match visit {
        None => Ok(()),
        Some(visit) => {
            visits.push(visit)?;
            Ok(())
        }
    }
}

/// The visit of the first call in the body of the clause by which a call was reduced.
fn entered(loaded: &Loaded, reduction: Reduction, from: usize) -> Option<Visit>
    requires { reduction.clause.0 ≤ length (program_of loaded.now).clauses }
    ensures calls { AreAtCalls (program_of loaded.now) (visited result) }
    ensures leads { (vs : List Visits.Visit)
        → LeadsTo (program_of loaded.now) (into (written reduction) ∷ vs) (visited result ++ vs) }
{
    at_call(
        loaded,
        loaded.items(reduction.clause),
        Visit {
            node: reduction.node,
            clause: reduction.clause,
            item: 0,
            from,
        },
    )
}
