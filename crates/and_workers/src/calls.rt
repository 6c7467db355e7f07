//! The calls of a worker on its store that are none of cells.

ghost use Rattle.std.specs.Prelude.{◌≡◌, ◌<◌, ◌≤◌, ℕ, [], length, IfSome, IfNone};
ghost use Rattle.and_model.specs.declared.goal.Goal.{Goal};
ghost use Rattle.and_model.specs.declared.reference.Ref.{Ref};
ghost use Rattle.and_cells.specs.Ranges.{IsGoalInRange};
ghost use Rattle.and_store.specs.Calls.{TakesFrame, GetsNone, Fails, FindsFailed, HangsGoal, FindsWaiter, FindsSet};
ghost use Rattle.and_store.specs.Calls.{HandsOut};

use and_cells::Naming;
use and_model::Goal;
use and_store::{Hung, Pass, Store, StoreCells};
use std::snapshot::Snapshot;

/// A frame that was taken: where it begins, and the pass as it was before.
pub(crate) type TakenFrame = (u32, Snapshot<Pass>);

/// Takes a frame of so many words; `None` where the store has no room for it.
pub(crate) fn take_frame<'a, N: Naming>(
    store: &'a Store<N>,
    cells: StoreCells<'a, N>,
    weight: u32,
) -> (StoreCells<'a, N>, Option<TakenFrame>)
    requires store { cells.pass.store ≡ store.now }
    requires weight { weight ≤ 4194304 }
    ensures same { (result.0.pass.store ≡ store.now) × (result.0.pass.kept ≡ cells.entry.pass.kept) }
    ensures some { IfSome result.1 (λ f. (f.1.value ≡ cells.entry.pass)
        × TakesFrame store.now.about.words f.0 weight cells.entry.pass.pass result.0.pass.pass) }
    ensures none { IfNone result.1 (GetsNone store.now.about.words weight cells.entry.pass.pass result.0.pass.pass) }
{
    let mut pass = cells.into_pass();
    let judged = Snapshot::of(&pass);
    match store.take_frame(&mut pass, weight) {
        Some(base) => (StoreCells::new(store, pass), Some((base, judged))),
        None => (StoreCells::new(store, pass), None),
    }
}

/// The pass as it is now.
pub(crate) fn pass_now<'a, N: Naming>(
    store: &'a Store<N>,
    cells: StoreCells<'a, N>,
) -> (StoreCells<'a, N>, Snapshot<Pass>)
    requires { cells.pass.store ≡ store.now }
    ensures { (result.0.pass ≡ cells.entry.pass) × (result.1.value ≡ cells.entry.pass) }
{
    let pass = cells.into_pass();
    let judged = Snapshot::of(&pass);
    (StoreCells::new(store, pass), judged)
}

/// Tells all workers that the tree is dead.
pub(crate) fn fail<'a, N: Naming>(
    store: &'a Store<N>,
    cells: StoreCells<'a, N>,
) -> StoreCells<'a, N>
    requires { cells.pass.store ≡ store.now }
    ensures same { (result.pass.store ≡ store.now) × (result.pass.kept ≡ cells.entry.pass.kept) }
    ensures fails { Fails cells.entry.pass.pass result.pass.pass }
{
    let mut pass = cells.into_pass();
    store.fail(&mut pass);
    StoreCells::new(store, pass)
}

/// Whether some worker told that the tree is dead.
pub(crate) fn has_failed<'a, N: Naming>(
    store: &'a Store<N>,
    cells: StoreCells<'a, N>,
) -> (StoreCells<'a, N>, bool)
    requires { cells.pass.store ≡ store.now }
    ensures same { (result.0.pass.store ≡ store.now) × (result.0.pass.kept ≡ cells.entry.pass.kept) }
    ensures found { FindsFailed result.1 cells.entry.pass.pass result.0.pass.pass }
{
    let mut pass = cells.into_pass();
    let failed = store.failed(&mut pass);
    (StoreCells::new(store, pass), failed)
}

/// Hangs a goal on a cell.
pub(crate) fn hang<'a, N: Naming>(
    store: &'a Store<N>,
    cells: StoreCells<'a, N>,
    cell: u32,
    goal: Goal,
) -> (StoreCells<'a, N>, Hung)
    requires store { cells.pass.store ≡ store.now }
    requires cell { cell < store.now.about.words }
    requires goal { IsGoalInRange N.program store.now.about.words goal }
    ensures same { (result.0.pass.store ≡ store.now) × (result.0.pass.kept ≡ cells.entry.pass.kept) }
    ensures done { result.1 ≡ Hung.Done
        → HangsGoal store.now.about.waiters cell goal cells.entry.pass.pass result.0.pass.pass }
    ensures full { (back : Goal) → result.1 ≡ Hung.Full back
        → (back ≡ goal) × (result.0.pass.pass ≡ cells.entry.pass.pass) }
    ensures occupied { (back : Goal) → result.1 ≡ Hung.Occupied back
        → (back ≡ goal) × FindsWaiter cell cells.entry.pass.pass result.0.pass.pass }
    ensures bound { (to : Ref) (back : Goal) → result.1 ≡ Hung.Bound to back
        → (back ≡ goal) × FindsSet N.program store.now.about cell to cells.entry.pass.pass result.0.pass.pass }
{
    let mut pass = cells.into_pass();
    let hung = store.hang(&mut pass, cell, goal);
    (StoreCells::new(store, pass), hung)
}

/// A goal that hung on a cell which this worker set.
pub(crate) fn woken<'a, N: Naming>(
    store: &'a Store<N>,
    cells: StoreCells<'a, N>,
) -> (StoreCells<'a, N>, Option<Goal>)
    requires { cells.pass.store ≡ store.now }
    ensures store { result.0.pass.store ≡ store.now }
    ensures none { IfNone result.1 ((cells.entry.pass.kept ≡ []) × (result.0.pass ≡ cells.entry.pass)) }
    ensures some { IfSome result.1
        (λ goal. HandsOut N.program store.now.about.words goal cells.entry.pass result.0.pass) }
{
    let mut pass = cells.into_pass();
    let goal = store.woken(&mut pass);
    (StoreCells::new(store, pass), goal)
}
