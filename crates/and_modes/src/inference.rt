//! The greatest assignment, found by lowering places from the highest one on (a falling iteration
//! over tables).

ghost use Rattle.std.specs.Prelude.{◌≡◌, ◌<◌, ◌≤◌, ℕ, Bool, true, length, IfOk, Ok};
ghost use Rattle.and_model.specs.Programs.{clause_at};
ghost use Rattle.and_program.specs.Loaded.{program_of, skeleton_of};
ghost use Rattle.and_program.specs.Skeletons.{item_of, IsThere};
ghost use Rattle.and_program.specs.Items.{node_item};
ghost use Rattle.and_modes.specs.Modes.{Assignment, IsWellModed, WellModed, Greatest};
ghost use Rattle.and_modes.specs.Asked.{asked_by_item, AllMet, IsAtOrAbove};
ghost use Rattle.and_modes.specs.Kept.{assignment_of};
ghost use Rattle.and_modes.specs.Known.{environment};
ghost use Rattle.and_modes.specs.Looked.{StaysAbove, FellOr};
ghost use Rattle.and_modes.specs.Totals.{height};

use crate::assignment::Modes;
use crate::callers::Callers;
use crate::demands::{Demand, ask, ask_by_item, demands_in};
use crate::known::Known;
use crate::level::Side;
use crate::worklist::{Bodies, WorkList};
use and_model::ClauseNo;
use and_program::{ItemNode, Loaded};
use std::alloc::{AllocError, Global};

/// The greatest well-moded assignment of a program. An error is want of memory.
pub fn infer(alloc: Global, loaded: &Loaded) -> Result<Modes, AllocError>
    ensures { IfOk result (λ modes. Greatest (program_of loaded.now) (assignment_of modes)) }
{
    let callers = Callers::of_program(alloc, loaded)?;
    let mut work = WorkList::new(alloc, loaded)?;
    let mut modes = Modes::highest(alloc);
    while look_at_all(alloc, loaded, &callers, &mut modes, &mut work)? {
        settle(alloc, loaded, &callers, &mut modes, &mut work)?;
    }
    Ok(modes)
}

/// Looks at the clauses on the list again until no place falls. An error is want of memory.
fn settle(
    alloc: Global,
    loaded: &Loaded,
    callers: &Callers,
    modes: &mut Modes,
    work: &mut WorkList,
) -> Result<(), AllocError>
    ensures above { result ≡ Ok tt
        → StaysAbove (program_of loaded.now) (assignment_of modes.old) (assignment_of modes.new) }
    ensures lower { result ≡ Ok tt → height (assignment_of modes.new) ≤ height (assignment_of modes.old) }
{
    while look_at_long(alloc, loaded, callers, modes, work)? {}
    Ok(())
}

/// Settles the short clauses, looks then along the long ones on the list, and tells whether a place
/// fell at these.
fn look_at_long(
    alloc: Global,
    loaded: &Loaded,
    callers: &Callers,
    modes: &mut Modes,
    work: &mut WorkList,
) -> Result<bool, AllocError>
    ensures above { (fell : Bool) → result ≡ Ok fell
        → StaysAbove (program_of loaded.now) (assignment_of modes.old) (assignment_of modes.new) }
    ensures at_most { (fell : Bool) → result ≡ Ok fell
        → height (assignment_of modes.new) ≤ height (assignment_of modes.old) }
    ensures lower { result ≡ Ok true → height (assignment_of modes.new) < height (assignment_of modes.old) }
{
    settle_short(alloc, loaded, callers, modes, work)?;
    look_along_all(alloc, loaded, callers, modes, work)
}

/// Looks along the long clauses on the list, and tells whether a place fell.
fn look_along_all(
    alloc: Global,
    loaded: &Loaded,
    callers: &Callers,
    modes: &mut Modes,
    work: &mut WorkList,
) -> Result<bool, AllocError>
    ensures { (fell : Bool) → result ≡ Ok fell
        → StaysAbove (program_of loaded.now) (assignment_of modes.old) (assignment_of modes.new)
        × FellOr fell (assignment_of modes.old) (assignment_of modes.new) (Unit {0}) }
{
    let mut fell = false;
    for no in &work.take(alloc, Bodies::Long) {
        if no.0 as u32 <= loaded.clause_count()
            && look_along(alloc, loaded, callers, modes, work, *no)?
        {
            fell = true;
        }
    }
    Ok(fell)
}

/// Looks along a body: lowers the places of each call, and settles the short clauses, before it goes
/// past the call. So what a call hands on is known to the calls behind it, and one look is mostly
/// enough.
fn look_along(
    alloc: Global,
    loaded: &Loaded,
    callers: &Callers,
    modes: &mut Modes,
    work: &mut WorkList,
    no: ClauseNo,
) -> Result<bool, AllocError>
    requires { no.0 ≤ length (program_of loaded.now).clauses }
    ensures { (fell : Bool) → result ≡ Ok fell
        → StaysAbove (program_of loaded.now) (assignment_of modes.old) (assignment_of modes.new)
        × FellOr fell (assignment_of modes.old) (assignment_of modes.new) (Unit {0}) }
{
    let head = loaded.head(no);
    let mut known = Known::nothing();
    known.raise_arguments(alloc, loaded, modes, head, Side::Called)?;
    let mut fell = false;
    for item in loaded.items(no) {
        if look_at_item(alloc, loaded, callers, modes, work, &known, *item)? {
            fell = true;
        }
        known.pass(alloc, loaded, modes, *item)?;
    }
    let mut demands = Vec::new(alloc);
    ask(alloc, loaded, &known, head, Side::Succeeded, &mut demands)?;
    if lower_all(loaded, callers, modes, work, &demands)? {
        fell = true;
    }
    Ok(fell)
}

/// Lowers the places of an item's call to what is known of its arguments, and where one fell, settles
/// the short clauses.
fn look_at_item(
    alloc: Global,
    loaded: &Loaded,
    callers: &Callers,
    modes: &mut Modes,
    work: &mut WorkList,
    known: &Known,
    item: ItemNode,
) -> Result<bool, AllocError>
    requires { (k : ℕ) × IsThere (skeleton_of loaded.now).nodes k (node_item item) }
    ensures { (fell : Bool) → result ≡ Ok fell
        → ((other : Assignment) → WellModed (program_of loaded.now) other
        → AllMet other (asked_by_item (environment known.now.levels)
        (item_of (skeleton_of loaded.now).nodes (node_item item)))
        → IsAtOrAbove (assignment_of modes.old) other → IsAtOrAbove (assignment_of modes.new) other)
        × FellOr fell (assignment_of modes.old) (assignment_of modes.new) (Unit {0}) }
{
    let mut demands = Vec::new(alloc);
    ask_by_item(alloc, loaded, known, item, &mut demands)?;
    if !lower_all(loaded, callers, modes, work, &demands)? {
        return Ok(false);
    }
    settle_short(alloc, loaded, callers, modes, work)?;
    Ok(true)
}

/// Looks at the short clauses on the list again until no place falls at one of them.
fn settle_short(
    alloc: Global,
    loaded: &Loaded,
    callers: &Callers,
    modes: &mut Modes,
    work: &mut WorkList,
) -> Result<(), AllocError>
    ensures above { result ≡ Ok tt
        → StaysAbove (program_of loaded.now) (assignment_of modes.old) (assignment_of modes.new) }
    ensures lower { result ≡ Ok tt → height (assignment_of modes.new) ≤ height (assignment_of modes.old) }
{
    while look_again(alloc, loaded, callers, modes, work)? {}
    Ok(())
}

/// Looks at each clause and at the query, and tells whether a place fell.
fn look_at_all(
    alloc: Global,
    loaded: &Loaded,
    callers: &Callers,
    modes: &mut Modes,
    work: &mut WorkList,
) -> Result<bool, AllocError>
    ensures { (fell : Bool) → result ≡ Ok fell
        → StaysAbove (program_of loaded.now) (assignment_of modes.old) (assignment_of modes.new)
        × FellOr fell (assignment_of modes.old) (assignment_of modes.new)
        (WellModed (program_of loaded.now) (assignment_of modes.new)) }
{
    let mut fell = false;
    for number in 0..loaded.clause_count() + 1 {
        let no = ClauseNo(number as u16);
        if look(alloc, loaded, callers, modes, work, no)? {
            fell = true;
        }
    }
    Ok(fell)
}

/// Looks at the short clauses on the list, and tells whether a place fell.
fn look_again(
    alloc: Global,
    loaded: &Loaded,
    callers: &Callers,
    modes: &mut Modes,
    work: &mut WorkList,
) -> Result<bool, AllocError>
    ensures { (fell : Bool) → result ≡ Ok fell
        → StaysAbove (program_of loaded.now) (assignment_of modes.old) (assignment_of modes.new)
        × FellOr fell (assignment_of modes.old) (assignment_of modes.new) (Unit {0}) }
{
    let mut fell = false;
    for no in &work.take(alloc, Bodies::Short) {
        if no.0 as u32 <= loaded.clause_count() && look(alloc, loaded, callers, modes, work, *no)? {
            fell = true;
        }
    }
    Ok(fell)
}

/// Looks at a clause: lowers each place to what is known of its arguments there, and lists the clauses
/// that depend on a place that fell. Tells whether one did.
fn look(
    alloc: Global,
    loaded: &Loaded,
    callers: &Callers,
    modes: &mut Modes,
    work: &mut WorkList,
    no: ClauseNo,
) -> Result<bool, AllocError>
    requires { no.0 ≤ length (program_of loaded.now).clauses }
    ensures { (fell : Bool) → result ≡ Ok fell
        → StaysAbove (program_of loaded.now) (assignment_of modes.old) (assignment_of modes.new)
        × FellOr fell (assignment_of modes.old) (assignment_of modes.new)
        (IsWellModed (assignment_of modes.new) (clause_at (program_of loaded.now) no.0)) }
{
    let demands = demands_in(alloc, loaded, modes, no)?;
    lower_all(loaded, callers, modes, work, &demands)
}

/// Lowers the place of each demand.
fn lower_all(
    loaded: &Loaded,
    callers: &Callers,
    modes: &mut Modes,
    work: &mut WorkList,
    demands: &[Demand],
) -> Result<bool, AllocError>
    ensures { (fell : Bool) → result ≡ Ok fell
        → ((other : Assignment) → AllMet other demands.now → IsAtOrAbove (assignment_of modes.old) other
        → IsAtOrAbove (assignment_of modes.new) other)
        × FellOr fell (assignment_of modes.old) (assignment_of modes.new)
        (AllMet (assignment_of modes.new) demands.now) }
{
    let mut fell = false;
    for demand in demands {
        if modes.lower(*demand)? {
            fell = true;
            work.add_all(callers.dependents(loaded, *demand))?;
        }
    }
    Ok(fell)
}
