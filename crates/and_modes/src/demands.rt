//! What a clause asks of an assignment.

ghost use Rattle.std.specs.Prelude.{◌≡◌, ◌<◌, ◌≤◌, ◌++◌, IfOk, OnOk, ℕ, length};
ghost use Rattle.and_model.specs.Programs.{clause_at};
ghost use Rattle.and_program.specs.Loaded.{skeleton_of, program_of};
ghost use Rattle.and_program.specs.Skeletons.{node_term, item_of, IsThere};
ghost use Rattle.and_program.specs.Items.{node_item};
ghost use Rattle.and_modes.specs.Asked.{asked_of, asked_by_item, asked_in};
ghost use Rattle.and_modes.specs.Kept.{assignment_of};
ghost use Rattle.and_modes.specs.Known.{environment};

use crate::assignment::{Modes, Place};
use crate::known::{Functor, Known, functor_of};
use crate::level::{Level, Side};
use and_model::{ClauseNo, NodeNo};
use and_program::{ItemNode, Loaded};
use std::alloc::{AllocError, Global};

/// A place whose level is to be at most the one that is known of an argument.
#[derive(Clone, Copy)]
pub struct Demand {
    pub place: Place,
    pub side: Side,
    pub level: Level,
}

/// What a clause asks of an assignment: its calls of the places where they call, and its head of the
/// places where it succeeds. An error is want of memory.
pub(crate) fn demands_in(
    alloc: Global,
    loaded: &Loaded,
    modes: &Modes,
    no: ClauseNo,
) -> Result<Vec<Demand>, AllocError>
    requires { no.0 ≤ length (program_of loaded.now).clauses }
    ensures { IfOk result (λ demands. demands.items
        ≡ asked_in (assignment_of modes.now) (clause_at (program_of loaded.now) no.0)) }
{
    let head = loaded.head(no);
    let mut known = Known::nothing();
    known.raise_arguments(alloc, loaded, modes, head, Side::Called)?;
    let mut demands = Vec::new(alloc);
    for item in loaded.items(no) {
        ask_by_item(alloc, loaded, &known, *item, &mut demands)?;
        known.pass(alloc, loaded, modes, *item)?;
    }
    ask(alloc, loaded, &known, head, Side::Succeeded, &mut demands)?;
    Ok(demands)
}

/// Adds what an item asks.
pub(crate) fn ask_by_item(
    alloc: Global,
    loaded: &Loaded,
    known: &Known,
    item: ItemNode,
    demands: &mut Vec<Demand>,
) -> Result<(), AllocError>
    requires { (k : ℕ) × IsThere (skeleton_of loaded.now).nodes k (node_item item) }
    ensures { OnOk result (demands.new.items
        ≡ demands.old.items ++ asked_by_item (environment known.now.levels)
        (item_of (skeleton_of loaded.now).nodes (node_item item))) }
{
    match item {
        ItemNode::Call { goal } => ask(alloc, loaded, known, goal, Side::Called, demands),
        ItemNode::Equal { left: _, right: _ } => Ok(()),
        ItemNode::Is {
            left: _,
            right: _,
            pair: _,
        } => Ok(()),
        ItemNode::Compare {
            relation: _,
            left: _,
            right: _,
        } => Ok(()),
        ItemNode::Fail => Ok(()),
    }
}

/// Adds what a goal or a head asks of the places of its predicate.
pub(crate) fn ask(
    alloc: Global,
    loaded: &Loaded,
    known: &Known,
    goal: NodeNo,
    side: Side,
    demands: &mut Vec<Demand>,
) -> Result<(), AllocError>
    requires { goal.0 < length (skeleton_of loaded.now).nodes }
    ensures { OnOk result (demands.new.items
        ≡ demands.old.items ++ asked_of (environment known.now.levels) side
        (node_term (skeleton_of loaded.now).nodes goal.0)) }
{
    let Functor { name, count } = functor_of(loaded, goal);
    for number in 0..count {
        let level = known.level(alloc, loaded, loaded.argument(goal, number))?;
        let place = Place {
            name,
            arity: count,
            number,
        };
        demands.push(Demand { place, side, level })?;
    }
    Ok(())
}
