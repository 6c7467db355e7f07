//! The variables of items, each where it occurs.

ghost use Rattle.std.specs.Prelude.{◌≡◌, ◌<◌, ◌≤◌, ◌++◌, ◌∷◌, [], ℕ, IfOk, OnOk, length};
ghost use Rattle.std.specs.List.{flat_map};
ghost use Rattle.and_model.specs.Programs.{clause_at};
ghost use Rattle.and_program.specs.Items.{node_item};
ghost use Rattle.and_program.specs.Loaded.{program_of, skeleton_of};
ghost use Rattle.and_program.specs.Skeletons.{IsThere, item_of, node_term};
ghost use Rattle.and_lint.specs.Bodies.{number_here, numbers_in, variable_for};
ghost use Rattle.and_lint.specs.Subterms.{terms_of};

use crate::walking::{count, next_subterm};
use and_model::NodeNo;
use and_program::{ItemNode, Loaded, NodeKind};
use std::alloc::{AllocError, Global};

/// Puts the variable that a node is, where it is one, behind these.
fn push_variable(loaded: &Loaded, node: NodeNo, variables: &mut Vec<u8>) -> Result<(), AllocError>
    requires { node.0 < length (skeleton_of loaded.now).nodes }
    ensures { OnOk result (variables.new.items
        ≡ variables.old.items ++ number_here (node_term (skeleton_of loaded.now).nodes node.0)) }
{
    match loaded.kind(node) {
        NodeKind::Variable(number) => {
            variables.push(number)?;
            Ok(())
        }
        NodeKind::Number(_) => Ok(()),
        NodeKind::Compound { name: _, count: _ } => Ok(()),
    }
}

/// Puts the variables of a node's term, each where it occurs, behind these. An error is want of memory.
pub(crate) fn push_variables(
    alloc: Global,
    loaded: &Loaded,
    node: NodeNo,
    variables: &mut Vec<u8>,
) -> Result<(), AllocError>
    requires { node.0 < length (skeleton_of loaded.now).nodes }
    ensures { OnOk result (variables.new.items
        ≡ variables.old.items ++ numbers_in (node_term (skeleton_of loaded.now).nodes node.0 ∷ [])) }
{
    let mut left = Vec::new(alloc);
    left.push(node)?;
    loop {
        match next_subterm(loaded, &mut left)? {
            Some(next) => push_variable(loaded, next, variables)?,
            None => return Ok(()),
        }
    }
}

/// Puts the variables of two terms behind these.
fn push_both(
    alloc: Global,
    loaded: &Loaded,
    left: NodeNo,
    right: NodeNo,
    variables: &mut Vec<u8>,
) -> Result<(), AllocError>
    requires left { left.0 < length (skeleton_of loaded.now).nodes }
    requires right { right.0 < length (skeleton_of loaded.now).nodes }
    ensures { OnOk result (variables.new.items
        ≡ variables.old.items ++ numbers_in (node_term (skeleton_of loaded.now).nodes left.0
        ∷ node_term (skeleton_of loaded.now).nodes right.0 ∷ [])) }
{
    push_variables(alloc, loaded, left, variables)?;
    push_variables(alloc, loaded, right, variables)
}

/// Puts the variables of an item, each where it occurs, behind these. An error is want of memory.
pub(crate) fn push_item_variables(
    alloc: Global,
    loaded: &Loaded,
    item: ItemNode,
    variables: &mut Vec<u8>,
) -> Result<(), AllocError>
    requires { (k : ℕ) × IsThere (skeleton_of loaded.now).nodes k (node_item item) }
    ensures { OnOk result (variables.new.items ≡ variables.old.items
        ++ numbers_in (terms_of (item_of (skeleton_of loaded.now).nodes (node_item item)))) }
{
    match item {
        ItemNode::Call { goal } => push_variables(alloc, loaded, goal, variables),
        ItemNode::Equal { left, right } => push_both(alloc, loaded, left, right, variables),
        ItemNode::Is {
            left,
            right,
            pair: _,
        } => push_both(alloc, loaded, left, right, variables),
        ItemNode::Compare {
            relation: _,
            left,
            right,
        } => push_both(alloc, loaded, left, right, variables),
        ItemNode::Fail => Ok(()),
    }
}

/// Puts the variable that an argument is, where it is one, behind these.
fn push_argument(
    loaded: &Loaded,
    goal: NodeNo,
    place: u8,
    variables: &mut Vec<u8>,
) -> Result<(), AllocError>
    requires { goal.0 < length (skeleton_of loaded.now).nodes }
    ensures { OnOk result (variables.new.items
        ≡ variables.old.items ++ variable_for (node_term (skeleton_of loaded.now).nodes goal.0) place) }
{
    if place >= count(loaded.kind(goal)) {
        return Ok(());
    }
    push_variable(loaded, loaded.argument(goal, place), variables)
}

/// Puts the variables that the arguments at these places are behind these. An error is want of memory.
pub(crate) fn push_arguments(
    loaded: &Loaded,
    goal: NodeNo,
    places: &[u8],
    variables: &mut Vec<u8>,
) -> Result<(), AllocError>
    requires { goal.0 < length (skeleton_of loaded.now).nodes }
    ensures { OnOk result (variables.new.items ≡ variables.old.items
        ++ flat_map (variable_for (node_term (skeleton_of loaded.now).nodes goal.0)) places.now) }
{
    for place in places {
        push_argument(loaded, goal, *place, variables)?;
    }
    Ok(())
}
