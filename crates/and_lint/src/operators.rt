//! The operators of arithmetic, and terms that can have no value.

ghost use Rattle.std.specs.Prelude.{◌≡◌, ◌<◌, ◌&&◌, ◌||◌, not, IfOk, length, nat_eq};
ghost use Rattle.std.specs.List.{list_any};
ghost use Rattle.and_model.specs.Arithmetic.{is_operation, is_zero};
ghost use Rattle.and_program.specs.Loaded.{arguments_at, skeleton_of};
ghost use Rattle.and_program.specs.Shown.{argument_of};
ghost use Rattle.and_program.specs.Skeletons.{node_term};
ghost use Rattle.and_lint.specs.Subterms as specs;
ghost use Rattle.and_lint.specs.Subterms.{subterms};

use crate::walking::next_subterm;
use and_model::builtins::{DIVIDE, MODULO, REMAINDER, is_operation};
use and_model::{NameNo, NodeNo};
use and_program::{Loaded, NodeKind};
use std::alloc::{AllocError, Global};

fn is_division(name: NameNo) -> bool
    ensures { result ≡ specs.is_division name.0 }
{
    let NameNo(name) = name;
    name == DIVIDE || name == MODULO || name == REMAINDER
}

fn is_zero(value: i64) -> bool
    ensures { result ≡ is_zero value }
{
    value == 0
}

/// Whether the term of a node is the numeral 0.
fn is_numeral_zero(loaded: &Loaded, node: NodeNo) -> bool
    requires { node.0 < length (skeleton_of loaded.now).nodes }
    ensures { result ≡ specs.is_numeral_zero (node_term (skeleton_of loaded.now).nodes node.0) }
{
    match loaded.kind(node) {
        NodeKind::Variable(_) => false,
        NodeKind::Number(value) => is_zero(value),
        NodeKind::Compound { name: _, count: _ } => false,
    }
}

fn is_binary_division(name: NameNo, count: u8) -> bool
    ensures { result ≡ (nat_eq count 2 && specs.is_division name.0) }
{
    count == 2 && is_division(name)
}

/// Whether a node of that name and so many arguments is a division by the numeral 0.
fn is_division_by_zero(loaded: &Loaded, node: NodeNo, name: NameNo, count: u8) -> bool
    requires there { node.0 < length (skeleton_of loaded.now).nodes }
    requires count { count ≡ length (arguments_at (skeleton_of loaded.now) node.0) }
    ensures { result ≡ (nat_eq count 2 && specs.is_division name.0
        && specs.is_numeral_zero (argument_of (node_term (skeleton_of loaded.now).nodes node.0) 1)) }
{
    if is_binary_division(name, count) {
        return is_numeral_zero(loaded, loaded.argument(node, 1));
    }
    false
}

/// Whether a node of that name and so many arguments can have no value.
fn has_structure_no_value(loaded: &Loaded, node: NodeNo, name: NameNo, count: u8) -> bool
    requires there { node.0 < length (skeleton_of loaded.now).nodes }
    requires count { count ≡ length (arguments_at (skeleton_of loaded.now) node.0) }
    ensures { result ≡ (not (is_operation name.0 count) || (nat_eq count 2 && specs.is_division name.0
        && specs.is_numeral_zero (argument_of (node_term (skeleton_of loaded.now).nodes node.0) 1))) }
{
    if is_operation(name.0, count) {
        return is_division_by_zero(loaded, node, name, count);
    }
    true
}

/// Whether the term of a node can have no value, whatever its variables are.
pub(crate) fn has_no_value(loaded: &Loaded, node: NodeNo) -> bool
    requires { node.0 < length (skeleton_of loaded.now).nodes }
    ensures { result ≡ specs.has_no_value (node_term (skeleton_of loaded.now).nodes node.0) }
{
    match loaded.kind(node) {
        NodeKind::Variable(_) => false,
        NodeKind::Number(_) => false,
        NodeKind::Compound { name, count } => { has_structure_no_value(loaded, node, name, count) }
    }
}

/// Whether the term of a node is an operator's.
fn is_operators(loaded: &Loaded, node: NodeNo) -> bool
    requires { node.0 < length (skeleton_of loaded.now).nodes }
    ensures { result ≡ specs.is_operators (node_term (skeleton_of loaded.now).nodes node.0) }
{
    match loaded.kind(node) {
        NodeKind::Variable(_) => false,
        NodeKind::Number(_) => false,
        NodeKind::Compound { name, count } => is_operation(name.0, count),
    }
}

/// Whether the term of a node is a variable or a numeral.
fn is_leaf(loaded: &Loaded, node: NodeNo) -> bool
    requires { node.0 < length (skeleton_of loaded.now).nodes }
    ensures { result ≡ specs.is_leaf (node_term (skeleton_of loaded.now).nodes node.0) }
{
    match loaded.kind(node) {
        NodeKind::Variable(_) => true,
        NodeKind::Number(_) => true,
        NodeKind::Compound { name: _, count: _ } => false,
    }
}

/// Whether a variable or a numeral is in the term of a node. An error is want of memory.
fn has_leaf(alloc: Global, loaded: &Loaded, node: NodeNo) -> Result<bool, AllocError>
    requires { node.0 < length (skeleton_of loaded.now).nodes }
    ensures { IfOk result (λ has. has
        ≡ list_any specs.is_leaf (subterms (node_term (skeleton_of loaded.now).nodes node.0))) }
{
    let mut left = Vec::new(alloc);
    left.push(node)?;
    loop {
        match next_subterm(loaded, &mut left)? {
            Some(next) => {
                if is_leaf(loaded, next) {
                    return Ok(true);
                }
            }
            None => return Ok(false),
        }
    }
}

/// Whether the term of a node is an operator's with a variable or a numeral in it. An error is want
/// of memory.
pub(crate) fn looks_worked_out(
    alloc: Global,
    loaded: &Loaded,
    node: NodeNo,
) -> Result<bool, AllocError>
    requires { node.0 < length (skeleton_of loaded.now).nodes }
    ensures { IfOk result (λ looks. looks
        ≡ specs.looks_worked_out (node_term (skeleton_of loaded.now).nodes node.0)) }
{
    if is_operators(loaded, node) {
        has_leaf(alloc, loaded, node)
    } else {
        Ok(false)
    }
}
