//! Names of terms, and the order in which variables occur.

ghost use Rattle.std.specs.Prelude.{◌≡◌, ◌<◌, [], ◌∷◌, IfOk, OnOk, ◌++◌, length, map};
ghost use Rattle.and_model.specs.Terms.{variables_of};
ghost use Rattle.and_model.specs.Lines.{first_seen, has, place_of};
ghost use Rattle.and_program.specs.Loaded.{program_of, skeleton_of};
ghost use Rattle.and_program.specs.Skeletons.{node_term};
ghost use Rattle.and_lint.specs.Findings.{shown_name_of};
ghost use Rattle.and_lint.specs.Kept.{name_in, unframed, variable_here};

use crate::walking::next_subterm;
use and_model::{NameNo, NodeNo, Text};
use and_program::{Loaded, NodeKind};
use and_quoting::write_name;
use std::alloc::{AllocError, Global};

/// The name of a node, by what it is.
fn name_in(kind: NodeKind) -> NameNo
    ensures { result.0 ≡ name_in kind }
{
    match kind {
        NodeKind::Variable(_) => NameNo(0),
        NodeKind::Number(_) => NameNo(0),
        NodeKind::Compound { name, count: _ } => name,
    }
}

/// Puts the name of a node's term at the end of the text. After want of memory the text is spent.
pub(crate) fn write_name_of(
    loaded: &Loaded,
    node: NodeNo,
    text: &mut Text,
) -> Result<(), AllocError>
    requires { node.0 < length (skeleton_of loaded.now).nodes }
    ensures { OnOk result (text.new ≡ text.old
        ++ shown_name_of (program_of loaded.now) (node_term (skeleton_of loaded.now).nodes node.0)) }
{
    write_name(text, loaded.name(name_in(loaded.kind(node))))
}

/// The variables of a node's term, each once, in the order of their first occurrences. An error is
/// want of memory.
pub(crate) fn variables_in_order(
    alloc: Global,
    loaded: &Loaded,
    node: NodeNo,
) -> Result<Vec<u8>, AllocError>
    requires { node.0 < length (skeleton_of loaded.now).nodes }
    ensures { IfOk result (λ seen. map unframed seen.items
        ≡ first_seen [] (variables_of (node_term (skeleton_of loaded.now).nodes node.0))) }
{
    let mut seen = Vec::new(alloc);
    let mut left = Vec::new(alloc);
    left.push(node)?;
    loop {
        match next_subterm(loaded, &mut left)? {
            Some(next) => see(loaded, next, &mut seen)?,
            None => return Ok(seen),
        }
    }
}

/// Puts a node's variable, where it is one that is not seen yet, behind those that are.
fn see(loaded: &Loaded, node: NodeNo, seen: &mut Vec<u8>) -> Result<(), AllocError>
    requires { node.0 < length (skeleton_of loaded.now).nodes }
    ensures { OnOk result (map unframed seen.new.items
        ≡ first_seen (map unframed seen.old.items) (variable_here (node_term (skeleton_of loaded.now).nodes node.0))) }
{
    match loaded.kind(node) {
        NodeKind::Variable(number) => see_variable(number, seen),
        NodeKind::Number(_) => Ok(()),
        NodeKind::Compound { name: _, count: _ } => Ok(()),
    }
}

/// Puts a variable that is not seen yet behind those that are.
fn see_variable(number: u8, seen: &mut Vec<u8>) -> Result<(), AllocError>
    ensures { OnOk result (map unframed seen.new.items
        ≡ first_seen (map unframed seen.old.items) (unframed number ∷ [])) }
{
    if is_seen(number, seen) {
        return Ok(());
    }
    seen.push(number)?;
    Ok(())
}

/// Whether a variable is among these.
fn is_seen(number: u8, seen: &[u8]) -> bool
    ensures { result ≡ has (unframed number) (map unframed seen.now) }
{
    for other in seen {
        if *other == number {
            return true;
        }
    }
    false
}

/// The place of a variable among these, from 0 on.
pub(crate) fn place_of(number: u8, seen: &[u8]) -> usize
    ensures { result ≡ place_of (unframed number) (map unframed seen.now) }
{
    for (place, other) in seen.iter().enumerate() {
        if *other == number {
            return place;
        }
    }
    seen.len()
}
