//! The subterms of a node's term, one by one.

ghost use Rattle.std.specs.Prelude.{◌≡◌, ◌<◌, ◌++◌, IfOk, OnOk, length};
ghost use Rattle.and_program.specs.Loaded.{skeleton_of};
ghost use Rattle.and_program.specs.Shown.{count_of};
ghost use Rattle.and_program.specs.Skeletons.{node_term};
ghost use Rattle.and_lint.specs.Kept.{AreThere, arguments_of, terms_on, Walked};

use and_model::NodeNo;
use and_program::{Loaded, NodeKind};
use std::alloc::AllocError;

/// Takes the next subterm from a stack of nodes whose terms are to be gone through. An error is want
/// of memory.
pub(crate) fn next_subterm(
    loaded: &Loaded,
    left: &mut Vec<NodeNo>,
) -> Result<Option<NodeNo>, AllocError>
    requires { AreThere (length (skeleton_of loaded.now).nodes) left.old.items }
    ensures { IfOk result (Walked (skeleton_of loaded.now).nodes left.old.items left.new.items) }
{
    match left.pop() {
        Some(node) => {
            push_arguments(loaded, node, left)?;
            Ok(Some(node))
        }
        None => Ok(None),
    }
}

/// Puts the arguments of a node on a stack, so that the first comes off first.
fn push_arguments(loaded: &Loaded, node: NodeNo, stack: &mut Vec<NodeNo>) -> Result<(), AllocError>
    requires node { node.0 < length (skeleton_of loaded.now).nodes }
    requires stack { AreThere (length (skeleton_of loaded.now).nodes) stack.old.items }
    ensures there { OnOk result (AreThere (length (skeleton_of loaded.now).nodes) stack.new.items) }
    ensures terms { OnOk result (terms_on (skeleton_of loaded.now).nodes stack.new.items
        ≡ arguments_of (node_term (skeleton_of loaded.now).nodes node.0)
        ++ terms_on (skeleton_of loaded.now).nodes stack.old.items) }
{
    let mut place = count(loaded.kind(node));
    while place > 0 {
        place -= 1;
        stack.push(loaded.argument(node, place))?;
    }
    Ok(())
}

/// How many arguments a node has, by what it is.
pub(crate) fn count(kind: NodeKind) -> u8
    ensures { result ≡ count_of kind }
{
    match kind {
        NodeKind::Variable(_) => 0,
        NodeKind::Number(_) => 0,
        NodeKind::Compound { name: _, count } => count,
    }
}
