//! The variables of terms.

ghost use Rattle.std.specs.Prelude.{◌≡◌, ◌<◌, ◌++◌, IfOk, OnOk, length, map, reverse};
ghost use Rattle.and_model.specs.Terms.{variables_of};
ghost use Rattle.and_program.specs.Loaded.{skeleton_of, arguments_at};
ghost use Rattle.and_program.specs.Skeletons.{node_term};
ghost use Rattle.and_modes.specs.Walked.{unframed, numbers_of};

use and_model::NodeNo;
use and_program::{Loaded, NodeKind};
use std::alloc::{AllocError, Global};

/// The occurrences of variables in the term of a node, from left to right. An error is want of memory.
pub(crate) fn variables(alloc: Global, loaded: &Loaded, node: NodeNo) -> Result<Vec<u8>, AllocError>
    requires { node.0 < length (skeleton_of loaded.now).nodes }
    ensures { IfOk result (λ found. map unframed found.items
        ≡ variables_of (node_term (skeleton_of loaded.now).nodes node.0)) }
{
    let mut found = Vec::new(alloc);
    let mut left = Vec::new(alloc);
    left.push(node)?;
    while let Some(next) = left.pop() {
        match loaded.kind(next) {
            NodeKind::Variable(number) => found.push(number)?,
            NodeKind::Number(_) => {}
            NodeKind::Compound { name: _, count } => {
                push_arguments(loaded, next, count, &mut left)?
            }
        }
    }
    Ok(found)
}

/// Puts the arguments of a node on a stack, so that the first comes off first.
fn push_arguments(
    loaded: &Loaded,
    node: NodeNo,
    count: u8,
    stack: &mut Vec<NodeNo>,
) -> Result<(), AllocError>
    requires there { node.0 < length (skeleton_of loaded.now).nodes }
    requires count { count ≡ length (arguments_at (skeleton_of loaded.now) node.0) }
    ensures { OnOk result (numbers_of stack.new.items
        ≡ numbers_of stack.old.items ++ reverse (arguments_at (skeleton_of loaded.now) node.0)) }
{
    let mut place = count;
    while place > 0 {
        place -= 1;
        stack.push(loaded.argument(node, place))?;
    }
    Ok(())
}
