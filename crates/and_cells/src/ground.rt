//! What is seen to be ground by references that are known to be.

ghost use Rattle.std.specs.Prelude.{◌≡◌, ◌<◌, ◌^◌, ℕ, true, length, All};
ghost use Rattle.and_model.specs.declared.numbers.NodeNo.{NodeNo};
ghost use Rattle.and_model.specs.declared.reference.Ref.{Ref};
ghost use Rattle.and_program.specs.Loaded.{skeleton_of, arguments_at};
ghost use Rattle.and_cells.specs.Parts.{named, parts_of};
ghost use Rattle.and_cells.specs.Ground.{IsEndOrAmong};

use crate::known::Known;
use and_model::{NodeNo, Ref};
use and_program::{Loaded, NodeKind};

/// Whether a reference is a number, a structure without arguments, or known.
pub(crate) fn is_end_or_known(loaded: &Loaded, known: &Known, at: Ref) -> bool
    requires { (node : NodeNo) (base : ℕ) → at ≡ Ref.Node node base → node.0 < length (skeleton_of loaded.now).nodes }
    ensures { result ≡ true → IsEndOrAmong (named loaded.now) known.now at }
{
    match at {
        Ref::Cell(_) => known.has(at),
        Ref::Node { node, .. } => argument_count(loaded, node) == 0 || known.has(at),
        Ref::Number(_) => true,
        Ref::Free => false,
        Ref::Half(_) => false,
    }
}

/// Whether a structure has parts, and so is each of them.
pub(crate) fn parts_are_known(loaded: &Loaded, known: &Known, node: NodeNo, base: u32) -> bool
    requires there { node.0 < length (skeleton_of loaded.now).nodes }
    requires base { base < 2 ^ 23 }
    ensures { result ≡ true
        → All (IsEndOrAmong (named loaded.now) known.now) (parts_of (named loaded.now) (Ref.Node node base)) }
{
    let count = argument_count(loaded, node);
    if count == 0 {
        return false;
    }
    for place in 0..count {
        let argument = loaded.argument(node, place);
        if !is_end_or_known(loaded, known, loaded.resolve(argument, base)) {
            return false;
        }
    }
    true
}

/// How many arguments the term of a node has.
fn argument_count(loaded: &Loaded, node: NodeNo) -> u8
    requires { node.0 < length (skeleton_of loaded.now).nodes }
    ensures { result ≡ length (arguments_at (skeleton_of loaded.now) node.0) }
{
    match loaded.kind(node) {
        NodeKind::Compound { count, .. } => count,
        NodeKind::Variable(_) => 0,
        NodeKind::Number(_) => 0,
    }
}
