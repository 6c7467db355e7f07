//! Structures and their arguments.

ghost use Rattle.std.specs.Prelude.{◌≡◌, ◌<◌, ◌≤◌, ◌+◌, ◌^◌, ◌++◌, ℕ, length, slice_get, Some, OnOk};
ghost use Rattle.and_model.specs.declared.numbers.NodeNo.{NodeNo};
ghost use Rattle.and_model.specs.declared.reference.Ref.{Ref};
ghost use Rattle.and_program.specs.Loaded.{skeleton_of, arguments_at};
ghost use Rattle.and_cells.specs.Parts.{named, parts_of};
ghost use Rattle.and_unify.specs.Meeting.{AreOfOneShape};
ghost use Rattle.and_unify.specs.Turns.{pairs_of};

use crate::pairs::{Pair, PairList};
use and_model::{NodeNo, Ref};
use and_program::{Loaded, NodeKind};
use std::alloc::AllocError;

/// A structure: its node, and where its frame begins.
#[derive(Clone, Copy, PartialEq, Eq, Debug)]
pub struct Structure {
    pub node: NodeNo,
    pub base: u32,
}

/// Puts the pairs of the arguments of two structures of one shape on the list. An error is want of
/// memory.
pub fn push_arguments(
    loaded: &Loaded,
    left: Ref,
    right: Ref,
    list: &mut PairList,
) -> Result<(), AllocError>
    requires { (words : ℕ) × AreOfOneShape (named loaded.now) words left right }
    ensures ok { OnOk result (list.new ≡ list.old
        ++ pairs_of (parts_of (named loaded.now) left) (parts_of (named loaded.now) right)) }
    ensures few { length list.new ≤ length list.old + 255 }
{
    let left = as_structure(left);
    let right = as_structure(right);
    for place in 0..argument_count(loaded, left.node) {
        list.push(
            argument_at(loaded, left, place),
            argument_at(loaded, right, place),
        )?;
    }
    Ok(())
}

/// The pair of the arguments of two structures at a place.
pub(crate) fn argument_pair(loaded: &Loaded, left: Structure, right: Structure, place: u8) -> Pair
    requires left { left.node.0 < length (skeleton_of loaded.now).nodes }
    requires right { right.node.0 < length (skeleton_of loaded.now).nodes }
    requires bases { left.base < 2 ^ 23 × right.base < 2 ^ 23 }
    requires left_place { place < length (arguments_at (skeleton_of loaded.now) left.node.0) }
    requires right_place { place < length (arguments_at (skeleton_of loaded.now) right.node.0) }
    ensures left { slice_get (parts_of (named loaded.now) (Ref.Node left.node left.base)) place ≡ Some result.left }
    ensures right { slice_get (parts_of (named loaded.now) (Ref.Node right.node right.base)) place ≡ Some result.right }
{
    Pair {
        left: argument_at(loaded, left, place),
        right: argument_at(loaded, right, place),
    }
}

/// The structure that a reference names.
pub fn as_structure(reference: Ref) -> Structure
    requires { (node : NodeNo) × (base : ℕ) × (reference ≡ Ref.Node node base) }
    ensures { reference ≡ Ref.Node result.node result.base }
{
    match reference {
        Ref::Node { node, base } => Structure { node, base },
        Ref::Free => unreachable!(),
        Ref::Cell(_) => unreachable!(),
        Ref::Number(_) => unreachable!(),
        Ref::Half(_) => unreachable!(),
    }
}

/// How many arguments a node has.
pub fn argument_count(loaded: &Loaded, node: NodeNo) -> u8
    requires { node.0 < length (skeleton_of loaded.now).nodes }
    ensures { result ≡ length (arguments_at (skeleton_of loaded.now) node.0) }
{
    match loaded.kind(node) {
        NodeKind::Variable(_) => 0,
        NodeKind::Number(_) => 0,
        NodeKind::Compound { name: _, count } => count,
    }
}

/// Where an argument of a structure is found.
#[inline(always)]
pub fn argument_at(loaded: &Loaded, whole: Structure, place: u8) -> Ref
    requires there { whole.node.0 < length (skeleton_of loaded.now).nodes }
    requires base { whole.base < 2 ^ 23 }
    requires place { place < length (arguments_at (skeleton_of loaded.now) whole.node.0) }
    ensures { slice_get (parts_of (named loaded.now) (Ref.Node whole.node whole.base)) place ≡ Some result }
{
    loaded.resolve(loaded.argument(whole.node, place), whole.base)
}
