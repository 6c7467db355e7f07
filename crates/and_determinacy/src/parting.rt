//! Structures of a call that are seen not to be one.
//!
//! Two terms that begin differently, or of which two arguments do, can't be made one, whatever else becomes of their
//! variables. Nothing is set. Numbers that are held in pairs of cells are not looked at.

ghost use Rattle.std.specs.Prelude.{◌≡◌, ◌≢◌, ◌<◌, ◌^◌, ℕ, IfSome, true, false, length};
ghost use Rattle.and_model.specs.Terms.{Substitution, Term, apply};
ghost use Rattle.and_model.specs.declared.reference.Ref.{Ref};
ghost use Rattle.and_program.specs.Loaded.{arguments_at, shape_at, skeleton_of};
ghost use Rattle.and_program.specs.Shown.{shown};
ghost use Rattle.and_program.specs.Skeletons;
ghost use Rattle.and_program.specs.Skeletons.{AllFall, node_term};
ghost use Rattle.and_cells.specs.Parts.{named};
ghost use Rattle.and_cells.specs.Ranges.{NamedProgram, IsInRange};
ghost use Rattle.and_branch_laws.specs.Variables.{placed};
ghost use Rattle.and_determinacy.specs.Parting.{AreApart, IsArgument, IsStructureAt};
ghost use Rattle.and_determinacy.specs.Seeing.{IsPart, ref_term};

use crate::seeing::end_of;
use and_cells::{Naming, PlainCells};
use and_clause_index::count_in;
use and_model::{NodeNo, Ref};
use and_program::Loaded;

/// An argument of a structure, where it is found.
#[inline(always)]
fn part_of(loaded: &Loaded, node: NodeNo, base: u32, place: u8) -> Ref
    requires there { node.0 < length (skeleton_of loaded.now).nodes }
    requires base { base < 2 ^ 23 }
    requires place { place < length (arguments_at (skeleton_of loaded.now) node.0) }
    ensures part { (P : NamedProgram) (words : ℕ) → P ≡ named loaded.now → AllFall 0 P.skeleton.nodes
        → IsInRange P words (Ref.Node node base) → IsPart P words result }
    ensures argument { (P : NamedProgram) → P ≡ named loaded.now → AllFall 0 P.skeleton.nodes
        → IsArgument (ref_term P result) (placed base (node_term P.skeleton.nodes node.0)) place }
{
    loaded.resolve(loaded.argument(node, place), base)
}

/// Whether a part of the call begins differently than a node that is no variable.
#[inline(always)]
fn begins_apart<N: Naming>(loaded: &Loaded, cells: &PlainCells<N>, part: Ref, node: NodeNo) -> bool
    requires program { N.program ≡ named loaded.now }
    requires falls { AllFall 0 N.program.skeleton.nodes }
    requires part { IsPart N.program (length cells.now) part }
    requires there { node.0 < length (skeleton_of loaded.now).nodes }
    requires solid { (k : ℕ) → shape_at N.program.skeleton node.0 ≢ Skeletons.variable k }
    ensures { result ≡ true → (a : Substitution) → AreApart N.program cells.now (ref_term N.program part)
        (apply a (node_term N.program.skeleton.nodes node.0)) }
{
    match structure_at(cells, part) {
        None => false,
        Some(found) => kinds_differ(loaded, found.0, node),
    }
}

/// Whether two structures of the call begin differently, or two of their arguments.
pub(crate) fn structures_are_apart<N: Naming>(
    loaded: &Loaded,
    cells: &PlainCells<N>,
    node: NodeNo,
    base: u32,
    other: NodeNo,
    place_of_other: u32,
) -> bool
    requires program { N.program ≡ named loaded.now }
    requires falls { AllFall 0 N.program.skeleton.nodes }
    requires in_range { IsInRange N.program (length cells.now) (Ref.Node node base) }
    requires other { IsInRange N.program (length cells.now) (Ref.Node other place_of_other) }
    ensures { result ≡ true → AreApart N.program cells.now (placed base (node_term N.program.skeleton.nodes node.0))
        (placed place_of_other (node_term N.program.skeleton.nodes other.0)) }
{
    if kinds_differ(loaded, node, other) {
        return true;
    }
    for place in 0..count_in(loaded.kind(node)) {
        let part = part_of(loaded, node, base, place);
        if is_apart_from_part(loaded, cells, part, other, place_of_other, place) {
            return true;
        }
    }
    false
}

/// Whether a part of the call begins differently than the argument of a structure of the call at that place.
#[inline(always)]
fn is_apart_from_part<N: Naming>(
    loaded: &Loaded,
    cells: &PlainCells<N>,
    part: Ref,
    node: NodeNo,
    base: u32,
    place: u8,
) -> bool
    requires program { N.program ≡ named loaded.now }
    requires falls { AllFall 0 N.program.skeleton.nodes }
    requires part { IsPart N.program (length cells.now) part }
    requires in_range { IsInRange N.program (length cells.now) (Ref.Node node base) }
    requires place { place < length (arguments_at (skeleton_of loaded.now) node.0) }
    ensures { result ≡ true → (t : Term) → IsArgument t (placed base (node_term N.program.skeleton.nodes node.0)) place
        → AreApart N.program cells.now (ref_term N.program part) t }
{
    match structure_at(cells, part) {
        None => false,
        Some(found) => begins_apart(loaded, cells, part_of(loaded, node, base, place), found.0),
    }
}

/// Whether two nodes are of different kind.
#[inline(always)]
fn kinds_differ(loaded: &Loaded, node: NodeNo, other: NodeNo) -> bool
    requires node { node.0 < length (skeleton_of loaded.now).nodes }
    requires other { other.0 < length (skeleton_of loaded.now).nodes }
    ensures differ { result ≡ true
        → shown (shape_at (skeleton_of loaded.now) node.0) ≢ shown (shape_at (skeleton_of loaded.now) other.0) }
    ensures alike { result ≡ false
        → shown (shape_at (skeleton_of loaded.now) node.0) ≡ shown (shape_at (skeleton_of loaded.now) other.0) }
{
    let kind = loaded.kind(node);
    let wanted = loaded.kind(other);
    kind != wanted
}

/// The structure to which a part of the call leads, if it leads to one.
#[inline(always)]
fn structure_at<N: Naming>(cells: &PlainCells<N>, part: Ref) -> Option<(NodeNo, u32)>
    requires part { IsPart N.program (length cells.now) part }
    ensures { IfSome result (λ at. IsStructureAt N.program cells.now part at.0 at.1) }
{
    match end_of(cells, part) {
        Ref::Node { node, base } => Some((node, base)),
        Ref::Cell(_) => None,
        Ref::Number(_) => None,
        Ref::Free => None,
        Ref::Half(_) => None,
    }
}
