//! Structures of a program in frames of 256 words, which have room for the variables of any clause.

ghost use Rattle.std.specs.Prelude.{◌≡◌, ◌<◌, length, IfOk};
ghost use Rattle.and_program.specs.Loaded.{skeleton_of};
ghost use Rattle.and_cells.specs.Parts.{named};
ghost use Rattle.and_cells.specs.Ranges.{IsInRange};
ghost use Rattle.and_cells.specs.Rows.{plain};
ghost use Rattle.and_cells.specs.Seen.{IsWrittenIfNumber};
ghost use Rattle.and_model.specs.declared.reference.Ref.{Ref};

use and_cells::{Bound, Cells, Naming, PlainCells};
use and_model::{ClauseNo, NodeNo, Ref};
use and_program::{ItemNode, Loaded, NodeKind};
use and_rows::Untold;

/// The right side of an equation of the query.
pub(crate) fn right_side(loaded: &Loaded, place: u32) -> Result<NodeNo, Untold>
    ensures { IfOk result (λ node. node.0 < length (skeleton_of loaded.now).nodes) }
{
    let items = loaded.items(ClauseNo(0));
    let place = place as usize;
    if place >= items.len() {
        return Err(Untold::Malformed);
    }
    match items[place] {
        ItemNode::Equal { right, .. } => Ok(right),
        ItemNode::Call { .. } => Err(Untold::Malformed),
        ItemNode::Is { .. } => Err(Untold::Malformed),
        ItemNode::Compare { .. } => Err(Untold::Malformed),
        ItemNode::Fail => Err(Untold::Malformed),
    }
}

/// A structure in the frame at that base.
pub(crate) fn structure<N: Naming>(
    loaded: &Loaded,
    cells: &PlainCells<N>,
    node: NodeNo,
    base: u32,
) -> Result<Ref, Untold>
    requires program { N.program ≡ named loaded.now }
    requires node { node.0 < length (skeleton_of loaded.now).nodes }
    ensures node { IfOk result (λ r. r ≡ Ref.Node node base) }
    ensures in_range { IfOk result (λ r. IsInRange N.program (length cells.now) r) }
    ensures written { IfOk result (λ r. IsWrittenIfNumber (plain cells.now) r) }
{
    if base >= 1000 || cells.len() < base + 256 {
        return Err(Untold::Malformed);
    }
    loaded.skeleton_is_of_the_program();
    match loaded.kind(node) {
        NodeKind::Compound { .. } => Ok(Ref::Node { node, base }),
        NodeKind::Variable(_) => Err(Untold::Malformed),
        NodeKind::Number(_) => Err(Untold::Malformed),
    }
}

/// Sets a cell to the right side of an equation, in the frame at that base.
pub(crate) fn set<N: Naming>(
    loaded: &Loaded,
    cells: &mut PlainCells<N>,
    cell: u32,
    place: u32,
    base: u32,
) -> Result<Bound, Untold>
    requires { N.program ≡ named loaded.now }
{
    let node = right_side(loaded, place)?;
    if cell >= cells.len() {
        return Err(Untold::Malformed);
    }
    let structure = structure(loaded, &*cells, node, base)?;
    Ok(cells.bind(cell, structure))
}
