//! What terms that are no variables begin with.

ghost use Rattle.std.specs.Prelude.{◌≡◌, ◌<◌, ℕ, length};
ghost use Rattle.and_model.specs.declared.reference.Ref.{Ref};
ghost use Rattle.and_program.specs.Loaded.{skeleton_of};
ghost use Rattle.and_cells.specs.Ranges.{IsInRange, IsNoVariable};
ghost use Rattle.and_cells.specs.Seen.{Seen, OnlyReads, IsWrittenIfNumber};
ghost use Rattle.and_cells.specs.Parts.{named};
ghost use Rattle.and_unify.specs.Heads.{IsEnd, HasHead};

use and_cells::Cells;
use and_model::{NameNo, NodeNo, Ref};
use and_program::{Loaded, NodeKind};

/// What a term that is no variable begins with.
#[derive(Clone, Copy, PartialEq, Eq, Debug)]
pub enum Head {
    Number(i64),
    /// A name with that many arguments.
    Name { name: NameNo, count: u8 },
}

/// What the term of a node or of a pair of words begins with. Takes no memory.
pub fn head_of<C: Cells>(loaded: &Loaded, cells: &mut C, reference: Ref) -> Head
    requires program { C.program ≡ named loaded.now }
    requires end { IsEnd reference }
    requires in_range { IsInRange C.program (C.seen cells.old).words reference }
    requires written { IsWrittenIfNumber (C.seen cells.old) reference }
    ensures over { C.over cells.new ≡ C.over cells.old }
    ensures grew { C.Grew cells.old cells.new }
    ensures reads { OnlyReads (C.seen cells.old) (C.seen cells.new) }
    ensures head { HasHead C.program (C.seen cells.new) reference result }
{
    match reference {
        Ref::Node { node, .. } => node_head(loaded, node),
        Ref::Number(pair) => Head::Number(cells.number(pair)),
        Ref::Free => unreachable!(),
        Ref::Cell(_) => unreachable!(),
        Ref::Half(_) => unreachable!(),
    }
}

/// What the term of a node begins with.
pub fn node_head(loaded: &Loaded, node: NodeNo) -> Head
    requires there { node.0 < length (skeleton_of loaded.now).nodes }
    requires no_variable { IsNoVariable (named loaded.now) node.0 }
    ensures head { (s : Seen) (base : ℕ) → HasHead (named loaded.now) s (Ref.Node node base) result }
{
    match loaded.kind(node) {
        NodeKind::Number(value) => Head::Number(value),
        NodeKind::Compound { name, count } => Head::Name { name, count },
        NodeKind::Variable(_) => unreachable!(),
    }
}
