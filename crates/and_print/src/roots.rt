//! What terms begin with, and where their arguments are found.

ghost use Rattle.std.specs.Prelude.{◌≡◌, length};
ghost use Rattle.and_model.specs.Terms.{Term};
ghost use Rattle.and_cells.specs.Ranges.{IsInRangeOrHalf};
ghost use Rattle.and_cells.specs.Meaning.{StandsFor};
ghost use Rattle.and_print.specs.Roots.{IsEnd, has_cell_name};

use and_cells::{Naming, PlainCells};
use and_model::builtins::POINT;
use and_model::{NameNo, NodeNo, Ref};

/// The arguments of a structure, from a place on.
#[derive(Clone, Copy)]
pub(crate) struct Arguments {
    pub node: NodeNo,
    pub base: u32,
    /// The place of the first of them.
    pub place: u8,
    /// How many arguments the structure has.
    pub count: u8,
}

/// What a term begins with.
#[derive(Clone, Copy)]
pub(crate) enum Root {
    /// The variable of a free cell.
    Variable(u32),
    Number(i64),
    /// A name with arguments.
    Compound { name: NameNo, arguments: Arguments },
}

/// Whether the term may be a list cell: it has the name of one. Takes no memory.
pub(crate) fn may_be_cell(root: Root) -> bool
    ensures { result ≡ has_cell_name root }
{
    match root {
        Root::Variable(_) => false,
        Root::Number(_) => false,
        Root::Compound { name, .. } => name.0 == POINT,
    }
}

/// Where the chain from a reference ends. Takes no memory.
pub(crate) fn end_of<N: Naming>(cells: &PlainCells<N>, from: Ref) -> Ref
    requires { IsInRangeOrHalf N.program (length cells.now) from }
    ensures in_range { IsInRangeOrHalf N.program (length cells.now) result }
    ensures end { IsEnd cells.now result }
    ensures stands { (t : Term) → StandsFor N.program cells.now from t → StandsFor N.program cells.now result t }
{
    let mut at = from;
    while let Ref::Cell(cell) = at {
        match cells.word(cell) {
            Ref::Free => break,
            set => at = set,
        }
    }
    at
}
