//! Parts of a call that meet parts of a head, and where references lead.

ghost use Rattle.std.specs.Prelude.{◌≡◌, ◌≢◌, ◌<◌, ℕ, length, Some, None, IfSome, true, false};
ghost use Rattle.and_model.specs.Store.{is_half};
ghost use Rattle.and_model.specs.declared.reference.Ref.{Ref};
ghost use Rattle.and_program.specs.Loaded.{skeleton_of};
ghost use Rattle.and_cells.specs.Ranges.{IsInRange, IsInRangeOrHalf};
ghost use Rattle.and_cells.specs.Rows.{plain};
ghost use Rattle.and_cells.specs.Seen.{Seen, word_at, IsWrittenIfNumber, LeadsTo};
ghost use Rattle.and_cells.specs.Parts.{named};
ghost use Rattle.and_unify.specs.Heads.{HasHead};
ghost use Rattle.and_heads.specs.Parts.{arguments_in};

use and_cells::{Naming, PlainCells};
use and_model::{NodeNo, Ref};
use and_program::{Loaded, NodeKind};
use and_unify::heads::Head;
use and_unify::structures::Structure;

/// Two structures of one name and number of arguments, which are to be made the same.
#[derive(Clone, Copy, PartialEq, Eq, Debug)]
pub(crate) struct Part {
    pub(crate) left: Structure,
    pub(crate) right: Structure,
}

/// What a reference leads to: a node, a number, a free cell, or a word of a pair.
pub(crate) fn end_of<N: Naming>(cells: &PlainCells<N>, from: Ref) -> Ref
    requires in_range { IsInRange N.program (length cells.now) from }
    requires written { IsWrittenIfNumber (plain cells.now) from }
    ensures leads { LeadsTo (plain cells.now) from result }
    ensures in_range { IsInRangeOrHalf N.program (length cells.now) result }
    ensures written { IsWrittenIfNumber (plain cells.now) result }
    ensures free { (cell : ℕ) → result ≡ Ref.Cell cell → word_at cells.now cell ≡ Ref.Free }
{
    let mut at = from;
    while let Ref::Cell(cell) = at {
        match cells.word(cell) {
            Ref::Free => break,
            set => at = set,
        }
    }
    at
}

/// Whether a cell is free.
#[inline(always)]
pub(crate) fn is_free<N: Naming>(cells: &PlainCells<N>, cell: u32) -> bool
    requires { cell < length cells.now }
    ensures { result ≡ true → word_at cells.now cell ≡ Ref.Free }
{
    cells.is_free(cell)
}

/// What a reference begins with, if it is a node or a number.
#[inline(always)]
pub(crate) fn head_at<N: Naming>(loaded: &Loaded, cells: &PlainCells<N>, at: Ref) -> Option<Head>
    requires program { N.program ≡ named loaded.now }
    requires in_range { IsInRangeOrHalf N.program (length cells.now) at }
    requires written { IsWrittenIfNumber (plain cells.now) at }
    ensures head { IfSome result (HasHead N.program (plain cells.now) at) }
    ensures whole { IfSome result (λ head. is_half at ≡ false) }
{
    match at {
        Ref::Node { node, .. } => head_of(loaded, node),
        Ref::Number(pair) => Some(Head::Number(cells.held_number(pair))),
        Ref::Cell(_) => None,
        Ref::Free => None,
        Ref::Half(_) => None,
    }
}

/// What the term of a node begins with, if the node is no variable.
#[inline(always)]
fn head_of(loaded: &Loaded, node: NodeNo) -> Option<Head>
    requires { node.0 < length (skeleton_of loaded.now).nodes }
    ensures { IfSome result (λ head. (s : Seen) (base : ℕ)
        → HasHead (named loaded.now) s (Ref.Node node base) head) }
{
    match loaded.kind(node) {
        NodeKind::Number(value) => Some(Head::Number(value)),
        NodeKind::Compound { name, count } => Some(Head::Name { name, count }),
        NodeKind::Variable(_) => None,
    }
}

/// How many arguments two terms have that begin alike; nothing where they begin with different names or numbers.
pub(crate) fn arguments_of_both(one: Head, other: Head) -> Option<u8>
    ensures same { (count : ℕ) → result ≡ Some count → (one ≡ other) × (arguments_in one ≡ count) }
    ensures differ { result ≡ None → one ≢ other }
{
    match one {
        Head::Number(value) => match other {
            Head::Number(number) if number == value => Some(0),
            Head::Number(_) => None,
            Head::Name { .. } => None,
        },
        Head::Name { name, count } => match other {
            Head::Name {
                name: called,
                count: many,
            } if called.0 == name.0 && many == count => Some(count),
            Head::Name { .. } => None,
            Head::Number(_) => None,
        },
    }
}
