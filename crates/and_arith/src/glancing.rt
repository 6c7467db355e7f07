//! Expressions whose values a look tells, without a list of what is to be done.

ghost use Rattle.std.specs.Prelude.{◌≡◌, ◌<◌, ℕ, List, length, IfSome};
ghost use Rattle.and_model.specs.declared.numbers.NodeNo.{NodeNo};
ghost use Rattle.and_model.specs.declared.reference.Ref.{Ref};
ghost use Rattle.and_program.specs.Loaded.{skeleton_of};
ghost use Rattle.and_program.specs.Skeletons.{AllFall};
ghost use Rattle.and_cells.specs.Ranges.{IsInRange, IsInRangeOrHalf};
ghost use Rattle.and_cells.specs.Rows.{plain};
ghost use Rattle.and_cells.specs.Seen.{IsWrittenIfNumber, LeadsTo};
ghost use Rattle.and_cells.specs.Parts.{named};
ghost use Rattle.and_arith.specs.Glances.{IsTold, IsGivenBy, IsOfTwo};

use crate::values::Valued;
use crate::walk::of_two;
use and_cells::{Naming, PlainCells};
use and_model::{NameNo, NodeNo, Ref};
use and_program::{Loaded, NodeKind};

/// An operation on two parts, and where these are found.
#[derive(Clone, Copy)]
struct Operation {
    name: NameNo,
    one: Ref,
    other: Ref,
}

/// What a look at so many levels of an expression tells: its value, or the cell for which it waits, or
/// nothing, which is `PutOff`. A cell that is set to a structure tells nothing, so that no part is looked at
/// twice. Takes no memory.
pub(crate) fn glance<N: Naming>(
    loaded: &Loaded,
    cells: &PlainCells<N>,
    expression: Ref,
    levels: u32,
) -> Valued
    requires program { N.program ≡ named loaded.now }
    requires falls { AllFall 0 N.program.skeleton.nodes }
    requires in_range { IsInRange N.program (length cells.now) expression }
    requires written { IsWrittenIfNumber (plain cells.now) expression }
    ensures { IsTold N.program cells.now expression result }
{
    let Some(operation) = operation_at(loaded, cells, expression) else {
        return glance_at_leaf(loaded, cells, expression);
    };
    if levels == 0 {
        return Valued::PutOff;
    }
    let left = glance(loaded, cells, operation.one, levels - 1);
    let Valued::Number(first) = left else {
        return left;
    };
    let right = glance(loaded, cells, operation.other, levels - 1);
    let Valued::Number(second) = right else {
        return right;
    };
    told_by_two(operation.name, first, second)
}

/// What a look at a leaf of an expression tells: a number, or a cell that leads to one or is free. Of a structure
/// it tells nothing, which is `PutOff`. Takes no memory.
#[inline(always)]
pub(crate) fn glance_at_leaf<N: Naming>(loaded: &Loaded, cells: &PlainCells<N>, leaf: Ref) -> Valued
    requires program { N.program ≡ named loaded.now }
    requires in_range { IsInRange N.program (length cells.now) leaf }
    requires written { IsWrittenIfNumber (plain cells.now) leaf }
    ensures { IsTold N.program cells.now leaf result }
{
    told_at(loaded, cells, end_of(cells, leaf))
}

/// What a look at an operation on two leaves tells, as most operations are, or at a leaf. Takes no memory.
#[inline(always)]
pub(crate) fn glance_at_operation<N: Naming>(
    loaded: &Loaded,
    cells: &PlainCells<N>,
    expression: Ref,
) -> Valued
    requires program { N.program ≡ named loaded.now }
    requires falls { AllFall 0 N.program.skeleton.nodes }
    requires in_range { IsInRange N.program (length cells.now) expression }
    requires written { IsWrittenIfNumber (plain cells.now) expression }
    ensures { IsTold N.program cells.now expression result }
{
    let Some(operation) = operation_at(loaded, cells, expression) else {
        return glance_at_leaf(loaded, cells, expression);
    };
    let left = glance_at_leaf(loaded, cells, operation.one);
    let Valued::Number(one) = left else {
        return left;
    };
    let right = glance_at_leaf(loaded, cells, operation.other);
    let Valued::Number(other) = right else {
        return right;
    };
    told_by_two(operation.name, one, other)
}

/// The name of an expression and its two parts, if it is a structure with two.
fn operation_at<N: Naming>(
    loaded: &Loaded,
    cells: &PlainCells<N>,
    expression: Ref,
) -> Option<Operation>
    requires program { N.program ≡ named loaded.now }
    requires in_range { IsInRange N.program (length cells.now) expression }
    ensures { IfSome result (λ made. (node : NodeNo) × (base : ℕ) × (expression ≡ Ref.Node node base)
        × IsOfTwo N.program node base made.name.0 made.one made.other) }
{
    let Ref::Node { node, base } = expression else {
        return None;
    };
    let NodeKind::Compound { name, count } = loaded.kind(node) else {
        return None;
    };
    if count != 2 {
        return None;
    }
    let first = loaded.argument(node, 0);
    let second = loaded.argument(node, 1);
    let one = loaded.resolve(first, base);
    let other = loaded.resolve(second, base);
    Some(Operation { name, one, other })
}

/// What an operation on two numbers tells.
fn told_by_two(name: NameNo, left: i64, right: i64) -> Valued
    ensures { IsGivenBy name.0 left right result }
{
    match of_two(name, Some(left), Some(right)) {
        Some(number) => Valued::Number(number),
        None => Valued::PutOff,
    }
}

/// What the end of a chain of cells tells.
#[inline(always)]
fn told_at<N: Naming>(loaded: &Loaded, cells: &PlainCells<N>, end: Ref) -> Valued
    requires program { N.program ≡ named loaded.now }
    requires in_range { IsInRangeOrHalf N.program (length cells.now) end }
    requires written { IsWrittenIfNumber (plain cells.now) end }
    ensures { IsTold N.program cells.now end result }
{
    match end {
        Ref::Cell(cell) => told_by_cell(cells, cell),
        Ref::Number(pair) => Valued::Number(cells.held_number(pair)),
        Ref::Node { node, .. } => told_by_literal(loaded, node),
        Ref::Free => Valued::PutOff,
        Ref::Half(_) => Valued::PutOff,
    }
}

/// What a cell tells that is no link of a chain.
fn told_by_cell<N: Naming>(cells: &PlainCells<N>, cell: u32) -> Valued
    requires { cell < length cells.now }
    ensures { IsTold N.program cells.now (Ref.Cell cell) result }
{
    match cells.word(cell) {
        Ref::Free => Valued::Waits { cell },
        Ref::Cell(_) => Valued::PutOff,
        Ref::Node { .. } => Valued::PutOff,
        Ref::Number(_) => Valued::PutOff,
        Ref::Half(_) => Valued::PutOff,
    }
}

/// What a node tells, if it is a number.
fn told_by_literal(loaded: &Loaded, node: NodeNo) -> Valued
    requires { node.0 < length (skeleton_of loaded.now).nodes }
    ensures { (row : List Ref) (base : ℕ) → IsTold (named loaded.now) row (Ref.Node node base) result }
{
    match loaded.kind(node) {
        NodeKind::Number(number) => Valued::Number(number),
        NodeKind::Compound { .. } => Valued::PutOff,
        NodeKind::Variable(_) => Valued::PutOff,
    }
}

/// What a reference leads to: a node, a number, a free cell, or a word of a pair.
#[inline(always)]
fn end_of<N: Naming>(cells: &PlainCells<N>, from: Ref) -> Ref
    requires in_range { IsInRange N.program (length cells.now) from }
    requires written { IsWrittenIfNumber (plain cells.now) from }
    ensures leads { LeadsTo (plain cells.now) from result }
    ensures in_range { IsInRangeOrHalf N.program (length cells.now) result }
    ensures written { IsWrittenIfNumber (plain cells.now) result }
{
    let mut at = from;
    while let Ref::Cell(cell) = at {
        match cells.word(cell) {
            Ref::Free => break,
            set => at = set,
        }
    }
    at
}
