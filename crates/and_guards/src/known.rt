//! Numbers that a look tells: those of the commonest expressions, for which nothing is written to memory.

ghost use Rattle.std.specs.Prelude.{◌≡◌, ◌<◌, ℕ, suc, List, length, IfSome};
ghost use Rattle.and_model.specs.declared.numbers.NodeNo.{NodeNo};
ghost use Rattle.and_model.specs.declared.reference.Ref.{Ref};
ghost use Rattle.and_program.specs.Loaded.{skeleton_of};
ghost use Rattle.and_program.specs.Skeletons.{AllFall};
ghost use Rattle.and_cells.specs.Numbers.{number_of};
ghost use Rattle.and_cells.specs.Parts.{named};
ghost use Rattle.and_cells.specs.Ranges.{IsInRange, IsPairInRange};
ghost use Rattle.and_cells.specs.Rows.{IsSound, plain};
ghost use Rattle.and_cells.specs.Seen.{IsWrittenIfNumber, word_at};
ghost use Rattle.and_arith.specs.Glances.{IsNumber};

use and_arith::{apply, operator_of};
use and_cells::{Naming, PlainCells, joined};
use and_model::{NodeNo, Ref};
use and_program::{Loaded, NodeKind};

/// The number of an expression that is one, or a cell that leads to one, or an operation on two such. `None` says
/// nothing. Takes no memory.
#[inline(always)]
pub(crate) fn known_number<N: Naming>(
    loaded: &Loaded,
    cells: &PlainCells<N>,
    expression: Ref,
) -> Option<i64>
    requires program { N.program ≡ named loaded.now }
    requires falls { AllFall 0 N.program.skeleton.nodes }
    requires in_range { IsInRange N.program (length cells.now) expression }
    requires written { IsWrittenIfNumber (plain cells.now) expression }
    ensures { IfSome result (IsNumber N.program (plain cells.now) expression) }
{
    match expression {
        Ref::Cell(cell) => number_in_cell(loaded, cells, cell),
        Ref::Node { node, base } => number_of_node(loaded, cells, node, base),
        Ref::Number(_) => None,
        Ref::Free => None,
        Ref::Half(_) => None,
    }
}

/// The number of a node.
#[inline(always)]
fn number_of_node<N: Naming>(
    loaded: &Loaded,
    cells: &PlainCells<N>,
    node: NodeNo,
    base: u32,
) -> Option<i64>
    requires program { N.program ≡ named loaded.now }
    requires falls { AllFall 0 N.program.skeleton.nodes }
    requires in_range { IsInRange N.program (length cells.now) (Ref.Node node base) }
    ensures { IfSome result (IsNumber N.program (plain cells.now) (Ref.Node node base)) }
{
    match loaded.kind(node) {
        NodeKind::Number(number) => Some(number),
        NodeKind::Compound { .. } => number_of_operation(loaded, cells, node, base),
        NodeKind::Variable(_) => None,
    }
}

/// The number of an operation on two parts, each of which is a number or a cell that leads to one.
#[inline(never)]
fn number_of_operation<N: Naming>(
    loaded: &Loaded,
    cells: &PlainCells<N>,
    node: NodeNo,
    base: u32,
) -> Option<i64>
    requires program { N.program ≡ named loaded.now }
    requires falls { AllFall 0 N.program.skeleton.nodes }
    requires in_range { IsInRange N.program (length cells.now) (Ref.Node node base) }
    ensures { IfSome result (IsNumber N.program (plain cells.now) (Ref.Node node base)) }
{
    let NodeKind::Compound { name, count } = loaded.kind(node) else {
        return None;
    };
    if count != 2 {
        return None;
    }
    let first = loaded.argument(node, 0);
    let second = loaded.argument(node, 1);
    let one = number_of_part(loaded, cells, loaded.resolve(first, base))?;
    let other = number_of_part(loaded, cells, loaded.resolve(second, base))?;
    apply(operator_of(name.0, 2)?, one, other)
}

/// The number of a part that is one, or a cell that leads to one.
#[inline(always)]
fn number_of_part<N: Naming>(loaded: &Loaded, cells: &PlainCells<N>, part: Ref) -> Option<i64>
    requires program { N.program ≡ named loaded.now }
    requires in_range { IsInRange N.program (length cells.now) part }
    requires written { IsWrittenIfNumber (plain cells.now) part }
    ensures { IfSome result (IsNumber N.program (plain cells.now) part) }
{
    match part {
        Ref::Cell(cell) => number_in_cell(loaded, cells, cell),
        Ref::Node { node, .. } => literal(loaded, node),
        Ref::Number(_) => None,
        Ref::Free => None,
        Ref::Half(_) => None,
    }
}

/// The number to which a cell leads.
#[inline(always)]
fn number_in_cell<N: Naming>(loaded: &Loaded, cells: &PlainCells<N>, from: u32) -> Option<i64>
    requires program { N.program ≡ named loaded.now }
    requires in_range { from < length cells.now }
    ensures { IfSome result (IsNumber N.program (plain cells.now) (Ref.Cell from)) }
{
    let mut cell = from;
    loop {
        match cells.word(cell) {
            Ref::Cell(next) => cell = next,
            Ref::Number(pair) => return Some(number_of_pair(cells, pair)),
            Ref::Node { node, .. } => return literal(loaded, node),
            Ref::Free => return None,
            Ref::Half(_) => return None,
        }
    }
}

/// The number that a pair of words holds. Both are halves, though no contract says so.
#[inline(always)]
fn number_of_pair<N: Naming>(cells: &PlainCells<N>, pair: u32) -> i64
    requires { IsPairInRange (length cells.now) pair }
    ensures value { result ≡ number_of (word_at cells.now pair) (word_at cells.now (suc pair)) }
    ensures sound { IsSound N.program cells.now }
{
    let Ref::Half(high) = cells.word(pair) else {
        return cells.held_number(pair);
    };
    let Ref::Half(low) = cells.word(pair + 1) else {
        return cells.held_number(pair);
    };
    joined(Ref::Half(high), Ref::Half(low))
}

/// The number that a node is.
#[inline(always)]
fn literal(loaded: &Loaded, node: NodeNo) -> Option<i64>
    requires { node.0 < length (skeleton_of loaded.now).nodes }
    ensures { (row : List Ref) (base : ℕ) → IfSome result (IsNumber (named loaded.now) (plain row) (Ref.Node node base)) }
{
    match loaded.kind(node) {
        NodeKind::Number(number) => Some(number),
        NodeKind::Compound { .. } => None,
        NodeKind::Variable(_) => None,
    }
}
