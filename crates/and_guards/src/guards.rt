//! The guards of clauses, judged in the cells of a frame, and what the sides of a comparison come to.

ghost use Rattle.std.specs.Prelude.{◌≡◌, ◌↔◌, Bool, true, map, length, Ok, IfOk, IfSome};
ghost use Rattle.and_cells.specs.Meaning.{IsSettled};
ghost use Rattle.and_cells.specs.Parts.{named};
ghost use Rattle.and_program.specs.Items.{node_item, relation};
ghost use Rattle.and_program.specs.Skeletons.{node_term};
ghost use Rattle.and_guards.specs.Guards.{CanBeRead, GuardCanBeRead, IsFalseIn, IsGuardFalse};
ghost use Rattle.and_guards.specs.Sides.{IsSide, is_waiting, sides_fail};

use crate::known::known_number;
use and_arith::{Valued, WorkList, compare, value_of};
use and_cells::{Naming, PlainCells};
use and_model::{NodeNo, Relation};
use and_program::{ItemNode, Loaded};
use std::alloc::AllocError;

/// What is known of one side of a comparison, or of the right side of an `is`.
#[derive(Clone, Copy, PartialEq, Eq, Debug)]
pub enum Side {
    /// It is not ground: this cell is its first variable.
    Waits { cell: u32 },
    /// It is ground, and has no value.
    NoValue,
    /// It is ground, and has this value.
    Number(i64),
}

/// Whether some comparison is false of the guard with which these items of a body begin, in the frame
/// at the base. One that waits is not. An error is want of memory.
pub fn is_guard_false<N: Naming>(
    loaded: &Loaded,
    cells: &mut PlainCells<N>,
    base: u32,
    items: &[ItemNode],
    values: &mut WorkList,
) -> Result<bool, AllocError>
    requires program { N.program ≡ named loaded.now }
    requires settled { IsSettled N.program cells.old }
    requires readable { GuardCanBeRead N.program cells.old base (map node_item items.now) }
    ensures judged { (b : Bool) → result ≡ Ok b
        → (b ≡ true) ↔ IsGuardFalse N.program cells.old base (map node_item items.now) }
    ensures unchanged { cells.new ≡ cells.old }
{
    for item in items {
        match item {
            ItemNode::Compare {
                relation,
                left,
                right,
            } => {
                if is_false(loaded, cells, base, *relation, *left, *right, values)? {
                    return Ok(true);
                }
            }
            ItemNode::Call { goal: _ } => return Ok(false),
            ItemNode::Equal { left: _, right: _ } => return Ok(false),
            ItemNode::Is {
                left: _,
                right: _,
                pair: _,
            } => return Ok(false),
            ItemNode::Fail => return Ok(false),
        }
    }
    Ok(false)
}

/// Whether both sides of a comparison are ground, and it does not hold. An error is want of memory.
fn is_false<N: Naming>(
    loaded: &Loaded,
    cells: &mut PlainCells<N>,
    base: u32,
    by: Relation,
    left: NodeNo,
    right: NodeNo,
    values: &mut WorkList,
) -> Result<bool, AllocError>
    requires program { N.program ≡ named loaded.now }
    requires settled { IsSettled N.program cells.old }
    requires left { CanBeRead N.program cells.old base left.0 }
    requires right { CanBeRead N.program cells.old base right.0 }
    ensures judged { (b : Bool) → result ≡ Ok b → (b ≡ true) ↔ IsFalseIn N.program cells.old base (relation by)
        (node_term N.program.skeleton.nodes left.0) (node_term N.program.skeleton.nodes right.0) }
    ensures unchanged { cells.new ≡ cells.old }
{
    if let Some(first) = number_at_once(loaded, cells, base, left) {
        if let Some(second) = number_at_once(loaded, cells, base, right) {
            return Ok(numbers_fail(by, first, second));
        }
    }
    let first = evaluate(loaded, cells, base, left, values)?;
    let second = evaluate(loaded, cells, base, right, values)?;
    Ok(fails(by, first, second))
}

/// What is known of a side, whose node is given, in the frame at the base. The cells are as before. An
/// error is want of memory.
#[inline(never)]
pub fn evaluate<N: Naming>(
    loaded: &Loaded,
    cells: &mut PlainCells<N>,
    base: u32,
    node: NodeNo,
    values: &mut WorkList,
) -> Result<Side, AllocError>
    requires program { N.program ≡ named loaded.now }
    requires settled { IsSettled N.program cells.old }
    requires node { CanBeRead N.program cells.old base node.0 }
    ensures side { IfOk result (IsSide N.program cells.old base (node_term N.program.skeleton.nodes node.0)) }
    ensures unchanged { cells.new ≡ cells.old }
{
    loaded.skeleton_is_of_the_program();
    let _words = cells.len();
    match value_of(loaded, cells, loaded.resolve(node, base), values) {
        Valued::Number(number) => Ok(Side::Number(number)),
        Valued::NoValue => Ok(Side::NoValue),
        Valued::Waits { cell } => Ok(Side::Waits { cell }),
        Valued::PutOff => unreachable!(),
        Valued::Memory => Err(AllocError),
    }
}

/// The number that a side comes to in the frame at the base, where a look tells it. `None` says nothing. Takes no
/// memory.
#[inline(always)]
pub fn number_at_once<N: Naming>(
    loaded: &Loaded,
    cells: &PlainCells<N>,
    base: u32,
    node: NodeNo,
) -> Option<i64>
    requires program { N.program ≡ named loaded.now }
    requires settled { IsSettled N.program cells.now }
    requires node { CanBeRead N.program cells.now base node.0 }
    ensures { IfSome result (λ z. IsSide N.program cells.now base (node_term N.program.skeleton.nodes node.0)
        (Side.Number z)) }
{
    loaded.skeleton_is_of_the_program();
    let _words = cells.len();
    known_number(loaded, cells, loaded.resolve(node, base))
}

/// Whether a comparison of these sides is false.
pub fn fails(by: Relation, left: Side, right: Side) -> bool
    ensures { result ≡ sides_fail (relation by) left right }
{
    match left {
        Side::Waits { cell: _ } => false,
        Side::NoValue => !waits(right),
        Side::Number(a) => match right {
            Side::Waits { cell: _ } => false,
            Side::NoValue => true,
            Side::Number(b) => numbers_fail(by, a, b),
        },
    }
}

/// Whether a comparison of these numbers is false.
fn numbers_fail(by: Relation, a: i64, b: i64) -> bool
    ensures { result ≡ sides_fail (relation by) (Side.Number a) (Side.Number b) }
{
    !compare(by, a, b)
}

/// Whether a side is not ground.
fn waits(side: Side) -> bool
    ensures { result ≡ is_waiting side }
{
    match side {
        Side::Waits { cell: _ } => true,
        Side::NoValue => false,
        Side::Number(_) => false,
    }
}
