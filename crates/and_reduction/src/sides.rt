//! The sides of goals of arithmetic.

ghost use Rattle.std.specs.Prelude.{◌≡◌};
ghost use Rattle.and_program.specs.Items.{relation};
ghost use Rattle.and_reduction.specs.Sides.{compared_with};

use crate::running::Ran;
use and_arith::compare;
use and_guards::Side;
use and_model::Relation;

/// What a comparison of these sides comes to.
pub(crate) fn compare_sides(by: Relation, left: Side, right: Side) -> Ran
    ensures { result ≡ compared_with (relation by) left right }
{
    match left {
        Side::Waits { cell } => Ran::Waits { cell },
        Side::NoValue => match right {
            Side::Waits { cell } => Ran::Waits { cell },
            Side::NoValue => Ran::False,
            Side::Number(_) => Ran::False,
        },
        Side::Number(a) => match right {
            Side::Waits { cell } => Ran::Waits { cell },
            Side::NoValue => Ran::False,
            Side::Number(b) => compare_numbers(by, a, b),
        },
    }
}

/// What a comparison of these numbers comes to.
pub(crate) fn compare_numbers(by: Relation, a: i64, b: i64) -> Ran
    ensures { result ≡ compared_with (relation by) (Side.Number a) (Side.Number b) }
{
    if compare(by, a, b) {
        Ran::Done
    } else {
        Ran::False
    }
}
