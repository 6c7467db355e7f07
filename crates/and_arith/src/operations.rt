//! The operations on two numbers and on one, and the comparisons.

ghost use Rattle.std.specs.Prelude.{◌≡◌, ◌↔◌, ◌-ℤ◌, ◌*ℤ◌, int_div, int_le, ◌&&◌, Some, None, if◌then◌else◌};
ghost use Rattle.and_model.specs.Arithmetic.{floor_quotient, in_range, is_zero, of_one, of_two, related};
ghost use Rattle.and_model.specs.declared.builtins.TheConstants.{MINUS};
ghost use Rattle.and_program.specs.Items.{relation};
ghost use Rattle.and_arith.specs.Operators.{name_of};

use and_model::Relation;
use and_model::builtins::{DIVIDE, GREATEST, LEAST, MINUS, MODULO, PLUS, REMAINDER, TIMES};

/// An operation on two numbers.
#[derive(Clone, Copy, PartialEq, Eq, Debug)]
pub enum Operator {
    /// The sum, `+`.
    Add,
    /// The difference, `-`.
    Subtract,
    /// The product, `*`.
    Times,
    /// The quotient, truncated toward zero, `//`.
    Divide,
    /// The remainder with the sign of the right number, `mod`.
    Modulo,
    /// The remainder with the sign of the left number, `rem`.
    Remainder,
    /// The smaller of the two, `min`.
    Least,
    /// The larger of the two, `max`.
    Greatest,
}

/// The table of the operations on two numbers: each with its name, and with what it gives for the two.
/// The bodies below are written from it.
macro_rules! operations {
    ($write:ident!($given:expr), $left:ident, $right:ident) => {
        $write! {
            $given;
            Add: PLUS => $left.checked_add($right);
            Subtract: MINUS => $left.checked_sub($right);
            Times: TIMES => $left.checked_mul($right);
            Divide: DIVIDE => quotient($left, $right);
            Modulo: MODULO => floored($left, $right);
            Remainder: REMAINDER => remainder($left, $right);
            Least: LEAST => Some(least($left, $right));
            Greatest: GREATEST => Some(greatest($left, $right));
        }
    };
}

/// The operation of a name, if it has one.
macro_rules! operation_of {
    ($name:expr; $($operation:ident: $constant:ident => $result:expr;)*) => {
        match $name {
            $($constant => Some(Operator::$operation),)*
            _ => None,
        }
    };
}

/// What an operation gives.
macro_rules! result_of {
    ($operator:expr; $($operation:ident: $constant:ident => $result:expr;)*) => {
        match $operator {
            $(Operator::$operation => $result,)*
        }
    };
}

/// The operation that a name with so many arguments names, if it names one on two numbers. Takes no
/// memory.
pub fn operator_of(name: u32, count: u8) -> Option<Operator>
    ensures { (o : Operator) → (result ≡ Some o) ↔ ((name ≡ name_of o) × (count ≡ 2)) }
{
    if count != 2 {
        return None;
    }
    operations!(operation_of!(name), left, right)
}

/// What an operation gives for two numbers; `None` where it gives no number of 64 bits. Takes no
/// memory.
pub fn apply(operator: Operator, left: i64, right: i64) -> Option<i64>
    ensures { result ≡ of_two (name_of operator) left right }
{
    operations!(result_of!(operator), left, right)
}

/// The negative of a number; `None` for the least number of 64 bits, which has none. Takes no memory.
pub fn negate(value: i64) -> Option<i64>
    ensures { result ≡ of_one MINUS value }
{
    value.checked_neg()
}

/// What the operation of a name gives for one number; `None` where it is of none, and where it gives no number of 64
/// bits. Takes no memory.
pub(crate) fn apply_to_one(name: u32, value: i64) -> Option<i64>
    ensures { result ≡ of_one name value }
{
    match name {
        MINUS => negate(value),
        _ => None,
    }
}

/// Whether two numbers stand in a relation. Takes no memory.
pub fn compare(by: Relation, left: i64, right: i64) -> bool
    ensures { result ≡ related (relation by) left right }
{
    match by {
        Relation::Less => left < right,
        Relation::Greater => right < left,
        Relation::AtMost => left <= right,
        Relation::AtLeast => right <= left,
        Relation::Same => are_same(left, right),
        Relation::Differs => !are_same(left, right),
    }
}

fn are_same(a: i64, b: i64) -> bool
    ensures { result ≡ (int_le a b && int_le b a) }
{
    a <= b && b <= a
}

fn least(a: i64, b: i64) -> i64
    ensures { result ≡ (if int_le a b then a else b) }
{
    if a <= b { a } else { b }
}

fn greatest(a: i64, b: i64) -> i64
    ensures { result ≡ (if int_le a b then b else a) }
{
    if a <= b { b } else { a }
}

/// The quotient, truncated toward zero; `None` for the divisor 0, and out of range.
fn quotient(a: i64, b: i64) -> Option<i64>
    ensures { result ≡ (if is_zero b then None else in_range (int_div a b)) }
{
    if b == 0 {
        return None;
    }
    a.checked_div(b)
}

/// The remainder of the quotient that is truncated toward zero; `None` for the divisor 0.
fn remainder(a: i64, b: i64) -> Option<i64>
    ensures { result ≡ (if is_zero b then None else Some (a -ℤ b *ℤ int_div a b)) }
{
    match b {
        0 => None,
        -1 => Some(0),
        _ => Some(a % b),
    }
}

/// The remainder of the quotient that is rounded down; `None` for the divisor 0.
fn floored(a: i64, b: i64) -> Option<i64>
    ensures { result ≡ (if is_zero b then None else Some (a -ℤ b *ℤ floor_quotient a b)) }
{
    if b == 0 {
        return None;
    }
    let rest = a.wrapping_rem_euclid(b);
    if b > 0 {
        return Some(rest);
    }
    if rest == 0 {
        return Some(0);
    }
    Some(rest + b)
}
