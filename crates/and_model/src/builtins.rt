//! The numbers of the names that every table of names begins with.

ghost use Rattle.std.specs.Prelude.{ℕ, ℤ, ◌≡◌, List, Option, None, false, length, map};
ghost use Rattle.std.specs.List.{range_with_len};
ghost use Rattle.and_model.specs.Arithmetic.{is_operation, operated};
ghost use Rattle.and_model.specs.declared.builtins.TheConstants.{BUILT_IN};

/// `true`, the empty body, and the head of a query.
pub const TRUE: u32 = 0;
/// `fail`, a goal without a solution.
pub const FAIL: u32 = 1;
/// `,`, which joins the goals of a body.
pub const CONJUNCTION: u32 = 2;
/// `=`, the equation of two terms.
pub const EQUAL: u32 = 3;
/// `is`, which gives a term the value of another.
pub const IS: u32 = 4;
/// `<`
pub const LESS: u32 = 5;
/// `>`
pub const GREATER: u32 = 6;
/// `=<`
pub const AT_MOST: u32 = 7;
/// `>=`
pub const AT_LEAST: u32 = 8;
/// `=:=`, equal values.
pub const SAME: u32 = 9;
/// `=\=`, values that are not equal.
pub const DIFFERS: u32 = 10;
/// `+`
pub const PLUS: u32 = 11;
/// `-`, of one number or of two.
pub const MINUS: u32 = 12;
/// `*`
pub const TIMES: u32 = 13;
/// `//`, the quotient, truncated toward zero.
pub const DIVIDE: u32 = 14;
/// `mod`, the remainder with the sign of the right number.
pub const MODULO: u32 = 15;
/// `rem`, the remainder with the sign of the left number.
pub const REMAINDER: u32 = 16;
/// `min`
pub const LEAST: u32 = 17;
/// `max`
pub const GREATEST: u32 = 18;
/// `.`, of two arguments: a list by its first element and its rest.
pub const POINT: u32 = 19;
/// `[]`, the empty list.
pub const NIL: u32 = 20;
/// `;`, a disjunction of goals, which no body may have.
pub const DISJUNCTION: u32 = 21;
/// `->`, if-then, which no body may have.
pub const IF_THEN: u32 = 22;
/// `\+`, not provable, which no body may have.
pub const NOT_PROVABLE: u32 = 23;
/// `!`, the cut, which no body may have.
pub const CUT: u32 = 24;
/// `:-`, between the head of a clause and its body.
pub const NECK: u32 = 25;
/// `?-`, before a query.
pub const QUERY: u32 = 26;

/// The names that every table of names begins with, each with its number, which is its place there.
pub const BUILT_IN: [(u32, &[u8]); 27] = [
    (TRUE, b"true"),
    (FAIL, b"fail"),
    (CONJUNCTION, b","),
    (EQUAL, b"="),
    (IS, b"is"),
    (LESS, b"<"),
    (GREATER, b">"),
    (AT_MOST, b"=<"),
    (AT_LEAST, b">="),
    (SAME, b"=:="),
    (DIFFERS, b"=\\="),
    (PLUS, b"+"),
    (MINUS, b"-"),
    (TIMES, b"*"),
    (DIVIDE, b"//"),
    (MODULO, b"mod"),
    (REMAINDER, b"rem"),
    (LEAST, b"min"),
    (GREATEST, b"max"),
    (POINT, b"."),
    (NIL, b"[]"),
    (DISJUNCTION, b";"),
    (IF_THEN, b"->"),
    (NOT_PROVABLE, b"\\+"),
    (CUT, b"!"),
    (NECK, b":-"),
    (QUERY, b"?-"),
];

/// The operations of arithmetic: each name with how many numbers it is of.
pub const OPERATIONS: [(u32, u8); 9] = [
    (PLUS, 2),
    (MINUS, 2),
    (TIMES, 2),
    (DIVIDE, 2),
    (MODULO, 2),
    (REMAINDER, 2),
    (LEAST, 2),
    (GREATEST, 2),
    (MINUS, 1),
];

/// Each of these numbers is the place of its name in every table.
pub fn numbers_of_names_are_places()
    ensures { map (λ name. name.0) BUILT_IN ≡ range_with_len 0 (length BUILT_IN) }
{}

/// Whether a name with so many arguments is an operation of arithmetic. Takes no memory.
pub fn is_operation(name: u32, count: u8) -> bool
    ensures { result ≡ is_operation name count }
{
    let operations = OPERATIONS;
    operations
        .iter()
        .any(|operation| count == operation.1 && name == operation.0)
}

/// A name that is no operation of so many numbers gives no value for them.
pub fn what_is_no_operation_has_no_value()
    ensures { (name : ℕ) (values : List (Option ℤ)) → is_operation name (length values) ≡ false
        → operated name values ≡ None }
{}
