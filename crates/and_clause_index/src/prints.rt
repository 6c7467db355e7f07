//! Prints of terms: a small number for each of a few places, by which most heads that a call can't be
//! made one with are told apart from it in one step.

ghost use Rattle.std.specs.Prelude.{◌≡◌, ◌<◌, ◌≤◌, ◌+◌, ◌*◌, ◌%◌, true, length, All, IfOk};
ghost use Rattle.and_model.specs.declared.numbers.ClauseNo.{ClauseNo};
ghost use Rattle.and_program.specs.Loaded.{program_of, skeleton_of};
ghost use Rattle.and_program.specs.Shown.{count_of, shown_term};
ghost use Rattle.and_program.specs.Skeletons.{node_term};
ghost use Rattle.and_clause_index.specs.Prints.{mark, argument_kind, marks_at, print_of, no_marks, no_print, differ};
ghost use Rattle.and_clause_index.specs.Prints.{marks_differ, are_apart, ArePrints, AreOneVariable, IsDoubled};

use and_model::{ClauseNo, NodeNo};
use and_program::{Loaded, NodeKind};
use std::alloc::{AllocError, Global};

/// The marks of a term and of its first two arguments. 0 stands for what is not there or not known.
#[derive(Clone, Copy, PartialEq, Eq, Debug)]
pub(crate) struct Marks {
    pub(crate) own: u8,
    pub(crate) first: u8,
    pub(crate) second: u8,
}

/// The marks of a term's first four arguments, and of the arguments of the first two of them.
#[derive(Clone, Copy, PartialEq, Eq, Debug)]
pub(crate) struct Print {
    pub(crate) first: Marks,
    pub(crate) second: Marks,
    pub(crate) third: u8,
    pub(crate) fourth: u8,
}

/// How many arguments are shown. Takes no memory.
pub fn count_in(kind: NodeKind) -> u8
    ensures { result ≡ count_of kind }
{
    match kind {
        NodeKind::Variable(_) => 0,
        NodeKind::Number(_) => 0,
        NodeKind::Compound { name: _, count } => count,
    }
}

/// The mark of a number.
fn number_mark(number: i64) -> u8
    ensures { result ≡ mark (NodeKind.Number number) }
{
    255 - (number.unsigned_abs() % 255) as u8
}

/// The mark of a name with so many arguments.
fn name_mark(name: u32, count: u8) -> u8
    ensures { result ≡ 1 + (name + 64 * count) % 255 }
{
    1 + ((u64::from(name) + 64 * u64::from(count)) % 255) as u8
}

/// The mark of what a term is: 0 for a variable, else a number from 1 on.
pub(crate) fn mark_of(kind: NodeKind) -> u8
    ensures { result ≡ mark kind }
{
    match kind {
        NodeKind::Variable(_) => 0,
        NodeKind::Number(number) => number_mark(number),
        NodeKind::Compound { name, count } => name_mark(name.0, count),
    }
}

/// Whether two marks are of terms that can't be made one.
fn tells_apart(one: u8, other: u8) -> bool
    ensures { result ≡ differ one other }
{
    // Most marks that are compared are the same.
    one != other && one != 0 && other != 0
}

impl Marks {
    /// Nothing is known.
    pub(crate) fn none() -> Marks
        ensures { result ≡ no_marks }
    {
        Marks {
            own: 0,
            first: 0,
            second: 0,
        }
    }

    /// At each place a mark, if one of the two has one there.
    fn with(self, other: Marks) -> Marks {
        Marks {
            own: self.own | other.own,
            first: self.first | other.first,
            second: self.second | other.second,
        }
    }

    /// Each is there.
    fn each() -> Marks {
        Marks {
            own: 1,
            first: 1,
            second: 1,
        }
    }

    /// Whether two terms with these marks can't be made one.
    #[inline(always)]
    pub(crate) fn is_apart(self, other: Marks) -> bool
        ensures { result ≡ marks_differ self other }
    {
        tells_apart(self.own, other.own)
            || tells_apart(self.first, other.first)
            || tells_apart(self.second, other.second)
    }
}

impl Print {
    /// Nothing is known.
    pub(crate) fn none() -> Print
        ensures { result ≡ no_print }
    {
        Print {
            first: Marks::none(),
            second: Marks::none(),
            third: 0,
            fourth: 0,
        }
    }

    /// The same with marks of the first two arguments and of their arguments.
    pub(crate) fn with_first_two(self) -> Print {
        Print {
            first: Marks::each(),
            second: Marks::each(),
            third: self.third,
            fourth: self.fourth,
        }
    }

    /// At each place a mark, if one of the two has one there.
    fn with(self, other: Print) -> Print {
        Print {
            first: self.first.with(other.first),
            second: self.second.with(other.second),
            third: self.third | other.third,
            fourth: self.fourth | other.fourth,
        }
    }

    /// Whether two terms with these prints can't be made one.
    #[inline(always)]
    pub(crate) fn is_apart(self, other: Print) -> bool
        ensures { result ≡ are_apart self other }
    {
        self.first.is_apart(other.first)
            || self.second.is_apart(other.second)
            || tells_apart(self.third, other.third)
            || tells_apart(self.fourth, other.fourth)
    }
}

/// The mark of a node.
fn node_mark(loaded: &Loaded, node: NodeNo) -> u8
    requires { node.0 < length (skeleton_of loaded.now).nodes }
    ensures { result ≡ mark (shown_term (node_term (skeleton_of loaded.now).nodes node.0)) }
{
    mark_of(loaded.kind(node))
}

/// The mark of an argument of a node.
fn argument_mark(loaded: &Loaded, node: NodeNo, place: u8) -> u8
    requires { node.0 < length (skeleton_of loaded.now).nodes }
    ensures { result ≡ mark (argument_kind (node_term (skeleton_of loaded.now).nodes node.0) place) }
{
    let count = count_in(loaded.kind(node));
    if place >= count {
        return 0;
    }
    node_mark(loaded, loaded.argument(node, place))
}

/// The marks of an argument of a node and of its first two arguments.
fn argument_marks(loaded: &Loaded, node: NodeNo, place: u8) -> Marks
    requires { node.0 < length (skeleton_of loaded.now).nodes }
    ensures { result ≡ marks_at (node_term (skeleton_of loaded.now).nodes node.0) place }
{
    let count = count_in(loaded.kind(node));
    if place >= count {
        return Marks::none();
    }
    let argument = loaded.argument(node, place);
    let own = node_mark(loaded, argument);
    let first = argument_mark(loaded, argument, 0);
    let second = argument_mark(loaded, argument, 1);
    Marks { own, first, second }
}

/// The print of a node.
fn node_print(loaded: &Loaded, node: NodeNo) -> Print
    requires { node.0 < length (skeleton_of loaded.now).nodes }
    ensures { result ≡ print_of (node_term (skeleton_of loaded.now).nodes node.0) }
{
    let first = argument_marks(loaded, node, 0);
    let second = argument_marks(loaded, node, 1);
    let third = argument_mark(loaded, node, 2);
    let fourth = argument_mark(loaded, node, 3);
    Print {
        first,
        second,
        third,
        fourth,
    }
}

/// The prints of the heads of all clauses, by clause. An error is want of memory.
pub(crate) fn prints_of(alloc: Global, loaded: &Loaded) -> Result<Vec<Print>, AllocError>
    ensures { IfOk result (λ prints. ArePrints (program_of loaded.now) prints.items) }
{
    let mut prints = Vec::new(alloc);
    for number in 0..loaded.clause_count() + 1 {
        prints.push(node_print(loaded, loaded.head(ClauseNo(number as u16))))?;
    }
    Ok(prints)
}

/// Whether a kind is that of a clause's variable with this number.
fn is_variable(kind: NodeKind, number: u8) -> bool
    ensures { result ≡ true → kind ≡ NodeKind.Variable number }
{
    match kind {
        NodeKind::Variable(other) => other == number,
        NodeKind::Number(_) => false,
        NodeKind::Compound { name: _, count: _ } => false,
    }
}

/// Whether two kinds are of one variable.
fn are_one_variable(one: NodeKind, other: NodeKind) -> bool
    ensures { result ≡ true → AreOneVariable one other }
{
    match one {
        NodeKind::Variable(number) => is_variable(other, number),
        NodeKind::Number(_) => false,
        NodeKind::Compound { name: _, count: _ } => false,
    }
}

/// Whether the first two arguments of a node are one variable. Takes no memory.
pub(crate) fn is_doubled(loaded: &Loaded, node: NodeNo) -> bool
    requires { node.0 < length (skeleton_of loaded.now).nodes }
    ensures { result ≡ true → IsDoubled (node_term (skeleton_of loaded.now).nodes node.0) }
{
    loaded.skeleton_is_of_the_program();
    let count = count_in(loaded.kind(node));
    if count < 2 {
        return false;
    }
    let first = loaded.argument(node, 0);
    let second = loaded.argument(node, 1);
    are_one_variable(loaded.kind(first), loaded.kind(second))
}

/// Whether the first two arguments of a head are one variable, among those of these clauses.
pub(crate) fn has_doubled(loaded: &Loaded, clauses: &[ClauseNo]) -> bool
    requires { All (λ (c : ClauseNo). c.0 ≤ length (program_of loaded.now).clauses) clauses.now }
{
    for clause in clauses {
        if is_doubled(loaded, loaded.head(*clause)) {
            return true;
        }
    }
    false
}

/// The prints of the heads of these clauses put together: at each place a mark, if one of them has one there.
pub(crate) fn joined(prints: &[Print], clauses: &[ClauseNo]) -> Print
    requires { All (λ (c : ClauseNo). c.0 < length prints.now) clauses.now }
{
    let mut all = Print::none();
    for clause in clauses {
        all = all.with(prints[clause.0 as usize]);
    }
    all
}
