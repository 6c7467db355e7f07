//! What the parts of a draft are as conjuncts of a body.

ghost use Rattle.std.specs.Prelude.{◌≡◌, ◌<◌, ◌+◌, ◌^◌, length, All};
ghost use Rattle.and_program.specs.Nodes.{names_of};
ghost use Rattle.and_drafts.specs.Parts.{part_shapes, PartsFall};
ghost use Rattle.and_judging.specs.Conjuncts.{atom_conjunct, unary_conjunct, binary_conjunct};
ghost use Rattle.and_judging.specs.Conjuncts.{relation_named, other_conjunct, conjunct_of, conjunct_at};

use crate::guesses::Guesses;
use crate::numbering::number_of;
use and_drafts::DraftPart;
use and_model::{NodeNo, Relation, builtins};
use and_program::ItemNode;
use indexmap::IndexSet;

// The numbers of the built-in names, as names are counted here.
const TRUE: usize = builtins::TRUE as usize;

const FAIL: usize = builtins::FAIL as usize;

const AND: usize = builtins::CONJUNCTION as usize;

const EQUAL: usize = builtins::EQUAL as usize;

const IS: usize = builtins::IS as usize;

const LESS: usize = builtins::LESS as usize;

const GREATER: usize = builtins::GREATER as usize;

const AT_MOST: usize = builtins::AT_MOST as usize;

const AT_LEAST: usize = builtins::AT_LEAST as usize;

const SAME: usize = builtins::SAME as usize;

const DIFFERS: usize = builtins::DIFFERS as usize;

const OR: usize = builtins::DISJUNCTION as usize;

const IF_THEN: usize = builtins::IF_THEN as usize;

const NOT: usize = builtins::NOT_PROVABLE as usize;

const CUT: usize = builtins::CUT as usize;

/// What a part is as a conjunct of a body.
#[derive(Clone, Copy)]
pub(crate) enum Conjunct {
    /// Those of two other parts, `,`.
    Both { left: u32, right: u32 },
    /// A disjunction of one part, and of the alternatives that another one is, `;`.
    Either { left: u32, right: u32 },
    /// Nothing, `true`.
    Nothing,
    /// An item. (An `is` goal has the number 0.)
    Item { item: ItemNode },
    /// What a pure program does not have.
    Refused,
}

/// What a part is as a conjunct.
pub(crate) fn part_as_conjunct(
    names: &IndexSet<Vec<u8>>,
    guesses: &Guesses,
    parts: &[DraftPart],
    number: u32,
    base: u32,
) -> Conjunct
    requires there { number < length parts.now }
    requires falls { PartsFall 0 (part_shapes parts.now) }
    requires room { base + length parts.now < 2 ^ 32 }
    ensures { result ≡ conjunct_at (names_of names.now.keys) (part_shapes parts.now) base number }
{
    match &parts[number as usize] {
        DraftPart::Compound { name, arguments } => conjunct_named(
            number_of(names, guesses, number, name.bytes()),
            arguments.as_slice(),
            NodeNo(base + number),
            base,
        ),
        DraftPart::Variable(_, _) => Conjunct::Refused,
        DraftPart::Integer(_) => Conjunct::Refused,
    }
}

/// What a name with these arguments is as a conjunct.
fn conjunct_named(name: usize, arguments: &[u32], goal: NodeNo, base: u32) -> Conjunct
    requires { All (λ n. base + n < 2 ^ 32) arguments.now }
    ensures { result ≡ conjunct_of name arguments.now goal.0 base }
{
    match arguments {
        [] => conjunct_of_atom(name, goal),
        [_] => conjunct_of_one(name, goal),
        [left, right] => conjunct_of_two(name, *left, *right, goal, base),
        _ => Conjunct::Item {
            item: ItemNode::Call { goal },
        },
    }
}

/// What an atom is as a conjunct.
fn conjunct_of_atom(name: usize, goal: NodeNo) -> Conjunct
    ensures { result ≡ atom_conjunct name goal.0 }
{
    match name {
        TRUE => Conjunct::Nothing,
        FAIL => Conjunct::Item {
            item: ItemNode::Fail,
        },
        CUT => Conjunct::Refused,
        _ => Conjunct::Item {
            item: ItemNode::Call { goal },
        },
    }
}

/// What a name with one argument is as a conjunct.
fn conjunct_of_one(name: usize, goal: NodeNo) -> Conjunct
    ensures { result ≡ unary_conjunct name goal.0 }
{
    if name == NOT {
        Conjunct::Refused
    } else {
        Conjunct::Item {
            item: ItemNode::Call { goal },
        }
    }
}

/// What a name with two arguments is as a conjunct.
fn conjunct_of_two(name: usize, left: u32, right: u32, goal: NodeNo, base: u32) -> Conjunct
    requires left { base + left < 2 ^ 32 }
    requires right { base + right < 2 ^ 32 }
    ensures { result ≡ binary_conjunct name left right goal.0 base }
{
    match name {
        AND => Conjunct::Both { left, right },
        EQUAL => Conjunct::Item {
            item: ItemNode::Equal {
                left: NodeNo(base + left),
                right: NodeNo(base + right),
            },
        },
        OR => Conjunct::Either { left, right },
        IS => Conjunct::Item {
            item: ItemNode::Is {
                left: NodeNo(base + left),
                right: NodeNo(base + right),
                pair: 0,
            },
        },
        _ => match relation_of(name) {
            Some(relation) => Conjunct::Item {
                item: ItemNode::Compare {
                    relation,
                    left: NodeNo(base + left),
                    right: NodeNo(base + right),
                },
            },
            None => conjunct_of_other(name, goal),
        },
    }
}

/// The relation of a comparison's name.
fn relation_of(name: usize) -> Option<Relation>
    ensures { result ≡ relation_named name }
{
    match name {
        LESS => Some(Relation::Less),
        GREATER => Some(Relation::Greater),
        AT_MOST => Some(Relation::AtMost),
        AT_LEAST => Some(Relation::AtLeast),
        SAME => Some(Relation::Same),
        DIFFERS => Some(Relation::Differs),
        _ => None,
    }
}

/// What a name with two arguments is as a conjunct, where it is neither `,` nor `;` nor a built-in goal.
fn conjunct_of_other(name: usize, goal: NodeNo) -> Conjunct
    ensures { result ≡ other_conjunct name goal.0 }
{
    match name {
        IF_THEN => Conjunct::Refused,
        _ => Conjunct::Item {
            item: ItemNode::Call { goal },
        },
    }
}
