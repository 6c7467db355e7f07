//! Calls of predicates without a clause.

ghost use Rattle.std.specs.Prelude.{◌≡◌, ◌≤◌, ◌<◌, ◌^◌, ℕ, List, [], ◌∷◌, map, ◌++◌, take, length, OnOk, IfOk};
ghost use Rattle.and_model.specs.Programs.{Clause};
ghost use Rattle.and_program.specs.Nodes.{names_of};
ghost use Rattle.and_program.specs.Predicates.{Finds};
ghost use Rattle.and_program.specs.Skeletons.{node_term};
ghost use Rattle.and_drafts.specs.Parts.{part_shapes, PartsFall};
ghost use Rattle.and_judging.specs.Marks.{mark_of, marks_in, calls_in_marks};
ghost use Rattle.and_judging.specs.Sorts.{shapes_under, TokenThere, TokensThere};
ghost use Rattle.and_judging.specs.Unknown.{call_at};
ghost use Rattle.and_judging.specs.Unknown.{unknown_at, first_called, goal_in};
ghost use Rattle.and_judging.specs.Sealing.{IsUnknown};

use crate::body::BodyToken;
use crate::data::{Called, SealFault};
use crate::guesses::Guesses;
use crate::numbering::number_of;
use and_drafts::DraftPart;
use and_model::{NameNo, NodeNo, Text};
use and_program::{ClauseNumbers, ItemNode, Predicate, clauses_at, name_at};
use indexmap::IndexSet;
use std::alloc::{AllocError, Global};

/// Adds what the calls of a body call, in order, on that line. An error is want of memory; some may then have been
/// added.
pub fn append_calls(
    calls: &mut Vec<Called>,
    names: &IndexSet<Vec<u8>>,
    guesses: &Guesses,
    parts: &[DraftPart],
    tokens: &[BodyToken],
    line: u32,
) -> Result<(), AllocError>
    requires there { TokensThere (length parts.now) tokens.now }
    requires falls { PartsFall 0 (part_shapes parts.now) }
    requires few_names { length (names_of names.now.keys) < 2 ^ 32 }
    ensures calls { let ss = shapes_under (names_of names.now.keys) parts.now in
        OnOk result (calls.new.items
        ≡ calls.old.items ++ map (call_at line) (calls_in_marks (marks_in ss tokens.now))) }
    ensures kept { take (length calls.old.items) calls.new.items ≡ calls.old.items }
{
    for token in tokens {
        append_call(calls, names, guesses, parts, token, line)?;
    }
    Ok(())
}

/// Adds what a token calls, if it is a call. An error is want of memory, and leaves the calls as they were.
fn append_call(
    calls: &mut Vec<Called>,
    names: &IndexSet<Vec<u8>>,
    guesses: &Guesses,
    parts: &[DraftPart],
    token: &BodyToken,
    line: u32,
) -> Result<(), AllocError>
    requires there { TokenThere (length parts.now) token.now }
    requires falls { PartsFall 0 (part_shapes parts.now) }
    requires few_names { length (names_of names.now.keys) < 2 ^ 32 }
    ensures calls { let ss = shapes_under (names_of names.now.keys) parts.now in
        OnOk result (calls.new.items
        ≡ calls.old.items ++ map (call_at line) (calls_in_marks (mark_of ss token.now ∷ []))) }
    ensures kept { take (length calls.old.items) calls.new.items ≡ calls.old.items }
{
    match goal_of(token) {
        Some(goal) => {
            let predicate = predicate_of(names, guesses, parts, goal);
            calls.push(Called { predicate, line })?;
            Ok(())
        }
        None => Ok(()),
    }
}

/// The part that a token calls.
fn goal_of(token: &BodyToken) -> Option<NodeNo>
    ensures { result ≡ goal_in token.now }
{
    match token {
        BodyToken::Item(ItemNode::Call { goal }) => Some(*goal),
        BodyToken::Item(ItemNode::Equal { .. }) => None,
        BodyToken::Item(ItemNode::Is { .. }) => None,
        BodyToken::Item(ItemNode::Compare { .. }) => None,
        BodyToken::Item(ItemNode::Fail) => None,
        BodyToken::Open(_) => None,
        BodyToken::Next(_) => None,
        BodyToken::Close => None,
    }
}

/// The predicate of a part's term. (A variable and a number, which no body calls, have that of `true`.)
fn predicate_of(
    names: &IndexSet<Vec<u8>>,
    guesses: &Guesses,
    parts: &[DraftPart],
    part: NodeNo,
) -> Predicate
    requires there { part.0 < length parts.now }
    requires falls { PartsFall 0 (part_shapes parts.now) }
    requires few_names { length (names_of names.now.keys) < 2 ^ 32 }
    ensures { (line : ℕ) → let goal = node_term (shapes_under (names_of names.now.keys) parts.now) part.0 in
        record { predicate = result; line = line } ≡ call_at line goal }
{
    match &parts[part.0 as usize] {
        DraftPart::Compound { name, arguments } => Predicate {
            name: NameNo(number_of(names, guesses, part.0, name.bytes()) as u32),
            arity: arguments.len(),
        },
        DraftPart::Variable(_, _) => Predicate {
            name: NameNo(0),
            arity: 0,
        },
        DraftPart::Integer(_) => Predicate {
            name: NameNo(0),
            arity: 0,
        },
    }
}

/// The first of these calls that has no clause.
pub fn first_unknown_call(found: &ClauseNumbers, calls: &[Called]) -> Option<Called>
    ensures { (cs : List Clause) → Finds found.now cs → result ≡ first_called cs calls.now }
{
    for call in calls {
        if clauses_at(found, call.predicate).is_empty() {
            return Some(*call);
        }
    }
    None
}

/// Names what is called without a clause.
pub fn unknown_fault(
    alloc: Global,
    names: &IndexSet<Vec<u8>>,
    call: Called,
) -> Result<SealFault, AllocError>
    requires { call.predicate.arity ≤ 255 }
    ensures { let unknown = unknown_at (names_of names.now.keys) call in
        IfOk result (λ fault. IsUnknown unknown fault) }
{
    Ok(SealFault::Unknown {
        name: Text::of(alloc, name_at(names, call.predicate.name))?,
        arity: call.predicate.arity as u8,
        line: call.line,
    })
}
