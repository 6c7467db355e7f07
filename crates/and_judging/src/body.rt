//! Bodies as lists of tokens, in the order of the text.

ghost use Rattle.std.specs.Prelude.{◌≡◌, ◌<◌, ◌≤◌, ◌+◌, ◌-◌, ◌^◌, List, length, IfOk, IfSome, OnOk};
ghost use Rattle.and_program.specs.Nodes.{names_of};
ghost use Rattle.and_program.specs.Skeletons.{Shape};
ghost use Rattle.and_syntax.specs.Written.{nodes_of};
ghost use Rattle.and_drafts.specs.Parts.{part_shapes, written_at, PartsFall};
ghost use Rattle.and_drafts.specs.Numbered.{IsRead};
ghost use Rattle.and_judging.specs.Sorts.{TokensThere};
ghost use Rattle.and_judging.specs.Bodies.{made_of, with_next, TakesPart, TakesLast, Takes, IsPart, IsBody, body_parts};

use crate::guesses::Guesses;
use crate::items::{Conjunct, part_as_conjunct};
use and_drafts::DraftPart;
use and_program::ItemNode;
use indexmap::IndexSet;
use std::alloc::{AllocError, Global};

/// What a body is told by, one after another: items, and where disjunctions and their alternatives begin and end.
#[derive(Clone, Copy)]
pub enum BodyToken {
    /// An item. (The number of an `is` goal is 0 here, and its nodes are parts.)
    Item(ItemNode),
    /// A disjunction begins, which has that number among all of the table.
    Open(usize),
    /// Its next alternative begins, with that clause number.
    Next(usize),
    /// The disjunction ends.
    Close,
}

/// What of a body comes next.
#[derive(Clone, Copy)]
pub(crate) enum Pending {
    /// The items of a part.
    Part(u32),
    /// The last operand of `;`, which is more alternatives, or one.
    Last(u32),
    /// The end of a disjunction.
    End,
}

/// The tokens of a body, with the next numbers of an alternative and of a disjunction.
#[derive(Drop)]
pub(crate) struct Body {
    pub(crate) tokens: Vec<BodyToken>,
    pub(crate) next_clause: usize,
    pub(crate) next_disjunction: usize,
}

/// The tokens of a body, whose items are parts. Its alternatives are numbered from `clause` on, and its
/// disjunctions from `disjunction` on. `None` where it has something that is refused. An error is want of memory.
pub(crate) fn body_of(
    alloc: Global,
    names: &IndexSet<Vec<u8>>,
    guesses: &Guesses,
    parts: &[DraftPart],
    part: Option<u32>,
    clause: usize,
    disjunction: usize,
) -> Result<Option<Body>, AllocError>
    requires there { IfSome part (λ n. n < length parts.now) }
    requires small { IfSome part (λ n. nodes_of (written_at (part_shapes parts.now) n) ≤ length parts.now) }
    requires falls { PartsFall 0 (part_shapes parts.now) }
    requires room { length parts.now < 2 ^ 32 }
    requires few_clauses { clause < 2 ^ 33 }
    requires few_disjunctions { disjunction < 2 ^ 33 }
    ensures body { (ss : List Shape) → IsRead ss 0 (names_of names.now.keys) (part_shapes parts.now)
        → IfOk result (IsBody ss clause disjunction (body_parts ss part)) }
    ensures there { IfOk result (λ body. IfSome body (λ b. TokensThere (length parts.now) b.tokens.items)) }
{
    let mut body = Body {
        tokens: Vec::new(alloc),
        next_clause: clause,
        next_disjunction: disjunction,
    };
    let Some(part) = part else {
        return Ok(Some(body));
    };
    let mut pending = Vec::new(alloc);
    pending.push(Pending::Part(part))?;
    while let Some(next) = pending.pop() {
        if !take_pending(names, guesses, parts, next, &mut body, &mut pending)? {
            return Ok(None);
        }
    }
    Ok(Some(body))
}

/// Adds what comes next; `false` where it is refused.
fn take_pending(
    names: &IndexSet<Vec<u8>>,
    guesses: &Guesses,
    parts: &[DraftPart],
    next: Pending,
    body: &mut Body,
    pending: &mut Vec<Pending>,
) -> Result<bool, AllocError>
    requires there { IsPart (length parts.now) next }
    requires falls { PartsFall 0 (part_shapes parts.now) }
    requires room { length parts.now < 2 ^ 32 }
    requires few_clauses { body.old.next_clause < 2 ^ 64 - 2 }
    requires few_disjunctions { body.old.next_disjunction < 2 ^ 64 - 1 }
    ensures { IfOk result (λ pure. Takes (names_of names.now.keys) (part_shapes parts.now) 0 next pure
        (made_of body.old) (made_of body.new) pending.old.items pending.new.items) }
{
    match next {
        Pending::Part(part) => {
            let conjunct = part_as_conjunct(names, guesses, parts, part, 0);
            take_conjunct(conjunct, body, pending)
        }
        Pending::Last(part) => {
            let conjunct = part_as_conjunct(names, guesses, parts, part, 0);
            take_last(conjunct, body, pending)
        }
        Pending::End => {
            body.tokens.push(BodyToken::Close)?;
            Ok(true)
        }
    }
}

/// Adds the item of a conjunct, or the parts that come next; `false` where it is refused.
fn take_conjunct(
    conjunct: Conjunct,
    body: &mut Body,
    pending: &mut Vec<Pending>,
) -> Result<bool, AllocError>
    requires few_clauses { body.old.next_clause < 2 ^ 64 - 1 }
    requires few_disjunctions { body.old.next_disjunction < 2 ^ 64 - 1 }
    ensures { IfOk result (λ pure. TakesPart conjunct pure (made_of body.old) (made_of body.new) pending.old.items
        pending.new.items) }
{
    match conjunct {
        Conjunct::Both { left, right } => {
            pending.push(Pending::Part(right))?;
            pending.push(Pending::Part(left))?;
            Ok(true)
        }
        Conjunct::Either { left, right } => {
            body.tokens.push(BodyToken::Open(body.next_disjunction))?;
            body.next_disjunction += 1;
            pending.push(Pending::End)?;
            begin_alternative(body)?;
            pending.push(Pending::Last(right))?;
            pending.push(Pending::Part(left))?;
            Ok(true)
        }
        Conjunct::Nothing => Ok(true),
        Conjunct::Item { item } => {
            body.tokens.push(BodyToken::Item(item))?;
            Ok(true)
        }
        Conjunct::Refused => Ok(false),
    }
}

/// Adds the first of the alternatives that a last operand of `;` is; `false` where it is refused.
fn take_last(
    conjunct: Conjunct,
    body: &mut Body,
    pending: &mut Vec<Pending>,
) -> Result<bool, AllocError>
    requires few_clauses { body.old.next_clause < 2 ^ 64 - 2 }
    requires few_disjunctions { body.old.next_disjunction < 2 ^ 64 - 1 }
    ensures { IfOk result (λ pure. TakesLast conjunct pure (made_of body.old) (made_of body.new) pending.old.items
        pending.new.items) }
{
    begin_alternative(body)?;
    match conjunct {
        Conjunct::Either { left, right } => {
            pending.push(Pending::Last(right))?;
            pending.push(Pending::Part(left))?;
            Ok(true)
        }
        Conjunct::Both { left: _, right: _ } => take_conjunct(conjunct, body, pending),
        Conjunct::Nothing => take_conjunct(conjunct, body, pending),
        Conjunct::Item { item: _ } => take_conjunct(conjunct, body, pending),
        Conjunct::Refused => take_conjunct(conjunct, body, pending),
    }
}

/// Begins the next alternative.
fn begin_alternative(body: &mut Body) -> Result<(), AllocError>
    requires { body.old.next_clause < 2 ^ 64 - 1 }
    ensures made { OnOk result (made_of body.new ≡ with_next (made_of body.old)) }
    ensures few { body.new.next_clause ≤ body.old.next_clause + 1 }
    ensures kept { body.new.next_disjunction ≡ body.old.next_disjunction }
{
    body.tokens.push(BodyToken::Next(body.next_clause))?;
    body.next_clause += 1;
    Ok(())
}
