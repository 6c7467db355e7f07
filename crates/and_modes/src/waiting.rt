//! The first variable that an arithmetic goal waits for.

ghost use Rattle.std.specs.Prelude.{◌≡◌, ◌<◌, ◌≤◌, ◌↔◌, ◌||◌, ◌++◌, ℕ, Bool, true, IfOk, length, nat_eq};
ghost use Rattle.and_program.specs.Loaded.{program_of, skeleton_of};
ghost use Rattle.and_program.specs.Skeletons.{node_term, item_of, IsThere};
ghost use Rattle.and_program.specs.Items.{node_item};
ghost use Rattle.and_modes.specs.Modes.{Wait, waited_by, query_last, IsSafe, WaitsFirst};
ghost use Rattle.and_modes.specs.Kept.{assignment_of};
ghost use Rattle.and_modes.specs.Known.{environment};
ghost use Rattle.and_modes.specs.Waiting.{first_unknown, told, IsVerdictAmong, IsTold, is_told_before, numbers_in};
ghost use Rattle.and_modes.specs.declared.verdicts.Verdict.TheVariants.{Safe};

use crate::assignment::Modes;
use crate::known::Known;
use crate::level::{Level, Side, is_at_least};
use crate::variables::variables;
use crate::verdicts::Verdict;
use and_model::{ClauseNo, NodeNo};
use and_program::{ItemNode, Loaded};
use std::alloc::{AllocError, Global};

/// Whether an arithmetic goal of the program may wait under the assignment, and for which variable
/// first: by the clause's line, on one line by the clause's number with the query last, then by the
/// item, and then from left to right. An error is want of memory.
pub fn verdict(alloc: Global, loaded: &Loaded, modes: &Modes) -> Result<Verdict, AllocError>
    ensures safe { IfOk result (λ v. v ≡ Safe ↔ IsSafe (program_of loaded.now) (assignment_of modes.now)) }
    ensures waits { IfOk result (λ v. (w : Wait)
        → v ≡ told w ↔ WaitsFirst (program_of loaded.now) (assignment_of modes.now) w) }
{
    let mut found = Verdict::Safe;
    for number in 1..loaded.clause_count() + 1 {
        found = and_clause(alloc, loaded, modes, found, ClauseNo(number as u16))?;
    }
    and_clause(alloc, loaded, modes, found, ClauseNo(0))
}

/// The verdict on the clauses that were seen before, of which `found` is the verdict, and on one more.
fn and_clause(
    alloc: Global,
    loaded: &Loaded,
    modes: &Modes,
    found: Verdict,
    no: ClauseNo,
) -> Result<Verdict, AllocError>
    requires there { no.0 ≤ length (program_of loaded.now).clauses }
    requires told { IsTold (program_of loaded.now) found }
    ensures { IfOk result (λ v. (seen : ℕ → Bool)
        → IsVerdictAmong (program_of loaded.now) (assignment_of modes.now) seen found
        → ((c : ℕ) → seen c ≡ true → query_last (program_of loaded.now) c < query_last (program_of loaded.now) no.0)
        → IsVerdictAmong (program_of loaded.now) (assignment_of modes.now) (λ c. seen c || nat_eq c no.0) v) }
{
    if is_told_before(loaded, found, no) {
        return Ok(found);
    }
    let here = in_clause(alloc, loaded, modes, no)?;
    match here {
        Verdict::Safe => Ok(found),
        Verdict::Waits {
            clause: _,
            item: _,
            variable: _,
        } => Ok(here),
    }
}

/// Whether a variable is told of a clause whose line is not behind that of clause `no`.
fn is_told_before(loaded: &Loaded, found: Verdict, no: ClauseNo) -> bool
    requires there { no.0 ≤ length (program_of loaded.now).clauses }
    requires told { IsTold (program_of loaded.now) found }
    ensures { result ≡ is_told_before (program_of loaded.now) found no.0 }
{
    match found {
        Verdict::Safe => false,
        Verdict::Waits {
            clause,
            item: _,
            variable: _,
        } => loaded.line(clause) <= loaded.line(no),
    }
}

/// The verdict on one clause. An error is want of memory.
fn in_clause(
    alloc: Global,
    loaded: &Loaded,
    modes: &Modes,
    no: ClauseNo,
) -> Result<Verdict, AllocError>
    requires { no.0 ≤ length (program_of loaded.now).clauses }
    ensures { IfOk result (λ v. IsVerdictAmong (program_of loaded.now) (assignment_of modes.now)
        (λ c. nat_eq c no.0) v) }
{
    let mut known = Known::nothing();
    known.raise_arguments(alloc, loaded, modes, loaded.head(no), Side::Called)?;
    let mut item: u32 = 0;
    for node in loaded.items(no) {
        match first_waited(alloc, loaded, &known, *node)? {
            Some(variable) => {
                return Ok(Verdict::Waits {
                    clause: no,
                    item,
                    variable,
                });
            }
            None => {}
        }
        known.pass(alloc, loaded, modes, *node)?;
        if item == u32::MAX {
            return Err(AllocError);
        }
        item += 1;
    }
    Ok(Verdict::Safe)
}

/// The first variable that an item waits for and that is not known to be ground. An error is want of
/// memory.
fn first_waited(
    alloc: Global,
    loaded: &Loaded,
    known: &Known,
    item: ItemNode,
) -> Result<Option<u8>, AllocError>
    requires { (k : ℕ) × IsThere (skeleton_of loaded.now).nodes k (node_item item) }
    ensures { IfOk result (λ v. v ≡ first_unknown (environment known.now.levels)
        (waited_by (item_of (skeleton_of loaded.now).nodes (node_item item)))) }
{
    match item {
        ItemNode::Call { goal: _ } => Ok(None),
        ItemNode::Equal { left: _, right: _ } => Ok(None),
        ItemNode::Is {
            left: _,
            right,
            pair: _,
        } => first_in(alloc, loaded, known, right),
        ItemNode::Compare {
            relation: _,
            left,
            right,
        } => first_in_two(alloc, loaded, known, left, right),
        ItemNode::Fail => Ok(None),
    }
}

/// The first variable of two terms that is not known to be ground.
fn first_in_two(
    alloc: Global,
    loaded: &Loaded,
    known: &Known,
    left: NodeNo,
    right: NodeNo,
) -> Result<Option<u8>, AllocError>
    requires left { left.0 < length (skeleton_of loaded.now).nodes }
    requires right { right.0 < length (skeleton_of loaded.now).nodes }
    ensures { IfOk result (λ v. v ≡ first_unknown (environment known.now.levels)
        (numbers_in (node_term (skeleton_of loaded.now).nodes left.0)
        ++ numbers_in (node_term (skeleton_of loaded.now).nodes right.0))) }
{
    match first_in(alloc, loaded, known, left)? {
        Some(variable) => Ok(Some(variable)),
        None => first_in(alloc, loaded, known, right),
    }
}

/// The first variable of a term that is not known to be ground.
fn first_in(
    alloc: Global,
    loaded: &Loaded,
    known: &Known,
    node: NodeNo,
) -> Result<Option<u8>, AllocError>
    requires { node.0 < length (skeleton_of loaded.now).nodes }
    ensures { IfOk result (λ v. v ≡ first_unknown (environment known.now.levels)
        (numbers_in (node_term (skeleton_of loaded.now).nodes node.0))) }
{
    let found = variables(alloc, loaded, node)?;
    Ok(first_of(known, &found))
}

/// The first of these variables that is not known to be ground.
fn first_of(known: &Known, numbers: &[u8]) -> Option<u8>
    ensures { result ≡ first_unknown (environment known.now.levels) numbers.now }
{
    for number in numbers {
        if !is_at_least(known.of_variable(*number), Level::Ground) {
            return Some(*number);
        }
    }
    None
}
