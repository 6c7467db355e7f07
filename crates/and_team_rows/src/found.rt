//! What a run found: its order and its text.

ghost use Rattle.std.specs.Prelude.{◌≡◌, [], ◌∷◌, ◌++◌, map, OnOk, IfOk};
ghost use Rattle.and_answers.specs.Kept.{listed};
ghost use Rattle.and_answers.specs.Order.{HasDistinctCodes};

use crate::hands::goal;
use crate::saying::say;
use and_answers::{Coded, Found};
use and_model::{ClauseNo, Code, Cut, ReductionList, Text};
use and_rows::Untold;
use std::alloc::{AllocError, Global};

/// Puts an entry with a code of one clause behind the others.
fn add(alloc: Global, found: &mut Coded, clause: u16, line: &[u8]) -> Result<(), AllocError>
    ensures { OnOk result (map (λ e. e.code) (listed found.new)
        ≡ map (λ e. e.code) (listed found.old) ++ (clause ∷ []) ∷ []) }
{
    let mut code = Code::new(alloc);
    code.push(ClauseNo(clause))?;
    let line = Text::of(alloc, line)?;
    found.add(0, &code, line, false)
}

/// What was found in two parts and merged, out of order.
fn merged(alloc: Global) -> Result<Coded, AllocError>
    ensures { IfOk result (λ found. HasDistinctCodes (listed found)) }
{
    let mut one = Coded::new(alloc);
    add(alloc, &mut one, 2, b"X = b")?;
    add(alloc, &mut one, 1, b"X = a")?;
    one.count_fork();
    let mut other = Coded::new(alloc);
    add(alloc, &mut other, 3, b"X = c")?;
    other.count_failed();
    other.count_failed();
    let both = one.merge(other)?;
    Ok(both)
}

/// The text of what was merged, in order.
pub(crate) fn in_order(alloc: Global) -> Result<String, Untold> {
    let found = merged(alloc)?.in_order()?;
    let mut out = String::new(alloc);
    push_text(alloc, &mut out, &found, true)?;
    Ok(out)
}

/// A cut at the query.
fn cut_at_query(alloc: Global) -> Cut {
    Cut {
        partial: ReductionList::new(alloc),
        clause: ClauseNo(0),
        goal: goal(0),
    }
}

/// The text of what was found.
fn push_text(
    alloc: Global,
    out: &mut String,
    found: &Found,
    with_counts: bool,
) -> Result<(), AllocError> {
    let text = found.text(with_counts)?;
    out.push_str(&String::from_utf8_lossy(alloc, text.bytes())?)
}

/// Texts with as many forks as can be counted, with the counts and without; and merged with a cut.
pub(crate) fn with_a_cut(alloc: Global) -> Result<String, Untold> {
    let mut out = String::new(alloc);
    let mut found = Found::new(alloc);
    found.forks = u64::MAX;
    found.count_fork();
    push_text(alloc, &mut out, &found, true)?;
    push_text(alloc, &mut out, &found, false)?;

    found.cut = Some(cut_at_query(alloc));
    let mut other = Found::new(alloc);
    other.forks = 1;
    let Ok(found) = other.merge(found) else {
        return Err(Untold::Memory);
    };
    say(alloc, &mut out, found.forks)?;
    push_text(alloc, &mut out, &found, true)?;
    Ok(out)
}
