//! Terms that are finished in a clause's draft. Each error is want of memory.

ghost use Rattle.std.specs.Prelude.{◌≡◌, ◌≤◌, ◌<◌, ◌++◌, ◌∷◌, List, length, reverse, Option, OnOk};
ghost use Rattle.std.specs.Option.{option_copied};
ghost use Rattle.and_syntax.specs.Written.{Written, compound};
ghost use Rattle.and_automaton.specs.Machine.{Half, with_half, negated, at400, at500, at700, at1100};
ghost use Rattle.and_automaton.specs.Machine as machine;
ghost use Rattle.and_drafts.specs.Parts.{many};
ghost use Rattle.and_drafts.specs.Drafts.{draft_of};
ghost use Rattle.and_reader.specs.Standing.{terms, name_in, IsPending, with_left, with_lefts};
ghost use Rattle.and_reader.specs.Answered.{paired, HasInfix, HasOperand, HasAlternatives};

use crate::state::Pending;
use and_clauses::ClauseDraft;
use std::alloc::AllocError;

/// Finishes a name with the last `count` finished terms as its arguments.
pub(crate) fn finish(draft: &mut ClauseDraft, name: &[u8], count: u8) -> Result<(), AllocError>
    requires { count ≤ length (terms draft.old) }
    ensures ok { (ws rest : List Written) → terms draft.old ≡ ws ++ rest → length ws ≡ count
        → OnOk result (terms draft.new ≡ compound name.now (many (reverse ws)) ∷ rest) }
    ensures line { (draft_of draft.new).line ≡ (draft_of draft.old).line }
{
    if draft.is_full() {
        return Err(AllocError);
    }
    draft.compound(name, count)
}

/// Finishes a name with the last two finished terms as its arguments, so many times.
pub(crate) fn finish_pairs(
    draft: &mut ClauseDraft,
    name: &[u8],
    times: usize,
) -> Result<(), AllocError>
    requires { times < length (terms draft.old) }
    ensures ok { (w : Written) (ws rest : List Written) → terms draft.old ≡ w ∷ (ws ++ rest)
        → length ws ≡ times → OnOk result (terms draft.new ≡ paired name.now ws w ∷ rest) }
    ensures line { (draft_of draft.new).line ≡ (draft_of draft.old).line }
{
    for _time in 0..times {
        finish(draft, name, 2)?;
    }
    Ok(())
}

/// Finishes the last conjunction, with so many commas, and then a disjunction of it and so many
/// alternatives before it.
pub(crate) fn finish_disjunction(
    draft: &mut ClauseDraft,
    alternatives: usize,
    commas: usize,
) -> Result<(), AllocError>
    requires { HasAlternatives draft.old alternatives commas }
    ensures ok { (w : Written) (b es rest : List Written)
        → terms draft.old ≡ w ∷ (b ++ (es ++ rest)) → length b ≡ commas
        → length es ≡ alternatives → OnOk result (terms draft.new ≡ at1100 es b w ∷ rest) }
    ensures line { (draft_of draft.new).line ≡ (draft_of draft.old).line }
{
    finish_pairs(draft, b",", commas)?;
    finish_pairs(draft, b";", alternatives)
}

/// Finishes prefix minuses before the last finished term.
fn finish_minuses(draft: &mut ClauseDraft, times: u32) -> Result<(), AllocError>
    requires { 0 < length (terms draft.old) }
    ensures ok { (w : Written) (rest : List Written) → terms draft.old ≡ w ∷ rest
        → OnOk result (terms draft.new ≡ negated times w ∷ rest) }
    ensures line { (draft_of draft.new).line ≡ (draft_of draft.old).line }
{
    for _time in 0..times {
        finish(draft, b"-", 1)?;
    }
    Ok(())
}

/// Finishes an infix operator, if there is one, with the last two finished terms.
fn finish_infix(draft: &mut ClauseDraft, operator: Option<&[u8]>) -> Result<(), AllocError>
    requires { HasInfix draft.old (option_copied operator) }
    ensures ok { (o : Option Half) (w : Written) (rest : List Written)
        → option_copied operator.entry ≡ name_in o → terms draft.old ≡ w ∷ with_left o rest
        → OnOk result (terms draft.new ≡ with_half o w ∷ rest) }
    ensures line { (draft_of draft.new).line ≡ (draft_of draft.old).line }
{
    match operator {
        None => Ok(()),
        Some(name) => finish(draft, name, 2),
    }
}

/// Finishes what is pending up to the priority 400.
pub(crate) fn finish_product(draft: &mut ClauseDraft, pending: Pending) -> Result<(), AllocError>
    requires { HasOperand draft.old pending }
    ensures ok { (p : machine.Pending) (w : Written) (rest : List Written)
        → IsPending pending.entry p → terms draft.old ≡ w ∷ with_lefts p rest
        → OnOk result (terms draft.new ≡ at400 p w ∷ with_left p.sum (with_left p.relation rest)) }
    ensures line { (draft_of draft.new).line ≡ (draft_of draft.old).line }
{
    finish_minuses(draft, pending.minuses)?;
    finish_infix(draft, pending.product)
}

/// Finishes what is pending up to the priority 500.
pub(crate) fn finish_sum(draft: &mut ClauseDraft, pending: Pending) -> Result<(), AllocError>
    requires { HasOperand draft.old pending }
    ensures ok { (p : machine.Pending) (w : Written) (rest : List Written)
        → IsPending pending.entry p → terms draft.old ≡ w ∷ with_lefts p rest
        → OnOk result (terms draft.new ≡ at500 p w ∷ with_left p.relation rest) }
    ensures line { (draft_of draft.new).line ≡ (draft_of draft.old).line }
{
    finish_product(draft, pending)?;
    finish_infix(draft, pending.sum)
}

/// Finishes all that is pending, up to the priority 700.
pub(crate) fn finish_relation(draft: &mut ClauseDraft, pending: Pending) -> Result<(), AllocError>
    requires { HasOperand draft.old pending }
    ensures ok { (p : machine.Pending) (w : Written) (rest : List Written)
        → IsPending pending.entry p → terms draft.old ≡ w ∷ with_lefts p rest
        → OnOk result (terms draft.new ≡ at700 p w ∷ rest) }
    ensures line { (draft_of draft.new).line ≡ (draft_of draft.old).line }
{
    finish_sum(draft, pending)?;
    finish_infix(draft, pending.relation)
}
