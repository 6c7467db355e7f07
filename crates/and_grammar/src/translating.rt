//! The clause for which a rule stands.

ghost use Rattle.std.specs.Prelude.{◌≡◌, ◌<◌, ◌∷◌, [], length, true, None, Some, IsTrue, IfOk, OnOk, IfErr, IfSome};
ghost use Rattle.and_translation.specs.Bodies.{first_terminals, behind_first, is_head, is_rule};
ghost use Rattle.and_translation.specs.Translation.{state, list_before, head_between, rule_clause, rule_fault, walk};
ghost use Rattle.and_drafts.specs.Drafts.{draft_of};
ghost use Rattle.and_grammar.specs.Views.{term_at, body_at, IsFirstList, Adds};
ghost use Rattle.and_grammar.specs.Checked.{fault_of};
ghost use Rattle.and_grammar.specs.Translated.{Answers, AnswersSides};

use crate::bodies::{BodyPart, body_part};
use crate::checking::{check, is_sound_head};
use crate::copying::{copy_arguments, put_compound, put_list_before, put_state};
use crate::counting::state_behind;
use crate::fault::RuleFault;
use crate::plain::plain_state;
use crate::threading::{Threaded, put_wider, thread};
use and_drafts::ClauseDraft;
use std::alloc::Global;

/// A draft of the clause for which the draft of a rule, a compound `-->` of two arguments, stands. It takes the memory
/// of a draft that is not wanted any more.
pub fn translate(
    alloc: Global,
    rule: &ClauseDraft,
    spare: ClauseDraft,
) -> Result<ClauseDraft, RuleFault>
    requires { IsTrue (is_rule (draft_of rule.now).finished) }
    ensures { Answers (draft_of rule.now) result }
{
    let root = rule.part_count() - 1;
    match rule.arguments(root) {
        [head, body] => translate_sides(alloc, rule, spare, *head, *body),
        _ => Err(RuleFault::Memory),
    }
}

/// The clause of a head and a body, or what is wrong with them.
fn translate_sides(
    alloc: Global,
    rule: &ClauseDraft,
    spare: ClauseDraft,
    head: u32,
    body: u32,
) -> Result<ClauseDraft, RuleFault>
    requires head { head < (draft_of rule.now).parts }
    requires body { body < (draft_of rule.now).parts }
    ensures { AnswersSides rule.now (term_at rule.now head) (body_at rule.now body) result }
{
    let behind = checked_state(alloc, rule, head, body)?;
    match put_sides(alloc, rule, spare, head, body, behind) {
        Ok(clause) => Ok(clause),
        // Nothing is wrong with the rule, so it was want of memory.
        Err(_) => Err(RuleFault::Memory),
    }
}

/// The state behind the body of a rule, or what is wrong with the rule.
fn checked_state(alloc: Global, rule: &ClauseDraft, head: u32, body: u32) -> Result<u32, RuleFault>
    requires head { head < (draft_of rule.now).parts }
    requires body { body < (draft_of rule.now).parts }
    ensures ok { OnOk result (rule_fault (term_at rule.now head) (body_at rule.now body) ≡ None) }
    ensures state { IfOk result (λ s. s ≡ (walk (behind_first (body_at rule.now body)) 0 1).behind) }
    ensures fault { let fault = rule_fault (term_at rule.now head) (body_at rule.now body) in
        IfErr result (λ e. IfSome (fault_of e) (λ f. fault ≡ Some f)) }
{
    if is_sound_head(rule, head) {
        if let Some(state) = plain_state(rule, body) {
            return Ok(state);
        }
    }
    check(alloc, rule, head, body)?;
    match state_behind(alloc, rule, body) {
        Ok(state) => Ok(state),
        Err(_) => Err(RuleFault::Memory),
    }
}

/// The clause of a head and a body with which nothing is wrong, and behind which that state is. An error is want of
/// memory.
fn put_sides(
    alloc: Global,
    rule: &ClauseDraft,
    spare: ClauseDraft,
    head: u32,
    body: u32,
    behind: u32,
) -> Result<ClauseDraft, RuleFault>
    requires head { head < (draft_of rule.now).parts }
    requires body { body < (draft_of rule.now).parts }
    requires named { is_head (term_at rule.now head) ≡ true }
    requires behind { behind ≡ (walk (behind_first (body_at rule.now body)) 0 1).behind }
    ensures { IfOk result (λ d. ((draft_of d).line ≡ (draft_of rule.now).line)
        × ((draft_of d).finished ≡ rule_clause (term_at rule.now head) (body_at rule.now body) ∷ [])) }
{
    let mut clause = spare;
    clause.restart(rule.line());
    put_head(alloc, rule, &mut clause, head, body, behind)?;
    let threaded = thread(alloc, rule, clause, body)?;
    let Threaded { out, .. } = threaded;
    let mut clause = out;
    put_compound(&mut clause, b":-", 2)?;
    Ok(clause)
}

/// Adds a head with the state before the body, in which terminals at its beginning are, and the
/// state behind it. An error is want of memory, or of room for two arguments more.
fn put_head(
    alloc: Global,
    rule: &ClauseDraft,
    out: &mut ClauseDraft,
    head: u32,
    body: u32,
    behind: u32,
) -> Result<(), RuleFault>
    requires head { head < (draft_of rule.now).parts }
    requires body { body < (draft_of rule.now).parts }
    requires named { is_head (term_at rule.now head) ≡ true }
    ensures { let first = list_before (first_terminals (body_at rule.now body)) (state 0) in
        let goal = head_between (term_at rule.now head) first (state behind) in
        OnOk result (Adds out.old out.new (goal ∷ [])) }
{
    copy_arguments(alloc, rule, out, head)?;
    put_first_state(alloc, rule, out, body)?;
    put_state(alloc, out, behind)?;
    put_wider(rule, out, head)
}

/// Adds the state before a body: the terminals with which it begins, before new variable 0.
fn put_first_state(
    alloc: Global,
    rule: &ClauseDraft,
    out: &mut ClauseDraft,
    body: u32,
) -> Result<(), RuleFault>
    requires { body < (draft_of rule.now).parts }
    ensures { let first = list_before (first_terminals (body_at rule.now body)) (state 0) in
        OnOk result (Adds out.old out.new (first ∷ [])) }
{
    match first_list(rule, body) {
        Some(list) => put_list_before(alloc, rule, out, list, 0),
        None => put_state(alloc, out, 0),
    }
}

/// The list of terminals with which a body begins, if it begins with one.
fn first_list(rule: &ClauseDraft, body: u32) -> Option<u32>
    requires { body < (draft_of rule.now).parts }
    ensures { IsFirstList rule.now (first_terminals (body_at rule.now body)) result }
{
    let mut first = body;
    loop {
        match body_part(rule, first) {
            BodyPart::Both { left, right: _ } => first = left,
            BodyPart::Terminals => return Some(first),
            BodyPart::Nothing => return None,
            BodyPart::Goals { goals: _ } => return None,
            BodyPart::Nonterminal => return None,
            BodyPart::Either { left: _, right: _ } => return None,
            BodyPart::Impure => return None,
        }
    }
}
