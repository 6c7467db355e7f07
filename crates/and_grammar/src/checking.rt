//! Whether a rule stands for a clause.

ghost use Rattle.std.specs.Prelude.{◌≡◌, ◌<◌, ◌∷◌, ◌||◌, not, true, false, None, Some, reverse, IfErr, IfSome, IfOk};
ghost use Rattle.std.specs.Prelude.{OnOk};
ghost use Rattle.and_translation.specs.Bodies.{has_impure, has_wide, is_head, is_wide_head};
ghost use Rattle.and_translation.specs.Translation.{rule_fault};
ghost use Rattle.and_drafts.specs.Drafts.{draft_of};
ghost use Rattle.and_grammar.specs.Views.{body_at, term_at};
ghost use Rattle.and_grammar.specs.Checked.{fault_of, LooksAt, head_part, pair_names};
ghost use Rattle.and_syntax.specs.Written.{has};

use crate::bodies::{BodyPart, body_part};
use crate::fault::RuleFault;
use and_drafts::{ClauseDraft, Part};
use std::alloc::{AllocError, Global};

/// What is wrong with a head and a body, the gravest first.
#[derive(Clone, Copy)]
pub(crate) struct Found {
    pub(crate) impure: bool,
    pub(crate) wide: bool,
}

/// Refuses a rule whose head or body has what no rule has, or else has too many arguments.
pub(crate) fn check(
    alloc: Global,
    rule: &ClauseDraft,
    head: u32,
    body: u32,
) -> Result<(), RuleFault>
    requires head { head < (draft_of rule.now).parts }
    requires body { body < (draft_of rule.now).parts }
    ensures ok { OnOk result (rule_fault (term_at rule.now head) (body_at rule.now body) ≡ None) }
    ensures fault { let fault = rule_fault (term_at rule.now head) (body_at rule.now body) in
        IfErr result (λ e. IfSome (fault_of e) (λ f. fault ≡ Some f)) }
{
    let found = look_over(alloc, rule, body)?;
    if !is_head(rule, head) || found.impure {
        return Err(RuleFault::NotPure);
    }
    if is_wide(rule, head) || found.wide {
        return Err(RuleFault::TooManyArguments);
    }
    Ok(())
}

/// Whether nothing is wrong with the head of a rule. Takes no memory.
pub(crate) fn is_sound_head(rule: &ClauseDraft, head: u32) -> bool
    requires { head < (draft_of rule.now).parts }
    ensures head { result ≡ true → is_head (term_at rule.now head) ≡ true }
    ensures narrow { result ≡ true → is_wide_head (term_at rule.now head) ≡ false }
{
    if is_wide(rule, head) {
        return false;
    }
    is_head(rule, head)
}

/// Whether a part may be the head of a rule.
fn is_head(rule: &ClauseDraft, head: u32) -> bool
    requires { head < (draft_of rule.now).parts }
    ensures { result ≡ is_head (term_at rule.now head) }
{
    match rule.part(head) {
        Part::Variable { .. } => false,
        Part::Integer(_) => false,
        Part::Compound { name, .. } => is_head_name(name, rule.arguments(head)),
    }
}

/// Whether a name with these arguments may be the head of a rule.
fn is_head_name(name: &[u8], arguments: &[u32]) -> bool
    ensures { result ≡ head_part name.now arguments.now }
{
    match arguments {
        [] => name != b"[]".as_slice(),
        [_, _] => !is_list_or_pair(name),
        _ => true,
    }
}

/// The name of a list cell or of `,`.
fn is_list_or_pair(name: &[u8]) -> bool
    ensures { result ≡ has name.now pair_names }
{
    name == b".".as_slice() || name == b",".as_slice()
}

/// Whether one of the two holds.
fn either(first: bool, second: bool) -> bool
    ensures { result ≡ (first || second) }
{
    first || second
}

/// Whether two arguments more are too many.
pub(crate) fn is_wide(rule: &ClauseDraft, place: u32) -> bool
    requires { place < (draft_of rule.now).parts }
    ensures { result ≡ is_wide_head (term_at rule.now place) }
{
    match rule.part(place) {
        Part::Variable { .. } => false,
        Part::Integer(_) => false,
        Part::Compound { count, .. } => count > 253,
    }
}

/// What is wrong with a body. An error is want of memory.
fn look_over(alloc: Global, rule: &ClauseDraft, body: u32) -> Result<Found, AllocError>
    requires { body < (draft_of rule.now).parts }
    ensures impure { IfOk result (λ f. f.impure ≡ has_impure (body_at rule.now body)) }
    ensures wide { IfOk result (λ f. f.wide ≡ has_wide (body_at rule.now body)) }
{
    let mut found = Found {
        impure: false,
        wide: false,
    };
    let mut pending = Vec::new(alloc);
    pending.push(body)?;
    while let Some(place) = pending.pop() {
        look_at(rule, place, &mut pending, &mut found)?;
    }
    Ok(found)
}

/// What is wrong with one part of a body; the bodies in it come next.
fn look_at(
    rule: &ClauseDraft,
    place: u32,
    pending: &mut Vec<u32>,
    found: &mut Found,
) -> Result<(), AllocError>
    requires { place < (draft_of rule.now).parts }
    ensures { let before = place ∷ reverse pending.old.items in
        let after = reverse pending.new.items in
        OnOk result (LooksAt rule.now before after found.old found.new) }
{
    match body_part(rule, place) {
        BodyPart::Both { left, right } => push_two(pending, left, right),
        BodyPart::Either { left, right } => push_two(pending, left, right),
        BodyPart::Nonterminal => {
            let wide = is_wide(rule, place);
            found.wide = either(found.wide, wide);
            Ok(())
        }
        BodyPart::Impure => {
            found.impure = true;
            Ok(())
        }
        BodyPart::Nothing => Ok(()),
        BodyPart::Terminals => Ok(()),
        BodyPart::Goals { goals: _ } => Ok(()),
    }
}

fn push_two(pending: &mut Vec<u32>, left: u32, right: u32) -> Result<(), AllocError>
    ensures { OnOk result (reverse pending.new.items ≡ left ∷ right ∷ reverse pending.old.items) }
{
    pending.push(right)?;
    pending.push(left)?;
    Ok(())
}
