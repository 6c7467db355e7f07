//! Bodies that are one thing after another.

ghost use Rattle.std.specs.Prelude.{suc, true, ◌≡◌, ◌<◌, IfSome};
ghost use Rattle.and_drafts.specs.Drafts.{draft_of};
ghost use Rattle.and_grammar.specs.Views.{body_at, IsBody};
ghost use Rattle.and_grammar.specs.Plain.{Advances};

use crate::bodies::{BodyPart, body_part};
use crate::checking::is_wide;
use and_drafts::ClauseDraft;

/// The state behind a body with which nothing is wrong, at whose beginning terminals are left out; `None` where that is
/// not seen at a look, as where it has alternatives. Takes no memory.
pub(crate) fn plain_state(rule: &ClauseDraft, body: u32) -> Option<u32>
    requires { body < (draft_of rule.now).parts }
    ensures { IfSome result (Advances (body_at rule.now body) true 0) }
{
    let mut place = body;
    let mut first = true;
    let mut state = 0;
    'spine: loop {
        let part = body_part(rule, place);
        let BodyPart::Both { left, right } = part else {
            return state_after(rule, place, part, first, state);
        };
        let Some(next) = state_after(rule, left, body_part(rule, left), first, state) else {
            return None;
        };
        place = right;
        first = false;
        state = next;
    }
}

/// The state behind one part of a body, from a state on, where that is the last one that was taken; `None` where
/// something may be wrong with the part, or it is not a single one.
fn state_after(
    rule: &ClauseDraft,
    place: u32,
    part: BodyPart,
    first: bool,
    state: u32,
) -> Option<u32>
    requires there { place < (draft_of rule.now).parts }
    requires part { IsBody rule.now place part (body_at rule.now place) }
    ensures { IfSome result (Advances (body_at rule.now place) first state) }
{
    match part {
        BodyPart::Nothing => Some(state),
        BodyPart::Goals { goals: _ } => Some(state),
        BodyPart::Terminals => {
            if first {
                return Some(state);
            }
            next_state(state)
        }
        BodyPart::Nonterminal => {
            if is_wide(rule, place) {
                return None;
            }
            next_state(state)
        }
        BodyPart::Both { left: _, right: _ } => None,
        BodyPart::Either { left: _, right: _ } => None,
        BodyPart::Impure => None,
    }
}

/// The state behind that one.
fn next_state(state: u32) -> Option<u32>
    ensures { IfSome result (λ next. next ≡ suc state) }
{
    state.checked_add(1)
}
