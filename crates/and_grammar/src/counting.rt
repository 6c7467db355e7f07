//! The states of a rule's body, before it is translated.

ghost use Rattle.std.specs.Prelude.{suc, ◌≡◌, ◌<◌, List, ◌∷◌, reverse, if◌then◌else◌, IfOk, OnOk};
ghost use Rattle.and_syntax.specs.Written.{Written};
ghost use Rattle.and_translation.specs.Bodies.{behind_first};
ghost use Rattle.and_translation.specs.Translation.{walk};
ghost use Rattle.and_drafts.specs.Drafts.{draft_of};
ghost use Rattle.and_grammar.specs.Views.{body_at};
ghost use Rattle.and_grammar.specs.Acts.{IsTaskWithin};
ghost use Rattle.and_grammar.specs.Counts.{Counts};
ghost use Rattle.and_grammar.specs.declared.threading.Task.TheVariants.{Body};

use crate::bodies::{BodyPart, body_part};
use crate::fault::RuleFault;
use crate::threading::{Task, one_more, push_alternatives, push_both, push_others};
use and_drafts::ClauseDraft;
use std::alloc::Global;

/// The states of a body as far as they are counted.
#[derive(Clone, Copy)]
pub(crate) struct Counted {
    /// The state behind what was counted.
    pub(crate) state: u32,
    /// The next new variable.
    pub(crate) next: u32,
}

/// The state behind a body, at whose beginning terminals are left out. An error is want of memory.
pub(crate) fn state_behind(alloc: Global, rule: &ClauseDraft, body: u32) -> Result<u32, RuleFault>
    requires { body < (draft_of rule.now).parts }
    ensures { IfOk result (λ s. s ≡ (walk (behind_first (body_at rule.now body)) 0 1).behind) }
{
    let mut counted = Counted { state: 0, next: 1 };
    let mut pending = Vec::new(alloc);
    pending.push(Task::Body {
        place: body,
        first: true,
    })?;
    while let Some(task) = pending.pop() {
        counted.step(rule, &mut pending, task)?;
    }
    Ok(counted.state)
}

impl Counted {
    ghost use Rattle.and_translation.specs.Bodies as bodies;

    /// Counts the states of one task; what comes next is at the end of the list.
    fn step(
        &mut self,
        rule: &ClauseDraft,
        pending: &mut Vec<Task>,
        task: Task,
    ) -> Result<(), RuleFault>
        requires { IsTaskWithin rule.now task }
        ensures { let before = task ∷ reverse pending.old.items in
            OnOk result (Counts rule.now before (reverse pending.new.items) self.old self.new) }
    {
        match task {
            Task::Body { place, first } => self.take_body(rule, pending, place, first),
            Task::Others { place, from, into } => {
                self.state = from;
                push_others(rule, pending, place, from, into)?;
                Ok(())
            }
            Task::EndAlternative { into } => {
                self.state = into;
                Ok(())
            }
            Task::Join => Ok(()),
            Task::EndDisjunction { goals: _ } => Ok(()),
        }
    }

    /// Counts the states of a body, or makes those in it what comes next.
    fn take_body(
        &mut self,
        rule: &ClauseDraft,
        pending: &mut Vec<Task>,
        place: u32,
        first: bool,
    ) -> Result<(), RuleFault>
        requires { place < (draft_of rule.now).parts }
        ensures { let before = Body place first ∷ reverse pending.old.items in
            OnOk result (Counts rule.now before (reverse pending.new.items) self.old self.new) }
    {
        match body_part(rule, place) {
            BodyPart::Nothing => Ok(()),
            BodyPart::Terminals => self.take_terminals(first),
            BodyPart::Goals { goals: _ } => Ok(()),
            BodyPart::Nonterminal => self.advance(),
            BodyPart::Both { left, right } => {
                push_both(pending, left, right, first)?;
                Ok(())
            }
            BodyPart::Either { left, right } => {
                push_alternatives(pending, left, right, self.state, self.next)?;
                self.next = one_more(self.next)?;
                Ok(())
            }
            BodyPart::Impure => Ok(()),
        }
    }

    /// Terminals take the next state, but for the first.
    fn take_terminals(&mut self, first: bool) -> Result<(), RuleFault>
        ensures { (items : List Written) → let b = (if first then bodies.nothing else bodies.terminals items) in
            let w = walk b self.old.state self.old.next in
            OnOk result ((self.new.state ≡ w.behind) × (self.new.next ≡ w.next)) }
    {
        if first {
            return Ok(());
        }
        self.advance()
    }

    /// The next state is behind what comes next.
    fn advance(&mut self) -> Result<(), RuleFault>
        ensures { OnOk result ((self.new.state ≡ self.old.next) × (self.new.next ≡ suc self.old.next)) }
    {
        let next = self.next;
        self.next = one_more(next)?;
        self.state = next;
        Ok(())
    }
}
