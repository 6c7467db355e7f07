//! The body of a rule, through which states are threaded.

ghost use Rattle.std.specs.Prelude.{◌≡◌, ◌<◌, ◌≤◌, ◌+◌, ◌++◌, List, [], ◌∷◌, length, reverse, false, if◌then◌else◌};
ghost use Rattle.std.specs.Prelude.{Some, IfOk, OnOk};
ghost use Rattle.and_model.specs.Lines.{Bytes};
ghost use Rattle.and_syntax.specs.Written.{Written, Many, compound};
ghost use Rattle.and_translation.specs.Bodies.{elements, behind_first};
ghost use Rattle.and_translation.specs.Translation.{state, with_states, walk, joined};
ghost use Rattle.and_drafts.specs.Drafts.{draft_of};
ghost use Rattle.and_drafts.specs.Parts.{many};
ghost use Rattle.and_grammar.specs.Views.{term_at, body_at, arguments_at, Adds, Becomes, IsBody, IsList};
ghost use Rattle.and_grammar.specs.Acts.{acts_of, stand_of, done, AreBelow, IsTaskWithin};
ghost use Rattle.and_grammar.specs.Acts.{Steps, Makes, Splits};
ghost use Rattle.and_grammar.specs.declared.threading.Task.TheVariants.{Body, Others, EndAlternative, Join};
ghost use Rattle.and_grammar.specs.declared.threading.Task.TheVariants.{EndDisjunction};

use crate::bodies::{BodyPart, body_part};
use crate::copying::{
    copy_arguments, copy_term, put_chain, put_compound, put_list_before, put_state,
};
use crate::fault::RuleFault;
use and_drafts::{ClauseDraft, Part};
use std::alloc::{AllocError, Global};

/// What is left to do of a body.
#[derive(Clone, Copy)]
pub(crate) enum Task {
    /// A body. Terminals at the beginning of the whole body are left out.
    Body { place: u32, first: bool },
    /// The other alternatives of a disjunction, from that state on, each of which ends in another.
    Others { place: u32, from: u32, into: u32 },
    /// The end of an alternative, in that state.
    EndAlternative { into: u32 },
    /// Two alternatives are one.
    Join,
    /// The end of a disjunction, before which so many goals stand.
    EndDisjunction { goals: u32 },
}

/// A body as far as it is translated.
#[derive(Drop)]
pub(crate) struct Threaded {
    pub(crate) out: ClauseDraft,
    /// The state behind what is there.
    pub(crate) state: u32,
    /// The next new variable.
    pub(crate) next: u32,
    /// How many goals there are since the body or the alternative began.
    pub(crate) goals: u32,
}

/// Puts the goals of a body as one term behind what a draft has. Terminals at its beginning are left
/// out. An error is want of memory.
pub(crate) fn thread(
    alloc: Global,
    rule: &ClauseDraft,
    out: ClauseDraft,
    body: u32,
) -> Result<Threaded, RuleFault>
    requires { body < (draft_of rule.now).parts }
    ensures { let w = walk (behind_first (body_at rule.now body)) 0 1 in
        IfOk result (λ t. Adds out t.out (joined w.goals ∷ [])) }
{
    let mut threaded = Threaded {
        out,
        state: 0,
        next: 1,
        goals: 0,
    };
    let mut pending = Vec::new(alloc);
    pending.push(Task::Body {
        place: body,
        first: true,
    })?;
    while let Some(task) = pending.pop() {
        threaded.step(alloc, rule, &mut pending, task)?;
    }
    join_goals(&mut threaded.out, threaded.goals)?;
    Ok(threaded)
}

impl Threaded {
    ghost use Rattle.and_translation.specs.Bodies as bodies;
    ghost use Rattle.and_grammar.specs.Acts as acts;

    /// Does one task; what comes next is at the end of the list.
    fn step(
        &mut self,
        alloc: Global,
        rule: &ClauseDraft,
        pending: &mut Vec<Task>,
        task: Task,
    ) -> Result<(), RuleFault>
        requires within { IsTaskWithin rule.now task }
        requires counted { self.old.goals ≤ length (draft_of self.old.out).finished }
        requires below { let before = task ∷ reverse pending.old.items in
            AreBelow (acts_of rule.now before) (length (stand_of self.old).below) }
        ensures { let before = task ∷ reverse pending.old.items in
            OnOk result (Steps rule.now before (reverse pending.new.items) self.old self.new) }
    {
        match task {
            Task::Body { place, first } => self.take_body(alloc, rule, pending, place, first),
            Task::Others { place, from, into } => {
                self.state = from;
                self.goals = 0;
                push_others(rule, pending, place, from, into)?;
                Ok(())
            }
            Task::EndAlternative { into } => self.end_alternative(alloc, into),
            Task::Join => {
                put_compound(&mut self.out, b";", 2)?;
                self.goals = 0;
                Ok(())
            }
            Task::EndDisjunction { goals } => {
                self.goals = one_more(goals)?;
                Ok(())
            }
        }
    }

    /// Translates a body, or the first of those in it, and makes the others what comes next.
    fn take_body(
        &mut self,
        alloc: Global,
        rule: &ClauseDraft,
        pending: &mut Vec<Task>,
        place: u32,
        first: bool,
    ) -> Result<(), RuleFault>
        requires within { place < (draft_of rule.now).parts }
        requires counted { self.old.goals ≤ length (draft_of self.old.out).finished }
        requires below { AreBelow (acts_of rule.now (reverse pending.old.items)) (length (stand_of self.old).below) }
        ensures { let before = Body place first ∷ reverse pending.old.items in
            OnOk result (Steps rule.now before (reverse pending.new.items) self.old self.new) }
    {
        let part = body_part(rule, place);
        let BodyPart::Both { left, right } = part else {
            return self.take_part(alloc, rule, pending, place, part, first);
        };
        pending.push(Task::Body {
            place: right,
            first: false,
        })?;
        self.take_part(alloc, rule, pending, left, body_part(rule, left), first)
    }

    /// Translates a part of a body, or makes the bodies in it what comes next.
    fn take_part(
        &mut self,
        alloc: Global,
        rule: &ClauseDraft,
        pending: &mut Vec<Task>,
        place: u32,
        part: BodyPart,
        first: bool,
    ) -> Result<(), RuleFault>
        requires within { place < (draft_of rule.now).parts }
        requires part { IsBody rule.now place part (body_at rule.now place) }
        requires counted { self.old.goals ≤ length (draft_of self.old.out).finished }
        requires below { AreBelow (acts_of rule.now (reverse pending.old.items)) (length (stand_of self.old).below) }
        ensures { let before = Body place first ∷ reverse pending.old.items in
            OnOk result (Steps rule.now before (reverse pending.new.items) self.old self.new) }
    {
        match part {
            BodyPart::Nothing => Ok(()),
            BodyPart::Terminals => self.take_terminals(alloc, rule, place, first),
            BodyPart::Goals { goals } => self.take_goals(alloc, rule, goals),
            BodyPart::Nonterminal => self.take_nonterminal(alloc, rule, place),
            BodyPart::Both { left, right } => {
                push_both(pending, left, right, first)?;
                Ok(())
            }
            BodyPart::Either { left, right } => self.open(pending, left, right),
            BodyPart::Impure => Ok(()),
        }
    }

    /// Adds the equation of the state with a list of terminals before the next state.
    fn take_terminals(
        &mut self,
        alloc: Global,
        rule: &ClauseDraft,
        place: u32,
        first: bool,
    ) -> Result<(), RuleFault>
        requires within { place < (draft_of rule.now).parts }
        requires listed { IsList rule.now place (body_at rule.now place) }
        requires counted { self.old.goals ≤ length (draft_of self.old.out).finished }
        ensures { (items : List Written) → elements (term_at rule.now place) ≡ Some items
            → let b = (if first then bodies.nothing else bodies.terminals items) in
            OnOk result (Makes self.old self.new (done (acts.body b) (stand_of self.old))) }
    {
        if first {
            return Ok(());
        }
        let next = self.next;
        put_state(alloc, &mut self.out, self.state)?;
        put_list_before(alloc, rule, &mut self.out, place, next)?;
        put_compound(&mut self.out, b"=", 2)?;
        self.goals = one_more(self.goals)?;
        self.next = one_more(next)?;
        self.state = next;
        Ok(())
    }

    /// Adds the goals in braces.
    fn take_goals(&mut self, alloc: Global, rule: &ClauseDraft, place: u32) -> Result<(), RuleFault>
        requires within { place < (draft_of rule.now).parts }
        requires counted { self.old.goals ≤ length (draft_of self.old.out).finished }
        ensures { let b = bodies.goals (term_at rule.now place) in
            OnOk result (Makes self.old self.new (done (acts.body b) (stand_of self.old))) }
    {
        copy_term(alloc, rule, &mut self.out, place)?;
        self.goals = one_more(self.goals)?;
        Ok(())
    }

    /// Adds the call of a nonterminal, between the state and the next one.
    fn take_nonterminal(
        &mut self,
        alloc: Global,
        rule: &ClauseDraft,
        place: u32,
    ) -> Result<(), RuleFault>
        requires within { place < (draft_of rule.now).parts }
        requires counted { self.old.goals ≤ length (draft_of self.old.out).finished }
        ensures { (name : Bytes) (arguments : Many) → term_at rule.now place ≡ compound name arguments
            → let b = bodies.nonterminal name arguments in
            OnOk result (Makes self.old self.new (done (acts.body b) (stand_of self.old))) }
    {
        let next = self.next;
        put_name_between(alloc, rule, &mut self.out, place, self.state, next)?;
        self.goals = one_more(self.goals)?;
        self.next = one_more(next)?;
        self.state = next;
        Ok(())
    }

    /// Begins a disjunction: its first alternative and the others come next.
    fn open(&mut self, pending: &mut Vec<Task>, left: u32, right: u32) -> Result<(), RuleFault>
        ensures out { draft_of self.new.out ≡ draft_of self.old.out }
        ensures state { OnOk result ((self.new.state ≡ self.old.state)
            × (self.new.next ≡ self.old.next + 1) × (self.new.goals ≡ 0)) }
        ensures pending { let s = self.old.state in let n = self.old.next in
            OnOk result (reverse pending.new.items
            ≡ Body left false ∷ EndAlternative n ∷ Others right s n ∷ Join
            ∷ EndDisjunction self.old.goals ∷ reverse pending.old.items) }
    {
        let from = self.state;
        let into = self.next;
        pending.push(Task::EndDisjunction { goals: self.goals })?;
        push_alternatives(pending, left, right, from, into)?;
        self.next = one_more(into)?;
        self.goals = 0;
        Ok(())
    }

    /// Ends an alternative in a state, and makes its goals one term.
    fn end_alternative(&mut self, alloc: Global, into: u32) -> Result<(), RuleFault>
        requires { self.old.goals ≤ length (draft_of self.old.out).finished }
        ensures { OnOk result (Makes self.old self.new (done (acts.ends into) (stand_of self.old))) }
    {
        put_state(alloc, &mut self.out, into)?;
        put_state(alloc, &mut self.out, self.state)?;
        put_compound(&mut self.out, b"=", 2)?;
        put_chain(&mut self.out, b",", self.goals)?;
        self.state = into;
        self.goals = 0;
        Ok(())
    }
}

/// Makes the last goals one term. An error is want of memory.
fn join_goals(out: &mut ClauseDraft, goals: u32) -> Result<(), RuleFault>
    requires { goals ≤ length (draft_of out.old).finished }
    ensures { (ws items : List Written) → (draft_of out.old).finished ≡ ws ++ items → length items ≡ goals
        → OnOk result (Becomes out.old out.new (ws ++ joined items ∷ [])) }
{
    if goals == 0 {
        return put_compound(out, b"true", 0);
    }
    put_chain(out, b",", goals - 1)
}

/// One more. An error is want of room for such a number.
pub(crate) fn one_more(number: u32) -> Result<u32, RuleFault>
    ensures { IfOk result (λ more. more ≡ number + 1) }
{
    match number.checked_add(1) {
        Some(more) => Ok(more),
        None => Err(RuleFault::Memory),
    }
}

/// Two bodies come next.
pub(crate) fn push_both(
    pending: &mut Vec<Task>,
    left: u32,
    right: u32,
    first: bool,
) -> Result<(), AllocError>
    ensures { OnOk result (reverse pending.new.items
        ≡ Body left first ∷ Body right false ∷ reverse pending.old.items) }
{
    pending.push(Task::Body {
        place: right,
        first: false,
    })?;
    pending.push(Task::Body { place: left, first })?;
    Ok(())
}

/// A first alternative and others come next.
pub(crate) fn push_alternatives(
    pending: &mut Vec<Task>,
    left: u32,
    right: u32,
    from: u32,
    into: u32,
) -> Result<(), AllocError>
    ensures { OnOk result (reverse pending.new.items
        ≡ Body left false ∷ EndAlternative into ∷ Others right from into ∷ Join
        ∷ reverse pending.old.items) }
{
    pending.push(Task::Join)?;
    pending.push(Task::Others {
        place: right,
        from,
        into,
    })?;
    push_alternative(pending, left, into)
}

/// One alternative comes next.
fn push_alternative(pending: &mut Vec<Task>, place: u32, into: u32) -> Result<(), AllocError>
    ensures { OnOk result (reverse pending.new.items
        ≡ Body place false ∷ EndAlternative into ∷ reverse pending.old.items) }
{
    pending.push(Task::EndAlternative { into })?;
    pending.push(Task::Body {
        place,
        first: false,
    })?;
    Ok(())
}

/// The alternatives that a body is behind a `;` come next.
pub(crate) fn push_others(
    rule: &ClauseDraft,
    pending: &mut Vec<Task>,
    place: u32,
    from: u32,
    into: u32,
) -> Result<(), AllocError>
    requires { place < (draft_of rule.now).parts }
    ensures { let before = Others place from into ∷ reverse pending.old.items in
        OnOk result (Splits rule.now before (reverse pending.new.items) from) }
{
    match body_part(rule, place) {
        BodyPart::Either { left, right } => push_alternatives(pending, left, right, from, into),
        BodyPart::Nothing => push_alternative(pending, place, into),
        BodyPart::Terminals => push_alternative(pending, place, into),
        BodyPart::Goals { goals: _ } => push_alternative(pending, place, into),
        BodyPart::Nonterminal => push_alternative(pending, place, into),
        BodyPart::Both { left: _, right: _ } => push_alternative(pending, place, into),
        BodyPart::Impure => push_alternative(pending, place, into),
    }
}

/// Adds the name at a part with its arguments and two states. An error is want of memory, or of
/// room for two arguments more.
fn put_name_between(
    alloc: Global,
    rule: &ClauseDraft,
    out: &mut ClauseDraft,
    place: u32,
    before: u32,
    behind: u32,
) -> Result<(), RuleFault>
    requires { place < (draft_of rule.now).parts }
    ensures { (name : Bytes) (arguments : Many) → term_at rule.now place ≡ compound name arguments
        → let goal = compound name (with_states arguments (state before) (state behind)) in
        OnOk result (Adds out.old out.new (goal ∷ [])) }
{
    copy_arguments(alloc, rule, out, place)?;
    put_state(alloc, out, before)?;
    put_state(alloc, out, behind)?;
    put_wider(rule, out, place)
}

/// Makes the last terms the arguments of the name at a part, two more than it has. An error is want
/// of memory, or of room for two arguments more.
pub(crate) fn put_wider(
    rule: &ClauseDraft,
    out: &mut ClauseDraft,
    place: u32,
) -> Result<(), RuleFault>
    requires place { place < (draft_of rule.now).parts }
    requires enough { length (arguments_at rule.now place) + 2 ≤ length (draft_of out.old).finished }
    ensures { (name : Bytes) (arguments ws us : List Written)
        → term_at rule.now place ≡ compound name (many arguments)
        → (draft_of out.old).finished ≡ ws ++ us → length us ≡ length arguments + 2
        → OnOk result (Becomes out.old out.new (ws ++ compound name (many us) ∷ [])) }
{
    match rule.part(place) {
        Part::Compound { name, count } => match count.checked_add(2) {
            Some(wider) => put_compound(out, name, wider),
            None => Err(RuleFault::Memory),
        },
        Part::Variable { .. } => Err(RuleFault::Memory),
        Part::Integer(_) => Err(RuleFault::Memory),
    }
}
