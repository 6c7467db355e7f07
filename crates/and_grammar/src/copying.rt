//! Terms that are put at the end of a draft, or copied from another one.

ghost use Rattle.std.specs.Prelude.{◌≡◌, ◌<◌, ◌≤◌, ◌++◌, ◌^◌, List, [], ◌∷◌, map, length, reverse, IfOk, OnOk, Some};
ghost use Rattle.std.specs.Prelude.{All};
ghost use Rattle.and_syntax.specs.Written.{Written, variable, integer, compound};
ghost use Rattle.and_translation.specs.Bodies.{elements};
ghost use Rattle.and_translation.specs.Translation.{state, list_before};
ghost use Rattle.and_drafts.specs.Drafts.{draft_of};
ghost use Rattle.and_drafts.specs.Parts.{many};
ghost use Rattle.and_grammar.specs.Views.{term_at, arguments_at, Becomes, Adds};
ghost use Rattle.and_grammar.specs.Copies.{AreEnough, IsWithin, Copies, chain, are_terms, taken, name_at};
ghost use Rattle.and_grammar.specs.declared.copying.Copy.TheVariants.{Term, Name};

use crate::bodies::cell_at;
use crate::fault::RuleFault;
use and_drafts::{ClauseDraft, Part};
use itoa::Buffer;
use smallvec::SmallVec;
use std::alloc::{AllocError, Global};

/// What is left to do of a copy.
#[derive(Clone, Copy)]
pub(crate) enum Copy {
    /// The term that ends at that part.
    Term(u32),
    /// The name at that part, whose arguments are there.
    Name(u32),
}

/// Adds a variable. An error is want of memory, or of room for one part more.
pub(crate) fn put_variable(out: &mut ClauseDraft, name: &[u8]) -> Result<(), RuleFault>
    ensures { OnOk result (Adds out.old out.new (variable name.now ∷ [])) }
{
    if out.is_full() {
        return Err(RuleFault::Memory);
    }
    out.variable(name)?;
    Ok(())
}

/// Adds an integer. An error is want of memory, or of room for one part more.
fn put_integer(out: &mut ClauseDraft, value: i64) -> Result<(), RuleFault>
    ensures { OnOk result (Adds out.old out.new (integer value ∷ [])) }
{
    if out.is_full() {
        return Err(RuleFault::Memory);
    }
    out.integer(value)?;
    Ok(())
}

/// Makes the last terms the arguments of a name. An error is want of memory, or of room for one
/// part more.
pub(crate) fn put_compound(out: &mut ClauseDraft, name: &[u8], count: u8) -> Result<(), RuleFault>
    requires { count ≤ length (draft_of out.old).finished }
    ensures { (ws us : List Written) → (draft_of out.old).finished ≡ ws ++ us → length us ≡ count
        → OnOk result (Becomes out.old out.new (ws ++ compound name.now (many us) ∷ [])) }
{
    if out.is_full() {
        return Err(RuleFault::Memory);
    }
    out.compound(name, count)?;
    Ok(())
}

/// Adds the new variable of that number.
pub(crate) fn put_state(alloc: Global, out: &mut ClauseDraft, number: u32) -> Result<(), RuleFault>
    ensures { OnOk result (Adds out.old out.new (state number ∷ [])) }
{
    if number < 10 {
        return put_variable(out, &[255, b'0' + number as u8]);
    }
    put_written_state(alloc, out, number)
}

/// Adds the new variable of that number, whose digits are written one after the other.
fn put_written_state(alloc: Global, out: &mut ClauseDraft, number: u32) -> Result<(), RuleFault>
    ensures { OnOk result (Adds out.old out.new (state number ∷ [])) }
{
    let mut buffer = Buffer::new();
    let mut name = SmallVec::<u8, 15>::new(alloc);
    name.push(255)?;
    name.extend_from_slice(buffer.format(number).as_bytes())?;
    put_variable(out, name.as_slice())
}

/// Puts a name of two arguments between the last `count + 1` terms, nested to the right.
pub(crate) fn put_chain(out: &mut ClauseDraft, name: &[u8], count: u32) -> Result<(), RuleFault>
    requires { count < length (draft_of out.old).finished }
    ensures { (ws us : List Written) (last : Written)
        → (draft_of out.old).finished ≡ ws ++ (us ++ last ∷ []) → length us ≡ count
        → OnOk result (Becomes out.old out.new (ws ++ chain name.now us last ∷ [])) }
{
    let mut left = count;
    while left > 0 {
        left -= 1;
        put_compound(out, name, 2)?;
    }
    Ok(())
}

/// Adds the term that ends at a part of another draft. An error is want of memory.
pub(crate) fn copy_term(
    alloc: Global,
    rule: &ClauseDraft,
    out: &mut ClauseDraft,
    place: u32,
) -> Result<(), RuleFault>
    requires { place < (draft_of rule.now).parts }
    ensures { OnOk result (Adds out.old out.new (term_at rule.now place ∷ [])) }
{
    match rule.part(place) {
        Part::Variable { name, .. } => put_variable(out, name),
        Part::Integer(value) => put_integer(out, value),
        Part::Compound { name, count } => {
            if count == 0 {
                return put_compound(out, name, 0);
            }
            copy_parts(alloc, rule, out, place)
        }
    }
}

/// Adds the term that ends at a part of another draft, part by part. An error is want of memory.
fn copy_parts(
    alloc: Global,
    rule: &ClauseDraft,
    out: &mut ClauseDraft,
    place: u32,
) -> Result<(), RuleFault>
    requires { place < (draft_of rule.now).parts }
    ensures { OnOk result (Adds out.old out.new (term_at rule.now place ∷ [])) }
{
    let mut pending = Vec::new(alloc);
    pending.push(Copy::Term(place))?;
    while let Some(copy) = pending.pop() {
        copy_one(rule, out, &mut pending, copy)?;
    }
    Ok(())
}

/// Does one step of a copy; what comes next is at the end of the list.
fn copy_one(
    rule: &ClauseDraft,
    out: &mut ClauseDraft,
    pending: &mut Vec<Copy>,
    copy: Copy,
) -> Result<(), RuleFault>
    requires there { IsWithin rule.now copy }
    requires enough { let todo = copy ∷ reverse pending.old.items in
        AreEnough rule.now todo (length (draft_of out.old).finished) }
    ensures { let before = copy ∷ reverse pending.old.items in
        OnOk result (Copies rule.now out.old out.new before (reverse pending.new.items)) }
{
    match copy {
        Copy::Term(place) => copy_part(rule, out, pending, place),
        Copy::Name(place) => put_name(rule, out, place),
    }
}

/// Copies a variable or an integer, or makes the arguments of a name what comes next.
fn copy_part(
    rule: &ClauseDraft,
    out: &mut ClauseDraft,
    pending: &mut Vec<Copy>,
    place: u32,
) -> Result<(), RuleFault>
    requires there { place < (draft_of rule.now).parts }
    requires enough { let todo = Term place ∷ reverse pending.old.items in
        AreEnough rule.now todo (length (draft_of out.old).finished) }
    ensures { let before = Term place ∷ reverse pending.old.items in
        OnOk result (Copies rule.now out.old out.new before (reverse pending.new.items)) }
{
    match rule.part(place) {
        Part::Variable { name, .. } => put_variable(out, name),
        Part::Integer(value) => put_integer(out, value),
        Part::Compound { .. } => open_name(pending, place, rule.arguments(place)),
    }
}

/// The arguments of a name come next, and then the name.
fn open_name(pending: &mut Vec<Copy>, place: u32, arguments: &[u32]) -> Result<(), RuleFault>
    ensures { OnOk result (reverse pending.new.items
        ≡ are_terms arguments.now ++ (Name place ∷ reverse pending.old.items)) }
{
    pending.push(Copy::Name(place))?;
    push_terms(pending, arguments)?;
    Ok(())
}

/// Makes the last terms the arguments of the name at a part.
fn put_name(rule: &ClauseDraft, out: &mut ClauseDraft, place: u32) -> Result<(), RuleFault>
    requires there { place < (draft_of rule.now).parts }
    requires enough { length (arguments_at rule.now place) ≤ length (draft_of out.old).finished }
    ensures { let count = length (arguments_at rule.now place) in
        let finished = (draft_of out.old).finished in
        OnOk result (Becomes out.old out.new (taken (name_at rule.now place) count finished)) }
{
    match rule.part(place) {
        Part::Compound { name, count } => put_compound(out, name, count),
        Part::Variable { .. } => Err(RuleFault::Memory),
        Part::Integer(_) => Err(RuleFault::Memory),
    }
}

/// Puts terms at the end, the last first.
fn push_terms(pending: &mut Vec<Copy>, places: &[u32]) -> Result<(), AllocError>
    ensures { OnOk result (reverse pending.new.items ≡ are_terms places.now ++ reverse pending.old.items) }
{
    let mut left = places.len();
    while left > 0 {
        left -= 1;
        pending.push(Copy::Term(places[left]))?;
    }
    Ok(())
}

/// Adds the arguments of a part of another draft. An error is want of memory.
pub(crate) fn copy_arguments(
    alloc: Global,
    rule: &ClauseDraft,
    out: &mut ClauseDraft,
    place: u32,
) -> Result<(), RuleFault>
    requires { place < (draft_of rule.now).parts }
    ensures { let arguments = map (term_at rule.now) (arguments_at rule.now place) in
        OnOk result (Adds out.old out.new arguments) }
{
    for argument in rule.arguments(place) {
        copy_term(alloc, rule, out, *argument)?;
    }
    Ok(())
}

/// Adds the elements of a list, and answers how many there are. An error is want of memory.
pub(crate) fn copy_elements(
    alloc: Global,
    rule: &ClauseDraft,
    out: &mut ClauseDraft,
    list: u32,
) -> Result<u32, RuleFault>
    requires { list < (draft_of rule.now).parts }
    ensures listed { (items : List Written) → elements (term_at rule.now list) ≡ Some items
        → IfOk result (λ count. (length items ≡ count) × Adds out.old out.new items) }
    ensures enough { IfOk result (λ count. count ≤ length (draft_of out.new).finished) }
{
    let mut count = 0u32;
    let mut rest = list;
    while let Some(next) = cell_at(rule, rest) {
        copy_term(alloc, rule, out, next.element)?;
        rest = next.rest;
        let Some(more) = count.checked_add(1) else {
            return Err(RuleFault::Memory);
        };
        count = more;
    }
    Ok(count)
}

/// Adds a list of the elements of another one, whose rest is the new variable of that number.
pub(crate) fn put_list_before(
    alloc: Global,
    rule: &ClauseDraft,
    out: &mut ClauseDraft,
    list: u32,
    number: u32,
) -> Result<(), RuleFault>
    requires { list < (draft_of rule.now).parts }
    ensures { (items : List Written) → elements (term_at rule.now list) ≡ Some items
        → OnOk result (Adds out.old out.new (list_before items (state number) ∷ [])) }
{
    let count = copy_elements(alloc, rule, out, list)?;
    put_state(alloc, out, number)?;
    put_chain(out, b".", count)
}
