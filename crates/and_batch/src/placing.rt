//! Texts in the order of their jobs' numbers.

ghost use Rattle.std.specs.Prelude.{◌≡◌, ◌+◌, ◌<◌, ◌≤◌, length, replicate, None, All, IfOk};
ghost use Rattle.and_batch.specs.Balance.{below};
ghost use Rattle.and_batch.specs.Working.{IsEachOnce, LieByNumber, AreFilled, AreTextsOf, IsByNumber};

use crate::job::Done;
use crate::list::TextList;
use and_model::Text;
use std::alloc::{AllocError, Global};

/// So many places with nothing in them. An error is want of memory.
fn empty_slots(alloc: Global, count: u32) -> Result<Vec<Option<Text>>, AllocError>
    ensures { IfOk result (λ slots. slots.items ≡ replicate count None) }
{
    let mut slots = Vec::with_capacity(alloc, count as usize)?;
    for _ in 0..count {
        slots.push(None)?;
    }
    Ok(slots)
}

/// Puts each text at the place of its number.
fn place(slots: &mut [Option<Text>], mut dones: Vec<Done>)
    requires once { IsEachOnce (below (length slots.old)) dones.items }
    requires empty { slots.old ≡ replicate (length slots.old) None }
    ensures len { length slots.new ≡ length slots.old }
    ensures by_number { LieByNumber dones.items slots.new }
    ensures filled { AreFilled slots.new }
{
    while let Some(done) = dones.pop() {
        let number = done.number() as usize;
        slots[number] = Some(done.into_text());
    }
}

/// The texts of all places, in order. An error is want of memory.
fn texts_of(alloc: Global, mut slots: Vec<Option<Text>>) -> Result<TextList, AllocError>
    requires { AreFilled slots.items }
    ensures { IfOk result (AreTextsOf slots.items) }
{
    let mut texts = Vec::with_capacity(alloc, slots.len())?;
    while let Some(slot) = slots.pop() {
        let Some(text) = slot else { unreachable!() };
        texts.push(text)?;
    }
    texts.reverse();
    Ok(TextList::of_items(texts))
}

/// The texts of all jobs whose numbers are below the count, in the order of the numbers. An error is want of memory.
pub fn in_order(alloc: Global, count: u32, dones: Vec<Done>) -> Result<TextList, AllocError>
    requires { IsEachOnce (below count) dones.items }
    ensures len { IfOk result (λ texts. length texts ≡ count) }
    ensures by_number { IfOk result (IsByNumber dones.items) }
{
    let mut slots = empty_slots(alloc, count)?;
    place(slots.as_mut_slice(), dones);
    texts_of(alloc, slots)
}
