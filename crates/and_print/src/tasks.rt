//! What is still to be written of a term, task by task, so that no call nests as deep as a term.

ghost use Rattle.std.specs.Prelude.{◌≡◌, ◌++◌, ◌∷◌, [], IfNone, IfOk, IfSome, OnOk};
ghost use Rattle.std.specs.Fmt.{decimal, signed_decimal};
ghost use Rattle.and_print.specs.Tasks.{in_hand, tasks_left};

use crate::roots::Arguments;
use and_model::{Ref, Text};
use itoa::Buffer;
use std::alloc::AllocError;

/// What is still to be written when a term is.
#[derive(Clone, Copy)]
pub(crate) enum Task {
    /// A term. It is in hand, and none stands on the stack.
    Whole(Ref),
    /// The tail of a list after an element, and the bracket behind it.
    Tail(Ref),
    /// The arguments after those that are written, and the bracket behind them.
    Rest(Arguments),
    /// The bracket behind a list that ends in another term.
    Close,
}

/// What is left of a term that was begun: a structure in it, and what is behind that.
#[derive(Clone, Copy)]
pub(crate) struct Begun {
    pub structure: Ref,
    /// The arguments after the structure, where it is an argument; `None` where it is the term.
    pub rest: Option<Arguments>,
}

/// Writes a number. After want of memory the text is spent.
#[inline(always)]
pub(crate) fn write_number(out: &mut Text, number: i64) -> Result<(), AllocError>
    ensures { OnOk result (out.new ≡ out.old ++ signed_decimal number) }
{
    match u8::try_from(number) {
        Ok(small) => write_small(out, small),
        Err(_) => write_large(out, number),
    }
}

/// Writes a small number. After want of memory the text is spent.
fn write_small(out: &mut Text, number: u8) -> Result<(), AllocError>
    ensures { OnOk result (out.new ≡ out.old ++ decimal number) }
{
    if number < 10 {
        return out.append(&[b'0' + number]);
    }
    if number < 100 {
        return out.append(&[b'0' + number / 10, b'0' + number % 10]);
    }
    write_large(out, i64::from(number))
}

/// Writes a number of any size. After want of memory the text is spent.
#[inline(never)]
fn write_large(out: &mut Text, number: i64) -> Result<(), AllocError>
    ensures { OnOk result (out.new ≡ out.old ++ signed_decimal number) }
{
    out.append(Buffer::new().format(number).as_bytes())
}

/// Puts what is left of a term behind a structure in it on the stack, and hands the structure back.
/// After want of memory the stack is spent.
#[inline(always)]
pub(crate) fn hand_over(
    work: &mut Vec<Task>,
    left: Option<Begun>,
) -> Result<Option<Ref>, AllocError>
    ensures { IfOk result (λ hand. work.new.items ++ in_hand hand ≡ work.old.items ++ tasks_left left) }
{
    let Some(begun) = left else {
        return Ok(None);
    };
    if let Some(rest) = begun.rest {
        work.push(Task::Rest(rest))?;
    }
    Ok(Some(begun.structure))
}

/// The term in hand, or else the task that is taken off the stack. Takes no memory.
#[inline(always)]
pub(crate) fn next_of(work: &mut Vec<Task>, hand: Option<Ref>) -> Option<Task>
    ensures some { IfSome result (λ task. work.old.items ++ in_hand hand ≡ work.new.items ++ task ∷ []) }
    ensures none { IfNone result (work.old.items ++ in_hand hand ≡ []) }
{
    match hand {
        Some(term) => Some(Task::Whole(term)),
        None => work.pop(),
    }
}
