//! Why a text is refused, and the line that says so.

ghost use Rattle.std.specs.Prelude.{◌≡◌, ◌<◌, ◌^◌, ◌-◌, ◌++◌, length, Some, IsSome, IfOk, IfSome, OnOk, is_none, codes};
ghost use Rattle.std.specs.Option.{option_map};
ghost use Rattle.and_language.specs.Refusals.{fault_at};
ghost use Rattle.and_language.specs.Refusals.{cause_of as cause_of_fault};
ghost use Rattle.and_judging.specs.Faults.{what_of};
ghost use Rattle.and_judging.specs.Faults.{fault_of as fault_of_table};
ghost use Rattle.and_lex.specs.Views.{fault_of};
ghost use Rattle.and_reader.specs.Causes.{cause_of, refusal_of, IsSealRefusal};
ghost use Rattle.and_reader.specs.RefusalLine.{what_text, predicate_text, cause_text, refusal_line};

use crate::lines::line_at;
use and_clauses::{SealFault, TableFault, What};
use and_lex::LexFault;
use and_model::Text;
use and_quoting::write_name;
use itoa::Buffer;
use std::alloc::{AllocError, Global};

/// Why a text is refused.
#[derive(Drop, Debug)]
pub enum Cause {
    /// The text before the place can be continued to a text of the grammar, and with what stands
    /// there it can't; or the last clause is not ended.
    Syntax,
    /// What stands at the place is not UTF-8.
    NotText,
    /// The number is beyond 64 bits.
    TooWide,
    /// There is too much of something.
    TooBig(What),
    /// Pure clauses have no such thing.
    NotPure,
    /// The head has the name and number of arguments of what already means something else.
    Redefines { name: Text, arity: u8 },
    /// What is called has no clause.
    Unknown { name: Text, arity: u8 },
    NoQuery,
    SecondQuery,
    /// Want of memory. It says nothing of the text.
    Memory,
}

impl From<AllocError> for Cause {
    ghost use Rattle.and_reader.specs.declared.refusal.Cause.TheVariants.{Memory};

    ghost from_gives = { λ _ cause. cause ≡ Memory };

    fn from(_error: AllocError) -> Cause {
        Cause::Memory
    }
}

/// A cause, and the line that it stands on, from 1 on.
#[derive(Debug)]
pub struct ReadRefusal {
    pub line: u32,
    pub cause: Cause,
}

// By hand, so that it is proved once, here.
impl Drop for ReadRefusal {
    fn drop(self) {
        let ReadRefusal { line: _, cause: _ } = self;
    }
}

impl ReadRefusal {
    /// Whether memory was wanting, which says nothing of the text.
    pub fn is_memory(&self) -> bool
        ensures { result ≡ is_none (refusal_of self.now) }
    {
        matches!(self.cause, Cause::Memory)
    }
}

/// The cause that a table's fault is.
pub(crate) fn table_cause(fault: TableFault) -> Cause
    ensures { cause_of result ≡ option_map cause_of_fault (fault_of_table fault) }
{
    match fault {
        TableFault::SecondQuery => Cause::SecondQuery,
        TableFault::NotPure => Cause::NotPure,
        TableFault::Redefines { name, arity } => Cause::Redefines { name, arity },
        TableFault::TooBig { what } => Cause::TooBig(what),
        TableFault::Memory => Cause::Memory,
    }
}

/// The refusal that a token's fault is.
pub(crate) fn fault_refusal(bytes: &[u8], fault: LexFault) -> ReadRefusal
    requires { length bytes.now < 2 ^ 32 - 1 }
    ensures { refusal_of result ≡ Some (fault_at bytes.now (fault_of fault)) }
{
    let (at, cause) = match fault {
        LexFault::Syntax { at } => (at, Cause::Syntax),
        LexFault::NotText { at } => (at, Cause::NotText),
        LexFault::TooWide { at } => (at, Cause::TooWide),
        LexFault::NotPure { at } => (at, Cause::NotPure),
    };
    ReadRefusal {
        line: line_at(bytes, at),
        cause,
    }
}

/// The refusal of a whole table.
pub(crate) fn seal_refusal(bytes: &[u8], fault: SealFault) -> ReadRefusal
    requires { length bytes.now < 2 ^ 32 - 1 }
    ensures { IfSome (refusal_of result) (IsSealRefusal bytes.now fault) }
{
    match fault {
        SealFault::NoQuery => ReadRefusal {
            line: line_at(bytes, bytes.len()),
            cause: Cause::NoQuery,
        },
        SealFault::Unknown { name, arity, line } => ReadRefusal {
            line,
            cause: Cause::Unknown { name, arity },
        },
        SealFault::Memory => ReadRefusal {
            line: 1,
            cause: Cause::Memory,
        },
    }
}

/// Writes the name and number of arguments of a predicate.
fn write_predicate(text: &mut Text, name: &Text, arity: u8) -> Result<(), AllocError>
    ensures { OnOk result (text.new ≡ text.old ++ predicate_text name.now arity) }
{
    write_name(text, name.bytes())?;
    text.append(b"/")?;
    text.append(Buffer::new().format(arity).as_bytes())
}

/// What there is too much of.
fn what_text(what: What) -> &'static [u8]
    ensures { result.now ≡ codes "too big: " ++ what_text (what_of what) }
{
    match what {
        What::Source => b"too big: source",
        What::Clauses => b"too big: clauses",
        What::Arguments => b"too big: arguments",
        What::Variables => b"too big: variables",
        What::Nodes => b"too big: nodes",
        What::Nesting => b"too big: nesting",
    }
}

/// Writes a cause.
fn write_cause(text: &mut Text, cause: &Cause) -> Result<(), AllocError>
    ensures { OnOk result (IfSome (cause_of cause.now) (λ c. text.new ≡ text.old ++ cause_text c)) }
{
    match cause {
        Cause::Syntax => text.append(b"syntax"),
        Cause::NotText => text.append(b"not text"),
        Cause::TooWide => text.append(b"number too wide"),
        Cause::TooBig(what) => text.append(what_text(*what)),
        Cause::NotPure => text.append(b"not pure"),
        Cause::Redefines { name, arity } => {
            text.append(b"redefines ")?;
            write_predicate(text, name, *arity)
        }
        Cause::Unknown { name, arity } => {
            text.append(b"unknown ")?;
            write_predicate(text, name, *arity)
        }
        Cause::NoQuery => text.append(b"no query"),
        Cause::SecondQuery => text.append(b"second query"),
        Cause::Memory => Ok(()),
    }
}

/// The line that says why a text is refused, with its newline. The cause is not want of memory.
pub fn refusal_text(alloc: Global, refusal: &ReadRefusal) -> Result<Text, AllocError>
    requires { IsSome (refusal_of refusal.now) }
    ensures { IfOk result (λ t. IfSome (refusal_of refusal.now) (λ r. t ≡ refusal_line r)) }
{
    let mut text = Text::of(alloc, b"error: line ")?;
    text.append(Buffer::new().format(refusal.line).as_bytes())?;
    text.append(b": ")?;
    write_cause(&mut text, &refusal.cause)?;
    text.append(b"\n")?;
    Ok(text)
}
