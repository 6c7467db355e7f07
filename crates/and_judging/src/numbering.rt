//! The numbers of names in a table, and of variables in a clause.

ghost use Rattle.std.specs.Prelude.{◌≡◌, ◌<◌, ◌+◌, ◌^◌, [], ◌++◌, length, IfOk, OnOk, IsTrue, reverse, true};
ghost use Rattle.and_model.specs.Programs.{builtin_names};
ghost use Rattle.and_syntax.specs.Written.{place, has, including, named};
ghost use Rattle.and_syntax.specs.Tables.{disjunction_name, with_disjunctions};
ghost use Rattle.and_judging.specs.Places.{places_from, places_in};
ghost use Rattle.and_drafts.specs.Variables.{AllNumbered, IsNumbered};
ghost use Rattle.and_drafts.specs.Parts.{part_shapes, part_shape, arguments_of, written_at, PartsFall};
ghost use Rattle.and_program.specs.Nodes.{names_of};
ghost use Rattle.and_drafts.specs.Numbered.{bytes_of, including_all, named_by, met_by, met_with, Extends};

use crate::guesses::Guesses;
use and_drafts::DraftPart;
use and_model::builtins::BUILT_IN;
use and_model::{NameNo, builtins};
use and_program::ShortText;
use indexmap::IndexSet;
use std::alloc::{AllocError, Global};

/// The names that every table begins with, by their numbers.
pub fn built_in_names(alloc: Global) -> Result<IndexSet<Vec<u8>>, AllocError>
    ensures { IfOk result (λ names. names_of names.keys ≡ builtin_names) }
{
    let built_in = BUILT_IN;
    name_set(alloc, &built_in)
}

/// The names of the rows of a table, numbered as they first occur.
fn name_set(alloc: Global, rows: &[(u32, &[u8])]) -> Result<IndexSet<Vec<u8>>, AllocError>
    ensures { IfOk result (λ names. names_of names.keys ≡ including_all [] (bytes_of rows.now)) }
{
    let mut names = IndexSet::new(alloc);
    for row in rows {
        note_name(alloc, &mut names, row.1)?;
    }
    Ok(names)
}

/// The number that a name mostly has, where it is one of the built-in names that are met most often. Nothing is
/// promised of it. Takes no memory.
fn usual_number(name: &[u8]) -> usize {
    match name {
        [b','] => builtins::CONJUNCTION as usize,
        [b';'] => builtins::DISJUNCTION as usize,
        [b'='] => builtins::EQUAL as usize,
        [b'.'] => builtins::POINT as usize,
        [b':', b'-'] => builtins::NECK as usize,
        _ => 0,
    }
}

/// Numbers a name, where it has no number yet, and answers its number. An error is want of memory.
fn note_name(alloc: Global, names: &mut IndexSet<Vec<u8>>, name: &[u8]) -> Result<usize, AllocError>
    ensures ok { OnOk result (names_of names.new.keys ≡ including (names_of names.old.keys) name.now) }
    ensures number { IfOk result (λ n. n ≡ place name.now (names_of names.new.keys)) }
    ensures kept { Extends (names_of names.old.keys) (names_of names.new.keys) }
{
    let usual = usual_number(name);
    if is_named(names, usual, name) {
        return Ok(usual);
    }
    if let Some(number) = names.get_index_of(name) {
        return Ok(number);
    }
    let number = names.len();
    names.insert(Vec::from_slice(alloc, name)?)?;
    Ok(number)
}

/// The number of a name, or how many names there are where it has none. Takes no memory.
fn find_number(names: &IndexSet<Vec<u8>>, name: &[u8]) -> usize
    ensures { result ≡ place name.now (names_of names.now.keys) }
{
    names.get_index_of(name).unwrap_or(names.len())
}

/// The number of the name of a part, or how many names there are where it has none. It is looked for only where it is
/// not the guess for that part. Takes no memory.
pub fn number_of(names: &IndexSet<Vec<u8>>, guesses: &Guesses, part: u32, name: &[u8]) -> usize
    ensures { result ≡ place name.now (names_of names.now.keys) }
{
    match guesses.of(part) {
        Some(guess) => checked_number(names, guess, name),
        None => find_number(names, name),
    }
}

/// The number of a name, for which there is a guess.
fn checked_number(names: &IndexSet<Vec<u8>>, guess: usize, name: &[u8]) -> usize
    ensures { result ≡ place name.now (names_of names.now.keys) }
{
    if is_named(names, guess, name) {
        guess
    } else {
        find_number(names, name)
    }
}

/// Whether a name has that number.
fn is_named(names: &IndexSet<Vec<u8>>, number: usize, name: &[u8]) -> bool
    ensures number { IsTrue result → place name.now (names_of names.now.keys) ≡ number }
    ensures there { IsTrue result → has name.now (names_of names.now.keys) ≡ true }
{
    let _count = names.len();
    match names.get_index(number) {
        Some(there) => name == there.as_slice(),
        None => false,
    }
}

/// Numbers the names of a term as they are first seen from left to right. An error is want of
/// memory; names may then have been numbered.
pub fn note_names(
    alloc: Global,
    names: &mut IndexSet<Vec<u8>>,
    guesses: &mut Guesses,
    pending: &mut Vec<u32>,
    parts: &[DraftPart],
    root: u32,
) -> Result<(), AllocError>
    requires there { root < length parts.now }
    requires falls { PartsFall 0 (part_shapes parts.now) }
    ensures ok { OnOk result (names_of names.new.keys
        ≡ named (names_of names.old.keys) (written_at (part_shapes parts.now) root)) }
    ensures kept { Extends (names_of names.old.keys) (names_of names.new.keys) }
{
    guesses.make_room(parts.len())?;
    pending.clear();
    pending.push(root)?;
    while let Some(number) = pending.pop() {
        let part = &parts[number as usize];
        let name = note_part(alloc, names, pending, part)?;
        guesses.note(number, name);
    }
    Ok(())
}

/// Numbers the name of a part, and makes its arguments the parts that come next.
fn note_part(
    alloc: Global,
    names: &mut IndexSet<Vec<u8>>,
    pending: &mut Vec<u32>,
    part: &DraftPart,
) -> Result<usize, AllocError>
    ensures names { OnOk result (names_of names.new.keys ≡ named_by (names_of names.old.keys) (part_shape part.now)) }
    ensures pending { OnOk result (reverse pending.new.items
        ≡ arguments_of (part_shape part.now) ++ reverse pending.old.items) }
    ensures kept { Extends (names_of names.old.keys) (names_of names.new.keys) }
{
    match part {
        DraftPart::Compound { name, arguments } => {
            let number = note_name(alloc, names, name.bytes())?;
            push_reversed(pending, arguments.as_slice())?;
            Ok(number)
        }
        DraftPart::Variable(_, _) => Ok(0),
        DraftPart::Integer(_) => Ok(0),
    }
}

/// Puts numbers at the end, the last first.
pub(crate) fn push_reversed(pending: &mut Vec<u32>, numbers: &[u32]) -> Result<(), AllocError>
    ensures { OnOk result (reverse pending.new.items ≡ numbers.now ++ reverse pending.old.items) }
{
    let mut left = numbers.len();
    while left > 0 {
        left -= 1;
        pending.push(numbers[left])?;
    }
    Ok(())
}

/// The written names of the variables of a draft with these parts, by their numbers. So many are expected, of which
/// nothing has to be true. An error is want of memory.
pub fn written_names(
    alloc: Global,
    parts: &[DraftPart],
    expected: usize,
) -> Result<Vec<ShortText>, AllocError>
    requires numbered { AllNumbered [] parts.now }
    requires room { length parts.now < 2 ^ 32 }
    ensures { IfOk result (λ names. names.items ≡ met_by [] (part_shapes parts.now)) }
{
    let mut names = Vec::with_capacity(alloc, expected)?;
    for part in parts {
        note_variable(alloc, &mut names, part)?;
    }
    Ok(names)
}

/// Adds the name of a part's variable, where it is the next one.
fn note_variable(
    alloc: Global,
    names: &mut Vec<ShortText>,
    part: &DraftPart,
) -> Result<(), AllocError>
    requires { IsNumbered names.old.items part.now }
    ensures { OnOk result (names.new.items ≡ met_with names.old.items (part_shape part.now)) }
{
    match part {
        DraftPart::Variable(name, number) => {
            if *number as usize == names.len() {
                names.push(ShortText::of(alloc, name.bytes())?)?;
            }
            Ok(())
        }
        DraftPart::Integer(_) => Ok(()),
        DraftPart::Compound {
            name: _,
            arguments: _,
        } => Ok(()),
    }
}

/// Numbers the names of the predicates to which `count` disjunctions are lifted, the first of which is that number, and
/// answers the numbers of these names. An error is want of memory; names may then have been numbered.
pub fn note_disjunctions(
    alloc: Global,
    names: &mut IndexSet<Vec<u8>>,
    first: usize,
    count: usize,
) -> Result<Vec<NameNo>, AllocError>
    requires few_names { length (names_of names.old.keys) + count < 2 ^ 32 }
    requires few { first + count < 2 ^ 64 }
    ensures names { OnOk result (names_of names.new.keys ≡ with_disjunctions first count (names_of names.old.keys)) }
    ensures numbers { IfOk result (λ ns. places_in ns.items ≡ places_from (names_of names.new.keys) first count) }
    ensures kept { Extends (names_of names.old.keys) (names_of names.new.keys) }
{
    let mut numbers = Vec::new(alloc);
    for place in 0..count {
        let number = note_disjunction(alloc, names, first + place)?;
        numbers.push(NameNo(number as u32))?;
    }
    Ok(numbers)
}

/// Numbers the name of the predicate to which a disjunction is lifted, the byte FF and its number, and answers that
/// name's number. An error is want of memory.
pub(crate) fn note_disjunction(
    alloc: Global,
    names: &mut IndexSet<Vec<u8>>,
    disjunction: usize,
) -> Result<usize, AllocError>
    ensures names { OnOk result (names_of names.new.keys
        ≡ including (names_of names.old.keys) (disjunction_name disjunction)) }
    ensures number { IfOk result (λ n. n ≡ place (disjunction_name disjunction) (names_of names.new.keys)) }
    ensures kept { Extends (names_of names.old.keys) (names_of names.new.keys) }
{
    let mut name = Vec::new(alloc);
    name.push(0xFF)?;
    name.extend_from_slice(itoa::Buffer::new().format(disjunction).as_bytes())?;
    note_new_name(names, name)
}

/// Numbers a name, which mostly has no number yet, and answers its number. An error is want of memory.
fn note_new_name(names: &mut IndexSet<Vec<u8>>, name: Vec<u8>) -> Result<usize, AllocError>
    ensures ok { OnOk result (names_of names.new.keys ≡ including (names_of names.old.keys) name.items) }
    ensures number { IfOk result (λ n. n ≡ place name.items (names_of names.new.keys)) }
    ensures kept { Extends (names_of names.old.keys) (names_of names.new.keys) }
{
    let (number, _) = names.insert_full(name)?;
    Ok(number)
}
