//! Entries, with their lines beside them.

ghost use Rattle.std.specs.Prelude.{◌≡◌, ◌<◌, ◌+◌, [], ◌∷◌, ◌++◌, List, length, map, take, get_or, All};
ghost use Rattle.std.specs.Prelude.{OnOk, OnErr, IfOk};
ghost use Rattle.std.specs.Prelude.{IfErr};
ghost use Rattle.and_model.specs.Listing;
ghost use Rattle.and_model.specs.Output.{lines_of};
ghost use Rattle.and_answers.specs.Kept.{entry_of, outcome_with};
ghost use Rattle.and_answers.specs.LinePieces.{AreKept, IsKept, moved_on};
ghost use Rattle.and_answers.specs.Merged.{IsRisen};
ghost use Rattle.and_answers.specs.declared.found.Entry.{Entry};

use crate::codes::CodeList;
use crate::cutting::{put_back, runs_of};
use crate::found::Entry;
use crate::lines::LineList;
use crate::merging::as_one;
use and_model::{Code, Text};
use std::alloc::{AllocError, Global};
use std::marker::Model;
use std::snapshot::Snapshot;

/// Entries, and their lines, in whatever order these came. It keeps the allocator that it was made with.
pub struct EntryList {
    entries: Vec<Entry>,
    lines: LineList,
}

// By hand, so that it is proved once, here.
impl Drop for EntryList {
    fn drop(self) {
        let EntryList {
            entries: _,
            lines: _,
        } = self;
    }
}

impl Model for EntryList {
    ghost use Rattle.std.specs.Prelude.{List};
    ghost use Rattle.and_answers.specs.LinePieces.{AreKept};
    ghost use Rattle.and_answers.specs.declared.found.Entry.{Entry};

    ghost Value = { List Entry };

    ghost view = { λ list. list.entries.items };

    ghost invariant = { λ list. AreKept list.lines list.entries.items };
}

impl EntryList {
    /// No entries. Takes no memory.
    pub fn new(alloc: Global) -> EntryList
        ensures { result ≡ [] }
    {
        EntryList {
            entries: Vec::new(alloc),
            lines: LineList::new(alloc),
        }
    }

    /// The allocator that it was made with.
    pub fn allocator(&self) -> Global {
        *self.entries.allocator()
    }

    /// The entries. Takes no memory.
    pub fn as_slice(&self) -> &[Entry]
        ensures { result.now ≡ self.now }
    {
        &self.entries
    }

    /// Puts an entry behind the others. An error is want of memory, and hands the line back.
    pub fn push(&mut self, code: Snapshot<Code>, line: Text, floundered: bool) -> Result<(), Text>
        ensures ok { OnOk result (map entry_of self.new
            ≡ map entry_of self.old ++ record { code = code.value; outcome = outcome_with floundered line } ∷ []) }
        ensures unchanged { OnErr result (self.new ≡ self.old) }
        ensures given_back { IfErr result (λ back. back ≡ line) }
    {
        if self.entries.reserve(1).is_err() {
            return Err(line);
        }
        let entry = Entry {
            code,
            line: Snapshot::of(&line),
            floundered,
            place: self.lines.len(),
        };
        match self.lines.push(line) {
            Ok(()) => {
                self.entries.push(entry).unwrap();
                Ok(())
            }
            Err(line) => Err(line),
        }
    }

    /// Takes the last entry off. Takes no memory.
    pub fn take_back(&mut self)
        ensures { (entries : List Listing.Entry) (entry : Listing.Entry)
            → map entry_of self.old ≡ entries ++ entry ∷ [] → map entry_of self.new ≡ entries }
    {
        self.entries.pop();
    }

    /// Those of both, the others behind. An error is want of memory, and hands both back.
    pub fn merge(self, other: EntryList) -> Result<EntryList, (EntryList, EntryList)>
        ensures ok { IfOk result (λ both. map entry_of both ≡ map entry_of self ++ map entry_of other) }
        ensures given_back { IfErr result (λ back. (back.0 ≡ self) × (back.1 ≡ other)) }
    {
        let EntryList { mut entries, lines } = self;
        let EntryList {
            entries: mut others,
            lines: more,
        } = other;
        let before = lines.len();
        if entries.reserve(others.len()).is_err() {
            return Err((
                EntryList { entries, lines },
                EntryList {
                    entries: others,
                    lines: more,
                },
            ));
        }
        match lines.joined(more) {
            Ok(lines) => {
                move_on(&mut others, before, lines.len());
                let Ok(()) = entries.append(&mut others) else {
                    unreachable!()
                };
                Ok(EntryList { entries, lines })
            }
            Err((lines, more)) => Err((
                EntryList { entries, lines },
                EntryList {
                    entries: others,
                    lines: more,
                },
            )),
        }
    }

    /// The entries in the order of their codes. An error is want of memory.
    pub fn in_order(self, codes: CodeList) -> Result<EntryList, AllocError>
        requires { map (λ (e : Listing.Entry). e.code) (map entry_of self) ≡ codes }
        ensures { IfOk result (IsRisen self) }
    {
        let EntryList { mut entries, lines } = self;
        let runs = runs_of(&mut entries, codes)?;
        let one = as_one(runs)?;
        put_back(&mut entries, one)?;
        Ok(EntryList { entries, lines })
    }

    /// Writes the line of an entry, with a newline. After want of memory the text is spent.
    pub fn write_line(&self, text: &mut Text, place: usize) -> Result<(), AllocError>
        requires { place < length self.now }
        ensures { OnOk result (text.new
            ≡ text.old ++ get_or (map (λ (e : Entry). e.line.value) self.now) place [] ++ 10 ∷ []) }
    {
        write_one(text, &self.lines, &self.entries[place])?;
        Ok(())
    }

    /// Writes the lines of the first so many entries, or of all, each with a newline. After want of memory the text is
    /// spent.
    pub fn write_lines(&self, text: &mut Text, count: usize) -> Result<(), AllocError>
        ensures { OnOk result (text.new ≡ text.old ++ lines_of (take count (map entry_of self.now))) }
    {
        write_each(text, &self.lines, first_of(&self.entries, count))?;
        Ok(())
    }
}

/// The first so many entries of these, or all.
fn first_of(entries: &[Entry], count: usize) -> &[Entry]
    ensures { result.now ≡ take count entries.now }
{
    if count < entries.len() {
        &entries[..count]
    } else {
        entries
    }
}

/// Writes the line of each entry, with a newline. After want of memory the text is spent.
fn write_each(text: &mut Text, lines: &LineList, entries: &[Entry]) -> Result<(), AllocError>
    requires { AreKept lines.now entries.now }
    ensures { OnOk result (text.new ≡ text.old ++ lines_of (map entry_of entries.now)) }
{
    for entry in entries {
        write_one(text, lines, entry)?;
    }
    Ok(())
}

/// Writes the line of an entry, with a newline. After want of memory the text is spent.
fn write_one(text: &mut Text, lines: &LineList, entry: &Entry) -> Result<(), AllocError>
    requires { IsKept lines.now entry.now }
    ensures { OnOk result (text.new ≡ text.old ++ entry.now.line.value ++ 10 ∷ []) }
{
    lines.write(text, entry.place)?;
    text.append(b"\n")?;
    Ok(())
}

/// Moves the places of entries on by so many lines, of which there are so many with theirs.
fn move_on(entries: &mut [Entry], by: usize, all: usize)
    requires { All (λ (e : Entry). by + e.place < all) entries.old }
    ensures { entries.new ≡ map (moved_on by) entries.old }
{
    for entry in entries.iter_mut() {
        entry.place += by;
    }
}
