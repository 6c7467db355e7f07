//! The answers of a run, and what is told of the run beside them.

ghost use Rattle.std.specs.Prelude.{◌≡◌, ◌<◌, [], ◌∷◌, ◌++◌, length, map, take, get_or, None, OnOk, OnErr, IfOk, IfErr};

use crate::entries::EntryList;
use crate::printing::write_counts;
use and_model::{Code, Cut, Text};
use std::alloc::{AllocError, Global};
use std::snapshot::Snapshot;

/// One proof of the query that has an outcome.
pub struct Entry {
    /// The code of its tree. It is there for contracts alone.
    pub code: Snapshot<Code>,
    /// Its line, without a newline. It is there for contracts alone: what was found writes it.
    pub line: Snapshot<Text>,
    /// Whether some of its arithmetic waits forever, so that the line is no answer.
    pub floundered: bool,
    /// Where its line is kept.
    pub(crate) place: usize,
}

// By hand, so that it is proved once, here.
impl Drop for Entry {
    fn drop(self) {
        let Entry {
            code: _,
            line: _,
            floundered: _,
            place: _,
        } = self;
    }
}

/// What a run found. It keeps the allocator that it was made with.
#[derive(Drop)]
pub struct Found {
    /// How many forks were made. It stays at its last value.
    pub forks: u64,
    /// How many branches ended in failure. It stays at its last value.
    pub failed: u64,
    /// Where the search was cut off, if a branch outgrew the limit.
    pub cut: Option<Cut>,
    pub(crate) entries: EntryList,
}

impl Found {
    ghost use Rattle.and_model.specs.Output.{lines_of, last_lines};
    ghost use Rattle.and_model.specs.Listing.{line_of};
    ghost use Rattle.and_answers.specs.Kept.{entry_of, listed, outcome_with, finish_of, total};
    ghost use Rattle.and_answers.specs.Kept.{SameEnd, IsSame, Merges};

    /// Nothing was found yet. Takes no memory.
    pub fn new(alloc: Global) -> Found
        ensures entries { listed result ≡ [] }
        ensures end { (result.forks ≡ 0) × (result.failed ≡ 0) × (result.cut ≡ None) }
    {
        Found {
            forks: 0,
            failed: 0,
            cut: None,
            entries: EntryList::new(alloc),
        }
    }

    /// Puts an entry of this code, line and outcome behind the others. An error is want of memory, and hands the line
    /// back.
    pub fn add(&mut self, code: Snapshot<Code>, line: Text, floundered: bool) -> Result<(), Text>
        ensures ok { OnOk result (listed self.new
            ≡ listed self.old ++ record { code = code.value; outcome = outcome_with floundered line } ∷ []) }
        ensures end { SameEnd self.old self.new }
        ensures unchanged { OnErr result (listed self.new ≡ listed self.old) }
        ensures given_back { IfErr result (λ back. back ≡ line) }
    {
        self.entries.push(code, line, floundered)
    }

    /// The entries. Takes no memory.
    pub fn entries(&self) -> &[Entry]
        ensures { map entry_of result.now ≡ listed self.now }
    {
        self.entries.as_slice()
    }

    /// Writes the line of an entry, with a newline. After want of memory the text is spent.
    pub fn write_line(&self, text: &mut Text, place: usize) -> Result<(), AllocError>
        requires { place < length (listed self.now) }
        ensures { OnOk result (text.new
            ≡ text.old ++ get_or (map (λ e. line_of e.outcome) (listed self.now)) place [] ++ 10 ∷ []) }
    {
        self.entries.write_line(text, place)?;
        Ok(())
    }

    /// Writes the lines of the first so many entries, or of all, each with a newline. After want of memory the text is
    /// spent.
    pub fn write_lines(&self, text: &mut Text, count: usize) -> Result<(), AllocError>
        ensures { OnOk result (text.new ≡ text.old ++ lines_of (take count (listed self.now))) }
    {
        self.entries.write_lines(text, count)
    }

    /// Counts one fork more.
    pub fn count_fork(&mut self)
        ensures forks { self.new.forks ≡ total self.old.forks 1 }
        ensures failed { self.new.failed ≡ self.old.failed }
        ensures rest { (self.new.cut ≡ self.old.cut) × (listed self.new ≡ listed self.old) }
    {
        self.forks = self.forks.saturating_add(1);
    }

    /// Counts one failed branch more.
    pub fn count_failed(&mut self)
        ensures failed { self.new.failed ≡ total self.old.failed 1 }
        ensures forks { self.new.forks ≡ self.old.forks }
        ensures rest { (self.new.cut ≡ self.old.cut) × (listed self.new ≡ listed self.old) }
    {
        self.failed = self.failed.saturating_add(1);
    }

    /// What both found, the entries of `other` behind. An error is want of memory, and hands both
    /// back.
    pub fn merge(self, other: Found) -> Result<Found, (Found, Found)>
        ensures ok { IfOk result (Merges self other) }
        ensures given_back { IfErr result (λ back. IsSame self back.0 × IsSame other back.1) }
    {
        let Found {
            forks,
            failed,
            cut,
            entries,
        } = self;
        let Found {
            forks: other_forks,
            failed: other_failed,
            cut: other_cut,
            entries: others,
        } = other;
        match entries.merge(others) {
            Ok(both) => Ok(Found {
                forks: forks.saturating_add(other_forks),
                failed: failed.saturating_add(other_failed),
                cut: cut.or(other_cut),
                entries: both,
            }),
            Err((entries, others)) => Err((
                Found {
                    forks,
                    failed,
                    cut,
                    entries,
                },
                Found {
                    forks: other_forks,
                    failed: other_failed,
                    cut: other_cut,
                    entries: others,
                },
            )),
        }
    }

    /// The whole text of the run: each line, and how the run ended, with the two counts where `stats`
    /// asks for them. An error is want of memory.
    pub fn text(&self, stats: bool) -> Result<Text, AllocError>
        ensures { IfOk result (λ text. text ≡ lines_of (listed self.now) ++ last_lines (finish_of self.now stats)) }
    {
        let mut text = Text::new(self.entries.allocator());
        self.write_lines(&mut text, self.entries.as_slice().len())?;
        self.write_end(&mut text, stats)?;
        Ok(text)
    }

    /// Writes how the run ended. After want of memory the text is spent.
    fn write_end(&self, text: &mut Text, stats: bool) -> Result<(), AllocError>
        ensures { OnOk result (text.new ≡ text.old ++ last_lines (finish_of self.now stats)) }
    {
        if self.cut.is_some() {
            return text.append(b"% limit met\n");
        }
        text.append(b"% complete\n")?;
        if stats {
            write_counts(text, self.forks, self.failed)?;
        }
        Ok(())
    }
}
