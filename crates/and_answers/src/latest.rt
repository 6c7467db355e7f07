//! What a walk found, with the code of its last entry beside it.

ghost use Rattle.std.specs.Prelude.{◌≡◌, [], ◌∷◌, ◌++◌, map, None, OnOk, OnErr};

use crate::found::{Entry, Found};
use and_model::{Code, Cut, Text};
use std::alloc::{AllocError, Global};
use std::marker::Model;
use std::snapshot::Snapshot;

/// What a walk found, as contracts see it, and the code of the last entry, where there is one.
pub struct Latest {
    found: Found,
    code: Option<Code>,
}

// By hand, so that it is proved once, here.
impl Drop for Latest {
    fn drop(self) {
        let Latest { found: _, code: _ } = self;
    }
}

impl Model for Latest {
    ghost use Rattle.std.specs.Prelude.{◌≡◌};
    ghost use Rattle.and_answers.specs.declared.found.Found.{Found};
    ghost use Rattle.and_answers.specs.Kept.{last_code, listed};

    ghost Value = { Found };

    ghost view = { λ latest. latest.found };

    ghost invariant = { λ latest. latest.code ≡ last_code (listed latest.found) };
}

impl Latest {
    ghost use Rattle.std.specs.Option.{option_or};
    ghost use Rattle.and_answers.specs.Kept.{entry_of, last_code, listed, outcome_with, total, SameEnd};

    /// Nothing was found yet. Takes no memory.
    pub fn new(alloc: Global) -> Latest
        ensures entries { listed result ≡ [] }
        ensures end { (result.forks ≡ 0) × (result.failed ≡ 0) × (result.cut ≡ None) }
    {
        Latest {
            found: Found::new(alloc),
            code: None,
        }
    }

    /// Puts an entry of this code, line and outcome behind the others. An error is want of memory.
    pub fn add(&mut self, code: Code, line: Text, floundered: bool) -> Result<(), AllocError>
        ensures ok { OnOk result (listed self.new
            ≡ listed self.old ++ record { code = code; outcome = outcome_with floundered line } ∷ []) }
        ensures end { SameEnd self.old self.new }
        ensures unchanged { OnErr result (listed self.new ≡ listed self.old) }
    {
        match self.found.add(Snapshot::of(&code), line, floundered) {
            Ok(()) => {
                self.code = Some(code);
                Ok(())
            }
            Err(_) => Err(AllocError),
        }
    }

    /// The entries. Takes no memory.
    pub fn entries(&self) -> &[Entry]
        ensures { map entry_of result.now ≡ listed self.now }
    {
        self.found.entries()
    }

    /// Counts one fork more.
    pub fn count_fork(&mut self)
        ensures forks { self.new.forks ≡ total self.old.forks 1 }
        ensures failed { self.new.failed ≡ self.old.failed }
        ensures rest { (self.new.cut ≡ self.old.cut) × (listed self.new ≡ listed self.old) }
    {
        self.found.count_fork();
    }

    /// Counts one failed branch more.
    pub fn count_failed(&mut self)
        ensures failed { self.new.failed ≡ total self.old.failed 1 }
        ensures forks { self.new.forks ≡ self.old.forks }
        ensures rest { (self.new.cut ≡ self.old.cut) × (listed self.new ≡ listed self.old) }
    {
        self.found.count_failed();
    }

    /// Keeps where the search was cut off, unless that is known by now.
    pub fn keep_cut(&mut self, cut: Option<Cut>)
        ensures cut { self.new.cut ≡ option_or self.old.cut cut }
        ensures counts { (self.new.forks ≡ self.old.forks) × (self.new.failed ≡ self.old.failed) }
        ensures rest { listed self.new ≡ listed self.old }
    {
        if self.found.cut.is_none() {
            self.found.cut = cut;
        }
    }

    /// What was found, and the code of the last entry. Takes no memory.
    pub fn into_parts(self) -> (Found, Option<Code>)
        ensures found { result.0 ≡ self }
        ensures code { result.1 ≡ last_code (listed self) }
    {
        let Latest { found, code } = self;
        (found, code)
    }
}
