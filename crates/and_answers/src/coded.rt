//! What a run found, with the codes of the entries beside them.

ghost use Rattle.std.specs.Prelude.{◌≡◌, [], ◌∷◌, ◌++◌, None, OnOk, OnErr, IfOk};

use crate::codes::CodeList;
use crate::found::Found;
use and_model::{Code, Cut, Text};
use std::alloc::{AllocError, Global};
use std::marker::Model;
use std::snapshot::Snapshot;

/// What a run found, as contracts see it, and the code of each entry beside it, so that the entries can be put in
/// order. It keeps the allocator that it was made with.
pub struct Coded {
    found: Found,
    codes: CodeList,
}

// By hand, so that it is proved once, here.
impl Drop for Coded {
    fn drop(self) {
        let Coded { found: _, codes: _ } = self;
    }
}

impl Model for Coded {
    ghost use Rattle.and_answers.specs.declared.found.Found.{Found};
    ghost use Rattle.and_answers.specs.Kept.{AreCodesOf};

    ghost Value = { Found };

    ghost view = { λ coded. coded.found };

    ghost invariant = { λ coded. AreCodesOf coded.found coded.codes };
}

impl Coded {
    ghost use Rattle.std.specs.Option.{option_or};
    ghost use Rattle.and_answers.specs.Kept.{last_code_or, listed, outcome_with, total, SameEnd, Merges};
    ghost use Rattle.and_answers.specs.Order.{HasDistinctCodes, InOrder};
    ghost use Rattle.and_answers.specs.Tails.{BeginAlike};

    /// Nothing was found yet. Takes no memory.
    pub fn new(alloc: Global) -> Coded
        ensures entries { listed result ≡ [] }
        ensures end { (result.forks ≡ 0) × (result.failed ≡ 0) × (result.cut ≡ None) }
    {
        Coded {
            found: Found::new(alloc),
            codes: CodeList::new(alloc),
        }
    }

    /// Puts an entry of this code, line and outcome behind the others. It has so many first clauses from the code of
    /// the last entry, as far as that is known: from there on they are compared. An error is want of memory.
    pub fn add(
        &mut self,
        common: usize,
        code: &Code,
        line: Text,
        floundered: bool,
    ) -> Result<(), AllocError>
        requires { BeginAlike (last_code_or [] (listed self.old)) code.now common }
        ensures ok { OnOk result (listed self.new
            ≡ listed self.old ++ record { code = code.now; outcome = outcome_with floundered line } ∷ []) }
        ensures end { SameEnd self.old self.new }
        ensures unchanged { OnErr result (listed self.new ≡ listed self.old) }
    {
        if self
            .found
            .add(Snapshot::of(code), line, floundered)
            .is_err()
        {
            return Err(AllocError);
        }
        match self.codes.push(common, code) {
            Ok(()) => Ok(()),
            Err(AllocError) => {
                self.found.entries.take_back();
                Err(AllocError)
            }
        }
    }

    /// Counts one fork more.
    pub fn count_fork(&mut self)
        ensures forks { self.new.forks ≡ total self.old.forks 1 }
        ensures failed { self.new.failed ≡ self.old.failed }
        ensures rest { (self.new.cut ≡ self.old.cut) × (listed self.new ≡ listed self.old) }
    {
        self.found.count_fork();
    }

    /// Counts one failed branch more.
    pub fn count_failed(&mut self)
        ensures failed { self.new.failed ≡ total self.old.failed 1 }
        ensures forks { self.new.forks ≡ self.old.forks }
        ensures rest { (self.new.cut ≡ self.old.cut) × (listed self.new ≡ listed self.old) }
    {
        self.found.count_failed();
    }

    /// Keeps where the search was cut off, unless that is known by now.
    pub fn keep_cut(&mut self, cut: Option<Cut>)
        ensures cut { self.new.cut ≡ option_or self.old.cut cut }
        ensures counts { (self.new.forks ≡ self.old.forks) × (self.new.failed ≡ self.old.failed) }
        ensures rest { listed self.new ≡ listed self.old }
    {
        if self.found.cut.is_none() {
            self.found.cut = cut;
        }
    }

    /// What both found, the entries of `other` behind. An error is want of memory.
    pub fn merge(self, other: Coded) -> Result<Coded, AllocError>
        ensures { IfOk result (Merges self other) }
    {
        let Coded { found, codes } = self;
        let Coded {
            found: others,
            codes: behind,
        } = other;
        let codes = codes.joined(behind)?;
        match found.merge(others) {
            Ok(found) => Ok(Coded { found, codes }),
            Err(_) => Err(AllocError),
        }
    }

    /// What was found with the entries in the lexicographic order of their codes, which are gone then. An error is
    /// want of memory.
    pub fn in_order(self) -> Result<Found, AllocError>
        requires { HasDistinctCodes (listed self) }
        ensures { IfOk result (λ found. InOrder (listed self) (listed found) × SameEnd self found) }
    {
        let Coded { found, codes } = self;
        let Found {
            forks,
            failed,
            cut,
            entries,
        } = found;
        Ok(Found {
            forks,
            failed,
            cut,
            entries: entries.in_order(codes)?,
        })
    }
}
