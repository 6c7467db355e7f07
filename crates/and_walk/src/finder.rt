//! Visitors that keep what is found.

ghost use Rattle.std.specs.Prelude.{◌≡◌, [], true, false, map};
ghost use Rattle.std.specs.Option.{option_or};
ghost use Rattle.and_answers.specs.Kept.{entry_of, listed};
ghost use Rattle.and_answers.specs.declared.found.Found.{Found};
ghost use Rattle.and_search_laws.specs.Ended.{SameButCut};
ghost use Rattle.and_walk.specs.Finding.{FindsSoFar, is_enough};

use and_answers::{Entry, Found, Latest};
use and_model::{ClauseList, Code, Cut, Text};
use and_visit::Visitor;
use std::alloc::{AllocError, Global};
use std::snapshot::Snapshot;

/// Keeps what is found, until there are so many entries, if a number of entries is asked for.
#[derive(Drop)]
pub struct Finder {
    pub found: Found,
    pub most: Option<usize>,
}

/// The same with the code of the last entry.
#[derive(Drop)]
pub struct Coder {
    pub latest: Latest,
    pub most: Option<usize>,
}

/// Keeps a cut, unless there is one.
fn keep_cut(found: &mut Found, cut: Option<Cut>)
    ensures same { SameButCut found.old found.new }
    ensures cut { found.new.cut ≡ option_or found.old.cut cut }
{
    if found.cut.is_none() {
        found.cut = cut;
    }
}

/// Whether there are as many entries as are asked for, if any number is.
fn are_enough(most: Option<usize>, entries: &[Entry]) -> bool
    ensures { (found : Found) → listed found ≡ map entry_of entries.now → result ≡ is_enough most found }
{
    match most {
        Some(count) => entries.len() >= count,
        None => false,
    }
}

impl Finder {
    /// Nothing was found yet. Takes no memory.
    pub fn new(alloc: Global, most: Option<usize>) -> Finder
        ensures found { FindsSoFar result.most result.found [] }
        ensures most { result.most ≡ most }
    {
        Finder {
            found: Found::new(alloc),
            most,
        }
    }
}

impl Coder {
    /// Nothing was found yet. Takes no memory.
    pub fn new(alloc: Global, most: Option<usize>) -> Coder
        ensures found { FindsSoFar result.most result.latest [] }
        ensures most { result.most ≡ most }
    {
        Coder {
            latest: Latest::new(alloc),
            most,
        }
    }
}

impl Visitor for Finder {
    ghost has_seen = { λ f. FindsSoFar f.most f.found };

    ghost has_enough = { λ f. is_enough f.most f.found };

    ghost wants = { λ f. false };

    ghost asks = { λ f. f.most };

    fn is_done(&self) -> bool {
        are_enough(self.most, self.found.entries())
    }

    fn wants_code(&self) -> bool {
        false
    }

    fn see_fork(
        &mut self,
        _depth: u32,
        _clauses: &ClauseList,
        heavy: Option<Cut>,
    ) -> Result<(), AllocError> {
        self.found.count_fork();
        keep_cut(&mut self.found, heavy);
        Ok(())
    }

    fn see_failed(&mut self, _depth: u32) -> Result<(), AllocError> {
        self.found.count_failed();
        Ok(())
    }

    fn see_cut(&mut self, _depth: u32, heavy: Cut) -> Result<(), AllocError> {
        keep_cut(&mut self.found, Some(heavy));
        Ok(())
    }

    fn see_end(
        &mut self,
        _depth: u32,
        named: Snapshot<Code>,
        _code: Option<Code>,
        line: Text,
        floundered: bool,
    ) -> Result<(), AllocError> {
        match self.found.add(named, line, floundered) {
            Ok(()) => Ok(()),
            Err(_) => Err(AllocError),
        }
    }
}

impl Visitor for Coder {
    ghost has_seen = { λ c. FindsSoFar c.most c.latest };

    ghost has_enough = { λ c. is_enough c.most c.latest };

    ghost wants = { λ c. true };

    ghost asks = { λ c. c.most };

    fn is_done(&self) -> bool {
        are_enough(self.most, self.latest.entries())
    }

    fn wants_code(&self) -> bool {
        true
    }

    fn see_fork(
        &mut self,
        _depth: u32,
        _clauses: &ClauseList,
        heavy: Option<Cut>,
    ) -> Result<(), AllocError> {
        self.latest.count_fork();
        self.latest.keep_cut(heavy);
        Ok(())
    }

    fn see_failed(&mut self, _depth: u32) -> Result<(), AllocError> {
        self.latest.count_failed();
        Ok(())
    }

    fn see_cut(&mut self, _depth: u32, heavy: Cut) -> Result<(), AllocError> {
        self.latest.keep_cut(Some(heavy));
        Ok(())
    }

    fn see_end(
        &mut self,
        _depth: u32,
        _named: Snapshot<Code>,
        code: Option<Code>,
        line: Text,
        floundered: bool,
    ) -> Result<(), AllocError> {
        match code {
            Some(code) => self.latest.add(code, line, floundered),
            None => Err(AllocError),
        }
    }
}
