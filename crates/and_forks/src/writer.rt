//! A visitor that writes the fork tree.

ghost use Rattle.std.specs.Prelude.{ℕ, ◌≡◌, [], false, None};
ghost use Rattle.and_model.specs.Programs.{Program};
ghost use Rattle.and_visit.specs.Searched.{IsSearched};
ghost use Rattle.and_forks.specs.Told.{HasTold, has_met};
ghost use Rattle.and_forks.specs.Trees.{IsForkTree};

use crate::lines::Lines;
use crate::tree::Walk;
use and_model::{ClauseList, Code, Cut, Text};
use and_visit::Visitor;
use std::alloc::{AllocError, Global};
use std::snapshot::Snapshot;

/// Writes a line for each branch that a walk comes to, until the limit is met.
pub struct Writer {
    pub lines: Lines,
    /// Where the limit was met.
    pub met: Option<Cut>,
}

// By hand, so that it is proved once, here.
impl Drop for Writer {
    fn drop(self) {
        let Writer { lines: _, met: _ } = self;
    }
}

impl Writer {
    /// No line yet. Takes no memory.
    pub fn new(alloc: Global) -> Writer
        ensures { HasTold result [] }
    {
        Writer {
            lines: Lines::new(alloc),
            met: None,
        }
    }

    /// The fork tree, or where the limit was met.
    pub fn into_walk(self) -> Walk
        ensures { (P : Program) (limit : ℕ) → IsSearched P limit (HasTold self) (has_met self)
            → IsForkTree P limit result }
    {
        let Writer { lines, met } = self;
        match met {
            Some(cut) => Walk::Cut(cut),
            None => lines.into_walk(),
        }
    }
}

impl Visitor for Writer {
    ghost has_seen = { HasTold };

    ghost has_enough = { has_met };

    ghost wants = { λ w. false };

    ghost asks = { λ w. None };

    fn is_done(&self) -> bool {
        self.met.is_some()
    }

    fn wants_code(&self) -> bool {
        false
    }

    fn see_fork(
        &mut self,
        depth: u32,
        clauses: &ClauseList,
        heavy: Option<Cut>,
    ) -> Result<(), AllocError> {
        match heavy {
            Some(cut) => {
                self.met = Some(cut);
                Ok(())
            }
            None => self.lines.put_fork(depth, clauses),
        }
    }

    fn see_failed(&mut self, depth: u32) -> Result<(), AllocError> {
        self.lines.put_failed(depth)
    }

    fn see_cut(&mut self, _depth: u32, heavy: Cut) -> Result<(), AllocError> {
        self.met = Some(heavy);
        Ok(())
    }

    fn see_end(
        &mut self,
        depth: u32,
        _named: Snapshot<Code>,
        _code: Option<Code>,
        line: Text,
        floundered: bool,
    ) -> Result<(), AllocError> {
        self.lines.put_end(depth, &line, floundered)
    }
}
