//! The table of clauses, and of one query after another.

ghost use Rattle.std.specs.Prelude.{◌≡◌, IfOk, IfSome, OnOk};
ghost use Rattle.and_cells.specs.Parts.{named};
ghost use Rattle.and_clause_index.specs.Tables.{IsTableOf};
ghost use Rattle.and_clauses.specs.Asking.{Ground, StandsOn};
ghost use Rattle.and_kept_table.specs.KeptTables.{IsKeptOn};

use and_clause_index::Determinacy;
use and_model::ClauseNo;
use and_program::Loaded;
use std::alloc::{AllocError, Global};

/// The table of clauses, and what is wanted to make the calls of one query after another known in it.
pub struct KeptTable {
    table: Determinacy,
    /// The numbers of the entries of predicates, by their first clauses.
    firsts: Vec<usize>,
}

// By hand, so that it is proved once, here.
impl Drop for KeptTable {
    fn drop(self) {
        let KeptTable {
            table: _,
            firsts: _,
        } = self;
    }
}

impl KeptTable {
    /// What is compiled of a program's clauses. An error is want of memory.
    fn of(alloc: Global, loaded: &Loaded) -> Result<KeptTable, AllocError>
        ensures { (g : Ground) → StandsOn g loaded.now → IfOk result (IsKeptOn g) }
    {
        let mut table = Determinacy::empty(alloc, loaded)?;
        let mut firsts = Vec::new(alloc);
        for number in 1..loaded.clause_count() + 1 {
            table.add_calls(loaded, ClauseNo(number as u16), &mut firsts)?;
        }
        Ok(KeptTable { table, firsts })
    }

    /// Makes of it the table of a program that has the same clauses. An error is want of memory.
    fn turn_to(&mut self, loaded: &Loaded) -> Result<(), AllocError>
        requires { (g : Ground) × IsKeptOn g self.old × StandsOn g loaded.now }
        ensures kept { (g : Ground) → IsKeptOn g self.old → StandsOn g loaded.now → OnOk result (IsKeptOn g self.new) }
        ensures table { OnOk result (IsTableOf (named loaded.now) self.new.table) }
    {
        self.table.add_calls(loaded, ClauseNo(0), &mut self.firsts)?;
        Ok(())
    }

    /// The table. Takes no memory.
    pub fn table(&self) -> &Determinacy
        ensures { result.now ≡ self.now.table }
    {
        &self.table
    }
}

/// What is compiled of a program's clauses, where that is not there yet. An error is want of memory.
fn begun(alloc: Global, kept: Option<KeptTable>, loaded: &Loaded) -> Result<KeptTable, AllocError>
    ensures { (g : Ground) → IfSome kept (IsKeptOn g) → StandsOn g loaded.now → IfOk result (IsKeptOn g) }
{
    match kept {
        Some(kept) => Ok(kept),
        None => KeptTable::of(alloc, loaded),
    }
}

/// The table of a program: what was kept of the one before, which has the same clauses, goes on to it. An error is want
/// of memory.
pub fn table_for(
    alloc: Global,
    kept: Option<KeptTable>,
    loaded: &Loaded,
) -> Result<KeptTable, AllocError>
    requires { (g : Ground) × IfSome kept (IsKeptOn g) × StandsOn g loaded.now }
    ensures kept { (g : Ground) → IfSome kept (IsKeptOn g) → StandsOn g loaded.now → IfOk result (IsKeptOn g) }
    ensures table { IfOk result (λ k. IsTableOf (named loaded.now) k.table) }
{
    let mut table = begun(alloc, kept, loaded)?;
    table.turn_to(loaded)?;
    Ok(table)
}
