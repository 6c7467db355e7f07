//! Candidates of a goal that is to be forked, parted by their weight.

ghost use Rattle.std.specs.Prelude.{◌≡◌, ◌≤◌, ◌++◌, ◌∷◌, [], cond, filter, length, All, IfOk, OnOk};
ghost use Rattle.and_model.specs.declared.numbers.ClauseNo.{ClauseNo};
ghost use Rattle.and_cells.specs.Parts.{named};
ghost use Rattle.and_branch_parts.specs.Forking.{fits_in, first_other, with_other};

use and_cells::{Naming, PlainCells};
use and_model::{ClauseList, ClauseNo};
use and_program::Loaded;
use std::alloc::{AllocError, Global};

/// Clauses, parted by their weight.
#[derive(Drop)]
pub struct Parted {
    /// Those that fit.
    pub fitting: ClauseList,
    /// The first that does not.
    pub heavy: Option<ClauseNo>,
}

impl Parted {
    /// Adds a clause behind the others. An error is want of memory.
    fn add(&mut self, clause: ClauseNo, fits: bool) -> Result<(), AllocError>
        ensures fitting { OnOk result (self.new.fitting ≡ self.old.fitting ++ cond fits (clause ∷ []) []) }
        ensures heavy { OnOk result (self.new.heavy ≡ with_other self.old.heavy clause fits) }
    {
        if fits {
            return match self.fitting.push(clause) {
                Ok(()) => Ok(()),
                Err(_) => Err(AllocError),
            };
        }
        if self.heavy.is_none() {
            self.heavy = Some(clause);
        }
        Ok(())
    }
}

/// Whether the row with a frame for the clause is within the limit.
pub fn fits<N: Naming>(loaded: &Loaded, cells: &PlainCells<N>, clause: ClauseNo, limit: u32) -> bool
    requires program { N.program ≡ named loaded.now }
    requires clause { clause.0 ≤ length N.program.program.clauses }
    requires room { length cells.now ≤ limit }
    ensures { result ≡ fits_in N.program limit cells.now clause }
{
    loaded.weight(clause) <= limit - cells.len()
}

/// Parts clauses by their weight. An error is want of memory.
pub fn part<N: Naming>(
    alloc: Global,
    loaded: &Loaded,
    cells: &PlainCells<N>,
    clauses: &ClauseList,
    limit: u32,
) -> Result<Parted, AllocError>
    requires program { N.program ≡ named loaded.now }
    requires clauses { All (λ (c : ClauseNo). c.0 ≤ length N.program.program.clauses) clauses.now }
    requires room { length cells.now ≤ limit }
    ensures fitting { IfOk result (λ parted. parted.fitting ≡ filter (fits_in N.program limit cells.now) clauses.now) }
    ensures heavy { IfOk result (λ parted. parted.heavy ≡ first_other (fits_in N.program limit cells.now) clauses.now) }
{
    let mut parted = Parted {
        fitting: ClauseList::new(alloc),
        heavy: None,
    };
    for place in 0..clauses.len() {
        let clause = *clauses.at(place);
        let passes = fits(loaded, cells, clause, limit);
        parted.add(clause, passes)?;
    }
    Ok(parted)
}
