//! Clauses that are to be looked at again.

use and_model::ClauseNo;
use and_program::Loaded;
use std::alloc::{AllocError, Global};
use std::mem::replace;

/// The most items of a short body.
const SHORT: usize = 16;

/// Which of the clauses on the list.
#[derive(Clone, Copy)]
pub(crate) enum Bodies {
    Short,
    Long,
}

/// How a clause stands to the list.
#[derive(Clone, Copy)]
struct Standing {
    bodies: Bodies,
    is_listed: bool,
}

/// Clauses to be looked at again, each once. Those with long bodies are kept apart, since to look at
/// a long one again for each place that falls would take the square of its length.
pub(crate) struct WorkList {
    short: Vec<ClauseNo>,
    long: Vec<ClauseNo>,
    standings: Vec<Standing>,
}

// By hand, so that it is proved once, here.
impl Drop for WorkList {
    fn drop(self) {
        let WorkList {
            short: _,
            long: _,
            standings: _,
        } = self;
    }
}

impl WorkList {
    /// A list for a program, without any clause. An error is want of memory.
    pub(crate) fn new(alloc: Global, loaded: &Loaded) -> Result<WorkList, AllocError> {
        let mut standings = Vec::new(alloc);
        for number in 0..loaded.clause_count() + 1 {
            standings.push(Standing {
                bodies: bodies_of(loaded.items(ClauseNo(number as u16)).len()),
                is_listed: false,
            })?;
        }
        Ok(WorkList {
            short: Vec::new(alloc),
            long: Vec::new(alloc),
            standings,
        })
    }

    /// Lists these clauses.
    pub(crate) fn add_all(&mut self, clauses: &[ClauseNo]) -> Result<(), AllocError> {
        for no in clauses {
            self.add(*no)?;
        }
        Ok(())
    }

    /// Lists a clause, where it is not listed yet.
    fn add(&mut self, no: ClauseNo) -> Result<(), AllocError> {
        if let Some(standing) = self.standings.get_mut(no.0 as usize) {
            if !standing.is_listed {
                standing.is_listed = true;
                match standing.bodies {
                    Bodies::Short => self.short.push(no)?,
                    Bodies::Long => self.long.push(no)?,
                }
            }
        }
        Ok(())
    }

    /// Takes all clauses with such bodies from the list.
    pub(crate) fn take(&mut self, alloc: Global, bodies: Bodies) -> Vec<ClauseNo> {
        let taken = match bodies {
            Bodies::Short => replace(&mut self.short, Vec::new(alloc)),
            Bodies::Long => replace(&mut self.long, Vec::new(alloc)),
        };
        for no in &taken {
            if let Some(standing) = self.standings.get_mut(no.0 as usize) {
                standing.is_listed = false;
            }
        }
        taken
    }
}

/// Whether a body of that many items is short.
fn bodies_of(items: usize) -> Bodies {
    if items <= SHORT {
        Bodies::Short
    } else {
        Bodies::Long
    }
}
