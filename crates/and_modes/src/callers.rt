//! Which clauses are to be looked at again where a place has fallen.

ghost use Rattle.std.specs.Prelude.{◌<◌, ◌≤◌, length};
ghost use Rattle.and_program.specs.Loaded.{skeleton_of, program_of};

use crate::demands::Demand;
use crate::known::{Functor, functor_of};
use crate::level::Side;
use and_model::{ClauseNo, NodeNo};
use and_program::{ClauseNumbers, ItemNode, Loaded, Predicate, clauses_at};
use std::alloc::{AllocError, Global};
use std::collections::HashMap;

/// The clauses that call each predicate.
#[derive(Drop)]
pub(crate) struct Callers {
    numbers: ClauseNumbers,
}

impl Callers {
    /// The callers of all predicates of a program. An error is want of memory.
    pub(crate) fn of_program(alloc: Global, loaded: &Loaded) -> Result<Callers, AllocError> {
        let mut callers = Callers {
            numbers: HashMap::new(alloc),
        };
        for number in 0..loaded.clause_count() + 1 {
            callers.note_clause(alloc, loaded, ClauseNo(number as u16))?;
        }
        Ok(callers)
    }

    /// Notes a clause for each predicate that it calls.
    fn note_clause(
        &mut self,
        alloc: Global,
        loaded: &Loaded,
        no: ClauseNo,
    ) -> Result<(), AllocError>
        requires { no.0 ≤ length (program_of loaded.now).clauses }
    {
        for item in loaded.items(no) {
            if let ItemNode::Call { goal } = *item {
                self.note_call(alloc, loaded, no, goal)?;
            }
        }
        Ok(())
    }

    /// Notes a clause for the predicate of a call.
    fn note_call(
        &mut self,
        alloc: Global,
        loaded: &Loaded,
        no: ClauseNo,
        goal: NodeNo,
    ) -> Result<(), AllocError>
        requires { goal.0 < length (skeleton_of loaded.now).nodes }
    {
        let Functor { name, count } = functor_of(loaded, goal);
        let predicate = Predicate {
            name,
            arity: count as usize,
        };
        let mut numbers = self.numbers.remove(&predicate).unwrap_or(Vec::new(alloc));
        numbers.push(no)?;
        self.numbers.insert(predicate, numbers)?;
        Ok(())
    }

    /// The clauses whose variables are known by the level of a place: those of its predicate where it
    /// is called, and the callers of its predicate where the call has succeeded.
    pub(crate) fn dependents<'a>(&'a self, loaded: &'a Loaded, demand: Demand) -> &'a [ClauseNo] {
        let place = demand.place;
        match demand.side {
            Side::Called => loaded.clauses_of(place.name, place.arity),
            Side::Succeeded => {
                let predicate = Predicate {
                    name: place.name,
                    arity: place.arity as usize,
                };
                clauses_at(&self.numbers, predicate)
            }
        }
    }
}
