//! An assignment of levels, by the places that are not known to be integers.

ghost use Rattle.std.specs.Prelude.{◌≡◌, ℕ, Ok, true, false};
ghost use Rattle.std.specs.HashMap.{get};
ghost use Rattle.and_modes.specs.Modes.{rank, IsAtLeast};
ghost use Rattle.and_modes.specs.Kept.{same_place, noted, assignment_of, IsNamed};
ghost use Rattle.and_modes.specs.Asked.{level_asked, Lowers};
ghost use Rattle.and_modes.specs.declared.level.Level.TheVariants.{Integer};

use crate::demands::Demand;
use crate::level::{Level, Side, is_at_least};
use and_model::NameNo;
use std::alloc::{AllocError, Global};
use std::collections::HashMap;

/// An argument place of a predicate.
#[derive(Clone, Copy, PartialEq, Eq, Hash)]
pub struct Place {
    pub name: NameNo,
    pub arity: u8,
    /// From 0 on.
    pub number: u8,
}

/// An assignment: a level for each argument place of each predicate, when it is called and when the
/// call has succeeded. A place that was never noted has the highest level.
pub struct Modes {
    called: HashMap<Place, Level>,
    succeeded: HashMap<Place, Level>,
}

// By hand, so that it is proved once, here.
impl Drop for Modes {
    fn drop(self) {
        let Modes {
            called: _,
            succeeded: _,
        } = self;
    }
}

impl Modes {
    /// The highest assignment. Takes no memory.
    pub(crate) fn highest(alloc: Global) -> Modes
        ensures { assignment_of result ≡ (λ name count place side. Integer) }
    {
        Modes {
            called: HashMap::new(alloc),
            succeeded: HashMap::new(alloc),
        }
    }

    /// The level of an argument place of a predicate. Takes no memory.
    pub fn level(&self, name: NameNo, arity: u8, place: u8, side: Side) -> Level
        ensures { result ≡ assignment_of self.now name.0 arity place side }
    {
        let place = Place {
            name,
            arity,
            number: place,
        };
        match side {
            Side::Called => noted(&self.called, place),
            Side::Succeeded => noted(&self.succeeded, place),
        }
    }

    /// Lowers a place to the level that a demand has for it, and tells whether it was above.
    pub(crate) fn lower(&mut self, demand: Demand) -> Result<bool, AllocError>
        ensures met { result ≡ Ok false
            → (assignment_of self.new ≡ assignment_of self.old)
            × IsAtLeast demand.level (level_asked (assignment_of self.old) demand) }
        ensures fell { result ≡ Ok true → Lowers demand (assignment_of self.old) (assignment_of self.new) }
        ensures named { IsNamed demand.place }
    {
        let Place {
            name,
            arity,
            number,
        } = demand.place;
        if is_at_least(demand.level, self.level(name, arity, number, demand.side)) {
            return Ok(false);
        }
        match demand.side {
            Side::Called => self.called.insert(demand.place, demand.level)?,
            Side::Succeeded => self.succeeded.insert(demand.place, demand.level)?,
        };
        Ok(true)
    }
}

/// The level that was noted for a place, and else the highest.
fn noted(fallen: &HashMap<Place, Level>, place: Place) -> Level
    ensures { result ≡ noted (get same_place fallen.now place) }
{
    match fallen.get(&place) {
        Some(level) => *level,
        None => Level::Integer,
    }
}
