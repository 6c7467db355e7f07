//! Paths through cells and the parts of structures, followed depth first by a list of what is still to
//! be visited, so that no call nests as deep as a term.

ghost use Rattle.std.specs.Prelude.{◌≡◌, ◌≢◌, ℕ, [], length, true, false, Ok};
ghost use Rattle.and_model.specs.Store.{is_half};
ghost use Rattle.and_model.specs.declared.reference.Ref.{Ref};
ghost use Rattle.and_cells.specs.Ranges.{IsInRange};
ghost use Rattle.and_cells.specs.Seen.{word_at};
ghost use Rattle.and_cells.specs.Meaning.{IsCircle, Holds};
ghost use Rattle.and_cells.specs.Parts.{named};
ghost use Rattle.and_cells.specs.Ends.{Ends};
ghost use Rattle.and_circles.specs.Explored.{Finished, AreFinished};

use crate::walk::Walk;
use and_cells::{Naming, PlainCells};
use and_model::Ref;
use and_program::Loaded;
use std::alloc::{AllocError, Global};
use std::marker::Model;

/// What was found below a reference.
#[derive(Clone, Copy, PartialEq, Eq, Debug)]
pub enum Explored {
    /// Each path ends.
    Ends,
    /// The term of this cell properly contains the cell.
    Circle { cell: u32 },
    /// A path ends at this cell, which is a word of a pair.
    Half { cell: u32 },
}

/// What was explored of one row so far. No cell is explored twice. A structure is explored again, down to
/// its variables, only where another has taken its slot. An explorer can be used again, so that its lists
/// take memory once.
#[derive(Drop)]
pub struct Explorer {
    walk: Walk,
}

impl Model for Explorer {
    ghost use Rattle.and_circles.specs.Explored.{Finished, finished};
    ghost use Rattle.and_circles.specs.Walks.{IsAtRest};

    ghost Value = { Finished };

    ghost view = { λ e. finished e.walk.marks e.walk.structures e.walk.floor e.walk.halves };

    ghost invariant = { λ e. IsAtRest e.walk };
}

impl Explorer {
    /// Nothing is explored yet. Cells below the floor are not looked at, and neither are structures in
    /// frames that begin below it. With `halves`, words of pairs are ends like others. Takes no memory.
    pub fn new(alloc: Global, floor: u32, halves: bool) -> Explorer
        ensures { result ≡ record { places = []; floor = floor; halves = halves } }
    {
        Explorer {
            walk: Walk::new(alloc, floor, halves),
        }
    }

    /// Begins anew, as [`Explorer::new`] does, and keeps the memory that was taken.
    pub fn restart(&mut self, floor: u32, halves: bool)
        ensures { self.new ≡ record { places = []; floor = floor; halves = halves } }
    {
        self.walk.forget();
        self.walk.floor = floor;
        self.walk.halves = halves;
    }

    /// Explores what lies below a reference, up to the first circle or word of a pair. An error is
    /// want of memory. After an error, a circle or a word of a pair all that was explored is forgotten.
    pub fn explore<N: Naming>(
        &mut self,
        loaded: &Loaded,
        cells: &PlainCells<N>,
        root: Ref,
    ) -> Result<Explored, AllocError>
        requires program { N.program ≡ named loaded.now }
        requires finished { AreFinished N.program cells.now self.old }
        requires in_range { IsInRange N.program (length cells.now) root }
        ensures settings { (self.new.floor ≡ self.old.floor) × (self.new.halves ≡ self.old.halves) }
        ensures ends { result ≡ Ok Explored.Ends
            → AreFinished N.program cells.now self.new
            × Ends N.program cells.now self.old.floor self.old.halves root }
        ensures circle { (cell : ℕ) → result ≡ Ok (Explored.Circle cell) → IsCircle N.program cells.now cell }
        ensures half { (cell : ℕ) → result ≡ Ok (Explored.Half cell)
            → Holds N.program cells.now root cell × (is_half (word_at cells.now cell) ≡ true)
            × (self.old.halves ≡ false) }
        ensures forgotten { (result ≢ Ok Explored.Ends) → self.new.places ≡ [] }
    {
        let found = self.walk.run(loaded, cells, root);
        match found {
            Ok(Explored::Ends) => {}
            Ok(Explored::Circle { .. }) => self.walk.forget(),
            Ok(Explored::Half { .. }) => self.walk.forget(),
            Err(AllocError) => self.walk.forget(),
        }
        found
    }
}
