//! The walk below a reference, over an explicit list of visits.

ghost use Rattle.std.specs.Prelude.{◌≡◌, ◌<◌, ◌^◌, ◌↔◌, ℕ, List, [], ◌∷◌, Some, None, length, reverse, IsTrue, OnOk};
ghost use Rattle.std.specs.Prelude.{IfOk, Ok, slice_set};
ghost use Rattle.and_model.specs.declared.reference.Ref.{Ref};
ghost use Rattle.and_cells.specs.Ranges.{IsInRange};
ghost use Rattle.and_cells.specs.Meaning.{IsCircle};
ghost use Rattle.and_program.specs.Loaded.{skeleton_of};
ghost use Rattle.and_cells.specs.Parts.{named, parts_of};
ghost use Rattle.and_cells.specs.Ends.{IsBelow};
ghost use Rattle.and_circles.specs.Marked.{mark_at, AreUnmarked};
ghost use Rattle.and_circles.specs.Explored.{AreFinished, finished};
ghost use Rattle.and_circles.specs.Walks.{nearest_cell, Opens, IsTaking, IsAtRest, IsRested, HasWalked, AreEnded};
ghost use Rattle.and_circles.specs.Walks.{Goes, Stays, Answers};
ghost use Rattle.and_circles.specs.declared.walk.Visit.{Visit};
ghost use Rattle.and_circles.specs.declared.explorer.Explored.{Explored};
ghost use Rattle.and_circles.specs.declared.marks.Mark.{Mark};

use crate::explorer::Explored;
use crate::marks::{Mark, Marks};
use crate::structures::Structures;
use and_cells::{Naming, PlainCells};
use and_model::{NodeNo, Ref};
use and_program::{Loaded, NodeKind};
use std::alloc::{AllocError, Global};

/// How many structures are kept at most, so that what is kept stays near.
const MOST_SLOTS: usize = 16_384;

/// What is still to be done.
#[derive(Clone, Copy, PartialEq, Eq, Debug)]
pub(crate) enum Visit {
    /// Look at what lies below the reference.
    Enter(Ref),
    /// All below the reference was looked at.
    Leave(Ref),
}

impl Visit {
    /// The cell that is left, if one is.
    fn left_cell(self) -> Option<u32>
        ensures some { (cell : ℕ) → result ≡ Some cell → (visits : List Visit)
            → nearest_cell (self ∷ visits) ≡ Some cell }
        ensures none { result ≡ None → (visits : List Visit) → nearest_cell (self ∷ visits) ≡ nearest_cell visits }
    {
        match self {
            Visit::Leave(Ref::Cell(cell)) => Some(cell),
            _ => None,
        }
    }
}

/// How far a row was walked.
pub(crate) struct Walk {
    pub(crate) marks: Marks,
    /// Each path from them ends.
    pub(crate) structures: Structures,
    /// The next visit is the last of them.
    pub(crate) visits: Vec<Visit>,
    /// Cells below it are not looked at, and neither are structures in frames that begin below it.
    pub(crate) floor: u32,
    /// Whether words of pairs are ends like others.
    pub(crate) halves: bool,
}

// By hand, so that it is proved once, here.
impl Drop for Walk {
    fn drop(self) {
        let Walk {
            marks: _,
            structures: _,
            visits: _,
            floor: _,
            halves: _,
        } = self;
    }
}

impl Walk {
    /// Nothing was walked yet. Takes no memory.
    pub(crate) fn new(alloc: Global, floor: u32, halves: bool) -> Walk
        ensures marks { result.marks ≡ [] }
        ensures structures { result.structures ≡ [] }
        ensures visits { result.visits.items ≡ [] }
        ensures floor { result.floor ≡ floor }
        ensures halves { result.halves ≡ halves }
    {
        Walk {
            marks: Marks::new(alloc),
            structures: Structures::new(alloc),
            visits: Vec::new(alloc),
            floor,
            halves,
        }
    }

    /// Walks all that lies below a reference, up to the first circle or word of a pair.
    pub(crate) fn run<N: Naming>(
        &mut self,
        loaded: &Loaded,
        cells: &PlainCells<N>,
        root: Ref,
    ) -> Result<Explored, AllocError>
        requires program { N.program ≡ named loaded.now }
        requires finished { AreFinished N.program cells.now
            (finished self.old.marks self.old.structures self.old.floor self.old.halves) }
        requires at_rest { IsAtRest self.old }
        requires in_range { IsInRange N.program (length cells.now) root }
        ensures stays { Stays self.old self.new }
        ensures ends { result ≡ Ok Explored.Ends → HasWalked N.program cells.now root self.old self.new }
        ensures answer { Answers N.program cells.now self.old.halves root result }
    {
        let count = cells.len() as usize;
        self.marks.make_room(count)?;
        self.structures.make_slots(count.min(MOST_SLOTS))?;
        if self.passes(cells, root) {
            return Ok(Explored::Ends);
        }
        self.descend(loaded, cells, root)
    }

    /// The same, once there is room.
    fn descend<N: Naming>(
        &mut self,
        loaded: &Loaded,
        cells: &PlainCells<N>,
        root: Ref,
    ) -> Result<Explored, AllocError>
        requires program { N.program ≡ named loaded.now }
        requires rested { IsRested N.program cells.now self.old }
        requires in_range { IsInRange N.program (length cells.now) root }
        ensures stays { Stays self.old self.new }
        ensures ends { result ≡ Ok Explored.Ends → HasWalked N.program cells.now root self.old self.new }
        ensures answer { Answers N.program cells.now self.old.halves root result }
    {
        // Arguments come before their nodes: the proof needs it.
        loaded.skeleton_is_of_the_program();
        self.visits.push(Visit::Enter(root))?;
        while let Some(visit) = self.visits.pop() {
            let found = self.turn(loaded, cells, visit)?;
            match found {
                Explored::Ends => {}
                Explored::Circle { .. } => return Ok(found),
                Explored::Half { .. } => return Ok(found),
            }
        }
        Ok(Explored::Ends)
    }

    /// Forgets all that was walked, and keeps the memory that was taken.
    pub(crate) fn forget(&mut self)
        ensures stays { Stays self.old self.new }
        ensures marks { AreUnmarked self.new.marks }
        ensures structures { self.new.structures ≡ [] }
        ensures visits { self.new.visits.items ≡ [] }
    {
        self.marks.clear();
        self.structures.clear();
        self.visits.clear();
    }

    /// Makes one visit.
    fn turn<N: Naming>(
        &mut self,
        loaded: &Loaded,
        cells: &PlainCells<N>,
        visit: Visit,
    ) -> Result<Explored, AllocError>
        requires program { N.program ≡ named loaded.now }
        requires taking { (root : Ref) × IsTaking N.program cells.now root visit self.old }
        requires ended { AreEnded N.program cells.now self.old }
        ensures goes { Goes N.program cells.now visit self.old self.new result }
        ensures ended { AreEnded N.program cells.now self.new }
    {
        match visit {
            Visit::Enter(at) => self.enter(loaded, cells, at),
            Visit::Leave(at) => {
                self.leave(cells, at);
                Ok(Explored::Ends)
            }
        }
    }

    /// Leaves a place: a cell is done. A structure needs no mark, since no path leads back to it but through
    /// a cell.
    fn leave<N: Naming>(&mut self, cells: &PlainCells<N>, at: Ref)
        requires taking { (root : Ref) × IsTaking N.program cells.now root (Visit.Leave at) self.old }
        requires ended { AreEnded N.program cells.now self.old }
        ensures goes { Goes N.program cells.now (Visit.Leave at) self.old self.new (Ok Explored.Ends) }
        ensures ended { AreEnded N.program cells.now self.new }
    {
        match at {
            Ref::Cell(cell) => self.marks.set(cell, Mark::Done),
            Ref::Node { node, base } => self.structures.put(node, base),
            Ref::Number(_) => {}
            Ref::Free => {}
            Ref::Half(_) => {}
        }
    }

    /// Enters a reference: what is below the floor is passed.
    fn enter<N: Naming>(
        &mut self,
        loaded: &Loaded,
        cells: &PlainCells<N>,
        at: Ref,
    ) -> Result<Explored, AllocError>
        requires program { N.program ≡ named loaded.now }
        requires taking { (root : Ref) × IsTaking N.program cells.now root (Visit.Enter at) self.old }
        requires ended { AreEnded N.program cells.now self.old }
        ensures goes { Goes N.program cells.now (Visit.Enter at) self.old self.new result }
        ensures structures { self.new.structures ≡ self.old.structures }
    {
        if self.is_below(at) {
            return Ok(Explored::Ends);
        }
        match at {
            Ref::Cell(cell) => self.enter_cell(cells, cell),
            Ref::Node { node, base } => {
                if self.structures.has(node, base) {
                    return Ok(Explored::Ends);
                }
                self.open_node(loaded, node, base)?;
                Ok(Explored::Ends)
            }
            Ref::Number(_) => Ok(Explored::Ends),
            Ref::Free => unreachable!(),
            Ref::Half(_) => unreachable!(),
        }
    }

    /// Whether a reference is below the floor.
    fn is_below(&self, at: Ref) -> bool
        ensures { IsTrue result ↔ IsBelow self.now.floor at }
    {
        match at {
            Ref::Free => false,
            Ref::Cell(cell) => cell < self.floor,
            Ref::Node { base, .. } => base < self.floor,
            Ref::Number(_) => false,
            Ref::Half(_) => false,
        }
    }

    /// Enters a cell: what is done is passed, and what is open closes a circle.
    fn enter_cell<N: Naming>(
        &mut self,
        cells: &PlainCells<N>,
        cell: u32,
    ) -> Result<Explored, AllocError>
        requires taking { (root : Ref) × IsTaking N.program cells.now root (Visit.Enter (Ref.Cell cell)) self.old }
        ensures goes { Goes N.program cells.now (Visit.Enter (Ref.Cell cell)) self.old self.new result }
        ensures structures { self.new.structures ≡ self.old.structures }
    {
        match self.marks.of(cell) {
            Some(Mark::Done) => Ok(Explored::Ends),
            Some(Mark::Open) => Ok(self.circle(cells, cell)),
            None => self.enter_new(cells, cell),
        }
    }

    /// The circle that closes where a cell is entered that is open.
    fn circle<N: Naming>(&self, cells: &PlainCells<N>, at: u32) -> Explored
        requires taking { (root : Ref) × IsTaking N.program cells.now root (Visit.Enter (Ref.Cell at)) self.now }
        requires open { mark_at self.now.marks at ≡ Some Mark.Open }
        ensures { (cell : ℕ) × (result ≡ Explored.Circle cell) × IsCircle N.program cells.now cell }
    {
        match self.nearest_cell() {
            Some(cell) => Explored::Circle { cell },
            None => unreachable!(),
        }
    }

    /// The cell that was opened last of those that are open.
    fn nearest_cell(&self) -> Option<u32>
        ensures { result ≡ nearest_cell (reverse self.now.visits.items) }
    {
        for visit in self.visits.iter().rev() {
            if let Some(cell) = visit.left_cell() {
                return Some(cell);
            }
        }
        None
    }

    /// Enters a cell that has no mark, as its word says.
    fn enter_new<N: Naming>(
        &mut self,
        cells: &PlainCells<N>,
        cell: u32,
    ) -> Result<Explored, AllocError>
        requires taking { (root : Ref) × IsTaking N.program cells.now root (Visit.Enter (Ref.Cell cell)) self.old }
        requires unmarked { mark_at self.old.marks cell ≡ None }
        ensures goes { Goes N.program cells.now (Visit.Enter (Ref.Cell cell)) self.old self.new result }
        ensures structures { self.new.structures ≡ self.old.structures }
    {
        let word = cells.word(cell);
        match word {
            Ref::Free => Ok(Explored::Ends),
            Ref::Half(_) if self.halves => Ok(Explored::Ends),
            Ref::Half(_) => Ok(Explored::Half { cell }),
            Ref::Cell(_) => self.follow(cell, word),
            Ref::Node { .. } => self.follow(cell, word),
            Ref::Number(_) => self.follow(cell, word),
        }
    }

    /// Opens a cell, and goes on to its word.
    fn follow(&mut self, cell: u32, word: Ref) -> Result<Explored, AllocError>
        requires room { cell < length self.old.marks }
        ensures opens { IfOk result (λ found. (found ≡ Explored.Ends)
            × Opens (Ref.Cell cell) (word ∷ []) self.old self.new) }
        ensures marks { self.new.marks ≡ slice_set self.old.marks cell (Some Mark.Open) }
        ensures structures { self.new.structures ≡ self.old.structures }
        ensures stays { Stays self.old self.new }
    {
        self.marks.set(cell, Mark::Open);
        self.visits.push(Visit::Leave(Ref::Cell(cell)))?;
        self.visits.push(Visit::Enter(word))?;
        Ok(Explored::Ends)
    }

    /// Goes on to the parts of a structure.
    fn open_node(&mut self, loaded: &Loaded, node: NodeNo, base: u32) -> Result<(), AllocError>
        requires there { node.0 < length (skeleton_of loaded.now).nodes }
        requires base { base < 2 ^ 23 }
        ensures opens { OnOk result
            (Opens (Ref.Node node base) (parts_of (named loaded.now) (Ref.Node node base)) self.old self.new) }
        ensures marks { self.new.marks ≡ self.old.marks }
        ensures structures { self.new.structures ≡ self.old.structures }
        ensures stays { Stays self.old self.new }
    {
        self.visits.push(Visit::Leave(Ref::Node { node, base }))?;
        let count = match loaded.kind(node) {
            NodeKind::Compound { count, .. } => count,
            NodeKind::Variable(_) => 0,
            NodeKind::Number(_) => 0,
        };
        for place in 0..count {
            let part = loaded.resolve(loaded.argument(node, place), base);
            self.visits.push(Visit::Enter(part))?;
        }
        Ok(())
    }
}
