//! What is seen to end by what was walked before, and is not walked again.

ghost use Rattle.std.specs.Prelude.{◌≡◌, ◌<◌, true, length, Some};
ghost use Rattle.and_model.specs.declared.reference.Ref.{Ref};
ghost use Rattle.and_cells.specs.Ranges.{IsInRange};
ghost use Rattle.and_cells.specs.Ends.{Ends};
ghost use Rattle.and_circles.specs.Marked.{mark_at};
ghost use Rattle.and_circles.specs.Walks.{IsRested, Stays};
ghost use Rattle.and_circles.specs.declared.marks.Mark.{Mark};

use crate::marks::Mark;
use crate::walk::Walk;
use and_cells::{Naming, PlainCells};
use and_model::Ref;

impl Walk {
    /// Whether each path from a reference is seen to end, at a look at the word of a cell. That cell is done then.
    /// `false` says nothing.
    pub(crate) fn passes<N: Naming>(&mut self, cells: &PlainCells<N>, root: Ref) -> bool
        requires rested { IsRested N.program cells.now self.old }
        requires in_range { IsInRange N.program (length cells.now) root }
        ensures stays { Stays self.old self.new }
        ensures rested { IsRested N.program cells.now self.new }
        ensures ends { result ≡ true → Ends N.program cells.now self.old.floor self.old.halves root }
    {
        match root {
            Ref::Cell(cell) => self.passes_cell(cells, cell),
            Ref::Node { .. } => false,
            Ref::Number(_) => false,
            Ref::Free => false,
            Ref::Half(_) => false,
        }
    }

    /// The same of a cell.
    fn passes_cell<N: Naming>(&mut self, cells: &PlainCells<N>, cell: u32) -> bool
        requires rested { IsRested N.program cells.now self.old }
        requires in_range { cell < length cells.now }
        ensures stays { Stays self.old self.new }
        ensures rested { IsRested N.program cells.now self.new }
        ensures ends { result ≡ true → Ends N.program cells.now self.old.floor self.old.halves (Ref.Cell cell) }
    {
        if self.is_done(cell) {
            return true;
        }
        let word = cells.word(cell);
        match word {
            Ref::Free => true,
            Ref::Half(_) => false,
            Ref::Number(_) => false,
            Ref::Cell(other) => {
                let other_ends = self.is_done(other);
                self.note(cells, cell, other_ends)
            }
            Ref::Node { node, base } => {
                let structure_ends = self.structures.has(node, base);
                self.note(cells, cell, structure_ends)
            }
        }
    }

    /// Whether a cell is done.
    fn is_done(&self, cell: u32) -> bool
        requires { cell < length self.now.marks }
        ensures { result ≡ true → mark_at self.now.marks cell ≡ Some Mark.Done }
    {
        match self.marks.of(cell) {
            Some(Mark::Done) => true,
            Some(Mark::Open) => false,
            None => false,
        }
    }

    /// Marks a cell as done, where it ends. Answers whether it does.
    fn note<N: Naming>(&mut self, cells: &PlainCells<N>, cell: u32, has_ended: bool) -> bool
        requires rested { IsRested N.program cells.now self.old }
        requires in_row { cell < length cells.now }
        requires ends { has_ended ≡ true → Ends N.program cells.now self.old.floor self.old.halves (Ref.Cell cell) }
        ensures stays { Stays self.old self.new }
        ensures rested { IsRested N.program cells.now self.new }
        ensures same { result ≡ has_ended }
        ensures ends { result ≡ true → Ends N.program cells.now self.old.floor self.old.halves (Ref.Cell cell) }
    {
        if has_ended {
            self.marks.set(cell, Mark::Done);
        }
        has_ended
    }
}
