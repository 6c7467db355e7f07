//! How far cells were explored.

ghost use Rattle.std.specs.Prelude.{◌≡◌, ◌<◌, ◌≤◌, ℕ, [], length, Some, OnOk, slice_set};
ghost use Rattle.and_circles.specs.Marked.{mark_at, AreUnmarked};
ghost use Rattle.and_circles.specs.declared.marks.Mark.{Mark};

use std::alloc::{AllocError, Global};
use std::marker::Model;

/// How far a cell was explored.
#[derive(Clone, Copy, PartialEq, Eq, Debug)]
pub(crate) enum Mark {
    /// It is on the path that is being followed.
    Open,
    /// Each path from it ends.
    Done,
}

/// A mark, and the round in which it was given.
#[derive(Clone, Copy, PartialEq, Eq, Debug)]
pub(crate) struct Stamp {
    pub(crate) round: u32,
    pub(crate) mark: Mark,
}

/// The marks of cells. All are taken away at once by beginning another round.
pub(crate) struct Marks {
    stamps: Vec<Stamp>,
    round: u32,
}

// By hand, so that it is proved once, here.
impl Drop for Marks {
    fn drop(self) {
        let Marks {
            stamps: _,
            round: _,
        } = self;
    }
}

impl Model for Marks {
    ghost use Rattle.std.specs.Prelude.{◌<◌, ◌≤◌, map, All};
    ghost use Rattle.and_circles.specs.Marked.{Listed, mark_in};

    ghost Value = { Listed };

    ghost view = { λ marks. map (mark_in marks.round) marks.stamps.items };

    ghost invariant = { λ marks. (0 < marks.round) × All (λ stamp. stamp.round ≤ marks.round) marks.stamps.items };
}

impl Marks {
    /// No cell has a mark. Takes no memory.
    pub(crate) fn new(alloc: Global) -> Marks
        ensures { result ≡ [] }
    {
        Marks {
            stamps: Vec::new(alloc),
            round: 1,
        }
    }

    /// Makes room for the marks of so many cells. An error is want of memory.
    pub(crate) fn make_room(&mut self, cells: usize) -> Result<(), AllocError>
        ensures room { OnOk result (cells ≤ length self.new) }
        ensures same { (cell : ℕ) → mark_at self.new cell ≡ mark_at self.old cell }
    {
        if cells <= self.stamps.len() {
            return Ok(());
        }
        // No round has the number 0.
        let blank = Stamp {
            round: 0,
            mark: Mark::Done,
        };
        self.stamps.resize(cells, blank)
    }

    /// The mark of a cell.
    pub(crate) fn of(&self, cell: u32) -> Option<Mark>
        requires room { cell < length self.now }
        ensures { result ≡ mark_at self.now cell }
    {
        let stamp = self.stamps[cell as usize];
        if stamp.round == self.round {
            Some(stamp.mark)
        } else {
            None
        }
    }

    /// Gives a cell its mark, in place of the one that it has.
    pub(crate) fn set(&mut self, cell: u32, mark: Mark)
        requires room { cell < length self.old }
        ensures { self.new ≡ slice_set self.old cell (Some mark) }
    {
        self.stamps[cell as usize] = Stamp {
            round: self.round,
            mark,
        };
    }

    /// No cell has a mark any more. Takes no memory, and keeps what was taken.
    pub(crate) fn clear(&mut self)
        ensures { AreUnmarked self.new }
    {
        match self.round.checked_add(1) {
            Some(round) => self.round = round,
            None => {
                self.stamps.clear();
                self.round = 1;
            }
        }
    }
}
