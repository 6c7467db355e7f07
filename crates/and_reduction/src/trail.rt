//! Which words of a row were set.

ghost use Rattle.std.specs.Prelude.{◌≡◌, [], Some, None, OnOk};
ghost use Rattle.and_reduction.specs.Trails.{AreNoted};

use std::alloc::{AllocError, Global};
use std::marker::Model;
use std::mem::replace;

/// Which words of a row were set since it was so long, so that it can be had again as it was then.
pub struct Trail {
    /// How many words the row had; `None` where nothing is noted.
    mark: Option<u32>,
    cells: Vec<u32>,
    /// Lists that are not in use. What stands in them is of no account.
    spares: Vec<Vec<u32>>,
}

// By hand, so that it is proved once, here.
impl Drop for Trail {
    fn drop(self) {
        let Trail {
            mark: _,
            cells: _,
            spares: _,
        } = self;
    }
}

impl Model for Trail {
    ghost use Rattle.and_reduction.specs.Trails.{Noted};

    ghost Value = { Noted };

    ghost view = { λ trail. record { mark = trail.mark; cells = trail.cells.items } };
}

impl Trail {
    /// Nothing is noted. Takes no memory.
    pub fn none(alloc: Global) -> Trail
        ensures { result ≡ record { mark = None; cells = [] } }
    {
        Trail {
            mark: None,
            cells: Vec::new(alloc),
            spares: Vec::new(alloc),
        }
    }

    /// What is set from now on in a row of so many words is noted. Takes no memory.
    pub fn begun(alloc: Global, words: u32) -> Trail
        ensures { result ≡ record { mark = Some words; cells = [] } }
    {
        Trail {
            mark: Some(words),
            cells: Vec::new(alloc),
            spares: Vec::new(alloc),
        }
    }

    /// What is set from now on in a row of so many words is noted, and nothing that was set before.
    /// Takes no memory.
    pub fn begin_again(&mut self, words: u32)
        ensures { self.new ≡ record { mark = Some words; cells = [] } }
    {
        self.mark = Some(words);
        self.cells.clear();
    }

    /// Gives away what was noted. What is set from now on in a row of so many words is noted, in a list that was put by
    /// where there is one. Takes no memory.
    pub fn give(&mut self, alloc: Global, words: u32) -> Trail
        ensures given { result ≡ self.old }
        ensures begun { self.new ≡ record { mark = Some words; cells = [] } }
    {
        let mark = self.mark;
        let empty = empty_list(&mut self.spares, alloc);
        let cells = replace(&mut self.cells, empty);
        self.mark = Some(words);
        Trail {
            mark,
            cells,
            spares: Vec::new(alloc),
        }
    }

    /// Has what another one noted in place of its own, and puts its own list by. Where memory is wanted for that, it is
    /// let go of.
    pub fn take(&mut self, other: Trail)
        ensures { self.new ≡ other }
    {
        let Trail {
            mark,
            cells,
            spares: _,
        } = other;
        self.mark = mark;
        let own = replace(&mut self.cells, cells);
        let _kept = self.spares.push(own);
    }

    /// Nothing is noted from now on. Takes no memory.
    pub fn forget(&mut self)
        ensures { self.new ≡ record { mark = None; cells = [] } }
    {
        self.mark = None;
        self.cells.clear();
    }

    /// The words that were noted. Takes no memory.
    pub fn cells(&self) -> &[u32]
        ensures { result.now ≡ self.now.cells }
    {
        &self.cells
    }

    /// Notes those of the cells that were words of the row. An error is want of memory, and some may be
    /// noted then.
    #[inline(always)]
    pub(crate) fn note(&mut self, cells: &[u32]) -> Result<(), AllocError>
        ensures { OnOk result (AreNoted self.old self.new cells.now) }
    {
        match self.mark {
            Some(words) => note_below(&mut self.cells, words, cells),
            None => Ok(()),
        }
    }
}

/// An empty list: the one that was put by last, where there is one. Takes no memory.
fn empty_list(spares: &mut Vec<Vec<u32>>, alloc: Global) -> Vec<u32>
    ensures { result.items ≡ [] }
{
    match spares.pop() {
        Some(list) => emptied(list),
        None => Vec::new(alloc),
    }
}

/// The same list, with nothing in it. Takes no memory.
fn emptied(list: Vec<u32>) -> Vec<u32>
    ensures { result.items ≡ [] }
{
    let mut list = list;
    list.clear();
    list
}

/// Puts those of the cells that lie below the mark at the end of a list. An error is want of memory.
#[inline(never)]
fn note_below(noted: &mut Vec<u32>, mark: u32, cells: &[u32]) -> Result<(), AllocError>
    ensures { OnOk result (AreNoted (record { mark = Some mark; cells = noted.old.items })
        (record { mark = Some mark; cells = noted.new.items }) cells.now) }
{
    for cell in cells {
        if *cell < mark {
            noted.push(*cell)?;
        }
    }
    Ok(())
}
