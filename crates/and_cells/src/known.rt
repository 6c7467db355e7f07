//! References whose terms are known to hold no variable.

ghost use Rattle.std.specs.Prelude.{◌≡◌, ◌≢◌, ◌⊎◌, ◌<◌, ◌≤◌, [], ◌∷◌, ◌++◌, ℕ, true, false, All, Contains};
ghost use Rattle.std.specs.Prelude.{slice_index_or, OnOk, length};
ghost use Rattle.and_model.specs.declared.reference.Ref.{Ref};
ghost use Rattle.and_cells.specs.Ground.{IsCut};

use and_model::Ref;
use std::alloc::{AllocError, Global};
use std::marker::Model;

/// So many are known at most.
const MOST_KNOWN: usize = 1 << 24;

/// References, each of which stands behind all that it leads to. A cell is found at once, so that one that is
/// made free again takes only those with it that stand behind it.
pub(crate) struct Known {
    references: Vec<Ref>,
    /// The place of each cell that is among them.
    cells: Vec<u32>,
    /// Where a structure of a node may be among them.
    nodes: Vec<u32>,
}

// By hand, so that it is proved once, here.
impl Drop for Known {
    fn drop(self) {
        let Known {
            references: _,
            cells: _,
            nodes: _,
        } = self;
    }
}

impl Model for Known {
    ghost use Rattle.std.specs.Prelude.{List};
    ghost use Rattle.and_model.specs.declared.reference.Ref.{Ref};
    ghost use Rattle.and_cells.specs.Ground.{AreNoted};

    ghost Value = { List Ref };

    ghost view = { λ known. known.references.items };

    ghost invariant = { λ known. AreNoted known.references.items known.cells.items };
}

impl Known {
    /// None is known. Takes no memory.
    pub(crate) fn new(alloc: Global) -> Known
        ensures { result ≡ [] }
    {
        Known {
            references: Vec::new(alloc),
            cells: Vec::new(alloc),
            nodes: Vec::new(alloc),
        }
    }

    /// Whether a reference is seen to be among them. Of a structure `false` says nothing.
    pub(crate) fn has(&self, at: Ref) -> bool
        ensures among { result ≡ true → Contains self.now at }
        ensures cells { (cell : ℕ) → at ≡ Ref.Cell cell → result ≡ false → Contains self.now at → ⊥ }
    {
        match at {
            Ref::Cell(cell) => stands_at(&self.references, place_in(&self.cells, cell), at),
            Ref::Node { node, .. } => {
                stands_at(&self.references, place_in(&self.nodes, node.0), at)
            }
            Ref::Free => false,
            Ref::Number(_) => false,
            Ref::Half(_) => false,
        }
    }

    /// Puts a reference behind them, if there is room. An error is want of memory.
    pub(crate) fn put(&mut self, at: Ref) -> Result<(), AllocError>
        requires { (cell : ℕ) → at ≡ Ref.Cell cell → Contains self.old at → ⊥ }
        ensures { (self.new ≡ self.old ++ at ∷ []) ⊎ (self.new ≡ self.old) }
    {
        let place = self.references.len();
        if MOST_KNOWN <= place {
            return Ok(());
        }
        match at {
            Ref::Cell(cell) => note_place(&mut self.cells, cell, place as u32)?,
            Ref::Node { node, .. } => note_place(&mut self.nodes, node.0, place as u32)?,
            Ref::Free => {}
            Ref::Number(_) => {}
            Ref::Half(_) => {}
        }
        self.references.push(at)?;
        Ok(())
    }

    /// Forgets these cells, and all that stand behind one of them. Takes no memory.
    pub(crate) fn forget(&mut self, cells: &[u32])
        ensures cut { IsCut self.old self.new }
        ensures gone { All (λ (cell : ℕ). Contains self.new (Ref.Cell cell) → ⊥) cells.now }
    {
        let count = self.references.len();
        if count == 0 {
            return;
        }
        for cell in cells {
            self.forget_cell(*cell);
        }
    }

    /// The same of the cells from one on and before another. Takes no memory.
    pub(crate) fn forget_between(&mut self, first: u32, end: u32)
        ensures cut { IsCut self.old self.new }
        ensures gone { (cell : ℕ) → first ≤ cell → cell < end → Contains self.new (Ref.Cell cell) → ⊥ }
    {
        let count = self.references.len();
        if count == 0 {
            return;
        }
        for cell in first..end {
            self.forget_cell(cell);
        }
    }

    /// The same of one cell. Takes no memory.
    fn forget_cell(&mut self, cell: u32)
        ensures cut { IsCut self.old self.new }
        ensures gone { Contains self.new (Ref.Cell cell) → ⊥ }
    {
        let place = place_in(&self.cells, cell);
        if stands_at(&self.references, place, Ref::Cell(cell)) {
            self.references.truncate(place);
        }
    }
}

/// What is noted under a number, and 0 where nothing is.
fn place_in(places: &[u32], number: u32) -> usize
    ensures { result ≡ slice_index_or places.now number 0 }
{
    let number = number as usize;
    if number < places.len() {
        places[number] as usize
    } else {
        0
    }
}

/// Whether a reference stands at a place.
fn stands_at(references: &[Ref], place: usize, at: Ref) -> bool
    ensures yes { result ≡ true → (place < length references.now)
        × (slice_index_or references.now place Ref.Free ≡ at) }
    ensures no { result ≡ false → place < length references.now → slice_index_or references.now place Ref.Free ≢ at }
{
    place < references.len() && references[place] == at
}

/// Notes a place under a number. An error is want of memory.
fn note_place(places: &mut Vec<u32>, number: u32, place: u32) -> Result<(), AllocError>
    ensures noted { OnOk result (slice_index_or places.new.items number 0 ≡ place) }
    ensures others { (n : ℕ) → n ≢ number
        → slice_index_or places.new.items n 0 ≡ slice_index_or places.old.items n 0 }
{
    let number = number as usize;
    if places.len() <= number {
        places.resize(number + 1, 0)?;
    }
    places[number] = place;
    Ok(())
}
