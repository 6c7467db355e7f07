//! The cells of an expression whose terms were come to, with the values of these.

ghost use Rattle.std.specs.Prelude.{◌≡◌, ◌<◌, ◌^◌, ◌++◌, ◌∷◌, [], ℕ, ℤ, Option, Some, None, length, get_or, Contains};
ghost use Rattle.std.specs.Prelude.{OnOk};
ghost use Rattle.and_arith.specs.Taken.{IsNew, Gives, no_entry, entry_of};
ghost use Rattle.and_arith.specs.declared.taken.Lookup.{Lookup};

use std::alloc::{AllocError, Global};
use std::marker::Model;

/// A cell that was taken.
#[derive(Clone, Copy, PartialEq, Eq, Debug)]
pub(crate) struct Entry {
    cell: u32,
    value: Option<i64>,
}

/// What was found where a cell was looked for.
#[derive(Clone, Copy, PartialEq, Eq, Debug)]
pub(crate) enum Lookup {
    /// It was taken, and has this value so far.
    Taken(Option<i64>),
    /// It was not taken.
    New,
}

/// The cells that were taken, each once, as a sparse set (Briggs and Torczon, 1993): a cell's slot says
/// where its entry would stand, and counts only where the entry there is the cell's. So no slot has to
/// be undone where all cells are forgotten.
pub(crate) struct Taken {
    entries: Vec<Entry>,
    /// By cell.
    slots: Vec<usize>,
}

// By hand, so that it is proved once, here.
impl Drop for Taken {
    fn drop(self) {
        let Taken {
            entries: _,
            slots: _,
        } = self;
    }
}

impl Model for Taken {
    ghost use Rattle.std.specs.Prelude.{List, ℕ, ℤ, Option, map};
    ghost use Rattle.and_arith.specs.Taken.{entry_of, AreSlotted};

    ghost Value = { List (ℕ × Option ℤ) };

    ghost view = { λ taken. map entry_of taken.entries.items };

    ghost invariant = { λ taken. AreSlotted taken.slots.items taken.entries.items };
}

impl Taken {
    /// No cell was taken. Takes no memory.
    pub(crate) fn new(alloc: Global) -> Taken
        ensures { result ≡ [] }
    {
        Taken {
            entries: Vec::new(alloc),
            slots: Vec::new(alloc),
        }
    }

    /// No cell is taken any more. Takes no memory.
    pub(crate) fn clear(&mut self)
        ensures { self.new ≡ [] }
    {
        self.entries.clear();
    }

    /// The value of a cell, if it was taken. Takes no memory.
    pub(crate) fn of(&self, cell: u32) -> Lookup
        ensures taken { (v : Option ℤ) → result ≡ Lookup.Taken v → Contains self.now (cell, v) }
        ensures new { result ≡ Lookup.New → IsNew self.now cell }
    {
        match self.position(cell) {
            Some(place) => Lookup::Taken(self.entries[place].value),
            None => Lookup::New,
        }
    }

    /// Takes a cell, which has no value so far. An error is want of memory.
    pub(crate) fn take(&mut self, cell: u32) -> Result<(), AllocError>
        requires { IsNew self.old cell }
        ensures ok { OnOk result (self.new ≡ self.old ++ (cell, None) ∷ []) }
        ensures few { OnOk result (length self.new < 2 ^ 63) }
    {
        make_slot(&mut self.slots, cell)?;
        let place = self.entries.len();
        self.entries.push(Entry { cell, value: None })?;
        self.slots[cell as usize] = place;
        self.few();
        Ok(())
    }

    /// Gives a cell that was taken its value. Takes no memory.
    pub(crate) fn give(&mut self, cell: u32, value: Option<i64>)
        requires { IsNew self.old cell → ⊥ }
        ensures { Gives cell value self.old self.new }
    {
        match self.position(cell) {
            Some(place) => self.entries[place].value = value,
            None => unreachable!(),
        }
    }

    /// Where the entry of a cell stands, if it was taken.
    fn position(&self, cell: u32) -> Option<usize>
        ensures some { (i : ℕ) → result ≡ Some i
            → (i < length self.now) × ((get_or self.now i (entry_of no_entry)).0 ≡ cell) }
        ensures none { result ≡ None → IsNew self.now cell }
    {
        let place = slot(&self.slots, cell);
        if place >= self.entries.len() {
            return None;
        }
        if self.entries[place].cell != cell {
            return None;
        }
        Some(place)
    }

    /// No machine holds as many entries.
    fn few(&self)
        ensures { length self.now < 2 ^ 63 }
    {
        self.entries.len();
    }
}

/// The slot of a cell, where it has one.
fn slot(slots: &[usize], cell: u32) -> usize
    ensures { result ≡ get_or slots.now cell 0 }
{
    match slots.get(cell as usize) {
        Some(place) => *place,
        None => 0,
    }
}

/// Makes slots up to that of a cell, if there are fewer. An error is want of memory.
fn make_slot(slots: &mut Vec<usize>, cell: u32) -> Result<(), AllocError>
    ensures there { OnOk result (cell < length slots.new.items) }
    ensures same { (c : ℕ) → get_or slots.new.items c 0 ≡ get_or slots.old.items c 0 }
{
    let room = cell as usize + 1;
    if slots.len() < room {
        slots.resize(room, 0)?;
    }
    Ok(())
}
