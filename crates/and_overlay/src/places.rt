//! Places of a row, each once, in the order in which they were put in.

ghost use Rattle.std.specs.Prelude.{◌≡◌, ◌<◌, ◌≤◌, ◌⊎◌, ◌++◌, ◌∷◌, [], length, Some, Contains, IfSome, IsNone, OnOk};
ghost use Rattle.std.specs.Prelude.{slice_get, vec_len, vec_capacity};
ghost use Rattle.and_model.specs.Store.{AreDistinct};
ghost use Rattle.and_overlay.specs.Places.{Places};

use std::alloc::{AllocError, Global};
use std::marker::Model;

/// Places of a row, each once, in the order in which they were put in. Whether a place is among them is
/// known in one step, and taking all out takes no longer than to say so. A list takes 8 bytes for each
/// place for which it has room.
pub struct PlaceList {
    places: Vec<u32>,
    /// For each place of the row, where in the list it would stand: it is there only if it is found there.
    slots: Vec<u32>,
}

// By hand, so that it is proved once, here.
impl Drop for PlaceList {
    fn drop(self) {
        let PlaceList {
            places: _,
            slots: _,
        } = self;
    }
}

impl Model for PlaceList {
    ghost use Rattle.std.specs.Prelude.{length, vec_capacity};
    ghost use Rattle.and_overlay.specs.Places.{Places, AreKept};

    ghost Value = { Places };

    ghost view = { λ list. record { listed = list.places.items; room = length list.slots.items } };

    ghost invariant = { λ list. AreKept list.places.items list.slots.items (vec_capacity list.places) };
}

/// Puts a place at the end of a list that has room for it.
fn put(places: &mut Vec<u32>, place: u32)
    requires { vec_len places.old < vec_capacity places.old }
    ensures items { places.new.items ≡ places.old.items ++ place ∷ [] }
    ensures room { vec_capacity places.old ≤ vec_capacity places.new }
{
    if places.push(place).is_err() {
        unreachable!();
    }
}

impl PlaceList {
    /// No places, and room for none. Takes no memory.
    pub fn new(alloc: Global) -> PlaceList
        ensures { (result.listed ≡ []) × (result.room ≡ 0) }
    {
        PlaceList {
            places: Vec::new(alloc),
            slots: Vec::new(alloc),
        }
    }

    /// Makes room for the places of a row of so many words. An error is want of memory.
    pub fn make_room(&mut self, words: u32) -> Result<(), AllocError>
        ensures listed { self.new.listed ≡ self.old.listed }
        ensures room { (self.new.room ≡ self.old.room) ⊎ ((self.old.room < words) × (self.new.room ≡ words)) }
        ensures ok { OnOk result (words ≤ self.new.room) }
    {
        let words = words as usize;
        if self.slots.len() < words {
            self.places.reserve(words)?;
            self.slots.resize(words, 0)?;
        }
        Ok(())
    }

    /// For how many words there is room. Takes no memory.
    pub fn room(&self) -> u32
        ensures { result ≡ self.now.room }
    {
        self.slots.len() as u32
    }

    /// The places. Takes no memory.
    pub fn listed(&self) -> &[u32]
        ensures places { result.now ≡ self.now.listed }
        ensures once { AreDistinct result.now }
    {
        &self.places
    }

    /// Where in the list a place stands, if it does. Takes no memory.
    pub fn find(&self, place: u32) -> Option<u32>
        requires { place < self.now.room }
        ensures some { IfSome result (λ slot. slice_get self.now.listed slot ≡ Some place) }
        ensures none { IsNone result → Contains self.now.listed place → ⊥ }
    {
        let slot = self.slots[place as usize];
        match self.places.get(slot as usize) {
            Some(found) if *found == place => Some(slot),
            Some(_) => None,
            None => None,
        }
    }

    /// Puts a place at the end. Takes no memory.
    pub fn push(&mut self, place: u32)
        requires room { place < self.old.room }
        requires apart { Contains self.old.listed place → ⊥ }
        ensures listed { self.new.listed ≡ self.old.listed ++ place ∷ [] }
        ensures room { self.new.room ≡ self.old.room }
        ensures few { length self.new.listed ≤ self.new.room }
    {
        let slot = self.places.len() as u32;
        put(&mut self.places, place);
        self.slots[place as usize] = slot;
    }

    /// Takes all places out. Takes no memory.
    pub fn clear(&mut self)
        ensures listed { self.new.listed ≡ [] }
        ensures room { self.new.room ≡ self.old.room }
    {
        self.places.clear();
    }
}
