//! The memory that overlays need, kept for the next one.

ghost use Rattle.std.specs.Prelude.{◌≡◌, ◌≢◌, ◌<◌, ◌≤◌, ◌++◌, ◌∷◌, ◌⊎◌, [], length, map, Contains, Some, IfSome};
ghost use Rattle.std.specs.Prelude.{IsNone, OnOk, vec_len, vec_capacity};
ghost use Rattle.and_model.specs.Store.{AreDistinct};
ghost use Rattle.and_model.specs.declared.reference.Ref.{Ref};

use crate::places::PlaceList;
use and_cells::Cells;
use and_cells::plain::is_unset;
use and_model::Ref;
use std::alloc::{AllocError, Global};
use std::snapshot::Snapshot;

/// What a cell was set to in an overlay.
pub struct OwnSetting<C: Cells> {
    pub place: u32,
    pub value: Ref,
    /// The cells below as they were then, which only contracts see.
    pub below: Snapshot<C>,
}

// By hand, so that it is proved once, here.
impl<C: Cells> Drop for OwnSetting<C> {
    fn drop(self) {
        let OwnSetting {
            place: _,
            value: _,
            below: _,
        } = self;
    }
}

/// The memory that an overlay needs, which the next one uses again: at most 32 bytes for each word of the
/// row below and of the frame on it. It grows to that once.
pub struct Scratch<C: Cells> {
    /// The places that were set,
    places: PlaceList,
    /// and what they were set to, in the same order.
    settings: Vec<OwnSetting<C>>,
    /// The places of the row below that were found free.
    looked: PlaceList,
    ghost settings_stand: { map (λ s. s.place) settings.items ≡ places.listed },
    ghost settings_room: { places.room ≤ vec_capacity settings },
}

// By hand, so that it is proved once, here.
impl<C: Cells> Drop for Scratch<C> {
    fn drop(self) {
        let Scratch {
            places: _,
            settings: _,
            looked: _,
        } = self;
    }
}

/// Puts a setting at the end of a list that has room for it.
fn put<C: Cells>(settings: &mut Vec<OwnSetting<C>>, setting: OwnSetting<C>)
    requires { vec_len settings.old < vec_capacity settings.old }
    ensures items { settings.new.items ≡ settings.old.items ++ setting ∷ [] }
    ensures room { vec_capacity settings.old ≤ vec_capacity settings.new }
{
    if settings.push(setting).is_err() {
        unreachable!();
    }
}

impl<C: Cells> Scratch<C> {
    /// Nothing yet, and no room. Takes no memory.
    pub fn new(alloc: Global) -> Scratch<C>
        ensures { (result.settings.items ≡ []) × (result.looked.listed ≡ []) }
    {
        Scratch {
            places: PlaceList::new(alloc),
            settings: Vec::new(alloc),
            looked: PlaceList::new(alloc),
        }
    }

    /// Makes room for overlays whose row below and frame have so many words together. An error is want of
    /// memory.
    pub fn make_room(&mut self, words: u32) -> Result<(), AllocError>
        ensures ok { OnOk result ((words ≤ self.new.places.room) × (words ≤ self.new.looked.room)) }
        ensures settings { self.new.settings.items ≡ self.old.settings.items }
        ensures looked { self.new.looked.listed ≡ self.old.looked.listed }
    {
        self.looked.make_room(words)?;
        if self.places.room() < words {
            self.settings.reserve(words as usize)?;
            self.places.make_room(words)?;
        }
        Ok(())
    }

    /// What a place was set to, if it was. Takes no memory.
    pub(crate) fn value_at(&self, place: u32) -> Option<Ref>
        requires { place < self.now.places.room }
        ensures some { IfSome result (λ value. (setting : _) × Contains self.now.settings.items setting
            × (setting.place ≡ place) × (setting.value ≡ value)) }
        ensures none { IsNone result → Contains (map (λ s. s.place) self.now.settings.items) place → ⊥ }
    {
        match self.places.find(place) {
            Some(slot) => Some(self.settings[slot as usize].value),
            None => None,
        }
    }

    /// Puts a setting at the end, of a place that is not set yet. Takes no memory.
    pub(crate) fn set(&mut self, setting: OwnSetting<C>)
        requires room { setting.place < self.old.places.room }
        requires apart { Contains (map (λ s. s.place) self.old.settings.items) setting.place → ⊥ }
        ensures settings { self.new.settings.items ≡ self.old.settings.items ++ setting ∷ [] }
        ensures looked { self.new.looked ≡ self.old.looked }
        ensures room { self.new.places.room ≡ self.old.places.room }
    {
        self.places.push(setting.place);
        put(&mut self.settings, setting);
    }

    /// Notes that a place of the row below was found free. Takes no memory.
    fn note(&mut self, place: u32)
        requires { place < self.old.looked.room }
        ensures looked { (self.new.looked.listed ≡ self.old.looked.listed)
            ⊎ (self.new.looked.listed ≡ self.old.looked.listed ++ place ∷ []) }
        ensures noted { Contains self.new.looked.listed place }
        ensures settings { self.new.settings.items ≡ self.old.settings.items }
        ensures room { (self.new.places.room ≡ self.old.places.room) × (self.new.looked.room ≡ self.old.looked.room) }
    {
        if self.looked.find(place).is_none() {
            self.looked.push(place);
        }
    }

    /// Notes a place of the row below if its word was found free. Takes no memory.
    pub(crate) fn note_if_free(&mut self, place: u32, word: Ref)
        requires { place < self.old.looked.room }
        ensures set { word ≢ Ref.Free → self.new.looked.listed ≡ self.old.looked.listed }
        ensures free { word ≡ Ref.Free
            → ((self.new.looked.listed ≡ self.old.looked.listed)
            ⊎ (self.new.looked.listed ≡ self.old.looked.listed ++ place ∷ []))
            × Contains self.new.looked.listed place }
        ensures settings { self.new.settings.items ≡ self.old.settings.items }
        ensures room { (self.new.places.room ≡ self.old.places.room) × (self.new.looked.room ≡ self.old.looked.room) }
    {
        if is_unset(word) {
            self.note(place);
        }
    }

    /// Forgets what was set. Takes no memory.
    pub(crate) fn forget_settings(&mut self)
        ensures settings { self.new.settings.items ≡ [] }
        ensures looked { self.new.looked ≡ self.old.looked }
        ensures room { self.new.places.room ≡ self.old.places.room }
    {
        self.places.clear();
        self.settings.clear();
    }

    /// Forgets which places were found free. Takes no memory.
    pub(crate) fn forget_looks(&mut self)
        ensures settings { self.new.settings.items ≡ self.old.settings.items }
        ensures looked { self.new.looked.listed ≡ [] }
        ensures room { (self.new.places.room ≡ self.old.places.room) × (self.new.looked.room ≡ self.old.looked.room) }
    {
        self.looked.clear();
    }

    /// The places that were set, in order. Takes no memory.
    pub(crate) fn bound(&self) -> &[u32]
        ensures { result.now ≡ map (λ s. s.place) self.now.settings.items }
    {
        self.places.listed()
    }

    /// The places of the row below that trials found free since an overlay was made with this memory, each
    /// once. Takes no memory.
    pub fn looked(&self) -> &[u32]
        ensures places { result.now ≡ self.now.looked.listed }
        ensures once { AreDistinct result.now }
    {
        self.looked.listed()
    }
}
