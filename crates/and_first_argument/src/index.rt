//! Clauses by any number of keys, which are found by a table.

ghost use Rattle.std.specs.Prelude.{◌≡◌, None, position, OnOk, OnErr};
ghost use Rattle.and_first_argument.specs.Keys.{same_key};

use crate::key::Key;
use crate::lists::ClauseLists;
use and_model::ClauseNo;
use indexmap::IndexSet;
use std::alloc::{AllocError, Global};
use std::marker::Model;

/// Clauses by keys, of which there may be any number.
///
/// Contracts see the keys that it has, in the order in which they came, and the lists of clauses.
pub struct KeyIndex {
    keys: IndexSet<Key>,
    lists: ClauseLists,
}

// By hand, so that it is proved once, here.
impl Drop for KeyIndex {
    fn drop(self) {
        let KeyIndex { keys: _, lists: _ } = self;
    }
}

impl Model for KeyIndex {
    ghost use Rattle.and_first_argument.specs.Tables.{Table, HasRows};

    ghost Value = { Table };

    ghost view = { λ s. record { keys = s.keys.keys; lists = s.lists } };

    ghost invariant = { λ s. HasRows (record { keys = s.keys.keys; lists = s.lists }) };
}

impl KeyIndex {
    ghost use Rattle.and_first_argument.specs.Tables.{empty, under, AddsUnder, AddsEverywhere};

    /// An index without keys and clauses. Takes no memory.
    pub fn new(alloc: Global) -> KeyIndex
        ensures { result ≡ empty }
    {
        KeyIndex {
            keys: IndexSet::new(alloc),
            lists: ClauseLists::new(alloc),
        }
    }

    /// Adds a clause under a key. An error is want of memory, and leaves the index as it was.
    pub fn add(&mut self, key: Key, clause: ClauseNo) -> Result<(), AllocError>
        ensures ok { OnOk result (AddsUnder key clause self.old self.new) }
        ensures unchanged { OnErr result (self.new ≡ self.old) }
    {
        match self.keys.get_index_of(&key) {
            Some(place) => self.lists.add(place, clause)?,
            None => self.add_key(key, clause)?,
        }
        Ok(())
    }

    /// Adds a clause under a key that is new. An error is want of memory, and leaves the index as it
    /// was.
    fn add_key(&mut self, key: Key, clause: ClauseNo) -> Result<(), AllocError>
        requires { position (same_key key) self.old.keys ≡ None }
        ensures ok { OnOk result (AddsUnder key clause self.old self.new) }
        ensures unchanged { OnErr result (self.new ≡ self.old) }
    {
        self.lists.add_row(clause)?;
        match self.keys.insert(key) {
            Ok(_) => Ok(()),
            Err(_) => {
                self.lists.remove_row();
                Err(AllocError)
            }
        }
    }

    /// Adds a clause under each key. An error is want of memory, and leaves the index as it was.
    pub fn add_any(&mut self, clause: ClauseNo) -> Result<(), AllocError>
        ensures ok { OnOk result (AddsEverywhere clause self.old self.new) }
        ensures unchanged { OnErr result (self.new ≡ self.old) }
    {
        self.lists.add_everywhere(clause)
    }

    /// The clauses that were added under this key or under each, in order of adding. Takes no memory.
    pub fn pick(&self, key: Key) -> &[ClauseNo]
        ensures { result.now ≡ under self.now key }
    {
        self.lists.at(self.keys.get_index_of(&key))
    }
}
