//! Clauses by a bounded number of keys, which are looked through one by one.

ghost use Rattle.std.specs.Prelude.{◌≡◌, ◌<◌, Err, None, length, position, OnOk, OnErr};
ghost use Rattle.and_first_argument.specs.Keys.{same_key};

use crate::key::Key;
use crate::lists::ClauseLists;
use and_model::ClauseNo;
use std::alloc::{AllocError, Global};
use std::marker::Model;

/// Clauses by at most `W` keys.
///
/// Contracts see the keys that it has, in the order in which they came, and the lists of clauses.
pub struct Switch<const W: usize> {
    keys: Vec<Key>,
    lists: ClauseLists,
}

// By hand, so that it is proved once, here.
impl<const W: usize> Drop for Switch<W> {
    fn drop(self) {
        let Switch { keys: _, lists: _ } = self;
    }
}

impl<const W: usize> Model for Switch<W> {
    ghost use Rattle.std.specs.Prelude.{◌≤◌, length};
    ghost use Rattle.and_first_argument.specs.Tables.{Table, HasRows};

    ghost Value = { Table };

    ghost view = { λ s. record { keys = s.keys.items; lists = s.lists } };

    ghost invariant = { λ s. HasRows (record { keys = s.keys.items; lists = s.lists }) × (length s.keys.items ≤ W) };
}

/// Why a clause was not added.
#[derive(Clone, Copy, Debug, PartialEq, Eq)]
pub enum SwitchFault {
    /// The switch has as many keys as it can have, and this is none of them.
    Full {
        /// The key that was to be added.
        key: Key,
    },
    /// Want of memory.
    Memory,
}

impl From<AllocError> for SwitchFault {
    ghost use Rattle.std.specs.Prelude.{◌≡◌};
    ghost use Rattle.and_first_argument.specs.declared.switch.SwitchFault.TheVariants.{Memory};

    ghost from_gives = { λ _ fault. fault ≡ Memory };

    fn from(_error: AllocError) -> SwitchFault {
        SwitchFault::Memory
    }
}

/// The place of a key among some.
fn place_of(keys: &[Key], key: Key) -> Option<usize>
    ensures { result ≡ position (same_key key) keys.now }
{
    keys.iter().position(|held| *held == key)
}

impl<const W: usize> Switch<W> {
    ghost use Rattle.and_first_argument.specs.Tables.{empty, under, AddsUnder, AddsEverywhere, IsFullFor};

    /// A switch without keys and clauses. Takes no memory.
    pub fn new(alloc: Global) -> Switch<W>
        ensures { result ≡ empty }
    {
        Switch {
            keys: Vec::new(alloc),
            lists: ClauseLists::new(alloc),
        }
    }

    /// Adds a clause under a key. Refused, the switch is as before.
    pub fn add(&mut self, key: Key, clause: ClauseNo) -> Result<(), SwitchFault>
        ensures ok { OnOk result (AddsUnder key clause self.old self.new) }
        ensures unchanged { OnErr result (self.new ≡ self.old) }

        // `Full` comes exactly where the switch has W keys and this is none of them.
        ensures full { IsFullFor key W self.old → result ≡ Err (SwitchFault.Full key) }
        ensures only_full { (refused : Key) → result ≡ Err (SwitchFault.Full refused)
            → (refused ≡ key) × IsFullFor key W self.old }
    {
        match place_of(&self.keys, key) {
            Some(place) => self.lists.add(place, clause)?,
            None if self.keys.len() == W => return Err(SwitchFault::Full { key }),
            None => self.add_key(key, clause)?,
        }
        Ok(())
    }

    /// Adds a clause under a key that is new. An error is want of memory, and leaves the switch as it
    /// was.
    fn add_key(&mut self, key: Key, clause: ClauseNo) -> Result<(), AllocError>
        requires fresh { position (same_key key) self.old.keys ≡ None }
        requires room { length self.old.keys < W }
        ensures ok { OnOk result (AddsUnder key clause self.old self.new) }
        ensures unchanged { OnErr result (self.new ≡ self.old) }
    {
        self.lists.add_row(clause)?;
        match self.keys.push(key) {
            Ok(()) => Ok(()),
            Err(_) => {
                self.lists.remove_row();
                Err(AllocError)
            }
        }
    }

    /// Adds a clause under each key. An error is want of memory, and leaves the switch as it was.
    pub fn add_any(&mut self, clause: ClauseNo) -> Result<(), AllocError>
        ensures ok { OnOk result (AddsEverywhere clause self.old self.new) }
        ensures unchanged { OnErr result (self.new ≡ self.old) }
    {
        self.lists.add_everywhere(clause)
    }

    /// The clauses that were added under this key or under each, in order of adding. Takes no memory.
    pub fn pick(&self, key: Key) -> &[ClauseNo]
        ensures { result.now ≡ under self.now key }
    {
        self.lists.at(place_of(&self.keys, key))
    }
}
