//! The clauses of one predicate, by the key of a call's first argument.

ghost use Rattle.std.specs.Prelude.{◌≡◌, ◌≤◌, [], ◌∷◌, length, IfOk, OnOk};
ghost use Rattle.and_first_argument.specs.Tables.{under};
ghost use Rattle.and_first_argument.specs.Additions.{picked, keys_after, key_count, Adds};

use crate::index::KeyIndex;
use crate::key::Key;
use crate::switch::{Switch, SwitchFault};
use and_model::ClauseNo;
use indexmap::IndexSet;
use std::alloc::{AllocError, Global};

/// One clause of a predicate, with the keys that it serves.
#[derive(Clone, Copy, PartialEq, Eq, Debug)]
pub enum Addition {
    /// Its head's first argument has a key.
    Under {
        /// The key.
        key: Key,
        /// The clause.
        clause: ClauseNo,
    },
    /// Its head's first argument is a variable, or there is none: it serves every key.
    Any {
        /// The clause.
        clause: ClauseNo,
    },
}

/// The clauses of a predicate by keys, in the smallest table that holds them.
pub enum FirstArguments {
    /// At most 4 keys.
    Four(Switch<4>),
    /// At most 16 keys.
    Sixteen(Switch<16>),
    /// At most 64 keys.
    SixtyFour(Switch<64>),
    /// More keys.
    Indexed(KeyIndex),
}

// By hand, so that it is proved once, here.
impl Drop for FirstArguments {
    fn drop(self) {
        match self {
            FirstArguments::Four(_) => {}
            FirstArguments::Sixteen(_) => {}
            FirstArguments::SixtyFour(_) => {}
            FirstArguments::Indexed(_) => {}
        }
    }
}

impl FirstArguments {
    ghost use Rattle.and_first_argument.specs.FirstArguments.{clauses_under, IsSmallestFor};

    /// The table of these clauses. An error is want of memory.
    pub fn of(alloc: Global, additions: &[Addition]) -> Result<FirstArguments, AllocError>
        ensures picks { IfOk result (λ table. (key : Key) → clauses_under table key ≡ picked key additions.now) }
        ensures smallest { IfOk result (IsSmallestFor (key_count additions.now)) }
    {
        match count_keys(alloc, additions)? {
            0..=4 => Ok(FirstArguments::Four(switch_of(alloc, additions)?)),
            5..=16 => Ok(FirstArguments::Sixteen(switch_of(alloc, additions)?)),
            17..=64 => Ok(FirstArguments::SixtyFour(switch_of(alloc, additions)?)),
            _ => Ok(FirstArguments::Indexed(index_of(alloc, additions)?)),
        }
    }

    /// The clauses that serve this key, in order of adding. Takes no memory.
    #[inline(always)]
    pub fn pick(&self, key: Key) -> &[ClauseNo]
        ensures { result.now ≡ clauses_under self.now key }
    {
        match self {
            FirstArguments::Four(switch) => switch.pick(key),
            FirstArguments::Sixteen(switch) => switch.pick(key),
            FirstArguments::SixtyFour(switch) => switch.pick(key),
            FirstArguments::Indexed(index) => index.pick(key),
        }
    }
}

/// How many different keys the clauses have. An error is want of memory.
fn count_keys(alloc: Global, additions: &[Addition]) -> Result<usize, AllocError>
    ensures { IfOk result (λ count. count ≡ key_count additions.now) }
{
    let mut keys = IndexSet::new(alloc);
    for addition in additions {
        note_key(&mut keys, *addition)?;
    }
    Ok(keys.len())
}

/// Puts the key of a clause among the others. An error is want of memory.
fn note_key(keys: &mut IndexSet<Key>, addition: Addition) -> Result<(), AllocError>
    ensures { OnOk result (keys.new.keys ≡ keys_after keys.old.keys (addition ∷ [])) }
{
    if let Addition::Under { key, clause: _ } = addition {
        keys.insert(key)?;
    }
    Ok(())
}

/// A switch with one clause more, which has room for its key. An error is want of memory.
fn add_to_switch<const W: usize>(
    switch: &mut Switch<W>,
    addition: Addition,
) -> Result<(), AllocError>
    requires { length (keys_after switch.old.keys (addition ∷ [])) ≤ W }
    ensures { OnOk result (Adds addition switch.old switch.new) }
{
    match addition {
        Addition::Any { clause } => switch.add_any(clause),
        Addition::Under { key, clause } => match switch.add(key, clause) {
            Ok(()) => Ok(()),
            Err(SwitchFault::Memory) => Err(AllocError),
            Err(SwitchFault::Full { key: _ }) => unreachable!(),
        },
    }
}

/// The switch of these clauses, whose keys it can hold. An error is want of memory.
fn switch_of<const W: usize>(alloc: Global, additions: &[Addition]) -> Result<Switch<W>, AllocError>
    requires { key_count additions.now ≤ W }
    ensures { IfOk result (λ switch. (key : Key) → under switch key ≡ picked key additions.now) }
{
    let mut switch = Switch::new(alloc);
    for addition in additions {
        add_to_switch(&mut switch, *addition)?;
    }
    Ok(switch)
}

/// An index with one clause more. An error is want of memory.
fn add_to_index(index: &mut KeyIndex, addition: Addition) -> Result<(), AllocError>
    ensures { OnOk result (Adds addition index.old index.new) }
{
    match addition {
        Addition::Any { clause } => index.add_any(clause),
        Addition::Under { key, clause } => index.add(key, clause),
    }
}

/// The index of these clauses. An error is want of memory.
fn index_of(alloc: Global, additions: &[Addition]) -> Result<KeyIndex, AllocError>
    ensures { IfOk result (λ index. (key : Key) → under index key ≡ picked key additions.now) }
{
    let mut index = KeyIndex::new(alloc);
    for addition in additions {
        add_to_index(&mut index, *addition)?;
    }
    Ok(index)
}
