//! The keys that a team of a plain tree has in hand.

ghost use Rattle.std.specs.Prelude.{◌≡◌, ◌<◌, ◌+◌, ◌++◌, ◌∷◌, ◌↔◌, true, [], List, length, take, drop, Contains, OnOk};
ghost use Rattle.std.specs.Prelude.{OnErr, IfOk};
ghost use Rattle.and_model.specs.Codes.{numbers_of};
ghost use Rattle.and_histories.specs.PlainTree.{Key, in_place_of, children};

use and_model::{ClauseList, ClauseNo, Code};
use std::alloc::{AllocError, Global};
use std::cmp::Ordering;
use std::marker::Model;

/// The keys that a team has in hand.
#[derive(Drop)]
pub(crate) struct Hand {
    keys: Vec<Code>,
}

impl Model for Hand {
    ghost use Rattle.std.specs.Prelude.{List};
    ghost use Rattle.and_histories.specs.PlainTree.{Key};

    ghost Value = { List Key };

    ghost view = { λ hand. hand.keys.items };
}

impl Hand {
    /// The empty hand.
    pub(crate) fn new(alloc: Global) -> Hand
        ensures { result ≡ [] }
    {
        Hand {
            keys: Vec::new(alloc),
        }
    }

    /// Takes a key out.
    pub(crate) fn take_out(&mut self, key: &Code)
        requires { Contains self.old key.now }
        ensures { self.new ≡ in_place_of key.now [] self.old }
    {
        let place = place_of(self.keys.as_slice(), key);
        drop(self.keys.remove(place));
    }

    /// Puts other keys in the place of a key. An error is want of memory, and leaves the hand as it was.
    pub(crate) fn put_in_place(&mut self, key: &Code, others: Vec<Code>) -> Result<(), AllocError>
        requires { Contains self.old key.now }
        ensures ok { OnOk result (self.new ≡ in_place_of key.now others.items self.old) }
        ensures unchanged { OnErr result (self.new ≡ self.old) }
    {
        let place = place_of(self.keys.as_slice(), key);
        let behind = self.keys.len() - place - 1;
        let mut others = others;
        self.keys.reserve(others.len())?;
        self.keys.rotate_left(place);
        drop(self.keys.remove(0));
        let Ok(()) = self.keys.append(&mut others) else {
            unreachable!()
        };
        self.keys.rotate_left(behind);
        Ok(())
    }

    /// One key more, at the end. An error is want of memory, and leaves the hand as it was.
    pub(crate) fn add(&mut self, key: Code) -> Result<(), AllocError>
        ensures ok { OnOk result (self.new ≡ self.old ++ key ∷ []) }
        ensures unchanged { OnErr result (self.new ≡ self.old) }
    {
        self.keys.push(key)?;
        Ok(())
    }
}

/// Whether two keys are the same.
fn is_same(one: &Code, other: &Code) -> bool
    ensures { (result ≡ true) ↔ (one.now ≡ other.now) }
{
    one.order(other) == Ordering::Equal
}

/// The first place of a key.
fn place_of(hand: &[Code], key: &Code) -> usize
    requires { Contains hand.now key.now }
    ensures within { result < length hand.now }
    ensures first { (others : List Key) → in_place_of key.now others hand.now
        ≡ take result hand.now ++ others ++ drop (result + 1) hand.now }
{
    for place in 0..hand.len() {
        if is_same(&hand[place], key) {
            return place;
        }
    }
    unreachable!()
}

/// The longer key with a clause at its end. An error is want of memory.
fn child_of(longer: &Code, clause: ClauseNo) -> Result<Code, AllocError>
    ensures { IfOk result (λ key. key ≡ longer.now ++ clause.0 ∷ []) }
{
    let mut key = longer.copy()?;
    key.push(clause)?;
    Ok(key)
}

/// The longer key with each of the clauses at its end. An error is want of memory.
pub(crate) fn children_of(
    alloc: Global,
    longer: &Code,
    clauses: &ClauseList,
) -> Result<Vec<Code>, AllocError>
    ensures { IfOk result (λ keys. keys.items ≡ children longer.now (numbers_of clauses.now)) }
{
    let mut keys = Vec::with_capacity(alloc, clauses.len())?;
    for place in 0..clauses.len() {
        keys.push(child_of(longer, *clauses.at(place))?)?;
    }
    Ok(keys)
}
