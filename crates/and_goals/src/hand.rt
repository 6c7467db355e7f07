//! A hand: a worker's own deque, and the way to those of the others.

ghost use Rattle.std.specs.Prelude.{◌≡◌, ◌+◌, ◌-◌, ◌<◌, ◌++◌, ◌∷◌, ◌≢◌, List, [], length, IfSome, IfNone, IfOk, IfErr};
ghost use Rattle.std.specs.Prelude.{OnOk, OnErr, slice_get, Some, ℕ, ◌≤◌, vec_capacity};
ghost use Rattle.and_shares.specs.Balance.{share};
ghost use Rattle.and_goals.specs.Balance.{MovesRest};
ghost use Rattle.and_goals.specs.Hands.{OtherSeen, HandSeen, GivesOne, GivesNone, TakesOne, TakesNone, Steals};
ghost use Rattle.and_goals.specs.Hands.{AllGiveNone, IsCountOf, HasTaken, putting, seat_of};

use crate::deque::{Cut, Guest, Owner, Puts, Takes, Thief, empty};
use and_model::Goal;
use crossbeam_deque::Steal;
use std::alloc::{AllocError, Global};
use std::marker::Model;

/// How many slots a deque begins with.
const FIRST_SLOTS: usize = 64;

/// The way to the deque of another hand.
#[derive(Drop)]
pub(crate) struct Other {
    thief: Thief,
    pass: Guest,
}

impl Model for Other {
    ghost use Rattle.std.specs.Prelude.{◌≡◌, []};
    ghost use Rattle.crossbeam_deque.specs.Handles.{taken, IsPassOf, stealer_deque, stealer_flavor};
    ghost use Rattle.and_goals.specs.Hands.{OtherSeen, known_by};

    ghost Value = { OtherSeen };

    ghost view = { λ o. record { deque = stealer_deque o.thief; known = known_by o.pass; gone = taken o.pass } };

    ghost invariant = { λ o. IsPassOf (stealer_deque o.thief) o.pass
        × (stealer_flavor o.thief ≡ 0)
        × ((known_by o.pass).parts ≡ 1)
        × ((known_by o.pass).put ≡ []) };
}

impl Other {
    /// Takes the goal at the front, if a steal gives it.
    fn take(&mut self) -> Option<Goal>
        ensures some { IfSome result (λ goal. GivesOne goal self.old self.new) }
        ensures none { IfNone result (GivesNone self.old self.new) }
    {
        match self.thief.steal_as::<Takes>(&mut self.pass) {
            Steal::Success(goal) => Some(goal),
            Steal::Empty => None,
            Steal::Retry => None,
        }
    }
}

/// A worker's goals. The worker puts goals at the back of its own deque and takes them from the front, and where
/// there are none it takes those of the others. A hand belongs to one worker at a time, and takes no locks.
pub struct Hand {
    own: Owner,
    others: Vec<Other>,
    puts: Option<u64>,
}

// By hand, so that it is proved once, here.
impl Drop for Hand {
    fn drop(self) {
        let Hand {
            own: _,
            others: _,
            puts: _,
        } = self;
    }
}

impl Model for Hand {
    ghost use Rattle.std.specs.Prelude.{◌≡◌, ◌<◌, length};
    ghost use Rattle.crossbeam_deque.specs.Handles.{worker_deque, worker_flavor, worker_view};
    ghost use Rattle.and_goals.specs.Hands.{HandSeen, IsCountOf};

    ghost Value = { HandSeen };

    ghost view = { λ h. record { deque = worker_deque h.own; own = worker_view h.own; others = h.others.items } };

    ghost invariant = { λ h. (worker_flavor h.own ≡ 0)
        × (0 < (worker_view h.own).parts)
        × IsCountOf h.puts (length (worker_view h.own).put) };
}

/// One more, where the number is known and can be written.
fn one_more(count: Option<u64>) -> Option<u64>
    ensures { IfSome result (λ more. (k : ℕ) × (count ≡ Some k) × (more ≡ k + 1)) }
{
    count?.checked_add(1)
}

impl Hand {
    /// A hand with an empty deque, which knows no other. An error is want of memory.
    pub(crate) fn alone(alloc: Global) -> Result<Hand, AllocError>
        ensures own { IfOk result (λ hand. hand.own ≡ share 8 [] []) }
        ensures others { IfOk result (λ hand. hand.others ≡ []) }
    {
        Ok(Hand {
            own: Owner::fifo_as(alloc, FIRST_SLOTS)?,
            others: Vec::new(alloc),
            puts: Some(0),
        })
    }

    /// A way to this hand's deque, for another hand. An error is want of memory.
    pub(crate) fn guest(&mut self) -> Result<Other, AllocError>
        requires { 1 < self.old.own.parts }
        ensures hand { OnOk result
            (self.new ≡ record self.old
            { own = share (self.old.own.parts - 1) self.old.own.put self.old.own.taken }) }
        ensures guest { IfOk result (λ other. (other.deque ≡ self.old.deque) × (other.known ≡ share 1 [] [])) }
    {
        Ok(Other {
            thief: self.own.stealer()?,
            pass: self.own.another::<Cut>(),
        })
    }

    /// The hand takes goals of this deque too, after those of which it did before. An error is want of memory.
    pub(crate) fn meet(&mut self, other: Other) -> Result<(), AllocError>
        requires { other.known.taken ≡ [] }
        ensures { OnOk result (self.new ≡ record self.old { others = self.old.others ++ other ∷ [] }) }
    {
        self.others.push(other)?;
        Ok(())
    }

    /// Gives the way to the last of the other deques back. Takes no memory.
    pub(crate) fn part(&mut self) -> Other
        requires { self.old.others ≢ [] }
        ensures { self.old ≡ record self.new { others = self.new.others ++ result ∷ [] } }
    {
        match self.others.pop() {
            Some(other) => other,
            None => unreachable!(),
        }
    }

    /// Takes in what another knew of this hand's deque. Takes no memory.
    pub(crate) fn take_in(&mut self, other: Other)
        requires { other.deque ≡ self.old.deque }
        ensures { self.new ≡ record self.old {
          own =
              share (self.old.own.parts + 1) self.old.own.put (self.old.own.taken ++ other.known.taken);
        } }
    {
        let Other { thief: _, pass } = other;
        self.own.absorb::<Cut>(pass);
    }

    /// Puts a goal behind the others of this hand. The goal comes back where the deque refuses it, as for want of
    /// memory.
    pub fn put(&mut self, goal: Goal) -> Result<(), Goal>
        ensures seat { seat_of self.new ≡ seat_of self.old }
        ensures ok { OnOk result (self.new ≡ putting goal self.old) }
        ensures unchanged { OnErr result (self.new ≡ self.old) }
        ensures given_back { IfErr result (λ back. back ≡ goal) }
    {
        self.own.push_as::<Puts>(goal)?;
        self.puts = one_more(self.puts);
        Ok(())
    }

    /// How many goals the hand has put, where that is known. Takes no memory.
    pub(crate) fn puts(&self) -> Option<u64>
        ensures { IsCountOf result (length self.now.own.put) }
    {
        self.puts
    }

    /// Moves the goals that are left in this hand's deque to the end of a list that has room for all that were put.
    pub(crate) fn empty_into(&mut self, goals: &mut Vec<Goal>)
        requires parts { self.old.own.parts ≡ 8 }
        requires room { length goals.old.items + length self.old.own.put ≤ vec_capacity goals.old }
        ensures capacity { vec_capacity goals.new ≡ vec_capacity goals.old }
        ensures moved { MovesRest self.old.own goals.old.items goals.new.items }
    {
        empty(&mut self.own, goals);
    }

    /// Takes the first goal of this hand or, where it finds none, the first of another. The others are tried once
    /// each, in order from the next hand on and round. `None` comes only where each deque was tried in vain: a goal
    /// that another hand put or gave up at the same time may be there all the same. Takes no memory.
    pub fn take(&mut self) -> Option<Goal>
        ensures seat { seat_of self.new ≡ seat_of self.old }
        ensures taken { HasTaken result self.old self.new }
        ensures some { IfSome result (λ goal. TakesOne goal self.old self.new) }
        ensures none { IfNone result (TakesNone self.old self.new) }
    {
        if let Some(goal) = self.own.pop_as::<Takes>() {
            return Some(goal);
        }
        take_of(self.others.as_mut_slice())
    }
}

/// Takes a goal of the first of these deques that gives one.
fn take_of(others: &mut [Other]) -> Option<Goal>
    ensures some { IfSome result (λ goal. Steals goal others.old others.new) }
    ensures none { IfNone result (AllGiveNone others.old others.new) }
{
    for place in 0..others.len() {
        if let Some(goal) = others[place].take() {
            return Some(goal);
        }
    }
    None
}

/// The hands of all workers, in order.
#[derive(Drop)]
pub struct HandList {
    pub(crate) hands: Vec<Hand>,
}

impl Model for HandList {
    ghost use Rattle.std.specs.Prelude.{List};
    ghost use Rattle.and_goals.specs.Hands.{HandSeen};

    ghost Value = { List HandSeen };

    ghost view = { λ list. list.hands.items };
}

impl HandList {
    /// The empty list. Takes no memory.
    pub fn new(alloc: Global) -> HandList
        ensures { result ≡ [] }
    {
        HandList {
            hands: Vec::new(alloc),
        }
    }

    /// How many hands there are. Takes no memory.
    pub fn len(&self) -> usize
        ensures { result ≡ length self.now }
    {
        self.hands.len()
    }

    /// The hand at a place, counted from 0. Takes no memory.
    pub fn at(&self, place: usize) -> &Hand
        requires { place < length self.now }
        ensures { slice_get self.now place ≡ Some result.now }
    {
        &self.hands[place]
    }

    /// Takes out the last hand; `None` where there is none. Takes no memory.
    pub fn pop(&mut self) -> Option<Hand>
        ensures none { IfNone result ((self.old ≡ []) × (self.new ≡ [])) }
        ensures last { IfSome result (λ hand. self.old ≡ self.new ++ hand ∷ []) }
    {
        self.hands.pop()
    }

    /// Puts a hand at the end. An error is want of memory, and hands the hand back.
    pub fn push(&mut self, hand: Hand) -> Result<(), Hand>
        ensures ok { OnOk result (self.new ≡ self.old ++ hand ∷ []) }
        ensures unchanged { OnErr result (self.new ≡ self.old) }
        ensures given_back { IfErr result (λ back. back ≡ hand) }
    {
        self.hands.push(hand).map_err(|refused| refused.value)
    }
}
