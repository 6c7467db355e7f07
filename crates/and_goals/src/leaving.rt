//! The goals that are left when all hands are laid down.

ghost use Rattle.std.specs.Prelude.{◌≡◌, ◌+◌, ◌<◌, ◌≤◌, ◌++◌, List, length, IfOk, IfErr, IfSome, vec_capacity};
ghost use Rattle.and_model.specs.declared.goal.Goal.{Goal};
ghost use Rattle.and_shares.specs.Bags.{SameBag};
ghost use Rattle.and_goals.specs.Hands.{IsDealt, AreAllHands, all_put, all_taken};

use crate::hand::{Hand, HandList};
use crate::opening::place_further;
use and_model::{Goal, GoalList};

/// How many goals these hands have put, where that is known.
fn all_puts(hands: &[Hand]) -> Option<u64>
    ensures { IfSome result (λ count. count ≡ length (all_put hands.now)) }
{
    let mut count: u64 = 0;
    for place in 0..hands.len() {
        count = count.checked_add(hands[place].puts()?)?;
    }
    Some(count)
}

/// Each hand gives up the last way that it was dealt to another deque, and the deque's own hand takes in what it knew.
fn gather_round(hands: &mut [Hand], further: usize)
    requires few { (further + 1 < length hands.old) × (length hands.old ≤ 8) }
    requires dealt { IsDealt (further + 1) hands.old }
    ensures len { length hands.new ≡ length hands.old }
    ensures dealt { IsDealt further hands.new }
    ensures put { all_put hands.new ≡ all_put hands.old }
    ensures taken { SameBag (all_taken hands.new) (all_taken hands.old) }
{
    for place in 0..hands.len() {
        let of = place_further(hands.len(), place, further);
        let other = hands[place].part();
        hands[of].take_in(other);
    }
}

/// Each hand gives up the ways to other deques, so that each deque's own hand has all parts of the right to know it.
fn gather(hands: &mut [Hand])
    requires { AreAllHands hands.old }
    ensures dealt { IsDealt 0 hands.new }
    ensures put { all_put hands.new ≡ all_put hands.old }
    ensures taken { SameBag (all_taken hands.new) (all_taken hands.old) }
{
    let rounds = hands.len() - 1;
    for done in 0..rounds {
        gather_round(hands, rounds - 1 - done);
    }
}

/// Moves the goals that are left in all these deques to the end of a list that has room for all that were put.
fn empty_all(hands: &mut [Hand], goals: &mut Vec<Goal>)
    requires gathered { IsDealt 0 hands.old }
    requires room { length goals.old.items + length (all_put hands.old) ≤ vec_capacity goals.old }
    ensures { (left : List Goal) × (goals.new.items ≡ goals.old.items ++ left)
        × SameBag (all_put hands.old) (all_taken hands.old ++ left) }
{
    for place in 0..hands.len() {
        hands[place].empty_into(goals);
    }
}

/// The goals that were put and not taken, each as often as it was put. They are in no order that a caller should rest
/// on. An error is want of memory, and hands the hands back.
pub fn rest(hands: HandList) -> Result<GoalList, HandList>
    requires { AreAllHands hands }
    ensures left { IfOk result (λ goals. SameBag (all_put hands) (all_taken hands ++ goals)) }
    ensures given_back { IfErr result (λ back. back ≡ hands) }
{
    let Some(puts) = all_puts(hands.hands.as_slice()) else {
        return Err(hands);
    };
    let mut goals = Vec::new(*hands.hands.allocator());
    if goals.reserve(puts as usize).is_err() {
        return Err(hands);
    }
    let HandList { mut hands } = hands;
    gather(hands.as_mut_slice());
    empty_all(hands.as_mut_slice(), &mut goals);
    Ok(GoalList::of_items(goals))
}
