//! Hands over new deques, each of which has a way to the deques of all others.

ghost use Rattle.std.specs.Prelude.{◌≡◌, ◌+◌, ◌<◌, ◌≤◌, [], length, IfOk, OnOk};
ghost use Rattle.and_goals.specs.Hands.{IsDealt, AreAllHands, AreFresh, IsFurther};

use crate::hand::{Hand, HandList};
use std::alloc::{AllocError, Global};

/// The place so many places further than the next one, where the last is followed by the first.
pub(crate) fn place_further(hands: usize, place: usize, further: usize) -> usize
    requires { (place < hands) × (further + 1 < hands) × (hands ≤ 8) }
    ensures { IsFurther hands place further result }
{
    let to = place + 1 + further;
    if to < hands { to } else { to - hands }
}

/// Hands with empty deques, which know no others. An error is want of memory.
fn strangers(alloc: Global, count: u32) -> Result<Vec<Hand>, AllocError>
    ensures len { IfOk result (λ hands. length hands.items ≡ count) }
    ensures dealt { IfOk result (λ hands. IsDealt 0 hands.items) }
    ensures fresh { IfOk result (λ hands. AreFresh hands.items) }
{
    let mut hands = Vec::new(alloc);
    for _ in 0..count {
        hands.push(Hand::alone(alloc)?)?;
    }
    Ok(hands)
}

/// Each hand gets a way to one deque more, so many places further than the next one.
fn deal_round(hands: &mut [Hand], further: usize) -> Result<(), AllocError>
    requires few { (further + 1 < length hands.old) × (length hands.old ≤ 8) }
    requires dealt { IsDealt further hands.old }
    requires fresh { AreFresh hands.old }
    ensures len { length hands.new ≡ length hands.old }
    ensures dealt { OnOk result (IsDealt (further + 1) hands.new) }
    ensures fresh { OnOk result (AreFresh hands.new) }
{
    for place in 0..hands.len() {
        let of = place_further(hands.len(), place, further);
        let other = hands[of].guest()?;
        hands[place].meet(other)?;
    }
    Ok(())
}

/// Opens a deque for each worker. The hands are in the order of the workers, and each takes of the others' deques
/// too, from the next worker's on and round. An error is want of memory.
pub fn open_hands(alloc: Global, workers: u32) -> Result<HandList, AllocError>
    requires { (0 < workers) × (workers ≤ 8) }
    ensures len { IfOk result (λ hands. length hands ≡ workers) }
    ensures whole { IfOk result (λ hands. AreAllHands hands) }
    ensures fresh { IfOk result (λ hands. AreFresh hands) }
{
    let mut hands = strangers(alloc, workers)?;
    for further in 0..hands.len() - 1 {
        deal_round(hands.as_mut_slice(), further)?;
    }
    Ok(HandList { hands })
}
