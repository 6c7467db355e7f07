//! Goals that are put and taken by two hands.

ghost use Rattle.std.specs.Prelude.{◌≡◌, ◌++◌, ◌∷◌, [], IfOk};
ghost use Rattle.and_goals.specs.Hands.{AreAllHands, seat_of};

use crate::saying::say;
use and_goals::{Hand, HandList, open_hands, rest};
use and_model::{ClauseNo, Goal};
use and_rows::Untold;
use std::alloc::Global;

/// Takes out the last hand.
fn last(hands: &mut HandList) -> Result<Hand, Untold>
    ensures { IfOk result (λ hand. hands.old ≡ hands.new ++ hand ∷ []) }
{
    match hands.pop() {
        Some(hand) => Ok(hand),
        None => Err(Untold::Memory),
    }
}

/// These hands, and one more.
fn with(hands: HandList, hand: Hand) -> Result<HandList, Untold>
    ensures { IfOk result (λ more. more ≡ hands ++ hand ∷ []) }
{
    let mut more = hands;
    match more.push(hand) {
        Ok(()) => Ok(more),
        Err(_) => Err(Untold::Memory),
    }
}

/// The goal with a number.
pub(crate) fn goal(number: u32) -> Goal {
    Goal {
        node: number,
        item: 0,
        clause: ClauseNo(0),
        base: number,
    }
}

/// Puts the goal of a number into a hand, or takes one out: `put N` or `take`.
fn act(alloc: Global, hand: &mut Hand, out: &mut String, call: &str) -> Result<(), Untold>
    ensures { seat_of hand.new ≡ seat_of hand.old }
{
    if call == "take" {
        let taken = hand.take();
        say(alloc, out, taken.map(|goal| goal.node))?;
        return Ok(());
    }
    let Some(number) = call.strip_prefix("put ") else {
        return Err(Untold::Malformed);
    };
    let Ok(number) = number.parse::<u32>() else {
        return Err(Untold::Malformed);
    };
    let is_put = hand.put(goal(number)).is_ok();
    if is_put { Ok(()) } else { Err(Untold::Memory) }
}

/// What a call of one of two hands answers: `1 put N` or the like.
fn call(
    alloc: Global,
    hand: &mut Hand,
    other: &mut Hand,
    out: &mut String,
    line: &str,
) -> Result<(), Untold>
    ensures hand { seat_of hand.new ≡ seat_of hand.old }
    ensures other { seat_of other.new ≡ seat_of other.old }
{
    if let Some(call) = line.strip_prefix("1 ") {
        return act(alloc, hand, out, call);
    }
    if let Some(call) = line.strip_prefix("2 ") {
        return act(alloc, other, out, call);
    }
    Err(Untold::Malformed)
}

/// Two hands, and the rest of all.
#[derive(Drop)]
struct Two {
    others: HandList,
    first: Hand,
    second: Hand,
}

/// Two hands that are opened together.
fn two_hands(alloc: Global) -> Result<Two, Untold>
    ensures { IfOk result (λ two. AreAllHands ((two.others ++ two.first ∷ []) ++ two.second ∷ [])) }
{
    let mut others = open_hands(alloc, 2)?;
    let second = last(&mut others)?;
    let first = last(&mut others)?;
    Ok(Two {
        others,
        first,
        second,
    })
}

/// What some calls of two hands answer.
fn calls(
    alloc: Global,
    first: &mut Hand,
    second: &mut Hand,
    out: &mut String,
    lines: &str,
) -> Result<(), Untold>
    ensures first { seat_of first.new ≡ seat_of first.old }
    ensures second { seat_of second.new ≡ seat_of second.old }
{
    for line in lines.lines() {
        call(alloc, first, second, out, line)?;
    }
    Ok(())
}

/// What the calls of two hands answer, and the goals that are left then.
pub(crate) fn tell(alloc: Global, lines: &str) -> Result<String, Untold> {
    let Two {
        others,
        mut first,
        mut second,
    } = two_hands(alloc)?;
    let mut out = String::new(alloc);
    calls(alloc, &mut first, &mut second, &mut out, lines)?;
    let most = with(others, first)?;
    let all = with(most, second)?;
    let Ok(goals) = rest(all) else {
        return Err(Untold::Memory);
    };
    say(alloc, &mut out, goals.len())?;
    for place in 0..goals.len() {
        say(alloc, &mut out, goals.at(place).node)?;
    }
    Ok(out)
}
