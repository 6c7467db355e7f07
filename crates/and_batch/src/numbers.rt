//! The queue of numbers, under the rule that each number that was put was taken once, or is still there.

ghost use Rattle.std.specs.Prelude.{◌≡◌, ◌+◌, ◌-◌, ◌<◌, ◌≤◌, ◌++◌, ◌∷◌, [], length, All, IfOk, OnOk};
ghost use Rattle.crossbeam_queue.specs.Passes.{view, IsPassOf, ruled_capacity};
ghost use Rattle.and_shares.specs.Balance.{share, HasLeft};
ghost use Rattle.and_batch.specs.Balance.{IsBalanced, below};

use and_shares::Share;
use crossbeam_queue::protocol::{Join, Lesson, Outcome, Protocol, Split};
use crossbeam_queue::{Pass, RuledArrayQueue};
use std::alloc::{AllocError, Global};
use std::sync::Wait;

/// The rule.
pub struct Fair;

impl Protocol<u32, Share<u32>> for Fair {
    ghost holds = { IsBalanced };

    ghost first = { share 9 [] [] };
}

/// A number is put.
pub struct Puts;

impl Outcome<u32, Share<u32>> for Puts {
    ghost then = { λ v x w. w ≡ share v.parts (v.put ++ x ∷ []) v.taken };
}

impl Lesson<u32, Share<u32>> for Puts {
    ghost fact = { HasLeft 9 };
}

/// A number is taken, or the queue is found empty.
pub struct Takes;

impl Outcome<u32, Share<u32>> for Takes {
    ghost then = { λ v x w. w ≡ share v.parts v.put (v.taken ++ x ∷ []) };
}

impl Lesson<u32, Share<u32>> for Takes {
    ghost fact = { HasLeft 9 };
}

/// How passes are made of one another, and put together again.
pub struct Cut;

impl Split<Share<u32>> for Cut {
    ghost left = { λ v. share (v.parts - 1) v.put v.taken };

    ghost right = { λ v. share 1 [] [] };
}

impl Join<Share<u32>> for Cut {
    ghost both = { λ v w. share (v.parts + w.parts) (v.put ++ w.put) (v.taken ++ w.taken) };

    ghost spent = { share 0 [] [] };
}

/// The numbers of jobs that nobody has taken yet.
pub type Numbers = RuledArrayQueue<u32, Share<u32>, Fair>;

/// What one thread may do with them.
pub type NumbersPass = Pass<u32, Share<u32>>;

/// Puts a number that nobody has taken yet. Who does so has all parts of the right to know the queue, which has room.
fn put<R: Wait>(rt: &R, numbers: &Numbers, pass: &mut NumbersPass, number: u32)
    requires pass { IsPassOf numbers.now pass.old }
    requires parts { (view pass.old).parts ≡ 9 }
    requires fresh { (view pass.old).taken ≡ [] }
    requires room { length (view pass.old).put < ruled_capacity numbers.now }
    ensures pass { IsPassOf numbers.now pass.new }
    ensures put { view pass.new ≡ share 9 ((view pass.old).put ++ number ∷ []) [] }
{
    match numbers.push_as::<Puts, R>(rt, pass, number) {
        Ok(()) => {}
        Err(_) => unreachable!(),
    }
}

/// The queue of the numbers below the count, in order, and the pass that knows all of it. An error is want of memory.
pub fn numbers_below<R: Wait>(
    rt: &R,
    alloc: Global,
    count: u32,
) -> Result<(Numbers, NumbersPass), AllocError>
    requires { count ≤ 256 }
    ensures pass { IfOk result (λ r. IsPassOf r.0 r.1) }
    ensures put { IfOk result (λ r. view r.1 ≡ share 9 (below count) []) }
{
    let (numbers, mut pass) = Numbers::ruled(alloc, count as usize + 1)?;
    for number in 0..count {
        put(rt, &numbers, &mut pass, number);
    }
    Ok((numbers, pass))
}

/// A pass for each worker, cut from the one that knows all of the queue. An error is want of memory.
pub fn passes_of(
    alloc: Global,
    numbers: &Numbers,
    whole: &mut NumbersPass,
    workers: u32,
) -> Result<Vec<NumbersPass>, AllocError>
    requires workers { workers ≤ 8 }
    requires pass { IsPassOf numbers.now whole.old }
    requires parts { (view whole.old).parts ≡ 9 }
    ensures pass { IsPassOf numbers.now whole.new }
    ensures rest { OnOk result (view whole.new ≡ share (9 - workers) (view whole.old).put (view whole.old).taken) }
    ensures len { IfOk result (λ passes. length passes.items ≡ workers) }
    ensures fresh { IfOk result
        (λ passes. All (λ p. IsPassOf numbers.now p × (view p ≡ share 1 [] [])) passes.items) }
{
    let mut passes = Vec::new(alloc);
    for _ in 0..workers {
        passes.push(numbers.another::<Cut>(whole))?;
    }
    Ok(passes)
}
