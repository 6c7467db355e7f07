//! A deque of goals under the rule that each goal which was put was taken once, or is still there.

ghost use Rattle.std.specs.Prelude.{◌≡◌, ◌+◌, ◌-◌, ◌<◌, ◌≤◌, ◌++◌, [], length, vec_capacity};
ghost use Rattle.crossbeam_deque.specs.Handles.{worker_view, worker_flavor, SameWorker};
ghost use Rattle.and_shares.specs.Balance.{share, HasLeft};
ghost use Rattle.and_goals.specs.Balance.{IsBalanced, WasEmpty, MovesOne, MovesRest};

use and_model::Goal;
use and_shares::Share;
use crossbeam_deque::protocol::{Join, Lesson, Outcome, Protocol, Split};
use crossbeam_deque::{Pass, Stealer, Worker};
use std::alloc::Global;

/// The rule.
pub struct Fair;

impl Protocol<Goal, Share<Goal>> for Fair {
    ghost holds = { IsBalanced };

    ghost first = { share 8 [] [] };

    ghost guest = { share 0 [] [] };
}

/// A goal is put.
pub struct Puts;

impl Outcome<Goal, Share<Goal>> for Puts {
    ghost then = { λ v xs w. w ≡ share v.parts (v.put ++ xs) v.taken };
}

/// A goal is taken, or the deque is found empty.
pub struct Takes;

impl Outcome<Goal, Share<Goal>> for Takes {
    ghost then = { λ v xs w. w ≡ share v.parts v.put (v.taken ++ xs) };

    ghost empty = { WasEmpty };
}

/// How passes are made of one another, and put together again.
pub struct Cut;

impl Split<Share<Goal>> for Cut {
    ghost left = { λ v. share (v.parts - 1) v.put v.taken };

    ghost right = { λ v. share 1 [] [] };
}

impl Join<Share<Goal>> for Cut {
    ghost both = { λ v w. share (v.parts + w.parts) (v.put ++ w.put) (v.taken ++ w.taken) };

    ghost spent = { share 0 [] [] };
}

/// How many goals a deque holds, and what that says to who knows all of it.
pub struct Count;

impl Lesson<Goal, Share<Goal>> for Count {
    ghost fact = { HasLeft 8 };
}

/// The end of a deque at which its own worker puts and takes.
pub type Owner = Worker<Goal, Global, Share<Goal>, Fair>;

/// The end of a deque at which others take.
pub type Thief = Stealer<Goal, Global, Share<Goal>, Fair>;

/// The pass of such another.
pub type Guest = Pass<Goal, Share<Goal>, Global>;

/// Moves the first goal of a deque to the end of a list that has room for it, if there is one.
fn move_one(owner: &mut Owner, goals: &mut Vec<Goal>)
    requires fifo { worker_flavor owner.old ≡ 0 }
    requires part { 0 < (worker_view owner.old).parts }
    requires room { length goals.old.items < vec_capacity goals.old }
    ensures same { SameWorker owner.old owner.new }
    ensures capacity { vec_capacity goals.new ≡ vec_capacity goals.old }
    ensures moved { MovesOne (worker_view owner.old) (worker_view owner.new) goals.old.items goals.new.items }
{
    let Some(goal) = owner.pop_as::<Takes>() else {
        return;
    };
    goals.push_reserved(goal);
}

/// Moves all goals of a deque to the end of a list that has room for all that were put. Who does so has all parts of
/// the right to know it.
pub(crate) fn empty(owner: &mut Owner, goals: &mut Vec<Goal>)
    requires fifo { worker_flavor owner.old ≡ 0 }
    requires parts { (worker_view owner.old).parts ≡ 8 }
    requires room { length goals.old.items + length (worker_view owner.old).put ≤ vec_capacity goals.old }
    ensures same { SameWorker owner.old owner.new }
    ensures put { (worker_view owner.new).put ≡ (worker_view owner.old).put }
    ensures parts { (worker_view owner.new).parts ≡ 8 }
    ensures capacity { vec_capacity goals.new ≡ vec_capacity goals.old }
    ensures moved { MovesRest (worker_view owner.old) goals.old.items goals.new.items }
{
    let left = owner.len_as::<Count>();
    for _ in 0..left {
        move_one(owner, goals);
    }
    owner.len_as::<Count>();
}
