//! How a worker does jobs until no number is left.

ghost use Rattle.std.specs.Prelude.{◌≡◌, ◌<◌, [], ◌∷◌, ◌++◌, IfOk, OnOk};
ghost use Rattle.crossbeam_queue.specs.Passes.{view, IsPassOf};
ghost use Rattle.and_shares.specs.Balance.{HasLeft};
ghost use Rattle.and_batch.specs.Dones.{DoneSeen};
ghost use Rattle.and_batch.specs.Working.{AreDue, TookThese};

use crate::job::{Done, Ticket, Trade};
use crate::numbers::{Numbers, NumbersPass, Takes};
use std::alloc::{AllocError, Global};
use std::sync::Wait;

/// A worker's pass, and what came of the jobs that it did.
#[derive(Drop)]
pub struct Worked {
    pub pass: NumbersPass,
    pub dones: Vec<Done>,
}

/// Does the job of that number, and notes what came of it. The tools are handed on. An error is want of memory.
fn do_next<T: Trade>(
    trade: &T,
    tools: T::Tools,
    number: u32,
    dones: &mut Vec<Done>,
) -> Result<T::Tools, AllocError>
    requires { T.fit trade.now tools }
    ensures fit { IfOk result (T.fit trade.now) }
    ensures noted { OnOk result ((d : DoneSeen) × (dones.new.items ≡ dones.old.items ++ d ∷ []) × (d.number ≡ number)
        × T.due trade.now d.number d.text) }
{
    let (done, left) = trade.run(tools, Ticket::new(number))?;
    match dones.push(done) {
        Ok(()) => Ok(left),
        Err(error) => {
            trade.end(left);
            Err(error.into())
        }
    }
}

/// Does the jobs whose numbers are left, one after another, until none is. The tools are handed on. An error is want of
/// memory.
pub fn work<R: Wait, T: Trade>(
    rt: &R,
    alloc: Global,
    trade: &T,
    numbers: &Numbers,
    mut pass: NumbersPass,
    tools: T::Tools,
) -> Result<(Worked, T::Tools), AllocError>
    requires pass { IsPassOf numbers.now pass }
    requires part { 0 < (view pass).parts }
    requires fit { T.fit trade.now tools }
    ensures pass { IfOk result (λ w. IsPassOf numbers.now w.0.pass) }
    ensures took { IfOk result (λ w. TookThese (view pass) (view w.0.pass) w.0.dones.items) }
    ensures due { IfOk result (λ w. AreDue (T.due trade.now) w.0.dones.items) }
    ensures none_left { IfOk result (λ w. HasLeft 9 (view w.0.pass) []) }
    ensures fit { IfOk result (λ w. T.fit trade.now w.1) }
{
    let mut dones = Vec::new(alloc);
    let mut tools = tools;
    'working: for _ in rt.forever() {
        match numbers.pop_as::<Takes, R>(rt, &mut pass) {
            Some(number) => {
                tools = do_next(trade, tools, number, &mut dones)?;
            }
            None => return Ok((Worked { pass, dones }, tools)),
        }
    }
    trade.end(tools);
    unreachable!()
}
