//! All jobs of a batch, by several workers of whom one leads.

ghost use Rattle.std.specs.Prelude.{◌≡◌, ◌+◌, ◌<◌, ◌≤◌, ◌++◌, [], length, All, IfOk, IfErr, OnOk};
ghost use Rattle.std.specs.Thread.{IsSync};
ghost use Rattle.crossbeam_queue.specs.Passes.{view, IsPassOf};
ghost use Rattle.and_shares.specs.Balance.{share};
ghost use Rattle.and_batch.specs.Balance.{below};
ghost use Rattle.and_batch.specs.Dones.{numbers_of};
ghost use Rattle.and_batch.specs.Working.{AreDue, IsWorked, IsLed, TookThese, IsEachOnce, IsDueAtEach};

use crate::job::{Done, Job, Plain, Trade};
use crate::list::TextList;
use crate::numbers::{Cut, Numbers, NumbersPass, numbers_below, passes_of};
use crate::placing::in_order;
use crate::signal::Signal;
use crate::working::{Worked, work};
use std::alloc::{AllocError, Global};
use std::sync::Wait;
use std::thread;
use std::thread::Threads;

/// What a worker does that does not lead: it begins, waits for the signal, and does jobs until no number is left, where
/// these are wanted. An error is want of memory.
fn followed<R: Wait, T: Trade>(
    rt: &R,
    alloc: Global,
    trade: &T,
    numbers: &Numbers,
    signal: &Signal,
    pass: NumbersPass,
) -> Result<Worked, AllocError>
    requires pass { IsPassOf numbers.now pass × (view pass ≡ share 1 [] []) }
    ensures { IsWorked numbers.now (T.due trade.now) result }
{
    let tools = trade.begin()?;
    if !signal.wait(rt) {
        trade.end(tools);
        return Ok(Worked {
            pass,
            dones: Vec::new(alloc),
        });
    }
    let (worked, left) = work(rt, alloc, trade, numbers, pass, tools)?;
    trade.end(left);
    Ok(worked)
}

/// The other workers do jobs until no number is left. An error is want of memory.
fn worked_by<R: Threads + Wait + Sync, T: Trade>(
    rt: &R,
    alloc: Global,
    trade: &T,
    numbers: &Numbers,
    signal: &Signal,
    passes: Vec<NumbersPass>,
) -> Result<Vec<Result<Worked, AllocError>>, AllocError>
    requires { All (λ p. IsPassOf numbers.now p × (view p ≡ share 1 [] [])) passes.items }
    ensures len { IfOk result (λ all. length all.items ≡ length passes.items) }
    ensures each { IfOk result (λ all. All (IsWorked numbers.now (T.due trade.now)) all.items) }
{
    thread::map_vec(
        rt,
        passes,
        &|pass: NumbersPass| -> Result<Worked, AllocError>
            requires { IsSync R.row × IsPassOf numbers.now pass × (view pass ≡ share 1 [] []) }
            ensures { IsWorked numbers.entry.now (T.due trade.entry.now) result }
        { followed(rt, alloc, trade, numbers, signal, pass) },
    )
}

/// Whether the jobs are to be done.
fn is_wanted<D, N>(led: &Result<Result<D, N>, AllocError>) -> bool {
    match led {
        Ok(Ok(_)) => true,
        Ok(Err(_)) => false,
        Err(_) => false,
    }
}

/// What the worker does that leads: it gives the signal, and does jobs until no number is left, where these are wanted.
/// An error is want of memory.
fn led<R: Wait, T: Trade>(
    rt: &R,
    alloc: Global,
    trade: &T,
    numbers: &Numbers,
    signal: &Signal,
    pass: NumbersPass,
) -> Result<Result<(Worked, T::Tools), T::Refusal>, AllocError>
    requires pass { IsPassOf numbers.now pass }
    requires part { 0 < (view pass).parts }
    ensures led { IfOk result (λ led. IfOk led (IsLed numbers.now (T.due trade.now) (T.fit trade.now) (view pass))) }
    ensures wanted { IfOk result (λ led. OnOk led (T.wanted trade.now)) }
    ensures refused { IfOk result (λ led. IfErr led (T.refused trade.now)) }
{
    let led = trade.lead();
    signal.give(rt, is_wanted(&led));
    match led? {
        Ok(tools) => Ok(Ok(work(rt, alloc, trade, numbers, pass, tools)?)),
        Err(refusal) => Ok(Err(refusal)),
    }
}

/// What all workers do, each in a thread of its own where one can be started: the others, and the one who leads.
fn together<R: Threads + Wait + Sync, T: Trade>(
    rt: &R,
    alloc: Global,
    trade: &T,
    numbers: &Numbers,
    passes: Vec<NumbersPass>,
    whole: NumbersPass,
) -> (
    Result<Vec<Result<Worked, AllocError>>, AllocError>,
    Result<Result<(Worked, T::Tools), T::Refusal>, AllocError>,
)
    requires passes { All (λ p. IsPassOf numbers.now p × (view p ≡ share 1 [] [])) passes.items }
    requires whole { IsPassOf numbers.now whole × (0 < (view whole).parts) }
    ensures len { IfOk result.0 (λ all. length all.items ≡ length passes.items) }
    ensures each { IfOk result.0 (λ all. All (IsWorked numbers.now (T.due trade.now)) all.items) }
    ensures led { IfOk result.1 (λ led. IfOk led (IsLed numbers.now (T.due trade.now) (T.fit trade.now) (view whole))) }
    ensures wanted { IfOk result.1 (λ led. OnOk led (T.wanted trade.now)) }
    ensures refused { IfOk result.1 (λ led. IfErr led (T.refused trade.now)) }
{
    let signal = &Signal::new();
    if passes.is_empty() {
        return (
            Ok(Vec::new(alloc)),
            led(rt, alloc, trade, numbers, signal, whole),
        );
    }
    let others = move || -> Result<Vec<Result<Worked, AllocError>>, AllocError>
        requires { IsSync R.row × All (λ p. IsPassOf numbers.now p × (view p ≡ share 1 [] [])) passes.items }
        ensures { IfOk result (λ all. (length all.items ≡ length passes.items)
            × All (IsWorked numbers.entry.now (T.due trade.entry.now)) all.items) }
    { worked_by(rt, alloc, trade, numbers, signal, passes) };
    let leader = move || -> Result<Result<(Worked, T::Tools), T::Refusal>, AllocError>
        requires { IsPassOf numbers.now whole × (0 < (view whole).parts) }
        ensures { IfOk result (λ led.
            IfOk led (IsLed numbers.entry.now (T.due trade.entry.now) (T.fit trade.entry.now) (view whole))
            × OnOk led (T.wanted trade.entry.now) × IfErr led (T.refused trade.entry.now)) }
    { led(rt, alloc, trade, numbers, signal, whole) };
    thread::join(rt, others, leader)
}

/// Takes in what a worker did, and its pass. After want of memory both are spent.
fn take_in(
    numbers: &Numbers,
    whole: &mut NumbersPass,
    dones: &mut Vec<Done>,
    worked: Worked,
) -> Result<(), AllocError>
    requires pass { IsPassOf numbers.now whole.old × (0 < (view whole.old).parts) }
    requires worked { IsPassOf numbers.now worked.pass
        × TookThese (share 1 [] []) (view worked.pass) worked.dones.items }
    ensures pass { IsPassOf numbers.now whole.new }
    ensures took { view whole.new ≡ share ((view whole.old).parts + 1) (view whole.old).put
        ((view whole.old).taken ++ numbers_of worked.dones.items) }
    ensures dones { OnOk result (dones.new.items ≡ dones.old.items ++ worked.dones.items) }
{
    let Worked {
        pass,
        dones: mut more,
    } = worked;
    numbers.absorb::<Cut>(whole, pass);
    dones.append(&mut more)
}

/// What all workers did, with the passes of the others put back to that of the one who led. An error is want of memory.
fn gathered<T: Trade>(
    _trade: &T,
    numbers: &Numbers,
    led: Worked,
    others: Result<Vec<Result<Worked, AllocError>>, AllocError>,
) -> Result<Worked, AllocError>
    requires pass { IsPassOf numbers.now led.pass }
    requires taken { (view led.pass).taken ≡ numbers_of led.dones.items }
    requires due { AreDue (T.due _trade.now) led.dones.items }
    requires parts { IfOk others (λ all. ((view led.pass).parts + length all.items ≡ 9) × (length all.items ≤ 8)) }
    requires each { IfOk others (λ all. All (IsWorked numbers.now (T.due _trade.now)) all.items) }
    ensures pass { IfOk result (λ w. IsPassOf numbers.now w.pass) }
    ensures whole { IfOk result (λ w. view w.pass ≡ share 9 (view led.pass).put (numbers_of w.dones.items)) }
    ensures due { IfOk result (λ w. AreDue (T.due _trade.now) w.dones.items) }
{
    let mut all = others?;
    let Worked {
        pass: mut whole,
        mut dones,
    } = led;
    while let Some(worked) = all.pop() {
        take_in(numbers, &mut whole, &mut dones, worked?)?;
    }
    Ok(Worked { pass: whole, dones })
}

/// What came of all jobs: of those that were done, and of those whose numbers are left then. An error is want of
/// memory.
fn finish<R: Wait, T: Trade>(
    rt: &R,
    alloc: Global,
    trade: &T,
    numbers: &Numbers,
    done: Worked,
    tools: T::Tools,
) -> Result<Vec<Done>, AllocError>
    requires pass { IsPassOf numbers.now done.pass }
    requires whole { ((view done.pass).parts ≡ 9) × ((view done.pass).taken ≡ numbers_of done.dones.items) }
    requires due { AreDue (T.due trade.now) done.dones.items }
    requires fit { T.fit trade.now tools }
    ensures due { IfOk result (λ dones. AreDue (T.due trade.now) dones.items) }
    ensures once { IfOk result (λ dones. IsEachOnce (view done.pass).put dones.items) }
{
    let Worked { pass, mut dones } = done;
    let (worked, left) = work(rt, alloc, trade, numbers, pass, tools)?;
    trade.end(left);
    let Worked {
        pass: _,
        dones: mut rest,
    } = worked;
    dones.append(&mut rest)?;
    Ok(dones)
}

/// What came of all jobs, by what the workers did. An error is want of memory.
fn all_done<R: Wait, T: Trade>(
    rt: &R,
    alloc: Global,
    trade: &T,
    numbers: &Numbers,
    led: (Worked, T::Tools),
    others: Result<Vec<Result<Worked, AllocError>>, AllocError>,
) -> Result<Vec<Done>, AllocError>
    requires led { IsPassOf numbers.now led.0.pass × ((view led.0.pass).taken ≡ numbers_of led.0.dones.items)
        × AreDue (T.due trade.now) led.0.dones.items × T.fit trade.now led.1 }
    requires parts { IfOk others (λ all. ((view led.0.pass).parts + length all.items ≡ 9) × (length all.items ≤ 8)) }
    requires each { IfOk others (λ all. All (IsWorked numbers.now (T.due trade.now)) all.items) }
    ensures due { IfOk result (λ dones. AreDue (T.due trade.now) dones.items) }
    ensures once { IfOk result (λ dones. IsEachOnce (view led.0.pass).put dones.items) }
{
    let (worked, tools) = led;
    match gathered(trade, numbers, worked, others) {
        Ok(done) => finish(rt, alloc, trade, numbers, done, tools),
        Err(error) => {
            trade.end(tools);
            Err(error)
        }
    }
}

/// What came of all jobs whose numbers are below the count, or why these are not to be done. An error is want of
/// memory.
fn done_by<R: Threads + Wait + Sync, T: Trade>(
    rt: &R,
    alloc: Global,
    trade: &T,
    count: u32,
    workers: u32,
) -> Result<Result<Vec<Done>, T::Refusal>, AllocError>
    requires count { count ≤ 256 }
    requires workers { (0 < workers) × (workers ≤ 8) }
    ensures due { IfOk result (λ r. IfOk r (λ dones. AreDue (T.due trade.now) dones.items)) }
    ensures once { IfOk result (λ r. IfOk r (λ dones. IsEachOnce (below count) dones.items)) }
    ensures wanted { IfOk result (λ r. OnOk r (T.wanted trade.now)) }
    ensures refused { IfOk result (λ r. IfErr r (T.refused trade.now)) }
{
    let (numbers, mut whole) = numbers_below(rt, alloc, count)?;
    let passes = passes_of(alloc, &numbers, &mut whole, workers - 1)?;
    let (others, led) = together(rt, alloc, trade, &numbers, passes, whole);
    match led? {
        Ok(led) => Ok(Ok(all_done(rt, alloc, trade, &numbers, led, others)?)),
        Err(refusal) => Ok(Err(refusal)),
    }
}

/// Does all jobs whose numbers are below the count, by so many workers, of which each has tools of its own, and one
/// finds whether the jobs are to be done at all. The answer has what came of each, in the order of the numbers, or why
/// they are not to be done. It may wait. An error is want of memory.
pub fn run_trade<R: Threads + Wait + Sync, T: Trade>(
    rt: &R,
    alloc: Global,
    trade: &T,
    count: u32,
    workers: u32,
) -> Result<Result<TextList, T::Refusal>, AllocError>
    requires count { count ≤ 256 }
    requires workers { (0 < workers) × (workers ≤ 8) }
    ensures len { IfOk result (λ r. IfOk r (λ texts. length texts ≡ count)) }
    ensures due { IfOk result (λ r. IfOk r (IsDueAtEach (T.due trade.now))) }
    ensures wanted { IfOk result (λ r. OnOk r (T.wanted trade.now)) }
    ensures refused { IfOk result (λ r. IfErr r (T.refused trade.now)) }
{
    match done_by(rt, alloc, trade, count, workers)? {
        Ok(dones) => Ok(Ok(in_order(alloc, count, dones)?)),
        Err(refusal) => Ok(Err(refusal)),
    }
}

/// Does all jobs whose numbers are below the count, each once, by so many workers, each in a thread of its own where
/// one can be started. The texts are in the order of the numbers. It waits for its workers. An error is want of
/// memory.
pub fn run_all<R: Threads + Wait + Sync, J: Job>(
    rt: &R,
    alloc: Global,
    job: &J,
    count: u32,
    workers: u32,
) -> Result<TextList, AllocError>
    requires count { count ≤ 256 }
    requires workers { (0 < workers) × (workers ≤ 8) }
    ensures len { IfOk result (λ texts. length texts ≡ count) }
    ensures due { IfOk result (IsDueAtEach (J.due job.now)) }
{
    match run_trade(rt, alloc, &Plain { job }, count, workers)? {
        Ok(texts) => Ok(texts),
        Err(()) => unreachable!(),
    }
}
