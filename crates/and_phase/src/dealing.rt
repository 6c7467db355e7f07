//! Jobs of a phase's workers, and what comes back of them.

ghost use Rattle.std.specs.Prelude.{◌≡◌, ◌<◌, ◌≤◌, ◌++◌, ◌∷◌, [], length, All, IfSome, IfOk, OnOk};
ghost use Rattle.and_cells.specs.Ranges.{NamedProgram};
ghost use Rattle.and_store.specs.Passes.{StoreId, fresh, fresh_from};
ghost use Rattle.and_handed.specs.Handed.{HandsOn};
ghost use Rattle.and_closing_laws.specs.Phases.{AllHandOn};

use and_goals::{Hand, open_hands};
use and_handed::{Ended, HandedOn};
use and_model::Goal;
use and_store::{Pass, PassList};
use and_workers::Beginning;
use std::alloc::{AllocError, Global};

/// The hands of so many workers, in order. An error is want of memory.
fn hands_of(alloc: Global, workers: u32) -> Result<Vec<Hand>, AllocError>
    requires { (0 < workers) × (workers ≤ 8) }
    ensures { IfOk result (λ hands. length hands.items ≡ workers) }
{
    let mut list = open_hands(alloc, workers)?;
    let mut hands = Vec::with_capacity(alloc, workers as usize)?;
    while let Some(hand) = list.pop() {
        hands.push(hand)?;
    }
    hands.as_mut_slice().reverse();
    Ok(hands)
}

/// Deals the goals: goal i to the hand of worker i modulo their number. A goal that a hand refuses is left over.
fn deal_goals(hands: &mut [Hand], goals: &[Goal])
    requires { 0 < length hands.old }
    ensures { length hands.new ≡ length hands.old }
{
    let count = hands.len();
    for place in 0..goals.len() {
        let _refused = hands[place % count].put(goals[place]);
    }
}

/// The jobs of workers who have these hands and passes, the last one first. An error is want of memory, or of passes.
fn jobs_of(alloc: Global, hands: Vec<Hand>, passes: PassList) -> Result<Vec<Beginning>, AllocError>
    requires { length hands.items ≤ 8 }
    ensures len { IfOk result (λ jobs. length jobs.items ≡ length hands.items) }
    ensures fresh { IfOk result (λ jobs. (store : StoreId) → passes ≡ fresh_from store 0 (length hands.items)
        → All (λ j. j.pass ≡ fresh store j.number) jobs.items) }
{
    let mut hands = hands;
    let mut passes = passes;
    let mut jobs = Vec::with_capacity(alloc, hands.len())?;
    while let Some(hand) = hands.pop() {
        let Some(pass) = passes.pop() else {
            return Err(AllocError);
        };
        let number = hands.len() as u32;
        jobs.push(Beginning { number, pass, hand })?;
    }
    Ok(jobs)
}

/// The jobs of so many workers, among whom the goals are dealt. An error is want of memory.
pub(crate) fn deal(
    alloc: Global,
    goals: &[Goal],
    passes: PassList,
    workers: u32,
) -> Result<Vec<Beginning>, AllocError>
    requires { (0 < workers) × (workers ≤ 8) }
    ensures { IfOk result (λ jobs. (store : StoreId) → passes ≡ fresh_from store 0 workers
        → (length jobs.items ≡ workers) × All (λ j. j.pass ≡ fresh store j.number) jobs.items) }
{
    let mut hands = hands_of(alloc, workers)?;
    deal_goals(hands.as_mut_slice(), goals);
    let mut jobs = jobs_of(alloc, hands, passes)?;
    jobs.as_mut_slice().reverse();
    Ok(jobs)
}

/// Puts a pass behind the others. An error is want of memory.
fn put_pass(passes: &mut PassList, pass: Pass) -> Result<(), AllocError>
    ensures { OnOk result (passes.new ≡ passes.old ++ pass ∷ []) }
{
    match passes.push(pass) {
        Ok(()) => Ok(()),
        Err(_) => Err(AllocError),
    }
}

/// The passes of workers that have ended, and what they hand on, the last one first. An error is want of memory.
pub(crate) fn taken_in(
    alloc: Global,
    ended: Vec<Ended>,
) -> Result<(PassList, Vec<HandedOn>), AllocError>
    ensures len { IfOk result (λ r. length r.0 ≡ length ended.items) }
    ensures store { IfOk result (λ r. (store : StoreId) → All (λ e. e.pass.store ≡ store) ended.items
        → All (λ p. p.store ≡ store) r.0) }
    ensures hand_on { IfOk result (λ r. (P : NamedProgram)
        → All (λ e. IfSome e.told (λ told. HandsOn P told e.pass)) ended.items
        → AllHandOn P r.1.items r.0) }
{
    let mut ended = ended;
    let mut passes = PassList::new(alloc);
    let mut tolds = Vec::with_capacity(alloc, ended.len())?;
    while let Some(last) = ended.pop() {
        let Ended { pass, told } = last;
        let Some(told) = told else {
            return Err(AllocError);
        };
        put_pass(&mut passes, pass)?;
        tolds.push(told)?;
    }
    Ok((passes, tolds))
}
