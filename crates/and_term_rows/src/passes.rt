//! A small program for trials, and lists of passes.

ghost use Rattle.std.specs.Prelude.{◌≡◌, ◌+◌, ◌<◌, ℕ, All, IfOk, OnOk, length};
ghost use Rattle.and_model.specs.declared.reference.Ref.{Ref};
ghost use Rattle.and_cells.specs.Ranges.{IsInRange, IsGoalInRange};
ghost use Rattle.and_term_rows.specs.Small.{small_program};

use and_cells::Naming;
use and_model::{ClauseNo, Goal, NodeNo, Ref};
use and_rows::Untold;
use and_store::{Pass, PassList, Store};

/// Names a program of two names and a query of three goals.
pub struct Trial;

impl Naming for Trial {
    ghost use Rattle.and_term_rows.specs.Small.{small_program};

    ghost program = { small_program };
}

/// The name of that number.
pub fn name(number: u32) -> Ref
    requires { number < 2 }
    ensures is { result ≡ Ref.Node (record { 0 = number }) 0 }
    ensures in_range { (words : ℕ) → IsInRange small_program words result }
{
    Ref::Node {
        node: NodeNo(number),
        base: 0,
    }
}

/// The goal of that number.
pub fn goal(number: u32) -> Goal
    requires { number < 3 }
    ensures { (words : ℕ) → IsGoalInRange small_program words result }
{
    Goal {
        node: 1,
        item: number,
        clause: ClauseNo(0),
        base: 0,
    }
}

/// Takes out the last pass of a list of this store's.
pub fn last_of<N: Naming>(store: &Store<N>, passes: &mut PassList) -> Result<Pass, Untold>
    requires { All (λ p. p.store ≡ store.now) passes.old }
    ensures of { IfOk result (λ pass. (pass.store ≡ store.now) × All (λ p. p.store ≡ store.now) passes.new) }
    ensures len { OnOk result (length passes.new + 1 ≡ length passes.old) }
{
    let _store = store;
    match passes.pop() {
        Some(pass) => Ok(pass),
        None => Err(Untold::Memory),
    }
}

/// Puts a pass at the end of a list of this store's.
pub fn put_back<N: Naming>(
    store: &Store<N>,
    passes: &mut PassList,
    pass: Pass,
) -> Result<(), Untold>
    requires { (pass.store ≡ store.now) × All (λ p. p.store ≡ store.now) passes.old }
    ensures of { OnOk result (All (λ p. p.store ≡ store.now) passes.new) }
    ensures len { OnOk result (length passes.new ≡ length passes.old + 1) }
{
    let _store = store;
    if passes.push(pass).is_err() {
        return Err(Untold::Memory);
    }
    Ok(())
}
