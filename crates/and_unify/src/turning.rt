//! Turns of unification: which pair comes next, and what it costs.

ghost use Rattle.std.specs.Prelude.{◌≡◌, ◌≢◌, ◌<◌, ◌+◌, [], ◌∷◌, ◌++◌, ℕ, length, true, false, OnOk, Contains};
ghost use Rattle.and_model.specs.declared.reference.Ref.{Ref};
ghost use Rattle.and_cells.specs.Seen.{OnlyReads};
ghost use Rattle.and_cells.specs.Parts.{named};
ghost use Rattle.and_unify.specs.declared.pairs.Pair.{Pair};
ghost use Rattle.and_unify.specs.declared.unifying.Unified.{Unified};
ghost use Rattle.and_unify.specs.Pairs.{AreInRange, AreWritten};
ghost use Rattle.and_unify.specs.Turns.{PicksOld, PicksNew, Finishes, PutsOff, Turns, Breaks, stand, weight};

use crate::classes::Classes;
use crate::pairs::{Pair, PairList};
use crate::stepping::{Stepped, step};
use crate::unifying::Unified;
use and_cells::{Cells, deref};
use and_model::Ref;
use and_program::Loaded;
use indexmap::IndexSet;
use std::alloc::{AllocError, Global};

/// What unification keeps beside the pairs that it is to make equal.
pub(crate) struct Work {
    /// Pairs to do that cost nothing: they stand below a place that was taken before.
    pub(crate) rights: PairList,
    /// The places of left sides that were come to.
    pub(crate) taken: IndexSet<Ref>,
    /// What was made equal.
    pub(crate) classes: Classes,
}

// By hand, so that it is proved once, here.
impl Drop for Work {
    fn drop(self) {
        let Work {
            rights: _,
            taken: _,
            classes: _,
        } = self;
    }
}

/// Whether there is a turn after this one.
#[derive(Clone, Copy, PartialEq, Eq, Debug)]
pub(crate) enum Turn {
    Again,
    Over(Unified),
}

/// Which pair comes next.
#[derive(Clone, Copy, PartialEq, Eq, Debug)]
enum Pick {
    /// This one, which costs nothing.
    Old(Pair),
    /// This one, for whose place 1 of the fuel was taken.
    New(Pair),
    /// None is left.
    Nothing,
    /// There is no fuel for the place of the next one, which stays in the list.
    PutOff,
    /// Want of memory.
    Memory,
}

impl Work {
    /// Nothing was come to, and nothing made equal. Takes no memory.
    pub(crate) fn new(alloc: Global) -> Work
        ensures { (result.rights ≡ []) × (result.taken.keys ≡ []) × (result.classes ≡ []) }
    {
        Work {
            rights: PairList::new(alloc),
            taken: IndexSet::new(alloc),
            classes: Classes::new(alloc),
        }
    }
}

/// One turn: the next pair is taken out and met. Its arguments come to do, without cost where its own
/// place was taken before.
pub(crate) fn take_turn<C: Cells>(
    loaded: &Loaded,
    cells: &mut C,
    fuel: &mut u64,
    pairs: &mut PairList,
    work: &mut Work,
    bound: &mut Vec<u32>,
) -> Turn
    requires program { C.program ≡ named loaded.now }
    requires pairs { AreInRange C.program (C.seen cells.old).words pairs.old × AreWritten (C.seen cells.old) pairs.old }
    requires rights { AreInRange C.program (C.seen cells.old).words work.old.rights
        × AreWritten (C.seen cells.old) work.old.rights }
    ensures over { C.over cells.new ≡ C.over cells.old }
    ensures grew { C.Grew cells.old cells.new }
    ensures again { result ≡ Turn.Again
        → Turns C.program (stand (C.seen cells.old) pairs.old work.old fuel.old)
        (stand (C.seen cells.new) pairs.new work.new fuel.new) bound.old.items bound.new.items }
    ensures lighter { result ≡ Turn.Again
        → weight work.new.classes pairs.new + length work.new.rights < weight work.old.classes pairs.old
        + length work.old.rights }
    ensures stopped { result ≢ Turn.Again → OnlyReads (C.seen cells.old) (C.seen cells.new)
        × (bound.new.items ≡ bound.old.items) }
    ensures same { result ≡ Turn.Over Unified.Same
        → Finishes (stand (C.seen cells.old) pairs.old work.old fuel.old)
        (stand (C.seen cells.new) pairs.new work.new fuel.new) }
    ensures put_off { result ≡ Turn.Over Unified.PutOff
        → PutsOff (stand (C.seen cells.old) pairs.old work.old fuel.old)
        (stand (C.seen cells.new) pairs.new work.new fuel.new) }
    ensures apart { (one other : Ref) → result ≡ Turn.Over (Unified.Apart one other)
        → Breaks C.program (stand (C.seen cells.old) pairs.old work.old fuel.old)
        (stand (C.seen cells.new) pairs.new work.new fuel.new) one other }
{
    match pick_next(cells, fuel, pairs, work) {
        Pick::Old(pair) => after(step(
            loaded,
            cells,
            &mut work.classes,
            bound,
            pair,
            &mut work.rights,
        )),
        Pick::New(pair) => after(step(loaded, cells, &mut work.classes, bound, pair, pairs)),
        Pick::Nothing => Turn::Over(Unified::Same),
        Pick::PutOff => Turn::Over(Unified::PutOff),
        Pick::Memory => Turn::Over(Unified::Memory),
    }
}

/// Whether there is a turn after this step.
fn after(stepped: Stepped) -> Turn
    ensures again { result ≡ Turn.Again → stepped ≡ Stepped.Done }
    ensures stopped { result ≢ Turn.Again → stepped ≢ Stepped.Done }
    ensures apart { (one other : Ref) → result ≡ Turn.Over (Unified.Apart one other)
        → stepped ≡ Stepped.Apart one other }
    ensures no_end { (result ≢ Turn.Over Unified.Same) × (result ≢ Turn.Over Unified.PutOff) }
{
    match stepped {
        Stepped::Done => Turn::Again,
        Stepped::Apart { left, right } => Turn::Over(Unified::Apart { left, right }),
        Stepped::Memory => Turn::Over(Unified::Memory),
    }
}

/// Takes out the next pair. One that costs nothing comes first.
fn pick_next<C: Cells>(cells: &mut C, fuel: &mut u64, pairs: &mut PairList, work: &mut Work) -> Pick
    requires pairs { AreInRange C.program (C.seen cells.old).words pairs.old × AreWritten (C.seen cells.old) pairs.old }
    ensures over { C.over cells.new ≡ C.over cells.old }
    ensures grew { C.Grew cells.old cells.new }
    ensures reads { OnlyReads (C.seen cells.old) (C.seen cells.new) }
    ensures old_pair { (p : Pair) → result ≡ Pick.Old p
        → PicksOld p (stand (C.seen cells.old) pairs.old work.old fuel.old)
        (stand (C.seen cells.new) pairs.new work.new fuel.new) }
    ensures new_pair { (p : Pair) → result ≡ Pick.New p
        → PicksNew p (stand (C.seen cells.old) pairs.old work.old fuel.old)
        (stand (C.seen cells.new) pairs.new work.new fuel.new) }
    ensures nothing { result ≡ Pick.Nothing
        → Finishes (stand (C.seen cells.old) pairs.old work.old fuel.old)
        (stand (C.seen cells.new) pairs.new work.new fuel.new) }
    ensures put_off { result ≡ Pick.PutOff
        → PutsOff (stand (C.seen cells.old) pairs.old work.old fuel.old)
        (stand (C.seen cells.new) pairs.new work.new fuel.new) }
{
    if let Some(pair) = work.rights.pop() {
        return Pick::Old(pair);
    }
    let Some(pair) = pairs.pop() else {
        return Pick::Nothing;
    };
    let place = deref(cells, pair.left);
    if is_taken(&work.taken, place) {
        return Pick::Old(pair);
    }
    if *fuel == 0 {
        return put_back(pairs, pair);
    }
    *fuel -= 1;
    match take(&mut work.taken, place) {
        Ok(()) => Pick::New(pair),
        Err(_) => Pick::Memory,
    }
}

/// Puts a pair back for which there is no fuel.
fn put_back(pairs: &mut PairList, pair: Pair) -> Pick
    ensures put_off { result ≡ Pick.PutOff → pairs.new ≡ pairs.old ++ pair ∷ [] }
    ensures only { (p : Pair) → (result ≢ Pick.Old p) × (result ≢ Pick.New p) × (result ≢ Pick.Nothing) }
{
    match pairs.push(pair.left, pair.right) {
        Ok(()) => Pick::PutOff,
        Err(_) => Pick::Memory,
    }
}

/// Whether a place was taken before. Takes no memory.
fn is_taken(taken: &IndexSet<Ref>, place: Ref) -> bool
    ensures { result ≡ false → Contains taken.now.keys place → ⊥ }
{
    taken.contains(&place)
}

/// Takes a place that was not taken before. An error is want of memory.
fn take(taken: &mut IndexSet<Ref>, place: Ref) -> Result<(), AllocError>
    requires { Contains taken.old.keys place → ⊥ }
    ensures { OnOk result (taken.new.keys ≡ taken.old.keys ++ place ∷ []) }
{
    taken.insert(place)?;
    Ok(())
}
