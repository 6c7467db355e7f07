//! Two threads unify cells of one store, and set the same others.

ghost use Rattle.std.specs.Prelude.{◌≡◌, ◌<◌, IfOk};
ghost use Rattle.and_cells.specs.Parts.{named};
ghost use Rattle.and_cells.specs.Seen.{Seen};
ghost use Rattle.and_unify.specs.Pairs.{AreInRange, AreWritten};

use crate::passes::{last_of, put_back};
use and_cells::{Bound, LooseCells, Naming, PlainCells};
use and_model::Ref;
use and_program::Loaded;
use and_reader::read_program;
use and_rows::{Untold, line};
use and_store::{Pass, Store, StoreCells};
use and_unify::{PairList, Unified, unify};
use std::alloc::{AllocError, Global};
use std::marker::Brand;
use std::thread::{Threads, join};

/// The cells below are unified, and those from here on are set.
const UNIFIED: u32 = 99;

const CELLS: u32 = 199;

/// What one thread's unification came to, and its pass.
type Joined = Result<(Pass, Unified), AllocError>;

/// What became of each wish of one thread, and its pass.
type Wishes = Result<(Pass, Vec<Bound>), AllocError>;

/// What one thread's unification came to, what became of its wishes, and its pass.
type Worked = Result<(Pass, Unified, Vec<Bound>), AllocError>;

/// The pairs of a cell and the next one, from this cell on, with one pair left out behind each.
fn neighbours<N: Naming>(
    alloc: Global,
    store: &Store<N>,
    first: u32,
) -> Result<PairList, AllocError>
    requires first { first < 2 }
    requires words { store.now.about.words ≡ 199 }
    ensures in_range { IfOk result (λ pairs. AreInRange N.program store.now.about.words pairs) }
    ensures written { IfOk result (λ pairs. (s : Seen) → AreWritten s pairs) }
{
    let _store = store;
    let mut pairs = PairList::new(alloc);
    for turn in 0..49 {
        let cell = first + 2 * turn;
        pairs.push(Ref::Cell(cell), Ref::Cell(cell + 1))?;
    }
    Ok(pairs)
}

/// Unifies neighbours, by a worker.
fn join_cells<N: Naming>(
    alloc: Global,
    loaded: &Loaded,
    store: &Store<N>,
    pass: Pass,
    first: u32,
) -> Joined
    requires program { N.program ≡ named loaded.now }
    requires store { (pass.store ≡ store.now) × (store.now.about.words ≡ 199) }
    requires first { first < 2 }
    ensures { IfOk result (λ r. r.0.store ≡ store.now) }
{
    let mut pairs = neighbours(alloc, store, first)?;
    let mut worker = StoreCells::new(store, pass);
    let mut fuel = 1000;
    let unified = unify(alloc, loaded, &mut worker, &mut fuel, &mut pairs);
    Ok((worker.into_pass(), unified))
}

/// Sets each of the other cells to the cell of this number.
fn bind_all<N: Naming>(alloc: Global, store: &Store<N>, mut pass: Pass, number: u32) -> Wishes
    requires store { (pass.store ≡ store.now) × (store.now.about.words ≡ 199) }
    requires number { number < 2 }
    ensures { IfOk result (λ r. r.0.store ≡ store.now) }
{
    let mut bounds = Vec::new(alloc);
    for cell in UNIFIED..CELLS {
        let bound = store.bind(&mut pass, cell, Ref::Cell(number));
        bounds.push(bound)?;
    }
    Ok((pass, bounds))
}

/// What one thread does.
fn work<N: Naming>(
    alloc: Global,
    loaded: &Loaded,
    store: &Store<N>,
    pass: Pass,
    number: u32,
) -> Worked
    requires program { N.program ≡ named loaded.now }
    requires store { (pass.store ≡ store.now) × (store.now.about.words ≡ 199) }
    requires number { number < 2 }
    ensures { IfOk result (λ r. r.0.store ≡ store.now) }
{
    let (pass, unified) = join_cells(alloc, loaded, store, pass, number)?;
    let (pass, bounds) = bind_all(alloc, store, pass, number)?;
    Ok((pass, unified, bounds))
}

/// What two threads do at once.
fn work_twice<N: Naming + Send + Sync, R: Threads + Sync>(
    rt: &R,
    alloc: Global,
    loaded: &Loaded,
    store: &Store<N>,
    one: Pass,
    other: Pass,
) -> (Worked, Worked)
    requires program { N.program ≡ named loaded.now }
    requires one { (one.store ≡ store.now) × (store.now.about.words ≡ 199) }
    requires other { other.store ≡ store.now }
    ensures one { IfOk result.0 (λ r. r.0.store ≡ store.now) }
    ensures other { IfOk result.1 (λ r. r.0.store ≡ store.now) }
{
    join(
        rt,
        move || -> Worked
            requires { (N.program ≡ named loaded.now) × (one.store ≡ store.now) × (store.now.about.words ≡ 199) }
            ensures { IfOk result (λ r. r.0.store ≡ store.entry.now) }
        { work(alloc, loaded, store, one, 0) },
        move || -> Worked
            requires { (N.program ≡ named loaded.now) × (other.store ≡ store.now) × (store.now.about.words ≡ 199) }
            ensures { IfOk result (λ r. r.0.store ≡ store.entry.now) }
        { work(alloc, loaded, store, other, 1) },
    )
}

/// Whether the cells that were unified are one: each but the first, which is free, is set to a cell.
fn are_one_class(cells: &LooseCells) -> bool {
    if cells.len() < CELLS as usize || cells.word(0) != Ref::Free {
        return false;
    }
    for cell in 1..UNIFIED as usize {
        if !matches!(cells.word(cell), Ref::Cell(_)) {
            return false;
        }
    }
    true
}

/// Whether one thread set the word, and the other was told what it is.
fn agrees(word: Ref, winner: Bound, other: Bound) -> bool {
    match other {
        Bound::Already(found) => winner == Bound::Won && word == found,
        Bound::Won => false,
    }
}

/// Whether exactly one of the threads set each of the other cells.
fn all_agree(cells: &LooseCells, ones: &[Bound], others: &[Bound]) -> bool {
    if cells.len() < CELLS as usize || ones.len() != 100 || others.len() != 100 {
        return false;
    }
    for place in 0..100 {
        let word = cells.word(UNIFIED as usize + place);
        let one = ones[place];
        let other = others[place];
        if !agrees(word, one, other) && !agrees(word, other, one) {
            return false;
        }
    }
    true
}

/// What two threads came to, and the cells then.
fn raced<N: Naming + Send + Sync, R: Threads + Sync>(
    rt: &R,
    alloc: Global,
    loaded: &Loaded,
) -> Result<String, Untold>
    requires { N.program ≡ named loaded.now }
{
    let cells = PlainCells::<N>::with(alloc, CELLS)?;
    let (store, mut passes) = Store::open(alloc, &cells, CELLS, 2, 0)?;
    let second = last_of(&store, &mut passes)?;
    let first = last_of(&store, &mut passes)?;
    let (one, other) = work_twice(rt, alloc, loaded, &store, first, second);
    let (first, one, ones) = one?;
    let (second, other, others) = other?;
    put_back(&store, &mut passes, first)?;
    put_back(&store, &mut passes, second)?;
    let Ok(closed) = store.close(passes) else {
        return Err(Untold::Memory);
    };
    let is_one = are_one_class(&closed.cells);
    let is_agreed = all_agree(&closed.cells, ones.as_slice(), others.as_slice());
    line(alloc, &(one, other, closed.cells.len(), is_one, is_agreed))
}

/// What two threads come to that unify cells and set the same others: how many words there are, whether those that were
/// unified are one, and whether each other was set by one thread.
pub(crate) fn store_race<R: Threads + Sync>(rt: &R, alloc: Global) -> Result<String, Untold> {
    match read_program(alloc, b"?- true.") {
        Ok(loaded) => raced::<Brand, R>(rt, alloc, &loaded),
        Err(_) => Err(Untold::Malformed),
    }
}
