//! A worker, and the turns that it takes.

ghost use Rattle.std.specs.Prelude.{◌≡◌, ◌<◌, ◌≤◌, ◌++◌, [], None, length, IfSome, OnOk};
ghost use Rattle.and_model.specs.declared.limits.TheConstants.{MAX_LIMIT};
ghost use Rattle.and_cells.specs.Parts.{named};
ghost use Rattle.and_cells.specs.Ranges.{IsGoalInRange};
ghost use Rattle.and_clause_index.specs.Tables.{IsTableOf};
ghost use Rattle.and_store.specs.Passes.{fresh};
ghost use Rattle.and_workers.specs.AtWork.{IsAtWork, IsTurned, GoesOn, IsStopped};
ghost use Rattle.and_workers.specs.declared.worker.Going.{Going};
ghost use Rattle.and_handed.specs.Handed.{HandsOn, HasActed, Kills};

use crate::calls::{fail, hang, has_failed, woken};
use crate::items::item_over;
use crate::suspended::Suspended;
use and_arith::WorkList;
use and_cells::{Cells, Naming};
use and_clause_index::Determinacy;
use and_gate::Gate;
use and_goals::Hand;
use and_handed::{Cause, Ended, HandedOn};
use and_model::{ClauseList, Goal};
use and_overlay::Scratch;
use and_program::{ItemNode, Loaded};
use and_shared_determinacy::Selector;
use and_store::{Hung, Pass, Store, StoreCells};
use and_unify::PairList;
use std::alloc::{AllocError, Global};
use std::hint::spin_loop;

/// What all workers of a phase share.
#[derive(Drop)]
pub struct Shared<'a, N: Naming, G: Gate> {
    pub alloc: Global,
    pub loaded: &'a Loaded,
    pub table: &'a Determinacy,
    pub store: &'a Store<N>,
    pub gate: &'a G,
    /// How many words the row has, and how many of them the opening had.
    pub words: u32,
    pub opening: u32,
    ghost words_are: { words ≡ store.now.about.words },
    ghost opening_is: { opening ≡ length store.now.about.first },
    ghost short: { words ≤ MAX_LIMIT },
}

/// What a worker begins with.
pub struct Beginning {
    pub number: u32,
    pub pass: Pass,
    pub hand: Hand,
}

// By hand, so that it is proved once, here.
impl Drop for Beginning {
    fn drop(self) {
        let Beginning {
            number: _,
            pass: _,
            hand: _,
        } = self;
    }
}

impl Beginning {
    /// The worker's number, its pass and its hand. Takes no memory.
    fn into_parts(self) -> (u32, Pass, Hand)
        ensures { (result.0 ≡ self.number) × (result.1 ≡ self.pass) }
    {
        let Beginning { number, pass, hand } = self;
        (number, pass, hand)
    }
}

/// A worker.
pub(crate) struct Reducer<C: Cells> {
    pub number: u32,
    pub hand: Hand,
    /// What this worker goes on with itself, the next one last: arithmetic of frames that it took, which no other may
    /// run, and first calls of bodies.
    pub own: Vec<Goal>,
    pub suspended: Suspended,
    pub told: HandedOn,
    pub clauses: ClauseList,
    pub pairs: PairList,
    pub scratch: Scratch<C>,
    pub selector: Selector,
    pub values: WorkList,
}

// By hand, so that it is proved once, here.
impl<C: Cells> Drop for Reducer<C> {
    fn drop(self) {
        let Reducer {
            number: _,
            hand: _,
            own: _,
            suspended: _,
            told: _,
            clauses: _,
            pairs: _,
            scratch: _,
            selector: _,
            values: _,
        } = self;
    }
}

impl<C: Cells> Reducer<C> {
    /// What it hands on. Takes no memory.
    fn into_told(self) -> HandedOn
        ensures { result ≡ self.told }
    {
        let Reducer {
            number: _,
            hand,
            own,
            suspended,
            told,
            clauses,
            pairs,
            scratch,
            selector,
            values,
        } = self;
        drop(hand);
        drop(own);
        drop(suspended);
        drop(clauses);
        drop(pairs);
        drop(scratch);
        drop(selector);
        drop(values);
        told
    }
}

/// What a turn came to.
#[derive(Clone, Copy)]
pub(crate) enum Turn {
    /// Something was done for a goal.
    Worked,
    /// No goal was found.
    Idle,
    /// There is nothing more to do.
    Over,
}

/// The cells after a turn, and what it came to. An error is want of memory.
pub(crate) type Turned<'a, N> = (StoreCells<'a, N>, Result<Turn, AllocError>);

/// How many turns in a row a worker may find no goal, before it ends.
const PATIENCE: u32 = 256;

/// Does a job, until there is nothing more to do.
pub fn work<'a, N: Naming, G: Gate>(shared: &Shared<'a, N, G>, job: Beginning) -> Ended
    requires program { N.program ≡ named shared.now.loaded.now }
    requires table { IsTableOf N.program shared.now.table.now }
    requires fresh { job.pass ≡ fresh shared.now.store.now job.number }
    ensures store { result.pass.store ≡ shared.now.store.now }
    ensures hands_on { IfSome result.told (λ told. HandsOn N.program told result.pass) }
{
    let (number, pass, hand) = job.into_parts();
    let mut reducer = Reducer::new(shared.alloc, number, hand);
    let cells = StoreCells::new(shared.store, pass);
    let (cells, worked) = reducer.run(shared, cells);
    match worked {
        Ok(()) => Ended {
            pass: cells.into_pass(),
            told: Some(reducer.into_told()),
        },
        Err(_) => {
            drop(reducer);
            Ended {
                pass: cells.into_pass(),
                told: None,
            }
        }
    }
}

/// What a worker does after a turn.
#[derive(Clone, Copy)]
enum Going {
    On,
    Stop,
    Memory,
}

/// What a worker does after a turn that came to this. It counts how many in a row found no goal.
fn after_turn(turned: Result<Turn, AllocError>, idle: &mut u32) -> Going
    ensures on { result ≡ Going.On → GoesOn turned }
    ensures stop { result ≡ Going.Stop → IsStopped turned }
{
    match turned {
        Ok(Turn::Worked) => {
            *idle = 0;
            Going::On
        }
        Ok(Turn::Idle) => {
            if *idle >= PATIENCE {
                return Going::Stop;
            }
            *idle += 1;
            spin_loop();
            Going::On
        }
        Ok(Turn::Over) => Going::Stop,
        Err(_) => Going::Memory,
    }
}

impl<'a, N: Naming> Reducer<StoreCells<'a, N>> {
    /// A worker that has done nothing yet. Takes no memory.
    fn new(alloc: Global, number: u32, hand: Hand) -> Reducer<StoreCells<'a, N>>
        ensures told { (result.told.made.items ≡ []) × (result.told.ran.items ≡ []) × (result.told.pairs ≡ [])
            × (result.told.cause ≡ None) }
        ensures suspended { result.suspended ≡ [] }
    {
        Reducer {
            number,
            hand,
            own: Vec::new(alloc),
            suspended: Suspended::new(alloc),
            told: HandedOn::nothing(alloc),
            clauses: ClauseList::new(alloc),
            pairs: PairList::new(alloc),
            scratch: Scratch::new(alloc),
            selector: Selector::new(alloc),
            values: WorkList::new(alloc),
        }
    }

    /// Takes turns, until there is nothing more to do. An error is want of memory.
    fn run<G: Gate>(
        &mut self,
        shared: &Shared<'a, N, G>,
        cells: StoreCells<'a, N>,
    ) -> (StoreCells<'a, N>, Result<(), AllocError>)
        requires program { N.program ≡ named shared.now.loaded.now }
        requires table { IsTableOf N.program shared.now.table.now }
        requires store { cells.pass.store ≡ shared.now.store.now }
        requires at_work { IsAtWork N.program self.old.told [] self.old.suspended cells.pass }
        ensures store { result.0.pass.store ≡ cells.entry.pass.store }
        ensures hands_on { OnOk result.1 (HandsOn N.program self.new.told result.0.pass) }
    {
        let mut cells = cells;
        let mut idle = 0;
        for _ in 0..u64::MAX {
            let (next, turned) = self.turn(shared, cells);
            cells = next;
            match after_turn(turned, &mut idle) {
                Going::On => {}
                Going::Stop => return (cells, Ok(())),
                Going::Memory => return (cells, Err(AllocError)),
            }
        }
        (cells, Ok(()))
    }

    /// Looks for a goal, and does what can be done for it.
    fn turn<G: Gate>(
        &mut self,
        shared: &Shared<'a, N, G>,
        cells: StoreCells<'a, N>,
    ) -> Turned<'a, N>
        requires program { N.program ≡ named shared.now.loaded.now }
        requires table { IsTableOf N.program shared.now.table.now }
        requires store { cells.pass.store ≡ shared.now.store.now }
        requires at_work { IsAtWork N.program self.old.told [] self.old.suspended cells.pass }
        ensures store { result.0.pass.store ≡ cells.entry.pass.store }
        ensures turned { IsTurned N.program self.new.told self.new.suspended result.0.pass result.1 }
    {
        let (cells, failed) = has_failed(shared.store, cells);
        if failed {
            return (cells, Ok(Turn::Over));
        }
        match self.take_own() {
            Some(goal) => self.look(shared, cells, goal),
            None => self.look_at_woken(shared, cells),
        }
    }

    /// Does what can be done for the next goal that hung on a cell which this worker set, or for the next of the others.
    fn look_at_woken<G: Gate>(
        &mut self,
        shared: &Shared<'a, N, G>,
        cells: StoreCells<'a, N>,
    ) -> Turned<'a, N>
        requires program { N.program ≡ named shared.now.loaded.now }
        requires table { IsTableOf N.program shared.now.table.now }
        requires store { cells.pass.store ≡ shared.now.store.now }
        requires at_work { IsAtWork N.program self.old.told [] self.old.suspended cells.pass }
        ensures store { result.0.pass.store ≡ cells.entry.pass.store }
        ensures turned { IsTurned N.program self.new.told self.new.suspended result.0.pass result.1 }
    {
        let (cells, goal) = woken(shared.store, cells);
        match goal {
            Some(goal) => self.look(shared, cells, goal),
            None => self.look_at_next(shared, cells),
        }
    }

    /// Does what can be done for the next goal.
    fn look_at_next<G: Gate>(
        &mut self,
        shared: &Shared<'a, N, G>,
        cells: StoreCells<'a, N>,
    ) -> Turned<'a, N>
        requires program { N.program ≡ named shared.now.loaded.now }
        requires table { IsTableOf N.program shared.now.table.now }
        requires store { cells.pass.store ≡ shared.now.store.now }
        requires at_work { IsAtWork N.program self.old.told [] self.old.suspended cells.pass }
        ensures store { result.0.pass.store ≡ cells.entry.pass.store }
        ensures turned { IsTurned N.program self.new.told self.new.suspended result.0.pass result.1 }
    {
        let mut cells = cells;
        match self.next(&mut cells) {
            Some(goal) => self.look(shared, cells, goal),
            None => (cells, Ok(Turn::Idle)),
        }
    }

    /// The next goal of the hands, or one that waited.
    fn next(&mut self, cells: &mut StoreCells<'a, N>) -> Option<Goal>
        requires { IsAtWork N.program self.old.told [] self.old.suspended cells.old.pass }
        ensures store { cells.new.pass.store ≡ cells.old.pass.store }
        ensures at_work { IsAtWork N.program self.new.told [] self.new.suspended cells.new.pass }
    {
        match self.take() {
            Some(goal) => Some(goal),
            None => self.suspended.woken(cells),
        }
    }

    /// Takes what it goes on with itself: a call that it began is led to its end before others that it woke.
    fn take_own(&mut self) -> Option<Goal>
        ensures { (self.new.told ≡ self.old.told) × (self.new.suspended ≡ self.old.suspended) }
    {
        self.own.pop()
    }

    /// Takes a goal of the hands.
    fn take(&mut self) -> Option<Goal>
        ensures { (self.new.told ≡ self.old.told) × (self.new.suspended ≡ self.old.suspended) }
    {
        self.hand.take()
    }

    /// Does what can be done for a goal.
    fn look<G: Gate>(
        &mut self,
        shared: &Shared<'a, N, G>,
        cells: StoreCells<'a, N>,
        goal: Goal,
    ) -> Turned<'a, N>
        requires program { N.program ≡ named shared.now.loaded.now }
        requires table { IsTableOf N.program shared.now.table.now }
        requires store { cells.pass.store ≡ shared.now.store.now }
        requires at_work { IsAtWork N.program self.old.told [] self.old.suspended cells.pass }
        ensures store { result.0.pass.store ≡ cells.entry.pass.store }
        ensures turned { IsTurned N.program self.new.told self.new.suspended result.0.pass result.1 }
    {
        match item_over(shared.loaded, shared.words, goal) {
            Some(ItemNode::Call { goal: node }) => self.look_at_call(shared, cells, goal, node),
            Some(ItemNode::Is { left, right, pair }) => {
                self.look_at_is(shared, cells, goal, left, right, pair)
            }
            Some(
                ItemNode::Compare {
                    relation,
                    left,
                    right,
                },
            ) => self.look_at_comparison(shared, cells, goal, relation, left, right),
            _ => (cells, Ok(Turn::Worked)),
        }
    }

    /// Tells all that the tree is dead.
    pub(crate) fn give_up(
        &mut self,
        store: &'a Store<N>,
        cells: StoreCells<'a, N>,
        cause: Cause,
    ) -> Turned<'a, N>
        requires store { cells.pass.store ≡ store.now }
        requires live { (self.old.told.cause ≡ None) × (cells.pass.pass.fails ≡ []) }
        requires done { HasActed N.program self.old.told cells.pass }
        requires kills { Kills N.program self.old.told cells.pass cause }
        ensures store { result.0.pass.store ≡ cells.entry.pass.store }
        ensures turned { IsTurned N.program self.new.told self.new.suspended result.0.pass result.1 }
    {
        self.told.cause = Some(cause);
        (fail(store, cells), Ok(Turn::Over))
    }

    /// Puts a goal into the hand. Where the hand refuses it, it is left over.
    pub(crate) fn put(&mut self, goal: Goal)
        ensures { (self.new.told ≡ self.old.told) × (self.new.suspended ≡ self.old.suspended)
            × (self.new.pairs ≡ self.old.pairs) }
    {
        let _refused = self.hand.put(goal);
    }

    /// Puts a goal of a frame that this worker took beside the hand, where no other takes it. Where there is no room it
    /// is left over.
    pub(crate) fn put_own(&mut self, goal: Goal)
        ensures { (self.new.told ≡ self.old.told) × (self.new.suspended ≡ self.old.suspended)
            × (self.new.pairs ≡ self.old.pairs) }
    {
        let _refused = self.own.push(goal);
    }

    /// Keeps a goal until this worker finds the cell set.
    pub(crate) fn keep<'b>(
        &mut self,
        cells: StoreCells<'b, N>,
        goal: Goal,
        cell: u32,
    ) -> Turned<'b, N>
        requires cell { cell < cells.pass.store.about.words }
        requires at_work { IsAtWork N.program self.old.told [] self.old.suspended cells.pass }
        ensures store { result.0.pass.store ≡ cells.entry.pass.store }
        ensures turned { IsTurned N.program self.new.told self.new.suspended result.0.pass result.1 }
    {
        match self.suspended.wait(goal, cell) {
            Ok(()) => (cells, Ok(Turn::Worked)),
            Err(_) => (cells, Err(AllocError)),
        }
    }

    /// Lets a goal wait for a cell: whoever sets the cell goes on with it.
    pub(crate) fn wait(
        &mut self,
        store: &'a Store<N>,
        cells: StoreCells<'a, N>,
        goal: Goal,
        cell: u32,
    ) -> Turned<'a, N>
        requires store { cells.pass.store ≡ store.now }
        requires cell { cell < store.now.about.words }
        requires goal { IsGoalInRange N.program store.now.about.words goal }
        requires at_work { IsAtWork N.program self.old.told [] self.old.suspended cells.pass }
        ensures store { result.0.pass.store ≡ cells.entry.pass.store }
        ensures turned { IsTurned N.program self.new.told self.new.suspended result.0.pass result.1 }
    {
        let (cells, hung) = hang(store, cells, cell, goal);
        match hung {
            Hung::Done => (cells, Ok(Turn::Worked)),
            Hung::Full { goal } => self.keep(cells, goal, cell),
            Hung::Occupied { goal } => self.keep(cells, goal, cell),
            Hung::Bound { to: _, goal } => {
                self.put(goal);
                (cells, Ok(Turn::Worked))
            }
        }
    }
}
