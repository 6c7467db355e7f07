//! A call that is settled with the head of a clause.

ghost use Rattle.std.specs.Prelude.{◌≡◌, ◌≢◌, [], true, length, IfSome};
ghost use Rattle.and_model.specs.declared.reference.Ref.{Ref};
ghost use Rattle.and_program.specs.Skeletons.{AllFall};
ghost use Rattle.and_cells.specs.Ranges.{IsInRange, IsNodeInRange};
ghost use Rattle.and_cells.specs.Rows.{plain, IsSound};
ghost use Rattle.and_cells.specs.Seen.{word_at, IsWrittenIfNumber};
ghost use Rattle.and_cells.specs.Meaning.{IsSettled};
ghost use Rattle.and_cells.specs.Parts.{named};
ghost use Rattle.and_unify.specs.Pairs.{AreInRange, AreWritten, NameNoHalf};
ghost use Rattle.and_unify.specs.Setting.{HaveBeenSet};
ghost use Rattle.and_unify.specs.Settling.{AreNewFrom, Settles, SetsPlaces};
ghost use Rattle.and_unify.specs.declared.settling.Settled.{Settled};
ghost use Rattle.and_heads.specs.Calls.{call_and_head};

use crate::ending::owed_end;
use crate::entering::{Entered, enter, enter_call};
use crate::owing::Owed;
use crate::parts::Part;
use and_cells::{Naming, PlainCells};
use and_model::{NodeNo, Ref};
use and_program::Loaded;
use and_unify::{PairList, Settled, Solver};
use std::alloc::Global;
use std::marker::Model;

/// Settles calls with heads of clauses over cells that are settled, and tells which cells it set. It is kept by its
/// caller and used again, so that its lists take memory once. Contracts see the cells that the last call set.
pub struct HeadSolver {
    bound: Vec<u32>,
    /// Whether the solver set the cells.
    is_solved: bool,
    solver: Solver,
    /// Structures whose arguments are to be met.
    parts: Vec<Part>,
    /// Where paths that are followed are still to be followed from.
    visits: Vec<Ref>,
    /// Places that were followed.
    met: Vec<Ref>,
    /// The pair of a call and a head for the solver.
    pair: PairList,
}

// By hand, so that it is proved once, here.
impl Drop for HeadSolver {
    fn drop(self) {
        let HeadSolver {
            bound: _,
            is_solved: _,
            solver: _,
            parts: _,
            visits: _,
            met: _,
            pair: _,
        } = self;
    }
}

impl Model for HeadSolver {
    ghost use Rattle.std.specs.Prelude.{List, ℕ, cond};

    ghost Value = { List ℕ };

    ghost view = { λ heads. cond heads.is_solved heads.solver heads.bound.items };
}

impl HeadSolver {
    /// A solver that has set nothing yet. Takes no memory.
    pub fn new(alloc: Global) -> HeadSolver
        ensures { result ≡ [] }
    {
        HeadSolver {
            bound: Vec::new(alloc),
            is_solved: false,
            solver: Solver::new(alloc),
            parts: Vec::new(alloc),
            visits: Vec::new(alloc),
            met: Vec::new(alloc),
            pair: PairList::new(alloc),
        }
    }

    /// Forgets which cells were set. Takes no memory.
    pub fn forget(&mut self)
        ensures { self.new ≡ [] }
    {
        self.bound.clear();
        self.is_solved = false;
    }

    /// The cells that the last call set, each once. Takes no memory.
    pub fn bound(&self) -> &[u32]
        ensures { result.now ≡ self.now }
    {
        if self.is_solved {
            self.solver.bound()
        } else {
            &self.bound
        }
    }

    /// The same as [`Solver::settle_further`], word for word.
    ///
    /// The sides of pairs are met one after the other, and so are the arguments of structures, 64 at most. Of paths 64
    /// places are followed at most. What is not told by that is taken back, and left to the solver.
    pub fn settle_further<N: Naming>(
        &mut self,
        loaded: &Loaded,
        cells: &mut PlainCells<N>,
        floor: u32,
        pairs: &mut PairList,
    ) -> Settled
        requires program { N.program ≡ named loaded.now }
        requires in_range { AreInRange N.program (length cells.old) pairs.old }
        requires written { AreWritten (plain cells.old) pairs.old }
        requires settled { IsSettled N.program cells.old }
        requires no_half { NameNoHalf N.program (word_at cells.old) pairs.old }
        requires new { AreNewFrom N.program cells.old pairs.old floor }
        ensures settles { Settles N.program cells.old cells.new pairs.old result }
        ensures bound { HaveBeenSet cells.old cells.new self.new }
        ensures done { result ≡ Settled.Solved → pairs.new ≡ [] }
        ensures places { SetsPlaces N.program cells.old cells.new pairs.old }
    {
        let words = cells.len();
        self.bound.clear();
        self.is_solved = false;
        match settle_directly(
            loaded,
            cells,
            floor,
            pairs,
            &mut self.bound,
            &mut self.parts,
            &mut self.visits,
            &mut self.met,
        ) {
            Entered::Done => {
                pairs.clear();
                return Settled::Solved;
            }
            Entered::Apart => return Settled::NoSolution,
            Entered::GivenUp => {}
        }
        cells.take_back(&self.bound, words);
        self.is_solved = true;
        settle_by_solver(&mut self.solver, loaded, cells, floor, pairs)
    }

    /// The same of one pair, as most have it: a node in the frame at the base, as a call is, and one in the frame at the
    /// floor, as the head of a clause is. A list is made of it only where the solver is needed.
    pub fn settle_call<N: Naming>(
        &mut self,
        loaded: &Loaded,
        cells: &mut PlainCells<N>,
        floor: u32,
        call: NodeNo,
        base: u32,
        head: NodeNo,
    ) -> Settled
        requires program { N.program ≡ named loaded.now }
        requires call { IsNodeInRange N.program (length cells.old) call.0 base }
        requires head { IsNodeInRange N.program (length cells.old) head.0 floor }
        requires in_range { AreInRange N.program (length cells.old)
            (call_and_head N.program base call.0 floor head.0) }
        requires written { AreWritten (plain cells.old) (call_and_head N.program base call.0 floor head.0) }
        requires settled { IsSettled N.program cells.old }
        requires no_half { NameNoHalf N.program (word_at cells.old)
            (call_and_head N.program base call.0 floor head.0) }
        requires new { AreNewFrom N.program cells.old (call_and_head N.program base call.0 floor head.0) floor }
        ensures settles { Settles N.program cells.old cells.new
            (call_and_head N.program base call.0 floor head.0) result }
        ensures bound { HaveBeenSet cells.old cells.new self.new }
        ensures places { SetsPlaces N.program cells.old cells.new (call_and_head N.program base call.0 floor head.0) }
    {
        let _before = cells.len();
        self.bound.clear();
        self.is_solved = false;
        match settle_call_directly(
            loaded,
            cells,
            floor,
            call,
            base,
            head,
            &mut self.bound,
            &mut self.parts,
            &mut self.visits,
            &mut self.met,
        ) {
            Entered::Done => return Settled::Solved,
            Entered::Apart => return Settled::NoSolution,
            Entered::GivenUp => {}
        }
        let words = cells.len();
        cells.take_back(&self.bound, words);
        self.settle_call_by_solver(loaded, cells, floor, call, base, head)
    }

    /// The same by the solver, as is seldom needed.
    #[cold]
    #[inline(never)]
    fn settle_call_by_solver<N: Naming>(
        &mut self,
        loaded: &Loaded,
        cells: &mut PlainCells<N>,
        floor: u32,
        call: NodeNo,
        base: u32,
        head: NodeNo,
    ) -> Settled
        requires program { N.program ≡ named loaded.now }
        requires call { IsNodeInRange N.program (length cells.old) call.0 base }
        requires head { IsNodeInRange N.program (length cells.old) head.0 floor }
        requires in_range { AreInRange N.program (length cells.old)
            (call_and_head N.program base call.0 floor head.0) }
        requires written { AreWritten (plain cells.old) (call_and_head N.program base call.0 floor head.0) }
        requires settled { IsSettled N.program cells.old }
        requires no_half { NameNoHalf N.program (word_at cells.old)
            (call_and_head N.program base call.0 floor head.0) }
        requires new { AreNewFrom N.program cells.old (call_and_head N.program base call.0 floor head.0) floor }
        ensures settles { Settles N.program cells.old cells.new
            (call_and_head N.program base call.0 floor head.0) result }
        ensures bound { HaveBeenSet cells.old cells.new self.new }
        ensures places { SetsPlaces N.program cells.old cells.new (call_and_head N.program base call.0 floor head.0) }
    {
        let left = loaded.resolve(call, base);
        let right = loaded.resolve(head, floor);
        self.forget();
        self.pair.clear();
        match self.pair.push(left, right) {
            Ok(()) => {
                self.is_solved = true;
                settle_by_solver(&mut self.solver, loaded, cells, floor, &mut self.pair)
            }
            Err(_) => Settled::Memory,
        }
    }
}

/// The same by the solver, as is seldom needed: a call of its own, so that none of its code stands among what is done
/// each time.
#[cold]
#[inline(never)]
fn settle_by_solver<N: Naming>(
    solver: &mut Solver,
    loaded: &Loaded,
    cells: &mut PlainCells<N>,
    floor: u32,
    pairs: &mut PairList,
) -> Settled
    requires program { N.program ≡ named loaded.now }
    requires in_range { AreInRange N.program (length cells.old) pairs.old }
    requires written { AreWritten (plain cells.old) pairs.old }
    requires settled { IsSettled N.program cells.old }
    requires no_half { NameNoHalf N.program (word_at cells.old) pairs.old }
    requires new { AreNewFrom N.program cells.old pairs.old floor }
    ensures settles { Settles N.program cells.old cells.new pairs.old result }
    ensures bound { HaveBeenSet cells.old cells.new solver.new }
    ensures done { result ≡ Settled.Solved → pairs.new ≡ [] }
    ensures places { SetsPlaces N.program cells.old cells.new pairs.old }
{
    solver.settle_further(loaded, cells, floor, pairs)
}

/// The same by arguments that are met one after the other, where that tells it.
fn settle_directly<N: Naming>(
    loaded: &Loaded,
    cells: &mut PlainCells<N>,
    floor: u32,
    pairs: &PairList,
    bound: &mut Vec<u32>,
    parts: &mut Vec<Part>,
    visits: &mut Vec<Ref>,
    met: &mut Vec<Ref>,
) -> Entered
    requires program { N.program ≡ named loaded.now }
    requires in_range { AreInRange N.program (length cells.old) pairs.now }
    requires written { AreWritten (plain cells.old) pairs.now }
    requires settled { IsSettled N.program cells.old }
    requires no_half { NameNoHalf N.program (word_at cells.old) pairs.now }
    requires new { AreNewFrom N.program cells.old pairs.now floor }
    requires empty { bound.old.items ≡ [] }
    ensures done { result ≡ Entered.Done → Settles N.program cells.old cells.new pairs.now Settled.Solved }
    ensures apart { result ≡ Entered.Apart → Settles N.program cells.old cells.new pairs.now Settled.NoSolution }
    ensures bound { HaveBeenSet cells.old cells.new bound.new.items }
    ensures places { SetsPlaces N.program cells.old cells.new pairs.now }
{
    laws_of_rows(loaded, cells);
    let mut owed = Owed::Nothing;
    match enter(loaded, cells, pairs, floor, bound, &mut owed, parts) {
        Entered::Done => ended(owed_end(loaded, cells, floor, owed, bound, visits, met)),
        Entered::Apart => Entered::Apart,
        Entered::GivenUp => Entered::GivenUp,
    }
}

/// The same of a call and a head, which are nodes in the frames at the base and at the floor.
fn settle_call_directly<N: Naming>(
    loaded: &Loaded,
    cells: &mut PlainCells<N>,
    floor: u32,
    call: NodeNo,
    base: u32,
    head: NodeNo,
    bound: &mut Vec<u32>,
    parts: &mut Vec<Part>,
    visits: &mut Vec<Ref>,
    met: &mut Vec<Ref>,
) -> Entered
    requires program { N.program ≡ named loaded.now }
    requires call { IsNodeInRange N.program (length cells.old) call.0 base }
    requires head { IsNodeInRange N.program (length cells.old) head.0 floor }
    requires in_range { AreInRange N.program (length cells.old) (call_and_head N.program base call.0 floor head.0) }
    requires written { AreWritten (plain cells.old) (call_and_head N.program base call.0 floor head.0) }
    requires settled { IsSettled N.program cells.old }
    requires no_half { NameNoHalf N.program (word_at cells.old) (call_and_head N.program base call.0 floor head.0) }
    requires new { AreNewFrom N.program cells.old (call_and_head N.program base call.0 floor head.0) floor }
    requires empty { bound.old.items ≡ [] }
    ensures done { result ≡ Entered.Done → Settles N.program cells.old cells.new
        (call_and_head N.program base call.0 floor head.0) Settled.Solved }
    ensures apart { result ≡ Entered.Apart → Settles N.program cells.old cells.new
        (call_and_head N.program base call.0 floor head.0) Settled.NoSolution }
    ensures bound { HaveBeenSet cells.old cells.new bound.new.items }
    ensures places { SetsPlaces N.program cells.old cells.new (call_and_head N.program base call.0 floor head.0) }
{
    laws_of_rows(loaded, cells);
    let mut owed = Owed::Nothing;
    match enter_call(
        loaded, cells, floor, call, base, head, bound, &mut owed, parts,
    ) {
        Entered::Done => ended(owed_end(loaded, cells, floor, owed, bound, visits, met)),
        Entered::Apart => Entered::Apart,
        Entered::GivenUp => Entered::GivenUp,
    }
}

/// What holds of each row, and of the nodes of each program.
fn laws_of_rows<N: Naming>(loaded: &Loaded, cells: &PlainCells<N>)
    requires program { N.program ≡ named loaded.now }
    ensures sound { IsSound N.program cells.now }
    ensures falls { AllFall 0 N.program.skeleton.nodes }
{
    let _words = cells.len();
    loaded.skeleton_is_of_the_program();
}

/// What parts that were made the same come to, where it was seen of all paths that they end, or not.
fn ended(all: bool) -> Entered
    ensures done { result ≡ Entered.Done → all ≡ true }
    ensures apart { result ≢ Entered.Apart }
{
    if all { Entered::Done } else { Entered::GivenUp }
}
