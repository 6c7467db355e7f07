//! Arithmetic that a worker runs.

ghost use Rattle.std.specs.Prelude.{◌≡◌, ◌⊎◌, ◌<◌, ◌++◌, ℕ, ℤ, Bool, [], true, length, OnOk};
ghost use Rattle.and_arith.specs.declared.values.Valued.{Valued};
ghost use Rattle.and_model.specs.Arithmetic.{related};
ghost use Rattle.and_cells.specs.Ranges.{IsGoalInRange, IsNodeInRange};
ghost use Rattle.and_program.specs.Skeletons;
ghost use Rattle.and_program.specs.Items.{relation as relation_of};
ghost use Rattle.and_cells.specs.Parts.{named};
ghost use Rattle.and_clause_index.specs.Tables.{IsTableOf};
ghost use Rattle.and_workers.specs.AtWork.{IsAtWork, IsTurned};
ghost use Rattle.and_workers.specs.Items.{IsItemOver};
ghost use Rattle.and_workers.specs.Running.{HasMade, MayRun, HasNumber, NotesRun, IsDecided};

use crate::calls::pass_now;
use crate::worker::{Reducer, Shared, Turn, Turned};
use and_arith::{Valued, compare, value};
use and_cells::{Cells, Naming};
use and_gate::Gate;
use and_handed::{Cause, Ran};
use and_model::{ClauseNo, Goal, NodeNo, Ref, Relation};
use and_store::StoreCells;
use std::alloc::AllocError;

/// How many parts of an expression a worker looks at.
const PARTS: u64 = 65_536;

impl<'a, N: Naming> Reducer<StoreCells<'a, N>> {
    /// Whether this worker made the reduction whose frame begins at the base. Its frames rise.
    fn has_made(&self, base: u32, clause: ClauseNo) -> bool
        ensures { result ≡ true → HasMade self.now.told.made.items base clause }
    {
        let made = self.told.made.as_slice();
        let mut low = 0;
        let mut high = made.len();
        while low < high {
            let middle = low + (high - low) / 2;
            if made[middle].reduction.node == base {
                return made[middle].reduction.clause == clause;
            }
            if made[middle].reduction.node < base {
                low = middle + 1;
            } else {
                high = middle;
            }
        }
        false
    }

    /// Whether this worker may run a goal of arithmetic: its frame was there at the opening, or is the worker's own.
    fn may_run<G: Gate>(&self, shared: &Shared<'a, N, G>, goal: Goal) -> bool
        ensures { result ≡ true → MayRun shared.now.opening self.now.told.made.items goal }
    {
        goal.base < shared.opening || self.has_made(goal.base, goal.clause)
    }

    /// The value of a node in the frame at the base.
    fn value_of<G: Gate>(
        &mut self,
        shared: &Shared<'a, N, G>,
        cells: &mut StoreCells<'a, N>,
        node: NodeNo,
        base: u32,
    ) -> Valued
        requires program { N.program ≡ named shared.now.loaded.now }
        requires node { IsNodeInRange N.program cells.old.pass.store.about.words node.0 base }
        requires at_work { IsAtWork N.program self.old.told [] self.old.suspended cells.old.pass }
        ensures told { (self.new.told ≡ self.old.told) × (self.new.suspended ≡ self.old.suspended) }
        ensures store { cells.new.pass.store ≡ cells.old.pass.store }
        ensures since { (since : _) × (cells.new.pass.pass.seen ≡ cells.old.pass.pass.seen ++ since) }
        ensures at_work { IsAtWork N.program self.new.told [] self.new.suspended cells.new.pass }
        ensures number { (z : ℤ) → result ≡ Valued.Number z
            → HasNumber N.program cells.new.pass.store.about.first cells.new.pass.pass.seen base node.0 z }
        ensures waits { (cell : ℕ) → result ≡ Valued.Waits cell → cell < cells.new.pass.store.about.words }
    {
        let mut fuel = PARTS;
        shared.loaded.skeleton_is_of_the_program();
        let expression = shared.loaded.resolve(node, base);
        value(
            shared.loaded,
            cells,
            expression,
            &mut fuel,
            &mut self.values,
        )
    }

    /// Lets a goal of arithmetic wait: one of the opening wherever it hangs, and another with this worker, who alone
    /// may run it.
    fn wait_for_value<G: Gate>(
        &mut self,
        shared: &Shared<'a, N, G>,
        cells: StoreCells<'a, N>,
        goal: Goal,
        cell: u32,
    ) -> Turned<'a, N>
        requires program { N.program ≡ named shared.now.loaded.now }
        requires table { IsTableOf N.program shared.now.table.now }
        requires store { cells.pass.store ≡ shared.now.store.now }
        requires at_work { IsAtWork N.program self.old.told [] self.old.suspended cells.pass }
        requires goal { IsGoalInRange N.program shared.now.words goal }
        requires cell { cell < shared.now.words }
        ensures store { result.0.pass.store ≡ cells.entry.pass.store }
        ensures turned { IsTurned N.program self.new.told self.new.suspended result.0.pass result.1 }
    {
        if goal.base < shared.opening {
            self.wait(shared.store, cells, goal, cell)
        } else {
            self.keep(cells, goal, cell)
        }
    }

    /// Runs an `is` goal, if it may and the right side has a value. Where that has none the goal is left over.
    pub(crate) fn look_at_is<G: Gate>(
        &mut self,
        shared: &Shared<'a, N, G>,
        cells: StoreCells<'a, N>,
        goal: Goal,
        left: NodeNo,
        right: NodeNo,
        number: u32,
    ) -> Turned<'a, N>
        requires program { N.program ≡ named shared.now.loaded.now }
        requires table { IsTableOf N.program shared.now.table.now }
        requires store { cells.pass.store ≡ shared.now.store.now }
        requires at_work { IsAtWork N.program self.old.told [] self.old.suspended cells.pass }
        requires goal { IsItemOver N.program shared.now.words goal (Skeletons.is left.0 right.0 number) }
        ensures store { result.0.pass.store ≡ cells.entry.pass.store }
        ensures turned { IsTurned N.program self.new.told self.new.suspended result.0.pass result.1 }
    {
        if !self.may_run(shared, goal) {
            return (cells, Ok(Turn::Worked));
        }
        let mut cells = cells;
        match self.value_of(shared, &mut cells, right, goal.base) {
            Valued::Memory => (cells, Err(AllocError)),
            Valued::PutOff => (cells, Ok(Turn::Worked)),
            Valued::NoValue => (cells, Ok(Turn::Worked)),
            Valued::Waits { cell } => self.wait_for_value(shared, cells, goal, cell),
            Valued::Number(value) => self.assign(shared, cells, goal, left, right, number, value),
        }
    }

    /// Notes that a goal of arithmetic was run. An error is want of memory.
    fn note_run<G: Gate>(
        &mut self,
        shared: &Shared<'a, N, G>,
        cells: StoreCells<'a, N>,
        goal: Goal,
    ) -> (StoreCells<'a, N>, Result<(), AllocError>)
        requires store { cells.pass.store ≡ shared.now.store.now }
        ensures same { result.0.pass ≡ cells.entry.pass }
        ensures kept { self.new.suspended ≡ self.old.suspended }
        ensures noted { OnOk result.1 (NotesRun goal cells.entry.pass self.old.told self.new.told) }
    {
        let (cells, judged) = pass_now(shared.store, cells);
        match self.told.ran.push(Ran { goal, judged }) {
            Ok(()) => (cells, Ok(())),
            Err(_) => (cells, Err(AllocError)),
        }
    }

    /// Writes a number into the goal's pair, and makes the left side one with it.
    fn assign<G: Gate>(
        &mut self,
        shared: &Shared<'a, N, G>,
        cells: StoreCells<'a, N>,
        goal: Goal,
        left: NodeNo,
        right: NodeNo,
        number: u32,
        value: i64,
    ) -> Turned<'a, N>
        requires program { N.program ≡ named shared.now.loaded.now }
        requires table { IsTableOf N.program shared.now.table.now }
        requires store { cells.pass.store ≡ shared.now.store.now }
        requires at_work { IsAtWork N.program self.old.told [] self.old.suspended cells.pass }
        requires may { MayRun shared.now.opening self.old.told.made.items goal }
        requires goal { IsItemOver N.program shared.now.words goal (Skeletons.is left.0 right.0 number) }
        requires number { HasNumber N.program cells.pass.store.about.first cells.pass.pass.seen
            goal.base right.0 value }
        ensures store { result.0.pass.store ≡ cells.entry.pass.store }
        ensures turned { IsTurned N.program self.new.told self.new.suspended result.0.pass result.1 }
    {
        let mut cells = cells;
        let variables = u32::from(shared.loaded.variables(goal.clause));
        let pair = goal.base + 1 + variables + 2 * number;
        if cells.write_number(pair, value) != value {
            self.told.is_spoilt = true;
            return (cells, Ok(Turn::Over));
        }
        let (cells, noted) = self.note_run(shared, cells, goal);
        if noted.is_err() {
            return (cells, Err(AllocError));
        }
        shared.loaded.skeleton_is_of_the_program();
        let left = shared.loaded.resolve(left, goal.base);
        self.pairs.clear();
        if self.pairs.push(left, Ref::Number(pair)).is_err() {
            return (cells, Err(AllocError));
        }
        self.solve(shared, cells)
    }

    /// Notes that a comparison was made, and gives up where it does not hold.
    fn compared<G: Gate>(
        &mut self,
        shared: &Shared<'a, N, G>,
        cells: StoreCells<'a, N>,
        goal: Goal,
        relation: Relation,
        left: NodeNo,
        right: NodeNo,
        holds: bool,
    ) -> Turned<'a, N>
        requires program { N.program ≡ named shared.now.loaded.now }
        requires store { cells.pass.store ≡ shared.now.store.now }
        requires at_work { IsAtWork N.program self.old.told [] self.old.suspended cells.pass }
        requires may { MayRun shared.now.opening self.old.told.made.items goal }
        requires goal { IsItemOver N.program shared.now.words goal
            (Skeletons.compare (relation_of relation) left.0 right.0) }
        requires decided { IsDecided N.program cells.pass.store.about.first cells.pass.pass.seen goal.base
            (relation_of relation) left.0 right.0 holds }
        ensures store { result.0.pass.store ≡ cells.entry.pass.store }
        ensures turned { IsTurned N.program self.new.told self.new.suspended result.0.pass result.1 }
    {
        let (cells, noted) = self.note_run(shared, cells, goal);
        if noted.is_err() {
            return (cells, Err(AllocError));
        }
        if !holds {
            return self.give_up(shared.store, cells, Cause::NoSolution);
        }
        (cells, Ok(Turn::Worked))
    }

    /// Runs a comparison, if it may and both sides are ground.
    pub(crate) fn look_at_comparison<G: Gate>(
        &mut self,
        shared: &Shared<'a, N, G>,
        cells: StoreCells<'a, N>,
        goal: Goal,
        relation: Relation,
        left: NodeNo,
        right: NodeNo,
    ) -> Turned<'a, N>
        requires program { N.program ≡ named shared.now.loaded.now }
        requires table { IsTableOf N.program shared.now.table.now }
        requires store { cells.pass.store ≡ shared.now.store.now }
        requires at_work { IsAtWork N.program self.old.told [] self.old.suspended cells.pass }
        requires goal { IsItemOver N.program shared.now.words goal
            (Skeletons.compare (relation_of relation) left.0 right.0) }
        ensures store { result.0.pass.store ≡ cells.entry.pass.store }
        ensures turned { IsTurned N.program self.new.told self.new.suspended result.0.pass result.1 }
    {
        if !self.may_run(shared, goal) {
            return (cells, Ok(Turn::Worked));
        }
        let mut cells = cells;
        let first = self.value_of(shared, &mut cells, left, goal.base);
        let second = self.value_of(shared, &mut cells, right, goal.base);
        match outcome(relation, first, second) {
            Compared::Memory => (cells, Err(AllocError)),
            Compared::PutOff => (cells, Ok(Turn::Worked)),
            Compared::Waits { cell } => self.wait_for_value(shared, cells, goal, cell),
            Compared::Made { holds } => {
                self.compared(shared, cells, goal, relation, left, right, holds)
            }
        }
    }
}

/// What became of a comparison.
#[derive(Clone, Copy)]
enum Compared {
    /// Both sides have values, and it holds of them or not.
    Made { holds: bool },
    /// It waits for this cell.
    Waits { cell: u32 },
    /// It is left over: a side has no value, or was not looked at to its end.
    PutOff,
    Memory,
}

/// What a comparison comes to where this became of its sides.
fn outcome(relation: Relation, first: Valued, second: Valued) -> Compared
    ensures made { (holds : Bool) → result ≡ Compared.Made holds
        → (x : ℤ) × (y : ℤ) × (first ≡ Valued.Number x) × (second ≡ Valued.Number y)
        × (holds ≡ related (relation_of relation) x y) }
    ensures waits { (cell : ℕ) → result ≡ Compared.Waits cell
        → (first ≡ Valued.Waits cell) ⊎ (second ≡ Valued.Waits cell) }
{
    match first {
        Valued::Memory => Compared::Memory,
        Valued::PutOff => Compared::PutOff,
        Valued::NoValue => Compared::PutOff,
        Valued::Waits { cell } => Compared::Waits { cell },
        Valued::Number(left) => outcome_with(relation, left, second),
    }
}

/// What a comparison comes to whose left side has this value.
fn outcome_with(relation: Relation, left: i64, second: Valued) -> Compared
    ensures made { (holds : Bool) → result ≡ Compared.Made holds
        → (y : ℤ) × (second ≡ Valued.Number y) × (holds ≡ related (relation_of relation) left y) }
    ensures waits { (cell : ℕ) → result ≡ Compared.Waits cell → second ≡ Valued.Waits cell }
{
    match second {
        Valued::Memory => Compared::Memory,
        Valued::PutOff => Compared::PutOff,
        Valued::NoValue => Compared::PutOff,
        Valued::Waits { cell } => Compared::Waits { cell },
        Valued::Number(right) => {
            let holds = compare(relation, left, right);
            Compared::Made { holds }
        }
    }
}
