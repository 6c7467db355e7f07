//! The walk over an expression, by a list of what is still to be done.

ghost use Rattle.std.specs.Prelude.{◌≡◌, ◌≢◌, ◌<◌, ◌≤◌, ◌^◌, ◌++◌, ◌∷◌, [], ℕ, suc, ℤ, Option, Some, None, List};
ghost use Rattle.std.specs.Prelude.{length, reverse, OnOk, OnErr};
ghost use Rattle.and_model.specs.Arithmetic.{operated};
ghost use Rattle.and_model.specs.declared.reference.Ref.{Ref};
ghost use Rattle.and_program.specs.Loaded.{skeleton_of, arguments_at};
ghost use Rattle.and_cells.specs.Ranges.{IsInRange, IsInRangeOrHalf};
ghost use Rattle.and_cells.specs.Seen.{Seen, OnlyReads, LeadsTo, FoundFree, IsWrittenIfNumber};
ghost use Rattle.and_cells.specs.Parts.{named};
ghost use Rattle.and_arith.specs.Taken.{IsNew};
ghost use Rattle.and_arith.specs.Turns.{stand, undone, tasks_of, Comes, Enters, Leaves, Keeps, Turns, Stops, PutsOff};
ghost use Rattle.and_arith.specs.Turns.{Finishes, AreCounted, IsReady};
ghost use Rattle.and_arith.specs.declared.values.Valued.{Valued};
ghost use Rattle.and_arith.specs.declared.walk.Task.{Task};

use crate::chains::{Followed, follow};
use crate::operations::{apply, apply_to_one, operator_of};
use crate::taken::Lookup;
use crate::values::{Valued, WorkList};
use and_cells::Cells;
use and_model::{NameNo, NodeNo, Ref};
use and_program::{Loaded, NodeKind};
use std::alloc::AllocError;

/// What is still to be done.
#[derive(Clone, Copy, PartialEq, Eq, Debug)]
pub(crate) enum Task {
    /// Find the value of this part.
    Enter(Ref),
    /// So many values are those of the arguments of a structure of this name: put its own in their place.
    Leave { name: NameNo, count: u8 },
    /// The last value is that of the term of this cell: remember it.
    Keep(u32),
}

/// Whether there is a turn after this one.
#[derive(Clone, Copy, PartialEq, Eq, Debug)]
pub(crate) enum Turn {
    Again,
    Over(Valued),
}

/// One turn: the next task is done.
pub(crate) fn take_turn<C: Cells>(
    loaded: &Loaded,
    cells: &mut C,
    fuel: &mut u64,
    work: &mut WorkList,
) -> Turn
    requires program { C.program ≡ named loaded.now }
    requires ready { IsReady C.program (stand (C.seen cells.old) work.old fuel.old) }
    ensures over { C.over cells.new ≡ C.over cells.old }
    ensures grew { C.Grew cells.old cells.new }
    ensures reads { OnlyReads (C.seen cells.old) (C.seen cells.new) }
    ensures again { result ≡ Turn.Again
        → Turns C.program (stand (C.seen cells.old) work.old fuel.old) (stand (C.seen cells.new) work.new fuel.new) }
    ensures number { (z : ℤ) → result ≡ Turn.Over (Valued.Number z)
        → Finishes (Some z) (stand (C.seen cells.old) work.old fuel.old) (stand (C.seen cells.new) work.new fuel.new) }
    ensures no_value { result ≡ Turn.Over Valued.NoValue
        → Finishes None (stand (C.seen cells.old) work.old fuel.old) (stand (C.seen cells.new) work.new fuel.new) }
    ensures waits { (cell : ℕ) → result ≡ Turn.Over (Valued.Waits cell)
        → Stops (C.shared (C.over cells.old)) cell (stand (C.seen cells.old) work.old fuel.old)
        (stand (C.seen cells.new) work.new fuel.new) }
    ensures put_off { result ≡ Turn.Over Valued.PutOff
        → PutsOff (stand (C.seen cells.old) work.old fuel.old) (stand (C.seen cells.new) work.new fuel.new) }
{
    match work.tasks.pop() {
        Some(Task::Enter(part)) => {
            if *fuel == 0 {
                return Turn::Over(Valued::PutOff);
            }
            *fuel -= 1;
            enter(loaded, cells, work, part)
        }
        Some(Task::Leave { name, count }) => after(work.leave(name, count)),
        Some(Task::Keep(cell)) => {
            work.keep(cell);
            Turn::Again
        }
        None => Turn::Over(work.outcome()),
    }
}

/// Enters a part.
fn enter<C: Cells>(loaded: &Loaded, cells: &mut C, work: &mut WorkList, part: Ref) -> Turn
    requires program { C.program ≡ named loaded.now }
    requires in_range { IsInRange C.program (C.seen cells.old).words part }
    requires written { IsWrittenIfNumber (C.seen cells.old) part }
    ensures over { C.over cells.new ≡ C.over cells.old }
    ensures grew { C.Grew cells.old cells.new }
    ensures reads { OnlyReads (C.seen cells.old) (C.seen cells.new) }
    ensures again { result ≡ Turn.Again → (fuel : ℕ)
        → Enters C.program part (stand (C.seen cells.old) work.old (suc fuel))
        (stand (C.seen cells.new) work.new fuel) }
    ensures waits { (cell : ℕ) → result ≡ Turn.Over (Valued.Waits cell)
        → LeadsTo (C.seen cells.new) part (Ref.Cell cell)
        × FoundFree (C.shared (C.over cells.old)) cell (C.seen cells.old) (C.seen cells.new) }
    ensures only { (result ≢ Turn.Over Valued.PutOff) × (result ≢ Turn.Over Valued.NoValue)
        × ((z : ℤ) → result ≢ Turn.Over (Valued.Number z)) }
{
    match part {
        Ref::Cell(from) => match follow(cells, from) {
            Followed::Free(cell) => Turn::Over(Valued::Waits { cell }),
            Followed::Set { cell, to } => after(enter_set(loaded, cells, work, cell, to)),
        },
        Ref::Node { node, base } => after(enter_node(loaded, work, node, base)),
        Ref::Number(pair) => {
            let number = cells.number(pair);
            after(work.put(Some(number)))
        }
        Ref::Free => unreachable!(),
        Ref::Half(_) => unreachable!(),
    }
}

/// Enters what a cell is set to. An error is want of memory.
fn enter_set<C: Cells>(
    loaded: &Loaded,
    cells: &mut C,
    work: &mut WorkList,
    cell: u32,
    to: Ref,
) -> Result<(), AllocError>
    requires program { C.program ≡ named loaded.now }
    requires in_range { IsInRangeOrHalf C.program (C.seen cells.old).words to }
    requires written { IsWrittenIfNumber (C.seen cells.old) to }
    requires no_cell { (other : ℕ) → to ≢ Ref.Cell other }
    ensures over { C.over cells.new ≡ C.over cells.old }
    ensures grew { C.Grew cells.old cells.new }
    ensures reads { OnlyReads (C.seen cells.old) (C.seen cells.new) }
    ensures ok { OnOk result (Comes C.program (Some cell) to (C.seen cells.new) (undone work.old) (undone work.new)) }
{
    match to {
        Ref::Node { node, base } => enter_term(loaded, work, cell, node, base),
        Ref::Number(pair) => {
            let number = cells.number(pair);
            work.put(Some(number))
        }
        Ref::Half(_) => work.put(None),
        Ref::Free => unreachable!(),
        Ref::Cell(_) => unreachable!(),
    }
}

/// Enters a node to which a cell is set: that of a structure is gone through once. An error is want of
/// memory.
fn enter_term(
    loaded: &Loaded,
    work: &mut WorkList,
    cell: u32,
    node: NodeNo,
    base: u32,
) -> Result<(), AllocError>
    requires { (words : ℕ) × IsInRange (named loaded.now) words (Ref.Node node base) }
    ensures { OnOk result ((s : Seen)
        → Comes (named loaded.now) (Some cell) (Ref.Node node base) s (undone work.old) (undone work.new)) }
{
    match loaded.kind(node) {
        NodeKind::Number(number) => work.put(Some(number)),
        NodeKind::Compound { name, count } => match work.taken.of(cell) {
            Lookup::Taken(value) => work.put(value),
            Lookup::New => {
                work.take(cell)?;
                work.open(loaded, node, base, name, count)
            }
        },
        NodeKind::Variable(_) => unreachable!(),
    }
}

/// Enters a node that no cell leads to. An error is want of memory.
fn enter_node(
    loaded: &Loaded,
    work: &mut WorkList,
    node: NodeNo,
    base: u32,
) -> Result<(), AllocError>
    requires { (words : ℕ) × IsInRange (named loaded.now) words (Ref.Node node base) }
    ensures { OnOk result ((s : Seen)
        → Comes (named loaded.now) None (Ref.Node node base) s (undone work.old) (undone work.new)) }
{
    match loaded.kind(node) {
        NodeKind::Number(number) => work.put(Some(number)),
        NodeKind::Compound { name, count } => work.open(loaded, node, base, name, count),
        NodeKind::Variable(_) => unreachable!(),
    }
}

/// Whether there is a turn after this step.
fn after(stepped: Result<(), AllocError>) -> Turn
    ensures ok { OnOk stepped (result ≡ Turn.Again) }
    ensures err { OnErr stepped (result ≡ Turn.Over Valued.Memory) }
{
    match stepped {
        Ok(()) => Turn::Again,
        Err(_) => Turn::Over(Valued::Memory),
    }
}

impl WorkList {
    /// Puts the value of a part on the list. An error is want of memory.
    fn put(&mut self, value: Option<i64>) -> Result<(), AllocError>
        ensures values { OnOk result (reverse self.new.values.items ≡ value ∷ reverse self.old.values.items) }
        ensures tasks { self.new.tasks ≡ self.old.tasks }
        ensures taken { self.new.taken ≡ self.old.taken }
    {
        self.values.push(value)?;
        Ok(())
    }

    /// Takes a cell, whose value is to be kept. An error is want of memory.
    fn take(&mut self, cell: u32) -> Result<(), AllocError>
        requires { IsNew self.old.taken cell }
        ensures tasks { OnOk result (reverse self.new.tasks.items ≡ Task.Keep cell ∷ reverse self.old.tasks.items) }
        ensures values { self.new.values ≡ self.old.values }
        ensures taken { OnOk result (self.new.taken ≡ self.old.taken ++ (cell, None) ∷ []) }
        ensures few { OnOk result (length self.new.taken < 2 ^ 63) }
    {
        self.taken.take(cell)?;
        self.tasks.push(Task::Keep(cell))?;
        Ok(())
    }

    /// Opens a structure, whose parts come to do from left to right. An error is want of memory.
    fn open(
        &mut self,
        loaded: &Loaded,
        node: NodeNo,
        base: u32,
        name: NameNo,
        count: u8,
    ) -> Result<(), AllocError>
        requires there { node.0 < length (skeleton_of loaded.now).nodes }
        requires base { base < 2 ^ 23 }
        requires count { count ≡ length (arguments_at (skeleton_of loaded.now) node.0) }
        ensures tasks { OnOk result (reverse self.new.tasks.items
            ≡ tasks_of (named loaded.now) node base name.0 count (reverse self.old.tasks.items)) }
        ensures values { self.new.values ≡ self.old.values }
        ensures taken { self.new.taken ≡ self.old.taken }
    {
        self.tasks.push(Task::Leave { name, count })?;
        let mut left = count;
        while left > 0 {
            left -= 1;
            let part = loaded.resolve(loaded.argument(node, left), base);
            self.tasks.push(Task::Enter(part))?;
        }
        Ok(())
    }

    /// Puts what an operation gives in the place of so many values. An error is want of memory.
    fn leave(&mut self, name: NameNo, count: u8) -> Result<(), AllocError>
        requires { count ≤ length (reverse self.old.values.items) }
        ensures { OnOk result ((s : Seen) (fuel : ℕ)
            → Leaves name.0 count (stand s self.old fuel) (stand s self.new fuel)) }
    {
        let value = operated(&mut self.values, name, count);
        self.put(value)
    }

    /// Remembers the last value as the cell's.
    fn keep(&mut self, cell: u32)
        requires values { 0 < length (reverse self.old.values.items) }
        requires taken { IsNew self.old.taken cell → ⊥ }
        ensures { (s : Seen) (fuel : ℕ) → Keeps cell (stand s self.old fuel) (stand s self.new fuel) }
    {
        match self.values.last() {
            Some(value) => self.taken.give(cell, *value),
            None => unreachable!(),
        }
    }

    /// What the expression came to, whose value is the last one.
    fn outcome(&mut self) -> Valued
        requires { 0 < length (reverse self.old.values.items) }
        ensures number { (z : ℤ) → result ≡ Valued.Number z
            → (others : List (Option ℤ)) × (reverse self.old.values.items ≡ Some z ∷ others) }
        ensures no_value { result ≡ Valued.NoValue
            → (others : List (Option ℤ)) × (reverse self.old.values.items ≡ None ∷ others) }
        ensures only { ((cell : ℕ) → result ≢ Valued.Waits cell) × (result ≢ Valued.PutOff) }
    {
        match self.values.pop() {
            Some(Some(number)) => Valued::Number(number),
            Some(None) => Valued::NoValue,
            None => unreachable!(),
        }
    }
}

/// Takes the values of so many parts from the end of the list, and answers what the operation of that
/// name gives for them.
fn operated(values: &mut Vec<Option<i64>>, name: NameNo, count: u8) -> Option<i64>
    requires { count ≤ length (reverse values.old.items) }
    ensures { (last : List (Option ℤ)) × (length last ≡ count)
        × (reverse values.old.items ≡ last ++ reverse values.new.items)
        × (result ≡ operated name.0 (reverse last)) }
{
    match count {
        1 => of_one(name, last(values)),
        2 => {
            let right = last(values);
            let left = last(values);
            of_two(name, left, right)
        }
        _ => {
            values.truncate(values.len() - count as usize);
            None
        }
    }
}

/// Takes the last value from a list.
fn last(values: &mut Vec<Option<i64>>) -> Option<i64>
    requires { 0 < length (reverse values.old.items) }
    ensures { reverse values.old.items ≡ result ∷ reverse values.new.items }
{
    match values.pop() {
        Some(value) => value,
        None => unreachable!(),
    }
}

/// What the operation of that name gives for one value.
fn of_one(name: NameNo, value: Option<i64>) -> Option<i64>
    ensures { result ≡ operated name.0 (value ∷ []) }
{
    apply_to_one(name.0, value?)
}

/// What the operation of that name gives for two values.
#[inline(always)]
pub(crate) fn of_two(name: NameNo, left: Option<i64>, right: Option<i64>) -> Option<i64>
    ensures { result ≡ operated name.0 (left ∷ right ∷ []) }
{
    apply(operator_of(name.0, 2)?, left?, right?)
}
