//! The values of expressions over rows of words.

ghost use Rattle.std.specs.Prelude.{◌≡◌, ◌≢◌, ℕ, ℤ, [], ◌∷◌, length, reverse, OnOk};
ghost use Rattle.and_model.specs.declared.reference.Ref.{Ref};
ghost use Rattle.and_cells.specs.Ranges.{IsInRange};
ghost use Rattle.and_cells.specs.Seen.{IsWrittenIfNumber, OnlyReads, FoundFree, word_at};
ghost use Rattle.and_cells.specs.Rows.{plain};
ghost use Rattle.and_cells.specs.Parts.{named};
ghost use Rattle.and_value_laws.specs.Values.{Reaches, HasValue, LacksValue, IsFirstFree};
ghost use Rattle.and_arith.specs.Sizes.{Spends};
ghost use Rattle.and_arith.specs.declared.walk.Task.{Task};

use crate::glancing::{glance, glance_at_leaf, glance_at_operation};
use crate::taken::Taken;
use crate::walk::{Task, Turn, take_turn};
use and_cells::{Cells, Naming, PlainCells};
use and_model::Ref;
use and_program::Loaded;
use std::alloc::{AllocError, Global};

/// So many levels of an expression are looked at before it is gone through by a list.
const LEVELS: u32 = 16;

/// What became of an expression.
#[derive(Clone, Copy, PartialEq, Eq, Debug)]
pub enum Valued {
    /// It has this value.
    Number(i64),
    /// It is ground, and has no value.
    NoValue,
    /// It waits for this cell, which was found free.
    Waits { cell: u32 },
    /// The fuel was used up with a part left.
    PutOff,
    /// Want of memory.
    Memory,
}

/// What a caller lends to `value` to work on. It keeps its room from call to call, so that most calls
/// take no memory.
pub struct WorkList {
    /// What is still to be done. The next task is the last of them.
    pub(crate) tasks: Vec<Task>,
    /// The values of parts whose wholes are not done.
    pub(crate) values: Vec<Option<i64>>,
    /// The cells whose terms were come to.
    pub(crate) taken: Taken,
}

// By hand, so that it is proved once, here.
impl Drop for WorkList {
    fn drop(self) {
        let WorkList {
            tasks: _,
            values: _,
            taken: _,
        } = self;
    }
}

impl WorkList {
    /// An empty list. Takes no memory.
    pub fn new(alloc: Global) -> WorkList {
        WorkList {
            tasks: Vec::new(alloc),
            values: Vec::new(alloc),
            taken: Taken::new(alloc),
        }
    }

    /// Forgets what an earlier call left, and puts an expression on the list. An error is want of
    /// memory.
    fn begin(&mut self, expression: Ref) -> Result<(), AllocError>
        ensures tasks { OnOk result (reverse self.new.tasks.items ≡ Task.Enter expression ∷ []) }
        ensures values { reverse self.new.values.items ≡ [] }
        ensures taken { self.new.taken ≡ [] }
    {
        self.tasks.clear();
        self.values.clear();
        self.taken.clear();
        self.tasks.push(Task::Enter(expression))?;
        Ok(())
    }
}

/// The value of an expression.
///
/// Each of its parts takes 1 of the fuel. The term of a cell is gone through once, however often the
/// cell occurs; so the fuel is never used up with a part left where the expression, with each such
/// term written out once, has at most as many parts as there was fuel.
pub fn value<C: Cells>(
    loaded: &Loaded,
    cells: &mut C,
    expression: Ref,
    fuel: &mut u64,
    work: &mut WorkList,
) -> Valued
    requires program { C.program ≡ named loaded.now }
    requires in_range { IsInRange C.program (C.seen cells.old).words expression }
    requires written { IsWrittenIfNumber (C.seen cells.old) expression }
    ensures over { C.over cells.new ≡ C.over cells.old }
    ensures grew { C.Grew cells.old cells.new }
    ensures reads { OnlyReads (C.seen cells.old) (C.seen cells.new) }
    ensures number { (z : ℤ) → result ≡ Valued.Number z → HasValue C.program (C.seen cells.new) expression z }
    ensures no_value { result ≡ Valued.NoValue → LacksValue C.program (C.seen cells.new) expression }
    ensures waits { (cell : ℕ) → result ≡ Valued.Waits cell
        → FoundFree (C.shared (C.over cells.old)) cell (C.seen cells.old) (C.seen cells.new)
        × Reaches C.program (C.seen cells.new) expression (Ref.Cell cell)
        × IsFirstFree C.program (C.seen cells.new) expression cell }
    ensures spends { Spends C.program (C.seen cells.new) expression fuel.old fuel.new result }
{
    if work.begin(expression).is_err() {
        return Valued::Memory;
    }
    loaded.skeleton_is_of_the_program();
    loop {
        match take_turn(loaded, cells, fuel, work) {
            Turn::Again => {}
            Turn::Over(value) => return value,
        }
    }
}

/// The value of an expression over plain cells, without fuel. It is never put off.
///
/// Where the cells are settled, and the expression leads to no word of a pair, it has a term. So it is
/// `Number` or `NoValue` exactly where that term is ground, with a value or without one, and else
/// `Waits` for the term's first variable.
#[inline(always)]
pub fn value_of<N: Naming>(
    loaded: &Loaded,
    cells: &mut PlainCells<N>,
    expression: Ref,
    work: &mut WorkList,
) -> Valued
    requires program { N.program ≡ named loaded.now }
    requires in_range { IsInRange N.program (length cells.old) expression }
    requires written { IsWrittenIfNumber (plain cells.old) expression }
    ensures unchanged { cells.new ≡ cells.old }
    ensures number { (z : ℤ) → result ≡ Valued.Number z → HasValue N.program (plain cells.old) expression z }
    ensures no_value { result ≡ Valued.NoValue → LacksValue N.program (plain cells.old) expression }
    ensures waits { (cell : ℕ) → result ≡ Valued.Waits cell
        → (word_at cells.old cell ≡ Ref.Free)
        × Reaches N.program (plain cells.old) expression (Ref.Cell cell)
        × IsFirstFree N.program (plain cells.old) expression cell }
    ensures not_put_off { result ≢ Valued.PutOff }
{
    let told = glance_at_leaf(loaded, cells, expression);
    match told {
        Valued::Number(_) => told,
        Valued::Waits { cell: _ } => told,
        Valued::NoValue => value_by_operation(loaded, cells, expression, work),
        Valued::PutOff => value_by_operation(loaded, cells, expression, work),
        Valued::Memory => value_by_operation(loaded, cells, expression, work),
    }
}

/// The same, by a look at an operation.
#[inline(never)]
fn value_by_operation<N: Naming>(
    loaded: &Loaded,
    cells: &mut PlainCells<N>,
    expression: Ref,
    work: &mut WorkList,
) -> Valued
    requires program { N.program ≡ named loaded.now }
    requires in_range { IsInRange N.program (length cells.old) expression }
    requires written { IsWrittenIfNumber (plain cells.old) expression }
    ensures unchanged { cells.new ≡ cells.old }
    ensures number { (z : ℤ) → result ≡ Valued.Number z → HasValue N.program (plain cells.old) expression z }
    ensures no_value { result ≡ Valued.NoValue → LacksValue N.program (plain cells.old) expression }
    ensures waits { (cell : ℕ) → result ≡ Valued.Waits cell
        → (word_at cells.old cell ≡ Ref.Free)
        × Reaches N.program (plain cells.old) expression (Ref.Cell cell)
        × IsFirstFree N.program (plain cells.old) expression cell }
    ensures not_put_off { result ≢ Valued.PutOff }
{
    loaded.skeleton_is_of_the_program();
    let told = glance_at_operation(loaded, cells, expression);
    match told {
        Valued::Number(_) => told,
        Valued::Waits { cell: _ } => told,
        Valued::NoValue => value_by_levels(loaded, cells, expression, work),
        Valued::PutOff => value_by_levels(loaded, cells, expression, work),
        Valued::Memory => value_by_levels(loaded, cells, expression, work),
    }
}

/// The same, by a look at so many levels.
#[inline(never)]
fn value_by_levels<N: Naming>(
    loaded: &Loaded,
    cells: &mut PlainCells<N>,
    expression: Ref,
    work: &mut WorkList,
) -> Valued
    requires program { N.program ≡ named loaded.now }
    requires in_range { IsInRange N.program (length cells.old) expression }
    requires written { IsWrittenIfNumber (plain cells.old) expression }
    ensures unchanged { cells.new ≡ cells.old }
    ensures number { (z : ℤ) → result ≡ Valued.Number z → HasValue N.program (plain cells.old) expression z }
    ensures no_value { result ≡ Valued.NoValue → LacksValue N.program (plain cells.old) expression }
    ensures waits { (cell : ℕ) → result ≡ Valued.Waits cell
        → (word_at cells.old cell ≡ Ref.Free)
        × Reaches N.program (plain cells.old) expression (Ref.Cell cell)
        × IsFirstFree N.program (plain cells.old) expression cell }
    ensures not_put_off { result ≢ Valued.PutOff }
{
    loaded.skeleton_is_of_the_program();
    let told = glance(loaded, cells, expression, LEVELS);
    match told {
        Valued::Number(_) => told,
        Valued::Waits { cell: _ } => told,
        Valued::NoValue => value_by_list(loaded, cells, expression, work),
        Valued::PutOff => value_by_list(loaded, cells, expression, work),
        Valued::Memory => value_by_list(loaded, cells, expression, work),
    }
}

/// The same, by a list of what is to be done.
fn value_by_list<N: Naming>(
    loaded: &Loaded,
    cells: &mut PlainCells<N>,
    expression: Ref,
    work: &mut WorkList,
) -> Valued
    requires program { N.program ≡ named loaded.now }
    requires in_range { IsInRange N.program (length cells.old) expression }
    requires written { IsWrittenIfNumber (plain cells.old) expression }
    ensures unchanged { cells.new ≡ cells.old }
    ensures number { (z : ℤ) → result ≡ Valued.Number z → HasValue N.program (plain cells.old) expression z }
    ensures no_value { result ≡ Valued.NoValue → LacksValue N.program (plain cells.old) expression }
    ensures waits { (cell : ℕ) → result ≡ Valued.Waits cell
        → (word_at cells.old cell ≡ Ref.Free)
        × Reaches N.program (plain cells.old) expression (Ref.Cell cell)
        × IsFirstFree N.program (plain cells.old) expression cell }
    ensures not_put_off { result ≢ Valued.PutOff }
{
    if work.begin(expression).is_err() {
        return Valued::Memory;
    }
    loaded.skeleton_is_of_the_program();
    loop {
        // With fuel for each turn none is put off.
        let mut fuel = 1;
        match take_turn(loaded, cells, &mut fuel, work) {
            Turn::Again => {}
            Turn::Over(value) => return value,
        }
    }
}
