//! Goals of arithmetic that are run.

ghost use Rattle.std.specs.Prelude.{◌≡◌, ◌≤◌, ◌<◌, ℕ, length, get_or, Ok, IfOk, OnOk};
ghost use Rattle.and_model.specs.declared.limits.TheConstants.{MAX_LIMIT};
ghost use Rattle.and_program.specs.Items.{node_item, relation};
ghost use Rattle.and_program.specs.Loaded.{nodes_at, program_of, skeleton_of};
ghost use Rattle.and_program.specs.Skeletons;
ghost use Rattle.and_program.specs.Skeletons.{node_term};
ghost use Rattle.and_cells.specs.Meaning.{IsSettled};
ghost use Rattle.and_cells.specs.Parts.{named, part_at};
ghost use Rattle.and_cells.specs.Ranges.{pair_of};
ghost use Rattle.and_cells.specs.Rows.{IsSound};
ghost use Rattle.and_branch_laws.specs.Settling.{IsWritten};
ghost use Rattle.and_branch_laws.specs.Goals.{CanBeRead};
ghost use Rattle.and_guards.specs.Sides.{IsSide};
ghost use Rattle.and_step_laws.specs.Assigning.{CanBeAssigned, IsFreePair};
ghost use Rattle.and_step_laws.specs.Running.{Assigns, Compares, IsAskedFor, IsRunnable};
ghost use Rattle.and_step_laws.specs.Runs.{CanBeRun, IsWaiting, WaitsFor, HasRun, CannotHold};
ghost use Rattle.and_reduction.specs.Asked.{the_pair};
ghost use Rattle.and_reduction.specs.Sides.{AssignsTo, IsComparison, RunsTo};
ghost use Rattle.and_reduction.specs.Trails.{KeepsNoted};
ghost use Rattle.and_reduction.specs.Writes.{SetsByRun, SetsNumber};

use crate::settling::settle_number;
use crate::sides::{compare_numbers, compare_sides};
use crate::taking::Tools;
use crate::trail::Trail;
use and_arith::WorkList;
use and_cells::{Naming, PlainCells, halves};
use and_guards::{Side, evaluate, number_at_once};
use and_model::{ClauseNo, Goal, NodeNo, Ref, Relation};
use and_program::{ItemNode, Loaded};
use and_unify::Settled as Answer;
use std::alloc::AllocError;

/// What a goal of arithmetic comes to.
#[derive(Clone, Copy, PartialEq, Eq, Debug)]
pub enum Ran {
    /// What it needs is not ground, and is not while this cell is free. The cells are as before.
    Waits { cell: u32 },
    /// It was run.
    Done,
    /// It cannot hold. The cells are spent.
    False,
}

/// Runs a goal of arithmetic where what it needs is ground. What is set in the row is noted. An error is
/// want of memory, and the cells are spent.
#[inline(always)]
pub fn run<N: Naming>(
    loaded: &Loaded,
    cells: &mut PlainCells<N>,
    goal: Goal,
    trail: &mut Trail,
    tools: &mut Tools,
) -> Result<Ran, AllocError>
    requires program { N.program ≡ named loaded.now }
    requires settled { IsSettled N.program cells.old }
    requires short { length cells.old ≤ MAX_LIMIT }
    requires goal { CanBeRun N.program cells.old goal }
    ensures waits { (cell : ℕ) → result ≡ Ok (Ran.Waits cell) → IsWaiting N.program cells.old goal }
    ensures waits_for { (cell : ℕ) → result ≡ Ok (Ran.Waits cell) → WaitsFor N.program cells.old goal cell }
    ensures unchanged { (cell : ℕ) → result ≡ Ok (Ran.Waits cell) → cells.new ≡ cells.old }
    ensures done { result ≡ Ok Ran.Done → HasRun N.program cells.old cells.new goal }
    ensures fails { result ≡ Ok Ran.False → CannotHold N.program cells.old goal }
    ensures noted { OnOk result (KeepsNoted trail.old trail.new cells.old cells.new) }
    ensures sets { OnOk result (SetsByRun N.program cells.old cells.new goal) }
{
    let item = runnable_item(loaded, cells, goal);
    run_item(loaded, cells, goal, item, trail, tools)
}

/// The same, of a goal whose item is given.
#[inline(always)]
pub fn run_item<N: Naming>(
    loaded: &Loaded,
    cells: &mut PlainCells<N>,
    goal: Goal,
    item: ItemNode,
    trail: &mut Trail,
    tools: &mut Tools,
) -> Result<Ran, AllocError>
    requires program { N.program ≡ named loaded.now }
    requires settled { IsSettled N.program cells.old }
    requires short { length cells.old ≤ MAX_LIMIT }
    requires item { IsRunnable N.program cells.old goal (node_item item) }
    ensures ran { IfOk result (RunsTo N.program cells.old cells.new goal) }
    ensures noted { OnOk result (KeepsNoted trail.old trail.new cells.old cells.new) }
    ensures sets { OnOk result (SetsByRun N.program cells.old cells.new goal) }
{
    match item {
        ItemNode::Compare {
            relation,
            left,
            right,
        } => run_comparison(
            loaded,
            cells,
            goal,
            relation,
            left,
            right,
            &mut tools.values,
        ),
        ItemNode::Is { left, right, pair } => {
            run_assignment(loaded, cells, goal, left, right, pair, trail, tools)
        }
        ItemNode::Call { goal: _ } => unreachable!(),
        ItemNode::Equal { left: _, right: _ } => unreachable!(),
        ItemNode::Fail => unreachable!(),
    }
}

/// The item of a goal of arithmetic.
fn runnable_item<N: Naming>(loaded: &Loaded, cells: &PlainCells<N>, goal: Goal) -> ItemNode
    requires program { N.program ≡ named loaded.now }
    requires goal { CanBeRun N.program cells.now goal }
    ensures { IsRunnable N.program cells.now goal (node_item result) }
{
    loaded.skeleton_is_of_the_program();
    item_in(loaded, goal.clause, goal.item)
}

/// The item of a body at a place.
fn item_in(loaded: &Loaded, clause: ClauseNo, item: u32) -> ItemNode
    requires clause { clause.0 ≤ length (program_of loaded.now).clauses }
    requires item { item < length (nodes_at (skeleton_of loaded.now) clause.0).items }
    ensures { node_item result ≡ get_or (nodes_at (skeleton_of loaded.now) clause.0).items item Skeletons.fail }
{
    loaded.items(clause)[item as usize]
}

/// The first word of the pair of an `is` goal, by its number among those of its clause.
fn pair_in(loaded: &Loaded, clause: ClauseNo, base: u32, number: u32) -> u32
    requires clause { clause.0 ≤ length (program_of loaded.now).clauses }
    requires short { pair_of (named loaded.now) clause.0 base number ≤ MAX_LIMIT }
    ensures { result ≡ pair_of (named loaded.now) clause.0 base number }
{
    base + 1 + u32::from(loaded.variables(clause)) + 2 * number
}

/// Compares two nodes. The cells are as before. An error is want of memory.
#[inline(always)]
fn run_comparison<N: Naming>(
    loaded: &Loaded,
    cells: &mut PlainCells<N>,
    goal: Goal,
    by: Relation,
    left: NodeNo,
    right: NodeNo,
    values: &mut WorkList,
) -> Result<Ran, AllocError>
    requires program { N.program ≡ named loaded.now }
    requires settled { IsSettled N.program cells.old }
    requires item { Compares N.program cells.old goal (relation by) left.0 right.0 }
    ensures ran { IfOk result (RunsTo N.program cells.old cells.new goal) }
    ensures unchanged { cells.new ≡ cells.old }
{
    let Some(first) = number_at_once(loaded, cells, goal.base, left) else {
        return compare_by_sides(loaded, cells, goal.base, by, left, right, values);
    };
    let Some(second) = number_at_once(loaded, cells, goal.base, right) else {
        return compare_with_side(loaded, cells, goal.base, by, left, right, first, values);
    };
    Ok(compare_numbers(by, first, second))
}

/// The same of two nodes in the frame at the base, of which the left one comes to this number.
#[inline(never)]
fn compare_with_side<N: Naming>(
    loaded: &Loaded,
    cells: &mut PlainCells<N>,
    base: u32,
    by: Relation,
    left: NodeNo,
    right: NodeNo,
    first: i64,
    values: &mut WorkList,
) -> Result<Ran, AllocError>
    requires program { N.program ≡ named loaded.now }
    requires settled { IsSettled N.program cells.old }
    requires left { IsSide N.program cells.old base (node_term N.program.skeleton.nodes left.0) (Side.Number first) }
    requires right { CanBeRead N.program cells.old base right.0 }
    ensures compared { IfOk result (IsComparison N.program cells.old base (relation by)
        (node_term N.program.skeleton.nodes left.0) (node_term N.program.skeleton.nodes right.0)) }
    ensures unchanged { cells.new ≡ cells.old }
{
    let second = evaluate(loaded, cells, base, right, values)?;
    Ok(compare_sides(by, Side::Number(first), second))
}

/// The same of two nodes in the frame at the base, by what is known of each. This stands in a call of its own that
/// takes numbers, so that no goal is written to memory where a look tells both.
#[inline(never)]
fn compare_by_sides<N: Naming>(
    loaded: &Loaded,
    cells: &mut PlainCells<N>,
    base: u32,
    by: Relation,
    left: NodeNo,
    right: NodeNo,
    values: &mut WorkList,
) -> Result<Ran, AllocError>
    requires program { N.program ≡ named loaded.now }
    requires settled { IsSettled N.program cells.old }
    requires left { CanBeRead N.program cells.old base left.0 }
    requires right { CanBeRead N.program cells.old base right.0 }
    ensures compared { IfOk result (IsComparison N.program cells.old base (relation by)
        (node_term N.program.skeleton.nodes left.0) (node_term N.program.skeleton.nodes right.0)) }
    ensures unchanged { cells.new ≡ cells.old }
{
    let first = evaluate(loaded, cells, base, left, values)?;
    let second = evaluate(loaded, cells, base, right, values)?;
    Ok(compare_sides(by, first, second))
}

/// Gives the left node of an `is` goal the value of the right one, where that is ground. What is set in the row is
/// noted. An error is want of memory, and the cells are spent.
#[inline(always)]
fn run_assignment<N: Naming>(
    loaded: &Loaded,
    cells: &mut PlainCells<N>,
    goal: Goal,
    left: NodeNo,
    right: NodeNo,
    pair: u32,
    trail: &mut Trail,
    tools: &mut Tools,
) -> Result<Ran, AllocError>
    requires program { N.program ≡ named loaded.now }
    requires settled { IsSettled N.program cells.old }
    requires short { length cells.old ≤ MAX_LIMIT }
    requires item { Assigns N.program cells.old goal left.0 right.0 pair }
    ensures ran { IfOk result (RunsTo N.program cells.old cells.new goal) }
    ensures noted { OnOk result (KeepsNoted trail.old trail.new cells.old cells.new) }
    ensures sets { OnOk result (SetsByRun N.program cells.old cells.new goal) }
{
    if let Some(value) = number_at_once(loaded, cells, goal.base, right) {
        let first = pair_in(loaded, goal.clause, goal.base, pair);
        return assign(loaded, cells, goal.base, left, first, value, trail, tools);
    }
    match evaluate(loaded, cells, goal.base, right, &mut tools.values)? {
        Side::Waits { cell } => Ok(Ran::Waits { cell }),
        Side::NoValue => Ok(Ran::False),
        Side::Number(value) => {
            let first = pair_in(loaded, goal.clause, goal.base, pair);
            assign_seldom(loaded, cells, goal.base, left, first, value, trail, tools)
        }
    }
}

/// Writes a number into a pair of words.
fn write<N: Naming>(cells: &mut PlainCells<N>, pair: u32, value: i64)
    requires { IsFreePair N.program cells.old pair }
    ensures written { IsWritten cells.old cells.new pair value }
    ensures sound { IsSound N.program cells.new }
{
    let _before = cells.len();
    let (high, low) = halves(value);
    cells.set(pair, high);
    cells.set(pair + 1, low);
    let _words = cells.len();
}

/// Writes a number into a pair of words, with which the node is to be made one.
#[inline(always)]
fn ask_number<N: Naming>(
    loaded: &Loaded,
    cells: &mut PlainCells<N>,
    base: u32,
    node: NodeNo,
    pair: u32,
    value: i64,
)
    requires program { N.program ≡ named loaded.now }
    requires settled { IsSettled N.program cells.old }
    requires goal { CanBeAssigned N.program cells.old base node.0 pair }
    ensures { IsAskedFor N.program cells.old cells.new base node.0 pair value
        (the_pair (part_at N.program base node.0) (Ref.Number pair)) }
{
    loaded.skeleton_is_of_the_program();
    write(cells, pair, value);
}

/// Writes a number into a pair of words, settles the node with it, and notes what is set. An error is
/// want of memory.
#[inline(always)]
fn assign<N: Naming>(
    loaded: &Loaded,
    cells: &mut PlainCells<N>,
    base: u32,
    node: NodeNo,
    pair: u32,
    value: i64,
    trail: &mut Trail,
    tools: &mut Tools,
) -> Result<Ran, AllocError>
    requires program { N.program ≡ named loaded.now }
    requires settled { IsSettled N.program cells.old }
    requires goal { CanBeAssigned N.program cells.old base node.0 pair }
    ensures assigned { IfOk result (AssignsTo N.program cells.old cells.new base node.0 pair value) }
    ensures noted { OnOk result (KeepsNoted trail.old trail.new cells.old cells.new) }
    ensures sets { OnOk result (SetsNumber N.program cells.old cells.new base node.0 pair) }
{
    ask_number(loaded, cells, base, node, pair, value);
    let words = cells.len();
    trail.note(&[pair, pair + 1])?;
    match settle_number(loaded, cells, base, node, pair, words, trail, tools) {
        Answer::Solved => {
            let _words = cells.len();
            Ok(Ran::Done)
        }
        Answer::NoSolution => Ok(Ran::False),
        Answer::Memory => Err(AllocError),
    }
}

/// The same, where no look told the number.
#[inline(never)]
fn assign_seldom<N: Naming>(
    loaded: &Loaded,
    cells: &mut PlainCells<N>,
    base: u32,
    node: NodeNo,
    pair: u32,
    value: i64,
    trail: &mut Trail,
    tools: &mut Tools,
) -> Result<Ran, AllocError>
    requires program { N.program ≡ named loaded.now }
    requires settled { IsSettled N.program cells.old }
    requires goal { CanBeAssigned N.program cells.old base node.0 pair }
    ensures assigned { IfOk result (AssignsTo N.program cells.old cells.new base node.0 pair value) }
    ensures noted { OnOk result (KeepsNoted trail.old trail.new cells.old cells.new) }
    ensures sets { OnOk result (SetsNumber N.program cells.old cells.new base node.0 pair) }
{
    assign(loaded, cells, base, node, pair, value, trail, tools)
}
