//! Clauses that are entered: the query, and a clause that takes a call.

ghost use Rattle.std.specs.Prelude.{◌≡◌, ◌≢◌, ◌≤◌, ◌+◌, ◌++◌, [], ◌∷◌, length, replicate, Ok, IfOk, OnOk};
ghost use Rattle.and_model.specs.Programs.{clause_at, clause_weight};
ghost use Rattle.and_model.specs.Solutions.{Solvable};
ghost use Rattle.and_model.specs.declared.limits.TheConstants.{MAX_LIMIT};
ghost use Rattle.and_model.specs.declared.reference.Ref.{Ref};
ghost use Rattle.and_cells.specs.Meaning.{IsSettled, equations_of};
ghost use Rattle.and_cells.specs.Parts.{named, part_at};
ghost use Rattle.and_cells.specs.Ranges.{IsNodeInRange};
ghost use Rattle.and_cells.specs.Rows.{IsSound};
ghost use Rattle.and_cells.specs.Seen.{word_at};
ghost use Rattle.and_unify.specs.Pairs.{equations_of_pairs};
ghost use Rattle.and_unify.specs.Places.{sides};
ghost use Rattle.and_unify.specs.declared.settling.Settled.TheVariants.{Memory, NoSolution, Solved};
ghost use Rattle.and_heads.specs.Calls.{call_and_head};
ghost use Rattle.and_branch_laws.specs.Reducing.{body_equations, reduction_in_cells};
ghost use Rattle.and_branch_laws.specs.Settling.{Settled, widened};
ghost use Rattle.and_branch_laws.specs.Variables.{placed};
ghost use Rattle.and_branch_laws.specs.Goals.{CanBeJudged, IsNodeOf};
ghost use Rattle.and_step_laws.specs.Asking.{AreReady};
ghost use Rattle.and_step_laws.specs.Frames.{IsFrame};
ghost use Rattle.and_reduction.specs.Items.{AreItemsOf, IsHeadOf};
ghost use Rattle.and_reduction.specs.Trails.{KeepsNoted};
ghost use Rattle.and_reduction.specs.Writes.{SetsNodes};

use crate::asking::{ask_call, ask_items, ask_nothing};
use crate::settling::{settle_call_noted, settle_noted};
use crate::trail::Trail;
use and_arith::WorkList;
use and_cells::{Naming, PlainCells};
use and_heads::HeadSolver;
use and_model::limits::MAX_LIMIT;
use and_model::{ClauseNo, Goal, NodeNo};
use and_program::{ItemNode, Loaded};
use and_unify::{PairList, Settled as Answer};
use std::alloc::{AllocError, Global};

/// What steps work with, kept by their caller and used again.
pub struct Tools {
    alloc: Global,
    pub(crate) solver: HeadSolver,
    pub(crate) pairs: PairList,
    pub(crate) values: WorkList,
}

// By hand, so that it is proved once, here.
impl Drop for Tools {
    fn drop(self) {
        let Tools {
            alloc: _,
            solver: _,
            pairs: _,
            values: _,
        } = self;
    }
}

impl Tools {
    /// Nothing was done yet. Takes no memory.
    pub fn new(alloc: Global) -> Tools {
        Tools {
            alloc,
            solver: HeadSolver::new(alloc),
            pairs: PairList::new(alloc),
            values: WorkList::new(alloc),
        }
    }
}

/// What a clause that was entered comes to.
#[derive(Clone, Copy, PartialEq, Eq, Debug)]
pub enum Entered {
    /// The cells are settled with what it asks.
    Solved,
    /// What it asks has no solution. The cells are spent.
    NoSolution,
}

/// Makes the query's frame the row, and settles the `=` items of the query in it. An error is want of
/// memory, and the cells are spent.
pub fn begin<N: Naming>(
    loaded: &Loaded,
    cells: &mut PlainCells<N>,
    tools: &mut Tools,
) -> Result<Entered, AllocError>
    requires program { N.program ≡ named loaded.now }
    requires empty { cells.old ≡ [] }
    ensures solved { result ≡ Ok Entered.Solved
        → Settled N.program (replicate (clause_weight N.program.program.query) Ref.Free) cells.new
        (body_equations (placed 0) N.program.program.query.body) }
    ensures unsolved { result ≡ Ok Entered.NoSolution
        → Solvable (equations_of N.program (replicate (clause_weight N.program.program.query) Ref.Free)
        ++ body_equations (placed 0) N.program.program.query.body) → ⊥ }
    ensures nodes { OnOk result (SetsNodes N.program (replicate (clause_weight N.program.program.query) Ref.Free)
        cells.new 0 []) }
{
    let query = ClauseNo(0);
    // No row of a branch is longer than the greatest limit.
    if loaded.weight(query) > MAX_LIMIT {
        return Err(AllocError);
    }
    let floor = open_frame(cells, query, loaded.weight(query))?;
    tools.pairs.clear();
    let mut nothing = Trail::none(tools.alloc);
    settle_frame(
        loaded,
        cells,
        query,
        loaded.items(query),
        floor,
        &mut nothing,
        tools,
    )
}

/// Puts the frame of the clause, which has this weight, this head and these items, behind the row, and settles in it
/// what a reduction of the call, which has this node, by this clause asks: that the call is its head, and the `=` items
/// of its body. What is set in the row is noted. An error is want of memory, and the cells are spent.
#[inline(always)]
pub fn take<N: Naming>(
    loaded: &Loaded,
    cells: &mut PlainCells<N>,
    goal: Goal,
    call: NodeNo,
    clause: ClauseNo,
    weight: u32,
    head: NodeNo,
    items: &[ItemNode],
    trail: &mut Trail,
    tools: &mut Tools,
) -> Result<Entered, AllocError>
    requires program { N.program ≡ named loaded.now }
    requires settled { IsSettled N.program cells.old }
    requires goal { CanBeJudged N.program cells.old goal }
    requires call { IsNodeOf N.program cells.old goal call.0 }
    requires clause { clause.0 ≤ length N.program.program.clauses }
    requires weight { weight ≡ clause_weight (clause_at N.program.program clause.0) }
    requires head { IsHeadOf N.program clause.0 head.0 }
    requires items { AreItemsOf N.program clause.0 items.now }
    requires fits { length cells.old + clause_weight (clause_at N.program.program clause.0) ≤ MAX_LIMIT }
    ensures solved { result ≡ Ok Entered.Solved
        → Settled N.program (widened cells.old (clause_weight (clause_at N.program.program clause.0))) cells.new
        (reduction_in_cells N.program.program goal clause.0 (length cells.old)) }
    ensures unsolved { result ≡ Ok Entered.NoSolution
        → Solvable (equations_of N.program (widened cells.old (clause_weight (clause_at N.program.program clause.0)))
        ++ reduction_in_cells N.program.program goal clause.0 (length cells.old)) → ⊥ }
    ensures noted { OnOk result (KeepsNoted trail.old trail.new cells.old cells.new) }
    ensures nodes { OnOk result (SetsNodes N.program
        (widened cells.old (clause_weight (clause_at N.program.program clause.0))) cells.new (length cells.old)
        (part_at N.program goal.base call.0 ∷ [])) }
{
    loaded.skeleton_is_of_the_program();
    let floor = open_frame(cells, clause, weight)?;
    settle_head(
        loaded, cells, clause, call, goal.base, head, items, floor, trail, tools,
    )
}

/// Puts a frame of the clause, which has this weight, behind the row, and answers where it begins. An error is want of
/// memory, and leaves the row as it was.
fn open_frame<N: Naming>(
    cells: &mut PlainCells<N>,
    _clause: ClauseNo,
    weight: u32,
) -> Result<u32, AllocError>
    requires settled { IsSettled N.program cells.old }
    requires clause { _clause.0 ≤ length N.program.program.clauses }
    requires weight { weight ≡ clause_weight (clause_at N.program.program _clause.0) }
    requires fits { length cells.old + clause_weight (clause_at N.program.program _clause.0) ≤ MAX_LIMIT }
    ensures floor { IfOk result (λ floor. floor ≡ length cells.old) }
    ensures widened { OnOk result (cells.new
        ≡ widened cells.old (clause_weight (clause_at N.program.program _clause.0))) }
    ensures frame { IfOk result (IsFrame N.program cells.new _clause.0) }
    ensures sound { IsSound N.program cells.old }
{
    let floor = cells.len();
    cells.extend(weight)?;
    let _words = cells.len();
    Ok(floor)
}

/// Settles in a new frame of the clause, which has these items, that a call, a node in the frame at the base, is its
/// head, and the `=` items of its body, and notes what is set. An error is want of memory, and the cells are spent.
#[inline(always)]
fn settle_head<N: Naming>(
    loaded: &Loaded,
    cells: &mut PlainCells<N>,
    clause: ClauseNo,
    call: NodeNo,
    base: u32,
    head: NodeNo,
    items: &[ItemNode],
    floor: u32,
    trail: &mut Trail,
    tools: &mut Tools,
) -> Result<Entered, AllocError>
    requires program { N.program ≡ named loaded.now }
    requires clause { clause.0 ≤ length N.program.program.clauses }
    requires items { AreItemsOf N.program clause.0 items.now }
    requires frame { IsFrame N.program cells.old clause.0 floor }
    requires call { IsNodeInRange N.program (length cells.old) call.0 base }
    requires head { IsNodeInRange N.program (length cells.old) head.0 floor }
    requires ready { AreReady N.program cells.old floor (call_and_head N.program base call.0 floor head.0) }
    ensures solved { result ≡ Ok Entered.Solved → Settled N.program cells.old cells.new
        (equations_of_pairs N.program (word_at cells.old) (call_and_head N.program base call.0 floor head.0)
        ++ body_equations (placed floor) (clause_at N.program.program clause.0).body) }
    ensures unsolved { result ≡ Ok Entered.NoSolution → Solvable (equations_of N.program cells.old
        ++ (equations_of_pairs N.program (word_at cells.old) (call_and_head N.program base call.0 floor head.0)
        ++ body_equations (placed floor) (clause_at N.program.program clause.0).body)) → ⊥ }
    ensures noted { OnOk result (KeepsNoted trail.old trail.new cells.old cells.new) }
    ensures nodes { OnOk result (SetsNodes N.program cells.old cells.new floor
        (part_at N.program base call.0 ∷ [])) }
{
    if !ask_nothing(items) {
        return settle_head_and_items(
            loaded, cells, clause, call, base, head, items, floor, trail, tools,
        );
    }
    let answer = settle_call_noted(loaded, cells, floor, call, base, head, trail, tools);
    outcome_of(cells, answer)
}

/// The same where the body has `=` items or `fail`, as is seldom so: a call of its own, which makes a list of pairs.
#[inline(never)]
fn settle_head_and_items<N: Naming>(
    loaded: &Loaded,
    cells: &mut PlainCells<N>,
    clause: ClauseNo,
    call: NodeNo,
    base: u32,
    head: NodeNo,
    items: &[ItemNode],
    floor: u32,
    trail: &mut Trail,
    tools: &mut Tools,
) -> Result<Entered, AllocError>
    requires program { N.program ≡ named loaded.now }
    requires clause { clause.0 ≤ length N.program.program.clauses }
    requires items { AreItemsOf N.program clause.0 items.now }
    requires frame { IsFrame N.program cells.old clause.0 floor }
    requires call { IsNodeInRange N.program (length cells.old) call.0 base }
    requires head { IsNodeInRange N.program (length cells.old) head.0 floor }
    requires ready { AreReady N.program cells.old floor (call_and_head N.program base call.0 floor head.0) }
    ensures solved { result ≡ Ok Entered.Solved → Settled N.program cells.old cells.new
        (equations_of_pairs N.program (word_at cells.old) (call_and_head N.program base call.0 floor head.0)
        ++ body_equations (placed floor) (clause_at N.program.program clause.0).body) }
    ensures unsolved { result ≡ Ok Entered.NoSolution → Solvable (equations_of N.program cells.old
        ++ (equations_of_pairs N.program (word_at cells.old) (call_and_head N.program base call.0 floor head.0)
        ++ body_equations (placed floor) (clause_at N.program.program clause.0).body)) → ⊥ }
    ensures noted { OnOk result (KeepsNoted trail.old trail.new cells.old cells.new) }
    ensures nodes { OnOk result (SetsNodes N.program cells.old cells.new floor
        (part_at N.program base call.0 ∷ [])) }
{
    ask_call(loaded, cells, floor, call, base, head, &mut tools.pairs)?;
    settle_frame(loaded, cells, clause, items, floor, trail, tools)
}

/// Settles in a new frame of the clause, which has these items, what the pairs ask, and the `=` items of its body, and
/// notes what is set. An error is want of memory, and the cells are spent.
fn settle_frame<N: Naming>(
    loaded: &Loaded,
    cells: &mut PlainCells<N>,
    clause: ClauseNo,
    items: &[ItemNode],
    floor: u32,
    trail: &mut Trail,
    tools: &mut Tools,
) -> Result<Entered, AllocError>
    requires program { N.program ≡ named loaded.now }
    requires clause { clause.0 ≤ length N.program.program.clauses }
    requires items { AreItemsOf N.program clause.0 items.now }
    requires frame { IsFrame N.program cells.old clause.0 floor }
    requires ready { AreReady N.program cells.old floor tools.old.pairs }
    ensures solved { result ≡ Ok Entered.Solved → Settled N.program cells.old cells.new
        (equations_of_pairs N.program (word_at cells.old) tools.old.pairs ++ body_equations (placed floor)
        (clause_at N.program.program clause.0).body) }
    ensures unsolved { result ≡ Ok Entered.NoSolution → Solvable (equations_of N.program cells.old
        ++ (equations_of_pairs N.program (word_at cells.old) tools.old.pairs ++ body_equations (placed floor)
        (clause_at N.program.program clause.0).body)) → ⊥ }
    ensures noted { OnOk result (KeepsNoted trail.old trail.new cells.old cells.new) }
    ensures nodes { OnOk result (SetsNodes N.program cells.old cells.new floor (sides tools.old.pairs)) }
{
    if !ask_items(loaded, cells, clause, items, floor, &mut tools.pairs)? {
        return Ok(Entered::NoSolution);
    }
    let answer = settle_noted(loaded, cells, floor, trail, tools);
    outcome_of(cells, answer)
}

/// What a clause comes to by what its pairs come to.
#[inline(always)]
fn outcome_of<N: Naming>(cells: &PlainCells<N>, answer: Answer) -> Result<Entered, AllocError>
    ensures solved { result ≡ Ok Entered.Solved → answer ≡ Solved }
    ensures unsolved { result ≡ Ok Entered.NoSolution → answer ≡ NoSolution }
    ensures memory { OnOk result (answer ≢ Memory) }
    ensures sound { IsSound N.program cells.now }
{
    let _words = cells.len();
    match answer {
        Answer::Solved => Ok(Entered::Solved),
        Answer::NoSolution => Ok(Entered::NoSolution),
        Answer::Memory => Err(AllocError),
    }
}
