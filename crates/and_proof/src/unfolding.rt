//! Codes that are unfolded: the leftmost calls are replaced by their clauses, one after another.

ghost use Rattle.std.specs.Prelude.{◌≡◌, [], ℕ, true, false, Ok, IfOk, OnOk, List};
ghost use Rattle.and_model.specs.Programs as programs;
ghost use Rattle.and_model.specs.Programs.{is_of};
ghost use Rattle.and_model.specs.Stands.{term_of};
ghost use Rattle.and_model.specs.Terms.{Term};
ghost use Rattle.and_program.specs.Loaded.{program_of};
ghost use Rattle.and_cells.specs.Parts.{named};
ghost use Rattle.and_cells.specs.Ranges.{IsGoalInRange};
ghost use Rattle.and_branch_laws.specs.Kept.{item_at};
ghost use Rattle.and_proof.specs.Predicates.{named_alike, has_name};
ghost use Rattle.and_proof.specs.Proofs.{HasProof};
ghost use Rattle.and_proof.specs.Unfolding.{IsUnfolding, IsAtCall, IsCalled, Enters, ReplacesTo};

use crate::goals::{Ahead, Goals, Taken, call_at, is_call, push_body};
use crate::workspace::Workspace;
use and_cells::{Naming, PlainCells};
use and_model::limits::MAX_LIMIT;
use and_model::{ClauseNo, Code, Goal, NameNo, NodeNo};
use and_program::{Loaded, NodeKind};
use and_reduction::{Entered, begin, node_of, take};
use std::alloc::AllocError;

/// The number of the query among the clauses.
pub(crate) const QUERY: ClauseNo = ClauseNo(0);

/// Unfolds a code in a row without cells, and answers whether that could be done: whether it unfolds to a whole tree
/// that is not too heavy and whose equations, without those of arithmetic, have a solution. An error is want of
/// memory.
pub(crate) fn unfold<N: Naming>(
    loaded: &Loaded,
    code: &Code,
    cells: &mut PlainCells<N>,
    goals: &mut Goals,
    workspace: &mut Workspace,
) -> Result<bool, AllocError>
    requires program { N.program ≡ named loaded.now }
    requires empty { cells.old ≡ [] }
    requires no_goals { (goals.old.ahead.items ≡ []) × (goals.old.passed.items ≡ []) × (goals.old.taken.items ≡ []) }
    ensures unfolded { result ≡ Ok true → IsUnfolding N.program cells.new goals.new code.now
        × (goals.new.ahead.items ≡ []) }
    ensures none { result ≡ Ok false → HasProof N.program.program code.now → ⊥ }
{
    loaded.skeleton_is_of_the_program();
    if !begin_query(loaded, cells, goals, workspace)? {
        return Ok(false);
    }
    'places: for place in 0..code.len() {
        if !replace_next(loaded, cells, goals, *code.at(place), workspace)? {
            return Ok(false);
        }
    }
    pass_arithmetic(loaded, cells, goals)?;
    Ok(goals.ahead.is_empty())
}

/// Unfolds the empty code, and answers whether the query is not too heavy and its equations have a solution. An error
/// is want of memory.
fn begin_query<N: Naming>(
    loaded: &Loaded,
    cells: &mut PlainCells<N>,
    goals: &mut Goals,
    workspace: &mut Workspace,
) -> Result<bool, AllocError>
    requires program { N.program ≡ named loaded.now }
    requires empty { cells.old ≡ [] }
    requires no_goals { (goals.old.ahead.items ≡ []) × (goals.old.passed.items ≡ []) × (goals.old.taken.items ≡ []) }
    ensures begun { result ≡ Ok true → IsUnfolding N.program cells.new goals.new [] }
    ensures none { result ≡ Ok false → (cs : List ℕ) → HasProof N.program.program cs → ⊥ }
{
    loaded.skeleton_is_of_the_program();
    if loaded.weight(QUERY) > MAX_LIMIT {
        return Ok(false);
    }
    match begin(loaded, cells, &mut workspace.tools)? {
        Entered::NoSolution => Ok(false),
        Entered::Solved => {
            push_body(&mut goals.ahead, loaded, QUERY, 0, 1)?;
            Ok(true)
        }
    }
}

/// Passes the arithmetic that stands before the next call. An error is want of memory.
fn pass_arithmetic<N: Naming>(
    loaded: &Loaded,
    cells: &PlainCells<N>,
    goals: &mut Goals,
) -> Result<(), AllocError>
    requires program { N.program ≡ named loaded.now }
    requires unfolding { (cs : List ℕ) × IsUnfolding N.program cells.now goals.old cs }
    ensures unfolding { OnOk result ((cs : List ℕ) → IsUnfolding N.program cells.now goals.old cs
        → IsUnfolding N.program cells.now goals.new cs) }
    ensures at_call { OnOk result (IsAtCall N.program goals.new) }
{
    loaded.skeleton_is_of_the_program();
    'goals: while let Some(next) = goals.ahead.pop() {
        if is_call(loaded, next.goal) {
            goals.ahead.push(next)?;
            return Ok(());
        }
        goals.passed.push(next.goal)?;
    }
    Ok(())
}

/// Replaces the next call by the clause, and answers whether that could be done: there is a call, the clause is
/// of its predicate, it is not too heavy, and what it asks has a solution. An error is want of memory.
fn replace_next<N: Naming>(
    loaded: &Loaded,
    cells: &mut PlainCells<N>,
    goals: &mut Goals,
    clause: ClauseNo,
    workspace: &mut Workspace,
) -> Result<bool, AllocError>
    requires program { N.program ≡ named loaded.now }
    requires unfolding { (cs : List ℕ) × IsUnfolding N.program cells.old goals.old cs }
    ensures { IfOk result (λ done. (cs : List ℕ) → IsUnfolding N.program cells.old goals.old cs
        → ReplacesTo N.program cells.new goals.new clause.0 cs done) }
{
    pass_arithmetic(loaded, cells, goals)?;
    let Some(next) = goals.ahead.pop() else {
        return Ok(false);
    };
    replace(loaded, cells, goals, next, clause, workspace)
}

/// Replaces a call that was taken off by the clause, and answers whether that could be done: the clause is of its
/// predicate, it is not too heavy, and what it asks has a solution. An error is want of memory.
fn replace<N: Naming>(
    loaded: &Loaded,
    cells: &mut PlainCells<N>,
    goals: &mut Goals,
    next: Ahead,
    clause: ClauseNo,
    workspace: &mut Workspace,
) -> Result<bool, AllocError>
    requires program { N.program ≡ named loaded.now }
    requires called { (cs : List ℕ) × IsCalled N.program cells.old goals.old next cs }
    ensures { IfOk result (λ done. (cs : List ℕ) → IsCalled N.program cells.old goals.old next cs
        → ReplacesTo N.program cells.new goals.new clause.0 cs done) }
{
    loaded.skeleton_is_of_the_program();
    if !can_replace(loaded, next.goal, clause) {
        return Ok(false);
    }
    if loaded.weight(clause) > MAX_LIMIT - cells.len() {
        return Ok(false);
    }
    enter(loaded, cells, goals, next, clause, workspace)
}

/// Replaces a call by a clause of its predicate that fits, and answers whether what it asks has a solution. An
/// error is want of memory.
fn enter<N: Naming>(
    loaded: &Loaded,
    cells: &mut PlainCells<N>,
    goals: &mut Goals,
    next: Ahead,
    clause: ClauseNo,
    workspace: &mut Workspace,
) -> Result<bool, AllocError>
    requires program { N.program ≡ named loaded.now }
    requires enters { (cs : List ℕ) × Enters N.program cells.old goals.old next clause.0 cs }
    ensures { IfOk result (λ done. (cs : List ℕ) → Enters N.program cells.old goals.old next clause.0 cs
        → ReplacesTo N.program cells.new goals.new clause.0 cs done) }
{
    loaded.skeleton_is_of_the_program();
    let node = cells.len();
    let call = node_of(loaded, cells, next.goal);
    let weight = loaded.weight(clause);
    let head = loaded.head(clause);
    let items = loaded.items(clause);
    match take(
        loaded,
        cells,
        next.goal,
        call,
        clause,
        weight,
        head,
        items,
        &mut workspace.trail,
        &mut workspace.tools,
    )? {
        Entered::NoSolution => Ok(false),
        Entered::Solved => {
            goals.taken.push(Taken {
                call: next.goal,
                clause,
                depth: next.depth,
            })?;
            push_body(&mut goals.ahead, loaded, clause, node, next.depth + 1)?;
            Ok(true)
        }
    }
}

/// Whether there is a clause of that number, which is not the query, and it is of the call's predicate. Takes no
/// memory.
fn can_replace(loaded: &Loaded, call: Goal, clause: ClauseNo) -> bool
    requires in_range { (words : ℕ) × IsGoalInRange (named loaded.now) words call }
    requires call { (term : Term) × (item_at (program_of loaded.now) call ≡ programs.call term) }
    ensures { result ≡ is_of (program_of loaded.now) (term_of (program_of loaded.now) call) clause.0 }
{
    loaded.skeleton_is_of_the_program();
    if clause.0 == 0 || u32::from(clause.0) > loaded.clause_count() {
        return false;
    }
    let node = call_at(loaded, call.clause, call.item);
    are_of_one_predicate(loaded.kind(node), loaded.kind(loaded.head(clause)))
}

/// Whether both kinds have the same name and as many arguments. Takes no memory.
fn are_of_one_predicate(call: NodeKind, head: NodeKind) -> bool
    ensures { result ≡ named_alike call head }
{
    match call {
        NodeKind::Variable(_) => false,
        NodeKind::Number(_) => false,
        NodeKind::Compound { name, count } => has_name(head, name, count),
    }
}

/// Whether a kind has that name, with so many arguments. Takes no memory.
fn has_name(kind: NodeKind, wanted: NameNo, arguments: u8) -> bool
    ensures { result ≡ has_name kind wanted arguments }
{
    match kind {
        NodeKind::Variable(_) => false,
        NodeKind::Number(_) => false,
        NodeKind::Compound { name, count } => wanted.0 == name.0 && arguments == count,
    }
}
