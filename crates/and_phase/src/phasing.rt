//! Phases: the workers are sent off, and what they did is made a branch again.

ghost use Rattle.std.specs.Prelude.{◌≡◌, ◌<◌, ◌≤◌, false, IfOk, IfErr, IfSome};
ghost use Rattle.and_cells.specs.Parts.{named};
ghost use Rattle.and_clause_index.specs.Tables.{IsTableOf};
ghost use Rattle.and_branch.specs.Branches.{IsBranch};
ghost use Rattle.and_branch.specs.Parts.{held_of};
ghost use Rattle.and_phase.specs.Advanced.{ComesToRest, HasAdvanced};
ghost use Rattle.and_phase.specs.Joined.{IsJoined};

use crate::advanced::{Advanced, led_to_state, rested};
use crate::joining::{Joined, join};
use crate::pace::{Pace, words_of};
use crate::sending::reduce_all;
use crate::sighting::{LookedOver, Sighted, look_over};
use and_branch::{Branch, FIRST_ROUND, NoRoom, Parts, Workspace};
use and_cells::{LooseCells, Naming};
use and_clause_index::Determinacy;
use and_gate::Gate;
use and_program::Loaded;
use std::alloc::{AllocError, Global};
use std::thread::Threads;

/// Reduces determinate goals of a branch until none is left that fits, and tells its state, with so many workers at
/// once where they are worth it. Where there is one worker alone, where the pace leaves the phase to the leader, or
/// where no two goals are determinate, no thread is started.
///
/// What workers did counts only where the branch then comes to rest, since all orders in which it does come to the
/// same. Otherwise the leader goes on from the branch of before, alone and in its own order: so which of failure and
/// limit is met first does not rest on who came first.
///
/// The branch that comes back stands for the same key. An error is want of memory, and tells the key of the branch
/// that was lost.
pub fn phase_to_state<N: Naming + Send + Sync, R: Threads + Sync, G: Gate>(
    rt: &R,
    alloc: Global,
    loaded: &Loaded,
    table: &Determinacy,
    branch: Branch<N>,
    workers: u32,
    pace: &mut Pace,
    gate: &G,
    workspace: &mut Workspace,
) -> Result<Advanced<N>, NoRoom>
    requires program { N.program ≡ named loaded.now }
    requires table { IsTableOf N.program table.now }
    requires branch { IsBranch N.program branch }
    requires workers { (0 < workers) × (workers ≤ 8) }
    ensures advanced { IfOk result (HasAdvanced N.program branch) }
    ensures no_room { IfErr result (λ refused. refused.key ≡ branch.key) }
{
    if workers < 2 || pace.rests() {
        return led_to_state(loaded, table, branch, gate, FIRST_ROUND, workspace);
    }
    pace.note_try();
    let looked = look_over(loaded, table, branch, gate, workspace)?;
    let LookedOver { sighted, next } = looked;
    match sighted {
        Sighted::Two(parts) => shared_out(
            rt, alloc, loaded, table, parts, next, workers, pace, gate, workspace,
        ),
        Sighted::NotTwo(branch) => led_to_state(loaded, table, branch, gate, next, workspace),
    }
}

/// The same, of a branch that was taken apart, and of which the leader's next round has so many reductions for each
/// goal.
fn shared_out<N: Naming + Send + Sync, R: Threads + Sync, G: Gate>(
    rt: &R,
    alloc: Global,
    loaded: &Loaded,
    table: &Determinacy,
    parts: Parts<N>,
    next: u32,
    workers: u32,
    pace: &mut Pace,
    gate: &G,
    workspace: &mut Workspace,
) -> Result<Advanced<N>, NoRoom>
    requires program { N.program ≡ named loaded.now }
    requires table { IsTableOf N.program table.now }
    requires branch { IsBranch N.program (held_of parts) }
    requires live { parts.is_failed ≡ false }
    requires next { 1 ≤ next }
    requires workers { (0 < workers) × (workers ≤ 8) }
    ensures advanced { IfOk result (HasAdvanced N.program (held_of parts)) }
    ensures no_room { IfErr result (λ refused. refused.key ≡ parts.key) }
{
    let by_workers = made_by_workers(
        rt, alloc, loaded, table, &parts, workers, pace, gate, workspace,
    );
    if let Some(rested) = by_workers {
        return Ok(rested);
    }
    let branch = parts.into_branch()?;
    led_to_state(loaded, table, branch, gate, next, workspace)
}

/// What workers make of the branch of these parts, brought to its state, if it comes to rest.
fn made_by_workers<N: Naming + Send + Sync, R: Threads + Sync, G: Gate>(
    rt: &R,
    alloc: Global,
    loaded: &Loaded,
    table: &Determinacy,
    parts: &Parts<N>,
    workers: u32,
    pace: &mut Pace,
    gate: &G,
    workspace: &mut Workspace,
) -> Option<Advanced<N>>
    requires program { N.program ≡ named loaded.now }
    requires table { IsTableOf N.program table.now }
    requires branch { IsBranch N.program (held_of parts.now) }
    requires live { parts.now.is_failed ≡ false }
    requires workers { (0 < workers) × (workers ≤ 8) }
    ensures advanced { IfSome result (HasAdvanced N.program (held_of parts.now)) }
    ensures rests { IfSome result (λ r. ComesToRest r.state) }
{
    match reduced(rt, alloc, loaded, table, parts, workers, pace, gate) {
        Ok(Some(joined)) => rested(alloc, loaded, table, parts, joined, gate, workspace),
        Ok(None) => None,
        Err(_) => None,
    }
}

/// What workers make of a branch, if nothing is amiss with it. An error is want of memory.
fn reduced<N: Naming + Send + Sync, R: Threads + Sync, G: Gate>(
    rt: &R,
    alloc: Global,
    loaded: &Loaded,
    table: &Determinacy,
    parts: &Parts<N>,
    workers: u32,
    pace: &mut Pace,
    gate: &G,
) -> Result<Option<Joined>, AllocError>
    requires program { N.program ≡ named loaded.now }
    requires table { IsTableOf N.program table.now }
    requires branch { IsBranch N.program (held_of parts.now) }
    requires live { parts.now.is_failed ≡ false }
    requires workers { (0 < workers) × (workers ≤ 8) }
    ensures { IfOk result (λ r. IfSome r (IsJoined N.program parts.now)) }
{
    let words = words_of(parts.used, pace.room(), parts.limit);
    let goals = parts.goals.as_slice();
    let (cells, tolds) = reduce_all(
        rt,
        alloc,
        loaded,
        table,
        &parts.cells,
        goals,
        words,
        workers,
        gate,
    )?;
    pace.note_filled(filled(parts.used, &cells));
    let joined = join(
        alloc,
        loaded,
        &parts.reductions,
        goals,
        parts.used,
        parts.limit,
        cells,
        tolds.as_slice(),
    )?;
    Ok(joined)
}

/// How many words of a row lie behind so many.
fn filled(opening: u32, cells: &LooseCells) -> u32 {
    match u32::try_from(cells.len()) {
        Ok(words) => words.saturating_sub(opening),
        Err(_) => u32::MAX,
    }
}
