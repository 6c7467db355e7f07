//! How a team goes on with what is on top of its stack.

ghost use Rattle.std.specs.Prelude.{◌≡◌, ◌∷◌, None, OnOk};
ghost use Rattle.and_cells.specs.Parts.{named};
ghost use Rattle.and_clause_index.specs.Tables.{IsTableOf};
ghost use Rattle.and_tasks.specs.Working.{AreServed, Has, IsAtWork, IsReady, Works};

use and_branch::Branch;
use and_cells::Naming;
use and_gate::Gate;
use and_phase::{Advanced, Pace, phase_to_state};
use and_tasks::{Hand, Shared, Task, Team, untold};
use std::alloc::AllocError;
use std::snapshot::Snapshot;
use std::thread::Threads;

/// As many branches as a pace leaves to the leader at most are handed to the team at once.
const MOST_RESTS: u32 = 4096;

/// Goes on with what is on top of the stack; `false` where nothing is there. After want of memory the task has been
/// given up.
pub(crate) fn turn<N: Naming + Send + Sync, R: Threads + Sync, G: Gate>(
    rt: &R,
    shared: &Shared<N, G>,
    team: &mut Team<N>,
    pace: &mut Pace,
) -> Result<bool, AllocError>
    requires program { N.program ≡ named shared.now.loaded.now }
    requires table { IsTableOf N.program shared.now.table.now }
    requires at_work { IsAtWork N.program shared.now.tree.now team.old.pass team.old.found team.old.stack.items
        team.old.left }
    ensures has { Has N.program shared.now.tree.now team.new.pass team.new.stack.items }
    ensures at_work { OnOk result
        (IsAtWork N.program shared.now.tree.now team.new.pass team.new.found team.new.stack.items team.new.left) }
    ensures same { team.new.number ≡ team.old.number }
{
    match team.stack.pop() {
        Some(Task::One(branch)) => {
            let told = untold(shared.alloc, shared.loaded);
            advance(
                rt,
                shared,
                team,
                pace,
                Hand {
                    branch,
                    told,
                    common: 0,
                },
            )?;
            Ok(true)
        }
        Some(Task::Children(level)) => {
            let child = team.next_child(shared, level)?;
            advance(rt, shared, team, pace, child)?;
            Ok(true)
        }
        Some(Task::Left(branch)) => {
            team.left = Some(branch);
            team.common = 0;
            Ok(true)
        }
        None => Ok(false),
    }
}

/// Explores a branch: its determinate goals are reduced, by the workers of the team where that may pay, and it goes on
/// by its state.
fn advance<N: Naming + Send + Sync, R: Threads + Sync, G: Gate>(
    rt: &R,
    shared: &Shared<N, G>,
    team: &mut Team<N>,
    pace: &mut Pace,
    hand: Hand<N>,
) -> Result<(), AllocError>
    requires program { N.program ≡ named shared.now.loaded.now }
    requires table { IsTableOf N.program shared.now.table.now }
    requires ready { IsReady N.program shared.now.tree.now team.old.pass team.old.found team.old.stack.items hand }
    ensures has { Has N.program shared.now.tree.now team.new.pass team.new.stack.items }
    ensures at_work { OnOk result
        (IsAtWork N.program shared.now.tree.now team.new.pass team.new.found team.new.stack.items team.new.left) }
    ensures same { team.new.number ≡ team.old.number }
{
    if shared.workers < 2 || is_led(team, pace) {
        return team.lead(shared, hand);
    }
    let own = team.own_row(shared, hand)?;
    send_off(rt, shared, team, pace, own)
}

/// Whether the next branch is left to the leader. It counts as one of those that are. The team knows of the others
/// then, so that it may explore them in a row.
fn is_led<N: Naming>(team: &mut Team<N>, pace: &mut Pace) -> bool
    ensures { (team.new.number ≡ team.old.number) × (team.new.pass ≡ team.old.pass)
        × (team.new.found ≡ team.old.found) × (team.new.stack ≡ team.old.stack) × (team.new.left ≡ team.old.left) }
{
    'resting: for _ in 0..MOST_RESTS {
        if !pace.rests() {
            break 'resting;
        }
        team.rests = team.rests.saturating_add(1);
    }
    if team.rests == 0 {
        return false;
    }
    team.rests -= 1;
    true
}

/// Explores a branch of a row of its own, by the workers of the team where that may pay.
fn send_off<N: Naming + Send + Sync, R: Threads + Sync, G: Gate>(
    rt: &R,
    shared: &Shared<N, G>,
    team: &mut Team<N>,
    pace: &mut Pace,
    branch: Branch<N>,
) -> Result<(), AllocError>
    requires program { N.program ≡ named shared.now.loaded.now }
    requires table { IsTableOf N.program shared.now.table.now }
    requires works { Works N.program shared.now.tree.now team.old.pass team.old.found
        (Task.One branch ∷ team.old.stack.items) }
    requires served { AreServed None team.old.stack.items }
    ensures has { Has N.program shared.now.tree.now team.new.pass team.new.stack.items }
    ensures at_work { OnOk result
        (IsAtWork N.program shared.now.tree.now team.new.pass team.new.found team.new.stack.items team.new.left) }
    ensures same { team.new.number ≡ team.old.number }
{
    let advanced = phase_to_state(
        rt,
        shared.alloc,
        shared.loaded,
        shared.table,
        branch,
        shared.workers,
        pace,
        shared.gate,
        &mut team.workspace,
    );
    match advanced {
        Ok(done) => {
            let Advanced { branch, state } = done;
            let told = untold(shared.alloc, shared.loaded);
            team.go_by(
                shared,
                Hand {
                    branch,
                    told,
                    common: 0,
                },
                state,
            )
        }
        Err(refused) => {
            shared
                .tree
                .give_up(&mut team.pass, &Snapshot::of(&refused.key));
            Err(AllocError)
        }
    }
}
