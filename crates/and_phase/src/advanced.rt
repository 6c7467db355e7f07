//! Branches that are brought to their state.

ghost use Rattle.std.specs.Prelude.{◌≡◌, ◌≤◌, false, true, IfErr, IfOk, IfSome};
ghost use Rattle.and_cells.specs.Parts.{named};
ghost use Rattle.and_clause_index.specs.Tables.{IsTableOf};
ghost use Rattle.and_branch.specs.Branches.{IsBranch};
ghost use Rattle.and_branch.specs.Parts.{held_of};
ghost use Rattle.and_phase.specs.Advanced.{ComesToRest, HasAdvanced};
ghost use Rattle.and_phase.specs.Joined.{IsJoined};

use crate::joining::{Joined, made_again};
use and_branch::{Branch, BranchState, NoRoom, Parts, Workspace};
use and_cells::Naming;
use and_clause_index::Determinacy;
use and_gate::Gate;
use and_program::Loaded;
use std::alloc::Global;

/// A branch that was brought to its state.
#[derive(Drop)]
pub struct Advanced<N: Naming> {
    pub branch: Branch<N>,
    pub state: BranchState,
}

/// Whether a branch in this state came to rest: it is neither failed nor cut.
fn comes_to_rest(state: &BranchState) -> bool
    ensures { result ≡ true → ComesToRest state.now }
{
    match state {
        BranchState::Fork { .. } => true,
        BranchState::Answer => true,
        BranchState::Floundered => true,
        BranchState::Failed => false,
        BranchState::OverLimit(_) => false,
    }
}

/// The branch, brought to its state by the leader alone, whose first round over it has so many reductions for each
/// goal. An error is want of memory, and tells the key of the branch that was lost.
pub(crate) fn led_to_state<N: Naming, G: Gate>(
    loaded: &Loaded,
    table: &Determinacy,
    branch: Branch<N>,
    gate: &G,
    first: u32,
    workspace: &mut Workspace,
) -> Result<Advanced<N>, NoRoom>
    requires program { N.program ≡ named loaded.now }
    requires table { IsTableOf N.program table.now }
    requires branch { IsBranch N.program branch }
    requires first { 1 ≤ first }
    ensures advanced { IfOk result (HasAdvanced N.program branch) }
    ensures no_room { IfErr result (λ refused. refused.key ≡ branch.key) }
{
    let mut branch = branch;
    match branch.advance_from(loaded, table, gate, first, workspace) {
        Ok(state) => Ok(Advanced { branch, state }),
        Err(_) => Err(NoRoom {
            key: branch.into_key(),
        }),
    }
}

/// What workers made of the branch of these parts, brought to its state, if it comes to rest. Where it is failed or
/// cut, nothing is told: which of the two it is may rest on who came first. Nothing is told in want of memory either.
pub(crate) fn rested<N: Naming, G: Gate>(
    alloc: Global,
    loaded: &Loaded,
    table: &Determinacy,
    parts: &Parts<N>,
    joined: Joined,
    gate: &G,
    workspace: &mut Workspace,
) -> Option<Advanced<N>>
    requires program { N.program ≡ named loaded.now }
    requires table { IsTableOf N.program table.now }
    requires branch { IsBranch N.program (held_of parts.now) }
    requires live { parts.now.is_failed ≡ false }
    requires joined { IsJoined N.program parts.now joined }
    ensures advanced { IfSome result (HasAdvanced N.program (held_of parts.now)) }
    ensures rests { IfSome result (λ r. ComesToRest r.state) }
{
    if joined.done.failed {
        return None;
    }
    let Ok(mut branch) = made_again(alloc, loaded, parts, joined) else {
        return None;
    };
    let Ok(state) = branch.advance_to_state(loaded, table, gate, workspace) else {
        return None;
    };
    if comes_to_rest(&state) {
        Some(Advanced { branch, state })
    } else {
        None
    }
}
