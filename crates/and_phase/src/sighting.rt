//! Branches that are looked over for work.

ghost use Rattle.std.specs.Prelude.{◌≡◌, ◌≤◌, true, false, Ok, IfOk, IfErr};
ghost use Rattle.and_cells.specs.Parts.{named};
ghost use Rattle.and_clause_index.specs.Tables.{IsTableOf};
ghost use Rattle.and_branch.specs.Branches.{IsBranch};
ghost use Rattle.and_phase.specs.Sighting.{IsLater, IsSighted};

use crate::determinate::are_two;
use and_branch::{Branch, FIRST_ROUND, NoRoom, Parts, Workspace};
use and_cells::Naming;
use and_clause_index::Determinacy;
use and_gate::Gate;
use and_program::Loaded;
use std::alloc::AllocError;

/// How many rounds over the goals the leader goes at most before workers are given up.
const ROUNDS: u32 = 4;

/// A branch that was looked over for work.
#[derive(Drop)]
pub(crate) enum Sighted<N: Naming> {
    /// There is work for two workers. The branch is taken apart.
    Two(Parts<N>),
    /// There is none.
    NotTwo(Branch<N>),
}

/// What a look for work came to, after some of the leader's rounds.
#[derive(Drop)]
pub(crate) struct LookedOver<N: Naming> {
    pub sighted: Sighted<N>,
    /// How many reductions the leader's next round has for each goal.
    pub next: u32,
}

/// A branch, and whether it is worth a look again.
#[derive(Drop)]
struct Led<N: Naming> {
    branch: Branch<N>,
    has_changed: bool,
}

/// Looks for work for two workers. Where there is none, the leader alone goes its first rounds, as a program often
/// begins with one goal that spawns many. An error is want of memory, and tells the key of the branch that was lost.
pub(crate) fn look_over<N: Naming, G: Gate>(
    loaded: &Loaded,
    table: &Determinacy,
    branch: Branch<N>,
    gate: &G,
    workspace: &mut Workspace,
) -> Result<LookedOver<N>, NoRoom>
    requires program { N.program ≡ named loaded.now }
    requires table { IsTableOf N.program table.now }
    requires branch { IsBranch N.program branch }
    ensures sighted { IfOk result (λ looked. IsSighted N.program branch looked.sighted) }
    ensures next { IfOk result (λ looked. 1 ≤ looked.next) }
    ensures no_room { IfErr result (λ refused. refused.key ≡ branch.key) }
{
    let mut branch = branch;
    let mut next = FIRST_ROUND;
    'looks: for _ in 0..ROUNDS {
        match look(loaded, table, branch, workspace) {
            Sighted::Two(parts) => {
                return Ok(LookedOver {
                    sighted: Sighted::Two(parts),
                    next,
                });
            }
            Sighted::NotTwo(left) => {
                let led = lead(loaded, table, left, gate, next, workspace)?;
                let Led {
                    branch: later,
                    has_changed,
                } = led;
                if !has_changed {
                    return Ok(LookedOver {
                        sighted: Sighted::NotTwo(later),
                        next,
                    });
                }
                branch = later;
            }
        }
        next = next.saturating_mul(2);
    }
    let sighted = look(loaded, table, branch, workspace);
    Ok(LookedOver { sighted, next })
}

/// Looks for work for two workers; where memory is wanting for the look, there is none.
fn look<N: Naming>(
    loaded: &Loaded,
    table: &Determinacy,
    branch: Branch<N>,
    workspace: &mut Workspace,
) -> Sighted<N>
    requires program { N.program ≡ named loaded.now }
    requires table { IsTableOf N.program table.now }
    requires branch { IsBranch N.program branch }
    ensures { IsSighted N.program branch result }
{
    let mut branch = branch;
    match has_two(loaded, table, &mut branch, workspace) {
        Ok(true) => taken_apart(branch),
        Ok(false) => Sighted::NotTwo(branch),
        Err(_) => Sighted::NotTwo(branch),
    }
}

/// Whether there is work for two workers in the branch, which is as before. An error is want of memory.
fn has_two<N: Naming>(
    loaded: &Loaded,
    table: &Determinacy,
    branch: &mut Branch<N>,
    workspace: &mut Workspace,
) -> Result<bool, AllocError>
    requires program { N.program ≡ named loaded.now }
    requires table { IsTableOf N.program table.now }
    requires branch { IsBranch N.program branch.old }
    ensures unchanged { branch.new ≡ branch.old }
    ensures live { result ≡ Ok true → branch.old.is_failed ≡ false }
{
    if branch.is_failed() {
        return Ok(false);
    }
    loaded.skeleton_is_of_the_program();
    let goals = branch.listed_goals()?;
    are_two(loaded, table, branch, goals.as_slice(), workspace)
}

/// A branch in which there is work for two workers, taken apart where there is the memory.
fn taken_apart<N: Naming>(branch: Branch<N>) -> Sighted<N>
    requires { branch.is_failed ≡ false }
    ensures { IsSighted N.program branch result }
{
    match branch.parts() {
        Ok(parts) => Sighted::Two(parts),
        Err(branch) => Sighted::NotTwo(branch),
    }
}

/// Lets the leader alone go one round, which has so many reductions for each goal. An error is want of memory, and
/// tells the key of the branch that was lost.
fn lead<N: Naming, G: Gate>(
    loaded: &Loaded,
    table: &Determinacy,
    branch: Branch<N>,
    gate: &G,
    most: u32,
    workspace: &mut Workspace,
) -> Result<Led<N>, NoRoom>
    requires program { N.program ≡ named loaded.now }
    requires table { IsTableOf N.program table.now }
    requires branch { IsBranch N.program branch }
    requires most { 1 ≤ most }
    ensures later { IfOk result (λ led. IsLater N.program branch led.branch) }
    ensures no_room { IfErr result (λ refused. refused.key ≡ branch.key) }
{
    let mut branch = branch;
    match branch.advance_some(loaded, table, gate, most, workspace) {
        Ok(has_changed) => Ok(Led {
            branch,
            has_changed,
        }),
        Err(_) => Err(NoRoom {
            key: branch.into_key(),
        }),
    }
}
