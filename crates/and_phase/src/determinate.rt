//! Whether there is work for two workers.

ghost use Rattle.std.specs.Prelude.{◌≡◌, ◌≤◌, All, length};
ghost use Rattle.and_model.specs.declared.limits.TheConstants.{MAX_LIMIT};
ghost use Rattle.and_cells.specs.Meaning.{IsSettled};
ghost use Rattle.and_cells.specs.Parts.{named};
ghost use Rattle.and_clause_index.specs.Tables.{IsTableOf};
ghost use Rattle.and_branch.specs.Finding.{IsSeen};

use and_branch::{Branch, Workspace, is_call};
use and_cells::Naming;
use and_clause_index::Determinacy;
use and_determinacy::Narrowed;
use and_model::Goal;
use and_program::Loaded;
use std::alloc::AllocError;

/// Whether no more than one clause can be a candidate of the goal, a call. The branch is as before. An error is want of
/// memory.
fn is_sole<N: Naming>(
    loaded: &Loaded,
    table: &Determinacy,
    branch: &mut Branch<N>,
    goal: Goal,
    workspace: &mut Workspace,
) -> Result<bool, AllocError>
    requires program { N.program ≡ named loaded.now }
    requires table { IsTableOf N.program table.now }
    requires settled { IsSettled N.program branch.old.row }
    requires short { length branch.old.row ≤ MAX_LIMIT }
    requires seen { IsSeen N.program branch.old.row goal }
    ensures { branch.new ≡ branch.old }
{
    if !is_call(loaded, goal) {
        return Ok(false);
    }
    match branch.narrow_goal(loaded, table, goal, workspace)? {
        Narrowed::AtMost(_) => Ok(true),
        Narrowed::Nothing => Ok(true),
        Narrowed::Several => Ok(false),
    }
}

/// Whether two of the calls among these goals of the branch, or more, can be reduced to begin with. The branch is as
/// before. An error is want of memory.
pub(crate) fn are_two<N: Naming>(
    loaded: &Loaded,
    table: &Determinacy,
    branch: &mut Branch<N>,
    goals: &[Goal],
    workspace: &mut Workspace,
) -> Result<bool, AllocError>
    requires program { N.program ≡ named loaded.now }
    requires table { IsTableOf N.program table.now }
    requires settled { IsSettled N.program branch.old.row }
    requires short { length branch.old.row ≤ MAX_LIMIT }
    requires seen { All (IsSeen N.program branch.old.row) goals.now }
    ensures { branch.new ≡ branch.old }
{
    let mut is_one = false;
    for place in 0..goals.len() {
        if is_sole(loaded, table, branch, goals[place], workspace)? {
            if is_one {
                return Ok(true);
            }
            is_one = true;
        }
    }
    Ok(false)
}
