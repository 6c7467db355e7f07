//! What workers leave, looked at and made a branch again.

ghost use Rattle.std.specs.Prelude.{◌≡◌, ◌≤◌, ℕ, true, false, List, Ok, IfSome, IfOk};
ghost use Rattle.and_model.specs.declared.limits.TheConstants.{MAX_LIMIT};
ghost use Rattle.and_model.specs.declared.reference.Ref.{Ref};
ghost use Rattle.and_program.specs.Loaded.{program_of};
ghost use Rattle.and_cells.specs.Parts.{named};
ghost use Rattle.and_cells.specs.Ranges.{CanHold};
ghost use Rattle.and_cells.specs.Rows.{IsSound};
ghost use Rattle.and_cells.specs.Seen.{word_at};
ghost use Rattle.and_unify.specs.Pairs.{AreInRange};
ghost use Rattle.and_branch.specs.Branches.{IsBranch, SameKey};
ghost use Rattle.and_branch.specs.Parts.{held_of};
ghost use Rattle.and_gathering.specs.Gathering.{IsGathered};
ghost use Rattle.and_closing_laws.specs.Phases.{HasPhased};
ghost use Rattle.and_phase.specs.Leading.{LeadsOn};
ghost use Rattle.and_phase.specs.Joined.{IsJoined, IsWorkOf, LooksWhole};

use and_branch::{Branch, Parts, Worked};
use and_cells::{LooseCells, Naming};
use and_closing_laws::phases_leave_branches;
use and_gathering::{Gathered, gather};
use and_handed::HandedOn;
use and_model::{Goal, ReductionList};
use and_program::Loaded;
use and_row_check::{are_pairs_whole, are_ready, frames_of, is_whole};
use std::alloc::{AllocError, Global};

/// What the workers of a phase made of a branch: the row that they leave, and what they did.
#[derive(Drop)]
pub(crate) struct Joined {
    pub cells: LooseCells,
    pub done: Gathered,
}

/// Whether the row fits what was done, and is whole, the pairs are, and the goals are ready. Where the workers found
/// the tree dead, the row alone is looked at. An error is want of memory.
fn looks_whole(
    alloc: Global,
    loaded: &Loaded,
    reductions: &ReductionList,
    cells: &LooseCells,
    done: &Gathered,
) -> Result<bool, AllocError>
    requires fits { (words : ℕ) × ((place : ℕ) → CanHold (named loaded.now) words place (word_at cells.now place)) }
    requires short { done.now.end ≤ MAX_LIMIT }
    requires pairs { done.now.failed ≡ false → (words : ℕ) × AreInRange (named loaded.now) words done.now.pairs }
    ensures { result ≡ Ok true → LooksWhole (named loaded.now) reductions.now cells.now done.now }
{
    if cells.len() != done.end as usize {
        return Ok(false);
    }
    let frames = frames_of(alloc, loaded, reductions, &done.made, cells.len())?;
    if !is_whole(alloc, loaded, &frames, cells)? {
        return Ok(false);
    }
    if done.failed {
        return Ok(true);
    }
    Ok(
        are_pairs_whole(alloc, loaded, &frames, cells, &done.pairs)?
            && are_ready(loaded, cells, done.goals.as_slice()),
    )
}

/// What workers did on a branch with these reductions and goals, if nothing is amiss with it. An error is want of
/// memory.
pub(crate) fn join(
    alloc: Global,
    loaded: &Loaded,
    reductions: &ReductionList,
    goals: &[Goal],
    used: u32,
    limit: u32,
    cells: LooseCells,
    tolds: &[HandedOn],
) -> Result<Option<Joined>, AllocError>
    requires limit { (used ≤ limit) × (limit ≤ MAX_LIMIT) }
    requires phased { (first : List Ref) × HasPhased (named loaded.now) first cells tolds.now }
    ensures cells { IfOk result (λ r. IfSome r (λ j. j.cells ≡ cells)) }
    ensures gathered { IfOk result
        (λ r. IfSome r (λ j. IsGathered (program_of loaded.now) goals.now used limit tolds.now j.done)) }
    ensures whole { IfOk result (λ r. IfSome r (λ j. LooksWhole (named loaded.now) reductions.now cells j.done)) }
{
    match gather(alloc, loaded, goals, used, limit, tolds)? {
        None => Ok(None),
        Some(done) => {
            if looks_whole(alloc, loaded, reductions, &cells, &done)? {
                Ok(Some(Joined { cells, done }))
            } else {
                Ok(None)
            }
        }
    }
}

/// The branch of these parts with what was made of it. An error is want of memory.
pub(crate) fn made_again<N: Naming>(
    alloc: Global,
    loaded: &Loaded,
    parts: &Parts<N>,
    joined: Joined,
) -> Result<Branch<N>, AllocError>
    requires program { N.program ≡ named loaded.now }
    requires branch { IsBranch N.program (held_of parts.now) }
    requires live { parts.now.is_failed ≡ false }
    requires joined { IsJoined N.program parts.now joined }
    ensures same { IfOk result (λ b. SameKey (held_of parts.now) b) }
    ensures steps { IfOk result (λ b. LeadsOn N.program (held_of parts.now) b) }
{
    loaded.skeleton_is_of_the_program();
    phases_leave_branches();
    Branch::rebuild(alloc, loaded, parts, work_of(joined))
}

/// What is to be made a branch again.
fn work_of<N: Naming>(joined: Joined) -> Worked<N>
    requires { IsSound N.program joined.cells }
    ensures { IsWorkOf joined result }
{
    let Joined { cells, done } = joined;
    let Gathered {
        made,
        end: _,
        goals,
        pairs,
        failed,
    } = done;
    Worked {
        cells: cells.into_plain(),
        made,
        goals,
        pairs,
        failed,
    }
}
