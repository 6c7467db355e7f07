//! Reductions, as they are written down one behind the other.

ghost use Rattle.std.specs.Prelude.{◌≡◌, ◌≤◌, ◌+◌, ◌++◌, ◌∷◌, [], take, OnOk, IfOk};
ghost use Rattle.and_model.specs.declared.limits.TheConstants.{MAX_LIMIT};
ghost use Rattle.and_program.specs.Loaded.{program_of};
ghost use Rattle.and_branch_laws.specs.Reducing.{reduction_by};
ghost use Rattle.and_code.specs.Visiting.{HaveClauses};
ghost use Rattle.and_code.specs.Written.{all_written};
ghost use Rattle.and_branch_parts.specs.Weights.{weights_of};

use and_model::{ClauseNo, Goal, Reduction, ReductionList};
use and_program::Loaded;
use std::alloc::AllocError;

/// Writes down the reduction of a goal by a clause, which stands at the node. An error is want of
/// memory.
pub fn push_reduction(
    reductions: &mut ReductionList,
    goal: Goal,
    clause: ClauseNo,
    node: u32,
) -> Result<(), AllocError>
    ensures { OnOk result (all_written reductions.new
        ≡ all_written reductions.old ++ reduction_by goal clause.0 node ∷ []) }
{
    let reduction = Reduction {
        parent: goal.node,
        item: goal.item,
        clause,
        node,
    };
    match reductions.push(reduction) {
        Ok(()) => Ok(()),
        Err(_) => Err(AllocError),
    }
}

/// Takes reductions out from the end, until there are so many. Takes no memory.
pub fn cut_off(reductions: &mut ReductionList, count: usize)
    ensures { reductions.new ≡ take count reductions.old }
{
    while reductions.len() > count {
        reductions.pop();
    }
}

/// Puts reductions behind others, and answers what their tree weighs then. An error is want of memory.
pub fn add_all(
    loaded: &Loaded,
    reductions: &mut ReductionList,
    made: &ReductionList,
    used: u32,
) -> Result<u32, AllocError>
    requires clauses { HaveClauses (program_of loaded.now) made.now }
    requires fits { used + weights_of (program_of loaded.now) (all_written made.now) ≤ MAX_LIMIT }
    ensures reductions { OnOk result (all_written reductions.new ≡ all_written reductions.old ++ all_written made.now) }
    ensures weight { IfOk result (λ weight. weight ≡ used + weights_of (program_of loaded.now) (all_written made.now)) }
{
    let mut weight = used;
    for place in 0..made.len() {
        let reduction = *made.at(place);
        weight += loaded.weight(reduction.clause);
        add(reductions, reduction)?;
    }
    Ok(weight)
}

/// Puts a reduction behind the others. An error is want of memory.
fn add(reductions: &mut ReductionList, reduction: Reduction) -> Result<(), AllocError>
    ensures { OnOk result (reductions.new ≡ reductions.old ++ reduction ∷ []) }
{
    match reductions.push(reduction) {
        Ok(()) => Ok(()),
        Err(_) => Err(AllocError),
    }
}
