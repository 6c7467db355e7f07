//! Lists of goals that are moved, filled and copied.

ghost use Rattle.std.specs.Prelude.{◌≡◌, ◌++◌, [], List, map, reverse, OnOk, OnErr};
ghost use Rattle.and_model.specs.declared.goal.Goal.{Goal};
ghost use Rattle.and_pending.specs.declared.pending.PendingGoal.{PendingGoal};
ghost use Rattle.and_pending.specs.declared.watch.Watch.{Watch};

use crate::pending::PendingGoal;
use crate::watch::Watch;
use and_model::Goal;
use std::alloc::AllocError;

/// Moves all goals from the one stack to the other. An error is want of memory, and changes nothing.
pub(crate) fn move_all(
    from: &mut Vec<PendingGoal>,
    to: &mut Vec<PendingGoal>,
) -> Result<(), AllocError>
    ensures empty { OnOk result (from.new.items ≡ []) }
    ensures moved { OnOk result (reverse to.new.items ≡ from.old.items ++ reverse to.old.items) }
    ensures unchanged { OnErr result ((from.new.items ≡ from.old.items) × (to.new.items ≡ to.old.items)) }
{
    to.reserve(from.len())?;
    let mut place = from.len();
    while place > 0 {
        place -= 1;
        to.push_reserved(from[place]);
    }
    from.clear();
    Ok(())
}

/// Puts goals at the end of a list, none of which is watched. An error is want of memory.
pub(crate) fn put_goals(list: &mut Vec<PendingGoal>, goals: &[Goal]) -> Result<(), AllocError>
    ensures { OnOk result (list.new.items
        ≡ list.old.items ++ map (λ g. record { goal = g; watch = Watch.Unwatched }) goals.now) }
{
    list.reserve(goals.len())?;
    for goal in goals {
        list.push(PendingGoal {
            goal: *goal,
            watch: Watch::Unwatched,
        })?;
    }
    Ok(())
}

/// Puts the goals at the end of a list. An error is want of memory.
pub(crate) fn list_goals(list: &mut Vec<Goal>, goals: &[PendingGoal]) -> Result<(), AllocError>
    ensures { OnOk result (list.new.items ≡ list.old.items ++ map (λ (p : PendingGoal). p.goal) goals.now) }
{
    for pending in goals {
        list.push(pending.goal)?;
    }
    Ok(())
}

/// Puts the goals at the end of a list, the last one first. An error is want of memory.
pub(crate) fn list_reversed(list: &mut Vec<Goal>, goals: &[PendingGoal]) -> Result<(), AllocError>
    ensures { OnOk result (list.new.items ≡ list.old.items ++ map (λ (p : PendingGoal). p.goal) (reverse goals.now)) }
{
    let mut place = goals.len();
    while place > 0 {
        place -= 1;
        list.push(goals[place].goal)?;
    }
    Ok(())
}

/// Puts goals at the ends of two lists. An error is want of memory, and both are empty then.
pub(crate) fn fill(
    left: &mut Vec<PendingGoal>,
    right: &mut Vec<PendingGoal>,
    from_left: &[PendingGoal],
    from_right: &[PendingGoal],
) -> Result<(), AllocError>
    requires left { left.old.items ≡ [] }
    requires right { right.old.items ≡ [] }
    ensures filled { OnOk result ((left.new.items ≡ from_left.now) × (right.new.items ≡ from_right.now)) }
    ensures none { OnErr result ((left.new.items ≡ []) × (right.new.items ≡ [])) }
{
    left.extend_from_slice(from_left)?;
    if right.extend_from_slice(from_right).is_err() {
        left.clear();
        return Err(AllocError);
    }
    Ok(())
}

/// Watches none of these goals any longer. Takes no memory.
pub(crate) fn stop_watching(list: &mut Vec<PendingGoal>)
    ensures { list.new.items
        ≡ map (λ (p : PendingGoal). record { goal = p.goal; watch = Watch.Unwatched }) list.old.items }
{
    for place in 0..list.len() {
        list[place].watch = Watch::Unwatched;
    }
}
