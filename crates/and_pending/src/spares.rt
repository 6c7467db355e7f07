//! Lists that are not in use, kept to be used again.

ghost use Rattle.std.specs.Prelude.{◌≡◌, []};

use crate::pending::PendingGoal;
use std::alloc::Global;
use std::mem::replace;

/// A list of goals, and one of cells. What stands in them is of no account.
#[derive(Drop)]
pub(crate) struct Spare {
    pub goals: Vec<PendingGoal>,
    pub cells: Vec<u32>,
}

impl Spare {
    /// The same lists, with nothing in them. Takes no memory.
    fn emptied(self) -> Spare
        ensures goals { result.goals.items ≡ [] }
        ensures cells { result.cells.items ≡ [] }
    {
        let mut spare = self;
        spare.goals.clear();
        spare.cells.clear();
        spare
    }
}

/// Empty lists: those that were put by last, where there are some. Takes no memory.
pub(crate) fn empty_lists(spares: &mut Vec<Spare>, alloc: Global) -> Spare
    ensures goals { result.goals.items ≡ [] }
    ensures cells { result.cells.items ≡ [] }
{
    match spares.pop() {
        Some(spare) => spare.emptied(),
        None => Spare {
            goals: Vec::new(alloc),
            cells: Vec::new(alloc),
        },
    }
}

/// Puts lists by. Where memory is wanted for that, they are let go of.
pub(crate) fn put_by(spares: &mut Vec<Spare>, spare: Spare) {
    let _kept = spares.push(spare);
}

/// Gives away the goals of a list. Where there are none, it keeps its memory. Takes no memory.
pub(crate) fn given(list: &mut Vec<PendingGoal>, alloc: Global) -> Vec<PendingGoal>
    ensures given { result.items ≡ list.old.items }
    ensures none { list.new.items ≡ [] }
{
    let none = Vec::new(alloc);
    if list.is_empty() {
        return none;
    }
    replace(list, none)
}

/// Gives away the goals of a list, which has an empty list in their place. Where there are none, that one goes. Takes no
/// memory.
pub(crate) fn exchanged(list: &mut Vec<PendingGoal>, empty: Vec<PendingGoal>) -> Vec<PendingGoal>
    requires { empty.items ≡ [] }
    ensures given { result.items ≡ list.old.items }
    ensures none { list.new.items ≡ [] }
{
    if list.is_empty() {
        return empty;
    }
    replace(list, empty)
}

/// Has these goals in place of its own. Where there are none, it keeps its memory. Takes no memory.
pub(crate) fn have(list: &mut Vec<PendingGoal>, goals: Vec<PendingGoal>)
    ensures { list.new.items ≡ goals.items }
{
    if goals.is_empty() {
        list.clear();
    } else {
        *list = goals;
    }
}
