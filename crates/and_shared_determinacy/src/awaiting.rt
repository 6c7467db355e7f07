//! What goals wait for.

ghost use Rattle.std.specs.Prelude.{◌≡◌, ◌≢◌, ℕ, Some, None};
ghost use Rattle.and_model.specs.declared.reference.Ref.{Ref};
ghost use Rattle.and_cells.specs.Seen.{OnlyReads};
ghost use Rattle.and_cells.specs.Parts.{named};
ghost use Rattle.and_clause_index.specs.Selecting.{CanBeTried, GoalWaitsOn, IsNoCell, NoneOfGoalWaits};

use crate::selecting::call_node;
use and_cells::{Cells, deref};
use and_model::{Goal, Ref};
use and_program::Loaded;
use and_unify::structures::{Structure, argument_at, argument_count};

/// The cell at which the first argument of a goal ends that is a free variable. Takes no memory.
pub fn waits_on<C: Cells>(loaded: &Loaded, cells: &mut C, goal: Goal) -> Option<u32>
    requires program { C.program ≡ named loaded.now }
    requires goal { CanBeTried C.program (C.seen cells.old).words goal }
    ensures over { C.over cells.new ≡ C.over cells.old }
    ensures grew { C.Grew cells.old cells.new }
    ensures reads { OnlyReads (C.seen cells.old) (C.seen cells.new) }
    ensures some { (cell : ℕ) → result ≡ Some cell
        → GoalWaitsOn C.program (C.shared (C.over cells.old)) goal (C.seen cells.old) (C.seen cells.new) cell }
    ensures none { result ≡ None → NoneOfGoalWaits C.program goal (C.seen cells.old) (C.seen cells.new) }
{
    loaded.skeleton_is_of_the_program();
    let node = call_node(loaded, goal);
    let base = goal.base;
    let call = Structure { node, base };
    for place in 0..argument_count(loaded, node) {
        let end = deref(cells, argument_at(loaded, call, place));
        match free_cell(end) {
            Some(cell) => return Some(cell),
            None => {}
        }
    }
    None
}

/// The cell that the end of a chain is, if it is one.
fn free_cell(end: Ref) -> Option<u32>
    requires { end ≢ Ref.Free }
    ensures some { (cell : ℕ) → result ≡ Some cell → end ≡ Ref.Cell cell }
    ensures none { result ≡ None → IsNoCell end }
{
    match end {
        Ref::Cell(cell) => Some(cell),
        Ref::Node { .. } => None,
        Ref::Number(_) => None,
        Ref::Half(_) => None,
        Ref::Free => unreachable!(),
    }
}
