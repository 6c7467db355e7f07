//! The list of goals that wait.

ghost use Rattle.std.specs.Prelude.{◌≡◌, ◌<◌, ◌++◌, ◌∷◌, [], map, length, All, IfSome, IfNone, IfErr, OnOk, OnErr};
ghost use Rattle.std.specs.Prelude.{slice_index_or};
ghost use Rattle.and_cells.specs.Seen.{OnlyReads};
ghost use Rattle.and_workers.specs.Waiting.{Waiting, waiting_for, LookedFree, LookedSet, Wakes};

use and_cells::Cells;
use and_model::{Goal, GoalList, Ref};
use std::alloc::Global;
use std::marker::Model;

/// Goals that wait, each for a cell.
pub struct Suspended {
    goals: Vec<Goal>,
    cells: Vec<u32>,
    /// Looks go from here to the first place, and then from the last place to here.
    from: usize,
}

// By hand, so that it is proved once, here.
impl Drop for Suspended {
    fn drop(self) {
        let Suspended {
            goals: _,
            cells: _,
            from: _,
        } = self;
    }
}

impl Model for Suspended {
    ghost use Rattle.std.specs.Prelude.{◌≡◌, List, length};
    ghost use Rattle.and_workers.specs.Waiting.{Waiting, waiting};

    ghost Value = { List Waiting };

    ghost view = { λ s. waiting s.goals.items s.cells.items };

    ghost invariant = { λ s. length s.goals.items ≡ length s.cells.items };
}

/// The place of the last cell that a look finds set; `None` where each is found free. Takes no memory.
fn last_set<C: Cells>(waited: &[u32], cells: &mut C) -> Option<usize>
    requires { All (λ cell. cell < (C.seen cells.old).words) waited.now }
    ensures over { C.over cells.new ≡ C.over cells.old }
    ensures grew { C.Grew cells.old cells.new }
    ensures reads { OnlyReads (C.seen cells.old) (C.seen cells.new) }
    ensures none { IfNone result
        (All (λ cell. LookedFree (C.shared (C.over cells.old)) cell (C.seen cells.old) (C.seen cells.new)) waited.now) }
    ensures set { IfSome result (λ place. (place < length waited.now)
        × LookedSet C.program (slice_index_or waited.now place 0) (C.seen cells.old) (C.seen cells.new)) }
{
    let mut place = waited.len();
    while place > 0 {
        place -= 1;
        match cells.look(waited[place]) {
            Ref::Free => {}
            _ => return Some(place),
        }
    }
    None
}

/// The place of a cell that a look finds set; `None` where each is found free. Looks go from the place before `from`
/// to the first one, and then from the last one to `from`. Takes no memory.
fn next_set<C: Cells>(waited: &[u32], from: usize, cells: &mut C) -> Option<usize>
    requires { All (λ cell. cell < (C.seen cells.old).words) waited.now }
    ensures over { C.over cells.new ≡ C.over cells.old }
    ensures grew { C.Grew cells.old cells.new }
    ensures reads { OnlyReads (C.seen cells.old) (C.seen cells.new) }
    ensures none { IfNone result
        (All (λ cell. LookedFree (C.shared (C.over cells.old)) cell (C.seen cells.old) (C.seen cells.new)) waited.now) }
    ensures set { IfSome result (λ place. (place < length waited.now)
        × LookedSet C.program (slice_index_or waited.now place 0) (C.seen cells.old) (C.seen cells.new)) }
{
    if from > waited.len() {
        return last_set(waited, cells);
    }
    if let Some(place) = last_set(&waited[..from], cells) {
        return Some(place);
    }
    match last_set(&waited[from..], cells) {
        Some(place) => Some(from + place),
        None => None,
    }
}

impl Suspended {
    /// No goal waits. Takes no memory.
    pub fn new(alloc: Global) -> Suspended
        ensures { result ≡ [] }
    {
        Suspended {
            goals: Vec::new(alloc),
            cells: Vec::new(alloc),
            from: 0,
        }
    }

    /// Lets a goal wait for a cell, behind the others. An error is want of memory, and hands the goal back.
    pub fn wait(&mut self, goal: Goal, cell: u32) -> Result<(), Goal>
        ensures ok { OnOk result (self.new ≡ self.old ++ waiting_for goal cell ∷ []) }
        ensures unchanged { OnErr result (self.new ≡ self.old) }
        ensures given_back { IfErr result (λ back. back ≡ goal) }
    {
        if self.cells.reserve(1).is_err() {
            return Err(goal);
        }
        self.goals.push(goal).map_err(|refused| refused.value)?;
        self.cells.push_reserved(cell);
        Ok(())
    }

    /// Takes out a goal whose cell is found set; `None` where each cell is found free, each by a look of this
    /// call. Takes no memory.
    ///
    /// Looks begin before the place of the goal that was taken out last, and go round. So those whose cells are free
    /// are passed once a round; and who began to wait later comes earlier, as in a recursion the innermost call has
    /// its value first.
    pub fn woken<C: Cells>(&mut self, cells: &mut C) -> Option<Goal>
        requires { All (λ w. w.cell < (C.seen cells.old).words) self.old }
        ensures over { C.over cells.new ≡ C.over cells.old }
        ensures grew { C.Grew cells.old cells.new }
        ensures reads { OnlyReads (C.seen cells.old) (C.seen cells.new) }
        ensures woken { IfSome result
            (λ goal. Wakes C.program goal self.old self.new (C.seen cells.old) (C.seen cells.new)) }
        ensures unchanged { IfNone result (self.new ≡ self.old) }
        ensures free { IfNone result
            (All (λ w. LookedFree (C.shared (C.over cells.old)) w.cell (C.seen cells.old) (C.seen cells.new))
            self.old) }
    {
        let Some(place) = next_set(self.cells.as_slice(), self.from, cells) else {
            return None;
        };
        self.from = place;
        self.cells.swap_remove(place);
        Some(self.goals.swap_remove(place))
    }

    /// The goals that still wait, in order. Takes no memory.
    pub fn rest(self) -> GoalList
        ensures { result ≡ map (λ w. w.goal) self }
    {
        let Suspended {
            goals,
            cells: _,
            from: _,
        } = self;
        GoalList::of_items(goals)
    }
}
