//! Goals that are left.

ghost use Rattle.std.specs.Prelude.{◌≡◌, ◌+◌, ◌<◌, ◌≤◌, ◌^◌, ◌++◌, ◌∷◌, [], Some, None, true, false, List, map};
ghost use Rattle.std.specs.Prelude.{reverse, length, All};
ghost use Rattle.std.specs.Prelude.{OnOk, IfOk, IfSome, IsNone};
ghost use Rattle.and_pending.specs.Pending.{Pending, Watched, HasPassedSleepers, HasGoneBack, Sleeps, goals_of};
ghost use Rattle.and_pending.specs.Pending.{unwatched, watched_in, IsWithin};

use crate::copying::{put_watched, total_width};
use crate::filling::{fill, list_goals, list_reversed, move_all, put_goals, stop_watching};
use crate::spares::{Spare, empty_lists, exchanged, given, have, put_by};
use crate::watch::{Watch, all_free, is_free, watch_by};
use and_cells::{Naming, PlainCells};
use and_model::Goal;
use std::alloc::{AllocError, Global};
use std::marker::Model;
use std::mem::replace;

/// How many cells are listed at most before it is asked whether most are those of goals that are gone.
const FEW: usize = 64;

/// How many times as many cells as goals are listed then at most: as many as a goal that is left is watched by, so that
/// its own never look like those of goals that are gone.
const TIMES: usize = 128;

/// So many cells for each goal that is given away, and so many more, are not many.
const CELLS_OF_A_GOAL: usize = 4;

const CELLS_OF_A_FORK: usize = 16;

/// A goal that is left, and by which cells it is watched, if it is.
#[derive(Clone, Copy)]
pub struct PendingGoal {
    pub goal: Goal,
    pub(crate) watch: Watch,
}

/// Goals that are left, in their order.
pub struct PendingGoals {
    /// Those before the place of work,
    left: Vec<PendingGoal>,
    /// and those from there on, the next one last.
    right: Vec<PendingGoal>,
    /// The cells by which those are watched that are by more than two, and by which goals were that are gone.
    cells: Vec<u32>,
    /// Lists that are not in use.
    spares: Vec<Spare>,
}

// By hand, so that it is proved once, here.
impl Drop for PendingGoals {
    fn drop(self) {
        let PendingGoals {
            left: _,
            right: _,
            cells: _,
            spares: _,
        } = self;
    }
}

impl Model for PendingGoals {
    ghost use Rattle.std.specs.Prelude.{◌++◌, All, reverse};
    ghost use Rattle.and_pending.specs.Pending.{Pending, all_watched_in, IsWithin};

    ghost Value = { Pending };

    ghost view = { λ goals. record {
      left = all_watched_in goals.cells.items goals.left.items;
      right = all_watched_in goals.cells.items (reverse goals.right.items);
    } };

    ghost invariant = { λ goals. All (IsWithin goals.cells.items) (goals.left.items ++ reverse goals.right.items) };
}

impl PendingGoals {
    /// No goal is left. Takes no memory.
    pub fn new(alloc: Global) -> PendingGoals
        ensures { result ≡ record { left = []; right = [] } }
    {
        PendingGoals {
            left: Vec::new(alloc),
            right: Vec::new(alloc),
            cells: Vec::new(alloc),
            spares: Vec::new(alloc),
        }
    }

    /// These goals are left, none of which is watched, and the place of work is behind them. An error is want of
    /// memory.
    pub fn of(alloc: Global, goals: &[Goal]) -> Result<PendingGoals, AllocError>
        ensures { IfOk result (λ made. made ≡ record { left = map unwatched goals.now; right = [] }) }
    {
        let mut left = Vec::new(alloc);
        put_goals(&mut left, goals)?;
        Ok(PendingGoals {
            left,
            right: Vec::new(alloc),
            cells: Vec::new(alloc),
            spares: Vec::new(alloc),
        })
    }

    /// There are not so many that their number could not be told: a law.
    pub fn are_few(&self)
        ensures { length self.now.left + length self.now.right < 2 ^ 64 }
    {
        let _left = self.left.len();
        let _right = self.right.len();
    }

    /// How many there are before the place of work. Takes no memory.
    pub fn count_before(&self) -> usize
        ensures { result ≡ length self.now.left }
    {
        self.left.len()
    }

    /// How many there are from the place of work on. Takes no memory.
    pub fn count_ahead(&self) -> usize
        ensures { result ≡ length self.now.right }
    {
        self.right.len()
    }

    /// The goal at a place before the place of work, counted from 0. Takes no memory.
    pub fn at(&self, place: usize) -> Goal
        requires { place < length self.now.left }
        ensures { (front : List Goal) × (back : List Goal) × (goals_of self.now.left ≡ front ++ result ∷ back)
            × (length front ≡ place) }
    {
        self.left[place].goal
    }

    /// Where memory is taken from. Takes none.
    pub fn allocator(&self) -> Global {
        *self.left.allocator()
    }

    /// All goals, in their order. An error is want of memory.
    pub fn all(&self, alloc: Global) -> Result<Vec<Goal>, AllocError>
        ensures { IfOk result (λ goals. goals.items ≡ goals_of (self.now.left ++ self.now.right)) }
    {
        let mut goals = Vec::new(alloc);
        list_goals(&mut goals, &self.left)?;
        list_reversed(&mut goals, &self.right)?;
        Ok(goals)
    }

    /// The goal at the place of work. Takes no memory.
    pub fn next(&self) -> Option<Goal>
        ensures none { IsNone result → self.now.right ≡ [] }
        ensures some { IfSome result (λ g. (w : Watched) × (rest : List Watched)
            × (self.now.right ≡ w ∷ rest) × (w.goal ≡ g)) }
    {
        let count = self.right.len();
        if count == 0 {
            None
        } else {
            Some(self.right[count - 1].goal)
        }
    }

    /// Goes back before all goals. An error is want of memory.
    pub fn rewind(&mut self) -> Result<(), AllocError>
        ensures { OnOk result (self.new ≡ record { left = []; right = self.old.left ++ self.old.right }) }
    {
        move_all(&mut self.left, &mut self.right)
    }

    /// Goes past the next goal. An error is want of memory, and changes nothing.
    #[inline(always)]
    pub fn pass(&mut self) -> Result<(), AllocError>
        requires { (w : Watched) × (rest : List Watched) × (self.old.right ≡ w ∷ rest) }
        ensures { OnOk result ((w : Watched) (rest : List Watched) → self.old.right ≡ w ∷ rest
            → self.new ≡ record { left = self.old.left ++ w ∷ []; right = rest }) }
    {
        let last = self.right.len() - 1;
        self.left.push(self.right[last])?;
        self.right.truncate(last);
        Ok(())
    }

    /// Goes back before the last goal that was passed, if there is one, and answers whether there is. An error is
    /// want of memory, and changes nothing.
    #[inline(always)]
    pub fn go_back(&mut self) -> Result<bool, AllocError>
        ensures none { result ≡ Ok false → (self.old.left ≡ []) × (self.new ≡ self.old) }
        ensures back { result ≡ Ok true → (front : List Watched) × (w : Watched) × (self.old.left ≡ front ++ w ∷ [])
            × (self.new ≡ record { left = front; right = w ∷ self.old.right }) }
    {
        let count = self.left.len();
        if count == 0 {
            return Ok(false);
        }
        self.right.push(self.left[count - 1])?;
        self.left.truncate(count - 1);
        Ok(true)
    }

    /// Goes past the goals that sleep in a row, up to the next one that does not. An error is want of memory, and
    /// some may be passed then.
    #[inline(always)]
    pub fn pass_sleepers<N: Naming>(&mut self, row: &PlainCells<N>) -> Result<(), AllocError>
        ensures { OnOk result (HasPassedSleepers row.now self.old self.new) }
    {
        while self.next_sleeps(row) {
            self.pass()?;
        }
        Ok(())
    }

    /// Goes back over the goals that sleep in a row, to before the last one that does not, and answers whether there
    /// is one. An error is want of memory, and some may be gone back over then.
    pub fn go_back_over_sleepers<N: Naming>(
        &mut self,
        row: &PlainCells<N>,
    ) -> Result<bool, AllocError>
        ensures back { IfOk result (HasGoneBack row.now self.old self.new) }
        ensures moved { OnOk result (self.new.left ++ self.new.right ≡ self.old.left ++ self.old.right) }
        ensures before { result ≡ Ok true → length self.new.left < length self.old.left }
    {
        while self.go_back()? {
            if !self.next_sleeps(row) {
                return Ok(true);
            }
        }
        Ok(false)
    }

    /// Goes back before the goal that was passed last, if it is watched and does not sleep in a row. An error is want
    /// of memory, and changes nothing.
    #[inline(always)]
    pub fn go_back_to_woken<N: Naming>(&mut self, row: &PlainCells<N>) -> Result<(), AllocError>
        ensures moved { OnOk result (self.new.left ++ self.new.right ≡ self.old.left ++ self.old.right) }
        ensures near { OnOk result (length self.new.right ≤ length self.old.right + 1) }
    {
        if self.last_is_woken(row) {
            let _is_there = self.go_back()?;
        }
        Ok(())
    }

    /// Whether there is a goal that was passed last, which is watched and does not sleep in a row. Takes no memory.
    #[inline(always)]
    fn last_is_woken<N: Naming>(&self, row: &PlainCells<N>) -> bool {
        let count = self.left.len();
        if count == 0 {
            return false;
        }
        let last = self.left[count - 1];
        last.watch.is_some() && !sleeps(&self.cells, row, last)
    }

    /// Whether there is a next goal, which sleeps in a row. Takes no memory.
    #[inline(always)]
    fn next_sleeps<N: Naming>(&self, row: &PlainCells<N>) -> bool
        ensures { result ≡ true → (w : Watched) × (rest : List Watched) × (self.now.right ≡ w ∷ rest)
            × Sleeps row.now w }
    {
        let count = self.right.len();
        count > 0 && sleeps(&self.cells, row, self.right[count - 1])
    }

    /// Whether all goals before the place of work sleep in a row. Takes no memory.
    pub fn are_asleep<N: Naming>(&self, row: &PlainCells<N>) -> bool
        ensures { result ≡ true → All (Sleeps row.now) self.now.left }
    {
        all_sleep(&self.cells, row, &self.left)
    }

    /// Takes out the goal at the place of work. Takes no memory.
    pub fn pop(&mut self) -> Option<Goal>
        ensures none { IsNone result → (self.old.right ≡ []) × (self.new ≡ self.old) }
        ensures some { IfSome result (λ g. (w : Watched) × (rest : List Watched)
            × (self.old.right ≡ w ∷ rest) × (w.goal ≡ g)
            × (self.new ≡ record { left = self.old.left; right = rest })) }
    {
        let pending = self.right.pop()?;
        Some(pending.goal)
    }

    /// Puts a goal at the place of work, which is not watched. An error is want of memory.
    pub fn push(&mut self, goal: Goal) -> Result<(), AllocError>
        ensures { OnOk result (self.new ≡ record { left = self.old.left; right = unwatched goal ∷ self.old.right }) }
    {
        self.right.push(PendingGoal {
            goal,
            watch: Watch::Unwatched,
        })?;
        Ok(())
    }

    /// Watches the goal at the place of work by these cells. An error is want of memory.
    pub fn watch(&mut self, cells: &[u32]) -> Result<(), AllocError>
        requires { (w : Watched) × (rest : List Watched) × (self.old.right ≡ w ∷ rest) }
        ensures { OnOk result ((w : Watched) (rest : List Watched) → self.old.right ≡ w ∷ rest → self.new ≡ record {
          left = self.old.left;
          right = record { goal = w.goal; cells = Some cells.now } ∷ rest;
        }) }
    {
        let watch = watch_by(&mut self.cells, cells)?;
        let last = self.right.len() - 1;
        self.right[last].watch = watch;
        Ok(())
    }

    /// Whether most cells that are listed are those of goals that are gone. Takes no memory.
    pub fn are_worn(&self) -> bool {
        let goals = self.left.len().saturating_add(self.right.len());
        self.cells.len() > goals.saturating_mul(TIMES).saturating_add(FEW)
    }

    /// Watches none of the goals any longer. Takes no memory.
    pub fn forget_watches(&mut self)
        ensures { self.new ≡ record {
          left = map unwatched (goals_of self.old.left);
          right = map unwatched (goals_of self.old.right);
        } }
    {
        stop_watching(&mut self.left);
        stop_watching(&mut self.right);
        self.cells.clear();
    }

    /// The same once more, with no more cells than its goals are watched by. An error is want of memory.
    pub fn copy(&self, alloc: Global) -> Result<PendingGoals, AllocError>
        ensures { IfOk result (λ goals. goals ≡ self.now) }
    {
        let width = total_width(&self.left).saturating_add(total_width(&self.right));
        let mut left = Vec::with_capacity(alloc, self.left.len())?;
        let mut right = Vec::with_capacity(alloc, self.right.len())?;
        let mut cells = Vec::with_capacity(alloc, width)?;
        put_watched(&mut left, &mut cells, &self.left, &self.cells)?;
        put_watched(&mut right, &mut cells, &self.right, &self.cells)?;
        Ok(PendingGoals {
            left,
            right,
            cells,
            spares: Vec::new(alloc),
        })
    }

    /// Gives all goals away, and keeps none. Its lists go with them, and those are used that were put by; but where many
    /// cells are those of goals that are gone, short lists go, if there is memory for them.
    pub fn give(&mut self, alloc: Global) -> PendingGoals
        ensures given { result ≡ self.old }
        ensures none { self.new ≡ record { left = []; right = [] } }
    {
        if self.has_many_cells() {
            if let Ok(short) = self.copy(alloc) {
                self.clear();
                return short;
            }
        }
        self.give_lists(alloc)
    }

    /// Whether there are many cells for so few goals. Takes no memory.
    fn has_many_cells(&self) -> bool {
        let goals = self.left.len().saturating_add(self.right.len());
        self.cells.len()
            > goals
                .saturating_mul(CELLS_OF_A_GOAL)
                .saturating_add(CELLS_OF_A_FORK)
    }

    /// Keeps no goal. Takes no memory.
    fn clear(&mut self)
        ensures { self.new ≡ record { left = []; right = [] } }
    {
        self.left.clear();
        self.right.clear();
        self.cells.clear();
    }

    /// Gives all goals away with their lists, and keeps none. Takes no memory.
    fn give_lists(&mut self, alloc: Global) -> PendingGoals
        ensures given { result ≡ self.old }
        ensures none { self.new ≡ record { left = []; right = [] } }
    {
        let Spare { goals, cells } = empty_lists(&mut self.spares, alloc);
        PendingGoals {
            left: exchanged(&mut self.left, goals),
            right: given(&mut self.right, alloc),
            cells: replace(&mut self.cells, cells),
            spares: Vec::new(alloc),
        }
    }

    /// Has these goals in place of its own, with their lists, and puts its own lists by. Where memory is wanted for
    /// that, they are let go of.
    pub fn take(&mut self, others: PendingGoals)
        ensures { self.new ≡ others }
    {
        let PendingGoals {
            left,
            right,
            cells,
            spares: _,
        } = others;
        let spare = Spare {
            goals: replace(&mut self.left, left),
            cells: replace(&mut self.cells, cells),
        };
        have(&mut self.right, right);
        put_by(&mut self.spares, spare);
    }

    /// Becomes the same as other goals. An error is want of memory, and no goal is left.
    pub fn fill_from(&mut self, others: &PendingGoals) -> Result<(), AllocError>
        ensures { OnOk result (self.new ≡ others.now) }
    {
        self.left.clear();
        self.right.clear();
        self.cells.clear();
        self.cells.extend_from_slice(&others.cells)?;
        fill(&mut self.left, &mut self.right, &others.left, &others.right)
    }
}

/// Whether a goal whose cells stand in a list sleeps in a row: it is watched, and they are free. Takes no memory.
#[inline(always)]
fn sleeps<N: Naming>(cells: &[u32], row: &PlainCells<N>, pending: PendingGoal) -> bool
    requires { IsWithin cells.now pending }
    ensures { result ≡ true → Sleeps row.now (watched_in cells.now pending) }
{
    match pending.watch {
        Watch::Unwatched => false,
        Watch::One { cell } => is_free(row, cell),
        Watch::Two { one, other } => is_free(row, one) && is_free(row, other),
        _ => sleeps_by_list(cells, row, pending),
    }
}

/// The same, of a goal that is watched by cells in a list. This is a call of its own, since most are not watched, or
/// by one cell or two. Takes no memory.
#[inline(never)]
fn sleeps_by_list<N: Naming>(cells: &[u32], row: &PlainCells<N>, pending: PendingGoal) -> bool
    requires { IsWithin cells.now pending }
    ensures { result ≡ true → Sleeps row.now (watched_in cells.now pending) }
{
    let Watch::Listed { range } = pending.watch else {
        return false;
    };
    all_free(row, &cells[range.first as usize..range.past as usize])
}

/// Whether all of these goals sleep in a row. Takes no memory.
fn all_sleep<N: Naming>(cells: &[u32], row: &PlainCells<N>, goals: &[PendingGoal]) -> bool
    requires { All (IsWithin cells.now) goals.now }
    ensures { result ≡ true → All (λ p. Sleeps row.now (watched_in cells.now p)) goals.now }
{
    for pending in goals {
        if !sleeps(cells, row, *pending) {
            return false;
        }
    }
    true
}
