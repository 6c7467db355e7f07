//! The goals that still hang, or whose waiters are kept, when a store is closed.

ghost use Rattle.std.specs.Prelude.{◌≡◌, ◌<◌, ◌≤◌, ◌+◌, ◌*◌, ◌++◌, ◌∷◌, [], ℕ, List, map, length, All, IfOk, OnOk};
ghost use Rattle.std.specs.Prelude.{slice_index_or, vec_capacity, false};
ghost use Rattle.std.specs.Slots.{slots_items, slots_len, IsFull};
ghost use Rattle.and_store.specs.Left.{is_among, either_one, handed_out, left_numbers, left_waiters, waiters_hung};
ghost use Rattle.and_store.specs.Left.{numbered, goal_at};
ghost use Rattle.and_store.specs.Passes.{numbers_from};

use crate::hanging::goal_of_words;
use crate::pass::{Pass, PassList};
use crate::store::Store;
use and_cells::Naming;
use and_model::Goal;
use atomic_table::Closed as Ended;
use std::alloc::{AllocError, Global};

/// Marks these waiters.
fn mark(marks: &mut [bool], waiters: &[u32])
    requires { All (λ w. w < length marks.old) waiters.now }
    ensures len { length marks.new ≡ length marks.old }
    ensures marked { (w : ℕ) → w < length marks.old
        → slice_index_or marks.new w false ≡ either_one (is_among w waiters.now) (slice_index_or marks.old w false) }
{
    for i in 0..waiters.len() {
        marks[waiters[i] as usize] = true;
    }
}

/// Puts those of so many waiters, from the first one on, at the end of the list that are not marked.
fn push_unmarked(
    left: &mut Vec<u32>,
    marks: &[bool],
    first: u32,
    count: u32,
) -> Result<(), AllocError>
    requires { (first + count ≤ length marks.now) × (length marks.now ≤ 262144) }
    ensures { OnOk result (left.new.items ≡ left.old.items ++ left_numbers marks.now (numbers_from first count)) }
{
    for i in 0..count {
        let waiter = first + i;
        if !marks[waiter as usize] {
            left.push(waiter)?;
        }
    }
    Ok(())
}

impl<N: Naming> Store<N> {
    /// Marks the waiters whose goals these passes have handed out.
    fn mark_handed_out(&self, passes: &PassList, marks: &mut [bool])
        requires store { All (λ p. p.store ≡ self.now) passes.now }
        requires long { length marks.old ≡ self.now.about.seats * self.now.about.waiters }
        requires none { (w : ℕ) → slice_index_or marks.old w false ≡ false }
        ensures len { length marks.new ≡ length marks.old }
        ensures marked { (w : ℕ) → w < length marks.old
            → slice_index_or marks.new w false ≡ is_among w (handed_out passes.now) }
    {
        let passes = passes.passes.as_slice();
        for i in 0..passes.len() {
            let pass = &passes[i];
            mark(marks, &pass.taken.as_slice()[..pass.handed]);
        }
    }

    /// Puts the waiters of a pass that are not marked at the end of the list, if the pass has this number.
    fn push_left_of(
        &self,
        pass: &Pass,
        number: u32,
        marks: &[bool],
        left: &mut Vec<u32>,
    ) -> Result<(), AllocError>
        requires store { pass.now.store ≡ self.now }
        requires long { length marks.now ≡ self.now.about.seats * self.now.about.waiters }
        ensures below { All (λ w. w < self.now.about.seats * self.now.about.waiters)
            (waiters_hung (numbered number (pass.now ∷ []))) }
        ensures pushed { OnOk result (left.new.items
            ≡ left.old.items ++ left_numbers marks.now (waiters_hung (numbered number (pass.now ∷ [])))) }
    {
        let own = pass.number;
        if own != number {
            return Ok(());
        }
        push_unmarked(left, marks, own * self.waiters, pass.hung)
    }

    /// Puts the waiters of the pass with this number that are not marked at the end of the list.
    fn push_left(
        &self,
        passes: &PassList,
        number: u32,
        marks: &[bool],
        left: &mut Vec<u32>,
    ) -> Result<(), AllocError>
        requires store { All (λ p. p.store ≡ self.now) passes.now }
        requires long { length marks.now ≡ self.now.about.seats * self.now.about.waiters }
        ensures below { OnOk result
            (All (λ w. w < self.now.about.seats * self.now.about.waiters) (waiters_hung (numbered number passes.now))) }
        ensures pushed { OnOk result (left.new.items
            ≡ left.old.items ++ left_numbers marks.now (waiters_hung (numbered number passes.now))) }
    {
        let passes = passes.passes.as_slice();
        for i in 0..passes.len() {
            self.push_left_of(&passes[i], number, marks, left)?;
        }
        Ok(())
    }

    /// The waiters whose goals were hung and not handed out, in their order. An error is want of memory.
    pub(crate) fn left_over(&self, passes: &PassList) -> Result<Vec<u32>, AllocError>
        requires store { All (λ p. p.store ≡ self.now) passes.now }
        ensures left { IfOk result (λ left. left.items ≡ left_waiters self.now.about.seats passes.now) }
        ensures below { IfOk result (λ left. All (λ w. w < self.now.about.seats * self.now.about.waiters) left.items) }
    {
        let waiters = self.seats as usize * self.waiters as usize;
        let mut marks = Vec::from_elem(self.alloc, false, waiters)?;
        self.mark_handed_out(passes, marks.as_mut_slice());
        let mut left = Vec::new(self.alloc);
        for number in 0..self.seats {
            self.push_left(passes, number, marks.as_slice(), &mut left)?;
        }
        Ok(left)
    }
}

/// The goals of these waiters, whose words begin at this place of a table.
pub(crate) fn goals_of(
    table: &Ended<(), Global>,
    place: usize,
    left: &[u32],
    goals: Vec<Goal>,
) -> Vec<Goal>
    requires within { All (λ w. place + (2 * w + 1) < slots_len table.now.words) left.now }
    requires full { IsFull table.now.words }
    requires room { (goals.items ≡ []) × (length left.now ≤ vec_capacity goals) }
    ensures { result.items ≡ map (λ w. goal_at (slots_items table.now.words) place w) left.now }
{
    let mut goals = goals;
    for i in 0..left.len() {
        let at = place + 2 * left[i] as usize;
        goals.push_reserved(goal_of_words(table.word(at), table.word(at + 1)));
    }
    goals
}
