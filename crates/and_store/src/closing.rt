//! How a store is closed.

ghost use Rattle.std.specs.Prelude.{◌≡◌, ◌≢◌, ◌<◌, ◌≤◌, ◌-◌, ◌⊎◌, ◌∷◌, [], ℕ, length, take, slice_index, vec_capacity};
ghost use Rattle.std.specs.Prelude.{All, IfOk, IfErr};
ghost use Rattle.std.specs.Slots.{slots_items, slots_len, IsFull};
ghost use Rattle.and_store.specs.Ended.{Closes, IsGathered, LastEnds, journal_in, passes_of};
ghost use Rattle.and_store.specs.Left.{LeavesGoals};
ghost use Rattle.and_store.specs.Told.{IsAlone};

use crate::leaving::goals_of;
use crate::pass::{Pass, PassList};
use crate::plays::Gathers;
use crate::store::Store;
use crate::view::View;
use and_cells::{LooseCells, Naming};
use and_model::Goal;
use atomic_table::{Badge, Closed as Ended, Seat};
use std::alloc::Global;
use std::snapshot::Snapshot;

/// What a store leaves.
#[derive(Drop)]
pub struct Closed {
    /// The row, up to the end of the cells of the opening, of the last frame that was given,
    /// or of the last word that was set, whichever lies furthest.
    pub cells: LooseCells,
    /// Whether some pass has called `fail`.
    pub failed: bool,
    /// The goals that were hung and handed to nobody, in the order of their waiters.
    pub waiting: Vec<Goal>,
    /// What the passes have seen. It takes no memory.
    pub(crate) last: Snapshot<Badge<View>>,
}

/// The seat of a pass.
fn into_seat(pass: Pass) -> Seat<(), View>
    ensures table { (result.table_id ≡ pass.store.table) × (result.me.1 ≡ []) }
    ensures alone { IsAlone result.me.0 × (result.me.0.noted ≡ []) }
    ensures gathered { IsGathered pass.store.about result.me.0 (pass ∷ []) }
{
    let Pass {
        seat,
        number: _,
        hung: _,
        is_refused: _,
        frames_end: _,
        taken: _,
        handed: _,
    } = pass;
    seat
}

impl<N: Naming> Store<N> {
    /// One seat that has taken in those of all passes.
    fn gather(&self, mut passes: PassList) -> Seat<(), View>
        requires some { passes ≢ [] }
        requires store { All (λ p. p.store ≡ self.now) passes }
        ensures table { (result.table_id ≡ self.now.table) × (result.me.1 ≡ []) }
        ensures gathered { IsGathered self.now.about result.me.0 passes }
    {
        let mut all = match passes.pop() {
            Some(last) => into_seat(last),
            None => unreachable!(),
        };
        while let Some(pass) = passes.pop() {
            let mut seat = into_seat(pass);
            self.table.shared.join_seat::<Gathers>(&mut seat, all);
            all = seat;
        }
        all
    }
}

/// Where the row ends: behind the last word that is set, but not before this end.
fn row_end(table: &Ended<(), Global>, least: u32, words: u32) -> u32
    requires within { (least ≤ words) × (words ≤ slots_len table.now.words) }
    requires full { IsFull table.now.words }
    ensures within { (least ≤ result) × (result ≤ words) }
    ensures free { (place : ℕ) → result ≤ place → place < words → slice_index (slots_items table.now.words) place ≡ 0 }
    ensures no_longer { (result ≡ least)
        ⊎ ((0 < result) × (slice_index (slots_items table.now.words) (result - 1) ≢ 0)) }
{
    let mut end = words;
    while end > least && table.word(end as usize - 1) == 0 {
        end -= 1;
    }
    end
}

/// The words of a table up to an end. There is room for them.
fn copy_words(table: &Ended<(), Global>, end: u32, words: Vec<u64>) -> Vec<u64>
    requires within { end ≤ slots_len table.now.words }
    requires full { IsFull table.now.words }
    requires room { (words.items ≡ []) × (end ≤ vec_capacity words) }
    ensures { result.items ≡ take end (slots_items table.now.words) }
{
    let mut words = words;
    for place in 0..end {
        words.push_reserved(table.word(place as usize));
    }
    words
}

impl<N: Naming> Store<N> {
    /// The end of the opening's cells and of the last frame that was given.
    fn last_end(&self, passes: &PassList) -> u32
        requires store { All (λ p. p.store ≡ self.now) passes.now }
        ensures ends { LastEnds self.now.about (passes_of passes.now) result }
        ensures fits { result ≤ self.now.about.words }
    {
        let mut end = self.first;
        let passes = passes.passes.as_slice();
        for i in 0..passes.len() {
            let pass = &passes[i];
            if pass.frames_end > end {
                end = pass.frames_end;
            }
        }
        end
    }

    /// Closes a store, with all its passes. Refused for want of memory, all is handed back.
    pub fn close(self, passes: PassList) -> Result<Closed, (Store<N>, PassList)>
        requires store { All (λ p. p.store ≡ self) passes }
        requires all { length passes ≡ self.about.seats }
        ensures ok { IfOk result (λ closed.
            Closes N.program self.about (passes_of passes) closed.cells closed.failed
            (journal_in closed.last.value.views)) }
        ensures waiting { IfOk result (λ closed. LeavesGoals N.program self.about passes closed.waiting.items) }
        ensures refused { IfErr result (λ back. (back.0 ≡ self) × (back.1 ≡ passes)) }
    {
        let mut words = Vec::new(self.alloc);
        let mut goals = Vec::new(self.alloc);
        if words.reserve(self.words as usize).is_err() {
            return Err((self, passes));
        }
        let Ok(left) = self.left_over(&passes) else {
            return Err((self, passes));
        };
        if goals.reserve(left.len()).is_err() {
            return Err((self, passes));
        }
        let least = self.last_end(&passes);
        let badge = self.gather(passes).into_badge();
        let last = Snapshot::of(&badge);
        let place = self.goals_place();
        let fail = self.mark_place() + 1;
        let count = self.words;
        let Store { table, .. } = self;
        let table = table.close_with(badge.into_seat());
        let end = row_end(&table, least, count);
        let words = copy_words(&table, end, words);
        let cells = LooseCells::of_words(words);
        let waiting = goals_of(&table, place, left.as_slice(), goals);
        let failed = table.word(fail) != 0;
        table.free();
        Ok(Closed {
            cells,
            failed,
            waiting,
            last,
        })
    }
}
