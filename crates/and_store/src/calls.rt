//! The calls by which a pass looks at words and sets them.

ghost use Rattle.std.specs.Prelude.{◌≡◌, ◌≢◌, ◌<◌, ◌≤◌, ◌+◌, ◌^◌, ◌⊎◌, ◌↔◌, ℕ, suc, [], ◌∷◌, true, length, IfSome};
ghost use Rattle.std.specs.Prelude.{IfNone, IsTrue, IsNone, None};
ghost use Rattle.and_model.specs.Store.{fails_of, is_half};
ghost use Rattle.and_model.specs.Words.{HasWord, word_of};
ghost use Rattle.and_model.specs.declared.reference.Ref.{Ref};
ghost use Rattle.and_cells.specs.Numbers.{number_of, high_half, low_half};
ghost use Rattle.and_cells.specs.Ranges.{IsInRange, IsPairInRange, CanHold};
ghost use Rattle.and_store_laws.specs.Steps.{KnowsWritten};
ghost use Rattle.and_store.specs.Calls.{Sees, LooksAt, SetsCell, Wins, FillsWord, WritesPair, ReadsPair, TakesFrame};
ghost use Rattle.and_store.specs.Calls.{GetsNone, Fails, FindsFailed};

use crate::pass::Pass;
use crate::steps::FIRST_WAITER;
use crate::store::Store;
use and_cells::{Bound, Naming, halves, joined};
use and_model::Ref;

/// The reference that has this word.
fn reference(word: u64) -> Ref
    requires { (r : Ref) × HasWord r × (word_of r ≡ word) }
    ensures { (r : Ref) → HasWord r → word_of r ≡ word → result ≡ r }
{
    match Ref::of_word(word) {
        Some(named) => named,
        None => unreachable!(),
    }
}

impl<N: Naming> Store<N> {
    /// What the word of a cell is. Takes no memory.
    pub fn look(&self, pass: &mut Pass, cell: u32) -> Ref
        requires store { pass.old.store ≡ self.now }
        requires cell { cell < self.now.about.words }
        ensures same { (pass.new.store ≡ pass.old.store) × (pass.new.kept ≡ pass.old.kept) }
        ensures looks { LooksAt N.program self.now.about cell result pass.old.pass pass.new.pass }
    {
        let found = self.look_at_cell(&mut pass.seat, cell);
        reference(found)
    }

    /// Sets the word of a cell, if it is free, and then closes the waiting place beside it. The pass
    /// keeps the waiter that was there, until its goal is handed out. Takes no memory.
    pub fn bind(&self, pass: &mut Pass, cell: u32, to: Ref) -> Bound
        requires store { pass.old.store ≡ self.now }
        requires cell { cell < self.now.about.words }
        requires to { IsInRange N.program self.now.about.words to }
        requires falls { (other : ℕ) → to ≡ Ref.Cell other → other < cell }
        requires written { (pair : ℕ) → to ≡ Ref.Number pair → KnowsWritten pass.old.pass.known pair }
        ensures store { pass.new.store ≡ pass.old.store }
        ensures won { result ≡ Bound.Won → Wins self.now.about cell to pass.old pass.new }
        ensures already { (r : Ref) → result ≡ Bound.Already r
            → LooksAt N.program self.now.about cell r pass.old.pass pass.new.pass × (r ≢ Ref.Free)
            × (pass.new.kept ≡ pass.old.kept) }
    {
        let found = self.set_cell(&mut pass.seat, cell, to);
        if found != 0 {
            return Bound::Already(reference(found));
        }
        let place = self.close_place(&mut pass.seat, cell);
        if place >= FIRST_WAITER {
            pass.taken.push_reserved((place - FIRST_WAITER) as u32);
        }
        Bound::Won
    }

    /// Sets a word to a half, if it is free, and answers what the word is then.
    fn fill(&self, pass: &mut Pass, place: u32, half: Ref) -> Ref
        requires store { pass.old.store ≡ self.now }
        requires place { place < self.now.about.words }
        requires half { HasWord half × (is_half half ≡ true) }
        ensures same { (pass.new.store ≡ pass.old.store) × (pass.new.kept ≡ pass.old.kept) }
        ensures fills { FillsWord N.program self.now.about place half result pass.old.pass pass.new.pass }
    {
        let found = self.set_cell(&mut pass.seat, place, half);
        if found != 0 {
            return reference(found);
        }
        half
    }

    /// Writes a number into a pair of words, as far as these are free. It answers the number that the
    /// pair holds then. Takes no memory.
    pub fn write_number(&self, pass: &mut Pass, pair: u32, value: i64) -> i64
        requires store { pass.old.store ≡ self.now }
        requires pair { IsPairInRange self.now.about.words pair }
        ensures same { (pass.new.store ≡ pass.old.store) × (pass.new.kept ≡ pass.old.kept) }
        ensures known { KnowsWritten pass.new.pass.known pair }
        ensures written { WritesPair N.program self.now.about pair value result pass.old.pass pass.new.pass }
    {
        let _words = self.words;
        let (high, low) = halves(value);
        let high = self.fill(pass, pair, high);
        let low = self.fill(pass, pair + 1, low);
        joined(high, low)
    }

    /// The number that a pair of words holds, which the pass knows to be written. Takes no memory.
    pub fn number(&self, pass: &mut Pass, pair: u32) -> i64
        requires store { pass.old.store ≡ self.now }
        requires pair { IsPairInRange self.now.about.words pair }
        requires written { KnowsWritten pass.old.pass.known pair }
        ensures same { (pass.new.store ≡ pass.old.store) × (pass.new.kept ≡ pass.old.kept) }
        ensures read { ReadsPair N.program self.now.about pair result pass.old.pass pass.new.pass }
    {
        let _words = self.words;
        let high = self.look(pass, pair);
        let low = self.look(pass, pair + 1);
        joined(high, low)
    }

    /// Raises the mark by the weight of a frame, and answers where the frame begins. `None` where the
    /// frame does not fit in the words, and from then on; then no step is made. Takes no memory.
    pub fn take_frame(&self, pass: &mut Pass, weight: u32) -> Option<u32>
        requires store { pass.old.store ≡ self.now }
        requires weight { weight ≤ 4194304 }
        ensures same { (pass.new.store ≡ pass.old.store) × (pass.new.kept ≡ pass.old.kept) }
        ensures some { IfSome result (λ base. TakesFrame self.now.about.words base weight pass.old.pass pass.new.pass) }
        ensures none { IfNone result (GetsNone self.now.about.words weight pass.old.pass pass.new.pass) }
    {
        if pass.is_refused {
            return None;
        }
        let mark = self.raise_mark(&mut pass.seat, weight);
        if mark + weight as u64 > self.words as u64 {
            pass.is_refused = true;
            return None;
        }
        pass.frames_end = mark as u32 + weight;
        Some(mark as u32)
    }

    /// Tells all passes that this branch has failed. Takes no memory.
    pub fn fail(&self, pass: &mut Pass)
        requires store { pass.old.store ≡ self.now }
        ensures same { (pass.new.store ≡ pass.old.store) × (pass.new.kept ≡ pass.old.kept) }
        ensures fails { Fails pass.old.pass pass.new.pass }
    {
        self.raise_fail(&mut pass.seat);
    }

    /// Whether some pass has called `fail`. Takes no memory.
    pub fn failed(&self, pass: &mut Pass) -> bool
        requires store { pass.old.store ≡ self.now }
        ensures same { (pass.new.store ≡ pass.old.store) × (pass.new.kept ≡ pass.old.kept) }
        ensures found { FindsFailed result pass.old.pass pass.new.pass }
    {
        self.look_at_fail(&mut pass.seat) != 0
    }
}
