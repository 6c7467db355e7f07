//! Cells that may see a word late, as a thread sees the words that others set. Code that is generic over cells is tried
//! over them.

ghost use Rattle.std.specs.Prelude.{◌≡◌, ◌≢◌, ◌<◌, ◌≤◌, ◌++◌, ◌∷◌, [], ◌↔◌, ℕ, true, length, map, All, IfSome, IsNone};
ghost use Rattle.std.specs.Prelude.{IfOk, OnOk, OnErr, vec_len, vec_capacity};
ghost use Rattle.and_model.specs.declared.reference.Ref.{Ref};
ghost use Rattle.and_model.specs.Store.{AreDistinct, is_half};
ghost use Rattle.and_model.specs.Words.{HasWord};
ghost use Rattle.and_cells.specs.Seen.{IsSetTo, Knows, Finds, Fills, Misses, word_at};
ghost use Rattle.and_cells.specs.Rows.{IsSound};
ghost use Rattle.and_term_rows.specs.Late.{glimpse, known_of, Longer};

use and_cells::plain::is_unset;
use and_cells::{Bound, Cells, Naming, PlainCells, halves, joined};
use and_model::Ref;
use std::alloc::{AllocError, Global};

/// Cells over a row that they do not tell.
///
/// After `be_late` the next look at a word that is not known answers that it is free, as if another had
/// set it a moment later. A look that finds a word free takes memory, to note it; where that is wanting,
/// the look answers as if another had set the word to a half a moment before.
#[derive(Drop)]
pub struct LateCells<N: Naming> {
    /// The row, which contracts do not see.
    words: PlainCells<N>,
    /// What is known: places, their words, and whether they were set here. There is room for all.
    known: Vec<(u32, Ref, bool)>,
    /// The places that looks found free.
    missed: Vec<u32>,
    is_late: bool,
    ghost once: { AreDistinct (map (λ k. k.setting.place) (map known_of known.items)) },
    ghost so: { All (λ k. IsSetTo words k.0 k.1) known.items },
    ghost room: { length words ≤ vec_capacity known },
}

/// Puts what was learnt at the end of a list that has room for it.
fn put(known: &mut Vec<(u32, Ref, bool)>, learnt: (u32, Ref, bool))
    requires { vec_len known.old < vec_capacity known.old }
    ensures items { known.new.items ≡ known.old.items ++ learnt ∷ [] }
    ensures room { vec_capacity known.old ≤ vec_capacity known.new }
{
    if known.push(learnt).is_err() {
        unreachable!();
    }
}

impl<N: Naming> LateCells<N> {
    /// Cells over this row, of which nothing is known yet. An error is want of memory.
    pub fn over(alloc: Global, words: PlainCells<N>) -> Result<LateCells<N>, AllocError>
        ensures { IfOk result (λ cells. (cells.words ≡ words) × (cells.known.items ≡ []) × (cells.missed.items ≡ [])) }
    {
        let known = Vec::with_capacity(alloc, words.len() as usize)?;
        Ok(LateCells {
            words,
            known,
            missed: Vec::new(alloc),
            is_late: false,
        })
    }

    /// From now on, the next look at a word that is not known comes too early.
    pub fn be_late(&mut self)
        ensures words { self.new.words ≡ self.old.words }
        ensures known { self.new.known ≡ self.old.known }
        ensures missed { self.new.missed ≡ self.old.missed }
    {
        self.is_late = true;
    }

    /// How many words are known.
    pub fn known(&self) -> usize
        ensures { result ≡ length self.now.known.items }
    {
        self.known.len()
    }

    /// How many looks found a word free.
    pub fn missed(&self) -> usize
        ensures { result ≡ length self.now.missed.items }
    {
        self.missed.len()
    }

    /// What the word at a place is known to be.
    fn recall(&self, place: u32) -> Option<Ref>
        ensures some { let now = glimpse self.now.words self.now.known.items self.now.missed.items in
            IfSome result (Knows now place) }
        ensures none { let now = glimpse self.now.words self.now.known.items self.now.missed.items in
            IsNone result → (r : Ref) → Knows now place r → ⊥ }
    {
        for k in &self.known {
            if k.0 == place {
                return Some(k.1);
            }
        }
        None
    }

    /// Puts what the word at a place is at the end of what is known.
    fn learn(&mut self, place: u32, value: Ref, is_own: bool)
        requires place { place < length self.old.words }
        requires so { IsSetTo self.old.words place value }
        requires unknown { let old = glimpse self.old.words self.old.known.items self.old.missed.items in
            (r : Ref) → Knows old place r → ⊥ }
        ensures known { self.new.known.items ≡ self.old.known.items ++ (place, value, is_own) ∷ [] }
        ensures words { self.new.words ≡ self.old.words }
        ensures missed { self.new.missed.items ≡ self.old.missed.items }
    {
        put(&mut self.known, (place, value, is_own));
    }

    /// What the word at a place is, which is set.
    fn found(&mut self, place: u32) -> Ref
        requires place { place < length self.old.words }
        requires set { word_at self.old.words place ≢ Ref.Free }
        ensures found { let old = glimpse self.old.words self.old.known.items self.old.missed.items in
            let new = glimpse self.new.words self.new.known.items self.new.missed.items in
            Finds N.program place result old new }
        ensures words { self.new.words ≡ self.old.words }
        ensures sound { IsSound N.program self.old.words }
    {
        let word = self.words.word(place);
        match self.recall(place) {
            Some(known) => known,
            None => {
                self.learn(place, word, false);
                word
            }
        }
    }

    /// Notes that the word at a place was found free. An error is want of memory.
    fn note(&mut self, place: u32) -> Result<(), AllocError>
        ensures words { self.new.words ≡ self.old.words }
        ensures known { self.new.known.items ≡ self.old.known.items }
        ensures ok { OnOk result (self.new.missed.items ≡ self.old.missed.items ++ place ∷ []) }
        ensures unchanged { OnErr result (self.new.missed.items ≡ self.old.missed.items) }
    {
        self.missed.push(place)?;
        self.is_late = false;
        Ok(())
    }

    /// Finds the word at a place, which is not known, free or set too late, if there is memory.
    fn miss(&mut self, place: u32) -> Ref
        requires place { place < length self.old.words }
        requires unknown { let old = glimpse self.old.words self.old.known.items self.old.missed.items in
            (r : Ref) → Knows old place r → ⊥ }
        ensures found { let old = glimpse self.old.words self.old.known.items self.old.missed.items in
            let new = glimpse self.new.words self.new.known.items self.new.missed.items in
            result ≢ Ref.Free → Finds N.program place result old new }
        ensures free { let old = glimpse self.old.words self.old.known.items self.old.missed.items in
            let new = glimpse self.new.words self.new.known.items self.new.missed.items in
            result ≡ Ref.Free → Misses (length self.old.words) place old new }
    {
        match self.note(place) {
            Ok(()) => Ref::Free,
            Err(_) => {
                let word = self.words.fill(place, Ref::Half(0));
                self.learn(place, word, false);
                word
            }
        }
    }

    /// What the word at a place is, or is thought to be, where it is not known.
    fn discover(&mut self, place: u32) -> Ref
        requires place { place < length self.old.words }
        requires unknown { let old = glimpse self.old.words self.old.known.items self.old.missed.items in
            (r : Ref) → Knows old place r → ⊥ }
        ensures found { let old = glimpse self.old.words self.old.known.items self.old.missed.items in
            let new = glimpse self.new.words self.new.known.items self.new.missed.items in
            result ≢ Ref.Free → Finds N.program place result old new }
        ensures free { let old = glimpse self.old.words self.old.known.items self.old.missed.items in
            let new = glimpse self.new.words self.new.known.items self.new.missed.items in
            result ≡ Ref.Free → Misses (length self.old.words) place old new }
    {
        if self.is_late || is_unset(self.words.word(place)) {
            self.miss(place)
        } else {
            self.found(place)
        }
    }

    /// Sets the word at a place to a half, if it is free, and answers what the word is then.
    fn fill(&mut self, place: u32, half: Ref) -> Ref
        requires place { place < length self.old.words }
        requires half { HasWord half × (is_half half ≡ true) }
        ensures filled { let old = glimpse self.old.words self.old.known.items self.old.missed.items in
            let new = glimpse self.new.words self.new.known.items self.new.missed.items in
            Fills N.program place half result old new }
        ensures len { length self.new.words ≡ length self.old.words }
        ensures sound { IsSound N.program self.old.words }
    {
        let word = self.words.word(place);
        if !is_unset(word) {
            return self.found(place);
        }
        self.words.fill(place, half);
        self.learn(place, half, true);
        half
    }
}

impl<N: Naming> Cells for LateCells<N> {
    ghost use Rattle.std.proofs.Common.{rules};
    ghost use Rattle.std.specs.Prelude.{ℕ};
    ghost use Rattle.and_term_rows.specs.Growing.{longer_nothing, longer_on};

    ghost Row = { ℕ };

    ghost over = { λ cells. length cells.words };

    ghost shared = { λ words. words };

    ghost program = { N.program };

    ghost seen = { λ cells. glimpse cells.words cells.known.items cells.missed.items };

    ghost Grew = { λ old new. Longer old.known.items new.known.items };

    ghost coherent = { Prim.search rules };

    ghost grew_nothing = { λ cells. longer_nothing cells.known.items };

    ghost grew_on = { λ a b c. longer_on a.known.items b.known.items c.known.items };

    fn look(&mut self, cell: u32) -> Ref {
        match self.recall(cell) {
            Some(_) => self.found(cell),
            None => self.discover(cell),
        }
    }

    fn bind(&mut self, cell: u32, to: Ref) -> Bound {
        let word = self.words.word(cell);
        if !is_unset(word) {
            return Bound::Already(self.found(cell));
        }
        self.words.set(cell, to);
        self.learn(cell, to, true);
        Bound::Won
    }

    fn write_number(&mut self, pair: u32, value: i64) -> i64 {
        let (high, low) = halves(value);
        let high = self.fill(pair, high);
        let low = self.fill(pair + 1, low);
        joined(high, low)
    }

    fn number(&mut self, pair: u32) -> i64 {
        let _count = self.words.len();
        let high = self.found(pair);
        let low = self.found(pair + 1);
        joined(high, low)
    }
}
