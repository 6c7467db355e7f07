//! Plain cells: a row of words that one thread alone sets.

ghost use Rattle.std.specs.Prelude.{◌≡◌, ◌≢◌, ◌<◌, ◌≤◌, ◌+◌, ◌++◌, ◌↔◌, true, ℕ, suc, length, replicate, slice_set};
ghost use Rattle.std.specs.Prelude.{IsTrue, IfOk, OnOk, OnErr};
ghost use Rattle.and_model.specs.declared.reference.Ref.{Ref};
ghost use Rattle.and_model.specs.Store.{is_half};
ghost use Rattle.and_model.specs.Words.{HasWord, word_of};
ghost use Rattle.and_cells.specs.Ranges.{CanHold, IsInRange, IsPairInRange};
ghost use Rattle.and_cells.specs.Parts.{named};
ghost use Rattle.and_cells.specs.Ground.{EndsGround};
ghost use Rattle.and_cells.specs.Seen.{word_at};
ghost use Rattle.and_cells.specs.Numbers.{number_of};
ghost use Rattle.and_cells.specs.Rows.{IsSound, IsBelow, AreWords, ref_of, row_of, taken_back, all_set};
ghost use Rattle.and_model.specs.declared.limits.TheConstants.{MAX_WORDS};

use crate::cells::{Bound, Cells};
use crate::ground::{is_end_or_known, parts_are_known};
use crate::known::Known;
use crate::naming::Naming;
use crate::number::{halves, joined};
use and_model::{NodeNo, Ref};
use and_program::Loaded;
use std::alloc::{AllocError, Global};
use std::marker::{Model, PhantomData};

/// How many bases a word can tell apart.
const BASES: u64 = 1 << 23;

/// A row of words that one thread alone sets, so that contracts see the row itself. It takes 8 bytes
/// a word, and keeps the allocator that it was made with. References that were seen to be ground are known until
/// a cell below them is made free again.
pub struct PlainCells<N: Naming> {
    words: Vec<u64>,
    /// References whose terms are ground.
    known: Known,
    of: PhantomData<N>,
}

// By hand, so that it is proved once, here.
impl<N: Naming> Drop for PlainCells<N> {
    fn drop(self) {
        let PlainCells {
            words: _,
            known: _,
            of: _,
        } = self;
    }
}

impl<N: Naming> Model for PlainCells<N> {
    ghost use Rattle.std.specs.Prelude.{List};
    ghost use Rattle.and_model.specs.declared.reference.Ref.{Ref};
    ghost use Rattle.and_cells.specs.Rows.{row_of, AreWords, IsSound};
    ghost use Rattle.and_cells.specs.Ground.{AreFounded};

    ghost Value = { List Ref };

    ghost view = { λ cells. row_of cells.words.items };

    ghost invariant = { λ cells. AreWords cells.words.items × IsSound N.program (row_of cells.words.items)
        × AreFounded N.program (row_of cells.words.items) cells.known };
}

/// Whether a word is free. Takes no memory.
pub fn is_unset(word: Ref) -> bool
    ensures { IsTrue result ↔ (word ≡ Ref.Free) }
{
    matches!(word, Ref::Free)
}

/// The reference that is kept in a word of a row. It is the commonest step of all, so that nothing is looked at that
/// holds of each such word anyway. Takes no memory.
#[inline(always)]
fn kept_in(word: u64) -> Ref
    requires { HasWord (ref_of word) × (word_of (ref_of word) ≡ word) }
    ensures { result ≡ ref_of word }
{
    let named = word / 8;
    match word % 8 {
        1 => Ref::Cell(named as u32),
        2 => Ref::Node {
            node: NodeNo((named / BASES) as u32),
            base: (named % BASES) as u32,
        },
        3 => Ref::Number(named as u32),
        4 => Ref::Half(named as u32),
        _ => Ref::Free,
    }
}

/// Whether the reference that is kept in a word is `Free`. Takes no memory.
#[inline(always)]
fn is_free_word(word: u64) -> bool
    requires { HasWord (ref_of word) × (word_of (ref_of word) ≡ word) }
    ensures { IsTrue result ↔ (ref_of word ≡ Ref.Free) }
{
    word == 0
}

/// Whether the reference that is kept in a word is a structure or a number, and begins below the floor. Takes no memory.
#[inline(always)]
fn is_word_below(word: u64, floor: u32) -> bool
    ensures { result ≡ true → IsBelow floor (ref_of word) }
{
    // Structures are of kind 2, and numbers of kind 3.
    let ends = word % 8 / 2 == 1;
    ends && word / 8 % BASES < floor as u64
}

/// Makes the words of these cells free, as far as they are there.
fn set_free(words: &mut Vec<u64>, cells: &[u32])
    ensures { words.new.items ≡ all_set 0 cells.now words.old.items }
{
    for cell in cells {
        let cell = *cell as usize;
        if cell < words.len() {
            words[cell] = Ref::Free.to_word();
        }
    }
}

impl<N: Naming> PlainCells<N> {
    /// So many words, all of them free. An error is want of memory.
    pub fn with(alloc: Global, words: u32) -> Result<PlainCells<N>, AllocError>
        requires { words ≤ MAX_WORDS }
        ensures { IfOk result (λ cells. cells ≡ replicate words Ref.Free) }
    {
        let words = Vec::from_elem(alloc, Ref::Free.to_word(), words as usize)?;
        Ok(PlainCells {
            words,
            known: Known::new(alloc),
            of: PhantomData,
        })
    }

    /// The row that is kept in these words. Takes no memory.
    pub(crate) fn of_words(words: Vec<u64>) -> PlainCells<N>
        requires words { AreWords words.items }
        requires sound { IsSound N.program (row_of words.items) }
        ensures { result ≡ row_of words.items }
    {
        let alloc = *words.allocator();
        PlainCells {
            words,
            known: Known::new(alloc),
            of: PhantomData,
        }
    }

    /// How many words there are. Takes no memory.
    pub fn len(&self) -> u32
        ensures value { result ≡ length self.now }
        ensures sound { IsSound N.program self.now }
    {
        self.words.len() as u32
    }

    /// Puts so many free words at the end. An error is want of memory.
    pub fn extend(&mut self, by: u32) -> Result<(), AllocError>
        requires { length self.old + by ≤ MAX_WORDS }
        ensures ok { OnOk result (self.new ≡ self.old ++ replicate by Ref.Free) }
        ensures unchanged { OnErr result (self.new ≡ self.old) }
    {
        let len = self.words.len() + by as usize;
        self.words.resize(len, Ref::Free.to_word())?;
        Ok(())
    }

    /// Sets these cells free and cuts the row off behind so many words, so that it is what it was before
    /// they were set and more words were put behind. Cells behind the cut may be named too. Takes no memory.
    pub fn take_back(&mut self, cells: &[u32], words: u32)
        requires { IsSound N.program (taken_back self.old cells.now words) }
        ensures { self.new ≡ taken_back self.old cells.now words }
    {
        let end = self.len();
        self.known.forget(cells);
        self.known.forget_between(words, end);
        self.words.truncate(words as usize);
        set_free(&mut self.words, cells);
    }

    /// Whether a reference is known to be ground, so that no path from it comes to a free cell. `false` says
    /// nothing. Takes no memory.
    pub fn is_ground(&self, at: Ref) -> bool
        ensures { result ≡ true → EndsGround N.program self.now at }
    {
        self.known.has(at)
    }

    /// Notes that a reference is ground, where it is seen at once by what is known so far. An error is want of memory.
    pub fn note_ground(&mut self, loaded: &Loaded, at: Ref) -> Result<(), AllocError>
        requires program { N.program ≡ named loaded.now }
        requires in_range { IsInRange N.program (length self.old) at }
        ensures { self.new ≡ self.old }
    {
        match at {
            Ref::Cell(cell) => self.note_cell(loaded, cell),
            Ref::Node { node, base } => self.note_structure(loaded, node, base),
            Ref::Free => Ok(()),
            Ref::Number(_) => Ok(()),
            Ref::Half(_) => Ok(()),
        }
    }

    /// The same of a cell.
    fn note_cell(&mut self, loaded: &Loaded, cell: u32) -> Result<(), AllocError>
        requires program { N.program ≡ named loaded.now }
        requires in_range { cell < length self.old }
        ensures { self.new ≡ self.old }
    {
        let word = self.word(cell);
        if self.known.has(Ref::Cell(cell)) || !is_end_or_known(loaded, &self.known, word) {
            return Ok(());
        }
        self.known.put(Ref::Cell(cell))
    }

    /// The same of a structure.
    fn note_structure(&mut self, loaded: &Loaded, node: NodeNo, base: u32) -> Result<(), AllocError>
        requires program { N.program ≡ named loaded.now }
        requires in_range { IsInRange N.program (length self.old) (Ref.Node node base) }
        ensures { self.new ≡ self.old }
    {
        let at = Ref::Node { node, base };
        if self.known.has(at) || !parts_are_known(loaded, &self.known, node, base) {
            return Ok(());
        }
        self.known.put(at)
    }

    /// Another row of the same words, on the same allocator, of which no reference is known to be ground. An error is
    /// want of memory.
    pub fn copy(&self) -> Result<PlainCells<N>, AllocError>
        ensures { IfOk result (λ cells. cells ≡ self.now) }
    {
        let alloc = *self.words.allocator();
        let words = Vec::from_slice(alloc, &self.words)?;
        Ok(PlainCells {
            words,
            known: Known::new(alloc),
            of: PhantomData,
        })
    }

    /// The word at a place. Takes no memory.
    pub fn word(&self, place: u32) -> Ref
        requires { place < length self.now }
        ensures value { result ≡ word_at self.now place }
        ensures named { HasWord result }
        ensures sound { IsSound N.program self.now }
    {
        kept_in(self.words[place as usize])
    }

    /// The number that a pair of words holds; a word that is no half counts as 0. Takes no memory.
    pub fn held_number(&self, pair: u32) -> i64
        requires { IsPairInRange (length self.now) pair }
        ensures value { result ≡ number_of (word_at self.now pair) (word_at self.now (suc pair)) }
        ensures sound { IsSound N.program self.now }
    {
        joined(self.word(pair), self.word(pair + 1))
    }

    /// Sets the word at a place, which is free. Takes no memory.
    pub fn set(&mut self, place: u32, to: Ref)
        requires place { place < length self.old }
        requires kept { HasWord to }
        requires free { word_at self.old place ≡ Ref.Free }
        requires fits { CanHold N.program (length self.old) place to }
        requires written { (pair : ℕ) → to ≡ Ref.Number pair
            → (word_at self.old pair ≢ Ref.Free) × (word_at self.old (suc pair) ≢ Ref.Free) }
        ensures { self.new ≡ slice_set self.old place to }
    {
        self.words[place as usize] = to.to_word();
    }

    /// Whether the word at a place is free. Takes no memory.
    #[inline(always)]
    pub fn is_free(&self, place: u32) -> bool
        requires { place < length self.now }
        ensures { IsTrue result ↔ (word_at self.now place ≡ Ref.Free) }
    {
        is_free_word(self.words[place as usize])
    }

    /// Whether the word at a place is a structure whose frame begins below the floor, or a number. `false` says
    /// nothing. Takes no memory.
    #[inline(always)]
    pub fn is_below(&self, place: u32, floor: u32) -> bool
        requires { place < length self.now }
        ensures below { result ≡ true → IsBelow floor (word_at self.now place) }
        ensures sound { IsSound N.program self.now }
    {
        is_word_below(self.words[place as usize], floor)
    }

    /// Sets the word at a place, which is free, to that of another. Takes no memory.
    #[inline(always)]
    pub fn set_as(&mut self, place: u32, from: u32)
        requires place { place < length self.old }
        requires from { from < length self.old }
        requires free { word_at self.old place ≡ Ref.Free }
        requires fits { CanHold N.program (length self.old) place (word_at self.old from) }
        requires written { (pair : ℕ) → word_at self.old from ≡ Ref.Number pair
            → (word_at self.old pair ≢ Ref.Free) × (word_at self.old (suc pair) ≢ Ref.Free) }
        ensures { self.new ≡ slice_set self.old place (word_at self.old from) }
    {
        self.words[place as usize] = self.words[from as usize];
    }

    /// Sets the word at a place to a half, if it is free, and answers what the word is then. Takes no
    /// memory.
    pub fn fill(&mut self, place: u32, half: Ref) -> Ref
        requires place { place < length self.old }
        requires half { HasWord half × (is_half half ≡ true) }
        ensures free { word_at self.old place ≡ Ref.Free
            → (self.new ≡ slice_set self.old place half) × (result ≡ half) }
        ensures found { word_at self.old place ≢ Ref.Free
            → (self.new ≡ self.old) × (result ≡ word_at self.old place) }
        ensures fits { CanHold N.program (length self.old) place result }
        ensures len { length self.new ≡ length self.old }
        ensures sound { IsSound N.program self.old }
    {
        let word = self.word(place);
        if is_unset(word) {
            self.set(place, half);
            return half;
        }
        word
    }
}

impl<N: Naming> Cells for PlainCells<N> {
    ghost use Rattle.std.proofs.Common.{rules};
    ghost use Rattle.and_cells.specs.Rows.{plain};

    ghost Row = { Unit {0} };

    ghost over = { λ _. tt };

    ghost shared = { λ _. 0 };

    ghost program = { N.program };

    ghost seen = { plain };

    ghost Grew = { λ _ _. Unit {0} };

    ghost coherent = { Prim.search rules };

    ghost grew_nothing = { λ _. tt };

    ghost grew_on = { λ _ _ _ _ _. tt };

    fn look(&mut self, cell: u32) -> Ref {
        self.word(cell)
    }

    fn bind(&mut self, cell: u32, to: Ref) -> Bound {
        let word = self.word(cell);
        if is_unset(word) {
            self.set(cell, to);
            return Bound::Won;
        }
        Bound::Already(word)
    }

    fn write_number(&mut self, pair: u32, value: i64) -> i64 {
        let (high, low) = halves(value);
        let high = self.fill(pair, high);
        let low = self.fill(pair + 1, low);
        joined(high, low)
    }

    fn number(&mut self, pair: u32) -> i64 {
        self.held_number(pair)
    }
}
