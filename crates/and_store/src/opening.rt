//! How a store is opened.

ghost use Rattle.std.specs.Prelude.{◌≡◌, ◌<◌, ◌≤◌, ◌+◌, ◌-◌, ◌*◌, ◌^◌, ◌++◌, ◌∷◌, [], ℕ, map, length, replicate, All};
ghost use Rattle.std.specs.Prelude.{IsOk, IfOk, OnOk};
ghost use Rattle.and_model.specs.Words.{HasWord, word_of};
ghost use Rattle.and_cells.specs.Rows.{IsSound};
ghost use Rattle.and_model.specs.declared.limits.TheConstants.{MAX_LIMIT};
ghost use Rattle.and_store_laws.specs.AtWork.{opened};
ghost use Rattle.and_store.specs.Kept.{words_of, first_place_word};
ghost use Rattle.and_store.specs.Passes.{fresh, fresh_from, newly_dealt};
ghost use Rattle.and_store.specs.Sight.{opener, opening_of};

use crate::pass::{Pass, PassList};
use crate::plays::Deals;
use crate::rule::Start;
use crate::steps::{CLOSED, EMPTY};
use crate::store::{Rows, Store};
use crate::view::View;
use and_cells::{Naming, PlainCells};
use and_model::Ref;
use atomic_table::Seat;
use std::alloc::{AllocError, Global};
use std::snapshot::Snapshot;

/// Puts the words of cells at the end of the row.
fn push_words<N: Naming>(row: &mut Vec<u64>, cells: &PlainCells<N>) -> Result<(), AllocError>
    ensures words { OnOk result (row.new.items ≡ row.old.items ++ map word_of cells.now) }
    ensures named { OnOk result (All HasWord cells.now) }
{
    for cell in 0..cells.len() {
        row.push(cells.word(cell).to_word())?;
    }
    Ok(())
}

/// The word of the place of a cell that has this word at the opening.
fn place_of(word: Ref) -> u64
    ensures { result ≡ first_place_word word }
{
    if matches!(word, Ref::Free) {
        EMPTY
    } else {
        CLOSED
    }
}

/// Puts the places of cells at the end of the row.
fn push_places<N: Naming>(row: &mut Vec<u64>, cells: &PlainCells<N>) -> Result<(), AllocError>
    ensures { OnOk result (row.new.items ≡ row.old.items ++ map first_place_word cells.now) }
{
    for cell in 0..cells.len() {
        row.push(place_of(cells.word(cell)))?;
    }
    Ok(())
}

/// The words of the table of a store that is opened with these cells.
fn first_words<N: Naming>(
    alloc: Global,
    cells: &PlainCells<N>,
    words: u32,
    seats: u32,
    waiters: u32,
) -> Result<Vec<u64>, AllocError>
    requires words { (length cells.now ≤ words) × (words ≤ MAX_LIMIT) }
    requires few { (seats ≤ 64) × (waiters ≤ 4096) }
    ensures words { IfOk result (λ row. row.items ≡ words_of
        (opened (opening_of N.program (record { first = cells.now; words = words; seats = seats; waiters = waiters })))
        (replicate (2 * (seats * waiters)) 0)) }
    ensures sound { IsOk result → All HasWord cells.now × IsSound N.program cells.now }
{
    let words = words as usize;
    let goals = 2 * (seats as usize * waiters as usize);
    let mut row = Vec::with_capacity(alloc, words + words + goals + 2)?;
    push_words(&mut row, cells)?;
    row.resize(words, Ref::Free.to_word())?;
    push_places(&mut row, cells)?;
    row.resize(words + words + goals, EMPTY)?;
    row.push(cells.len() as u64)?;
    row.push(0)?;
    Ok(row)
}

impl<N: Naming> Store<N> {
    /// Opens a store of so many words that begins with these cells; the words behind them are free. So
    /// many passes come with it, and each may hang so many goals. An error is want of memory.
    pub fn open(
        alloc: Global,
        cells: &PlainCells<N>,
        words: u32,
        seats: u32,
        waiters: u32,
    ) -> Result<(Store<N>, PassList), AllocError>
        requires words { (length cells.now ≤ words) × (words ≤ MAX_LIMIT) }
        requires seats { (0 < seats) × (seats ≤ 64) }
        requires waiters { waiters ≤ 4096 }
        ensures about { IfOk result (λ r. r.0.about
            ≡ record { first = cells.now; words = words; seats = seats; waiters = waiters }) }
        ensures passes { IfOk result (λ r. r.1 ≡ fresh_from r.0 0 seats) }
    {
        let row = first_words(alloc, cells, words, seats, waiters)?;
        let start = Start {
            cells: Snapshot::of(cells),
            words,
            seats,
            waiters,
        };
        let (table, seat) = Rows::of_words(alloc, row.as_slice(), &start)?;
        let store = Store {
            table,
            first: cells.len(),
            words,
            seats,
            waiters,
            alloc,
        };
        let passes = store.deal(seat)?;
        Ok((store, passes))
    }

    /// A pass for a seat that was dealt just now.
    fn new_pass(&self, seat: Seat<(), View>, number: u32) -> Result<Pass, AllocError>
        requires same { seat.table_id ≡ self.now.table }
        requires empty { seat.me.1 ≡ [] }
        requires number { number < self.now.about.seats }
        requires dealt { newly_dealt self.now.about number seat.me.0 }
        ensures { IfOk result (λ pass. pass ≡ fresh self.now number) }
    {
        let waiters = self.seats as usize * self.waiters as usize;
        let taken = Vec::with_capacity(self.alloc, waiters)?;
        Ok(Pass {
            seat,
            number,
            hung: 0,
            is_refused: false,
            frames_end: 0,
            taken,
            handed: 0,
        })
    }

    /// The passes of a store that was opened just now, of which the first deals out the others.
    fn deal(&self, seat: Seat<(), View>) -> Result<PassList, AllocError>
        requires same { seat.table_id ≡ self.now.table }
        requires empty { seat.me.1 ≡ [] }
        requires opener { seat.me.0 ≡ opener self.now.about }
        ensures { IfOk result (λ passes. passes ≡ fresh_from self.now 0 self.now.about.seats) }
    {
        let mut first = seat;
        let mut passes = Vec::with_capacity(self.alloc, self.seats as usize)?;
        for made in 1..self.seats {
            let next = self.table.shared.split_seat::<Deals>(&mut first);
            passes.push(self.new_pass(next, made)?)?;
        }
        passes.insert(0, self.new_pass(first, 0)?)?;
        Ok(PassList { passes })
    }
}
