//! Rows that are taken back, and rows that are taken over, as worked examples.

ghost use Rattle.std.specs.Prelude.{◌≡◌, OnOk};
ghost use Rattle.and_cells.specs.declared.cells.Bound.{Bound};

use and_cells::{Bound, Cells, LooseCells, PlainCells};
use and_model::Ref;
use and_rows::{Untold, line};
use std::alloc::Global;
use std::marker::Brand;

type Plain = PlainCells<Brand>;

/// An error where the word was set before.
fn won(bound: Bound) -> Result<(), Untold>
    ensures { OnOk result (bound ≡ Bound.Won) }
{
    match bound {
        Bound::Won => Ok(()),
        Bound::Already(_) => Err(Untold::Malformed),
    }
}

/// Cell 1 is set, then there are two more words, and 2 and 4 are set and taken back: how many words there are then,
/// and what 1 and 2 are.
pub(crate) fn taken_back(alloc: Global) -> Result<String, Untold> {
    let mut cells = Plain::with(alloc, 3)?;
    let first = cells.bind(1, Ref::Cell(0));
    won(first)?;
    cells.extend(2)?;
    let second = cells.bind(2, Ref::Cell(0));
    won(second)?;
    let third = cells.bind(4, Ref::Cell(2));
    won(third)?;
    cells.take_back(&[2, 4], 3);
    let kept = cells.word(1);
    let freed = cells.word(2);
    let words = cells.len();
    line(alloc, &(words, kept, freed))
}

/// A row of three words that is taken over as plain cells, and a number that is written there.
pub(crate) fn taken_over(alloc: Global) -> Result<String, Untold> {
    let mut words = Vec::new(alloc);
    words.push(0)?;
    words.push(0)?;
    words.push(0)?;
    let loose = LooseCells::of_words(words);
    let count = loose.len();
    let last = loose.word(2);
    let mut cells: Plain = loose.into_plain();
    let held = cells.held_number(0);
    let written = cells.write_number(0, i64::MIN);
    let read = cells.held_number(0);
    line(alloc, &((count, last), cells.len(), (held, written, read)))
}
