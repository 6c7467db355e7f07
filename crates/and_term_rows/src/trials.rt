//! Trials over plain cells, as worked examples.

use and_cells::{Cells, PlainCells};
use and_model::Ref;
use and_overlay::{Overlay, Scratch};
use and_rows::{Untold, line};
use std::alloc::Global;
use std::marker::Brand;

type Plain = PlainCells<Brand>;

/// The first two places of a list, and how many there are.
fn first_two(places: &[u32]) -> (Option<u32>, Option<u32>, usize) {
    let first = places.first().copied();
    let second = places.get(1).copied();
    (first, second, places.len())
}

/// A trial that sets a cell of its frame and one below, and then begins again: what its calls answer, which places it
/// set and which it found free; and what a cell is behind it.
pub(crate) fn kept_apart(alloc: Global) -> Result<String, Untold> {
    let mut cells = Plain::with(alloc, 3)?;
    let mut scratch = Scratch::new(alloc);
    scratch.make_room(4)?;
    let words = cells.len();
    let mut trial = Overlay::over(&mut cells, words, 1, &mut scratch);
    let framed = trial.bind(3, Ref::Cell(1));
    let below = trial.bind(1, Ref::Cell(0));
    let look = trial.look(1);
    let bound = first_two(trial.bound());
    let looked = first_two(trial.looked());
    trial.begin_again(1);
    let first = trial.look(1);
    let second = trial.look(2);
    let again = first_two(trial.looked());
    let word = cells.word(1);
    line(
        alloc,
        &(
            (framed, below, look, bound, looked),
            (first, second, again),
            word,
        ),
    )
}

/// A trial that sets the cell 1, again after the cell 2 was set, and again after 1 was.
pub(crate) fn again(alloc: Global) -> Result<String, Untold> {
    let mut cells = Plain::with(alloc, 3)?;
    let mut scratch = Scratch::new(alloc);
    scratch.make_room(3)?;
    let words = cells.len();
    let mut trial = Overlay::over(&mut cells, words, 0, &mut scratch);
    let first = trial.bind(1, Ref::Cell(0));
    let looked = first_two(trial.looked());

    let other = cells.bind(2, Ref::Cell(0));
    let words = cells.len();
    let mut trial = Overlay::over(&mut cells, words, 0, &mut scratch);
    let second = trial.bind(1, Ref::Cell(0));

    let own = cells.bind(1, Ref::Cell(0));
    let words = cells.len();
    let mut trial = Overlay::over(&mut cells, words, 0, &mut scratch);
    let third = trial.bind(1, Ref::Cell(0));
    line(alloc, &((first, looked), (other, second), (own, third)))
}
