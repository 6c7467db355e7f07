//! Calls on plain cells.

ghost use Rattle.std.specs.Prelude.{◌≡◌};
ghost use Rattle.and_cells.specs.Parts.{named};

use crate::frames::set;
use and_cells::{Cells, Naming, PlainCells, deref};
use and_model::Ref;
use and_program::Loaded;
use and_rows::{Numbers, Untold, line};
use std::alloc::Global;

/// Another row of so many free cells.
pub(crate) fn row<N: Naming>(
    alloc: Global,
    cells: &mut PlainCells<N>,
    words: u32,
) -> Result<String, Untold> {
    *cells = PlainCells::with(alloc, words.min(1_000_000))?;
    Ok(String::new(alloc))
}

/// Puts free cells behind the others, and tells how many there are.
pub(crate) fn grow<N: Naming>(
    alloc: Global,
    cells: &mut PlainCells<N>,
    by: u32,
) -> Result<String, Untold> {
    if cells.len() > 1_000_000 || by > 1_000_000 {
        return Err(Untold::Malformed);
    }
    cells.extend(by)?;
    line(alloc, &cells.len())
}

/// Sets a cell to one before it.
pub(crate) fn bind<N: Naming>(
    alloc: Global,
    cells: &mut PlainCells<N>,
    cell: u32,
    to: u32,
) -> Result<String, Untold> {
    if cell >= cells.len() || to >= cell {
        return Err(Untold::Malformed);
    }
    line(alloc, &cells.bind(cell, Ref::Cell(to)))
}

/// What the word of a cell is, and where the cell leads.
pub(crate) fn look<N: Naming>(
    alloc: Global,
    cells: &mut PlainCells<N>,
    cell: u32,
) -> Result<String, Untold> {
    if cell >= cells.len() {
        return Err(Untold::Malformed);
    }
    let word = cells.word(cell);
    line(alloc, &(word, deref(cells, Ref::Cell(cell))))
}

/// Writes a number into a pair of words, and sets a cell to it: what is written, what is read there then, and what
/// became of the cell.
pub(crate) fn write<N: Naming>(
    alloc: Global,
    cells: &mut PlainCells<N>,
    n: Numbers,
) -> Result<String, Untold> {
    let cell = n.first;
    let pair = n.second;
    if pair >= 1_000_000 || pair + 1 >= cells.len() || cell >= cells.len() {
        return Err(Untold::Malformed);
    }
    let written = cells.write_number(pair, n.last);
    let read = cells.held_number(pair);
    line(alloc, &(written, read, cells.bind(cell, Ref::Number(pair))))
}

/// Goes on with a copy of the row, and tells how many words it has.
pub(crate) fn copy<N: Naming>(alloc: Global, cells: &mut PlainCells<N>) -> Result<String, Untold> {
    *cells = cells.copy()?;
    line(alloc, &cells.len())
}

/// Sets each cell of another row of 100,000 words to the one before it.
pub(crate) fn chain<N: Naming>(alloc: Global, cells: &mut PlainCells<N>) -> Result<String, Untold> {
    *cells = PlainCells::with(alloc, 100_000)?;
    for cell in 1..100_000 {
        cells.bind(cell, Ref::Cell(cell - 1));
    }
    Ok(String::new(alloc))
}

/// Sets a cell to the right side of an equation, in the frame at a base.
pub(crate) fn side<N: Naming>(
    alloc: Global,
    loaded: &Loaded,
    cells: &mut PlainCells<N>,
    n: Numbers,
) -> Result<String, Untold>
    requires { N.program ≡ named loaded.now }
{
    let bound = set(loaded, cells, n.first, n.second, n.third)?;
    line(alloc, &bound)
}
