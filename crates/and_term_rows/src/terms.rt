//! Values of expressions, circles and unification over a row.

ghost use Rattle.std.specs.Prelude.{◌≡◌};
ghost use Rattle.and_cells.specs.Parts.{named};

use crate::frames::{right_side, set, structure};
use crate::late::LateCells;
use and_arith::{WorkList, value, value_of};
use and_cells::{Naming, PlainCells};
use and_circles::{Explorer, cycle};
use and_model::Ref;
use and_program::Loaded;
use and_rows::{Numbers, Untold, line};
use and_unify::{PairList, unify};
use std::alloc::Global;

/// The value of a right side of the query, with so much fuel, and what is left of that.
pub(crate) fn value_by<N: Naming>(
    alloc: Global,
    loaded: &Loaded,
    cells: &mut PlainCells<N>,
    work: &mut WorkList,
    n: Numbers,
) -> Result<String, Untold>
    requires { N.program ≡ named loaded.now }
{
    let node = right_side(loaded, n.first)?;
    let term = structure(loaded, &*cells, node, 0)?;
    let mut left = u64::from(n.second);
    let found = value(loaded, cells, term, &mut left, work);
    line(alloc, &(found, left))
}

/// The same without fuel.
pub(crate) fn settled<N: Naming>(
    alloc: Global,
    loaded: &Loaded,
    cells: &mut PlainCells<N>,
    work: &mut WorkList,
    place: u32,
) -> Result<String, Untold>
    requires { N.program ≡ named loaded.now }
{
    let node = right_side(loaded, place)?;
    let term = structure(loaded, &*cells, node, 0)?;
    line(alloc, &value_of(loaded, cells, term, work))
}

/// A circle of the row.
pub(crate) fn circle<N: Naming>(
    alloc: Global,
    loaded: &Loaded,
    cells: &PlainCells<N>,
) -> Result<String, Untold>
    requires { N.program ≡ named loaded.now }
{
    line(alloc, &cycle(alloc, loaded, cells))
}

/// What lies below a cell, above a floor, where 1 says that words of pairs may lie there.
pub(crate) fn explored<N: Naming>(
    alloc: Global,
    loaded: &Loaded,
    cells: &PlainCells<N>,
    explorer: &mut Explorer,
    n: Numbers,
) -> Result<String, Untold>
    requires { N.program ≡ named loaded.now }
{
    if n.first >= cells.len() {
        return Err(Untold::Malformed);
    }
    explorer.restart(n.second, n.third == 1);
    let found = explorer.explore(loaded, cells, Ref::Cell(n.first))?;
    line(alloc, &found)
}

/// Cell 1 of another row is the first right side, and is unified with the right side of that number, with so much
/// fuel, by cells whose first look comes too early. What that comes to, what is left of the fuel, how many pairs are
/// left, and how many words were missed and are known.
pub(crate) fn unified<N: Naming>(
    alloc: Global,
    loaded: &Loaded,
    n: Numbers,
) -> Result<String, Untold>
    requires { N.program ≡ named loaded.now }
{
    let mut words = PlainCells::<N>::with(alloc, 300)?;
    set(loaded, &mut words, 1, 0, 0)?;
    let other = right_side(loaded, n.first)?;
    let other = structure(loaded, &words, other, 0)?;
    if words.len() != 300 || n.second < 1 {
        return Err(Untold::Malformed);
    }
    let mut cells = LateCells::over(alloc, words)?;
    cells.be_late();
    let mut pairs = PairList::new(alloc);
    pairs.push(Ref::Cell(1), other)?;
    let mut fuel = u64::from(n.second);
    let unified = unify(alloc, loaded, &mut cells, &mut fuel, &mut pairs);
    line(
        alloc,
        &(unified, fuel, pairs.len(), cells.missed(), cells.known()),
    )
}
