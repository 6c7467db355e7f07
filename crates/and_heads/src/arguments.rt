//! Two arguments that are met at a look, as most are: a cell is free, or both are structures.

ghost use Rattle.std.specs.Prelude.{◌≡◌, ◌<◌, ◌^◌, List, ℕ, length};
ghost use Rattle.and_model.specs.declared.reference.Ref.{Ref};
ghost use Rattle.and_program.specs.Loaded.{skeleton_of};
ghost use Rattle.and_cells.specs.Ranges.{IsInRange};
ghost use Rattle.and_cells.specs.Rows.{plain};
ghost use Rattle.and_cells.specs.Seen.{IsWrittenIfNumber, word_at};
ghost use Rattle.and_cells.specs.Parts.{named, part_at};
ghost use Rattle.and_heads.specs.Entering.{Meets};
ghost use Rattle.and_heads.specs.Owing.{AreOwed};

use crate::entering::{Entered, compare, enter_ends, take, take_as};
use crate::owing::Owed;
use crate::parts::{Part, is_free};
use and_cells::{Naming, PlainCells};
use and_model::{NodeNo, Ref};
use and_program::Loaded;

/// Makes an argument of a structure and a reference the same, at a look where that tells it, and else by what they lead
/// to. Structures of one shape go on the list of parts. Arguments are cells and structures, so of others nothing is
/// told. The argument is read once it is known what it meets, so that each is looked at in one place.
#[inline(always)]
pub(crate) fn enter_argument<N: Naming>(
    loaded: &Loaded,
    cells: &mut PlainCells<N>,
    left: NodeNo,
    base: u32,
    right: Ref,
    floor: u32,
    bound: &mut Vec<u32>,
    owed: &mut Owed,
    parts: &mut Vec<Part>,
) -> Entered
    requires program { N.program ≡ named loaded.now }
    requires there { left.0 < length (skeleton_of loaded.now).nodes }
    requires base { base < 2 ^ 23 }
    requires fits { IsInRange N.program (length cells.old) (part_at (named loaded.now) base left.0)
        × IsInRange N.program (length cells.old) right }
    requires written { IsWrittenIfNumber (plain cells.old) (part_at (named loaded.now) base left.0) }
    ensures meets { Meets N.program (record { left = part_at (named loaded.now) base left.0; right = right })
        (plain cells.old) (plain cells.new) parts.old.items parts.new.items bound.old.items bound.new.items result }
    ensures owed { AreOwed N.program floor cells.old bound.old.items owed.old
        → AreOwed N.program floor cells.new bound.new.items owed.new }
{
    match right {
        Ref::Cell(cell) => {
            let from = loaded.resolve(left, base);
            enter_variable(loaded, cells, from, cell, floor, bound, owed, parts)
        }
        Ref::Node { node, base: by } => {
            let from = loaded.resolve(left, base);
            enter_structure(loaded, cells, from, node, by, floor, bound, owed, parts)
        }
        _ => Entered::GivenUp,
    }
}

/// The same, where the right one is this cell. Mostly it is that of a variable that occurs for the first time.
#[inline(always)]
fn enter_variable<N: Naming>(
    loaded: &Loaded,
    cells: &mut PlainCells<N>,
    left: Ref,
    cell: u32,
    floor: u32,
    bound: &mut Vec<u32>,
    owed: &mut Owed,
    parts: &mut Vec<Part>,
) -> Entered
    requires program { N.program ≡ named loaded.now }
    requires in_range { IsInRange N.program (length cells.old) left
        × IsInRange N.program (length cells.old) (Ref.Cell cell) }
    requires written { IsWrittenIfNumber (plain cells.old) left }
    ensures meets { Meets N.program (record { left = left; right = Ref.Cell cell }) (plain cells.old) (plain cells.new)
        parts.old.items parts.new.items bound.old.items bound.new.items result }
    ensures owed { AreOwed N.program floor cells.old bound.old.items owed.old
        → AreOwed N.program floor cells.new bound.new.items owed.new }
{
    match left {
        Ref::Cell(from) => join(loaded, cells, from, cell, floor, bound, owed, parts),
        Ref::Node { node, base } => fill(
            loaded, cells, node, base, cell, floor, bound, owed, parts,
        ),
        _ => Entered::GivenUp,
    }
}

/// The same, where the left one is this structure.
#[inline(always)]
fn fill<N: Naming>(
    loaded: &Loaded,
    cells: &mut PlainCells<N>,
    node: NodeNo,
    base: u32,
    cell: u32,
    floor: u32,
    bound: &mut Vec<u32>,
    owed: &mut Owed,
    parts: &mut Vec<Part>,
) -> Entered
    requires program { N.program ≡ named loaded.now }
    requires in_range { IsInRange N.program (length cells.old) (Ref.Node node base)
        × IsInRange N.program (length cells.old) (Ref.Cell cell) }
    ensures meets { Meets N.program (record { left = Ref.Node node base; right = Ref.Cell cell })
        (plain cells.old) (plain cells.new) parts.old.items parts.new.items bound.old.items bound.new.items result }
    ensures owed { AreOwed N.program floor cells.old bound.old.items owed.old
        → AreOwed N.program floor cells.new bound.new.items owed.new }
{
    if !is_free(cells, cell) {
        return ends_beside_cell(loaded, cells, node, base, cell, floor, bound, owed, parts);
    }
    take(
        loaded,
        cells,
        floor,
        bound,
        owed,
        cell,
        Ref::Node { node, base },
    )
}

/// The same, where both are cells.
#[inline(always)]
fn join<N: Naming>(
    loaded: &Loaded,
    cells: &mut PlainCells<N>,
    from: u32,
    cell: u32,
    floor: u32,
    bound: &mut Vec<u32>,
    owed: &mut Owed,
    parts: &mut Vec<Part>,
) -> Entered
    requires program { N.program ≡ named loaded.now }
    requires in_range { IsInRange N.program (length cells.old) (Ref.Cell from)
        × IsInRange N.program (length cells.old) (Ref.Cell cell) }
    ensures meets { Meets N.program (record { left = Ref.Cell from; right = Ref.Cell cell })
        (plain cells.old) (plain cells.new) parts.old.items parts.new.items bound.old.items bound.new.items result }
    ensures owed { AreOwed N.program floor cells.old bound.old.items owed.old
        → AreOwed N.program floor cells.new bound.new.items owed.new }
{
    if is_free(cells, cell) {
        fill_from(loaded, cells, from, cell, floor, bound, owed, parts)
    } else {
        join_set(loaded, cells, from, cell, floor, bound, owed, parts)
    }
}

/// The same, where the right cell is mostly set: that of a variable that occurs for the second time. What it is set to
/// is met.
#[inline(always)]
fn join_set<N: Naming>(
    loaded: &Loaded,
    cells: &mut PlainCells<N>,
    from: u32,
    cell: u32,
    floor: u32,
    bound: &mut Vec<u32>,
    owed: &mut Owed,
    parts: &mut Vec<Part>,
) -> Entered
    requires program { N.program ≡ named loaded.now }
    requires in_range { IsInRange N.program (length cells.old) (Ref.Cell from)
        × IsInRange N.program (length cells.old) (Ref.Cell cell) }
    ensures meets { Meets N.program (record { left = Ref.Cell from; right = Ref.Cell cell })
        (plain cells.old) (plain cells.new) parts.old.items parts.new.items bound.old.items bound.new.items result }
    ensures owed { AreOwed N.program floor cells.old bound.old.items owed.old
        → AreOwed N.program floor cells.new bound.new.items owed.new }
{
    match cells.word(cell) {
        Ref::Node { node, base } => {
            enter_from(loaded, cells, from, node, base, floor, bound, owed, parts)
        }
        Ref::Cell(beyond) => join_beyond(loaded, cells, from, beyond, floor, bound, owed, parts),
        _ => ends_of_cells(loaded, cells, from, cell, floor, bound, owed, parts),
    }
}

/// The same, where the right cell is one to which that of a variable is set. Mostly it is free.
#[inline(always)]
fn join_beyond<N: Naming>(
    loaded: &Loaded,
    cells: &mut PlainCells<N>,
    from: u32,
    cell: u32,
    floor: u32,
    bound: &mut Vec<u32>,
    owed: &mut Owed,
    parts: &mut Vec<Part>,
) -> Entered
    requires program { N.program ≡ named loaded.now }
    requires in_range { IsInRange N.program (length cells.old) (Ref.Cell from)
        × IsInRange N.program (length cells.old) (Ref.Cell cell) }
    ensures meets { Meets N.program (record { left = Ref.Cell from; right = Ref.Cell cell })
        (plain cells.old) (plain cells.new) parts.old.items parts.new.items bound.old.items bound.new.items result }
    ensures owed { AreOwed N.program floor cells.old bound.old.items owed.old
        → AreOwed N.program floor cells.new bound.new.items owed.new }
{
    if is_free(cells, cell) {
        fill_from(loaded, cells, from, cell, floor, bound, owed, parts)
    } else {
        ends_of_cells(loaded, cells, from, cell, floor, bound, owed, parts)
    }
}

/// The same, where the right cell is free.
#[inline(always)]
fn fill_from<N: Naming>(
    loaded: &Loaded,
    cells: &mut PlainCells<N>,
    from: u32,
    cell: u32,
    floor: u32,
    bound: &mut Vec<u32>,
    owed: &mut Owed,
    parts: &mut Vec<Part>,
) -> Entered
    requires program { N.program ≡ named loaded.now }
    requires in_range { IsInRange N.program (length cells.old) (Ref.Cell from)
        × IsInRange N.program (length cells.old) (Ref.Cell cell) }
    requires free { word_at cells.old cell ≡ Ref.Free }
    ensures meets { Meets N.program (record { left = Ref.Cell from; right = Ref.Cell cell })
        (plain cells.old) (plain cells.new) parts.old.items parts.new.items bound.old.items bound.new.items result }
    ensures owed { AreOwed N.program floor cells.old bound.old.items owed.old
        → AreOwed N.program floor cells.new bound.new.items owed.new }
{
    if floor <= cell && cells.is_below(from, floor) {
        return take_as(cells, bound, cell, from);
    }
    match cells.word(from) {
        Ref::Node { node, base } => take(
            loaded,
            cells,
            floor,
            bound,
            owed,
            cell,
            Ref::Node { node, base },
        ),
        Ref::Number(pair) => take(loaded, cells, floor, bound, owed, cell, Ref::Number(pair)),
        Ref::Free => link(loaded, cells, from, cell, floor, bound, owed, parts),
        _ => ends_of_cells(loaded, cells, from, cell, floor, bound, owed, parts),
    }
}

/// The same, where the left one is free too. Mostly it is the earlier one.
#[inline(always)]
fn link<N: Naming>(
    loaded: &Loaded,
    cells: &mut PlainCells<N>,
    from: u32,
    cell: u32,
    floor: u32,
    bound: &mut Vec<u32>,
    owed: &mut Owed,
    parts: &mut Vec<Part>,
) -> Entered
    requires program { N.program ≡ named loaded.now }
    requires in_range { IsInRange N.program (length cells.old) (Ref.Cell from)
        × IsInRange N.program (length cells.old) (Ref.Cell cell) }
    requires free { word_at cells.old cell ≡ Ref.Free }
    ensures meets { Meets N.program (record { left = Ref.Cell from; right = Ref.Cell cell })
        (plain cells.old) (plain cells.new) parts.old.items parts.new.items bound.old.items bound.new.items result }
    ensures owed { AreOwed N.program floor cells.old bound.old.items owed.old
        → AreOwed N.program floor cells.new bound.new.items owed.new }
{
    if from < cell {
        take(loaded, cells, floor, bound, owed, cell, Ref::Cell(from))
    } else {
        ends_of_cells(loaded, cells, from, cell, floor, bound, owed, parts)
    }
}

/// The same, where the right one is this structure.
#[inline(always)]
fn enter_structure<N: Naming>(
    loaded: &Loaded,
    cells: &mut PlainCells<N>,
    left: Ref,
    node: NodeNo,
    base: u32,
    floor: u32,
    bound: &mut Vec<u32>,
    owed: &mut Owed,
    parts: &mut Vec<Part>,
) -> Entered
    requires program { N.program ≡ named loaded.now }
    requires in_range { IsInRange N.program (length cells.old) left
        × IsInRange N.program (length cells.old) (Ref.Node node base) }
    requires written { IsWrittenIfNumber (plain cells.old) left }
    ensures meets { Meets N.program (record { left = left; right = Ref.Node node base }) (plain cells.old)
        (plain cells.new) parts.old.items parts.new.items bound.old.items bound.new.items result }
    ensures owed { AreOwed N.program floor cells.old bound.old.items owed.old
        → AreOwed N.program floor cells.new bound.new.items owed.new }
{
    match left {
        Ref::Cell(from) => enter_from(loaded, cells, from, node, base, floor, bound, owed, parts),
        Ref::Node {
            node: there,
            base: by,
        } => { compare_structures(loaded, cells, there, by, node, base, parts) }
        _ => Entered::GivenUp,
    }
}

/// The same, where the left one is a cell: it is set to the structure, or what it is set to is compared with it.
#[inline(always)]
fn enter_from<N: Naming>(
    loaded: &Loaded,
    cells: &mut PlainCells<N>,
    from: u32,
    node: NodeNo,
    base: u32,
    floor: u32,
    bound: &mut Vec<u32>,
    owed: &mut Owed,
    parts: &mut Vec<Part>,
) -> Entered
    requires program { N.program ≡ named loaded.now }
    requires in_range { IsInRange N.program (length cells.old) (Ref.Cell from)
        × IsInRange N.program (length cells.old) (Ref.Node node base) }
    ensures meets { Meets N.program (record { left = Ref.Cell from; right = Ref.Node node base })
        (plain cells.old) (plain cells.new) parts.old.items parts.new.items bound.old.items bound.new.items result }
    ensures owed { AreOwed N.program floor cells.old bound.old.items owed.old
        → AreOwed N.program floor cells.new bound.new.items owed.new }
{
    if is_free(cells, from) {
        return take(
            loaded,
            cells,
            floor,
            bound,
            owed,
            from,
            Ref::Node { node, base },
        );
    }
    match cells.word(from) {
        Ref::Node {
            node: there,
            base: by,
        } => compare(
            loaded,
            cells,
            Ref::Node {
                node: there,
                base: by,
            },
            Ref::Node { node, base },
            parts,
        ),
        _ => ends_of_cell(loaded, cells, from, node, base, floor, bound, owed, parts),
    }
}

/// Follows two cells, and meets what they lead to. This stands in a call of its own, and so do the next three: callers
/// that made the references for it would write them to memory on their other ways too.
#[cold]
#[inline(never)]
fn ends_of_cells<N: Naming>(
    loaded: &Loaded,
    cells: &mut PlainCells<N>,
    from: u32,
    cell: u32,
    floor: u32,
    bound: &mut Vec<u32>,
    owed: &mut Owed,
    parts: &mut Vec<Part>,
) -> Entered
    requires program { N.program ≡ named loaded.now }
    requires in_range { IsInRange N.program (length cells.old) (Ref.Cell from)
        × IsInRange N.program (length cells.old) (Ref.Cell cell) }
    ensures meets { Meets N.program (record { left = Ref.Cell from; right = Ref.Cell cell })
        (plain cells.old) (plain cells.new) parts.old.items parts.new.items bound.old.items bound.new.items result }
    ensures owed { AreOwed N.program floor cells.old bound.old.items owed.old
        → AreOwed N.program floor cells.new bound.new.items owed.new }
{
    enter_ends(
        loaded,
        cells,
        Ref::Cell(from),
        Ref::Cell(cell),
        floor,
        bound,
        owed,
        parts,
    )
}

/// Follows a cell, and meets what it leads to and a structure.
#[cold]
#[inline(never)]
fn ends_of_cell<N: Naming>(
    loaded: &Loaded,
    cells: &mut PlainCells<N>,
    from: u32,
    node: NodeNo,
    base: u32,
    floor: u32,
    bound: &mut Vec<u32>,
    owed: &mut Owed,
    parts: &mut Vec<Part>,
) -> Entered
    requires program { N.program ≡ named loaded.now }
    requires in_range { IsInRange N.program (length cells.old) (Ref.Cell from)
        × IsInRange N.program (length cells.old) (Ref.Node node base) }
    ensures meets { Meets N.program (record { left = Ref.Cell from; right = Ref.Node node base })
        (plain cells.old) (plain cells.new) parts.old.items parts.new.items bound.old.items bound.new.items result }
    ensures owed { AreOwed N.program floor cells.old bound.old.items owed.old
        → AreOwed N.program floor cells.new bound.new.items owed.new }
{
    enter_ends(
        loaded,
        cells,
        Ref::Cell(from),
        Ref::Node { node, base },
        floor,
        bound,
        owed,
        parts,
    )
}

/// Follows a cell, and meets a structure and what it leads to.
#[cold]
#[inline(never)]
fn ends_beside_cell<N: Naming>(
    loaded: &Loaded,
    cells: &mut PlainCells<N>,
    node: NodeNo,
    base: u32,
    cell: u32,
    floor: u32,
    bound: &mut Vec<u32>,
    owed: &mut Owed,
    parts: &mut Vec<Part>,
) -> Entered
    requires program { N.program ≡ named loaded.now }
    requires in_range { IsInRange N.program (length cells.old) (Ref.Node node base)
        × IsInRange N.program (length cells.old) (Ref.Cell cell) }
    ensures meets { Meets N.program (record { left = Ref.Node node base; right = Ref.Cell cell })
        (plain cells.old) (plain cells.new) parts.old.items parts.new.items bound.old.items bound.new.items result }
    ensures owed { AreOwed N.program floor cells.old bound.old.items owed.old
        → AreOwed N.program floor cells.new bound.new.items owed.new }
{
    enter_ends(
        loaded,
        cells,
        Ref::Node { node, base },
        Ref::Cell(cell),
        floor,
        bound,
        owed,
        parts,
    )
}

/// Compares two structures. This takes numbers, as the calls above do.
#[inline(never)]
fn compare_structures<N: Naming>(
    loaded: &Loaded,
    cells: &PlainCells<N>,
    there: NodeNo,
    by: u32,
    node: NodeNo,
    base: u32,
    parts: &mut Vec<Part>,
) -> Entered
    requires program { N.program ≡ named loaded.now }
    requires in_range { IsInRange N.program (length cells.now) (Ref.Node there by)
        × IsInRange N.program (length cells.now) (Ref.Node node base) }
    ensures { (bound : List ℕ) → Meets N.program (record { left = Ref.Node there by; right = Ref.Node node base })
        (plain cells.now) (plain cells.now) parts.old.items parts.new.items bound bound result }
{
    compare(
        loaded,
        cells,
        Ref::Node {
            node: there,
            base: by,
        },
        Ref::Node { node, base },
        parts,
    )
}
