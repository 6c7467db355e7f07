//! Whether paths from cells that were set are seen to end.

ghost use Rattle.std.specs.Prelude.{◌≡◌, ◌<◌, ◌≤◌, List, All, ℕ, length, true, false};
ghost use Rattle.and_model.specs.declared.reference.Ref.{Ref};
ghost use Rattle.and_program.specs.Loaded.{arguments_at, skeleton_of};
ghost use Rattle.and_program.specs.Skeletons.{AllFall};
ghost use Rattle.and_cells.specs.Ranges.{IsInRange};
ghost use Rattle.and_cells.specs.Rows.{IsSound};
ghost use Rattle.and_cells.specs.Parts.{named, part_at};
ghost use Rattle.and_cells.specs.Ends.{Ends};
ghost use Rattle.and_cells.specs.Ground.{EndsGround};
ghost use Rattle.and_circles.specs.Following.{argument_part};
ghost use Rattle.and_unify.specs.Settling.{EndsFrom};
ghost use Rattle.and_heads.specs.Ending.{GoesOn};
ghost use Rattle.and_heads.specs.Owing.{AreOwed};

use crate::owing::Owed;
use crate::parts::is_free;
use and_cells::{Naming, PlainCells};
use and_circles::ends_soon;
use and_model::{NodeNo, Ref};
use and_program::{Loaded, NodeKind};
use and_unify::structures::argument_count;

/// So many places are followed at most where paths branch,
const MOST_PLACES: u64 = 64;

/// and so many one after the other.
const MOST_TURNS: u32 = 48;

/// So many are followed before it is asked what is known of them.
const FEW_TURNS: u32 = 16;

/// What became of a path.
#[derive(Clone, Copy, PartialEq, Eq, Debug)]
enum Followed {
    /// All paths end.
    Ended,
    /// All others end, and this one goes on here.
    Onward(Ref),
    /// It is not told.
    Unseen,
}

/// Whether each path from each cell that was set is seen to end, where those are owed that are still to be looked at.
#[inline(always)]
pub(crate) fn owed_end<N: Naming>(
    loaded: &Loaded,
    cells: &PlainCells<N>,
    floor: u32,
    owed: Owed,
    bound: &[u32],
    visits: &mut Vec<Ref>,
    met: &mut Vec<Ref>,
) -> bool
    requires program { N.program ≡ named loaded.now }
    requires falls { AllFall 0 N.program.skeleton.nodes }
    requires in_row { All (λ (cell : ℕ). cell < length cells.now) bound.now }
    requires owed { AreOwed N.program floor cells.now bound.now owed }
    ensures ends { result ≡ true → All (EndsFrom N.program cells.now floor) bound.now }
    ensures sound { IsSound N.program cells.now }
{
    let _words = cells.len();
    match owed {
        Owed::Nothing => true,
        Owed::One(cell) => {
            ends_at_look(loaded, cells, floor, cell)
                || one_ends(loaded, cells, floor, cell, visits, met)
        }
        Owed::Several => all_end(loaded, cells, floor, bound, visits, met),
    }
}

/// Whether each path from a cell is seen to end, by so many turns or places.
#[cold]
#[inline(never)]
fn one_ends<N: Naming>(
    loaded: &Loaded,
    cells: &PlainCells<N>,
    floor: u32,
    cell: u32,
    visits: &mut Vec<Ref>,
    met: &mut Vec<Ref>,
) -> bool
    requires program { N.program ≡ named loaded.now }
    requires falls { AllFall 0 N.program.skeleton.nodes }
    requires in_row { cell < length cells.now }
    ensures { result ≡ true → EndsFrom N.program cells.now floor cell }
{
    let mut most = MOST_PLACES;
    met.clear();
    let from = floor_beside(cell, floor);
    ends(loaded, cells, from, cell, &mut most, visits, met)
}

/// Whether each path from each of these cells is seen to end: from one below the floor to any, and from others where it
/// comes below the floor, if not before.
#[cold]
#[inline(never)]
fn all_end<N: Naming>(
    loaded: &Loaded,
    cells: &PlainCells<N>,
    floor: u32,
    bound: &[u32],
    visits: &mut Vec<Ref>,
    met: &mut Vec<Ref>,
) -> bool
    requires program { N.program ≡ named loaded.now }
    requires falls { AllFall 0 N.program.skeleton.nodes }
    requires in_row { All (λ (cell : ℕ). cell < length cells.now) bound.now }
    ensures ends { result ≡ true → All (EndsFrom N.program cells.now floor) bound.now }
    ensures sound { IsSound N.program cells.now }
{
    let _words = cells.len();
    let mut most = MOST_PLACES;
    met.clear();
    for place in 0..bound.len() {
        let cell = bound[place];
        if !ends_from(loaded, cells, floor, cell, &mut most, visits, met) {
            return false;
        }
    }
    true
}

/// The same of one cell.
#[inline(always)]
fn ends_from<N: Naming>(
    loaded: &Loaded,
    cells: &PlainCells<N>,
    floor: u32,
    cell: u32,
    most: &mut u64,
    visits: &mut Vec<Ref>,
    met: &mut Vec<Ref>,
) -> bool
    requires program { N.program ≡ named loaded.now }
    requires falls { AllFall 0 N.program.skeleton.nodes }
    requires in_row { cell < length cells.now }
    ensures { result ≡ true → EndsFrom N.program cells.now floor cell }
{
    if ends_at_look(loaded, cells, floor, cell) {
        return true;
    }
    let from = floor_beside(cell, floor);
    ends(loaded, cells, from, cell, most, visits, met)
}

/// The same at a look: at the cell's word, or at the arguments of the structure to which a cell below the floor is set.
#[inline(always)]
fn ends_at_look<N: Naming>(loaded: &Loaded, cells: &PlainCells<N>, floor: u32, cell: u32) -> bool
    requires program { N.program ≡ named loaded.now }
    requires falls { AllFall 0 N.program.skeleton.nodes }
    requires in_row { cell < length cells.now }
    ensures { result ≡ true → EndsFrom N.program cells.now floor cell }
{
    if cell < floor {
        word_or_parts_end(loaded, cells, cell)
    } else {
        ends_below(cells, floor, cell)
    }
}

/// Whether each path from a cell ends at its word, or at the arguments of the structure to which it is set.
#[inline(always)]
fn word_or_parts_end<N: Naming>(loaded: &Loaded, cells: &PlainCells<N>, cell: u32) -> bool
    requires program { N.program ≡ named loaded.now }
    requires falls { AllFall 0 N.program.skeleton.nodes }
    requires in_row { cell < length cells.now }
    ensures { result ≡ true → Ends N.program cells.now 0 false (Ref.Cell cell) }
{
    match cells.word(cell) {
        Ref::Node { node, base } => {
            let count = argument_count(loaded, node);
            parts_end(loaded, cells, 0, node, base, count)
        }
        Ref::Cell(other) => is_free(cells, other),
        Ref::Number(_) => true,
        Ref::Free => false,
        Ref::Half(_) => false,
    }
}

/// Whether a cell that is not below the floor is set to a number or to what is below it, as most cells are.
#[inline(always)]
fn ends_below<N: Naming>(cells: &PlainCells<N>, floor: u32, cell: u32) -> bool
    requires in_row { cell < length cells.now }
    ensures above { result ≡ true → floor ≤ cell }
    ensures ends { result ≡ true → Ends N.program cells.now floor false (Ref.Cell cell) }
{
    if cell < floor {
        return false;
    }
    match cells.word(cell) {
        Ref::Node { base, .. } => base < floor,
        Ref::Cell(other) => other < floor,
        Ref::Number(_) => true,
        Ref::Free => false,
        Ref::Half(_) => false,
    }
}

/// Where paths from a cell are at their end: below the floor, and nowhere where the cell is below it.
fn floor_beside(cell: u32, floor: u32) -> u32
    ensures below { cell < floor → result ≡ 0 }
    ensures above { floor ≤ cell → result ≡ floor }
{
    if cell < floor { 0 } else { floor }
}

/// Whether each path from a cell is seen to end, at a look or by so many turns or places.
#[inline(always)]
fn ends<N: Naming>(
    loaded: &Loaded,
    cells: &PlainCells<N>,
    floor: u32,
    cell: u32,
    most: &mut u64,
    visits: &mut Vec<Ref>,
    met: &mut Vec<Ref>,
) -> bool
    requires program { N.program ≡ named loaded.now }
    requires falls { AllFall 0 N.program.skeleton.nodes }
    requires in_row { cell < length cells.now }
    ensures { result ≡ true → Ends N.program cells.now floor false (Ref.Cell cell) }
{
    match beyond_cell(cells, floor, cell) {
        Followed::Ended => true,
        Followed::Onward(next) => onward_ends(loaded, cells, floor, next, most, visits, met),
        Followed::Unseen => false,
    }
}

/// Whether each path from a reference is seen to end, by so many turns or places.
#[cold]
#[inline(never)]
fn onward_ends<N: Naming>(
    loaded: &Loaded,
    cells: &PlainCells<N>,
    floor: u32,
    from: Ref,
    most: &mut u64,
    visits: &mut Vec<Ref>,
    met: &mut Vec<Ref>,
) -> bool
    requires program { N.program ≡ named loaded.now }
    requires falls { AllFall 0 N.program.skeleton.nodes }
    requires in_range { IsInRange N.program (length cells.now) from }
    ensures { result ≡ true → Ends N.program cells.now floor false from }
{
    match in_line(loaded, cells, floor, from) {
        Followed::Ended => true,
        Followed::Onward(_) => false,
        Followed::Unseen => match ends_soon(loaded, cells, floor, from, most, visits, met) {
            Ok(is_seen) => is_seen,
            Err(_) => false,
        },
    }
}

/// Follows the path from a reference that goes on by the last part of each structure, as far as all other parts end
/// at a look: so the elements of a list are passed one by one. It tells that all paths end, or how far it has come.
fn in_line<N: Naming>(loaded: &Loaded, cells: &PlainCells<N>, floor: u32, from: Ref) -> Followed
    requires program { N.program ≡ named loaded.now }
    requires falls { AllFall 0 N.program.skeleton.nodes }
    requires in_range { IsInRange N.program (length cells.now) from }
    ensures { result ≡ Followed.Ended → Ends N.program cells.now floor false from }
{
    let mut at = from;
    for turn in 0..MOST_TURNS {
        if is_known(cells, turn, at) {
            return Followed::Ended;
        }
        match beyond(loaded, cells, floor, at) {
            Followed::Ended => return Followed::Ended,
            Followed::Onward(next) => at = next,
            Followed::Unseen => return Followed::Unseen,
        }
    }
    Followed::Onward(at)
}

/// Whether a reference is known to be ground, which is asked when so many turns were made.
fn is_known<N: Naming>(cells: &PlainCells<N>, turn: u32, at: Ref) -> bool
    ensures { result ≡ true → EndsGround N.program cells.now at }
{
    turn > FEW_TURNS && cells.is_ground(at)
}

/// Where a path goes on from a reference.
fn beyond<N: Naming>(loaded: &Loaded, cells: &PlainCells<N>, floor: u32, at: Ref) -> Followed
    requires program { N.program ≡ named loaded.now }
    requires falls { AllFall 0 N.program.skeleton.nodes }
    requires in_range { IsInRange N.program (length cells.now) at }
    ensures ended { result ≡ Followed.Ended → Ends N.program cells.now floor false at }
    ensures onward { (next : Ref) → result ≡ Followed.Onward next → GoesOn N.program cells.now floor at next }
{
    match at {
        Ref::Cell(cell) => beyond_cell(cells, floor, cell),
        Ref::Node { node, base } => beyond_structure(loaded, cells, floor, node, base),
        Ref::Number(_) => Followed::Ended,
        Ref::Free => Followed::Unseen,
        Ref::Half(_) => Followed::Unseen,
    }
}

/// Where a path goes on from a cell.
fn beyond_cell<N: Naming>(cells: &PlainCells<N>, floor: u32, cell: u32) -> Followed
    requires in_row { cell < length cells.now }
    ensures ended { result ≡ Followed.Ended → Ends N.program cells.now floor false (Ref.Cell cell) }
    ensures onward { (next : Ref) → result ≡ Followed.Onward next
        → GoesOn N.program cells.now floor (Ref.Cell cell) next }
{
    if cell < floor {
        return Followed::Ended;
    }
    match cells.word(cell) {
        Ref::Free => Followed::Ended,
        Ref::Number(_) => Followed::Ended,
        Ref::Cell(other) => {
            if other < floor {
                Followed::Ended
            } else {
                Followed::Onward(Ref::Cell(other))
            }
        }
        Ref::Node { node, base } => {
            if base < floor {
                Followed::Ended
            } else {
                Followed::Onward(Ref::Node { node, base })
            }
        }
        Ref::Half(_) => Followed::Unseen,
    }
}

/// Where a path goes on from a structure: at its last part, where all others end at a look.
fn beyond_structure<N: Naming>(
    loaded: &Loaded,
    cells: &PlainCells<N>,
    floor: u32,
    node: NodeNo,
    base: u32,
) -> Followed
    requires program { N.program ≡ named loaded.now }
    requires falls { AllFall 0 N.program.skeleton.nodes }
    requires in_range { IsInRange N.program (length cells.now) (Ref.Node node base) }
    ensures ended { result ≡ Followed.Ended → Ends N.program cells.now floor false (Ref.Node node base) }
    ensures onward { (next : Ref) → result ≡ Followed.Onward next
        → GoesOn N.program cells.now floor (Ref.Node node base) next }
{
    if base < floor {
        return Followed::Ended;
    }
    let count = argument_count(loaded, node);
    if count == 0 {
        return Followed::Ended;
    }
    let last = count - 1;
    if !parts_end(loaded, cells, floor, node, base, last) {
        return Followed::Unseen;
    }
    Followed::Onward(loaded.resolve(loaded.argument(node, last), base))
}

/// Whether each path from each of so many parts of a structure ends at a look at the part.
#[inline(always)]
fn parts_end<N: Naming>(
    loaded: &Loaded,
    cells: &PlainCells<N>,
    floor: u32,
    node: NodeNo,
    base: u32,
    count: u8,
) -> bool
    requires program { N.program ≡ named loaded.now }
    requires falls { AllFall 0 N.program.skeleton.nodes }
    requires in_range { IsInRange N.program (length cells.now) (Ref.Node node base) }
    requires count { count ≤ length (arguments_at N.program.skeleton node.0) }
    ensures { result ≡ true → (k : ℕ) → k < count
        → Ends N.program cells.now floor false (argument_part N.program node base k) }
{
    let nodes = loaded.arguments(node);
    for place in 0..count {
        let part = loaded.resolve(nodes[place as usize], base);
        if !part_ends(loaded, cells, floor, part) {
            return false;
        }
    }
    true
}

/// Whether each path from a reference ends at a look at it, or at the word of its cell.
#[inline(always)]
fn part_ends<N: Naming>(loaded: &Loaded, cells: &PlainCells<N>, floor: u32, part: Ref) -> bool
    requires program { N.program ≡ named loaded.now }
    requires falls { AllFall 0 N.program.skeleton.nodes }
    requires in_range { IsInRange N.program (length cells.now) part }
    ensures { result ≡ true → Ends N.program cells.now floor false part }
{
    match part {
        Ref::Cell(cell) => cell < floor || word_ends(loaded, cells, floor, cell),
        Ref::Node { node, .. } => node_ends(loaded, node),
        Ref::Number(_) => true,
        Ref::Free => false,
        Ref::Half(_) => false,
    }
}

/// Whether each path from a cell ends at its word, or in the free cell to which it is set.
#[inline(always)]
fn word_ends<N: Naming>(loaded: &Loaded, cells: &PlainCells<N>, floor: u32, cell: u32) -> bool
    requires program { N.program ≡ named loaded.now }
    requires falls { AllFall 0 N.program.skeleton.nodes }
    requires in_row { cell < length cells.now }
    ensures { result ≡ true → Ends N.program cells.now floor false (Ref.Cell cell) }
{
    if is_free(cells, cell) {
        return true;
    }
    match cells.word(cell) {
        Ref::Free => true,
        Ref::Number(_) => true,
        Ref::Cell(other) => is_free(cells, other),
        Ref::Node { node, .. } => node_ends(loaded, node),
        Ref::Half(_) => false,
    }
}

/// Whether a node has no arguments, or constants alone: then no path goes on from it, whatever its frame.
#[inline(always)]
fn node_ends(loaded: &Loaded, node: NodeNo) -> bool
    requires there { node.0 < length (skeleton_of loaded.now).nodes }
    requires falls { AllFall 0 (skeleton_of loaded.now).nodes }
    ensures { result ≡ true → (row : List Ref) (floor base : ℕ)
        → Ends (named loaded.now) row floor false (Ref.Node node base) }
{
    if argument_count(loaded, node) == 0 {
        return true;
    }
    has_constants_alone(loaded, node)
}

/// The same of the arguments that it has: a call of its own, since most nodes have none.
#[inline(never)]
fn has_constants_alone(loaded: &Loaded, node: NodeNo) -> bool
    requires there { node.0 < length (skeleton_of loaded.now).nodes }
    requires falls { AllFall 0 (skeleton_of loaded.now).nodes }
    ensures { result ≡ true → (row : List Ref) (floor base : ℕ)
        → Ends (named loaded.now) row floor false (Ref.Node node base) }
{
    let nodes = loaded.arguments(node);
    for place in 0..nodes.len() {
        if !is_constant(loaded, nodes[place]) {
            return false;
        }
    }
    true
}

/// Whether a node is a number, or a name without arguments.
#[inline(always)]
fn is_constant(loaded: &Loaded, node: NodeNo) -> bool
    requires { node.0 < length (skeleton_of loaded.now).nodes }
    ensures { result ≡ true → (row : List Ref) (floor base : ℕ)
        → Ends (named loaded.now) row floor false (part_at (named loaded.now) base node.0) }
{
    match loaded.kind(node) {
        NodeKind::Variable(_) => false,
        NodeKind::Number(_) => true,
        NodeKind::Compound { name: _, count } => count == 0,
    }
}
