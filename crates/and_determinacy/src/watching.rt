//! The cells on which the candidates of a call rest.

ghost use Rattle.std.specs.Prelude.{◌≡◌, ◌++◌, ◌<◌, ◌≤◌, ◌^◌, ℕ, Bool, List, Some, Ok, true, false, length, drop};
ghost use Rattle.std.specs.Prelude.{slice_get, All, Contains, OnOk};
ghost use Rattle.and_model.specs.declared.reference.Ref.{Ref};
ghost use Rattle.and_program.specs.Loaded.{nodes_at, program_of, skeleton_of};
ghost use Rattle.and_program.specs.Skeletons.{AllFall, call};
ghost use Rattle.and_cells.specs.Ranges.{IsInRange};
ghost use Rattle.and_cells.specs.Meaning.{IsSettled};
ghost use Rattle.and_cells.specs.Parts.{named};
ghost use Rattle.and_guards.specs.Goals.{CanBeJudged};
ghost use Rattle.and_determinacy.specs.Watching.{RestsOn, IsWatched, IsListed, IsFollowed, IsPutIfParted};

use and_cells::{Naming, PlainCells};
use and_clause_index::count_in;
use and_model::{ClauseNo, Goal, NodeNo, Ref};
use and_program::{ItemNode, Loaded};
use std::alloc::AllocError;

/// How many structures are taken apart at most, and where a list has more cells no other is.
pub(crate) const MOST_PLACES: u32 = 128;

/// Puts on a list the free cells that the term of a call holds, on which its candidates rest, and
/// answers whether these are all. Where the term has too many places, it answers that they are not,
/// and leaves the list as it was.
///
/// Takes memory for the list, and for that of what is still to be looked at, which its caller keeps
/// and uses again. An error is want of memory.
pub fn watch<N: Naming>(
    loaded: &Loaded,
    cells: &PlainCells<N>,
    goal: Goal,
    visits: &mut Vec<Ref>,
    out: &mut Vec<u32>,
) -> Result<bool, AllocError>
    requires program { N.program ≡ named loaded.now }
    requires settled { IsSettled N.program cells.now }
    requires goal { CanBeJudged N.program cells.now goal }
    ensures all { result ≡ Ok true → (gained : List ℕ) × (out.new.items ≡ out.old.items ++ gained)
        × RestsOn N.program cells.now goal gained }
    ensures none { result ≡ Ok false → out.new.items ≡ out.old.items }
{
    loaded.skeleton_is_of_the_program();
    let words = cells.len();
    let begun = out.len();
    let root = loaded.resolve(call_at(loaded, goal.clause, goal.item), goal.base);
    visits.clear();
    visits.push(root)?;
    let all = gather_apart(loaded, cells, words, begun, visits, out)?;
    if !all {
        out.truncate(begun);
    }
    Ok(all)
}

/// The node of a call, by its place in the body of a clause.
fn call_at(loaded: &Loaded, clause: ClauseNo, item: u32) -> NodeNo
    requires clause { clause.0 ≤ length (program_of loaded.now).clauses }
    requires call { (node : ℕ)
        × (slice_get (nodes_at (skeleton_of loaded.now) clause.0).items item ≡ Some (call node)) }
    ensures { slice_get (nodes_at (skeleton_of loaded.now) clause.0).items item ≡ Some (call result.0) }
{
    let ItemNode::Call { goal } = loaded.items(clause)[item as usize] else {
        unreachable!()
    };
    goal
}

/// Puts on a list, of which the cells from a place on are kept apart, the free cells below the floor that
/// the terms of these references hold, and answers whether they are all there. An error is want of memory.
#[inline(always)]
pub(crate) fn gather<N: Naming>(
    loaded: &Loaded,
    cells: &PlainCells<N>,
    floor: u32,
    begun: usize,
    visits: &mut Vec<Ref>,
    out: &mut Vec<u32>,
) -> Result<bool, AllocError>
    requires program { N.program ≡ named loaded.now }
    requires falls { AllFall 0 N.program.skeleton.nodes }
    requires in_range { All (IsInRange N.program (length cells.now)) visits.old.items }
    requires begun { begun ≤ length out.old.items }
    ensures longer { OnOk result ((gained : List ℕ) × (out.new.items ≡ out.old.items ++ gained)) }
    ensures all { result ≡ Ok true
        → All (IsWatched N.program cells.now floor (drop begun out.new.items)) visits.old.items }
{
    let mut left = MOST_PLACES;
    while left > 0 {
        // A structure may have many parts, and each is sought in the list.
        if out.len() - begun > MOST_PLACES as usize {
            return Ok(false);
        }
        left -= 1;
        match visits.pop() {
            Some(at) => follow(loaded, cells, at, floor, begun, visits, out)?,
            None => return Ok(true),
        }
    }
    Ok(false)
}

/// The same in a function of its own, for who asks for it seldom.
#[inline(never)]
fn gather_apart<N: Naming>(
    loaded: &Loaded,
    cells: &PlainCells<N>,
    floor: u32,
    begun: usize,
    visits: &mut Vec<Ref>,
    out: &mut Vec<u32>,
) -> Result<bool, AllocError>
    requires program { N.program ≡ named loaded.now }
    requires falls { AllFall 0 N.program.skeleton.nodes }
    requires in_range { All (IsInRange N.program (length cells.now)) visits.old.items }
    requires begun { begun ≤ length out.old.items }
    ensures longer { OnOk result ((gained : List ℕ) × (out.new.items ≡ out.old.items ++ gained)) }
    ensures all { result ≡ Ok true
        → All (IsWatched N.program cells.now floor (drop begun out.new.items)) visits.old.items }
{
    gather(loaded, cells, floor, begun, visits, out)
}

/// Puts what a place is on a list, if it is a free cell below the floor, and what else it leads to on
/// that of visits, of a structure what its parts lead to. An error is want of memory.
#[inline(always)]
fn follow<N: Naming>(
    loaded: &Loaded,
    cells: &PlainCells<N>,
    at: Ref,
    floor: u32,
    begun: usize,
    visits: &mut Vec<Ref>,
    out: &mut Vec<u32>,
) -> Result<(), AllocError>
    requires program { N.program ≡ named loaded.now }
    requires falls { AllFall 0 N.program.skeleton.nodes }
    requires in_range { IsInRange N.program (length cells.now) at }
    requires begun { begun ≤ length out.old.items }
    ensures { OnOk result (IsFollowed N.program cells.now floor begun at visits.old.items visits.new.items
        out.old.items out.new.items) }
{
    match at {
        Ref::Cell(cell) => follow_cell(loaded, cells, cell, floor, begun, visits, out),
        Ref::Node { node, base } => {
            put_parts(loaded, cells, node, base, floor, begun, visits, out)
        },
        Ref::Number(_) => Ok(()),
        Ref::Free => unreachable!(),
        Ref::Half(_) => unreachable!(),
    }
}

/// Puts a cell on a list if it is free and below the floor, and what it is set to on that of visits, if that
/// may hold a cell. An error is want of memory.
#[inline(always)]
pub(crate) fn follow_cell<N: Naming>(
    loaded: &Loaded,
    cells: &PlainCells<N>,
    cell: u32,
    floor: u32,
    begun: usize,
    visits: &mut Vec<Ref>,
    out: &mut Vec<u32>,
) -> Result<(), AllocError>
    requires program { N.program ≡ named loaded.now }
    requires falls { AllFall 0 N.program.skeleton.nodes }
    requires in_range { cell < length cells.now }
    requires begun { begun ≤ length out.old.items }
    ensures { OnOk result (IsFollowed N.program cells.now floor begun (Ref.Cell cell) visits.old.items visits.new.items
        out.old.items out.new.items) }
{
    let word = cells.word(cell);
    match word {
        Ref::Free => {
            if cell < floor {
                list_cell(cell, begun, out)?;
            }
        }
        Ref::Cell(_) => visits.push(word)?,
        Ref::Node { node, base } => put_structure(loaded, node, base, visits)?,
        Ref::Number(_) => {}
        Ref::Half(_) => {}
    }
    Ok(())
}

/// Puts what a place is on a list, if it is a free cell below the floor, and what else it leads to on
/// that of visits, a structure itself. An error is want of memory.
#[inline(always)]
fn follow_part<N: Naming>(
    loaded: &Loaded,
    cells: &PlainCells<N>,
    at: Ref,
    floor: u32,
    begun: usize,
    visits: &mut Vec<Ref>,
    out: &mut Vec<u32>,
) -> Result<(), AllocError>
    requires program { N.program ≡ named loaded.now }
    requires falls { AllFall 0 N.program.skeleton.nodes }
    requires in_range { IsInRange N.program (length cells.now) at }
    requires begun { begun ≤ length out.old.items }
    ensures { OnOk result (IsFollowed N.program cells.now floor begun at visits.old.items visits.new.items
        out.old.items out.new.items) }
{
    match at {
        Ref::Cell(cell) => follow_cell(loaded, cells, cell, floor, begun, visits, out),
        Ref::Node { node, base } => put_structure(loaded, node, base, visits),
        Ref::Number(_) => Ok(()),
        Ref::Free => unreachable!(),
        Ref::Half(_) => unreachable!(),
    }
}

/// Puts a cell at the end of a list, if it is not there from this place on. An error is want of memory.
#[inline(always)]
pub(crate) fn list_cell(cell: u32, begun: usize, out: &mut Vec<u32>) -> Result<(), AllocError>
    requires { begun ≤ length out.old.items }
    ensures { OnOk result (IsListed cell begun out.old.items out.new.items) }
{
    if !has_cell(&out[begun..], cell) {
        out.push(cell)?;
    }
    Ok(())
}

/// Whether a cell is among these.
#[inline(always)]
fn has_cell(cells: &[u32], cell: u32) -> bool
    ensures { result ≡ true → Contains cells.now cell }
{
    for other in cells {
        if *other == cell {
            return true;
        }
    }
    false
}

/// Puts a structure on a list, if it has parts. An error is want of memory.
#[inline(always)]
fn put_structure(
    loaded: &Loaded,
    node: NodeNo,
    base: u32,
    visits: &mut Vec<Ref>,
) -> Result<(), AllocError>
    requires { node.0 < length (skeleton_of loaded.now).nodes }
    ensures { OnOk result (IsPutIfParted (named loaded.now) (Ref.Node node base) visits.old.items visits.new.items) }
{
    if count_in(loaded.kind(node)) > 0 {
        visits.push(Ref::Node { node, base })?;
    }
    Ok(())
}

/// Puts what the parts of a structure are on a list, if they are free cells below the floor, and what else they lead
/// to on that of visits. An error is want of memory.
#[inline(always)]
fn put_parts<N: Naming>(
    loaded: &Loaded,
    cells: &PlainCells<N>,
    node: NodeNo,
    base: u32,
    floor: u32,
    begun: usize,
    visits: &mut Vec<Ref>,
    out: &mut Vec<u32>,
) -> Result<(), AllocError>
    requires program { N.program ≡ named loaded.now }
    requires falls { AllFall 0 N.program.skeleton.nodes }
    requires in_range { IsInRange N.program (length cells.now) (Ref.Node node base) }
    requires begun { begun ≤ length out.old.items }
    requires there { node.0 < length (skeleton_of loaded.now).nodes }
    requires base { base < 2 ^ 23 }
    ensures { OnOk result (IsFollowed N.program cells.now floor begun (Ref.Node node base) visits.old.items
        visits.new.items out.old.items out.new.items) }
{
    for place in 0..count_in(loaded.kind(node)) {
        let part = loaded.resolve(loaded.argument(node, place), base);
        follow_part(loaded, cells, part, floor, begun, visits, out)?;
    }
    Ok(())
}
