//! What is settled, and noted.

ghost use Rattle.std.specs.Prelude.{◌≡◌, ◌≢◌, ◌<◌, ◌∷◌, [], ℕ, suc, length, slice_set};
ghost use Rattle.and_model.specs.declared.reference.Ref.{Ref};
ghost use Rattle.and_cells.specs.Meaning.{IsSettled};
ghost use Rattle.and_cells.specs.Parts.{named, part_at};
ghost use Rattle.and_branch_laws.specs.Goals.{CanBeRead};
ghost use Rattle.and_cells.specs.Ranges.{IsInRange, IsInRangeOrHalf, IsNodeInRange, IsPairInRange};
ghost use Rattle.and_cells.specs.Rows.{plain, IsSound};
ghost use Rattle.and_cells.specs.Seen.{word_at, IsWrittenIfNumber, LeadsTo};
ghost use Rattle.and_unify.specs.Pairs.{AreInRange, AreWritten, NameNoHalf};
ghost use Rattle.and_unify.specs.Settling.{AreNewFrom, Settles, SetsPlaces};
ghost use Rattle.and_unify.specs.declared.settling.Settled.TheVariants.{Memory, NoSolution};
ghost use Rattle.and_heads.specs.Calls.{call_and_head};
ghost use Rattle.and_reduction.specs.Trails.{AreNoted, KeepsNoted};
ghost use Rattle.and_reduction.specs.Asked.{the_pair};

use crate::taking::Tools;
use crate::trail::Trail;
use and_cells::{Naming, PlainCells, deref};
use and_model::{NodeNo, Ref};
use and_program::Loaded;
use and_unify::Settled as Answer;

/// Settles the pairs over cells that are settled, where the words from `floor` on are new, and notes
/// which words were set.
#[inline(always)]
pub(crate) fn settle_noted<N: Naming>(
    loaded: &Loaded,
    cells: &mut PlainCells<N>,
    floor: u32,
    trail: &mut Trail,
    tools: &mut Tools,
) -> Answer
    requires program { N.program ≡ named loaded.now }
    requires in_range { AreInRange N.program (length cells.old) tools.old.pairs }
    requires written { AreWritten (plain cells.old) tools.old.pairs }
    requires settled { IsSettled N.program cells.old }
    requires no_half { NameNoHalf N.program (word_at cells.old) tools.old.pairs }
    requires new { AreNewFrom N.program cells.old tools.old.pairs floor }
    ensures settles { Settles N.program cells.old cells.new tools.old.pairs result }
    ensures noted { result ≢ Memory → KeepsNoted trail.old trail.new cells.old cells.new }
    ensures places { SetsPlaces N.program cells.old cells.new tools.old.pairs }
{
    let answer = tools
        .solver
        .settle_further(loaded, cells, floor, &mut tools.pairs);
    match trail.note(tools.solver.bound()) {
        Ok(()) => answer,
        Err(_) => Answer::Memory,
    }
}

/// The same of the one pair of a call and a head, which are nodes in the frames at the base and at the floor.
#[inline(always)]
pub(crate) fn settle_call_noted<N: Naming>(
    loaded: &Loaded,
    cells: &mut PlainCells<N>,
    floor: u32,
    call: NodeNo,
    base: u32,
    head: NodeNo,
    trail: &mut Trail,
    tools: &mut Tools,
) -> Answer
    requires program { N.program ≡ named loaded.now }
    requires call { IsNodeInRange N.program (length cells.old) call.0 base }
    requires head { IsNodeInRange N.program (length cells.old) head.0 floor }
    requires in_range { AreInRange N.program (length cells.old) (call_and_head N.program base call.0 floor head.0) }
    requires written { AreWritten (plain cells.old) (call_and_head N.program base call.0 floor head.0) }
    requires settled { IsSettled N.program cells.old }
    requires no_half { NameNoHalf N.program (word_at cells.old) (call_and_head N.program base call.0 floor head.0) }
    requires new { AreNewFrom N.program cells.old (call_and_head N.program base call.0 floor head.0) floor }
    ensures settles { Settles N.program cells.old cells.new
        (call_and_head N.program base call.0 floor head.0) result }
    ensures noted { result ≢ Memory → KeepsNoted trail.old trail.new cells.old cells.new }
    ensures places { SetsPlaces N.program cells.old cells.new
        (call_and_head N.program base call.0 floor head.0) }
{
    let answer = tools
        .solver
        .settle_call(loaded, cells, floor, call, base, head);
    match trail.note(tools.solver.bound()) {
        Ok(()) => answer,
        Err(_) => Answer::Memory,
    }
}

/// The same of the one pair of a node in the frame at the base and the number that a pair of words holds. Where the
/// node leads to a free cell, this is set to the number.
#[inline(always)]
pub(crate) fn settle_number<N: Naming>(
    loaded: &Loaded,
    cells: &mut PlainCells<N>,
    base: u32,
    node: NodeNo,
    pair: u32,
    floor: u32,
    trail: &mut Trail,
    tools: &mut Tools,
) -> Answer
    requires program { N.program ≡ named loaded.now }
    requires node { CanBeRead N.program cells.old base node.0 }
    requires in_range { AreInRange N.program (length cells.old)
        (the_pair (part_at N.program base node.0) (Ref.Number pair)) }
    requires written { AreWritten (plain cells.old) (the_pair (part_at N.program base node.0) (Ref.Number pair)) }
    requires settled { IsSettled N.program cells.old }
    requires no_half { NameNoHalf N.program (word_at cells.old)
        (the_pair (part_at N.program base node.0) (Ref.Number pair)) }
    requires new { AreNewFrom N.program cells.old (the_pair (part_at N.program base node.0) (Ref.Number pair)) floor }
    ensures settles { Settles N.program cells.old cells.new (the_pair (part_at N.program base node.0) (Ref.Number pair))
        result }
    ensures noted { result ≢ Memory → KeepsNoted trail.old trail.new cells.old cells.new }
    ensures places { SetsPlaces N.program cells.old cells.new
        (the_pair (part_at N.program base node.0) (Ref.Number pair)) }
{
    loaded.skeleton_is_of_the_program();
    let _words = cells.len();
    let left = loaded.resolve(node, base);
    if let Ref::Cell(cell) = end_of(cells, left) {
        return set_to_number(cells, cell, pair, trail);
    }
    settle_pair(loaded, cells, base, node, pair, floor, trail, tools)
}

/// The same, by unification. This stands in a call of its own that takes numbers, so that neither a list of pairs
/// nor a reference is written to memory where it is not wanted.
#[inline(never)]
fn settle_pair<N: Naming>(
    loaded: &Loaded,
    cells: &mut PlainCells<N>,
    base: u32,
    node: NodeNo,
    pair: u32,
    floor: u32,
    trail: &mut Trail,
    tools: &mut Tools,
) -> Answer
    requires program { N.program ≡ named loaded.now }
    requires node { CanBeRead N.program cells.old base node.0 }
    requires in_range { AreInRange N.program (length cells.old)
        (the_pair (part_at N.program base node.0) (Ref.Number pair)) }
    requires written { AreWritten (plain cells.old) (the_pair (part_at N.program base node.0) (Ref.Number pair)) }
    requires settled { IsSettled N.program cells.old }
    requires no_half { NameNoHalf N.program (word_at cells.old)
        (the_pair (part_at N.program base node.0) (Ref.Number pair)) }
    requires new { AreNewFrom N.program cells.old (the_pair (part_at N.program base node.0) (Ref.Number pair)) floor }
    ensures settles { Settles N.program cells.old cells.new (the_pair (part_at N.program base node.0) (Ref.Number pair))
        result }
    ensures noted { result ≢ Memory → KeepsNoted trail.old trail.new cells.old cells.new }
    ensures places { SetsPlaces N.program cells.old cells.new
        (the_pair (part_at N.program base node.0) (Ref.Number pair)) }
{
    loaded.skeleton_is_of_the_program();
    let left = loaded.resolve(node, base);
    tools.pairs.clear();
    match tools.pairs.push(left, Ref::Number(pair)) {
        Ok(()) => settle_noted(loaded, cells, floor, trail, tools),
        Err(_) => Answer::Memory,
    }
}

/// What a reference leads to: a node, a number, a free cell, or a word of a pair. The cells are as before.
fn end_of<N: Naming>(cells: &mut PlainCells<N>, from: Ref) -> Ref
    requires in_range { IsInRange N.program (length cells.old) from }
    requires written { IsWrittenIfNumber (plain cells.old) from }
    ensures unchanged { cells.new ≡ cells.old }
    ensures leads { LeadsTo (plain cells.old) from result }
    ensures in_range { IsInRangeOrHalf N.program (length cells.old) result }
    ensures free { (cell : ℕ) → result ≡ Ref.Cell cell → word_at cells.old cell ≡ Ref.Free }
{
    deref(cells, from)
}

/// Sets a free cell to the number that a pair of words holds, and notes it.
fn set_to_number<N: Naming>(
    cells: &mut PlainCells<N>,
    cell: u32,
    pair: u32,
    trail: &mut Trail,
) -> Answer
    requires cell { cell < length cells.old }
    requires free { word_at cells.old cell ≡ Ref.Free }
    requires pair { IsPairInRange (length cells.old) pair }
    requires written { (word_at cells.old pair ≢ Ref.Free) × (word_at cells.old (suc pair) ≢ Ref.Free) }
    ensures set { cells.new ≡ slice_set cells.old cell (Ref.Number pair) }
    ensures sound { IsSound N.program cells.new }
    ensures solved { result ≢ NoSolution }
    ensures noted { result ≢ Memory → AreNoted trail.old trail.new (cell ∷ []) }
{
    let _before = cells.len();
    cells.set(cell, Ref::Number(pair));
    let _after = cells.len();
    match trail.note(&[cell]) {
        Ok(()) => Answer::Solved,
        Err(_) => Answer::Memory,
    }
}
