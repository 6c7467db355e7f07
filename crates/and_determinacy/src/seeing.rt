//! Clauses that are seen to fit a call, or to be apart from it, without a trial.
//!
//! Arguments of the call and of the head are gone over together, and what would be given to free cells of the call and
//! to variables of the head is noted; nothing is set. Where a structure of the call begins differently than what the
//! head asks for, or than what was noted of a variable that is met again, the clause is apart. Where more than a look
//! is needed, it is given up.

ghost use Rattle.std.specs.Prelude.{◌≡◌, ◌≢◌, ◌<◌, ◌≤◌, ◌^◌, ◌++◌, ◌∷◌, ◌⊎◌, ℕ, List, [], Ok, All, Contains, true, false, length, map, take, ◌↔◌};
ghost use Rattle.and_model.specs.Candidates.{Candidate};
ghost use Rattle.and_model.specs.Programs.{Of};
ghost use Rattle.and_model.specs.Terms.{framed, variable};
ghost use Rattle.and_model.specs.declared.reference.Ref.{Ref};
ghost use Rattle.and_program.specs.Loaded.{arguments_at, shape_at, skeleton_of};
ghost use Rattle.and_program.specs.Shown.{shown};
ghost use Rattle.and_program.specs.Skeletons;
ghost use Rattle.and_program.specs.Skeletons.{AllFall, node_term};
ghost use Rattle.and_cells.specs.Meaning.{IsSettled, cell_variable, equations_of};
ghost use Rattle.and_cells.specs.Parts.{named, part_at};
ghost use Rattle.and_cells.specs.Ranges.{IsInRange, IsInRangeOrHalf};
ghost use Rattle.and_cells.specs.Rows.{plain};
ghost use Rattle.and_cells.specs.Seen.{LeadsTo};
ghost use Rattle.and_branch_laws.specs.Judging.{outside};
ghost use Rattle.and_branch_laws.specs.Variables.{placed};
ghost use Rattle.and_guards.specs.Guards.{CanBeRead};
ghost use Rattle.and_determinacy.specs.Parting.{AreApart, ArePartedBy, IsStructureAt};
ghost use Rattle.and_determinacy.specs.Seeing.{Meets, AreLacking, HoldNone, IsPart, IsUsable, argument_pairs, ref_term};
ghost use Rattle.and_determinacy.specs.Watching.{StaysWhile};

use crate::parting::structures_are_apart;
use crate::rests::is_another;
use and_cells::{Naming, PlainCells};
use and_clause_index::count_in;
use and_model::{ClauseNo, NodeNo, Ref};
use and_program::{Loaded, NodeKind};
use std::alloc::AllocError;

/// So many structures, each the last part of the one before it, are looked into at most, lest a look in vain cost more
/// than the trial that it is to save.
const MOST_LINKS: u32 = 16;

/// What a look tells of a clause and a call.
#[derive(Clone, Copy)]
pub(crate) enum Sight {
    /// The clause is a candidate.
    Fits,
    /// It is none.
    Apart,
    /// Nothing.
    Untold,
}

/// Whether a look tells that a clause fits.
#[inline(always)]
pub(crate) fn is_fit(sight: Sight) -> bool
    ensures { (result ≡ true) ↔ (sight ≡ Sight.Fits) }
{
    match sight {
        Sight::Fits => true,
        Sight::Apart => false,
        Sight::Untold => false,
    }
}

/// What is told where a clause fits if this is so, and where else nothing is known.
#[inline(always)]
fn fits_if(so: bool) -> Sight
    ensures fits { result ≡ Sight.Fits → so ≡ true }
    ensures apart { result ≢ Sight.Apart }
{
    if so { Sight::Fits } else { Sight::Untold }
}

/// What is told where a clause is apart if this is so, and where else nothing is known.
#[inline(always)]
fn apart_if(so: bool) -> Sight
    ensures fits { result ≢ Sight.Fits }
    ensures apart { result ≡ Sight.Apart → so ≡ true }
{
    if so { Sight::Apart } else { Sight::Untold }
}

/// What a look tells of a clause and the call whose node is given, in the frame at the base. If the clause fits, the
/// cells on which this rests are then on a list that was empty. An error is want of memory.
#[inline(always)]
pub(crate) fn is_seen<N: Naming>(
    loaded: &Loaded,
    cells: &PlainCells<N>,
    node: NodeNo,
    base: u32,
    clause: ClauseNo,
    held: &mut Vec<u32>,
    given: &mut Vec<Ref>,
) -> Result<Sight, AllocError>
    requires program { N.program ≡ named loaded.now }
    requires settled { IsSettled N.program cells.now }
    requires node { CanBeRead N.program cells.now base node.0 }
    requires of { Of N.program.program (node_term N.program.skeleton.nodes node.0) clause.0 }
    requires nothing_held { held.old.items ≡ [] }
    requires nothing_given { given.old.items ≡ [] }
    ensures fits { result ≡ Ok Sight.Fits → Candidate N.program.program (equations_of N.program cells.now) outside
        (placed base (node_term N.program.skeleton.nodes node.0)) clause.0 }
    ensures stays { result ≡ Ok Sight.Fits → StaysWhile N.program cells.now base
        (node_term N.program.skeleton.nodes node.0) held.new.items clause.0 }
    ensures apart { result ≡ Ok Sight.Apart → Candidate N.program.program (equations_of N.program cells.now) outside
        (placed base (node_term N.program.skeleton.nodes node.0)) clause.0 → ⊥ }
{
    loaded.skeleton_is_of_the_program();
    let _words = cells.len();
    let guard = loaded.guard(clause);
    if guard > 0 {
        return Ok(Sight::Untold);
    }
    let head = loaded.head(clause);
    arguments_meet(loaded, cells, node, base, head, held, given)
}

/// Whether the arguments of a call, read in the frame at the base, are seen to be made one with those of a head, or to
/// be apart from them. What the variables of the head are given is noted, and the free cells of the call on which this
/// rests are put on a list. An error is want of memory.
fn arguments_meet<N: Naming>(
    loaded: &Loaded,
    cells: &PlainCells<N>,
    node: NodeNo,
    base: u32,
    head: NodeNo,
    held: &mut Vec<u32>,
    given: &mut Vec<Ref>,
) -> Result<Sight, AllocError>
    requires program { N.program ≡ named loaded.now }
    requires falls { AllFall 0 N.program.skeleton.nodes }
    requires in_range { IsInRange N.program (length cells.now) (Ref.Node node base) }
    requires there { head.0 < length (skeleton_of loaded.now).nodes }
    requires as_many { length (arguments_at (skeleton_of loaded.now) node.0)
        ≡ length (arguments_at (skeleton_of loaded.now) head.0) }
    requires usable { All (IsUsable N.program (length cells.now)) given.old.items }
    ensures meets { result ≡ Ok Sight.Fits
        → Meets N.program cells.now held.old.items held.new.items given.old.items given.new.items
        (argument_pairs N.program base (arguments_at N.program.skeleton node.0)
        (arguments_at N.program.skeleton head.0)) }
    ensures apart { result ≡ Ok Sight.Apart → ArePartedBy N.program cells.now given.old.items
        (argument_pairs N.program base (arguments_at N.program.skeleton node.0)
        (arguments_at N.program.skeleton head.0)) }
{
    for place in 0..count_in(loaded.kind(head)) {
        let part = loaded.resolve(loaded.argument(node, place), base);
        let asked = loaded.argument(head, place);
        let met = argument_meets(loaded, cells, part, asked, held, given)?;
        if !is_fit(met) {
            return Ok(met);
        }
    }
    Ok(Sight::Fits)
}

/// Whether one of them is.
#[inline(always)]
fn argument_meets<N: Naming>(
    loaded: &Loaded,
    cells: &PlainCells<N>,
    part: Ref,
    asked: NodeNo,
    held: &mut Vec<u32>,
    given: &mut Vec<Ref>,
) -> Result<Sight, AllocError>
    requires program { N.program ≡ named loaded.now }
    requires falls { AllFall 0 N.program.skeleton.nodes }
    requires in_range { IsPart N.program (length cells.now) part }
    requires there { asked.0 < length (skeleton_of loaded.now).nodes }
    requires usable { All (IsUsable N.program (length cells.now)) given.old.items }
    ensures meets { result ≡ Ok Sight.Fits
        → Meets N.program cells.now held.old.items held.new.items given.old.items given.new.items
        ((ref_term N.program part, framed outside (node_term N.program.skeleton.nodes asked.0)) ∷ []) }
    ensures apart { result ≡ Ok Sight.Apart → ArePartedBy N.program cells.now given.old.items
        ((ref_term N.program part, framed outside (node_term N.program.skeleton.nodes asked.0)) ∷ []) }
{
    match loaded.kind(asked) {
        NodeKind::Variable(number) => take(loaded, cells, part, asked, number, held, given),
        NodeKind::Number(_) => term_meets(loaded, cells, part, asked, held, given),
        NodeKind::Compound { name: _, count: _ } => term_meets(
            loaded, cells, part, asked, held, given,
        ),
    }
}

/// Whether a part of the call is seen to be made one with a term of the head that is no variable.
#[inline(always)]
fn term_meets<N: Naming>(
    loaded: &Loaded,
    cells: &PlainCells<N>,
    part: Ref,
    asked: NodeNo,
    held: &mut Vec<u32>,
    given: &mut Vec<Ref>,
) -> Result<Sight, AllocError>
    requires program { N.program ≡ named loaded.now }
    requires falls { AllFall 0 N.program.skeleton.nodes }
    requires in_range { IsPart N.program (length cells.now) part }
    requires there { asked.0 < length (skeleton_of loaded.now).nodes }
    requires solid { (k : ℕ) → shape_at N.program.skeleton asked.0 ≢ Skeletons.variable k }
    requires usable { All (IsUsable N.program (length cells.now)) given.old.items }
    ensures meets { result ≡ Ok Sight.Fits
        → Meets N.program cells.now held.old.items held.new.items given.old.items given.new.items
        ((ref_term N.program part, framed outside (node_term N.program.skeleton.nodes asked.0)) ∷ []) }
    ensures apart { result ≡ Ok Sight.Apart → ArePartedBy N.program cells.now given.old.items
        ((ref_term N.program part, framed outside (node_term N.program.skeleton.nodes asked.0)) ∷ []) }
{
    match end_of(cells, part) {
        Ref::Cell(cell) => fill(loaded, cells, cell, asked, held, given),
        Ref::Node { node, base } => structure_meets(loaded, cells, node, base, asked, held, given),
        Ref::Number(_) => Ok(Sight::Untold),
        Ref::Free => Ok(Sight::Untold),
        Ref::Half(_) => Ok(Sight::Untold),
    }
}

/// Whether a structure of the call is.
#[inline(always)]
fn structure_meets<N: Naming>(
    loaded: &Loaded,
    cells: &PlainCells<N>,
    node: NodeNo,
    base: u32,
    asked: NodeNo,
    held: &mut Vec<u32>,
    given: &mut Vec<Ref>,
) -> Result<Sight, AllocError>
    requires program { N.program ≡ named loaded.now }
    requires falls { AllFall 0 N.program.skeleton.nodes }
    requires in_range { IsInRange N.program (length cells.now) (Ref.Node node base) }
    requires there { asked.0 < length (skeleton_of loaded.now).nodes }
    requires solid { (k : ℕ) → shape_at N.program.skeleton asked.0 ≢ Skeletons.variable k }
    requires usable { All (IsUsable N.program (length cells.now)) given.old.items }
    ensures meets { result ≡ Ok Sight.Fits
        → Meets N.program cells.now held.old.items held.new.items given.old.items given.new.items
        ((ref_term N.program (Ref.Node node base), framed outside (node_term N.program.skeleton.nodes asked.0)) ∷ []) }
    ensures apart { result ≡ Ok Sight.Apart → ArePartedBy N.program cells.now given.old.items
        ((ref_term N.program (Ref.Node node base), framed outside (node_term N.program.skeleton.nodes asked.0)) ∷ []) }
{
    let kind = loaded.kind(node);
    let wanted = loaded.kind(asked);
    if kind != wanted {
        return Ok(Sight::Apart);
    }
    parts_meet(loaded, cells, node, base, asked, held, given)
}

/// Whether the arguments of a structure of the call are seen to be made one with those of one of the head, which are
/// variables and constants.
#[inline(always)]
fn parts_meet<N: Naming>(
    loaded: &Loaded,
    cells: &PlainCells<N>,
    node: NodeNo,
    base: u32,
    asked: NodeNo,
    held: &mut Vec<u32>,
    given: &mut Vec<Ref>,
) -> Result<Sight, AllocError>
    requires program { N.program ≡ named loaded.now }
    requires falls { AllFall 0 N.program.skeleton.nodes }
    requires in_range { IsInRange N.program (length cells.now) (Ref.Node node base) }
    requires there { asked.0 < length (skeleton_of loaded.now).nodes }
    requires as_many { length (arguments_at (skeleton_of loaded.now) node.0)
        ≡ length (arguments_at (skeleton_of loaded.now) asked.0) }
    requires usable { All (IsUsable N.program (length cells.now)) given.old.items }
    ensures meets { result ≡ Ok Sight.Fits
        → Meets N.program cells.now held.old.items held.new.items given.old.items given.new.items
        (argument_pairs N.program base (arguments_at N.program.skeleton node.0)
        (arguments_at N.program.skeleton asked.0)) }
    ensures apart { result ≡ Ok Sight.Apart → ArePartedBy N.program cells.now given.old.items
        (argument_pairs N.program base (arguments_at N.program.skeleton node.0)
        (arguments_at N.program.skeleton asked.0)) }
{
    for place in 0..count_in(loaded.kind(asked)) {
        let part = loaded.resolve(loaded.argument(node, place), base);
        let wanted = loaded.argument(asked, place);
        let met = part_meets(loaded, cells, part, wanted, held, given)?;
        if !is_fit(met) {
            return Ok(met);
        }
    }
    Ok(Sight::Fits)
}

/// Whether one of them is.
#[inline(always)]
fn part_meets<N: Naming>(
    loaded: &Loaded,
    cells: &PlainCells<N>,
    part: Ref,
    asked: NodeNo,
    held: &mut Vec<u32>,
    given: &mut Vec<Ref>,
) -> Result<Sight, AllocError>
    requires program { N.program ≡ named loaded.now }
    requires falls { AllFall 0 N.program.skeleton.nodes }
    requires in_range { IsPart N.program (length cells.now) part }
    requires there { asked.0 < length (skeleton_of loaded.now).nodes }
    requires usable { All (IsUsable N.program (length cells.now)) given.old.items }
    ensures meets { result ≡ Ok Sight.Fits
        → Meets N.program cells.now held.old.items held.new.items given.old.items given.new.items
        ((ref_term N.program part, framed outside (node_term N.program.skeleton.nodes asked.0)) ∷ []) }
    ensures apart { result ≡ Ok Sight.Apart → ArePartedBy N.program cells.now given.old.items
        ((ref_term N.program part, framed outside (node_term N.program.skeleton.nodes asked.0)) ∷ []) }
{
    match loaded.kind(asked) {
        NodeKind::Variable(number) => take(loaded, cells, part, asked, number, held, given),
        NodeKind::Number(_) => constant_meets(loaded, cells, part, asked, held, given),
        NodeKind::Compound { name: _, count: _ } => constant_meets(
            loaded, cells, part, asked, held, given,
        ),
    }
}

/// Whether a part of the call is seen to be made one with a term of the head that is no variable: a free cell, or the
/// same constant.
#[inline(always)]
fn constant_meets<N: Naming>(
    loaded: &Loaded,
    cells: &PlainCells<N>,
    part: Ref,
    asked: NodeNo,
    held: &mut Vec<u32>,
    given: &mut Vec<Ref>,
) -> Result<Sight, AllocError>
    requires program { N.program ≡ named loaded.now }
    requires falls { AllFall 0 N.program.skeleton.nodes }
    requires in_range { IsPart N.program (length cells.now) part }
    requires there { asked.0 < length (skeleton_of loaded.now).nodes }
    requires solid { (k : ℕ) → shape_at N.program.skeleton asked.0 ≢ Skeletons.variable k }
    requires usable { All (IsUsable N.program (length cells.now)) given.old.items }
    ensures meets { result ≡ Ok Sight.Fits
        → Meets N.program cells.now held.old.items held.new.items given.old.items given.new.items
        ((ref_term N.program part, framed outside (node_term N.program.skeleton.nodes asked.0)) ∷ []) }
    ensures apart { result ≡ Ok Sight.Apart → ArePartedBy N.program cells.now given.old.items
        ((ref_term N.program part, framed outside (node_term N.program.skeleton.nodes asked.0)) ∷ []) }
{
    match end_of(cells, part) {
        Ref::Cell(cell) => fill(loaded, cells, cell, asked, held, given),
        Ref::Node { node, base: _ } => Ok(constants_meet(loaded, node, asked)),
        Ref::Number(_) => Ok(Sight::Untold),
        Ref::Free => Ok(Sight::Untold),
        Ref::Half(_) => Ok(Sight::Untold),
    }
}

/// What is seen of a constant of the head and a structure of the call.
#[inline(always)]
fn constants_meet(loaded: &Loaded, node: NodeNo, other: NodeNo) -> Sight
    requires node { node.0 < length (skeleton_of loaded.now).nodes }
    requires other { other.0 < length (skeleton_of loaded.now).nodes }
    ensures kind { result ≡ Sight.Fits
        → shown (shape_at (skeleton_of loaded.now) node.0) ≡ shown (shape_at (skeleton_of loaded.now) other.0) }
    ensures none { result ≡ Sight.Fits → arguments_at (skeleton_of loaded.now) node.0 ≡ [] }
    ensures others { result ≡ Sight.Fits → arguments_at (skeleton_of loaded.now) other.0 ≡ [] }
    ensures apart { result ≡ Sight.Apart
        → shown (shape_at (skeleton_of loaded.now) node.0) ≢ shown (shape_at (skeleton_of loaded.now) other.0) }
{
    let kind = loaded.kind(node);
    let wanted = loaded.kind(other);
    if kind != wanted {
        return Sight::Apart;
    }
    fits_if(count_in(wanted) == 0)
}

/// Notes that a variable of the head is given a part of the call, where it is seen for the first time; else whether
/// that part is seen to be made one with what was noted.
#[inline(always)]
fn take<N: Naming>(
    loaded: &Loaded,
    cells: &PlainCells<N>,
    part: Ref,
    asked: NodeNo,
    number: u8,
    held: &mut Vec<u32>,
    given: &mut Vec<Ref>,
) -> Result<Sight, AllocError>
    requires program { N.program ≡ named loaded.now }
    requires falls { AllFall 0 N.program.skeleton.nodes }
    requires in_range { IsPart N.program (length cells.now) part }
    requires asked { node_term N.program.skeleton.nodes asked.0 ≡ variable [] number }
    requires usable { All (IsUsable N.program (length cells.now)) given.old.items }
    ensures meets { result ≡ Ok Sight.Fits
        → Meets N.program cells.now held.old.items held.new.items given.old.items given.new.items
        ((ref_term N.program part, framed outside (node_term N.program.skeleton.nodes asked.0)) ∷ []) }
    ensures apart { result ≡ Ok Sight.Apart → ArePartedBy N.program cells.now given.old.items
        ((ref_term N.program part, framed outside (node_term N.program.skeleton.nodes asked.0)) ∷ []) }
{
    let place = number as usize;
    if place == given.len() {
        given.push(part)?;
        return Ok(Sight::Fits);
    }
    if place > given.len() {
        return Ok(Sight::Untold);
    }
    let noted = given[place];
    if is_itself(noted) {
        return Ok(Sight::Untold);
    }
    join(loaded, cells, part, noted, held)
}

/// Whether a variable of which this is noted is itself.
#[inline(always)]
fn is_itself(noted: Ref) -> bool
    ensures itself { result ≡ true → noted ≡ Ref.Free }
    ensures another { result ≡ false → noted ≢ Ref.Free }
{
    matches!(noted, Ref::Free)
}

/// Whether two references are seen to be made one: one of them leads to a free cell, which is none of those on the list
/// and is given the other. Two structures may be seen to be apart.
fn join<N: Naming>(
    loaded: &Loaded,
    cells: &PlainCells<N>,
    part: Ref,
    other: Ref,
    held: &mut Vec<u32>,
) -> Result<Sight, AllocError>
    requires program { N.program ≡ named loaded.now }
    requires falls { AllFall 0 N.program.skeleton.nodes }
    requires part { IsPart N.program (length cells.now) part }
    requires other { IsPart N.program (length cells.now) other }
    ensures meets { result ≡ Ok Sight.Fits → (given : List Ref)
        → Meets N.program cells.now held.old.items held.new.items given given
        ((ref_term N.program part, ref_term N.program other) ∷ []) }
    ensures apart { result ≡ Ok Sight.Apart → AreApart N.program cells.now (ref_term N.program part)
        (ref_term N.program other) }
{
    match end_of(cells, part) {
        Ref::Cell(cell) => give(loaded, cells, cell, other, held),
        Ref::Node { node, base } => join_structure(loaded, cells, node, base, part, other, held),
        Ref::Number(_) => give_end(loaded, cells, other, part, held),
        Ref::Free => Ok(Sight::Untold),
        Ref::Half(_) => Ok(Sight::Untold),
    }
}

/// The same where the first leads to this structure.
#[inline(always)]
fn join_structure<N: Naming>(
    loaded: &Loaded,
    cells: &PlainCells<N>,
    node: NodeNo,
    base: u32,
    part: Ref,
    other: Ref,
    held: &mut Vec<u32>,
) -> Result<Sight, AllocError>
    requires program { N.program ≡ named loaded.now }
    requires falls { AllFall 0 N.program.skeleton.nodes }
    requires part { IsPart N.program (length cells.now) part }
    requires leads { IsStructureAt N.program cells.now part node base }
    requires other { IsPart N.program (length cells.now) other }
    ensures meets { result ≡ Ok Sight.Fits → (given : List Ref)
        → Meets N.program cells.now held.old.items held.new.items given given
        ((ref_term N.program part, ref_term N.program other) ∷ []) }
    ensures apart { result ≡ Ok Sight.Apart → AreApart N.program cells.now (ref_term N.program part)
        (ref_term N.program other) }
{
    match end_of(cells, other) {
        Ref::Cell(cell) => give(loaded, cells, cell, part, held),
        Ref::Node {
            node: second,
            base: second_base,
        } => Ok(apart_if(structures_are_apart(loaded, cells, node, base, second, second_base))),
        Ref::Number(_) => Ok(Sight::Untold),
        Ref::Free => Ok(Sight::Untold),
        Ref::Half(_) => Ok(Sight::Untold),
    }
}

/// The same where the first alone may lead to such a cell.
#[inline(always)]
fn give_end<N: Naming>(
    loaded: &Loaded,
    cells: &PlainCells<N>,
    part: Ref,
    other: Ref,
    held: &mut Vec<u32>,
) -> Result<Sight, AllocError>
    requires program { N.program ≡ named loaded.now }
    requires falls { AllFall 0 N.program.skeleton.nodes }
    requires part { IsPart N.program (length cells.now) part }
    requires other { IsPart N.program (length cells.now) other }
    ensures meets { result ≡ Ok Sight.Fits → (given : List Ref)
        → Meets N.program cells.now held.old.items held.new.items given given
        ((ref_term N.program part, ref_term N.program other) ∷ []) }
    ensures apart { result ≢ Ok Sight.Apart }
{
    match end_of(cells, part) {
        Ref::Cell(cell) => give(loaded, cells, cell, other, held),
        Ref::Node { node: _, base: _ } => Ok(Sight::Untold),
        Ref::Number(_) => Ok(Sight::Untold),
        Ref::Free => Ok(Sight::Untold),
        Ref::Half(_) => Ok(Sight::Untold),
    }
}

/// Whether a cell is free, none of those on the list, and not held by what it is to be given. It is then on the list.
#[inline(always)]
fn give<N: Naming>(
    loaded: &Loaded,
    cells: &PlainCells<N>,
    cell: u32,
    other: Ref,
    held: &mut Vec<u32>,
) -> Result<Sight, AllocError>
    requires program { N.program ≡ named loaded.now }
    requires falls { AllFall 0 N.program.skeleton.nodes }
    requires cell { cell < length cells.now }
    requires other { IsPart N.program (length cells.now) other }
    ensures meets { result ≡ Ok Sight.Fits → (given : List Ref)
        → Meets N.program cells.now held.old.items held.new.items given given
        ((cell_variable cell, ref_term N.program other) ∷ []) }
    ensures apart { result ≢ Ok Sight.Apart }
{
    let another = is_another(cells, cell, held);
    if !another {
        return Ok(Sight::Untold);
    }
    held.push(cell)?;
    let none = holds_none(loaded, cells, other, held)?;
    Ok(fits_if(none))
}

/// Whether the term of a reference is seen to hold none of the cells on the list. The free cells that it holds are then
/// on it too. Lists are gone along, by the last part of each structure.
#[inline(always)]
fn holds_none<N: Naming>(
    loaded: &Loaded,
    cells: &PlainCells<N>,
    part: Ref,
    held: &mut Vec<u32>,
) -> Result<bool, AllocError>
    requires program { N.program ≡ named loaded.now }
    requires falls { AllFall 0 N.program.skeleton.nodes }
    requires part { IsPart N.program (length cells.now) part }
    ensures { result ≡ Ok true → HoldNone N.program cells.now held.old.items held.new.items (part ∷ []) }
{
    let mut at = part;
    for _turn in 0..MOST_LINKS {
        match end_of(cells, at) {
            Ref::Cell(cell) => return hold(cells, cell, held),
            Ref::Node { node, base } => {
                let count = count_in(loaded.kind(node));
                if count == 0 {
                    return Ok(true);
                }
                let last = count - 1;
                let none = parts_hold_none(loaded, cells, node, base, last, held)?;
                if !none {
                    return Ok(false);
                }
                at = loaded.resolve(loaded.argument(node, last), base);
            }
            Ref::Number(_) => return Ok(true),
            Ref::Free => return Ok(false),
            Ref::Half(_) => return Ok(false),
        }
    }
    Ok(false)
}

/// Whether so do that many first parts of a structure, which are free cells and constants.
#[inline(always)]
fn parts_hold_none<N: Naming>(
    loaded: &Loaded,
    cells: &PlainCells<N>,
    node: NodeNo,
    base: u32,
    count: u8,
    held: &mut Vec<u32>,
) -> Result<bool, AllocError>
    requires program { N.program ≡ named loaded.now }
    requires falls { AllFall 0 N.program.skeleton.nodes }
    requires in_range { IsInRange N.program (length cells.now) (Ref.Node node base) }
    requires count { count ≤ length (arguments_at (skeleton_of loaded.now) node.0) }
    ensures { result ≡ Ok true → HoldNone N.program cells.now held.old.items held.new.items
        (map (part_at N.program base) (take count (arguments_at N.program.skeleton node.0))) }
{
    for place in 0..count {
        let part = loaded.resolve(loaded.argument(node, place), base);
        let none = part_holds_none(loaded, cells, part, held)?;
        if !none {
            return Ok(false);
        }
    }
    Ok(true)
}

/// Whether one of them does.
#[inline(always)]
fn part_holds_none<N: Naming>(
    loaded: &Loaded,
    cells: &PlainCells<N>,
    part: Ref,
    held: &mut Vec<u32>,
) -> Result<bool, AllocError>
    requires program { N.program ≡ named loaded.now }
    requires falls { AllFall 0 N.program.skeleton.nodes }
    requires part { IsPart N.program (length cells.now) part }
    ensures { result ≡ Ok true → HoldNone N.program cells.now held.old.items held.new.items (part ∷ []) }
{
    match end_of(cells, part) {
        Ref::Cell(cell) => hold(cells, cell, held),
        Ref::Node { node, base: _ } => Ok(count_in(loaded.kind(node)) == 0),
        Ref::Number(_) => Ok(true),
        Ref::Free => Ok(false),
        Ref::Half(_) => Ok(false),
    }
}

/// Whether a cell is free and none of those on the list. It is then on it.
#[inline(always)]
fn hold<N: Naming>(
    cells: &PlainCells<N>,
    cell: u32,
    held: &mut Vec<u32>,
) -> Result<bool, AllocError>
    requires { cell < length cells.now }
    ensures { result ≡ Ok true → HoldNone N.program cells.now held.old.items held.new.items (Ref.Cell cell ∷ []) }
{
    let another = is_another(cells, cell, held);
    if another {
        held.push(cell)?;
    }
    Ok(another)
}

/// Fills a free cell of the call, which is none of those on the list, by a term of the head that is no variable, and
/// whose arguments are variables and constants.
#[inline(always)]
fn fill<N: Naming>(
    loaded: &Loaded,
    cells: &PlainCells<N>,
    cell: u32,
    asked: NodeNo,
    held: &mut Vec<u32>,
    given: &mut Vec<Ref>,
) -> Result<Sight, AllocError>
    requires program { N.program ≡ named loaded.now }
    requires falls { AllFall 0 N.program.skeleton.nodes }
    requires in_range { cell < length cells.now }
    requires there { asked.0 < length (skeleton_of loaded.now).nodes }
    requires solid { (k : ℕ) → shape_at N.program.skeleton asked.0 ≢ Skeletons.variable k }
    requires usable { All (IsUsable N.program (length cells.now)) given.old.items }
    ensures meets { result ≡ Ok Sight.Fits
        → Meets N.program cells.now held.old.items held.new.items given.old.items given.new.items
        ((cell_variable cell, framed outside (node_term N.program.skeleton.nodes asked.0)) ∷ []) }
    ensures apart { result ≢ Ok Sight.Apart }
{
    let another = is_another(cells, cell, held);
    if !another {
        return Ok(Sight::Untold);
    }
    held.push(cell)?;
    let lack = parts_lack(loaded, cells, asked, held, given)?;
    Ok(fits_if(lack))
}

/// Whether the arguments of a term of the head are seen to lack the cells on the list.
#[inline(always)]
fn parts_lack<N: Naming>(
    loaded: &Loaded,
    cells: &PlainCells<N>,
    asked: NodeNo,
    held: &mut Vec<u32>,
    given: &mut Vec<Ref>,
) -> Result<bool, AllocError>
    requires program { N.program ≡ named loaded.now }
    requires falls { AllFall 0 N.program.skeleton.nodes }
    requires there { asked.0 < length (skeleton_of loaded.now).nodes }
    requires usable { All (IsUsable N.program (length cells.now)) given.old.items }
    ensures { result ≡ Ok true → AreLacking N.program cells.now held.old.items held.new.items given.old.items
        given.new.items (arguments_at N.program.skeleton asked.0) }
{
    for place in 0..count_in(loaded.kind(asked)) {
        let lacks = part_lacks(loaded, cells, loaded.argument(asked, place), held, given)?;
        if !lacks {
            return Ok(false);
        }
    }
    Ok(true)
}

/// Whether one of them is.
#[inline(always)]
fn part_lacks<N: Naming>(
    loaded: &Loaded,
    cells: &PlainCells<N>,
    asked: NodeNo,
    held: &mut Vec<u32>,
    given: &mut Vec<Ref>,
) -> Result<bool, AllocError>
    requires program { N.program ≡ named loaded.now }
    requires falls { AllFall 0 N.program.skeleton.nodes }
    requires there { asked.0 < length (skeleton_of loaded.now).nodes }
    requires usable { All (IsUsable N.program (length cells.now)) given.old.items }
    ensures { result ≡ Ok true → AreLacking N.program cells.now held.old.items held.new.items given.old.items
        given.new.items (asked.0 ∷ []) }
{
    match loaded.kind(asked) {
        NodeKind::Variable(number) => variable_lacks(loaded, cells, asked, number, held, given),
        NodeKind::Number(_) => Ok(true),
        NodeKind::Compound { name: _, count } => Ok(count == 0),
    }
}

/// Whether a variable of the head is, which is noted as itself where it is seen for the first time.
#[inline(always)]
fn variable_lacks<N: Naming>(
    loaded: &Loaded,
    cells: &PlainCells<N>,
    asked: NodeNo,
    number: u8,
    held: &mut Vec<u32>,
    given: &mut Vec<Ref>,
) -> Result<bool, AllocError>
    requires program { N.program ≡ named loaded.now }
    requires falls { AllFall 0 N.program.skeleton.nodes }
    requires asked { node_term N.program.skeleton.nodes asked.0 ≡ variable [] number }
    requires usable { All (IsUsable N.program (length cells.now)) given.old.items }
    ensures { result ≡ Ok true → AreLacking N.program cells.now held.old.items held.new.items given.old.items
        given.new.items (asked.0 ∷ []) }
{
    let place = number as usize;
    if place == given.len() {
        given.push(Ref::Free)?;
        return Ok(true);
    }
    if place > given.len() {
        return Ok(false);
    }
    let noted = given[place];
    if is_itself(noted) {
        return Ok(true);
    }
    holds_none(loaded, cells, noted, held)
}

/// What a reference leads to: a node, a number, or a cell that is set to no reference.
#[inline(always)]
pub(crate) fn end_of<N: Naming>(cells: &PlainCells<N>, from: Ref) -> Ref
    requires in_range { IsInRange N.program (length cells.now) from }
    ensures leads { LeadsTo (plain cells.now) from result }
    ensures in_range { IsInRangeOrHalf N.program (length cells.now) result }
{
    let mut at = from;
    while let Ref::Cell(cell) = at {
        match cells.word(cell) {
            Ref::Free => break,
            set => at = set,
        }
    }
    at
}
