//! The cells on which candidates rest that were tried.

ghost use Rattle.std.specs.Prelude.{◌≡◌, ◌≢◌, ◌<◌, ◌≤◌, ◌^◌, ℕ, List, [], Some, None, Ok, true, false, length, All, OnOk, IfSome};
ghost use Rattle.std.specs.Prelude.{option_copied};
ghost use Rattle.and_model.specs.Candidates.{Candidate, guard};
ghost use Rattle.and_model.specs.Programs.{Of, clause_at};
ghost use Rattle.and_program.specs.Skeletons.{AllFall, node_term};
ghost use Rattle.and_cells.specs.Meaning.{IsSettled, equations_of};
ghost use Rattle.and_cells.specs.Parts.{named};
ghost use Rattle.and_branch_laws.specs.Judging.{outside};
ghost use Rattle.and_branch_laws.specs.Variables.{placed};
ghost use Rattle.and_guards.specs.Guards.{CanBeRead};
ghost use Rattle.and_determinacy.specs.Watching.{HaveWhatWasSet, HadBefore, StaysWhile, AreListed, AreAllListed};
ghost use Rattle.and_determinacy.specs.Watching.{AreFreeArguments};
ghost use Rattle.and_model.specs.declared.reference.Ref.{Ref};
ghost use Rattle.and_program.specs.Loaded.{arguments_at, skeleton_of};
ghost use Rattle.and_cells.specs.Ranges.{IsInRange};
ghost use Rattle.and_cells.specs.Seen.{word_at};

use crate::seeing::{Sight, is_fit, is_seen};
use crate::watching::{MOST_PLACES, follow_cell, gather, list_cell};
use and_cells::{Naming, PlainCells};
use and_clause_index::count_in;
use and_model::{ClauseNo, NodeNo, Ref};
use and_program::Loaded;
use std::alloc::{AllocError, Global};
use std::marker::Model;

/// So many looks at a clause are passed over at most, after others that told nothing.
const MOST_PASSED: u32 = 7;

/// A clause of which a look told nothing, and how many next looks at it are passed over: more each time, since a clause
/// of which nothing is seen is mostly such the next time too, and then a look is lost.
#[derive(Clone, Copy, PartialEq, Eq, Debug)]
struct PassedLooks {
    clause: ClauseNo,
    most: u32,
    left: u32,
}

impl PassedLooks {
    /// Whether a look at the clause is passed over, of which then one fewer is.
    #[inline(always)]
    fn passes_over(&mut self, clause: ClauseNo) -> bool {
        if self.left == 0 || self.clause.0 != clause.0 {
            return false;
        }
        self.left -= 1;
        true
    }

    /// What another look at the clause told is heeded.
    #[inline(always)]
    fn heeds(&mut self, clause: ClauseNo, sight: Sight) {
        match sight {
            Sight::Fits => {}
            Sight::Apart => {}
            Sight::Untold => self.grows(clause),
        }
    }

    /// Another look at the clause told nothing.
    fn grows(&mut self, clause: ClauseNo) {
        if self.clause.0 != clause.0 {
            self.clause = clause;
            self.most = 0;
        }
        if self.most < MOST_PASSED {
            self.most = 2 * self.most + 1;
        }
        self.left = self.most;
    }
}

/// The cells on which clauses rest that were tried and fitted, where these are told: they are not where
/// they are too many, or where a clause has a guard.
pub(crate) struct Rests {
    cells: Vec<u32>,
    are_told: bool,
    visits: Vec<Ref>,
    held: Vec<u32>,
    passed: PassedLooks,
}

// By hand, so that it is proved once, here.
impl Drop for Rests {
    fn drop(self) {
        let Rests {
            cells: _,
            are_told: _,
            visits: _,
            held: _,
            passed: _,
        } = self;
    }
}

impl Model for Rests {
    ghost use Rattle.std.specs.Prelude.{List, ℕ, Option};
    ghost use Rattle.and_determinacy.specs.Watching.{told_if};

    ghost Value = { Option (List ℕ) };

    ghost view = { λ rests. told_if rests.are_told rests.cells.items };
}

impl Rests {
    /// Nothing is told. Takes no memory.
    pub(crate) fn new(alloc: Global) -> Rests
        ensures { result ≡ None }
    {
        Rests {
            cells: Vec::new(alloc),
            are_told: false,
            visits: Vec::new(alloc),
            held: Vec::new(alloc),
            passed: PassedLooks {
                clause: ClauseNo(0),
                most: 0,
                left: 0,
            },
        }
    }

    /// No clause was tried yet.
    pub(crate) fn begin(&mut self)
        ensures { self.new ≡ Some [] }
    {
        self.cells.clear();
        self.are_told = true;
    }

    /// Nothing is told any longer.
    pub(crate) fn forget(&mut self)
        ensures { self.new ≡ None }
    {
        self.are_told = false;
    }

    /// The cells, where they are told.
    pub(crate) fn told(&self) -> Option<&[u32]>
        ensures { option_copied result ≡ self.now }
    {
        if self.are_told {
            Some(&self.cells)
        } else {
            None
        }
    }

    /// Whether the arguments of a call, whose node is given, are free cells in the frame at the base, each another one.
    /// Then these are told. An error is want of memory.
    #[inline(always)]
    pub(crate) fn tell_free<N: Naming>(
        &mut self,
        loaded: &Loaded,
        cells: &PlainCells<N>,
        node: NodeNo,
        base: u32,
    ) -> Result<bool, AllocError>
        requires program { N.program ≡ named loaded.now }
        requires falls { AllFall 0 N.program.skeleton.nodes }
        requires in_range { IsInRange N.program (length cells.now) (Ref.Node node base) }
        ensures { result ≡ Ok true → (has : List ℕ) × (self.new ≡ Some has)
            × AreFreeArguments N.program cells.now base (arguments_at N.program.skeleton node.0) has }
    {
        self.cells.clear();
        self.are_told = true;
        list_free(loaded, cells, node, base, &mut self.cells)
    }

    /// What a look tells of a clause and the call whose node is given, in the frame at the base, without a trial. If
    /// the clause fits, the cells are added on which this rests. An error is want of memory.
    #[inline(always)]
    pub(crate) fn add_seen<N: Naming>(
        &mut self,
        loaded: &Loaded,
        cells: &PlainCells<N>,
        node: NodeNo,
        base: u32,
        clause: ClauseNo,
    ) -> Result<Sight, AllocError>
        requires program { N.program ≡ named loaded.now }
        requires settled { IsSettled N.program cells.now }
        requires node { CanBeRead N.program cells.now base node.0 }
        requires of { Of N.program.program (node_term N.program.skeleton.nodes node.0) clause.0 }
        ensures fits { result ≡ Ok Sight.Fits → Candidate N.program.program (equations_of N.program cells.now) outside
            (placed base (node_term N.program.skeleton.nodes node.0)) clause.0 }
        ensures apart { result ≡ Ok Sight.Apart → Candidate N.program.program (equations_of N.program cells.now) outside
            (placed base (node_term N.program.skeleton.nodes node.0)) clause.0 → ⊥ }
        ensures before { result ≡ Ok Sight.Fits → IfSome self.new (HadBefore self.old) }
        ensures stays { result ≡ Ok Sight.Fits → IfSome self.new (λ has.
            StaysWhile N.program cells.now base (node_term N.program.skeleton.nodes node.0) has clause.0) }
        ensures same { result ≡ Ok Sight.Untold → self.new ≡ self.old }
        ensures same_apart { result ≡ Ok Sight.Apart → self.new ≡ self.old }
    {
        if self.passed.passes_over(clause) {
            return Ok(Sight::Untold);
        }
        self.held.clear();
        self.visits.clear();
        let seen = is_seen(
            loaded,
            cells,
            node,
            base,
            clause,
            &mut self.held,
            &mut self.visits,
        )?;
        if !is_fit(seen) {
            self.passed.heeds(clause, seen);
            return Ok(seen);
        }
        if !self.are_told {
            return Ok(Sight::Fits);
        }
        list_all(&self.held, &mut self.cells)?;
        Ok(Sight::Fits)
    }

    /// Adds the cells on which a clause rests that was tried and fitted: of those below the floor, where
    /// its frame begins, these that were set for it, and the free ones that what they were set to holds.
    /// An error is want of memory.
    pub(crate) fn add<N: Naming>(
        &mut self,
        loaded: &Loaded,
        cells: &PlainCells<N>,
        clause: ClauseNo,
        floor: u32,
        bound: &[u32],
    ) -> Result<(), AllocError>
        requires program { N.program ≡ named loaded.now }
        requires falls { AllFall 0 N.program.skeleton.nodes }
        requires clause { clause.0 ≤ length N.program.program.clauses }
        requires in_row { All (λ (cell : ℕ). cell < length cells.now) bound.now }
        ensures before { OnOk result (IfSome self.new (HadBefore self.old)) }
        ensures no_guard { OnOk result
            (IfSome self.new (λ has. guard [] (clause_at N.program.program clause.0).body ≡ [])) }
        ensures have { OnOk result (IfSome self.new (HaveWhatWasSet N.program cells.now floor bound.now)) }
    {
        if !self.are_told {
            return Ok(());
        }
        if loaded.guard(clause) > 0 || bound.len() > MOST_PLACES as usize {
            self.are_told = false;
            return Ok(());
        }
        self.visits.clear();
        list_below(
            loaded,
            cells,
            bound,
            floor,
            &mut self.visits,
            &mut self.cells,
        )?;
        self.are_told = gather(loaded, cells, floor, 0, &mut self.visits, &mut self.cells)?;
        Ok(())
    }
}

/// Whether the arguments of a call, whose node is given, are free cells in the frame at the base, each another one,
/// which are then on a list that was empty. An error is want of memory.
#[inline(always)]
fn list_free<N: Naming>(
    loaded: &Loaded,
    cells: &PlainCells<N>,
    node: NodeNo,
    base: u32,
    out: &mut Vec<u32>,
) -> Result<bool, AllocError>
    requires program { N.program ≡ named loaded.now }
    requires falls { AllFall 0 N.program.skeleton.nodes }
    requires in_range { IsInRange N.program (length cells.now) (Ref.Node node base) }
    requires there { node.0 < length (skeleton_of loaded.now).nodes }
    requires base { base < 2 ^ 23 }
    requires empty { out.old.items ≡ [] }
    ensures { result ≡ Ok true → AreFreeArguments N.program cells.now base
        (arguments_at N.program.skeleton node.0) out.new.items }
{
    for place in 0..count_in(loaded.kind(node)) {
        let part = loaded.resolve(loaded.argument(node, place), base);
        match part {
            Ref::Cell(cell) => {
                let is_new = is_another(cells, cell, out);
                if !is_new {
                    return Ok(false);
                }
                out.push(cell)?;
            }
            Ref::Node { node: _, base: _ } => return Ok(false),
            Ref::Number(_) => return Ok(false),
            Ref::Free => return Ok(false),
            Ref::Half(_) => return Ok(false),
        }
    }
    Ok(true)
}

/// Whether a cell is free and none of these.
#[inline(always)]
pub(crate) fn is_another<N: Naming>(cells: &PlainCells<N>, cell: u32, others: &[u32]) -> bool
    requires { cell < length cells.now }
    ensures free { result ≡ true → word_at cells.now cell ≡ Ref.Free }
    ensures another { result ≡ true → All (λ (other : ℕ). other ≢ cell) others.now }
{
    match cells.word(cell) {
        Ref::Free => lacks_cell(others, cell),
        Ref::Cell(_) => false,
        Ref::Node { node: _, base: _ } => false,
        Ref::Number(_) => false,
        Ref::Half(_) => false,
    }
}

/// Whether a cell is none of these.
#[inline(always)]
fn lacks_cell(others: &[u32], cell: u32) -> bool
    ensures { result ≡ true → All (λ (other : ℕ). other ≢ cell) others.now }
{
    for other in others {
        if *other == cell {
            return false;
        }
    }
    true
}

/// Puts those of these cells that are below the floor on a list, on which none stands twice, and what else they lead
/// to on that of visits. An error is want of memory.
#[inline(always)]
fn list_below<N: Naming>(
    loaded: &Loaded,
    cells: &PlainCells<N>,
    bound: &[u32],
    floor: u32,
    visits: &mut Vec<Ref>,
    out: &mut Vec<u32>,
) -> Result<(), AllocError>
    requires program { N.program ≡ named loaded.now }
    requires falls { AllFall 0 N.program.skeleton.nodes }
    requires in_row { All (λ (cell : ℕ). cell < length cells.now) bound.now }
    requires empty { visits.old.items ≡ [] }
    ensures { OnOk result (AreListed N.program cells.now bound.now floor visits.new.items out.old.items out.new.items) }
{
    for cell in bound {
        if *cell < floor {
            list_cell(*cell, 0, out)?;
            follow_cell(loaded, cells, *cell, floor, 0, visits, out)?;
        }
    }
    Ok(())
}

/// Puts these cells on a list, unless they are there. An error is want of memory.
#[inline(always)]
fn list_all(cells: &[u32], out: &mut Vec<u32>) -> Result<(), AllocError>
    ensures { OnOk result (AreAllListed cells.now out.old.items out.new.items) }
{
    for cell in cells {
        list_cell(*cell, 0, out)?;
    }
    Ok(())
}
