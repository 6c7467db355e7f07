//! Trials of clauses on settled cells, which are taken back.

ghost use Rattle.std.specs.Prelude.{◌≡◌, ◌≤◌, ◌↔◌, Bool, true, false, length, None, Ok, [], IfOk, IfSome, OnErr};
ghost use Rattle.std.specs.Prelude.{option_copied};
ghost use Rattle.and_model.specs.Candidates.{Candidate};
ghost use Rattle.and_model.specs.Programs.{Of};
ghost use Rattle.and_model.specs.declared.limits.TheConstants.{MAX_LIMIT};
ghost use Rattle.and_program.specs.Skeletons.{node_term};
ghost use Rattle.and_cells.specs.Ranges.{IsNodeInRange};
ghost use Rattle.and_cells.specs.Meaning.{IsSettled, equations_of};
ghost use Rattle.and_cells.specs.Parts.{named};
ghost use Rattle.and_cells.specs.Rows.{OnlySet};
ghost use Rattle.and_branch_laws.specs.Judging.{outside};
ghost use Rattle.and_branch_laws.specs.Variables.{placed};
ghost use Rattle.and_guards.specs.Guards.{CanBeRead};
ghost use Rattle.and_clause_index.specs.Looks.{IsLook};
ghost use Rattle.and_clause_index.specs.Tables.{IsTableOf};
ghost use Rattle.and_determinacy.specs.Trials.{IsPrepared};
ghost use Rattle.and_determinacy.specs.Watching.{HadBefore, StaysWhile};

use crate::rests::Rests;
use crate::seeing::Sight;
use and_arith::WorkList;
use and_cells::{Naming, PlainCells};
use and_clause_index::{Determinacy, Look};
use and_guards::is_guard_false;
use and_heads::HeadSolver;
use and_model::{ClauseNo, NodeNo};
use and_program::Loaded;
use and_unify::Settled;
use std::alloc::{AllocError, Global};

/// What trials of clauses work with, kept by their caller and used again.
pub struct Trials {
    pub(crate) look: Look,
    tools: Tools,
    pub(crate) rests: Rests,
}

// By hand, so that it is proved once, here.
impl Drop for Trials {
    fn drop(self) {
        let Trials {
            look: _,
            tools: _,
            rests: _,
        } = self;
    }
}

impl Trials {
    /// Nothing was tried yet. Takes no memory.
    pub fn new(alloc: Global) -> Trials {
        Trials {
            look: Look::none(),
            tools: Tools::new(alloc),
            rests: Rests::new(alloc),
        }
    }

    /// The cells on which two candidates rest of the call that [`narrow`](crate::narrow) was last asked of
    /// and found to have two, where these are told. Takes no memory.
    pub fn told(&self) -> Option<&[u32]>
        ensures { option_copied result ≡ self.now.rests }
    {
        self.rests.told()
    }

    /// Looks at the call whose node is given, in the frame at the base, before its clauses are tried, and
    /// forgets on what those of another one rest. Takes no memory.
    pub(crate) fn look_at<N: Naming>(
        &mut self,
        table: &Determinacy,
        loaded: &Loaded,
        cells: &mut PlainCells<N>,
        node: NodeNo,
        base: u32,
    )
        requires program { N.program ≡ named loaded.now }
        requires node { CanBeRead N.program cells.old base node.0 }
        ensures look { IsLook N.program cells.old node.0 base self.new.look }
        ensures unchanged { cells.new ≡ cells.old }
    {
        self.rests.forget();
        self.look = Look::at(table, loaded, cells, node, base);
    }

    /// The same of what the prints of the heads of its predicate tell.
    #[inline(always)]
    pub(crate) fn look_at_asked<N: Naming>(
        &mut self,
        table: &Determinacy,
        loaded: &Loaded,
        cells: &mut PlainCells<N>,
        node: NodeNo,
        base: u32,
    )
        requires program { N.program ≡ named loaded.now }
        requires node { CanBeRead N.program cells.old base node.0 }
        ensures look { IsLook N.program cells.old node.0 base self.new.look }
        ensures unchanged { cells.new ≡ cells.old }
    {
        self.rests.forget();
        self.look = Look::at_asked(table, loaded, cells, node, base);
    }

    /// Whether a clause is a candidate of the call that was looked at. The cells are as before. An error is
    /// want of memory.
    pub(crate) fn fits<N: Naming>(
        &mut self,
        table: &Determinacy,
        loaded: &Loaded,
        cells: &mut PlainCells<N>,
        node: NodeNo,
        base: u32,
        clause: ClauseNo,
    ) -> Result<bool, AllocError>
        requires program { N.program ≡ named loaded.now }
        requires table { IsTableOf N.program table.now }
        requires settled { IsSettled N.program cells.old }
        requires short { length cells.old ≤ MAX_LIMIT }
        requires node { CanBeRead N.program cells.old base node.0 }
        requires of { Of N.program.program (node_term N.program.skeleton.nodes node.0) clause.0 }
        requires look { IsLook N.program cells.old node.0 base self.old.look }
        ensures fits { (b : Bool) → result ≡ Ok b
            → (b ≡ true) ↔ Candidate N.program.program (equations_of N.program cells.old) outside
            (placed base (node_term N.program.skeleton.nodes node.0)) clause.0 }
        ensures unchanged { cells.new ≡ cells.old }
        ensures look { self.new.look ≡ self.old.look }
        ensures before { result ≡ Ok true → IfSome self.new.rests (HadBefore self.old.rests) }
        ensures stays { result ≡ Ok true → IfSome self.new.rests (λ has.
            StaysWhile N.program cells.old base (node_term N.program.skeleton.nodes node.0) has clause.0) }
        ensures same { result ≡ Ok false → self.new.rests ≡ self.old.rests }
    {
        if self.look.is_apart(table, clause) {
            return Ok(false);
        }
        self.fits_left(loaded, cells, node, base, clause)
    }

    /// The same of a clause that was seen not to be told apart, without another look at its print.
    pub(crate) fn fits_left<N: Naming>(
        &mut self,
        loaded: &Loaded,
        cells: &mut PlainCells<N>,
        node: NodeNo,
        base: u32,
        clause: ClauseNo,
    ) -> Result<bool, AllocError>
        requires program { N.program ≡ named loaded.now }
        requires settled { IsSettled N.program cells.old }
        requires short { length cells.old ≤ MAX_LIMIT }
        requires node { CanBeRead N.program cells.old base node.0 }
        requires of { Of N.program.program (node_term N.program.skeleton.nodes node.0) clause.0 }
        requires look { IsLook N.program cells.old node.0 base self.old.look }
        ensures fits { (b : Bool) → result ≡ Ok b
            → (b ≡ true) ↔ Candidate N.program.program (equations_of N.program cells.old) outside
            (placed base (node_term N.program.skeleton.nodes node.0)) clause.0 }
        ensures unchanged { cells.new ≡ cells.old }
        ensures look { self.new.look ≡ self.old.look }
        ensures before { result ≡ Ok true → IfSome self.new.rests (HadBefore self.old.rests) }
        ensures stays { result ≡ Ok true → IfSome self.new.rests (λ has.
            StaysWhile N.program cells.old base (node_term N.program.skeleton.nodes node.0) has clause.0) }
        ensures same { result ≡ Ok false → self.new.rests ≡ self.old.rests }
    {
        if self.look.is_doubled_apart(loaded, clause) {
            return Ok(false);
        }
        let seen = self.rests.add_seen(loaded, cells, node, base, clause)?;
        match seen {
            Sight::Fits => Ok(true),
            Sight::Apart => Ok(false),
            Sight::Untold => self
                .tools
                .fits(loaded, cells, node, base, clause, &mut self.rests),
        }
    }
}

/// What clauses are tried with.
struct Tools {
    solver: HeadSolver,
    values: WorkList,
}

// By hand, so that it is proved once, here.
impl Drop for Tools {
    fn drop(self) {
        let Tools {
            solver: _,
            values: _,
        } = self;
    }
}

impl Tools {
    /// Nothing was tried yet. Takes no memory.
    fn new(alloc: Global) -> Tools {
        Tools {
            solver: HeadSolver::new(alloc),
            values: WorkList::new(alloc),
        }
    }

    /// Whether a clause is a candidate of the call whose node is given, in the frame at the base. The
    /// cells are as before. An error is want of memory.
    fn fits<N: Naming>(
        &mut self,
        loaded: &Loaded,
        cells: &mut PlainCells<N>,
        node: NodeNo,
        base: u32,
        clause: ClauseNo,
        rests: &mut Rests,
    ) -> Result<bool, AllocError>
        requires program { N.program ≡ named loaded.now }
        requires settled { IsSettled N.program cells.old }
        requires short { length cells.old ≤ MAX_LIMIT }
        requires node { CanBeRead N.program cells.old base node.0 }
        requires of { Of N.program.program (node_term N.program.skeleton.nodes node.0) clause.0 }
        ensures fits { (b : Bool) → result ≡ Ok b
            → (b ≡ true) ↔ Candidate N.program.program (equations_of N.program cells.old) outside
            (placed base (node_term N.program.skeleton.nodes node.0)) clause.0 }
        ensures unchanged { cells.new ≡ cells.old }
        ensures before { result ≡ Ok true → IfSome rests.new (HadBefore rests.old) }
        ensures stays { result ≡ Ok true → IfSome rests.new (λ has.
            StaysWhile N.program cells.old base (node_term N.program.skeleton.nodes node.0) has clause.0) }
        ensures same { result ≡ Ok false → rests.new ≡ rests.old }
    {
        let floor = cells.len();
        self.solver.forget();
        let fits = self.meets(loaded, cells, node, base, clause, rests);
        cells.take_back(self.solver.bound(), floor);
        fits
    }

    /// The same, but that a frame for the clause was put behind the cells, and the cells that the
    /// solver tells were set; after an error perhaps not.
    fn meets<N: Naming>(
        &mut self,
        loaded: &Loaded,
        cells: &mut PlainCells<N>,
        node: NodeNo,
        base: u32,
        clause: ClauseNo,
        rests: &mut Rests,
    ) -> Result<bool, AllocError>
        requires program { N.program ≡ named loaded.now }
        requires settled { IsSettled N.program cells.old }
        requires short { length cells.old ≤ MAX_LIMIT }
        requires node { CanBeRead N.program cells.old base node.0 }
        requires of { Of N.program.program (node_term N.program.skeleton.nodes node.0) clause.0 }
        requires nothing_set { self.old.solver ≡ [] }
        ensures fits { (b : Bool) → result ≡ Ok b
            → (b ≡ true) ↔ Candidate N.program.program (equations_of N.program cells.old) outside
            (placed base (node_term N.program.skeleton.nodes node.0)) clause.0 }
        ensures only_set { OnlySet self.new.solver cells.old cells.new }
        ensures before { result ≡ Ok true → IfSome rests.new (HadBefore rests.old) }
        ensures stays { result ≡ Ok true → IfSome rests.new (λ has.
            StaysWhile N.program cells.old base (node_term N.program.skeleton.nodes node.0) has clause.0) }
        ensures same { result ≡ Ok false → rests.new ≡ rests.old }
    {
        loaded.skeleton_is_of_the_program();
        let (floor, head) = prepare(loaded, cells, clause)?;
        match self
            .solver
            .settle_call(loaded, cells, floor, node, base, head)
        {
            Settled::Solved => {
                let items = loaded.items(clause);
                let refuted = is_guard_false(loaded, cells, floor, items, &mut self.values)?;
                if refuted {
                    return Ok(false);
                }
                rests.add(loaded, cells, clause, floor, self.solver.bound())?;
                Ok(true)
            }
            Settled::NoSolution => Ok(false),
            Settled::Memory => Err(AllocError),
        }
    }
}

/// Puts a frame for the clause behind the cells. It answers where the frame begins, and the node of the clause's head,
/// which is to be made one there with the call. An error is want of memory, and the cells are then as before.
fn prepare<N: Naming>(
    loaded: &Loaded,
    cells: &mut PlainCells<N>,
    clause: ClauseNo,
) -> Result<(u32, NodeNo), AllocError>
    requires program { N.program ≡ named loaded.now }
    requires short { length cells.old ≤ MAX_LIMIT }
    requires clause { clause.0 ≤ length N.program.program.clauses }
    ensures prepared { IfOk result (λ made. IsPrepared N.program cells.old cells.new made.1.0 clause.0 made.0) }
    ensures unchanged { OnErr result (cells.new ≡ cells.old) }
{
    let floor = cells.len();
    let variables = u32::from(loaded.variables(clause));
    let head = loaded.head(clause);
    cells.extend(1 + variables)?;
    let _words = cells.len();
    Ok((floor, head))
}
