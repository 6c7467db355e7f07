//! The state of a branch: what its tree allows next.

ghost use Rattle.std.specs.Prelude.{ℕ, ◌≡◌, ◌≢◌, ◌≤◌, [], Some, None, true, false, length, filter, All, OnOk, IfOk, IsSome};
ghost use Rattle.and_model.specs.Trees.{QueryTree, Open};
ghost use Rattle.and_model.specs.Reached.{Steps};
ghost use Rattle.and_model.specs.declared.goal.Cut.{Cut};
ghost use Rattle.and_model.specs.declared.numbers.ClauseNo.{ClauseNo};
ghost use Rattle.and_cells.specs.Parts.{named};
ghost use Rattle.and_code.specs.Written.{all_written};
ghost use Rattle.and_clause_index.specs.Tables.{IsTableOf};
ghost use Rattle.and_branch_parts.specs.Branches.{IsBranch, IsBranchOf, SameKey};
ghost use Rattle.and_branch_laws.specs.States.{StateOf, determinate};
ghost use Rattle.and_branch_parts.specs.Finding.{AllCalls, IsSeveral, HasFound};
ghost use Rattle.and_branch_parts.specs.Forking.{HasCutBy, fits_in, first_other};
ghost use Rattle.and_branch_parts.specs.Origins.{KeepsBack};
ghost use Rattle.and_branch_parts.specs.Resting.{SameTree, IsResting};
ghost use Rattle.and_branch.specs.States.{IsState, IsAtRest};

use crate::advancing::FIRST_ROUND;
use crate::branch::Branch;
use crate::workspace::{Workspace, spare_list};
use and_branch_parts::{Parted, RoundSoFar, fits, part};
use and_cells::{Naming, PlainCells};
use and_clause_index::Determinacy;
use and_determinacy::candidates_of_several;
use and_gate::Gate;
use and_model::{ClauseList, ClauseNo, Cut, Goal};
use and_program::Loaded;
use std::alloc::{AllocError, Global};
use std::mem::replace;

/// What a branch's tree allows next.
#[derive(Drop)]
pub enum BranchState {
    /// Each goal has two candidates or more. The leftmost goal is to be forked, with those of its
    /// candidates that fit; the cut is that of the first that does not.
    Fork {
        goal: Goal,
        clauses: ClauseList,
        cut: Option<Cut>,
    },
    /// No goal is left.
    Answer,
    /// Arithmetic alone is left, and waits.
    Floundered,
    /// There is no solution, or a goal has no candidate.
    Failed,
    /// The one candidate of a goal is too heavy, and no goal's fits; or all candidates of the leftmost
    /// goal are too heavy.
    OverLimit(Cut),
}

impl<N: Naming> Branch<N> {
    /// Reduces goals that have one candidate alone, until none has one that fits, and tells what the tree allows
    /// then. In which order they are reduced makes no difference to what is found. The gate is told of each
    /// reduction before it is made. An error is want of memory, and the branch is spent.
    pub fn advance_to_state<G: Gate>(
        &mut self,
        loaded: &Loaded,
        table: &Determinacy,
        gate: &G,
        workspace: &mut Workspace,
    ) -> Result<BranchState, AllocError>
        requires program { N.program ≡ named loaded.now }
        requires table { IsTableOf N.program table.now }
        requires branch { IsBranch N.program self.old }
        ensures same { SameKey self.old self.new }
        ensures steps { OnOk result ((t : QueryTree N.program.program) → IsBranchOf N.program self.old t
            → (u : QueryTree N.program.program) × IsBranchOf N.program self.new u × Steps t u) }
        ensures judged { IfOk result (λ s. (t : QueryTree N.program.program) → IsBranchOf N.program self.new t
            → IsState N.program self.new t s) }
        ensures at_rest { IfOk result (λ s. IsAtRest N.program self.new s) }
        ensures back { OnOk result (KeepsBack self.old self.new) }
        ensures done { OnOk result ((t : QueryTree N.program.program) (o : Open t) (c : ℕ)
            → IsBranchOf N.program self.new t
            → StateOf N.program.program self.new.limit t (determinate o c) → ⊥) }
    {
        self.advance_from(loaded, table, gate, FIRST_ROUND, workspace)
    }

    /// The same, where the first round over the goals has so many reductions for each. (Who made some rounds by
    /// `advance_some` goes on as if there had been no break.)
    pub fn advance_from<G: Gate>(
        &mut self,
        loaded: &Loaded,
        table: &Determinacy,
        gate: &G,
        first: u32,
        workspace: &mut Workspace,
    ) -> Result<BranchState, AllocError>
        requires program { N.program ≡ named loaded.now }
        requires table { IsTableOf N.program table.now }
        requires branch { IsBranch N.program self.old }
        requires first { 1 ≤ first }
        ensures same { SameKey self.old self.new }
        ensures steps { OnOk result ((t : QueryTree N.program.program) → IsBranchOf N.program self.old t
            → (u : QueryTree N.program.program) × IsBranchOf N.program self.new u × Steps t u) }
        ensures judged { IfOk result (λ s. (t : QueryTree N.program.program) → IsBranchOf N.program self.new t
            → IsState N.program self.new t s) }
        ensures at_rest { IfOk result (λ s. IsAtRest N.program self.new s) }
        ensures back { OnOk result (KeepsBack self.old self.new) }
        ensures done { OnOk result ((t : QueryTree N.program.program) (o : Open t) (c : ℕ)
            → IsBranchOf N.program self.new t
            → StateOf N.program.program self.new.limit t (determinate o c) → ⊥) }
    {
        loaded.skeleton_is_of_the_program();
        match self.go_rounds(loaded, table, gate, first, workspace)? {
            Some(found) => self.told(loaded, table, found, workspace),
            None => Ok(BranchState::Failed),
        }
    }

    /// The state of a branch at rest, of whose goals this was found. An error is want of memory, and the
    /// branch is spent.
    fn told(
        &mut self,
        loaded: &Loaded,
        table: &Determinacy,
        found: RoundSoFar,
        workspace: &mut Workspace,
    ) -> Result<BranchState, AllocError>
        requires program { N.program ≡ named loaded.now }
        requires table { IsTableOf N.program table.now }
        requires branch { IsBranch N.program self.old }
        requires live { self.old.is_failed ≡ false }
        requires rests { IsResting N.program self.old }
        requires found { HasFound N.program self.old.limit self.old.row self.old.left found }
        ensures same { SameTree self.old self.new }
        ensures stays { OnOk result (self.new ≡ self.old) }
        ensures judged { IfOk result (λ s. (t : QueryTree N.program.program) → IsBranchOf N.program self.old t
            → IsState N.program self.old t s) }
    {
        loaded.skeleton_is_of_the_program();
        match found {
            RoundSoFar::NoCall => Ok(self.ended(loaded)),
            RoundSoFar::Several { goal } => self.forked(loaded, table, goal, workspace),
            RoundSoFar::Heavy { goal, clause } => {
                let cut = self.cut(goal, clause)?;
                Ok(BranchState::OverLimit(cut))
            }
        }
    }

    /// The state of a branch at rest without a call. Takes no memory.
    fn ended(&self, loaded: &Loaded) -> BranchState
        requires program { N.program ≡ named loaded.now }
        requires live { self.now.is_failed ≡ false }
        requires rests { IsResting N.program self.now }
        requires none { AllCalls N.program (λ g. ⊥) self.now.left }
        ensures { (t : QueryTree N.program.program) → IsBranchOf N.program self.now t
            → IsState N.program self.now t result }
    {
        loaded.skeleton_is_of_the_program();
        if self.goals.count_before() == 0 {
            BranchState::Answer
        } else {
            BranchState::Floundered
        }
    }

    /// The branch with this goal and clause as a cut. An error is want of memory.
    fn cut(&self, goal: Goal, clause: ClauseNo) -> Result<Cut, AllocError>
        ensures partial { IfOk result (λ cut. all_written cut.partial ≡ self.now.reductions) }
        ensures goal { IfOk result (λ cut. cut.goal ≡ goal) }
        ensures clause { IfOk result (λ cut. cut.clause ≡ clause) }
    {
        let partial = self.reductions.copy()?;
        Ok(Cut {
            partial,
            clause,
            goal,
        })
    }

    /// The state of a branch at rest each of whose calls has two candidates, of which this is the
    /// leftmost. An error is want of memory, and the branch is spent.
    fn forked(
        &mut self,
        loaded: &Loaded,
        table: &Determinacy,
        goal: Goal,
        workspace: &mut Workspace,
    ) -> Result<BranchState, AllocError>
        requires program { N.program ≡ named loaded.now }
        requires table { IsTableOf N.program table.now }
        requires branch { IsBranch N.program self.old }
        requires live { self.old.is_failed ≡ false }
        requires rests { IsResting N.program self.old }
        requires several { IsSeveral N.program self.old.row self.old.left goal }
        ensures same { SameTree self.old self.new }
        ensures stays { OnOk result (self.new ≡ self.old) }
        ensures judged { IfOk result (λ s. (t : QueryTree N.program.program) → IsBranchOf N.program self.old t
            → IsState N.program self.old t s) }
    {
        loaded.skeleton_is_of_the_program();
        let alloc = self.goals.allocator();
        let candidates = &mut workspace.candidates;
        candidates_of_several(
            table,
            loaded,
            &mut self.cells,
            goal,
            &mut workspace.trials,
            candidates,
        )?;
        let spares = &mut workspace.spares;
        let parted = part_list(alloc, loaded, &self.cells, candidates, spares, self.limit)?;
        let cut = self.cut_if(goal, parted.heavy)?;
        Ok(fork_of(goal, parted.fitting, cut))
    }

    /// The cut of a clause, if there is one. An error is want of memory.
    fn cut_if(&self, goal: Goal, clause: Option<ClauseNo>) -> Result<Option<Cut>, AllocError>
        ensures { IfOk result (HasCutBy self.now goal clause) }
    {
        match clause {
            None => Ok(None),
            Some(clause) => {
                let cut = self.cut(goal, clause)?;
                Ok(Some(cut))
            }
        }
    }
}

/// Whether the row with a frame for each of these clauses is within the limit.
fn all_fit<N: Naming>(
    loaded: &Loaded,
    cells: &PlainCells<N>,
    clauses: &ClauseList,
    limit: u32,
) -> bool
    requires program { N.program ≡ named loaded.now }
    requires clauses { All (λ (c : ClauseNo). c.0 ≤ length N.program.program.clauses) clauses.now }
    requires room { length cells.now ≤ limit }
    ensures fitting { result ≡ true → clauses.now ≡ filter (fits_in N.program limit cells.now) clauses.now }
    ensures heavy { result ≡ true → None ≡ first_other (fits_in N.program limit cells.now) clauses.now }
{
    for place in 0..clauses.len() {
        let clause = *clauses.at(place);
        let passes = fits(loaded, cells, clause, limit);
        if !passes {
            return false;
        }
    }
    true
}

/// Parts clauses by their weight. Where all fit, they are given away with their list, which has one that was put by in
/// its place. An error is want of memory.
#[inline(always)]
fn part_list<N: Naming>(
    alloc: Global,
    loaded: &Loaded,
    cells: &PlainCells<N>,
    clauses: &mut ClauseList,
    spares: &mut Vec<ClauseList>,
    limit: u32,
) -> Result<Parted, AllocError>
    requires program { N.program ≡ named loaded.now }
    requires clauses { All (λ (c : ClauseNo). c.0 ≤ length N.program.program.clauses) clauses.old }
    requires room { length cells.now ≤ limit }
    ensures fitting { IfOk result (λ parted. parted.fitting ≡ filter (fits_in N.program limit cells.now) clauses.old) }
    ensures heavy { IfOk result (λ parted. parted.heavy ≡ first_other (fits_in N.program limit cells.now) clauses.old) }
{
    if all_fit(loaded, cells, clauses, limit) {
        return Ok(Parted {
            fitting: replace(clauses, spare_list(spares, alloc)),
            heavy: None,
        });
    }
    part(alloc, loaded, cells, clauses, limit)
}

/// A fork by these clauses, or over the limit where there is none. Takes no memory.
fn fork_of(goal: Goal, clauses: ClauseList, cut: Option<Cut>) -> BranchState
    requires { clauses ≡ [] → IsSome cut }
    ensures fork { clauses ≢ [] → result ≡ BranchState.Fork goal clauses cut }
    ensures over { (over : Cut) → clauses ≡ [] → cut ≡ Some over → result ≡ BranchState.OverLimit over }
{
    if clauses.len() > 0 {
        return BranchState::Fork { goal, clauses, cut };
    }
    match cut {
        Some(cut) => BranchState::OverLimit(cut),
        None => unreachable!(),
    }
}
