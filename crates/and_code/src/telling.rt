//! Codes that are told on, as reductions are made.

ghost use Rattle.std.specs.Prelude.{◌≡◌, ℕ, [], ◌∷◌, length, take, true, Some, OnOk, IfOk, IfSome};
ghost use Rattle.and_model.specs.Prefixes.{IsPrefix};
ghost use Rattle.and_model.specs.Trees.{QueryTree};
ghost use Rattle.and_model.specs.Reductions.{Makes};
ghost use Rattle.and_model.specs.declared.goal.Goal.{Goal};
ghost use Rattle.and_program.specs.Loaded.{program_of};
ghost use Rattle.and_code.specs.Places.{IsMissing};
ghost use Rattle.and_code.specs.Written.{all_written};
ghost use Rattle.and_code.specs.Telling.{IsTold, IsToldTo, left_of};
ghost use Rattle.and_code.specs.Visiting.{waiting};
ghost use Rattle.and_branch_laws.specs.Visits.{at_query, Decides};

use crate::places::{LOOKS, find};
use crate::visiting::{Visit, at_call, go_on};
use and_model::{ClauseNo, Code, Goal, ReductionList};
use and_program::Loaded;
use std::alloc::{AllocError, Global};

/// How far a code was told: how many of its clauses were, the call at which it goes on, if there is one, and the bodies
/// that wait behind it.
pub struct CodeSoFar {
    pub length: usize,
    next: Option<Visit>,
    visits: Vec<Visit>,
}

// By hand, so that it is proved once, here.
impl Drop for CodeSoFar {
    fn drop(self) {
        let CodeSoFar {
            length: _,
            next: _,
            visits: _,
        } = self;
    }
}

/// The query's whole body.
const QUERY: Visit = Visit {
    node: 0,
    clause: ClauseNo(0),
    item: 0,
    from: 0,
};

impl CodeSoFar {
    /// Nothing was told yet. Takes no memory.
    pub fn begun(alloc: Global, loaded: &Loaded) -> CodeSoFar
        ensures { IsTold (program_of loaded.now) [] result [] }
    {
        CodeSoFar {
            length: 0,
            next: at_call(loaded, loaded.items(QUERY.clause), QUERY),
            visits: Vec::new(alloc),
        }
    }

    /// Keeps of a code what was told, and puts the clauses that the reductions decide from there on behind it. The
    /// known goal is one that none of them takes, if one is known. An error is want of memory.
    pub fn tell_on(
        &mut self,
        alloc: Global,
        loaded: &Loaded,
        reductions: &ReductionList,
        known: Option<Goal>,
        code: &mut Code,
    ) -> Result<(), AllocError>
        requires made { (t : QueryTree (program_of loaded.now))
            × Makes (program_of loaded.now) (all_written reductions.now) t }
        requires told { IsTold (program_of loaded.now) (all_written reductions.now) self.old code.old }
        requires known { IfSome known (λ goal. IsMissing reductions.now goal.node goal.item) }
        ensures told { OnOk result (IsTold (program_of loaded.now) (all_written reductions.now) self.new code.new) }
        ensures length { OnOk result (self.new.length ≡ length code.new) }
        ensures begins { OnOk result (IsPrefix (take self.old.length code.old) code.new) }
        ensures decides { OnOk result
            (Decides (program_of loaded.now) (all_written reductions.now) (at_query ∷ []) code.new) }
    {
        code.truncate(self.length);
        self.next = tell(
            alloc,
            loaded,
            reductions,
            self.next,
            known,
            &mut self.visits,
            code,
        )?;
        self.length = code.len();
        Ok(())
    }

    /// The same, told as far. An error is want of memory.
    pub fn copy(&self, alloc: Global) -> Result<CodeSoFar, AllocError>
        ensures length { IfOk result (λ told. told.length ≡ self.now.length) }
        ensures left { IfOk result (λ told. left_of told ≡ left_of self.now) }
    {
        let visits = Vec::from_slice(alloc, &self.visits)?;
        Ok(CodeSoFar {
            length: self.length,
            next: self.next,
            visits,
        })
    }
}

/// Whether the call that is visited is this goal.
fn is_at(visit: Visit, goal: Option<Goal>) -> bool
    ensures { result ≡ true → (g : Goal) × (goal ≡ Some g) × (g.node ≡ visit.node) × (g.item ≡ visit.item) }
{
    match goal {
        Some(goal) => goal.node == visit.node && goal.item as usize == visit.item,
        None => false,
    }
}

/// Puts the clauses that the reductions decide from a visit on at the end of the code. Answers the visit at which it
/// goes on, if there is one. An error is want of memory.
fn tell(
    alloc: Global,
    loaded: &Loaded,
    reductions: &ReductionList,
    first: Option<Visit>,
    known: Option<Goal>,
    visits: &mut Vec<Visit>,
    code: &mut Code,
) -> Result<Option<Visit>, AllocError>
    requires made { (t : QueryTree (program_of loaded.now))
        × Makes (program_of loaded.now) (all_written reductions.now) t }
    requires told { IsToldTo (program_of loaded.now) (all_written reductions.now)
        (waiting visits.old.items first) code.old }
    requires known { IfSome known (λ goal. IsMissing reductions.now goal.node goal.item) }
    ensures told { IfOk result (λ next. IsToldTo (program_of loaded.now) (all_written reductions.now)
        (waiting visits.new.items next) code.new) }
    ensures begins { OnOk result (IsPrefix code.old code.new) }
    ensures decides { OnOk result
        (Decides (program_of loaded.now) (all_written reductions.now) (at_query ∷ []) code.new) }
{
    let mut links = None;
    let mut looks = LOOKS;
    let mut next = first;
    loop {
        match next {
            None => return Ok(None),
            Some(visit) => {
                if is_at(visit, known) {
                    return Ok(Some(visit));
                }
                let taken = find(
                    alloc, &mut links, &mut looks, reductions, visit.node, visit.item, visit.from,
                )?;
                match taken {
                    None => return Ok(Some(visit)),
                    Some(place) => {
                        let reduction = *reductions.at(place);
                        code.push(reduction.clause)?;
                        next = go_on(loaded, visit, reduction, place.wrapping_add(1), visits)?;
                    }
                }
            }
        }
    }
}
