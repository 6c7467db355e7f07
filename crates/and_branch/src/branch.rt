//! A branch, and its root.

ghost use Rattle.std.specs.Prelude.{◌≡◌, ◌<◌, ◌≤◌, [], true, false, IfOk, IfErr};
ghost use Rattle.and_model.specs.Programs.{clause_weight};
ghost use Rattle.and_model.specs.Trees.{query_agenda, blank};
ghost use Rattle.and_model.specs.Limits.{query_alone};
ghost use Rattle.and_model.specs.declared.limits.TheConstants.{MAX_LIMIT};
ghost use Rattle.and_model.specs.declared.goal.Cut.{Cut};
ghost use Rattle.and_cells.specs.Parts.{named};
ghost use Rattle.and_branch_laws.specs.States.{IsCut};
ghost use Rattle.and_branch_laws.specs.Views.{StandsIn};
ghost use Rattle.and_code.specs.Written.{all_written};
ghost use Rattle.and_branch_parts.specs.Branches.{Held, IsBranch, IsBranchOf, view_of};
ghost use Rattle.and_branch_parts.specs.Next.{IsMoved};
ghost use Rattle.and_branch.specs.Parts.{held_of, unnoted};

use crate::parts::Parts;
use crate::workspace::Workspace;
use and_branch_parts::push_body_from;
use and_cells::{Naming, PlainCells};
use and_model::{ClauseNo, Code, Cut, Goal, ReductionList};
use and_pending::PendingGoals;
use and_program::Loaded;
use and_reduction::{Entered, Trail, begin};
use std::alloc::{AllocError, Global};
use std::marker::Model;

/// A partial proof: a tree of reductions, with the cells of its variables and the goals that are left.
///
/// Contracts see it as the parts that it keeps. `IsBranchOf` says which tree it stands for.
pub struct Branch<N: Naming> {
    pub(crate) key: Code,
    pub(crate) limit: u32,
    pub(crate) cells: PlainCells<N>,
    pub(crate) reductions: ReductionList,
    /// Its goals, calls and arithmetic among each other in preorder. Those that are watched need not be
    /// looked at as long as certain cells are free.
    pub(crate) goals: PendingGoals,
    pub(crate) used: u32,
    pub(crate) is_failed: bool,
    /// Which words of the row were set since it was as the branch that this one was made of had it, if
    /// that is noted.
    pub(crate) trail: Trail,
}

// By hand, so that it is proved once, here.
impl<N: Naming> Drop for Branch<N> {
    fn drop(self) {
        let Branch {
            key: _,
            limit: _,
            cells: _,
            reductions: _,
            goals: _,
            used: _,
            is_failed: _,
            trail: _,
        } = self;
    }
}

impl<N: Naming> Model for Branch<N> {
    ghost use Rattle.std.specs.Prelude.{◌++◌};
    ghost use Rattle.and_pending.specs.Pending.{goals_of};
    ghost use Rattle.and_branch_parts.specs.Watching.{all_watched};
    ghost use Rattle.and_code.specs.Written.{all_written};
    ghost use Rattle.and_branch_parts.specs.Branches.{Held};

    ghost Value = { Held };

    ghost view = { λ branch. record {
      key = branch.key;
      reductions = all_written branch.reductions;
      row = branch.cells;
      left = goals_of branch.goals.left;
      right = goals_of branch.goals.right;
      used = branch.used;
      limit = branch.limit;
      is_failed = branch.is_failed;
      watches = all_watched (branch.goals.left ++ branch.goals.right);
      trail = branch.trail;
    } };
}

/// The number of the query.
const QUERY: ClauseNo = ClauseNo(0);

/// The branch of a query.
pub enum Rooted<N: Naming> {
    /// The branch of the query.
    Ready(Branch<N>),
    /// The query by itself weighs more than the limit.
    TooHeavy(Cut),
    /// Want of memory.
    Memory,
}

impl<N: Naming> Branch<N> {
    /// The branch of the program's query, of which nothing is reduced yet.
    pub fn root(alloc: Global, loaded: &Loaded, limit: u32, workspace: &mut Workspace) -> Rooted<N>
        requires program { N.program ≡ named loaded.now }
        requires limit { limit ≤ MAX_LIMIT }
        ensures ready { (b : Held) → result ≡ Rooted.Ready b
            → IsBranchOf N.program b (blank (query_agenda N.program.program)) }
        ensures plain { (b : Held) → result ≡ Rooted.Ready b → (b.key ≡ []) × (b.limit ≡ limit) × (b.reductions ≡ []) }
        ensures heavy { (cut : Cut) → result ≡ Rooted.TooHeavy cut → limit < clause_weight N.program.program.query }
        ensures cut { (cut : Cut) → result ≡ Rooted.TooHeavy cut
            → IsCut {P = N.program.program} (all_written cut.partial) cut.goal cut.clause.0 query_alone }
    {
        if loaded.weight(QUERY) > limit {
            return Rooted::TooHeavy(query_cut(alloc));
        }
        match begun(alloc, loaded, limit, workspace) {
            Ok(branch) => Rooted::Ready(branch),
            Err(_) => Rooted::Memory,
        }
    }

    /// What was decided where the branch was split off, and then its clause. Takes no memory.
    pub fn key(&self) -> &Code
        ensures { result.now ≡ self.now.key }
    {
        &self.key
    }

    /// The same, of a branch that is given up. Takes no memory.
    pub fn into_key(self) -> Code
        ensures { result ≡ self.key }
    {
        let Branch {
            key,
            limit: _,
            cells: _,
            reductions: _,
            goals: _,
            used: _,
            is_failed: _,
            trail: _,
        } = self;
        key
    }

    /// Takes the branch apart. An error is want of memory, and hands the branch back.
    pub fn parts(self) -> Result<Parts<N>, Branch<N>>
        ensures parts { IfOk result (λ parts. IsMoved (unnoted self) (held_of parts)) }
        ensures given_back { IfErr result (λ branch. branch ≡ self) }
    {
        let Ok(listed) = self.goals.all(self.goals.allocator()) else {
            return Err(self);
        };
        let Branch {
            key,
            limit,
            cells,
            reductions,
            goals: _,
            used,
            is_failed,
            trail: _,
        } = self;
        Ok(Parts {
            key,
            limit,
            cells,
            reductions,
            goals: listed,
            used,
            is_failed,
        })
    }

    /// The weight of the branch's tree. Takes no memory.
    pub fn weight(&self) -> u32
        ensures { result ≡ self.now.used }
    {
        self.used
    }

    /// Whether its tree was found dead. Takes no memory.
    pub fn is_failed(&self) -> bool
        ensures { result ≡ self.now.is_failed }
    {
        self.is_failed
    }

    /// A branch stands for its key: a law of branches.
    pub fn stands(&self, loaded: &Loaded)
        requires program { N.program ≡ named loaded.now }
        requires branch { IsBranch N.program self.now }
        ensures { StandsIn (view_of N.program self.now) self.now.key N.program self.now.limit }
    {
        loaded.skeleton_is_of_the_program();
    }
}

/// The branch of a query that fits. An error is want of memory.
fn begun<N: Naming>(
    alloc: Global,
    loaded: &Loaded,
    limit: u32,
    workspace: &mut Workspace,
) -> Result<Branch<N>, AllocError>
    requires program { N.program ≡ named loaded.now }
    requires limit { limit ≤ MAX_LIMIT }
    requires fits { clause_weight N.program.program.query ≤ limit }
    ensures branch { IfOk result (λ b. IsBranchOf N.program b (blank (query_agenda N.program.program))) }
    ensures plain { IfOk result (λ b. (b.key ≡ []) × (b.limit ≡ limit) × (b.reductions ≡ [])) }
{
    loaded.skeleton_is_of_the_program();
    let mut cells = PlainCells::with(alloc, 0)?;
    let entered = begin(loaded, &mut cells, &mut workspace.tools)?;
    let mut goals = PendingGoals::new(alloc);
    push_body_from(&mut goals, loaded, loaded.items(QUERY), 0, QUERY, 0)?;
    Ok(Branch {
        key: Code::new(alloc),
        limit,
        cells,
        reductions: ReductionList::new(alloc),
        goals,
        used: loaded.weight(QUERY),
        is_failed: has_failed(entered),
        trail: Trail::none(alloc),
    })
}

/// Whether what was entered has no solution.
fn has_failed(entered: Entered) -> bool
    ensures failed { result ≡ true → entered ≡ Entered.NoSolution }
    ensures solved { result ≡ false → entered ≡ Entered.Solved }
{
    match entered {
        Entered::Solved => false,
        Entered::NoSolution => true,
    }
}

/// The cut of a query that is too heavy by itself. Takes no memory.
fn query_cut(alloc: Global) -> Cut
    ensures partial { all_written result.partial ≡ [] }
    ensures clause { result.clause.0 ≡ 0 }
    ensures goal { result.goal ≡ record { node = 0; item = 0; clause = record { 0 = 0 }; base = 0 } }
{
    Cut {
        partial: ReductionList::new(alloc),
        clause: QUERY,
        goal: Goal {
            node: 0,
            item: 0,
            clause: QUERY,
            base: 0,
        },
    }
}
