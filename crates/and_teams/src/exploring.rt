//! The search by several teams.

ghost use Rattle.std.specs.Prelude.{◌≡◌, ◌<◌, ◌≤◌, [], ◌∷◌, ◌++◌, false, length, reverse, IfOk, All};
ghost use Rattle.std.specs.Thread.{IsSync};
ghost use Rattle.and_model.specs.declared.goal.Cut.{Cut};
ghost use Rattle.and_model.specs.declared.limits.TheConstants.{MAX_LIMIT};
ghost use Rattle.and_model.specs.Limits.{AreInRange, query_alone};
ghost use Rattle.and_model.specs.Programs.{clause_weight};
ghost use Rattle.and_program.specs.Loaded.{program_of};
ghost use Rattle.and_cells.specs.Parts.{named};
ghost use Rattle.and_clause_index.specs.Tables.{IsTableOf};
ghost use Rattle.and_model.specs.Trees.{blank, query_agenda};
ghost use Rattle.and_answers.specs.Kept.{Merges};
ghost use Rattle.and_branch_laws.specs.States.{IsCut};
ghost use Rattle.and_code.specs.Written.{all_written};
ghost use Rattle.and_branch.specs.Branches.{Held, IsBranchOf};
ghost use Rattle.and_tree.specs.Passes.{fresh, fresh_from};
ghost use Rattle.and_search_laws.specs.Found.{IsFound};
ghost use Rattle.and_teams.specs.Ended.{AreFresh, IsWorked, AreDone, AllFound, IsRunOf};

use crate::work::{Beginning, Worked, work};
use and_answers::{Coded, Found};
use and_branch::{Branch, Rooted, Workspace};
use and_cells::Naming;
use and_clause_index::Determinacy;
use and_gate::Gate;
use and_model::limits::Hands;
use and_program::Loaded;
use and_tasks::{PlacedBranch, Shared};
use and_tree::{ClosedTree, Tree, TreePassList};
use std::alloc::{AllocError, Global};
use std::marker::Brand;
use std::sync::Wait;
use std::thread;
use std::thread::Threads;

/// What a search found.
#[derive(Drop)]
pub struct Explored {
    /// All answers within the limit, in the order of their codes, and how the search ended.
    pub found: Found,
    /// What its choicepoint tree left; `None` where the query weighs more than the limit.
    pub closed: Option<ClosedTree>,
}

/// All answers of a program within a limit, in the order of their codes, and how the search ended, by
/// so many teams of so many workers, each in a thread of its own where one can be started; and what their
/// choicepoint tree left. An error is want of memory.
pub fn explore<R: Threads + Wait + Sync, G: Gate>(
    rt: &R,
    alloc: Global,
    loaded: &Loaded,
    table: &Determinacy,
    limit: u32,
    hands: Hands,
    gate: &G,
) -> Result<Explored, AllocError>
    requires table { IsTableOf (named loaded.now) table.now }
    requires limit { limit ≤ MAX_LIMIT }
    requires hands { AreInRange hands }
    ensures found { IfOk result (λ explored. IsFound (program_of loaded.now) limit explored.found) }
    ensures closed { IfOk result
        (λ explored. IsRunOf (program_of loaded.now) limit hands.teams explored.found explored.closed) }
{
    explore_named::<Brand, R, G>(rt, alloc, loaded, table, limit, hands, gate)
}

/// All answers of a program within a limit, by so many teams. An error is want of memory.
fn explore_named<N: Naming + Send + Sync, R: Threads + Wait + Sync, G: Gate>(
    rt: &R,
    alloc: Global,
    loaded: &Loaded,
    table: &Determinacy,
    limit: u32,
    hands: Hands,
    gate: &G,
) -> Result<Explored, AllocError>
    requires program { N.program ≡ named loaded.now }
    requires table { IsTableOf N.program table.now }
    requires limit { limit ≤ MAX_LIMIT }
    requires hands { AreInRange hands }
    ensures found { IfOk result (λ explored. IsFound N.program.program limit explored.found) }
    ensures closed { IfOk result
        (λ explored. IsRunOf N.program.program limit hands.teams explored.found explored.closed) }
{
    match rooted::<N>(alloc, loaded, limit) {
        Rooted::Ready(branch) => {
            explore_root(rt, alloc, loaded, table, limit, hands, gate, branch)
        }
        Rooted::TooHeavy(cut) => {
            let mut found = Found::new(alloc);
            found.cut = Some(cut);
            Ok(Explored {
                found,
                closed: None,
            })
        }
        Rooted::Memory => Err(AllocError),
    }
}

/// The branch of the program's query, of which nothing is reduced yet.
fn rooted<N: Naming>(alloc: Global, loaded: &Loaded, limit: u32) -> Rooted<N>
    requires program { N.program ≡ named loaded.now }
    requires limit { limit ≤ MAX_LIMIT }
    ensures ready { (b : Held) → result ≡ Rooted.Ready b
        → IsBranchOf N.program b (blank (query_agenda N.program.program)) }
    ensures plain { (b : Held) → result ≡ Rooted.Ready b → (b.key ≡ []) × (b.limit ≡ limit) × (b.reductions ≡ []) }
    ensures heavy { (cut : Cut) → result ≡ Rooted.TooHeavy cut → limit < clause_weight N.program.program.query }
    ensures cut { (cut : Cut) → result ≡ Rooted.TooHeavy cut
        → IsCut {P = N.program.program} (all_written cut.partial) cut.goal cut.clause.0 query_alone }
{
    let mut workspace = Workspace::new(alloc);
    let root = Branch::root(alloc, loaded, limit, &mut workspace);
    drop(workspace);
    root
}

/// All answers that the root of the search leads to.
fn explore_root<N: Naming + Send + Sync, R: Threads + Wait + Sync, G: Gate>(
    rt: &R,
    alloc: Global,
    loaded: &Loaded,
    table: &Determinacy,
    limit: u32,
    hands: Hands,
    gate: &G,
    branch: Branch<N>,
) -> Result<Explored, AllocError>
    requires program { N.program ≡ named loaded.now }
    requires table { IsTableOf N.program table.now }
    requires limit { limit ≤ MAX_LIMIT }
    requires hands { AreInRange hands }
    requires root { IsBranchOf N.program branch (blank (query_agenda N.program.program)) }
    requires plain { (branch.key ≡ []) × (branch.limit ≡ limit) }
    ensures found { IfOk result (λ explored. IsFound N.program.program limit explored.found) }
    ensures closed { IfOk result
        (λ explored. IsRunOf N.program.program limit hands.teams explored.found explored.closed) }
{
    let Hands { teams, workers } = hands;
    let root = PlacedBranch { branch };
    let Ok((tree, passes)) = Tree::open(alloc, teams, limit, root) else {
        return Err(AllocError);
    };
    let shared = Shared {
        alloc,
        loaded,
        table,
        tree: &tree,
        gate,
        teams,
        workers,
    };
    let worked = work_by_teams(rt, &shared, passes)?;
    let (found, passes) = gathered(alloc, worked)?;
    let closed = tree.close(passes);
    let ordered = found.in_order()?;
    Ok(Explored {
        found: ordered,
        closed: Some(closed),
    })
}

/// All teams work. An error is want of memory.
fn work_by_teams<N: Naming + Send + Sync, R: Threads + Wait + Sync, G: Gate>(
    rt: &R,
    shared: &Shared<N, G>,
    passes: TreePassList<PlacedBranch<N>>,
) -> Result<Vec<Worked<N>>, AllocError>
    requires program { N.program ≡ named shared.now.loaded.now }
    requires table { IsTableOf N.program shared.now.table.now }
    requires passes { passes ≡ fresh_from shared.now.tree.now 0 shared.now.teams }
    ensures { IfOk result (λ all. AreDone N.program.program shared.now.tree.now 0 (reverse all.items)
        × (length all.items ≡ shared.now.teams)) }
{
    let beginnings = with_passes(shared, passes)?;
    thread::map_vec(
        rt,
        beginnings,
        &|beginning: Beginning<N>| -> Worked<N>
            requires { IsSync R.row × (N.program ≡ named shared.now.loaded.now)
                × IsTableOf N.program shared.now.table.now
                × (beginning.pass ≡ fresh shared.now.tree.now beginning.number) }
            ensures { IsWorked N.program.program shared.entry.now.tree.now beginning.number result }
        { work(rt, shared, beginning) },
    )
}

/// What each team begins with, which has one of these passes, the last first. An error is want of memory.
fn with_passes<N: Naming, G: Gate>(
    shared: &Shared<N, G>,
    mut passes: TreePassList<PlacedBranch<N>>,
) -> Result<Vec<Beginning<N>>, AllocError>
    requires { passes ≡ fresh_from shared.now.tree.now 0 shared.now.teams }
    ensures fresh { IfOk result (λ teams. AreFresh shared.now.tree.now 0 (reverse teams.items)
        × (length teams.items ≡ shared.now.teams)) }
    ensures each { IfOk result (λ teams. All (λ t. t.pass ≡ fresh shared.now.tree.now t.number) teams.items) }
{
    let mut teams = Vec::with_capacity(shared.alloc, passes.len())?;
    while let Some(pass) = passes.pop() {
        let number = passes.len() as u32;
        teams.push(Beginning::new(number, pass))?;
    }
    Ok(teams)
}

/// What all teams found, those of the first team first, and their passes. An error is want of memory.
fn gathered<N: Naming>(
    alloc: Global,
    mut worked: Vec<Worked<N>>,
) -> Result<(Coded, TreePassList<PlacedBranch<N>>), AllocError>
    ensures { IfOk result (λ r. AllFound worked.items r.0 r.1) }
{
    let mut found = Coded::new(alloc);
    let mut passes = TreePassList::new(alloc);
    while let Some(done) = worked.pop() {
        let (more, all) = joined(found, passes, done)?;
        found = more;
        passes = all;
    }
    Ok((found, passes))
}

/// What was found and the passes, with those of a team that is done. An error is want of memory.
fn joined<N: Naming>(
    found: Coded,
    passes: TreePassList<PlacedBranch<N>>,
    done: Worked<N>,
) -> Result<(Coded, TreePassList<PlacedBranch<N>>), AllocError>
    ensures { IfOk result (λ r. (done.has_failed ≡ false) × Merges found done.found r.0
        × (r.1 ≡ passes ++ done.pass ∷ [])) }
{
    let Some((part, pass)) = done.into_parts() else {
        drop(found);
        drop(passes);
        return Err(AllocError);
    };
    let Ok(both) = found.merge(part) else {
        drop(pass);
        drop(passes);
        return Err(AllocError);
    };
    let mut passes = passes;
    if passes.push(pass).is_err() {
        drop(both);
        drop(passes);
        return Err(AllocError);
    }
    Ok((both, passes))
}
