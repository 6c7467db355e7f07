//! What all workers did, looked at when they have ended.
//!
//! The reductions have to stand side by side behind the opening's cells, and each of them, and all arithmetic that was
//! run, has to be that of a goal of the tree, taken once. A call for which no candidate was found has to be one of the
//! tree's too. Where this is not so, nothing is rested on what the workers did.

ghost use Rattle.std.specs.Prelude.{◌≡◌, ◌≢◌, ◌≤◌, ◌<◌, ◌+◌, ◌++◌, ◌∷◌, [], true, false, None, Some, Ok, All};
ghost use Rattle.std.specs.Prelude.{Contains, IsPermutation, List, map, flat_map, length, reverse, IfOk, IfSome, OnOk};
ghost use Rattle.and_model.specs.declared.goal.Goal.{Goal};
ghost use Rattle.and_model.specs.declared.limits.TheConstants.{MAX_LIMIT};
ghost use Rattle.and_model.specs.Programs.{clause_at, clause_weight};
ghost use Rattle.and_program.specs.Loaded.{program_of};
ghost use Rattle.and_gathering.specs.declared.links.Taken.{Taken};
ghost use Rattle.and_gathering.specs.declared.links.Taken.TheVariants as variants;
ghost use Rattle.and_handed.specs.declared.told.Cause.TheVariants.{NoCandidate};
ghost use Rattle.and_handed.specs.declared.told.Ran as run;
ghost use Rattle.and_handed.specs.declared.told.HandedOn.{HandedOn};
ghost use Rattle.and_gathering.specs.Gathering.{AreOf, AreTiled, IsGathered, IsMet, IsFollowed, IsNext, IsThere};
ghost use Rattle.and_gathering.specs.Gathering.{Walks, all_made, all_ran, unmet};

use crate::bodies::push_body;
use crate::links::{Links, Taken};
use and_handed::{Cause, HandedOn, Ran};
use and_model::{Goal, Reduction, ReductionList};
use and_program::Loaded;
use and_unify::PairList;
use std::alloc::{AllocError, Global};

/// What all workers did.
#[derive(Drop)]
pub struct Gathered {
    /// The reductions, in the order of their nodes, and the end of the last one's frame.
    pub made: ReductionList,
    pub end: u32,
    /// The goals that are left, in preorder.
    pub goals: Vec<Goal>,
    pub pairs: PairList,
    /// Whether some worker found the tree dead.
    pub failed: bool,
}

/// Reductions that stand side by side, with their calls, and where the last frame ends.
#[derive(Drop)]
struct Row {
    steps: Vec<Taken>,
    made: ReductionList,
    end: u32,
}

/// Puts together what the workers did on a tree of that weight, with these goals, under a limit. `None` where nothing
/// may be rested on it. An error is want of memory.
pub fn gather(
    alloc: Global,
    loaded: &Loaded,
    goals: &[Goal],
    used: u32,
    limit: u32,
    tolds: &[HandedOn],
) -> Result<Option<Gathered>, AllocError>
    requires { (used ≤ limit) × (limit ≤ MAX_LIMIT) }
    ensures { IfOk result (λ r. IfSome r (IsGathered (program_of loaded.now) goals.now used limit tolds.now)) }
{
    let row = in_order(alloc, loaded, used, limit, tolds)?;
    if !are_all(row.made.len(), tolds) || is_spoilt(tolds) || !are_there(goals, &row.made, tolds) {
        return Ok(None);
    }
    let mut links = Links::with(alloc, row.end)?;
    if !link_all(&mut links, row.steps.as_slice())? || !link_ran(&mut links, tolds)? {
        return Ok(None);
    }
    let Some(goals) = goals_left(alloc, loaded, goals, links)? else {
        return Ok(None);
    };
    let Row {
        steps: _,
        made,
        end,
    } = row;
    Ok(Some(Gathered {
        made,
        end,
        goals,
        pairs: all_pairs(alloc, tolds)?,
        failed: has_failed(tolds),
    }))
}

/// Whether the workers made no more than so many reductions.
fn are_all(count: usize, tolds: &[HandedOn]) -> bool
    ensures { result ≡ true → length (all_made tolds.now) ≤ count }
{
    let mut left = count;
    for told in tolds {
        if told.made.len() > left {
            return false;
        }
        left -= told.made.len();
    }
    true
}

/// Whether some worker came upon what should not be.
fn is_spoilt(tolds: &[HandedOn]) -> bool
    ensures { result ≡ false → All (λ (t : HandedOn). t.is_spoilt ≡ false) tolds.now }
{
    for told in tolds {
        if told.is_spoilt {
            return true;
        }
    }
    false
}

/// Whether some worker found the tree dead.
fn has_failed(tolds: &[HandedOn]) -> bool
    ensures failed { result ≡ true → (t : HandedOn) × Contains tolds.now t × (t.cause ≢ None) }
    ensures lives { result ≡ false → All (λ (t : HandedOn). t.cause ≡ None) tolds.now }
{
    for told in tolds {
        if told.cause.is_some() {
            return true;
        }
    }
    false
}

/// The next reduction of a worker.
#[derive(Clone, Copy, PartialEq, Eq, Debug)]
struct Next {
    worker: usize,
    goal: Goal,
    reduction: Reduction,
}

/// The next reduction that stands at the node.
fn next_at(tolds: &[HandedOn], places: &[usize], node: u32) -> Option<Next>
    ensures { IfSome result (λ next. IsNext tolds.now places.now node next) }
{
    for worker in 0..tolds.len() {
        if let Some(next) = next_of(tolds, places, worker, node) {
            return Some(next);
        }
    }
    None
}

/// The next reduction of a worker, if it stands at the node.
fn next_of(tolds: &[HandedOn], places: &[usize], worker: usize, node: u32) -> Option<Next>
    ensures { IfSome result (λ next. IsNext tolds.now places.now node next) }
{
    if worker >= tolds.len() || worker >= places.len() {
        return None;
    }
    let made = &tolds[worker].made;
    let place = places[worker];
    if place >= made.len() {
        return None;
    }
    let goal = made[place].goal;
    let reduction = made[place].reduction;
    if reduction.node == node {
        Some(Next {
            worker,
            goal,
            reduction,
        })
    } else {
        None
    }
}

/// The reductions that stand side by side from this node on, as far as they lie below the limit. An error is want of
/// memory.
fn in_order(
    alloc: Global,
    loaded: &Loaded,
    used: u32,
    limit: u32,
    tolds: &[HandedOn],
) -> Result<Row, AllocError>
    requires { (used ≤ limit) × (limit ≤ MAX_LIMIT) }
    ensures tiled { IfOk result (λ row. AreTiled (program_of loaded.now) used row.made row.end) }
    ensures fits { IfOk result (λ row. row.end ≤ limit) }
    ensures steps { IfOk result (λ row. AreOf row.steps.items row.made) }
    ensures made { IfOk result (λ row. (others : List Taken)
        × IsPermutation (all_made tolds.now) (row.steps.items ++ others)) }
{
    let mut places = Vec::from_elem(alloc, 0, tolds.len())?;
    let mut row = Row {
        steps: Vec::new(alloc),
        made: ReductionList::new(alloc),
        end: used,
    };
    while let Some(next) = next_at(tolds, places.as_slice(), row.end) {
        if !row.add(loaded, limit, next)? {
            return Ok(row);
        }
        places[next.worker] += 1;
    }
    Ok(row)
}

impl Row {
    /// Puts a reduction behind the others, if its frame lies below the limit. An error is want of memory.
    fn add(&mut self, loaded: &Loaded, limit: u32, next: Next) -> Result<bool, AllocError>
        requires { self.old.end ≤ limit }
        ensures steps { result ≡ Ok true → self.new.steps.items
            ≡ self.old.steps.items ++ variants.Reduced next.goal next.reduction ∷ [] }
        ensures made { result ≡ Ok true → self.new.made ≡ self.old.made ++ next.reduction ∷ [] }
        ensures end { result ≡ Ok true → self.new.end
            ≡ self.old.end + clause_weight (clause_at (program_of loaded.now) next.reduction.clause.0) }
        ensures fits { result ≡ Ok true → self.new.end ≤ limit }
        ensures same_steps { result ≡ Ok false → self.new.steps.items ≡ self.old.steps.items }
        ensures same_made { result ≡ Ok false → self.new.made ≡ self.old.made }
        ensures same_end { result ≡ Ok false → self.new.end ≡ self.old.end }
    {
        let clause = next.reduction.clause;
        if clause.0 as u32 > loaded.clause_count() {
            return Ok(false);
        }
        let weight = loaded.weight(clause);
        if weight > limit - self.end {
            return Ok(false);
        }
        self.steps.push(Taken::Reduced {
            goal: next.goal,
            reduction: next.reduction,
        })?;
        self.end += weight;
        match self.made.push(next.reduction) {
            Ok(()) => Ok(true),
            Err(_) => Err(AllocError),
        }
    }
}

/// Whether each call that had no candidate is a goal of the tree.
fn are_there(goals: &[Goal], made: &ReductionList, tolds: &[HandedOn]) -> bool
    ensures { result ≡ true → All (λ (t : HandedOn). (goal : Goal) → t.cause ≡ Some (NoCandidate goal)
        → IsThere goals.now made.now goal) tolds.now }
{
    for told in tolds {
        if !is_cause_there(goals, made, told.cause) {
            return false;
        }
    }
    true
}

/// Whether the call is a goal of the tree that had no candidate, where that is the cause.
fn is_cause_there(goals: &[Goal], made: &ReductionList, cause: Option<Cause>) -> bool
    ensures { result ≡ true → (goal : Goal) → cause ≡ Some (NoCandidate goal) → IsThere goals.now made.now goal }
{
    match cause {
        Some(Cause::NoCandidate(goal)) => goals.contains(&goal) || has_frame(made, goal),
        Some(Cause::NoSolution) => true,
        None => true,
    }
}

/// Whether one of these reductions stands at the goal's node, by the goal's clause.
fn has_frame(made: &ReductionList, goal: Goal) -> bool
    ensures { result ≡ true → IsThere [] made.now goal }
{
    for place in 0..made.len() {
        let reduction = *made.at(place);
        if reduction.node == goal.node && reduction.clause == goal.clause {
            return goal.base == goal.node;
        }
    }
    false
}

/// Links what was taken. Answers whether each is of a node of the tree. An error is want of memory.
fn link_all(links: &mut Links, taken: &[Taken]) -> Result<bool, AllocError>
    ensures { result ≡ Ok true → unmet links.new ≡ unmet links.old ++ taken.now }
{
    for step in taken {
        if !links.add(*step)? {
            return Ok(false);
        }
    }
    Ok(true)
}

/// The same with the arithmetic that the workers ran.
fn link_ran(links: &mut Links, tolds: &[HandedOn]) -> Result<bool, AllocError>
    ensures { result ≡ Ok true → unmet links.new ≡ unmet links.old ++ all_ran tolds.now }
{
    for told in tolds {
        if !link_goals(links, told.ran.as_slice())? {
            return Ok(false);
        }
    }
    Ok(true)
}

/// The same with what one worker ran.
fn link_goals(links: &mut Links, ran: &[Ran]) -> Result<bool, AllocError>
    ensures { result ≡ Ok true → unmet links.new
        ≡ unmet links.old ++ map (λ (r : run.Ran). variants.Ran r.goal) ran.now }
{
    for run in ran {
        if !links.add(Taken::Ran { goal: run.goal })? {
            return Ok(false);
        }
    }
    Ok(true)
}

/// Puts the pairs of one list behind those of another. An error is want of memory.
fn add_pairs(all: &mut PairList, pairs: &PairList) -> Result<(), AllocError>
    ensures { OnOk result (all.new ≡ all.old ++ pairs.now) }
{
    for place in 0..pairs.len() {
        let pair = *pairs.at(place);
        all.push(pair.left, pair.right)?;
    }
    Ok(())
}

/// The pairs that are left of all workers. An error is want of memory.
fn all_pairs(alloc: Global, tolds: &[HandedOn]) -> Result<PairList, AllocError>
    ensures { IfOk result (λ pairs. pairs ≡ flat_map (λ (t : HandedOn). t.pairs) tolds.now) }
{
    let mut pairs = PairList::new(alloc);
    for told in tolds {
        add_pairs(&mut pairs, &told.pairs)?;
    }
    Ok(pairs)
}

/// A walk over the goals of a tree, in preorder.
#[derive(Drop)]
struct Walk {
    /// The goals that are still to be met, the next one last.
    stack: Vec<Goal>,
    /// Those that were met and not taken.
    left: Vec<Goal>,
    /// What was taken.
    links: Links,
    /// How much of it was met.
    found: usize,
}

/// The goals that were not taken, in preorder: those with which the tree began, with the body of its clause in the
/// place of each call that was reduced. `None` where not all that was taken is met so. An error is want of memory.
fn goals_left(
    alloc: Global,
    loaded: &Loaded,
    goals: &[Goal],
    links: Links,
) -> Result<Option<Vec<Goal>>, AllocError>
    ensures { IfOk result (λ r. IfSome r (λ left. (met : List Taken)
        × Walks (program_of loaded.now) goals.now left.items met
        × IsPermutation (unmet links) met)) }
{
    let all = links.len();
    let mut walk = Walk::over(alloc, goals, links)?;
    while let Some(goal) = walk.stack.pop() {
        if !walk.meet(loaded, goal, all)? {
            return Ok(None);
        }
    }
    if walk.found == all {
        Ok(Some(walk.left))
    } else {
        Ok(None)
    }
}

impl Walk {
    /// A walk over these goals. An error is want of memory.
    fn over(alloc: Global, goals: &[Goal], links: Links) -> Result<Walk, AllocError>
        ensures stack { IfOk result (λ walk. reverse walk.stack.items ≡ goals.now) }
        ensures left { IfOk result (λ walk. walk.left.items ≡ []) }
        ensures links { IfOk result (λ walk. unmet walk.links ≡ unmet links) }
        ensures found { IfOk result (λ walk. walk.found ≡ 0) }
    {
        let mut stack = Vec::from_slice(alloc, goals)?;
        stack.as_mut_slice().reverse();
        Ok(Walk {
            stack,
            left: Vec::new(alloc),
            links,
            found: 0,
        })
    }

    /// Meets a goal. Answers whether what was taken can be followed, and no more was met than so much. An error is want
    /// of memory.
    fn meet(&mut self, loaded: &Loaded, goal: Goal, all: usize) -> Result<bool, AllocError>
        ensures { result ≡ Ok true → IsMet (program_of loaded.now) goal self.old self.new }
    {
        match self.links.take(goal) {
            None => {
                self.left.push(goal)?;
                Ok(true)
            }
            Some(taken) => {
                if self.found >= all {
                    return Ok(false);
                }
                self.found += 1;
                follow(&mut self.stack, loaded, taken)
            }
        }
    }
}

/// Puts the body of a call that was reduced on a stack, the first goal last. Answers whether the reduction stands
/// behind the call's node. An error is want of memory.
fn follow(stack: &mut Vec<Goal>, loaded: &Loaded, taken: Taken) -> Result<bool, AllocError>
    ensures { result ≡ Ok true → IsFollowed (program_of loaded.now) taken stack.old.items stack.new.items }
{
    match taken {
        Taken::Ran { .. } => Ok(true),
        Taken::Reduced { goal, reduction } => {
            if reduction.clause.0 as u32 > loaded.clause_count() || goal.node >= reduction.node {
                return Ok(false);
            }
            push_body(stack, loaded, reduction.clause, reduction.node)?;
            Ok(true)
        }
    }
}
