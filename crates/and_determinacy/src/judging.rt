//! The candidates of goals.

ghost use Rattle.std.specs.Prelude.{◌≡◌, ◌≢◌, ◌≤◌, ◌<◌, ◌++◌, ◌∷◌, [], ℕ, Some, None, Ok, length, slice_get, All, OnOk};
ghost use Rattle.std.specs.Prelude.{true, IfOk, IfSome};
ghost use Rattle.and_model.specs.Programs.{Of};
ghost use Rattle.and_model.specs.declared.limits.TheConstants.{MAX_LIMIT};
ghost use Rattle.and_model.specs.declared.numbers.ClauseNo.{ClauseNo};
ghost use Rattle.and_program.specs.Loaded.{nodes_at, program_of, skeleton_of};
ghost use Rattle.and_program.specs.Skeletons.{call, node_term};
ghost use Rattle.and_cells.specs.Meaning.{IsSettled};
ghost use Rattle.and_cells.specs.Parts.{named};
ghost use Rattle.and_guards.specs.Goals.{CanBeJudged, IsNodeOf};
ghost use Rattle.and_determinacy.specs.Candidates.{AreCandidates, IsJudged, IsNarrowed, narrowed_as};
ghost use Rattle.and_guards.specs.Guards.{CanBeRead};
ghost use Rattle.and_clause_index.specs.Looks.{IsLook, IsLeft};
ghost use Rattle.and_clause_index.specs.Served.{NodeHas, AreServed};
ghost use Rattle.and_determinacy.specs.Searches.{IsNextOf, IsCount, NoneFrom, AreTwo, NodeKeeps};
ghost use Rattle.and_determinacy.specs.Watching.{HadBefore, StaysWhile, TwoStayWhile};
ghost use Rattle.and_determinacy.specs.declared.judging.Found.{Found};
ghost use Rattle.and_clause_index.specs.Tables.{IsKnown, IsTableOf};

use crate::trying::Trials;
use and_cells::{Naming, PlainCells};
use and_clause_index::{Determinacy, Look, clauses_by_first};
use and_model::{ClauseList, ClauseNo, Goal, NodeNo};
use and_program::{ItemNode, Loaded};
use std::alloc::AllocError;

/// How many candidates a goal has.
#[derive(Clone, Copy, PartialEq, Eq, Debug)]
pub enum Judged {
    /// It has none.
    Nothing,
    /// It has this one alone.
    One(ClauseNo),
    /// It has two or more.
    Several,
}

/// What a look at a goal tells without a trial of a clause that alone is left.
#[derive(Clone, Copy, PartialEq, Eq, Debug)]
pub enum Narrowed {
    /// It has no candidate.
    Nothing,
    /// No clause of its predicate but this one is a candidate; whether this one is, is not told.
    AtMost(ClauseNo),
    /// It has two or more.
    Several,
}

/// The node of a call, by its place in the body of a clause.
fn call_at(loaded: &Loaded, clause: ClauseNo, item: u32) -> NodeNo
    requires clause { clause.0 ≤ length (program_of loaded.now).clauses }
    requires call { (node : ℕ)
        × (slice_get (nodes_at (skeleton_of loaded.now) clause.0).items item ≡ Some (call node)) }
    ensures { slice_get (nodes_at (skeleton_of loaded.now) clause.0).items item ≡ Some (call result.0) }
{
    match loaded.items(clause)[item as usize] {
        ItemNode::Call { goal } => goal,
        ItemNode::Equal { left: _, right: _ } => unreachable!(),
        ItemNode::Is {
            left: _,
            right: _,
            pair: _,
        } => unreachable!(),
        ItemNode::Compare {
            relation: _,
            left: _,
            right: _,
        } => unreachable!(),
        ItemNode::Fail => unreachable!(),
    }
}

/// The node of a goal, which is a call.
fn node_of<N: Naming>(loaded: &Loaded, cells: &PlainCells<N>, goal: Goal) -> NodeNo
    requires program { N.program ≡ named loaded.now }
    requires goal { CanBeJudged N.program cells.now goal }
    ensures { IsNodeOf N.program cells.now goal result.0 }
{
    loaded.skeleton_is_of_the_program();
    call_at(loaded, goal.clause, goal.item)
}

/// Clauses of the predicate of the call that was looked at, in textual order, among which all its
/// candidates are.
#[inline(always)]
fn clauses_to_try<'a, N: Naming>(
    table: &'a Determinacy,
    cells: &PlainCells<N>,
    look: &Look,
    node: NodeNo,
    base: u32,
) -> &'a [ClauseNo]
    requires known { IsKnown N.program table.now node.0 }
    requires look { IsLook N.program cells.now node.0 base look.now }
    ensures { AreServed N.program cells.now node.0 base result.now }
{
    table.clauses(node, look.first())
}

/// The same, without a look at the call before. The cells are as before.
#[inline(always)]
fn clauses_for<'a, N: Naming>(
    table: &'a Determinacy,
    loaded: &Loaded,
    cells: &mut PlainCells<N>,
    node: NodeNo,
    base: u32,
) -> &'a [ClauseNo]
    requires program { N.program ≡ named loaded.now }
    requires known { IsKnown N.program table.now node.0 }
    requires node { CanBeRead N.program cells.old base node.0 }
    ensures served { AreServed N.program cells.old node.0 base result.now }
    ensures unchanged { cells.new ≡ cells.old }
{
    clauses_by_first(table, loaded, cells, node, base)
}

/// These clauses, which serve a call that was looked at, or others that serve it, whichever are fewer.
#[inline(always)]
fn sifted<'a, N: Naming>(
    table: &'a Determinacy,
    cells: &PlainCells<N>,
    look: &Look,
    goal: Goal,
    node: NodeNo,
    clauses: &'a [ClauseNo],
) -> &'a [ClauseNo]
    requires table { IsTableOf N.program table.now }
    requires node { IsNodeOf N.program cells.now goal node.0 }
    requires look { IsLook N.program cells.now node.0 goal.base look.now }
    requires served { AreServed N.program cells.now node.0 goal.base clauses.now }
    ensures { AreServed N.program cells.now node.0 goal.base result.now }
{
    look.sift(table, node, clauses)
}

/// A candidate that was found.
#[derive(Clone, Copy, PartialEq, Eq, Debug)]
struct Found {
    clause: ClauseNo,
    /// The place behind it among the clauses.
    behind: usize,
}

/// The first candidate of a call among these clauses, from a place on. The cells are as before. An error
/// is want of memory.
fn next_candidate<N: Naming>(
    table: &Determinacy,
    loaded: &Loaded,
    cells: &mut PlainCells<N>,
    node: NodeNo,
    base: u32,
    clauses: &[ClauseNo],
    from: usize,
    trials: &mut Trials,
) -> Result<Option<Found>, AllocError>
    requires program { N.program ≡ named loaded.now }
    requires table { IsTableOf N.program table.now }
    requires settled { IsSettled N.program cells.old }
    requires short { length cells.old ≤ MAX_LIMIT }
    requires node { CanBeRead N.program cells.old base node.0 }
    requires clauses { All (λ (c : ClauseNo). Of N.program.program (node_term N.program.skeleton.nodes node.0) c.0)
        clauses.now }
    requires look { IsLook N.program cells.old node.0 base trials.old.look }
    ensures some { (found : Found) → result ≡ Ok (Some found)
        → IsNextOf (NodeHas N.program cells.old node.0 base) clauses.now from found }
    ensures none { result ≡ Ok None
        → NoneFrom (NodeHas N.program cells.old node.0 base) clauses.now from (length clauses.now) }
    ensures unchanged { cells.new ≡ cells.old }
    ensures look { trials.new.look ≡ trials.old.look }
    ensures before { (found : Found) → result ≡ Ok (Some found) → IfSome trials.new.rests (HadBefore trials.old.rests) }
    ensures stays { (found : Found) → result ≡ Ok (Some found) → IfSome trials.new.rests (λ has.
        StaysWhile N.program cells.old base (node_term N.program.skeleton.nodes node.0) has found.clause.0) }
{
    for place in from..clauses.len() {
        let clause = clauses[place];
        if trials.fits(table, loaded, cells, node, base, clause)? {
            let behind = place + 1;
            return Ok(Some(Found { clause, behind }));
        }
    }
    Ok(None)
}

/// The same, where the clause at the place was seen not to be told apart from the call.
fn next_of_left<N: Naming>(
    table: &Determinacy,
    loaded: &Loaded,
    cells: &mut PlainCells<N>,
    node: NodeNo,
    base: u32,
    clauses: &[ClauseNo],
    from: usize,
    trials: &mut Trials,
) -> Result<Option<Found>, AllocError>
    requires program { N.program ≡ named loaded.now }
    requires table { IsTableOf N.program table.now }
    requires settled { IsSettled N.program cells.old }
    requires short { length cells.old ≤ MAX_LIMIT }
    requires node { CanBeRead N.program cells.old base node.0 }
    requires clauses { All (λ (c : ClauseNo). Of N.program.program (node_term N.program.skeleton.nodes node.0) c.0)
        clauses.now }
    requires look { IsLook N.program cells.old node.0 base trials.old.look }
    requires there { from < length clauses.now }
    ensures some { (found : Found) → result ≡ Ok (Some found)
        → IsNextOf (NodeHas N.program cells.old node.0 base) clauses.now from found }
    ensures none { result ≡ Ok None
        → NoneFrom (NodeHas N.program cells.old node.0 base) clauses.now from (length clauses.now) }
    ensures unchanged { cells.new ≡ cells.old }
    ensures look { trials.new.look ≡ trials.old.look }
    ensures before { (found : Found) → result ≡ Ok (Some found) → IfSome trials.new.rests (HadBefore trials.old.rests) }
    ensures stays { (found : Found) → result ≡ Ok (Some found) → IfSome trials.new.rests (λ has.
        StaysWhile N.program cells.old base (node_term N.program.skeleton.nodes node.0) has found.clause.0) }
{
    let clause = clauses[from];
    let behind = from + 1;
    if trials.fits_left(loaded, cells, node, base, clause)? {
        return Ok(Some(Found { clause, behind }));
    }
    next_candidate(table, loaded, cells, node, base, clauses, behind, trials)
}

/// Tells whether one or more of these clauses are candidates of a call. The first is given that is one, and the place
/// of the next that a look leaves, before which no other is. It stops at the second that it finds. The cells are as
/// before. An error is want of memory.
fn judge_besides<N: Naming>(
    table: &Determinacy,
    loaded: &Loaded,
    cells: &mut PlainCells<N>,
    node: NodeNo,
    base: u32,
    clauses: &[ClauseNo],
    one: Found,
    from: usize,
    trials: &mut Trials,
) -> Result<Judged, AllocError>
    requires program { N.program ≡ named loaded.now }
    requires table { IsTableOf N.program table.now }
    requires settled { IsSettled N.program cells.old }
    requires short { length cells.old ≤ MAX_LIMIT }
    requires node { CanBeRead N.program cells.old base node.0 }
    requires clauses { All (λ (c : ClauseNo). Of N.program.program (node_term N.program.skeleton.nodes node.0) c.0)
        clauses.now }
    requires look { IsLook N.program cells.old node.0 base trials.old.look }
    requires one { IsNextOf (NodeHas N.program cells.old node.0 base) clauses.now 0 one }
    requires stays { IfSome trials.old.rests (λ has.
        StaysWhile N.program cells.old base (node_term N.program.skeleton.nodes node.0) has one.clause.0) }
    requires behind { one.behind ≤ from }
    requires between { NoneFrom (NodeHas N.program cells.old node.0 base) clauses.now one.behind from }
    requires there { from < length clauses.now }
    ensures count { IfOk result (IsCount (NodeHas N.program cells.old node.0 base) clauses.now 0) }
    ensures stay { result ≡ Ok Judged.Several → IfSome trials.new.rests (λ has.
        IsCount (NodeKeeps N.program cells.old node.0 base has) clauses.now 0 Judged.Several) }
    ensures unchanged { cells.new ≡ cells.old }
{
    match next_of_left(table, loaded, cells, node, base, clauses, from, trials)? {
        None => Ok(Judged::One(one.clause)),
        Some(_) => Ok(Judged::Several),
    }
}

/// Tells whether none, one or more of these clauses are candidates of a call. It stops at the second that it finds. The
/// cells are as before. An error is want of memory.
fn judge_all<N: Naming>(
    table: &Determinacy,
    loaded: &Loaded,
    cells: &mut PlainCells<N>,
    node: NodeNo,
    base: u32,
    clauses: &[ClauseNo],
    trials: &mut Trials,
) -> Result<Judged, AllocError>
    requires program { N.program ≡ named loaded.now }
    requires table { IsTableOf N.program table.now }
    requires settled { IsSettled N.program cells.old }
    requires short { length cells.old ≤ MAX_LIMIT }
    requires node { CanBeRead N.program cells.old base node.0 }
    requires clauses { All (λ (c : ClauseNo). Of N.program.program (node_term N.program.skeleton.nodes node.0) c.0)
        clauses.now }
    requires look { IsLook N.program cells.old node.0 base trials.old.look }
    ensures count { IfOk result (IsCount (NodeHas N.program cells.old node.0 base) clauses.now 0) }
    ensures unchanged { cells.new ≡ cells.old }
{
    match next_candidate(table, loaded, cells, node, base, clauses, 0, trials)? {
        None => Ok(Judged::Nothing),
        Some(one) => match next_left(table, &trials.look, clauses, one.behind) {
            None => Ok(Judged::One(one.clause)),
            Some(next) => judge_besides(
                table, loaded, cells, node, base, clauses, one, next, trials,
            ),
        },
    }
}

/// Tells whether a goal has no candidate, one, or more. It stops at the second that it finds. The
/// cells are as before. An error is want of memory.
pub fn judge<N: Naming>(
    table: &Determinacy,
    loaded: &Loaded,
    cells: &mut PlainCells<N>,
    goal: Goal,
    trials: &mut Trials,
) -> Result<Judged, AllocError>
    requires program { N.program ≡ named loaded.now }
    requires table { IsTableOf N.program table.now }
    requires settled { IsSettled N.program cells.old }
    requires short { length cells.old ≤ MAX_LIMIT }
    requires goal { CanBeJudged N.program cells.old goal }
    ensures judged { IfOk result (IsJudged N.program cells.old goal) }
    ensures unchanged { cells.new ≡ cells.old }
{
    let node = node_of(loaded, cells, goal);
    trials.look_at(table, loaded, cells, node, goal.base);
    let clauses = clauses_to_try(table, cells, &trials.look, node, goal.base);
    judge_all(table, loaded, cells, node, goal.base, clauses, trials)
}

/// The first place, from one on, of a clause that a look does not tell apart from the call.
#[inline(always)]
fn next_left(table: &Determinacy, look: &Look, clauses: &[ClauseNo], from: usize) -> Option<usize>
    requires { All (λ (c : ClauseNo). c.0 < length table.now.prints.items) clauses.now }
    ensures after { (place : ℕ) → result ≡ Some place → from ≤ place }
    ensures there { (place : ℕ) → result ≡ Some place → place < length clauses.now }
    ensures first { (place : ℕ) → result ≡ Some place → NoneFrom (IsLeft table.now look.now) clauses.now from place }
    ensures none { result ≡ None → NoneFrom (IsLeft table.now look.now) clauses.now from (length clauses.now) }
{
    for place in from..clauses.len() {
        if !look.is_apart(table, clauses[place]) {
            return Some(place);
        }
    }
    None
}

/// What is told of a goal, less whether the one candidate is one.
fn narrowed_from(judged: Judged) -> Narrowed
    ensures { result ≡ narrowed_as judged }
{
    match judged {
        Judged::Nothing => Narrowed::Nothing,
        Judged::One(clause) => Narrowed::AtMost(clause),
        Judged::Several => Narrowed::Several,
    }
}

/// Tells whether a goal has no candidate, at most one, or more. A clause is tried only where a look at
/// the goal leaves two or more, and the last that is left only where another one is a candidate, so that a call that is
/// left one clause costs no unification; nor does a call of free cells, each another one, which any head fits. The cells
/// are as before. An error is want of memory. Where it has two, [`Trials::told`] tells on which cells these rest.
#[inline(always)]
pub fn narrow<N: Naming>(
    table: &Determinacy,
    loaded: &Loaded,
    cells: &mut PlainCells<N>,
    goal: Goal,
    node: NodeNo,
    trials: &mut Trials,
) -> Result<Narrowed, AllocError>
    requires program { N.program ≡ named loaded.now }
    requires table { IsTableOf N.program table.now }
    requires settled { IsSettled N.program cells.old }
    requires short { length cells.old ≤ MAX_LIMIT }
    requires node { IsNodeOf N.program cells.old goal node.0 }
    ensures narrowed { IfOk result (IsNarrowed N.program cells.old goal) }
    ensures told { result ≡ Ok Narrowed.Several → IfSome trials.new.rests (TwoStayWhile N.program cells.old goal) }
    ensures unchanged { cells.new ≡ cells.old }
{
    let clauses = clauses_for(table, loaded, cells, node, goal.base);
    if clauses.len() < 2 {
        return Ok(narrowed_to(clauses));
    }
    narrow_by_prints(table, loaded, cells, goal, node, clauses, trials)
}

/// Whether a goal is a call whose arguments are free cells, each another one, and the first two clauses that serve it
/// have no guard: then both are candidates. An error is want of memory.
#[inline(always)]
fn fit_at_once<N: Naming>(
    loaded: &Loaded,
    cells: &PlainCells<N>,
    goal: Goal,
    node: NodeNo,
    clauses: &[ClauseNo],
    trials: &mut Trials,
) -> Result<bool, AllocError>
    requires program { N.program ≡ named loaded.now }
    requires settled { IsSettled N.program cells.now }
    requires node { IsNodeOf N.program cells.now goal node.0 }
    requires served { AreServed N.program cells.now node.0 goal.base clauses.now }
    ensures narrowed { result ≡ Ok true → IsNarrowed N.program cells.now goal Narrowed.Several }
    ensures told { result ≡ Ok true → IfSome trials.new.rests (TwoStayWhile N.program cells.now goal) }
{
    loaded.skeleton_is_of_the_program();
    let _words = cells.len();
    if clauses.len() < 2 {
        return Ok(false);
    }
    let are_free = trials.rests.tell_free(loaded, cells, node, goal.base)?;
    if !are_free {
        return Ok(false);
    }
    let first = loaded.guard(clauses[0]);
    if first > 0 {
        return Ok(false);
    }
    let second = loaded.guard(clauses[1]);
    if second > 0 {
        return Ok(false);
    }
    Ok(true)
}

/// What is told of a goal that these clauses alone serve, of which there are no two.
fn narrowed_to(clauses: &[ClauseNo]) -> Narrowed
    requires { length clauses.now < 2 }
    ensures nothing { result ≡ Narrowed.Nothing → clauses.now ≡ [] }
    ensures one { (clause : ClauseNo) → result ≡ Narrowed.AtMost clause → clauses.now ≡ clause ∷ [] }
    ensures never { result ≢ Narrowed.Several }
{
    if clauses.len() == 0 {
        Narrowed::Nothing
    } else {
        Narrowed::AtMost(clauses[0])
    }
}

/// The same as [`narrow`] of a goal whose node and clauses are given.
#[inline(never)]
fn narrow_by_prints<N: Naming>(
    table: &Determinacy,
    loaded: &Loaded,
    cells: &mut PlainCells<N>,
    goal: Goal,
    node: NodeNo,
    clauses: &[ClauseNo],
    trials: &mut Trials,
) -> Result<Narrowed, AllocError>
    requires program { N.program ≡ named loaded.now }
    requires table { IsTableOf N.program table.now }
    requires settled { IsSettled N.program cells.old }
    requires short { length cells.old ≤ MAX_LIMIT }
    requires node { IsNodeOf N.program cells.old goal node.0 }
    requires served { AreServed N.program cells.old node.0 goal.base clauses.now }
    ensures narrowed { IfOk result (IsNarrowed N.program cells.old goal) }
    ensures told { result ≡ Ok Narrowed.Several → IfSome trials.new.rests (TwoStayWhile N.program cells.old goal) }
    ensures unchanged { cells.new ≡ cells.old }
{
    let are_two = fit_at_once(loaded, cells, goal, node, clauses, trials)?;
    if are_two {
        return Ok(Narrowed::Several);
    }
    trials.look_at_asked(table, loaded, cells, node, goal.base);
    let left = sifted(table, cells, &trials.look, goal, node, clauses);
    match next_left(table, &trials.look, left, 0) {
        None => Ok(Narrowed::Nothing),
        Some(first) => {
            trials.rests.begin();
            narrow_from(table, loaded, cells, goal, node, left, first, trials)
        }
    }
}

/// The same where no clause before a place is a candidate. The last clause that the look leaves is not tried, unless
/// another one is a candidate.
fn narrow_from<N: Naming>(
    table: &Determinacy,
    loaded: &Loaded,
    cells: &mut PlainCells<N>,
    goal: Goal,
    node: NodeNo,
    clauses: &[ClauseNo],
    first: usize,
    trials: &mut Trials,
) -> Result<Narrowed, AllocError>
    requires program { N.program ≡ named loaded.now }
    requires table { IsTableOf N.program table.now }
    requires settled { IsSettled N.program cells.old }
    requires short { length cells.old ≤ MAX_LIMIT }
    requires node { IsNodeOf N.program cells.old goal node.0 }
    requires served { AreServed N.program cells.old node.0 goal.base clauses.now }
    requires look { IsLook N.program cells.old node.0 goal.base trials.old.look }
    requires there { first < length clauses.now }
    requires before { NoneFrom (NodeHas N.program cells.old node.0 goal.base) clauses.now 0 first }
    ensures narrowed { IfOk result (IsNarrowed N.program cells.old goal) }
    ensures told { result ≡ Ok Narrowed.Several → IfSome trials.new.rests (TwoStayWhile N.program cells.old goal) }
    ensures unchanged { cells.new ≡ cells.old }
{
    let mut last = first;
    'clauses: loop {
        let behind = last + 1;
        let clause = clauses[last];
        match next_left(table, &trials.look, clauses, behind) {
            None => return Ok(Narrowed::AtMost(clause)),
            Some(next) => {
                if trials.fits_left(loaded, cells, node, goal.base, clause)? {
                    let one = Found { clause, behind };
                    let judged = judge_besides(
                        table, loaded, cells, node, goal.base, clauses, one, next, trials,
                    )?;
                    return Ok(narrowed_from(judged));
                }
                last = next;
            }
        }
    }
}

/// The places of two clauses.
#[derive(Clone, Copy, PartialEq, Eq, Debug)]
struct Two {
    first: usize,
    second: usize,
}

/// The two clauses that a look does not tell apart from the call, if there are just two.
fn two_left(table: &Determinacy, look: &Look, clauses: &[ClauseNo]) -> Option<Two>
    requires { All (λ (c : ClauseNo). c.0 < length table.now.prints.items) clauses.now }
    ensures { IfSome result (AreTwo (IsLeft table.now look.now) clauses.now) }
{
    let first = next_left(table, look, clauses, 0)?;
    let second = next_left(table, look, clauses, first + 1)?;
    match next_left(table, look, clauses, second + 1) {
        None => Some(Two { first, second }),
        Some(_) => None,
    }
}

/// Puts those of these clauses on a list that are candidates of a goal, whose node is given. The cells
/// are as before. An error is want of memory.
fn pick<N: Naming>(
    table: &Determinacy,
    loaded: &Loaded,
    cells: &mut PlainCells<N>,
    goal: Goal,
    node: NodeNo,
    clauses: &[ClauseNo],
    trials: &mut Trials,
    out: &mut ClauseList,
) -> Result<(), AllocError>
    requires program { N.program ≡ named loaded.now }
    requires table { IsTableOf N.program table.now }
    requires settled { IsSettled N.program cells.old }
    requires short { length cells.old ≤ MAX_LIMIT }
    requires node { IsNodeOf N.program cells.old goal node.0 }
    requires served { AreServed N.program cells.old node.0 goal.base clauses.now }
    requires look { IsLook N.program cells.old node.0 goal.base trials.old.look }
    requires empty { out.old ≡ [] }
    ensures candidates { OnOk result (AreCandidates N.program cells.old goal out.new) }
    ensures unchanged { cells.new ≡ cells.old }
{
    for clause in clauses {
        if trials.fits(table, loaded, cells, node, goal.base, *clause)? {
            put(out, *clause)?;
        }
    }
    Ok(())
}

/// Fills a list with just the candidates of a goal, in textual order. The cells are as before. An error is
/// want of memory.
pub fn candidates_of<N: Naming>(
    table: &Determinacy,
    loaded: &Loaded,
    cells: &mut PlainCells<N>,
    goal: Goal,
    trials: &mut Trials,
    out: &mut ClauseList,
) -> Result<(), AllocError>
    requires program { N.program ≡ named loaded.now }
    requires table { IsTableOf N.program table.now }
    requires settled { IsSettled N.program cells.old }
    requires short { length cells.old ≤ MAX_LIMIT }
    requires goal { CanBeJudged N.program cells.old goal }
    ensures candidates { OnOk result (AreCandidates N.program cells.old goal out.new) }
    ensures unchanged { cells.new ≡ cells.old }
{
    clear(out);
    let node = node_of(loaded, cells, goal);
    trials.look_at(table, loaded, cells, node, goal.base);
    let clauses = clauses_to_try(table, cells, &trials.look, node, goal.base);
    pick(table, loaded, cells, goal, node, clauses, trials, out)
}

/// The same of a goal that was judged to have two candidates or more. Where two clauses alone serve it, or a
/// look at it leaves two, they are these, and neither is tried again.
pub fn candidates_of_several<N: Naming>(
    table: &Determinacy,
    loaded: &Loaded,
    cells: &mut PlainCells<N>,
    goal: Goal,
    trials: &mut Trials,
    out: &mut ClauseList,
) -> Result<(), AllocError>
    requires program { N.program ≡ named loaded.now }
    requires table { IsTableOf N.program table.now }
    requires settled { IsSettled N.program cells.old }
    requires short { length cells.old ≤ MAX_LIMIT }
    requires goal { CanBeJudged N.program cells.old goal }
    requires several { IsJudged N.program cells.old goal Judged.Several }
    ensures candidates { OnOk result (AreCandidates N.program cells.old goal out.new) }
    ensures unchanged { cells.new ≡ cells.old }
{
    clear(out);
    let node = node_of(loaded, cells, goal);
    let clauses = clauses_for(table, loaded, cells, node, goal.base);
    if clauses.len() == 2 {
        put(out, clauses[0])?;
        return put(out, clauses[1]);
    }
    several_by_prints(table, loaded, cells, goal, node, clauses, trials, out)
}

/// The same, where the node and the clauses are given, and the list is empty.
#[inline(never)]
fn several_by_prints<N: Naming>(
    table: &Determinacy,
    loaded: &Loaded,
    cells: &mut PlainCells<N>,
    goal: Goal,
    node: NodeNo,
    clauses: &[ClauseNo],
    trials: &mut Trials,
    out: &mut ClauseList,
) -> Result<(), AllocError>
    requires program { N.program ≡ named loaded.now }
    requires table { IsTableOf N.program table.now }
    requires settled { IsSettled N.program cells.old }
    requires short { length cells.old ≤ MAX_LIMIT }
    requires node { IsNodeOf N.program cells.old goal node.0 }
    requires served { AreServed N.program cells.old node.0 goal.base clauses.now }
    requires several { IsJudged N.program cells.old goal Judged.Several }
    requires empty { out.old ≡ [] }
    ensures candidates { OnOk result (AreCandidates N.program cells.old goal out.new) }
    ensures unchanged { cells.new ≡ cells.old }
{
    trials.look_at_asked(table, loaded, cells, node, goal.base);
    let left = sifted(table, cells, &trials.look, goal, node, clauses);
    match two_left(table, &trials.look, left) {
        Some(two) => {
            put(out, left[two.first])?;
            put(out, left[two.second])
        }
        None => pick(table, loaded, cells, goal, node, left, trials, out),
    }
}

/// Takes out all clauses of a list.
fn clear(list: &mut ClauseList)
    ensures { list.new ≡ [] }
{
    while list.pop().is_some() {}
}

/// Puts a clause at the end of a list. An error is want of memory.
fn put(list: &mut ClauseList, clause: ClauseNo) -> Result<(), AllocError>
    ensures { OnOk result (list.new ≡ list.old ++ clause ∷ []) }
{
    list.push(clause).map_err(|_| AllocError)
}
