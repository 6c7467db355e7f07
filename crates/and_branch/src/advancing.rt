//! Determinate goals, reduced until there are none.

ghost use Rattle.std.specs.Prelude.{◌≡◌, ◌≢◌, ◌≤◌, ◌+◌, ◌⊎◌, [], ◌∷◌, ℕ, true, false, List, length, Ok, OnOk, IfOk};
ghost use Rattle.std.specs.Prelude.{IfSome, Some, None, nat_lt};
ghost use Rattle.and_model.specs.declared.numbers.NodeNo.{NodeNo};
ghost use Rattle.and_model.specs.Terms.{Term};
ghost use Rattle.and_model.specs.Programs.{call, Arithmetic, arithmetic, clause_at, clause_weight};
ghost use Rattle.and_model.specs.declared.limits.TheConstants.{MAX_LIMIT};
ghost use Rattle.and_model.specs.declared.goal.Goal.{Goal};
ghost use Rattle.and_cells.specs.Meaning.{IsSettled};
ghost use Rattle.and_cells.specs.Parts.{named};
ghost use Rattle.and_guards.specs.Goals.{CanBeJudged, IsNodeOf};
ghost use Rattle.and_program.specs.Items.{is_call_node, node_item};
ghost use Rattle.and_program.specs.Skeletons;
ghost use Rattle.and_determinacy.specs.Candidates.{IsJudged, IsNarrowed};
ghost use Rattle.and_clause_index.specs.Tables.{IsTableOf};
ghost use Rattle.and_determinacy.specs.Watching.{TwoStayWhile};
ghost use Rattle.and_reduction.specs.Runs.{IsWaiting, HasRun, CannotHold, WaitsFor};
ghost use Rattle.and_step_laws.specs.Running.{IsRunnable};
ghost use Rattle.and_branch_laws.specs.Judging.{CandidateInCells};
ghost use Rattle.and_branch_laws.specs.Kept.{item_at, node_item_at};
ghost use Rattle.and_branch_parts.specs.Branches.{IsBranch, SameKey};
ghost use Rattle.and_branch_parts.specs.Finding.{HasFound, HasHeavy};
ghost use Rattle.and_branch_parts.specs.Origins.{KeepsBack};
ghost use Rattle.and_branch_parts.specs.Rounds.{StepsOn, AreFew, IsAtMost, IsStill, LeftIsIdle, IsDropped, IsStillWith};
ghost use Rattle.and_branch_parts.specs.Rounds.{LookIs, RoundIs, HasProgressed, HasStilled, IsAt};
ghost use Rattle.and_branch_parts.specs.declared.finding.RoundSoFar.{RoundSoFar};

use crate::branch::Branch;
use crate::workspace::Workspace;
use and_branch_parts::{
    HeavyCall, Looked, Round, RoundSoFar, Seen, Share, Way, first_call, item_of, turns_back,
};
use and_cells::Naming;
use and_clause_index::Determinacy;
use and_determinacy::{Judged, Narrowed, judge, narrow};
use and_gate::Gate;
use and_model::{ClauseNo, Goal, NodeNo};
use and_program::{ItemNode, Loaded};
use and_reduction::{Ran, node_of, run_item};
use std::alloc::AllocError;

/// How many reductions the first round has for each goal that stands at its beginning. Each later one has twice
/// as many, so that no goal keeps the others waiting for long.
pub const FIRST_ROUND: u32 = 64;

/// The number under which a gate is told of these reductions: that of the first worker.
pub(crate) const LEADER: u32 = 0;

/// What comes next in a branch.
#[derive(Clone, Copy)]
enum Next {
    /// Nothing, since it is marked failed.
    Failed,
    /// No goal is left.
    Nothing,
    /// This goal.
    Goal(Goal),
}

/// The node of an item, if it is a call.
#[inline(always)]
pub(crate) fn called_by(item: ItemNode) -> Option<NodeNo>
    ensures call { (node : NodeNo) → result ≡ Some node → node_item item ≡ Skeletons.call node.0 }
    ensures other { result ≡ None → is_call_node (node_item item) ≡ false }
{
    match item {
        ItemNode::Call { goal } => Some(goal),
        ItemNode::Equal { left: _, right: _ } => None,
        ItemNode::Is {
            left: _,
            right: _,
            pair: _,
        } => None,
        ItemNode::Compare {
            relation: _,
            left: _,
            right: _,
        } => None,
        ItemNode::Fail => None,
    }
}

impl<N: Naming> Branch<N> {
    /// One round over the goals, which has so many reductions for each that stands at its beginning. Answers
    /// whether there may be more to do: where it answers that there is not, nothing is to be done for any goal,
    /// or the branch is marked failed. The gate is told of each reduction before it is made. An error is want of
    /// memory, and the branch is spent.
    pub fn advance_some<G: Gate>(
        &mut self,
        loaded: &Loaded,
        table: &Determinacy,
        gate: &G,
        most: u32,
        workspace: &mut Workspace,
    ) -> Result<bool, AllocError>
        requires program { N.program ≡ named loaded.now }
        requires table { IsTableOf N.program table.now }
        requires branch { IsBranch N.program self.old }
        requires most { 1 ≤ most }
        ensures same { SameKey self.old self.new }
        ensures steps { OnOk result (StepsOn N.program self.old self.new) }
        ensures progressed { result ≡ Ok true → HasProgressed self.old self.new }
        ensures done { result ≡ Ok false → (self.new.is_failed ≡ true) ⊎ IsStill N.program self.new }
    {
        match self.go_round(loaded, table, gate, most, workspace)? {
            Round::Changed => Ok(true),
            Round::Still(_) => Ok(false),
            Round::Failed => Ok(false),
        }
    }

    /// Rounds over the goals, until for none is anything to be done. The first has so many reductions for each
    /// goal. Answers what was found of them then, or nothing where the branch is marked failed. An error is want
    /// of memory, and the branch is spent.
    pub(crate) fn go_rounds<G: Gate>(
        &mut self,
        loaded: &Loaded,
        table: &Determinacy,
        gate: &G,
        first: u32,
        workspace: &mut Workspace,
    ) -> Result<Option<RoundSoFar>, AllocError>
        requires program { N.program ≡ named loaded.now }
        requires table { IsTableOf N.program table.now }
        requires branch { IsBranch N.program self.old }
        requires first { 1 ≤ first }
        ensures same { SameKey self.old self.new }
        ensures steps { OnOk result (StepsOn N.program self.old self.new) }
        ensures stilled { IfOk result (HasStilled N.program self.new) }
    {
        let mut most = first;
        'rounds: loop {
            match self.go_round(loaded, table, gate, most, workspace)? {
                Round::Changed => most = most.saturating_mul(2),
                Round::Still(found) => return Ok(Some(found)),
                Round::Failed => return Ok(None),
            }
        }
    }

    /// One round over the goals, from the first one on, and then, where it has changed something and has not come
    /// to rest, from the last one back. On the way onward it has so many reductions for each goal that stands at
    /// its beginning, with all that comes of it, and on the way back as many in all. An error is want of memory,
    /// and the branch is spent.
    fn go_round<G: Gate>(
        &mut self,
        loaded: &Loaded,
        table: &Determinacy,
        gate: &G,
        most: u32,
        workspace: &mut Workspace,
    ) -> Result<Round, AllocError>
        requires program { N.program ≡ named loaded.now }
        requires table { IsTableOf N.program table.now }
        requires branch { IsBranch N.program self.old }
        requires most { 1 ≤ most }
        ensures same { SameKey self.old self.new }
        ensures steps { OnOk result (StepsOn N.program self.old self.new) }
        ensures came_to { IfOk result (λ r. RoundIs N.program self.old self.new r) }
    {
        loaded.skeleton_is_of_the_program();
        self.rewind()?;
        self.clear_out();
        let mut way = Way::Onward;
        let mut share = Share::of(most);
        let mut changed = false;
        let mut heavy = None;
        'goals: loop {
            if !self.come_to_next(way)? {
                return Ok(Round::Changed);
            }
            share = share.at(self.count_ahead());
            match self.look(loaded, table, gate, share.left, workspace)? {
                Looked::Ended => {
                    let round = self.round_ended(loaded, changed, heavy);
                    if !turns_back(way, round) {
                        return Ok(round);
                    }
                    way = Way::Back;
                }
                Looked::Passed { goal, seen } => {
                    heavy = self.note_passed(way, heavy, goal, seen)?
                }
                Looked::Ran => {
                    changed = true;
                    self.turn_to_woken(way)?;
                }
                Looked::Reduced(taken) => {
                    share.left = share.left.saturating_sub(taken);
                    changed = true;
                }
                Looked::Failed => return Ok(Round::Failed),
            }
        }
    }

    /// Looks at the next goal: runs it, reduces it if it may, or passes it over. An error is want of
    /// memory, and the branch is spent.
    fn look<G: Gate>(
        &mut self,
        loaded: &Loaded,
        table: &Determinacy,
        gate: &G,
        left: u32,
        workspace: &mut Workspace,
    ) -> Result<Looked, AllocError>
        requires program { N.program ≡ named loaded.now }
        requires table { IsTableOf N.program table.now }
        requires branch { IsBranch N.program self.old }
        ensures same { SameKey self.old self.new }
        ensures steps { OnOk result (StepsOn N.program self.old self.new) }
        ensures came_to { IfOk result (λ l. LookIs N.program (nat_lt 0 left) self.old self.new l) }
    {
        loaded.skeleton_is_of_the_program();
        match self.next_goal() {
            Next::Failed => Ok(Looked::Failed),
            Next::Nothing => Ok(Looked::Ended),
            Next::Goal(goal) => self.look_at(loaded, table, gate, goal, left, workspace),
        }
    }

    /// The same, where the next goal is this one.
    fn look_at<G: Gate>(
        &mut self,
        loaded: &Loaded,
        table: &Determinacy,
        gate: &G,
        goal: Goal,
        left: u32,
        workspace: &mut Workspace,
    ) -> Result<Looked, AllocError>
        requires program { N.program ≡ named loaded.now }
        requires table { IsTableOf N.program table.now }
        requires at { IsAt N.program self.old goal }
        ensures same { SameKey self.old self.new }
        ensures steps { OnOk result (StepsOn N.program self.old self.new) }
        ensures came_to { IfOk result (λ l. LookIs N.program (nat_lt 0 left) self.old self.new l) }
    {
        loaded.skeleton_is_of_the_program();
        let item = item_of(loaded, goal);
        match called_by(item) {
            Some(node) => self.look_at_call(loaded, table, gate, goal, node, left, workspace),
            None => self.look_at_arithmetic(loaded, goal, item, left, workspace),
        }
    }

    /// The same, where the next goal is this one, a call whose node this is.
    fn look_at_call<G: Gate>(
        &mut self,
        loaded: &Loaded,
        table: &Determinacy,
        gate: &G,
        goal: Goal,
        node: NodeNo,
        left: u32,
        workspace: &mut Workspace,
    ) -> Result<Looked, AllocError>
        requires program { N.program ≡ named loaded.now }
        requires table { IsTableOf N.program table.now }
        requires at { IsAt N.program self.old goal }
        requires call { (term : Term) × (item_at N.program.program goal ≡ call term) }
        requires node { IsNodeOf N.program self.old.row goal node.0 }
        ensures same { SameKey self.old self.new }
        ensures steps { OnOk result (StepsOn N.program self.old self.new) }
        ensures came_to { IfOk result (λ l. LookIs N.program (nat_lt 0 left) self.old self.new l) }
    {
        loaded.skeleton_is_of_the_program();
        match self.narrow_call(loaded, table, goal, node, workspace)? {
            Narrowed::Nothing => {
                self.mark_failed();
                Ok(Looked::Failed)
            }
            Narrowed::AtMost(clause) => {
                self.look_at_last(loaded, table, gate, goal, node, clause, left, workspace)
            }
            Narrowed::Several => {
                // A copy of its own: what is handed on from here stays out of memory on the other ways.
                let passed = goal;
                self.watch_call(loaded, passed, workspace)?;
                self.pass()?;
                Ok(Looked::Passed {
                    goal: passed,
                    seen: Seen::Several,
                })
            }
        }
    }

    /// The same, where no clause but this one can be a candidate of the call. It is reduced by this clause without a
    /// trial: where the head does not fit, the branch is marked failed. So are the calls with which bodies begin then.
    fn look_at_last<G: Gate>(
        &mut self,
        loaded: &Loaded,
        table: &Determinacy,
        gate: &G,
        goal: Goal,
        called: NodeNo,
        clause: ClauseNo,
        left: u32,
        workspace: &mut Workspace,
    ) -> Result<Looked, AllocError>
        requires program { N.program ≡ named loaded.now }
        requires table { IsTableOf N.program table.now }
        requires at { IsAt N.program self.old goal }
        requires call { (term : Term) × (item_at N.program.program goal ≡ call term) }
        requires node { IsNodeOf N.program self.old.row goal called.0 }
        requires last { IsAtMost N.program self.old.row goal clause.0 }
        ensures same { SameKey self.old self.new }
        ensures steps { OnOk result (StepsOn N.program self.old self.new) }
        ensures came_to { IfOk result (λ l. LookIs N.program (nat_lt 0 left) self.old self.new l) }
    {
        loaded.skeleton_is_of_the_program();
        let may = left > 0;
        if !may {
            self.pass()?;
            return Ok(Looked::Passed {
                goal,
                seen: Seen::NotJudged,
            });
        }
        let weight = loaded.weight(clause);
        if !self.has_room(weight) {
            let heavy = goal;
            return self.look_at_heavy(loaded, table, heavy, clause, workspace);
        }
        self.drop_next();
        let taken = self.run_on(loaded, table, gate, goal, called, clause, left, workspace)?;
        self.goals_are_few();
        Ok(Looked::Reduced(taken))
    }

    /// The same, where there is no room for that clause. It has to be tried here, since a clause that
    /// is no candidate cuts nothing off.
    fn look_at_heavy(
        &mut self,
        loaded: &Loaded,
        table: &Determinacy,
        goal: Goal,
        clause: ClauseNo,
        workspace: &mut Workspace,
    ) -> Result<Looked, AllocError>
        requires program { N.program ≡ named loaded.now }
        requires table { IsTableOf N.program table.now }
        requires at { IsAt N.program self.old goal }
        requires call { (term : Term) × (item_at N.program.program goal ≡ call term) }
        requires only { (d : ℕ) → CandidateInCells N.program self.old.row goal d → d ≡ clause.0 }
        requires no_room { self.old.used + clause_weight (clause_at N.program.program clause.0) ≤ self.old.limit → ⊥ }
        ensures same { SameKey self.old self.new }
        ensures steps { OnOk result (StepsOn N.program self.old self.new) }
        ensures came_to { IfOk result (λ l. LookIs N.program true self.old self.new l) }
    {
        loaded.skeleton_is_of_the_program();
        match self.judge_next(loaded, table, goal, workspace)? {
            Judged::Nothing => {
                self.mark_failed();
                Ok(Looked::Failed)
            }
            Judged::One(sole) => {
                self.pass()?;
                Ok(Looked::Passed {
                    goal,
                    seen: Seen::Heavy(sole),
                })
            }
            Judged::Several => unreachable!(),
        }
    }

    /// The same, where the next goal is this one, arithmetic, and has this item.
    #[inline(always)]
    fn look_at_arithmetic(
        &mut self,
        loaded: &Loaded,
        goal: Goal,
        item: ItemNode,
        left: u32,
        workspace: &mut Workspace,
    ) -> Result<Looked, AllocError>
        requires program { N.program ≡ named loaded.now }
        requires at { IsAt N.program self.old goal }
        requires arithmetic { (a : Arithmetic) × (item_at N.program.program goal ≡ arithmetic a) }
        requires item { node_item_at N.program goal ≡ node_item item }
        ensures same { SameKey self.old self.new }
        ensures steps { OnOk result (StepsOn N.program self.old self.new) }
        ensures came_to { IfOk result (λ l. LookIs N.program (nat_lt 0 left) self.old self.new l) }
    {
        loaded.skeleton_is_of_the_program();
        match self.run_next(loaded, goal, item, workspace)? {
            Ran::Waits { cell } => {
                // A copy of its own: what is handed on from here stays out of memory on the other ways.
                let passed = goal;
                self.watch_arithmetic(passed, cell)?;
                self.pass()?;
                Ok(Looked::Passed {
                    goal: passed,
                    seen: Seen::Arithmetic,
                })
            }
            Ran::Done => {
                self.drop_next();
                Ok(Looked::Ran)
            }
            Ran::False => {
                self.mark_failed();
                Ok(Looked::Failed)
            }
        }
    }

    /// What comes next.
    fn next_goal(&self) -> Next
        ensures failed { result ≡ Next.Failed → self.now.is_failed ≡ true }
        ensures nothing { result ≡ Next.Nothing → (self.now.is_failed ≡ false) × (self.now.right ≡ []) }
        ensures goal { (g : Goal) → result ≡ Next.Goal g
            → (self.now.is_failed ≡ false) × (rest : List Goal) × (self.now.right ≡ g ∷ rest) }
    {
        if self.is_failed {
            return Next::Failed;
        }
        match self.goals.next() {
            Some(goal) => Next::Goal(goal),
            None => Next::Nothing,
        }
    }

    /// Narrows the candidates of a goal, a call. Where it has several, the trials tell cells on which two of
    /// them rest, or tell nothing. The branch is as before. An error is want of memory.
    #[inline(always)]
    pub fn narrow_goal(
        &mut self,
        loaded: &Loaded,
        table: &Determinacy,
        goal: Goal,
        workspace: &mut Workspace,
    ) -> Result<Narrowed, AllocError>
        requires program { N.program ≡ named loaded.now }
        requires table { IsTableOf N.program table.now }
        requires settled { IsSettled N.program self.old.row }
        requires short { length self.old.row ≤ MAX_LIMIT }
        requires goal { CanBeJudged N.program self.old.row goal }
        ensures same { SameKey self.old self.new }
        ensures narrowed { IfOk result (IsNarrowed N.program self.old.row goal) }
        ensures told { result ≡ Ok Narrowed.Several
            → IfSome workspace.new.trials.rests (TwoStayWhile N.program self.old.row goal) }
        ensures unchanged { self.new ≡ self.old }
    {
        let node = node_of(loaded, &self.cells, goal);
        self.narrow_call(loaded, table, goal, node, workspace)
    }

    /// The same of a goal whose node this is.
    #[inline(always)]
    pub(crate) fn narrow_call(
        &mut self,
        loaded: &Loaded,
        table: &Determinacy,
        goal: Goal,
        node: NodeNo,
        workspace: &mut Workspace,
    ) -> Result<Narrowed, AllocError>
        requires program { N.program ≡ named loaded.now }
        requires table { IsTableOf N.program table.now }
        requires settled { IsSettled N.program self.old.row }
        requires short { length self.old.row ≤ MAX_LIMIT }
        requires node { IsNodeOf N.program self.old.row goal node.0 }
        ensures same { SameKey self.old self.new }
        ensures narrowed { IfOk result (IsNarrowed N.program self.old.row goal) }
        ensures told { result ≡ Ok Narrowed.Several
            → IfSome workspace.new.trials.rests (TwoStayWhile N.program self.old.row goal) }
        ensures unchanged { self.new ≡ self.old }
    {
        narrow(
            table,
            loaded,
            &mut self.cells,
            goal,
            node,
            &mut workspace.trials,
        )
    }

    /// Judges the next goal, a call. The branch is as before. An error is want of memory.
    fn judge_next(
        &mut self,
        loaded: &Loaded,
        table: &Determinacy,
        goal: Goal,
        workspace: &mut Workspace,
    ) -> Result<Judged, AllocError>
        requires program { N.program ≡ named loaded.now }
        requires table { IsTableOf N.program table.now }
        requires settled { IsSettled N.program self.old.row }
        requires short { length self.old.row ≤ MAX_LIMIT }
        requires goal { CanBeJudged N.program self.old.row goal }
        ensures same { SameKey self.old self.new }
        ensures judged { IfOk result (IsJudged N.program self.old.row goal) }
        ensures unchanged { self.new ≡ self.old }
    {
        judge(table, loaded, &mut self.cells, goal, &mut workspace.trials)
    }

    /// Runs the next goal, arithmetic, which has this item, and leaves it there. An error is want of memory, and the
    /// branch is spent.
    #[inline(always)]
    pub(crate) fn run_next(
        &mut self,
        loaded: &Loaded,
        goal: Goal,
        item: ItemNode,
        workspace: &mut Workspace,
    ) -> Result<Ran, AllocError>
        requires program { N.program ≡ named loaded.now }
        requires settled { IsSettled N.program self.old.row }
        requires short { length self.old.row ≤ MAX_LIMIT }
        requires item { IsRunnable N.program self.old.row goal (node_item item) }
        ensures same { SameKey self.old self.new }
        ensures others { self.new ≡ record self.old { row = self.new.row; trail = self.new.trail } }
        ensures back { OnOk result (KeepsBack self.old self.new) }
        ensures waits { (cell : ℕ) → result ≡ Ok (Ran.Waits cell) → IsWaiting N.program self.old.row goal }
        ensures waits_for { (cell : ℕ) → result ≡ Ok (Ran.Waits cell) → WaitsFor N.program self.old.row goal cell }
        ensures unchanged { (cell : ℕ) → result ≡ Ok (Ran.Waits cell) → self.new.row ≡ self.old.row }
        ensures done { result ≡ Ok Ran.Done → HasRun N.program self.old.row self.new.row goal }
        ensures fails { result ≡ Ok Ran.False → CannotHold N.program self.old.row goal }
    {
        let tools = &mut workspace.tools;
        run_item(loaded, &mut self.cells, goal, item, &mut self.trail, tools)
    }

    /// What a round came to that went over all goals, of which this was seen. Takes no memory.
    fn round_ended(&self, loaded: &Loaded, changed: bool, heavy: Option<HeavyCall>) -> Round
        requires program { N.program ≡ named loaded.now }
        requires branch { IsBranch N.program self.now }
        requires live { self.now.is_failed ≡ false }
        requires past { self.now.right ≡ [] }
        requires seen { changed ≡ false → LeftIsIdle N.program self.now
            × HasHeavy N.program self.now.limit self.now.row self.now.left heavy }
        ensures changed { result ≡ Round.Changed → changed ≡ true }
        ensures still { (f : RoundSoFar) → result ≡ Round.Still f → IsStillWith N.program self.now f }
        ensures never { result ≢ Round.Failed }
    {
        loaded.skeleton_is_of_the_program();
        if !changed {
            return Round::Still(self.found_with(loaded, heavy));
        }
        if self.goals.are_asleep(&self.cells) {
            return Round::Still(self.found_with(loaded, None));
        }
        Round::Changed
    }

    /// What is found of goals for none of which anything is to be done, of which this was seen. Takes no
    /// memory.
    fn found_with(&self, loaded: &Loaded, heavy: Option<HeavyCall>) -> RoundSoFar
        requires program { N.program ≡ named loaded.now }
        requires branch { IsBranch N.program self.now }
        requires live { self.now.is_failed ≡ false }
        requires past { self.now.right ≡ [] }
        requires seen { HasHeavy N.program self.now.limit self.now.row self.now.left heavy }
        ensures { HasFound N.program self.now.limit self.now.row self.now.left result }
    {
        loaded.skeleton_is_of_the_program();
        match heavy {
            Some(first) => RoundSoFar::Heavy {
                goal: first.goal,
                clause: first.clause,
            },
            None => match first_call(loaded, &self.cells, &self.goals) {
                Some(goal) => RoundSoFar::Several { goal },
                None => RoundSoFar::NoCall,
            },
        }
    }

    /// Takes the next goal out. Takes no memory.
    fn drop_next(&mut self)
        ensures dropped { (g : Goal) (rest : List Goal) → self.old.right ≡ g ∷ rest → IsDropped self.old self.new rest }
        ensures few { AreFew self.new }
    {
        let _dropped = self.goals.pop();
        self.goals.are_few();
    }

    /// Marks the branch failed. Takes no memory.
    pub(crate) fn mark_failed(&mut self)
        ensures { self.new ≡ record self.old { is_failed = true } }
    {
        self.is_failed = true;
    }

    /// Whether there is room for so much more.
    pub(crate) fn has_room(&self, weight: u32) -> bool
        ensures room { result ≡ true → self.now.used + weight ≤ self.now.limit }
        ensures no_room { result ≡ false → self.now.used + weight ≤ self.now.limit → ⊥ }
    {
        self.used <= self.limit && weight <= self.limit - self.used
    }

    /// There are not too many goals to count: a law.
    fn goals_are_few(&self)
        ensures { AreFew self.now }
    {
        self.goals.are_few();
    }
}
