//! Calls that a worker reduces.

ghost use Rattle.std.specs.Prelude.{◌≡◌, ◌<◌, ◌≤◌, ◌++◌, ◌∷◌, ◌^◌, [], OnOk, IfOk, Ok, true, false, length};
ghost use Rattle.and_model.specs.Programs.{clause_at, clause_weight};
ghost use Rattle.and_program.specs.Loaded.{nodes_at, program_of, skeleton_of};
ghost use Rattle.and_program.specs.Skeletons;
ghost use Rattle.and_clause_index.specs.Selecting.{CanBeTried, AreLeft};
ghost use Rattle.and_store.specs.Worked.{seen_by};
ghost use Rattle.and_cells.specs.Meaning.{Words};
ghost use Rattle.and_cells.specs.Parts.{named};
ghost use Rattle.and_unify.specs.Pairs.{NameNoHalf};
ghost use Rattle.and_clause_index.specs.Tables.{IsTableOf};
ghost use Rattle.and_workers.specs.AtWork.{IsAtWork, IsNoted, IsTurned};
ghost use Rattle.and_workers.specs.Asking.{Notes, call_pair, item_pairs, has_fail};
ghost use Rattle.and_handed.specs.Handed.{FitsSeen};
ghost use Rattle.and_workers.specs.Items.{IsItemOver};

use crate::asking::{ask_call, ask_items};
use crate::calls::take_frame;
use crate::items::goal_in;
use crate::worker::{Reducer, Shared, Turn, Turned};
use and_cells::Naming;
use and_gate::Gate;
use and_handed::{Cause, Reduced};
use and_model::limits::MAX_LIMIT;
use and_model::{ClauseNo, Goal, NodeNo, Reduction};
use and_program::{ItemNode, Loaded};
use and_shared_determinacy::{Selected, select, waits_on};
use and_store::{Pass, StoreCells};
use and_unify::{PairList, Unified, unify};
use std::alloc::AllocError;
use std::snapshot::Snapshot;

/// How many pairs and parts of guards a selection may take.
const SELECTING: u64 = 65_536;

/// How many places a unification may take. What is left then is left to the leader.
pub(crate) const UNIFYING: u64 = 1_048_576;

/// Puts the pairs of one list behind those of another. An error is want of memory.
pub(crate) fn add_pairs(all: &mut PairList, pairs: &PairList) -> Result<(), AllocError>
    ensures { OnOk result (all.new ≡ all.old ++ pairs.now) }
{
    for place in 0..pairs.len() {
        let pair = *pairs.at(place);
        all.push(pair.left, pair.right)?;
    }
    Ok(())
}

/// The place of the first call among items; where there is none, that behind the last of them.
fn first_call(items: &[ItemNode]) -> usize {
    for place in 0..items.len() {
        if let ItemNode::Call { .. } = items[place] {
            return place;
        }
    }
    items.len()
}

impl<'a, N: Naming> Reducer<StoreCells<'a, N>> {
    /// Reduces a call, whose node is given, if it has one candidate alone.
    pub(crate) fn look_at_call<G: Gate>(
        &mut self,
        shared: &Shared<'a, N, G>,
        cells: StoreCells<'a, N>,
        goal: Goal,
        node: NodeNo,
    ) -> Turned<'a, N>
        requires program { N.program ≡ named shared.now.loaded.now }
        requires table { IsTableOf N.program shared.now.table.now }
        requires store { cells.pass.store ≡ shared.now.store.now }
        requires at_work { IsAtWork N.program self.old.told [] self.old.suspended cells.pass }
        requires call { IsItemOver N.program shared.now.words goal (Skeletons.call node.0) }
        ensures store { result.0.pass.store ≡ cells.entry.pass.store }
        ensures turned { IsTurned N.program self.new.told self.new.suspended result.0.pass result.1 }
    {
        let mut cells = cells;
        let mut fuel = SELECTING;
        let selected = select(
            shared.table,
            shared.loaded,
            &mut cells,
            shared.words,
            goal,
            &mut fuel,
            &mut self.scratch,
            &mut self.selector,
            &mut self.clauses,
        );
        match selected {
            Selected::Memory => (cells, Err(AllocError)),
            Selected::Unsure => (cells, Ok(Turn::Worked)),
            Selected::Clauses => match self.clauses.len() {
                0 => self.give_up(shared.store, cells, Cause::NoCandidate(goal)),
                1 => {
                    let clause = *self.clauses.at(0);
                    self.reduce(shared, cells, goal, node, clause)
                }
                _ => self.wait_for_argument(shared, cells, goal),
            },
        }
    }

    /// Lets a call with several candidates wait for its first argument that is free. Where it has none it is left
    /// over.
    fn wait_for_argument<G: Gate>(
        &mut self,
        shared: &Shared<'a, N, G>,
        cells: StoreCells<'a, N>,
        goal: Goal,
    ) -> Turned<'a, N>
        requires program { N.program ≡ named shared.now.loaded.now }
        requires table { IsTableOf N.program shared.now.table.now }
        requires store { cells.pass.store ≡ shared.now.store.now }
        requires at_work { IsAtWork N.program self.old.told [] self.old.suspended cells.pass }
        requires call { CanBeTried N.program shared.now.words goal }
        ensures store { result.0.pass.store ≡ cells.entry.pass.store }
        ensures turned { IsTurned N.program self.new.told self.new.suspended result.0.pass result.1 }
    {
        let mut cells = cells;
        shared.loaded.skeleton_is_of_the_program();
        match waits_on(shared.loaded, &mut cells, goal) {
            Some(cell) => self.wait(shared.store, cells, goal, cell),
            None => (cells, Ok(Turn::Worked)),
        }
    }

    /// Reduces a call by its one candidate, if there is room for the clause's frame. Else it is left over.
    fn reduce<G: Gate>(
        &mut self,
        shared: &Shared<'a, N, G>,
        cells: StoreCells<'a, N>,
        goal: Goal,
        node: NodeNo,
        clause: ClauseNo,
    ) -> Turned<'a, N>
        requires program { N.program ≡ named shared.now.loaded.now }
        requires table { IsTableOf N.program shared.now.table.now }
        requires store { cells.pass.store ≡ shared.now.store.now }
        requires at_work { IsAtWork N.program self.old.told [] self.old.suspended cells.pass }
        requires call { IsItemOver N.program shared.now.words goal (Skeletons.call node.0) }
        requires sole { AreLeft N.program (seen_by cells.pass) goal (clause ∷ []) }
        ensures store { result.0.pass.store ≡ cells.entry.pass.store }
        ensures turned { IsTurned N.program self.new.told self.new.suspended result.0.pass result.1 }
    {
        shared.gate.reduce(self.number);
        let weight = shared.loaded.weight(clause);
        // No row is longer than the greatest limit.
        if weight > MAX_LIMIT {
            return (cells, Ok(Turn::Worked));
        }
        shared.loaded.skeleton_is_of_the_program();
        let (cells, frame) = take_frame(shared.store, cells, weight);
        let Some((floor, judged)) = frame else {
            return (cells, Ok(Turn::Worked));
        };
        let noted = self.note(shared.loaded, goal, node, clause, floor, judged);
        self.go_on(shared, cells, clause, floor, noted)
    }

    /// Goes on with a reduction that was noted: makes its pairs equal and puts its body, or gives up.
    fn go_on<G: Gate>(
        &mut self,
        shared: &Shared<'a, N, G>,
        cells: StoreCells<'a, N>,
        clause: ClauseNo,
        floor: u32,
        noted: Result<bool, AllocError>,
    ) -> Turned<'a, N>
        requires program { N.program ≡ named shared.now.loaded.now }
        requires table { IsTableOf N.program shared.now.table.now }
        requires clause { clause.0 ≤ length (program_of shared.now.loaded.now).clauses }
        requires store { cells.pass.store ≡ shared.now.store.now }
        requires noted { IsNoted N.program self.old.told self.old.pairs self.old.suspended cells.pass noted }
        ensures store { result.0.pass.store ≡ cells.entry.pass.store }
        ensures turned { IsTurned N.program self.new.told self.new.suspended result.0.pass result.1 }
    {
        match noted {
            Err(_) => (cells, Err(AllocError)),
            Ok(false) => self.give_up(shared.store, cells, Cause::NoSolution),
            Ok(true) => {
                let (cells, turned) = self.solve(shared, cells);
                self.put_body(shared.loaded, clause, floor);
                (cells, turned)
            }
        }
    }

    /// Notes a reduction, and what it asks of the cells. Answers whether no item of the body is `fail`. An error is
    /// want of memory.
    fn note(
        &mut self,
        loaded: &Loaded,
        goal: Goal,
        node: NodeNo,
        clause: ClauseNo,
        floor: u32,
        judged: Snapshot<Pass>,
    ) -> Result<bool, AllocError>
        requires node { node.0 < length (skeleton_of loaded.now).nodes }
        requires clause { clause.0 ≤ length (program_of loaded.now).clauses }
        requires base { goal.base < 2 ^ 23 }
        requires floor { floor < 2 ^ 23 }
        ensures noted { OnOk result (Notes goal clause floor judged.value self.old.told self.new.told) }
        ensures suspended { self.new.suspended ≡ self.old.suspended }
        ensures asked { result ≡ Ok true → self.new.pairs ≡ call_pair (named loaded.now) goal.base node.0 clause.0 floor
            ∷ item_pairs (named loaded.now) floor (nodes_at (skeleton_of loaded.now) clause.0).items }
        ensures none { result ≡ Ok true → has_fail (nodes_at (skeleton_of loaded.now) clause.0).items ≡ false }
        ensures failing { result ≡ Ok false → has_fail (nodes_at (skeleton_of loaded.now) clause.0).items ≡ true }
    {
        let reduction = Reduction {
            parent: goal.node,
            item: goal.item,
            clause,
            node: floor,
        };
        self.told.made.push(Reduced {
            reduction,
            goal,
            judged,
        })?;
        ask_call(loaded, node, goal.base, clause, floor, &mut self.pairs)?;
        ask_items(loaded, clause, floor, &mut self.pairs)
    }

    /// Makes the pairs equal that were asked for. What the fuel does not suffice for is kept.
    pub(crate) fn solve<G: Gate>(
        &mut self,
        shared: &Shared<'a, N, G>,
        cells: StoreCells<'a, N>,
    ) -> Turned<'a, N>
        requires program { N.program ≡ named shared.now.loaded.now }
        requires table { IsTableOf N.program shared.now.table.now }
        requires store { cells.pass.store ≡ shared.now.store.now }
        requires at_work { IsAtWork N.program self.old.told self.old.pairs self.old.suspended cells.pass }
        requires whole { (w : Words) → FitsSeen N.program self.old.told cells.pass w
            → NameNoHalf N.program w self.old.pairs }
        ensures store { result.0.pass.store ≡ cells.entry.pass.store }
        ensures turned { IsTurned N.program self.new.told self.new.suspended result.0.pass result.1 }
    {
        let mut cells = cells;
        let mut fuel = UNIFYING;
        match unify(
            shared.alloc,
            shared.loaded,
            &mut cells,
            &mut fuel,
            &mut self.pairs,
        ) {
            Unified::Same => (cells, Ok(Turn::Worked)),
            Unified::Apart { .. } => self.give_up(shared.store, cells, Cause::NoSolution),
            Unified::PutOff => match add_pairs(&mut self.told.pairs, &self.pairs) {
                Ok(()) => (cells, Ok(Turn::Worked)),
                Err(_) => (cells, Err(AllocError)),
            },
            Unified::Memory => (cells, Err(AllocError)),
        }
    }

    /// Puts the calls of a body into the hand but for the first, and beside it that one and the arithmetic, which is
    /// looked at first. So a worker leads a call to its end, and others take what stands behind it.
    fn put_body(&mut self, loaded: &Loaded, clause: ClauseNo, node: u32)
        requires { clause.0 ≤ length (program_of loaded.now).clauses }
        ensures { (self.new.told ≡ self.old.told) × (self.new.suspended ≡ self.old.suspended) }
    {
        let items = loaded.items(clause);
        let first = first_call(items);
        self.put_first(items, first, clause, node);
        for place in 0..items.len() {
            if place != first {
                self.put_at(items, place, clause, node);
            }
        }
    }

    /// Puts the goal of the item at that place, if there is one, beside the hand.
    fn put_first(&mut self, items: &[ItemNode], place: usize, clause: ClauseNo, node: u32)
        ensures { (self.new.told ≡ self.old.told) × (self.new.suspended ≡ self.old.suspended) }
    {
        let Some(item) = items.get(place).copied() else {
            return;
        };
        let Ok(number) = u32::try_from(place) else {
            return;
        };
        let Some(goal) = goal_in(item, number, clause, node) else {
            return;
        };
        self.put_own(goal);
    }

    /// Puts the goal of the item at that place.
    fn put_at(&mut self, items: &[ItemNode], place: usize, clause: ClauseNo, node: u32)
        requires { place < length items.now }
        ensures { (self.new.told ≡ self.old.told) × (self.new.suspended ≡ self.old.suspended) }
    {
        if let Ok(number) = u32::try_from(place) {
            self.put_item(items[place], number, clause, node);
        }
    }

    /// Puts the goal of an item into the hand if it is a call, and beside it if it is arithmetic.
    fn put_item(&mut self, item: ItemNode, place: u32, clause: ClauseNo, node: u32)
        ensures { (self.new.told ≡ self.old.told) × (self.new.suspended ≡ self.old.suspended) }
    {
        let Some(goal) = goal_in(item, place, clause, node) else {
            return;
        };
        match item {
            ItemNode::Call { .. } => self.put(goal),
            ItemNode::Equal { .. } => {}
            ItemNode::Is { .. } => self.put_own(goal),
            ItemNode::Compare { .. } => self.put_own(goal),
            ItemNode::Fail => {}
        }
    }
}
