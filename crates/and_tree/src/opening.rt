//! How a tree is opened.

ghost use Rattle.std.specs.Prelude.{◌≡◌, ◌<◌, ◌≤◌, ◌+◌, ◌*◌, [], ◌∷◌, Some, None, replicate, IfOk, IfErr, List};
ghost use Rattle.std.specs.Prelude.{Option, set, vec_capacity};
ghost use Rattle.and_tree.specs.Passes.{fresh, fresh_from};
ghost use Rattle.and_tree.specs.Kept.{words_of};
ghost use Rattle.and_tree.specs.Sight.{opener, newcomer};
ghost use Rattle.and_histories.specs.PlainTree.{opening};

use crate::counts::Counts;
use crate::keyed::Keyed;
use crate::pass::{TreePass, TreePassList};
use crate::plays::Deals;
use crate::rule::Start;
use crate::tree::{Cells, Tree};
use crate::view::View;
use crate::words::{CELLS_PER_TEAM, FREE, OPEN, word_of};
use atomic_table::Seat;
use std::alloc::{AllocError, Global};

/// The words of a tree that is opened.
fn first_words(alloc: Global, teams: u32) -> Result<Vec<u64>, AllocError>
    requires { (0 < teams) × (teams ≤ 16) }
    ensures { IfOk result (λ words. words.items ≡ words_of (record { now = opening teams; history = [] })) }
{
    let cells = teams as usize * CELLS_PER_TEAM as usize;
    let mut words = Vec::with_capacity(alloc, cells + 1)?;
    words.push(1)?;
    words.push(word_of(1, OPEN))?;
    words.resize(cells + 1, FREE)?;
    Ok(words)
}

/// The slots of a tree that is opened: the root lies in the first one. There is room for them.
fn first_slots<B>(slots: Vec<Option<B>>, teams: u32, root: B) -> Vec<Option<B>>
    requires { (0 < teams) × (teams ≤ 16) × (slots.items ≡ []) × (8 * teams ≤ vec_capacity slots) }
    ensures { (rest : List (Option B)) × (result.items ≡ Some root ∷ rest)
        × (Some root ∷ rest ≡ set (replicate (8 * teams) None) 0 (Some root)) }
{
    let cells = teams as usize * CELLS_PER_TEAM as usize;
    let mut slots = slots;
    slots.push_reserved(Some(root));
    for _cell in 1..cells {
        slots.push_reserved(None);
    }
    slots
}

/// The root, which lies in the first of the slots.
fn root_of<B: Drop>(slots: Vec<Option<B>>) -> B
    requires { (root : B) × (rest : List (Option B)) × (slots.items ≡ Some root ∷ rest) }
    ensures { (rest : List (Option B)) × (slots.items ≡ Some result ∷ rest) }
{
    let mut slots = slots;
    match slots.swap_remove(0) {
        Some(root) => root,
        None => unreachable!(),
    }
}

impl<B: Keyed + Drop> Tree<B> {
    /// Opens a tree of so many teams, whose root lies open in the first cell with serial 1. A pass for
    /// each team comes with it. An error is want of memory, and hands the root back.
    pub fn open(
        alloc: Global,
        teams: u32,
        limit: u32,
        root: B,
    ) -> Result<(Tree<B>, TreePassList<B>), B>
        requires teams { (0 < teams) × (teams ≤ 16) }
        requires root { B.Stands limit root × (B.key_of root ≡ []) }
        ensures about { IfOk result (λ r. r.0.about ≡ record { teams = teams; limit = limit }) }
        ensures passes { IfOk result (λ r. r.1 ≡ fresh_from r.0 0 teams) }
        ensures given_back { IfErr result (λ back. back ≡ root) }
    {
        let Ok(words) = first_words(alloc, teams) else {
            return Err(root);
        };
        let cells = teams as usize * CELLS_PER_TEAM as usize;
        let Ok(slots) = Vec::with_capacity(alloc, cells) else {
            return Err(root);
        };
        let Ok(passes) = Vec::with_capacity(alloc, teams as usize) else {
            return Err(root);
        };
        let slots = first_slots(slots, teams, root);
        let start = Start { teams, limit };
        match Cells::new(alloc, words.as_slice(), slots, &start) {
            Ok((table, seat)) => {
                let tree = Tree { table, teams };
                let passes = tree.deal(seat, passes);
                Ok((tree, passes))
            }
            Err(refused) => Err(root_of(refused.slots)),
        }
    }

    /// The passes of a tree that was opened just now, for which there is room.
    fn deal(&self, seat: Seat<Option<B>, View>, passes: Vec<TreePass<B>>) -> TreePassList<B>
        requires same { (seat.table_id ≡ self.now.table) × (seat.me.1 ≡ []) }
        requires opener { seat.me.0 ≡ opener self.now.about }
        requires room { (passes.items ≡ []) × (self.now.about.teams ≤ vec_capacity passes) }
        ensures { result ≡ fresh_from self.now 0 self.now.about.teams }
    {
        let mut rest = seat;
        let mut passes = passes;
        for team in 1..self.teams {
            let seat = self.table.shared.split_seat::<Deals>(&mut rest);
            passes.push_reserved(self.new_pass(seat, team - 1));
        }
        passes.push_reserved(self.new_pass(rest, self.teams - 1));
        TreePassList { passes }
    }

    /// The pass of a team that has done nothing.
    fn new_pass(&self, seat: Seat<Option<B>, View>, team: u32) -> TreePass<B>
        requires same { (seat.table_id ≡ self.now.table) × (seat.me.1 ≡ []) }
        requires team { team < self.now.about.teams }
        requires fresh { seat.me.0 ≡ record (opener self.now.about) { members = newcomer team ∷ [] } }
        ensures { result ≡ fresh self.now team }
    {
        let _teams = self.teams;
        TreePass {
            seat,
            team,
            counts: Counts::new(),
        }
    }
}
