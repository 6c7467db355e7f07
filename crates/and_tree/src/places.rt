//! Where the keys of a plain tree are: in the hands of its teams, and in its cells.

ghost use Rattle.std.specs.Prelude.{◌≡◌, ◌≢◌, ◌<◌, ◌≤◌, ◌*◌, [], suc, ℕ, OnOk, OnErr, IfOk, IfErr, None, replicate};
ghost use Rattle.and_histories.specs.PlainTree.{Key, Holds, IsTeam, IsCell, Owns, cell_of, seen_in, opening};
ghost use Rattle.and_histories.specs.PlainTree.{with_keys, with_cell, joined, free, opened, last_serial};
ghost use Rattle.and_tree.specs.Replies.{seen_of};

use crate::hand::Hand;
use crate::keyed::Keyed;
use crate::replies::CellSeen;
use crate::words::CELLS_PER_TEAM;
use and_model::Code;
use std::alloc::{AllocError, Global};
use std::marker::Model;

/// A cell, and what lies open in it.
#[derive(Drop)]
pub(crate) struct PlainCell<B> {
    serial: u64,
    branch: Option<B>,
}

/// Where the keys of a tree are.
pub(crate) struct Places<B: Keyed + Drop> {
    hands: Vec<Hand>,
    cells: Vec<PlainCell<B>>,
    limit: u32,
}

// By hand, so that it is proved once, here.
impl<B: Keyed + Drop> Drop for Places<B> {
    fn drop(self) {
        let Places {
            hands: _,
            cells: _,
            limit: _,
        } = self;
    }
}

impl<B: Keyed + Drop> Model for Places<B> {
    ghost use Rattle.std.specs.Prelude.{◌≡◌, ◌≤◌, ◌*◌, map, length, All, IfSome};
    ghost use Rattle.and_histories.specs.PlainTree.{last_serial};
    ghost use Rattle.and_tree.specs.Plain.{Placed, content_of};

    ghost Value = { Placed };

    ghost view = { λ p. record {
      limit = p.limit;
      state = record {
        hands = p.hands.items;
        cells = map (λ c. record { serial = c.serial; content = content_of B.key_of c.branch }) p.cells.items;
      };
    } };

    ghost invariant = { λ p. (length p.cells.items ≡ 8 * length p.hands.items)
        × All (λ c. (c.serial ≤ last_serial) × IfSome c.branch (λ branch. B.Stands p.limit branch)) p.cells.items };
}

impl<B: Keyed + Drop> Places<B> {
    /// The places of a tree of so many teams, whose root lies open in the first cell with serial 1. An
    /// error is want of memory, and hands the root back.
    pub(crate) fn open(alloc: Global, teams: u32, limit: u32, root: B) -> Result<Places<B>, B>
        requires teams { (0 < teams) × (teams ≤ 16) }
        requires root { B.Stands limit root × (B.key_of root ≡ []) }
        ensures ok { IfOk result (λ places. places ≡ record { limit = limit; state = opening teams }) }
        ensures given_back { IfErr result (λ back. back ≡ root) }
    {
        let Ok(hands) = empty_hands(alloc, teams) else {
            return Err(root);
        };
        let Ok(mut cells) = empty_cells(alloc, teams * CELLS_PER_TEAM) else {
            return Err(root);
        };
        cells[0] = PlainCell {
            serial: 1,
            branch: Some(root),
        };
        Ok(Places {
            hands,
            cells,
            limit,
        })
    }

    /// Puts other keys in the place of a key in a team's hand. An error is want of memory, and leaves
    /// all as it was.
    pub(crate) fn put_in_place(
        &mut self,
        team: u32,
        key: &Code,
        others: Vec<Code>,
    ) -> Result<(), AllocError>
        requires { Holds self.old.state team key.now }
        ensures ok { OnOk result
            (self.new ≡ record self.old { state = with_keys self.old.state team key.now others.items }) }
        ensures unchanged { OnErr result (self.new ≡ self.old) }
    {
        self.hands[team as usize].put_in_place(key, others)
    }

    /// Takes a key out of a team's hand.
    pub(crate) fn take_out(&mut self, team: u32, key: &Code)
        requires { Holds self.old.state team key.now }
        ensures { self.new ≡ record self.old { state = with_keys self.old.state team key.now [] } }
    {
        self.hands[team as usize].take_out(key);
    }

    /// One key more in a team's hand. An error is want of memory, and leaves all as it was.
    pub(crate) fn add(&mut self, team: u32, key: Code) -> Result<(), AllocError>
        requires { IsTeam self.old.state team }
        ensures ok { OnOk result (self.new ≡ record self.old { state = joined self.old.state team key }) }
        ensures unchanged { OnErr result (self.new ≡ self.old) }
    {
        self.hands[team as usize].add(key)
    }

    /// What a look at a cell tells.
    pub(crate) fn seen(&self, cell: u32) -> CellSeen
        requires { IsCell self.now.state cell }
        ensures { seen_of result ≡ seen_in (cell_of self.now.state cell) }
    {
        let found = &self.cells[cell as usize];
        if found.branch.is_some() {
            CellSeen::Open {
                serial: found.serial,
            }
        } else {
            CellSeen::Free
        }
    }

    /// How often a cell of the team's own was opened.
    pub(crate) fn own_serial(&self, team: u32, cell: u32) -> u64
        requires team { IsTeam self.now.state team }
        requires own { Owns team cell }
        ensures is_cell { IsCell self.now.state cell }
        ensures serial { result ≡ (cell_of self.now.state cell).serial }
    {
        let _team = team;
        self.cells[cell as usize].serial
    }

    /// Another copy of the key that lies open in a cell. An error is want of memory.
    pub(crate) fn key(&self, cell: u32) -> Result<Code, AllocError>
        requires cell { IsCell self.now.state cell }
        requires is_open { (key : Key) × ((cell_of self.now.state cell).content ≡ opened key) }
        ensures { IfOk result (λ key. (cell_of self.now.state cell).content ≡ opened key) }
    {
        match &self.cells[cell as usize].branch {
            Some(branch) => branch.key().copy(),
            None => unreachable!(),
        }
    }

    /// Opens a cell once more, with this branch.
    pub(crate) fn open_cell(&mut self, cell: u32, branch: B)
        requires cell { IsCell self.old.state cell }
        requires serial { (cell_of self.old.state cell).serial ≢ last_serial }
        requires stands { B.Stands self.old.limit branch }
        ensures { self.new ≡ record self.old {
          state =
              with_cell self.old.state cell (suc (cell_of self.old.state cell).serial) (opened (B.key_of branch));
        } }
    {
        let serial = self.cells[cell as usize].serial + 1;
        self.cells[cell as usize] = PlainCell {
            serial,
            branch: Some(branch),
        };
    }

    /// Takes out what lies open in a cell.
    pub(crate) fn clear(&mut self, cell: u32) -> B
        requires cell { IsCell self.old.state cell }
        requires is_open { (key : Key) × ((cell_of self.old.state cell).content ≡ opened key) }
        ensures branch { B.Stands self.old.limit result
            × ((cell_of self.old.state cell).content ≡ opened (B.key_of result)) }
        ensures cleared { self.new ≡ record self.old
            { state = with_cell self.old.state cell (cell_of self.old.state cell).serial free } }
    {
        match self.cells[cell as usize].branch.take() {
            Some(branch) => branch,
            None => unreachable!(),
        }
    }
}

/// So many empty hands.
fn empty_hands(alloc: Global, teams: u32) -> Result<Vec<Hand>, AllocError>
    ensures { IfOk result (λ hands. hands.items ≡ replicate teams []) }
{
    let mut hands = Vec::with_capacity(alloc, teams as usize)?;
    for _team in 0..teams {
        hands.push(Hand::new(alloc))?;
    }
    Ok(hands)
}

/// So many cells that are free.
fn empty_cells<B: Drop>(alloc: Global, count: u32) -> Result<Vec<PlainCell<B>>, AllocError>
    ensures { IfOk result (λ cells. cells.items ≡ replicate count (record { serial = 0; branch = None })) }
{
    let mut cells = Vec::with_capacity(alloc, count as usize)?;
    for _cell in 0..count {
        cells.push(PlainCell {
            serial: 0,
            branch: None,
        })?;
    }
    Ok(cells)
}
