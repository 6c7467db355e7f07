//! A choicepoint tree that teams share.

use crate::keyed::Keyed;
use crate::rule::{Start, TreeRule};
use crate::view::View;
use atomic_table::Table;
use std::alloc::Global;
use std::marker::Model;

pub(crate) type Cells<B> = Table<Option<B>, View, Start, TreeRule<B>, Global>;

/// A choicepoint tree that teams share, from threads of their own. Branches lie open in its cells, or
/// are with the team that has their key in hand.
///
/// It has no locks. Each call but `open` and `close` is made with the pass of a team, takes no memory
/// and never waits.
#[derive(Drop)]
pub struct Tree<B: Keyed + Drop> {
    pub(crate) table: Cells<B>,
    pub(crate) teams: u32,
}

impl<B: Keyed + Drop> Model for Tree<B> {
    ghost use Rattle.and_tree.specs.Passes.{TreeId, IsTree};

    ghost Value = { TreeId };

    ghost view = { λ t. record { table = t.table.shared.table_id; about = t.table.shared.key } };

    ghost invariant = { λ t. IsTree t.table.shared.table_id t.table.shared.key t.teams };
}
