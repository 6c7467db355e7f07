//! A store: a row of words that several passes set at the same time.

use crate::rule::{Start, StoreRule};
use crate::view::View;
use and_cells::Naming;
use atomic_table::Table;
use std::alloc::Global;
use std::marker::Model;

pub(crate) type Rows<N> = Table<(), View, Start<N>, StoreRule<N>, Global>;

/// A row of words, each free or set, which workers set from threads of their own. Beside each word lies
/// a waiting place, for the goals that wait until it is set.
///
/// It has no locks. Each call but `open` and `close` is made with a pass, takes no memory and never waits.
#[derive(Drop)]
pub struct Store<N: Naming> {
    pub(crate) table: Rows<N>,
    pub(crate) first: u32,
    pub(crate) words: u32,
    pub(crate) seats: u32,
    pub(crate) waiters: u32,
    pub(crate) alloc: Global,
}

impl<N: Naming> Model for Store<N> {
    ghost use Rattle.and_store.specs.Passes.{StoreId, IsStore};

    ghost Value = { StoreId };

    ghost view = { λ s. record { table = s.table.shared.table_id; about = s.table.shared.key } };

    ghost invariant = { λ s. IsStore s.table.shared.table_id s.table.shared.key s.first s.words s.seats s.waiters };
}
