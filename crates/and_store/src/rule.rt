//! The rule of a store's table.

ghost use Rattle.and_store.specs.Kept.{Kept};
ghost use Rattle.and_store.specs.Sight.{opener};

use crate::view::View;
use and_cells::{Naming, PlainCells};
use atomic_table::TableRule;
use std::marker::{Model, PhantomData};
use std::snapshot::Snapshot;

/// What the table is told when it is made. The cells of the opening stand in it without bytes.
pub struct Start<N: Naming> {
    pub cells: Snapshot<PlainCells<N>>,
    pub words: u32,
    pub seats: u32,
    pub waiters: u32,
}

// By hand, so that it is proved once, here.
impl<N: Naming> Drop for Start<N> {
    fn drop(self) {
        let Start {
            cells: _,
            words: _,
            seats: _,
            waiters: _,
        } = self;
    }
}

impl<N: Naming> Model for Start<N> {
    ghost use Rattle.and_store.specs.Sight.{About};

    ghost Value = { About };

    ghost view = { λ s. record { first = s.cells.value; words = s.words; seats = s.seats; waiters = s.waiters } };
}

pub struct StoreRule<N: Naming> {
    pub program: PhantomData<N>,
}

impl<N: Naming> TableRule<(), View, Start<N>> for StoreRule<N> {
    ghost holds = { λ about s. Kept N.program about s };

    ghost first = { opener };
}
