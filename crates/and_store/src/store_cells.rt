//! A worker's cells: a store, and a pass of it.

ghost use Rattle.std.specs.Prelude.{◌≡◌};
ghost use Rattle.and_cells.specs.Ranges.{NamedProgram};
ghost use Rattle.and_store_laws.specs.Grown.{Grew};
ghost use Rattle.and_store.specs.Passes.{PassSeen};
ghost use Rattle.and_store.specs.Worked.{IsOnce, IsUsed};

use crate::pass::Pass;
use crate::store::Store;
use and_cells::{Bound, Cells, Naming};
use and_model::Ref;

/// The cells of one worker: a row that others set words of at the same time.
pub struct StoreCells<'a, N: Naming> {
    store: &'a Store<N>,
    pass: Pass,
    ghost of: { pass.store ≡ store.now },
    ghost once: { IsOnce pass.pass.known },
}

// By hand, so that it is proved once, here.
impl<'a, N: Naming> Drop for StoreCells<'a, N> {
    fn drop(self) {
        let StoreCells { store: _, pass: _ } = self;
    }
}

impl<'a, N: Naming> StoreCells<'a, N> {
    /// The cells of a store, for the worker with this pass. Takes no memory.
    pub fn new(store: &'a Store<N>, pass: Pass) -> StoreCells<'a, N>
        requires { pass.store ≡ store.now }
        ensures { (result.store.now ≡ store.now) × (result.pass ≡ pass) }
    {
        let _number = pass.number;
        StoreCells { store, pass }
    }

    /// The pass, when the work is done. Takes no memory.
    pub fn into_pass(self) -> Pass
        ensures { result ≡ self.entry.pass }
    {
        let StoreCells { store: _, pass } = self;
        pass
    }
}

impl<'a, N: Naming> Cells for StoreCells<'a, N> {
    ghost use Rattle.and_store.specs.Passes.{StoreId};
    ghost use Rattle.and_store.specs.Worked.{seen_by, once_is_coherent, IsUsed, not_used, used_on};

    ghost Row = { StoreId };

    ghost over = { λ w. w.pass.store };

    ghost shared = { λ s. s.about.words };

    ghost program = { N.program };

    ghost seen = { λ w. seen_by w.pass };

    ghost Grew = { λ v w. IsUsed N.program v.pass w.pass };

    ghost coherent = { λ w. once_is_coherent w.pass w.once };

    ghost grew_nothing = { λ w. not_used N.program w.pass };

    ghost grew_on = { λ u v w. used_on N.program u.pass v.pass w.pass };

    fn look(&mut self, cell: u32) -> Ref {
        self.store.look(&mut self.pass, cell)
    }

    fn bind(&mut self, cell: u32, to: Ref) -> Bound {
        self.store.bind(&mut self.pass, cell, to)
    }

    fn write_number(&mut self, pair: u32, value: i64) -> i64 {
        self.store.write_number(&mut self.pass, pair, value)
    }

    fn number(&mut self, pair: u32) -> i64 {
        self.store.number(&mut self.pass, pair)
    }
}

/// What was done with a worker as cells only adds to what its pass has seen, knows and made, and asks for
/// no frame, fails nowhere and hangs nothing.
pub fn a_used_worker_grew()
    ensures { (P : NamedProgram) (p q : PassSeen) → IsUsed P p q → Grew p.pass q.pass }
{}
