//! A list of bytes that only proofs read.
ghost use Rattle.std.specs.Prelude.{◌≡◌, ℕ, List, [], ◌++◌};
ghost use Rattle.std.specs.Borrow.{ftrue};

use std::marker::{Model, PhantomData};

/// Bytes that only proofs read. It takes no memory, and its methods do nothing when they run.
#[derive(Drop)]
pub struct Tape {
    marker: PhantomData<u8>,
    /// The bytes that were noted, in their order.
    pub ghost bytes: { List ℕ },
}

impl Model for Tape {
    ghost also_owns = { λ _. ftrue };
}

impl Tape {
    /// A tape on which nothing is noted.
    pub(crate) fn new() -> Tape
        ensures { result.bytes ≡ [] }
    {
        Tape {
            marker: PhantomData,
        }
    }

    /// Notes these bytes behind the others.
    pub(crate) fn note(&mut self, _bytes: &[u8])
        ensures { self.new.bytes ≡ self.old.bytes ++ _bytes.now }
    {}
}
