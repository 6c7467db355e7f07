//! What the seats of a tree's table see.

use std::marker::{Model, PhantomData};

/// The view of a seat. No value of it is made.
pub struct View {
    of: PhantomData<()>,
}

impl Model for View {
    ghost use Rattle.and_tree.specs.Sight.{Sight, spent};

    ghost Value = { Sight };

    ghost view = { λ _. spent };
}
