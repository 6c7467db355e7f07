//! The rule of a tree's table.

ghost use Rattle.and_tree.specs.Kept.{Kept};
ghost use Rattle.and_tree.specs.Sight.{opener};

use crate::keyed::Keyed;
use crate::view::View;
use atomic_table::TableRule;
use std::marker::{Model, PhantomData};

/// What the table is told when it is made.
pub struct Start {
    pub teams: u32,
    pub limit: u32,
}

// By hand, so that it is proved once, here.
impl Drop for Start {
    fn drop(self) {
        let Start { teams: _, limit: _ } = self;
    }
}

impl Model for Start {
    ghost use Rattle.and_tree.specs.Sight.{About};

    ghost Value = { About };

    ghost view = { λ s. record { teams = s.teams; limit = s.limit } };
}

pub struct TreeRule<B: Keyed> {
    pub of: PhantomData<B>,
}

impl<B: Keyed> TableRule<Option<B>, View, Start> for TreeRule<B> {
    ghost holds = { λ about s. Kept B.key_of B.Stands about s };

    ghost first = { opener };
}
