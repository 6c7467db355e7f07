//! Entries in the order of their codes.

use crate::tail::Tail;
use std::marker::Model;

/// Entries in the order of their codes, the first of them last. Each stands behind the one before it.
#[derive(Drop)]
pub(crate) struct Run {
    pub tails: Vec<Tail>,
}

impl Model for Run {
    ghost use Rattle.std.specs.Prelude.{List, [], reverse};
    ghost use Rattle.and_answers.specs.Runs.{Rises};
    ghost use Rattle.and_answers.specs.declared.tail.Tail.{Tail};

    ghost Value = { List Tail };

    ghost view = { λ run. run.tails.items };

    ghost invariant = { λ run. Rises [] (reverse run.tails.items) };
}
