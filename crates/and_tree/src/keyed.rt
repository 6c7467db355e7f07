//! What may lie in a tree, and what is forked.

ghost use Rattle.std.specs.Prelude.{◌≡◌, ℕ, List, length};
ghost use Rattle.and_histories.specs.PlainTree.{Key};
ghost use Rattle.and_tree.specs.Forked.{Fork};

use and_model::Code;

/// A branch, as far as a tree knows of it: it stands for the key that it keeps.
pub trait Keyed {
    /// The key that it keeps.
    ghost key_of: { Self → Key };

    /// It stands for its key under this limit.
    ghost Stands: { (limit : ℕ) → Self → Type 0 };

    /// What holds of each fork of a tree of such branches under this limit.
    ghost IsFork: { (limit : ℕ) → Fork → Type 0 };

    /// The key that it keeps. Takes no memory.
    fn key(&self) -> &Code
        ensures { result.now ≡ key_of self.now };
}

/// A branch that is split, as far as a tree knows of it: the key of the branch, and those of its children.
pub trait Forking {
    /// What contracts see of it.
    ghost fork_of: { Self → Fork };

    /// How many children it has. Takes no memory.
    fn count(&self) -> usize
        ensures { result ≡ length (fork_of self.now).clauses };
}
