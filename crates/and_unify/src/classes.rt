//! Classes of references that were made equal (union by rank: Tarjan, 1975).

ghost use Rattle.std.specs.Prelude.{◌≡◌, ◌≢◌, ◌<◌, ◌^◌, ◌++◌, ◌∷◌, [], length, true, false, Ok, IfSome, IsNone, OnOk};
ghost use Rattle.std.specs.Prelude.{Contains};
ghost use Rattle.and_model.specs.declared.reference.Ref.{Ref};
ghost use Rattle.and_unify.specs.Classes.{Linked, Climbs, IsRoot, InOneClass, Joins};

use and_model::Ref;
use indexmap::IndexMap;
use std::alloc::{AllocError, Global};
use std::marker::Model;

/// Classes of references. Contracts see the links that were made.
pub(crate) struct Classes {
    /// Of each reference that is not the root of its class: one that is nearer to the root.
    parents: IndexMap<Ref, Ref>,
    /// How deep classes are at most, where that is not 0.
    ranks: IndexMap<Ref, u32>,
}

// By hand, so that it is proved once, here.
impl Drop for Classes {
    fn drop(self) {
        let Classes {
            parents: _,
            ranks: _,
        } = self;
    }
}

impl Model for Classes {
    ghost use Rattle.std.specs.Prelude.{List};
    ghost use Rattle.and_model.specs.declared.reference.Ref.{Ref};
    ghost use Rattle.and_unify.specs.Classes.{Climbs};

    ghost Value = { List (Ref × Ref) };

    ghost view = { λ classes. classes.parents.entries };

    ghost invariant = { λ classes. Climbs classes.parents.entries };
}

impl Classes {
    /// Each reference is a class of its own. Takes no memory.
    pub(crate) fn new(alloc: Global) -> Classes
        ensures { result ≡ [] }
    {
        Classes {
            parents: IndexMap::new(alloc),
            ranks: IndexMap::new(alloc),
        }
    }

    /// Joins the classes of the two, and says whether they were two classes. After an error, which is
    /// want of memory, it is spent.
    pub(crate) fn join(&mut self, left: Ref, right: Ref) -> Result<bool, AllocError>
        ensures joined { result ≡ Ok true → Joins left right self.old self.new }
        ensures same { result ≡ Ok false → (self.new ≡ self.old) × InOneClass self.old left right }
        ensures few { length self.new < 2 ^ 64 }
    {
        let _count = self.parents.len();
        let left_root = root(&self.parents, left);
        let right_root = root(&self.parents, right);
        if left_root == right_root {
            return Ok(false);
        }
        let left_rank = rank(&self.ranks, left_root);
        let right_rank = rank(&self.ranks, right_root);
        if left_rank < right_rank {
            link(&mut self.parents, left_root, right_root)?;
            return Ok(true);
        }
        link(&mut self.parents, right_root, left_root)?;
        if left_rank == right_rank {
            self.ranks.insert(left_root, left_rank.saturating_add(1))?;
        }
        Ok(true)
    }
}

/// The root of the class of a reference. Takes no memory.
fn root(parents: &IndexMap<Ref, Ref>, from: Ref) -> Ref
    requires { Climbs parents.now.entries }
    ensures joined { InOneClass parents.now.entries from result }
    ensures root { IsRoot parents.now.entries result }
{
    let mut at = from;
    while let Some(nearer) = parent(parents, at) {
        at = nearer;
    }
    at
}

/// The reference to which one is linked, where it is no root. Takes no memory.
fn parent(parents: &IndexMap<Ref, Ref>, of: Ref) -> Option<Ref>
    ensures linked { IfSome result (λ nearer. Linked parents.now.entries of nearer) }
    ensures root { IsNone result → IsRoot parents.now.entries of }
{
    parents.get(&of).copied()
}

/// How deep the class of a root is at most. Takes no memory.
fn rank(ranks: &IndexMap<Ref, u32>, root: Ref) -> u32 {
    ranks.get(&root).copied().unwrap_or(0)
}

/// Links a root to another. An error is want of memory, and leaves the links as they were.
fn link(parents: &mut IndexMap<Ref, Ref>, child: Ref, nearer: Ref) -> Result<(), AllocError>
    requires climbs { Climbs parents.old.entries }
    requires roots { IsRoot parents.old.entries child × IsRoot parents.old.entries nearer }
    requires differ { child ≢ nearer }
    ensures ok { OnOk result (parents.new.entries ≡ parents.old.entries ++ (child, nearer) ∷ []) }
    ensures climbs { Climbs parents.new.entries }
    ensures few { length parents.new.entries < 2 ^ 63 }
{
    let linked = parents.insert(child, nearer);
    let _count = parents.len();
    linked?;
    Ok(())
}
