//! Codes of proof trees, and their order.

ghost use Rattle.std.specs.Prelude.{◌≡◌, ◌<◌, ◌↔◌, ◌⊎◌, ℕ, List, [], ◌∷◌, ◌++◌, length, take, slice_get, Some};
ghost use Rattle.std.specs.Prelude.{IfOk, OnOk, OnErr};
ghost use Rattle.std.specs.Ordering.{nat_cmp};
ghost use Rattle.std.specs.Cmp.Lexicographic.{slice_cmp};
ghost use Rattle.and_model.specs.Codes.{Precedes};

use crate::numbers::ClauseNo;
use std::alloc::{AllocError, Global};
use std::cmp::Ordering;
use std::marker::Model;

/// The code of a proof tree: the numbers of its clauses in preorder, without the query. It keeps the
/// allocator that it was made with.
#[derive(Drop, Debug)]
pub struct Code {
    clauses: Vec<ClauseNo>,
}

impl Model for Code {
    ghost use Rattle.std.specs.Prelude.{List, ℕ};
    ghost use Rattle.and_model.specs.Codes.{numbers_of};

    ghost Value = { List ℕ };

    ghost view = { λ code. numbers_of code.clauses.items };
}

impl Code {
    /// The code without clauses. Takes no memory.
    pub fn new(alloc: Global) -> Code
        ensures { result ≡ [] }
    {
        Code {
            clauses: Vec::new(alloc),
        }
    }

    /// How many clauses it has. Takes no memory.
    pub fn len(&self) -> usize
        ensures { result ≡ length self.now }
    {
        self.clauses.len()
    }

    /// The clause at a place, counted from 0. Takes no memory.
    pub fn at(&self, place: usize) -> &ClauseNo
        requires { place < length self.now }
        ensures { slice_get self.now place ≡ Some result.now.0 }
    {
        &self.clauses[place]
    }

    /// Puts the clause at the end. An error is want of memory.
    pub fn push(&mut self, clause: ClauseNo) -> Result<(), AllocError>
        ensures ok { OnOk result (self.new ≡ self.old ++ clause.0 ∷ []) }
        ensures unchanged { OnErr result (self.new ≡ self.old) }
    {
        self.clauses.push(clause)?;
        Ok(())
    }

    /// Keeps the first `length` clauses; all, where there are no more. Takes no memory.
    pub fn truncate(&mut self, length: usize)
        ensures { self.new ≡ take length self.old }
    {
        self.clauses.truncate(length);
    }

    /// Another code of the same clauses, on the same allocator. An error is want of memory.
    pub fn copy(&self) -> Result<Code, AllocError>
        ensures { IfOk result (λ code. code ≡ self.now) }
    {
        let clauses = Vec::from_slice(*self.clauses.allocator(), &self.clauses)?;
        Ok(Code { clauses })
    }

    /// How it stands to another code in the lexicographic order, in which a proper prefix is the
    /// smaller. Takes no memory.
    pub fn order(&self, other: &Code) -> Ordering
        ensures less { (result ≡ Ordering.Less) ↔ Precedes self.now other.now }
        ensures equal { (result ≡ Ordering.Equal) ↔ (self.now ≡ other.now) }
        ensures greater { (result ≡ Ordering.Greater) ↔ Precedes other.now self.now }

        // The same, in the word that std's sorts and maps have for it.
        ensures value { result ≡ slice_cmp nat_cmp self.now other.now }
    {
        self.clauses.cmp(&other.clauses)
    }
}

/// The order of codes is a strict total order: of two codes, exactly one comes before the other or
/// they are equal, and what comes before a code comes before all that follow it.
pub fn codes_are_in_total_order()
    ensures irreflexive { (one : List ℕ) → Precedes one one → ⊥ }
    ensures asymmetric { (one other : List ℕ) → Precedes one other → Precedes other one → ⊥ }
    ensures total { (one other : List ℕ) → Precedes one other ⊎ (one ≡ other) ⊎ Precedes other one }
    ensures transitive { (one two three : List ℕ) → Precedes one two → Precedes two three → Precedes one three }
{}
