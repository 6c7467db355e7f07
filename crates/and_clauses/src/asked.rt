//! Clauses to which queries are put, and a query that is put to them.

ghost use Rattle.std.specs.Prelude.{◌≡◌, map, length, take, None};
ghost use Rattle.std.proofs.Props.{props};
ghost use Rattle.and_syntax.specs.Tables.{empty};
ghost use Rattle.and_program.specs.Loaded.{nodes_in, entries_in, names_in};
ghost use Rattle.and_program.specs.Nodes.{shapes_of, names_of, entry_clause};
ghost use Rattle.and_program.specs.Predicates.{Finds};
ghost use Rattle.and_clauses.specs.Adds.{with_all};
ghost use Rattle.and_clauses.specs.Kept.{IsKept, IsKept-prop};

use crate::added::Added;
use crate::asking::{is_plain, set};
use crate::making::{Lengths, Lists};
use crate::scratch::Scratch;
use and_drafts::ClauseDraft;
use and_judging::{Called, Used};
use and_program::{ClauseNumbers, Loaded, LoadedParts};
use std::alloc::{AllocError, Global};

/// The clauses of a table that has no query, with the numbers of each predicate's.
pub struct Clauses {
    pub(crate) alloc: Global,
    pub(crate) lists: Lists,
    pub(crate) used: Used,
    pub(crate) numbers: ClauseNumbers,
    pub(crate) scratch: Scratch,
    pub(crate) added: Vec<Added>,
    ghost kept: { IsKept (shapes_of lists.nodes.items) lists.clauses.items None lists.calls.items
        (names_of lists.names.keys)
        used (with_all empty added.items) } by { IsKept-prop (shapes_of lists.nodes.items) lists.clauses.items None
            lists.calls.items (names_of lists.names.keys) used (with_all empty added.items) },
    ghost found: { Finds numbers (map (entry_clause (shapes_of lists.nodes.items))
        lists.clauses.items) } by { Prim.hlevel props },
}

// By hand, here and below, so that it is proved once, and not in each crate that lets go of one.
impl Drop for Clauses {
    fn drop(self) {
        let Clauses {
            alloc: _,
            lists: _,
            used: _,
            numbers: _,
            scratch: _,
            added: _,
        } = self;
    }
}

/// A query that is put to clauses: a program, and what is wanted to take it back.
pub struct Asked {
    pub(crate) alloc: Global,
    pub(crate) loaded: Loaded,
    pub(crate) calls: Vec<Called>,
    pub(crate) used: Used,
    pub(crate) added: Vec<Added>,
    pub(crate) lengths: Lengths,
    pub(crate) scratch: Scratch,
    ghost kept: { IsKept (take lengths.nodes (nodes_in loaded)) (entries_in loaded) None
        (take lengths.calls calls.items)
        (take lengths.names (names_in loaded))
        used (with_all empty added.items) } by { IsKept-prop (take lengths.nodes (nodes_in loaded)) (entries_in loaded)
            None (take lengths.calls calls.items) (take lengths.names (names_in loaded)) used
            (with_all empty added.items) },
    ghost all: { length (entries_in loaded) ≡ lengths.clauses } by { Prim.hlevel props },
}

impl Drop for Asked {
    fn drop(self) {
        let Asked {
            alloc: _,
            loaded: _,
            calls: _,
            used: _,
            added: _,
            lengths: _,
            scratch: _,
        } = self;
    }
}

/// What comes of putting a query to clauses: it is put, or they are as they were.
#[derive(Drop)]
pub enum Asking {
    Put(Asked),
    Left(Clauses),
}

impl Clauses {
    ghost use Rattle.std.specs.Prelude.{IfOk, IsTrue};
    ghost use Rattle.and_clauses.specs.Asking.{clauses_table, ground_of, IsAsking, IsOnGround};
    ghost use Rattle.and_drafts.specs.Drafts.{draft_of};
    ghost use Rattle.and_clauses.specs.Views.{is_query};

    /// Puts the query of a draft, the one argument of a compound `?-`, to the clauses, where it is not refused, has no
    /// disjunction, and each call has clauses. An error is want of memory.
    pub fn ask(self, draft: &ClauseDraft) -> Result<Asking, AllocError>
        requires { IsTrue (is_query (draft_of draft.now).finished) }
        ensures asked { IfOk result (IsAsking (clauses_table self) (draft_of draft.now)) }
        ensures ground { IfOk result (IsOnGround (ground_of self)) }
    {
        let Clauses {
            alloc,
            mut lists,
            used,
            numbers,
            mut scratch,
            added,
        } = self;
        let lengths = lists.lengths();
        if let Some(query) = set(alloc, &mut lists, &mut scratch, draft, used)? {
            if is_plain(&lists, lengths, &numbers) {
                let Lists {
                    names,
                    nodes,
                    clauses,
                    calls,
                } = lists;
                let loaded = Loaded::of_parts(LoadedParts {
                    nodes,
                    clauses,
                    query,
                    names,
                    numbers,
                });
                return Ok(Asking::Put(Asked {
                    alloc,
                    loaded,
                    calls,
                    used,
                    added,
                    lengths,
                    scratch,
                }));
            }
        }
        lists.cut(lengths);
        Ok(Asking::Left(Clauses {
            alloc,
            lists,
            used,
            numbers,
            scratch,
            added,
        }))
    }
}

impl Asked {
    ghost use Rattle.and_clauses.specs.Asking.{asked_ground, asked_table, clauses_table, ground_of, StandsOn};

    /// The program of the clauses and the query.
    pub fn loaded(&self) -> &Loaded
        ensures program { result.now ≡ self.now.loaded }
        ensures stands { StandsOn (asked_ground self.now) result.now }
    {
        &self.loaded
    }

    /// Takes the query back: the clauses to which it was put.
    pub fn into_clauses(self) -> Clauses
        ensures table { clauses_table result ≡ asked_table self }
        ensures ground { ground_of result ≡ asked_ground self }
    {
        let Asked {
            alloc,
            loaded,
            calls,
            used,
            added,
            lengths,
            scratch,
        } = self;
        let LoadedParts {
            nodes,
            clauses,
            query: _,
            names,
            numbers,
        } = loaded.into_parts();
        let mut lists = Lists {
            names,
            nodes,
            clauses,
            calls,
        };
        lists.cut(lengths);
        Clauses {
            alloc,
            lists,
            used,
            numbers,
            scratch,
            added,
        }
    }
}
