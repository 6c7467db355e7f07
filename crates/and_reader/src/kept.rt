//! What is kept of the beginning of a text.

ghost use Rattle.std.specs.Prelude.{◌≡◌, ◌≤◌, suc, length};
ghost use Rattle.std.proofs.Props.{props};
ghost use Rattle.and_model.specs.declared.limits.TheConstants.{MAX_BYTES};
ghost use Rattle.and_language.specs.Tokens.{newlines};

use and_clauses::{Asked, Asking, ClauseDraft, Clauses, Loaded};
use std::alloc::AllocError;

/// The clauses with which all texts begin that have the same first bytes.
pub struct Beginning {
    /// Those bytes.
    pub(crate) front: Vec<u8>,
    /// The place behind the last clause.
    pub(crate) end: usize,
    /// The line behind these bytes.
    pub(crate) line: u32,
    pub(crate) clauses: Clauses,
    ghost few: { length front.items ≤ MAX_BYTES } by { Prim.hlevel props },
    ghost lines: { line ≡ suc (newlines front.items) } by { Prim.hlevel props },
}

// By hand, here and below, so that it is proved once, and not in each crate that lets go of one.
impl Drop for Beginning {
    fn drop(self) {
        let Beginning {
            front: _,
            end: _,
            line: _,
            clauses: _,
        } = self;
    }
}

/// A text that is read: its program, and the beginning that it has.
pub struct Whole {
    pub(crate) front: Vec<u8>,
    pub(crate) end: usize,
    pub(crate) line: u32,
    pub(crate) asked: Asked,
    ghost few: { length front.items ≤ MAX_BYTES } by { Prim.hlevel props },
    ghost lines: { line ≡ suc (newlines front.items) } by { Prim.hlevel props },
}

impl Drop for Whole {
    fn drop(self) {
        let Whole {
            front: _,
            end: _,
            line: _,
            asked: _,
        } = self;
    }
}

/// What comes of going on with a text: it is read, or the beginning is as it was.
#[derive(Drop)]
pub enum GoneOn {
    Whole(Whole),
    Left(Beginning),
}

impl Beginning {
    ghost use Rattle.std.specs.Prelude.{IfOk, IsTrue};
    ghost use Rattle.and_drafts.specs.Drafts.{draft_of};
    ghost use Rattle.and_clauses.specs.Views.{is_query};
    ghost use Rattle.and_reader.specs.Beginning.{beginning_ground, had_of, IsPutOn, StaysOn};

    /// Puts a query to the clauses. An error is want of memory.
    pub(crate) fn put(self, query: &ClauseDraft) -> Result<GoneOn, AllocError>
        requires { IsTrue (is_query (draft_of query.now).finished) }
        ensures put { IfOk result (IsPutOn (had_of self) (draft_of query.now)) }
        ensures ground { IfOk result (StaysOn (beginning_ground self)) }
    {
        let Beginning {
            front,
            end,
            line,
            clauses,
        } = self;
        match clauses.ask(query)? {
            Asking::Put(asked) => Ok(GoneOn::Whole(Whole {
                front,
                end,
                line,
                asked,
            })),
            Asking::Left(clauses) => Ok(GoneOn::Left(Beginning {
                front,
                end,
                line,
                clauses,
            })),
        }
    }
}

impl Whole {
    ghost use Rattle.and_clauses.specs.Asking.{StandsOn};
    ghost use Rattle.and_reader.specs.Beginning.{beginning_ground, whole_ground, IsBeginning, IsBeginningOf};

    /// The program of the text.
    pub fn loaded(&self) -> &Loaded
        ensures program { result.now ≡ self.now.asked.loaded }
        ensures stands { StandsOn (whole_ground self.now) result.now }
    {
        self.asked.loaded()
    }

    /// The beginning again.
    pub fn into_beginning(self) -> Beginning
        ensures beginning { IsBeginningOf self → IsBeginning result }
        ensures ground { beginning_ground result ≡ whole_ground self }
    {
        let Whole {
            front,
            end,
            line,
            asked,
        } = self;
        Beginning {
            front,
            end,
            line,
            clauses: asked.into_clauses(),
        }
    }
}
