//! Codes, each kept as what it has behind the one before it.

ghost use Rattle.std.specs.Prelude.{◌≡◌, [], ◌∷◌, ◌++◌, OnOk, OnErr, IfOk};
ghost use Rattle.and_answers.specs.Pieces.{HasFrom, IsInPlace, AreInPlace, code_behind, codes_from, last_or};
ghost use Rattle.and_answers.specs.Tails.{BeginAlike};

use crate::comparing::{all_in_common, behind, is_no_sooner, push_behind};
use crate::piece::Piece;
use and_model::Code;
use std::alloc::{AllocError, Global};
use std::marker::Model;

/// Codes in the order in which they came. Each is kept as what it has behind the one before it, which is little
/// where they come in their own order. It keeps the allocator that it was made with.
pub struct CodeList {
    pieces: Vec<Piece>,
    /// The last code, and the empty one where there is none; `None` after want of memory.
    last: Option<Code>,
}

// By hand, so that it is proved once, here.
impl Drop for CodeList {
    fn drop(self) {
        let CodeList { pieces: _, last: _ } = self;
    }
}

impl Model for CodeList {
    ghost use Rattle.std.specs.Prelude.{ℕ, List, []};
    ghost use Rattle.and_answers.specs.Pieces.{codes_from, AreInPlace, IsLastOf};

    ghost Value = { List (List ℕ) };

    ghost view = { λ list. codes_from [] list.pieces.items };

    ghost invariant = { λ list. IsLastOf list.pieces.items list.last × AreInPlace [] list.pieces.items };
}

impl CodeList {
    /// No codes. Takes no memory.
    pub fn new(alloc: Global) -> CodeList
        ensures { result ≡ [] }
    {
        CodeList {
            pieces: Vec::new(alloc),
            last: Some(Code::new(alloc)),
        }
    }

    /// Puts a code behind the others, of which it has so many clauses from the last one. An error is want of memory;
    /// no code can be put there then.
    pub fn push(&mut self, common: usize, code: &Code) -> Result<(), AllocError>
        requires { BeginAlike (last_or [] self.old) code.now common }
        ensures ok { OnOk result (self.new ≡ self.old ++ code.now ∷ []) }
        ensures unchanged { OnErr result (self.new ≡ self.old) }
    {
        let Some(last) = self.last.take() else {
            return Err(AllocError);
        };
        let common = had_from(&last, common, code);
        let piece = piece_behind(*self.pieces.allocator(), &last, common, code)?;
        let told = told_on(last, common, code)?;
        self.pieces.push(piece)?;
        self.last = Some(told);
        Ok(())
    }

    /// Those of both, the others behind. An error is want of memory.
    pub fn joined(self, other: CodeList) -> Result<CodeList, AllocError>
        ensures { IfOk result (λ both. both ≡ self ++ other) }
    {
        let CodeList { mut pieces, last } = self;
        let CodeList {
            pieces: mut others,
            last: other_last,
        } = other;
        if others.len() == 0 {
            return Ok(CodeList { pieces, last });
        }
        pieces.append(&mut others)?;
        Ok(CodeList {
            pieces,
            last: other_last,
        })
    }

    /// The pieces. Takes no memory.
    pub(crate) fn into_pieces(self) -> Vec<Piece>
        ensures codes { codes_from [] result.items ≡ self }
        ensures place { AreInPlace [] result.items }
    {
        let CodeList { pieces, last: _ } = self;
        pieces
    }
}

/// How many clauses a code is to have from another one: as many as they have in common, which are so many at least; and
/// none where it comes sooner. Takes no memory.
fn had_from(last: &Code, common: usize, code: &Code) -> usize
    requires { BeginAlike last.now code.now common }
    ensures { HasFrom last.now code.now result }
{
    let common = all_in_common(last, code, common);
    if is_no_sooner(last, common, code, common) {
        return common;
    }
    0
}

/// What a code has behind another one, from which it has so many clauses. An error is want of memory.
fn piece_behind(alloc: Global, last: &Code, common: usize, code: &Code) -> Result<Piece, AllocError>
    requires { HasFrom last.now code.now common }
    ensures code { IfOk result (λ piece. code_behind last.now piece ≡ code.now) }
    ensures place { IfOk result (λ piece. IsInPlace last.now piece) }
{
    let rest = behind(alloc, code, common)?;
    Ok(Piece { common, rest })
}

/// A code, made of another one, from which it has so many clauses. An error is want of memory.
fn told_on(last: Code, common: usize, code: &Code) -> Result<Code, AllocError>
    requires { HasFrom last code.now common }
    ensures { IfOk result (λ told. told ≡ code.now) }
{
    let mut told = last;
    told.truncate(common);
    push_behind(&mut told, code, common)?;
    Ok(told)
}
