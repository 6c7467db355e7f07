//! A source and a sink in memory, which never fail.
ghost use Rattle.std.specs.Prelude.{◌≡◌, ◌<◌, ◌++◌, [], Ok, Some, None, length, take, IfOk};
ghost use Rattle.and_io.specs.Flow.{Takes};
ghost use Rattle.and_io.specs.Sure.{given_into};

use crate::outside::{Failed, Sink, Source};
use crate::tape::Tape;
use and_model::Text;
use std::alloc::{AllocError, Global};
use std::marker::Model;

/// A source that never fails.
#[derive(Drop)]
pub struct SureSource {
    text: Text,
    at: usize,
    piece: usize,
}

impl Model for SureSource {
    ghost use Rattle.std.specs.Prelude.{ℕ, ◌<◌, ◌≤◌, drop, length, take};
    ghost use Rattle.and_io.specs.Sure.{Supply};

    ghost Value = { Supply };

    ghost view = { λ s. record { taken = take s.at s.text; bytes = drop s.at s.text; piece = s.piece } };

    ghost invariant = { λ s. (s.at ≤ length s.text) × (0 < s.piece) };
}

impl SureSource {
    /// A source of these bytes, which gives at most `piece` of them at a time. Takes no memory.
    pub fn new(bytes: Text, piece: usize) -> SureSource
        requires { 0 < piece }
        ensures taken { result.taken ≡ [] }
        ensures bytes { result.bytes ≡ bytes }
        ensures piece { result.piece ≡ piece }
    {
        SureSource {
            text: bytes,
            at: 0,
            piece,
        }
    }
}

impl Source for SureSource {
    ghost taken = { λ s. s.taken };

    ghost ended = { λ s. s.bytes ≡ [] };

    ghost left = { λ s. Some s.bytes };

    ghost faults = { λ _. 0 };

    ghost last = { None };

    fn read(&mut self, into: &mut [u8]) -> Result<usize, Failed>
        ensures given { result ≡ Ok (given_into (length into.old) self.old) }
        ensures taken { IfOk result (λ n. self.new.taken ≡ self.old.taken ++ take n into.new) }
        ensures front { IfOk result (λ n.
            Takes (Some self.old.bytes) (Some self.new.bytes) (take n into.new)) }
        ensures end { IfOk result (λ n. n ≡ 0 → 0 < length into.old → self.old.bytes ≡ []) }
        ensures piece { self.new.piece ≡ self.old.piece }
    {
        let rest = &self.text.bytes()[self.at..];
        let n = rest.len().min(self.piece).min(into.len());
        into[..n].copy_from_slice(&rest[..n]);
        self.at += n;
        Ok(n)
    }
}

/// A sink that never fails. It keeps the first bytes that it is given, as many as it has room for.
#[derive(Drop)]
pub struct SureSink {
    kept: Vec<u8>,
    room: usize,
    given: Tape,
}

impl Model for SureSink {
    ghost use Rattle.std.specs.Prelude.{ℕ, ◌≡◌, ◌≤◌, take, vec_capacity};
    ghost use Rattle.and_io.specs.Sure.{Shelf};

    ghost Value = { Shelf };

    ghost view = { λ s. record { given = s.given.bytes; room = s.room } };

    ghost invariant = { λ s. (s.kept.items ≡ take s.room s.given.bytes) × (s.room ≤ vec_capacity s.kept) };
}

impl SureSink {
    /// A sink with room for so many bytes, which it takes at once. An error is want of memory.
    pub fn new(alloc: Global, room: usize) -> Result<SureSink, AllocError>
        ensures empty { IfOk result (λ s. s.given ≡ []) }
        ensures room { IfOk result (λ s. s.room ≡ room) }
    {
        Ok(SureSink {
            kept: Vec::with_capacity(alloc, room)?,
            room,
            given: Tape::new(),
        })
    }

    /// The first bytes that it was given, as many as it has room for. Takes no memory.
    pub fn held(&self) -> &[u8]
        ensures { result.now ≡ take self.now.room self.now.given }
    {
        &self.kept
    }
}

impl Sink for SureSink {
    ghost given = { λ s. s.given };

    ghost faults = { λ _. 0 };

    ghost last = { None };

    fn write(&mut self, from: &[u8]) -> Result<usize, Failed>
        ensures all { result ≡ Ok (length from.now) }
        ensures given { self.new.given ≡ self.old.given ++ from.now }
        ensures room { self.new.room ≡ self.old.room }
    {
        let n = from.len().min(self.room - self.kept.len());
        self.kept.extend_from_slice(&from[..n]).unwrap();
        self.given.note(from);
        Ok(from.len())
    }
}
