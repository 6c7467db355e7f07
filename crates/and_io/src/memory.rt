//! A source and a sink in memory: the source fails in the calls that it is told, the sink once it is
//! full. Both count their calls.
ghost use Rattle.std.specs.Prelude.{◌≡◌, ◌≢◌, ◌+◌, ◌<◌, ◌≤◌, ◌++◌, ◌↔◌, [], Ok, Some, None, length, take, min, All};
ghost use Rattle.std.specs.Prelude.{Contains, IsTrue};
ghost use Rattle.std.specs.Prelude.{IfOk, IsErr, OnOk, OnErr};
ghost use Rattle.and_io.specs.Flow.{Takes};
ghost use Rattle.and_io.specs.Memory.{given_to, space_in, most, one_more};

use crate::outside::{Failed, Sink, Source};
use and_model::{CallList, Text};
use std::alloc::{AllocError, Global};
use std::marker::Model;

/// A source that fails in the calls whose numbers it is told, and counts its calls and these faults.
/// The first call is number 1, and the number stays at the largest u64.
#[derive(Drop)]
pub struct MemorySource {
    text: Text,
    at: usize,
    piece: usize,
    fails: CallList,
    calls: u64,
    faults: u64,
}

impl Model for MemorySource {
    ghost use Rattle.std.specs.Prelude.{ℕ, ◌<◌, ◌≤◌, ◌≢◌, drop, length, take, All};
    ghost use Rattle.and_io.specs.Memory.{Feed, most};

    ghost Value = { Feed };

    ghost view = { λ s. record {
      taken = take s.at s.text;
      bytes = drop s.at s.text;
      piece = s.piece;
      fails = s.fails;
      calls = s.calls;
      faults = s.faults;
    } };

    ghost invariant = { λ s. (s.at ≤ length s.text) × (0 < s.piece) × (s.faults ≤ s.calls)
        × All (λ call. call ≢ most) s.fails };
}

/// Whether the list has that number.
fn is_listed(calls: &CallList, number: u64) -> bool
    ensures { IsTrue result ↔ Contains calls.now number }
{
    'searching: for place in 0..calls.len() {
        if *calls.at(place) == number {
            return true;
        }
    }
    false
}

impl MemorySource {
    /// A source of these bytes, which gives at most `piece` of them at a time. Takes no memory.
    pub fn new(bytes: Text, piece: usize, fails: CallList) -> MemorySource
        requires some { 0 < piece }
        requires last_is_free { All (λ call. call ≢ most) fails }
        ensures taken { result.taken ≡ [] }
        ensures bytes { result.bytes ≡ bytes }
        ensures piece { result.piece ≡ piece }
        ensures fails { result.fails ≡ fails }
        ensures calls { result.calls ≡ 0 }
        ensures faults { result.faults ≡ 0 }
    {
        MemorySource {
            text: bytes,
            at: 0,
            piece,
            fails,
            calls: 0,
            faults: 0,
        }
    }

    /// The number of calls so far, which stays at the largest u64. Takes no memory.
    pub fn calls(&self) -> u64
        ensures { result ≡ self.now.calls }
    {
        self.calls
    }

    /// Moves some of the bytes that are left to the front of `into`, and gives their number.
    fn give(&mut self, into: &mut [u8]) -> usize
        ensures given { result ≡ given_to (length into.old) self.old }
        ensures taken { self.new.taken ≡ self.old.taken ++ take result into.new }
        ensures front { Takes (Some self.old.bytes) (Some self.new.bytes) (take result into.new) }
        ensures end { result ≡ 0 → 0 < length into.old → self.old.bytes ≡ [] }
        ensures piece { self.new.piece ≡ self.old.piece }
        ensures fails { self.new.fails ≡ self.old.fails }
        ensures calls { self.new.calls ≡ self.old.calls }
        ensures faults { self.new.faults ≡ self.old.faults }
    {
        let rest = &self.text.bytes()[self.at..];
        let n = rest.len().min(self.piece).min(into.len());
        into[..n].copy_from_slice(&rest[..n]);
        self.at += n;
        n
    }
}

impl Source for MemorySource {
    ghost taken = { λ s. s.taken };

    ghost ended = { λ s. s.bytes ≡ [] };

    ghost left = { λ s. Some s.bytes };

    ghost faults = { λ s. s.faults };

    ghost last = { None };

    fn read(&mut self, into: &mut [u8]) -> Result<usize, Failed>
        // Which calls fail.
        ensures calls { self.new.calls ≡ one_more self.old.calls }
        ensures fails { IsErr result ↔ Contains self.old.fails self.new.calls }
        ensures same_fails { self.new.fails ≡ self.old.fails }

        // The bytes.
        ensures given { OnOk result (result ≡ Ok (given_to (length into.old) self.old)) }
        ensures taken { IfOk result (λ n. self.new.taken ≡ self.old.taken ++ take n into.new) }
        ensures none_taken { OnErr result (self.new.taken ≡ self.old.taken) }
        ensures front { IfOk result (λ n. Takes (Some self.old.bytes) (Some self.new.bytes) (take n into.new)) }
        ensures end { IfOk result (λ n. n ≡ 0 → 0 < length into.old → self.old.bytes ≡ []) }
        ensures kept { OnErr result (self.new.bytes ≡ self.old.bytes) }
        ensures piece { self.new.piece ≡ self.old.piece }

        // The faults.
        ensures blameless { OnOk result (self.new.faults ≡ self.old.faults) }
        ensures counted { OnErr result (self.new.faults ≡ self.old.faults + 1) }
    {
        self.calls = self.calls.saturating_add(1);
        if is_listed(&self.fails, self.calls) {
            self.faults += 1;
            return Err(Failed);
        }
        Ok(self.give(into))
    }
}

/// A sink with room for so many bytes. Once it is full it takes no more and fails, and it counts its
/// calls and these faults. Both counts stay at the largest u64.
#[derive(Drop)]
pub struct MemorySink {
    kept: Vec<u8>,
    room: usize,
    calls: u64,
    faults: u64,
}

impl Model for MemorySink {
    ghost use Rattle.std.specs.Prelude.{ℕ, ◌≤◌, vec_len, vec_capacity};
    ghost use Rattle.and_io.specs.Memory.{Tub};

    ghost Value = { Tub };

    ghost view = { λ s. record { bytes = s.kept.items; room = s.room; calls = s.calls; faults = s.faults } };

    ghost invariant = { λ s. (vec_len s.kept ≤ s.room) × (s.room ≤ vec_capacity s.kept) };
}

impl MemorySink {
    /// A sink with room for so many bytes, which it takes at once. An error is want of memory.
    pub fn new(alloc: Global, room: usize) -> Result<MemorySink, AllocError>
        ensures empty { IfOk result (λ s. s.bytes ≡ []) }
        ensures room { IfOk result (λ s. s.room ≡ room) }
        ensures calls { IfOk result (λ s. s.calls ≡ 0) }
        ensures faults { IfOk result (λ s. s.faults ≡ 0) }
    {
        Ok(MemorySink {
            kept: Vec::with_capacity(alloc, room)?,
            room,
            calls: 0,
            faults: 0,
        })
    }

    /// The bytes that it holds. Takes no memory.
    pub fn held(&self) -> &[u8]
        ensures { result.now ≡ self.now.bytes }
    {
        &self.kept
    }

    /// The number of calls so far, which stays at the largest u64. Takes no memory.
    pub fn calls(&self) -> u64
        ensures { result ≡ self.now.calls }
    {
        self.calls
    }
}

impl Sink for MemorySink {
    ghost given = { λ s. s.bytes };

    ghost faults = { λ s. s.faults };

    ghost last = { Some most };

    fn write(&mut self, from: &[u8]) -> Result<usize, Failed>
        // Which calls fail.
        ensures calls { self.new.calls ≡ one_more self.old.calls }
        ensures full { IsErr result ↔ ((space_in self.old ≡ 0) × (0 < length from.now)) }

        // The bytes.
        ensures taken { OnOk result (result ≡ Ok (min (length from.now) (space_in self.old))) }
        ensures gains { IfOk result (λ n. self.new.bytes ≡ self.old.bytes ++ take n from.now) }
        ensures kept { OnErr result (self.new.bytes ≡ self.old.bytes) }
        ensures room { self.new.room ≡ self.old.room }

        // The faults.
        ensures count { self.old.faults ≤ self.new.faults }
        ensures blameless { OnOk result (self.new.faults ≡ self.old.faults) }
        ensures counted { OnErr result (self.new.faults ≡ one_more self.old.faults) }
    {
        self.calls = self.calls.saturating_add(1);
        let n = from.len().min(self.room - self.kept.len());
        if n == 0 && !from.is_empty() {
            self.faults = self.faults.saturating_add(1);
            return Err(Failed);
        }
        self.kept.extend_from_slice(&from[..n]).unwrap();
        Ok(n)
    }
}
