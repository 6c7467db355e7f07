//! Sources and sinks over std's readers and writers.
ghost use Rattle.std.specs.Prelude.{◌≡◌, ◌+◌, ◌-◌, ◌<◌, ◌≤◌, ◌^◌, ◌++◌, ◌↔◌, [], Some, None, IsTrue, false, length};
ghost use Rattle.std.specs.Prelude.{min, take, IfOk, OnOk, OnErr};
ghost use Rattle.std.specs.Io.KnownBytes.{ReadConsumes, WriteAppends};

use crate::outside::{Failed, Sink, Source};
use crate::tape::Tape;
use std::io::{Read, Write};
use std::marker::Model;

/// A source over std's reader. Each call makes one call of the reader, and counts each error of it.
#[derive(Drop)]
pub struct StdSource<I: Read> {
    input: I,
    taken: Tape,
    /// Whether the last read that did not fail found the end.
    ended: bool,
    faults: u64,
}

impl<I: Read> Model for StdSource<I> {
    ghost use Rattle.and_io.specs.Std.{Inlet};

    ghost Value = { Inlet I };

    ghost view = { λ s. record { input = s.input; taken = s.taken.bytes; ended = s.ended; faults = s.faults } };
}

impl<I: Read> StdSource<I> {
    /// A source over this reader. Takes no memory.
    pub fn new(input: I) -> StdSource<I>
        ensures input { result.input ≡ input }
        ensures taken { result.taken ≡ [] }
        ensures ended { result.ended ≡ false }
        ensures faults { result.faults ≡ 0 }
    {
        StdSource {
            input,
            taken: Tape::new(),
            ended: false,
            faults: 0,
        }
    }
}

impl<I: Read> Source for StdSource<I> {
    ghost taken = { λ s. s.taken };

    ghost ended = { λ s. IsTrue s.ended };

    ghost left = { λ _. None };

    ghost faults = { λ s. s.faults };

    ghost last = { Some (2 ^ 64 - 1) };

    fn read(&mut self, into: &mut [u8]) -> Result<usize, Failed>
        // The bytes that it gives are those that the reader gave.
        ensures within { IfOk result (λ n. n ≤ length into.old) }
        ensures gives { IfOk result (λ n. self.new.taken ≡ self.old.taken ++ take n into.new) }
        ensures reads { ReadConsumes (I.remaining self.old.input) (I.remaining self.new.input) result into.new }
        ensures ends { IfOk result (λ n. IsTrue self.new.ended ↔ ((n ≡ 0) × (0 < length into.old))) }
        ensures gives_none { OnErr result (self.new.taken ≡ self.old.taken) }

        // The faults.
        ensures count { self.old.faults ≤ self.new.faults }
        ensures blameless { OnOk result (self.new.faults ≡ self.old.faults) }
        ensures counted { OnErr result (self.new.faults ≡ min (self.old.faults + 1) (2 ^ 64 - 1)) }
    {
        match self.input.read(into) {
            Ok(n) => {
                self.taken.note(&into[..n]);
                self.ended = n == 0 && !into.is_empty();
                Ok(n)
            }
            Err(_) => {
                self.faults = self.faults.saturating_add(1);
                Err(Failed)
            }
        }
    }
}

/// A sink over std's writer. Each call makes one call of the writer, and counts each error of it. A
/// writer that takes nothing of a piece that is not empty counts as failed.
#[derive(Drop)]
pub struct StdSink<O: Write> {
    output: O,
    given: Tape,
    faults: u64,
}

impl<O: Write> Model for StdSink<O> {
    ghost use Rattle.and_io.specs.Std.{Outlet};

    ghost Value = { Outlet O };

    ghost view = { λ s. record { output = s.output; given = s.given.bytes; faults = s.faults } };
}

impl<O: Write> StdSink<O> {
    /// A sink over this writer. Takes no memory.
    pub fn new(output: O) -> StdSink<O>
        ensures output { result.output ≡ output }
        ensures given { result.given ≡ [] }
        ensures faults { result.faults ≡ 0 }
    {
        StdSink {
            output,
            given: Tape::new(),
            faults: 0,
        }
    }
}

impl<O: Write> Sink for StdSink<O> {
    ghost given = { λ s. s.given };

    ghost faults = { λ s. s.faults };

    ghost last = { Some (2 ^ 64 - 1) };

    fn write(&mut self, from: &[u8]) -> Result<usize, Failed>
        // The bytes that it is given are those that the writer was given.
        ensures within { IfOk result (λ n. n ≤ length from.now) }
        ensures some { IfOk result (λ n. 0 < length from.now → 0 < n) }
        ensures gains { IfOk result (λ n. self.new.given ≡ self.old.given ++ take n from.now) }
        ensures writes { WriteAppends (O.contents self.old.output) (O.contents self.new.output) result from.now }
        ensures kept { OnErr result (self.new.given ≡ self.old.given) }

        // The faults.
        ensures count { self.old.faults ≤ self.new.faults }
        ensures blameless { OnOk result (self.new.faults ≡ self.old.faults) }
        ensures counted { OnErr result (self.new.faults ≡ min (self.old.faults + 1) (2 ^ 64 - 1)) }
    {
        if let Ok(n) = self.output.write(from) {
            if 0 < n || from.is_empty() {
                self.given.note(&from[..n]);
                return Ok(n);
            }
        }
        self.faults = self.faults.saturating_add(1);
        Err(Failed)
    }
}
