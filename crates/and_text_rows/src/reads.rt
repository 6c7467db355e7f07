//! Sources that are read: what their calls answer.

ghost use Rattle.std.specs.Prelude.{◌≢◌, All, OnOk};
ghost use Rattle.and_io.specs.Memory.{most};

use crate::parts::text;
use and_io::{MemorySource, ReadAll, ReadStop, Source, StdSource, SureSource, read_all};
use and_model::{CallList, Text};
use and_rows::{Desk, Numbers, Untold, answers, line, read_numbers};
use std::alloc::Global;
use std::io;
use std::io::Read;

/// Gives `ab`, then fails once, and then gives `c`.
#[derive(Drop)]
struct Torn {
    calls: usize,
}

impl Read for Torn {
    fn read(&mut self, into: &mut [u8]) -> io::Result<usize> {
        self.calls = self.calls.saturating_add(1);
        let bytes: &[u8] = match self.calls {
            1 => b"ab",
            2 => return Err(io::Error::from(io::ErrorKind::BrokenPipe)),
            3 => b"c",
            _ => b"",
        };
        let n = bytes.len().min(into.len());
        into[..n].copy_from_slice(&bytes[..n]);
        Ok(n)
    }
}

/// How many bytes there are, and what stands there behind any number of `x`.
fn shown(alloc: Global, how: &str, bytes: &[u8]) -> Result<String, Untold> {
    let text = String::from_utf8_lossy(alloc, bytes)?;
    line(
        alloc,
        &(how, bytes.len(), text.as_str().trim_start_matches('x')),
    )
}

/// What one read of so many bytes at most answers.
fn read<S: Source>(alloc: Global, source: &mut S, most: u32) -> Result<String, Untold> {
    let mut into = [0u8; 64];
    let most = most.min(64) as usize;
    match source.read(&mut into[..most]) {
        Ok(n) => shown(alloc, "read", &into[..n]),
        Err(_) => line(alloc, &"failed"),
    }
}

/// What reading to the end answers, up to a limit.
fn read_to_limit<S: Source>(alloc: Global, source: &mut S, limit: u32) -> Result<String, Untold> {
    match read_all(alloc, source, limit.min(1_000_000) as usize) {
        Ok(ReadAll::Whole(text)) => shown(alloc, "whole", text.bytes()),
        Ok(ReadAll::Over(text)) => shown(alloc, "over", text.bytes()),
        Err(ReadStop::Failed) => line(alloc, &"failed"),
        Err(ReadStop::Memory) => Err(Untold::Memory),
    }
}

/// A source that is read.
#[derive(Drop)]
struct Reading<S: Source> {
    source: S,
}

impl<S: Source> Desk for Reading<S> {
    fn call(&mut self, alloc: Global, name: &str, words: &str) -> Result<String, Untold> {
        let n = read_numbers(words)?;
        match name {
            "read" => read(alloc, &mut self.source, n.first),
            "all" => read_to_limit(alloc, &mut self.source, n.first),
            _ => Err(Untold::Malformed),
        }
    }
}

/// Puts the number of a call behind others.
fn push_call(calls: &mut CallList, number: u32) -> Result<(), Untold>
    requires { All (λ call. call ≢ most) calls.old }
    ensures { OnOk result (All (λ call. call ≢ most) calls.new) }
{
    match calls.push(u64::from(number)) {
        Ok(()) => Ok(()),
        Err(_) => Err(Untold::Memory),
    }
}

/// A source in memory that gives so many bytes a call, and fails in the calls of two numbers.
fn memory_source(alloc: Global, bytes: &str, n: Numbers) -> Result<MemorySource, Untold> {
    let mut calls = CallList::new(alloc);
    push_call(&mut calls, n.second)?;
    push_call(&mut calls, n.third)?;
    if n.first == 0 {
        return Err(Untold::Malformed);
    }
    let text = Text::of(alloc, bytes.as_bytes())?;
    Ok(MemorySource::new(text, n.first as usize, calls))
}

/// What calls of a source in memory answer, and how many it took.
fn of_memory(alloc: Global, bytes: &str, n: Numbers, lines: &str) -> Result<String, Untold> {
    let source = memory_source(alloc, bytes, n)?;
    let mut reading = Reading { source };
    let told = answers(alloc, &mut reading, lines)?;
    Ok(format!(in alloc; "{told}{} calls\n", reading.source.calls())?)
}

/// What calls of a source that never fails answer.
fn of_sure(alloc: Global, bytes: &str, piece: u32, lines: &str) -> Result<String, Untold> {
    if piece == 0 {
        return Err(Untold::Malformed);
    }
    let source = SureSource::new(Text::of(alloc, bytes.as_bytes())?, piece as usize);
    answers(alloc, &mut Reading { source }, lines)
}

/// What calls of a source over a reader answer.
fn of_reader<I: Read + Drop>(alloc: Global, reader: I, lines: &str) -> Result<String, Untold> {
    let source = StdSource::new(reader);
    answers(alloc, &mut Reading { source }, lines)
}

/// What calls of a source of these bytes answer: `memory PIECE FAILS FAILS`, `sure PIECE`, `std` or `torn`.
fn of_source(alloc: Global, words: &str, bytes: &str, lines: &str) -> Result<String, Untold> {
    let (name, rest) = words.split_once(' ').unwrap_or((words, ""));
    let n = read_numbers(rest)?;
    match name {
        "memory" => of_memory(alloc, bytes, n, lines),
        "sure" => of_sure(alloc, bytes, n.first, lines),
        "std" => of_reader(alloc, bytes.as_bytes(), lines),
        "torn" => of_reader(alloc, Torn { calls: 0 }, lines),
        _ => Err(Untold::Malformed),
    }
}

/// What the calls answer whose lines stand behind that of a source and that of its bytes.
pub(crate) fn tell(alloc: Global, lines: &str) -> Result<String, Untold> {
    let (words, rest) = lines.split_once('\n').unwrap_or((lines, ""));
    let (bytes, calls) = rest.split_once('\n').unwrap_or((rest, ""));
    let bytes = text(alloc, bytes)?;
    of_source(alloc, words, &bytes, calls)
}
