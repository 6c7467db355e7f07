//! Sinks that are written to: what their calls answer, and what they hold.

use and_io::{MemorySink, Sink, StdSink, SureSink, write_all_counted};
use and_rows::{Desk, Numbers, Untold, answers, line, read_numbers};
use std::alloc::Global;
use std::io;
use std::io::Write;

/// Takes so many bytes a call, and fails in one call.
#[derive(Drop)]
struct Clogged {
    piece: usize,
    fails: u32,
    calls: u32,
    taken: Vec<u8>,
}

impl Write for Clogged {
    fn write(&mut self, from: &[u8]) -> io::Result<usize> {
        self.calls = self.calls.saturating_add(1);
        if self.calls == self.fails {
            return Err(io::Error::from(io::ErrorKind::BrokenPipe));
        }
        let n = from.len().min(self.piece);
        self.taken.extend_from_slice(&from[..n])?;
        Ok(n)
    }

    fn flush(&mut self) -> io::Result<()> {
        Ok(())
    }
}

/// A sink that is written to.
#[derive(Drop)]
struct Writing<K: Sink> {
    sink: K,
}

impl<K: Sink> Desk for Writing<K> {
    fn call(&mut self, alloc: Global, name: &str, words: &str) -> Result<String, Untold> {
        match name {
            "write" => line(alloc, &self.sink.write(words.as_bytes())),
            "all" => line(alloc, &write_all_counted(&mut self.sink, words.as_bytes())),
            _ => Err(Untold::Malformed),
        }
    }
}

/// What was told, what is held then, and how many calls were taken.
fn with_held(alloc: Global, told: &str, held: &[u8], calls: u64) -> Result<String, Untold> {
    let held = String::from_utf8_lossy(alloc, held)?;
    Ok(format!(in alloc; "{told}holds {held}, {calls} calls\n")?)
}

/// What calls of a sink in memory answer.
fn of_memory(alloc: Global, room: u32, lines: &str) -> Result<String, Untold> {
    let sink = MemorySink::new(alloc, room.min(1000) as usize)?;
    let mut writing = Writing { sink };
    let told = answers(alloc, &mut writing, lines)?;
    with_held(alloc, &told, writing.sink.held(), writing.sink.calls())
}

/// What calls of a sink that never fails answer.
fn of_sure(alloc: Global, room: u32, lines: &str) -> Result<String, Untold> {
    let sink = SureSink::new(alloc, room.min(1000) as usize)?;
    let mut writing = Writing { sink };
    let told = answers(alloc, &mut writing, lines)?;
    with_held(alloc, &told, writing.sink.held(), 0)
}

/// What calls of a sink over a writer answer.
fn of_writer(alloc: Global, n: Numbers, lines: &str) -> Result<String, Untold> {
    let mut writer = Clogged {
        piece: n.first as usize,
        fails: n.second,
        calls: 0,
        taken: Vec::new(alloc),
    };
    let sink = StdSink::new(&mut writer);
    let told = answers(alloc, &mut Writing { sink }, lines)?;
    with_held(alloc, &told, &writer.taken, u64::from(writer.calls))
}

/// What the calls answer whose lines stand behind that of a sink: `memory ROOM`, `sure ROOM`, or `writer PIECE FAILS`.
pub(crate) fn tell(alloc: Global, lines: &str) -> Result<String, Untold> {
    let (words, calls) = lines.split_once('\n').unwrap_or((lines, ""));
    let (name, rest) = words.split_once(' ').unwrap_or((words, ""));
    let n = read_numbers(rest)?;
    match name {
        "memory" => of_memory(alloc, n.first, calls),
        "sure" => of_sure(alloc, n.first, calls),
        "writer" => of_writer(alloc, n, calls),
        _ => Err(Untold::Malformed),
    }
}
