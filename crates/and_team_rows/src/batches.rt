//! Jobs that a batch does: how often each is done, in which order their texts stand, and whether two are at work at
//! once.

ghost use Rattle.std.specs.Prelude.{◌≡◌, ◌≤◌, ◌<◌, ◌%◌, ◌∷◌, [], ⊤};

use and_batch::{Done, Job, TextList, Ticket, run_all};
use and_model::Text;
use and_rows::{Numbers, Untold, line, read_numbers};
use std::alloc::{AllocError, Global};
use std::sync::Wait;
use std::sync::atomic::{AtomicU64, Ordering};
use std::thread;
use std::thread::Threads;

/// Jobs whose texts are their numbers. One of them finds no memory.
#[derive(Drop)]
struct Counter {
    alloc: Global,
    calls: AtomicU64,
    failing: u32,
}

impl Job for Counter {
    ghost due = { λ counter number text. text ≡ number % 256 ∷ [] };

    fn run(&self, ticket: Ticket) -> Result<Done, AllocError> {
        self.calls.fetch_add(1, Ordering::SeqCst);
        let number = ticket.number();
        if number == self.failing {
            return Err(AllocError);
        }
        let text = Text::of(self.alloc, &[(number % 256) as u8])?;
        Ok(ticket.done(text))
    }
}

/// The texts of a list are the numbers from 0 on.
fn are_numbers(texts: &TextList) -> bool {
    for place in 0..texts.len() {
        let wanted = [(place % 256) as u8];
        if texts.at(place).bytes() != wanted.as_slice() {
            return false;
        }
    }
    true
}

/// How many texts a batch of so many jobs for so many workers has, whether they are in order, and how often a job was
/// done; or that the one that finds no memory was met.
fn counted<R: Threads + Wait + Sync>(
    rt: &R,
    alloc: Global,
    numbers: Numbers,
) -> Result<String, Untold> {
    let Numbers {
        first: count,
        second: workers,
        third: failing,
        ..
    } = numbers;
    if count > 256 || workers == 0 || workers > 8 {
        return Err(Untold::Malformed);
    }
    let counter = Counter {
        alloc,
        calls: AtomicU64::new(0),
        failing,
    };
    match run_all(rt, alloc, &counter, count, workers) {
        Ok(texts) => {
            let calls = counter.calls.load(Ordering::SeqCst);
            line(alloc, &(texts.len(), are_numbers(&texts), calls))
        }
        Err(_) => Ok(String::from_str(alloc, "want of memory\n")?),
    }
}

/// What is told of batches, each of which is a line: how many jobs, how many workers, and the job that finds no memory.
pub(crate) fn tell<R: Threads + Wait + Sync>(
    rt: &R,
    alloc: Global,
    lines: &str,
) -> Result<String, Untold> {
    let mut out = String::new(alloc);
    for batch in lines.lines() {
        let told = counted(rt, alloc, read_numbers(batch)?)?;
        out.push_str(&told)?;
    }
    Ok(out)
}

/// How often the first job looks whether a second has begun.
const TURNS: u64 = 1 << 24;

/// Jobs of which the first to begin goes on when a second has begun, or after so many turns.
#[derive(Drop)]
struct Meeting {
    alloc: Global,
    begun: AtomicU64,
    met: AtomicU64,
}

impl Meeting {
    /// Looks again and again whether a second job has begun, and notes it if one has.
    fn wait(&self) {
        for _ in 0..TURNS {
            if self.begun.load(Ordering::SeqCst) > 1 {
                self.met.store(1, Ordering::SeqCst);
                return;
            }
            thread::yield_now();
        }
    }
}

impl Job for Meeting {
    ghost due = { λ meeting number text. ⊤ };

    fn run(&self, ticket: Ticket) -> Result<Done, AllocError> {
        if self.begun.fetch_add(1, Ordering::SeqCst) == 0 {
            self.wait();
        }
        Ok(ticket.done(Text::new(self.alloc)))
    }
}

/// How many texts two jobs have of which the first waits for the second, and how often it met it.
pub(crate) fn two_at_work<R: Threads + Wait + Sync>(
    rt: &R,
    alloc: Global,
) -> Result<String, Untold> {
    let meeting = Meeting {
        alloc,
        begun: AtomicU64::new(0),
        met: AtomicU64::new(0),
    };
    let texts = run_all(rt, alloc, &meeting, 2, 2)?;
    line(alloc, &(texts.len(), meeting.met.load(Ordering::SeqCst)))
}
