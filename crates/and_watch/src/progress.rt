//! A line on standard error that tells how far a long run has come.

use crate::advice::Advice;
use and_gate::Gate;
use and_reader::ReadRefusal;
use and_status::Status;
use and_watcher::Watcher;
use std::fmt::{Display, Formatter};
use std::io::Write;
use std::sync::atomic::{AtomicBool, AtomicU64, Ordering};
use std::time::{Clock, Duration, Instant};
use std::{env, fmt, io};

/// So many reductions lie between two looks at the clock.
const PACE: u64 = 1024;

/// The second in which a run is told of for the first time.
const FIRST: u64 = 2;

/// What is told of a run.
#[derive(Clone, Copy)]
pub struct Told {
    /// How long it has taken so far.
    pub time: Duration,
    /// How many goals were reduced.
    pub reductions: u64,
    /// How many branches teams handed on.
    pub published: u64,
    /// How many answers were found, floundered ones among them.
    pub answers: u64,
}

impl Told {
    /// How many goals were reduced in a second.
    fn rate(&self) -> u64 {
        let time = self.time.as_millis().max(1);
        let rate = u128::from(self.reductions).saturating_mul(1000) / time;
        u64::try_from(rate).unwrap_or(u64::MAX)
    }
}

impl Display for Told {
    // Each number has room of its own, so that a line covers the one before it.
    fn fmt<W: fmt::Write>(&self, f: &mut Formatter<W>) -> fmt::Result {
        let seconds = self.time.as_secs();
        let reductions = self.reductions;
        let rate = self.rate();
        let published = self.published;
        let answers = self.answers;
        write!(
            f,
            "{seconds:>5} s {reductions:>12} reductions {rate:>8}/s {answers:>9} answers {published:>7} shared"
        )
    }
}

/// A gate that counts what it is told, and writes it on standard error, at most once a second and each
/// line over the one before it.
pub struct Progress<R> {
    rt: R,
    start: Instant,
    reductions: AtomicU64,
    published: AtomicU64,
    answers: AtomicU64,
    /// The second from which on a line is due.
    due: AtomicU64,
    /// Whether a line stands on the screen.
    is_shown: AtomicBool,
}

// By hand, so that it is proved once, here.
impl<R: Drop> Drop for Progress<R> {
    fn drop(self) {
        let Progress {
            rt: _,
            start: _,
            reductions: _,
            published: _,
            answers: _,
            due: _,
            is_shown: _,
        } = self;
    }
}

impl<R: Clock + Eprint + Drop> Progress<R> {
    /// Nothing was counted so far. An error is one of the clock.
    pub fn new(rt: R) -> io::Result<Progress<R>> {
        let start = Instant::now(&rt)?;
        Ok(Progress {
            rt,
            start,
            reductions: AtomicU64::new(0),
            published: AtomicU64::new(0),
            answers: AtomicU64::new(0),
            due: AtomicU64::new(FIRST),
            is_shown: AtomicBool::new(false),
        })
    }

    /// Writes a line, where one is due. One team alone writes that of a second.
    fn tell_when_due(&self) {
        let Ok(time) = self.start.elapsed(&self.rt) else {
            return;
        };
        let due = self.due.load(Ordering::SeqCst);
        let next = time.as_secs().saturating_add(1);
        if next <= due {
            return;
        }
        let won = self
            .due
            .compare_exchange(due, next, Ordering::SeqCst, Ordering::SeqCst);
        if won.is_ok() {
            self.is_shown.store(true, Ordering::SeqCst);
            let told = self.told(time);
            let _ = eprint!(self.rt; "\r{told}");
        }
    }

    /// What is told after this time.
    fn told(&self, time: Duration) -> Told {
        Told {
            time,
            reductions: self.reductions.load(Ordering::SeqCst),
            published: self.published.load(Ordering::SeqCst),
            answers: self.answers.load(Ordering::SeqCst),
        }
    }

    /// Takes the line away, where one stands on the screen.
    pub fn clear(&self) {
        if self.is_shown.swap(false, Ordering::SeqCst) {
            let _ = eprint!(self.rt; "\r{:78}\r", "");
        }
    }
}

impl<R: Clock + Eprint + Sync + Drop> Gate for Progress<R> {
    fn reduce(&self, _worker: u32) {
        let before = self.reductions.fetch_add(1, Ordering::SeqCst);
        if before % PACE == 0 {
            self.tell_when_due();
        }
    }

    fn claim(&self, _team: u32) {}

    fn publish(&self, _team: u32) {
        self.published.fetch_add(1, Ordering::SeqCst);
    }

    fn found(&self, _team: u32) {
        self.answers.fetch_add(1, Ordering::SeqCst);
    }
}

/// A gate that tells how far a run has come, if this was asked for, and gives hints. It is one gate in all cases, so
/// that the search stands in the program once, and is compiled as one.
pub struct Watch<R> {
    progress: Option<Progress<R>>,
    advice: Advice<R>,
}

// By hand, so that it is proved once, here.
impl<R: Drop> Drop for Watch<R> {
    fn drop(self) {
        let Watch {
            progress: _,
            advice: _,
        } = self;
    }
}

/// What tells how far a run has come, where the environment asks for it by `ANDORRA_PROGRESS=1` and there is a
/// clock.
fn progress_asked_for(rt: &HostRuntime) -> Option<Progress<&HostRuntime>> {
    match env::var(rt, "ANDORRA_PROGRESS") {
        Ok(value) if value.as_str() == "1" => Progress::new(rt).ok(),
        _ => None,
    }
}

impl<'a> Watch<&'a HostRuntime> {
    /// Tells where the environment asks for it.
    pub fn asked_for(rt: &'a HostRuntime) -> Watch<&'a HostRuntime> {
        Watch {
            progress: progress_asked_for(rt),
            advice: Advice::asked_for(rt),
        }
    }
}

impl<R: Clock + Eprint + Drop> Watch<R> {
    /// Takes the line away, where one stands on the screen.
    pub fn clear(&self) {
        if let Some(progress) = &self.progress {
            progress.clear();
        }
    }

    /// Tells of how a run with these words ended.
    pub fn ended(&self, words: &[String], status: Status) {
        self.clear();
        self.advice.ended(words, status);
    }
}

impl<R: Clock + Eprint + Sync + Drop> Gate for Watch<R> {
    fn reduce(&self, worker: u32) {
        if let Some(progress) = &self.progress {
            progress.reduce(worker);
        }
    }

    fn claim(&self, team: u32) {
        if let Some(progress) = &self.progress {
            progress.claim(team);
        }
    }

    fn publish(&self, team: u32) {
        if let Some(progress) = &self.progress {
            progress.publish(team);
        }
    }

    fn found(&self, team: u32) {
        if let Some(progress) = &self.progress {
            progress.found(team);
        }
    }
}

impl<R: Eprint + Drop> Watcher for Watch<R> {
    fn refused(&self, text: &[u8], refusal: &ReadRefusal) {
        self.advice.refused(text, refusal);
    }
}

/// A writer that takes the line away before it writes.
#[derive(Drop)]
pub struct AfterLine<'a, R, O: Write> {
    watch: &'a Watch<R>,
    output: O,
}

impl<'a, R: Clock + Eprint + Drop, O: Write> AfterLine<'a, R, O> {
    /// Over this writer.
    pub fn new(watch: &'a Watch<R>, output: O) -> AfterLine<'a, R, O> {
        AfterLine { watch, output }
    }
}

impl<R: Clock + Eprint + Drop, O: Write> Write for AfterLine<'_, R, O> {
    fn write(&mut self, from: &[u8]) -> io::Result<usize> {
        self.watch.clear();
        self.output.write(from)
    }

    fn flush(&mut self) -> io::Result<()> {
        self.output.flush()
    }
}
