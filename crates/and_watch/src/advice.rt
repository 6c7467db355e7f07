//! Who sits at a terminal is told more than standard output says.

use crate::hints::{about_end, about_refusal};
use and_reader::ReadRefusal;
use and_status::Status;
use and_watcher::Watcher;
use std::alloc::{AllocError, Global};
use std::env;
use std::io::IsTerminal;

/// Hints on standard error, where they are wanted.
#[derive(Drop)]
pub struct Advice<R> {
    rt: R,
    alloc: Global,
    is_wanted: bool,
}

/// Whether standard error is a terminal, or the environment asks for hints by `ANDORRA_HINTS=1`.
fn are_asked_for(rt: &HostRuntime) -> bool {
    match env::var(rt, "ANDORRA_HINTS") {
        Ok(value) => value.as_str() == "1",
        Err(_) => rt.stderr().is_terminal(),
    }
}

impl<'a> Advice<&'a HostRuntime> {
    /// Hints where they are asked for.
    pub fn asked_for(rt: &'a HostRuntime) -> Advice<&'a HostRuntime> {
        Advice {
            rt,
            alloc: rt.alloc(),
            is_wanted: are_asked_for(rt),
        }
    }
}

impl<R: Eprint + Drop> Advice<R> {
    /// Writes a hint. Without memory for it there is none.
    fn tell(&self, hint: Result<String, AllocError>) {
        if let Ok(hint) = hint {
            let _ = eprint!(self.rt; "{hint}");
        }
    }

    /// Tells of how a run with these words ended.
    pub fn ended(&self, words: &[String], status: Status) {
        if self.is_wanted {
            self.tell(about_end(self.alloc, words, status));
        }
    }
}

impl<R: Eprint + Drop> Watcher for Advice<R> {
    fn refused(&self, text: &[u8], refusal: &ReadRefusal) {
        if self.is_wanted {
            self.tell(about_refusal(self.alloc, text, refusal));
        }
    }
}
