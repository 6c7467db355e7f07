//! Andorra-I for pure Prolog: `andorra run` reads a program from standard input and writes its answers;
//! `andorra first K` writes the first of them; `andorra explain K` tells why one is an answer, and `andorra verify`
//! checks what it told; `andorra check` tells whether its arithmetic may wait forever; `andorra demo N` answers a
//! generated program.
#![tactic(auto)]

mod words;

use and_io::{StdSink, StdSource};
use and_status::Status;
use and_top::andorra;
use and_watch::{AfterLine, Watch};
use std::process::ExitCode;
use words::words_of;

fn main(rt: HostRuntime) -> ExitCode {
    let alloc = rt.alloc();
    let Ok(words) = words_of(&rt, alloc) else {
        return ExitCode::from(Status::Memory as u8);
    };
    let watch = Watch::asked_for(&rt);
    let mut source = StdSource::new(rt.stdin());
    let mut sink = StdSink::new(AfterLine::new(&watch, rt.stdout()));
    let status = andorra(&rt, alloc, &words, &mut source, &mut sink, &watch);
    watch.ended(&words, status);
    ExitCode::from(status as u8)
}
