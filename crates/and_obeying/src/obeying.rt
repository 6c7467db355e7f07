//! What is done with the words of a command line, by whoever answers.

ghost use Rattle.std.specs.Prelude.{◌≢◌, IfOk, map, string_bytes};
ghost use Rattle.and_obeying.specs.Obeyed.{Blames, Does, IsWork, Obeys};
ghost use Rattle.and_questions.specs.Replied.{IsAllowed, IsAnswer};

use crate::asking::{ask, demo, finish};
use crate::work::{Work, work_of};
use and_command::{USAGE, command_of};
use and_io::{Sink, Source};
use and_questions::{Reply, Request};
use and_status::Status;
use and_watcher::Watcher;
use std::alloc::{AllocError, Global};

/// Does what is to be done, by this answer.
fn perform<A: Fn(Request, &[u8]) -> Result<Reply, AllocError>, W: Watcher, S: Source, K: Sink>(
    answer: &A,
    watcher: &W,
    alloc: Global,
    work: Work,
    source: &mut S,
    sink: &mut K,
) -> Status
    requires work { IsWork work }
    requires callable { (q : _) (b : _) → IsAllowed q → A.pre answer.now q b }
    requires answers { (q : _) (b : _) (r : _) → IsAllowed q → A.post answer.now q b r
        → IfOk r (λ reply. IsAnswer q reply.status b.now reply.text) }
    ensures does { Does S.Source K.Sink result source.old source.new sink.old sink.new work }
    ensures no_usage { result ≢ Status.Usage }
    ensures blame { Blames S.Source K.Sink result source.old source.new sink.old sink.new }
{
    match work {
        Work::Source(request) => ask(answer, watcher, alloc, request, source, sink),
        Work::Demo { number, settings } => demo(answer, watcher, alloc, number, settings, sink),
    }
}

/// Does what the words of the command line say, by this answer.
pub fn obey<A: Fn(Request, &[u8]) -> Result<Reply, AllocError>, W: Watcher, S: Source, K: Sink>(
    answer: &A,
    watcher: &W,
    alloc: Global,
    words: &[String],
    source: &mut S,
    sink: &mut K,
) -> Status
    requires callable { (q : _) (b : _) → IsAllowed q → A.pre answer.now q b }
    requires answers { (q : _) (b : _) (r : _) → IsAllowed q → A.post answer.now q b r
        → IfOk r (λ reply. IsAnswer q reply.status b.now reply.text) }
    ensures { Obeys S.Source K.Sink result source.old source.new sink.old sink.new (map string_bytes words.now) }
{
    match command_of(alloc, words) {
        Ok(Some(command)) => perform(answer, watcher, alloc, work_of(command), source, sink),
        Ok(None) => finish(sink, USAGE, Status::Usage),
        Err(AllocError) => Status::Memory,
    }
}
