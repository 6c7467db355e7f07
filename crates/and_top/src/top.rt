//! The top call.

ghost use Rattle.std.specs.Prelude.{◌≡◌, ◌↔◌, IfOk, IfSome, IsNone, map, string_bytes};
ghost use Rattle.and_command.specs.Commands.{IsInRange};
ghost use Rattle.and_model.specs.Limits.{AreInRange};
ghost use Rattle.and_obeying.specs.Obeyed.{Obeys};
ghost use Rattle.and_questions.specs.Replied.{IsAllowed, IsAnswer};

use crate::replying::answered_by;
use and_alone::answered_alone;
use and_command::{Command, command_of};
use and_gate::Gate;
use and_io::{Sink, Source};
use and_model::limits::Hands;
use and_obeying::obey;
use and_questions::Request;
use and_status::Status;
use and_watcher::Watcher;
use std::alloc::{AllocError, Global};
use std::sync::Wait;
use std::thread::Threads;

/// These, where they are several; `None` where one worker is asked for.
fn several(hands: Hands) -> Option<Hands>
    requires { AreInRange hands }
    ensures none { IsNone result ↔ ((hands.teams ≡ 1) × (hands.workers ≡ 1)) }
    ensures in_range { IfSome result AreInRange }
{
    if hands.teams == 1 && hands.workers == 1 {
        return None;
    }
    Some(hands)
}

/// The workers that a command asks for; `None` where one is enough, or nothing is searched.
fn hands_in(command: Command) -> Option<Hands>
    requires { IsInRange command }
    ensures { IfSome result AreInRange }
{
    match command {
        Command::Run { settings } => several(settings.hands),
        Command::Demo {
            number: _,
            settings,
        } => several(settings.hands),
        Command::Explain { place: _, settings } => several(settings.hands),
        Command::First { count: _, settings } => several(settings.hands),
        Command::Batch { jobs, settings } => {
            if jobs == 1 {
                return several(settings.hands);
            }
            // Several jobs are several workers, whatever the hands of each.
            Some(settings.hands)
        }
        Command::Check | Command::Verify | Command::Tree { limit: _ } | Command::Lint => None,
    }
}

/// The workers that these words ask for; `None` where one is enough, or nothing is searched.
fn hands_of(alloc: Global, words: &[String]) -> Option<Hands>
    ensures { IfSome result AreInRange }
{
    match command_of(alloc, words) {
        Ok(Some(command)) => hands_in(command),
        Ok(None) => None,
        // They are read once more, and it is told there.
        Err(AllocError) => None,
    }
}

/// Does what the words of the command line say: answers or checks the text of the source, or answers
/// the generated text of a number, and writes to the sink. It waits for nobody and starts no thread, whatever
/// the words say of teams and workers: what is said of the answers is said for all of these, and every gate.
/// The gate is told of a refusal, too.
pub fn andorra_alone<S: Source, K: Sink, G: Gate + Watcher>(
    alloc: Global,
    words: &[String],
    source: &mut S,
    sink: &mut K,
    gate: &G,
) -> Status
    ensures { Obeys S.Source K.Sink result source.old source.new sink.old sink.new (map string_bytes words.now) }
{
    let alone = |request: Request, bytes: &[u8]|
        requires { IsAllowed request }
        ensures { IfOk result (λ reply. IsAnswer request reply.status bytes.now reply.text) }
    { answered_alone(alloc, request, bytes, gate) };
    obey(&alone, gate, alloc, words, source, sink)
}

/// The same by several workers.
fn andorra_by<R: Threads + Wait + Sync, S: Source, K: Sink, G: Gate + Watcher>(
    rt: &R,
    alloc: Global,
    hands: Hands,
    words: &[String],
    source: &mut S,
    sink: &mut K,
    gate: &G,
) -> Status
    requires { AreInRange hands }
    ensures { Obeys S.Source K.Sink result source.old source.new sink.old sink.new (map string_bytes words.now) }
{
    let together = |request: Request, bytes: &[u8]|
        requires { IsAllowed request × AreInRange hands }
        ensures { IfOk result (λ reply. IsAnswer request reply.status bytes.now reply.text) }
    { answered_by(rt, alloc, request, bytes, hands, gate) };
    obey(&together, gate, alloc, words, source, sink)
}

/// Does what the words of the command line say: answers or checks the text of the source, or answers
/// the generated text of a number, and writes to the sink. What is said of the answers is said for all
/// numbers of teams and workers, every schedule and every gate. Words that ask for no more than one worker
/// are for [`andorra_alone`].
pub fn andorra<R: Threads + Wait + Sync, S: Source, K: Sink, G: Gate + Watcher>(
    rt: &R,
    alloc: Global,
    words: &[String],
    source: &mut S,
    sink: &mut K,
    gate: &G,
) -> Status
    ensures { Obeys S.Source K.Sink result source.old source.new sink.old sink.new (map string_bytes words.now) }
{
    match hands_of(alloc, words) {
        None => andorra_alone(alloc, words, source, sink, gate),
        Some(hands) => andorra_by(rt, alloc, hands, words, source, sink, gate),
    }
}
