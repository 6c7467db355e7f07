//! From a text of a source, or one that is generated, to the bytes for a sink.

ghost use Rattle.std.specs.Prelude.{◌≡◌, ◌≢◌, ◌≤◌, ◌++◌, [], IfOk};
ghost use Rattle.and_io.specs.Flow.{Rose, AreAll};
ghost use Rattle.and_gen.specs.Layered as generated;
ghost use Rattle.and_model.specs.declared.limits.TheConstants.{MAX_LIMIT};
ghost use Rattle.and_obeying.specs.Answered.{Answered, GivesPrefix, IsComplete, Told, Took, bytes_read};
ghost use Rattle.and_questions.specs.Replied.{IsAllowed, IsAnswer};
ghost use Rattle.and_questions.specs.Replied.{most_of};

use and_command::Settings;
use and_gen::layered;
use and_io::{ReadAll, ReadStop, Sink, Source, read_all, write_all_counted};
use and_model::Text;
use and_questions::{Question, Reply, Request};
use and_reports::Show;
use and_status::Status;
use and_watcher::Watcher;
use std::alloc::{AllocError, Global};

/// Writes what is due, and says what became of it.
pub fn finish<K: Sink>(sink: &mut K, due: &[u8], status: Status) -> Status
    requires { status ≢ Status.WriteFault }
    ensures written { result ≢ Status.WriteFault
        → (result ≡ status) × (K.given sink.new ≡ K.given sink.old ++ due.now) }
    ensures fault { result ≡ Status.WriteFault →
        Rose K.last (K.faults sink.old) (K.faults sink.new)
        × GivesPrefix (K.given sink.old) (K.given sink.new) due.now }
    ensures count { K.faults sink.old ≤ K.faults sink.new }
{
    match write_all_counted(sink, due) {
        Ok(()) => status,
        Err(_) => Status::WriteFault,
    }
}

/// Tells of a reply that is a refusal.
fn tell<W: Watcher>(watcher: &W, text: &[u8], reply: &Reply) {
    if let Some(refusal) = &reply.refusal {
        watcher.refused(text, refusal);
    }
}

/// Answers the bytes of a source.
fn respond<A: Fn(Request, &[u8]) -> Result<Reply, AllocError>, W: Watcher, K: Sink>(
    answer: &A,
    watcher: &W,
    request: Request,
    sink: &mut K,
    bytes: &[u8],
) -> Status
    requires allowed { IsAllowed request }
    requires callable { (q : _) (b : _) → IsAllowed q → A.pre answer.now q b }
    requires answers { (q : _) (b : _) (r : _) → IsAllowed q → A.post answer.now q b r
        → IfOk r (λ reply. IsAnswer q reply.status b.now reply.text) }
    ensures answered { Answered request (K.given sink.old) (K.given sink.new) result bytes.now }
    ensures no_read_fault { result ≢ Status.ReadFault }
    ensures fault { result ≡ Status.WriteFault → Rose K.last (K.faults sink.old) (K.faults sink.new) }
    ensures count { K.faults sink.old ≤ K.faults sink.new }
{
    match answer(request, bytes) {
        Ok(reply) => {
            let status = finish(sink, reply.text.bytes(), reply.status);
            tell(watcher, bytes, &reply);
            status
        }
        Err(AllocError) => Status::Memory,
    }
}

/// What was read.
fn text_of(read: &ReadAll) -> &Text
    ensures { result.now ≡ bytes_read read.now }
{
    match read {
        ReadAll::Whole(text) => text,
        ReadAll::Over(text) => text,
    }
}

/// Reads the bytes of the source and answers them.
pub fn ask<A: Fn(Request, &[u8]) -> Result<Reply, AllocError>, W: Watcher, S: Source, K: Sink>(
    answer: &A,
    watcher: &W,
    alloc: Global,
    request: Request,
    source: &mut S,
    sink: &mut K,
) -> Status
    requires allowed { IsAllowed request }
    requires callable { (q : _) (b : _) → IsAllowed q → A.pre answer.now q b }
    requires answers { (q : _) (b : _) (r : _) → IsAllowed q → A.post answer.now q b r
        → IfOk r (λ reply. IsAnswer q reply.status b.now reply.text) }
    // What was written, and for which text.
    ensures answered { Took (most_of request) (S.taken source.old) (S.taken source.new) (S.ended source.new) result
        (Answered request (K.given sink.old) (K.given sink.new) result) }
    ensures told { Told (S.left source.old) (Answered request (K.given sink.old) (K.given sink.new) result) }
    ensures read_whole { IsComplete result → S.ended source.new × AreAll (S.left source.new) [] }
    ensures no_usage { result ≢ Status.Usage }

    // Who is to blame.
    ensures read_fault { result ≡ Status.ReadFault
        → Rose S.last (S.faults source.old) (S.faults source.new) × (K.given sink.new ≡ K.given sink.old) }
    ensures write_fault { result ≡ Status.WriteFault → Rose K.last (K.faults sink.old) (K.faults sink.new) }
    ensures memory { result ≡ Status.Memory → K.given sink.new ≡ K.given sink.old }
    ensures source_count { S.faults source.old ≤ S.faults source.new }
    ensures sink_count { K.faults sink.old ≤ K.faults sink.new }
{
    match read_all(alloc, source, request.most()) {
        Ok(read) => {
            let bytes = text_of(&read).bytes();
            respond(answer, watcher, request, sink, bytes)
        }
        Err(ReadStop::Failed) => Status::ReadFault,
        Err(ReadStop::Memory) => Status::Memory,
    }
}

/// A summary of the answers, as these settings have it.
fn summary(settings: Settings) -> Question
    ensures { result ≡ Question.Run Show.Summary settings.limit }
{
    Question::Run {
        show: Show::Summary,
        limit: settings.limit,
    }
}

/// Answers the generated text of a number by a summary.
pub fn demo<A: Fn(Request, &[u8]) -> Result<Reply, AllocError>, W: Watcher, K: Sink>(
    answer: &A,
    watcher: &W,
    alloc: Global,
    number: u32,
    settings: Settings,
    sink: &mut K,
) -> Status
    requires few { number ≤ 64 }
    requires limited { settings.limit ≤ MAX_LIMIT }
    requires callable { (q : _) (b : _) → IsAllowed q → A.pre answer.now q b }
    requires answers { (q : _) (b : _) (r : _) → IsAllowed q → A.post answer.now q b r
        → IfOk r (λ reply. IsAnswer q reply.status b.now reply.text) }
    ensures answered { Answered (Request.Text (Question.Run Show.Summary settings.limit)) (K.given sink.old)
        (K.given sink.new) result (generated.layered number) }
    ensures not_refused { result ≢ Status.Refused }
    ensures no_read_fault { result ≢ Status.ReadFault }
    ensures fault { result ≡ Status.WriteFault → Rose K.last (K.faults sink.old) (K.faults sink.new) }
    ensures count { K.faults sink.old ≤ K.faults sink.new }
{
    match layered(alloc, number) {
        Ok(text) => {
            let request = Request::Text(summary(settings));
            respond(answer, watcher, request, sink, text.bytes())
        }
        // The number is not too big, so that it is for want of memory.
        Err(_) => Status::Memory,
    }
}
