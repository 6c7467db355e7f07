//! What a program is answered with.

ghost use Rattle.std.specs.Prelude.{◌≡◌, ◌≤◌, ℕ, IfOk};
ghost use Rattle.and_program.specs.Loaded.{program_of};
ghost use Rattle.and_model.specs.declared.limits.TheConstants.{MAX_LIMIT};
ghost use Rattle.and_reader.specs.Causes.{refusal_of};
ghost use Rattle.and_search_laws.specs.Found.{FindsFirst};
ghost use Rattle.and_replies.specs.Finding.{Finds};
ghost use Rattle.and_questions.specs.Lifted.{IsLifted};
ghost use Rattle.and_questions.specs.Replied.{IsLineOf, TellsFirst, WasChecked, WasRun};

use and_answers::Found;
use and_first::first_by;
use and_program::Loaded;
use and_questions::Reply;
use and_reader::{ReadRefusal, refusal_text};
use and_reports::{
    Show, judged, status_of, status_of_first, status_of_verdict, verdict_line, written,
};
use and_status::Status;
use std::alloc::{AllocError, Global};
use std::snapshot::Snapshot;

/// What a check tells of a program. An error is want of memory.
pub fn told_of(alloc: Global, loaded: &Loaded) -> Result<Reply, AllocError>
    ensures { IfOk result (λ reply. WasChecked (program_of loaded.now) reply.status reply.text) }
{
    let verdict = judged(alloc, loaded)?;
    let text = verdict_line(alloc, loaded, verdict)?;
    let status = status_of_verdict(verdict);
    Ok(Reply {
        text,
        status,
        refusal: None,
    })
}

/// What a run finds in a program. An error is want of memory.
pub fn found_in<F: Fn(&Loaded, u32, Option<u32>) -> Result<Found, AllocError>>(
    search: &F,
    alloc: Global,
    show: Show,
    limit: u32,
    loaded: &Loaded,
) -> Result<Reply, AllocError>
    requires limited { limit ≤ MAX_LIMIT }
    requires callable { (l : _) (n : ℕ) (o : _) → n ≤ MAX_LIMIT → F.pre search.now l n o }
    requires finds { (l : _) (n : ℕ) (o : _) (found : _) → n ≤ MAX_LIMIT → F.post search.now l n o found
        → IfOk found (Finds (program_of l.now) n o) }
    ensures { (program : _) → IsLifted program (program_of loaded.now)
        → IfOk result (λ reply. WasRun show limit program reply.status reply.text) }
{
    let found = search(loaded, limit, None)?;
    let text = written(alloc, show, &found)?;
    let status = status_of(&found);
    Ok(Reply {
        text,
        status,
        refusal: None,
    })
}

/// The first answers of a program. An error is want of memory.
pub fn first_in<F: Fn(&Loaded, u32, Option<u32>) -> Result<Found, AllocError>>(
    search: &F,
    alloc: Global,
    count: u32,
    limit: u32,
    loaded: &Loaded,
) -> Result<Reply, AllocError>
    requires limited { limit ≤ MAX_LIMIT }
    requires callable { (l : _) (n : ℕ) (o : _) → n ≤ MAX_LIMIT → F.pre search.now l n o }
    requires finds { (l : _) (n : ℕ) (o : _) (found : _) → n ≤ MAX_LIMIT → F.post search.now l n o found
        → IfOk found (Finds (program_of l.now) n o) }
    ensures { (program : _) → IsLifted program (program_of loaded.now)
        → IfOk result (λ reply. TellsFirst count limit program reply.status reply.text) }
{
    let search_step = |step: u32|
        requires limited { step ≤ MAX_LIMIT }
        requires callable { (l : _) (n : ℕ) (o : _) → n ≤ MAX_LIMIT → F.pre search.now l n o }
        requires finds { (l : _) (n : ℕ) (o : _) (found : _) → n ≤ MAX_LIMIT → F.post search.now l n o found
            → IfOk found (Finds (program_of l.now) n o) }
        ensures { IfOk result (FindsFirst (program_of loaded.entry.now) step count) }
    { search(loaded, step, Some(count)) };
    let first = first_by(
        &search_step,
        alloc,
        Snapshot::of(loaded),
        limit,
        count as usize,
    )?;
    let status = status_of_first(&first);
    let text = first.text;
    Ok(Reply {
        text,
        status,
        refusal: None,
    })
}

/// The answer to bytes that are refused. An error is want of memory.
pub fn refused(alloc: Global, refusal: ReadRefusal) -> Result<Reply, AllocError>
    ensures status { IfOk result (λ reply. reply.status ≡ Status.Refused) }
    ensures text { IfOk result (λ reply. IsLineOf (refusal_of refusal) reply.text) }
{
    if refusal.is_memory() {
        return Err(AllocError);
    }
    Ok(Reply {
        text: refusal_text(alloc, &refusal)?,
        status: Status::Refused,
        refusal: Some(refusal),
    })
}
