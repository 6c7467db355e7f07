//! The status of what was found.

ghost use Rattle.std.specs.Prelude.{◌≡◌};
ghost use Rattle.and_answers.specs.Kept.{listed};
ghost use Rattle.and_reports.specs.Statuses.{status_for, status_seen, status_told, told_status};

use and_answers::Found;
use and_first::{End, First, are_floundered};
use and_modes::verdicts::Verdict;
use and_status::Status;

/// The status of a search that found this.
pub fn status_of(found: &Found) -> Status
    ensures { result ≡ status_for found.now.cut (listed found.now) }
{
    if found.cut.is_some() {
        return Status::Limit;
    }
    let entries = found.entries();
    if entries.is_empty() {
        Status::NoAnswer
    } else if are_floundered(entries) {
        Status::Floundered
    } else {
        Status::Answers
    }
}

/// The status of lines that are told.
fn status_of_lines(floundered: bool) -> Status
    ensures { result ≡ told_status floundered }
{
    if floundered {
        Status::Floundered
    } else {
        Status::Answers
    }
}

/// The status of the first answers.
pub fn status_of_first(first: &First) -> Status
    ensures { result ≡ status_seen first.now.end first.now.lines first.now.floundered }
{
    match first.end {
        End::Within(_) => status_of_lines(first.floundered),
        End::Complete => {
            if first.lines == 0 {
                Status::NoAnswer
            } else {
                status_of_lines(first.floundered)
            }
        }
        End::LimitMet => Status::Limit,
    }
}

/// The status of a verdict.
pub fn status_of_verdict(verdict: Verdict) -> Status
    ensures { result ≡ status_told verdict }
{
    match verdict {
        Verdict::Safe => Status::Answers,
        Verdict::Waits {
            clause: _,
            item: _,
            variable: _,
        } => Status::NoAnswer,
    }
}
