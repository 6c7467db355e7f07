//! What a check tells of a program.

ghost use Rattle.std.specs.Prelude.{◌≡◌, IfOk};
ghost use Rattle.and_program.specs.Loaded.{program_of};
ghost use Rattle.and_reports.specs.Checked.{HasClause, IsVerdict};
ghost use Rattle.and_reports.specs.Checked as specs;

use and_model::Text;
use and_modes::verdicts::Verdict;
use and_modes::{infer, verdict};
use and_program::Loaded;
use std::alloc::{AllocError, Global};

/// The verdict under the greatest modes of a program. An error is want of memory.
pub fn judged(alloc: Global, loaded: &Loaded) -> Result<Verdict, AllocError>
    ensures { IfOk result (IsVerdict (program_of loaded.now)) }
{
    let modes = infer(alloc, loaded)?;
    verdict(alloc, loaded, &modes)
}

/// The line that tells a verdict, with its newline. An error is want of memory.
pub fn verdict_line(alloc: Global, loaded: &Loaded, verdict: Verdict) -> Result<Text, AllocError>
    requires { HasClause (program_of loaded.now) verdict }
    ensures { IfOk result (λ text. text ≡ specs.verdict_line (program_of loaded.now) verdict) }
{
    match verdict {
        Verdict::Safe => Text::of(alloc, b"safe\n"),
        Verdict::Waits {
            clause,
            item: _,
            variable,
        } => {
            let line = loaded.line(clause);
            let front = format!(in alloc; "waits: line {line}: ")?;
            let mut text = Text::of(alloc, front.as_bytes())?;
            text.append(loaded.variable_name(clause, variable))?;
            text.append(b"\n")?;
            Ok(text)
        }
    }
}
