//! What is written of what a run found.

ghost use Rattle.std.specs.Prelude.{◌≡◌, ◌++◌, false, OnOk, IfOk, codes};
ghost use Rattle.std.specs.Fmt.{decimal};
ghost use Rattle.and_answers.specs.Kept.{listed, finish_of};
ghost use Rattle.and_model.specs.Output.{last_lines};
ghost use Rattle.and_reports.specs.Shown as specs;

use and_answers::Found;
use and_model::Text;
use std::alloc::{AllocError, Global};

/// What is written of what a run found.
#[derive(Clone, Copy)]
pub enum Show {
    /// All lines, and how the run ended.
    Whole {
        /// With the counts, where the run was complete.
        stats: bool,
    },
    /// How many lines there are, the first and the last, and how the run ended.
    Summary,
}

/// Puts the number of lines at the end of the text.
fn write_count(alloc: Global, text: &mut Text, count: usize) -> Result<(), AllocError>
    ensures { OnOk result (text.new ≡ text.old ++ codes "lines " ++ decimal count ++ codes "\n") }
{
    let line = format!(in alloc; "lines {count}\n")?;
    text.append(line.as_bytes())
}

/// Puts the first line and the last, where there are any, at the end of the text.
fn write_first_and_last(text: &mut Text, found: &Found) -> Result<(), AllocError>
    ensures { let lines = specs.entry_lines (listed found.now) in
        OnOk result (text.new ≡ text.old ++ specs.first_and_last lines) }
{
    let count = found.entries().len();
    if count == 0 {
        return Ok(());
    }
    text.append(b"first ")?;
    found.write_line(text, 0)?;
    text.append(b"last ")?;
    found.write_line(text, count - 1)?;
    Ok(())
}

/// Puts at the end of the text how the run ended, without its counts.
fn write_end(text: &mut Text, found: &Found) -> Result<(), AllocError>
    ensures { OnOk result (text.new ≡ text.old ++ last_lines (finish_of found.now false)) }
{
    if found.cut.is_some() {
        text.append(b"% limit met\n")
    } else {
        text.append(b"% complete\n")
    }
}

/// The summary of what a run found.
fn summary(alloc: Global, found: &Found) -> Result<Text, AllocError>
    ensures { IfOk result (λ text. text ≡ specs.shown Show.Summary (listed found.now) (finish_of found.now false)) }
{
    let mut text = Text::new(alloc);
    write_count(alloc, &mut text, found.entries().len())?;
    write_first_and_last(&mut text, found)?;
    write_end(&mut text, found)?;
    Ok(text)
}

/// What is written of what a run found.
pub fn written(alloc: Global, show: Show, found: &Found) -> Result<Text, AllocError>
    ensures { IfOk result (λ text. text ≡ specs.shown show (listed found.now) (specs.finish show found.now)) }
{
    match show {
        Show::Whole { stats } => found.text(stats),
        Show::Summary => summary(alloc, found),
    }
}
