//! What is told of what a search found.

ghost use Rattle.std.specs.Prelude.{◌≡◌, ◌++◌, take, OnOk, IfOk};
ghost use Rattle.std.specs.List.{list_any};
ghost use Rattle.and_first.specs.First.{last_line};
ghost use Rattle.and_first.specs.Steps.{first_entries};
ghost use Rattle.and_first.specs.Telling.{Tells};

use crate::first::{End, First};
use and_answers::{Entry, Found};
use and_model::Text;
use std::alloc::{AllocError, Global};

/// The first so many entries of these, or all.
fn first_of(entries: &[Entry], count: usize) -> &[Entry]
    ensures { result.now ≡ take count entries.now }
{
    if count < entries.len() {
        &entries[..count]
    } else {
        entries
    }
}

/// Whether some entry is no answer, since some of its arithmetic waits forever. Takes no memory.
pub fn are_floundered(entries: &[Entry]) -> bool
    ensures { result ≡ list_any (λ e. e.floundered) entries.now }
{
    entries.iter().any(|entry| entry.floundered)
}

/// Writes how the search ended. After want of memory the text is spent.
fn write_end(alloc: Global, text: &mut Text, end: End, count: usize) -> Result<(), AllocError>
    ensures { OnOk result (text.new ≡ text.old ++ last_line count end) }
{
    match end {
        End::Within(step) => {
            let line = format!(in alloc; "% first {count} within {step}\n")?;
            text.append(line.as_bytes())
        }
        End::Complete => text.append(b"% complete\n"),
        End::LimitMet => text.append(b"% limit met\n"),
    }
}

/// The first so many entries, or all, and how the search ended.
pub fn told(alloc: Global, found: &Found, end: End, count: usize) -> Result<First, AllocError>
    ensures { IfOk result (Tells (first_entries found.now count) count end) }
{
    let entries = first_of(found.entries(), count);
    let mut text = Text::new(alloc);
    found.write_lines(&mut text, count)?;
    write_end(alloc, &mut text, end, count)?;
    Ok(First {
        text,
        end,
        lines: entries.len(),
        floundered: are_floundered(entries),
    })
}
