//! Texts and what they are refused for, names as they are written, lists of words, and generated texts.

use and_command::command_of;
use and_gen::layered;
use and_model::Text;
use and_quoting::write_name;
use and_reader::{read_program, refusal_text};
use and_rows::{Untold, line};
use std::alloc::Global;

/// Bytes as text.
fn shown(alloc: Global, bytes: &[u8]) -> Result<String, Untold> {
    Ok(String::from_utf8_lossy(alloc, bytes)?)
}

/// How many clauses a text's program has, or why it is none.
pub(crate) fn text(alloc: Global, text: &[u8]) -> Result<String, Untold> {
    match read_program(alloc, text) {
        Ok(loaded) => line(alloc, &loaded.clause_count()),
        Err(refusal) => {
            if refusal.is_memory() {
                return Err(Untold::Memory);
            }
            shown(alloc, refusal_text(alloc, &refusal)?.bytes())
        }
    }
}

/// A name as it is written.
pub(crate) fn name(alloc: Global, name: &[u8]) -> Result<String, Untold> {
    let mut text = Text::new(alloc);
    write_name(&mut text, name)?;
    text.append(b"\n")?;
    shown(alloc, text.bytes())
}

/// The command of words with blanks between.
pub(crate) fn command(alloc: Global, typed: &str) -> Result<String, Untold> {
    let mut words = Vec::new(alloc);
    for word in typed.split_whitespace() {
        words.push(String::from_str(alloc, word)?)?;
    }
    line(alloc, &command_of(alloc, &words)?)
}

/// The generated text of a number, or why there is none.
pub(crate) fn generated(alloc: Global, number: &str) -> Result<String, Untold> {
    let Ok(number) = number.parse::<u32>() else {
        return Err(Untold::Malformed);
    };
    match layered(alloc, number) {
        Ok(text) => shown(alloc, text.bytes()),
        Err(fault) => line(alloc, &fault),
    }
}

/// How many lines the generated text of a number has, and the last of them.
pub(crate) fn last_generated(alloc: Global, number: &str) -> Result<String, Untold> {
    let text = generated(alloc, number)?;
    let last = text.lines().last().unwrap_or("");
    line(alloc, &(text.lines().count(), last))
}
