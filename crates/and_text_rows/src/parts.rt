//! Texts that are not written out: bytes by their numbers, and parts so many times.

use and_rows::Untold;
use std::alloc::{AllocError, Global};

/// The bytes whose numbers stand there, in base 16 and with layout between.
pub(crate) fn bytes(alloc: Global, numbers: &str) -> Result<Vec<u8>, Untold> {
    let mut bytes = Vec::new(alloc);
    for number in numbers.split_whitespace() {
        match u8::from_str_radix(number, 16) {
            Ok(byte) => bytes.push(byte)?,
            Err(_) => return Err(Untold::Malformed),
        }
    }
    Ok(bytes)
}

/// Puts a part so many times behind a text.
fn push_times(text: &mut String, part: &str, times: u32) -> Result<(), AllocError> {
    for _ in 0..times {
        text.push_str(part)?;
    }
    Ok(())
}

/// How many times a part stands there, and the part, of a line like `256 "s("`.
fn part_of(line: &str) -> Option<(u32, &str)> {
    let (times, part) = line.split_once(' ')?;
    let part = part.strip_prefix('"')?.strip_suffix('"')?;
    match times.parse() {
        Ok(times) => Some((times, part)),
        Err(_) => None,
    }
}

/// The text of these parts, one behind the other.
pub(crate) fn text(alloc: Global, lines: &str) -> Result<String, Untold> {
    let mut text = String::new(alloc);
    for line in lines.lines() {
        match part_of(line) {
            Some((times, part)) => push_times(&mut text, part, times)?,
            None => return Err(Untold::Malformed),
        }
    }
    Ok(text)
}
