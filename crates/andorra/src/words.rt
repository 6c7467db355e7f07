//! The words of the command line.

use std::alloc::{AllocError, Global};
use std::{env, io};

/// The words, without the program's name, as they are given.
fn given_words(rt: &HostRuntime, alloc: Global) -> io::Result<Vec<String>> {
    let mut words = Vec::new(alloc);
    for word in env::args(rt)?.skip(1) {
        words.push(word)?;
    }
    Ok(words)
}

/// The words, without the program's name. Where one of them is no text there are none, since no command has such a
/// word. An error is want of memory.
pub fn words_of(rt: &HostRuntime, alloc: Global) -> Result<Vec<String>, AllocError> {
    match given_words(rt, alloc) {
        Ok(words) => Ok(words),
        Err(error) if error.kind() == io::ErrorKind::OutOfMemory => Err(AllocError),
        Err(_) => Ok(Vec::new(alloc)),
    }
}
