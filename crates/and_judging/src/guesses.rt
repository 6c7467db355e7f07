//! Numbers that the names of a draft's parts may have.

use std::alloc::{AllocError, Global};

/// For each part of a draft a number that its name may have. Nothing is promised of it: whoever takes a guess looks
/// whether the name is there.
#[derive(Drop)]
pub struct Guesses {
    numbers: Vec<usize>,
}

impl Guesses {
    /// No guesses. Takes no memory.
    pub fn new(alloc: Global) -> Guesses {
        Guesses {
            numbers: Vec::new(alloc),
        }
    }

    /// Makes room for a guess for each of so many parts. An error is want of memory.
    pub fn make_room(&mut self, parts: usize) -> Result<(), AllocError> {
        if self.numbers.len() < parts {
            self.numbers.resize(parts, 0)?;
        }
        Ok(())
    }

    /// Notes a guess for a part, where there is room for it.
    pub fn note(&mut self, part: u32, number: usize) {
        if let Some(place) = self.numbers.get_mut(part as usize) {
            *place = number;
        }
    }

    /// The guess for a part. Takes no memory.
    pub fn of(&self, part: u32) -> Option<usize> {
        self.numbers.get(part as usize).copied()
    }
}
