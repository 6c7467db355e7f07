//! The lines of a fork tree, as they are written.

ghost use Rattle.std.specs.Prelude.{ℕ, ◌≡◌, ◌∷◌, ◌++◌, [], List, map, OnOk};
ghost use Rattle.std.specs.Fmt.{decimal};
ghost use Rattle.and_model.specs.Listing.{answer, floundered};
ghost use Rattle.and_model.specs.Programs.{Program};
ghost use Rattle.and_model.specs.Trees.{query_agenda, blank};
ghost use Rattle.and_answers.specs.Kept.{outcome_with};
ghost use Rattle.and_fork_texts.specs.Texts.{Line, fork, failed, ended, numbers_text, TreeText};
ghost use Rattle.and_forks.specs.Trees.{IsForkTree};
ghost use Rattle.and_forks.specs.Written.{AreWritten};

use crate::tree::Walk;
use and_model::{ClauseList, ClauseNo, Text};
use itoa::Buffer;
use std::alloc::{AllocError, Global};

/// The text of the lines so far, and how many there are of each kind. Each number stays at its last value.
#[derive(Debug)]
pub struct Lines {
    pub text: Text,
    pub forks: u64,
    pub failed: u64,
    pub answers: u64,
    pub floundered: u64,
}

// By hand, so that it is proved once, here.
impl Drop for Lines {
    fn drop(self) {
        let Lines {
            text: _,
            forks: _,
            failed: _,
            answers: _,
            floundered: _,
        } = self;
    }
}

impl Lines {
    /// No line yet. Takes no memory.
    pub fn new(alloc: Global) -> Lines
        ensures { AreWritten [] result }
    {
        Lines {
            text: Text::new(alloc),
            forks: 0,
            failed: 0,
            answers: 0,
            floundered: 0,
        }
    }

    /// Writes the line of a fork by these clauses. An error is want of memory, and the text is spent.
    pub fn put_fork(&mut self, depth: u32, clauses: &ClauseList) -> Result<(), AllocError>
        ensures { (lines : List Line) → AreWritten lines self.old → OnOk result (AreWritten
            (lines ++ record { depth = depth; node = fork (map (λ (c : ClauseNo). c.0) clauses.now) } ∷ [])
            self.new) }
    {
        write_depth(&mut self.text, depth)?;
        self.text.append(b"fork")?;
        write_numbers(&mut self.text, clauses)?;
        self.text.append(b"\n")?;
        self.forks = self.forks.saturating_add(1);
        Ok(())
    }

    /// Writes the line of a branch that failed. An error is want of memory, and the text is spent.
    pub fn put_failed(&mut self, depth: u32) -> Result<(), AllocError>
        ensures { (lines : List Line) → AreWritten lines self.old → OnOk result
            (AreWritten (lines ++ record { depth = depth; node = failed } ∷ []) self.new) }
    {
        write_depth(&mut self.text, depth)?;
        self.text.append(b"failed\n")?;
        self.failed = self.failed.saturating_add(1);
        Ok(())
    }

    /// Writes the line of an answer. An error is want of memory, and the text is spent.
    pub fn put_answer(&mut self, depth: u32, line: &Text) -> Result<(), AllocError>
        ensures { (lines : List Line) → AreWritten lines self.old → OnOk result
            (AreWritten (lines ++ record { depth = depth; node = ended (answer line.now) } ∷ []) self.new) }
    {
        write_depth(&mut self.text, depth)?;
        self.text.append(b"answer ")?;
        self.text.append(line.bytes())?;
        self.text.append(b"\n")?;
        self.answers = self.answers.saturating_add(1);
        Ok(())
    }

    /// Writes the line of a branch that floundered. An error is want of memory, and the text is spent.
    pub fn put_floundered(&mut self, depth: u32, line: &Text) -> Result<(), AllocError>
        ensures { (lines : List Line) → AreWritten lines self.old → OnOk result
            (AreWritten (lines ++ record { depth = depth; node = ended (floundered line.now) } ∷ []) self.new) }
    {
        write_depth(&mut self.text, depth)?;
        self.text.append(b"floundered ")?;
        self.text.append(line.bytes())?;
        self.text.append(b"\n")?;
        self.floundered = self.floundered.saturating_add(1);
        Ok(())
    }

    /// Writes the line of a branch that ended, with the outcome's line. An error is want of memory, and the text is
    /// spent.
    pub fn put_end(&mut self, depth: u32, line: &Text, floundered: bool) -> Result<(), AllocError>
        ensures { (lines : List Line) → AreWritten lines self.old → OnOk result (AreWritten
            (lines ++ record { depth = depth; node = ended (outcome_with floundered line.now) } ∷ []) self.new) }
    {
        if floundered {
            self.put_floundered(depth, line)
        } else {
            self.put_answer(depth, line)
        }
    }

    /// All lines, with their numbers.
    pub fn into_walk(self) -> Walk
        ensures { (P : Program) (limit : ℕ) (lines : List Line) → TreeText P limit (blank (query_agenda P)) 0 lines
            → AreWritten lines self → IsForkTree P limit result }
    {
        let Lines {
            text,
            forks,
            failed,
            answers,
            floundered,
        } = self;
        Walk::Whole {
            text,
            forks,
            failed,
            answers,
            floundered,
        }
    }
}

/// Writes a depth and a space. An error is want of memory, and the text is spent.
fn write_depth(text: &mut Text, depth: u32) -> Result<(), AllocError>
    ensures { OnOk result (text.new ≡ text.old ++ decimal depth ++ 32 ∷ []) }
{
    text.append(Buffer::new().format(depth).as_bytes())?;
    text.append(b" ")
}

/// Writes the clauses' numbers, each behind a space. An error is want of memory, and the text is spent.
fn write_numbers(text: &mut Text, clauses: &ClauseList) -> Result<(), AllocError>
    ensures { OnOk result (text.new ≡ text.old ++ numbers_text (map (λ (c : ClauseNo). c.0) clauses.now)) }
{
    for place in 0..clauses.len() {
        let clause = *clauses.at(place);
        text.append(b" ")?;
        text.append(Buffer::new().format(clause.0).as_bytes())?;
    }
    Ok(())
}
