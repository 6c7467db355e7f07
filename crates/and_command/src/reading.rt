//! The commands of words: a check of the words decides which command they are, and clap reads their values.

ghost use Rattle.std.specs.Prelude.{◌≡◌, map, Some, IfErr, IfOk, IfSome, string_bytes};
ghost use Rattle.and_command.specs.Commands.{HasCommand, IsCommand, IsInRange, made};

use crate::checking::kind_of;
use crate::forms::Kind;
use crate::given::{Given, Settings};
use crate::values::values_of;
use std::alloc::{AllocError, Global};

/// A command of the command line.
#[derive(Clone, Copy, Debug, PartialEq, Eq)]
pub enum Command {
    /// Read a text and run it.
    Run {
        /// With these settings.
        settings: Settings,
    },
    /// Read a text and tell whether some arithmetic of it may wait forever.
    Check,
    /// Run the generated text of a number.
    Demo {
        /// The number.
        number: u32,
        /// With these settings.
        settings: Settings,
    },
    /// Read a text and tell why one of its answers is one.
    Explain {
        /// The place of the answer, from 1 on.
        place: u32,
        /// With these settings.
        settings: Settings,
    },
    /// Read a text with what was told of an answer, and check that.
    Verify,
    /// Read a text and tell its choices.
    Tree {
        /// The most that a proof may weigh.
        limit: u32,
    },
    /// Read a text and run each of its queries.
    Batch {
        /// How many at once.
        jobs: u32,
        /// Each with these settings.
        settings: Settings,
    },
    /// Read a text and tell its first answers.
    First {
        /// How many.
        count: u32,
        /// With these settings.
        settings: Settings,
    },
    /// Read a text and tell what in it is likely not meant.
    Lint,
}

/// The command of this kind with what was given.
fn command_with(kind: Kind, given: Given) -> Option<Command>
    ensures { result ≡ made kind given }
{
    let settings = given.settings(kind.form());
    match kind {
        Kind::Run => Some(Command::Run { settings }),
        Kind::Check => Some(Command::Check),
        Kind::Demo => {
            let number = given.number?;
            Some(Command::Demo { number, settings })
        }
        Kind::Explain => {
            let place = given.number?;
            Some(Command::Explain { place, settings })
        }
        Kind::Verify => Some(Command::Verify),
        Kind::Tree => Some(Command::Tree {
            limit: given.limit(),
        }),
        Kind::Batch => Some(Command::Batch {
            jobs: given.jobs(kind.form()),
            settings,
        }),
        Kind::First => {
            let count = given.number?;
            Some(Command::First { count, settings })
        }
        Kind::Lint => Some(Command::Lint),
    }
}

/// The command that these are the words of. An error is want of memory, and comes only where they are one.
pub fn command_of(alloc: Global, words: &[String]) -> Result<Option<Command>, AllocError>
    ensures is { IfOk result (λ found. IfSome found (IsCommand (map string_bytes words.now))) }
    ensures in_range { IfOk result (λ found. IfSome found IsInRange) }
    ensures each { (command : Command) → IsCommand (map string_bytes words.now) command
        → IfOk result (λ found. found ≡ Some command) }
    ensures memory { IfErr result (λ _. HasCommand (map string_bytes words.now)) }
{
    match kind_of(words) {
        Some(kind) => {
            let given = values_of(alloc, words)?;
            Ok(command_with(kind, given))
        }
        None => Ok(None),
    }
}
