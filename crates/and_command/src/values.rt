//! The values of the words of a command, which clap reads.

ghost use Rattle.std.specs.Prelude.{◌≡◌, ℕ, Option, IfOk, map, string_bytes};
ghost use Rattle.clap.specs.Words.{app_of, found_of, one_text};
ghost use Rattle.and_command.specs.Values as specs;
ghost use Rattle.and_command.specs.Values.{AreValues, Give, GiveSomething, IsArg, IsTextOf};

use crate::forms::Kind;
use crate::given::Given;
use clap::error::ErrorKind;
use clap::{Arg, ArgAction, ArgMatches, value_parser};
use std::alloc::{AllocError, Global};

/// An option that has a number.
fn option<'a>(alloc: Global, name: &'a str) -> Arg<'a>
    ensures { IsArg result (specs.numbered name.entry.now) }
{
    Arg::new(alloc, name)
        .long(name)
        .value_parser(value_parser!(u32))
}

/// What reads the values of words that a command may have.
fn reader<'a>(alloc: Global) -> Result<clap::Command<'a>, AllocError>
    ensures { IfOk result (λ reader. app_of reader ≡ specs.reader) }
{
    let number = Arg::new(alloc, "number").value_parser(value_parser!(u32));
    let limit = option(alloc, "limit");
    let jobs = option(alloc, "jobs");
    let teams = option(alloc, "teams");
    let workers = option(alloc, "workers");
    let stats = Arg::new(alloc, "stats")
        .long("stats")
        .action(ArgAction::SetTrue);
    clap::Command::new(alloc, "andorra")
        .arg(number)?
        .arg(limit)?
        .arg(jobs)?
        .arg(teams)?
        .arg(workers)?
        .arg(stats)
}

/// The number that was found for an argument.
fn number_in(matches: &ArgMatches<'_>, id: &str) -> Option<u32>
    ensures { (o : Option ℕ) → IsTextOf o (one_text (found_of matches.now) id.now) → result ≡ o }
{
    matches.get_one::<u32>(id)
}

/// What was found.
fn given_in(matches: &ArgMatches<'_>) -> Given
    ensures { (g : Given) → AreValues g (found_of matches.now) → result ≡ g }
{
    Given {
        limit: number_in(matches, "limit"),
        jobs: number_in(matches, "jobs"),
        teams: number_in(matches, "teams"),
        workers: number_in(matches, "workers"),
        number: number_in(matches, "number"),
        stats: matches.get_flag("stats"),
    }
}

/// What the words of a command give. An error is want of memory.
pub fn values_of(alloc: Global, words: &[String]) -> Result<Given, AllocError>
    requires { GiveSomething (map string_bytes words.now) }
    ensures { (kind : Kind) (g : Given) → Give kind (map string_bytes words.now) g → IfOk result (λ given. given ≡ g) }
{
    let reader = reader(alloc)?;
    match reader.try_get_matches_from(words) {
        Ok(matches) => Ok(given_in(&matches)),
        Err(error) => {
            let is_memory = error.kind() == ErrorKind::OutOfMemory;
            prove!(is_memory);
            Err(AllocError)
        }
    }
}
