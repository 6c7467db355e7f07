//! What a command asks for.

ghost use Rattle.std.specs.Prelude.{◌≡◌};
ghost use Rattle.and_obeying.specs.Obeyed as specs;

use and_command::{Command, Settings};
use and_questions::{Question, Request};
use and_reports::Show;

/// What is to be done.
#[derive(Clone, Copy)]
pub enum Work {
    /// The bytes of the source are answered.
    Source(Request),
    /// The generated text of a number is answered by a summary.
    Demo {
        /// The number.
        number: u32,
        /// With these settings.
        settings: Settings,
    },
}

/// All answers of a text, as these settings have it.
fn all_answers(settings: Settings) -> Question
    ensures { result ≡ Question.Run (Show.Whole settings.stats) settings.limit }
{
    Question::Run {
        show: Show::Whole {
            stats: settings.stats,
        },
        limit: settings.limit,
    }
}

/// What is to be done for a command.
pub fn work_of(command: Command) -> Work
    ensures { result ≡ specs.work_of command }
{
    match command {
        Command::Run { settings } => Work::Source(Request::Text(all_answers(settings))),
        Command::Check => Work::Source(Request::Text(Question::Check)),
        Command::Demo { number, settings } => Work::Demo { number, settings },
        Command::Explain { place, settings } => {
            let limit = settings.limit;
            Work::Source(Request::Text(Question::Explain { place, limit }))
        }
        Command::Verify => Work::Source(Request::Document),
        Command::Tree { limit } => Work::Source(Request::Text(Question::Tree { limit })),
        Command::Batch { jobs, settings } => {
            let limit = settings.limit;
            Work::Source(Request::Batch { jobs, limit })
        }
        Command::First { count, settings } => {
            let limit = settings.limit;
            Work::Source(Request::Text(Question::First { count, limit }))
        }
        Command::Lint => Work::Source(Request::Text(Question::Lint)),
    }
}
