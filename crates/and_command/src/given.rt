//! What words give.

ghost use Rattle.std.specs.Prelude.{◌≡◌, None};
ghost use Rattle.and_command.specs.Given as specs;

use crate::forms::Form;
use and_model::limits::{DEFAULT_LIMIT, Hands};

/// What bounds a run, and who works on it.
#[derive(Clone, Copy, Debug, PartialEq, Eq)]
pub struct Settings {
    /// The most that a proof may weigh.
    pub limit: u32,
    /// Who explores.
    pub hands: Hands,
    /// Whether a run that is complete tells its counts.
    pub stats: bool,
}

/// What words give, each at most once.
#[derive(Clone, Copy)]
pub struct Given {
    /// The value of `--limit`.
    pub limit: Option<u32>,
    /// The value of `--jobs`.
    pub jobs: Option<u32>,
    /// The value of `--teams`.
    pub teams: Option<u32>,
    /// The value of `--workers`.
    pub workers: Option<u32>,
    /// The number of the command.
    pub number: Option<u32>,
    /// Whether `--stats` was given.
    pub stats: bool,
}

impl Given {
    /// The limit: what was given, and else the default.
    pub fn limit(self) -> u32
        ensures { result ≡ specs.limit_of self }
    {
        self.limit.unwrap_or(DEFAULT_LIMIT)
    }

    /// How many jobs: what was given, and else what the form has.
    pub fn jobs(self, form: Form) -> u32
        ensures { result ≡ specs.jobs_of form self }
    {
        self.jobs.unwrap_or(form.jobs.unwrap_or(1))
    }

    /// The settings: what was given, and else the defaults of the form.
    pub fn settings(self, form: Form) -> Settings
        ensures { result ≡ specs.settings_of form self }
    {
        let default = form.hands.unwrap_or(1);
        Settings {
            limit: self.limit(),
            hands: Hands {
                teams: self.teams.unwrap_or(default),
                workers: self.workers.unwrap_or(default),
            },
            stats: self.stats,
        }
    }
}
