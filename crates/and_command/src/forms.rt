//! The forms of the commands: which words each may have.

ghost use Rattle.std.specs.Prelude.{◌≡◌, Some, true};
ghost use Rattle.and_command.specs.Forms as specs;
ghost use Rattle.and_command.specs.declared.forms.TheConstants.{USAGE};

use crate::options::{Name, is_stats, name_of, number_in};

/// What a command does.
#[derive(Clone, Copy)]
pub enum Kind {
    /// It answers a text.
    Run,
    /// It tells of a text whether some arithmetic may wait forever.
    Check,
    /// It answers a text that is generated.
    Demo,
    /// It tells why an answer of a text is one.
    Explain,
    /// It checks what was told of an answer.
    Verify,
    /// It tells the choices of a text.
    Tree,
    /// It answers each query of a text.
    Batch,
    /// It answers a text as far as the first answers.
    First,
    /// It tells what in a text is likely not meant.
    Lint,
}

/// A number that a command has.
#[derive(Clone, Copy)]
pub struct Number {
    /// What the usage line calls it.
    pub letter: char,
    /// The most digits that write it.
    pub digits: usize,
    /// The least number.
    pub least: u32,
    /// The greatest number.
    pub most: u32,
}

/// The words that a command may have behind its name.
#[derive(Clone, Copy)]
pub struct Form {
    /// The number that has to be there; `None` where there may be none.
    pub number: Option<Number>,
    /// Whether `--limit` may be there.
    pub limit: bool,
    /// How many jobs there are where none are given; `None` where none may be given.
    pub jobs: Option<u32>,
    /// How many teams, and workers in each, there are where none are given; `None` where none may be given.
    pub hands: Option<u32>,
    /// Whether `--stats` may be there.
    pub stats: bool,
}

/// The commands that are there, in the order of the usage line.
pub const KINDS: [Kind; 9] = [
    Kind::Run,
    Kind::Check,
    Kind::Demo,
    Kind::Explain,
    Kind::Verify,
    Kind::Tree,
    Kind::Batch,
    Kind::First,
    Kind::Lint,
];

/// What is written where the words are no command.
pub const USAGE: &[u8] = b"usage: \
    andorra run [--limit N] [--teams T] [--workers W] [--stats] | \
    andorra check | \
    andorra demo N [--teams T] [--workers W] | \
    andorra explain K [--limit N] [--teams T] [--workers W] | \
    andorra verify | \
    andorra tree [--limit N] | \
    andorra batch [--limit N] [--jobs J] [--teams T] [--workers W] | \
    andorra first K [--limit N] [--teams T] [--workers W] | \
    andorra lint\n";

/// A law: the usage line tells all forms.
pub fn usage_tells_all_forms()
    ensures { USAGE.now ≡ specs.usage }
{}

/// The number of a generated text.
fn demo_number() -> Number
    ensures { result ≡ specs.demo_number }
{
    Number {
        letter: 'N',
        digits: 2,
        least: 0,
        most: 64,
    }
}

/// A number of answers.
fn answer_number() -> Number
    ensures { result ≡ specs.answer_number }
{
    Number {
        letter: 'K',
        digits: 7,
        least: 1,
        most: 1_000_000,
    }
}

impl Kind {
    /// The first word of the command.
    pub fn name(self) -> &'static str
        ensures { result.now ≡ specs.name_of self }
    {
        match self {
            Kind::Run => "run",
            Kind::Check => "check",
            Kind::Demo => "demo",
            Kind::Explain => "explain",
            Kind::Verify => "verify",
            Kind::Tree => "tree",
            Kind::Batch => "batch",
            Kind::First => "first",
            Kind::Lint => "lint",
        }
    }

    /// The words that it may have behind that.
    pub fn form(self) -> Form
        ensures { result ≡ specs.form_of self }
    {
        match self {
            Kind::Run => Form::bare().with_limit().with_hands(2).with_stats(),
            Kind::Check => Form::bare(),
            Kind::Demo => Form::bare().with_number(demo_number()).with_hands(2),
            Kind::Explain => Form::bare()
                .with_number(answer_number())
                .with_limit()
                .with_hands(2),
            Kind::Verify => Form::bare(),
            Kind::Tree => Form::bare().with_limit(),
            Kind::Batch => Form::bare().with_limit().with_jobs(2).with_hands(1),
            Kind::First => Form::bare()
                .with_number(answer_number())
                .with_limit()
                .with_hands(1),
            Kind::Lint => Form::bare(),
        }
    }
}

impl Form {
    /// Nothing may be there.
    fn bare() -> Form
        ensures { result ≡ specs.bare }
    {
        Form {
            number: None,
            limit: false,
            jobs: None,
            hands: None,
            stats: false,
        }
    }

    /// The same, and this number has to be there.
    fn with_number(self, number: Number) -> Form
        ensures { result ≡ record self { number = Some number } }
    {
        Form {
            number: Some(number),
            ..self
        }
    }

    /// The same, and `--limit` may be there.
    fn with_limit(self) -> Form
        ensures { result ≡ record self { limit = true } }
    {
        Form {
            limit: true,
            ..self
        }
    }

    /// The same, and `--jobs` may be there, with so many where none are given.
    fn with_jobs(self, jobs: u32) -> Form
        ensures { result ≡ record self { jobs = Some jobs } }
    {
        Form {
            jobs: Some(jobs),
            ..self
        }
    }

    /// The same, and `--teams` and `--workers` may be there, with so many where none are given.
    fn with_hands(self, hands: u32) -> Form
        ensures { result ≡ record self { hands = Some hands } }
    {
        Form {
            hands: Some(hands),
            ..self
        }
    }

    /// The same, and `--stats` may be there.
    fn with_stats(self) -> Form
        ensures { result ≡ record self { stats = true } }
    {
        Form {
            stats: true,
            ..self
        }
    }

    /// Whether the option may be there.
    fn takes(self, name: Name) -> bool
        ensures { result ≡ specs.takes self name }
    {
        match name {
            Name::Limit => self.limit,
            Name::Jobs => self.jobs.is_some(),
            Name::Teams => self.hands.is_some(),
            Name::Workers => self.hands.is_some(),
        }
    }

    /// The option that a word names, where it may be there.
    pub fn option_of(self, word: &str) -> Option<Name>
        ensures { result ≡ specs.option_of self word.now }
    {
        let name = name_of(word)?;
        if self.takes(name) { Some(name) } else { None }
    }

    /// Whether a word is the flag `--stats`, and that may be there.
    pub fn is_flag(self, word: &str) -> bool
        ensures { result ≡ specs.is_flag self word.now }
    {
        is_stats(word) && self.stats
    }

    /// The number that a word writes, where one may be there.
    pub fn number_of(self, word: &str) -> Option<u32>
        ensures { result ≡ specs.number_of self.number word.now }
    {
        let number = self.number?;
        number_in(word, number.digits, number.least, number.most)
    }
}

/// The command with this name.
pub fn kind_named(word: &str) -> Option<Kind>
    ensures { result ≡ specs.kind_named word.now }
{
    'kinds: for kind in KINDS {
        if kind.name() == word {
            return Some(kind);
        }
    }
    None
}
