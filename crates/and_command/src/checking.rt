//! Which words may stand behind the name of a command: that they are allowed, and not what they give.

ghost use Rattle.std.specs.Prelude.{◌≡◌, map, Some, None, MatchOption, string_bytes};
ghost use Rattle.and_command.specs.Checking as specs;

use crate::forms::{Form, Kind, kind_named};
use crate::options::{Name, value_of};

/// What words have given so far, each at most once.
#[derive(Clone, Copy)]
pub struct Seen {
    /// A value of `--limit`.
    pub limit: bool,
    /// A value of `--jobs`.
    pub jobs: bool,
    /// A value of `--teams`.
    pub teams: bool,
    /// A value of `--workers`.
    pub workers: bool,
    /// The number of the command.
    pub number: bool,
    /// The flag `--stats`.
    pub stats: bool,
}

/// How far a check has come.
#[derive(Clone, Copy)]
pub struct Checked {
    /// What was seen so far.
    pub seen: Seen,
    /// The option whose value is the next word.
    pub owed: Option<Name>,
}

impl Seen {
    /// Nothing.
    fn nothing() -> Seen
        ensures { result ≡ specs.nothing_seen }
    {
        Seen {
            limit: false,
            jobs: false,
            teams: false,
            workers: false,
            number: false,
            stats: false,
        }
    }

    /// Whether an option is among these.
    fn has(self, name: Name) -> bool
        ensures { result ≡ specs.has name self }
    {
        match name {
            Name::Limit => self.limit,
            Name::Jobs => self.jobs,
            Name::Teams => self.teams,
            Name::Workers => self.workers,
        }
    }

    /// These, and an option.
    fn with(self, name: Name) -> Seen
        ensures { result ≡ specs.with name self }
    {
        match name {
            Name::Limit => Seen {
                limit: true,
                ..self
            },
            Name::Jobs => Seen { jobs: true, ..self },
            Name::Teams => Seen {
                teams: true,
                ..self
            },
            Name::Workers => Seen {
                workers: true,
                ..self
            },
        }
    }

    /// These, and an option that is not among them, where the word is a value of it.
    fn see_value(self, name: Name, word: &str) -> Option<Seen>
        ensures { result ≡ specs.see_value name word.now self }
    {
        let _value = value_of(name, word)?;
        if self.has(name) {
            return None;
        }
        Some(self.with(name))
    }

    /// These, and a number, where none is among them.
    fn see_number(self) -> Option<Seen>
        ensures { result ≡ specs.see_number self }
    {
        if self.number {
            return None;
        }
        Some(Seen {
            number: true,
            ..self
        })
    }

    /// These, and the flag, where it is not among them.
    fn see_flag(self) -> Option<Seen>
        ensures { result ≡ specs.see_flag self }
    {
        if self.stats {
            return None;
        }
        Some(Seen {
            stats: true,
            ..self
        })
    }
}

/// With an option's value, or with what is no option.
fn closed(seen: Seen) -> Checked
    ensures { result ≡ specs.closed seen }
{
    Checked { seen, owed: None }
}

/// What stands before the first `=` of a word, and what stands behind it.
fn cut(word: &str) -> Option<(&str, &str)>
    ensures { MatchOption result (specs.cut word.now ≡ None)
        (λ parts. specs.cut word.now ≡ Some (parts.0.now, parts.1.now)) }
{
    word.split_once('=')
}

/// Checks a word that is neither a value nor the name of an option: an option with its value.
fn next_joined(form: Form, seen: Seen, word: &str) -> Option<Checked>
    ensures { result ≡ specs.next_joined form seen word.now }
{
    let (name, value) = cut(word)?;
    let name = form.option_of(name)?;
    let seen = seen.see_value(name, value)?;
    Some(closed(seen))
}

/// Checks a word that is no value.
fn next_fresh(form: Form, seen: Seen, word: &str) -> Option<Checked>
    ensures { result ≡ specs.next_fresh form seen word.now }
{
    if let Some(_number) = form.number_of(word) {
        let seen = seen.see_number()?;
        return Some(closed(seen));
    }
    if form.is_flag(word) {
        let seen = seen.see_flag()?;
        return Some(closed(seen));
    }
    if let Some(name) = form.option_of(word) {
        return Some(Checked {
            seen,
            owed: Some(name),
        });
    }
    next_joined(form, seen, word)
}

/// Checks the next word.
fn next(form: Form, checked: Checked, word: &str) -> Option<Checked>
    ensures { result ≡ specs.next form checked word.now }
{
    let Checked { seen, owed } = checked;
    match owed {
        Some(name) => {
            let seen = seen.see_value(name, word)?;
            Some(closed(seen))
        }
        None => next_fresh(form, seen, word),
    }
}

/// Checks words to the end.
fn check(form: Form, words: &[String]) -> Option<Seen>
    ensures { result ≡ specs.check form (map string_bytes words.now) }
{
    let mut checked = closed(Seen::nothing());
    'checking: for word in words {
        checked = next(form, checked, word)?;
    }
    match checked.owed {
        None => Some(checked.seen),
        Some(_) => None,
    }
}

/// Whether the words may stand behind the name of a command of this form.
fn may_follow(form: Form, words: &[String]) -> bool
    ensures { result ≡ specs.may_follow form (map string_bytes words.now) }
{
    match check(form, words) {
        Some(seen) => seen.number || form.number.is_none(),
        None => false,
    }
}

/// Which command has these words.
pub fn kind_of(words: &[String]) -> Option<Kind>
    ensures { result ≡ specs.kind_of (map string_bytes words.now) }
{
    match words {
        [first, rest @ ..] => {
            let kind = kind_named(first)?;
            if may_follow(kind.form(), rest) {
                Some(kind)
            } else {
                None
            }
        }
        [] => None,
    }
}
