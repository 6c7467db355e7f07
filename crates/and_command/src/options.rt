//! The options, and the values that words give them.

ghost use Rattle.std.specs.Prelude.{◌≡◌, ◌≤◌, ◌<◌, ◌^◌};
ghost use Rattle.std.specs.List.{list_all};
ghost use Rattle.std.specs.Char.{is_ascii_digit};
ghost use Rattle.and_command.specs.Options as specs;

/// An option that has a value.
#[derive(Clone, Copy)]
pub enum Name {
    /// The most that a proof may weigh.
    Limit,
    /// How many queries are explored at once.
    Jobs,
    /// How many teams explore.
    Teams,
    /// How many workers a team has.
    Workers,
}

impl Name {
    /// The largest value.
    pub fn most(self) -> u32
        ensures { result ≡ specs.most_of self }
    {
        match self {
            Name::Limit => 4_194_304,
            Name::Jobs => 8,
            Name::Teams => 16,
            Name::Workers => 8,
        }
    }
}

/// The option that a word names.
pub fn name_of(word: &str) -> Option<Name>
    ensures { result ≡ specs.name_of word.now }
{
    if word == "--limit" {
        Some(Name::Limit)
    } else if word == "--jobs" {
        Some(Name::Jobs)
    } else if word == "--teams" {
        Some(Name::Teams)
    } else if word == "--workers" {
        Some(Name::Workers)
    } else {
        None
    }
}

/// Whether a word is the flag `--stats`.
pub fn is_stats(word: &str) -> bool
    ensures { result ≡ specs.is_stats word.now }
{
    word == "--stats"
}

/// Whether all bytes are digits.
fn are_digits(bytes: &[u8]) -> bool
    ensures { result ≡ list_all is_ascii_digit bytes.now }
{
    bytes.iter().all(|byte| byte.is_ascii_digit())
}

/// The number that a word writes by digits alone, at most so many, where it is in the range.
pub fn number_in(word: &str, longest: usize, least: u32, most: u32) -> Option<u32>
    ensures { result ≡ specs.number_in longest least most word.now }
{
    if longest < word.len() || !are_digits(word.as_bytes()) {
        return None;
    }
    match word.parse() {
        Ok(number) if least <= number && number <= most => Some(number),
        _ => None,
    }
}

/// The value that a word gives an option.
pub fn value_of(name: Name, word: &str) -> Option<u32>
    ensures { result ≡ specs.value_of name word.now }
{
    number_in(word, 7, 1, name.most())
}
