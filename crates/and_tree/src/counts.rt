//! How many forks were made and keys ended.

ghost use Rattle.std.specs.Prelude.{◌≡◌};
ghost use Rattle.and_tree.specs.Plain.{none_yet, one_more, ended_so, added};
ghost use Rattle.and_tree.specs.Counted.{tally, ending_of};

/// How many forks were made, and how many keys ended in each way. Each number stays at its last value.
#[derive(Clone, Copy, PartialEq, Eq, Debug)]
pub struct Counts {
    /// How many forks were made.
    pub forks: u64,
    /// How many keys ended with an answer.
    pub answers: u64,
    /// How many keys ended with a branch that failed or outgrew the limit.
    pub retired: u64,
    /// How many keys ended for want of memory.
    pub given_up: u64,
}

/// How a key ends.
#[derive(Clone, Copy, PartialEq, Eq, Debug)]
pub(crate) enum Ended {
    Answered,
    Retired,
    GivenUp,
}

impl Counts {
    /// Nothing was counted yet.
    pub(crate) fn new() -> Counts
        ensures { tally result ≡ none_yet }
    {
        Counts {
            forks: 0,
            answers: 0,
            retired: 0,
            given_up: 0,
        }
    }

    /// One fork more.
    pub(crate) fn count_fork(&mut self)
        ensures { tally self.new ≡ record (tally self.old) { forks = one_more (tally self.old).forks } }
    {
        self.forks = self.forks.saturating_add(1);
    }

    /// One key more that ended so.
    pub(crate) fn count_end(&mut self, how: Ended)
        ensures { tally self.new ≡ ended_so (ending_of how) (tally self.old) }
    {
        match how {
            Ended::Answered => self.answers = self.answers.saturating_add(1),
            Ended::Retired => self.retired = self.retired.saturating_add(1),
            Ended::GivenUp => self.given_up = self.given_up.saturating_add(1),
        }
    }

    /// Those of both.
    pub(crate) fn add(&mut self, other: &Counts)
        ensures { tally self.new ≡ added (tally self.old) (tally other.now) }
    {
        self.forks = self.forks.saturating_add(other.forks);
        self.answers = self.answers.saturating_add(other.answers);
        self.retired = self.retired.saturating_add(other.retired);
        self.given_up = self.given_up.saturating_add(other.given_up);
    }
}
