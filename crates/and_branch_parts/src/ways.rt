//! The ways in which a round goes over the goals of a branch.

ghost use Rattle.std.specs.Prelude.{◌≡◌, ◌<◌, ◌≤◌, true};
ghost use Rattle.and_branch_parts.specs.declared.rounds.Round.{Round};
ghost use Rattle.and_branch_parts.specs.declared.ways.Way.{Way};

use crate::rounds::Round;

/// Which way a round goes over the goals.
#[derive(Clone, Copy)]
pub enum Way {
    /// From the first to the last, so that goals come to what others before them set.
    Onward,
    /// From the last to the first, so that goals come to what others behind them set.
    Back,
}

/// How many reductions a round has: so many for each goal that stood at its beginning, with all that comes of it.
#[derive(Clone, Copy)]
pub struct Share {
    /// How many each goal has.
    pub most: u32,
    /// How many are left for the goal whose turn it is.
    pub left: u32,
    /// How many goals there were from this one on when its turn began.
    pub ahead: usize,
}

impl Share {
    /// No goal has had its turn yet.
    pub fn of(most: u32) -> Share
        ensures most { result.most ≡ most }
        ensures left { result.left ≡ most }
    {
        Share {
            most,
            left: most,
            ahead: usize::MAX,
        }
    }

    /// The same where there are so many goals from the place of work on. With fewer than there were it is past all
    /// that came of the goal whose turn it was, and the next one's turn begins.
    pub fn at(self, ahead: usize) -> Share
        ensures next { ahead < self.ahead → result ≡ record { most = self.most; left = self.most; ahead = ahead } }
        ensures same { self.ahead ≤ ahead → result ≡ self }
    {
        if ahead < self.ahead {
            Share {
                most: self.most,
                left: self.most,
                ahead,
            }
        } else {
            self
        }
    }
}

/// Whether a round that came to this on its way goes back then: it changed something, and has not come to rest.
pub fn turns_back(way: Way, round: Round) -> bool
    ensures { result ≡ true → (way ≡ Way.Onward) × (round ≡ Round.Changed) }
{
    match (way, round) {
        (Way::Onward, Round::Changed) => true,
        _ => false,
    }
}
