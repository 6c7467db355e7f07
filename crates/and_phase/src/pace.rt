//! Which phases a team tries workers in, and how much room they have.

ghost use Rattle.std.specs.Prelude.{◌≡◌, ◌<◌, ◌≤◌, ◌+◌, ◌*◌, true, false};
ghost use Rattle.and_model.specs.declared.limits.TheConstants.{MAX_LIMIT};

use and_model::limits::MAX_LIMIT;

/// How many phases are left to the leader in a row after the first try, and how many times as many after each further
/// one.
const REST: u32 = 8;

/// How many are at most.
const LONGEST_REST: u32 = 4096;

/// How many words the first store has for new frames.
const FIRST_ROOM: u32 = 1024;

/// Which phases of a team its workers are tried in: the first, and then ever more rarely, since they cost more than
/// they save today. And how much room the next one's store has for new frames: it grows with the work that is found.
pub struct Pace {
    /// How many phases are still left to the leader.
    rest: u32,
    /// How many will be after the next one.
    next: u32,
    /// How many words the next store has for new frames.
    room: u32,
}

// By hand, so that it is proved once, here.
impl Drop for Pace {
    fn drop(self) {
        let Pace {
            rest: _,
            next: _,
            room: _,
        } = self;
    }
}

impl Pace {
    /// No phase was tried yet.
    pub fn new() -> Pace
        ensures { result ≡ record { rest = 0; next = 8; room = 1024 } }
    {
        Pace {
            rest: 0,
            next: REST,
            room: FIRST_ROOM,
        }
    }

    /// Whether the next phase is left to the leader. It counts as one of those that are.
    pub fn rests(&mut self) -> bool
        ensures rests { result ≡ true → self.old ≡ record self.new { rest = self.new.rest + 1 } }
        ensures tries { result ≡ false → (self.old.rest ≡ 0) × (self.new ≡ self.old) }
    {
        if self.rest == 0 {
            return false;
        }
        self.rest -= 1;
        true
    }

    /// Notes that workers are tried: the next phases are left to the leader, more than the last time.
    pub(crate) fn note_try(&mut self)
        ensures rest { (self.new.rest ≡ self.old.next) × (self.new.room ≡ self.old.room) }
        ensures longer { 8 * self.old.next ≤ 4096 → self.new.next ≡ 8 * self.old.next }
        ensures longest { 4096 ≤ 8 * self.old.next → self.new.next ≡ 4096 }
    {
        self.rest = self.next;
        self.next = at_most(LONGEST_REST, self.next.saturating_mul(REST));
    }

    /// How many words the next store has for new frames.
    pub(crate) fn room(&self) -> u32
        ensures { result ≡ self.now.room }
    {
        self.room
    }

    /// Notes that new frames filled so many words of a store. Where that is more than half of its room, the next one
    /// has twice as much.
    pub(crate) fn note_filled(&mut self, words: u32)
        ensures rests { self.new ≡ record self.old { room = self.new.room } }
        ensures same { 2 * words ≤ self.old.room → self.new.room ≡ self.old.room }
        ensures twice { self.old.room < 2 * words → 2 * self.old.room ≤ MAX_LIMIT → self.new.room ≡ 2 * self.old.room }
        ensures all { self.old.room < 2 * words → MAX_LIMIT ≤ 2 * self.old.room → self.new.room ≡ MAX_LIMIT }
    {
        if words > self.room / 2 {
            self.room = at_most(MAX_LIMIT, self.room.saturating_mul(2));
        }
    }
}

/// How many words a store has that opens with so many, and has so many more for new frames where the limit allows them.
pub(crate) fn words_of(opening: u32, room: u32, limit: u32) -> u32
    requires { opening ≤ limit }
    ensures opening { opening ≤ result }
    ensures limit { result ≤ limit }
    ensures room { opening + room ≤ limit → result ≡ opening + room }
    ensures rest { limit ≤ opening + room → result ≡ limit }
{
    if limit - opening <= room {
        limit
    } else {
        opening + room
    }
}

/// The smaller of two numbers.
fn at_most(most: u32, number: u32) -> u32
    ensures number { number ≤ most → result ≡ number }
    ensures most { most ≤ number → result ≡ most }
{
    if number < most { number } else { most }
}
