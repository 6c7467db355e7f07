//! Numbers of a tree, and the words of its table.

ghost use Rattle.std.specs.Prelude.{◌≡◌, ◌<◌, ◌≤◌, ◌+◌, ◌*◌, ℕ};
ghost use Rattle.and_histories.specs.PlainTree.{Cell, seen_in, last_serial};
ghost use Rattle.and_tree.specs.Few.{IsCellOf};
ghost use Rattle.and_tree.specs.Kept.{cell_word, word_with, content_word};
ghost use Rattle.and_tree.specs.Replies.{seen_of};

use crate::replies::CellSeen;

/// How many cells each team has.
pub const CELLS_PER_TEAM: u32 = 8;

/// The serial with which a cell is opened for the last time.
pub const LAST_SERIAL: u64 = 281_474_976_710_655;

/// A word has the cell's serial above its lowest 16 bits. They say what the cell holds: this where it
/// is free,
pub(crate) const FREE: u64 = 0;

/// this where it is open,
pub(crate) const OPEN: u64 = 1;

/// and this and the team's number where a team is taking the branch out.
pub(crate) const FIRST_TAKING: u64 = 2;

/// The word of a cell with this serial and content.
pub(crate) fn word_of(serial: u64, content: u64) -> u64
    requires { (serial ≤ last_serial) × (content < 65536) }
    ensures { result ≡ word_with serial content }
{
    serial * 65_536 + content
}

/// The serial in a word.
pub(crate) fn serial_in(word: u64) -> u64
    ensures serial { (c : Cell) (teams : ℕ) → teams ≤ 16 → IsCellOf teams c → word ≡ cell_word c → result ≡ c.serial }
    ensures fits { result ≤ last_serial }
{
    word / 65_536
}

/// What the cell with this word holds.
pub(crate) fn content_in(word: u64) -> u64
    ensures content { (c : Cell) (teams : ℕ) → teams ≤ 16 → IsCellOf teams c → word ≡ cell_word c
        → result ≡ content_word c.content }
    ensures fits { result < 65536 }
{
    word % 65_536
}

/// What a look at a cell with this word tells.
pub(crate) fn seen_in_word(word: u64) -> CellSeen
    ensures { (c : Cell) (teams : ℕ) → teams ≤ 16 → IsCellOf teams c → word ≡ cell_word c → seen_of result ≡ seen_in c }
{
    let serial = serial_in(word);
    let content = content_in(word);
    if content == FREE {
        CellSeen::Free
    } else if content == OPEN {
        CellSeen::Open { serial }
    } else {
        CellSeen::Taking {
            team: (content - FIRST_TAKING) as u32,
            serial,
        }
    }
}
