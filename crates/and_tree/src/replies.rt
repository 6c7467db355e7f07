//! What the calls of a tree answer.

/// What a look at a cell finds.
#[derive(Clone, Copy, PartialEq, Eq, Debug)]
pub enum CellSeen {
    /// Its owner may publish there.
    Free,
    /// A branch lies there for any team to claim, with this serial.
    Open { serial: u64 },
    /// A team is taking the branch out.
    Taking { team: u32, serial: u64 },
}

/// What became of the wish to publish a branch.
#[derive(Drop)]
pub enum Published<B> {
    /// It lies open in the cell.
    Done,
    /// The cell was not free. The branch is handed back.
    NotFree { branch: B, seen: CellSeen },
    /// The cell was opened as often as it may be. The branch is handed back.
    Spent { branch: B },
}

/// What became of the wish to claim a branch.
#[derive(Drop)]
pub enum Claimed<B> {
    /// The branch, whose key is in the claimer's hand now.
    Taken(B),
    /// The cell was not open with that serial, but this was there.
    Moved(CellSeen),
}

/// Whether a key was the last one of its tree.
#[derive(Clone, Copy, PartialEq, Eq, Debug)]
pub enum Last {
    /// No key is in a hand or open any more.
    Yes,
    /// Some are left.
    No,
}
