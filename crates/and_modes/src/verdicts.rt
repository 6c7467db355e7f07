//! What is told of a program's arithmetic goals.

use and_model::ClauseNo;

/// Whether an arithmetic goal of a program may wait for a variable, so far as an assignment tells.
#[derive(Clone, Copy, PartialEq, Eq, Debug)]
pub enum Verdict {
    /// None may.
    Safe,
    /// One may. Told is the first variable of the text for which one does: its clause (or the query),
    /// the number of the item there, from 0 on, and the variable's number in the clause.
    Waits {
        clause: ClauseNo,
        item: u32,
        variable: u8,
    },
}
