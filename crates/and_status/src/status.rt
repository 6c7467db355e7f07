//! How a run ended.

/// How a run ended. Its number is the exit status.
#[derive(Clone, Copy, Debug, PartialEq, Eq)]
pub enum Status {
    /// The search was complete; there are answers, and all are written. Of a check: no arithmetic waits. Of a
    /// document: it proves an answer.
    Answers = 0,
    /// The search was complete, and there is no answer. Of a check: some arithmetic may wait, and a
    /// variable for which it does is told. Of a document: it proves none.
    NoAnswer = 1,
    /// The words are not those of a command; how to use the program is written.
    Usage = 2,
    /// The text is not in the language, and this is written.
    Refused = 3,
    /// The source failed; nothing is written.
    ReadFault = 4,
    /// The sink failed; it was given a part of what was due, and not all.
    WriteFault = 5,
    /// The answers within the limit are written; a branch outgrew it.
    Limit = 6,
    /// Want of memory; nothing is written.
    Memory = 7,
    /// The search was complete; a line that is written is no answer, since some of its arithmetic
    /// waits forever.
    Floundered = 8,
}
