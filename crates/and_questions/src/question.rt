//! What the bytes of a source are asked for.

ghost use Rattle.std.specs.Prelude.{◌≡◌};
ghost use Rattle.and_questions.specs.Replied.{most_of};

use and_model::limits::MAX_BYTES;
use and_reports::Show;

/// The most bytes of a document: a program's text with the proof of an answer.
pub const MAX_DOCUMENT: usize = 16_777_216;

/// What the text of a program is asked for.
#[derive(Clone, Copy)]
pub enum Question {
    /// Its answers.
    Run {
        /// What is written of them.
        show: Show,
        /// The most that a proof may weigh.
        limit: u32,
    },
    /// Whether some of its arithmetic may wait forever.
    Check,
    /// Why one of its answers is one.
    Explain {
        /// The place of the answer, from 1 on.
        place: u32,
        /// The most that a proof may weigh.
        limit: u32,
    },
    /// Its fork tree.
    Tree {
        /// The most that a proof may weigh.
        limit: u32,
    },
    /// What in it is likely not meant.
    Lint,
    /// Its first answers.
    First {
        /// How many.
        count: u32,
        /// The most that a proof may weigh.
        limit: u32,
    },
}

/// What the bytes of a source are, and what they are asked for.
#[derive(Clone, Copy)]
pub enum Request {
    /// They are the text of a program, of which this is asked.
    Text(Question),
    /// They are the text of a program with the proof of an answer, which is checked.
    Document,
    /// They are a text of several queries, each of which is answered.
    Batch {
        /// How many queries are answered at the same time.
        jobs: u32,
        /// The most that a proof may weigh.
        limit: u32,
    },
}

impl Request {
    /// How many bytes there may be.
    pub fn most(self) -> usize
        ensures { result ≡ most_of self }
    {
        match self {
            Request::Text(_) => MAX_BYTES,
            Request::Document => MAX_DOCUMENT,
            Request::Batch { jobs: _, limit: _ } => MAX_BYTES,
        }
    }
}
