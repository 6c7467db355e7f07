//! An entry whose code is kept as what it has behind another one.

ghost use Rattle.std.specs.Prelude.{◌≡◌, ◌+◌, ◌<◌, ◌≤◌, ◌^◌, length};

use crate::found::Entry;
use and_model::Code;

/// An entry whose code stands behind another one.
#[derive(Drop)]
pub(crate) struct Tail {
    pub entry: Entry,
    /// How many clauses its code has from the other one.
    pub common: usize,
    /// Where in `rest` its clauses behind these begin.
    pub from: usize,
    pub rest: Code,
    ghost inside: { from ≤ length rest },
    ghost short: { length rest < 2 ^ 64 },
    ghost fits: { common + length rest < 2 ^ 64 + from },
}

impl Tail {
    /// The same behind a code that has so many more clauses of it. Takes no memory.
    pub fn later(self, count: usize) -> Tail
        requires { self.from + count ≤ length self.rest }
        ensures entry { result.entry ≡ self.entry }
        ensures common { result.common ≡ self.common + count }
        ensures from { result.from ≡ self.from + count }
        ensures rest { result.rest ≡ self.rest }
    {
        let Tail {
            entry,
            common,
            from,
            rest,
        } = self;
        Tail {
            entry,
            common: common + count,
            from: from + count,
            rest,
        }
    }
}
