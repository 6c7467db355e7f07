//! Findings as they are written.

ghost use Rattle.std.specs.Prelude.{◌≡◌, ◌++◌, ◌∷◌, [], IfOk, OnOk, codes};
ghost use Rattle.std.specs.Fmt.{decimal};
ghost use Rattle.and_lint.specs.Findings as specs;
ghost use Rattle.and_lint.specs.Kept.{Adds};

use and_model::Text;
use std::alloc::{AllocError, Global};

/// What is told of a program.
#[derive(Drop, Debug)]
pub struct Findings {
    /// A line for each finding, and last a line that says how many they are.
    pub text: Text,
    /// How many findings there are.
    pub count: usize,
}

impl Findings {
    /// No finding, and nothing written. Takes no memory.
    pub(crate) fn new(alloc: Global) -> Findings
        ensures text { result.text ≡ [] }
        ensures count { result.count ≡ 0 }
    {
        Findings {
            text: Text::new(alloc),
            count: 0,
        }
    }

    /// Adds a line. After an error, which is want of memory, the findings are spent.
    pub(crate) fn add(&mut self, line: &Text) -> Result<(), AllocError>
        ensures { OnOk result (Adds self.old self.new (line.now ∷ [])) }
    {
        if self.count == usize::MAX {
            return Err(AllocError);
        }
        self.text.append(line.bytes())?;
        self.text.append(b"\n")?;
        self.count += 1;
        Ok(())
    }

    /// Writes how many findings there are. After an error, which is want of memory, they are spent.
    pub(crate) fn write_count(&mut self, alloc: Global) -> Result<(), AllocError>
        ensures text { OnOk result (self.new.text ≡ self.old.text ++ decimal self.old.count ++ codes " findings\n") }
        ensures count { OnOk result (self.new.count ≡ self.old.count) }
    {
        let count = self.count;
        let line = format!(in alloc; "{count} findings\n")?;
        self.text.append(line.as_bytes())
    }
}

/// How a line about a clause begins. An error is want of memory.
pub(crate) fn front(alloc: Global, line: u32) -> Result<Text, AllocError>
    ensures { IfOk result (λ text. text ≡ specs.front line) }
{
    let front = format!(in alloc; "line {line}: ")?;
    Text::of(alloc, front.as_bytes())
}
