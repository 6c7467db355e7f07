//! The line of an answer.

ghost use Rattle.std.specs.Prelude.{◌≡◌, cond, codes, length, All, IfOk};
ghost use Rattle.and_model.specs.Lines.{line, begins_underscore};
ghost use Rattle.and_cells.specs.Ranges.{IsGoalInRange};
ghost use Rattle.and_cells.specs.Parts.{named};
ghost use Rattle.and_print.specs.Given.{Given};

use crate::printer::Printer;
use crate::variables::VariableNames;
use and_cells::{Naming, PlainCells};
use and_model::{ClauseNo, GoalList, Text};
use and_program::Loaded;
use std::alloc::{AllocError, Global};

/// The number of the query among the clauses.
pub(crate) const QUERY: ClauseNo = ClauseNo(0);

pub(crate) fn begins_underscore(name: &[u8]) -> bool
    ensures { result ≡ begins_underscore name.now }
{
    matches!(name, [b'_', ..])
}

/// What stands before an item of a line: `first` before the first, and else a comma.
pub(crate) fn separator(is_first: bool, first: &[u8]) -> &[u8]
    ensures { result.now ≡ cond is_first first.now (codes ", ") }
{
    if is_first { first } else { b", " }
}

/// The line of an answer: the query's variables with their terms, and the goals of arithmetic that
/// wait, variables without a value named along the line. The query's frame is at base 0. An error is
/// want of memory.
pub fn show_line<N: Naming>(
    alloc: Global,
    loaded: &Loaded,
    cells: &PlainCells<N>,
    waiting: &GoalList,
) -> Result<Text, AllocError>
    requires program { N.program ≡ named loaded.now }
    requires in_range { All (IsGoalInRange N.program (length cells.now)) waiting.now }
    requires given { Given N.program cells.now waiting.now }
    ensures { (g : Given N.program cells.now waiting.now)
        → IfOk result (λ t. t ≡ line N.program.program g.terms g.waits) }
{
    let printer = Printer { loaded, cells };
    let mut names = VariableNames::new(alloc);
    let mut out = Text::new(alloc);
    printer.write_values(alloc, &mut names, &mut out)?;
    printer.write_waiting(alloc, &mut names, &mut out, waiting)?;
    Ok(out)
}
