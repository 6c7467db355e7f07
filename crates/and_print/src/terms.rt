//! Terms as they are written.

ghost use Rattle.std.specs.Prelude.{◌≡◌, ◌++◌, length, OnOk};
ghost use Rattle.and_model.specs.Terms.{Term, variables_of};
ghost use Rattle.and_model.specs.Lines.{first_seen, shown};
ghost use Rattle.and_cells.specs.Ranges.{IsInRange};
ghost use Rattle.and_cells.specs.Meaning.{StandsFor};
ghost use Rattle.and_cells.specs.Parts.{named};
ghost use Rattle.and_cells.specs.Solved.{HasTerm};

use crate::printer::Printer;
use crate::variables::VariableNames;
use and_cells::{Naming, PlainCells};
use and_model::{Ref, Text};
use and_program::Loaded;
use std::alloc::{AllocError, Global};

/// Puts the term that a reference stands for at the end of the text, as it is written. Variables that
/// have no name yet are named by first occurrence. After an error, which is want of memory, the text
/// and the names are spent.
pub fn show_term<N: Naming>(
    alloc: Global,
    loaded: &Loaded,
    cells: &PlainCells<N>,
    term: Ref,
    names: &mut VariableNames,
    out: &mut Text,
) -> Result<(), AllocError>
    requires program { N.program ≡ named loaded.now }
    requires in_range { IsInRange N.program (length cells.now) term }
    requires stands { HasTerm N.program cells.now term }
    ensures { (t : Term) → StandsFor N.program cells.now term t → OnOk result
        ((names.new ≡ first_seen names.old (variables_of t))
        × (out.new ≡ out.old ++ shown N.program.program.names names.new t)) }
{
    let printer = Printer { loaded, cells };
    printer.write_term(alloc, names, out, term)
}
