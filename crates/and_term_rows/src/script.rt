//! Calls over one row of cells, by name.

ghost use Rattle.std.specs.Prelude.{◌≡◌};
ghost use Rattle.and_cells.specs.Parts.{named};

use crate::{cells, terms};
use and_arith::WorkList;
use and_cells::{Naming, PlainCells};
use and_circles::Explorer;
use and_program::Loaded;
use and_reader::read_program;
use and_rows::{Numbers, Untold, read_numbers};
use std::alloc::Global;
use std::marker::Brand;

/// What calls work on.
#[derive(Drop)]
struct Tools<N: Naming> {
    cells: PlainCells<N>,
    work: WorkList,
    explorer: Explorer,
}

/// What a call on the words of the row answers.
fn call_of_words<N: Naming>(
    alloc: Global,
    cells: &mut PlainCells<N>,
    name: &str,
    n: Numbers,
) -> Result<String, Untold> {
    match name {
        "row" => cells::row(alloc, cells, n.first),
        "grow" => cells::grow(alloc, cells, n.first),
        "bind" => cells::bind(alloc, cells, n.first, n.second),
        "look" => cells::look(alloc, cells, n.first),
        "write" => cells::write(alloc, cells, n),
        "copy" => cells::copy(alloc, cells),
        "chain" => cells::chain(alloc, cells),
        _ => Err(Untold::Malformed),
    }
}

/// What a call answers.
fn call<N: Naming>(
    alloc: Global,
    loaded: &Loaded,
    tools: &mut Tools<N>,
    name: &str,
    n: Numbers,
) -> Result<String, Untold>
    requires { N.program ≡ named loaded.now }
{
    match name {
        "side" => cells::side(alloc, loaded, &mut tools.cells, n),
        "value" => terms::value_by(alloc, loaded, &mut tools.cells, &mut tools.work, n),
        "value-of" => terms::settled(alloc, loaded, &mut tools.cells, &mut tools.work, n.first),
        "cycle" => terms::circle(alloc, loaded, &tools.cells),
        "explore" => terms::explored(alloc, loaded, &tools.cells, &mut tools.explorer, n),
        "unify" => terms::unified::<N>(alloc, loaded, n),
        _ => call_of_words(alloc, &mut tools.cells, name, n),
    }
}

/// What the call of a line answers.
fn answer<N: Naming>(
    alloc: Global,
    loaded: &Loaded,
    tools: &mut Tools<N>,
    line: &str,
) -> Result<String, Untold>
    requires { N.program ≡ named loaded.now }
{
    let (name, words) = line.split_once(' ').unwrap_or((line, ""));
    let n = read_numbers(words)?;
    call(alloc, loaded, tools, name, n)
}

/// What the calls of these lines answer, over a row of 300 free cells.
fn told<N: Naming>(alloc: Global, loaded: &Loaded, lines: &String) -> Result<String, Untold>
    requires { N.program ≡ named loaded.now }
{
    let mut tools = Tools::<N> {
        cells: PlainCells::with(alloc, 300)?,
        work: WorkList::new(alloc),
        explorer: Explorer::new(alloc, 0, true),
    };
    let mut out = String::new(alloc);
    for line in lines.lines() {
        let told = answer(alloc, loaded, &mut tools, line)?;
        out.push_str(&told)?;
    }
    Ok(out)
}

/// The program of a text that is one.
pub(crate) fn program(alloc: Global, text: &str) -> Result<Loaded, Untold> {
    match read_program(alloc, text.as_bytes()) {
        Ok(loaded) => Ok(loaded),
        Err(_) => Err(Untold::Malformed),
    }
}

/// What the calls answer whose lines stand behind that of a program.
pub(crate) fn tell(alloc: Global, lines: &str) -> Result<String, Untold> {
    let (text, calls) = lines.split_once('\n').unwrap_or((lines, ""));
    let loaded = program(alloc, text)?;
    let calls = String::from_str(alloc, calls)?;
    told::<Brand>(alloc, &loaded, &calls)
}
