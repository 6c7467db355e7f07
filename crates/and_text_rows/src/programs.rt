//! What programs of texts hold.

ghost use Rattle.std.specs.Prelude.{◌≡◌, ◌<◌, length, IfOk};
ghost use Rattle.and_model.specs.Programs.{own_name};
ghost use Rattle.and_program.specs.Loaded.{skeleton_of};

use and_model::builtins::BUILT_IN;
use and_model::{ClauseNo, NameNo, NodeNo};
use and_program::{Loaded, NodeKind};
use and_reader::read_program;
use and_rows::{Desk, Numbers, Untold, answers, line, read_numbers};
use std::alloc::Global;

/// A program that is asked for its parts.
#[derive(Drop)]
struct Parts {
    loaded: Loaded,
}

/// A small number as one of 8 bits.
fn byte(number: u32) -> u8 {
    u8::try_from(number).unwrap_or(u8::MAX)
}

/// The name at a place among the program's own, which are numbered behind the built-in ones.
fn own_name(place: u8) -> NameNo
    ensures { result.0 ≡ own_name place }
{
    let built_in = BUILT_IN;
    NameNo(built_in.len() as u32 + u32::from(place))
}

/// A clause of this number, or the query, as its line, head, weight, guard, number of variables and items.
fn clause(alloc: Global, loaded: &Loaded, number: u32) -> Result<String, Untold> {
    if number > loaded.clause_count() || number >= 65536 {
        return Err(Untold::Malformed);
    }
    let no = ClauseNo(number as u16);
    let places = (loaded.line(no), loaded.head(no));
    let sizes = (loaded.weight(no), loaded.guard(no), loaded.variables(no));
    line(alloc, &(places, sizes, loaded.items(no)))
}

/// The name of a variable of a clause, or of the query.
fn variable(alloc: Global, loaded: &Loaded, number: u32, place: u8) -> Result<String, Untold> {
    if number > loaded.clause_count() || number >= 65536 {
        return Err(Untold::Malformed);
    }
    let name = String::from_utf8_lossy(
        alloc,
        loaded.variable_name(ClauseNo(number as u16), place),
    )?;
    line(alloc, &name)
}

/// The text of a name.
fn name_text(alloc: Global, loaded: &Loaded, name: NameNo) -> Result<String, Untold> {
    Ok(String::from_utf8_lossy(alloc, loaded.name(name))?)
}

/// The line of a name.
fn name_line(alloc: Global, loaded: &Loaded, name: NameNo) -> Result<String, Untold> {
    line(alloc, &name_text(alloc, loaded, name)?)
}

/// The clauses of a name among the program's own, with so many arguments.
fn clauses_of(alloc: Global, loaded: &Loaded, n: Numbers) -> Result<String, Untold> {
    let name = own_name(byte(n.first));
    line(alloc, &loaded.clauses_of(name, byte(n.second)))
}

/// The node of an argument.
fn argument(loaded: &Loaded, node: NodeNo, place: u8) -> Result<NodeNo, Untold>
    requires { node.0 < length (skeleton_of loaded.now).nodes }
    ensures { IfOk result (λ node. node.0 < length (skeleton_of loaded.now).nodes) }
{
    match loaded.kind(node) {
        NodeKind::Compound { name: _, count } => {
            if place >= count {
                return Err(Untold::Malformed);
            }
            Ok(loaded.argument(node, place))
        }
        NodeKind::Variable(_) => Err(Untold::Malformed),
        NodeKind::Number(_) => Err(Untold::Malformed),
    }
}

/// What a node is, a compound term by its name and its number of arguments, and what the node leads to in a frame at
/// base 10.
fn seen(alloc: Global, loaded: &Loaded, node: NodeNo) -> Result<String, Untold>
    requires { node.0 < length (skeleton_of loaded.now).nodes }
{
    let end = loaded.resolve(node, 10);
    match loaded.kind(node) {
        NodeKind::Compound { name, count } => {
            let name = name_text(alloc, loaded, name)?;
            line(alloc, &(name, count, end))
        }
        kind => line(alloc, &(kind, end)),
    }
}

/// The node of a clause's head, that of an argument of it, and that of an argument of the argument.
fn nodes(alloc: Global, loaded: &Loaded, n: Numbers) -> Result<String, Untold> {
    if n.first > loaded.clause_count() || n.first >= 65536 {
        return Err(Untold::Malformed);
    }
    let head = loaded.head(ClauseNo(n.first as u16));
    let part = argument(loaded, head, byte(n.second))?;
    let end = argument(loaded, part, byte(n.third))?;
    let mut out = seen(alloc, loaded, head)?;
    out.push_str(&seen(alloc, loaded, part)?)?;
    out.push_str(&seen(alloc, loaded, end)?)?;
    Ok(out)
}

impl Desk for Parts {
    fn call(&mut self, alloc: Global, name: &str, words: &str) -> Result<String, Untold> {
        let n = read_numbers(words)?;
        match name {
            "clause" => clause(alloc, &self.loaded, n.first),
            "variable" => variable(alloc, &self.loaded, n.first, byte(n.second)),
            "built-in" => name_line(alloc, &self.loaded, NameNo(n.first)),
            "name" => name_line(alloc, &self.loaded, own_name(byte(n.first))),
            "clauses-of" => clauses_of(alloc, &self.loaded, n),
            "nodes" => nodes(alloc, &self.loaded, n),
            _ => Err(Untold::Malformed),
        }
    }
}

/// What the calls answer of a program whose text stands behind them and an empty line.
pub(crate) fn tell(alloc: Global, lines: &str) -> Result<String, Untold> {
    let (calls, text) = lines.split_once("\n\n").unwrap_or((lines, ""));
    match read_program(alloc, text.as_bytes()) {
        Ok(loaded) => answers(alloc, &mut Parts { loaded }, calls),
        Err(_) => Err(Untold::Malformed),
    }
}
