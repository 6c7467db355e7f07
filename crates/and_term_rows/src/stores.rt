//! Calls of two passes on a store of nine words, one after another.

ghost use Rattle.std.specs.Prelude.{◌≡◌, ◌<◌};

use crate::passes::{Trial, goal, last_of, name, put_back};
use and_cells::{Cells, PlainCells};
use and_model::Ref;
use and_rows::{Numbers, Untold, line, read_numbers};
use and_store::{Pass, Store};
use std::alloc::Global;

/// What a pass answers of a cell, where `to` names a cell before it, a name or a goal.
fn call_of_cell(
    alloc: Global,
    store: &Store<Trial>,
    pass: &mut Pass,
    name_of_call: &str,
    cell: u32,
    to: u32,
) -> Result<String, Untold>
    requires store { (pass.old.store ≡ store.now) × (store.now.about.words ≡ 9) }
    requires cell { cell < 9 }
    ensures { pass.new.store ≡ store.now }
{
    match name_of_call {
        "bind" if to < cell => line(alloc, &store.bind(pass, cell, Ref::Cell(to))),
        "name" if to < 2 => line(alloc, &store.bind(pass, cell, name(to))),
        "look" => line(alloc, &store.look(pass, cell)),
        "hang" if to < 3 => line(alloc, &store.hang(pass, cell, goal(to))),
        _ => Err(Untold::Malformed),
    }
}

/// Writes a number into a pair of words, and tells what is written and read there then.
fn written(
    alloc: Global,
    store: &Store<Trial>,
    pass: &mut Pass,
    n: Numbers,
) -> Result<String, Untold>
    requires { (pass.old.store ≡ store.now) × (store.now.about.words ≡ 9) }
    ensures { pass.new.store ≡ store.now }
{
    let pair = n.first;
    if pair >= 8 {
        return Err(Untold::Malformed);
    }
    let written = store.write_number(pass, pair, n.last);
    line(alloc, &(written, store.number(pass, pair)))
}

/// What a pass answers.
fn call(
    alloc: Global,
    store: &Store<Trial>,
    pass: &mut Pass,
    name: &str,
    n: Numbers,
) -> Result<String, Untold>
    requires { (pass.old.store ≡ store.now) × (store.now.about.words ≡ 9) }
    ensures { pass.new.store ≡ store.now }
{
    match name {
        "frame" if n.first < 9 => line(alloc, &store.take_frame(pass, n.first)),
        "write" => written(alloc, store, pass, n),
        "woken" => line(alloc, &store.woken(pass)),
        "failed" => line(alloc, &store.failed(pass)),
        "fail" => line(alloc, &store.fail(pass)),
        _ if n.first < 9 => call_of_cell(alloc, store, pass, name, n.first, n.second),
        _ => Err(Untold::Malformed),
    }
}

/// What the call of a line answers, by the pass of the number before it.
fn answer(
    alloc: Global,
    store: &Store<Trial>,
    first: &mut Pass,
    second: &mut Pass,
    words: &str,
) -> Result<String, Untold>
    requires first { (first.old.store ≡ store.now) × (store.now.about.words ≡ 9) }
    requires second { second.old.store ≡ store.now }
    ensures { (first.new.store ≡ store.now) × (second.new.store ≡ store.now) }
{
    let (number, rest) = words.split_once(' ').unwrap_or((words, ""));
    let (name, rest) = rest.split_once(' ').unwrap_or((rest, ""));
    let n = read_numbers(rest)?;
    match number {
        "1" => call(alloc, store, first, name, n),
        "2" => call(alloc, store, second, name, n),
        _ => Err(Untold::Malformed),
    }
}

/// What the calls of two passes answer.
fn answers(
    alloc: Global,
    store: &Store<Trial>,
    first: &mut Pass,
    second: &mut Pass,
    lines: &str,
) -> Result<String, Untold>
    requires first { (first.old.store ≡ store.now) × (store.now.about.words ≡ 9) }
    requires second { second.old.store ≡ store.now }
    ensures { (first.new.store ≡ store.now) × (second.new.store ≡ store.now) }
{
    let mut out = String::new(alloc);
    for words in lines.lines() {
        let told = answer(alloc, store, first, second, words)?;
        out.push_str(&told)?;
    }
    Ok(out)
}

/// What these calls answer; and of the closed store how many words it has, whether it failed, and what waits. It begins
/// with four cells, of which the last is set to the first, and each pass may hang a goal.
pub(crate) fn tell(alloc: Global, lines: &str) -> Result<String, Untold> {
    let mut cells = PlainCells::<Trial>::with(alloc, 4)?;
    cells.bind(3, Ref::Cell(0));
    let (store, mut passes) = Store::open(alloc, &cells, 9, 2, 1)?;
    let mut second = last_of(&store, &mut passes)?;
    let mut first = last_of(&store, &mut passes)?;
    let mut out = answers(alloc, &store, &mut first, &mut second, lines)?;
    put_back(&store, &mut passes, first)?;
    put_back(&store, &mut passes, second)?;
    let Ok(closed) = store.close(passes) else {
        return Err(Untold::Memory);
    };
    let waiting = closed.waiting.as_slice();
    let told = line(alloc, &(closed.cells.len(), closed.failed, waiting))?;
    out.push_str(&told)?;
    Ok(out)
}
