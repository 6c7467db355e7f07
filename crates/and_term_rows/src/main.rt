//! Rows of what runs and of terms: codes, lists and references, switches, modes, cells, trials over cells, values of
//! expressions, circles, unification, and stores, of which two threads set the words.
#![tactic(auto)]

mod cells;
mod frames;
mod late;
mod modes;
mod passes;
mod plain;
mod races;
mod references;
mod script;
mod stores;
mod switches;
mod terms;
mod trials;

use and_rows::{Block, Untold, tell_all};
use std::alloc::{AllocError, Global};
use std::io;
use std::thread::Threads;

/// What is told of rows of cells.
fn tell_of_cells(alloc: Global, kind: &str, lines: &str) -> Result<String, Untold> {
    match kind {
        "script" => script::tell(alloc, lines),
        "row-taken-back" => plain::taken_back(alloc),
        "row-taken-over" => plain::taken_over(alloc),
        "trial-kept-apart" => trials::kept_apart(alloc),
        "trials-again" => trials::again(alloc),
        "store" => stores::tell(alloc, lines),
        _ => Err(Untold::Malformed),
    }
}

/// What is told of lists and tables.
fn tell_of_lists(alloc: Global, kind: &str, lines: &str) -> Result<String, Untold> {
    match kind {
        "order" => references::order(alloc, lines),
        "list" => references::list(alloc, lines),
        "pairs" => references::pairs(alloc),
        "text" => references::text(alloc),
        "word" => references::word(alloc, lines),
        "switch" => switches::of_four(alloc, lines),
        "table" => switches::of_table(alloc, lines),
        "modes" => modes::tell(alloc, lines),
        _ => tell_of_cells(alloc, kind, lines),
    }
}

/// What is told of a block, by its kind.
fn tell<R: Threads + Sync>(rt: &R, alloc: Global, block: &Block) -> Result<String, Untold> {
    match block.kind.as_str() {
        "store-race" => races::store_race(rt, alloc),
        kind => tell_of_lists(alloc, kind, block.lines.as_str()),
    }
}

/// What is told of all blocks of a text. An error is want of memory.
fn told<R: Threads + Sync>(rt: &R, alloc: Global, text: &str) -> Result<String, AllocError> {
    let of_block = |block: &Block| tell(rt, alloc, block);
    tell_all(alloc, &of_block, text)
}

fn main(rt: HostRuntime) -> io::Result<()> {
    let alloc = rt.alloc();
    let text = io::read_to_string(alloc, rt.stdin())?;
    let told = told(&rt, alloc, &text)?;
    print!(rt; "{told}")
}
