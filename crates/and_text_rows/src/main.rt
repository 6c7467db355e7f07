//! Rows of the way from bytes to a program: tokens, whole texts, refusals, programs of texts, names in quotes,
//! command words, generated texts, reading and writing, and the queries of a text that has several.
#![tactic(auto)]

mod parts;
mod programs;
mod queries;
mod reads;
mod texts;
mod tokens;
mod writes;

use and_rows::{Block, Untold, tell_all};
use std::alloc::Global;
use std::io;

/// What is told of bytes.
fn tell_of_bytes(alloc: Global, kind: &str, bytes: &[u8]) -> Result<String, Untold> {
    match kind {
        "tokens" => tokens::tokens(alloc, bytes),
        "text" => texts::text(alloc, bytes),
        "name" => texts::name(alloc, bytes),
        "queries" => queries::places(alloc, bytes),
        "single-queries" => queries::singles(alloc, bytes),
        _ => Err(Untold::Malformed),
    }
}

/// What is told of bytes that are written by their numbers, or in parts.
fn tell_of_written(alloc: Global, kind: &str, lines: &str) -> Result<String, Untold> {
    match kind.split_once("-of-") {
        Some((kind, "bytes")) => tell_of_bytes(alloc, kind, &parts::bytes(alloc, lines)?),
        Some((kind, _)) => tell_of_bytes(alloc, kind, parts::text(alloc, lines)?.as_bytes()),
        None => tell_of_bytes(alloc, kind, lines.as_bytes()),
    }
}

/// What is told of a block, by its kind.
fn tell(alloc: Global, block: &Block) -> Result<String, Untold> {
    let kind = block.kind.as_str();
    let lines = block.lines.as_str();
    match kind {
        "quoted-tokens" => tokens::quoted(alloc),
        "command" => texts::command(alloc, lines),
        "generated" => texts::generated(alloc, lines),
        "last-generated" => texts::last_generated(alloc, lines),
        "program" => programs::tell(alloc, lines),
        "reads" => reads::tell(alloc, lines),
        "writes" => writes::tell(alloc, lines),
        _ => tell_of_written(alloc, kind, lines),
    }
}

fn main(rt: HostRuntime) -> io::Result<()> {
    let alloc = rt.alloc();
    let text = io::read_to_string(alloc, rt.stdin())?;
    let of_block = |block: &Block| tell(alloc, block);
    let told = tell_all(alloc, &of_block, &text)?;
    print!(rt; "{told}")
}
