//! Rows of what teams and their threads share: choicepoint trees, the jobs of a batch, hands, goals about a place of
//! work, and what runs found.
#![tactic(auto)]

mod batches;
mod found;
mod hands;
mod leaves;
mod pending;
mod plain;
mod saying;
mod tree_races;
mod trees;

use and_rows::{Block, Untold, tell_all};
use std::alloc::{AllocError, Global};
use std::io;
use std::sync::Wait;
use std::thread::Threads;

/// What is told of trees.
fn tell_of_trees(alloc: Global, kind: &str) -> Result<String, Untold> {
    match kind {
        "tree-calls" => trees::tree_calls(alloc),
        "tree-given-up" => trees::given_up(alloc),
        "plain-tree-calls" => plain::calls(alloc),
        "plain-tree-handed-over" => plain::handed_over(alloc),
        "plain-tree-given-up" => plain::given_up(alloc),
        _ => Err(Untold::Malformed),
    }
}

/// What is told of what was found, of hands and of goals.
fn tell_of_goals(alloc: Global, kind: &str, lines: &str) -> Result<String, Untold> {
    match kind {
        "found-in-order" => found::in_order(alloc),
        "found-with-a-cut" => found::with_a_cut(alloc),
        "hands" => hands::tell(alloc, lines),
        "pending" => pending::tell_lines(alloc, lines),
        "pending-of" => pending::before(alloc),
        _ => tell_of_trees(alloc, kind),
    }
}

/// What is told of a block, by its kind.
fn tell<R: Threads + Wait + Sync>(rt: &R, alloc: Global, block: &Block) -> Result<String, Untold> {
    let kind = block.kind.as_str();
    match kind {
        "tree-race" => tree_races::tree_race(rt, alloc),
        "batches" => batches::tell(rt, alloc, block.lines.as_str()),
        "meeting" => batches::two_at_work(rt, alloc),
        _ => tell_of_goals(alloc, kind, block.lines.as_str()),
    }
}

/// What is told of all blocks of a text. An error is want of memory.
fn told<R: Threads + Wait + Sync>(rt: &R, alloc: Global, text: &str) -> Result<String, AllocError> {
    let of_block = |block: &Block| tell(rt, alloc, block);
    tell_all(alloc, &of_block, text)
}

fn main(rt: HostRuntime) -> io::Result<()> {
    let alloc = rt.alloc();
    let text = io::read_to_string(alloc, rt.stdin())?;
    let told = told(&rt, alloc, &text)?;
    print!(rt; "{told}")
}
