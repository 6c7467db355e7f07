//! Rows of trials, as text: blocks with a kind, a name and lines, and what is told of each.
//!
//! A block begins with a line `# KIND NAME`, and the lines up to the next such line are its own. A program reads
//! blocks from standard input and writes, for each, that line and behind it what it tells of the block, so that a
//! row that is told otherwise than it should be is named where the two texts differ. Of a kind with `each-` before
//! it, it tells of each line of the block by itself.
#![tactic(auto)]

use std::alloc::{AllocError, AllocFailed, Global};
use std::fmt::Debug;

/// A block.
#[derive(Drop)]
pub struct Block {
    /// What is asked of its lines.
    pub kind: String,
    /// Its name.
    pub name: String,
    /// Its lines, with a line break between two.
    pub lines: String,
}

/// Why nothing is told of a block.
#[derive(Clone, Copy, Debug, PartialEq, Eq)]
pub enum Untold {
    /// Want of memory.
    Memory,
    /// Its lines are not what its kind asks for.
    Malformed,
}

impl From<AllocError> for Untold {
    fn from(_error: AllocError) -> Untold {
        Untold::Memory
    }
}

impl<T: Drop> From<AllocFailed<T>> for Untold {
    fn from(_error: AllocFailed<T>) -> Untold {
        Untold::Memory
    }
}

/// The line of a value.
pub fn line<T: Debug>(alloc: Global, value: &T) -> Result<String, Untold> {
    Ok(format!(in alloc; "{value:?}\n")?)
}

/// The first three numbers of a call, as far as they are there, and the last.
#[derive(Clone, Copy)]
pub struct Numbers {
    /// The first, or 0.
    pub first: u32,
    /// The second, or 0.
    pub second: u32,
    /// The third, or 0.
    pub third: u32,
    /// The last, or 0.
    pub last: i64,
}

/// A number as one of 32 bits.
fn small(number: i64) -> u32 {
    u32::try_from(number).unwrap_or(u32::MAX)
}

/// The numbers that stand there, with layout between.
pub fn read_numbers(words: &str) -> Result<Numbers, Untold> {
    let mut found = [0i64; 3];
    let mut count = 0;
    let mut last = 0;
    for word in words.split_whitespace() {
        let Ok(number) = word.parse::<i64>() else {
            return Err(Untold::Malformed);
        };
        if count < 3 {
            found[count] = number;
            count += 1;
        }
        last = number;
    }
    Ok(Numbers {
        first: small(found[0]),
        second: small(found[1]),
        third: small(found[2]),
        last,
    })
}

/// What answers calls, one after the other.
pub trait Desk {
    /// What a call answers: whole lines.
    fn call(&mut self, alloc: Global, name: &str, words: &str) -> Result<String, Untold>;
}

/// What the call of a line answers: its name is the first word.
fn answer<D: Desk>(alloc: Global, desk: &mut D, line: &str) -> Result<String, Untold> {
    let (name, words) = line.split_once(' ').unwrap_or((line, ""));
    desk.call(alloc, name, words)
}

/// What the calls of these lines answer.
pub fn answers<D: Desk>(alloc: Global, desk: &mut D, lines: &str) -> Result<String, Untold> {
    let mut out = String::new(alloc);
    for line in lines.lines() {
        let told = answer(alloc, desk, line)?;
        out.push_str(&told)?;
    }
    Ok(out)
}

/// A block without lines, of the line that begins it.
fn begun(alloc: Global, head: &str) -> Result<Block, AllocError> {
    let (kind, name) = head.split_once(' ').unwrap_or((head, ""));
    Ok(Block {
        kind: String::from_str(alloc, kind)?,
        name: String::from_str(alloc, name)?,
        lines: String::new(alloc),
    })
}

/// Puts a line behind those of a block.
fn push_line(block: &mut Block, line: &str) -> Result<(), AllocError> {
    let between = if block.lines.is_empty() { "" } else { "\n" };
    block.lines.push_str(between)?;
    block.lines.push_str(line)
}

/// The blocks of a text. What stands before the first is of none. An error is want of memory.
fn blocks(alloc: Global, text: &str) -> Result<Vec<Block>, AllocError> {
    let mut blocks = Vec::new(alloc);
    for line in text.lines() {
        if let Some(head) = line.strip_prefix("# ") {
            blocks.push(begun(alloc, head)?)?;
        } else if let Some(block) = blocks.last_mut() {
            push_line(block, line)?;
        }
    }
    Ok(blocks)
}

/// What is told of a block behind its first line. An error is want of memory.
fn told<F: Fn(&Block) -> Result<String, Untold>>(
    alloc: Global,
    tell: &F,
    block: &Block,
) -> Result<String, AllocError>
    requires { F.IsAlwaysCallable tell.now }
{
    match tell(block) {
        Ok(text) => Ok(text),
        Err(Untold::Memory) => Err(AllocError),
        Err(Untold::Malformed) => String::from_str(alloc, "malformed\n"),
    }
}

/// What is told of a line as of a block of that kind. An error is want of memory.
fn told_of_line<F: Fn(&Block) -> Result<String, Untold>>(
    alloc: Global,
    tell: &F,
    kind: &str,
    line: &str,
) -> Result<String, AllocError>
    requires { F.IsAlwaysCallable tell.now }
{
    let mut block = begun(alloc, kind)?;
    block.lines.push_str(line)?;
    told(alloc, tell, &block)
}

/// What is told of each of these lines as of a block of that kind. An error is want of memory.
fn told_of_each<F: Fn(&Block) -> Result<String, Untold>>(
    alloc: Global,
    tell: &F,
    kind: &str,
    lines: &str,
) -> Result<String, AllocError>
    requires { F.IsAlwaysCallable tell.now }
{
    let mut out = String::new(alloc);
    for line in lines.lines() {
        let told = told_of_line(alloc, tell, kind, line)?;
        out.push_str(&told)?;
    }
    Ok(out)
}

/// What is told of a block, or of each of its lines. An error is want of memory.
fn told_of<F: Fn(&Block) -> Result<String, Untold>>(
    alloc: Global,
    tell: &F,
    block: &Block,
) -> Result<String, AllocError>
    requires { F.IsAlwaysCallable tell.now }
{
    match block.kind.strip_prefix("each-") {
        Some(kind) => told_of_each(alloc, tell, kind, &block.lines),
        None => told(alloc, tell, block),
    }
}

/// What is told of all blocks of a text, where this tells of a block behind its first line: whole lines. An error is
/// want of memory.
pub fn tell_all<F: Fn(&Block) -> Result<String, Untold>>(
    alloc: Global,
    tell: &F,
    text: &str,
) -> Result<String, AllocError>
    requires { F.IsAlwaysCallable tell.now }
{
    let mut out = String::new(alloc);
    for block in blocks(alloc, text)? {
        let told = told_of(alloc, tell, &block)?;
        let Block { kind, name, .. } = block;
        let part = format!(in alloc; "# {kind} {name}\n{told}")?;
        out.push_str(&part)?;
    }
    Ok(out)
}
