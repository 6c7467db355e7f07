//! Codes, lists, texts, pairs and words of references.

use and_model::{ClauseNo, Code, Goal, GoalList, Ref, Text};
use and_rows::{Untold, line};
use and_unify::PairList;
use std::alloc::Global;

/// The code of these numbers.
fn code_of(alloc: Global, words: &str) -> Result<Code, Untold> {
    let mut code = Code::new(alloc);
    for word in words.split_whitespace() {
        let Ok(number) = word.parse::<u16>() else {
            return Err(Untold::Malformed);
        };
        code.push(ClauseNo(number))?;
    }
    Ok(code)
}

/// How the first code stands to the second, which is behind a bar, and to a copy of itself, and how long it is.
pub(crate) fn order(alloc: Global, words: &str) -> Result<String, Untold> {
    let (one, other) = words.split_once('|').unwrap_or((words, ""));
    let one = code_of(alloc, one)?;
    let other = code_of(alloc, other)?;
    let copy = one.copy()?;
    line(alloc, &(one.order(&other), copy.order(&one), copy.len()))
}

const FIRST: Goal = Goal {
    node: 0,
    item: 1,
    clause: ClauseNo(0),
    base: 0,
};

const SECOND: Goal = Goal {
    node: 4,
    item: 0,
    clause: ClauseNo(2),
    base: 4,
};

/// How many goals a list has, and what is taken out of it then.
fn taken_out(alloc: Global, mut goals: GoalList) -> Result<String, Untold> {
    let count = goals.len();
    let first = goals.pop();
    let second = goals.pop();
    let third = goals.pop();
    line(alloc, &(count, first, second, third))
}

/// What a list of two goals gives back that grew, was copied, or was made of a vector.
pub(crate) fn list(alloc: Global, origin: &str) -> Result<String, Untold> {
    let mut grown = GoalList::new(alloc);
    if grown.push(FIRST).is_err() || grown.push(SECOND).is_err() {
        return Err(Untold::Memory);
    }
    match origin {
        "grown" => taken_out(alloc, grown),
        "copied" => taken_out(alloc, grown.copy()?),
        "made" => taken_out(alloc, GoalList::of_items(vec![in alloc; FIRST, SECOND]?)),
        _ => Err(Untold::Malformed),
    }
}

/// How many pairs are in a list of two, and which is the last.
pub(crate) fn pairs(alloc: Global) -> Result<String, Untold> {
    let mut pairs = PairList::new(alloc);
    pairs.push(Ref::Cell(1), Ref::Cell(2))?;
    pairs.push(Ref::Cell(3), Ref::Cell(4))?;
    line(alloc, &(pairs.len(), *pairs.at(1)))
}

/// The bytes of a text, how many there are, and the third.
pub(crate) fn text(alloc: Global) -> Result<String, Untold> {
    let mut text = Text::of(alloc, b"ab")?;
    text.append(b"c")?;
    line(alloc, &(text.bytes(), text.len(), *text.at(2)))
}

/// The reference that has a word, and whether that is its word.
pub(crate) fn word(alloc: Global, number: &str) -> Result<String, Untold> {
    let Ok(word) = number.parse::<u64>() else {
        return Err(Untold::Malformed);
    };
    match Ref::of_word(word) {
        Some(read) => line(alloc, &(read, read.to_word() == word)),
        None => line(alloc, &"none"),
    }
}
