//! A switch with room for four keys, and the choice among tables of clauses.

use and_first_argument::{Addition, FirstArguments, Key, Switch};
use and_model::{ClauseNo, NameNo};
use and_rows::{Desk, Untold, answers, line};
use std::alloc::Global;

/// A key of a word: `7/2` is a name with so many arguments, and a number stands for itself.
fn key_of(word: &str) -> Result<Key, Untold> {
    let Some((name, count)) = word.split_once('/') else {
        return match word.parse::<i64>() {
            Ok(number) => Ok(Key::Number(number)),
            Err(_) => Err(Untold::Malformed),
        };
    };
    match (name.parse::<u32>(), count.parse::<u8>()) {
        (Ok(name), Ok(count)) => Ok(Key::Name {
            name: NameNo(name),
            count,
        }),
        _ => Err(Untold::Malformed),
    }
}

/// The clause of a word.
fn clause_of(word: &str) -> Result<ClauseNo, Untold> {
    match word.parse::<u16>() {
        Ok(number) => Ok(ClauseNo(number)),
        Err(_) => Err(Untold::Malformed),
    }
}

/// The fact of a key, whose word stands before that of its clause.
fn fact(words: &str) -> Result<(Key, ClauseNo), Untold> {
    let (key, clause) = words.split_once(' ').unwrap_or((words, ""));
    Ok((key_of(key)?, clause_of(clause)?))
}

/// A switch with room for four keys.
#[derive(Drop)]
struct Four {
    switch: Switch<4>,
}

/// Adds a fact to a switch.
fn added(alloc: Global, switch: &mut Switch<4>, words: &str) -> Result<String, Untold> {
    let (key, clause) = fact(words)?;
    line(alloc, &switch.add(key, clause))
}

impl Desk for Four {
    fn call(&mut self, alloc: Global, name: &str, words: &str) -> Result<String, Untold> {
        match name {
            "add" => added(alloc, &mut self.switch, words),
            "any" => line(alloc, &self.switch.add_any(clause_of(words)?)),
            "pick" => line(alloc, &self.switch.pick(key_of(words)?)),
            _ => Err(Untold::Malformed),
        }
    }
}

/// What calls of a switch with room for four keys answer: `add KEY CLAUSE`, `any CLAUSE` and `pick KEY`.
pub(crate) fn of_four(alloc: Global, lines: &str) -> Result<String, Untold> {
    let switch = Switch::new(alloc);
    answers(alloc, &mut Four { switch }, lines)
}

/// The clauses of a table.
#[derive(Drop)]
struct Table {
    additions: Vec<Addition>,
}

/// Puts a clause behind the others.
fn put(alloc: Global, table: &mut Table, addition: Addition) -> Result<String, Untold> {
    table.additions.push(addition)?;
    Ok(String::new(alloc))
}

/// Puts the facts of the numbers from 0 on behind the others, so many, with the clauses from 1 on.
fn fill(alloc: Global, table: &mut Table, count: ClauseNo) -> Result<String, Untold> {
    for number in 0..count.0.min(1000) {
        table.additions.push(Addition::Under {
            key: Key::Number(i64::from(number)),
            clause: ClauseNo(number + 1),
        })?;
    }
    Ok(String::new(alloc))
}

/// How many keys the table has room for, where that is bounded.
fn room_of(table: &FirstArguments) -> Option<u8> {
    match table {
        FirstArguments::Four(_) => Some(4),
        FirstArguments::Sixteen(_) => Some(16),
        FirstArguments::SixtyFour(_) => Some(64),
        FirstArguments::Indexed(_) => None,
    }
}

/// The room of the smallest table for these clauses, and those that a key picks there.
fn picked(alloc: Global, additions: &[Addition], key: Key) -> Result<String, Untold> {
    let table = FirstArguments::of(alloc, additions)?;
    line(alloc, &(room_of(&table), table.pick(key)))
}

impl Desk for Table {
    fn call(&mut self, alloc: Global, name: &str, words: &str) -> Result<String, Untold> {
        match name {
            "add" => {
                let (key, clause) = fact(words)?;
                put(alloc, self, Addition::Under { key, clause })
            }
            "any" => {
                let clause = clause_of(words)?;
                put(alloc, self, Addition::Any { clause })
            }
            "fill" => fill(alloc, self, clause_of(words)?),
            "pick" => picked(alloc, &self.additions, key_of(words)?),
            _ => Err(Untold::Malformed),
        }
    }
}

/// What calls of a table answer: `add KEY CLAUSE`, `any CLAUSE`, `fill COUNT` and `pick KEY`.
pub(crate) fn of_table(alloc: Global, lines: &str) -> Result<String, Untold> {
    let additions = Vec::new(alloc);
    answers(alloc, &mut Table { additions }, lines)
}
