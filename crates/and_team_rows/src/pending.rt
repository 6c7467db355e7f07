//! Goals that are passed over while they sleep, in a row of ten cells.

use crate::hands::goal;
use crate::saying::say;
use and_cells::PlainCells;
use and_model::{Goal, Ref};
use and_pending::PendingGoals;
use and_rows::Untold;
use std::alloc::{AllocError, Global};
use std::marker::Brand;

type Row = PlainCells<Brand>;

/// The number of a goal, as a digit.
fn digit(goal: Goal) -> char {
    (b'0' + (goal.node % 10) as u8) as char
}

/// Puts the numbers of these goals at the end of a line.
fn push_digits(line: &mut String, goals: &[Goal]) -> Result<(), AllocError> {
    for goal in goals {
        line.push(digit(*goal))?;
    }
    Ok(())
}

/// Puts the numbers of all goals at the end of a line, whether those before the place of work sleep, and the number
/// of the next one.
fn tell(goals: &PendingGoals, row: &Row, line: &mut String) -> Result<(), AllocError> {
    let all = goals.all(goals.allocator())?;
    push_digits(line, &all)?;
    line.push(if goals.are_asleep(row) { '.' } else { '!' })?;
    match goals.next() {
        Some(goal) => line.push(digit(goal)),
        None => line.push('-'),
    }
}

/// Pushes the goals with these numbers.
fn push_all(goals: &mut PendingGoals, numbers: &[u32]) -> Result<(), AllocError> {
    for number in numbers {
        goals.push(goal(*number))?;
    }
    Ok(())
}

/// Sets these cells, as far as they are there.
fn set_all(row: &mut Row, cells: &[u32]) {
    for cell in cells {
        if *cell < row.len() {
            let _word = row.fill(*cell, Ref::Half(0));
        }
    }
}

/// Watches the next goal by these cells, or goes past it if there are none.
fn watch_or_pass(goals: &mut PendingGoals, cells: &[u32]) -> Result<(), AllocError> {
    if goals.next().is_none() {
        return Ok(());
    }
    if cells.is_empty() {
        goals.pass()
    } else {
        goals.watch(cells)
    }
}

/// Is filled from what a copy kept, after all watches were forgotten.
fn fill_again(goals: &mut PendingGoals) -> Result<(), AllocError> {
    let kept = goals.copy(goals.allocator())?;
    goals.rewind()?;
    goals.forget_watches();
    goals.fill_from(&kept)
}

/// Does what a letter stands for, with these numbers.
fn act(
    goals: &mut PendingGoals,
    row: &mut Row,
    numbers: &[u32],
    letter: u8,
) -> Result<(), AllocError> {
    match letter {
        b'p' => push_all(goals, numbers)?,
        b's' => set_all(row, numbers),
        b'w' => watch_or_pass(goals, numbers)?,
        b'z' => goals.pass_sleepers(row)?,
        b'r' => goals.rewind()?,
        b'f' => goals.forget_watches(),
        b'c' => fill_again(goals)?,
        b'b' => {
            let _moved = goals.go_back()?;
        }
        b'k' => {
            let _moved = goals.go_back_over_sleepers(row)?;
        }
        _ => {
            let _goal = goals.pop();
        }
    }
    Ok(())
}

/// What is told by a line of digits, and of letters, each of which does something with the numbers before
/// it. A question mark tells what the goals are.
fn told(alloc: Global, acts: &str) -> Result<String, AllocError> {
    let mut goals = PendingGoals::new(alloc);
    let mut row = Row::with(alloc, 10)?;
    let mut numbers = Vec::new(alloc);
    let mut line = String::new(alloc);
    for letter in acts.as_bytes() {
        match *letter {
            b'0'..=b'9' => numbers.push((*letter - b'0') as u32)?,
            b'?' => tell(&goals, &row, &mut line)?,
            _ => {
                act(&mut goals, &mut row, &numbers, *letter)?;
                numbers.clear();
            }
        }
    }
    line.push('\n')?;
    Ok(line)
}

/// What is told by each line.
pub(crate) fn tell_lines(alloc: Global, lines: &str) -> Result<String, Untold> {
    let mut out = String::new(alloc);
    for acts in lines.lines() {
        out.push_str(&told(alloc, acts)?)?;
    }
    Ok(out)
}

/// How many of the goals 4 and 5 are put before the place of work, and which are next.
pub(crate) fn before(alloc: Global) -> Result<String, Untold> {
    let goals = PendingGoals::of(alloc, &[goal(4), goal(5)])?;
    let count = goals.count_before();
    let mut out = String::new(alloc);
    say(alloc, &mut out, count)?;
    for goal in &goals.all(alloc)? {
        say(alloc, &mut out, goal.node)?;
    }
    say(alloc, &mut out, goals.next().is_none())?;
    say(alloc, &mut out, goals.are_worn())?;
    Ok(out)
}
