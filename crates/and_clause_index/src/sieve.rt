//! The clauses of a predicate by the marks that their heads have at one place of their prints.

ghost use Rattle.std.specs.Prelude.{◌≡◌, ◌<◌, [], ◌∷◌, ◌++◌, ◌⊎◌, length, All, OnOk, IfOk};
ghost use Rattle.and_model.specs.declared.numbers.ClauseNo.{ClauseNo};
ghost use Rattle.and_clause_index.specs.Sieves.{mark_in, print_in, AreEmpty, with_put, IsSieveOf, IsShorter};

use crate::prints::Print;
use and_model::ClauseNo;
use std::alloc::{AllocError, Global};
use std::marker::Model;

/// A place of a print.
#[derive(Clone, Copy)]
pub(crate) enum Place {
    /// The first argument.
    First,
    /// The first argument of the first argument.
    FirstOfFirst,
    /// The second argument of the first argument.
    SecondOfFirst,
    /// The second argument.
    Second,
    /// The first argument of the second argument.
    FirstOfSecond,
    /// The second argument of the second argument.
    SecondOfSecond,
    /// The third argument.
    Third,
    /// The fourth argument.
    Fourth,
}

/// The mark of a print at a place.
fn mark_at(print: Print, place: Place) -> u8
    ensures { result ≡ mark_in print place }
{
    match place {
        Place::First => print.first.own,
        Place::FirstOfFirst => print.first.first,
        Place::SecondOfFirst => print.first.second,
        Place::Second => print.second.own,
        Place::FirstOfSecond => print.second.first,
        Place::SecondOfSecond => print.second.second,
        Place::Third => print.third,
        Place::Fourth => print.fourth,
    }
}

/// The clauses of one mark.
#[derive(Drop)]
struct Row {
    clauses: Vec<ClauseNo>,
}

impl Model for Row {
    ghost use Rattle.std.specs.Prelude.{List};
    ghost use Rattle.and_model.specs.declared.numbers.ClauseNo.{ClauseNo};

    ghost Value = { List ClauseNo };

    ghost view = { λ row. row.clauses.items };
}

impl Row {
    /// No clauses. Takes no memory.
    fn new(alloc: Global) -> Row
        ensures { result ≡ [] }
    {
        Row {
            clauses: Vec::new(alloc),
        }
    }

    /// Its clauses. Takes no memory.
    fn clauses(&self) -> &[ClauseNo]
        ensures { result.now ≡ self.now }
    {
        &self.clauses
    }

    /// Puts a clause at the end. An error is want of memory.
    fn push(&mut self, clause: ClauseNo) -> Result<(), AllocError>
        ensures { OnOk result (self.new ≡ self.old ++ clause ∷ []) }
    {
        self.clauses.push(clause)?;
        Ok(())
    }
}

/// How many marks there are, with that which stands for none.
const MARKS: usize = 256;

/// The clauses of a predicate by the marks that their heads have at a place. Each has one there.
pub(crate) struct Sieve {
    place: Place,
    /// By mark.
    rows: Vec<Row>,
}

// By hand, so that it is proved once, here.
impl Drop for Sieve {
    fn drop(self) {
        let Sieve { place: _, rows: _ } = self;
    }
}

/// A row without clauses for each mark. An error is want of memory.
fn empty_rows(alloc: Global) -> Result<Vec<Row>, AllocError>
    ensures { IfOk result (λ rows. AreEmpty 256 rows.items) }
{
    let mut rows = Vec::with_capacity(alloc, MARKS)?;
    for _mark in 0..MARKS {
        rows.push(Row::new(alloc))?;
    }
    Ok(rows)
}

/// Puts a clause at the end of the row of a mark. An error is want of memory.
fn put(rows: &mut Vec<Row>, mark: u8, clause: ClauseNo) -> Result<(), AllocError>
    requires { length rows.old.items ≡ 256 }
    ensures { OnOk result (rows.new.items ≡ with_put rows.old.items mark clause) }
{
    rows[mark as usize].push(clause)
}

impl Sieve {
    /// The clauses by the marks of their heads' prints at a place, if each has one there. An error is want of memory.
    fn at(
        alloc: Global,
        prints: &[Print],
        clauses: &[ClauseNo],
        place: Place,
    ) -> Result<Option<Sieve>, AllocError>
        requires { All (λ (c : ClauseNo). c.0 < length prints.now) clauses.now }
        ensures { IfOk result (IsSieveOf (print_in prints.now) clauses.now) }
    {
        let mut rows = empty_rows(alloc)?;
        for clause in clauses {
            let mark = mark_at(prints[clause.0 as usize], place);
            if mark == 0 {
                return Ok(None);
            }
            put(&mut rows, mark, *clause)?;
        }
        Ok(Some(Sieve { place, rows }))
    }

    /// These clauses, or those that have the mark of a print at the place, whichever are fewer. Takes no memory.
    #[inline(always)]
    pub(crate) fn shorter<'a>(&'a self, print: Print, clauses: &'a [ClauseNo]) -> &'a [ClauseNo]
        ensures { IsShorter self.now print clauses.now result.now }
    {
        let mark = mark_at(print, self.place);
        if mark == 0 {
            return clauses;
        }
        match self.rows.get(mark as usize) {
            Some(row) => fewer(row.clauses(), clauses),
            None => clauses,
        }
    }
}

/// The first of two lists, if it is shorter than the second, else that.
fn fewer<'a>(one: &'a [ClauseNo], other: &'a [ClauseNo]) -> &'a [ClauseNo]
    ensures { (result.now ≡ one.now) ⊎ (result.now ≡ other.now) }
{
    if one.len() < other.len() { one } else { other }
}

/// How many clauses a sieve would leave of those that are looked for at a place.
#[derive(Clone, Copy)]
struct Choice {
    place: Place,
    /// The sum of the squares of the numbers of clauses of each mark. `u64::MAX` stands for a place where a head has no
    /// mark.
    left: u64,
}

/// What a sieve at a place would leave.
fn choice_of(prints: &[Print], clauses: &[ClauseNo], place: Place) -> Choice
    requires { All (λ (c : ClauseNo). c.0 < length prints.now) clauses.now }
{
    let left = left_at(prints, clauses, place);
    Choice { place, left }
}

/// The sum of the squares of the numbers of clauses of each mark at a place, `u64::MAX` where a head has none.
fn left_at(prints: &[Print], clauses: &[ClauseNo], place: Place) -> u64
    requires { All (λ (c : ClauseNo). c.0 < length prints.now) clauses.now }
{
    let mut counts = [0u32; MARKS];
    let mut sum = 0u64;
    for clause in clauses {
        let mark = mark_at(prints[clause.0 as usize], place);
        if mark == 0 {
            return u64::MAX;
        }
        // Where a row grows by one its square grows by twice its length and one.
        let before = counts[mark as usize];
        counts[mark as usize] = before.wrapping_add(1);
        sum = sum.wrapping_add(2 * u64::from(before) + 1);
    }
    sum
}

/// The better of a choice and a sieve at a place.
fn better(choice: Choice, prints: &[Print], clauses: &[ClauseNo], place: Place) -> Choice
    requires { All (λ (c : ClauseNo). c.0 < length prints.now) clauses.now }
{
    let other = choice_of(prints, clauses, place);
    if other.left < choice.left {
        other
    } else {
        choice
    }
}

/// The best of all sieves but that at the first argument, by which clauses are told apart before.
fn best_of(prints: &[Print], clauses: &[ClauseNo]) -> Choice
    requires { All (λ (c : ClauseNo). c.0 < length prints.now) clauses.now }
{
    let choice = choice_of(prints, clauses, Place::FirstOfFirst);
    let choice = better(choice, prints, clauses, Place::SecondOfFirst);
    let choice = better(choice, prints, clauses, Place::Second);
    let choice = better(choice, prints, clauses, Place::FirstOfSecond);
    let choice = better(choice, prints, clauses, Place::SecondOfSecond);
    let choice = better(choice, prints, clauses, Place::Third);
    better(choice, prints, clauses, Place::Fourth)
}

/// Fewer clauses than this are looked through one by one.
const FEWEST: usize = 16;

/// A sieve pays where it leaves one of so many clauses, or fewer.
const GAIN: u64 = 4;

/// Whether a sieve of so many clauses pays.
fn pays(choice: Choice, count: usize) -> bool {
    let count = count as u64;
    choice.left <= count.saturating_mul(count) / GAIN
}

/// The sieve of these clauses, if one pays. An error is want of memory.
pub(crate) fn sieve_of(
    alloc: Global,
    prints: &[Print],
    clauses: &[ClauseNo],
) -> Result<Option<Sieve>, AllocError>
    requires { All (λ (c : ClauseNo). c.0 < length prints.now) clauses.now }
    ensures { IfOk result (IsSieveOf (print_in prints.now) clauses.now) }
{
    if clauses.len() < FEWEST {
        return Ok(None);
    }
    let choice = best_of(prints, clauses);
    if !pays(choice, clauses.len()) {
        return Ok(None);
    }
    Sieve::at(alloc, prints, clauses, choice.place)
}
