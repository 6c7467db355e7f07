//! Lists of clauses, by rows.

ghost use Rattle.std.specs.Prelude.{◌≡◌, ◌<◌, [], ◌∷◌, ◌++◌, length, map, IfOk, OnOk, OnErr};
ghost use Rattle.std.specs.Option.{ForSome};
ghost use Rattle.and_first_argument.specs.Lists.{list_at, without_last, with_clause, with_row, with_everywhere};

use and_model::ClauseNo;
use std::alloc::{AllocError, Global};
use std::marker::Model;

/// One list of clauses.
#[derive(Drop)]
struct Row {
    clauses: Vec<ClauseNo>,
}

impl Model for Row {
    ghost use Rattle.std.specs.Prelude.{List};
    ghost use Rattle.and_model.specs.declared.numbers.ClauseNo.{ClauseNo};

    ghost Value = { List ClauseNo };

    ghost view = { λ row. row.clauses.items };
}

impl Row {
    /// The list without clauses. Takes no memory.
    fn new(alloc: Global) -> Row
        ensures { result ≡ [] }
    {
        Row {
            clauses: Vec::new(alloc),
        }
    }

    /// Its clauses. Takes no memory.
    fn clauses(&self) -> &[ClauseNo]
        ensures { result.now ≡ self.now }
    {
        &self.clauses
    }

    /// Another list of the same clauses and one more. An error is want of memory.
    fn longer(&self, clause: ClauseNo) -> Result<Row, AllocError>
        ensures { IfOk result (λ row. row ≡ self.now ++ clause ∷ []) }
    {
        let mut clauses = Vec::with_capacity(*self.clauses.allocator(), self.clauses.len() + 1)?;
        clauses.extend_from_slice(&self.clauses)?;
        clauses.push(clause)?;
        Ok(Row { clauses })
    }

    /// Puts the clause at the end. An error is want of memory.
    fn push(&mut self, clause: ClauseNo) -> Result<(), AllocError>
        ensures ok { OnOk result (self.new ≡ self.old ++ clause ∷ []) }
        ensures unchanged { OnErr result (self.new ≡ self.old) }
    {
        self.clauses.push(clause)?;
        Ok(())
    }

    /// Takes out the last clause.
    fn pop(&mut self)
        ensures { self.new ≡ without_last self.old }
    {
        self.clauses.pop();
    }
}

/// Puts the clause at the end of each list. An error is want of memory, and leaves all as it was.
fn push_each(rows: &mut [Row], clause: ClauseNo) -> Result<(), AllocError>
    ensures ok { OnOk result (rows.new ≡ map (λ list. list ++ clause ∷ []) rows.old) }
    ensures unchanged { OnErr result (rows.new ≡ rows.old) }
{
    for place in 0..rows.len() {
        if rows[place].push(clause).is_err() {
            pop_each(&mut rows[..place]);
            return Err(AllocError);
        }
    }
    Ok(())
}

/// Takes out the last clause of each list.
fn pop_each(rows: &mut [Row])
    ensures { rows.new ≡ map without_last rows.old }
{
    for row in rows.iter_mut() {
        row.pop();
    }
}

/// A list of clauses for each of some rows, and one for whatever has no row.
pub(crate) struct ClauseLists {
    rows: Vec<Row>,
    others: Row,
}

// By hand, so that it is proved once, here.
impl Drop for ClauseLists {
    fn drop(self) {
        let ClauseLists { rows: _, others: _ } = self;
    }
}

impl Model for ClauseLists {
    ghost use Rattle.and_first_argument.specs.Lists.{Lists};

    ghost Value = { Lists };

    ghost view = { λ lists. record { rows = lists.rows.items; others = lists.others } };
}

impl ClauseLists {
    /// No rows, and no clause for what has none. Takes no memory.
    pub(crate) fn new(alloc: Global) -> ClauseLists
        ensures { result ≡ record { rows = []; others = [] } }
    {
        ClauseLists {
            rows: Vec::new(alloc),
            others: Row::new(alloc),
        }
    }

    /// The clauses of a row, or of what has none. Takes no memory.
    pub(crate) fn at(&self, row: Option<usize>) -> &[ClauseNo]
        requires { ForSome row (λ place. place < length self.now.rows) }
        ensures { result.now ≡ list_at self.now row }
    {
        match row {
            Some(place) => self.rows[place].clauses(),
            None => self.others.clauses(),
        }
    }

    /// Puts the clause at the end of a row. An error is want of memory, and leaves all as it was.
    pub(crate) fn add(&mut self, row: usize, clause: ClauseNo) -> Result<(), AllocError>
        requires { row < length self.old.rows }
        ensures ok { OnOk result (self.new ≡ with_clause self.old row clause) }
        ensures unchanged { OnErr result (self.new ≡ self.old) }
    {
        self.rows[row].push(clause)
    }

    /// Makes one more row, which has the clauses of what had none and then this one. An error is want
    /// of memory, and leaves all as it was.
    pub(crate) fn add_row(&mut self, clause: ClauseNo) -> Result<(), AllocError>
        ensures ok { OnOk result (self.new ≡ with_row self.old clause) }
        ensures unchanged { OnErr result (self.new ≡ self.old) }
    {
        let row = self.others.longer(clause)?;
        self.rows.push(row)?;
        Ok(())
    }

    /// Takes out the last row.
    pub(crate) fn remove_row(&mut self)
        ensures { self.new ≡ record self.old { rows = without_last self.old.rows } }
    {
        self.rows.pop();
    }

    /// Puts the clause at the end of each row, and of what has none. An error is want of memory, and
    /// leaves all as it was.
    pub(crate) fn add_everywhere(&mut self, clause: ClauseNo) -> Result<(), AllocError>
        ensures ok { OnOk result (self.new ≡ with_everywhere self.old clause) }
        ensures unchanged { OnErr result (self.new ≡ self.old) }
    {
        self.others.push(clause)?;
        if push_each(&mut self.rows, clause).is_err() {
            self.others.pop();
            return Err(AllocError);
        }
        Ok(())
    }
}
