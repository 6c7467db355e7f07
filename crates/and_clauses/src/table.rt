//! The clauses of a text, in a table.

ghost use Rattle.std.specs.Prelude.{◌≡◌, ◌∷◌, [], length, Option, Some, None, IfOk, OnErr};
ghost use Rattle.and_syntax.specs.Written.{Written};
ghost use Rattle.and_syntax.specs.Tables.{empty, clause_fault, query_fault, with_clause, with_query};
ghost use Rattle.and_program.specs.Nodes.{shapes_of, names_of};
ghost use Rattle.and_program.specs.declared.entry.ClauseEntry.{ClauseEntry};
ghost use Rattle.and_clauses.specs.Added.{RefusesClause, RefusesQuery};
ghost use Rattle.and_clauses.specs.Adds.{with_all};
ghost use Rattle.and_drafts.specs.Drafts.{draft_of};
ghost use Rattle.and_clauses.specs.Kept.{IsKept, IsKept-prop};
ghost use Rattle.and_clauses.specs.Makes.{Keeps, HasRoom, Grows};

use crate::added::Added;
use crate::asked::Clauses;
use crate::making::{Lists, clause_added, query_added};
use crate::scratch::Scratch;
use and_drafts::ClauseDraft;
use and_judging::{SealFault, TableFault, Used, built_in_names, first_unknown_call, unknown_fault};
use and_model::{ClauseNo, NameNo};
use and_program::{ClauseEntry, Loaded, Node, clause_numbers};
use std::alloc::{AllocError, Global};
use std::snapshot::Snapshot;

/// The clauses of a text as far as it was read, and its query.
pub struct ClauseTable {
    pub(crate) alloc: Global,
    pub(crate) lists: Lists,
    pub(crate) query: Option<ClauseEntry>,
    pub(crate) used: Used,
    pub(crate) scratch: Scratch,
    /// What was added, which contracts alone read.
    pub(crate) added: Vec<Added>,
    ghost kept: { IsKept (shapes_of lists.nodes.items) lists.clauses.items query lists.calls.items
        (names_of lists.names.keys)
        used (with_all empty added.items) } by { IsKept-prop (shapes_of lists.nodes.items) lists.clauses.items query
            lists.calls.items (names_of lists.names.keys) used (with_all empty added.items) },
}

// By hand, so that it is proved here once, and not in each crate that lets go of a table.
impl Drop for ClauseTable {
    fn drop(self) {
        let ClauseTable {
            alloc: _,
            lists: _,
            query: _,
            used: _,
            scratch: _,
            added: _,
        } = self;
    }
}

impl ClauseTable {
    ghost use Rattle.std.specs.Prelude.{IfErr, IfSome, IsTrue};
    ghost use Rattle.and_clauses.specs.Asking.{clauses_table};
    ghost use Rattle.and_clauses.specs.Added.{AddsClause, SetsQuery};
    ghost use Rattle.and_clauses.specs.Views.{table_of, is_query};
    ghost use Rattle.and_program.specs.Loaded.{program_of};
    ghost use Rattle.and_judging.specs.Sealing.{Seals, Refuses};

    /// A table without clauses. An error is want of memory.
    pub fn new(alloc: Global) -> Result<ClauseTable, AllocError>
        ensures { IfOk result (λ t. table_of t ≡ empty) }
    {
        let mut nodes = Vec::new(alloc);
        nodes.push(Node::Compound {
            name: NameNo(0),
            arguments: Vec::new(alloc),
        })?;
        let names = built_in_names(alloc)?;
        Ok(ClauseTable {
            alloc,
            lists: Lists {
                names,
                nodes,
                clauses: Vec::new(alloc),
                calls: Vec::new(alloc),
            },
            query: None,
            used: Used {
                nodes: 0,
                numbers: 0,
                disjunctions: 0,
            },
            scratch: Scratch::new(alloc),
            added: Vec::new(alloc),
        })
    }

    /// Adds the clause of a draft, and answers its number. A draft that is a compound `:-` of two
    /// arguments has the first as its head and the second as its body; any other is a head. Its
    /// alternatives take the numbers behind it.
    ///
    /// Refused, the table is as it was.
    pub fn add_clause(&mut self, draft: &ClauseDraft) -> Result<ClauseNo, TableFault>
        requires { length (draft_of draft.now).finished ≡ 1 }
        ensures ok { AddsClause (table_of self.old) (table_of self.new) (draft_of draft.now) result }
        ensures fault { RefusesClause (table_of self.old) (draft_of draft.now) result }
        ensures refused { OnErr result (table_of self.new ≡ table_of self.old) }
    {
        let lengths = self.lists.lengths();
        let number = self.used.numbers + 1;
        match add_clause(
            self.alloc,
            &mut self.lists,
            &mut self.scratch,
            &mut self.added,
            draft,
            self.used,
        ) {
            Ok(used) => {
                self.used = used;
                Ok(ClauseNo(number as u16))
            }
            Err(fault) => {
                self.lists.cut(lengths);
                Err(fault)
            }
        }
    }

    /// Sets the query of a draft, the one argument of a compound `?-`. Its alternatives take the
    /// next numbers.
    ///
    /// Refused, the table is as it was.
    pub fn set_query(&mut self, draft: &ClauseDraft) -> Result<(), TableFault>
        requires { IsTrue (is_query (draft_of draft.now).finished) }
        ensures ok { SetsQuery (table_of self.old) (table_of self.new) (draft_of draft.now) result }
        ensures fault { RefusesQuery (table_of self.old) (draft_of draft.now) result }
        ensures refused { OnErr result (table_of self.new ≡ table_of self.old) }
    {
        if self.query.is_some() {
            return Err(TableFault::SecondQuery);
        }
        let lengths = self.lists.lengths();
        match set_query(
            self.alloc,
            &mut self.lists,
            &mut self.scratch,
            &mut self.added,
            draft,
            self.used,
        ) {
            Ok((query, used)) => {
                self.query = Some(query);
                self.used = used;
                Ok(())
            }
            Err(fault) => {
                self.lists.cut(lengths);
                Err(fault)
            }
        }
    }

    /// The clauses of the table, where it has no query. An error is want of memory.
    pub fn into_clauses(self) -> Result<Option<Clauses>, AllocError>
        ensures { IfOk result (λ o. IfSome o (λ clauses. clauses_table clauses ≡ table_of self)) }
    {
        let ClauseTable {
            alloc,
            lists,
            query,
            used,
            scratch,
            added,
        } = self;
        if query.is_some() {
            return Ok(None);
        }
        let numbers = clause_numbers(alloc, &lists.nodes, &lists.clauses)?;
        Ok(Some(Clauses {
            alloc,
            lists,
            used,
            numbers,
            scratch,
            added,
        }))
    }

    /// The program of the table, whose query is there and whose calls all have clauses. Each
    /// disjunction was lifted to a predicate of its own.
    pub fn seal(self) -> Result<Loaded, SealFault>
        ensures sealed { IfOk result (λ l. Seals (table_of self) (program_of l)) }
        ensures refused { IfErr result (λ fault. Refuses (table_of self) fault) }
    {
        let ClauseTable {
            alloc,
            lists,
            query,
            used: _used,
            scratch: _scratch,
            added: _added,
        } = self;
        let Lists {
            names,
            nodes,
            clauses,
            calls,
        } = lists;
        let Some(query) = query else {
            return Err(SealFault::NoQuery);
        };
        let numbers = clause_numbers(alloc, &nodes, &clauses)?;
        match first_unknown_call(&numbers, &calls) {
            Some(call) => Err(unknown_fault(alloc, &names, call)?),
            None => Ok(Loaded::new(nodes, clauses, query, names, numbers)),
        }
    }
}

/// Adds a draft to these lists as a clause. Refused, they may have grown, and nothing was added.
fn add_clause(
    alloc: Global,
    lists: &mut Lists,
    scratch: &mut Scratch,
    added: &mut Vec<Added>,
    draft: &ClauseDraft,
    used: Used,
) -> Result<Used, TableFault>
    requires one { length (draft_of draft.now).finished ≡ 1 }
    requires room { HasRoom (shapes_of lists.old.nodes.items) (names_of lists.old.names.keys) used }
    ensures added { (query : Option ClauseEntry) (w : Written) → let T = with_all empty added.old.items in
        let U = with_all empty added.new.items in
        Keeps lists.old query used T → (draft_of draft.now).finished ≡ w ∷ []
        → IfOk result (λ now. (clause_fault T w ≡ None) × (U ≡ with_clause T w draft.now.line)
        × Keeps lists.new query now U) }
    ensures fault { (query : Option ClauseEntry) → let T = with_all empty added.old.items in
        Keeps lists.old query used T → RefusesClause T (draft_of draft.now) result }
    ensures grown { Grows lists.old lists.new }
    ensures kept { OnErr result (added.new.items ≡ added.old.items) }
{
    let used = clause_added(alloc, lists, scratch, draft, used)?;
    added.push(Added::Clause(Snapshot::of(draft)))?;
    Ok(used)
}

/// Adds a draft to these lists as a query. Refused, they may have grown, and nothing was added.
fn set_query(
    alloc: Global,
    lists: &mut Lists,
    scratch: &mut Scratch,
    added: &mut Vec<Added>,
    draft: &ClauseDraft,
    used: Used,
) -> Result<(ClauseEntry, Used), TableFault>
    requires one { length (draft_of draft.now).finished ≡ 1 }
    requires room { HasRoom (shapes_of lists.old.nodes.items) (names_of lists.old.names.keys) used }
    ensures set { (w : Written) → let T = with_all empty added.old.items in let U = with_all empty added.new.items in
        Keeps lists.old None used T → (draft_of draft.now).finished ≡ w ∷ []
        → IfOk result (λ set. (query_fault T w ≡ None) × (U ≡ with_query T w draft.now.line)
        × Keeps lists.new (Some set.0) set.1 U) }
    ensures fault { let T = with_all empty added.old.items in
        Keeps lists.old None used T → RefusesQuery T (draft_of draft.now) result }
    ensures grown { Grows lists.old lists.new }
    ensures kept { OnErr result (added.new.items ≡ added.old.items) }
{
    let set = query_added(alloc, lists, scratch, draft, used)?;
    added.push(Added::Query(Snapshot::of(draft)))?;
    Ok(set)
}
