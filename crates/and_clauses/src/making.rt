//! The clauses of a table that drafts are made into.

ghost use Rattle.std.specs.Prelude.{◌≡◌, ◌<◌, ◌≤◌, ◌+◌, ◌^◌, ℕ, [], ◌∷◌, ◌++◌, length, take, true, None, Some, Option};
ghost use Rattle.std.specs.Prelude.{IfOk, OnOk, IfSome};
ghost use Rattle.and_model.specs.OwnVariables.{AreOwn};
ghost use Rattle.and_source.specs.Source.{SourceItems};
ghost use Rattle.and_source.specs.Lifted.{lifted_clause, clauses_of_items};
ghost use Rattle.and_syntax.specs.Written.{Written};
ghost use Rattle.and_syntax.specs.Clauses.{Parts};
ghost use Rattle.and_syntax.specs.Tables.{Table, clause_fault, query_fault, with_clause, with_query};
ghost use Rattle.and_program.specs.Nodes.{shapes_of, names_of};
ghost use Rattle.and_program.specs.Kept.{begins_with_true};
ghost use Rattle.and_program.specs.declared.entry.ClauseEntry.{ClauseEntry};
ghost use Rattle.and_drafts.specs.Parts.{part_shapes};
ghost use Rattle.and_drafts.specs.Numbered.{met_by, Extends};
ghost use Rattle.and_drafts.specs.Variables.{AllNumbered};
ghost use Rattle.and_drafts.specs.Drafts.{draft_of};
ghost use Rattle.and_clauses.specs.Added.{RefusesClause, RefusesQuery};
ghost use Rattle.and_judging.specs.Sorts.{outlines_in};
ghost use Rattle.and_judging.specs.Outlined.{outlines_size};
ghost use Rattle.and_clauses.specs.Copied.{Grown};
ghost use Rattle.and_clauses.specs.Copies.{Begins, IsNode};
ghost use Rattle.and_clauses.specs.Lifts.{names_under, nodes_under, named_under, IsLifting, HaveRoom, AreLifted};
ghost use Rattle.and_clauses.specs.Lifts.{head_term, head_size, clause_under, AreOutlines};
ghost use Rattle.and_clauses.specs.Makes.{Keeps, HasRoom, Grows, IsReady, IsMade};
ghost use Rattle.and_model.specs.declared.limits.TheConstants.{MAX_VARIABLES};

use crate::lifting::{Lifting, alternatives, copied, lifted_items};
use crate::scratch::{CopyLists, Scratch};
use and_drafts::ClauseDraft;
use and_judging::{
    BodyToken, Called, Guesses, Judged, Outline, Sorted, TableFault, Used, append_calls,
    judge_clause, judge_query, note_disjunctions, note_names, written_names,
};
use and_model::NodeNo;
use and_program::{ClauseEntry, Node};
use indexmap::IndexSet;
use std::alloc::{AllocError, Global};

/// The lists of a table, which grow at their ends.
#[derive(Drop)]
pub(crate) struct Lists {
    pub(crate) names: IndexSet<Vec<u8>>,
    /// Node 0 is the atom `true`, the head of a query.
    pub(crate) nodes: Vec<Node>,
    /// The clauses and those of their alternatives, by their numbers.
    pub(crate) clauses: Vec<ClauseEntry>,
    /// What the clauses and the query call, in the order of the text.
    pub(crate) calls: Vec<Called>,
}

/// How long the lists of a table are.
#[derive(Clone, Copy)]
pub(crate) struct Lengths {
    pub(crate) names: usize,
    pub(crate) nodes: usize,
    pub(crate) clauses: usize,
    pub(crate) calls: usize,
}

impl Lists {
    /// How long they are.
    pub(crate) fn lengths(&self) -> Lengths
        ensures names { result.names ≡ length (names_of self.now.names.keys) }
        ensures nodes { result.nodes ≡ length (shapes_of self.now.nodes.items) }
        ensures clauses { result.clauses ≡ length self.now.clauses.items }
        ensures calls { result.calls ≡ length self.now.calls.items }
    {
        Lengths {
            names: self.names.len(),
            nodes: self.nodes.len(),
            clauses: self.clauses.len(),
            calls: self.calls.len(),
        }
    }

    /// Makes them as short again as they were.
    pub(crate) fn cut(&mut self, lengths: Lengths)
        ensures names { names_of self.new.names.keys ≡ take lengths.names (names_of self.old.names.keys) }
        ensures nodes { shapes_of self.new.nodes.items ≡ take lengths.nodes (shapes_of self.old.nodes.items) }
        ensures clauses { self.new.clauses.items ≡ take lengths.clauses self.old.clauses.items }
        ensures calls { self.new.calls.items ≡ take lengths.calls self.old.calls.items }
    {
        self.names.truncate(lengths.names);
        self.nodes.truncate(lengths.nodes);
        self.clauses.truncate(lengths.clauses);
        self.calls.truncate(lengths.calls);
    }
}

/// What a draft is made into: its clause, those of its alternatives, its tokens, and what is used with it.
#[derive(Drop)]
pub(crate) struct Made {
    pub(crate) entry: ClauseEntry,
    pub(crate) alternatives: Vec<ClauseEntry>,
    pub(crate) tokens: Vec<BodyToken>,
    pub(crate) used: Used,
}

/// Adds a draft as a clause to the lists of a table that has so much, and answers what it has then. Refused, the
/// lists may have grown.
pub(crate) fn clause_added(
    alloc: Global,
    lists: &mut Lists,
    scratch: &mut Scratch,
    draft: &ClauseDraft,
    used: Used,
) -> Result<Used, TableFault>
    requires one { length (draft_of draft.now).finished ≡ 1 }
    requires room { HasRoom (shapes_of lists.old.nodes.items) (names_of lists.old.names.keys) used }
    ensures added { (query : Option ClauseEntry) (T : Table) (w : Written) → Keeps lists.old query used T
        → (draft_of draft.now).finished ≡ w ∷ []
        → IfOk result (λ now. (clause_fault T w ≡ None) × Keeps lists.new query now
        (with_clause T w (draft_of draft.now).line)) }
    ensures fault { (query : Option ClauseEntry) (T : Table) → Keeps lists.old query used T
        → RefusesClause T (draft_of draft.now) result }
    ensures grown { Grows lists.old lists.new }
{
    let Scratch {
        guesses,
        parts,
        copying,
    } = scratch;
    note_names(
        alloc,
        &mut lists.names,
        guesses,
        parts,
        draft.parts(),
        draft.root(),
    )?;
    let judged = judge_clause(alloc, &lists.names, guesses, draft, used)?;
    let head = Some(judged.head);
    let made = made_of(
        alloc,
        &mut lists.names,
        &mut lists.nodes,
        guesses,
        copying,
        draft,
        judged,
        head,
        used.disjunctions,
    )?;
    let Made {
        entry,
        alternatives,
        tokens,
        used,
    } = made;
    lists.clauses.push(entry)?;
    append_entries(&mut lists.clauses, alternatives)?;
    append_calls(
        &mut lists.calls,
        &lists.names,
        guesses,
        draft.parts(),
        &tokens,
        draft.line(),
    )?;
    Ok(used)
}

/// Adds the alternatives of a draft as a query to the lists of a table that has so much, and answers the query and
/// what the table has then. Refused, the lists may have grown.
pub(crate) fn query_added(
    alloc: Global,
    lists: &mut Lists,
    scratch: &mut Scratch,
    draft: &ClauseDraft,
    used: Used,
) -> Result<(ClauseEntry, Used), TableFault>
    requires one { length (draft_of draft.now).finished ≡ 1 }
    requires room { HasRoom (shapes_of lists.old.nodes.items) (names_of lists.old.names.keys) used }
    ensures set { (T : Table) (w : Written) → Keeps lists.old None used T
        → (draft_of draft.now).finished ≡ w ∷ []
        → IfOk result (λ made. (query_fault T w ≡ None) × Keeps lists.new (Some made.0) made.1
        (with_query T w (draft_of draft.now).line)) }
    ensures fault { (T : Table) → Keeps lists.old None used T → RefusesQuery T (draft_of draft.now) result }
    ensures grown { Grows lists.old lists.new }
{
    let Scratch {
        guesses,
        parts,
        copying,
    } = scratch;
    note_names(
        alloc,
        &mut lists.names,
        guesses,
        parts,
        draft.parts(),
        draft.root(),
    )?;
    let judged = judge_query(alloc, &lists.names, guesses, draft, used)?;
    let made = made_of(
        alloc,
        &mut lists.names,
        &mut lists.nodes,
        guesses,
        copying,
        draft,
        judged,
        None,
        used.disjunctions,
    )?;
    let Made {
        entry,
        alternatives,
        tokens,
        used,
    } = made;
    append_entries(&mut lists.clauses, alternatives)?;
    append_calls(
        &mut lists.calls,
        &lists.names,
        guesses,
        draft.parts(),
        &tokens,
        draft.line(),
    )?;
    Ok((entry, used))
}

/// Adds these clauses.
fn append_entries(
    clauses: &mut Vec<ClauseEntry>,
    mut more: Vec<ClauseEntry>,
) -> Result<(), AllocError>
    ensures appended { OnOk result (clauses.new.items ≡ clauses.old.items ++ more.items) }
    ensures kept { take (length clauses.old.items) clauses.new.items ≡ clauses.old.items }
{
    clauses.append(&mut more)
}

/// Makes what was judged, whose first disjunction has that number; its head is a part, or the atom `true`.
fn made_of(
    alloc: Global,
    names: &mut IndexSet<Vec<u8>>,
    nodes: &mut Vec<Node>,
    guesses: &Guesses,
    copying: &mut CopyLists,
    draft: &ClauseDraft,
    judged: Judged,
    head: Option<u32>,
    first: usize,
) -> Result<Made, AllocError>
    requires ready { (T : Table) × (w : Written) × (ps : Parts) × (c : ℕ) × (n : ℕ) × IsReady T w ps c n
        (names_of names.old.keys) (shapes_of nodes.old.items) draft.now judged head first }
    ensures made { (T : Table) (w : Written) (ps : Parts) (c n : ℕ) → IsReady T w ps c n
        (names_of names.old.keys) (shapes_of nodes.old.items) draft.now judged head first
        → IfOk result (λ made. IsMade T w ps c (names_of names.new.keys) (shapes_of nodes.old.items)
        (shapes_of nodes.new.items) draft.now judged head made) }
    ensures names_kept { Extends (names_of names.old.keys) (names_of names.new.keys) }
    ensures nodes_kept { Begins (shapes_of nodes.old.items) (shapes_of nodes.new.items) }
{
    let Judged {
        head: _,
        tokens,
        sorted,
        used,
    } = judged;
    let Sorted {
        disjunctions,
        outlines,
    } = sorted;
    let numbers = note_disjunctions(alloc, names, first, disjunctions.len())?;
    let lifting = Lifting {
        alloc,
        names,
        guesses,
        parts: draft.parts(),
        disjunctions: &disjunctions,
        numbers: &numbers,
    };
    let (entry, alternatives) = entries(
        lifting,
        nodes,
        copying,
        &outlines,
        head,
        draft.line(),
        draft.variable_count(),
    )?;
    Ok(Made {
        entry,
        alternatives,
        tokens,
        used,
    })
}

/// The clauses of these outlines, the first of which is the clause itself. (So many variables are expected, of which
/// nothing has to be true.)
fn entries(
    lifting: Lifting<'_>,
    nodes: &mut Vec<Node>,
    lists: &mut CopyLists,
    outlines: &[Outline],
    head: Option<u32>,
    line: u32,
    variables: usize,
) -> Result<(ClauseEntry, Vec<ClauseEntry>), AllocError>
    requires lifting { IsLifting lifting }
    requires numbered { AllNumbered [] lifting.parts.now }
    requires few_parts { length lifting.parts.now < 2 ^ 32 }
    requires few { length (met_by [] (part_shapes lifting.parts.now)) ≤ MAX_VARIABLES }
    requires head { IfSome head (λ n. n < length lifting.parts.now) }
    requires begins { begins_with_true (shapes_of nodes.old.items) ≡ true }
    requires outlines { (items : SourceItems) × AreOutlines lifting head line outlines.now items }
    requires room { HaveRoom (length (names_under lifting)) (shapes_of nodes.old.items)
        (head_size (nodes_under lifting) head
        + outlines_size (named_under lifting) (outlines_in (nodes_under lifting) outlines.now)) }
    ensures grown { let old = shapes_of nodes.old.items in
        OnOk result (Grown (length (names_under lifting.entry)) old (shapes_of nodes.new.items)
        (length old + (head_size (nodes_under lifting.entry) head
        + outlines_size (named_under lifting.entry) (outlines_in (nodes_under lifting.entry) outlines.now)))) }
    ensures kept { Begins (shapes_of nodes.old.items) (shapes_of nodes.new.items) }
    ensures lifted { (number : ℕ) (items : SourceItems) → AreOutlines lifting.entry head line outlines.now items
        → let k = record (clause_under lifting.entry head line items) { number = number } in
        IfOk result (λ made. AreLifted (shapes_of nodes.new.items) (made.0 ∷ made.1.items)
        (lifted_clause k ∷ clauses_of_items k items)) }
    ensures asked { head ≡ None → IfOk result (λ made. made.0.head.0 ≡ 0) }
{
    let head = head_node(lifting, nodes, lists, head)?;
    let items = lifted_items(lifting, nodes, lists, None, outlines[0].pieces.as_slice())?;
    let written = written_names(lifting.alloc, lifting.parts, variables)?;
    let alternatives = alternatives(lifting, nodes, lists, &written, &outlines[1..], line)?;
    Ok((ClauseEntry::new(head, items, written, line), alternatives))
}

/// The node of a head, whose nodes are added: that of a part, or of the atom `true`.
fn head_node(
    lifting: Lifting<'_>,
    nodes: &mut Vec<Node>,
    lists: &mut CopyLists,
    head: Option<u32>,
) -> Result<NodeNo, AllocError>
    requires lifting { IsLifting lifting }
    requires there { IfSome head (λ n. n < length lifting.parts.now) }
    requires begins { begins_with_true (shapes_of nodes.old.items) ≡ true }
    requires own { AreOwn MAX_VARIABLES (head_term (nodes_under lifting) head) }
    requires room { HaveRoom (length (names_under lifting)) (shapes_of nodes.old.items)
        (head_size (nodes_under lifting) head) }
    ensures grown { let old = shapes_of nodes.old.items in
        OnOk result (Grown (length (names_under lifting.entry)) old (shapes_of nodes.new.items)
        (length old + head_size (nodes_under lifting.entry) head)) }
    ensures kept { Begins (shapes_of nodes.old.items) (shapes_of nodes.new.items) }
    ensures node { IfOk result (λ n. IsNode (shapes_of nodes.new.items) n.0
        (head_term (nodes_under lifting.entry) head)) }
    ensures asked { head ≡ None → IfOk result (λ n. n.0 ≡ 0) }
{
    match head {
        Some(part) => copied(lifting, nodes, lists, None, part),
        None => Ok(NodeNo(0)),
    }
}
