//! What a draft is as a clause or a query, and what is wrong with it.

ghost use Rattle.std.specs.Prelude.{ℕ, suc, ◌≡◌, ◌<◌, ◌≤◌, ◌+◌, ◌-◌, ◌^◌, [], ◌∷◌, length, IfOk, IfErr, IfSome, Some};
ghost use Rattle.std.specs.Prelude.{None};
ghost use Rattle.std.specs.Prelude.{get_or};
ghost use Rattle.and_syntax.specs.Written.{Written};
ghost use Rattle.and_syntax.specs.Clauses.{Parts, is_built_in, alternatives_of, head_of, body_of as body_parts};
ghost use Rattle.and_syntax.specs.Clauses.{asked_of as asked_parts};
ghost use Rattle.and_syntax.specs.Tables.{Table, redefines, first_of, sizes, names_with, term_with, clause_fault};
ghost use Rattle.and_syntax.specs.Tables.{query_fault};
ghost use Rattle.and_program.specs.Nodes.{names_of};
ghost use Rattle.and_program.specs.Skeletons.{node_term};
ghost use Rattle.and_drafts.specs.Parts.{part_shapes};
ghost use Rattle.and_drafts.specs.Drafts.{draft_of};
ghost use Rattle.and_judging.specs.Bodies.{IsBody};
ghost use Rattle.and_judging.specs.Sorts.{shapes_under};
ghost use Rattle.and_judging.specs.Verdicts.{IsBodyOf, IsUnder, IsJudged};
ghost use Rattle.and_judging.specs.Judged.{sides_in, sides_at, functor_at, one_in, asked_at};
ghost use Rattle.and_judging.specs.Faults.{fault_of};

use crate::body::{Body, BodyToken, body_of};
use crate::data::{TableFault, What};
use crate::guesses::Guesses;
use crate::numbering::number_of;
use crate::sorting::{Sorted, lifted_nodes, sort_tokens};
use and_drafts::{ClauseDraft, DraftPart};
use and_model::Text;
use and_model::builtins::NECK;
use and_model::limits::{MAX_CLAUSES, MAX_NODES, MAX_VARIABLES};
use indexmap::IndexSet;
use std::alloc::{AllocError, Global};

/// The number of the name `:-`.
const CLAUSE: usize = NECK as usize;

/// A head and a body, which are parts of a draft.
#[derive(Clone, Copy)]
pub(crate) struct Sides {
    pub(crate) head: u32,
    pub(crate) body: Option<u32>,
}

/// A name and how many arguments it has.
#[derive(Clone, Copy)]
pub(crate) struct Functor {
    name: usize,
    arity: usize,
}

/// The head and the body of a clause whose term ends with that part.
pub(crate) fn clause_sides(
    names: &IndexSet<Vec<u8>>,
    guesses: &Guesses,
    parts: &[DraftPart],
    root: u32,
) -> Sides
    requires { root < length parts.now }
    ensures { result ≡ sides_at (names_of names.now.keys) (part_shapes parts.now) root }
{
    match &parts[root as usize] {
        DraftPart::Compound { name, arguments } => sides_of(
            number_of(names, guesses, root, name.bytes()),
            arguments.as_slice(),
            root,
        ),
        DraftPart::Variable(_, _) => Sides {
            head: root,
            body: None,
        },
        DraftPart::Integer(_) => Sides {
            head: root,
            body: None,
        },
    }
}

/// The head and the body of a name with these arguments.
fn sides_of(name: usize, arguments: &[u32], root: u32) -> Sides
    ensures { result ≡ sides_in name arguments.now root }
{
    match arguments {
        [head, body] if name == CLAUSE => Sides {
            head: *head,
            body: Some(*body),
        },
        _ => Sides {
            head: root,
            body: None,
        },
    }
}

/// The name of a head, and how many arguments it has; `None` where it is a variable or a number.
fn head_functor(
    names: &IndexSet<Vec<u8>>,
    guesses: &Guesses,
    parts: &[DraftPart],
    head: u32,
) -> Option<Functor>
    requires { head < length parts.now }
    ensures { result ≡ functor_at (names_of names.now.keys) (part_shapes parts.now) head }
{
    match &parts[head as usize] {
        DraftPart::Compound { name, arguments } => Some(Functor {
            name: number_of(names, guesses, head, name.bytes()),
            arity: arguments.len(),
        }),
        DraftPart::Variable(_, _) => None,
        DraftPart::Integer(_) => None,
    }
}

/// The body of a query whose term ends with that part: its one argument.
pub(crate) fn asked(parts: &[DraftPart], root: u32) -> Option<u32>
    requires { root < length parts.now }
    ensures { result ≡ asked_at (part_shapes parts.now) root }
{
    match &parts[root as usize] {
        DraftPart::Compound { name: _, arguments } => one_of(arguments.as_slice()),
        DraftPart::Variable(_, _) => None,
        DraftPart::Integer(_) => None,
    }
}

/// The one number, where there is exactly one.
fn one_of(numbers: &[u32]) -> Option<u32>
    ensures { result ≡ one_in numbers.now }
{
    match numbers {
        [number] => Some(*number),
        _ => None,
    }
}

/// Whether a name with so many arguments already means something else.
fn already_means(functor: &Functor) -> bool
    ensures { result ≡ is_built_in functor.now.name functor.now.arity }
{
    match functor.arity {
        0 => matches!(functor.name, 0 | 1 | 24),
        1 => functor.name == 23,
        2 => matches!(functor.name, 2..=10 | 21 | 22),
        _ => false,
    }
}

/// The name of that number, and nothing where there is none.
fn name_at(names: &IndexSet<Vec<u8>>, number: usize) -> &[u8]
    ensures { result.now ≡ get_or (names_of names.now.keys) number [] }
{
    match names.get_index(number) {
        Some(name) => name.as_slice(),
        None => &[],
    }
}

/// The refusal of a head that has the name and the number of arguments of something else.
fn redefinition(
    alloc: Global,
    names: &IndexSet<Vec<u8>>,
    functor: &Functor,
) -> Result<TableFault, AllocError>
    requires { functor.now.arity < 256 }
    ensures { let name = get_or (names_of names.now.keys) functor.now.name [] in
        IfOk result (λ e. fault_of e ≡ Some (redefines name functor.now.arity)) }
{
    let name = Text::of(alloc, name_at(names, functor.name))?;
    Ok(TableFault::Redefines {
        name,
        arity: functor.arity as u8,
    })
}

/// How much of a table is used.
#[derive(Clone, Copy)]
pub struct Used {
    /// How many nodes are counted.
    pub nodes: usize,
    /// The last number of a clause or an alternative.
    pub numbers: usize,
    /// How many disjunctions there are.
    pub disjunctions: usize,
}

/// A clause or a query that is not refused: its head, a part of the draft, the tokens of its body, what these fall
/// into, and what is used with it.
#[derive(Drop)]
pub struct Judged {
    pub head: u32,
    pub tokens: Vec<BodyToken>,
    pub sorted: Sorted,
    pub used: Used,
}

/// Judges how much a clause or a query takes, in order: variables, nodes, numbers.
fn sized(
    alloc: Global,
    draft: &ClauseDraft,
    used: Used,
    head: u32,
    body: Body,
) -> Result<Judged, TableFault>
    requires few_nodes { used.nodes ≤ MAX_NODES }
    requires numbered { 0 < body.next_clause }
    requires body { IsBodyOf draft.now.parts.items body }
    ensures judged { (T : Table) (w : Written) (ps : Parts) (c n : ℕ) → IsUnder T w (names_with T w) used
        → (draft_of draft.now).finished ≡ w ∷ []
        → IsBody (shapes_under (names_with T w) draft.now.parts.items) c T.disjunctions ps (Some body)
        → body.next_clause ≡ suc (T.numbers + n)
        → IfOk result (λ j. (first_of (sizes T w ps n) ≡ None) × IsJudged T w draft.now.parts.items ps c n j) }
    ensures head { IfOk result (λ j. j.head ≡ head) }
    ensures fault { (T : Table) (w : Written) (ps : Parts) (c n : ℕ) → IsUnder T w (names_with T w) used
        → (draft_of draft.now).finished ≡ w ∷ []
        → IsBody (shapes_under (names_with T w) draft.now.parts.items) c T.disjunctions ps (Some body)
        → body.next_clause ≡ suc (T.numbers + n)
        → IfErr result (λ e. IfSome (fault_of e) (λ f. first_of (sizes T w ps n) ≡ Some f)) }
{
    let parts = draft.parts();
    if draft.variable_count() > MAX_VARIABLES {
        return Err(TableFault::TooBig {
            what: What::Variables,
        });
    }
    let room = MAX_NODES - used.nodes;
    if parts.len() > room {
        return Err(TableFault::TooBig { what: What::Nodes });
    }
    let sorted = sort_tokens(alloc, parts, &body.tokens)?;
    let Some(lifted) = lifted_nodes(&sorted.disjunctions, room - parts.len()) else {
        return Err(TableFault::TooBig { what: What::Nodes });
    };
    if body.next_clause > MAX_CLAUSES + 1 {
        return Err(TableFault::TooBig {
            what: What::Clauses,
        });
    }
    Ok(with_nodes(used, head, body, sorted, parts.len() + lifted))
}

/// What was judged, with so many nodes more.
fn with_nodes(used: Used, head: u32, body: Body, sorted: Sorted, nodes: usize) -> Judged
    requires numbered { 0 < body.next_clause }
    requires few { used.nodes + nodes < 2 ^ 64 }
    ensures head { result.head ≡ head }
    ensures tokens { result.tokens.items ≡ body.tokens.items }
    ensures disjunctions { result.sorted.disjunctions.items ≡ sorted.disjunctions.items }
    ensures outlines { result.sorted.outlines.items ≡ sorted.outlines.items }
    ensures used { result.used ≡ record {
      nodes = used.nodes + nodes;
      numbers = body.next_clause - 1;
      disjunctions = body.next_disjunction;
    } }
{
    let Body {
        tokens,
        next_clause,
        next_disjunction,
    } = body;
    Judged {
        head,
        tokens,
        sorted,
        used: Used {
            nodes: used.nodes + nodes,
            numbers: next_clause - 1,
            disjunctions: next_disjunction,
        },
    }
}

/// A draft as a clause, under the names of a table that has so much.
pub fn judge_clause(
    alloc: Global,
    names: &IndexSet<Vec<u8>>,
    guesses: &Guesses,
    draft: &ClauseDraft,
    used: Used,
) -> Result<Judged, TableFault>
    requires one { length (draft_of draft.now).finished ≡ 1 }
    requires few_nodes { used.nodes ≤ MAX_NODES }
    requires few_clauses { used.numbers ≤ MAX_CLAUSES }
    requires few_disjunctions { used.disjunctions ≤ used.nodes }
    ensures judged { (T : Table) (w : Written) → IsUnder T w (names_of names.now.keys) used
        → (draft_of draft.now).finished ≡ w ∷ [] → let ps = body_parts (term_with T w) in
        IfOk result (λ j. (clause_fault T w ≡ None)
        × IsJudged T w draft.now.parts.items ps (suc (suc T.numbers)) (suc (alternatives_of ps)) j) }
    ensures head { (T : Table) (w : Written) → IsUnder T w (names_of names.now.keys) used
        → (draft_of draft.now).finished ≡ w ∷ [] → let parts = draft.now.parts.items in
        IfOk result (λ j. (j.head < length parts)
        × (node_term (shapes_under (names_with T w) parts) j.head ≡ head_of (term_with T w))) }
    ensures fault { (T : Table) (w : Written) → IsUnder T w (names_of names.now.keys) used
        → (draft_of draft.now).finished ≡ w ∷ []
        → IfErr result (λ e. IfSome (fault_of e) (λ f. clause_fault T w ≡ Some f)) }
{
    let parts = draft.parts();
    let sides = clause_sides(names, guesses, parts, draft.root());
    let Some(functor) = head_functor(names, guesses, parts, sides.head) else {
        return Err(TableFault::NotPure);
    };
    let clause = used.numbers + 2;
    let Some(body) = body_of(
        alloc,
        names,
        guesses,
        parts,
        sides.body,
        clause,
        used.disjunctions,
    )?
    else {
        return Err(TableFault::NotPure);
    };
    if already_means(&functor) {
        return Err(redefinition(alloc, names, &functor)?);
    }
    sized(alloc, draft, used, sides.head, body)
}

/// A draft as a query, under the names of a table that has so much. (Its head is no part: 0 stands for it.)
pub fn judge_query(
    alloc: Global,
    names: &IndexSet<Vec<u8>>,
    guesses: &Guesses,
    draft: &ClauseDraft,
    used: Used,
) -> Result<Judged, TableFault>
    requires one { length (draft_of draft.now).finished ≡ 1 }
    requires few_nodes { used.nodes ≤ MAX_NODES }
    requires few_clauses { used.numbers ≤ MAX_CLAUSES }
    requires few_disjunctions { used.disjunctions ≤ used.nodes }
    ensures judged { (T : Table) (w : Written) → IsUnder T w (names_of names.now.keys) used
        → (draft_of draft.now).finished ≡ w ∷ [] → T.asked ≡ None → let ps = asked_parts (term_with T w) in
        IfOk result (λ j. (query_fault T w ≡ None)
        × IsJudged T w draft.now.parts.items ps (suc T.numbers) (alternatives_of ps) j) }
    ensures fault { (T : Table) (w : Written) → IsUnder T w (names_of names.now.keys) used
        → (draft_of draft.now).finished ≡ w ∷ [] → T.asked ≡ None
        → IfErr result (λ e. IfSome (fault_of e) (λ f. query_fault T w ≡ Some f)) }
{
    let parts = draft.parts();
    let part = asked(parts, draft.root());
    let clause = used.numbers + 1;
    let Some(body) = body_of(
        alloc,
        names,
        guesses,
        parts,
        part,
        clause,
        used.disjunctions,
    )?
    else {
        return Err(TableFault::NotPure);
    };
    sized(alloc, draft, used, 0, body)
}
