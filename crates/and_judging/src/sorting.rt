//! The clauses and the disjunctions into which a body falls.

ghost use Rattle.std.specs.Prelude.{◌≡◌, ◌<◌, ◌≤◌, ◌+◌, ◌*◌, ◌-◌, ◌^◌, ℕ, List, [], ◌∷◌, ◌++◌, length, get_or, IfOk};
ghost use Rattle.std.specs.Prelude.{OnOk, reverse};
ghost use Rattle.std.specs.Prelude.{Some, None, cond, leb};
ghost use Rattle.and_model.specs.Lines.{Bytes, first_seen};
ghost use Rattle.and_model.specs.Terms.{variables_of};
ghost use Rattle.and_model.specs.Stands.{item_term};
ghost use Rattle.and_program.specs.Skeletons.{Shape, node_term, item_of};
ghost use Rattle.and_program.specs.Items.{node_item};
ghost use Rattle.and_syntax.specs.Clauses.{Parts, numbered};
ghost use Rattle.and_drafts.specs.Parts.{part_shapes, part_shape, arguments_of, PartsFall};
ghost use Rattle.and_judging.specs.Bodies.{marks_at};
ghost use Rattle.and_judging.specs.Marks.{mark_of, marks_in, open_mark, next as next_mark, close as close_mark};
ghost use Rattle.and_judging.specs.Sorted.{alter, alter_in, with_piece, with_variables, with_alternative};
ghost use Rattle.and_judging.specs.Sorted.{variables_in_scope};
ghost use Rattle.and_judging.specs.Sorted.{step, begun as nothing_sorted, locals_size};
ghost use Rattle.and_judging.specs.Sorts.{shapes_under, shape_under, own, locals_in, variable_in, piece_in};
ghost use Rattle.and_judging.specs.Sorts.{outlines_in, sorting_in};
ghost use Rattle.and_judging.specs.Sorts.{ItemThere, TokenThere, TokensThere, AreFew, AreNarrow, IsSorted};
ghost use Rattle.and_judging.specs.Sorts.{AreItemsThere, AreOutlinesThere};

use crate::body::BodyToken;
use crate::numbering::push_reversed;
use and_drafts::DraftPart;
use and_program::ItemNode;
use smallvec::SmallVec;
use std::alloc::{AllocError, Global};

/// A disjunction: its distinct variables by first occurrence, which are numbered as in its clause, and how many
/// alternatives it has.
pub struct Disjunction {
    pub variables: SmallVec<u32, 6>,
    pub count: usize,
}

// By hand, so that it is proved once, here.
impl Drop for Disjunction {
    fn drop(self) {
        let Disjunction {
            variables: _,
            count: _,
        } = self;
    }
}

/// An item of a clause that is to be made.
#[derive(Clone, Copy)]
pub enum Piece {
    /// An item, by its parts.
    Item(ItemNode),
    /// The call to which a disjunction is lifted, by its number among those of its clause.
    Disjunction(usize),
}

impl Default for Piece {
    fn default() -> Piece {
        Piece::Disjunction(0)
    }
}

/// A clause that is to be made: the disjunction of which it is an alternative, if it is one, and its items.
pub struct Outline {
    pub scope: Option<usize>,
    pub pieces: SmallVec<Piece, 2>,
}

// By hand, so that it is proved once, here.
impl Drop for Outline {
    fn drop(self) {
        let Outline {
            scope: _,
            pieces: _,
        } = self;
    }
}

/// Where items are put: the number of an outline, and the disjunction in which it stands.
#[derive(Clone, Copy)]
pub(crate) struct Place {
    outline: usize,
    scope: Option<usize>,
}

/// The disjunctions of a body, an outer one before those inside it, and the clauses: that of the body itself, and then
/// those of its alternatives.
#[derive(Drop)]
pub struct Sorted {
    pub disjunctions: Vec<Disjunction>,
    pub outlines: Vec<Outline>,
}

/// What was sorted so far, where the next item is put, and where to go on when the disjunction ends.
#[derive(Drop)]
pub(crate) struct Sorting {
    pub(crate) sorted: Sorted,
    here: Place,
    around: Vec<Place>,
}

/// Sorts the tokens of a body, whose items are parts. An error is want of memory.
pub(crate) fn sort_tokens(
    alloc: Global,
    parts: &[DraftPart],
    tokens: &[BodyToken],
) -> Result<Sorted, AllocError>
    requires falls { PartsFall 0 (part_shapes parts.now) }
    requires there { TokensThere (length parts.now) tokens.now }
    requires few { length tokens.now < 2 ^ 64 }
    ensures sorted { (names : List Bytes) (name : ℕ → ℕ) (c d : ℕ) (ps : Parts)
        → let ss = shapes_under names parts.now in
        marks_in ss tokens.now ≡ marks_at c d ps → IfOk result (IsSorted ss (numbered name c d ps)) }
    ensures there { IfOk result (λ sorted. AreOutlinesThere (length parts.now) sorted.outlines.items) }
{
    let mut sorting = begin(alloc)?;
    let mut pending = Vec::new(alloc);
    for token in tokens {
        take_token(alloc, parts, &mut pending, &mut sorting, token)?;
    }
    let Sorting { sorted, .. } = sorting;
    Ok(sorted)
}

/// Nothing but the outline of the body itself.
fn begin(alloc: Global) -> Result<Sorting, AllocError>
    ensures { (ss : List Shape) → IfOk result (λ s. sorting_in ss s ≡ nothing_sorted) }
{
    let mut outlines = Vec::new(alloc);
    outlines.push(Outline {
        scope: None,
        pieces: SmallVec::new(alloc),
    })?;
    Ok(Sorting {
        sorted: Sorted {
            disjunctions: Vec::new(alloc),
            outlines,
        },
        here: Place {
            outline: 0,
            scope: None,
        },
        around: Vec::new(alloc),
    })
}

/// Sorts one more token.
fn take_token(
    alloc: Global,
    parts: &[DraftPart],
    pending: &mut Vec<u32>,
    sorting: &mut Sorting,
    token: &BodyToken,
) -> Result<(), AllocError>
    requires falls { PartsFall 0 (part_shapes parts.now) }
    requires there { TokenThere (length parts.now) token.now }
    requires few { AreFew (2 ^ 64 - 2) (locals_in sorting.old.sorted.disjunctions.items) }
    ensures sorted { (names : List Bytes) → let ss = shapes_under names parts.now in
        OnOk result (sorting_in ss sorting.new ≡ step (sorting_in ss sorting.old) (mark_of ss token.now)) }
    ensures there { AreOutlinesThere (length parts.now) sorting.old.sorted.outlines.items
        → OnOk result (AreOutlinesThere (length parts.now) sorting.new.sorted.outlines.items) }
{
    match token {
        BodyToken::Item(item) => {
            let here = sorting.here;
            note_item(
                parts,
                pending,
                &mut sorting.sorted.disjunctions,
                here.scope,
                item,
            )?;
            add_piece(
                &mut sorting.sorted.outlines,
                here.outline,
                Piece::Item(*item),
            )
        }
        BodyToken::Open(_) => open(alloc, sorting),
        BodyToken::Next(_) => next(alloc, sorting),
        BodyToken::Close => close(pending, sorting),
    }
}

/// A disjunction begins.
fn open(alloc: Global, sorting: &mut Sorting) -> Result<(), AllocError>
    ensures sorted { (ss : List Shape) (d : ℕ)
        → OnOk result (sorting_in ss sorting.new ≡ step (sorting_in ss sorting.old) (open_mark d)) }
    ensures there { (n : ℕ) → AreOutlinesThere n sorting.old.sorted.outlines.items
        → OnOk result (AreOutlinesThere n sorting.new.sorted.outlines.items) }
{
    let here = sorting.here;
    let number = sorting.sorted.disjunctions.len();
    add_piece(
        &mut sorting.sorted.outlines,
        here.outline,
        Piece::Disjunction(number),
    )?;
    sorting.sorted.disjunctions.push(Disjunction {
        variables: SmallVec::new(alloc),
        count: 0,
    })?;
    sorting.around.push(here)?;
    sorting.here = Place {
        outline: here.outline,
        scope: Some(number),
    };
    Ok(())
}

/// Its next alternative begins.
fn next(alloc: Global, sorting: &mut Sorting) -> Result<(), AllocError>
    requires { AreFew (2 ^ 64 - 2) (locals_in sorting.old.sorted.disjunctions.items) }
    ensures sorted { (ss : List Shape) (c : ℕ)
        → OnOk result (sorting_in ss sorting.new ≡ step (sorting_in ss sorting.old) (next_mark c)) }
    ensures there { (n : ℕ) → AreOutlinesThere n sorting.old.sorted.outlines.items
        → OnOk result (AreOutlinesThere n sorting.new.sorted.outlines.items) }
{
    let scope = sorting.here.scope;
    count_alternative(&mut sorting.sorted.disjunctions, scope);
    let outline = sorting.sorted.outlines.len();
    sorting.sorted.outlines.push(Outline {
        scope,
        pieces: SmallVec::new(alloc),
    })?;
    sorting.here = Place { outline, scope };
    Ok(())
}

/// The disjunction ends. Its variables are variables of the one around it. What was in the list means nothing.
fn close(list: &mut Vec<u32>, sorting: &mut Sorting) -> Result<(), AllocError>
    ensures sorted { (ss : List Shape)
        → OnOk result (sorting_in ss sorting.new ≡ step (sorting_in ss sorting.old) close_mark) }
    ensures there { (n : ℕ) → AreOutlinesThere n sorting.old.sorted.outlines.items
        → OnOk result (AreOutlinesThere n sorting.new.sorted.outlines.items) }
{
    let inner = sorting.here.scope;
    if let Some(outer) = sorting.around.pop() {
        note_inner(list, &mut sorting.sorted.disjunctions, inner, outer.scope)?;
        sorting.here = outer;
    }
    Ok(())
}

/// Puts a piece at the end of an outline.
fn add_piece(outlines: &mut Vec<Outline>, place: usize, piece: Piece) -> Result<(), AllocError>
    ensures altered { (ss : List Shape) → OnOk result (outlines_in ss outlines.new.items
        ≡ alter place (with_piece (piece_in ss piece)) (outlines_in ss outlines.old.items)) }
    ensures there { (n : ℕ) → AreItemsThere n (piece ∷ []) → AreOutlinesThere n outlines.old.items
        → OnOk result (AreOutlinesThere n outlines.new.items) }
{
    if place < outlines.len() {
        let outline = &mut outlines[place];
        outline.pieces.push(piece)?;
    }
    Ok(())
}

/// Counts one more alternative of a disjunction.
fn count_alternative(disjunctions: &mut Vec<Disjunction>, scope: Option<usize>)
    requires { AreFew (2 ^ 64 - 2) (locals_in disjunctions.old.items) }
    ensures { locals_in disjunctions.new.items ≡ alter_in scope with_alternative (locals_in disjunctions.old.items) }
{
    if let Some(place) = scope {
        if place < disjunctions.len() {
            let disjunction = &mut disjunctions[place];
            disjunction.count += 1;
        }
    }
}

/// Notes the variables of an item in the disjunction in which it stands.
fn note_item(
    parts: &[DraftPart],
    pending: &mut Vec<u32>,
    disjunctions: &mut Vec<Disjunction>,
    scope: Option<usize>,
    item: &ItemNode,
) -> Result<(), AllocError>
    requires falls { PartsFall 0 (part_shapes parts.now) }
    requires there { ItemThere (length parts.now) item.now }
    ensures { (names : List Bytes) → let term =
        item_term (item_of (shapes_under names parts.now) (node_item item.now)) in
        OnOk result (locals_in disjunctions.new.items
        ≡ alter_in scope (with_variables (variables_of term)) (locals_in disjunctions.old.items)) }
{
    if let Some(place) = scope {
        if place < disjunctions.len() {
            let disjunction = &mut disjunctions[place];
            note_terms(parts, pending, item, &mut disjunction.variables)?;
        }
    }
    Ok(())
}

/// Notes the variables of a disjunction in the one around it.
fn note_inner(
    list: &mut Vec<u32>,
    disjunctions: &mut Vec<Disjunction>,
    inner: Option<usize>,
    outer: Option<usize>,
) -> Result<(), AllocError>
    ensures { let old = locals_in disjunctions.old.items in
        OnOk result (locals_in disjunctions.new.items
        ≡ alter_in outer (with_variables (variables_in_scope old inner)) old) }
{
    copy_variables(list, disjunctions, inner)?;
    note_in(disjunctions, outer, list)
}

/// Notes these variables in a disjunction, if there is one.
fn note_in(
    disjunctions: &mut Vec<Disjunction>,
    scope: Option<usize>,
    variables: &[u32],
) -> Result<(), AllocError>
    ensures { OnOk result (locals_in disjunctions.new.items
        ≡ alter_in scope (with_variables (own variables.now)) (locals_in disjunctions.old.items)) }
{
    if let Some(place) = scope {
        if place < disjunctions.len() {
            let disjunction = &mut disjunctions[place];
            note_all(&mut disjunction.variables, variables)?;
        }
    }
    Ok(())
}

/// Makes the list that of the variables of a disjunction, if there is one.
fn copy_variables(
    list: &mut Vec<u32>,
    disjunctions: &[Disjunction],
    scope: Option<usize>,
) -> Result<(), AllocError>
    ensures { OnOk result (own list.new.items ≡ variables_in_scope (locals_in disjunctions.now) scope) }
{
    list.clear();
    if let Some(place) = scope {
        if place < disjunctions.len() {
            list.extend_from_slice(disjunctions[place].variables.as_slice())?;
        }
    }
    Ok(())
}

/// Notes the variables of an item's terms, from left to right.
fn note_terms(
    parts: &[DraftPart],
    pending: &mut Vec<u32>,
    item: &ItemNode,
    variables: &mut SmallVec<u32, 6>,
) -> Result<(), AllocError>
    requires falls { PartsFall 0 (part_shapes parts.now) }
    requires there { ItemThere (length parts.now) item.now }
    ensures { (names : List Bytes) → let term =
        item_term (item_of (shapes_under names parts.now) (node_item item.now)) in
        OnOk result (own variables.new.items ≡ first_seen (own variables.old.items) (variables_of term)) }
{
    match item {
        ItemNode::Call { goal } => note_term(parts, pending, goal.0, variables),
        ItemNode::Equal { left, right } => {
            note_term(parts, pending, left.0, variables)?;
            note_term(parts, pending, right.0, variables)
        }
        ItemNode::Is {
            left,
            right,
            pair: _,
        } => {
            note_term(parts, pending, left.0, variables)?;
            note_term(parts, pending, right.0, variables)
        }
        ItemNode::Compare {
            relation: _,
            left,
            right,
        } => {
            note_term(parts, pending, left.0, variables)?;
            note_term(parts, pending, right.0, variables)
        }
        ItemNode::Fail => Ok(()),
    }
}

/// Notes the variables of a term, from left to right. What was in the list means nothing.
fn note_term(
    parts: &[DraftPart],
    pending: &mut Vec<u32>,
    root: u32,
    variables: &mut SmallVec<u32, 6>,
) -> Result<(), AllocError>
    requires falls { PartsFall 0 (part_shapes parts.now) }
    requires there { root < length parts.now }
    ensures { (names : List Bytes) → let term = node_term (shapes_under names parts.now) root in
        OnOk result (own variables.new.items ≡ first_seen (own variables.old.items) (variables_of term)) }
{
    pending.clear();
    pending.push(root)?;
    while let Some(number) = pending.pop() {
        let part = &parts[number as usize];
        note_part(part, variables, pending)?;
    }
    Ok(())
}

/// Notes the variable of a part, or makes its arguments the parts that come next.
fn note_part(
    part: &DraftPart,
    variables: &mut SmallVec<u32, 6>,
    pending: &mut Vec<u32>,
) -> Result<(), AllocError>
    ensures variables { OnOk result (own variables.new.items
        ≡ first_seen (own variables.old.items) (variable_in part.now)) }
    ensures pending { OnOk result (reverse pending.new.items
        ≡ arguments_of (part_shape part.now) ++ reverse pending.old.items) }
{
    match part {
        DraftPart::Variable(_, number) => note(variables, *number),
        DraftPart::Integer(_) => Ok(()),
        DraftPart::Compound { name: _, arguments } => push_reversed(pending, arguments.as_slice()),
    }
}

/// Notes these variables, in their order.
fn note_all(variables: &mut SmallVec<u32, 6>, others: &[u32]) -> Result<(), AllocError>
    ensures { OnOk result (own variables.new.items ≡ first_seen (own variables.old.items) (own others.now)) }
{
    for variable in others {
        note(variables, *variable)?;
    }
    Ok(())
}

/// Notes a variable, where it is not noted yet.
fn note(variables: &mut SmallVec<u32, 6>, variable: u32) -> Result<(), AllocError>
    ensures { OnOk result (own variables.new.items ≡ first_seen (own variables.old.items) (own (variable ∷ []))) }
{
    if !variables.as_slice().contains(&variable) {
        variables.push(variable)?;
    }
    Ok(())
}

/// How many nodes the calls and heads have to which these disjunctions are lifted; `None` where that is more than
/// `room`.
pub(crate) fn lifted_nodes(disjunctions: &[Disjunction], room: usize) -> Option<usize>
    requires room { room ≤ 2 ^ 32 }
    requires few { AreFew (2 ^ 32) (locals_in disjunctions.now) }
    requires narrow { AreNarrow 255 (locals_in disjunctions.now) }
    ensures { let nodes = locals_size (locals_in disjunctions.now) in result ≡ cond (leb nodes room) (Some nodes) None }
{
    let mut nodes = 0;
    for disjunction in disjunctions {
        nodes += (disjunction.count + 1) * (disjunction.variables.len() + 1);
        if nodes > room {
            return None;
        }
    }
    Some(nodes)
}
