//! The clauses to which a clause with disjunctions is lifted: each disjunction becomes a predicate of its own, with a
//! clause for each alternative.

ghost use Rattle.std.specs.Prelude.{◌≡◌, ◌<◌, ◌≤◌, ◌+◌, ◌-◌, ◌^◌, ℕ, suc, List, [], ◌∷◌, ◌++◌, length, map, take, drop};
ghost use Rattle.std.specs.Prelude.{IfOk, OnOk, OnErr, IfSome, Some, All, reverse, get_or, flat_map};
ghost use Rattle.and_model.specs.Lines.{Bytes, place_of};
ghost use Rattle.and_model.specs.Terms.{variables_of};
ghost use Rattle.and_model.specs.OwnVariables.{AreOwn, HasOwnVariables, terms_of_item};
ghost use Rattle.and_source.specs.Source.{SourceItems, SourceClause};
ghost use Rattle.and_source.specs.Lifted.{renumbered, renumbered_item};
ghost use Rattle.and_program.specs.Skeletons.{Shape, node_term, item_of, IsThere, AllThere, compound};
ghost use Rattle.and_program.specs.Skeletons.{variable as variable_shape};
ghost use Rattle.and_program.specs.Items.{node_item, pairs as pairs_in};
ghost use Rattle.and_program.specs.Nodes.{shapes_of, shape_of, names_of, entry_clause};
ghost use Rattle.and_program.specs.Kept.{IsEntry};
ghost use Rattle.and_judging.specs.Sorts.{ItemThere, own, piece_in, outline_in, outlines_in};
ghost use Rattle.and_judging.specs.Outlined.{size_of, item_size, piece_size, pieces_size, outline_size, outlines_size};
ghost use Rattle.and_judging.specs.Outlined.{call_of, head_of, piece_item, pieces_items, outline_clause};
ghost use Rattle.and_judging.specs.Outlined.{named_at};
ghost use Rattle.and_clauses.specs.Copied.{Grown, term as term_task};
ghost use Rattle.and_clauses.specs.Copies.{numbering_at, tasks_in, numbers_in, Copies, IsNode, Begins};
ghost use Rattle.and_clauses.specs.Copies.{IsPut, IsPutLast};
ghost use Rattle.and_clauses.specs.Lifts.{names_under, nodes_under, named_under, IsLifting, HaveRoom};
ghost use Rattle.and_clauses.specs.Lifts.{IsPieceThere, ArePiecesThere, IsScope, AreAlternatives, HaveOwn, AreLifted};
ghost use Rattle.and_drafts.specs.declared.draft.DraftPart.{DraftPart};
ghost use Rattle.and_model.specs.declared.limits.TheConstants.{MAX_NODES, MAX_VARIABLES};

use crate::known::{CallNodes, VariableNodes};
use crate::scratch::CopyLists;
use and_drafts::DraftPart;
use and_judging::{Disjunction, Guesses, Outline, Piece, number_of};
use and_model::{NameNo, NodeNo};
use and_program::{ClauseEntry, ItemNode, Node, ShortText};
use indexmap::IndexSet;
use std::alloc::{AllocError, Global};

/// What a clause is lifted by: the names of a table, the parts of a draft, and the disjunctions of its body with the
/// numbers of the names of their predicates.
#[derive(Clone, Copy)]
pub(crate) struct Lifting<'a> {
    pub(crate) alloc: Global,
    pub(crate) names: &'a IndexSet<Vec<u8>>,
    pub(crate) guesses: &'a Guesses,
    pub(crate) parts: &'a [DraftPart],
    pub(crate) disjunctions: &'a [Disjunction],
    pub(crate) numbers: &'a [NameNo],
}

/// The items of a clause, whose nodes are added. An error is want of memory; some nodes may then have been added.
pub(crate) fn lifted_items(
    lifting: Lifting<'_>,
    nodes: &mut Vec<Node>,
    lists: &mut CopyLists,
    scope: Option<&[u32]>,
    pieces: &[Piece],
) -> Result<Vec<ItemNode>, AllocError>
    requires lifting { IsLifting lifting }
    requires few { IfSome scope (λ vs. length vs.now ≤ MAX_VARIABLES) }
    requires there { ArePiecesThere (length lifting.parts.now) (length lifting.disjunctions.now) pieces.now }
    requires own { let ps = map (piece_in (nodes_under lifting)) pieces.now in
        All (AreOwn MAX_VARIABLES)
        (flat_map terms_of_item (pieces_items (named_under lifting) (numbering_at scope) ps)) }
    requires room { let ps = map (piece_in (nodes_under lifting)) pieces.now in
        HaveRoom (length (names_under lifting)) (shapes_of nodes.old.items) (pieces_size (named_under lifting) ps) }
    ensures grown { let ps = map (piece_in (nodes_under lifting.entry)) pieces.now in
        let old = shapes_of nodes.old.items in
        OnOk result (Grown (length (names_under lifting.entry)) old (shapes_of nodes.new.items)
        (length old + pieces_size (named_under lifting.entry) ps)) }
    ensures kept { Begins (shapes_of nodes.old.items) (shapes_of nodes.new.items) }
    ensures items { let ps = map (piece_in (nodes_under lifting.entry)) pieces.now in
        IfOk result (λ items. map (item_of (shapes_of nodes.new.items)) (map node_item items.items)
        ≡ pieces_items (named_under lifting.entry) (numbering_at scope.entry) ps) }
    ensures there { IfOk result (λ items. AllThere (shapes_of nodes.new.items) 0 (map node_item items.items)) }
    ensures few { IfOk result (λ items. length items.items ≤ MAX_NODES + 1) }
{
    let mut items = Vec::with_capacity(lifting.alloc, pieces.len())?;
    let mut pairs = 0;
    for piece in pieces {
        let item = lifted_item(lifting, nodes, lists, scope, piece, pairs)?;
        items.push(item)?;
        pairs += pairs_of(&item);
    }
    Ok(items)
}

/// 1 for an `is` goal, and 0 for another item.
fn pairs_of(item: &ItemNode) -> u32
    ensures pairs { result ≡ pairs_in (node_item item.now ∷ []) }
    ensures few { result ≤ 1 }
{
    match item {
        ItemNode::Is {
            left: _,
            right: _,
            pair: _,
        } => 1,
        ItemNode::Call { goal: _ } => 0,
        ItemNode::Equal { left: _, right: _ } => 0,
        ItemNode::Compare {
            relation: _,
            left: _,
            right: _,
        } => 0,
        ItemNode::Fail => 0,
    }
}

/// An item of a clause, before which so many `is` goals stand.
fn lifted_item(
    lifting: Lifting<'_>,
    nodes: &mut Vec<Node>,
    lists: &mut CopyLists,
    scope: Option<&[u32]>,
    piece: &Piece,
    pairs: u32,
) -> Result<ItemNode, AllocError>
    requires lifting { IsLifting lifting }
    requires few { IfSome scope (λ vs. length vs.now ≤ MAX_VARIABLES) }
    requires there { IsPieceThere (length lifting.parts.now) (length lifting.disjunctions.now) piece.now }
    requires own { let p = piece_in (nodes_under lifting) piece.now in
        All (AreOwn MAX_VARIABLES) (terms_of_item (piece_item (named_under lifting) (numbering_at scope) p)) }
    requires room { let p = piece_in (nodes_under lifting) piece.now in
        HaveRoom (length (names_under lifting)) (shapes_of nodes.old.items) (piece_size (named_under lifting) p) }
    ensures grown { let p = piece_in (nodes_under lifting.entry) piece.now in let old = shapes_of nodes.old.items in
        OnOk result (Grown (length (names_under lifting.entry)) old (shapes_of nodes.new.items)
        (length old + piece_size (named_under lifting.entry) p)) }
    ensures kept { Begins (shapes_of nodes.old.items) (shapes_of nodes.new.items) }
    ensures item { let p = piece_in (nodes_under lifting.entry) piece.now in
        IfOk result (λ item. item_of (shapes_of nodes.new.items) (node_item item)
        ≡ piece_item (named_under lifting.entry) (numbering_at scope.entry) p) }
    ensures there { IfOk result (λ item. IsThere (shapes_of nodes.new.items) pairs (node_item item)) }
{
    match piece {
        Piece::Item(item) => copied_item(lifting, nodes, lists, scope, item, pairs),
        Piece::Disjunction(number) => {
            let goal = lifted_call(lifting, nodes, lists, scope, *number)?;
            Ok(ItemNode::Call { goal })
        }
    }
}

/// An item with its terms copied, before which so many `is` goals stand.
fn copied_item(
    lifting: Lifting<'_>,
    nodes: &mut Vec<Node>,
    lists: &mut CopyLists,
    scope: Option<&[u32]>,
    item: &ItemNode,
    pairs: u32,
) -> Result<ItemNode, AllocError>
    requires lifting { IsLifting lifting }
    requires few { IfSome scope (λ vs. length vs.now ≤ MAX_VARIABLES) }
    requires there { ItemThere (length lifting.parts.now) item.now }
    requires own { let i = item_of (nodes_under lifting) (node_item item.now) in
        All (AreOwn MAX_VARIABLES) (terms_of_item (renumbered_item (numbering_at scope) i)) }
    requires room { let i = item_of (nodes_under lifting) (node_item item.now) in
        HaveRoom (length (names_under lifting)) (shapes_of nodes.old.items) (item_size i) }
    ensures grown { let i = item_of (nodes_under lifting.entry) (node_item item.now) in
        let old = shapes_of nodes.old.items in
        OnOk result (Grown (length (names_under lifting.entry)) old (shapes_of nodes.new.items)
        (length old + item_size i)) }
    ensures kept { Begins (shapes_of nodes.old.items) (shapes_of nodes.new.items) }
    ensures item { let i = item_of (nodes_under lifting.entry) (node_item item.now) in
        IfOk result (λ new. item_of (shapes_of nodes.new.items) (node_item new)
        ≡ renumbered_item (numbering_at scope.entry) i) }
    ensures there { IfOk result (λ new. IsThere (shapes_of nodes.new.items) pairs (node_item new)) }
{
    match item {
        ItemNode::Call { goal } => {
            let goal = copied(lifting, nodes, lists, scope, goal.0)?;
            Ok(ItemNode::Call { goal })
        }
        ItemNode::Equal { left, right } => {
            let left = copied(lifting, nodes, lists, scope, left.0)?;
            let right = copied(lifting, nodes, lists, scope, right.0)?;
            Ok(ItemNode::Equal { left, right })
        }
        ItemNode::Is {
            left,
            right,
            pair: _,
        } => {
            let left = copied(lifting, nodes, lists, scope, left.0)?;
            let right = copied(lifting, nodes, lists, scope, right.0)?;
            Ok(ItemNode::Is {
                left,
                right,
                pair: pairs,
            })
        }
        ItemNode::Compare {
            relation,
            left,
            right,
        } => {
            let left = copied(lifting, nodes, lists, scope, left.0)?;
            let right = copied(lifting, nodes, lists, scope, right.0)?;
            Ok(ItemNode::Compare {
                relation: *relation,
                left,
                right,
            })
        }
        ItemNode::Fail => Ok(ItemNode::Fail),
    }
}

/// The number of a variable in a clause: its place among those of the disjunction of which the clause is an
/// alternative.
fn number_in(scope: Option<&[u32]>, variable: u32) -> u32
    requires { IfSome scope (λ vs. length vs.now ≤ MAX_VARIABLES) }
    ensures { result ≡ numbering_at scope.entry [] variable }
{
    match scope {
        Some(variables) => place_in(variables, variable),
        None => variable,
    }
}

/// The place of a variable in a list, or the length where it is not there.
fn place_in(variables: &[u32], variable: u32) -> u32
    requires { length variables.now ≤ MAX_VARIABLES }
    ensures { result ≡ place_of ([], variable) (own variables.now) }
{
    let mut place = 0;
    for other in variables {
        if *other == variable {
            return place;
        }
        place += 1;
    }
    place
}

/// The call to which a disjunction is lifted, with its variables as they are numbered in the clause in which it stands.
fn lifted_call(
    lifting: Lifting<'_>,
    nodes: &mut Vec<Node>,
    lists: &mut CopyLists,
    scope: Option<&[u32]>,
    disjunction: usize,
) -> Result<NodeNo, AllocError>
    requires lifting { IsLifting lifting }
    requires few { IfSome scope (λ vs. length vs.now ≤ MAX_VARIABLES) }
    requires there { disjunction < length lifting.disjunctions.now }
    requires own { let d = named_at (named_under lifting) disjunction in
        AreOwn MAX_VARIABLES (renumbered (numbering_at scope) (call_of d)) }
    requires room { let d = named_at (named_under lifting) disjunction in
        HaveRoom (length (names_under lifting)) (shapes_of nodes.old.items) (suc (length d.variables)) }
    ensures grown { let d = named_at (named_under lifting.entry) disjunction in let old = shapes_of nodes.old.items in
        OnOk result (Grown (length (names_under lifting.entry)) old (shapes_of nodes.new.items)
        (length old + suc (length d.variables))) }
    ensures kept { Begins (shapes_of nodes.old.items) (shapes_of nodes.new.items) }
    ensures call { let d = named_at (named_under lifting.entry) disjunction in
        IfOk result (λ n. IsNode (shapes_of nodes.new.items) n.0 (renumbered (numbering_at scope.entry) (call_of d))) }
{
    let variables = lifting.disjunctions[disjunction].variables.as_slice();
    let mut arguments = Vec::new(lifting.alloc);
    for variable in variables {
        let number = number_in(scope, *variable);
        arguments.push(variable_node(nodes, &mut lists.variables, number)?)?;
    }
    let name = name_of(lifting, disjunction);
    call_node(nodes, &mut lists.calls, disjunction, name, arguments)
}

/// The number of the name of a disjunction's predicate.
fn name_of(lifting: Lifting<'_>, disjunction: usize) -> NameNo
    requires lifting { IsLifting lifting }
    requires there { disjunction < length lifting.disjunctions.now }
    ensures name { (named_at (named_under lifting.entry) disjunction).name ≡ result.0 }
    ensures within { result.0 < length (names_under lifting.entry) }
{
    lifting.numbers[disjunction]
}

/// The head of the alternatives of a disjunction, whose arguments are its variables.
pub(crate) fn lifted_head(
    lifting: Lifting<'_>,
    nodes: &mut Vec<Node>,
    lists: &mut CopyLists,
    disjunction: usize,
) -> Result<NodeNo, AllocError>
    requires lifting { IsLifting lifting }
    requires there { disjunction < length lifting.disjunctions.now }
    requires room { let d = named_at (named_under lifting) disjunction in
        HaveRoom (length (names_under lifting)) (shapes_of nodes.old.items) (suc (length d.variables)) }
    ensures grown { let d = named_at (named_under lifting.entry) disjunction in let old = shapes_of nodes.old.items in
        OnOk result (Grown (length (names_under lifting.entry)) old (shapes_of nodes.new.items)
        (length old + suc (length d.variables))) }
    ensures kept { Begins (shapes_of nodes.old.items) (shapes_of nodes.new.items) }
    ensures head { let d = named_at (named_under lifting.entry) disjunction in
        IfOk result (λ n. IsNode (shapes_of nodes.new.items) n.0 (head_of d)) }
{
    let count = lifting.disjunctions[disjunction].variables.len();
    let mut arguments = Vec::new(lifting.alloc);
    for number in 0..count {
        arguments.push(variable_node(nodes, &mut lists.variables, number as u32)?)?;
    }
    let name = name_of(lifting, disjunction);
    call_node(nodes, &mut lists.calls, disjunction, name, arguments)
}

/// The node of the call of a disjunction: one that is there, or a new one. An error is want of memory; the node may then
/// have been added.
fn call_node(
    nodes: &mut Vec<Node>,
    known: &mut CallNodes,
    disjunction: usize,
    name: NameNo,
    arguments: Vec<NodeNo>,
) -> Result<NodeNo, AllocError>
    requires { length nodes.old.items < 2 ^ 32 }
    ensures put { IfOk result (λ n. IsPut (shapes_of nodes.old.items) (shapes_of nodes.new.items)
        (compound name.0 (numbers_in arguments.items)) n.0) }
    ensures kept { Begins (shapes_of nodes.old.items) (shapes_of nodes.new.items) }
{
    match known.of(nodes.as_slice(), disjunction, name, arguments.as_slice()) {
        Some(node) => Ok(node),
        None => new_call(nodes, known, disjunction, name, arguments),
    }
}

/// Adds the node of the call of a disjunction, and notes it for the next time. An error is want of memory; the node may
/// then have been added.
fn new_call(
    nodes: &mut Vec<Node>,
    known: &mut CallNodes,
    disjunction: usize,
    name: NameNo,
    arguments: Vec<NodeNo>,
) -> Result<NodeNo, AllocError>
    requires { length nodes.old.items < 2 ^ 32 }
    ensures put { IfOk result (λ n. IsPut (shapes_of nodes.old.items) (shapes_of nodes.new.items)
        (compound name.0 (numbers_in arguments.items)) n.0) }
    ensures kept { Begins (shapes_of nodes.old.items) (shapes_of nodes.new.items) }
{
    let node = push_node(nodes, Node::Compound { name, arguments })?;
    known.note(disjunction, node)?;
    Ok(node)
}

/// Adds a node, and answers its number.
#[inline(always)]
fn push_node(nodes: &mut Vec<Node>, node: Node) -> Result<NodeNo, AllocError>
    requires { length nodes.old.items < 2 ^ 32 }
    ensures number { IfOk result (λ n. n.0 ≡ length (shapes_of nodes.old.items)) }
    ensures nodes { OnOk result (shapes_of nodes.new.items ≡ shapes_of nodes.old.items ++ shape_of node ∷ []) }
    ensures kept { OnErr result (shapes_of nodes.new.items ≡ shapes_of nodes.old.items) }
{
    let number = NodeNo(nodes.len() as u32);
    nodes.reserve(1)?;
    nodes.push_reserved(node);
    Ok(number)
}

/// The node of a variable: one that is there, or a new one. An error is want of memory; the node may then have been
/// added.
fn variable_node(
    nodes: &mut Vec<Node>,
    known: &mut VariableNodes,
    variable: u32,
) -> Result<NodeNo, AllocError>
    requires { length nodes.old.items < 2 ^ 32 }
    ensures put { IfOk result (λ n. IsPut (shapes_of nodes.old.items) (shapes_of nodes.new.items)
        (variable_shape variable) n.0) }
    ensures kept { Begins (shapes_of nodes.old.items) (shapes_of nodes.new.items) }
{
    match known.of(nodes.as_slice(), variable) {
        Some(node) => Ok(node),
        None => new_variable(nodes, known, variable),
    }
}

/// Adds the node of a variable, and notes it for the next time. An error is want of memory; the node may then have been
/// added.
fn new_variable(
    nodes: &mut Vec<Node>,
    known: &mut VariableNodes,
    variable: u32,
) -> Result<NodeNo, AllocError>
    requires { length nodes.old.items < 2 ^ 32 }
    ensures put { IfOk result (λ n. IsPut (shapes_of nodes.old.items) (shapes_of nodes.new.items)
        (variable_shape variable) n.0) }
    ensures kept { Begins (shapes_of nodes.old.items) (shapes_of nodes.new.items) }
{
    let node = push_node(nodes, Node::Variable(variable))?;
    known.note(variable, node)?;
    Ok(node)
}

/// What comes next of a term that is copied.
#[derive(Clone, Copy)]
pub(crate) enum Copying {
    /// The term of a part.
    Term(u32),
    /// The name with the last terms that were copied as its arguments.
    Name { name: NameNo, count: usize },
}

/// Adds the nodes of a part's term, with its variables as they are numbered in a clause, and answers its node. An
/// error is want of memory; some nodes may then have been added.
pub(crate) fn copied(
    lifting: Lifting<'_>,
    nodes: &mut Vec<Node>,
    lists: &mut CopyLists,
    scope: Option<&[u32]>,
    root: u32,
) -> Result<NodeNo, AllocError>
    requires lifting { IsLifting lifting }
    requires few { IfSome scope (λ vs. length vs.now ≤ MAX_VARIABLES) }
    requires there { root < length lifting.parts.now }
    requires own { AreOwn MAX_VARIABLES (renumbered (numbering_at scope) (node_term (nodes_under lifting) root)) }
    requires room { HaveRoom (length (names_under lifting)) (shapes_of nodes.old.items)
        (size_of (node_term (nodes_under lifting) root)) }
    ensures grown { let old = shapes_of nodes.old.items in
        OnOk result (Grown (length (names_under lifting.entry)) old (shapes_of nodes.new.items)
        (length old + size_of (node_term (nodes_under lifting.entry) root))) }
    ensures kept { Begins (shapes_of nodes.old.items) (shapes_of nodes.new.items) }
    ensures term { IfOk result (λ n. IsNode (shapes_of nodes.new.items) n.0
        (renumbered (numbering_at scope.entry) (node_term (nodes_under lifting.entry) root))) }
{
    lists.pending.clear();
    lists.finished.clear();
    lists.pending.push(Copying::Term(root))?;
    while let Some(next) = lists.pending.pop() {
        match next {
            Copying::Term(part) => {
                copy_part(
                    lifting,
                    nodes,
                    &mut lists.variables,
                    scope,
                    part,
                    &mut lists.pending,
                    &mut lists.finished,
                )?;
            }
            Copying::Name { name, count } => {
                finish_name(lifting.alloc, nodes, name, count, &mut lists.finished)?;
            }
        }
    }
    Ok(lists.finished[0])
}

/// Adds the node of a name with the last terms that were copied as its arguments.
fn finish_name(
    alloc: Global,
    nodes: &mut Vec<Node>,
    name: NameNo,
    count: usize,
    finished: &mut Vec<NodeNo>,
) -> Result<(), AllocError>
    requires there { count ≤ length finished.old.items }
    requires room { length nodes.old.items < 2 ^ 32 }
    ensures nodes { let first = length finished.old.items - count in
        OnOk result (shapes_of nodes.new.items
        ≡ shapes_of nodes.old.items ++ compound name.0 (drop first (numbers_in finished.old.items)) ∷ []) }
    ensures finished { let first = length finished.old.items - count in
        OnOk result (numbers_in finished.new.items
        ≡ take first (numbers_in finished.old.items) ++ length (shapes_of nodes.old.items) ∷ []) }
    ensures kept { OnErr result (Begins (shapes_of nodes.old.items) (shapes_of nodes.new.items)) }
{
    let first = finished.len() - count;
    let arguments = Vec::from_slice(alloc, &finished[first..])?;
    let node = push_node(nodes, Node::Compound { name, arguments })?;
    finished.truncate(first);
    finished.push(node)?;
    Ok(())
}

/// Copies a part, or makes its arguments what comes next, and then its name.
fn copy_part(
    lifting: Lifting<'_>,
    nodes: &mut Vec<Node>,
    known: &mut VariableNodes,
    scope: Option<&[u32]>,
    part: u32,
    pending: &mut Vec<Copying>,
    finished: &mut Vec<NodeNo>,
) -> Result<(), AllocError>
    requires there { part < length lifting.parts.now }
    requires few { IfSome scope (λ vs. length vs.now ≤ MAX_VARIABLES) }
    requires few_names { length (names_of lifting.names.now.keys) < 2 ^ 32 }
    requires room { length nodes.old.items < 2 ^ 32 }
    ensures copies { (d : DraftPart)
        → OnOk result (Copies (names_of lifting.entry.names.now.keys) (numbering_at scope.entry)
        (get_or lifting.entry.parts.now part d) (shapes_of nodes.old.items) (shapes_of nodes.new.items)
        (numbers_in finished.old.items) (numbers_in finished.new.items)
        (tasks_in (reverse pending.old.items)) (tasks_in (reverse pending.new.items))) }
    ensures kept { OnErr result (Begins (shapes_of nodes.old.items) (shapes_of nodes.new.items)) }
{
    match &lifting.parts[part as usize] {
        DraftPart::Variable(_, number) => {
            copy_variable(nodes, known, scope, *number, finished)?;
        }
        DraftPart::Integer(value) => {
            finished.push(push_node(nodes, Node::Number(*value))?)?;
        }
        DraftPart::Compound { name, arguments } => {
            let number = number_of(lifting.names, lifting.guesses, part, name.bytes());
            pending.push(Copying::Name {
                name: NameNo(number as u32),
                count: arguments.len(),
            })?;
            push_terms(pending, arguments.as_slice())?;
        }
    }
    Ok(())
}

/// Makes the node of a variable the last one that was copied.
fn copy_variable(
    nodes: &mut Vec<Node>,
    known: &mut VariableNodes,
    scope: Option<&[u32]>,
    variable: u32,
    finished: &mut Vec<NodeNo>,
) -> Result<(), AllocError>
    requires few { IfSome scope (λ vs. length vs.now ≤ MAX_VARIABLES) }
    requires room { length nodes.old.items < 2 ^ 32 }
    ensures copied { OnOk result (IsPutLast (shapes_of nodes.old.items) (shapes_of nodes.new.items)
        (variable_shape (numbering_at scope.entry [] variable))
        (numbers_in finished.old.items) (numbers_in finished.new.items)) }
    ensures kept { Begins (shapes_of nodes.old.items) (shapes_of nodes.new.items) }
{
    let number = number_in(scope, variable);
    let node = variable_node(nodes, known, number)?;
    finished.push(node)?;
    Ok(())
}

/// Makes these parts what comes next.
fn push_terms(pending: &mut Vec<Copying>, arguments: &[u32]) -> Result<(), AllocError>
    ensures { OnOk result (tasks_in (reverse pending.new.items)
        ≡ map term_task arguments.now ++ tasks_in (reverse pending.old.items)) }
{
    let mut left = arguments.len();
    while left > 0 {
        left -= 1;
        pending.push(Copying::Term(arguments[left]))?;
    }
    Ok(())
}

/// The written names of the variables of an alternative, which are those of a disjunction.
pub(crate) fn names_in(
    alloc: Global,
    written: &[ShortText],
    variables: &[u32],
) -> Result<Vec<ShortText>, AllocError>
    ensures { IfOk result (λ names. names.items ≡ map (λ v. get_or written.now v []) variables.now) }
{
    let mut names = Vec::with_capacity(alloc, variables.len())?;
    for variable in variables {
        let name = written_name(written, *variable);
        names.push(ShortText::of(alloc, name)?)?;
    }
    Ok(names)
}

/// The written name of a variable, and nothing where there is none.
fn written_name(written: &[ShortText], variable: u32) -> &[u8]
    ensures { result.now ≡ get_or written.now variable [] }
{
    match written.get(variable as usize) {
        Some(name) => name.bytes(),
        None => &[],
    }
}

/// The clause that an alternative becomes, on that line.
pub(crate) fn alternative(
    lifting: Lifting<'_>,
    nodes: &mut Vec<Node>,
    lists: &mut CopyLists,
    written: &[ShortText],
    outline: &Outline,
    line: u32,
) -> Result<ClauseEntry, AllocError>
    requires lifting { IsLifting lifting }
    requires scope { IsScope (length lifting.disjunctions.now) outline.now.scope }
    requires pieces { ArePiecesThere (length lifting.parts.now) (length lifting.disjunctions.now)
        outline.now.pieces.items }
    requires own { (k : SourceClause)
        → HasOwnVariables (outline_clause (named_under lifting) k (outline_in (nodes_under lifting) outline.now)) }
    requires room { HaveRoom (length (names_under lifting)) (shapes_of nodes.old.items)
        (outline_size (named_under lifting) (outline_in (nodes_under lifting) outline.now)) }
    ensures grown { let old = shapes_of nodes.old.items in
        OnOk result (Grown (length (names_under lifting.entry)) old (shapes_of nodes.new.items)
        (length old + outline_size (named_under lifting.entry) (outline_in (nodes_under lifting.entry) outline.now))) }
    ensures kept { Begins (shapes_of nodes.old.items) (shapes_of nodes.new.items) }
    ensures lifted { (k : SourceClause) → k.written ≡ written.now → k.line ≡ line
        → IfOk result (λ e. IsEntry (shapes_of nodes.new.items) e × (entry_clause (shapes_of nodes.new.items) e
        ≡ outline_clause (named_under lifting.entry) k (outline_in (nodes_under lifting.entry) outline.now))) }
{
    let disjunction = scope_of(outline);
    let variables = lifting.disjunctions[disjunction].variables.as_slice();
    let head = lifted_head(lifting, nodes, lists, disjunction)?;
    let items = lifted_items(
        lifting,
        nodes,
        lists,
        Some(variables),
        outline.pieces.as_slice(),
    )?;
    let names = names_in(lifting.alloc, written, variables)?;
    Ok(ClauseEntry::new(head, items, names, line))
}

/// The disjunction of which an outline is an alternative.
fn scope_of(outline: &Outline) -> usize
    requires { (d : ℕ) × (outline.now.scope ≡ Some d) }
    ensures { outline.now.scope ≡ Some result }
{
    match outline.scope {
        Some(disjunction) => disjunction,
        None => 0,
    }
}

/// The clauses that these alternatives become, in order.
pub(crate) fn alternatives(
    lifting: Lifting<'_>,
    nodes: &mut Vec<Node>,
    lists: &mut CopyLists,
    written: &[ShortText],
    outlines: &[Outline],
    line: u32,
) -> Result<Vec<ClauseEntry>, AllocError>
    requires lifting { IsLifting lifting }
    requires there { AreAlternatives (length lifting.parts.now) (length lifting.disjunctions.now) outlines.now }
    requires own { (k : SourceClause)
        → HaveOwn (map (outline_clause (named_under lifting) k) (outlines_in (nodes_under lifting) outlines.now)) }
    requires room { HaveRoom (length (names_under lifting)) (shapes_of nodes.old.items)
        (outlines_size (named_under lifting) (outlines_in (nodes_under lifting) outlines.now)) }
    ensures grown { let old = shapes_of nodes.old.items in
        OnOk result (Grown (length (names_under lifting.entry)) old (shapes_of nodes.new.items)
        (length old + outlines_size (named_under lifting.entry)
        (outlines_in (nodes_under lifting.entry) outlines.now))) }
    ensures kept { Begins (shapes_of nodes.old.items) (shapes_of nodes.new.items) }
    ensures lifted { (k : SourceClause) → k.written ≡ written.now → k.line ≡ line
        → IfOk result (λ es. AreLifted (shapes_of nodes.new.items) es.items
        (map (outline_clause (named_under lifting.entry) k) (outlines_in (nodes_under lifting.entry) outlines.now))) }
{
    let mut entries = Vec::new(lifting.alloc);
    for outline in outlines {
        let entry = alternative(lifting, nodes, lists, written, outline, line)?;
        entries.push(entry)?;
    }
    Ok(entries)
}
