//! Bodies of clauses as they are written, those of alternatives in the places of their disjunctions.

ghost use Rattle.std.specs.Prelude.{◌≡◌, ◌<◌, ◌≤◌, ◌++◌, ◌∷◌, [], ℕ, List, IfOk, OnOk, length, suc, replicate, map};
ghost use Rattle.std.specs.List.{flat_map};
ghost use Rattle.and_model.specs.Programs.{Item, clause_at};
ghost use Rattle.and_program.specs.Items.{node_item};
ghost use Rattle.and_program.specs.Loaded.{program_of, skeleton_of};
ghost use Rattle.and_program.specs.Skeletons.{IsThere, item_of, node_term};
ghost use Rattle.and_lint.specs.Bodies as specs;
ghost use Rattle.and_lint.specs.Bodies.{items_of, items_written, numbers_in, variable_for, variables_in_body};
ghost use Rattle.and_lint.specs.Bodies.{variables_of_item};
ghost use Rattle.and_lint.specs.Held as held;
ghost use Rattle.and_lint.specs.Held.{Gains, IsBody, Tells, nodes_in, numbers_of};
ghost use Rattle.and_lint.specs.Subterms.{terms_of};

use crate::occurring::{push_arguments, push_item_variables};
use and_model::{ClauseNo, NodeNo};
use and_program::{ItemNode, Loaded, NodeKind};
use std::alloc::{AllocError, Global};

/// What is written in the body of a clause.
pub(crate) struct Body {
    /// Its items in the order of the text.
    pub(crate) items: Vec<ItemNode>,
    /// Its variables, each where it occurs.
    pub(crate) variables: Vec<u8>,
}

// By hand, so that it is proved once, here.
impl Drop for Body {
    fn drop(self) {
        let Body {
            items: _,
            variables: _,
        } = self;
    }
}

impl Body {
    /// Nothing is written. Takes no memory.
    fn new(alloc: Global) -> Body
        ensures items { result.items.items ≡ [] }
        ensures variables { result.variables.items ≡ [] }
    {
        Body {
            items: Vec::new(alloc),
            variables: Vec::new(alloc),
        }
    }
}

/// The items of a clause in a table, by its number.
pub(crate) fn items_at(bodies: &[Body], no: ClauseNo) -> &[ItemNode]
    ensures { result.now ≡ held.items_at bodies.now no.0 }
{
    match bodies.get(no.0 as usize) {
        Some(body) => &body.items,
        None => &[],
    }
}

/// The variables of a clause's body in a table, by its number.
pub(crate) fn variables_at(bodies: &[Body], no: ClauseNo) -> &[u8]
    ensures { result.now ≡ held.variables_at bodies.now no.0 }
{
    match bodies.get(no.0 as usize) {
        Some(body) => &body.variables,
        None => &[],
    }
}

/// Whether a name begins with the byte FF.
fn begins_lifted(name: &[u8]) -> bool
    ensures { result ≡ specs.begins_lifted name.now }
{
    matches!(name, [255, ..])
}

/// Whether the term of a node has the name of a disjunction's predicate.
pub(crate) fn is_lifted(loaded: &Loaded, node: NodeNo) -> bool
    requires { node.0 < length (skeleton_of loaded.now).nodes }
    ensures { result ≡ specs.is_lifted (program_of loaded.now) (node_term (skeleton_of loaded.now).nodes node.0) }
{
    match loaded.kind(node) {
        NodeKind::Variable(_) => false,
        NodeKind::Number(_) => false,
        NodeKind::Compound { name, count: _ } => begins_lifted(loaded.name(name)),
    }
}

/// The clauses that are of the predicate of a node's term.
fn clauses_of(loaded: &Loaded, node: NodeNo) -> &[ClauseNo]
    requires { node.0 < length (skeleton_of loaded.now).nodes }
    ensures { result.now ≡ specs.clauses_of (program_of loaded.now) (node_term (skeleton_of loaded.now).nodes node.0) }
{
    match loaded.kind(node) {
        NodeKind::Variable(_) => &[],
        NodeKind::Number(_) => &[],
        NodeKind::Compound { name, count } => loaded.clauses_of(name, count),
    }
}

/// Puts an item behind a body.
fn add_item_itself(
    alloc: Global,
    loaded: &Loaded,
    item: ItemNode,
    body: &mut Body,
) -> Result<(), AllocError>
    requires { (k : ℕ) × IsThere (skeleton_of loaded.now).nodes k (node_item item) }
    ensures { OnOk result (Gains (skeleton_of loaded.now).nodes body.old body.new
        (item_of (skeleton_of loaded.now).nodes (node_item item) ∷ [])
        (numbers_in (terms_of (item_of (skeleton_of loaded.now).nodes (node_item item))))) }
{
    push_item_variables(alloc, loaded, item, &mut body.variables)?;
    body.items.push(item)?;
    Ok(())
}

/// Puts what an alternative holds behind the body in which its disjunction, now a call, stands.
fn add_alternative(
    loaded: &Loaded,
    goal: NodeNo,
    no: ClauseNo,
    bodies: &[Body],
    body: &mut Body,
) -> Result<(), AllocError>
    requires { goal.0 < length (skeleton_of loaded.now).nodes }
    ensures { (items : ℕ → List Item) (variables : ℕ → List ℕ)
        → Tells (skeleton_of loaded.now).nodes bodies.now items variables
        → OnOk result (Gains (skeleton_of loaded.now).nodes body.old body.new (items no.0)
        (flat_map (variable_for (node_term (skeleton_of loaded.now).nodes goal.0)) (variables no.0))) }
{
    body.items.extend_from_slice(items_at(bodies, no))?;
    push_arguments(loaded, goal, variables_at(bodies, no), &mut body.variables)
}

/// Puts what the alternatives of a disjunction hold behind the body in which it, now a call, stands.
fn add_alternatives(
    loaded: &Loaded,
    goal: NodeNo,
    bodies: &[Body],
    body: &mut Body,
) -> Result<(), AllocError>
    requires { goal.0 < length (skeleton_of loaded.now).nodes }
    ensures { (items : ℕ → List Item) (variables : ℕ → List ℕ)
        → Tells (skeleton_of loaded.now).nodes bodies.now items variables
        → let t = node_term (skeleton_of loaded.now).nodes goal.0 in
        let nos = specs.clauses_of (program_of loaded.now) t in
        OnOk result (Gains (skeleton_of loaded.now).nodes body.old body.new (flat_map (λ no. items no.0) nos)
        (flat_map (λ no. flat_map (variable_for t) (variables no.0)) nos)) }
{
    for no in clauses_of(loaded, goal) {
        add_alternative(loaded, goal, *no, bodies, body)?;
    }
    Ok(())
}

/// Puts a call behind a body, or what the alternatives of a disjunction hold, where it is one.
fn add_call(
    alloc: Global,
    loaded: &Loaded,
    item: ItemNode,
    goal: NodeNo,
    bodies: &[Body],
    body: &mut Body,
) -> Result<(), AllocError>
    requires goal { goal.0 < length (skeleton_of loaded.now).nodes }
    requires is { item ≡ ItemNode.Call goal }
    ensures { (items : ℕ → List Item) (variables : ℕ → List ℕ)
        → Tells (skeleton_of loaded.now).nodes bodies.now items variables
        → let i = item_of (skeleton_of loaded.now).nodes (node_item item) in
        OnOk result (Gains (skeleton_of loaded.now).nodes body.old body.new
        (items_of (program_of loaded.now) items i) (variables_of_item (program_of loaded.now) variables i)) }
{
    if is_lifted(loaded, goal) {
        return add_alternatives(loaded, goal, bodies, body);
    }
    add_item_itself(alloc, loaded, item, body)
}

/// Puts an item behind a body, or what the alternatives of a disjunction hold, where it is one.
fn add_item(
    alloc: Global,
    loaded: &Loaded,
    item: ItemNode,
    bodies: &[Body],
    body: &mut Body,
) -> Result<(), AllocError>
    requires { (k : ℕ) × IsThere (skeleton_of loaded.now).nodes k (node_item item) }
    ensures { (items : ℕ → List Item) (variables : ℕ → List ℕ)
        → Tells (skeleton_of loaded.now).nodes bodies.now items variables
        → let i = item_of (skeleton_of loaded.now).nodes (node_item item) in
        OnOk result (Gains (skeleton_of loaded.now).nodes body.old body.new
        (items_of (program_of loaded.now) items i) (variables_of_item (program_of loaded.now) variables i)) }
{
    match item {
        ItemNode::Call { goal } => add_call(alloc, loaded, item, goal, bodies, body),
        ItemNode::Equal { left: _, right: _ } => add_item_itself(alloc, loaded, item, body),
        ItemNode::Is {
            left: _,
            right: _,
            pair: _,
        } => add_item_itself(alloc, loaded, item, body),
        ItemNode::Compare {
            relation: _,
            left: _,
            right: _,
        } => add_item_itself(alloc, loaded, item, body),
        ItemNode::Fail => add_item_itself(alloc, loaded, item, body),
    }
}

/// What is written in the body of a clause, by what is written behind it. An error is want of memory.
fn body_of(
    alloc: Global,
    loaded: &Loaded,
    no: ClauseNo,
    bodies: &[Body],
) -> Result<Body, AllocError>
    requires { no.0 ≤ length (program_of loaded.now).clauses }
    ensures { (items : ℕ → List Item) (variables : ℕ → List ℕ)
        → Tells (skeleton_of loaded.now).nodes bodies.now items variables
        → IfOk result (λ body. IsBody (skeleton_of loaded.now).nodes body
        (flat_map (items_of (program_of loaded.now) items) (clause_at (program_of loaded.now) no.0).body)
        (flat_map (variables_of_item (program_of loaded.now) variables)
        (clause_at (program_of loaded.now) no.0).body)) }
{
    let mut body = Body::new(alloc);
    for item in loaded.items(no) {
        add_item(alloc, loaded, *item, bodies, &mut body)?;
    }
    Ok(body)
}

/// A table in which so many bodies have nothing in them. An error is want of memory.
fn no_bodies(alloc: Global, count: u32) -> Result<Vec<Body>, AllocError>
    ensures items { IfOk result (λ bodies. map nodes_in bodies.items ≡ replicate count []) }
    ensures variables { IfOk result (λ bodies. map numbers_of bodies.items ≡ replicate count []) }
{
    let mut bodies = Vec::new(alloc);
    for _ in 0..count {
        bodies.push(Body::new(alloc))?;
    }
    Ok(bodies)
}

/// What is written in the body of each clause, by its number. An error is want of memory.
pub(crate) fn all_bodies(alloc: Global, loaded: &Loaded) -> Result<Vec<Body>, AllocError>
    ensures { IfOk result (λ bodies. Tells (skeleton_of loaded.now).nodes bodies.items
        (items_written (program_of loaded.now)) (variables_in_body (program_of loaded.now))) }
{
    let mut left = loaded.clause_count() + 1;
    let mut bodies = no_bodies(alloc, left)?;
    while left > 0 {
        left -= 1;
        let body = body_of(alloc, loaded, ClauseNo(left as u16), &bodies)?;
        bodies[left as usize] = body;
    }
    Ok(bodies)
}
