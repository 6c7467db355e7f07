//! Equations that leave an operator's term as it is.

ghost use Rattle.std.specs.Prelude.{◌≡◌, ◌<◌, ◌≤◌, ◌∷◌, [], ℕ, IfOk, OnOk, length};
ghost use Rattle.and_model.specs.Programs.{clause_at};
ghost use Rattle.and_program.specs.Items.{node_item};
ghost use Rattle.and_program.specs.Loaded.{program_of, skeleton_of};
ghost use Rattle.and_program.specs.Skeletons.{node_term, item_of, IsThere};
ghost use Rattle.and_lint.specs.Findings as specs;
ghost use Rattle.and_lint.specs.Findings.{left_lines, left_lines_of};
ghost use Rattle.and_lint.specs.Findings.{left_lines_at, left_lines_between};
ghost use Rattle.and_lint.specs.Held.{AreItems, items_shown};
ghost use Rattle.and_lint.specs.Kept.{Adds};

use crate::findings::{Findings, front};
use crate::operators::looks_worked_out;
use crate::printing::write_term;
use and_model::{ClauseNo, NodeNo, Text};
use and_program::{ItemNode, Loaded};
use std::alloc::{AllocError, Global};

/// The line that an equation leaves a term. An error is want of memory.
fn left_line(alloc: Global, loaded: &Loaded, no: ClauseNo, node: NodeNo) -> Result<Text, AllocError>
    requires there { no.0 ≤ length (program_of loaded.now).clauses }
    requires node { node.0 < length (skeleton_of loaded.now).nodes }
    ensures { IfOk result (λ text. text ≡ specs.left_line (program_of loaded.now)
        (clause_at (program_of loaded.now) no.0) (node_term (skeleton_of loaded.now).nodes node.0)) }
{
    let mut text = front(alloc, loaded.line(no))?;
    text.append(b"= leaves ")?;
    write_term(alloc, loaded, node, &mut text)?;
    text.append(b" as a term")?;
    Ok(text)
}

/// Adds that an equation leaves a term.
fn add_left(
    alloc: Global,
    loaded: &Loaded,
    no: ClauseNo,
    node: NodeNo,
    findings: &mut Findings,
) -> Result<(), AllocError>
    requires there { no.0 ≤ length (program_of loaded.now).clauses }
    requires node { node.0 < length (skeleton_of loaded.now).nodes }
    ensures { OnOk result (Adds findings.old findings.new (specs.left_line (program_of loaded.now)
        (clause_at (program_of loaded.now) no.0) (node_term (skeleton_of loaded.now).nodes node.0) ∷ [])) }
{
    let line = left_line(alloc, loaded, no, node)?;
    findings.add(&line)
}

/// Adds that a side of an equation is left, where it is.
fn look_at_side(
    alloc: Global,
    loaded: &Loaded,
    no: ClauseNo,
    node: NodeNo,
    findings: &mut Findings,
) -> Result<(), AllocError>
    requires there { no.0 ≤ length (program_of loaded.now).clauses }
    requires node { node.0 < length (skeleton_of loaded.now).nodes }
    ensures { OnOk result (Adds findings.old findings.new (left_lines_at (program_of loaded.now)
        (clause_at (program_of loaded.now) no.0) (node_term (skeleton_of loaded.now).nodes node.0))) }
{
    if looks_worked_out(alloc, loaded, node)? {
        return add_left(alloc, loaded, no, node, findings);
    }
    Ok(())
}

/// Adds that an equation of two terms leaves one of them, where it does.
fn look_at_sides(
    alloc: Global,
    loaded: &Loaded,
    no: ClauseNo,
    left: NodeNo,
    right: NodeNo,
    findings: &mut Findings,
) -> Result<(), AllocError>
    requires there { no.0 ≤ length (program_of loaded.now).clauses }
    requires left { left.0 < length (skeleton_of loaded.now).nodes }
    requires right { right.0 < length (skeleton_of loaded.now).nodes }
    ensures { OnOk result (Adds findings.old findings.new (left_lines_between (program_of loaded.now)
        (clause_at (program_of loaded.now) no.0) (node_term (skeleton_of loaded.now).nodes left.0)
        (node_term (skeleton_of loaded.now).nodes right.0))) }
{
    if looks_worked_out(alloc, loaded, left)? {
        return add_left(alloc, loaded, no, left, findings);
    }
    look_at_side(alloc, loaded, no, right, findings)
}

/// Adds what an item leaves as a term, where it is an equation that does.
fn look_at_item(
    alloc: Global,
    loaded: &Loaded,
    no: ClauseNo,
    item: ItemNode,
    findings: &mut Findings,
) -> Result<(), AllocError>
    requires there { no.0 ≤ length (program_of loaded.now).clauses }
    requires item { (k : ℕ) × IsThere (skeleton_of loaded.now).nodes k (node_item item) }
    ensures { OnOk result (Adds findings.old findings.new (left_lines_of (program_of loaded.now)
        (clause_at (program_of loaded.now) no.0) (item_of (skeleton_of loaded.now).nodes (node_item item)))) }
{
    match item {
        ItemNode::Call { goal: _ } => Ok(()),
        ItemNode::Equal { left, right } => look_at_sides(alloc, loaded, no, left, right, findings),
        ItemNode::Is {
            left: _,
            right: _,
            pair: _,
        } => Ok(()),
        ItemNode::Compare {
            relation: _,
            left: _,
            right: _,
        } => Ok(()),
        ItemNode::Fail => Ok(()),
    }
}

/// Adds what the equations among these items leave as terms. After an error, which is want of memory,
/// the findings are spent.
pub(crate) fn add_left_terms(
    alloc: Global,
    loaded: &Loaded,
    no: ClauseNo,
    items: &[ItemNode],
    findings: &mut Findings,
) -> Result<(), AllocError>
    requires there { no.0 ≤ length (program_of loaded.now).clauses }
    requires items { AreItems (skeleton_of loaded.now).nodes items.now }
    ensures { OnOk result (Adds findings.old findings.new (left_lines (program_of loaded.now)
        (clause_at (program_of loaded.now) no.0) (items_shown (skeleton_of loaded.now).nodes items.now))) }
{
    for item in items {
        look_at_item(alloc, loaded, no, *item, findings)?;
    }
    Ok(())
}
