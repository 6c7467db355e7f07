//! Subterms of expressions that can have no value.

ghost use Rattle.std.specs.Prelude.{◌≡◌, ◌<◌, ◌≤◌, ◌∷◌, [], ℕ, IfOk, OnOk, length};
ghost use Rattle.std.specs.List.{flat_map};
ghost use Rattle.and_model.specs.Programs.{clause_at};
ghost use Rattle.and_program.specs.Items.{node_item};
ghost use Rattle.and_program.specs.Loaded.{program_of, skeleton_of};
ghost use Rattle.and_program.specs.Skeletons.{node_term, item_of, IsThere};
ghost use Rattle.and_lint.specs.Findings as specs;
ghost use Rattle.and_lint.specs.Findings.{no_value_lines, no_value_lines_of};
ghost use Rattle.and_lint.specs.Held.{AreItems, items_shown};
ghost use Rattle.and_lint.specs.Kept.{Adds};
ghost use Rattle.and_lint.specs.Subterms.{expressions_of, subterms};

use crate::findings::{Findings, front};
use crate::names::write_name_of;
use crate::operators::has_no_value;
use crate::walking::next_subterm;
use and_model::{ClauseNo, NodeNo, Text};
use and_program::{ItemNode, Loaded};
use std::alloc::{AllocError, Global};

/// The line that a subterm has no value. An error is want of memory.
fn no_value_line(
    alloc: Global,
    loaded: &Loaded,
    no: ClauseNo,
    node: NodeNo,
) -> Result<Text, AllocError>
    requires there { no.0 ≤ length (program_of loaded.now).clauses }
    requires node { node.0 < length (skeleton_of loaded.now).nodes }
    ensures { IfOk result (λ text. text ≡ specs.no_value_line (program_of loaded.now)
        (clause_at (program_of loaded.now) no.0) (node_term (skeleton_of loaded.now).nodes node.0)) }
{
    let mut text = front(alloc, loaded.line(no))?;
    write_name_of(loaded, node, &mut text)?;
    text.append(b" has no value")?;
    Ok(text)
}

/// Adds that a subterm has no value.
fn add_no_value(
    alloc: Global,
    loaded: &Loaded,
    no: ClauseNo,
    node: NodeNo,
    findings: &mut Findings,
) -> Result<(), AllocError>
    requires there { no.0 ≤ length (program_of loaded.now).clauses }
    requires node { node.0 < length (skeleton_of loaded.now).nodes }
    ensures { OnOk result (Adds findings.old findings.new (specs.no_value_line (program_of loaded.now)
        (clause_at (program_of loaded.now) no.0) (node_term (skeleton_of loaded.now).nodes node.0) ∷ [])) }
{
    let line = no_value_line(alloc, loaded, no, node)?;
    findings.add(&line)
}

/// Adds that a subterm has no value, where it can have none.
fn look_at_subterm(
    alloc: Global,
    loaded: &Loaded,
    no: ClauseNo,
    node: NodeNo,
    findings: &mut Findings,
) -> Result<(), AllocError>
    requires there { no.0 ≤ length (program_of loaded.now).clauses }
    requires node { node.0 < length (skeleton_of loaded.now).nodes }
    ensures { OnOk result (Adds findings.old findings.new (no_value_lines_of (program_of loaded.now)
        (clause_at (program_of loaded.now) no.0) (node_term (skeleton_of loaded.now).nodes node.0))) }
{
    if has_no_value(loaded, node) {
        return add_no_value(alloc, loaded, no, node, findings);
    }
    Ok(())
}

/// Adds the subterms of an expression that can have no value.
fn look_along_subterms(
    alloc: Global,
    loaded: &Loaded,
    no: ClauseNo,
    node: NodeNo,
    findings: &mut Findings,
) -> Result<(), AllocError>
    requires there { no.0 ≤ length (program_of loaded.now).clauses }
    requires node { node.0 < length (skeleton_of loaded.now).nodes }
    ensures { OnOk result (Adds findings.old findings.new (flat_map (no_value_lines_of (program_of loaded.now)
        (clause_at (program_of loaded.now) no.0))
        (flat_map subterms (node_term (skeleton_of loaded.now).nodes node.0 ∷ [])))) }
{
    let mut left = Vec::new(alloc);
    left.push(node)?;
    loop {
        match next_subterm(loaded, &mut left)? {
            Some(next) => look_at_subterm(alloc, loaded, no, next, findings)?,
            None => return Ok(()),
        }
    }
}

/// Adds the subterms of an item's expressions that can have no value.
fn look_at_item(
    alloc: Global,
    loaded: &Loaded,
    no: ClauseNo,
    item: ItemNode,
    findings: &mut Findings,
) -> Result<(), AllocError>
    requires there { no.0 ≤ length (program_of loaded.now).clauses }
    requires item { (k : ℕ) × IsThere (skeleton_of loaded.now).nodes k (node_item item) }
    ensures { OnOk result (Adds findings.old findings.new (flat_map (no_value_lines_of (program_of loaded.now)
        (clause_at (program_of loaded.now) no.0))
        (flat_map subterms (expressions_of (item_of (skeleton_of loaded.now).nodes (node_item item)))))) }
{
    match item {
        ItemNode::Call { goal: _ } => Ok(()),
        ItemNode::Equal { left: _, right: _ } => Ok(()),
        ItemNode::Is {
            left: _,
            right,
            pair: _,
        } => look_along_subterms(alloc, loaded, no, right, findings),
        ItemNode::Compare {
            relation: _,
            left,
            right,
        } => {
            look_along_subterms(alloc, loaded, no, left, findings)?;
            look_along_subterms(alloc, loaded, no, right, findings)
        }
        ItemNode::Fail => Ok(()),
    }
}

/// Adds the subterms of these items' expressions that can have no value. After an error, which is want
/// of memory, the findings are spent.
pub(crate) fn add_no_values(
    alloc: Global,
    loaded: &Loaded,
    no: ClauseNo,
    items: &[ItemNode],
    findings: &mut Findings,
) -> Result<(), AllocError>
    requires there { no.0 ≤ length (program_of loaded.now).clauses }
    requires items { AreItems (skeleton_of loaded.now).nodes items.now }
    ensures { OnOk result (Adds findings.old findings.new (no_value_lines (program_of loaded.now)
        (clause_at (program_of loaded.now) no.0) (items_shown (skeleton_of loaded.now).nodes items.now))) }
{
    for item in items {
        look_at_item(alloc, loaded, no, *item, findings)?;
    }
    Ok(())
}
