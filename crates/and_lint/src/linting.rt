//! All findings of a program.

ghost use Rattle.std.specs.Prelude.{◌≡◌, ◌<◌, ◌≤◌, ◌&&◌, ◌∷◌, [], not, IfOk, OnOk, get_or, false, length};
ghost use Rattle.std.specs.List.{flat_map, range_with_len};
ghost use Rattle.and_model.specs.Programs.{clause_at};
ghost use Rattle.and_program.specs.Loaded.{program_of, skeleton_of};
ghost use Rattle.and_program.specs.Skeletons.{node_term};
ghost use Rattle.and_lint.specs.Findings as specs;
ghost use Rattle.and_lint.specs.Bodies.{items_written, variables_in_body};
ghost use Rattle.and_lint.specs.Findings.{IsLint, clause_lines, lines_of, never_lines};
ghost use Rattle.and_lint.specs.Held.{Tells};
ghost use Rattle.and_lint.specs.Kept.{Adds};
ghost use Rattle.and_lint.specs.Told.{never_line_of};

use crate::bodies::{Body, all_bodies, is_lifted, items_at};
use crate::expressions::add_no_values;
use crate::findings::{Findings, front};
use crate::leaving::add_left_terms;
use crate::lone::{add_lone_variables, variables_of};
use crate::names::write_name_of;
use crate::reaching::reached_clauses;
use crate::walking::count;
use and_model::{ClauseNo, NodeNo, Text};
use and_program::{Loaded, NodeKind};
use std::alloc::{AllocError, Global};

/// What is told of a program: its findings, each a line, and last how many they are. What stands in a
/// disjunction is told of the clause that it stands in. An error is want of memory.
pub fn lint(alloc: Global, loaded: &Loaded) -> Result<Findings, AllocError>
    ensures { IfOk result (λ findings. IsLint (program_of loaded.now) findings.text findings.count) }
{
    let reached = reached_clauses(alloc, loaded)?;
    let bodies = all_bodies(alloc, loaded)?;
    let mut findings = Findings::new(alloc);
    add_clauses(alloc, loaded, &reached, &bodies, &mut findings)?;
    add_clause(alloc, loaded, &reached, &bodies, ClauseNo(0), &mut findings)?;
    findings.write_count(alloc)?;
    Ok(findings)
}

/// Adds the findings of all clauses, without those of the query.
fn add_clauses(
    alloc: Global,
    loaded: &Loaded,
    reached: &[bool],
    bodies: &[Body],
    findings: &mut Findings,
) -> Result<(), AllocError>
    requires { Tells (skeleton_of loaded.now).nodes bodies.now (items_written (program_of loaded.now))
        (variables_in_body (program_of loaded.now)) }
    ensures { OnOk result (Adds findings.old findings.new (flat_map
        (lines_of (program_of loaded.now) (λ c. get_or reached.now c false))
        (range_with_len 1 (length (program_of loaded.now).clauses)))) }
{
    for number in 1..loaded.clause_count() + 1 {
        add_clause(
            alloc,
            loaded,
            reached,
            bodies,
            ClauseNo(number as u16),
            findings,
        )?;
    }
    Ok(())
}

/// Adds the findings of a clause, or of the query. Those of an alternative are its clause's.
fn add_clause(
    alloc: Global,
    loaded: &Loaded,
    reached: &[bool],
    bodies: &[Body],
    no: ClauseNo,
    findings: &mut Findings,
) -> Result<(), AllocError>
    requires there { no.0 ≤ length (program_of loaded.now).clauses }
    requires bodies { Tells (skeleton_of loaded.now).nodes bodies.now (items_written (program_of loaded.now))
        (variables_in_body (program_of loaded.now)) }
    ensures { OnOk result (Adds findings.old findings.new
        (lines_of (program_of loaded.now) (λ c. get_or reached.now c false) no.0)) }
{
    if is_lifted(loaded, loaded.head(no)) {
        return Ok(());
    }
    add_written(alloc, loaded, reached, bodies, no, findings)
}

/// Adds the findings of a clause of the text, or of the query.
fn add_written(
    alloc: Global,
    loaded: &Loaded,
    reached: &[bool],
    bodies: &[Body],
    no: ClauseNo,
    findings: &mut Findings,
) -> Result<(), AllocError>
    requires there { no.0 ≤ length (program_of loaded.now).clauses }
    requires bodies { Tells (skeleton_of loaded.now).nodes bodies.now (items_written (program_of loaded.now))
        (variables_in_body (program_of loaded.now)) }
    ensures { OnOk result (Adds findings.old findings.new
        (clause_lines (program_of loaded.now) (λ c. get_or reached.now c false) no.0)) }
{
    let variables = variables_of(alloc, loaded, no, bodies)?;
    add_lone_variables(alloc, loaded, no, &variables, findings)?;
    add_never_called(alloc, loaded, reached, no, findings)?;
    let items = items_at(bodies, no);
    add_no_values(alloc, loaded, no, items, findings)?;
    add_left_terms(alloc, loaded, no, items, findings)
}

/// Adds that a predicate is never called, where the clause is its first and no chain of calls leads
/// to it.
fn add_never_called(
    alloc: Global,
    loaded: &Loaded,
    reached: &[bool],
    no: ClauseNo,
    findings: &mut Findings,
) -> Result<(), AllocError>
    requires { no.0 ≤ length (program_of loaded.now).clauses }
    ensures { OnOk result (Adds findings.old findings.new
        (never_lines (program_of loaded.now) (λ c. get_or reached.now c false) no.0)) }
{
    if is_never_called(loaded, reached, no) {
        return add_never(alloc, loaded, no, findings);
    }
    Ok(())
}

/// Adds that the predicate of a clause is never called.
fn add_never(
    alloc: Global,
    loaded: &Loaded,
    no: ClauseNo,
    findings: &mut Findings,
) -> Result<(), AllocError>
    requires { no.0 ≤ length (program_of loaded.now).clauses }
    ensures { OnOk result (Adds findings.old findings.new
        (specs.never_line (program_of loaded.now) (clause_at (program_of loaded.now) no.0) ∷ [])) }
{
    let line = never_line(alloc, loaded, no)?;
    findings.add(&line)
}

/// Whether a clause is the first of its predicate, and no chain of calls leads to it.
fn is_never_called(loaded: &Loaded, reached: &[bool], no: ClauseNo) -> bool
    requires { no.0 ≤ length (program_of loaded.now).clauses }
    ensures { result ≡ (not (get_or reached.now no.0 false)
        && specs.is_first (program_of loaded.now) no.0 (clause_at (program_of loaded.now) no.0).head) }
{
    if is_reached(reached, no) {
        return false;
    }
    is_first(loaded, no)
}

/// Whether a clause is marked.
fn is_reached(reached: &[bool], no: ClauseNo) -> bool
    ensures { result ≡ get_or reached.now no.0 false }
{
    match reached.get(no.0 as usize) {
        Some(is) => *is,
        None => false,
    }
}

/// Whether a clause is the first of its predicate.
fn is_first(loaded: &Loaded, no: ClauseNo) -> bool
    requires { no.0 ≤ length (program_of loaded.now).clauses }
    ensures { result ≡ specs.is_first (program_of loaded.now) no.0 (clause_at (program_of loaded.now) no.0).head }
{
    match loaded.kind(loaded.head(no)) {
        NodeKind::Variable(_) => false,
        NodeKind::Number(_) => false,
        NodeKind::Compound { name, count } => begins_with(loaded.clauses_of(name, count), no),
    }
}

/// Whether a clause is the first of these.
fn begins_with(clauses: &[ClauseNo], no: ClauseNo) -> bool
    ensures { result ≡ specs.begins_with no.0 clauses.now }
{
    match clauses {
        [first, ..] => first.0 == no.0,
        [] => false,
    }
}

/// The line that a predicate is never called. An error is want of memory.
fn never_line(alloc: Global, loaded: &Loaded, no: ClauseNo) -> Result<Text, AllocError>
    requires { no.0 ≤ length (program_of loaded.now).clauses }
    ensures { IfOk result (λ text. text
        ≡ specs.never_line (program_of loaded.now) (clause_at (program_of loaded.now) no.0)) }
{
    never_line_of(alloc, loaded, loaded.line(no), loaded.head(no))
}

/// The line that the predicate of a head is never called, which stands on that line.
fn never_line_of(
    alloc: Global,
    loaded: &Loaded,
    line: u32,
    head: NodeNo,
) -> Result<Text, AllocError>
    requires { head.0 < length (skeleton_of loaded.now).nodes }
    ensures { IfOk result (λ text. text ≡ never_line_of (program_of loaded.now) line
        (node_term (skeleton_of loaded.now).nodes head.0)) }
{
    let arity = arity_of(loaded, head);
    let mut text = front(alloc, line)?;
    write_name_of(loaded, head, &mut text)?;
    text.append(b"/")?;
    let behind = format!(in alloc; "{arity} is never called")?;
    text.append(behind.as_bytes())?;
    Ok(text)
}

/// How many arguments the term of a node has.
fn arity_of(loaded: &Loaded, node: NodeNo) -> u8
    requires { node.0 < length (skeleton_of loaded.now).nodes }
    ensures { result ≡ specs.arity_of (node_term (skeleton_of loaded.now).nodes node.0) }
{
    count(loaded.kind(node))
}
