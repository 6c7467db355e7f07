//! Variables that occur once in their clause.

ghost use Rattle.std.specs.Prelude.{◌≡◌, ◌≤◌, ◌∷◌, ◌++◌, [], ℕ, List, IfOk, OnOk, get_or, length, nat_eq};
ghost use Rattle.and_model.specs.Lines.{begins_underscore};
ghost use Rattle.and_model.specs.Programs.{clause_at};
ghost use Rattle.and_program.specs.Loaded.{program_of};
ghost use Rattle.and_lint.specs.Bodies.{numbers_in};
ghost use Rattle.and_lint.specs.Findings as specs;
ghost use Rattle.and_lint.specs.Findings.{is_alone, once_lines, once_lines_of};
ghost use Rattle.and_lint.specs.Held as held;
ghost use Rattle.and_lint.specs.Kept.{Adds, IsCountOf};

use crate::bodies::{Body, variables_at};
use crate::counting::count_variables;
use crate::findings::{Findings, front};
use crate::occurring::push_variables;
use and_model::{ClauseNo, Text};
use and_program::Loaded;
use std::alloc::{AllocError, Global};

fn begins_underscore(name: &[u8]) -> bool
    ensures { result ≡ begins_underscore name.now }
{
    matches!(name, [b'_', ..])
}

/// The line that a variable occurs once. An error is want of memory.
fn once_line(alloc: Global, loaded: &Loaded, no: ClauseNo, variable: u8) -> Result<Text, AllocError>
    requires { no.0 ≤ length (program_of loaded.now).clauses }
    ensures { IfOk result (λ text. text ≡ specs.once_line (clause_at (program_of loaded.now) no.0) variable) }
{
    let mut text = front(alloc, loaded.line(no))?;
    text.append(loaded.variable_name(no, variable))?;
    text.append(b" occurs once")?;
    Ok(text)
}

/// Adds that a variable occurs once.
fn add_once(
    alloc: Global,
    loaded: &Loaded,
    no: ClauseNo,
    variable: u8,
    findings: &mut Findings,
) -> Result<(), AllocError>
    requires { no.0 ≤ length (program_of loaded.now).clauses }
    ensures { OnOk result (Adds findings.old findings.new
        (specs.once_line (clause_at (program_of loaded.now) no.0) variable ∷ [])) }
{
    let line = once_line(alloc, loaded, no, variable)?;
    findings.add(&line)
}

/// Whether a variable occurs once, and its name does not begin with `_`.
fn is_alone(loaded: &Loaded, no: ClauseNo, counts: &[u8], variable: u8) -> bool
    requires there { no.0 ≤ length (program_of loaded.now).clauses }
    requires long { length counts.now ≡ 256 }
    ensures { (vs : List ℕ) → IsCountOf counts.now vs
        → result ≡ is_alone (clause_at (program_of loaded.now) no.0) vs variable }
{
    if begins_underscore(loaded.variable_name(no, variable)) {
        return false;
    }
    occurs_once(counts, variable)
}

/// Whether the count of a variable is one.
fn occurs_once(counts: &[u8], variable: u8) -> bool
    requires { length counts.now ≡ 256 }
    ensures { result ≡ nat_eq (get_or counts.now variable 0) 1 }
{
    counts[variable as usize] == 1
}

/// Adds that a variable occurs once, where it does and its name does not begin with `_`.
fn look_at_variable(
    alloc: Global,
    loaded: &Loaded,
    no: ClauseNo,
    counts: &[u8],
    variable: u8,
    findings: &mut Findings,
) -> Result<(), AllocError>
    requires there { no.0 ≤ length (program_of loaded.now).clauses }
    requires long { length counts.now ≡ 256 }
    ensures { (vs : List ℕ) → IsCountOf counts.now vs → OnOk result (Adds findings.old findings.new
        (once_lines_of (clause_at (program_of loaded.now) no.0) vs variable)) }
{
    if is_alone(loaded, no, counts, variable) {
        return add_once(alloc, loaded, no, variable, findings);
    }
    Ok(())
}

/// Adds the variables of a clause that are among these once. After an error, which is want of memory,
/// the findings are spent.
pub(crate) fn add_lone_variables(
    alloc: Global,
    loaded: &Loaded,
    no: ClauseNo,
    variables: &[u8],
    findings: &mut Findings,
) -> Result<(), AllocError>
    requires { no.0 ≤ length (program_of loaded.now).clauses }
    ensures { OnOk result (Adds findings.old findings.new
        (once_lines (clause_at (program_of loaded.now) no.0) variables.now)) }
{
    let mut counts = [0; 256];
    count_variables(variables, &mut counts);
    for variable in 0..loaded.variables(no) {
        look_at_variable(alloc, loaded, no, &counts, variable, findings)?;
    }
    Ok(())
}

/// The variables of a clause, each where it occurs, those of its disjunctions among them. An error is
/// want of memory.
pub(crate) fn variables_of(
    alloc: Global,
    loaded: &Loaded,
    no: ClauseNo,
    bodies: &[Body],
) -> Result<Vec<u8>, AllocError>
    requires { no.0 ≤ length (program_of loaded.now).clauses }
    ensures { IfOk result (λ variables. variables.items
        ≡ numbers_in ((clause_at (program_of loaded.now) no.0).head ∷ []) ++ held.variables_at bodies.now no.0) }
{
    let mut variables = Vec::new(alloc);
    push_variables(alloc, loaded, loaded.head(no), &mut variables)?;
    variables.extend_from_slice(variables_at(bodies, no))?;
    Ok(variables)
}
