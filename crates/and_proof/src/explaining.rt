//! The text of the proof of a code.

ghost use Rattle.std.specs.Prelude.{◌≡◌, ◌<◌, ◌≤◌, ◌++◌, ◌∷◌, [], ℕ, List, IfOk, OnOk, IsNone, IfSome, length, map};
ghost use Rattle.std.specs.Prelude.{get_or};
ghost use Rattle.std.specs.Fmt.{decimal};
ghost use Rattle.and_model.specs.Lines.{first_seen, shown, variables_along, shown_variables, begins_underscore};
ghost use Rattle.and_model.specs.Stands.{item_term};
ghost use Rattle.and_model.specs.Terms.{Term, variables_of, Substitution, apply};
ghost use Rattle.and_program.specs.Items.{node_item};
ghost use Rattle.and_program.specs.Loaded.{program_of, skeleton_of};
ghost use Rattle.and_program.specs.Skeletons.{item_of, node_term};
ghost use Rattle.and_cells.specs.Parts.{named};
ghost use Rattle.and_print.specs.Given.{GivesQuery};
ghost use Rattle.and_print.specs.Goals.{NodeMeans, ItemMeans, GoalMeans, GoalsMean};
ghost use Rattle.and_proof.specs.Proofs.{HasProof, ProofText, Replaced, call_line, call_lines, goal_text, named_with};
ghost use Rattle.and_proof.specs.Proofs as specs;
ghost use Rattle.and_proof.specs.Unfolding.{IsProved};
ghost use Rattle.and_proof.specs.Written.{IsCallRead, AreCallsRead, named_if_shown};

use crate::documents::MARK;
use crate::goals::{Goals, Taken, call_at};
use crate::unfolding::{QUERY, unfold};
use crate::waiting::{Waiting, run_arithmetic};
use crate::workspace::Workspace;
use and_cells::{Naming, PlainCells};
use and_model::{ClauseNo, Code, Goal, GoalList, NodeNo, Ref, Text};
use and_print::{VariableNames, show_line, show_term};
use and_program::{ItemNode, Loaded, NodeKind};
use itoa::Buffer;
use std::alloc::{AllocError, Global};
use std::marker::Brand;

/// The text of the proof of a code; `None` where the code has no outcome or weighs more than the greatest limit. An
/// error is want of memory.
pub(crate) fn explain(
    alloc: Global,
    loaded: &Loaded,
    code: &Code,
) -> Result<Option<Text>, AllocError>
    ensures some { IfOk result (λ made. IfSome made (λ text. ProofText (program_of loaded.now) code.now text)) }
    ensures none { IfOk result (λ made. IsNone made → HasProof (program_of loaded.now) code.now → ⊥) }
{
    explain_named::<Brand>(alloc, loaded, code)
}

/// The same, over rows of that name.
fn explain_named<N: Naming>(
    alloc: Global,
    loaded: &Loaded,
    code: &Code,
) -> Result<Option<Text>, AllocError>
    requires { N.program ≡ named loaded.now }
    ensures some { IfOk result (λ made. IfSome made (λ text. ProofText (program_of loaded.now) code.now text)) }
    ensures none { IfOk result (λ made. IsNone made → HasProof (program_of loaded.now) code.now → ⊥) }
{
    let mut cells = PlainCells::<N>::with(alloc, 0)?;
    let mut goals = Goals::new(alloc);
    let mut workspace = Workspace::new(alloc);
    if !unfold(loaded, code, &mut cells, &mut goals, &mut workspace)? {
        return Ok(None);
    }
    let Goals {
        ahead: _,
        passed,
        taken,
    } = goals;
    let mut waiting = Waiting::behind(alloc, passed);
    if !run_arithmetic(loaded, &mut cells, &mut waiting, &mut workspace)? {
        return Ok(None);
    }
    let left = waiting.all(alloc)?;
    Ok(Some(text_of(alloc, loaded, &cells, &left, &taken)?))
}

/// The text of the proof that is kept in the cells. An error is want of memory.
fn text_of<N: Naming>(
    alloc: Global,
    loaded: &Loaded,
    cells: &PlainCells<N>,
    waiting: &GoalList,
    taken: &[Taken],
) -> Result<Text, AllocError>
    requires program { N.program ≡ named loaded.now }
    requires proved { (cs : List ℕ) × IsProved (named loaded.now) cells.now waiting.now taken.now cs }
    ensures { IfOk result (λ text. (cs : List ℕ) → IsProved (named loaded.now) cells.now waiting.now taken.now cs
        → ProofText (program_of loaded.now) cs text) }
{
    loaded.skeleton_is_of_the_program();
    let line = show_line(alloc, loaded, cells, waiting)?;
    let mut names = VariableNames::new(alloc);
    name_values(alloc, loaded, cells, &mut names)?;
    name_goals(alloc, loaded, cells, waiting, &mut names)?;
    let mut out = Text::of(alloc, MARK)?;
    out.append(b"\n")?;
    write_calls(alloc, loaded, cells, taken, &mut names, &mut out)?;
    out.append(b"%% line ")?;
    out.append(line.bytes())?;
    out.append(b"\n")?;
    Ok(out)
}

/// Writes the lines of calls. After want of memory the names and the text are spent.
fn write_calls<N: Naming>(
    alloc: Global,
    loaded: &Loaded,
    cells: &PlainCells<N>,
    taken: &[Taken],
    names: &mut VariableNames,
    out: &mut Text,
) -> Result<(), AllocError>
    requires program { N.program ≡ named loaded.now }
    requires calls { (rs : List Replaced) × AreCallsRead (named loaded.now) cells.now taken.now rs }
    ensures { (rs : List Replaced) → AreCallsRead (named loaded.now) cells.now taken.now rs
        → OnOk result (out.new ≡ out.old ++ call_lines (program_of loaded.now) names.old rs) }
{
    for place in 0..taken.len() {
        write_call(alloc, loaded, cells, taken[place], names, out)?;
    }
    Ok(())
}

/// Writes the line of a call. After want of memory the names and the text are spent.
fn write_call<N: Naming>(
    alloc: Global,
    loaded: &Loaded,
    cells: &PlainCells<N>,
    taken: Taken,
    names: &mut VariableNames,
    out: &mut Text,
) -> Result<(), AllocError>
    requires program { N.program ≡ named loaded.now }
    requires call { (r : Replaced) × IsCallRead (named loaded.now) cells.now taken r }
    ensures { (r : Replaced) → IsCallRead (named loaded.now) cells.now taken r → OnOk result
        ((names.new ≡ named_with (specs.is_alternative (program_of loaded.now) r.clause) names.old r.call)
        × (out.new ≡ out.old ++ call_line (program_of loaded.now) names.new r)) }
{
    out.append(b"%%")?;
    write_number(taken.depth, out)?;
    write_number(u32::from(taken.clause.0), out)?;
    out.append(b" ")?;
    write_goal(alloc, loaded, cells, taken, names, out)?;
    out.append(b"\n")?;
    Ok(())
}

/// Writes a call, or `;` where an alternative replaced it. After want of memory the names and the text are spent.
fn write_goal<N: Naming>(
    alloc: Global,
    loaded: &Loaded,
    cells: &PlainCells<N>,
    taken: Taken,
    names: &mut VariableNames,
    out: &mut Text,
) -> Result<(), AllocError>
    requires program { N.program ≡ named loaded.now }
    requires call { (r : Replaced) × IsCallRead (named loaded.now) cells.now taken r }
    ensures { (r : Replaced) → IsCallRead (named loaded.now) cells.now taken r
        → let other = specs.is_alternative (program_of loaded.now) taken.clause.0 in
        OnOk result ((names.new ≡ named_with other names.old r.call)
        × (out.new ≡ out.old ++ goal_text other (program_of loaded.now).names names.new r.call)) }
{
    if is_alternative(loaded, taken.clause) {
        out.append(b";")?;
        return Ok(());
    }
    show_call(alloc, loaded, cells, taken, names, out)
}

/// Writes a call as it is printed. After want of memory the names and the text are spent.
fn show_call<N: Naming>(
    alloc: Global,
    loaded: &Loaded,
    cells: &PlainCells<N>,
    taken: Taken,
    names: &mut VariableNames,
    out: &mut Text,
) -> Result<(), AllocError>
    requires program { N.program ≡ named loaded.now }
    requires call { (r : Replaced) × IsCallRead (named loaded.now) cells.now taken r }
    ensures { (r : Replaced) → IsCallRead (named loaded.now) cells.now taken r → OnOk result
        ((names.new ≡ first_seen names.old (variables_of r.call))
        × (out.new ≡ out.old ++ shown (program_of loaded.now).names names.new r.call)) }
{
    loaded.skeleton_is_of_the_program();
    let node = call_at(loaded, taken.call.clause, taken.call.item);
    let call = loaded.resolve(node, taken.call.base);
    show_term(alloc, loaded, cells, call, names, out)?;
    Ok(())
}

/// Whether a clause is an alternative of a disjunction: its predicate has a name that no text can write. Takes no
/// memory.
fn is_alternative(loaded: &Loaded, clause: ClauseNo) -> bool
    requires { clause.0 ≤ length (program_of loaded.now).clauses }
    ensures { result ≡ specs.is_alternative (program_of loaded.now) clause.0 }
{
    match loaded.kind(loaded.head(clause)) {
        NodeKind::Compound { name, count: _ } => begins_lifted(loaded.name(name)),
        NodeKind::Variable(_) => false,
        NodeKind::Number(_) => false,
    }
}

/// Whether a name begins with the byte FF. Takes no memory.
fn begins_lifted(name: &[u8]) -> bool
    ensures { result ≡ specs.begins_lifted name.now }
{
    matches!(name, [255, ..])
}

/// Writes a space and a number. After want of memory the text is spent.
fn write_number(number: u32, out: &mut Text) -> Result<(), AllocError>
    ensures { OnOk result (out.new ≡ out.old ++ 32 ∷ decimal number) }
{
    out.append(b" ")?;
    out.append(Buffer::new().format(number).as_bytes())?;
    Ok(())
}

/// Names the variables of the terms of the query's variables that are shown. After want of memory the names are spent.
fn name_values<N: Naming>(
    alloc: Global,
    loaded: &Loaded,
    cells: &PlainCells<N>,
    names: &mut VariableNames,
) -> Result<(), AllocError>
    requires program { N.program ≡ named loaded.now }
    requires gives { (s : Substitution) × GivesQuery (named loaded.now) cells.now s }
    ensures { (s : Substitution) → GivesQuery (named loaded.now) cells.now s → OnOk result
        (names.new ≡ first_seen names.old
        (variables_along (map (λ v. s [] v.1) (shown_variables 0 (program_of loaded.now).query.written)))) }
{
    for number in 0..loaded.variables(QUERY) {
        name_value(alloc, loaded, cells, number, names)?;
    }
    Ok(())
}

/// Names the variables of the term of a variable of the query, if that is shown. After want of memory the names are
/// spent.
fn name_value<N: Naming>(
    alloc: Global,
    loaded: &Loaded,
    cells: &PlainCells<N>,
    number: u8,
    names: &mut VariableNames,
) -> Result<(), AllocError>
    requires program { N.program ≡ named loaded.now }
    requires number { number < (program_of loaded.now).query.variables }
    requires gives { (s : Substitution) × GivesQuery (named loaded.now) cells.now s }
    ensures { (s : Substitution) → GivesQuery (named loaded.now) cells.now s → OnOk result
        (names.new ≡ named_if_shown (get_or (program_of loaded.now).query.written number []) names.old (s [] number)) }
{
    if begins_underscore(loaded.variable_name(QUERY, number)) {
        return Ok(());
    }
    let value = Ref::Cell(1 + u32::from(number));
    let mut passed = Text::new(alloc);
    show_term(alloc, loaded, cells, value, names, &mut passed)?;
    Ok(())
}

/// Names the variables of goals of arithmetic. After want of memory the names are spent.
fn name_goals<N: Naming>(
    alloc: Global,
    loaded: &Loaded,
    cells: &PlainCells<N>,
    waiting: &GoalList,
    names: &mut VariableNames,
) -> Result<(), AllocError>
    requires program { N.program ≡ named loaded.now }
    requires means { (ts : List Term) × GoalsMean (named loaded.now) cells.now waiting.now ts }
    ensures { (ts : List Term) → GoalsMean (named loaded.now) cells.now waiting.now ts
        → OnOk result (names.new ≡ first_seen names.old (variables_along ts)) }
{
    for place in 0..waiting.len() {
        name_goal(alloc, loaded, cells, *waiting.at(place), names)?;
    }
    Ok(())
}

/// Names the variables of a goal. After want of memory the names are spent.
fn name_goal<N: Naming>(
    alloc: Global,
    loaded: &Loaded,
    cells: &PlainCells<N>,
    goal: Goal,
    names: &mut VariableNames,
) -> Result<(), AllocError>
    requires program { N.program ≡ named loaded.now }
    requires means { (t : Term) × GoalMeans (named loaded.now) cells.now goal t }
    ensures { (t : Term) → GoalMeans (named loaded.now) cells.now goal t
        → OnOk result (names.new ≡ first_seen names.old (variables_of t)) }
{
    let item = loaded.items(goal.clause)[goal.item as usize];
    name_item(alloc, loaded, cells, item, goal.base, names)
}

/// Names the variables of an item in the frame at the base. After want of memory the names are spent.
fn name_item<N: Naming>(
    alloc: Global,
    loaded: &Loaded,
    cells: &PlainCells<N>,
    item: ItemNode,
    base: u32,
    names: &mut VariableNames,
) -> Result<(), AllocError>
    requires program { N.program ≡ named loaded.now }
    requires means { (s : Substitution) × ItemMeans (named loaded.now) cells.now (node_item item) base s }
    ensures { (s : Substitution) → ItemMeans (named loaded.now) cells.now (node_item item) base s → (t : Term)
        → t ≡ apply s (item_term (item_of (skeleton_of loaded.now).nodes (node_item item)))
        → OnOk result (names.new ≡ first_seen names.old (variables_of t)) }
{
    match item {
        ItemNode::Call { goal } => name_term(alloc, loaded, cells, goal, base, names),
        ItemNode::Equal { left, right } => {
            name_both(alloc, loaded, cells, left, right, base, names)
        }
        ItemNode::Is {
            left,
            right,
            pair: _,
        } => name_both(alloc, loaded, cells, left, right, base, names),
        ItemNode::Compare {
            relation: _,
            left,
            right,
        } => name_both(alloc, loaded, cells, left, right, base, names),
        ItemNode::Fail => Ok(()),
    }
}

/// Names the variables of the terms of two nodes in the frame at the base. After want of memory the names are spent.
fn name_both<N: Naming>(
    alloc: Global,
    loaded: &Loaded,
    cells: &PlainCells<N>,
    left: NodeNo,
    right: NodeNo,
    base: u32,
    names: &mut VariableNames,
) -> Result<(), AllocError>
    requires program { N.program ≡ named loaded.now }
    requires means { (s : Substitution)
        × (NodeMeans (named loaded.now) cells.now left.0 base s
        × NodeMeans (named loaded.now) cells.now right.0 base s) }
    ensures { (s : Substitution) → NodeMeans (named loaded.now) cells.now left.0 base s
        → NodeMeans (named loaded.now) cells.now right.0 base s
        → OnOk result (names.new
        ≡ first_seen (first_seen names.old
        (variables_of (apply s (node_term (skeleton_of loaded.now).nodes left.0))))
        (variables_of (apply s (node_term (skeleton_of loaded.now).nodes right.0)))) }
{
    name_term(alloc, loaded, cells, left, base, names)?;
    name_term(alloc, loaded, cells, right, base, names)?;
    Ok(())
}

/// Names the variables of the term of a node in the frame at the base. After want of memory the names are spent.
fn name_term<N: Naming>(
    alloc: Global,
    loaded: &Loaded,
    cells: &PlainCells<N>,
    node: NodeNo,
    base: u32,
    names: &mut VariableNames,
) -> Result<(), AllocError>
    requires program { N.program ≡ named loaded.now }
    requires means { (s : Substitution) × NodeMeans (named loaded.now) cells.now node.0 base s }
    ensures { (s : Substitution) → NodeMeans (named loaded.now) cells.now node.0 base s
        → OnOk result (names.new ≡ first_seen names.old
        (variables_of (apply s (node_term (skeleton_of loaded.now).nodes node.0)))) }
{
    let term = loaded.resolve(node, base);
    let mut passed = Text::new(alloc);
    show_term(alloc, loaded, cells, term, names, &mut passed)?;
    Ok(())
}

/// Whether a name begins with `_`. Takes no memory.
fn begins_underscore(name: &[u8]) -> bool
    ensures { result ≡ begins_underscore name.now }
{
    matches!(name, [b'_', ..])
}
