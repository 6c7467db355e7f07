//! The terms of nodes as they are written.

ghost use Rattle.std.specs.Prelude.{◌≡◌, ◌<◌, ◌++◌, ◌∷◌, ℕ, List, [], OnOk, length, map, get_or};
ghost use Rattle.std.specs.Fmt.{decimal, signed_decimal};
ghost use Rattle.and_model.specs.Terms.{Path, variables_of};
ghost use Rattle.and_model.specs.Lines.{first_seen, place_of, shown, shown_arguments, shown_name, shown_rest};
ghost use Rattle.and_model.specs.Lines.{shown_tail};
ghost use Rattle.and_program.specs.Loaded.{program_of, skeleton_of, arguments_at};
ghost use Rattle.and_program.specs.Skeletons.{node_term};
ghost use Rattle.and_program.specs.Shown.{shown_term};
ghost use Rattle.and_lint.specs.Kept.{unframed};
ghost use Rattle.and_lint.specs.Printed.{Does, HasPushed, task_text, IsTaskThere, is_cell_by, is_nil_by, arguments_in};
ghost use Rattle.and_lint.specs.Printed.{from_place};

use crate::names::{place_of, variables_in_order};
use crate::walking::count;
use and_model::builtins::{NIL, POINT};
use and_model::{NameNo, NodeNo, Text};
use and_program::{Loaded, NodeKind};
use and_quoting::write_name;
use std::alloc::{AllocError, Global};

/// What is still to be written of a term.
#[derive(Clone, Copy)]
pub enum Task {
    /// A node's term.
    Whole(NodeNo),
    /// The tail of a list after an element.
    Tail(NodeNo),
    /// The arguments of a node from a place on, each behind a comma, and the bracket behind them.
    Rest { node: NodeNo, place: u8 },
    /// The bracket behind a list.
    Close,
}

/// Writes the term of a node at the end of the text, its variables named by first occurrence. After
/// an error, which is want of memory, the text is spent.
pub(crate) fn write_term(
    alloc: Global,
    loaded: &Loaded,
    node: NodeNo,
    text: &mut Text,
) -> Result<(), AllocError>
    requires { node.0 < length (skeleton_of loaded.now).nodes }
    ensures { let t = node_term (skeleton_of loaded.now).nodes node.0 in
        OnOk result (text.new ≡ text.old ++ shown (program_of loaded.now).names (first_seen [] (variables_of t)) t) }
{
    let order = variables_in_order(alloc, loaded, node)?;
    let mut work = Vec::new(alloc);
    work.push(Task::Whole(node))?;
    while let Some(task) = work.pop() {
        write_task(alloc, loaded, &order, task, &mut work, text)?;
        // Tasks are only put on the stack beside bytes, of which a text has fewer than 2^64.
        let _length = text.len();
    }
    Ok(())
}

/// Writes the begin of a task, and puts on the stack what is left of it.
fn write_task(
    alloc: Global,
    loaded: &Loaded,
    order: &[u8],
    task: Task,
    work: &mut Vec<Task>,
    text: &mut Text,
) -> Result<(), AllocError>
    requires { IsTaskThere (length (skeleton_of loaded.now).nodes) task }
    ensures { OnOk result (Does (program_of loaded.now).names (map unframed order.now) (skeleton_of loaded.now).nodes
        (task_text (program_of loaded.now).names (map unframed order.now) (skeleton_of loaded.now).nodes task)
        work.old.items work.new.items text.old text.new) }
{
    match task {
        Task::Whole(node) => write_whole(alloc, loaded, order, node, work, text),
        Task::Tail(node) => write_tail(loaded, node, work, text),
        Task::Rest { node, place } => write_rest(loaded, node, place, work, text),
        Task::Close => text.append(b"]"),
    }
}

/// Writes a variable by its place in the order. After want of memory the text is spent.
fn write_variable(
    alloc: Global,
    number: u8,
    order: &[u8],
    text: &mut Text,
) -> Result<(), AllocError>
    ensures { OnOk result (text.new ≡ text.old ++ 95 ∷ decimal (place_of (unframed number) (map unframed order.now))) }
{
    let place = place_of(number, order);
    let written = format!(in alloc; "_{place}")?;
    text.append(written.as_bytes())
}

/// Writes a number. After want of memory the text is spent.
fn write_number(alloc: Global, value: i64, text: &mut Text) -> Result<(), AllocError>
    ensures { OnOk result (text.new ≡ text.old ++ signed_decimal value) }
{
    let written = format!(in alloc; "{value}")?;
    text.append(written.as_bytes())
}

/// Whether a name with so many arguments is that of list cells.
fn is_cell(name: NameNo, count: u8) -> bool
    ensures { result ≡ is_cell_by name.0 count }
{
    name.0 == POINT && count == 2
}

/// Writes the begin of a term.
fn write_whole(
    alloc: Global,
    loaded: &Loaded,
    order: &[u8],
    node: NodeNo,
    work: &mut Vec<Task>,
    text: &mut Text,
) -> Result<(), AllocError>
    requires { node.0 < length (skeleton_of loaded.now).nodes }
    ensures { OnOk result (Does (program_of loaded.now).names (map unframed order.now) (skeleton_of loaded.now).nodes
        (shown (program_of loaded.now).names (map unframed order.now) (node_term (skeleton_of loaded.now).nodes node.0))
        work.old.items work.new.items text.old text.new) }
{
    match loaded.kind(node) {
        NodeKind::Variable(number) => write_variable(alloc, number, order, text),
        NodeKind::Number(value) => write_number(alloc, value, text),
        NodeKind::Compound { name, count } => {
            write_compound(loaded, node, name, count, work, text)
        }
    }
}

/// Writes the begin of a list, or of another structure.
fn write_compound(
    loaded: &Loaded,
    node: NodeNo,
    name: NameNo,
    count: u8,
    work: &mut Vec<Task>,
    text: &mut Text,
) -> Result<(), AllocError>
    requires there { node.0 < length (skeleton_of loaded.now).nodes }
    requires kind { NodeKind.Compound name count ≡ shown_term (node_term (skeleton_of loaded.now).nodes node.0) }
    requires count { count ≡ length (arguments_at (skeleton_of loaded.now) node.0) }
    ensures { (vs : List (Path × ℕ)) → OnOk result (Does (program_of loaded.now).names vs
        (skeleton_of loaded.now).nodes (shown (program_of loaded.now).names vs
        (node_term (skeleton_of loaded.now).nodes node.0)) work.old.items work.new.items text.old text.new) }
{
    if is_cell(name, count) {
        return write_cell(loaded, node, work, text);
    }
    write_structure(loaded, node, name, count, work, text)
}

/// Writes the bracket before a list, and puts the list and the bracket behind it on the stack.
fn write_cell(
    loaded: &Loaded,
    node: NodeNo,
    work: &mut Vec<Task>,
    text: &mut Text,
) -> Result<(), AllocError>
    requires there { node.0 < length (skeleton_of loaded.now).nodes }
    requires count { length (arguments_at (skeleton_of loaded.now) node.0) ≡ 2 }
    ensures { OnOk result (HasPushed (skeleton_of loaded.now).nodes (node_term (skeleton_of loaded.now).nodes node.0)
        (work.old.items ++ Task.Close ∷ []) work.new.items × (text.new ≡ text.old ++ 91 ∷ [])) }
{
    text.append(b"[")?;
    work.push(Task::Close)?;
    push_cell(loaded, node, work)
}

/// Writes a comma, and puts the next cell of a list on the stack.
fn write_next_cell(
    loaded: &Loaded,
    node: NodeNo,
    work: &mut Vec<Task>,
    text: &mut Text,
) -> Result<(), AllocError>
    requires there { node.0 < length (skeleton_of loaded.now).nodes }
    requires count { length (arguments_at (skeleton_of loaded.now) node.0) ≡ 2 }
    ensures { OnOk result (HasPushed (skeleton_of loaded.now).nodes (node_term (skeleton_of loaded.now).nodes node.0)
        work.old.items work.new.items × (text.new ≡ text.old ++ 44 ∷ [])) }
{
    text.append(b",")?;
    push_cell(loaded, node, work)
}

/// Puts the two parts of a list cell on the stack.
fn push_cell(loaded: &Loaded, node: NodeNo, work: &mut Vec<Task>) -> Result<(), AllocError>
    requires there { node.0 < length (skeleton_of loaded.now).nodes }
    requires count { length (arguments_at (skeleton_of loaded.now) node.0) ≡ 2 }
    ensures { OnOk result (HasPushed (skeleton_of loaded.now).nodes
        (node_term (skeleton_of loaded.now).nodes node.0) work.old.items work.new.items) }
{
    let tail = loaded.argument(node, 1);
    let head = loaded.argument(node, 0);
    work.push(Task::Tail(tail))?;
    work.push(Task::Whole(head))?;
    Ok(())
}

/// Writes the name of a structure, and the bracket before its arguments.
fn write_structure(
    loaded: &Loaded,
    node: NodeNo,
    name: NameNo,
    count: u8,
    work: &mut Vec<Task>,
    text: &mut Text,
) -> Result<(), AllocError>
    requires there { node.0 < length (skeleton_of loaded.now).nodes }
    requires kind { NodeKind.Compound name count ≡ shown_term (node_term (skeleton_of loaded.now).nodes node.0) }
    requires count { count ≡ length (arguments_at (skeleton_of loaded.now) node.0) }
    ensures { (vs : List (Path × ℕ)) → OnOk result (Does (program_of loaded.now).names vs
        (skeleton_of loaded.now).nodes (shown_name (get_or (program_of loaded.now).names name.0 [])
        ++ shown_arguments (program_of loaded.now).names vs
        (arguments_in (node_term (skeleton_of loaded.now).nodes node.0)))
        work.old.items work.new.items text.old text.new) }
{
    write_name(text, loaded.name(name))?;
    if count == 0 {
        return Ok(());
    }
    text.append(b"(")?;
    work.push(Task::Rest { node, place: 1 })?;
    work.push(Task::Whole(loaded.argument(node, 0)))?;
    Ok(())
}

/// Writes the begin of a list's tail.
fn write_tail(
    loaded: &Loaded,
    node: NodeNo,
    work: &mut Vec<Task>,
    text: &mut Text,
) -> Result<(), AllocError>
    requires { node.0 < length (skeleton_of loaded.now).nodes }
    ensures { (vs : List (Path × ℕ)) → OnOk result (Does (program_of loaded.now).names vs
        (skeleton_of loaded.now).nodes
        (shown_tail (program_of loaded.now).names vs (node_term (skeleton_of loaded.now).nodes node.0))
        work.old.items work.new.items text.old text.new) }
{
    match loaded.kind(node) {
        NodeKind::Variable(_) => write_end(node, work, text),
        NodeKind::Number(_) => write_end(node, work, text),
        NodeKind::Compound { name, count } => {
            write_compound_tail(loaded, node, name, count, work, text)
        }
    }
}

/// Whether a name with so many arguments is that of the empty list.
fn is_nil(name: NameNo, count: u8) -> bool
    ensures { result ≡ is_nil_by name.0 count }
{
    name.0 == NIL && count == 0
}

/// Writes the begin of a list's tail that is no variable and no number.
fn write_compound_tail(
    loaded: &Loaded,
    node: NodeNo,
    name: NameNo,
    count: u8,
    work: &mut Vec<Task>,
    text: &mut Text,
) -> Result<(), AllocError>
    requires there { node.0 < length (skeleton_of loaded.now).nodes }
    requires kind { NodeKind.Compound name count ≡ shown_term (node_term (skeleton_of loaded.now).nodes node.0) }
    requires count { count ≡ length (arguments_at (skeleton_of loaded.now) node.0) }
    ensures { (vs : List (Path × ℕ)) → OnOk result (Does (program_of loaded.now).names vs
        (skeleton_of loaded.now).nodes (shown_tail (program_of loaded.now).names vs
        (node_term (skeleton_of loaded.now).nodes node.0)) work.old.items work.new.items text.old text.new) }
{
    if is_cell(name, count) {
        return write_next_cell(loaded, node, work, text);
    }
    if is_nil(name, count) {
        return Ok(());
    }
    write_end(node, work, text)
}

/// Writes the bar before a tail that is no list.
fn write_end(node: NodeNo, work: &mut Vec<Task>, text: &mut Text) -> Result<(), AllocError>
    ensures { OnOk result ((work.new.items ≡ work.old.items ++ Task.Whole node ∷ [])
        × (text.new ≡ text.old ++ 124 ∷ [])) }
{
    text.append(b"|")?;
    work.push(Task::Whole(node))?;
    Ok(())
}

/// Writes a comma or the bracket behind arguments.
fn write_rest(
    loaded: &Loaded,
    node: NodeNo,
    place: u8,
    work: &mut Vec<Task>,
    text: &mut Text,
) -> Result<(), AllocError>
    requires { node.0 < length (skeleton_of loaded.now).nodes }
    ensures { (vs : List (Path × ℕ)) → OnOk result (Does (program_of loaded.now).names vs
        (skeleton_of loaded.now).nodes (shown_rest (program_of loaded.now).names vs
        (from_place place (arguments_in (node_term (skeleton_of loaded.now).nodes node.0))))
        work.old.items work.new.items text.old text.new) }
{
    if place >= count(loaded.kind(node)) {
        return text.append(b")");
    }
    text.append(b",")?;
    work.push(Task::Rest {
        node,
        place: place + 1,
    })?;
    work.push(Task::Whole(loaded.argument(node, place)))?;
    Ok(())
}
