//! Which clauses each predicate has.

ghost use Rattle.std.specs.Prelude.{◌≡◌, ◌≤◌, ◌++◌, ◌∷◌, [], map, length, IfOk, OnOk, if◌then◌else◌};
ghost use Rattle.and_program.specs.Skeletons.{node_term};
ghost use Rattle.and_program.specs.Nodes.{shape_of, shapes_of, entry_clause};
ghost use Rattle.and_program.specs.Predicates.{predicate_in, predicate_in_shape, same_key, is_key_of, numbers_at};
ghost use Rattle.and_program.specs.Predicates.{Finds};
ghost use Rattle.and_program.specs.declared.predicates.Predicate.{Predicate};
ghost use Rattle.and_model.specs.declared.limits.TheConstants.{MAX_CLAUSES};

use crate::entry::ClauseEntry;
use crate::node::Node;
use and_model::{ClauseNo, NameNo, NodeNo};
use std::alloc::{AllocError, Global};
use std::collections::HashMap;

/// A name with a number of arguments.
#[derive(Clone, Copy, PartialEq, Eq, Hash)]
pub struct Predicate {
    pub name: NameNo,
    pub arity: usize,
}

/// The numbers of the clauses of each predicate, in textual order.
pub type ClauseNumbers = HashMap<Predicate, Vec<ClauseNo>>;

/// The predicate of a node's term. A variable and a number have none.
fn predicate_of(node: &Node) -> Option<Predicate>
    ensures { result ≡ predicate_in_shape (shape_of node.now) }
{
    match node {
        Node::Compound { name, arguments } => Some(Predicate {
            name: *name,
            arity: arguments.len(),
        }),
        Node::Variable(_) => None,
        Node::Number(_) => None,
    }
}

/// The predicate of the term of the node of that number.
pub fn predicate_at(nodes: &[Node], node: NodeNo) -> Option<Predicate>
    ensures { result ≡ predicate_in (node_term (shapes_of nodes.now) node.0) }
{
    match nodes.get(node.0 as usize) {
        Some(found) => predicate_of(found),
        None => None,
    }
}

/// The clauses of a predicate.
pub fn clauses_at(found: &ClauseNumbers, predicate: Predicate) -> &[ClauseNo]
    ensures { result.now ≡ numbers_at found.now predicate }
{
    match found.get(&predicate) {
        Some(numbers) => numbers,
        None => &[],
    }
}

/// Puts a clause behind those of its head's predicate.
fn note(
    alloc: Global,
    found: &mut ClauseNumbers,
    predicate: Predicate,
    number: ClauseNo,
) -> Result<(), AllocError>
    ensures { OnOk result ((p : Predicate) → numbers_at found.new p
        ≡ (if same_key predicate p then numbers_at found.old p ++ number ∷ [] else numbers_at found.old p)) }
{
    let mut numbers = found.remove(&predicate).unwrap_or(Vec::new(alloc));
    numbers.push(number)?;
    found.insert(predicate, numbers)?;
    Ok(())
}

/// Puts a clause behind those of its head's predicate, where the head has one.
fn note_clause(
    alloc: Global,
    found: &mut ClauseNumbers,
    predicate: Option<Predicate>,
    number: ClauseNo,
) -> Result<(), AllocError>
    ensures { OnOk result ((p : Predicate) → numbers_at found.new p
        ≡ (if is_key_of predicate p then numbers_at found.old p ++ number ∷ [] else numbers_at found.old p)) }
{
    match predicate {
        Some(predicate) => note(alloc, found, predicate, number),
        None => Ok(()),
    }
}

/// The clauses of all predicates.
pub fn clause_numbers(
    alloc: Global,
    nodes: &[Node],
    clauses: &[ClauseEntry],
) -> Result<ClauseNumbers, AllocError>
    requires { length clauses.now ≤ MAX_CLAUSES }
    ensures { IfOk result (λ found. Finds found (map (entry_clause (shapes_of nodes.now)) clauses.now)) }
{
    let mut found = HashMap::new(alloc);
    for (place, clause) in clauses.iter().enumerate() {
        let number = ClauseNo(place as u16 + 1);
        note_clause(alloc, &mut found, predicate_at(nodes, clause.head), number)?;
    }
    Ok(found)
}
