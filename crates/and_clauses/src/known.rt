//! Nodes that are taken again: of variables, one of which serves all clauses, and of the calls of disjunctions, one of
//! which serves the heads of the alternatives too.

ghost use Rattle.std.specs.Prelude.{◌≡◌, IfSome, IsTrue, Some, slice_get};
ghost use Rattle.and_program.specs.Nodes.{shape_of, shapes_of};
ghost use Rattle.and_program.specs.Skeletons.{compound, variable as variable_shape};
ghost use Rattle.and_clauses.specs.Copies.{numbers_in};

use and_model::{NameNo, NodeNo};
use and_program::Node;
use std::alloc::{AllocError, Global};

/// For each number of a variable a node that may be its. Nothing is promised of it: whoever takes a node looks whether
/// it is.
#[derive(Drop)]
pub(crate) struct VariableNodes {
    nodes: Vec<NodeNo>,
}

impl VariableNodes {
    /// No nodes. Takes no memory.
    pub(crate) fn new(alloc: Global) -> VariableNodes {
        VariableNodes {
            nodes: Vec::new(alloc),
        }
    }

    /// Notes a node for a variable. An error is want of memory.
    pub(crate) fn note(&mut self, variable: u32, node: NodeNo) -> Result<(), AllocError> {
        let place = variable as usize;
        if self.nodes.len() <= place {
            self.nodes.resize(place + 1, NodeNo(0))?;
        }
        self.nodes[place] = node;
        Ok(())
    }

    /// The node that was noted for a variable, where it is the variable's among these. Takes no memory.
    pub(crate) fn of(&self, nodes: &[Node], variable: u32) -> Option<NodeNo>
        ensures { IfSome result (λ n. slice_get (shapes_of nodes.now) n.0 ≡ Some (variable_shape variable)) }
    {
        match self.nodes.get(variable as usize) {
            Some(node) => {
                if is_at(nodes, *node, variable) {
                    Some(*node)
                } else {
                    None
                }
            }
            None => None,
        }
    }
}

/// Whether that node is the variable's.
fn is_at(nodes: &[Node], node: NodeNo, variable: u32) -> bool
    ensures { IsTrue result → slice_get (shapes_of nodes.now) node.0 ≡ Some (variable_shape variable) }
{
    match nodes.get(node.0 as usize) {
        Some(found) => is_variable(found, variable),
        None => false,
    }
}

/// Whether a node is a variable's of that number.
fn is_variable(node: &Node, variable: u32) -> bool
    ensures { IsTrue result → shape_of node.now ≡ variable_shape variable }
{
    match node {
        Node::Variable(number) => *number == variable,
        Node::Number(_) => false,
        Node::Compound {
            name: _,
            arguments: _,
        } => false,
    }
}

/// For each disjunction of a clause a node that may be the call of its predicate. Nothing is promised of it: whoever
/// takes a node looks whether it is.
#[derive(Drop)]
pub(crate) struct CallNodes {
    nodes: Vec<NodeNo>,
}

impl CallNodes {
    /// No nodes. Takes no memory.
    pub(crate) fn new(alloc: Global) -> CallNodes {
        CallNodes {
            nodes: Vec::new(alloc),
        }
    }

    /// Notes a node for a disjunction. An error is want of memory.
    pub(crate) fn note(&mut self, disjunction: usize, node: NodeNo) -> Result<(), AllocError> {
        let length = disjunction.saturating_add(1);
        if self.nodes.len() < length {
            self.nodes.resize(length, NodeNo(0))?;
        }
        if let Some(place) = self.nodes.get_mut(disjunction) {
            *place = node;
        }
        Ok(())
    }

    /// The node that was noted for a disjunction, where it has that name and these arguments among these nodes. Takes
    /// no memory.
    pub(crate) fn of(
        &self,
        nodes: &[Node],
        disjunction: usize,
        name: NameNo,
        arguments: &[NodeNo],
    ) -> Option<NodeNo>
        ensures { IfSome result (λ n. slice_get (shapes_of nodes.now) n.0
            ≡ Some (compound name.0 (numbers_in arguments.now))) }
    {
        match self.nodes.get(disjunction) {
            Some(node) => {
                if is_call_at(nodes, *node, name, arguments) {
                    Some(*node)
                } else {
                    None
                }
            }
            None => None,
        }
    }
}

/// Whether that node has that name and these arguments.
fn is_call_at(nodes: &[Node], node: NodeNo, name: NameNo, arguments: &[NodeNo]) -> bool
    ensures { IsTrue result → slice_get (shapes_of nodes.now) node.0
        ≡ Some (compound name.0 (numbers_in arguments.now)) }
{
    match nodes.get(node.0 as usize) {
        Some(found) => is_call(found, name, arguments),
        None => false,
    }
}

/// Whether a node is a compound of that name and these arguments.
fn is_call(node: &Node, name: NameNo, arguments: &[NodeNo]) -> bool
    ensures { IsTrue result → shape_of node.now ≡ compound name.0 (numbers_in arguments.now) }
{
    match node {
        Node::Compound {
            name: found,
            arguments: there,
        } => found.0 == name.0 && are_same(there.as_slice(), arguments),
        Node::Variable(_) => false,
        Node::Number(_) => false,
    }
}

/// Whether these are the same nodes.
fn are_same(one: &[NodeNo], other: &[NodeNo]) -> bool
    ensures { IsTrue result → one.now ≡ other.now }
{
    if one.len() != other.len() {
        return false;
    }
    for place in 0..one.len() {
        if one[place].0 != other[place].0 {
            return false;
        }
    }
    true
}
