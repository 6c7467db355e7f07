//! The items of bodies.

ghost use Rattle.std.specs.Prelude.{◌≡◌};
ghost use Rattle.and_program.specs.Items.{is_call_node, node_item};

use and_model::{NodeNo, Relation};

/// An item of a body, by its nodes.
#[derive(Clone, Copy, PartialEq, Eq, Debug)]
pub enum ItemNode {
    Call {
        goal: NodeNo,
    },
    Equal {
        left: NodeNo,
        right: NodeNo,
    },
    /// An `is` goal; `pair` is its number among those of its clause, from 0 on.
    Is {
        left: NodeNo,
        right: NodeNo,
        pair: u32,
    },
    Compare {
        relation: Relation,
        left: NodeNo,
        right: NodeNo,
    },
    Fail,
}

impl ItemNode {
    /// Whether the item is a call. Takes no memory.
    pub fn is_call(self) -> bool
        ensures { result ≡ is_call_node (node_item self) }
    {
        match self {
            ItemNode::Call { .. } => true,
            ItemNode::Equal { .. } => false,
            ItemNode::Is { .. } => false,
            ItemNode::Compare { .. } => false,
            ItemNode::Fail => false,
        }
    }
}
