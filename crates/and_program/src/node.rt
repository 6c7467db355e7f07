//! The nodes of a program's terms.

use and_model::{NameNo, NodeNo};

/// What a node is.
#[derive(Clone, Copy, PartialEq, Eq, Debug)]
pub enum NodeKind {
    /// The clause's variable of that number.
    Variable(u8),
    Number(i64),
    /// A name with that many arguments; an atom has none.
    Compound { name: NameNo, count: u8 },
}

/// A node. Its arguments are nodes with smaller numbers.
pub enum Node {
    Variable(u32),
    Number(i64),
    Compound {
        name: NameNo,
        arguments: Vec<NodeNo>,
    },
}

// By hand, so that it is proved once, here.
impl Drop for Node {
    fn drop(self) {
        match self {
            Node::Variable(_) => {}
            Node::Number(_) => {}
            Node::Compound {
                name: _,
                arguments: _,
            } => {}
        }
    }
}
