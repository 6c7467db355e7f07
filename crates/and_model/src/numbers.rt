//! The numbers by which a program's clauses, names and skeleton nodes are told apart.

/// The number of a clause: 0 is the query, and from 1 on they are the clauses in textual order.
#[derive(Clone, Copy, PartialEq, Eq, PartialOrd, Ord, Hash, Debug)]
pub struct ClauseNo(pub u16);

/// The number of a name, in the order in which the program's names were first seen.
#[derive(Clone, Copy, PartialEq, Eq, PartialOrd, Ord, Hash, Debug)]
pub struct NameNo(pub u32);

/// The number of a node of a program's skeletons.
#[derive(Clone, Copy, PartialEq, Eq, PartialOrd, Ord, Hash, Debug)]
pub struct NodeNo(pub u32);
