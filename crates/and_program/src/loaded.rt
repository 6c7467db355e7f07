//! A program that was loaded.

ghost use Rattle.std.specs.Prelude.{◌≡◌, ℕ, map};
ghost use Rattle.std.proofs.Props.{props};
ghost use Rattle.and_program.specs.Kept.{IsProgram, IsWithin, AllWithin};
ghost use Rattle.and_program.specs.Nodes.{shape_of, shapes_of, names_of, entry_clause};
ghost use Rattle.and_program.specs.Once.{IsProgram-prop};
ghost use Rattle.and_program.specs.Predicates.{Finds};
ghost use Rattle.and_program.specs.Shown.{truth, shown, count_of, shown_term, argument_of, clauses_with, resolved};
ghost use Rattle.and_model.specs.declared.limits.TheConstants.{MAX_CLAUSES, MAX_NODES};

use crate::entry::ClauseEntry;
use crate::item::ItemNode;
use crate::names::name_at;
use crate::node::{Node, NodeKind};
use crate::predicates::{ClauseNumbers, Predicate, clauses_at};
use and_model::{ClauseNo, NameNo, NodeNo, Ref};
use indexmap::IndexSet;

/// A program. Contracts speak of the program that it stands for, and of the skeleton, whose nodes
/// have the terms of the program's clauses. Reading it takes no memory.
pub struct Loaded {
    nodes: Vec<Node>,
    clauses: Vec<ClauseEntry>,
    query: ClauseEntry,
    names: IndexSet<Vec<u8>>,
    /// The clauses of each predicate.
    numbers: ClauseNumbers,
    ghost kept: { IsProgram (shapes_of nodes.items) query clauses.items (names_of names.keys) } by { IsProgram-prop
        (shapes_of nodes.items) query clauses.items (names_of names.keys) },
    ghost found: { Finds numbers (map (entry_clause (shapes_of nodes.items)) clauses.items) } by { Prim.hlevel props },
}

// By hand, so that it is proved here once, and not in each crate that lets go of a program.
impl Drop for Loaded {
    fn drop(self) {
        let Loaded {
            nodes: _,
            clauses: _,
            query: _,
            names: _,
            numbers: _,
        } = self;
    }
}

/// What a program is made of.
#[derive(Drop)]
pub struct LoadedParts {
    pub nodes: Vec<Node>,
    pub clauses: Vec<ClauseEntry>,
    pub query: ClauseEntry,
    pub names: IndexSet<Vec<u8>>,
    /// The clauses of each predicate.
    pub numbers: ClauseNumbers,
}

impl Loaded {
    ghost use Rattle.std.specs.Prelude.{[], ◌<◌, ◌≤◌, ◌+◌, ◌^◌, length, get_or, nat_eq};
    ghost use Rattle.std.specs.List.{list_any};
    ghost use Rattle.and_model.specs.Candidates.{guard};
    ghost use Rattle.and_model.specs.OwnVariables.{HaveOwnVariables};
    ghost use Rattle.and_model.specs.Programs.{clause_at, clause_weight, is_of};
    ghost use Rattle.and_model.specs.Terms.{Terms, compound};
    ghost use Rattle.and_model.specs.Terms.{width};
    ghost use Rattle.and_program.specs.Skeletons.{IsSkeleton, AllThere, node_term, item_of};
    ghost use Rattle.and_program.specs.Items.{node_item};
    ghost use Rattle.and_program.specs.Loaded.{
      program_in,
      program_of,
      skeleton_of,
      entry_at,
      nodes_at,
      shape_at,
      arguments_at,
    };

    /// The program of these nodes and entries, which fit each other. `numbers` has the clauses of each
    /// predicate. Takes no memory.
    pub fn new(
        nodes: Vec<Node>,
        clauses: Vec<ClauseEntry>,
        query: ClauseEntry,
        names: IndexSet<Vec<u8>>,
        numbers: ClauseNumbers,
    ) -> Loaded
        requires kept { IsProgram (shapes_of nodes.items) query clauses.items (names_of names.keys) }
        requires found { Finds numbers (map (entry_clause (shapes_of nodes.items)) clauses.items) }
        ensures { program_of result ≡ program_in (shapes_of nodes.items) query clauses.items (names_of names.keys) }
    {
        Loaded {
            nodes,
            clauses,
            query,
            names,
            numbers,
        }
    }

    /// How many clauses it has, without the query.
    pub fn clause_count(&self) -> u32
        ensures count { result ≡ length (program_of self.now).clauses }
        ensures few { result ≤ MAX_CLAUSES }
    {
        self.clauses.len() as u32
    }

    /// The line of the first token of a clause, or of the query.
    pub fn line(&self, no: ClauseNo) -> u32
        requires { no.0 ≤ length (program_of self.now).clauses }
        ensures { result ≡ (clause_at (program_of self.now) no.0).line }
    {
        self.entry(no).line
    }

    /// The node of the head of a clause. That of the query is the atom `true`.
    pub fn head(&self, no: ClauseNo) -> NodeNo
        requires { no.0 ≤ length (program_of self.now).clauses }
        ensures node { result.0 ≡ (nodes_at (skeleton_of self.now) no.0).head }
        ensures term { node_term (skeleton_of self.now).nodes result.0 ≡ (clause_at (program_of self.now) no.0).head }
        ensures there { result.0 < length (skeleton_of self.now).nodes }
        ensures query { no.0 ≡ 0 → node_term (skeleton_of self.now).nodes result.0 ≡ truth }
    {
        self.entry(no).head
    }

    /// The items of the body of a clause or of the query. Their nodes are there, and the `is` goals
    /// of the body are numbered in order.
    pub fn items(&self, no: ClauseNo) -> &[ItemNode]
        requires { no.0 ≤ length (program_of self.now).clauses }
        ensures items { map node_item result.now ≡ (nodes_at (skeleton_of self.now) no.0).items }
        ensures body { map (item_of (skeleton_of self.now).nodes) (map node_item result.now)
            ≡ (clause_at (program_of self.now) no.0).body }
        ensures there { AllThere (skeleton_of self.now).nodes 0 (map node_item result.now) }
    {
        &self.entry(no).items
    }

    /// How many variables a clause or the query has.
    pub fn variables(&self, no: ClauseNo) -> u8
        requires { no.0 ≤ length (program_of self.now).clauses }
        ensures { result ≡ (clause_at (program_of self.now) no.0).variables }
    {
        self.entry(no).variables.len() as u8
    }

    /// The weight of a clause or of the query.
    pub fn weight(&self, no: ClauseNo) -> u32
        requires { no.0 ≤ length (program_of self.now).clauses }
        ensures { result ≡ clause_weight (clause_at (program_of self.now) no.0) }
    {
        self.entry(no).weight
    }

    /// How many comparisons the body of a clause or of the query begins with.
    pub fn guard(&self, no: ClauseNo) -> u32
        requires { no.0 ≤ length (program_of self.now).clauses }
        ensures { result ≡ length (guard [] (clause_at (program_of self.now) no.0).body) }
    {
        self.entry(no).guard
    }

    /// What a node is.
    pub fn kind(&self, node: NodeNo) -> NodeKind
        requires { node.0 < length (skeleton_of self.now).nodes }
        ensures shape { result ≡ shown (shape_at (skeleton_of self.now) node.0) }
        ensures count { count_of result ≡ length (arguments_at (skeleton_of self.now) node.0) }
        ensures term { result ≡ shown_term (node_term (skeleton_of self.now).nodes node.0) }
    {
        show(&self.nodes[node.0 as usize])
    }

    /// The node of an argument, by its place from 0 on.
    pub fn argument(&self, node: NodeNo, place: u8) -> NodeNo
        requires there { node.0 < length (skeleton_of self.now).nodes }
        requires place { place < length (arguments_at (skeleton_of self.now) node.0) }
        ensures node { result.0 ≡ get_or (arguments_at (skeleton_of self.now) node.0) place 0 }
        ensures term { node_term (skeleton_of self.now).nodes result.0
            ≡ argument_of (node_term (skeleton_of self.now).nodes node.0) place }
        ensures below { result.0 < node.0 }
    {
        match &self.nodes[node.0 as usize] {
            Node::Compound { arguments, .. } => arguments[place as usize],
            Node::Variable(_) => unreachable!(),
            Node::Number(_) => unreachable!(),
        }
    }

    /// The nodes of the arguments of a node, of which a variable and a number have none.
    #[inline(always)]
    pub fn arguments(&self, node: NodeNo) -> &[NodeNo]
        requires { node.0 < length (skeleton_of self.now).nodes }
        ensures { map (λ (argument : NodeNo). argument.0) result.now ≡ arguments_at (skeleton_of self.now) node.0 }
    {
        match &self.nodes[node.0 as usize] {
            Node::Compound { arguments, .. } => arguments,
            Node::Variable(_) => &[],
            Node::Number(_) => &[],
        }
    }

    /// The clauses whose heads have that name and number of arguments, in the order of the text.
    pub fn clauses_of(&self, name: NameNo, arity: u8) -> &[ClauseNo]
        ensures clauses { result.now ≡ clauses_with name.0 arity 1 (program_of self.now).clauses }

        // These are just the clauses that a goal of that name and number of arguments can be taken by.
        ensures members { (ts : Terms) (k : ℕ) → width ts ≡ arity
            → list_any (λ m. nat_eq m.0 k) result.now ≡ is_of (program_of self.now) (compound name.0 ts) k }
    {
        let predicate = Predicate {
            name,
            arity: arity as usize,
        };
        clauses_at(&self.numbers, predicate)
    }

    /// The name of that number, and nothing where there is none.
    pub fn name(&self, name: NameNo) -> &[u8]
        ensures { result.now ≡ get_or (program_of self.now).names name.0 [] }
    {
        name_at(&self.names, name)
    }

    /// A variable of a clause or of the query as it was written, and nothing where there is none.
    pub fn variable_name(&self, no: ClauseNo, number: u8) -> &[u8]
        requires { no.0 ≤ length (program_of self.now).clauses }
        ensures { result.now ≡ get_or (clause_at (program_of self.now) no.0).written number [] }
    {
        match self.entry(no).variables.get(number as usize) {
            Some(name) => name.bytes(),
            None => &[],
        }
    }

    /// Where the term of a node is found in the frame that begins at the cell `base`: in the cell of
    /// its variable, and else at the node itself.
    pub fn resolve(&self, node: NodeNo, base: u32) -> Ref
        requires there { node.0 < length (skeleton_of self.now).nodes }
        requires base { base < 2 ^ 23 }
        ensures { result ≡ resolved (shape_at (skeleton_of self.now) node.0) node base }
    {
        match &self.nodes[node.0 as usize] {
            Node::Variable(number) => Ref::Cell(base + 1 + *number),
            Node::Number(_) => Ref::Node { node, base },
            Node::Compound { .. } => Ref::Node { node, base },
        }
    }

    /// The nodes and items have the terms of the program, whose clauses name their own variables
    /// alone. Variables have numbers below 255, names are there, and no name has more than 255
    /// arguments.
    pub fn skeleton_is_of_the_program(&self)
        ensures skeleton { IsSkeleton (skeleton_of self.now) (program_of self.now) }
        ensures own_variables { HaveOwnVariables (program_of self.now) }
        ensures within { AllWithin (length (program_of self.now).names) (skeleton_of self.now).nodes }
        ensures few { length (skeleton_of self.now).nodes ≤ MAX_NODES + 1 }
    {}

    /// The clause of that number, or the query.
    fn entry(&self, no: ClauseNo) -> &ClauseEntry
        requires { no.0 ≤ length (program_of self.now).clauses }
        ensures { result.now ≡ entry_at self.now no.0 }
    {
        if no.0 == 0 {
            &self.query
        } else {
            &self.clauses[no.0 as usize - 1]
        }
    }
}

// What a program is made of, put together and taken apart again.
impl Loaded {
    ghost use Rattle.and_program.specs.Loaded.{nodes_in, entries_in, names_in, program_in, program_of};

    /// The program of these parts, which fit each other. Takes no memory.
    pub fn of_parts(parts: LoadedParts) -> Loaded
        requires kept { IsProgram (shapes_of parts.nodes.items) parts.query parts.clauses.items
            (names_of parts.names.keys) }
        requires found { Finds parts.numbers (map (entry_clause (shapes_of parts.nodes.items)) parts.clauses.items) }
        ensures program { program_of result
            ≡ program_in (shapes_of parts.nodes.items) parts.query parts.clauses.items (names_of parts.names.keys) }
        ensures nodes { nodes_in result ≡ shapes_of parts.nodes.items }
        ensures entries { entries_in result ≡ parts.clauses.items }
        ensures names { names_in result ≡ names_of parts.names.keys }
    {
        let LoadedParts {
            nodes,
            clauses,
            query,
            names,
            numbers,
        } = parts;
        Loaded {
            nodes,
            clauses,
            query,
            names,
            numbers,
        }
    }

    /// The parts of the program. Takes no memory.
    pub fn into_parts(self) -> LoadedParts
        ensures nodes { shapes_of result.nodes.items ≡ nodes_in self }
        ensures entries { result.clauses.items ≡ entries_in self }
        ensures names { names_of result.names.keys ≡ names_in self }
        ensures found { Finds result.numbers (map (entry_clause (nodes_in self)) (entries_in self)) }
    {
        let Loaded {
            nodes,
            clauses,
            query,
            names,
            numbers,
        } = self;
        LoadedParts {
            nodes,
            clauses,
            query,
            names,
            numbers,
        }
    }
}

/// What a node is.
fn show(node: &Node) -> NodeKind
    requires { (m : ℕ) × IsWithin m (shape_of node.now) }
    ensures { result ≡ shown (shape_of node.now) }
{
    match node {
        Node::Variable(number) => NodeKind::Variable(*number as u8),
        Node::Number(value) => NodeKind::Number(*value),
        Node::Compound { name, arguments } => NodeKind::Compound {
            name: *name,
            count: arguments.len() as u8,
        },
    }
}
