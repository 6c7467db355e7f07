//! Clauses and queries as entries, with what they weigh.

ghost use Rattle.std.specs.Prelude.{◌≡◌, ◌≤◌, ◌+◌, [], ◌∷◌, map, length, vec_len, nat_eq};
ghost use Rattle.and_program.specs.Items.{node_item, pairs, guard_length};
ghost use Rattle.and_model.specs.declared.limits.TheConstants.{MAX_NODES, MAX_VARIABLES};

use crate::item::ItemNode;
use crate::short::ShortText;
use and_model::NodeNo;

/// A clause or the query.
pub struct ClauseEntry {
    pub head: NodeNo,
    pub items: Vec<ItemNode>,
    /// The names of its variables as they were written, by their numbers.
    pub variables: Vec<ShortText>,
    /// The line of its first token.
    pub line: u32,
    /// 1, its variables, and 2 for each `is` goal.
    pub(crate) weight: u32,
    /// How many comparisons its body begins with.
    pub(crate) guard: u32,
    ghost few: { vec_len variables ≤ MAX_VARIABLES },
    ghost weighed: { weight ≡ 1 + vec_len variables
        + (pairs (map node_item items.items) + pairs (map node_item items.items)) },
    ghost guarded: { guard ≡ guard_length (map node_item items.items) },
}

// By hand, so that it is proved once, here.
impl Drop for ClauseEntry {
    fn drop(self) {
        let ClauseEntry {
            head: _,
            items: _,
            variables: _,
            line: _,
            weight: _,
            guard: _,
        } = self;
    }
}

impl ClauseEntry {
    /// An entry of this head and these items, whose variables have these names. Takes no memory.
    pub fn new(
        head: NodeNo,
        items: Vec<ItemNode>,
        variables: Vec<ShortText>,
        line: u32,
    ) -> ClauseEntry
        requires few_variables { vec_len variables ≤ MAX_VARIABLES }
        requires few_items { vec_len items ≤ MAX_NODES + 1 }
        ensures head { result.head ≡ head }
        ensures items { result.items.items ≡ items.items }
        ensures variables { result.variables.items ≡ variables.items }
        ensures line { result.line ≡ line }
    {
        let weight = 1 + variables.len() as u32 + 2 * pair_count(&items);
        let guard = guard_count(&items);
        ClauseEntry {
            head,
            items,
            variables,
            line,
            weight,
            guard,
        }
    }
}

/// How many `is` goals there are.
fn pair_count(items: &[ItemNode]) -> u32
    requires { length items.now ≤ MAX_NODES + 1 }
    ensures value { result ≡ pairs (map node_item items.now) }
    ensures few { result ≤ MAX_NODES + 1 }
{
    let mut count = 0;
    for item in items {
        count += pairs_of(item);
    }
    count
}

/// 1 for an `is` goal, and 0 for another item.
fn pairs_of(item: &ItemNode) -> u32
    ensures { result ≡ pairs (node_item item.now ∷ []) }
{
    match item {
        ItemNode::Is {
            left: _,
            right: _,
            pair: _,
        } => 1,
        ItemNode::Call { goal: _ } => 0,
        ItemNode::Equal { left: _, right: _ } => 0,
        ItemNode::Compare {
            relation: _,
            left: _,
            right: _,
        } => 0,
        ItemNode::Fail => 0,
    }
}

/// How many comparisons come before anything else.
fn guard_count(items: &[ItemNode]) -> u32
    requires { length items.now ≤ MAX_NODES + 1 }
    ensures { result ≡ guard_length (map node_item items.now) }
{
    let mut count = 0;
    for item in items {
        if !is_comparison(item) {
            return count;
        }
        count += 1;
    }
    count
}

/// Whether an item is a comparison.
fn is_comparison(item: &ItemNode) -> bool
    ensures { result ≡ nat_eq (guard_length (node_item item.now ∷ [])) 1 }
{
    match item {
        ItemNode::Compare {
            relation: _,
            left: _,
            right: _,
        } => true,
        ItemNode::Call { goal: _ } => false,
        ItemNode::Equal { left: _, right: _ } => false,
        ItemNode::Is {
            left: _,
            right: _,
            pair: _,
        } => false,
        ItemNode::Fail => false,
    }
}
