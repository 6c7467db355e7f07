//! What was taken of a tree's goals, by the goals.

ghost use Rattle.std.specs.Prelude.{◌≡◌, ◌≤◌, ◌++◌, ◌∷◌, [], IfSome, IfNone, IfOk, Ok, Some, true, length, slice_get};
ghost use Rattle.std.specs.Prelude.{IsPermutation};
ghost use Rattle.and_gathering.specs.Gathering.{goal_taken, unmet};
ghost use Rattle.and_gathering.specs.declared.links.Taken.{Taken};

use and_model::{Goal, Reduction};
use std::alloc::{AllocError, Global};

/// What became of a goal.
#[derive(Clone, Copy, PartialEq, Eq, Debug)]
pub enum Taken {
    /// It is a call, and was reduced.
    Reduced { goal: Goal, reduction: Reduction },
    /// It is arithmetic, and was run.
    Ran { goal: Goal },
}

impl Taken {
    /// The goal.
    pub fn goal(&self) -> Goal
        ensures { result ≡ goal_taken self.now }
    {
        match *self {
            Taken::Reduced { goal, .. } => goal,
            Taken::Ran { goal } => goal,
        }
    }
}

/// What was taken and not met yet, linked by the nodes whose clauses have the goals. A link is the place just behind
/// that to which it leads, and 0 where it leads to none.
pub(crate) struct Links {
    /// By place; nothing where it was met.
    taken: Vec<Option<Taken>>,
    /// By node: to the last goal of its clause that was taken.
    last: Vec<usize>,
    /// By place: to the one before it of the same node.
    before: Vec<usize>,
}

// By hand, so that it is proved once, here.
impl Drop for Links {
    fn drop(self) {
        let Links {
            taken: _,
            last: _,
            before: _,
        } = self;
    }
}

impl Links {
    /// Nothing was taken yet of a tree of which each node is below a number. An error is want of memory.
    pub(crate) fn with(alloc: Global, nodes: u32) -> Result<Links, AllocError>
        ensures { IfOk result (λ links. unmet links ≡ []) }
    {
        Ok(Links {
            taken: Vec::new(alloc),
            last: Vec::from_elem(alloc, 0, nodes as usize)?,
            before: Vec::new(alloc),
        })
    }

    /// How many goals were taken. Takes no memory.
    pub(crate) fn len(&self) -> usize
        ensures { length (unmet self.now) ≤ result }
    {
        self.taken.len()
    }

    /// Notes what was taken. Answers whether its node is one of the tree's. An error is want of memory.
    pub(crate) fn add(&mut self, taken: Taken) -> Result<bool, AllocError>
        ensures { result ≡ Ok true → unmet self.new ≡ unmet self.old ++ taken ∷ [] }
    {
        let node = taken.goal().node as usize;
        if node >= self.last.len() {
            return Ok(false);
        }
        self.taken.push(Some(taken))?;
        self.before.push(self.last[node])?;
        self.last[node] = self.taken.len();
        Ok(true)
    }

    /// The link of a node.
    fn last_of(&self, node: u32) -> usize {
        match self.last.get(node as usize) {
            Some(last) => *last,
            None => 0,
        }
    }

    /// The link of a place, if it leads on to one before it.
    fn before_of(&self, place: usize) -> usize
        ensures { result ≤ place }
    {
        match self.before.get(place) {
            Some(before) => place.min(*before),
            None => 0,
        }
    }

    /// What was taken at a place and not met yet, if it is this goal.
    fn taken_at(&self, place: usize, goal: Goal) -> Option<Taken>
        ensures { IfSome result (λ t. (slice_get self.now.taken.items place ≡ Some (Some t)) × (goal_taken t ≡ goal)) }
    {
        match self.taken.get(place) {
            Some(Some(taken)) => {
                if taken.goal() == goal {
                    Some(*taken)
                } else {
                    None
                }
            }
            Some(None) => None,
            None => None,
        }
    }

    /// The place of what was taken of a goal and not met yet; `None` where there is none.
    fn place_of(&self, goal: Goal) -> Option<usize>
        ensures { IfSome result (λ place. (t : Taken) × (slice_get self.now.taken.items place ≡ Some (Some t))
            × (goal_taken t ≡ goal)) }
    {
        let mut behind = self.last_of(goal.node);
        while behind > 0 {
            let place = behind - 1;
            if self.taken_at(place, goal).is_some() {
                return Some(place);
            }
            behind = self.before_of(place);
        }
        None
    }

    /// What became of a goal, which is met by this; `None` where it was not taken, or was met before. Takes no memory.
    ///
    /// It may be `None` too of a goal that was taken under a wrong node. So a caller counts what it meets.
    pub(crate) fn take(&mut self, goal: Goal) -> Option<Taken>
        ensures some { IfSome result (λ t. (goal_taken t ≡ goal)
            × IsPermutation (unmet self.old) (t ∷ unmet self.new)) }
        ensures none { IfNone result (unmet self.new ≡ unmet self.old) }
    {
        let place = self.place_of(goal)?;
        let taken = self.taken[place]?;
        self.taken[place] = None;
        Some(taken)
    }
}
