//! What is known of the variables of a clause, on the way through its body.

ghost use Rattle.std.specs.Prelude.{◌≡◌, ◌<◌, IfOk, OnOk, ℕ, cond, length};
ghost use Rattle.and_model.specs.Terms.{Terms, compound};
ghost use Rattle.and_program.specs.Loaded.{skeleton_of, arguments_at};
ghost use Rattle.and_program.specs.Skeletons.{node_term, item_of, IsThere};
ghost use Rattle.and_program.specs.Items.{node_item};
ghost use Rattle.and_modes.specs.Modes.{level_in, level_within, raised, all_raised, levels_of, name_of, arguments_of};
ghost use Rattle.and_modes.specs.Modes.{count_of, after_item};
ghost use Rattle.and_modes.specs.Kept.{assignment_of};
ghost use Rattle.and_modes.specs.Known.{environment, raised_at, all_raised_at, are_ground_at, after_equal, after_is};
ghost use Rattle.and_modes.specs.declared.level.Level.TheVariants.{Any, Ground};

use crate::assignment::Modes;
use crate::level::{Level, Side, higher, is_at_least};
use crate::variables::variables;
use and_model::{NameNo, NodeNo};
use and_program::{ItemNode, Loaded, NodeKind};
use std::alloc::{AllocError, Global};

/// A level for each variable of a clause, by its number.
#[derive(Drop)]
pub(crate) struct Known {
    levels: [Level; 256],
}

/// A name with its number of arguments.
#[derive(Clone, Copy)]
pub(crate) struct Functor {
    pub(crate) name: NameNo,
    pub(crate) count: u8,
}

/// The name and the number of arguments of a node. A variable and a number have no arguments.
pub(crate) fn functor_of(loaded: &Loaded, node: NodeNo) -> Functor
    requires { node.0 < length (skeleton_of loaded.now).nodes }
    ensures name { result.name.0 ≡ name_of (node_term (skeleton_of loaded.now).nodes node.0) }
    ensures count { result.count ≡ count_of (arguments_of (node_term (skeleton_of loaded.now).nodes node.0)) }
    ensures arguments { result.count ≡ length (arguments_at (skeleton_of loaded.now) node.0) }
{
    match loaded.kind(node) {
        NodeKind::Variable(_) => Functor {
            name: NameNo(0),
            count: 0,
        },
        NodeKind::Number(_) => Functor {
            name: NameNo(0),
            count: 0,
        },
        NodeKind::Compound { name, count } => Functor { name, count },
    }
}

impl Known {
    /// Nothing is known.
    pub(crate) fn nothing() -> Known
        ensures { environment result.levels ≡ (λ v. Any) }
    {
        Known {
            levels: [Level::Any; 256],
        }
    }

    /// The level of one variable.
    pub(crate) fn of_variable(&self, number: u8) -> Level
        ensures { result ≡ environment self.now.levels number }
    {
        self.levels[number as usize]
    }

    /// The level of the term of a node. An error is want of memory.
    pub(crate) fn level(
        &self,
        alloc: Global,
        loaded: &Loaded,
        node: NodeNo,
    ) -> Result<Level, AllocError>
        requires { node.0 < length (skeleton_of loaded.now).nodes }
        ensures { IfOk result (λ l. l ≡ level_in (environment self.now.levels)
            (node_term (skeleton_of loaded.now).nodes node.0)) }
    {
        match loaded.kind(node) {
            NodeKind::Variable(number) => Ok(self.of_variable(number)),
            NodeKind::Number(_) => Ok(Level::Integer),
            NodeKind::Compound { name: _, count } => {
                if count == 0 {
                    return Ok(Level::Ground);
                }
                let found = variables(alloc, loaded, node)?;
                Ok(self.level_of_all(&found))
            }
        }
    }

    /// Ground where all these variables are at least ground.
    fn level_of_all(&self, numbers: &[u8]) -> Level
        ensures { result ≡ cond (are_ground_at (environment self.now.levels) numbers.now) Ground Any }
    {
        for number in numbers {
            if !is_at_least(self.of_variable(*number), Level::Ground) {
                return Level::Any;
            }
        }
        Level::Ground
    }

    /// Raises one variable to a level.
    fn raise_variable(&mut self, number: u8, level: Level)
        ensures { environment self.new.levels ≡ raised_at (environment self.old.levels) number level }
    {
        self.levels[number as usize] = higher(self.levels[number as usize], level);
    }

    /// Raises each of these variables to a level.
    fn raise_variables(&mut self, numbers: &[u8], level: Level)
        ensures { environment self.new.levels ≡ all_raised_at (environment self.old.levels) numbers.now level }
    {
        for number in numbers {
            self.raise_variable(*number, level);
        }
    }

    /// Raises the term of a node to a level. An error is want of memory.
    fn raise(
        &mut self,
        alloc: Global,
        loaded: &Loaded,
        node: NodeNo,
        level: Level,
    ) -> Result<(), AllocError>
        requires { node.0 < length (skeleton_of loaded.now).nodes }
        ensures { OnOk result (environment self.new.levels
            ≡ raised (environment self.old.levels) (node_term (skeleton_of loaded.now).nodes node.0) level) }
    {
        match loaded.kind(node) {
            NodeKind::Variable(number) => self.raise_variable(number, level),
            NodeKind::Number(_) => {}
            NodeKind::Compound { name: _, count } => {
                if count > 0 {
                    let found = variables(alloc, loaded, node)?;
                    self.raise_variables(&found, inside(level));
                }
            }
        }
        Ok(())
    }

    /// Raises each argument of a head or a goal to the level that it has on a side.
    pub(crate) fn raise_arguments(
        &mut self,
        alloc: Global,
        loaded: &Loaded,
        modes: &Modes,
        goal: NodeNo,
        side: Side,
    ) -> Result<(), AllocError>
        requires { goal.0 < length (skeleton_of loaded.now).nodes }
        ensures { OnOk result (let term = node_term (skeleton_of loaded.now).nodes goal.0 in
            environment self.new.levels ≡ all_raised (environment self.old.levels)
            (levels_of (assignment_of modes.now) term side) 0 (arguments_of term)) }
    {
        let Functor { name, count } = functor_of(loaded, goal);
        for place in 0..count {
            let level = modes.level(name, count, place, side);
            self.raise(alloc, loaded, loaded.argument(goal, place), level)?;
        }
        Ok(())
    }

    /// Goes past an item of a body. An error is want of memory.
    pub(crate) fn pass(
        &mut self,
        alloc: Global,
        loaded: &Loaded,
        modes: &Modes,
        item: ItemNode,
    ) -> Result<(), AllocError>
        requires { (k : ℕ) × IsThere (skeleton_of loaded.now).nodes k (node_item item) }
        ensures { OnOk result (environment self.new.levels
            ≡ after_item (assignment_of modes.now) (environment self.old.levels)
            (item_of (skeleton_of loaded.now).nodes (node_item item))) }
    {
        match item {
            ItemNode::Call { goal } => {
                self.raise_arguments(alloc, loaded, modes, goal, Side::Succeeded)
            }
            ItemNode::Equal { left, right } => self.equate(alloc, loaded, left, right),
            ItemNode::Is {
                left,
                right,
                pair: _,
            } => self.compute(alloc, loaded, left, right),
            ItemNode::Compare {
                relation: _,
                left: _,
                right: _,
            } => Ok(()),
            ItemNode::Fail => Ok(()),
        }
    }

    /// Raises each side of an equation to the level of the other.
    fn equate(
        &mut self,
        alloc: Global,
        loaded: &Loaded,
        left: NodeNo,
        right: NodeNo,
    ) -> Result<(), AllocError>
        requires left { left.0 < length (skeleton_of loaded.now).nodes }
        requires right { right.0 < length (skeleton_of loaded.now).nodes }
        ensures { OnOk result (environment self.new.levels
            ≡ after_equal (environment self.old.levels) (node_term (skeleton_of loaded.now).nodes left.0)
            (node_term (skeleton_of loaded.now).nodes right.0)) }
    {
        let on_left = self.level(alloc, loaded, left)?;
        let on_right = self.level(alloc, loaded, right)?;
        self.raise(alloc, loaded, left, on_right)?;
        self.raise(alloc, loaded, right, on_left)
    }

    /// Raises the left side of an `is` goal to an integer, where the right side is ground.
    fn compute(
        &mut self,
        alloc: Global,
        loaded: &Loaded,
        left: NodeNo,
        right: NodeNo,
    ) -> Result<(), AllocError>
        requires left { left.0 < length (skeleton_of loaded.now).nodes }
        requires right { right.0 < length (skeleton_of loaded.now).nodes }
        ensures { OnOk result (environment self.new.levels
            ≡ after_is (environment self.old.levels) (node_term (skeleton_of loaded.now).nodes left.0)
            (node_term (skeleton_of loaded.now).nodes right.0)) }
    {
        if is_at_least(self.level(alloc, loaded, right)?, Level::Ground) {
            self.raise(alloc, loaded, left, Level::Integer)?;
        }
        Ok(())
    }
}

/// The level to which the variables inside a structure are raised with it.
fn inside(level: Level) -> Level
    ensures { (name : ℕ) (ts : Terms) → result ≡ level_within (compound name ts) level }
{
    match level {
        Level::Any => Level::Any,
        Level::Ground => Level::Ground,
        Level::Integer => Level::Ground,
    }
}
