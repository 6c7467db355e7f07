//! The guards of clauses, weighed over any cells, by fuel.

ghost use Rattle.std.specs.Prelude.{◌≡◌, ◌≢◌, ◌≤◌, true, map};
ghost use Rattle.and_cells.specs.Ranges.{IsNodeInRange};
ghost use Rattle.and_cells.specs.Seen.{OnlyReads};
ghost use Rattle.and_cells.specs.Parts.{named, part_at};
ghost use Rattle.and_program.specs.Items.{node_item, relation};
ghost use Rattle.and_guards.specs.declared.guards.Side.{Side};
ghost use Rattle.and_guards.specs.Sides.{sides_fail};
ghost use Rattle.and_shared_determinacy.specs.Weighing.{IsSideOver, FailsOver, GuardFailsOver, IsGuardInRange};

use and_arith::{Valued, WorkList, value};
use and_cells::Cells;
use and_guards::{Side, fails};
use and_model::{NodeNo, Relation};
use and_program::{ItemNode, Loaded};

/// What became of a guard or of a comparison.
#[derive(Clone, Copy, PartialEq, Eq, Debug)]
pub(crate) enum Weighed {
    /// Nothing is known against it.
    Stands,
    /// Some comparison is ground, and does not hold.
    Fails,
    /// The fuel was used up.
    PutOff,
    /// Want of memory.
    Memory,
}

/// What became of a side of a comparison.
#[derive(Clone, Copy, PartialEq, Eq, Debug)]
enum Found {
    Side(Side),
    /// The fuel was used up.
    PutOff,
    /// Want of memory.
    Memory,
}

/// Weighs the guard with which these items of a body begin, in the frame at the base.
pub(crate) fn weigh_guard<C: Cells>(
    loaded: &Loaded,
    cells: &mut C,
    base: u32,
    items: &[ItemNode],
    fuel: &mut u64,
    values: &mut WorkList,
) -> Weighed
    requires program { C.program ≡ named loaded.now }
    requires in_range { IsGuardInRange C.program (C.seen cells.old).words base (map node_item items.now) }
    ensures over { C.over cells.new ≡ C.over cells.old }
    ensures grew { C.Grew cells.old cells.new }
    ensures reads { OnlyReads (C.seen cells.old) (C.seen cells.new) }
    ensures fails { result ≡ Weighed.Fails
        → GuardFailsOver C.program (C.seen cells.new) base (map node_item items.now) }
    ensures fuel { result ≢ Weighed.Memory → fuel.new ≤ fuel.old }
    ensures put_off { result ≡ Weighed.PutOff → fuel.new ≡ 0 }
{
    for item in items {
        match item {
            ItemNode::Compare {
                relation,
                left,
                right,
            } => match weigh(loaded, cells, base, *relation, *left, *right, fuel, values) {
                Weighed::Stands => {}
                Weighed::Fails => return Weighed::Fails,
                Weighed::PutOff => return Weighed::PutOff,
                Weighed::Memory => return Weighed::Memory,
            },
            ItemNode::Call { goal: _ } => return Weighed::Stands,
            ItemNode::Equal { left: _, right: _ } => return Weighed::Stands,
            ItemNode::Is {
                left: _,
                right: _,
                pair: _,
            } => return Weighed::Stands,
            ItemNode::Fail => return Weighed::Stands,
        }
    }
    Weighed::Stands
}

/// Weighs a comparison.
fn weigh<C: Cells>(
    loaded: &Loaded,
    cells: &mut C,
    base: u32,
    by: Relation,
    left: NodeNo,
    right: NodeNo,
    fuel: &mut u64,
    values: &mut WorkList,
) -> Weighed
    requires program { C.program ≡ named loaded.now }
    requires left { IsNodeInRange C.program (C.seen cells.old).words left.0 base }
    requires right { IsNodeInRange C.program (C.seen cells.old).words right.0 base }
    ensures over { C.over cells.new ≡ C.over cells.old }
    ensures grew { C.Grew cells.old cells.new }
    ensures reads { OnlyReads (C.seen cells.old) (C.seen cells.new) }
    ensures fails { result ≡ Weighed.Fails
        → FailsOver C.program (C.seen cells.new) (relation by) (part_at C.program base left.0)
        (part_at C.program base right.0) }
    ensures fuel { result ≢ Weighed.Memory → fuel.new ≤ fuel.old }
    ensures put_off { result ≡ Weighed.PutOff → fuel.new ≡ 0 }
{
    match find(loaded, cells, base, left, fuel, values) {
        Found::Side(first) => match find(loaded, cells, base, right, fuel, values) {
            Found::Side(second) => answer(by, first, second),
            Found::PutOff => Weighed::PutOff,
            Found::Memory => Weighed::Memory,
        },
        Found::PutOff => Weighed::PutOff,
        Found::Memory => Weighed::Memory,
    }
}

/// What the sides of a comparison say of it.
fn answer(by: Relation, first: Side, second: Side) -> Weighed
    ensures fails { result ≡ Weighed.Fails → sides_fail (relation by) first second ≡ true }
    ensures ends { (result ≢ Weighed.PutOff) × (result ≢ Weighed.Memory) }
{
    if fails(by, first, second) {
        Weighed::Fails
    } else {
        Weighed::Stands
    }
}

/// What a side of a comparison is.
fn find<C: Cells>(
    loaded: &Loaded,
    cells: &mut C,
    base: u32,
    node: NodeNo,
    fuel: &mut u64,
    values: &mut WorkList,
) -> Found
    requires program { C.program ≡ named loaded.now }
    requires node { IsNodeInRange C.program (C.seen cells.old).words node.0 base }
    ensures over { C.over cells.new ≡ C.over cells.old }
    ensures grew { C.Grew cells.old cells.new }
    ensures reads { OnlyReads (C.seen cells.old) (C.seen cells.new) }
    ensures side { (side : Side) → result ≡ Found.Side side
        → IsSideOver C.program (C.seen cells.new) (part_at C.program base node.0) side }
    ensures fuel { result ≢ Found.Memory → fuel.new ≤ fuel.old }
    ensures put_off { result ≡ Found.PutOff → fuel.new ≡ 0 }
{
    loaded.skeleton_is_of_the_program();
    match value(loaded, cells, loaded.resolve(node, base), fuel, values) {
        Valued::Number(number) => Found::Side(Side::Number(number)),
        Valued::NoValue => Found::Side(Side::NoValue),
        Valued::Waits { cell } => Found::Side(Side::Waits { cell }),
        Valued::PutOff => Found::PutOff,
        Valued::Memory => Found::Memory,
    }
}
