//! Short paths, followed with nothing remembered of what was passed.

ghost use Rattle.std.specs.Prelude.{◌≡◌, ◌<◌, ◌⊎◌, ◌++◌, ◌∷◌, [], All, length, true, false, Ok, IsTrue, OnOk, IfOk};
ghost use Rattle.and_model.specs.declared.reference.Ref.{Ref};
ghost use Rattle.and_program.specs.Skeletons.{AllFall};
ghost use Rattle.and_program.specs.Loaded.{skeleton_of, arguments_at};
ghost use Rattle.and_cells.specs.Ranges.{IsInRange};
ghost use Rattle.and_cells.specs.Parts.{named};
ghost use Rattle.and_cells.specs.Ends.{Ends};
ghost use Rattle.and_circles.specs.Following.{Puts, LeadsOn, argument_part, step_beyond};

use and_cells::{Naming, PlainCells};
use and_model::{NodeNo, Ref};
use and_program::{Loaded, NodeKind};
use std::alloc::AllocError;

/// So many places are followed before it is asked what is known of them.
const SHORT_PATH: u64 = 64;

/// What comes of one place of a path.
#[derive(Clone, Copy, PartialEq, Eq, Debug)]
enum Step {
    /// The path ends there, or all that it goes on to is on the list.
    Ended,
    /// It goes on here.
    Onward(Ref),
    /// It comes to a word of a pair.
    Half,
}

/// Whether each path from a reference is seen to end when it is followed, by so many places at most,
/// and nothing remembered. `false` says nothing. What was followed is taken from `most`.
///
/// Behind the first 64 places, what the cells know to be ground is not followed, and what is followed is put on the
/// list `met`, each place before those that it leads to. Memory is taken for this list and for that of what is still
/// to be followed alone, which the caller keeps and uses again. An error is want of memory.
pub fn ends_soon<N: Naming>(
    loaded: &Loaded,
    cells: &PlainCells<N>,
    floor: u32,
    root: Ref,
    most: &mut u64,
    visits: &mut Vec<Ref>,
    met: &mut Vec<Ref>,
) -> Result<bool, AllocError>
    requires program { N.program ≡ named loaded.now }
    requires in_range { IsInRange N.program (length cells.now) root }
    ensures ends { result ≡ Ok true → Ends N.program cells.now floor false root }
    ensures met { OnOk result (All (IsInRange N.program (length cells.now)) met.old.items
        → All (IsInRange N.program (length cells.now)) met.new.items) }
{
    // Arguments come before their nodes: the proof needs it.
    loaded.skeleton_is_of_the_program();
    visits.clear();
    let far = most.saturating_sub(SHORT_PATH);
    let mut at = root;
    while *most > 0 {
        *most -= 1;
        match go_on(loaded, cells, floor, at, *most < far, visits, met)? {
            Step::Ended => match visits.pop() {
                Some(next) => at = next,
                None => return Ok(true),
            },
            Step::Onward(next) => at = next,
            Step::Half => return Ok(false),
        }
    }
    Ok(false)
}

/// Follows a path by one place, which is put on a list where it is far from the root. There it is not followed where it
/// is known to be ground.
fn go_on<N: Naming>(
    loaded: &Loaded,
    cells: &PlainCells<N>,
    floor: u32,
    at: Ref,
    is_far: bool,
    visits: &mut Vec<Ref>,
    met: &mut Vec<Ref>,
) -> Result<Step, AllocError>
    requires program { N.program ≡ named loaded.now }
    requires falls { AllFall 0 N.program.skeleton.nodes }
    requires in_range { IsInRange N.program (length cells.now) at }
    ensures leads { IfOk result (LeadsOn N.program cells.now floor at visits.old.items visits.new.items) }
    ensures met { OnOk result ((met.new.items ≡ met.old.items) ⊎ (met.new.items ≡ met.old.items ++ at ∷ [])) }
{
    if is_far {
        if cells.is_ground(at) {
            return Ok(Step::Ended);
        }
        met.push(at)?;
    }
    follow(loaded, cells, floor, at, visits)
}

/// Follows a path by one place.
fn follow<N: Naming>(
    loaded: &Loaded,
    cells: &PlainCells<N>,
    floor: u32,
    at: Ref,
    visits: &mut Vec<Ref>,
) -> Result<Step, AllocError>
    requires program { N.program ≡ named loaded.now }
    requires falls { AllFall 0 N.program.skeleton.nodes }
    requires in_range { IsInRange N.program (length cells.now) at }
    ensures { IfOk result (LeadsOn N.program cells.now floor at visits.old.items visits.new.items) }
{
    match at {
        Ref::Cell(cell) if cell < floor => Ok(Step::Ended),
        Ref::Cell(cell) => Ok(beyond(cells.word(cell))),
        Ref::Node { base, .. } if base < floor => Ok(Step::Ended),
        Ref::Node { node, base } => split(loaded, cells, floor, node, base, visits),
        Ref::Number(_) => Ok(Step::Ended),
        Ref::Free => unreachable!(),
        Ref::Half(_) => unreachable!(),
    }
}

/// Where a path goes on from a cell that has this word.
fn beyond(word: Ref) -> Step
    ensures { result ≡ step_beyond word }
{
    match word {
        Ref::Free => Step::Ended,
        Ref::Half(_) => Step::Half,
        Ref::Cell(_) => Step::Onward(word),
        Ref::Node { .. } => Step::Onward(word),
        Ref::Number(_) => Step::Onward(word),
    }
}

/// Goes on to the first part of a structure, and puts the others on the list.
fn split<N: Naming>(
    loaded: &Loaded,
    cells: &PlainCells<N>,
    floor: u32,
    node: NodeNo,
    base: u32,
    visits: &mut Vec<Ref>,
) -> Result<Step, AllocError>
    requires program { N.program ≡ named loaded.now }
    requires falls { AllFall 0 N.program.skeleton.nodes }
    requires in_range { IsInRange N.program (length cells.now) (Ref.Node node base) }
    ensures { IfOk result (LeadsOn N.program cells.now floor (Ref.Node node base) visits.old.items visits.new.items) }
{
    let count = argument_count(loaded, node);
    if count == 0 {
        return Ok(Step::Ended);
    }
    for place in 1..count {
        put_part(loaded, cells, floor, node, base, place, visits)?;
    }
    Ok(Step::Onward(loaded.resolve(loaded.argument(node, 0), base)))
}

/// How many arguments the term of a node has.
fn argument_count(loaded: &Loaded, node: NodeNo) -> u8
    requires { node.0 < length (skeleton_of loaded.now).nodes }
    ensures { result ≡ length (arguments_at (skeleton_of loaded.now) node.0) }
{
    match loaded.kind(node) {
        NodeKind::Compound { count, .. } => count,
        NodeKind::Variable(_) => 0,
        NodeKind::Number(_) => 0,
    }
}

/// Puts a part of a structure on the list, unless it ends at once.
fn put_part<N: Naming>(
    loaded: &Loaded,
    cells: &PlainCells<N>,
    floor: u32,
    node: NodeNo,
    base: u32,
    place: u8,
    visits: &mut Vec<Ref>,
) -> Result<(), AllocError>
    requires program { N.program ≡ named loaded.now }
    requires falls { AllFall 0 N.program.skeleton.nodes }
    requires in_range { IsInRange N.program (length cells.now) (Ref.Node node base) }
    requires place { place < length (arguments_at N.program.skeleton node.0) }
    ensures { OnOk result (Puts N.program cells.now floor
        (Ends N.program cells.now floor false (argument_part N.program node base place))
        visits.old.items visits.new.items) }
{
    let part = loaded.resolve(loaded.argument(node, place), base);
    if !ends_at_once(loaded, cells, floor, part) {
        visits.push(part)?;
    }
    Ok(())
}

/// Whether a reference is a cell that is free or below the floor, or a structure without arguments.
fn ends_at_once<N: Naming>(loaded: &Loaded, cells: &PlainCells<N>, floor: u32, at: Ref) -> bool
    requires program { N.program ≡ named loaded.now }
    requires in_range { IsInRange N.program (length cells.now) at }
    ensures { IsTrue result → Ends N.program cells.now floor false at }
{
    match at {
        Ref::Cell(cell) => cell < floor || matches!(cells.word(cell), Ref::Free),
        Ref::Node { node, .. } => argument_count(loaded, node) == 0,
        Ref::Number(_) => true,
        Ref::Free => unreachable!(),
        Ref::Half(_) => unreachable!(),
    }
}
