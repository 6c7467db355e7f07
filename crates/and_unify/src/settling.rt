//! Unification with the occurs check over plain cells.

ghost use Rattle.std.specs.Prelude.{◌≡◌, ◌≢◌, ◌<◌, ◌≤◌, ◌⊎◌, ℕ, [], length, take, true, false, IfOk, OnOk, Ok};
ghost use Rattle.std.specs.Prelude.{Contains, All};
ghost use Rattle.and_model.specs.Store.{is_half};
ghost use Rattle.and_model.specs.Terms.{Substitution};
ghost use Rattle.and_model.specs.Solutions.{Solves, Solvable};
ghost use Rattle.and_model.specs.declared.reference.Ref.{Ref};
ghost use Rattle.and_program.specs.Skeletons.{AllFall};
ghost use Rattle.and_cells.specs.Ranges.{IsInRange};
ghost use Rattle.and_cells.specs.Seen.{word_at};
ghost use Rattle.and_cells.specs.Rows.{plain, IsSound};
ghost use Rattle.and_cells.specs.Meaning.{IsSettled, equations_of, shallow_cells};
ghost use Rattle.and_cells.specs.Parts.{named};
ghost use Rattle.and_cells.specs.Ends.{IsBelow, Ends};
ghost use Rattle.and_circles.specs.Explored.{AreFinished};
ghost use Rattle.and_unify.specs.Pairs.{AreInRange, AreWritten, NameNoHalf};
ghost use Rattle.and_unify.specs.Setting.{HaveBeenSet};
ghost use Rattle.and_unify.specs.Settling.{equations_with, AreNewFrom, EndsFrom, Settles, SetsPlaces};
ghost use Rattle.and_unify.specs.declared.pairs.Pair.{Pair};

use crate::descending::equate;
use crate::pairs::PairList;
use crate::unifying::Unified;
use and_cells::{Naming, PlainCells};
use and_circles::{Explored, Explorer, ends_soon};
use and_model::Ref;
use and_program::Loaded;
use std::alloc::{AllocError, Global};
use std::marker::Model;

/// So many places are followed at most for each word of a row before marks are kept of places.
const PLACES_PER_WORD: u64 = 8;

/// After so many long looks in vain one follows as many places again as at first.
const TRIALS: u32 = 8;

/// So many places more are followed, since a row may be short.
const SMALL_TERM: u64 = 64;

/// So many places are followed again rather than that it is noted which of them are ground.
const LONG_PATH: usize = 64;

/// How many places may be followed before marks are kept of places.
#[derive(Clone, Copy, PartialEq, Eq, Debug)]
struct Budget {
    /// So many places more.
    places: u64,
    /// The greatest number of a node for which places were granted.
    node: u32,
}

/// How long looks for circles fared of late.
#[derive(Clone, Copy, PartialEq, Eq, Debug)]
struct Patience {
    /// So many one after the other had to be begun again with marks.
    vain: u32,
}

impl Patience {
    /// How many places are followed for each word of a row.
    fn places_per_word(self) -> u64 {
        match self.vain % TRIALS {
            0 => PLACES_PER_WORD,
            1 => PLACES_PER_WORD / 2,
            2 => PLACES_PER_WORD / 4,
            _ => 1,
        }
    }

    /// The same after a look that was granted so many places and left so many of them.
    fn after(self, granted: u64, left: u64) -> Patience {
        if left == 0 {
            Patience {
                vain: self.vain.wrapping_add(1),
            }
        } else if left < granted / 2 {
            Patience { vain: 0 }
        } else {
            self
        }
    }
}

/// What the equations of cells and pairs came to.
#[derive(Clone, Copy, PartialEq, Eq, Debug)]
pub enum Settled {
    /// The cells are a most general solution of what they were and of the pairs.
    Solved,
    /// There is no solution. The cells are spent.
    NoSolution,
    /// Want of memory. The cells are spent.
    Memory,
}

/// Looks for a circle in the cells, and then solves the pairs with the occurs check.
///
/// The row is explored, and what the pairs and then the new bindings lead to. A place is not explored
/// again for each that leads to it, except as [`Solver::settle_further`] says.
pub fn settle<N: Naming>(
    alloc: Global,
    loaded: &Loaded,
    cells: &mut PlainCells<N>,
    pairs: &mut PairList,
) -> Settled
    requires program { N.program ≡ named loaded.now }
    requires in_range { AreInRange N.program (length cells.old) pairs.old }
    requires written { AreWritten (plain cells.old) pairs.old }
    ensures { Settles N.program cells.old cells.new pairs.old result }
{
    let floor = cells.len();
    laws_of_rows(loaded, cells);
    match given_ends(alloc, loaded, cells, pairs) {
        Ok(true) => Solver::new(alloc).settle_further(loaded, cells, floor, pairs),
        Ok(false) => Settled::NoSolution,
        Err(_) => Settled::Memory,
    }
}

/// Settles pairs over cells that are settled, and tells which cells it set. It is kept by its caller and
/// used again, so that its lists take memory once. Contracts see the cells that the last call set.
pub struct Solver {
    bound: Vec<u32>,
    /// Where paths that are followed are still to be followed from.
    visits: Vec<Ref>,
    /// Places that were followed.
    met: Vec<Ref>,
    patience: Patience,
}

// By hand, so that it is proved once, here.
impl Drop for Solver {
    fn drop(self) {
        let Solver {
            bound: _,
            visits: _,
            met: _,
            patience: _,
        } = self;
    }
}

impl Model for Solver {
    ghost use Rattle.std.specs.Prelude.{List, ℕ};

    ghost Value = { List ℕ };

    ghost view = { λ solver. solver.bound.items };
}

impl Solver {
    /// A solver that has set nothing yet. Takes no memory.
    pub fn new(alloc: Global) -> Solver
        ensures { result ≡ [] }
    {
        Solver {
            bound: Vec::new(alloc),
            visits: Vec::new(alloc),
            met: Vec::new(alloc),
            patience: Patience { vain: 0 },
        }
    }

    /// Forgets which cells were set. Takes no memory.
    pub fn forget(&mut self)
        ensures { self.new ≡ [] }
    {
        self.bound.clear();
    }

    /// The cells that the last call set, each once. Takes no memory.
    pub fn bound(&self) -> &[u32]
        ensures { result.now ≡ self.now }
    {
        &self.bound
    }

    /// The same as [`settle`] over cells that are settled, where the words from `floor` on are new.
    ///
    /// Explored are what the new bindings of cells below the floor lead to, and what the others lead
    /// to above the floor, and nothing else of the row. At first up to eight times as many places are followed as the
    /// row has words, and 64 more, and as the greatest node to which a cell that is followed is set has a
    /// number, the same place perhaps several times. What is left then is explored with marks, so that no
    /// place is explored twice; and where that was so of late, fewer are followed at first. What was followed for
    /// long and is ground is known so to the cells from then on, and is not followed again until a cell below it is
    /// made free. The cells that were set can be freed again, where there is no solution and after want of memory
    /// too.
    pub fn settle_further<N: Naming>(
        &mut self,
        loaded: &Loaded,
        cells: &mut PlainCells<N>,
        floor: u32,
        pairs: &mut PairList,
    ) -> Settled
        requires program { N.program ≡ named loaded.now }
        requires in_range { AreInRange N.program (length cells.old) pairs.old }
        requires written { AreWritten (plain cells.old) pairs.old }
        requires settled { IsSettled N.program cells.old }
        requires no_half { NameNoHalf N.program (word_at cells.old) pairs.old }
        requires new { AreNewFrom N.program cells.old pairs.old floor }
        ensures settles { Settles N.program cells.old cells.new pairs.old result }
        ensures bound { HaveBeenSet cells.old cells.new self.new }
        ensures done { result ≡ Settled.Solved → pairs.new ≡ [] }
        ensures places { SetsPlaces N.program cells.old cells.new pairs.old }
    {
        self.bound.clear();
        settle_into(
            loaded,
            cells,
            floor,
            pairs,
            &mut self.bound,
            &mut self.visits,
            &mut self.met,
            &mut self.patience,
        )
    }
}

/// The same, where the cells that are set here are put on a list.
fn settle_into<N: Naming>(
    loaded: &Loaded,
    cells: &mut PlainCells<N>,
    floor: u32,
    pairs: &mut PairList,
    bound: &mut Vec<u32>,
    visits: &mut Vec<Ref>,
    met: &mut Vec<Ref>,
    patience: &mut Patience,
) -> Settled
    requires program { N.program ≡ named loaded.now }
    requires in_range { AreInRange N.program (length cells.old) pairs.old }
    requires written { AreWritten (plain cells.old) pairs.old }
    requires settled { IsSettled N.program cells.old }
    requires no_half { NameNoHalf N.program (word_at cells.old) pairs.old }
    requires new { AreNewFrom N.program cells.old pairs.old floor }
    requires empty { bound.old.items ≡ [] }
    ensures settles { Settles N.program cells.old cells.new pairs.old result }
    ensures bound { HaveBeenSet cells.old cells.new bound.new.items }
    ensures done { result ≡ Settled.Solved → pairs.new ≡ [] }
    ensures places { SetsPlaces N.program cells.old cells.new pairs.old }
{
    laws_of_rows(loaded, cells);
    let alloc = *bound.allocator();
    match equate(loaded, cells, pairs, bound) {
        Unified::Same => judge(loaded, cells, floor, bound, visits, met, patience),
        Unified::Apart { .. } => Settled::NoSolution,
        // The pairs would have 2^64 places, for which there is no memory.
        Unified::PutOff => Settled::Memory,
        Unified::Memory => Settled::Memory,
    }
}

/// What holds of each row, and of the nodes of each program.
fn laws_of_rows<N: Naming>(loaded: &Loaded, cells: &PlainCells<N>)
    requires program { N.program ≡ named loaded.now }
    ensures sound { IsSound N.program cells.now }
    ensures falls { AllFall 0 N.program.skeleton.nodes }
{
    let _words = cells.len();
    loaded.skeleton_is_of_the_program();
}

/// What cells came to in which these were bound, where those from `floor` on are new. The cells stay, and know of
/// more that it is ground.
fn judge<N: Naming>(
    loaded: &Loaded,
    cells: &mut PlainCells<N>,
    floor: u32,
    bound: &[u32],
    visits: &mut Vec<Ref>,
    met: &mut Vec<Ref>,
    patience: &mut Patience,
) -> Settled
    requires program { N.program ≡ named loaded.now }
    requires in_row { All (λ (cell : ℕ). cell < length cells.old) bound.now }
    ensures same { cells.new ≡ cells.old }
    ensures below { result ≡ Settled.Solved → (cell : ℕ) → Contains bound.now cell → cell < floor
        → is_half (word_at cells.old cell) ≡ false → Ends N.program cells.old 0 false (Ref.Cell cell) }
    ensures above { result ≡ Settled.Solved → (cell : ℕ) → Contains bound.now cell
        → is_half (word_at cells.old cell) ≡ false → Ends N.program cells.old floor false (Ref.Cell cell) }
    ensures no_solution { result ≡ Settled.NoSolution → Solvable (equations_of N.program cells.old) → ⊥ }
    ensures sound { IsSound N.program cells.old }
{
    let granted = u64::from(cells.len())
        .saturating_mul(patience.places_per_word())
        .saturating_add(SMALL_TERM);
    let mut budget = Budget {
        places: granted,
        node: 0,
    };
    met.clear();
    let ended = bound_end(loaded, cells, floor, bound, &mut budget, visits, met);
    *patience = patience.after(granted, budget.places);
    match ended {
        Ok(true) => solved(loaded, cells, met),
        Ok(false) => Settled::NoSolution,
        Err(_) => Settled::Memory,
    }
}

/// The cells are solved. Where these places are many, those of them that are ground are noted, the last first.
fn solved<N: Naming>(loaded: &Loaded, cells: &mut PlainCells<N>, met: &mut Vec<Ref>) -> Settled
    requires program { N.program ≡ named loaded.now }
    requires met { All (IsInRange N.program (length cells.old)) met.old.items }
    ensures same { cells.new ≡ cells.old }
    ensures no_failure { result ≢ Settled.NoSolution }
{
    if met.len() < LONG_PATH {
        return Settled::Solved;
    }
    while let Some(at) = met.pop() {
        if cells.note_ground(loaded, at).is_err() {
            return Settled::Memory;
        }
    }
    Settled::Solved
}

/// Grants places for the node that a word names, beyond those that were granted before. The term of a
/// node has no more nodes than its number says, as arguments come before their nodes.
fn grant(budget: &mut Budget, word: Ref) {
    if let Ref::Node { node, .. } = word {
        if node.0 > budget.node {
            budget.places = budget
                .places
                .saturating_add(u64::from(node.0 - budget.node));
            budget.node = node.0;
        }
    }
}

/// Whether each path ends that begins at a cell of the list, where those from cells that are not below
/// the floor end where they come below it. Paths are followed by the budget before marks are kept of places.
fn bound_end<N: Naming>(
    loaded: &Loaded,
    cells: &PlainCells<N>,
    floor: u32,
    bound: &[u32],
    budget: &mut Budget,
    visits: &mut Vec<Ref>,
    met: &mut Vec<Ref>,
) -> Result<bool, AllocError>
    requires program { N.program ≡ named loaded.now }
    requires in_row { All (λ (cell : ℕ). cell < length cells.now) bound.now }
    ensures below { result ≡ Ok true → (cell : ℕ) → Contains bound.now cell → cell < floor
        → is_half (word_at cells.now cell) ≡ false → Ends N.program cells.now 0 false (Ref.Cell cell) }
    ensures above { result ≡ Ok true → (cell : ℕ) → Contains bound.now cell
        → is_half (word_at cells.now cell) ≡ false → Ends N.program cells.now floor false (Ref.Cell cell) }
    ensures no_solution { result ≡ Ok false → Solvable (equations_of N.program cells.now) → ⊥ }
    ensures met { OnOk result (All (IsInRange N.program (length cells.now)) met.old.items
        → All (IsInRange N.program (length cells.now)) met.new.items) }
{
    let seen = seen_to_end(loaded, cells, floor, bound, budget, visits, met)?;
    if seen == bound.len() {
        return Ok(true);
    }
    explored_from(*visits.allocator(), loaded, cells, floor, &bound[seen..])
}

/// The same, where marks are kept of places from the beginning.
fn explored_from<N: Naming>(
    alloc: Global,
    loaded: &Loaded,
    cells: &PlainCells<N>,
    floor: u32,
    bound: &[u32],
) -> Result<bool, AllocError>
    requires program { N.program ≡ named loaded.now }
    requires in_row { All (λ (cell : ℕ). cell < length cells.now) bound.now }
    ensures below { result ≡ Ok true → (cell : ℕ) → Contains bound.now cell → cell < floor
        → is_half (word_at cells.now cell) ≡ false → Ends N.program cells.now 0 false (Ref.Cell cell) }
    ensures above { result ≡ Ok true → (cell : ℕ) → Contains bound.now cell
        → is_half (word_at cells.now cell) ≡ false → Ends N.program cells.now floor false (Ref.Cell cell) }
    ensures no_solution { result ≡ Ok false → Solvable (equations_of N.program cells.now) → ⊥ }
{
    let words = cells.len();
    if !explored_end(alloc, loaded, cells, 0, bound, floor)? {
        return Ok(false);
    }
    explored_end(alloc, loaded, cells, floor, bound, words)
}

/// How many of the cells of the list are seen to lead to paths that end, up to the first that is not:
/// below the floor to any, and else to what comes below it.
fn seen_to_end<N: Naming>(
    loaded: &Loaded,
    cells: &PlainCells<N>,
    floor: u32,
    bound: &[u32],
    budget: &mut Budget,
    visits: &mut Vec<Ref>,
    met: &mut Vec<Ref>,
) -> Result<usize, AllocError>
    requires program { N.program ≡ named loaded.now }
    requires in_row { All (λ (cell : ℕ). cell < length cells.now) bound.now }
    ensures seen { IfOk result (λ seen. (seen ≤ length bound.now)
        × All (EndsFrom N.program cells.now floor) (take seen bound.now)) }
    ensures met { OnOk result (All (IsInRange N.program (length cells.now)) met.old.items
        → All (IsInRange N.program (length cells.now)) met.new.items) }
{
    for place in 0..bound.len() {
        let cell = bound[place];
        let from = floor_beside(cell, floor);
        if !is_seen_to_end(loaded, cells, from, cell, budget, visits, met)? {
            return Ok(place);
        }
    }
    Ok(bound.len())
}

/// Where paths from a cell are at their end: below the floor, and nowhere where the cell is below it.
fn floor_beside(cell: u32, floor: u32) -> u32
    ensures below { cell < floor → result ≡ 0 }
    ensures above { floor ≤ cell → result ≡ floor }
{
    if cell < floor { 0 } else { floor }
}

/// Whether each path from a cell is seen to end, at once or by the budget.
fn is_seen_to_end<N: Naming>(
    loaded: &Loaded,
    cells: &PlainCells<N>,
    floor: u32,
    cell: u32,
    budget: &mut Budget,
    visits: &mut Vec<Ref>,
    met: &mut Vec<Ref>,
) -> Result<bool, AllocError>
    requires program { N.program ≡ named loaded.now }
    requires in_row { cell < length cells.now }
    ensures ends { result ≡ Ok true → Ends N.program cells.now floor false (Ref.Cell cell) }
    ensures met { OnOk result (All (IsInRange N.program (length cells.now)) met.old.items
        → All (IsInRange N.program (length cells.now)) met.new.items) }
{
    let word = cells.word(cell);
    if is_end(floor, word) {
        return Ok(true);
    }
    grant(budget, word);
    ends_soon(
        loaded,
        cells,
        floor,
        Ref::Cell(cell),
        &mut budget.places,
        visits,
        met,
    )
}

/// Whether a path from a cell that has this word ends at once: where the word is free, a number, or below the floor.
fn is_end(floor: u32, word: Ref) -> bool
    ensures { result ≡ true → (word ≡ Ref.Free) ⊎ ((pair : ℕ) × (word ≡ Ref.Number pair)) ⊎ IsBelow floor word }
{
    match word {
        Ref::Free => true,
        Ref::Number(_) => true,
        Ref::Cell(cell) => cell < floor,
        Ref::Node { base, .. } => base < floor,
        Ref::Half(_) => false,
    }
}

/// Whether each path ends that begins at a cell of the list before `end`, where each that comes
/// below `floor` ends there. Places are marked, so that none is explored twice.
fn explored_end<N: Naming>(
    alloc: Global,
    loaded: &Loaded,
    cells: &PlainCells<N>,
    floor: u32,
    bound: &[u32],
    end: u32,
) -> Result<bool, AllocError>
    requires program { N.program ≡ named loaded.now }
    requires in_row { All (λ (cell : ℕ). cell < length cells.now) bound.now }
    ensures ends { result ≡ Ok true → (cell : ℕ) → Contains bound.now cell → cell < end
        → is_half (word_at cells.now cell) ≡ false → Ends N.program cells.now floor false (Ref.Cell cell) }
    ensures no_solution { result ≡ Ok false → Solvable (equations_of N.program cells.now) → ⊥ }
{
    let mut explorer = Explorer::new(alloc, floor, false);
    for cell in bound {
        if end <= *cell {
            continue;
        }
        if !cell_ends(&mut explorer, loaded, cells, *cell)? {
            return Ok(false);
        }
    }
    Ok(true)
}

/// Whether each path ends that begins at a cell of the row or at a side of a pair.
fn given_ends<N: Naming>(
    alloc: Global,
    loaded: &Loaded,
    cells: &PlainCells<N>,
    pairs: &PairList,
) -> Result<bool, AllocError>
    requires program { N.program ≡ named loaded.now }
    requires sound { IsSound N.program cells.now }
    requires in_range { AreInRange N.program (length cells.now) pairs.now }
    ensures cells { result ≡ Ok true → (cell : ℕ) → cell < length cells.now
        → is_half (word_at cells.now cell) ≡ false → Ends N.program cells.now 0 false (Ref.Cell cell) }
    ensures sides { result ≡ Ok true
        → All (λ (p : Pair). Ends N.program cells.now 0 false p.left
        × Ends N.program cells.now 0 false p.right) pairs.now }
    ensures no_solution { result ≡ Ok false → Solvable (equations_with N.program cells.now pairs.now) → ⊥ }
{
    let mut explorer = Explorer::new(alloc, 0, false);
    if !row_ends(&mut explorer, loaded, cells)? {
        return Ok(false);
    }
    sides_end(&mut explorer, loaded, cells, pairs)
}

/// Whether each path ends that begins at a cell of the row.
fn row_ends<N: Naming>(
    explorer: &mut Explorer,
    loaded: &Loaded,
    cells: &PlainCells<N>,
) -> Result<bool, AllocError>
    requires program { N.program ≡ named loaded.now }
    requires finished { AreFinished N.program cells.now explorer.old }
    requires no_halves { explorer.old.halves ≡ false }
    ensures settings { IfOk result (λ _. (explorer.new.floor ≡ explorer.old.floor)
        × (explorer.new.halves ≡ explorer.old.halves)) }
    ensures finished { result ≡ Ok true → AreFinished N.program cells.now explorer.new }
    ensures ends { result ≡ Ok true → (cell : ℕ) → cell < length cells.now
        → is_half (word_at cells.now cell) ≡ false → Ends N.program cells.now explorer.old.floor false (Ref.Cell cell) }
    ensures no_solution { result ≡ Ok false → Solvable (equations_of N.program cells.now) → ⊥ }
{
    for cell in 0..cells.len() {
        if !cell_ends(explorer, loaded, cells, cell)? {
            return Ok(false);
        }
    }
    Ok(true)
}

/// Whether each path ends that begins at a side of a pair.
fn sides_end<N: Naming>(
    explorer: &mut Explorer,
    loaded: &Loaded,
    cells: &PlainCells<N>,
    pairs: &PairList,
) -> Result<bool, AllocError>
    requires program { N.program ≡ named loaded.now }
    requires sound { IsSound N.program cells.now }
    requires finished { AreFinished N.program cells.now explorer.old }
    requires no_halves { explorer.old.halves ≡ false }
    requires in_range { AreInRange N.program (length cells.now) pairs.now }
    ensures ends { result ≡ Ok true → All (λ (p : Pair). Ends N.program cells.now explorer.old.floor false p.left
        × Ends N.program cells.now explorer.old.floor false p.right) pairs.now }
    ensures no_solution { result ≡ Ok false → Solvable (equations_with N.program cells.now pairs.now) → ⊥ }
{
    for place in 0..pairs.len() {
        let pair = *pairs.at(place);
        if !ends(explorer, loaded, cells, pair.left)? {
            return Ok(false);
        }
        if !ends(explorer, loaded, cells, pair.right)? {
            return Ok(false);
        }
    }
    Ok(true)
}

/// Whether each path from a cell ends. A word of a pair has no term, and is not asked.
fn cell_ends<N: Naming>(
    explorer: &mut Explorer,
    loaded: &Loaded,
    cells: &PlainCells<N>,
    cell: u32,
) -> Result<bool, AllocError>
    requires program { N.program ≡ named loaded.now }
    requires finished { AreFinished N.program cells.now explorer.old }
    requires no_halves { explorer.old.halves ≡ false }
    requires in_row { cell < length cells.now }
    ensures settings { IfOk result (λ _. (explorer.new.floor ≡ explorer.old.floor)
        × (explorer.new.halves ≡ explorer.old.halves)) }
    ensures finished { result ≡ Ok true → AreFinished N.program cells.now explorer.new }
    ensures ends { result ≡ Ok true → is_half (word_at cells.now cell) ≡ false
        → Ends N.program cells.now explorer.old.floor false (Ref.Cell cell) }
    ensures no_solution { result ≡ Ok false → Solvable (equations_of N.program cells.now) → ⊥ }
{
    if is_half(cells.word(cell)) {
        return Ok(true);
    }
    ends(explorer, loaded, cells, Ref::Cell(cell))
}

fn is_half(word: Ref) -> bool
    ensures { result ≡ is_half word }
{
    match word {
        Ref::Half(_) => true,
        Ref::Free | Ref::Cell(_) | Ref::Node { .. } | Ref::Number(_) => false,
    }
}

/// Whether each path from a reference ends, and none in a word of a pair. Where one does not end so,
/// and the row has a solution, the reference itself names a word of a pair.
fn ends<N: Naming>(
    explorer: &mut Explorer,
    loaded: &Loaded,
    cells: &PlainCells<N>,
    root: Ref,
) -> Result<bool, AllocError>
    requires program { N.program ≡ named loaded.now }
    requires sound { IsSound N.program cells.now }
    requires finished { AreFinished N.program cells.now explorer.old }
    requires no_halves { explorer.old.halves ≡ false }
    requires in_range { IsInRange N.program (length cells.now) root }
    ensures settings { IfOk result (λ _. (explorer.new.floor ≡ explorer.old.floor)
        × (explorer.new.halves ≡ explorer.old.halves)) }
    ensures finished { result ≡ Ok true → AreFinished N.program cells.now explorer.new }
    ensures ends { result ≡ Ok true → Ends N.program cells.now explorer.old.floor false root }
    ensures names_half { result ≡ Ok false → (t : Substitution) → Solves t (equations_of N.program cells.now)
        → (cell : ℕ) × Contains (shallow_cells N.program root) cell × (is_half (word_at cells.now cell) ≡ true) }
{
    match explorer.explore(loaded, cells, root)? {
        Explored::Ends => Ok(true),
        Explored::Circle { .. } => Ok(false),
        Explored::Half { .. } => Ok(false),
    }
}
