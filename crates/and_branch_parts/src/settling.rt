//! What a phase left, settled.

ghost use Rattle.std.specs.Prelude.{◌≡◌, true, false, length, Ok};
ghost use Rattle.and_model.specs.Solutions.{Solvable};
ghost use Rattle.and_cells.specs.Parts.{named};
ghost use Rattle.and_cells.specs.Rows.{plain};
ghost use Rattle.and_cells.specs.Seen.{word_at};
ghost use Rattle.and_unify.specs.Pairs.{AreInRange, AreWritten, equations_of_pairs};
ghost use Rattle.and_unify.specs.Settling.{equations_with};
ghost use Rattle.and_branch_laws.specs.Settling.{Settled};

use and_cells::{Naming, PlainCells};
use and_program::Loaded;
use and_unify::{PairList, Settled as Answer, settle};
use std::alloc::{AllocError, Global};

/// Settles the pairs in the cells, unless the tree was found dead. Answers whether it is dead. An error
/// is want of memory.
pub fn is_dead<N: Naming>(
    alloc: Global,
    loaded: &Loaded,
    cells: &mut PlainCells<N>,
    pairs: &mut PairList,
    failed: bool,
) -> Result<bool, AllocError>
    requires program { N.program ≡ named loaded.now }
    requires in_range { failed ≡ false → AreInRange N.program (length cells.old) pairs.old }
    requires written { failed ≡ false → AreWritten (plain cells.old) pairs.old }
    ensures dead { result ≡ Ok true → failed ≡ false → Solvable (equations_with N.program cells.old pairs.old) → ⊥ }
    ensures live { result ≡ Ok false → (failed ≡ false)
        × Settled N.program cells.old cells.new (equations_of_pairs N.program (word_at cells.old) pairs.old) }
{
    if failed {
        return Ok(true);
    }
    match settle(alloc, loaded, cells, pairs) {
        Answer::Solved => {
            let _words = cells.len();
            Ok(false)
        }
        Answer::NoSolution => Ok(true),
        Answer::Memory => Err(AllocError),
    }
}
