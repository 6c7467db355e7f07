//! Circles in a whole row.

ghost use Rattle.std.specs.Prelude.{◌≡◌, ◌<◌, ℕ, length};
ghost use Rattle.and_cells.specs.Meaning.{IsCircle};
ghost use Rattle.and_cells.specs.Parts.{named};

use crate::explorer::{Explored, Explorer};
use and_cells::{Naming, PlainCells};
use and_model::Ref;
use and_program::Loaded;
use std::alloc::{AllocError, Global};

/// Whether a row has a circle.
#[derive(Clone, Copy, PartialEq, Eq, Debug)]
pub enum Circle {
    /// The term of this cell properly contains the cell.
    Found { cell: u32 },
    /// No cell's term properly contains the cell.
    Clear,
    /// Want of memory.
    Memory,
}

/// Looks for a cell whose term properly contains it. The work is linear in the row and in the parts that
/// its words lead to. A cell that several lead to counts once, and so does a structure, unless another
/// has taken its slot.
pub fn cycle<N: Naming>(alloc: Global, loaded: &Loaded, cells: &PlainCells<N>) -> Circle
    requires program { N.program ≡ named loaded.now }
    ensures found { (cell : ℕ) → result ≡ Circle.Found cell → IsCircle N.program cells.now cell }
    ensures clear { result ≡ Circle.Clear → (cell : ℕ) → IsCircle N.program cells.now cell → ⊥ }
{
    // Arguments come before their nodes: the proof needs it.
    loaded.skeleton_is_of_the_program();
    let mut explorer = Explorer::new(alloc, 0, true);
    for cell in 0..cells.len() {
        match explorer.explore(loaded, cells, Ref::Cell(cell)) {
            Ok(Explored::Ends) => {}
            Ok(Explored::Circle { cell }) => return Circle::Found { cell },
            Ok(Explored::Half { .. }) => unreachable!(),
            Err(AllocError) => return Circle::Memory,
        }
    }
    Circle::Clear
}
