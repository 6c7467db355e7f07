//! The names of unbound variables along a line.

ghost use Rattle.std.specs.Prelude.{◌≡◌, [], ◌∷◌, OnOk};
ghost use Rattle.and_print.specs.Writing.{Writes, shown_cell};

use and_model::Text;
use indexmap::IndexSet;
use itoa::Buffer;
use std::alloc::{AllocError, Global};
use std::marker::Model;

/// Free cells in the order of their first occurrences along a line: the first is written `_0`, the
/// next `_1`, and so on.
#[derive(Drop)]
pub struct VariableNames {
    pub(crate) cells: IndexSet<u32>,
}

impl Model for VariableNames {
    ghost use Rattle.std.specs.Prelude.{ℕ, List, [], map};
    ghost use Rattle.and_model.specs.Terms.{Path};

    ghost Value = { List (Path × ℕ) };

    ghost view = { λ names. map (λ (cell : ℕ). ([], cell)) names.cells.keys };
}

impl VariableNames {
    /// No variable has a name yet. Takes no memory.
    pub fn new(alloc: Global) -> VariableNames
        ensures { result ≡ [] }
    {
        VariableNames {
            cells: IndexSet::new(alloc),
        }
    }

    /// Puts the name of a free cell at the end of the text, and names the cell if it has none yet.
    /// After want of memory both are spent.
    pub(crate) fn write(&mut self, out: &mut Text, cell: u32) -> Result<(), AllocError>
        ensures { OnOk result (Writes (([], cell) ∷ []) (shown_cell cell) self.old self.new out.old out.new) }
    {
        let (place, _) = self.cells.insert_full(cell)?;
        out.append(b"_")?;
        out.append(Buffer::new().format(place).as_bytes())?;
        Ok(())
    }
}
