//! Goals that hang on cells.

ghost use Rattle.std.specs.Prelude.{[], ◌∷◌, None};
ghost use Rattle.and_model.specs.Store.{Row};
ghost use Rattle.and_examples.specs.HangingExamples.{first, journal, hanger, binder, taken, row};

/// One pass hangs a goal on a cell, and another binds the cell and takes the goal out. It is not dropped,
/// and the cell's place does not stay open.
pub fn goal_that_hangs_on_a_cell()
    ensures row_holds { Row first (hanger ∷ binder (taken ∷ []) ∷ []) journal row }
    ensures dropped { Row first (hanger ∷ binder (record { cell = 0; waiter = None } ∷ []) ∷ []) journal row → ⊥ }
    ensures left_open { Row first (hanger ∷ binder [] ∷ []) journal row → ⊥ }
{}
