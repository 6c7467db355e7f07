//! Laws of single references in plain rows: when they stand for terms.

ghost use Rattle.std.specs.Prelude.{◌≡◌, ℕ, List, length, false};
ghost use Rattle.and_model.specs.Store.{is_half};
ghost use Rattle.and_model.specs.declared.reference.Ref.{Ref};
ghost use Rattle.and_program.specs.Skeletons.{AllFall};
ghost use Rattle.and_cells.specs.Ranges.{NamedProgram, IsInRange};
ghost use Rattle.and_cells.specs.Rows.{IsSound};
ghost use Rattle.and_cells.specs.Seen.{word_at};
ghost use Rattle.and_cells.specs.Meaning.{IsCircle, Holds};
ghost use Rattle.and_cells.specs.Ends.{Ends};
ghost use Rattle.and_cells.specs.Solved.{HasTerm};

/// A reference whose paths end, none of them in a word of a pair, stands for a term.
pub fn references_that_end_have_terms()
    ensures { (P : NamedProgram) (row : List Ref) (r : Ref) → AllFall 0 P.skeleton.nodes → IsSound P row
        → IsInRange P (length row) r
        → Ends P row 0 false r → HasTerm P row r }
{}

/// In a row without circles a reference stands for a term where no cell that it holds is a word of a pair.
pub fn references_without_circles_have_terms()
    ensures { (P : NamedProgram) (row : List Ref) (r : Ref) → IsSound P row → IsInRange P (length row) r
        → ((cell : ℕ) → IsCircle P row cell → ⊥)
        → ((cell : ℕ) → Holds P row r cell → is_half (word_at row cell) ≡ false) → HasTerm P row r }
{}
