//! Laws of rows: what references stand for, and what is taken back.

ghost use Rattle.std.specs.Prelude.{◌≡◌, List, ℕ, length};
ghost use Rattle.and_model.specs.Terms.{Term};
ghost use Rattle.and_model.specs.declared.reference.Ref.{Ref};
ghost use Rattle.and_cells.specs.Ranges.{NamedProgram};
ghost use Rattle.and_cells.specs.Meaning.{StandsFor};
ghost use Rattle.and_cells.specs.Rows.{OnlySet, taken_back};

/// In one row a reference stands for one term at most.
pub fn one_term_of_a_reference()
    ensures { (P : NamedProgram) (row : List Ref) (r : Ref) (t u : Term)
        → StandsFor P row r t → StandsFor P row r u → t ≡ u }
{}

/// Where cells were only set, and words put behind, taking these back gives the row that there was.
pub fn what_was_set_is_taken_back()
    ensures { (before after : List Ref) (cells : List ℕ)
        → OnlySet cells before after → taken_back after cells (length before) ≡ before }
{}
