//! Laws of rows of words as equations: when they have a solution, and which.
//!
//! Each function here does nothing. Its contract is a law, for all programs and rows. The proofs'
//! own lemmas stand in `proofs/`.
#![tactic(auto)]

ghost use Rattle.std.specs.Prelude.{ℕ, ◌≡◌, ◌↔◌, List, true, false};
ghost use Rattle.and_model.specs.Store.{is_half};
ghost use Rattle.and_model.specs.Terms.{Substitution};
ghost use Rattle.and_model.specs.Solutions.{Solves};
ghost use Rattle.and_model.specs.declared.reference.Ref.{Ref};
ghost use Rattle.and_cells.specs.Ranges.{NamedProgram};
ghost use Rattle.and_cells.specs.Rows.{IsSound, plain};
ghost use Rattle.and_cells.specs.Seen.{word_at, IsSetTo};
ghost use Rattle.and_cells.specs.Meaning.{IsCircle, IsSettled, Holds, equations_of};
ghost use Rattle.and_cells.specs.Solved.{AllHaveTerms, IsMostGeneral};
ghost use Rattle.and_cells.specs.Known.{SolvesKnown};

/// A row whose cells stand for terms is a most general solution of its own equations.
pub fn rows_with_terms_are_solutions()
    ensures { (P : NamedProgram) (row : List Ref) → IsSound P row → AllHaveTerms P row
        → IsMostGeneral P row (equations_of P row) }
{}

/// A row in which a cell's term properly contains the cell has no solution.
pub fn circles_have_no_solution()
    ensures { (P : NamedProgram) (row : List Ref) (cell : ℕ) (t : Substitution) → IsSound P row
        → IsCircle P row cell → Solves t (equations_of P row) → ⊥ }
{}

/// A row in which a set word's term holds a chain that ends in a word of a pair has no solution.
pub fn halves_have_no_term()
    ensures { (P : NamedProgram) (row : List Ref) (place cell : ℕ) (r : Ref) (t : Substitution)
        → IsSound P row → IsSetTo row place r → is_half r ≡ false → Holds P row r cell
        → is_half (word_at row cell) ≡ true → Solves t (equations_of P row) → ⊥ }
{}

/// A row is settled exactly where each cell but the words of pairs stands for a term.
pub fn settled_rows_have_terms()
    ensures { (P : NamedProgram) (row : List Ref) → IsSound P row
        → IsSettled P row ↔ AllHaveTerms P row }
{}

/// What is known of plain cells is what their row says.
pub fn told_rows_are_known()
    ensures { (P : NamedProgram) (row : List Ref) (t : Substitution)
        → SolvesKnown P (word_at row) (plain row) t ↔ Solves t (equations_of P row) }
{}
