//! Laws of terms that are known.

ghost use Rattle.std.specs.Prelude.{◌≡◌, ◌↔◌, ℕ, ℤ, List, Some, Contains, length, true, false};
ghost use Rattle.and_model.specs.Store.{is_half};
ghost use Rattle.and_model.specs.Arithmetic.{value as value_of_term};
ghost use Rattle.and_model.specs.Terms.{Term, Substitution, apply, is_ground};
ghost use Rattle.and_model.specs.declared.reference.Ref.{Ref};
ghost use Rattle.and_program.specs.Skeletons.{AllFall};
ghost use Rattle.and_cells.specs.Ranges.{NamedProgram, IsInRange, CanHold};
ghost use Rattle.and_cells.specs.Rows.{plain, IsSound};
ghost use Rattle.and_cells.specs.Seen.{Seen, Knows, IsWrittenIfNumber};
ghost use Rattle.and_cells.specs.Meaning.{Words, StandsFor, shallow_cells};
ghost use Rattle.and_cells.specs.Known.{HasKnown, SolvesKnown};
ghost use Rattle.and_cells.specs.Joined.{value};
ghost use Rattle.and_value_laws.specs.Values.{KnownAs, IsGround};

/// Each solution of what is known gives a reference the value that it makes of its known term; so
/// where that term is ground, all give it this one.
pub fn known_terms_are_in_each_solution()
    ensures { (P : NamedProgram) (s : Seen) (w : Words) (u : Substitution) (r : Ref) (t : Term)
        → AllFall 0 P.skeleton.nodes → HasKnown s w → SolvesKnown P w s u
        → KnownAs P s r t → value P w u r ≡ Some (apply u t) }
{}

/// Where what is known has a solution, what is ground under it is known as the term that the solution
/// gives it, unless it names a word of a pair.
pub fn ground_references_have_known_terms()
    ensures { (P : NamedProgram) (s : Seen) (w : Words) (u : Substitution) (r : Ref) (t : Term)
        → AllFall 0 P.skeleton.nodes → HasKnown s w → SolvesKnown P w s u
        → ((place : ℕ) (q : Ref) → Knows s place q → CanHold P s.words place q)
        → ((cell : ℕ) → Contains (shallow_cells P r) cell → is_half (w cell) ≡ false)
        → IsInRange P s.words r → IsGround P s r → value P w u r ≡ Some t → KnownAs P s r t }
{}

/// A known term has no variable where the reference is ground, and where the term has a value.
pub fn known_terms_are_ground()
    ensures ground { (P : NamedProgram) (s : Seen) (r : Ref) (t : Term) → IsGround P s r → KnownAs P s r t
        → is_ground t ≡ true }
    ensures value { (t : Term) (z : ℤ) → value_of_term t ≡ Some z → is_ground t ≡ true }
{}

/// What is known of the term of a reference in plain cells is the term that it stands for.
pub fn known_terms_of_plain_cells_are_theirs()
    ensures { (P : NamedProgram) (row : List Ref) (r : Ref) (t : Term)
        → AllFall 0 P.skeleton.nodes → IsSound P row → IsInRange P (length row) r → IsWrittenIfNumber (plain row) r
        → KnownAs P (plain row) r t ↔ StandsFor P row r t }
{}
