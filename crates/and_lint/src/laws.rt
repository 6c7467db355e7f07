//! What findings say of a program's arithmetic.

ghost use Rattle.std.specs.Prelude.{◌≡◌, None, true};
ghost use Rattle.and_model.specs.Arithmetic.{value};
ghost use Rattle.and_model.specs.Terms.{Substitution, Term, apply};
ghost use Rattle.and_lint.specs.Subterms.{has_no_value};

/// A term that is told to have no value has none, whatever its variables are.
pub fn what_is_told_has_no_value()
    ensures { (t : Term) (s : Substitution) → has_no_value t ≡ true → value (apply s t) ≡ None }
{}
