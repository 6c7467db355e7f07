//! Terms and substitutions.

ghost use Rattle.std.specs.Prelude.{◌≡◌, true, false, None};
ghost use Rattle.and_model.specs.Programs.{own_name};
ghost use Rattle.and_model.specs.Terms.{is_ground, apply};
ghost use Rattle.and_model.specs.Solutions.{Solves, MostGeneral};
ghost use Rattle.and_model.specs.Arithmetic.{value};
ghost use Rattle.and_model.specs.Stands.{AreVariants};
ghost use Rattle.and_examples.specs.Texts.{own, unary};
ghost use Rattle.and_examples.specs.TermExamples.{wrapped, f_of_atom, alike, to_second, to_third, three_values};

/// A substitution is not applied again to what it put in: where each variable becomes f of itself, f(X) becomes
/// f(f(X)). A term may be ground, as f(a), and have no value.
pub fn terms_once_replaced()
    ensures once { apply wrapped (unary (own_name 0) (own 0)) ≡ unary (own_name 0) (unary (own_name 0) (own 0)) }
    ensures ground { (is_ground f_of_atom ≡ true) × (value f_of_atom ≡ None)
        × (is_ground (unary (own_name 0) (own 0)) ≡ false) }
{}

/// Of X = Y the substitution of Y for X is a most general solution. One that puts Z for both, and Y for Z, solves
/// it and differs by a renaming alone; yet it is none, since it is not idempotent.
pub fn renamed_solution()
    ensures general { MostGeneral to_second alike }
    ensures renamed { Solves to_third alike × AreVariants (three_values to_second) (three_values to_third) }
    ensures renamed_is_not { MostGeneral to_third alike → ⊥ }
{}
