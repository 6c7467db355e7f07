//! Modes of two small programs.

ghost use Rattle.std.specs.Prelude.{◌≡◌};
ghost use Rattle.and_modes.specs.Modes.{after_item, WellModed, Greatest, IsSafe, IsEarlier, WaitsFirst};
ghost use Rattle.and_examples.specs.ModesExamples.{safe, given_first, lowest, waiting, ground_first, x_in_body};
ghost use Rattle.and_examples.specs.ModesExamples.{one_line, first_has, inc, next, one, pair, v};
ghost use Rattle.and_model.specs.Arithmetic.{less};
ghost use Rattle.and_model.specs.Programs.{Program, call, equal, arithmetic, is, compare};
ghost use Rattle.and_modes.specs.declared.level.Level.TheVariants.{Any, Ground, Integer};

/// `inc(X,Y) :- Y is X+1. ?- inc(1,Z), W is Z+1.` The greatest assignment knows the first argument to be an
/// integer always, and the second when the call has succeeded. So no variable waits.
pub fn increment_of_a_number()
    ensures safe_is_well_moded { WellModed safe given_first }
    ensures safe_greatest { Greatest safe given_first }
    ensures safe_is_safe { IsSafe safe given_first }
{}

/// With the query `?- inc(A,Z).` the first argument can't even be known to be ground: the lowest assignment
/// is the greatest that is well-moded, and X waits in the body. Of two waits on one line, that of a
/// clause is told before that of the query.
pub fn increment_of_a_variable()
    ensures lowest_is_well_moded { (P : Program) → WellModed P lowest }
    ensures lowest_greatest { Greatest waiting lowest }
    ensures higher_is_not { WellModed waiting ground_first → ⊥ }
    ensures x_waits_first { WaitsFirst waiting lowest x_in_body }
    ensures z_is_earlier { IsEarlier one_line
        (record { clause = 1; item = 0; variable = 0 }) (record { clause = 0; item = 0; variable = 1 }) }
{}

/// What an item raises, where the variable 0 alone is known. An equation gives each side the level of the
/// other. Only a variable by itself becomes an integer: those inside a structure become ground, and a
/// structure is ground only where all its variables are. A comparison raises nothing, and `is` raises its
/// left side alone.
pub fn levels_that_items_raise()
    ensures equal_to_variable { (after_item lowest (first_has Integer) (equal (v 1) (v 0)) 1 ≡ Integer)
        × (after_item lowest (first_has Integer) (equal (v 0) (v 1)) 1 ≡ Integer)
        × (after_item lowest (first_has Ground) (equal (v 1) (v 0)) 1 ≡ Ground) }
    ensures equal_to_number { (after_item lowest (first_has Any) (equal (v 0) one) 0 ≡ Integer)
        × (after_item lowest (first_has Ground) (equal (v 0) one) 0 ≡ Integer) }
    ensures within_structure { (after_item lowest (first_has Integer) (equal (pair (v 1) (v 2)) (v 0)) 1 ≡ Ground)
        × (after_item lowest (first_has Integer) (equal (pair (v 1) (v 2)) (v 0)) 2 ≡ Ground)
        × (after_item lowest (first_has Integer) (equal (pair (v 1) (v 2)) (v 0)) 0 ≡ Integer) }
    ensures from_structure { (after_item lowest (first_has Integer) (equal (v 1) (pair (v 0) one)) 1 ≡ Ground)
        × (after_item lowest (first_has Integer) (equal (v 1) (pair (v 0) (v 2))) 1 ≡ Any)
        × (after_item lowest (first_has Integer) (equal (v 1) (pair (v 0) (v 2))) 2 ≡ Any) }
    ensures by_call { (after_item given_first (first_has Any) (call (inc (pair (v 0) (v 1)) (v 2))) 1 ≡ Ground)
        × (after_item given_first (first_has Any) (call (inc (pair (v 0) (v 1)) (v 2))) 2 ≡ Integer) }
    ensures by_comparison { (after_item lowest (first_has Ground) (arithmetic (compare less (v 0) (v 1))) 0 ≡ Ground)
        × (after_item lowest (first_has Ground) (arithmetic (compare less (v 0) (v 1))) 1 ≡ Any) }
    ensures by_is { (after_item lowest (first_has Ground) (arithmetic (is (v 1) (next (v 0)))) 1 ≡ Integer)
        × (after_item lowest (first_has Ground) (arithmetic (is (v 1) (next (v 0)))) 0 ≡ Ground)
        × (after_item lowest (first_has Ground) (arithmetic (is (v 1) (next (v 2)))) 1 ≡ Any) }
{}
