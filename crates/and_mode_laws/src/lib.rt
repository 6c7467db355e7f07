//! The laws of modes: what a well-moded assignment promises of a program's proof trees.
//!
//! Each function here does nothing. Its contract is a law, proved for all programs, assignments and
//! trees. The proofs' own lemmas stand in `proofs/`.
#![tactic(auto)]

ghost use Rattle.std.specs.Prelude.{◌≡◌, List};
ghost use Rattle.and_model.specs.Terms.{Term, Substitution, none};
ghost use Rattle.and_model.specs.Solutions.{Equation, Solves};
ghost use Rattle.and_model.specs.Programs.{Program, Arithmetic};
ghost use Rattle.and_model.specs.Trees.{QueryTree, IsWhole, Closed};
ghost use Rattle.and_model.specs.Lines.{Bytes};
ghost use Rattle.and_model.specs.Listing.{Ends, floundered};
ghost use Rattle.and_modes.specs.Modes.{Assignment, arguments_of, WellModed, IsSafe};
ghost use Rattle.and_modes.specs.declared.level.Side.{Side};
ghost use Rattle.and_mode_laws.specs.Levels.{IsTaken, HasItsLevels};
ghost use Rattle.and_program.specs.Loaded.{program_of};
ghost use Rattle.and_modes.specs.Kept.{assignment_of};

use and_modes::Modes;
use and_program::Loaded;

/// Modes are sound. Under a well-moded assignment each call that a clause took has its levels, both
/// those of a call and those of a success, in each solution of what the tree's equations close to:
/// what is ground there has no variable, and an integer is a number. Where no variable waits, no tree
/// of the query ends with goals that wait, whatever it weighs. (The query is a clause without head
/// arguments.)
pub fn modes_are_sound()
    ensures levels { (P : Program) (m : Assignment) → arguments_of P.query.head ≡ none → WellModed P m
        → (t : QueryTree P) (es : List Equation) (gs : List Arithmetic) → IsWhole t → Closed t es gs
        → (s : Substitution) → Solves s es
        → (goal : Term) (side : Side) → IsTaken t goal → HasItsLevels m side s goal }
    ensures never_flounders { (P : Program) (m : Assignment) → arguments_of P.query.head ≡ none → WellModed P m
        → IsSafe P m → (t : QueryTree P) (text : Bytes) → Ends t (floundered text) → ⊥ }
{}

/// The same of a program that was loaded, whose query has no head arguments, and of an assignment
/// that `infer` gave for it.
pub fn loaded_modes_are_sound(loaded: &Loaded, modes: &Modes)
    ensures levels { WellModed (program_of loaded.now) (assignment_of modes.now)
        → (t : QueryTree (program_of loaded.now)) (es : List Equation) (gs : List Arithmetic)
        → IsWhole t → Closed t es gs
        → (s : Substitution) → Solves s es
        → (goal : Term) (side : Side) → IsTaken t goal → HasItsLevels (assignment_of modes.now) side s goal }
    ensures never_flounders { WellModed (program_of loaded.now) (assignment_of modes.now)
        → IsSafe (program_of loaded.now) (assignment_of modes.now)
        → (t : QueryTree (program_of loaded.now)) (text : Bytes) → Ends t (floundered text) → ⊥ }
{}
