//! Words that more than one pass would set.

ghost use Rattle.std.specs.Prelude.{List, [], ◌∷◌};
ghost use Rattle.and_model.specs.declared.reference.Ref.{Ref};
ghost use Rattle.and_model.specs.declared.reference.Ref.TheVariants.{Cell};
ghost use Rattle.and_model.specs.Store.{sets, Pass, Row};
ghost use Rattle.and_examples.specs.PairExamples;
ghost use Rattle.and_examples.specs.PairExamples.{writer, too_early};
ghost use Rattle.and_examples.specs.StoreExamples.{setting, entry, first, journal, winner, learner, row};

/// One pass sets two cells, is given a frame, writes a number into it, and fails; another comes too late
/// for each of these, and learns what is set. No cell is set twice.
pub fn row_of_two_passes()
    ensures row_holds { Row first (winner ∷ learner ∷ []) journal row }
    ensures overwritten { (passes : List Pass) (row : List Ref)
        → Row first passes (entry 0 (sets (setting 2 (Cell 1))) ∷ entry 1 (sets (setting 2 (Cell 0))) ∷ []) row → ⊥ }
{}

/// A cell is set to a number once both halves of the number are written. With one half written it can't be.
pub fn row_with_a_number()
    ensures row_holds { Row PairExamples.first (writer ∷ []) PairExamples.journal PairExamples.row }
    ensures half_written { (passes : List Pass) (row : List Ref) → Row PairExamples.first passes too_early row → ⊥ }
{}
