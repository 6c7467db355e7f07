//! Laws of what is tried over cells.

ghost use Rattle.std.specs.Prelude.{◌≡◌, ◌≢◌, ◌<◌, ◌+◌, ◌++◌, ℕ, List, length, map, replicate, Contains};
ghost use Rattle.and_model.specs.Prefixes.{IsPrefix};
ghost use Rattle.and_model.specs.Store.{word};
ghost use Rattle.and_model.specs.declared.reference.Ref.{Ref};
ghost use Rattle.and_cells.specs.Ranges.{NamedProgram};
ghost use Rattle.and_cells.specs.Seen.{Seen, Finds, Misses, OnlyReads, IsCoherent, word_at};
ghost use Rattle.and_overlay.specs.Overlaid.{Own, GoesOn, IsOver, WasTold, row_over, seen_over};

/// Whatever else is set below: as long as none of the cells is that a trial found free, each look of the
/// trial would be told over the later row what it was told, and what it set is free there. So the trial
/// ends as it did. (Where the later row is longer, the frame lies behind it.)
///
/// A look tells what its contract says of the word; and what goes on from the end of a trial goes on from
/// each moment of it.
pub fn a_trial_goes_the_same_way()
    ensures told { (P : NamedProgram) (s : Seen) (frame room : ℕ) (own : List Own) (looked : List ℕ) (later : List Ref)
        → IsOver P s frame own looked → IsCoherent s → GoesOn s looked later → length later + room ≡ s.words + frame
        → (place : ℕ) (r : Ref) → WasTold (seen_over s frame own looked) (length later) place r
        → word_at (row_over own (later ++ replicate room Ref.Free)) place ≡ r }
    ensures set { (P : NamedProgram) (s : Seen) (frame room : ℕ) (own : List Own) (looked : List ℕ) (later : List Ref)
        → IsOver P s frame own looked → GoesOn s looked later → (o : Own) → Contains own o
        → (o.place < length later → o.place < s.words)
        → word_at (later ++ replicate room Ref.Free) o.place ≡ Ref.Free }
    ensures looks { (P : NamedProgram) (old new : Seen) (shared behind place : ℕ) (r : Ref)
        → (place < behind → place < shared)
        → (r ≢ Ref.Free → Finds P place r old new) → (r ≡ Ref.Free → Misses shared place old new)
        → WasTold new behind place r }
    ensures earlier { (s z : Seen) (looked more : List ℕ) (later : List Ref)
        → OnlyReads s z → IsPrefix (map word looked) (map word more) → GoesOn z more later → GoesOn s looked later }
{}
