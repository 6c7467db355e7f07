//! Laws of the rows that stores leave.

ghost use Rattle.std.specs.Prelude.{◌≢◌, List, AllPairs, Contains};
ghost use Rattle.and_model.specs.declared.reference.Ref.{Ref};
ghost use Rattle.and_model.specs.Store.{Setting, JournalEntry, Known, Pass, set_in, Row};

/// What a pass knows to be set is so in the row at the end.
pub fn what_is_known_stays()
    ensures { (first : List Ref) (passes : List Pass) (journal : List JournalEntry) (row : List Ref)
        → Row first passes journal row
        → (p : Pass) → Contains passes p → (k : Known) → Contains p.known k → Contains (set_in row) k.setting }
{}

/// No word is set by two passes.
pub fn a_word_has_one_winner()
    ensures { (first : List Ref) (passes : List Pass) (journal : List JournalEntry) (row : List Ref)
        → Row first passes journal row
        → AllPairs (λ (p q : Pass). (s t : Setting) → Contains p.mine s → Contains q.mine t
        → s.place ≢ t.place) passes }
{}
