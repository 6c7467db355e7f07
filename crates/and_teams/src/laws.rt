//! Laws of explorations by several teams.

ghost use Rattle.std.specs.Prelude.{ℕ, ◌≡◌, List, None};
ghost use Rattle.and_model.specs.Programs.{Program};
ghost use Rattle.and_model.specs.Reached.{Fork};
ghost use Rattle.and_histories.specs.Histories.{HistoryEntry};
ghost use Rattle.and_tree.specs.Plain.{Tally};
ghost use Rattle.and_answers.specs.Kept.{listed};
ghost use Rattle.and_answers.specs.declared.found.Found.{Found};
ghost use Rattle.and_team_laws.specs.Owed.{SameItems};
ghost use Rattle.and_team_laws.specs.Runs.{AreForksOfQuery};
ghost use Rattle.and_teams.specs.Ended.{IsRun};

/// Explorations agree: two explorations of a program in which nothing was cut off, whatever their limits,
/// teams, workers and schedules, have made the same forks, told the same counts and found the same entries.
pub fn explorations_agree()
    ensures forks { (P : Program) (limit other_limit teams other_teams : ℕ) (found other_found : Found)
        (history other : List HistoryEntry) (counts others : Tally)
        → IsRun P limit teams found history counts → IsRun P other_limit other_teams other_found other others
        → found.cut ≡ None → other_found.cut ≡ None
        → (ordered : List Fork) × AreForksOfQuery P history ordered × AreForksOfQuery P other ordered }
    ensures counts { (P : Program) (limit other_limit teams other_teams : ℕ) (found other_found : Found)
        (history other : List HistoryEntry) (counts others : Tally)
        → IsRun P limit teams found history counts → IsRun P other_limit other_teams other_found other others
        → found.cut ≡ None → other_found.cut ≡ None
        → (found.forks ≡ other_found.forks) × (found.failed ≡ other_found.failed) }
    ensures entries { (P : Program) (limit other_limit teams other_teams : ℕ) (found other_found : Found)
        (history other : List HistoryEntry) (counts others : Tally)
        → IsRun P limit teams found history counts → IsRun P other_limit other_teams other_found other others
        → found.cut ≡ None → other_found.cut ≡ None → SameItems (listed found) (listed other_found) }
{}
