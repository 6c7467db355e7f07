//! Laws of fork trees. Each function here does nothing, and its contract is the law.

ghost use Rattle.std.specs.Prelude.{ℕ, ◌≡◌, false, List};
ghost use Rattle.and_model.specs.Programs.{Program};
ghost use Rattle.and_model.specs.Trees.{QueryTree, query_agenda, blank};
ghost use Rattle.and_model.specs.Reached.{Numbers};
ghost use Rattle.and_model.specs.Listing.{Entry};
ghost use Rattle.and_histories.specs.Histories.{HistoryEntry};
ghost use Rattle.and_walk_laws.specs.Walks.{Walks};
ghost use Rattle.and_team_laws.specs.Runs.{WholeRun};
ghost use Rattle.and_fork_texts.specs.Texts.{Line, TreeText, is_fork, is_failed, count_of};

/// A tree has at most one text, whatever the limits.
pub fn one_text()
    ensures { (P : Program) (limit other : ℕ) (t : QueryTree P) (depth : ℕ) (lines others : List Line)
        → TreeText P limit t depth lines → TreeText P other t depth others → lines ≡ others }
{}

/// The tree counts what runs count: the lines of a tree's text that tell of forks and of failed branches are as many as
/// the definitions say; so they are as many as a search of the query counts that was not cut off, be it on one thread
/// or by teams, within any limit and on any schedule.
pub fn trees_count_what_runs_count()
    ensures numbers { (P : Program) (limit : ℕ) (t : QueryTree P) (depth : ℕ) (lines : List Line)
        → TreeText P limit t depth lines → Numbers t (count_of is_fork lines) (count_of is_failed lines) }
    ensures walks { (P : Program) (limit other depth : ℕ) (lines : List Line) (entries : List Entry) (forks failed : ℕ)
        → TreeText P limit (blank (query_agenda P)) depth lines
        → Walks P other (blank (query_agenda P)) entries forks failed false
        → (forks ≡ count_of is_fork lines) × (failed ≡ count_of is_failed lines) }
    ensures runs { (P : Program) (limit other teams depth : ℕ) (lines : List Line) (history : List HistoryEntry)
        (entries : List Entry) (forks failed : ℕ) → TreeText P limit (blank (query_agenda P)) depth lines
        → WholeRun P other teams history entries forks failed false
        → (forks ≡ count_of is_fork lines) × (failed ≡ count_of is_failed lines) }
{}
