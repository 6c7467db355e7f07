//! The laws of a search by several teams: what the calls of all of them on one choicepoint tree have
//! done together is a walk of the query, whatever the schedule.
//!
//! Each function here does nothing. Its contract is a law over the definitions of `and_model`,
//! `and_histories`, `and_walk_laws` and of `specs/`. The proofs' own lemmas stand in `proofs/`.
#![tactic(auto)]

ghost use Rattle.std.specs.Prelude.{ℕ, ◌≡◌, ◌≢◌, ◌+◌, ◌≤◌, ◌<◌, ◌↔◌, Bool, false, ◌||◌, List, [], ◌∷◌, ◌++◌, All};
ghost use Rattle.std.specs.Prelude.{AllPairs, Contains, length};
ghost use Rattle.and_model.specs.Programs.{Program};
ghost use Rattle.and_model.specs.Trees.{QueryTree, query_agenda, blank, decided, weight};
ghost use Rattle.and_model.specs.Reached.{Steps, Split, ReachedBy, Fork};
ghost use Rattle.and_model.specs.Listing.{Entry, Listing};
ghost use Rattle.and_histories.specs.PlainTree.{State, opening, left_of};
ghost use Rattle.and_histories.specs.Histories.{HistoryEntry, Carries, team_of};
ghost use Rattle.and_histories.specs.Covering.{AreCovering};
ghost use Rattle.and_laws.specs.CodeOrder.{Before};
ghost use Rattle.and_walk_laws.specs.Walks.{Walks, SplitsBy};
ghost use Rattle.and_team_laws.specs.Owed.{SameItems, OwesAnyhow};
ghost use Rattle.and_team_laws.specs.Done.{Did, DidAll, IsForkedBy, IsJustified, Part, DidParts, all_parts, forks_of};
ghost use Rattle.and_team_laws.specs.Done.{keys_answered, keys_given_up, AreAnswers};
ghost use Rattle.and_team_laws.specs.Runs.{WholeRun, AreInOrder, AreForksOfQuery};

/// One root: all trees that are reached by the empty key come by Steps from the query; and those that
/// are reached by the key of a split come by Steps from this split.
pub fn keys_have_roots()
    ensures query { (P : Program) (limit : ℕ) (t : QueryTree P) → ReachedBy P limit [] t
        → Steps (blank (query_agenda P)) t }
    ensures splits { (P : Program) (limit : ℕ) (key : List ℕ) (t : QueryTree P) (clauses : List ℕ) (is_cut : Bool)
        → ReachedBy P limit key t → IsForkedBy P limit t clauses is_cut
        → (c : ℕ) (u v : QueryTree P) → Split t c u
        → ReachedBy P limit (decided t ++ c ∷ []) v → Steps u v }
{}

/// Owed in any order: a tree among those that are owed may be replaced by one that it comes to by
/// Steps, by nothing where its walk is known, and by its splits that fit where it is forked.
pub fn owed_in_any_order()
    ensures root { (P : Program) (limit : ℕ) (t : QueryTree P) → OwesAnyhow P limit t (t ∷ []) [] 0 0 false }
    ensures walked { (P : Program) (limit : ℕ) (t r u : QueryTree P) (before behind : List (QueryTree P))
        (entries others : List Entry)
        (forks failed more_forks more_failed : ℕ) (is_cut is_more_cut : Bool)
        → OwesAnyhow P limit t (before ++ r ∷ behind) entries forks failed is_cut
        → Steps r u → Walks P limit u others more_forks more_failed is_more_cut
        → OwesAnyhow P limit t (before ++ behind) (entries ++ others) (forks + more_forks) (failed + more_failed)
        (is_cut || is_more_cut) }
    ensures forked { (P : Program) (limit : ℕ) (t r u : QueryTree P) (before behind splits : List (QueryTree P))
        (entries : List Entry)
        (forks failed : ℕ) (is_cut is_now_cut : Bool) (clauses : List ℕ)
        → OwesAnyhow P limit t (before ++ r ∷ behind) entries forks failed is_cut
        → Steps r u → IsForkedBy P limit u clauses is_now_cut → SplitsBy u clauses splits
        → OwesAnyhow P limit t (before ++ splits ++ behind) entries (forks + 1) failed (is_cut || is_now_cut) }
    ensures empty { (P : Program) (limit : ℕ) (t : QueryTree P) (entries : List Entry)
        (forks failed : ℕ) (is_cut : Bool)
        → OwesAnyhow P limit t [] entries forks failed is_cut
        → (all : List Entry) × Walks P limit t all forks failed is_cut × SameItems all entries }
{}

/// Teams' calls: each event of a history is of one of its teams. And what the calls of each team did
/// is what the history did.
pub fn calls_of_teams()
    ensures teams { (teams : ℕ) (history : List HistoryEntry) (s : State) → Carries (opening teams) history s
        → All (λ (e : HistoryEntry). team_of e.event < teams) history }
    ensures parts { (P : Program) (limit : ℕ) (history : List HistoryEntry) (parts : List Part)
        → All (λ (e : HistoryEntry). team_of e.event < length parts) history → DidParts P limit history 0 parts
        → (entries : List Entry)
        × DidAll P limit history entries (all_parts parts).forks (all_parts parts).failed (all_parts parts).is_cut
        × SameItems entries (all_parts parts).entries }
{}

/// One event more: it did what it did, behind what was done before.
pub fn one_event_more()
    ensures { (P : Program) (limit : ℕ) (history : List HistoryEntry) (e : HistoryEntry) (entries others : List Entry)
        (forks failed more_forks more_failed : ℕ) (is_cut is_more_cut : Bool)
        → DidAll P limit history entries forks failed is_cut
        → Did P limit e.event others more_forks more_failed is_more_cut
        → DidAll P limit (history ++ e ∷ []) (entries ++ others) (forks + more_forks) (failed + more_failed)
        (is_cut || is_more_cut) }
{}

/// Histories walk: where the query fits, and no key is left at the end of a history of so many teams,
/// what its events did is a walk of the query, in some order.
pub fn histories_walk()
    ensures { (P : Program) (limit teams : ℕ) (history : List HistoryEntry) (s : State)
        (entries : List Entry) (forks failed : ℕ)
        (is_cut : Bool) → 0 < teams → weight (blank {P = P} (query_agenda P)) ≤ limit
        → Carries (opening teams) history s → left_of s ≡ 0
        → DidAll P limit history entries forks failed is_cut
        → (all : List Entry) × Walks P limit (blank (query_agenda P)) all forks failed is_cut × SameItems all entries }
{}

/// Teams list: of what a walk of the query finds, taken in any order, no two have one code; and in
/// the order of their codes it is the listing.
pub fn any_order_lists()
    ensures once { (P : Program) (limit : ℕ) (all entries : List Entry) (forks failed : ℕ) (is_cut : Bool)
        → Walks P limit (blank (query_agenda P)) all forks failed is_cut → SameItems all entries
        → AllPairs (λ (x y : Entry). x.code ≢ y.code) entries }
    ensures listing { (P : Program) (limit : ℕ) (all entries : List Entry) (forks failed : ℕ) (is_cut : Bool)
        → Walks P limit (blank (query_agenda P)) all forks failed is_cut → SameItems all entries
        → AllPairs Before entries → Listing P limit entries }
{}

/// Forks cover: each fork of a history that did something leaves no code out.
pub fn forks_cover()
    ensures { (P : Program) (limit : ℕ) (history : List HistoryEntry) (entries : List Entry)
        (forks failed : ℕ) (is_cut : Bool)
        → DidAll P limit history entries forks failed is_cut → AreCovering P limit history }
{}

/// Answers told: the keys that were answered are as many as the entries that were found, and each is a
/// prefix of the code of its entry; and no key was given up.
pub fn answers_told()
    ensures answered { (P : Program) (limit : ℕ) (history : List HistoryEntry) (entries : List Entry)
        (forks failed : ℕ) (is_cut : Bool)
        → DidAll P limit history entries forks failed is_cut → AreAnswers (keys_answered history) entries }
    ensures given_up { (P : Program) (limit : ℕ) (history : List HistoryEntry) (entries : List Entry)
        (forks failed : ℕ) (is_cut : Bool)
        → DidAll P limit history entries forks failed is_cut → keys_given_up history ≡ [] }
{}

/// Forks are justified: each fork of a history that did something, cut off or not, is of the leftmost
/// goal of a Shut tree that is reached by its key, by exactly those of its candidates that fit.
pub fn forks_are_justified()
    ensures { (P : Program) (limit : ℕ) (history : List HistoryEntry) (entries : List Entry) (forks failed : ℕ)
        (is_cut : Bool) → DidAll P limit history entries forks failed is_cut
        → All (λ (x : Fork). IsJustified P limit x) (forks_of history) }
{}

/// No key is forked twice, whatever was cut off; so the forks of a history can be put in the order of
/// their keys.
pub fn no_key_is_forked_twice()
    ensures once { (P : Program) (limit teams : ℕ) (history : List HistoryEntry) (s : State) (entries : List Entry)
        (forks failed : ℕ) (is_cut : Bool) → 0 < teams → Carries (opening teams) history s
        → DidAll P limit history entries forks failed is_cut
        → AllPairs (λ (x y : Fork). x.key ≢ y.key) (forks_of history) }
    ensures order { (P : Program) (limit teams : ℕ) (history : List HistoryEntry) (s : State) (entries : List Entry)
        (forks failed : ℕ) (is_cut : Bool) → 0 < teams → Carries (opening teams) history s
        → DidAll P limit history entries forks failed is_cut → (ordered : List Fork) × AreInOrder history ordered }
{}

/// Forks in order: where nothing was cut off, the forks of the history can be put in the order of their
/// keys, and so they are those of the exploration of the query, and as many as were counted.
pub fn forks_in_order()
    ensures some_order { (P : Program) (limit teams : ℕ) (history : List HistoryEntry) (entries : List Entry)
        (forks failed : ℕ) → WholeRun P limit teams history entries forks failed false
        → (ordered : List Fork) × AreForksOfQuery P history ordered × (forks ≡ length (forks_of history)) }
    ensures each_order { (P : Program) (limit teams : ℕ) (history : List HistoryEntry) (entries : List Entry)
        (forks failed : ℕ) → WholeRun P limit teams history entries forks failed false
        → (ordered : List Fork) → AreInOrder history ordered → AreForksOfQuery P history ordered }
{}

/// Runs agree: two runs of a program in which nothing was cut off, at any limits, by any number of
/// teams, and whatever their workers and schedules, have made the same forks, which in the order of
/// their keys are those of the exploration of the query. So they counted as many forks and failures,
/// and found the same entries.
pub fn runs_agree()
    ensures forks { (P : Program) (limit other_limit teams other_teams : ℕ) (history other : List HistoryEntry)
        (entries others : List Entry) (forks failed other_forks other_failed : ℕ)
        → WholeRun P limit teams history entries forks failed false
        → WholeRun P other_limit other_teams other others other_forks other_failed false
        → (ordered : List Fork) × AreForksOfQuery P history ordered × AreForksOfQuery P other ordered }
    ensures numbers { (P : Program) (limit other_limit teams other_teams : ℕ) (history other : List HistoryEntry)
        (entries others : List Entry) (forks failed other_forks other_failed : ℕ)
        → WholeRun P limit teams history entries forks failed false
        → WholeRun P other_limit other_teams other others other_forks other_failed false
        → (forks ≡ other_forks) × (failed ≡ other_failed) }
    ensures entries { (P : Program) (limit other_limit teams other_teams : ℕ) (history other : List HistoryEntry)
        (entries others : List Entry) (forks failed other_forks other_failed : ℕ)
        → WholeRun P limit teams history entries forks failed false
        → WholeRun P other_limit other_teams other others other_forks other_failed false
        → SameItems entries others }
{}
