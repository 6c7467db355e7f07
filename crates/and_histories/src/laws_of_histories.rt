//! Laws of the choicepoint tree and of its histories.

ghost use Rattle.std.specs.Prelude.{◌≡◌, ◌<◌, ◌+◌, ◌↔◌, ℕ, List, ◌++◌, length};
ghost use Rattle.and_model.specs.Programs.{Program};
ghost use Rattle.and_histories.specs.PlainTree.{State, Event, Reply, Does, opening, keys_left, left_of};
ghost use Rattle.and_histories.specs.Histories.{HistoryEntry, Carries};
ghost use Rattle.and_histories.specs.Covering.{HasOutcomeWithin, AreCovering, keys_begun, brought, replaced, ended};
ghost use Rattle.and_histories.specs.Covering.{keys_ended};

/// An event has one reply and one next state.
pub fn one_reply_to_each_event()
    ensures { (s next after : State) (event : Event) (reply answer : Reply) → Does s event reply next
        → Does s event answer after → (reply ≡ answer) × (next ≡ after) }
{}

/// A history leads from a state to one state, and two histories that are joined are carried out one
/// after the other.
pub fn histories_are_carried_out_in_order()
    ensures one_state { (s one other : State) (history : List HistoryEntry) → Carries s history one
        → Carries s history other → one ≡ other }
    ensures in_parts { (s after : State) (front back : List HistoryEntry)
        → Carries s (front ++ back) after ↔ ((middle : State) × Carries s front middle × Carries middle back after) }
{}

/// Where each fork of a legal history is covering, every code within the limit that has an outcome
/// begins with exactly one of the keys that are in hand, open or ended.
pub fn covering_forks()
    ensures { (P : Program) (limit teams : ℕ) (history : List HistoryEntry) (s : State) → 0 < teams
        → Carries (opening teams) history s → AreCovering P limit history
        → (code : List ℕ) → HasOutcomeWithin P limit code → keys_begun code (keys_left s ++ keys_ended history) ≡ 1 }
{}

/// How the number of keys that are in hand or open goes on: a fork brings a key for each of its
/// clauses and takes one away, an end takes one away, and no other event changes it. Once it is 0
/// it stays 0.
pub fn keys_left_are_counted()
    ensures counted { (s next : State) (event : Event) (reply : Reply) → Does s event reply next
        → left_of next + length (replaced event) + length (ended event) ≡ left_of s + length (brought event) }
    ensures none_again { (s after : State) (history : List HistoryEntry) → Carries s history after → left_of s ≡ 0
        → left_of after ≡ 0 }
{}
