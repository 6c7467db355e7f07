//! What holds of a store while its passes work at it, and that each step keeps it.
//!
//! Each function here does nothing. Its contract is a law over the definitions of `and_model` and
//! of this crate alone.
#![tactic(auto)]

ghost use Rattle.std.specs.Prelude.{◌≡◌, ◌≢◌, ◌+◌, ◌^◌, ◌<◌, ◌≤◌, ◌++◌, ◌∷◌, [], ℕ, List, Contains};
ghost use Rattle.and_model.specs.Store.{JournalEntry, Known, Pass, Waiting, entries_by};
ghost use Rattle.and_model.specs.declared.goal.Goal.{Goal};
ghost use Rattle.and_model.specs.declared.reference.Ref.{Ref};
ghost use Rattle.and_store_laws.specs.AtWork.{AtClose, AtWork, CanOpen, Held, IsAtRest, Member, Opening, Rule, Seat};
ghost use Rattle.and_store_laws.specs.AtWork.{Works, journal_of, opened, word_at};
ghost use Rattle.and_store_laws.specs.Grown.{Grew};
ghost use Rattle.and_store_laws.specs.Steps.{blank, looked, seat, set_as, taken, Fails, Hangs, Joins, Looks};
ghost use Rattle.and_store_laws.specs.Steps.{LooksFailed, SetsWord, Splits, TakesFrame, TakesPlace};

/// At the opening one seat has all shares, and its pass has done nothing.
pub fn the_opening()
    ensures { (o : Opening) → CanOpen o → Rule o (seat o.shares 1 (blank 0 ∷ []) ∷ []) (opened o) }
{}

/// Each kind of step keeps the rule.
pub fn steps_keep_the_rule()
    ensures look { (o : Opening) (place : ℕ) (before : List Seat) (h : Held) (after : List Seat) (k : Held)
        → Rule o before h → Looks place before h after k → Rule o after k }
    ensures set { (o : Opening) (place : ℕ) (to : Ref) (before : List Seat) (h : Held) (after : List Seat) (k : Held)
        → Rule o before h → SetsWord o place to before h after k → Rule o after k }
    ensures frame { (o : Opening) (weight : ℕ) (before : List Seat) (h : Held) (after : List Seat) (k : Held)
        → Rule o before h → TakesFrame o weight before h after k → Rule o after k }
    ensures fail { (o : Opening) (before : List Seat) (h : Held) (after : List Seat) (k : Held)
        → Rule o before h → Fails before h after k → Rule o after k }
    ensures look_failed { (o : Opening) (before : List Seat) (h : Held) (after : List Seat) (k : Held)
        → Rule o before h → LooksFailed before h after k → Rule o after k }
    ensures hang { (o : Opening) (cell : ℕ) (goal : Goal) (before : List Seat) (h : Held) (after : List Seat) (k : Held)
        → Rule o before h → Hangs o cell goal before h after k → Rule o after k }
    ensures take { (o : Opening) (before : List Seat) (h : Held) (after : List Seat) (k : Held)
        → Rule o before h → TakesPlace before h after k → Rule o after k }
    ensures split { (o : Opening) (before : List Seat) (h : Held) (after : List Seat) (k : Held)
        → Rule o before h → Splits o before h after k → Rule o after k }
    ensures join { (o : Opening) (before : List Seat) (h : Held) (after : List Seat) (k : Held)
        → Rule o before h → Joins before h after k → Rule o after k }
{}

/// Where one seat has all shares, and none of its passes is inside a call, what holds at the close
/// holds of its passes.
pub fn the_close()
    ensures { (o : Opening) (front back : List Seat) (v : Seat) (h : Held)
        → Rule o (front ++ v ∷ back) h → v.shares ≡ o.shares → IsAtRest v.members → AtClose o v.members h }
{}

/// What the rule tells of a pass: what it knows is so, and what it has not seen of the journal has no
/// entry of its own. The journal is what some of the passes has seen.
pub fn what_the_rule_tells()
    ensures known { (o : Opening) (members : List Member) (h : Held) (m : Member) (k : Known) → AtWork o members h
        → Contains members m → Contains m.pass.known k
        → (word_at h.row k.setting.place ≡ k.setting.value) × (k.setting.value ≢ Ref.Free) }
    ensures since { (o : Opening) (h : Held) (m : Member) → Works o h m
        → (since : List JournalEntry) × (h.journal ≡ m.pass.seen ++ since) × (entries_by m.pass since ≡ []) }
    ensures journal { (o : Opening) (members : List Member) (h : Held) → AtWork o members h
        → journal_of members ≡ h.journal }
    ensures mark { (o : Opening) (seats : List Seat) (h : Held) (weight : ℕ) → Rule o seats h
        → o.words ≤ 4194304 → o.seats ≤ 64 → weight ≤ 4194304 → h.mark + weight < 2 ^ 64 }
{}

/// What a worker says of its pass, beside what all cells say: it stays where no call is made, goes on
/// from call to call, and holds of the steps by which a worker is cells.
pub fn a_worker_grows()
    ensures nothing { (p : Pass) → Grew p p }
    ensures on { (p q r : Pass) → Grew p q → Grew q r → Grew p r }
    ensures look { (o : Opening) (h : Held) (m : Member) → Works o h m → (place : ℕ) (r : Ref)
        → Grew m.pass (looked place r h.journal m).pass }
    ensures set { (o : Opening) (h : Held) (m : Member) → Works o h m → (place : ℕ) (to : Ref)
        → Grew m.pass (set_as place to h.journal m).pass }
    ensures take { (o : Opening) (h : Held) (m : Member) → Works o h m → (cell : ℕ) (place : Waiting)
        → Grew m.pass (taken cell place h.journal m).pass }
{}
