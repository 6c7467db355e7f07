//! The laws of a machine that reads the grammar of texts word by word, and so refuses a text at
//! the first word with which it can go on to no text of the grammar.
//!
//! Each function here does nothing. Its contract is a law over the machine of `specs/Machine.antt`
//! and the grammar of `and_language`. The proofs' own lemmas stand in `proofs/`.
#![tactic(auto)]

ghost use Rattle.std.specs.Prelude.{◌≡◌, ◌++◌, ◌↔◌, Bool, true, false, List, [], ◌∷◌, Some, None};
ghost use Rattle.and_syntax.specs.Written.{Written};
ghost use Rattle.and_language.specs.Words.{Word, Placed};
ghost use Rattle.and_language.specs.Grammar.{IsClause, IsText, CanGoOn, Sort, Statement};
ghost use Rattle.and_language.specs.Refusals.{NoneEnds};
ghost use Rattle.and_automaton.specs.Machine.{State, start, over, is_over, go, exceeds, step, run, Reading, between};
ghost use Rattle.and_automaton.specs.Machine.{take_words, words_of};

/// Accepted is derived: words over which the machine comes to the end of a clause or query are
/// one, with that term; and a text that it takes is one of the grammar, with those statements.
pub fn accepted_is_derived()
    ensures clause { (limited : Bool) (ws : List Word) (q : Sort) (w : Written)
        → run limited start ws ≡ Some (over q w) → IsClause limited ws q w }
    ensures text { (limited : Bool) (ws : List Placed) (ss : List Statement)
        → take_words limited (between []) ws ≡ Some (between ss) → IsText limited ws ss }
{}

/// Derived is accepted: over the words of a clause or query the machine comes to its end, with its
/// term; and it takes each text, with its statements. So a text has one list of statements.
pub fn derived_is_accepted()
    ensures clause { (limited : Bool) (ws : List Word) (q : Sort) (w : Written)
        → IsClause limited ws q w → run limited start ws ≡ Some (over q w) }
    ensures text { (limited : Bool) (ws : List Placed) (ss : List Statement)
        → IsText limited ws ss → take_words limited (between []) ws ≡ Some (between ss) }
    ensures one_reading { (limited : Bool) (ws : List Placed) (ss ts : List Statement)
        → IsText limited ws ss → IsText limited ws ts → ss ≡ ts }
{}

/// Each state goes on: from each state some words lead to the end of a clause or query.
pub fn each_state_goes_on()
    ensures { (limited : Bool) (s : State)
        → (us : List Word) × (q : Sort) × (w : Written) × (run limited s us ≡ Some (over q w)) }
{}

/// What can go on: words can be continued to a text exactly where the machine takes them all.
/// Behind a text and the beginning of one more clause, which led to a state s, these can be
/// continued; and so they can with one more word, exactly where the machine takes that word in s.
/// A clause that can go on and is not ended has led to such a state.
pub fn can_go_on()
    ensures words { (limited : Bool) (ws : List Placed)
        → CanGoOn limited ws ↔ ((r : Reading) × (take_words limited (between []) ws ≡ Some r)) }
    ensures begun { (limited : Bool) (whole begun : List Placed) (ss : List Statement) (s : State)
        → IsText limited whole ss → run limited start (words_of begun) ≡ Some s
        → CanGoOn limited (whole ++ begun) }
    ensures one_more { (limited : Bool) (whole begun : List Placed) (p : Placed)
        → (ss : List Statement) (s : State)
        → IsText limited whole ss → run limited start (words_of begun) ≡ Some s
        → is_over s ≡ false
        → CanGoOn limited ((whole ++ begun) ++ p ∷ [])
        ↔ ((t : State) × (step limited s p.word ≡ Some t)) }
    ensures unended { (limited : Bool) (whole begun : List Placed) (ss : List Statement)
        → IsText limited whole ss → NoneEnds begun → CanGoOn limited (whole ++ begun)
        → (s : State) × (run limited start (words_of begun) ≡ Some s) × (is_over s ≡ false) }
{}

/// Refused words: behind a text within the limits and the beginning of one more clause, a word
/// that the state does not take goes on to no text; one that it takes over a limit goes on to a
/// text, and to none within the limits.
pub fn refused_words()
    ensures no_grammar { (whole begun : List Placed) (p : Placed) (ss : List Statement) (s : State)
        → IsText true whole ss → run true start (words_of begun) ≡ Some s → is_over s ≡ false
        → go s p.word ≡ None
        → CanGoOn false ((whole ++ begun) ++ p ∷ []) → ⊥ }
    ensures over_limit { (whole begun : List Placed) (p : Placed) (ss : List Statement) (s : State)
        → IsText true whole ss → run true start (words_of begun) ≡ Some s → is_over s ≡ false
        → (t : State) → go s p.word ≡ Some t → exceeds s p.word ≡ true
        → CanGoOn false ((whole ++ begun) ++ p ∷ [])
        × (CanGoOn true ((whole ++ begun) ++ p ∷ []) → ⊥) }
{}

/// Clause by clause: two texts, one behind the other, are one; the words of a clause or query are
/// a text; where the clause that is begun is not over, none ends among its words; and words are
/// in one way a text and the beginning of one more clause.
pub fn clause_by_clause()
    ensures joined { (limited : Bool) (ps qs : List Placed) (ss ts : List Statement)
        → IsText limited ps ss → IsText limited qs ts → IsText limited (ps ++ qs) (ss ++ ts) }
    ensures one { (limited : Bool) (p : Placed) (ps : List Placed) (q : Sort) (w : Written)
        → run limited start (words_of (p ∷ ps)) ≡ Some (over q w)
        → IsText limited (p ∷ ps) (record { sort = q; term = w; place = p.place } ∷ []) }
    ensures none_ends { (limited : Bool) (ps : List Placed) (s : State)
        → run limited start (words_of ps) ≡ Some s → is_over s ≡ false → NoneEnds ps }
    ensures one_split { (limited : Bool) (whole begun front back : List Placed)
        → (ss ts : List Statement) → whole ++ begun ≡ front ++ back
        → IsText limited whole ss → IsText limited front ts → NoneEnds begun → NoneEnds back
        → (whole ≡ front) × (begun ≡ back) }
{}

/// Within the limits: what is taken within them is taken without them, to the same state; and so
/// a text within the limits is a text, with the same statements.
pub fn limits_only_refuse()
    ensures one_step { (s t : State) (x : Word)
        → step true s x ≡ Some t → step false s x ≡ Some t }
    ensures steps { (s t : State) (ws : List Word)
        → run true s ws ≡ Some t → run false s ws ≡ Some t }
    ensures text { (ws : List Placed) (ss : List Statement)
        → IsText true ws ss → IsText false ws ss }
{}
