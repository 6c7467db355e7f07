//! Laws of texts that begin with the same bytes.

ghost use Rattle.std.specs.Prelude.{ℕ, true, List};
ghost use Rattle.and_model.specs.Lines.{Bytes};
ghost use Rattle.and_syntax.specs.Tables.{Table};
ghost use Rattle.and_language.specs.Tokens.{Token, Answer, Comes, HasTokens};
ghost use Rattle.and_language.specs.Words.{Placed, AreWords};
ghost use Rattle.and_language.specs.Grammar.{Statement, IsText};
ghost use Rattle.and_language.specs.Refusals.{HasWords, Takes};
ghost use Rattle.and_beginnings.specs.Beginnings.{behind, AreAlike};

/// The tokens of a beginning: where two texts are alike up to a place, the tokens of the one before that place are the
/// first tokens of the other.
pub fn tokens_of_a_beginning()
    ensures { (bytes text : Bytes) (m p : ℕ) (ts : List Token) (a b : Answer)
        → AreAlike bytes text m (behind p ts) → HasTokens bytes a p ts → Comes text (behind p ts) b
        → HasTokens text b p ts }
{}

/// The words of a beginning, where these are clauses, queries and rules, are the first words of the other text.
pub fn words_of_a_beginning()
    ensures { (bytes text : Bytes) (m : ℕ) (ts : List Token) (ps : List Placed) (ss : List Statement) (a b : Answer)
        → AreAlike bytes text m (behind 0 ts) → HasTokens bytes a 0 ts → AreWords bytes a ts ps
        → IsText true ps ss → Comes text (behind 0 ts) b → HasWords text ps b }
{}

/// A table takes the clauses, queries and rules of a beginning of the other text as it takes them of the one.
pub fn clauses_of_a_beginning()
    ensures { (bytes text : Bytes) (m : ℕ) (ts : List Token) (ps : List Placed) (ss : List Statement) (a : Answer)
        (T U : Table)
        → AreAlike bytes text m (behind 0 ts) → HasTokens bytes a 0 ts → AreWords bytes a ts ps
        → IsText true ps ss → Takes bytes T ss U → Takes text T ss U }
{}
