//! Laws of the definitions of a text's tokens. Each function here does nothing: its contract is
//! the law.

ghost use Rattle.std.specs.Prelude.{◌≡◌, ℕ, Bool, true, List};
ghost use Rattle.and_model.specs.Lines.{Bytes};
ghost use Rattle.and_language.specs.Tokens.{Token, Answer, one, is_last, IsToken, Comes, HasTokens};
ghost use Rattle.and_language.specs.Words.{bytes_of};

/// One answer: what comes next at a place of a text is one thing.
pub fn one_answer()
    ensures { (bytes : Bytes) (place : ℕ) (a b : Answer)
        → Comes bytes place a → Comes bytes place b → a ≡ b }
{}

/// One list of tokens: a text has, from a place on, one list of tokens up to its end or a fault,
/// and one such end.
pub fn one_list_of_tokens()
    ensures { (bytes : Bytes) (place : ℕ) (ts us : List Token) (a b : Answer)
        → is_last a ≡ true → is_last b ≡ true
        → HasTokens bytes a place ts → HasTokens bytes b place us → (ts ≡ us) × (a ≡ b) }
{}

/// A token's bytes: where a token comes next, the bytes from its start up to its end are a token of
/// its kind. So those of a quoted token name a text.
pub fn bytes_of_a_token()
    ensures { (bytes : Bytes) (place : ℕ) (t : Token) → Comes bytes place (one t)
        → (cut : Bool) × (rest : Bytes) × IsToken cut t.kind (bytes_of bytes t) rest }
{}
