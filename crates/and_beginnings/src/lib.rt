//! Laws of texts that begin with the same bytes: they have the same tokens, words and clauses there. Each function here
//! does nothing: its contract is the law.
#![tactic(auto)]

mod laws;

pub use laws::{clauses_of_a_beginning, tokens_of_a_beginning, words_of_a_beginning};
