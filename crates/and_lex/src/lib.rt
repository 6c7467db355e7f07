//! The tokens of a text, in order, and the places at which none can be read.
#![tactic(auto)]

mod classes;
mod found;
mod gaps;
mod laws;
mod lexing;
mod quotes;
mod tokens;

pub use laws::{bytes_of_a_token, one_answer, one_list_of_tokens};
pub use lexing::Lexer;
pub use quotes::quoted_text;
pub use tokens::{Kind, LexFault, Token};
