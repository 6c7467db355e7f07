//! Texts as programs: the reader of the whole language.
#![tactic(auto)]

mod emitting;
mod kept;
mod laws;
mod lines;
mod operators;
mod parser;
mod putting;
mod reading;
mod refusal;
mod state;
mod words;

pub use and_clauses::{Loaded, What};
pub use kept::{Beginning, GoneOn, Whole};
pub use laws::{each_text_is_read_or_refused, one_program, one_refusal};
pub use lines::line_at;
pub use reading::read_program;
pub use refusal::{Cause, ReadRefusal, refusal_text};
