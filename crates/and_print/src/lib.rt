//! Terms and answers as they are written (the canonical form of ISO 13211-1, section 7.10.5, with
//! lists in brackets; the line is this project's own).
#![tactic(auto)]

pub mod lines;
mod names;
mod printer;
mod roots;
mod tasks;
pub mod terms;
pub mod variables;

pub use lines::show_line;
pub use terms::show_term;
pub use variables::VariableNames;
