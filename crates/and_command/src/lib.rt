//! The words of the command line: which lists of words are commands, and with which values.
//!
//! Its user calls [`command_of`], and writes [`USAGE`] where the words are no command.
#![tactic(auto)]

pub mod checking;
pub mod forms;
pub mod given;
pub mod options;
pub mod reading;
pub mod values;

pub use forms::USAGE;
pub use given::Settings;
pub use reading::{Command, command_of};
