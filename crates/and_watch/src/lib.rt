//! Who watches a run, and tells of it on standard error: how far it has come, where a text is refused, and what to
//! write instead.
//!
//! Its user makes a [`Watch`], gives it to the top call as its gate, and writes through an [`AfterLine`].
#![tactic(auto)]

mod advice;
mod causes;
mod hints;
mod names;
mod places;
mod progress;

pub use progress::{AfterLine, Watch};
