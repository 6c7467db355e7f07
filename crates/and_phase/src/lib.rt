//! Phases: the determinate goals of a branch are reduced by several workers over one row of cells (Santos Costa,
//! Warren and Yang, 1991).
//!
//! Each worker takes goals of its hand, and where that is empty of the others'. What a worker hands on is looked at
//! when all have ended, so that what is proved of a phase rests on no account of goals.
#![tactic(auto)]

mod advanced;
mod dealing;
mod determinate;
mod joining;
mod pace;
mod phasing;
mod sending;
mod sighting;

pub use advanced::Advanced;
pub use pace::Pace;
pub use phasing::phase_to_state;
