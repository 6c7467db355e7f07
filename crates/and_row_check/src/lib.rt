//! Looks at the row that workers leave when they have ended: that it is sound, and that the cells of the variables of
//! a tree are no words of pairs and alone are named by what is set, and by pairs that are still to be made the same
//! term. And looks at the goals that they leave.
#![tactic(auto)]

mod looking;
mod readiness;

pub use looking::{Frames, are_pairs_whole, frames_of, is_whole};
pub use readiness::are_ready;
