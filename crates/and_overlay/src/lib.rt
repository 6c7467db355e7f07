//! Cells over other cells: what is set on trial is kept apart, and soon forgotten.
#![tactic(auto)]

pub mod laws;
pub mod overlay;
pub mod places;
pub mod scratch;

pub use laws::a_trial_goes_the_same_way;
pub use overlay::Overlay;
pub use places::PlaceList;
pub use scratch::{OwnSetting, Scratch};
