//! The choicepoint tree as one thread has it, the histories of calls of a tree that teams share,
//! and the forks that leave no answer out.
//!
//! Nothing here runs: `specs/` has the definitions, and `laws_of_histories` says what holds of
//! every history.
#![tactic(auto)]

pub mod laws_of_histories;

pub use laws_of_histories::{
    covering_forks, histories_are_carried_out_in_order, keys_left_are_counted,
    one_reply_to_each_event,
};
