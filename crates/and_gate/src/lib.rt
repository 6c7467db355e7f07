//! Who may look on as a search runs.
#![tactic(auto)]

/// Who is called as the work goes on. Nothing is known of what a gate does, and a call may wait: a
/// gate that waits keeps the runtime that it needs in a field of its own.
pub trait Gate: Sync {
    /// Comes before each reduction of a goal. Those of a leader, and of a search on one thread, name worker 0.
    fn reduce(&self, worker: u32);

    /// Comes after each claim that took a branch.
    fn claim(&self, team: u32);

    /// Comes after each publish that was done.
    fn publish(&self, team: u32);

    /// Comes after each answer, floundered or not, that was found.
    fn found(&self, team: u32);
}

/// The gate that does nothing.
#[derive(Clone, Copy, Debug, PartialEq, Eq)]
pub struct Quiet;

impl Gate for Quiet {
    fn reduce(&self, _worker: u32) {}

    fn claim(&self, _team: u32) {}

    fn publish(&self, _team: u32) {}

    fn found(&self, _team: u32) {}
}
