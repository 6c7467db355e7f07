//! Who is told of a refusal.
#![tactic(auto)]

use and_gate::Quiet;
use and_reader::ReadRefusal;

/// Who is told why a text is refused, after the line that says so was written. Nothing is known of what is done with
/// that.
pub trait Watcher {
    /// Comes after the refusal of a text.
    fn refused(&self, text: &[u8], refusal: &ReadRefusal);
}

impl Watcher for Quiet {
    fn refused(&self, _text: &[u8], _refusal: &ReadRefusal) {}
}
