//! What was added to a table.

use and_drafts::ClauseDraft;
use std::snapshot::Snapshot;

/// What was added to a table, which contracts alone read.
pub(crate) enum Added {
    Clause(Snapshot<ClauseDraft>),
    Query(Snapshot<ClauseDraft>),
}

// By hand, so that it is proved once, here.
impl Drop for Added {
    fn drop(self) {
        match self {
            Added::Clause(_) => {}
            Added::Query(_) => {}
        }
    }
}
