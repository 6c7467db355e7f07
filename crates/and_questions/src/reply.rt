//! What the bytes of a source are answered with.

use and_model::Text;
use and_reader::ReadRefusal;
use and_status::Status;

/// What a text is answered with, and the status of that.
#[derive(Drop)]
pub struct Reply {
    /// What is due.
    pub text: Text,
    /// The status, where all of it is written.
    pub status: Status,
    /// Why the text is refused, where it is.
    pub refusal: Option<ReadRefusal>,
}
