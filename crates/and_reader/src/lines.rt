//! The lines of a text's places.

ghost use Rattle.std.specs.Prelude.{◌≡◌, ◌<◌, ◌≤◌, ◌^◌, ◌-◌, length, min};
ghost use Rattle.and_language.specs.Tokens.{newlines, line_at};

/// How many newlines the bytes have.
fn newlines(bytes: &[u8]) -> u32
    requires { length bytes.now < 2 ^ 32 - 1 }
    ensures count { result ≡ newlines bytes.now }
    ensures few { result ≤ length bytes.now }
{
    bytes.iter().filter(|byte| **byte == b'\n').count() as u32
}

/// The line of a place. Takes no memory.
pub fn line_at(bytes: &[u8], place: usize) -> u32
    requires { min place (length bytes.now) < 2 ^ 32 - 1 }
    ensures { result ≡ line_at bytes.now place }
{
    let place = place.min(bytes.len());
    newlines(&bytes[..place]) + 1
}

/// A place in a text, and its line.
#[derive(Clone, Copy)]
pub(crate) struct Cursor {
    pub(crate) place: usize,
    pub(crate) line: u32,
}

impl Cursor {
    /// At the beginning of a text.
    pub(crate) fn new() -> Cursor
        ensures { result ≡ record { place = 0; line = 1 } }
    {
        Cursor { place: 0, line: 1 }
    }

    /// Goes on to a place that is not before this one, and tells its line.
    pub(crate) fn go_to(&mut self, bytes: &[u8], place: usize) -> u32
        requires before { self.old.place ≤ place }
        requires within { place ≤ length bytes.now }
        requires few { length bytes.now < 2 ^ 32 - 1 }
        requires line { self.old.line ≡ line_at bytes.now self.old.place }
        ensures line { result ≡ line_at bytes.now place }
        ensures cursor { self.new ≡ record { place = place; line = line_at bytes.now place } }
    {
        self.line += newlines(&bytes[self.place..place]);
        self.place = place;
        self.line
    }
}
