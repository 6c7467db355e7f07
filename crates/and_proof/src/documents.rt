//! Documents: a program, and behind it perhaps a proof.

ghost use Rattle.std.specs.Prelude.{◌≡◌, ◌≤◌, ◌<◌, ◌-◌, ◌⊎◌, ◌↔◌, ℕ, length, get_or, IfSome, IsNone, IsTrue};
ghost use Rattle.and_proof.specs.Documents.{IsMark};

/// The line with which a proof begins, without its newline.
pub(crate) const MARK: &[u8] = b"%% proof";

const NEWLINE: u8 = b'\n';

/// The place of the last line that is exactly `%% proof`; `None` where there is none. Takes no memory.
pub fn split_document(bytes: &[u8]) -> Option<usize>
    ensures mark { IfSome result (λ place. IsMark bytes.now place) }
    ensures last { IfSome result (λ place. (other : ℕ) → IsMark bytes.now other → other ≤ place) }
    ensures none { IsNone result → (place : ℕ) → IsMark bytes.now place → ⊥ }
{
    let mut place = bytes.len();
    while place > 0 {
        place -= 1;
        if is_mark(bytes, place) {
            return Some(place);
        }
    }
    None
}

/// Whether a line that is exactly the mark begins at the place. Takes no memory.
fn is_mark(bytes: &[u8], place: usize) -> bool
    requires { place < length bytes.now }
    ensures { IsTrue result ↔ IsMark bytes.now place }
{
    if !begins_line(bytes, place) || !ends_line(bytes, place + MARK.len()) {
        return false;
    }
    bytes[place..].starts_with(MARK)
}

/// Whether nothing or a newline stands before the place. Takes no memory.
fn begins_line(bytes: &[u8], place: usize) -> bool
    requires { place < length bytes.now }
    ensures { IsTrue result ↔ ((place ≡ 0) ⊎ (get_or bytes.now (place - 1) 0 ≡ 10)) }
{
    place == 0 || bytes[place - 1] == NEWLINE
}

/// Whether nothing or a newline stands at the place. Takes no memory.
fn ends_line(bytes: &[u8], place: usize) -> bool
    ensures { IsTrue result ↔ (get_or bytes.now place 10 ≡ 10) }
{
    match bytes.get(place) {
        Some(byte) => *byte == NEWLINE,
        None => true,
    }
}
