//! Layout and comments.

ghost use Rattle.std.specs.Prelude.{◌≡◌, ◌≤◌, ◌+◌, length, take, drop, true, IfSome, IsTrue};
ghost use Rattle.and_language.specs.Tokens.{Separates, is_separated};
ghost use Rattle.and_lex.specs.Scanning.{ends_comment, comment_end, piece_len};

use crate::classes::{is_layout_byte, line_len};

/// Whether the bytes begin with `*/`.
fn is_comment_end(bytes: &[u8]) -> bool
    ensures end { result ≡ ends_comment bytes.now }
    ensures within { IsTrue result → 2 ≤ length bytes.now }
{
    matches!(bytes, [b'*', b'/', ..])
}

/// How many bytes stand up to the first `*/` and with it, or `None` where there is none.
fn find_comment_end(bytes: &[u8]) -> Option<usize>
    ensures end { result ≡ comment_end 0 bytes.now }
    ensures within { IfSome result (λ n. n ≤ length bytes.now) }
{
    for index in 0..bytes.len() {
        if is_comment_end(&bytes[index..]) {
            return Some(index + 2);
        }
    }
    None
}

/// How many bytes the text begins with that are one byte of layout, or one whole comment.
fn separator_len(bytes: &[u8]) -> usize
    ensures len { result ≡ piece_len bytes.now }
    ensures within { result ≤ length bytes.now }
{
    match bytes {
        [] => 0,
        [b'%', behind @ ..] => line_len(behind) + 1,
        [b'/', b'*', behind @ ..] => match find_comment_end(behind) {
            Some(end) => end + 2,
            None => 0,
        },
        [byte, ..] => usize::from(is_layout_byte(*byte)),
    }
}

/// How many bytes of layout and comments the text begins with.
pub(crate) fn gap_len(bytes: &[u8]) -> usize
    ensures within { result ≤ length bytes.now }
    ensures gap { Separates (take result bytes.now) (drop result bytes.now) }
    ensures behind { is_separated (drop result bytes.now) ≡ true }
{
    let mut gap = 0;
    loop {
        let step = separator_len(&bytes[gap..]);
        if step == 0 {
            return gap;
        }
        gap += step;
    }
}
