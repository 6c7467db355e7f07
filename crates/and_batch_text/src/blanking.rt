//! The text of one query by itself.

ghost use Rattle.std.specs.Prelude.{◌≡◌, ◌≤◌, ◌<◌, ◌⊎◌, length, nat_eq, IfOk};
ghost use Rattle.and_batch_text.specs.Singles.{single, blanked, is_in, is_in_one};
ghost use Rattle.and_batch_text.specs.Views.{span_of, spans_of};

use crate::span::Span;
use std::alloc::{AllocError, Global};

/// The lesser of two places.
fn lesser(one: usize, other: usize) -> usize
    ensures one { result ≤ one }
    ensures other { result ≤ other }
    ensures either { (result ≡ one) ⊎ (result ≡ other) }
{
    if one < other { one } else { other }
}

/// Replaces the byte at this place by a space, unless it is a newline.
fn blank_at(bytes: &mut [u8], place: usize)
    requires { place < length bytes.old }
    ensures { bytes.new ≡ blanked (nat_eq place) 0 bytes.old }
{
    if bytes[place] != b'\n' {
        bytes[place] = b' ';
    }
}

/// Replaces each byte of this part but newlines by a space.
fn blank(bytes: &mut [u8], span: Span)
    ensures { bytes.new ≡ blanked (is_in (span_of span)) 0 bytes.old }
{
    let end = lesser(span.end, bytes.len());
    for place in span.start..end {
        blank_at(bytes, place);
    }
}

/// Replaces each byte of these parts but newlines by a space.
fn blank_all(bytes: &mut [u8], spans: &[Span])
    ensures { bytes.new ≡ blanked (is_in_one (spans_of spans.now)) 0 bytes.old }
{
    for number in 0..spans.len() {
        blank(bytes, spans[number]);
    }
}

/// The text of a query by itself, by its number from 0 on: the text in which each byte of the other queries but
/// newlines is replaced by a space. An error is want of memory.
pub fn single(
    alloc: Global,
    bytes: &[u8],
    spans: &[Span],
    number: usize,
) -> Result<Vec<u8>, AllocError>
    requires { number < length spans.now }
    ensures { IfOk result (λ text. text.items ≡ single bytes.now (spans_of spans.now) number) }
{
    let mut text = Vec::from_slice(alloc, bytes)?;
    blank_all(text.as_mut_slice(), &spans[..number]);
    blank_all(text.as_mut_slice(), &spans[number + 1..]);
    Ok(text)
}
