//! The queries of texts that have several, and the text of each by itself.

use and_batch_text::{queries, single};
use and_rows::{Untold, line};
use std::alloc::Global;

/// Where each query of a text stands.
pub(crate) fn places(alloc: Global, text: &[u8]) -> Result<String, Untold> {
    let mut out = String::new(alloc);
    for span in queries(alloc, text)? {
        let told = line(alloc, &(span.start, span.end))?;
        out.push_str(&told)?;
    }
    Ok(out)
}

/// The text of each query by itself.
pub(crate) fn singles(alloc: Global, text: &[u8]) -> Result<String, Untold> {
    let spans = queries(alloc, text)?;
    let mut out = String::new(alloc);
    for number in 0..spans.len() {
        let alone = single(alloc, text, spans.as_slice(), number)?;
        let told = line(alloc, &String::from_utf8_lossy(alloc, &alone)?)?;
        out.push_str(&told)?;
    }
    Ok(out)
}
