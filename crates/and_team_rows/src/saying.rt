//! Answers as lines.

use and_rows::{Untold, line};
use std::alloc::Global;
use std::fmt::Debug;

/// Puts the line of a value at the end of a text.
pub(crate) fn say<T: Debug + Drop>(
    alloc: Global,
    out: &mut String,
    value: T,
) -> Result<(), Untold> {
    let told = line(alloc, &value)?;
    out.push_str(&told)?;
    Ok(())
}
