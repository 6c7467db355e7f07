//! The end of the text of a run.

ghost use Rattle.std.specs.Prelude.{◌≡◌, ◌∷◌, [], ◌++◌, codes, OnOk};
ghost use Rattle.and_model.specs.Output.{counted};

use and_model::Text;
use itoa::Buffer;
use std::alloc::AllocError;

/// Writes the line of the counts. After want of memory the text is spent.
pub(crate) fn write_counts(text: &mut Text, forks: u64, failed: u64) -> Result<(), AllocError>
    ensures { OnOk result (text.new ≡ text.old ++ codes "% forks " ++ counted forks ++ codes " failed "
        ++ counted failed ++ 10 ∷ []) }
{
    text.append(b"% forks ")?;
    text.append(Buffer::new().format(forks).as_bytes())?;
    text.append(b" failed ")?;
    text.append(Buffer::new().format(failed).as_bytes())?;
    text.append(b"\n")
}
