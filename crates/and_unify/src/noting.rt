//! A list of cells that are set.

ghost use Rattle.std.specs.Prelude.{◌≡◌, ◌<◌, [], ◌∷◌, ◌++◌, OnOk, vec_len, vec_capacity};

use std::alloc::AllocError;

/// Makes room for one thing more on a list that has none. An error is want of memory.
#[inline(always)]
pub fn make_room<T>(list: &mut Vec<T>) -> Result<(), AllocError>
    ensures items { list.new.items ≡ list.old.items }
    ensures room { OnOk result (vec_len list.new < vec_capacity list.new) }
{
    if list.len() == list.capacity() {
        list.reserve(1)?;
    }
    Ok(())
}

/// Puts a cell on the list, which has room for it.
pub fn note(bound: &mut Vec<u32>, cell: u32)
    requires { vec_len bound.old < vec_capacity bound.old }
    ensures { bound.new.items ≡ bound.old.items ++ cell ∷ [] }
{
    bound.push_reserved(cell);
}
