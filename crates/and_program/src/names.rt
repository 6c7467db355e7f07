//! Names by their numbers.

ghost use Rattle.std.specs.Prelude.{◌≡◌, [], get_or};
ghost use Rattle.and_program.specs.Nodes.{names_of};

use and_model::NameNo;
use indexmap::IndexSet;

/// The name of that number, and nothing where there is none. Takes no memory.
pub fn name_at(names: &IndexSet<Vec<u8>>, name: NameNo) -> &[u8]
    ensures { result.now ≡ get_or (names_of names.now.keys) name.0 [] }
{
    match names.get_index(name.0 as usize) {
        Some(bytes) => bytes.as_slice(),
        None => &[],
    }
}
