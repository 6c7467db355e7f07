//! Names that are written or looked for, by their numbers.

ghost use Rattle.std.specs.Prelude.{◌≡◌};
ghost use Rattle.and_model.specs.Lines as lines;
ghost use Rattle.and_program.specs.Items.{relation};

use and_model::{NameNo, Relation, builtins};

/// The number of the name of the atom `fail`.
pub(crate) const FAIL: NameNo = NameNo(builtins::FAIL);

/// The number of the name of equations.
pub(crate) const EQUAL: NameNo = NameNo(builtins::EQUAL);

/// The number of the name of `is` goals.
pub(crate) const IS: NameNo = NameNo(builtins::IS);

/// The number of the name of a comparison.
pub(crate) fn comparison(asked: Relation) -> NameNo
    ensures { result.0 ≡ lines.relation_name (relation asked) }
{
    match asked {
        Relation::Less => NameNo(builtins::LESS),
        Relation::Greater => NameNo(builtins::GREATER),
        Relation::AtMost => NameNo(builtins::AT_MOST),
        Relation::AtLeast => NameNo(builtins::AT_LEAST),
        Relation::Same => NameNo(builtins::SAME),
        Relation::Differs => NameNo(builtins::DIFFERS),
    }
}
