//! The program that a row of words is for.

ghost use Rattle.and_cells.specs.Ranges.{NamedProgram, no_program};

use std::marker::Brand;

/// Names a program. A row of words has such a type as a parameter, so that rows of two programs are
/// never mixed up. Nothing is known of the program but what is required where a name is taken.
pub trait Naming {
    /// The program.
    ghost program: { NamedProgram };
}

impl Naming for Brand {
    ghost program = { no_program };
}
