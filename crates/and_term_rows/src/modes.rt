//! Modes of programs.

ghost use Rattle.std.specs.Prelude.{◌≡◌};
ghost use Rattle.and_model.specs.Programs.{own_name};

use crate::script::program;
use and_model::NameNo;
use and_model::builtins::BUILT_IN;
use and_modes::{Modes, Side, infer, verdict};
use and_rows::{Desk, Untold, answers, line, read_numbers};
use std::alloc::Global;

/// The modes of a program.
#[derive(Drop)]
struct Levels {
    modes: Modes,
}

/// A small number as one of 8 bits.
fn byte(number: u32) -> u8 {
    u8::try_from(number).unwrap_or(u8::MAX)
}

/// The name at a place among the program's own, which are numbered behind the built-in ones.
fn own_name(place: u8) -> NameNo
    ensures { result.0 ≡ own_name place }
{
    let built_in = BUILT_IN;
    NameNo(built_in.len() as u32 + u32::from(place))
}

/// The level of a place: the numbers are those of a name among the program's own, of its arguments and of the place.
fn level(alloc: Global, modes: &Modes, words: &str, side: Side) -> Result<String, Untold> {
    let n = read_numbers(words)?;
    let name = own_name(byte(n.first));
    let level = modes.level(name, byte(n.second), byte(n.third), side);
    line(alloc, &level)
}

impl Desk for Levels {
    fn call(&mut self, alloc: Global, name: &str, words: &str) -> Result<String, Untold> {
        match name {
            "called" => level(alloc, &self.modes, words, Side::Called),
            "succeeded" => level(alloc, &self.modes, words, Side::Succeeded),
            _ => Err(Untold::Malformed),
        }
    }
}

/// Whether some arithmetic of the program on the first line may wait, and the levels of places.
pub(crate) fn tell(alloc: Global, lines: &str) -> Result<String, Untold> {
    let (text, places) = lines.split_once('\n').unwrap_or((lines, ""));
    let loaded = program(alloc, text)?;
    let modes = infer(alloc, &loaded)?;
    let mut out = line(alloc, &verdict(alloc, &loaded, &modes)?)?;
    let told = answers(alloc, &mut Levels { modes }, places)?;
    out.push_str(&told)?;
    Ok(out)
}
