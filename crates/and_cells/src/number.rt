//! Numbers of 64 bits as two words of 32 bits.

ghost use Rattle.std.specs.Prelude.{◌≡◌};
ghost use Rattle.and_model.specs.Words.{HasWord};
ghost use Rattle.and_cells.specs.Numbers.{number_of, bits_of, high_half, low_half};

use and_model::Ref;

const HALVES: u64 = 1 << 32;

/// The 32 bits of a half; a word that is no half counts as 0.
fn bits_of_word(word: Ref) -> u64
    ensures { result ≡ bits_of word }
{
    match word {
        Ref::Half(bits) => bits as u64,
        Ref::Free => 0,
        Ref::Cell(_) => 0,
        Ref::Node { node: _, base: _ } => 0,
        Ref::Number(_) => 0,
    }
}

/// The number that two words hold, the high one first; a word that is no half counts as 0. Takes no
/// memory.
pub fn joined(high: Ref, low: Ref) -> i64
    ensures { result ≡ number_of high low }
{
    (HALVES * bits_of_word(high) + bits_of_word(low)).cast_signed()
}

/// The two words that hold a number, the high one first. Takes no memory.
pub fn halves(value: i64) -> (Ref, Ref)
    ensures high { result.0 ≡ high_half value }
    ensures low { result.1 ≡ low_half value }
    ensures kept { HasWord result.0 × HasWord result.1 }
{
    let bits = value.cast_unsigned();
    (
        Ref::Half((bits / HALVES) as u32),
        Ref::Half((bits % HALVES) as u32),
    )
}
