//! Names that mostly need no memory.

ghost use Rattle.std.specs.Prelude.{◌≡◌, ◌≤◌, ℕ, List, length, take, IfOk};
ghost use Rattle.and_program.specs.declared.short.TheConstants.{SHORT};
ghost use Rattle.and_program.specs.Short.{held_bytes};

use std::alloc::{AllocError, Global};
use std::marker::Model;

/// How many bytes stand in the value itself.
const SHORT: usize = 15;

/// A name, which stands in the value itself where it has at most 15 bytes.
pub struct ShortText {
    held: Held,
}

// By hand, so that it is proved here once, and not in each crate that lets go of a name.
impl Drop for ShortText {
    fn drop(self) {
        let ShortText { held: _ } = self;
    }
}

/// What holds the bytes of a name: the first of an array, or a list.
pub(crate) enum Held {
    Short { bytes: [u8; SHORT], length: u8 },
    Long(Vec<u8>),
}

// By hand, so that it is proved once, here.
impl Drop for Held {
    fn drop(self) {
        match self {
            Held::Short {
                bytes: _,
                length: _,
            } => {}
            Held::Long(_) => {}
        }
    }
}

impl Model for ShortText {
    ghost Value = { List ℕ };

    ghost view = { λ t. held_bytes t.held };
}

impl ShortText {
    /// A name of these bytes. An error is want of memory.
    pub fn of(alloc: Global, bytes: &[u8]) -> Result<ShortText, AllocError>
        ensures { IfOk result (λ t. t ≡ bytes.now) }
    {
        let length = bytes.len();
        if length > SHORT {
            let held = Held::Long(Vec::from_slice(alloc, bytes)?);
            return Ok(ShortText { held });
        }
        Ok(ShortText {
            held: Held::Short {
                bytes: filled(bytes),
                length: length as u8,
            },
        })
    }

    /// Its bytes. Takes no memory.
    pub fn bytes(&self) -> &[u8]
        ensures { result.now ≡ self.now }
    {
        match &self.held {
            Held::Short { bytes, length } => first(bytes, *length as usize),
            Held::Long(bytes) => bytes,
        }
    }
}

/// An array that begins with these bytes. (Most names have one byte or two, which are set in fewer steps than copied.)
fn filled(bytes: &[u8]) -> [u8; SHORT]
    requires { length bytes.now ≤ SHORT }
    ensures { take (length bytes.now) result ≡ bytes.now }
{
    let mut short = [0; SHORT];
    match bytes {
        [byte] => short[0] = *byte,
        [byte, other] => {
            short[0] = *byte;
            short[1] = *other;
        }
        _ => short[..bytes.len()].copy_from_slice(bytes),
    }
    short
}

/// The first of these bytes, or all where they are fewer.
fn first(bytes: &[u8], count: usize) -> &[u8]
    ensures { result.now ≡ take count bytes.now }
{
    &bytes[..count.min(bytes.len())]
}
