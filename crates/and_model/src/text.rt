//! Bytes in a list.

ghost use Rattle.std.specs.Prelude.{◌≡◌, ◌<◌, ℕ, List, IfOk, OnErr, length, slice_index, slice_get, Some, [], ◌∷◌};
ghost use Rattle.std.specs.Prelude.{◌++◌, ◌^◌};

use std::alloc::{AllocError, Global};
use std::marker::Model;

/// A text: a list of bytes.
#[derive(Drop, Debug)]
pub struct Text {
    items: Vec<u8>,
}

impl Model for Text {
    ghost Value = { List ℕ };

    ghost view = { λ t. t.items.items };
}

impl Text {
    /// A text of these bytes. An error is want of memory.
    pub fn of(alloc: Global, bytes: &[u8]) -> Result<Text, AllocError>
        ensures { IfOk result (λ t. t ≡ bytes.now) }
    {
        let mut items = Vec::new(alloc);
        items.extend_from_slice(bytes)?;
        Ok(Text { items })
    }

    /// The text without bytes. Takes no memory.
    pub fn new(alloc: Global) -> Text
        ensures { result ≡ [] }
    {
        Text {
            items: Vec::new(alloc),
        }
    }

    /// Its bytes. Takes no memory.
    pub fn bytes(&self) -> &[u8]
        ensures { result.now ≡ self.now }
    {
        &self.items
    }

    /// How many bytes it has. Takes no memory.
    pub fn len(&self) -> usize
        ensures { result ≡ length self.now }
    {
        self.items.len()
    }

    /// The byte at a place, counted from 0. Takes no memory.
    pub fn at(&self, place: usize) -> &u8
        requires { place < length self.now }
        ensures { slice_get self.now place ≡ Some result.now }
    {
        &self.items[place]
    }

    /// Puts these bytes at the end. After want of memory the text is spent.
    pub fn append(&mut self, bytes: &[u8]) -> Result<(), AllocError>
        ensures { IfOk result (λ _. self.new ≡ self.old ++ bytes.now) }
    {
        self.items.extend_from_slice(bytes)?;
        Ok(())
    }
}
