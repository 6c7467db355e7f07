//! A list that grows and shrinks at its end, stated once for every type of item.

ghost use Rattle.std.specs.Prelude.{◌≡◌, ◌<◌, ◌↔◌, List, [], ◌∷◌, ◌++◌, length, slice_get, Some, OnOk, OnErr, IfOk};
ghost use Rattle.std.specs.Prelude.{IfErr, IsNone, IfNone, IfSome};

use std::alloc::{AllocError, Global};
use std::marker::Model;

/// A list that grows and shrinks at its end. It keeps the allocator that it was made with.
#[derive(Drop, Debug)]
pub struct ListOf<Item> {
    items: Vec<Item>,
}

impl<Item> Model for ListOf<Item> {
    ghost Value = { List Item };

    ghost view = { λ list. list.items.items };
}

impl<Item> ListOf<Item> {
    /// The empty list. Takes no memory.
    pub fn new(alloc: Global) -> ListOf<Item>
        ensures { result ≡ [] }
    {
        ListOf {
            items: Vec::new(alloc),
        }
    }

    /// The list of the items of a vector, whose memory it keeps. Takes no memory.
    pub fn of_items(items: Vec<Item>) -> ListOf<Item>
        ensures { result ≡ items.items }
    {
        ListOf { items }
    }

    /// How many items it has. Takes no memory.
    pub fn len(&self) -> usize
        ensures { result ≡ length self.now }
    {
        self.items.len()
    }

    /// The item at a place, counted from 0. Takes no memory.
    pub fn at(&self, place: usize) -> &Item
        requires { place < length self.now }
        ensures { slice_get self.now place ≡ Some result.now }
    {
        &self.items[place]
    }

    /// Takes out the last item; `None` where there is none. Takes no memory.
    pub fn pop(&mut self) -> Option<Item>
        ensures empty { IsNone result ↔ (self.old ≡ []) }
        ensures none_left { IfNone result (self.new ≡ []) }
        ensures last { IfSome result (λ item. self.old ≡ self.new ++ item ∷ []) }
    {
        self.items.pop()
    }

    /// Puts the item at the end. An error is want of memory, and hands the item back.
    pub fn push(&mut self, item: Item) -> Result<(), Item>
        ensures ok { OnOk result (self.new ≡ self.old ++ item ∷ []) }
        ensures unchanged { OnErr result (self.new ≡ self.old) }
        ensures given_back { IfErr result (λ back. back ≡ item) }
    {
        self.items.push(item).map_err(|refused| refused.value)
    }
}

impl<Item: Copy> ListOf<Item> {
    /// Another list of the same items, on the same allocator. An error is want of memory.
    pub fn copy(&self) -> Result<ListOf<Item>, AllocError>
        ensures { IfOk result (λ list. list ≡ self.now) }
    {
        let items = Vec::from_slice(*self.items.allocator(), &self.items)?;
        Ok(ListOf { items })
    }
}
