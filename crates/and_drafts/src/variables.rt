//! The variables of a draft, numbered as they first occur.

ghost use Rattle.std.specs.Prelude.{◌≡◌, ◌<◌, ◌-◌, ◌^◌, ◌++◌, List, [], ◌∷◌};
ghost use Rattle.std.specs.Prelude.{true, None, Some, OnOk, OnErr, if◌then◌else◌, take, length};
ghost use Rattle.and_drafts.specs.Variables.{number_among};

use and_program::ShortText;
use indexmap::IndexMap;
use std::alloc::{AllocError, Global};

/// How many variables are looked for one after the other.
const FIRST: usize = 12;

/// The variables that were met, numbered as they first occur. Each bare `_` is one of its own.
pub(crate) struct Variables {
    /// The first of those that have a name, with their numbers.
    pub(crate) first: Vec<(ShortText, u32)>,
    /// Those behind them.
    pub(crate) named: IndexMap<Vec<u8>, u32>,
    pub(crate) count: u32,
}

// By hand, so that it is proved once, here.
impl Drop for Variables {
    fn drop(self) {
        let Variables {
            first: _,
            named: _,
            count: _,
        } = self;
    }
}

/// How many variables were met, and how many of these have a name.
#[derive(Clone, Copy)]
pub(crate) struct Mark {
    pub(crate) count: u32,
    first: usize,
    named: usize,
}

impl Variables {
    ghost use Rattle.and_model.specs.Lines.{Bytes};
    ghost use Rattle.and_syntax.specs.Written.{is_new, place};
    ghost use Rattle.and_drafts.specs.Variables.{HasMet};

    /// No variables. Takes no memory.
    pub(crate) fn new(alloc: Global) -> Variables
        ensures { HasMet result [] }
    {
        Variables {
            first: Vec::new(alloc),
            named: IndexMap::new(alloc),
            count: 0,
        }
    }

    /// The number of the variable of that name, where it was met. Takes no memory.
    pub(crate) fn find(&self, name: &[u8]) -> Option<u32>
        ensures { (met : List Bytes) → HasMet self.now met
            → result ≡ (if is_new name.now met then None else Some (place name.now met)) }
    {
        match find_first(&self.first, name) {
            Some(number) => Some(number),
            None => {
                if self.first.len() < FIRST {
                    return None;
                }
                self.named.get(name).copied()
            }
        }
    }

    /// Meets a variable of that name, which `find` does not know. An error is want of memory, and
    /// leaves the variables as they were.
    pub(crate) fn meet(&mut self, alloc: Global, name: &[u8]) -> Result<(), AllocError>
        requires { self.old.count < 2 ^ 32 - 1 }
        ensures met { (met : List Bytes) → HasMet self.old met → is_new name.now met ≡ true
            → OnOk result (HasMet self.new (met ++ name.now ∷ [])) }
        ensures kept { (met : List Bytes) → HasMet self.old met → is_new name.now met ≡ true
            → let old = self.old.named.entries in take (length old) self.new.named.entries ≡ old }
        ensures first_kept { (met : List Bytes) → HasMet self.old met → is_new name.now met ≡ true
            → let old = self.old.first.items in take (length old) self.new.first.items ≡ old }
        ensures err { (met : List Bytes) → HasMet self.old met → OnErr result (HasMet self.new met) }
    {
        if name == b"_".as_slice() {
            self.count += 1;
            return Ok(());
        }
        if self.first.len() < FIRST {
            self.first.push((ShortText::of(alloc, name)?, self.count))?;
            self.count += 1;
            return Ok(());
        }
        self.named
            .insert(Vec::from_slice(alloc, name)?, self.count)?;
        self.count += 1;
        Ok(())
    }

    /// What `cut` takes to go back to the variables that are there now. Takes no memory.
    pub(crate) fn mark(&self) -> Mark
        ensures count { result.count ≡ self.now.count }
        ensures first { result.first ≡ length self.now.first.items }
        ensures named { result.named ≡ length self.now.named.entries }
    {
        Mark {
            count: self.count,
            first: self.first.len(),
            named: self.named.len(),
        }
    }

    /// Forgets the variables that were met after a mark. Takes no memory.
    pub(crate) fn cut(&mut self, mark: Mark)
        ensures count { self.new.count ≡ mark.count }
        ensures first { self.new.first.items ≡ take mark.first self.old.first.items }
        ensures named { self.new.named.entries ≡ take mark.named self.old.named.entries }
    {
        self.count = mark.count;
        self.first.truncate(mark.first);
        self.named.truncate(mark.named);
    }

    /// Forgets them all, and keeps the memory.
    pub(crate) fn clear(&mut self)
        ensures { HasMet self.new [] }
    {
        self.count = 0;
        self.first.clear();
        if !self.named.is_empty() {
            self.named.clear();
        }
    }
}

/// The number of the variable of that name among these.
fn find_first(first: &[(ShortText, u32)], name: &[u8]) -> Option<u32>
    ensures { result ≡ number_among name.now first.now }
{
    for known in first {
        if name == known.0.bytes() {
            return Some(known.1);
        }
    }
    None
}
