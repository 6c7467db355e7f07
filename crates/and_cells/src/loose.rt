//! Rows of words that are not known to be cells yet.

ghost use Rattle.std.specs.Prelude.{◌≡◌, ◌<◌, length};
ghost use Rattle.and_cells.specs.Seen.{word_at};
ghost use Rattle.and_cells.specs.Rows.{IsSound, AreWords, row_of};

use crate::naming::Naming;
use crate::plain::PlainCells;
use and_model::Ref;
use std::marker::Model;

/// A row of words, each of a reference or free. What its words name may lie beyond its end, as in a row
/// that several threads have set. It takes 8 bytes a word.
#[derive(Drop)]
pub struct LooseCells {
    words: Vec<u64>,
}

impl Model for LooseCells {
    ghost use Rattle.std.specs.Prelude.{List};
    ghost use Rattle.and_model.specs.declared.reference.Ref.{Ref};
    ghost use Rattle.and_cells.specs.Rows.{row_of, AreWords};

    ghost Value = { List Ref };

    ghost view = { λ cells. row_of cells.words.items };

    ghost invariant = { λ cells. AreWords cells.words.items };
}

impl LooseCells {
    /// The row that is kept in these words. Takes no memory.
    pub fn of_words(words: Vec<u64>) -> LooseCells
        requires { AreWords words.items }
        ensures { result ≡ row_of words.items }
    {
        LooseCells { words }
    }

    /// How many words there are. Takes no memory.
    pub fn len(&self) -> usize
        ensures { result ≡ length self.now }
    {
        self.words.len()
    }

    /// The word at a place. Takes no memory.
    pub fn word(&self, place: usize) -> Ref
        requires { place < length self.now }
        ensures { result ≡ word_at self.now place }
    {
        match Ref::of_word(self.words[place]) {
            Some(word) => word,
            None => unreachable!(),
        }
    }

    /// The row as cells, once what its words name is known to be in range. Takes no memory.
    pub fn into_plain<N: Naming>(self) -> PlainCells<N>
        requires { IsSound N.program self }
        ensures { result ≡ self }
    {
        PlainCells::of_words(self.words)
    }
}
