//! References to terms, and the words in which they are kept.

ghost use Rattle.std.specs.Prelude.{◌≡◌, ◌≢◌, IsNone, IfSome, Some};
ghost use Rattle.and_model.specs.declared.reference.Ref.{Ref};
ghost use Rattle.and_model.specs.Words.{HasWord, word_of};

use crate::numbers::NodeNo;

/// What a cell is set to, or where a term is found.
#[derive(Clone, Copy, PartialEq, Eq, Hash, Debug)]
pub enum Ref {
    /// Nothing: the cell is free.
    Free,
    /// The value of another cell.
    Cell(u32),
    /// The term of a skeleton node in the frame that begins at the cell `base`. The node is no
    /// variable of the skeleton.
    Node { node: NodeNo, base: u32 },
    /// The number in the pair of words that begins at this cell.
    Number(u32),
    /// One half of a number, its lower or its upper 32 bits. It stands in a pair alone.
    Half(u32),
}

const KINDS: u64 = 8;

const FREE: u64 = 0;

const CELL: u64 = 1;

const NODE: u64 = 2;

const NUMBER: u64 = 3;

const HALF: u64 = 4;

const CELLS: u64 = 1 << 23;

const NODES: u64 = 1 << 20;

const HALVES: u64 = 1 << 32;

impl Ref {
    /// Its word; that of `Free` is 0. Takes no memory.
    pub fn to_word(self) -> u64
        requires { HasWord self }
        ensures { result ≡ word_of self }
    {
        match self {
            Ref::Free => FREE,
            Ref::Cell(cell) => KINDS * cell as u64 + CELL,
            Ref::Node { node, base } => KINDS * (CELLS * node.0 as u64 + base as u64) + NODE,
            Ref::Number(pair) => KINDS * pair as u64 + NUMBER,
            Ref::Half(bits) => KINDS * bits as u64 + HALF,
        }
    }

    /// The reference that has this word; `None` where none has it. Takes no memory.
    pub fn of_word(word: u64) -> Option<Ref>
        ensures some { IfSome result (λ r. HasWord r × (word_of r ≡ word)) }
        ensures none { IsNone result → (r : Ref) → HasWord r → word_of r ≢ word }
        ensures read_back { (r : Ref) → HasWord r → word_of r ≡ word → result ≡ Some r }
    {
        let named = word / KINDS;
        match word % KINDS {
            FREE if named == 0 => Some(Ref::Free),
            CELL if named < CELLS => Some(Ref::Cell(named as u32)),
            NODE if named < NODES * CELLS => Some(Ref::Node {
                node: NodeNo((named / CELLS) as u32),
                base: (named % CELLS) as u32,
            }),
            NUMBER if named < CELLS => Some(Ref::Number(named as u32)),
            HALF if named < HALVES => Some(Ref::Half(named as u32)),
            _ => None,
        }
    }
}

/// A reference that is kept as a word is read back.
pub fn word_read_back(kept: Ref) -> Option<Ref>
    requires { HasWord kept }
    ensures { result ≡ Some kept }
{
    Ref::of_word(kept.to_word())
}

/// References with one word are the same reference.
pub fn words_tell_references_apart()
    ensures { (one other : Ref) → HasWord one → HasWord other → word_of one ≡ word_of other → one ≡ other }
{}
