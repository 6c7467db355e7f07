//! What every row of words offers, whether one thread sets its words or several do.

ghost use Rattle.std.specs.Prelude.{◌≡◌, ◌≢◌, ◌<◌, ◌+◌, ℕ};
ghost use Rattle.and_model.specs.declared.reference.Ref.{Ref};
ghost use Rattle.and_cells.specs.Ranges.{NamedProgram, IsInRange, IsPairInRange};
ghost use Rattle.and_cells.specs.Seen.{Seen, IsCoherent, IsKnownWritten, IsWrittenIfNumber, Finds, Misses, Sets};
ghost use Rattle.and_cells.specs.Seen.{WritesNumber, ReadsNumber, OnlyReads, Keeps};

use and_model::Ref;

/// What became of the wish to set a word.
#[derive(Clone, Copy, PartialEq, Eq, Debug)]
pub enum Bound {
    /// It was free, and is set now.
    Won,
    /// It was set before, to this.
    Already(Ref),
}

/// A row of words, each free or set. A word is set once, and stays so. No call takes memory.
///
/// Others may set words of the row at the same time, so that a cell which a look found free may be
/// set a moment later. What is known to be set stays known.
pub trait Cells {
    /// What tells one row from another.
    ghost Row: { Type 0 };

    /// Which row it is over.
    ghost over: { Self → Row };

    /// How many words of a row, from its beginning on, others may set too: at the same time, or before
    /// what was done with these cells is done again. What looks find free there is noted.
    ghost shared: { Row → ℕ };

    /// The program that the row is for.
    ghost program: { NamedProgram };

    /// What contracts see: how many words there are, the row where it is told, what is known of it,
    /// and what was found free.
    ghost seen: { Self → Seen };

    /// What more holds of such cells after some calls than before. An implementation names what its
    /// callers are to know of it after code that knows only this trait has worked on it.
    ghost Grew: { Self → Self → Type 0 };

    /// What the word of a cell is.
    fn look(&mut self, cell: u32) -> Ref
        requires { cell < (seen self.old).words }
        ensures over { over self.new ≡ over self.old }
        ensures grew { Grew self.old self.new }
        ensures only_reads { OnlyReads (seen self.old) (seen self.new) }
        ensures found { result ≢ Ref.Free → Finds program cell result (seen self.old) (seen self.new) }
        ensures free { result ≡ Ref.Free → Misses (shared (over self.old)) cell (seen self.old) (seen self.new) };

    /// Sets the word of a cell, if it is free.
    fn bind(&mut self, cell: u32, to: Ref) -> Bound
        requires cell { cell < (seen self.old).words }
        requires to { IsInRange program (seen self.old).words to }
        requires falls { (other : ℕ) → to ≡ Ref.Cell other → other < cell }
        requires written { IsWrittenIfNumber (seen self.old) to }
        ensures over { over self.new ≡ over self.old }
        ensures grew { Grew self.old self.new }
        ensures keeps { Keeps (seen self.old) (seen self.new) }
        ensures won { result ≡ Bound.Won → Sets cell to (seen self.old) (seen self.new) }
        ensures already { (r : Ref) → result ≡ Bound.Already r → Finds program cell r (seen self.old) (seen self.new) };

    /// Writes a number into a pair of words, as far as these are free. It answers the number that the
    /// pair holds then.
    fn write_number(&mut self, pair: u32, value: i64) -> i64
        requires { IsPairInRange (seen self.old).words pair }
        ensures over { over self.new ≡ over self.old }
        ensures grew { Grew self.old self.new }
        ensures keeps { Keeps (seen self.old) (seen self.new) }
        ensures known { IsKnownWritten (seen self.new) pair }
        ensures written { WritesNumber program pair value result (seen self.old) (seen self.new) };

    /// The number that a pair of words holds.
    fn number(&mut self, pair: u32) -> i64
        requires pair { IsPairInRange (seen self.old).words pair }
        requires written { IsKnownWritten (seen self.old) pair }
        ensures over { over self.new ≡ over self.old }
        ensures grew { Grew self.old self.new }
        ensures only_reads { OnlyReads (seen self.old) (seen self.new) }
        ensures read { ReadsNumber program pair result (seen self.old) (seen self.new) };

    /// Nothing is known twice, and a row that is told is whole.
    ghost coherent: { (cells : Self) → IsCoherent (seen cells) };

    /// No call is made.
    ghost grew_nothing: { (cells : Self) → Grew cells cells };

    /// Calls are made one after another.
    ghost grew_on: { (a b c : Self) → Grew a b → Grew b c → Grew a c };
}
