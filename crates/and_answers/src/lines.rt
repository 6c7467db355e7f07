//! Lines, each kept as what it has behind the one before it.

ghost use Rattle.std.specs.Prelude.{◌≡◌, ◌<◌, ◌≤◌, [], ◌∷◌, ◌++◌, length, take, drop, get_or, OnOk, OnErr, IfOk, IfErr};
ghost use Rattle.std.specs.Prelude.{IfSome};
ghost use Rattle.and_answers.specs.LinePieces.{BeginsWhole, last_line_from, line_behind, lines_from};
ghost use Rattle.and_answers.specs.declared.piece.LinePiece.{LinePiece};

use crate::piece::LinePiece;
use and_model::Text;
use std::alloc::{AllocError, Global};
use std::marker::Model;

/// Lines of no more bytes are kept whole.
const SHORT: usize = 64;

/// How many bytes a piece counts for beside its own.
const A_PIECE: usize = 32;

/// Lines in the order in which they came. A long one is kept as what it has behind the one before it, which is little
/// where answers come as a search finds them. From time to time one is kept whole, so that each is told from pieces
/// that are no longer than it is, by a factor.
pub struct LineList {
    pieces: Vec<LinePiece>,
    /// The last line; `None` where the next one is to be kept whole.
    last: Option<Text>,
    /// What the pieces count for from the last one on that is kept whole.
    counted: usize,
}

// By hand, so that it is proved once, here.
impl Drop for LineList {
    fn drop(self) {
        let LineList {
            pieces: _,
            last: _,
            counted: _,
        } = self;
    }
}

impl Model for LineList {
    ghost use Rattle.std.specs.Prelude.{List, []};
    ghost use Rattle.and_model.specs.Lines.{Bytes};
    ghost use Rattle.and_answers.specs.LinePieces.{lines_from, BeginsWhole, IsLastLine};

    ghost Value = { List Bytes };

    ghost view = { λ list. lines_from [] list.pieces.items };

    ghost invariant = { λ list. IsLastLine list.pieces.items list.last × BeginsWhole list.pieces.items };
}

impl LineList {
    /// No lines. Takes no memory.
    pub fn new(alloc: Global) -> LineList
        ensures { result ≡ [] }
    {
        LineList {
            pieces: Vec::new(alloc),
            last: None,
            counted: 0,
        }
    }

    /// How many lines there are. Takes no memory.
    pub fn len(&self) -> usize
        ensures { result ≡ length self.now }
    {
        self.pieces.len()
    }

    /// Puts a line behind the others. An error is want of memory, and hands the line back.
    pub fn push(&mut self, line: Text) -> Result<(), Text>
        ensures ok { OnOk result (self.new ≡ self.old ++ line ∷ []) }
        ensures unchanged { OnErr result (self.new ≡ self.old) }
        ensures given_back { IfErr result (λ back. back ≡ line) }
    {
        let Some(last) = self.last.take() else {
            return self.push_whole(line);
        };
        if self.counted / 2 >= line.len() {
            return self.push_whole(line);
        }
        let Ok(piece) = piece_behind(*self.pieces.allocator(), &last, &line) else {
            return Err(line);
        };
        self.counted = counted_with(self.counted, piece.rest.len());
        match self.pieces.push(piece) {
            Ok(()) => {
                self.last = Some(line);
                Ok(())
            }
            Err(_) => Err(line),
        }
    }

    /// Puts a line behind the others, which has nothing from the one before it. An error is want of memory, and hands
    /// the line back.
    fn push_whole(&mut self, line: Text) -> Result<(), Text>
        ensures ok { OnOk result (self.new ≡ self.old ++ line ∷ []) }
        ensures unchanged { OnErr result (self.new ≡ self.old) }
        ensures given_back { IfErr result (λ back. back ≡ line) }
    {
        let last = copy_of_long(*self.pieces.allocator(), &line);
        self.counted = counted_with(0, line.len());
        match self.pieces.push(LinePiece {
            common: 0,
            rest: line,
        }) {
            Ok(()) => {
                self.last = last;
                Ok(())
            }
            Err(refused) => {
                let LinePiece { common: _, rest } = refused.value;
                Err(rest)
            }
        }
    }

    /// Those of both, the others behind. An error is want of memory, and hands both back.
    pub fn joined(self, other: LineList) -> Result<LineList, (LineList, LineList)>
        ensures ok { IfOk result (λ both. both ≡ self ++ other) }
        ensures given_back { IfErr result (λ back. (back.0 ≡ self) × (back.1 ≡ other)) }
    {
        let LineList {
            mut pieces,
            last,
            counted,
        } = self;
        let LineList {
            pieces: mut others,
            last: other_last,
            counted: other_counted,
        } = other;
        match pieces.append(&mut others) {
            Ok(()) => Ok(LineList {
                pieces,
                last: None,
                counted: 0,
            }),
            Err(AllocError) => Err((
                LineList {
                    pieces,
                    last,
                    counted,
                },
                LineList {
                    pieces: others,
                    last: other_last,
                    counted: other_counted,
                },
            )),
        }
    }

    /// Puts the line at a place, counted from 0, at the end of a text. After want of memory the text is spent.
    pub fn write(&self, text: &mut Text, place: usize) -> Result<(), AllocError>
        requires { place < length self.now }
        ensures { OnOk result (text.new ≡ text.old ++ get_or self.now place []) }
    {
        write_piece(*self.pieces.allocator(), text, &self.pieces, place)?;
        Ok(())
    }
}

/// What pieces count for with one more, of so many bytes of its own.
fn counted_with(counted: usize, bytes: usize) -> usize {
    counted.saturating_add(bytes).saturating_add(A_PIECE)
}

/// A copy of a line, where it is long and there is memory for it.
fn copy_of_long(alloc: Global, line: &Text) -> Option<Text>
    ensures { IfSome result (λ copy. copy ≡ line.now) }
{
    if line.len() <= SHORT {
        return None;
    }
    Text::of(alloc, line.bytes()).ok()
}

/// What a line has behind another one. An error is want of memory.
fn piece_behind(alloc: Global, last: &Text, line: &Text) -> Result<LinePiece, AllocError>
    ensures line { IfOk result (λ piece. line_behind last.now piece ≡ line.now) }
    ensures within { IfOk result (λ piece. piece.common ≤ length last.now) }
{
    let old = last.bytes();
    let new = line.bytes();
    let common = bytes_in_common(old, new);
    let rest = Text::of(alloc, &new[common..])?;
    Ok(LinePiece { common, rest })
}

/// With how many bytes two lines begin alike. Takes no memory.
fn bytes_in_common(one: &[u8], other: &[u8]) -> usize
    ensures within_one { result ≤ length one.now }
    ensures within_other { result ≤ length other.now }
    ensures same { take result one.now ≡ take result other.now }
{
    for count in 0..one.len() {
        if count == other.len() {
            return count;
        }
        if one[count] != other[count] {
            return count;
        }
    }
    one.len()
}

/// The last piece up to this place that is kept whole. Takes no memory.
fn whole_before(pieces: &[LinePiece], place: usize) -> usize
    requires within { place < length pieces.now }
    requires begins { BeginsWhole pieces.now }
    ensures before { result ≤ place }
    ensures whole { (d : LinePiece) → (get_or pieces.now result d).common ≡ 0 }
{
    for back in 0..place {
        let first = place - back;
        if pieces[first].common == 0 {
            return first;
        }
    }
    0
}

/// Puts the line of a piece at the end of a text. After want of memory the text is spent.
fn write_piece(
    alloc: Global,
    text: &mut Text,
    pieces: &[LinePiece],
    place: usize,
) -> Result<(), AllocError>
    requires within { place < length pieces.now }
    requires begins { BeginsWhole pieces.now }
    ensures { OnOk result (text.new ≡ text.old ++ get_or (lines_from [] pieces.now) place []) }
{
    let first = whole_before(pieces, place);
    let whole = pieces[first].rest.bytes();
    if first == place {
        text.append(whole)?;
        return Ok(());
    }
    let line = told(alloc, whole, between(pieces, first + 1, place + 1))?;
    text.append(&line)?;
    Ok(())
}

/// The pieces from one place up to another one.
fn between(pieces: &[LinePiece], from: usize, to: usize) -> &[LinePiece]
    requires within { to ≤ length pieces.now }
    requires order { from ≤ to }
    ensures { result.now ≡ drop from (take to pieces.now) }
{
    let front = &pieces[..to];
    &front[from..]
}

/// The line of the last of these pieces, of which the first stands behind a line that is kept whole. An error is want
/// of memory.
fn told(alloc: Global, whole: &[u8], pieces: &[LinePiece]) -> Result<Vec<u8>, AllocError>
    ensures { IfOk result (λ line. line.items ≡ last_line_from whole.now pieces.now) }
{
    let mut line = Vec::from_slice(alloc, whole)?;
    for piece in pieces {
        line.truncate(piece.common);
        line.extend_from_slice(piece.rest.bytes())?;
    }
    Ok(line)
}
