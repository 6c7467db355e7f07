//! What the words of a row that was closed name.

ghost use Rattle.std.specs.Prelude.{◌≡◌, ◌≢◌, ◌<◌, ◌≤◌, ◌+◌, ◌++◌, ℕ, suc, true, false, length, Ok, All, Contains};
ghost use Rattle.std.specs.Prelude.{IfOk, IfSome, OnOk, map};
ghost use Rattle.and_model.specs.declared.limits.TheConstants.{MAX_WORDS};
ghost use Rattle.and_model.specs.declared.reference.Ref.{Ref};
ghost use Rattle.and_program.specs.Loaded.{program_of, skeleton_of, arguments_at};
ghost use Rattle.and_program.specs.Shown.{argument_of};
ghost use Rattle.and_program.specs.Skeletons.{node_term};
ghost use Rattle.and_model.specs.Programs.{clause_at};
ghost use Rattle.and_model.specs.Store.{is_half};
ghost use Rattle.and_model.specs.declared.goal.Frame.{Frame};
ghost use Rattle.and_cells.specs.Parts.{named};
ghost use Rattle.and_cells.specs.Ranges.{CanHold, IsInRange};
ghost use Rattle.and_cells.specs.Rows.{plain};
ghost use Rattle.and_cells.specs.Seen.{word_at, IsWrittenIfNumber};
ghost use Rattle.and_unify.specs.Pairs.{AreInRange};
ghost use Rattle.and_row_check.specs.Places.{AreBelow, ArePairsWhole, AreSpans, IsInPlace, IsVariableCell};
ghost use Rattle.and_row_check.specs.Places.{IsVariableOf, IsWhole, IsWholeFrame, NamesVariables, all_frames, frame_of};

use and_cells::LooseCells;
use and_model::{ClauseNo, Frame, NodeNo, ReductionList, Ref};
use and_program::{Loaded, NodeKind};
use and_unify::PairList;
use std::alloc::{AllocError, Global};
use std::marker::Model;

/// Bounds of the variables under nodes, for the nodes from 0 on.
#[derive(Drop)]
pub(crate) struct Spans {
    spans: Vec<u32>,
}

impl Spans {
    /// Nothing is known yet. Takes no memory.
    pub(crate) fn new(alloc: Global) -> Spans
        ensures { length result.spans.items ≡ 0 }
    {
        Spans {
            spans: Vec::new(alloc),
        }
    }

    /// A number above those of all variables under a node. An error is want of memory.
    pub(crate) fn of_node(&mut self, loaded: &Loaded, node: NodeNo) -> Result<u32, AllocError>
        requires there { node.0 < length (skeleton_of loaded.now).nodes }
        requires spans { AreSpans (skeleton_of loaded.now).nodes self.old.spans.items }
        ensures spans { AreSpans (skeleton_of loaded.now).nodes self.new.spans.items }
        ensures below { IfOk result (λ span. AreBelow span (node_term (skeleton_of loaded.now).nodes node.0)) }
    {
        while self.spans.len() <= node.0 as usize {
            let span = self.next(loaded, node);
            self.spans.push(span)?;
        }
        Ok(self.spans[node.0 as usize])
    }

    /// The bound of the next node, which is not behind this one.
    fn next(&self, loaded: &Loaded, last: NodeNo) -> u32
        requires there { last.0 < length (skeleton_of loaded.now).nodes }
        requires spans { AreSpans (skeleton_of loaded.now).nodes self.now.spans.items }
        requires next { length self.now.spans.items ≤ last.0 }
        ensures { AreBelow result (node_term (skeleton_of loaded.now).nodes (length self.now.spans.items)) }
    {
        let node = NodeNo(self.spans.len() as u32);
        match loaded.kind(node) {
            NodeKind::Variable(number) => u32::from(number) + 1,
            NodeKind::Number(_) => 0,
            NodeKind::Compound { name: _, count } => self.most(loaded, node, count),
        }
    }

    /// The largest bound of a node's arguments.
    fn most(&self, loaded: &Loaded, node: NodeNo, count: u8) -> u32
        requires there { node.0 < length (skeleton_of loaded.now).nodes }
        requires spans { AreSpans (skeleton_of loaded.now).nodes self.now.spans.items }
        requires next { node.0 ≤ length self.now.spans.items }
        requires count { count ≡ length (arguments_at (skeleton_of loaded.now) node.0) }
        ensures { (k : ℕ) → k < count
            → AreBelow result (argument_of (node_term (skeleton_of loaded.now).nodes node.0) k) }
    {
        let mut most: u32 = 0;
        for place in 0..count {
            let argument = loaded.argument(node, place);
            most = larger(most, self.spans[argument.0 as usize]);
        }
        most
    }
}

/// The larger of two numbers.
fn larger(a: u32, b: u32) -> u32
    ensures first { a ≤ result }
    ensures second { b ≤ result }
{
    if a < b { b } else { a }
}

/// The frames of a tree. Contracts see them as a list.
pub struct Frames {
    frames: Vec<Frame>,
    /// For each cell how many frames the list has up to the one that the cell lies in; 0 where it lies in none.
    /// (Nothing rests on these.)
    homes: Vec<u32>,
}

// By hand, so that it is proved once, here.
impl Drop for Frames {
    fn drop(self) {
        let Frames {
            frames: _,
            homes: _,
        } = self;
    }
}

impl Model for Frames {
    ghost use Rattle.std.specs.Prelude.{List};
    ghost use Rattle.and_model.specs.declared.goal.Frame.{Frame};

    ghost Value = { List Frame };

    ghost view = { λ frames. frames.frames.items };
}

impl Frames {
    /// The frames, in the order of their reductions. Takes no memory.
    fn as_slice(&self) -> &[Frame]
        ensures { result.now ≡ self.now }
    {
        &self.frames
    }

    /// The frame in which a cell lies.
    fn at(&self, cell: u32) -> Option<Frame>
        ensures { IfSome result (λ f. Contains self.now f) }
    {
        let cell = cell as usize;
        if cell >= self.homes.len() {
            return None;
        }
        let number = self.homes[cell] as usize;
        if number == 0 || number > self.frames.len() {
            return None;
        }
        Some(self.frames[number - 1])
    }
}

/// The frames of a tree over a row of so many words. An error is want of memory.
pub fn frames_of(
    alloc: Global,
    loaded: &Loaded,
    opening: &ReductionList,
    made: &ReductionList,
    words: usize,
) -> Result<Frames, AllocError>
    ensures { IfOk result (λ frames. frames ≡ all_frames (opening.now ++ made.now)) }
{
    let mut frames = Vec::new(alloc);
    frames.push(Frame {
        base: 0,
        clause: ClauseNo(0),
    })?;
    add_frames(&mut frames, opening)?;
    add_frames(&mut frames, made)?;
    let homes = homes_of(alloc, loaded, &frames, words)?;
    Ok(Frames { frames, homes })
}

/// Puts the frames of reductions behind others. An error is want of memory.
fn add_frames(frames: &mut Vec<Frame>, reductions: &ReductionList) -> Result<(), AllocError>
    ensures { OnOk result (frames.new.items ≡ frames.old.items ++ map frame_of reductions.now) }
{
    for place in 0..reductions.len() {
        let reduction = *reductions.at(place);
        frames.push(Frame {
            base: reduction.node,
            clause: reduction.clause,
        })?;
    }
    Ok(())
}

/// For each cell of a row of so many words, which of these frames it lies in. An error is want of memory.
fn homes_of(
    alloc: Global,
    loaded: &Loaded,
    frames: &[Frame],
    words: usize,
) -> Result<Vec<u32>, AllocError> {
    let mut homes = Vec::new(alloc);
    homes.resize(words, 0)?;
    for place in 0..frames.len() {
        note_home(loaded, frames[place], place, &mut homes);
    }
    Ok(homes)
}

/// Notes at the cells of a frame's variables that they lie in it, which has so many frames before it.
fn note_home(loaded: &Loaded, frame: Frame, before: usize, homes: &mut Vec<u32>) {
    let Ok(before) = u32::try_from(before) else {
        return;
    };
    if frame.clause.0 as u32 > loaded.clause_count() {
        return;
    }
    let end = frame.base as usize + 1 + loaded.variables(frame.clause) as usize;
    if end > homes.len() {
        return;
    }
    for cell in frame.base as usize..end {
        homes[cell] = before.saturating_add(1);
    }
}

/// Whether a cell is that of a variable of a frame's clause.
fn is_variable_of(loaded: &Loaded, frame: Frame, cell: u32) -> bool
    ensures { result ≡ true → IsVariableOf (program_of loaded.now) frame cell }
{
    if frame.clause.0 as u32 > loaded.clause_count() || cell <= frame.base {
        return false;
    }
    cell - frame.base - 1 < u32::from(loaded.variables(frame.clause))
}

/// Whether a cell is that of a variable of one of these frames.
fn is_variable_cell(loaded: &Loaded, frames: &Frames, cell: u32) -> bool
    ensures { result ≡ true → IsVariableCell (program_of loaded.now) frames.now cell }
{
    match frames.at(cell) {
        Some(frame) => is_variable_of(loaded, frame, cell),
        None => false,
    }
}

/// Whether all variables below that number have cells in the frame that begins there.
fn is_frame_of(loaded: &Loaded, frames: &Frames, base: u32, span: u32) -> bool
    ensures { result ≡ true → (k : ℕ) → k < span → IsVariableCell (program_of loaded.now) frames.now (base + 1 + k) }
{
    match frames.at(base) {
        Some(frame) => {
            if frame.clause.0 as u32 > loaded.clause_count() || frame.base != base {
                return false;
            }
            span <= u32::from(loaded.variables(frame.clause))
        }
        None => false,
    }
}

/// Whether no cell of a variable of a frame's clause is a word of a pair, and all of them are among the words.
fn is_whole_frame(loaded: &Loaded, cells: &LooseCells, frame: Frame) -> bool
    ensures { result ≡ true → IsWholeFrame (program_of loaded.now) cells.now frame }
{
    if frame.clause.0 as u32 > loaded.clause_count() {
        return false;
    }
    for variable in 0..loaded.variables(frame.clause) {
        if !is_whole_cell(cells, frame.base as usize + 1 + variable as usize) {
            return false;
        }
    }
    true
}

/// Whether a place is among the words, and its word is none of a pair.
fn is_whole_cell(cells: &LooseCells, place: usize) -> bool
    ensures { result ≡ true → is_half (word_at cells.now place) ≡ false }
{
    if place >= cells.len() {
        return false;
    }
    match cells.word(place) {
        Ref::Half(_) => false,
        Ref::Free => true,
        Ref::Cell(_) => true,
        Ref::Number(_) => true,
        Ref::Node { .. } => true,
    }
}

/// Whether all these frames are whole.
fn are_whole_frames(loaded: &Loaded, cells: &LooseCells, frames: &[Frame]) -> bool
    ensures { result ≡ true → All (IsWholeFrame (program_of loaded.now) cells.now) frames.now }
{
    for frame in frames {
        if !is_whole_frame(loaded, cells, *frame) {
            return false;
        }
    }
    true
}

/// Whether both words of a pair are set.
fn is_written(cells: &LooseCells, pair: usize) -> bool
    ensures first { result ≡ true → word_at cells.now pair ≢ Ref.Free }
    ensures second { result ≡ true → word_at cells.now (suc pair) ≢ Ref.Free }
    ensures within { result ≡ true → suc pair < length cells.now }
{
    if pair >= cells.len() || pair + 1 >= cells.len() {
        return false;
    }
    is_set(cells, pair) && is_set(cells, pair + 1)
}

/// Whether the word at a place is set.
fn is_set(cells: &LooseCells, place: usize) -> bool
    requires { place < length cells.now }
    ensures { result ≡ true → word_at cells.now place ≢ Ref.Free }
{
    match cells.word(place) {
        Ref::Free => false,
        Ref::Half(_) => true,
        Ref::Cell(_) => true,
        Ref::Number(_) => true,
        Ref::Node { .. } => true,
    }
}

/// Whether the word at a place, which may stand there in a longer row, may do so in this one: what it names is among
/// the words, and a number is written. An error is want of memory.
fn may_stand(
    loaded: &Loaded,
    spans: &mut Spans,
    cells: &LooseCells,
    place: usize,
) -> Result<bool, AllocError>
    requires place { place < length cells.now }
    requires fits { (words : ℕ) × CanHold (named loaded.now) words place (word_at cells.now place) }
    requires spans { AreSpans (skeleton_of loaded.now).nodes spans.old.spans.items }
    ensures spans { AreSpans (skeleton_of loaded.now).nodes spans.new.spans.items }
    ensures stands { result ≡ Ok true → CanHold (named loaded.now) (length cells.now) place (word_at cells.now place) }
    ensures written { result ≡ Ok true → (pair : ℕ) → word_at cells.now place ≡ Ref.Number pair
        → (word_at cells.now pair ≢ Ref.Free) × (word_at cells.now (suc pair) ≢ Ref.Free) }
{
    match cells.word(place) {
        Ref::Free => Ok(true),
        Ref::Half(_) => Ok(true),
        Ref::Cell(cell) => Ok((cell as usize) < place),
        Ref::Number(pair) => Ok(is_written(cells, pair as usize)),
        Ref::Node { node, base } => {
            let span = spans.of_node(loaded, node)?;
            Ok(base as usize + 1 + span as usize <= cells.len())
        }
    }
}

/// Whether a word may stand at a place: one that is set, and no half, has to stand in a variable's cell, and to name
/// such cells alone. An error is want of memory.
fn is_in_place(
    loaded: &Loaded,
    spans: &mut Spans,
    frames: &Frames,
    place: u32,
    word: Ref,
) -> Result<bool, AllocError>
    requires fits { (words : ℕ) × CanHold (named loaded.now) words place word }
    requires spans { AreSpans (skeleton_of loaded.now).nodes spans.old.spans.items }
    ensures spans { AreSpans (skeleton_of loaded.now).nodes spans.new.spans.items }
    ensures in_place { result ≡ Ok true → IsInPlace (named loaded.now) frames.now place word }
{
    match word {
        Ref::Free => Ok(true),
        Ref::Half(_) => Ok(true),
        Ref::Number(_) => Ok(is_variable_cell(loaded, frames, place)),
        Ref::Cell(cell) => Ok(
            is_variable_cell(loaded, frames, place) && is_variable_cell(loaded, frames, cell),
        ),
        Ref::Node { node, base } => {
            let span = spans.of_node(loaded, node)?;
            Ok(is_variable_cell(loaded, frames, place) && is_frame_of(loaded, frames, base, span))
        }
    }
}

/// Whether a row is sound, these frames are whole, and each word is in its place. Each word and each frame is looked
/// at once, and each node of the program at most once. An error is want of memory.
pub fn is_whole(
    alloc: Global,
    loaded: &Loaded,
    frames: &Frames,
    cells: &LooseCells,
) -> Result<bool, AllocError>
    requires fits { (words : ℕ) × ((place : ℕ) → CanHold (named loaded.now) words place (word_at cells.now place)) }
    requires short { length cells.now ≤ MAX_WORDS }
    ensures { result ≡ Ok true → IsWhole (named loaded.now) frames.now cells.now }
{
    if !are_whole_frames(loaded, cells, frames.as_slice()) {
        return Ok(false);
    }
    let mut spans = Spans::new(alloc);
    for place in 0..cells.len() {
        if !may_stand(loaded, &mut spans, cells, place)?
            || !is_in_place(loaded, &mut spans, frames, place as u32, cells.word(place))?
        {
            return Ok(false);
        }
    }
    Ok(true)
}

/// Whether a side of a pair, which is in range of a longer row, is so of this one, names cells of variables alone,
/// and is written if it is a number. An error is want of memory.
fn is_side_whole(
    loaded: &Loaded,
    spans: &mut Spans,
    frames: &Frames,
    cells: &LooseCells,
    side: Ref,
) -> Result<bool, AllocError>
    requires in_range { (words : ℕ) × IsInRange (named loaded.now) words side }
    requires spans { AreSpans (skeleton_of loaded.now).nodes spans.old.spans.items }
    ensures spans { AreSpans (skeleton_of loaded.now).nodes spans.new.spans.items }
    ensures in_range { result ≡ Ok true → IsInRange (named loaded.now) (length cells.now) side }
    ensures names { result ≡ Ok true → NamesVariables (named loaded.now) frames.now side }
    ensures written { result ≡ Ok true → IsWrittenIfNumber (plain cells.now) side }
{
    match side {
        Ref::Free => Ok(false),
        Ref::Half(_) => Ok(false),
        Ref::Number(pair) => Ok(is_written(cells, pair as usize)),
        Ref::Cell(cell) => {
            Ok((cell as usize) < cells.len() && is_variable_cell(loaded, frames, cell))
        }
        Ref::Node { node, base } => {
            let span = spans.of_node(loaded, node)?;
            Ok(
                base as usize + 1 + span as usize <= cells.len()
                    && is_frame_of(loaded, frames, base, span),
            )
        }
    }
}

/// Whether both sides of each pair are so. Each pair is looked at once, and each node of the program at most once. An
/// error is want of memory.
pub fn are_pairs_whole(
    alloc: Global,
    loaded: &Loaded,
    frames: &Frames,
    cells: &LooseCells,
    pairs: &PairList,
) -> Result<bool, AllocError>
    requires in_range { (words : ℕ) × AreInRange (named loaded.now) words pairs.now }
    ensures { result ≡ Ok true → ArePairsWhole (named loaded.now) frames.now cells.now pairs.now }
{
    let mut spans = Spans::new(alloc);
    for place in 0..pairs.len() {
        let pair = *pairs.at(place);
        if !is_side_whole(loaded, &mut spans, frames, cells, pair.left)?
            || !is_side_whole(loaded, &mut spans, frames, cells, pair.right)?
        {
            return Ok(false);
        }
    }
    Ok(true)
}
