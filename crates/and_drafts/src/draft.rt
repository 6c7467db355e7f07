//! One clause as a term, given in postfix order.

ghost use Rattle.std.specs.Prelude.{◌≡◌, ◌<◌, ◌≤◌, ◌-◌, ◌^◌, ◌++◌, [], ◌∷◌, take, length, vec_len, OnOk, OnErr};
ghost use Rattle.std.proofs.Props.{props};
ghost use Rattle.and_drafts.specs.Parts.{IsFormed, AllNarrow, AllNarrow-prop, part_shapes};
ghost use Rattle.and_drafts.specs.Numbered.{met_by};
ghost use Rattle.and_drafts.specs.Variables.{HasMet, AllNumbered, AllNumbered-prop};

use crate::variables::Variables;
use and_program::ShortText;
use smallvec::SmallVec;
use std::alloc::{AllocError, Global};

/// A part of a draft: an occurrence of a variable, a number, or a name with its arguments, which
/// are parts with smaller numbers.
pub enum DraftPart {
    /// Its name, and its number by first occurrence.
    Variable(ShortText, u32),
    Integer(i64),
    Compound {
        name: ShortText,
        arguments: SmallVec<u32, 4>,
    },
}

// By hand, so that it is proved once, here.
impl Drop for DraftPart {
    fn drop(self) {
        match self {
            DraftPart::Variable(_, _) => {}
            DraftPart::Integer(_) => {}
            DraftPart::Compound {
                name: _,
                arguments: _,
            } => {}
        }
    }
}

/// One clause as a term that is given in postfix order: arguments first, then the name that takes
/// them.
pub struct ClauseDraft {
    alloc: Global,
    line: u32,
    parts: Vec<DraftPart>,
    /// The parts that are whole terms, and no arguments yet.
    finished: Vec<u32>,
    variables: Variables,
    ghost few: { vec_len parts ≤ 4294967295 },
    ghost formed: { IsFormed (part_shapes parts.items) finished.items } by { Prim.hlevel props },
    ghost narrow: { AllNarrow (part_shapes parts.items) } by { AllNarrow-prop (part_shapes parts.items) },
    ghost met: { HasMet variables (met_by [] (part_shapes parts.items)) } by { Prim.hlevel props },
    ghost numbered: { AllNumbered [] parts.items } by { AllNumbered-prop [] parts.items },
}

// By hand, so that it is proved once, here.
impl Drop for ClauseDraft {
    fn drop(self) {
        let ClauseDraft {
            alloc: _,
            line: _,
            parts: _,
            finished: _,
            variables: _,
        } = self;
    }
}

/// A part of a draft as it is read: an occurrence of a variable with its number, a number, or a
/// name with how many arguments it has, which are whole terms that end before it.
#[derive(Clone, Copy)]
pub enum Part<'a> {
    Variable { number: u32, name: &'a [u8] },
    Integer(i64),
    Compound { name: &'a [u8], count: u8 },
}

impl ClauseDraft {
    ghost use Rattle.std.specs.Prelude.{◌+◌, drop, IsTrue, ◌↔◌};
    ghost use Rattle.and_syntax.specs.Written.{variable, integer, compound};
    ghost use Rattle.and_drafts.specs.Parts.{many};
    ghost use Rattle.and_drafts.specs.Drafts.{draft_of, shapes_of, read_part, read_shape};
    ghost use Rattle.and_drafts.specs.Parts.{arguments_of};
    ghost use Rattle.and_drafts.specs.Parts;
    ghost use Rattle.std.specs.Prelude.{get_or, true, false};
    ghost use Rattle.and_syntax.specs.Written.{is_new, place};

    /// A draft of a clause whose first token is on that line. Takes no memory.
    pub fn new(alloc: Global, line: u32) -> ClauseDraft
        ensures { draft_of result ≡ record { line = line; finished = []; parts = 0 } }
    {
        ClauseDraft {
            alloc,
            line,
            parts: Vec::new(alloc),
            finished: Vec::new(alloc),
            variables: Variables::new(alloc),
        }
    }

    /// Makes it a draft of another clause, whose first token is on that line, and keeps its memory. Takes none.
    pub fn restart(&mut self, line: u32)
        ensures { draft_of self.new ≡ record { line = line; finished = []; parts = 0 } }
    {
        self.line = line;
        self.parts.clear();
        self.finished.clear();
        self.variables.clear();
    }

    /// Adds an occurrence of a variable. The name `_` is a new variable each time. An error is
    /// want of memory, and leaves the draft as it was.
    pub fn variable(&mut self, name: &[u8]) -> Result<(), AllocError>
        requires { (draft_of self.old).parts < 2 ^ 32 - 1 }
        ensures ok { let d = draft_of self.old in
            let finished = d.finished ++ variable name.now ∷ [] in
            OnOk result (draft_of self.new
            ≡ record d { finished = finished; parts = d.parts + 1 }) }
        ensures err { OnErr result (draft_of self.new ≡ draft_of self.old) }
    {
        match self.variables.find(name) {
            Some(number) => self.variable_again(name, number),
            None => self.new_variable(name),
        }
    }

    /// Adds an occurrence of a variable that was met, whose number is known.
    fn variable_again(&mut self, name: &[u8], number: u32) -> Result<(), AllocError>
        requires room { (draft_of self.old).parts < 2 ^ 32 - 1 }
        requires known { let met = met_by [] (shapes_of self.old) in
            (is_new name.now met ≡ false) × (number ≡ place name.now met) }
        ensures ok { let d = draft_of self.old in
            let finished = d.finished ++ variable name.now ∷ [] in
            OnOk result (draft_of self.new
            ≡ record d { finished = finished; parts = d.parts + 1 }) }
        ensures err { OnErr result (draft_of self.new ≡ draft_of self.old) }
    {
        let text = ShortText::of(self.alloc, name)?;
        let part = DraftPart::Variable(text, number);
        let start = self.finished.len();
        add_part(&mut self.parts, &mut self.finished, part, start)
    }

    /// Adds the first occurrence of a variable.
    fn new_variable(&mut self, name: &[u8]) -> Result<(), AllocError>
        requires room { (draft_of self.old).parts < 2 ^ 32 - 1 }
        requires new { is_new name.now (met_by [] (shapes_of self.old)) ≡ true }
        ensures ok { let d = draft_of self.old in
            let finished = d.finished ++ variable name.now ∷ [] in
            OnOk result (draft_of self.new
            ≡ record d { finished = finished; parts = d.parts + 1 }) }
        ensures err { OnErr result (draft_of self.new ≡ draft_of self.old) }
    {
        let mark = self.variables.mark();
        let text = ShortText::of(self.alloc, name)?;
        self.variables.meet(self.alloc, name)?;
        let part = DraftPart::Variable(text, mark.count);
        let start = self.finished.len();
        match add_part(&mut self.parts, &mut self.finished, part, start) {
            Ok(()) => Ok(()),
            Err(refused) => {
                self.variables.cut(mark);
                Err(refused)
            }
        }
    }

    /// Adds an integer. An error is want of memory, and leaves the draft as it was.
    pub fn integer(&mut self, value: i64) -> Result<(), AllocError>
        requires { (draft_of self.old).parts < 2 ^ 32 - 1 }
        ensures ok { let d = draft_of self.old in
            let finished = d.finished ++ integer value ∷ [] in
            OnOk result (draft_of self.new
            ≡ record d { finished = finished; parts = d.parts + 1 }) }
        ensures err { OnErr result (draft_of self.new ≡ draft_of self.old) }
    {
        let start = self.finished.len();
        add_part(
            &mut self.parts,
            &mut self.finished,
            DraftPart::Integer(value),
            start,
        )
    }

    /// Makes the last `count` finished terms, in order, the arguments of a name. An error is want
    /// of memory, and leaves the draft as it was.
    pub fn compound(&mut self, name: &[u8], count: u8) -> Result<(), AllocError>
        requires there { count ≤ length (draft_of self.old).finished }
        requires room { (draft_of self.old).parts < 2 ^ 32 - 1 }
        ensures ok { let d = draft_of self.old in let before = length d.finished - count in
            let term = compound name.now (many (drop before d.finished)) in
            OnOk result (draft_of self.new
            ≡ record d { finished = take before d.finished ++ term ∷ []; parts = d.parts + 1 }) }
        ensures err { OnErr result (draft_of self.new ≡ draft_of self.old) }
    {
        let start = self.finished.len() - count as usize;
        let name = ShortText::of(self.alloc, name)?;
        let arguments = SmallVec::from_slice(self.alloc, &self.finished[start..])?;
        let part = DraftPart::Compound { name, arguments };
        add_part(&mut self.parts, &mut self.finished, part, start)
    }

    /// Whether no part can be added, since there are 2^32 - 1. Takes no memory.
    pub fn is_full(&self) -> bool
        ensures { IsTrue result ↔ (2 ^ 32 - 1 ≤ (draft_of self.now).parts) }
    {
        self.parts.len() >= u32::MAX as usize
    }

    /// Whether exactly one finished term is there. Takes no memory.
    pub fn is_whole(&self) -> bool
        ensures { IsTrue result ↔ (length (draft_of self.now).finished ≡ 1) }
    {
        self.finished.len() == 1
    }

    /// The line that `new` was given. Takes no memory.
    pub fn line(&self) -> u32
        ensures { result ≡ (draft_of self.now).line }
    {
        self.line
    }

    /// How many parts there are. Takes no memory.
    pub fn part_count(&self) -> u32
        ensures { result ≡ (draft_of self.now).parts }
    {
        self.parts.len() as u32
    }

    /// The parts, in postfix order. Takes no memory.
    pub fn parts(&self) -> &[DraftPart]
        ensures value { result.now ≡ self.now.parts.items }
    {
        self.parts.as_slice()
    }

    /// The part of that number, in postfix order. Takes no memory.
    pub fn part(&self, place: u32) -> Part<'_>
        requires { place < (draft_of self.now).parts }
        ensures { let shapes = shapes_of self.now in
            let met = met_by [] (take place shapes) in
            read_part result ≡ read_shape met (get_or shapes place (Parts.variable [])) }
    {
        match &self.parts[place as usize] {
            DraftPart::Variable(name, number) => Part::Variable {
                number: *number,
                name: name.bytes(),
            },
            DraftPart::Integer(value) => Part::Integer(*value),
            DraftPart::Compound { name, arguments } => Part::Compound {
                name: name.bytes(),
                count: arguments.len() as u8,
            },
        }
    }

    /// The parts that are the arguments of that one. Takes no memory.
    pub fn arguments(&self, place: u32) -> &[u32]
        requires { place < (draft_of self.now).parts }
        ensures { result.now ≡ arguments_of (get_or (shapes_of self.now) place (Parts.variable [])) }
    {
        match &self.parts[place as usize] {
            DraftPart::Compound { name: _, arguments } => arguments.as_slice(),
            DraftPart::Variable(_, _) => &[],
            DraftPart::Integer(_) => &[],
        }
    }

    /// How many variables were met. Takes no memory.
    pub fn variable_count(&self) -> usize
        ensures { result ≡ length (met_by [] (part_shapes self.now.parts.items)) }
    {
        self.variables.count as usize
    }

    /// The one finished term, a part. Takes no memory.
    pub fn root(&self) -> u32
        requires { length (draft_of self.now).finished ≡ 1 }
        ensures there { result < length self.now.parts.items }
        ensures root { self.now.finished.items ≡ result ∷ [] }
    {
        self.finished[0]
    }
}

/// Adds a part, to which the finished terms from `start` on belong, as the last finished term. An
/// error is want of memory, and leaves both lists as they were.
#[inline(always)]
fn add_part(
    parts: &mut Vec<DraftPart>,
    finished: &mut Vec<u32>,
    part: DraftPart,
    start: usize,
) -> Result<(), AllocError>
    requires start { start ≤ length finished.old.items }
    requires room { length parts.old.items < 2 ^ 32 - 1 }
    ensures parts { OnOk result (parts.new.items ≡ parts.old.items ++ part ∷ []) }
    ensures finished { OnOk result (finished.new.items
        ≡ take start finished.old.items ++ length parts.old.items ∷ []) }
    ensures parts_kept { OnErr result (parts.new.items ≡ parts.old.items) }
    ensures finished_kept { OnErr result (finished.new.items ≡ finished.old.items) }
{
    let number = parts.len() as u32;
    parts.reserve(1)?;
    if start < finished.len() {
        finished[start] = number;
        finished.truncate(start + 1);
    } else {
        finished.push(number)?;
    }
    parts.push_reserved(part);
    Ok(())
}
