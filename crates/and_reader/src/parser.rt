//! A clause, read word by word.

ghost use Rattle.std.specs.Prelude.{◌≡◌, ◌+◌, ◌<◌, [], List, Some, ◌≤◌, pos, neg_ℤ, ◌∷◌, length};
ghost use Rattle.std.specs.Prelude.{reverse, None, nat_le, Bool, OnOk, false};
ghost use Rattle.and_syntax.specs.Written.{compound, none, variable, integer, Written};
ghost use Rattle.and_automaton.specs.Machine.{State, Outermost, start, inside, opened_list};
ghost use Rattle.and_automaton.specs.Machine.{operand, depth, wanted, nothing_pending};
ghost use Rattle.and_automaton.specs.Machine.{operand_exceeds};
ghost use Rattle.and_automaton.specs.Machine.{list};
ghost use Rattle.and_drafts.specs.Drafts.{draft_of};
ghost use Rattle.and_reader.specs.Views.{word_of, name_of, before_of};
ghost use Rattle.and_reader.specs.Standing.{IsState, IsFit, Answers, Stands, StandsFirst, terms};
ghost use Rattle.and_reader.specs.Standing.{part_of, bracket_of, IsFrame, AreFrames, waiting};
ghost use Rattle.and_reader.specs.Answered.{IsBefore, Answered};
ghost use Rattle.and_language.specs.Words as words;
ghost use Rattle.and_automaton.specs.Machine as machine;
ghost use Rattle.and_model.specs.declared.limits.TheConstants.{MAX_NESTING};

use crate::emitting::finish;
use crate::refusal::Cause;
use crate::state::{Bracket, ClausePart, Frame, Mode, NOTHING, Next, Pending};
use crate::words::{Before, First, Name, Word, closes_list, is_behind, is_reserved, start_of};
use and_clauses::{ClauseDraft, What};
use and_model::limits::MAX_NESTING;
use std::alloc::{AllocError, Global};
use std::mem;

/// The largest integer that is no negative numeral.
const LARGEST: u64 = 9_223_372_036_854_775_807;

/// A clause that is read word by word.
#[derive(Drop)]
pub(crate) struct Parser<'a> {
    pub draft: ClauseDraft,
    pub part: ClausePart,
    /// How many alternatives stand before the last semicolon outside of brackets.
    pub alternatives: usize,
    /// How many terms stand since then and before the last comma.
    pub before: usize,
    /// The open brackets, the innermost last.
    pub frames: Vec<Frame<'a>>,
    pub pending: Pending<'a>,
    pub mode: Mode<'a>,
    /// How many brackets, and prefix minuses before them, are open.
    pub depth: u32,
}

impl<'a> Parser<'a> {
    /// No word of the clause is read. Its first token is on that line.
    pub(crate) fn new(alloc: Global, line: u32) -> Parser<'a>
        ensures state { IsState result start }
        ensures line { (draft_of result.draft).line ≡ line }
    {
        Parser {
            draft: ClauseDraft::new(alloc, line),
            part: ClausePart::Head,
            alternatives: 0,
            before: 0,
            frames: Vec::new(alloc),
            pending: NOTHING,
            mode: Mode::Start,
            depth: 0,
        }
    }

    /// No word of another clause is read, whose first token is on that line. It keeps its memory.
    pub(crate) fn restart(&mut self, line: u32)
        ensures state { IsState self.new start }
        ensures line { (draft_of self.new.draft).line ≡ line }
    {
        self.draft.restart(line);
        self.part = ClausePart::Head;
        self.alternatives = 0;
        self.before = 0;
        self.frames.clear();
        self.pending = NOTHING;
        self.mode = Mode::Start;
        self.depth = 0;
    }

    // Words where an operand is wanted.

    /// Whether so many brackets and prefix minuses are open that there may be no more.
    pub(crate) fn is_deep(&self) -> bool
        requires { self.now.pending.minuses + self.now.depth ≤ MAX_NESTING }
        ensures { result ≡ nat_le MAX_NESTING (self.now.pending.minuses + self.now.depth) }
    {
        self.pending.minuses + self.depth >= MAX_NESTING
    }

    /// Goes on behind the bracket, comma, semicolon or bar of a frame, which becomes the innermost.
    pub(crate) fn enter(&mut self, frame: Frame<'a>) -> Result<(), AllocError>
        ensures ok { (l : Outermost) (fs : List machine.Frame) (f : machine.Frame)
            → self.old.part ≡ part_of l.part → self.old.alternatives ≡ length l.alternatives
            → self.old.before ≡ length l.before
            → AreFrames (reverse self.old.frames.items) fs → IsFrame frame.entry f
            → self.old.depth ≡ depth (f ∷ fs) → depth (f ∷ fs) ≤ MAX_NESTING
            → terms self.old.draft ≡ waiting l (f ∷ fs)
            → OnOk result (IsState self.new (inside l (f ∷ fs) nothing_pending wanted)) }
        ensures line { (draft_of self.new.draft).line ≡ (draft_of self.old.draft).line }
    {
        if self.frames.push(frame).is_err() {
            return Err(AllocError);
        }
        self.pending = NOTHING;
        self.mode = Mode::Wanted;
        Ok(())
    }

    /// Opens a bracket where an operand is wanted.
    pub(crate) fn open(&mut self, bracket: Bracket<'a>) -> Result<(), AllocError>
        requires { self.old.pending.minuses + self.old.depth < MAX_NESTING }
        ensures ok { (l : Outermost) (fs : List machine.Frame) (p : machine.Pending)
            → Stands self.old l fs p []
            → let b = bracket_of bracket.entry [] in
            let f : machine.Frame = record { bracket = b; before = []; outside = p } in
            OnOk result (IsState self.new (inside l (f ∷ fs) nothing_pending wanted)) }
        ensures line { (draft_of self.new.draft).line ≡ (draft_of self.old.draft).line }
    {
        let outside = self.pending;
        self.depth += outside.minuses + 1;
        self.enter(Frame {
            bracket,
            alternatives: 0,
            before: 0,
            outside,
        })
    }

    /// Finishes an integer as an operand.
    fn put_integer(&mut self, value: i64) -> Result<(), AllocError>
        ensures ok { (l : Outermost) (fs : List machine.Frame) (p : machine.Pending)
            → Stands self.old l fs p []
            → OnOk result (IsState self.new (inside l fs p (operand (integer value) None))) }
        ensures line { (draft_of self.new.draft).line ≡ (draft_of self.old.draft).line }
    {
        if self.draft.is_full() {
            return Err(AllocError);
        }
        self.draft.integer(value)?;
        self.mode = Mode::Operand;
        Ok(())
    }

    /// Finishes a variable as an operand.
    fn put_variable(&mut self, name: &[u8]) -> Result<(), AllocError>
        ensures ok { (l : Outermost) (fs : List machine.Frame) (p : machine.Pending)
            → Stands self.old l fs p []
            → OnOk result (IsState self.new (inside l fs p (operand (variable name.now) None))) }
        ensures line { (draft_of self.new.draft).line ≡ (draft_of self.old.draft).line }
    {
        if self.draft.is_full() {
            return Err(AllocError);
        }
        self.draft.variable(name)?;
        self.mode = Mode::Operand;
        Ok(())
    }

    /// Finishes an atom as an operand.
    pub(crate) fn put_atom(&mut self, name: &[u8]) -> Result<(), AllocError>
        ensures ok { (l : Outermost) (fs : List machine.Frame) (p : machine.Pending)
            → Stands self.old l fs p []
            → let w = compound name.now none in
            OnOk result (IsState self.new (inside l fs p (operand w None))) }
        ensures line { (draft_of self.new.draft).line ≡ (draft_of self.old.draft).line }
    {
        finish(&mut self.draft, name, 0)?;
        self.mode = Mode::Operand;
        Ok(())
    }

    /// Takes a minus.
    fn take_minus(&mut self, before: Before) -> Result<Next, Cause>
        requires { IsBefore self.old }
        ensures answer { (l : Outermost) (fs : List machine.Frame) (p : machine.Pending)
            → Stands self.old l fs p [] → let x : words.Word = words.minus (before_of before) in
            Answered (machine.take_operand l fs p x) (operand_exceeds fs p x) x result self.new }
        ensures line { (draft_of self.new.draft).line ≡ (draft_of self.old.draft).line }
    {
        match before {
            Before::Integer => {
                self.mode = Mode::Numeral;
                Ok(Next::Inside)
            }
            Before::Stop => {
                self.put_atom(b"-")?;
                Ok(Next::Inside)
            }
            Before::Operand => {
                if self.is_deep() {
                    return Err(Cause::TooBig(What::Nesting));
                }
                self.pending.minuses += 1;
                self.mode = Mode::Wanted;
                Ok(Next::Inside)
            }
        }
    }

    /// Takes an integer that is no negative numeral.
    fn take_integer(&mut self, value: u64) -> Result<Next, Cause>
        ensures answer { (l : Outermost) (fs : List machine.Frame) (p : machine.Pending)
            → Stands self.old l fs p [] → let x : words.Word = words.integer value in
            Answered (machine.take_operand l fs p x) (operand_exceeds fs p x) x result self.new }
        ensures line { (draft_of self.new.draft).line ≡ (draft_of self.old.draft).line }
    {
        if value > LARGEST {
            return Err(Cause::TooWide);
        }
        self.put_integer(value as i64)?;
        Ok(Next::Inside)
    }

    /// Takes a name or symbol.
    fn take_atom(&mut self, name: &'a [u8]) -> Result<Next, Cause>
        ensures answer { (l : Outermost) (fs : List machine.Frame) (p : machine.Pending)
            → Stands self.old l fs p [] → let x : words.Word = words.name name.now in
            Answered (machine.take_operand l fs p x) (operand_exceeds fs p x) x result self.new }
        ensures line { (draft_of self.new.draft).line ≡ (draft_of self.old.draft).line }
    {
        if is_reserved(name) {
            return Err(Cause::Syntax);
        }
        self.mode = Mode::Atom(Name::Written(name));
        Ok(Next::Inside)
    }

    /// Takes an opening bracket.
    fn take_open_bracket(&mut self) -> Result<Next, Cause>
        requires { IsBefore self.old }
        ensures answer { (l : Outermost) (fs : List machine.Frame) (p : machine.Pending)
            → (behind : Bool)
            → Stands self.old l fs p [] → let x : words.Word = words.open_bracket behind in
            Answered (machine.take_operand l fs p x) (operand_exceeds fs p x) x result self.new }
        ensures line { (draft_of self.new.draft).line ≡ (draft_of self.old.draft).line }
    {
        if self.is_deep() {
            return Err(Cause::TooBig(What::Nesting));
        }
        self.open(Bracket::Plain)?;
        Ok(Next::Inside)
    }

    /// Takes an opening brace.
    fn take_open_brace(&mut self) -> Result<Next, Cause>
        requires { IsBefore self.old }
        ensures answer { (l : Outermost) (fs : List machine.Frame) (p : machine.Pending)
            → Stands self.old l fs p [] → let x : words.Word = words.open_brace in
            Answered (machine.take_operand l fs p x) (operand_exceeds fs p x) x result self.new }
        ensures line { (draft_of self.new.draft).line ≡ (draft_of self.old.draft).line }
    {
        if self.is_deep() {
            return Err(Cause::TooBig(What::Nesting));
        }
        self.open(Bracket::Braces)?;
        Ok(Next::Inside)
    }

    /// Takes the opening bracket of a list.
    fn take_open_list(&mut self) -> Result<Next, Cause>
        requires { IsBefore self.old }
        ensures answer { (l : Outermost) (fs : List machine.Frame) (p : machine.Pending)
            → Stands self.old l fs p [] → let x : words.Word = words.open_list in
            Answered (machine.take_operand l fs p x) (operand_exceeds fs p x) x result self.new }
        ensures line { (draft_of self.new.draft).line ≡ (draft_of self.old.draft).line }
    {
        if self.is_deep() {
            return Err(Cause::TooBig(What::Nesting));
        }
        self.mode = Mode::OpenedList;
        Ok(Next::Inside)
    }

    /// Takes a word where an operand is wanted.
    pub(crate) fn take_operand(&mut self, word: Word<'a>) -> Result<Next, Cause>
        requires { IsBefore self.old }
        ensures answer { (l : Outermost) (fs : List machine.Frame) (p : machine.Pending)
            → Stands self.old l fs p [] → let x : words.Word = word_of word.entry in
            Answered (machine.take_operand l fs p x) (operand_exceeds fs p x) x result self.new }
        ensures line { (draft_of self.new.draft).line ≡ (draft_of self.old.draft).line }
    {
        match word {
            Word::Variable(name) => {
                self.put_variable(name)?;
                Ok(Next::Inside)
            }
            Word::Integer(value) => self.take_integer(value),
            Word::Name(name) => self.take_atom(name),
            Word::Quoted(text) => {
                self.mode = Mode::Atom(Name::Quoted(text));
                Ok(Next::Inside)
            }
            Word::Minus(before) => self.take_minus(before),
            Word::OpenBracket { .. } => self.take_open_bracket(),
            Word::OpenList => self.take_open_list(),
            Word::OpenBrace => self.take_open_brace(),
            Word::CloseBracket
            | Word::CloseList
            | Word::CloseBrace
            | Word::Comma
            | Word::Semicolon
            | Word::Bar
            | Word::End => Err(Cause::Syntax),
        }
    }

    /// Takes the integer behind its minus.
    pub(crate) fn take_numeral(&mut self, word: Word<'a>) -> Result<Next, Cause>
        requires { IsFit (word_of word) }
        ensures answer { (l : Outermost) (fs : List machine.Frame) (p : machine.Pending)
            → Stands self.old l fs p [] → let x : words.Word = word_of word.entry in
            Answered (machine.take_numeral l fs p x) false x result self.new }
        ensures line { (draft_of self.new.draft).line ≡ (draft_of self.old.draft).line }
    {
        match word {
            Word::Integer(value) => {
                self.put_integer(negative(value))?;
                Ok(Next::Inside)
            }
            Word::Variable(_)
            | Word::Name(_)
            | Word::Quoted(_)
            | Word::Minus(_)
            | Word::OpenBracket { .. }
            | Word::CloseBracket
            | Word::OpenList
            | Word::CloseList
            | Word::OpenBrace
            | Word::CloseBrace
            | Word::Comma
            | Word::Semicolon
            | Word::Bar
            | Word::End => Err(Cause::Syntax),
        }
    }

    // All words.

    /// Takes the first word.
    fn take_start(&mut self, word: Word<'a>) -> Result<Next, Cause>
        requires { StandsFirst self.old }
        ensures answer { StandsFirst self.old → Answers start (word_of word.entry) result self.new }
        ensures line { (draft_of self.new.draft).line ≡ (draft_of self.old.draft).line }
    {
        match start_of(&word) {
            First::Query => {
                self.begin(ClausePart::Query, 0, 0);
                Ok(Next::Inside)
            }
            First::Directive => Err(Cause::NotPure),
            First::Other => self.take_operand(word),
        }
    }

    /// Takes the first word behind the bracket of a list.
    fn take_first(&mut self, word: Word<'a>) -> Result<Next, Cause>
        requires { (l : Outermost) × (fs : List machine.Frame) × (p : machine.Pending)
            × (p.minuses + depth fs < MAX_NESTING) × Stands self.old l fs p [] }
        ensures answer { (l : Outermost) (fs : List machine.Frame) (p : machine.Pending)
            → p.minuses + depth fs < MAX_NESTING → Stands self.old l fs p []
            → Answers (opened_list l fs p) (word_of word.entry) result self.new }
        ensures line { (draft_of self.new.draft).line ≡ (draft_of self.old.draft).line }
    {
        if closes_list(&word) {
            self.put_atom(b"[]")?;
            return Ok(Next::Inside);
        }
        self.open(Bracket::Elements)?;
        self.take_operand(word)
    }

    /// Takes a word behind an atom that the draft does not have yet.
    fn take_behind(&mut self, name: Name<'a>, word: Word<'a>) -> Result<Next, Cause>
        requires { IsBefore self.old }
        ensures answer { (l : Outermost) (fs : List machine.Frame) (p : machine.Pending)
            → Stands self.old l fs p [] → let c = name_of name.entry in
            let s : State = inside l fs p (operand (compound c none) (Some c)) in
            Answers s (word_of word.entry) result self.new }
        ensures line { (draft_of self.new.draft).line ≡ (draft_of self.old.draft).line }
    {
        if is_behind(&word) {
            if self.is_deep() {
                return Err(Cause::TooBig(What::Nesting));
            }
            self.open(Bracket::Arguments(name))?;
            return Ok(Next::Inside);
        }
        self.put_atom(name.bytes())?;
        self.take_operator(word)
    }

    /// Takes the next word, or says why no text goes on with it.
    ///
    /// An integer is at most 2^63. Behind the end of a clause, and after an error, the parser is of
    /// no more use.
    pub(crate) fn take(&mut self, word: Word<'a>) -> Result<Next, Cause>
        requires stands { (s : State) × IsState self.old s }
        requires fits { IsFit (word_of word) }
        ensures answer { (s : State) → IsState self.old s
            → Answers s (word_of word.entry) result self.new }
        ensures line { (draft_of self.new.draft).line ≡ (draft_of self.old.draft).line }
    {
        match mem::replace(&mut self.mode, Mode::Operand) {
            Mode::Start => self.take_start(word),
            Mode::Wanted => self.take_operand(word),
            Mode::Numeral => self.take_numeral(word),
            Mode::OpenedList => self.take_first(word),
            Mode::Operand => self.take_operator(word),
            Mode::Atom(name) => self.take_behind(name, word),
        }
    }
}

/// The number with a minus before it.
fn negative(value: u64) -> i64
    requires { value ≤ 9223372036854775808 }
    ensures { result ≡ neg_ℤ (pos value) }
{
    if value > LARGEST {
        return i64::MIN;
    }
    0 - value as i64
}
