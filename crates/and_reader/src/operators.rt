//! Words behind an operand.

ghost use Rattle.std.specs.Prelude.{◌≡◌, ◌+◌, ◌<◌, [], List, Some, ◌≤◌, ◌∷◌, ◌++◌, length};
ghost use Rattle.std.specs.Prelude.{reverse, None, OnOk, false, nat_lt};
ghost use Rattle.and_syntax.specs.Written.{Written};
ghost use Rattle.and_automaton.specs.Machine.{Outermost, inside};
ghost use Rattle.and_automaton.specs.Machine.{operand, depth, wanted, nothing_pending};
ghost use Rattle.and_automaton.specs.Machine.{role, is_product, is_sum};
ghost use Rattle.and_automaton.specs.Machine.{is_relation, list, at700, comma_exceeds};
ghost use Rattle.and_automaton.specs.Machine.{operator_exceeds};
ghost use Rattle.and_drafts.specs.Drafts.{draft_of};
ghost use Rattle.and_reader.specs.Views.{word_of, neck_of};
ghost use Rattle.and_language.specs.Grammar.{symbol_of};
ghost use Rattle.and_reader.specs.Standing.{IsState, Stands, terms};
ghost use Rattle.and_reader.specs.Standing.{part_of, AreFrames, waiting};
ghost use Rattle.and_reader.specs.Standing.{IsPending, with_lefts};
ghost use Rattle.and_reader.specs.Answered.{Answered, IsBehind, IsFinished, Finished};
ghost use Rattle.and_language.specs.Words as words;
ghost use Rattle.and_automaton.specs.Machine as machine;
ghost use Rattle.and_model.specs.declared.limits.TheConstants.{MAX_NESTING};

use crate::emitting::{
    finish, finish_disjunction, finish_pairs, finish_product, finish_relation, finish_sum,
};
use crate::parser::Parser;
use crate::refusal::Cause;
use crate::state::{
    Bracket, ClausePart, Frame, Mode, NOTHING, Neck, Next, Pending, Sort, check_comma, neck_sort,
    neck_symbol, takes_bar, takes_semicolon,
};
use crate::words::{Word, is_arrow, is_neck, is_product, is_relation, is_sum};
use std::alloc::AllocError;

impl<'a> Parser<'a> {
    /// Takes a product's operator.
    fn take_product(&mut self, name: &'a [u8]) -> Result<(), AllocError>
        requires { IsBehind self.old }
        ensures ok { (l : Outermost) (fs : List machine.Frame) (p : machine.Pending) (w : Written)
            → Stands self.old l fs p (w ∷ [])
            → OnOk result (IsState self.new (machine.take_product l fs p w name.now)) }
        ensures line { (draft_of self.new.draft).line ≡ (draft_of self.old.draft).line }
    {
        finish_product(&mut self.draft, self.pending)?;
        self.pending.product = Some(name);
        self.pending.minuses = 0;
        self.mode = Mode::Wanted;
        Ok(())
    }

    /// Takes a sum's operator.
    fn take_sum(&mut self, name: &'a [u8]) -> Result<(), AllocError>
        requires { IsBehind self.old }
        ensures ok { (l : Outermost) (fs : List machine.Frame) (p : machine.Pending) (w : Written)
            → Stands self.old l fs p (w ∷ [])
            → OnOk result (IsState self.new (machine.take_sum l fs p w name.now)) }
        ensures line { (draft_of self.new.draft).line ≡ (draft_of self.old.draft).line }
    {
        finish_sum(&mut self.draft, self.pending)?;
        self.pending = Pending {
            relation: self.pending.relation,
            sum: Some(name),
            product: None,
            minuses: 0,
        };
        self.mode = Mode::Wanted;
        Ok(())
    }

    /// Takes a relation's name.
    fn take_relation(&mut self, name: &'a [u8]) -> Result<Next, Cause>
        requires { IsBehind self.old }
        ensures answer { (l : Outermost) (fs : List machine.Frame) (p : machine.Pending)
            → (w : Written)
            → Stands self.old l fs p (w ∷ [])
            → let x : words.Word = words.name name.now in
            Answered (machine.take_relation l fs p w name.now) false x result self.new }
        ensures line { (draft_of self.new.draft).line ≡ (draft_of self.old.draft).line }
    {
        if self.pending.relation.is_some() {
            return Err(Cause::Syntax);
        }
        finish_sum(&mut self.draft, self.pending)?;
        self.pending = Pending {
            relation: Some(name),
            sum: None,
            product: None,
            minuses: 0,
        };
        self.mode = Mode::Wanted;
        Ok(Next::Inside)
    }

    /// Finishes all that is pending.
    fn finish_pending(&mut self) -> Result<(), AllocError>
        requires { IsBehind self.old }
        ensures ok { (l : Outermost) (fs : List machine.Frame) (p : machine.Pending) (w : Written)
            → Stands self.old l fs p (w ∷ []) → OnOk result (Finished self.new l fs (at700 p w)) }
        ensures line { (draft_of self.new.draft).line ≡ (draft_of self.old.draft).line }
    {
        finish_relation(&mut self.draft, self.pending)
    }

    /// Whether a bracket is open.
    fn is_inside(&self) -> bool
        ensures { result ≡ nat_lt 0 (length self.now.frames.items) }
    {
        !self.frames.is_empty()
    }

    /// Goes on outside of brackets.
    pub(crate) fn begin(&mut self, part: ClausePart, alternatives: usize, before: usize)
        ensures ok { (l : Outermost)
            → length (reverse self.old.frames.items) ≡ 0 → part ≡ part_of l.part
            → alternatives ≡ length l.alternatives → before ≡ length l.before → self.old.depth ≡ 0
            → terms self.old.draft ≡ waiting l []
            → IsState self.new (inside l [] nothing_pending wanted) }
        ensures line { (draft_of self.new.draft).line ≡ (draft_of self.old.draft).line }
    {
        self.part = part;
        self.alternatives = alternatives;
        self.before = before;
        self.pending = NOTHING;
        self.mode = Mode::Wanted;
    }

    /// Takes the `:-` or `-->` behind a head.
    fn take_neck(&mut self, neck: Neck) -> Result<Next, Cause>
        requires { IsFinished self.old }
        ensures answer { (l : Outermost) (fs : List machine.Frame) (a : Written)
            → Finished self.old l fs a
            → let n = neck_of neck in
            let x : words.Word = words.name (symbol_of n) in
            Answered (machine.take_neck l fs n a) false x result self.new }
        ensures line { (draft_of self.new.draft).line ≡ (draft_of self.old.draft).line }
    {
        if self.is_inside() {
            return Err(Cause::Syntax);
        }
        match self.part {
            ClausePart::Head => {
                finish_disjunction(&mut self.draft, self.alternatives, self.before)?;
                self.begin(ClausePart::Body(neck), 0, 0);
                Ok(Next::Inside)
            }
            ClausePart::Body(_) | ClausePart::Query => Err(Cause::Syntax),
        }
    }

    /// Takes a comma.
    fn take_comma(&mut self) -> Result<Next, Cause>
        ensures answer { (l : Outermost) (fs : List machine.Frame) (a : Written)
            → Finished self.old l fs a
            → Answered (machine.take_comma l fs a) (comma_exceeds fs) words.comma result self.new }
        ensures line { (draft_of self.new.draft).line ≡ (draft_of self.old.draft).line }
    {
        let Some(frame) = self.frames.pop() else {
            let Some(more) = self.before.checked_add(1) else {
                return Err(Cause::Memory);
            };
            self.begin(self.part, self.alternatives, more);
            return Ok(Next::Inside);
        };
        let Frame {
            bracket,
            alternatives,
            before,
            outside,
        } = frame;
        let Some(before) = before.checked_add(1) else {
            return Err(Cause::Memory);
        };
        check_comma(&bracket, before)?;
        self.enter(Frame {
            bracket,
            alternatives,
            before,
            outside,
        })?;
        Ok(Next::Inside)
    }

    /// Takes a semicolon outside of brackets.
    fn take_outer_semicolon(&mut self) -> Result<Next, Cause>
        requires { (l : Outermost) × (a : Written) × Finished self.old l [] a }
        ensures answer { (l : Outermost) (a : Written) → Finished self.old l [] a
            → Answered (machine.take_semicolon l [] a) false words.semicolon result self.new }
        ensures line { (draft_of self.new.draft).line ≡ (draft_of self.old.draft).line }
    {
        finish_pairs(&mut self.draft, b",", self.before)?;
        let Some(more) = self.alternatives.checked_add(1) else {
            return Err(Cause::Memory);
        };
        self.begin(self.part, more, 0);
        Ok(Next::Inside)
    }

    /// Takes a semicolon.
    fn take_semicolon(&mut self) -> Result<Next, Cause>
        requires { IsFinished self.old }
        ensures answer { (l : Outermost) (fs : List machine.Frame) (a : Written)
            → Finished self.old l fs a
            → Answered (machine.take_semicolon l fs a) false words.semicolon result self.new }
        ensures line { (draft_of self.new.draft).line ≡ (draft_of self.old.draft).line }
    {
        let Some(frame) = self.frames.pop() else {
            return self.take_outer_semicolon();
        };
        if !takes_semicolon(&frame.bracket) {
            return Err(Cause::Syntax);
        }
        finish_pairs(&mut self.draft, b",", frame.before)?;
        let Some(alternatives) = frame.alternatives.checked_add(1) else {
            return Err(Cause::Memory);
        };
        self.enter(Frame {
            bracket: frame.bracket,
            alternatives,
            before: 0,
            outside: frame.outside,
        })?;
        Ok(Next::Inside)
    }

    /// Takes a bar.
    fn take_bar(&mut self) -> Result<Next, Cause>
        ensures answer { (l : Outermost) (fs : List machine.Frame) (a : Written)
            → Finished self.old l fs a
            → Answered (machine.take_bar l fs a) false words.bar result self.new }
        ensures line { (draft_of self.new.draft).line ≡ (draft_of self.old.draft).line }
    {
        let Some(frame) = self.frames.pop() else {
            return Err(Cause::Syntax);
        };
        if !takes_bar(&frame.bracket) {
            return Err(Cause::Syntax);
        }
        let Some(before) = frame.before.checked_add(1) else {
            return Err(Cause::Memory);
        };
        self.enter(Frame {
            bracket: Bracket::Tail,
            alternatives: 0,
            before,
            outside: frame.outside,
        })?;
        Ok(Next::Inside)
    }

    /// Goes on behind a bracket that closed, where that was pending before it.
    fn leave(&mut self, outside: Pending<'a>)
        requires { outside.minuses + 1 ≤ self.old.depth }
        ensures ok { (l : Outermost) (fs : List machine.Frame) (f : machine.Frame) (w : Written)
            → self.old.part ≡ part_of l.part → self.old.alternatives ≡ length l.alternatives
            → self.old.before ≡ length l.before
            → AreFrames (reverse self.old.frames.items) fs → IsPending outside.entry f.outside
            → self.old.depth ≡ depth (f ∷ fs) → depth (f ∷ fs) ≤ MAX_NESTING
            → terms self.old.draft ≡ w ∷ with_lefts f.outside (waiting l fs)
            → IsState self.new (inside l fs f.outside (operand w None)) }
        ensures line { (draft_of self.new.draft).line ≡ (draft_of self.old.draft).line }
    {
        self.depth = self.depth - outside.minuses - 1;
        self.pending = outside;
        self.mode = Mode::Operand;
    }

    /// Takes a closing bracket.
    fn take_close_bracket(&mut self) -> Result<Next, Cause>
        requires { IsFinished self.old }
        ensures answer { (l : Outermost) (fs : List machine.Frame) (a : Written)
            → Finished self.old l fs a
            → let x : words.Word = words.close_bracket in
            Answered (machine.take_close_bracket l fs a) false x result self.new }
        ensures line { (draft_of self.new.draft).line ≡ (draft_of self.old.draft).line }
    {
        let Some(frame) = self.frames.pop() else {
            return Err(Cause::Syntax);
        };
        let Frame {
            bracket,
            alternatives,
            before,
            outside,
        } = frame;
        match bracket {
            Bracket::Plain => {
                finish_disjunction(&mut self.draft, alternatives, before)?;
                self.leave(outside);
                Ok(Next::Inside)
            }
            Bracket::Arguments(name) => {
                finish(&mut self.draft, name.bytes(), before as u8 + 1)?;
                self.leave(outside);
                Ok(Next::Inside)
            }
            Bracket::Braces | Bracket::Elements | Bracket::Tail => Err(Cause::Syntax),
        }
    }

    /// Takes a closing brace.
    fn take_close_brace(&mut self) -> Result<Next, Cause>
        requires { IsFinished self.old }
        ensures answer { (l : Outermost) (fs : List machine.Frame) (a : Written)
            → Finished self.old l fs a
            → Answered (machine.take_close_brace l fs a) false words.close_brace result self.new }
        ensures line { (draft_of self.new.draft).line ≡ (draft_of self.old.draft).line }
    {
        let Some(frame) = self.frames.pop() else {
            return Err(Cause::Syntax);
        };
        let Frame {
            bracket,
            alternatives,
            before,
            outside,
        } = frame;
        match bracket {
            Bracket::Braces => {
                finish_disjunction(&mut self.draft, alternatives, before)?;
                finish(&mut self.draft, b"{}", 1)?;
                self.leave(outside);
                Ok(Next::Inside)
            }
            Bracket::Arguments(_name) => Err(Cause::Syntax),
            Bracket::Plain | Bracket::Elements | Bracket::Tail => Err(Cause::Syntax),
        }
    }

    /// Closes a list behind its last term.
    fn close_list(&mut self, before: usize, outside: Pending<'a>) -> Result<Next, Cause>
        requires many { before < length (terms self.old.draft) }
        requires opened { outside.minuses + 1 ≤ self.old.depth }
        ensures answer { (l : Outermost) (fs : List machine.Frame) (f : machine.Frame) (a : Written)
            → self.old.part ≡ part_of l.part → self.old.alternatives ≡ length l.alternatives
            → self.old.before ≡ length l.before
            → AreFrames (reverse self.old.frames.items) fs → before ≡ length f.before
            → IsPending outside.entry f.outside → self.old.depth ≡ depth (f ∷ fs)
            → depth (f ∷ fs) ≤ MAX_NESTING
            → terms self.old.draft ≡ a ∷ (f.before ++ with_lefts f.outside (waiting l fs))
            → let s : machine.State = inside l fs f.outside (operand (list f.before a) None) in
            Answered (Some s) false words.close_list result self.new }
        ensures line { (draft_of self.new.draft).line ≡ (draft_of self.old.draft).line }
    {
        finish_pairs(&mut self.draft, b".", before)?;
        self.leave(outside);
        Ok(Next::Inside)
    }

    /// Takes the closing bracket of a list.
    fn take_close_list(&mut self) -> Result<Next, Cause>
        requires { IsFinished self.old }
        ensures answer { (l : Outermost) (fs : List machine.Frame) (a : Written)
            → Finished self.old l fs a
            → Answered (machine.take_close_list l fs a) false words.close_list result self.new }
        ensures line { (draft_of self.new.draft).line ≡ (draft_of self.old.draft).line }
    {
        let Some(frame) = self.frames.pop() else {
            return Err(Cause::Syntax);
        };
        let Frame {
            bracket,
            before,
            outside,
            ..
        } = frame;
        match bracket {
            Bracket::Elements => {
                finish(&mut self.draft, b"[]", 0)?;
                finish(&mut self.draft, b".", 2)?;
                self.close_list(before, outside)
            }
            Bracket::Tail => self.close_list(before, outside),
            Bracket::Arguments(_name) => Err(Cause::Syntax),
            Bracket::Plain | Bracket::Braces => Err(Cause::Syntax),
        }
    }

    /// Takes the end of a clause.
    fn take_end(&mut self) -> Result<Next, Cause>
        requires { IsFinished self.old }
        ensures answer { (l : Outermost) (fs : List machine.Frame) (a : Written)
            → Finished self.old l fs a
            → Answered (machine.take_end l fs a) false words.end result self.new }
        ensures line { (draft_of self.new.draft).line ≡ (draft_of self.old.draft).line }
    {
        if self.is_inside() {
            return Err(Cause::Syntax);
        }
        finish_disjunction(&mut self.draft, self.alternatives, self.before)?;
        match self.part {
            ClausePart::Head => Ok(Next::Over(Sort::Clause)),
            ClausePart::Body(neck) => {
                finish(&mut self.draft, neck_symbol(neck), 2)?;
                Ok(Next::Over(neck_sort(neck)))
            }
            ClausePart::Query => {
                finish(&mut self.draft, b"?-", 1)?;
                Ok(Next::Over(Sort::Query))
            }
        }
    }

    /// Takes a name or symbol.
    fn take_name(&mut self, name: &'a [u8]) -> Result<Next, Cause>
        requires { IsBehind self.old }
        ensures answer { (l : Outermost) (fs : List machine.Frame) (p : machine.Pending)
            → (w : Written)
            → Stands self.old l fs p (w ∷ [])
            → let c = name.now in
            Answered (machine.take_name l fs p w c (role c)) false (words.name c) result self.new }
        ensures line { (draft_of self.new.draft).line ≡ (draft_of self.old.draft).line }
    {
        if is_product(name) {
            self.take_product(name)?;
            Ok(Next::Inside)
        } else if is_sum(name) {
            self.take_sum(name)?;
            Ok(Next::Inside)
        } else if is_relation(name) {
            self.take_relation(name)
        } else if is_neck(name) {
            self.finish_pending()?;
            self.take_neck(Neck::Turnstile)
        } else if is_arrow(name) {
            self.finish_pending()?;
            self.take_neck(Neck::Arrow)
        } else {
            Err(Cause::Syntax)
        }
    }

    /// Takes a word behind an operand.
    pub(crate) fn take_operator(&mut self, word: Word<'a>) -> Result<Next, Cause>
        requires { IsBehind self.old }
        ensures answer { (l : Outermost) (fs : List machine.Frame) (p : machine.Pending)
            → (w : Written)
            → Stands self.old l fs p (w ∷ []) → let x : words.Word = word_of word.entry in
            Answered (machine.take_operator l fs p w None x) (operator_exceeds fs p x) x result
            self.new }
        ensures line { (draft_of self.new.draft).line ≡ (draft_of self.old.draft).line }
    {
        match word {
            Word::Name(name) => self.take_name(name),
            Word::Minus(_) => {
                self.take_sum(b"-")?;
                Ok(Next::Inside)
            }
            Word::CloseBracket => {
                self.finish_pending()?;
                self.take_close_bracket()
            }
            Word::CloseList => {
                self.finish_pending()?;
                self.take_close_list()
            }
            Word::CloseBrace => {
                self.finish_pending()?;
                self.take_close_brace()
            }
            Word::Comma => {
                self.finish_pending()?;
                self.take_comma()
            }
            Word::Semicolon => {
                self.finish_pending()?;
                self.take_semicolon()
            }
            Word::Bar => {
                self.finish_pending()?;
                self.take_bar()
            }
            Word::End => {
                self.finish_pending()?;
                self.take_end()
            }
            Word::Quoted(_text) => Err(Cause::Syntax),
            Word::Variable(_)
            | Word::Integer(_)
            | Word::OpenBracket { .. }
            | Word::OpenList
            | Word::OpenBrace => Err(Cause::Syntax),
        }
    }
}
