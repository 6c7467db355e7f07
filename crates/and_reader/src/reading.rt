//! Texts as programs.

ghost use Rattle.std.specs.Prelude.{◌≡◌, ◌≤◌, ◌<◌, ◌-◌, ◌^◌, ℕ, List, [], length, Some, None};
ghost use Rattle.and_language.specs.Grammar.{Sort as StatementSort};
ghost use Rattle.std.specs.Prelude.{IsTrue, IfOk, OnOk, IfErr, IfSome};
ghost use Rattle.and_model.specs.Lines.{Bytes};
ghost use Rattle.and_language.specs.Tokens.{line_at, Answer, no_more};
ghost use Rattle.and_language.specs.Words.{Placed};
ghost use Rattle.and_language.specs.Grammar.{Statement};
ghost use Rattle.and_language.specs.Refusals.{IsLiftedFrom, IsRefused, HasWords};
ghost use Rattle.and_translation.specs.Bodies.{is_rule};
ghost use Rattle.and_drafts.specs.Drafts.{draft_of};
ghost use Rattle.and_clauses.specs.Views.{table_of, is_query as asks};
ghost use Rattle.and_program.specs.Loaded.{program_of};
ghost use Rattle.and_reader.specs.Views.{word_of as word_shown, sort_of};
ghost use Rattle.and_automaton.specs.Machine.{State, start};
ghost use Rattle.and_reader.specs.Standing.{IsState, IsFit, Answers};
ghost use Rattle.and_reader.specs.Causes.{refusal_of};
ghost use Rattle.and_reader.specs.Reading.{IsRead, IsReadBefore, with_word};
ghost use Rattle.and_reader.specs.Reading.{IsDraftOf, IsAdded, IsFaultOf};
ghost use Rattle.and_model.specs.declared.limits.TheConstants.{MAX_BYTES};

mod beginning;

use crate::lines::{Cursor, line_at};
use crate::parser::Parser;
use crate::putting::put;
use crate::refusal::{Cause, ReadRefusal, fault_refusal, seal_refusal, table_cause};
use crate::state::{Next, Sort};
use crate::words::{Word, word_of};
use and_clauses::{ClauseDraft, ClauseTable, Loaded, What};
use and_lex::Lexer;
use and_model::limits::MAX_BYTES;
use std::alloc::Global;

/// A text that is read word by word.
#[derive(Drop)]
struct Reader<'a> {
    alloc: Global,
    bytes: &'a [u8],
    table: ClauseTable,
    cursor: Cursor,
    /// Whether a clause is begun.
    is_begun: bool,
    /// That clause. The next one takes its memory.
    clause: Begun<'a>,
    /// A draft that is used again for what rules stand for.
    spare: Option<ClauseDraft>,
}

/// A clause that is begun, and the line of its first word.
#[derive(Drop)]
struct Begun<'a> {
    line: u32,
    parser: Parser<'a>,
}

impl<'a> Begun<'a> {
    /// Begins another clause, whose first word is on that line.
    fn restart(&mut self, line: u32)
        ensures line { self.new.line ≡ line }
        ensures state { IsState self.new.parser start }
        ensures drafted { (draft_of self.new.parser.draft).line ≡ line }
    {
        self.line = line;
        self.parser.restart(line);
    }

    /// Takes the next word.
    fn take(&mut self, word: Word<'a>) -> Result<Next, Cause>
        requires stands { (s : State) × IsState self.old.parser s }
        requires fits { IsFit (word_shown word) }
        ensures answer { (s : State) → IsState self.old.parser s
            → Answers s (word_shown word.entry) result self.new.parser }
        ensures drafted { (draft_of self.new.parser.draft).line ≡ (draft_of self.old.parser.draft).line }
        ensures line { self.new.line ≡ self.old.line }
    {
        self.parser.take(word)
    }
}

/// A refusal for want of memory.
fn memory() -> ReadRefusal
    ensures { refusal_of result ≡ None }
{
    ReadRefusal {
        line: 1,
        cause: Cause::Memory,
    }
}

impl<'a> Reader<'a> {
    /// The refusal of that cause, at that place.
    fn at(&self, place: usize, cause: Cause) -> ReadRefusal
        requires { length self.now.bytes.now < 2 ^ 32 - 1 }
        ensures { result ≡ record { line = line_at self.now.bytes.now place; cause = cause } }
    {
        ReadRefusal {
            line: line_at(self.bytes, place),
            cause,
        }
    }

    /// Begins a clause at that place, unless one is begun.
    fn begin(&mut self, place: usize)
        requires read { (bytes : Bytes) × (words : List Placed) × IsRead bytes self.old words }
        requires before { self.old.cursor.place ≤ place }
        requires within { place ≤ length self.old.bytes.now }
        requires few { length self.old.bytes.now < 2 ^ 32 - 1 }
        ensures begun { (bytes : Bytes) (words : List Placed)
            → IsRead bytes self.old words → IsReadBefore bytes place self.new self.new.clause words }
        ensures cursor { self.new.cursor.place ≤ place }
    {
        if self.is_begun {
            return;
        }
        let line = self.cursor.go_to(self.bytes, place);
        self.clause.restart(line);
    }

    /// Puts the clause, query or rule, which is over, into the table.
    fn finish(&mut self, sort: Sort) -> Result<(), ReadRefusal>
        requires whole { length (draft_of self.old.clause.parser.draft).finished ≡ 1 }
        requires query { sort_of sort ≡ StatementSort.query
            → IsTrue (asks (draft_of self.old.clause.parser.draft).finished) }
        requires rule { sort_of sort ≡ StatementSort.grammar_rule
            → IsTrue (is_rule (draft_of self.old.clause.parser.draft).finished) }
        ensures added { (bytes : Bytes) (s : Statement)
            → IsDraftOf bytes (draft_of self.old.clause.parser.draft) (sort_of sort) s
            → OnOk result (IsAdded bytes (table_of self.old.table) s (table_of self.new.table)) }
        ensures refused { (bytes : Bytes) (s : Statement)
            → IsDraftOf bytes (draft_of self.old.clause.parser.draft) (sort_of sort) s
            → self.old.clause.line ≡ line_at bytes s.place
            → IfErr result (λ e. IfSome (refusal_of e)
            (IsFaultOf bytes (table_of self.old.table) s)) }
        ensures text { self.new.bytes ≡ self.old.bytes }
        ensures cursor { self.new.cursor ≡ self.old.cursor }
        ensures kept { self.new.is_begun ≡ self.old.is_begun }
    {
        let draft = &self.clause.parser.draft;
        match put(self.alloc, &mut self.table, draft, sort, &mut self.spare) {
            Ok(()) => Ok(()),
            Err(fault) => Err(ReadRefusal {
                line: self.clause.line,
                cause: table_cause(fault),
            }),
        }
    }

    /// Takes the word at that place.
    fn take(&mut self, word: Word<'a>, place: usize) -> Result<(), ReadRefusal>
        requires read { (bytes : Bytes) × (words : List Placed) × IsRead bytes self.old words }
        requires fits { IsFit (word_shown word) }
        requires before { self.old.cursor.place ≤ place }
        requires within { place ≤ length self.old.bytes.now }
        requires few { length self.old.bytes.now ≤ MAX_BYTES }
        ensures taken { (bytes : Bytes) (words : List Placed)
            → IsRead bytes self.old words
            → OnOk result (IsRead bytes self.new
            (with_word words (word_shown word.entry) place)) }
        ensures refused { (bytes : Bytes) (words : List Placed) (next : Answer)
            → IsRead bytes self.old words
            → HasWords bytes (with_word words (word_shown word.entry) place) next
            → IfErr result (λ e. IfSome (refusal_of e) (IsRefused bytes)) }
        ensures cursor { OnOk result (self.new.cursor.place ≤ place) }
    {
        self.begin(place);
        match self.clause.take(word) {
            Ok(Next::Inside) => {
                self.is_begun = true;
                Ok(())
            }
            Ok(Next::Over(sort)) => {
                self.is_begun = false;
                self.finish(sort)
            }
            Err(cause) => Err(self.at(place, cause)),
        }
    }

    /// Reads the text to its end.
    fn read(&mut self) -> Result<(), ReadRefusal>
        requires read { (bytes : Bytes) × IsRead bytes self.old [] }
        requires first { self.old.cursor.place ≡ 0 }
        requires few { length self.old.bytes.now ≤ MAX_BYTES }
        ensures read { OnOk result ((words : List Placed)
            × HasWords self.old.bytes.now words no_more
            × IsRead self.old.bytes.now self.new words) }
        ensures refused { IfErr result (λ e. IfSome (refusal_of e)
            (IsRefused self.old.bytes.now)) }
    {
        let bytes = self.bytes;
        let mut lexer = Lexer::new(bytes);
        let mut next = lexer.next();
        'reading: loop {
            match next {
                Ok(None) => return Ok(()),
                Err(fault) => return Err(fault_refusal(bytes, fault)),
                Ok(Some(token)) => {
                    let following = lexer.next();
                    let Ok(word) = word_of(self.alloc, bytes, &token, &following) else {
                        return Err(memory());
                    };
                    self.take(word, token.start)?;
                    next = following;
                }
            }
        }
    }
}

/// Reads a text. It is a program exactly where the text is in the grammar, and then that to which
/// the grammar's is lifted; any other refusal than want of memory is the text's first.
pub fn read_program(alloc: Global, bytes: &[u8]) -> Result<Loaded, ReadRefusal>
    ensures program { IfOk result (λ l. IsLiftedFrom bytes.now (program_of l)) }
    ensures refused { IfErr result (λ e. IfSome (refusal_of e) (IsRefused bytes.now)) }
{
    if bytes.len() > MAX_BYTES {
        return Err(ReadRefusal {
            line: line_at(bytes, MAX_BYTES),
            cause: Cause::TooBig(What::Source),
        });
    }
    let Ok(table) = ClauseTable::new(alloc) else {
        return Err(memory());
    };
    let mut reader = Reader {
        alloc,
        bytes,
        table,
        cursor: Cursor::new(),
        is_begun: false,
        clause: Begun {
            line: 1,
            parser: Parser::new(alloc, 1),
        },
        spare: None,
    };
    reader.read()?;
    if reader.is_begun {
        return Err(reader.at(bytes.len(), Cause::Syntax));
    }
    match reader.table.seal() {
        Ok(loaded) => Ok(loaded),
        Err(fault) => Err(seal_refusal(bytes, fault)),
    }
}
