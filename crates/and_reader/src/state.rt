//! What is read of a clause before its end.

ghost use Rattle.std.specs.Prelude.{◌≡◌, List, [], OnOk, IfErr};
ghost use Rattle.and_syntax.specs.Written.{Written};
ghost use Rattle.and_language.specs.Grammar.{symbol_of, sort_of as sort_behind};
ghost use Rattle.and_reader.specs.Views.{neck_of, sort_of};
ghost use Rattle.and_reader.specs.Standing.{bracket_of, IsNarrow};
ghost use Rattle.and_reader.specs.Answered.{IsCommaFault, TakesComma, takes_bar, takes_semicolon};

use crate::refusal::Cause;
use crate::words::Name;
use and_clauses::What;
use and_model::limits::MAX_ARGUMENTS;

/// What waits for its operand since the last bracket, comma, semicolon or bar: at most one operator of each
/// priority, and prefix minuses. The left operands are among the draft's finished terms.
#[derive(Clone, Copy)]
pub(crate) struct Pending<'a> {
    pub relation: Option<&'a [u8]>,
    pub sum: Option<&'a [u8]>,
    pub product: Option<&'a [u8]>,
    pub minuses: u32,
}

/// Nothing waits.
pub(crate) const NOTHING: Pending<'static> = Pending {
    relation: None,
    sum: None,
    product: None,
    minuses: 0,
};

/// An open bracket: a plain one, a brace, that of a compound's arguments, that of a list's
/// elements, or a list's behind its bar.
#[derive(Drop)]
pub(crate) enum Bracket<'a> {
    Plain,
    Braces,
    Arguments(Name<'a>),
    Elements,
    Tail,
}

/// An open bracket, how many alternatives stand before the last semicolon in it, how many terms
/// since then and before the last comma or bar, and what was pending before it.
#[derive(Drop)]
pub(crate) struct Frame<'a> {
    pub bracket: Bracket<'a>,
    pub alternatives: usize,
    pub before: usize,
    pub outside: Pending<'a>,
}

/// What stands between a head and its body.
#[derive(Clone, Copy, PartialEq, Eq)]
pub(crate) enum Neck {
    /// `:-`, in a clause.
    Turnstile,
    /// `-->`, in a grammar rule.
    Arrow,
}

/// What a text consists of.
#[derive(Clone, Copy, PartialEq, Eq)]
pub(crate) enum Sort {
    Clause,
    Query,
    GrammarRule,
}

/// The part of a clause: its head (or all of a fact), the body behind that head and its neck, or
/// the body of a query.
#[derive(Clone, Copy, PartialEq, Eq)]
pub(crate) enum ClausePart {
    Head,
    Body(Neck),
    Query,
}

/// The symbol of a neck.
pub(crate) fn neck_symbol(neck: Neck) -> &'static [u8]
    ensures { result.now ≡ symbol_of (neck_of neck) }
{
    match neck {
        Neck::Turnstile => b":-",
        Neck::Arrow => b"-->",
    }
}

/// What has such a neck.
pub(crate) fn neck_sort(neck: Neck) -> Sort
    ensures { sort_of result ≡ sort_behind (neck_of neck) }
{
    match neck {
        Neck::Turnstile => Sort::Clause,
        Neck::Arrow => Sort::GrammarRule,
    }
}

/// What may come next.
#[derive(Drop)]
pub(crate) enum Mode<'a> {
    /// The first word of a clause.
    Start,
    /// An operand.
    Wanted,
    /// Only the integer behind its minus.
    Numeral,
    /// The first element of a list, or the bracket that closes it.
    OpenedList,
    /// An operator or a closing word; the operand is the draft's last finished term.
    Operand,
    /// The same, or a bracket that makes the atom a compound's name. The draft does not have it
    /// yet.
    Atom(Name<'a>),
}

/// What follows a word.
#[derive(Clone, Copy, PartialEq, Eq)]
pub(crate) enum Next {
    /// The clause goes on.
    Inside,
    /// It is over, and is of that sort.
    Over(Sort),
}

/// Why no comma may stand in a bracket, where so many arguments or elements are before it.
pub(crate) fn check_comma(bracket: &Bracket, more: usize) -> Result<(), Cause>
    ensures ok { (es : List Written) → let b = bracket_of bracket.now es in
        OnOk result (TakesComma b × IsNarrow b more) }
    ensures err { (es : List Written)
        → IfErr result (λ c. IsCommaFault (bracket_of bracket.now es) more c) }
{
    match bracket {
        Bracket::Plain | Bracket::Braces | Bracket::Elements => Ok(()),
        Bracket::Arguments(_) => {
            if more >= MAX_ARGUMENTS {
                return Err(Cause::TooBig(What::Arguments));
            }
            Ok(())
        }
        Bracket::Tail => Err(Cause::Syntax),
    }
}

/// Whether a bar may stand in a bracket.
pub(crate) fn takes_bar(bracket: &Bracket) -> bool
    ensures { (es : List Written) → result ≡ takes_bar (bracket_of bracket.now es) }
{
    match bracket {
        Bracket::Elements => true,
        Bracket::Plain | Bracket::Braces | Bracket::Arguments(_) | Bracket::Tail => false,
    }
}

/// Whether a semicolon may stand in a bracket.
pub(crate) fn takes_semicolon(bracket: &Bracket) -> bool
    ensures { (es : List Written) → result ≡ takes_semicolon (bracket_of bracket.now es) }
{
    match bracket {
        Bracket::Plain | Bracket::Braces => true,
        Bracket::Arguments(_) | Bracket::Elements | Bracket::Tail => false,
    }
}
