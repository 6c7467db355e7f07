//! What the parts of a rule are as bodies.

ghost use Rattle.std.specs.Prelude.{◌≡◌, ◌<◌, [], ◌∷◌, All};
ghost use Rattle.and_syntax.specs.Written.{has};
ghost use Rattle.and_translation.specs.Bodies.{elements, reserved};
ghost use Rattle.and_drafts.specs.Drafts.{draft_of};
ghost use Rattle.and_grammar.specs.Views.{body_at, term_at, IsBody, IsCell, is_nil};
ghost use Rattle.and_grammar.specs.Views.{atom_part, unary_part, binary_part, named_part, list_part};
ghost use Rattle.and_grammar.specs.Views.{cell_part, nil_part};

use and_drafts::{ClauseDraft, Part};

/// What the term that ends at a part is as a body.
#[derive(Clone, Copy)]
pub(crate) enum BodyPart {
    /// `[]`.
    Nothing,
    /// A list that ends in `[]` and has elements.
    Terminals,
    /// The one argument of `{}`.
    Goals { goals: u32 },
    Nonterminal,
    /// Two bodies one after the other, `,`.
    Both { left: u32, right: u32 },
    /// A first alternative and the others, `;`.
    Either { left: u32, right: u32 },
    /// What no rule has.
    Impure,
}

/// What a part is as a body. Takes no memory.
pub(crate) fn body_part(rule: &ClauseDraft, place: u32) -> BodyPart
    requires { place < (draft_of rule.now).parts }
    ensures { IsBody rule.now place result (body_at rule.now place) }
{
    match rule.part(place) {
        Part::Variable { .. } => BodyPart::Impure,
        Part::Integer(_) => BodyPart::Impure,
        Part::Compound { name, .. } => named_body(rule, name, rule.arguments(place)),
    }
}

/// What a name with arguments is as a body.
fn named_body(rule: &ClauseDraft, name: &[u8], arguments: &[u32]) -> BodyPart
    requires { All (λ n. n < (draft_of rule.now).parts) arguments.now }
    ensures { result ≡ named_part rule.now name.now arguments.now }
{
    match arguments {
        [] => atom_body(name),
        [inner] => unary_body(name, *inner),
        [left, right] => binary_body(rule, name, *left, *right),
        _ => BodyPart::Nonterminal,
    }
}

/// What an atom is as a body.
fn atom_body(name: &[u8]) -> BodyPart
    ensures { result ≡ atom_part name.now }
{
    if name == b"[]".as_slice() {
        return BodyPart::Nothing;
    }
    if name == b"!".as_slice() || is_reserved(name) {
        return BodyPart::Impure;
    }
    BodyPart::Nonterminal
}

/// A name that means something else with two arguments.
fn is_reserved(name: &[u8]) -> bool
    ensures { result ≡ has name.now reserved }
{
    name == b",".as_slice()
        || name == b"=".as_slice()
        || name == b"is".as_slice()
        || name == b"<".as_slice()
        || name == b">".as_slice()
        || name == b"=<".as_slice()
        || name == b">=".as_slice()
        || name == b"=:=".as_slice()
        || name == b"=\\=".as_slice()
        || name == b";".as_slice()
        || name == b"->".as_slice()
}

/// What a name with one argument is as a body.
fn unary_body(name: &[u8], inner: u32) -> BodyPart
    ensures { result ≡ unary_part name.now inner }
{
    if name == b"{}".as_slice() {
        return BodyPart::Goals { goals: inner };
    }
    if name == b"\\+".as_slice() {
        return BodyPart::Impure;
    }
    BodyPart::Nonterminal
}

/// What a name with two arguments is as a body.
fn binary_body(rule: &ClauseDraft, name: &[u8], left: u32, right: u32) -> BodyPart
    requires { right < (draft_of rule.now).parts }
    ensures { result ≡ binary_part rule.now name.now left right }
{
    if name == b",".as_slice() {
        return BodyPart::Both { left, right };
    }
    if name == b";".as_slice() {
        return BodyPart::Either { left, right };
    }
    if name == b".".as_slice() {
        return list_body(rule, right);
    }
    if name == b"->".as_slice() {
        return BodyPart::Impure;
    }
    BodyPart::Nonterminal
}

/// What a list cell is as a body, by its rest.
fn list_body(rule: &ClauseDraft, rest: u32) -> BodyPart
    requires { rest < (draft_of rule.now).parts }
    ensures { result ≡ list_part (elements (term_at rule.now rest)) }
{
    let mut end = rest;
    while let Some(next) = cell_at(rule, end) {
        end = next.rest;
    }
    if is_empty_list(rule, end) {
        BodyPart::Terminals
    } else {
        BodyPart::Impure
    }
}

/// A list by its first element and its rest.
#[derive(Clone, Copy)]
pub(crate) struct Cell {
    pub(crate) element: u32,
    pub(crate) rest: u32,
}

/// The element and the rest of a list cell; `None` where a part is none. Takes no memory.
pub(crate) fn cell_at(rule: &ClauseDraft, place: u32) -> Option<Cell>
    requires { place < (draft_of rule.now).parts }
    ensures { IsCell rule.now place result }
{
    match rule.part(place) {
        Part::Compound { name, .. } => named_cell(name, rule.arguments(place)),
        Part::Variable { .. } => None,
        Part::Integer(_) => None,
    }
}

/// The list cell of a name with these arguments.
fn named_cell(name: &[u8], arguments: &[u32]) -> Option<Cell>
    ensures { result ≡ cell_part name.now arguments.now }
{
    match arguments {
        [element, rest] => pair_cell(name, *element, *rest),
        _ => None,
    }
}

/// The list cell of a name with two arguments.
fn pair_cell(name: &[u8], element: u32, rest: u32) -> Option<Cell>
    ensures { result ≡ cell_part name.now (element ∷ rest ∷ []) }
{
    if name == b".".as_slice() {
        Some(Cell { element, rest })
    } else {
        None
    }
}

/// Whether a part is `[]`.
fn is_empty_list(rule: &ClauseDraft, place: u32) -> bool
    requires { place < (draft_of rule.now).parts }
    ensures { result ≡ is_nil (term_at rule.now place) }
{
    match rule.part(place) {
        Part::Compound { name, .. } => is_empty_name(name, rule.arguments(place)),
        Part::Variable { .. } => false,
        Part::Integer(_) => false,
    }
}

/// Whether a name with these arguments is `[]`.
fn is_empty_name(name: &[u8], arguments: &[u32]) -> bool
    ensures { result ≡ nil_part name.now arguments.now }
{
    match arguments {
        [] => name == b"[]".as_slice(),
        _ => false,
    }
}
