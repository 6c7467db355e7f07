//! A look at a call, before its clauses are tried: most heads that it can't be made one with have
//! another print, and need no trial.

ghost use Rattle.std.specs.Prelude.{◌≡◌, ◌<◌, ◌≤◌, ℕ, true, List, length};
ghost use Rattle.and_model.specs.Terms.{Term, Substitution, apply};
ghost use Rattle.and_model.specs.Solutions.{Solves};
ghost use Rattle.and_program.specs.Loaded.{program_of};
ghost use Rattle.and_program.specs.Shown.{argument_of};
ghost use Rattle.and_program.specs.Skeletons.{node_term};
ghost use Rattle.and_model.specs.declared.reference.Ref.{Ref};
ghost use Rattle.and_cells.specs.Ranges.{NamedProgram, IsInRangeOrHalf, IsNodeInRange};
ghost use Rattle.and_cells.specs.Seen.{IsWrittenIfNumber, OnlyReads};
ghost use Rattle.and_cells.specs.Meaning.{equations_of};
ghost use Rattle.and_cells.specs.Parts.{named};
ghost use Rattle.and_branch_laws.specs.Variables.{placed};
ghost use Rattle.and_clause_index.specs.Looks.{Fits, MayBe, IsGlimpse, IsGlimpseAt, IsSeenIn, IsCertain, IsLookOver};
ghost use Rattle.and_clause_index.specs.Looks.{IsLook};
ghost use Rattle.and_clause_index.specs.Prints.{Tells, MarksTell, mark, marks_at, argument_kind, are_apart, no_print};
ghost use Rattle.and_clause_index.specs.Served.{NodeHas, AreServed};
ghost use Rattle.and_clause_index.specs.Tables.{print_at, IsKnown};

use crate::prints::{Marks, Print, count_in, is_doubled, mark_of};
use crate::table::Determinacy;
use and_cells::{Cells, deref};
use and_model::{ClauseNo, NodeNo, Ref};
use and_program::{Loaded, NodeKind};

/// What was seen of an argument of a call.
#[derive(Clone, Copy, PartialEq, Eq, Debug)]
struct Glimpse {
    /// What it is. A variable stands for what is not known.
    kind: NodeKind,
    marks: Marks,
}

/// What was seen of a call.
#[derive(Clone, Copy, PartialEq, Eq, Debug)]
pub struct Look {
    /// What its first argument is. A variable stands for what is not known, and for none.
    first: NodeKind,
    print: Print,
}

/// What is known of the term of the end of a chain.
#[inline(always)]
fn kind_of<C: Cells>(loaded: &Loaded, cells: &mut C, at: Ref) -> NodeKind
    requires program { C.program ≡ named loaded.now }
    requires in_range { IsInRangeOrHalf C.program (C.seen cells.old).words at }
    requires written { IsWrittenIfNumber (C.seen cells.old) at }
    ensures over { C.over cells.new ≡ C.over cells.old }
    ensures grew { C.Grew cells.old cells.new }
    ensures reads { OnlyReads (C.seen cells.old) (C.seen cells.new) }
    ensures fits { (row : List Ref) → IsSeenIn (C.seen cells.new) row → (s : Substitution) (t : Term)
        → MayBe C.program row s at t → Fits result t }
{
    match at {
        Ref::Free => NodeKind::Variable(0),
        Ref::Cell(_) => NodeKind::Variable(0),
        Ref::Node { node, base: _ } => loaded.kind(node),
        Ref::Number(pair) => NodeKind::Number(cells.number(pair)),
        Ref::Half(_) => NodeKind::Variable(0),
    }
}

/// What is known of the term of a node in the frame at the base.
#[inline(always)]
fn kind_in<C: Cells>(loaded: &Loaded, cells: &mut C, node: NodeNo, base: u32) -> NodeKind
    requires program { C.program ≡ named loaded.now }
    requires node { IsNodeInRange C.program (C.seen cells.old).words node.0 base }
    ensures over { C.over cells.new ≡ C.over cells.old }
    ensures grew { C.Grew cells.old cells.new }
    ensures reads { OnlyReads (C.seen cells.old) (C.seen cells.new) }
    ensures fits { IsCertain C.program (C.seen cells.new)
        (λ s. Fits result (apply s (placed base (node_term C.program.skeleton.nodes node.0)))) }
{
    loaded.skeleton_is_of_the_program();
    let at = deref(cells, loaded.resolve(node, base));
    kind_of(loaded, cells, at)
}

/// The mark of what is known of an argument of a node in the frame at the base.
#[inline(always)]
fn known_mark<C: Cells>(loaded: &Loaded, cells: &mut C, node: NodeNo, base: u32, place: u8) -> u8
    requires program { C.program ≡ named loaded.now }
    requires node { IsNodeInRange C.program (C.seen cells.old).words node.0 base }
    ensures over { C.over cells.new ≡ C.over cells.old }
    ensures grew { C.Grew cells.old cells.new }
    ensures reads { OnlyReads (C.seen cells.old) (C.seen cells.new) }
    ensures tells { IsCertain C.program (C.seen cells.new)
        (λ s. Tells result (mark
        (argument_kind (apply s (placed base (node_term C.program.skeleton.nodes node.0))) place))) }
{
    loaded.skeleton_is_of_the_program();
    let count = count_in(loaded.kind(node));
    if place >= count {
        return 0;
    }
    let argument = loaded.argument(node, place);
    mark_of(kind_in(loaded, cells, argument, base))
}

/// What is known of the first argument of a node in the frame at the base. A variable says nothing.
#[inline(always)]
fn known_first<C: Cells>(loaded: &Loaded, cells: &mut C, node: NodeNo, base: u32) -> NodeKind
    requires program { C.program ≡ named loaded.now }
    requires node { IsNodeInRange C.program (C.seen cells.old).words node.0 base }
    ensures over { C.over cells.new ≡ C.over cells.old }
    ensures grew { C.Grew cells.old cells.new }
    ensures reads { OnlyReads (C.seen cells.old) (C.seen cells.new) }
    ensures fits { IsCertain C.program (C.seen cells.new)
        (λ s. Fits result (argument_of (apply s (placed base (node_term C.program.skeleton.nodes node.0))) 0)) }
{
    loaded.skeleton_is_of_the_program();
    let count = count_in(loaded.kind(node));
    if count == 0 {
        return NodeKind::Variable(0);
    }
    let argument = loaded.argument(node, 0);
    kind_in(loaded, cells, argument, base)
}

/// What is known of the term of the end of a chain, and of its first two arguments.
fn end_glimpse<C: Cells>(loaded: &Loaded, cells: &mut C, at: Ref) -> Glimpse
    requires program { C.program ≡ named loaded.now }
    requires in_range { IsInRangeOrHalf C.program (C.seen cells.old).words at }
    requires written { IsWrittenIfNumber (C.seen cells.old) at }
    ensures over { C.over cells.new ≡ C.over cells.old }
    ensures grew { C.Grew cells.old cells.new }
    ensures reads { OnlyReads (C.seen cells.old) (C.seen cells.new) }
    ensures glimpse { (row : List Ref) → IsSeenIn (C.seen cells.new) row → (s : Substitution) (t : Term)
        → Solves s (equations_of C.program row) → MayBe C.program row s at t → IsGlimpse result t }
{
    let kind = kind_of(loaded, cells, at);
    let own = mark_of(kind);
    match at {
        Ref::Node { node, base } => {
            let first = known_mark(loaded, cells, node, base, 0);
            let second = known_mark(loaded, cells, node, base, 1);
            let marks = Marks { own, first, second };
            Glimpse { kind, marks }
        }
        _ => {
            let marks = Marks {
                own,
                first: 0,
                second: 0,
            };
            Glimpse { kind, marks }
        }
    }
}

/// What is known of an argument of a node in the frame at the base, and of its first two arguments.
fn argument_glimpse<C: Cells>(
    loaded: &Loaded,
    cells: &mut C,
    node: NodeNo,
    base: u32,
    place: u8,
) -> Glimpse
    requires program { C.program ≡ named loaded.now }
    requires node { IsNodeInRange C.program (C.seen cells.old).words node.0 base }
    ensures over { C.over cells.new ≡ C.over cells.old }
    ensures grew { C.Grew cells.old cells.new }
    ensures reads { OnlyReads (C.seen cells.old) (C.seen cells.new) }
    ensures glimpse { IsCertain C.program (C.seen cells.new)
        (λ s. IsGlimpseAt result (apply s (placed base (node_term C.program.skeleton.nodes node.0))) place) }
{
    loaded.skeleton_is_of_the_program();
    let count = count_in(loaded.kind(node));
    if place >= count {
        return Glimpse {
            kind: NodeKind::Variable(0),
            marks: Marks::none(),
        };
    }
    let argument = loaded.argument(node, place);
    let at = deref(cells, loaded.resolve(argument, base));
    end_glimpse(loaded, cells, at)
}

/// What is known of an argument of a node in the frame at the base, and of its first two arguments, as far as marks are
/// asked for.
#[inline(always)]
fn asked_marks<C: Cells>(
    asked: Marks,
    loaded: &Loaded,
    cells: &mut C,
    node: NodeNo,
    base: u32,
    place: u8,
) -> Marks
    requires program { C.program ≡ named loaded.now }
    requires node { IsNodeInRange C.program (C.seen cells.old).words node.0 base }
    ensures over { C.over cells.new ≡ C.over cells.old }
    ensures grew { C.Grew cells.old cells.new }
    ensures reads { OnlyReads (C.seen cells.old) (C.seen cells.new) }
    ensures tells { IsCertain C.program (C.seen cells.new)
        (λ s. MarksTell result (marks_at (apply s (placed base (node_term C.program.skeleton.nodes node.0))) place)) }
{
    if asked.first != 0 || asked.second != 0 {
        return argument_glimpse(loaded, cells, node, base, place).marks;
    }
    let own = asked_mark(asked.own, loaded, cells, node, base, place);
    Marks {
        own,
        first: 0,
        second: 0,
    }
}

/// The mark of what is known of an argument of a node in the frame at the base, if one is asked for.
#[inline(always)]
fn asked_mark<C: Cells>(
    asked: u8,
    loaded: &Loaded,
    cells: &mut C,
    node: NodeNo,
    base: u32,
    place: u8,
) -> u8
    requires program { C.program ≡ named loaded.now }
    requires node { IsNodeInRange C.program (C.seen cells.old).words node.0 base }
    ensures over { C.over cells.new ≡ C.over cells.old }
    ensures grew { C.Grew cells.old cells.new }
    ensures reads { OnlyReads (C.seen cells.old) (C.seen cells.new) }
    ensures tells { IsCertain C.program (C.seen cells.new)
        (λ s. Tells result (mark
        (argument_kind (apply s (placed base (node_term C.program.skeleton.nodes node.0))) place))) }
{
    if asked == 0 {
        return 0;
    }
    known_mark(loaded, cells, node, base, place)
}

/// The clauses that serve the first argument of a call, whose node is given, in the frame at the base. Where the
/// clauses of its predicate are not told apart by it, it is not looked at. Takes no memory.
#[inline(always)]
pub fn clauses_by_first<'a, C: Cells>(
    table: &'a Determinacy,
    loaded: &Loaded,
    cells: &mut C,
    node: NodeNo,
    base: u32,
) -> &'a [ClauseNo]
    requires program { C.program ≡ named loaded.now }
    requires node { IsNodeInRange C.program (C.seen cells.old).words node.0 base }
    requires known { IsKnown C.program table.now node.0 }
    ensures over { C.over cells.new ≡ C.over cells.old }
    ensures grew { C.Grew cells.old cells.new }
    ensures reads { OnlyReads (C.seen cells.old) (C.seen cells.new) }
    ensures served { (row : List Ref) → IsSeenIn (C.seen cells.new) row
        → AreServed C.program row node.0 base result.now }
{
    let Some(predicate) = table.predicate(node) else {
        return &[];
    };
    if !predicate.has_keys() {
        return predicate.tried(NodeKind::Variable(0));
    }
    let first = known_first(loaded, cells, node, base);
    predicate.tried(first)
}

impl Look {
    /// Nothing was seen yet. Takes no memory.
    pub fn none() -> Look {
        Look {
            first: NodeKind::Variable(0),
            print: Print::none(),
        }
    }

    /// This was seen of the first argument, and nothing else.
    fn of_first(first: NodeKind) -> Look
        ensures { result ≡ record { first = first; print = no_print } }
    {
        Look {
            first,
            print: Print::none(),
        }
    }

    /// Looks at a call, whose node is given, in the frame at the base. Where no two clauses serve its first
    /// argument, nothing else of it is looked at. Takes no memory.
    pub fn at<C: Cells>(
        table: &Determinacy,
        loaded: &Loaded,
        cells: &mut C,
        node: NodeNo,
        base: u32,
    ) -> Look
        requires program { C.program ≡ named loaded.now }
        requires node { IsNodeInRange C.program (C.seen cells.old).words node.0 base }
        ensures over { C.over cells.new ≡ C.over cells.old }
        ensures grew { C.Grew cells.old cells.new }
        ensures reads { OnlyReads (C.seen cells.old) (C.seen cells.new) }
        ensures look { IsLookOver C.program (C.seen cells.new) node.0 base result }
    {
        let first = Look::at_first(loaded, cells, node, base);
        if table.clauses(node, first.first).len() < 2 {
            return first;
        }
        Look::at_all(loaded, cells, node, base)
    }

    /// Looks at the first argument of a call alone. Takes no memory.
    #[inline(never)]
    pub fn at_first<C: Cells>(loaded: &Loaded, cells: &mut C, node: NodeNo, base: u32) -> Look
        requires program { C.program ≡ named loaded.now }
        requires node { IsNodeInRange C.program (C.seen cells.old).words node.0 base }
        ensures over { C.over cells.new ≡ C.over cells.old }
        ensures grew { C.Grew cells.old cells.new }
        ensures reads { OnlyReads (C.seen cells.old) (C.seen cells.new) }
        ensures look { IsLookOver C.program (C.seen cells.new) node.0 base result }
    {
        Look::of_first(known_first(loaded, cells, node, base))
    }

    /// Looks at all that prints tell of a call. Takes no memory.
    #[inline(never)]
    pub fn at_all<C: Cells>(loaded: &Loaded, cells: &mut C, node: NodeNo, base: u32) -> Look
        requires program { C.program ≡ named loaded.now }
        requires node { IsNodeInRange C.program (C.seen cells.old).words node.0 base }
        ensures over { C.over cells.new ≡ C.over cells.old }
        ensures grew { C.Grew cells.old cells.new }
        ensures reads { OnlyReads (C.seen cells.old) (C.seen cells.new) }
        ensures look { IsLookOver C.program (C.seen cells.new) node.0 base result }
    {
        let first = argument_glimpse(loaded, cells, node, base, 0);
        let second = argument_glimpse(loaded, cells, node, base, 1);
        let third = known_mark(loaded, cells, node, base, 2);
        let fourth = known_mark(loaded, cells, node, base, 3);
        Look {
            first: first.kind,
            print: Print {
                first: first.marks,
                second: second.marks,
                third,
                fourth,
            },
        }
    }

    /// Looks at what the prints of the heads of its predicate tell of a call, whose node is given, in the frame at the
    /// base. Takes no memory.
    pub fn at_asked<C: Cells>(
        table: &Determinacy,
        loaded: &Loaded,
        cells: &mut C,
        node: NodeNo,
        base: u32,
    ) -> Look
        requires program { C.program ≡ named loaded.now }
        requires node { IsNodeInRange C.program (C.seen cells.old).words node.0 base }
        ensures over { C.over cells.new ≡ C.over cells.old }
        ensures grew { C.Grew cells.old cells.new }
        ensures reads { OnlyReads (C.seen cells.old) (C.seen cells.new) }
        ensures look { IsLookOver C.program (C.seen cells.new) node.0 base result }
    {
        let asked = table.asked(node);
        let first = asked_marks(asked.first, loaded, cells, node, base, 0);
        let second = asked_marks(asked.second, loaded, cells, node, base, 1);
        let third = asked_mark(asked.third, loaded, cells, node, base, 2);
        let fourth = asked_mark(asked.fourth, loaded, cells, node, base, 3);
        Look {
            first: NodeKind::Variable(0),
            print: Print {
                first,
                second,
                third,
                fourth,
            },
        }
    }

    /// These clauses, which serve a call that was looked at and whose node is given, or others that serve it, whichever
    /// are fewer. Takes no memory.
    #[inline(always)]
    pub fn sift<'a>(
        &self,
        table: &'a Determinacy,
        node: NodeNo,
        clauses: &'a [ClauseNo],
    ) -> &'a [ClauseNo]
        ensures { (P : NamedProgram) (row : List Ref) (base : ℕ) → IsKnown P table.now node.0
            → IsLook P row node.0 base self.now → AreServed P row node.0 base clauses.now
            → AreServed P row node.0 base result.now }
    {
        table.sifted(node, self.print, clauses)
    }

    /// What the first argument of the call is. A variable stands for what is not known, and for none.
    pub fn first(&self) -> NodeKind
        ensures { result ≡ self.now.first }
    {
        self.first
    }

    /// Whether the print of a clause's head tells it apart from the call. Takes no memory.
    #[inline(always)]
    pub fn is_apart(&self, table: &Determinacy, clause: ClauseNo) -> bool
        requires { clause.0 < length table.now.prints.items }
        ensures { result ≡ are_apart self.now.print (print_at table.now clause.0) }
    {
        self.print.is_apart(table.print(clause))
    }

    /// Whether the first two arguments of a clause's head are one variable, and those of the call can't be made one.
    /// Takes no memory.
    #[inline(always)]
    pub fn is_doubled_apart(&self, loaded: &Loaded, clause: ClauseNo) -> bool
        requires { clause.0 ≤ length (program_of loaded.now).clauses }
        ensures { result ≡ true → (P : NamedProgram) (row : List Ref) (node base : ℕ) → P ≡ named loaded.now
            → IsLook P row node base self.now → NodeHas P row node base clause → ⊥ }
    {
        if !self.print.first.is_apart(self.print.second) {
            return false;
        }
        is_doubled(loaded, loaded.head(clause))
    }
}
