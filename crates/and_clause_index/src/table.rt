//! What is compiled of a program, once.

ghost use Rattle.std.specs.Prelude.{◌≡◌, ◌≢◌, ◌<◌, ◌≤◌, ◌^◌, ℕ, [], Some, get_or, length, slice_get, OnOk, IfOk, All};
ghost use Rattle.std.specs.Option.{option_copied};
ghost use Rattle.and_model.specs.Programs.{Program, clause_at};
ghost use Rattle.and_program.specs.Items.{node_item};
ghost use Rattle.and_program.specs.Loaded.{nodes_at, program_of, skeleton_of};
ghost use Rattle.and_program.specs.Skeletons.{call, node_term};
ghost use Rattle.and_cells.specs.Parts.{named};
ghost use Rattle.and_clause_index.specs.Tables.{clauses_for, first_of, added, additions_of, under_key, tried, entry_at};
ghost use Rattle.and_clause_index.specs.Tables.{print_at, IsTableFor, IsEntryFor, IsKnown, IsTableOf, AreFirsts};
ghost use Rattle.and_clause_index.specs.Tables.{IsLonger, IsMade, StaysKnown, KnowsCalls, IsSifted};
ghost use Rattle.and_clause_index.specs.Prints.{ArePrints};

use crate::prints::{Print, count_in, has_doubled, joined, prints_of};
use crate::sieve::{Sieve, sieve_of};
use and_first_argument::{Addition, FirstArguments, Key};
use and_model::{ClauseNo, NodeNo};
use and_program::{ItemNode, Loaded, NodeKind};
use std::alloc::{AllocError, Global};

/// What is kept of a predicate.
pub(crate) struct Predicate {
    /// Its clauses, in textual order.
    clauses: Vec<ClauseNo>,
    /// Those of them that serve a first argument, if a table of them pays.
    by_first: Option<FirstArguments>,
    /// Those that a look leaves by one place, if a table of them pays.
    sieve: Option<Sieve>,
    /// The prints of their heads put together: what is to be looked at in a call.
    asked: Print,
}

// By hand, so that it is proved once, here.
impl Drop for Predicate {
    fn drop(self) {
        let Predicate {
            clauses: _,
            by_first: _,
            sieve: _,
            asked: _,
        } = self;
    }
}

/// A program's table: for each call of a body, the clauses of its predicate, and for each clause the
/// print of its head.
pub struct Determinacy {
    /// By node: the number of the predicate that it calls. Predicate 0 has no clauses.
    numbers: Vec<usize>,
    predicates: Vec<Predicate>,
    /// By clause.
    prints: Vec<Print>,
}

// By hand, so that it is proved here once, and not in each crate that lets go of a table.
impl Drop for Determinacy {
    fn drop(self) {
        let Determinacy {
            numbers: _,
            predicates: _,
            prints: _,
        } = self;
    }
}

/// The number at a place; 0 where there is none.
fn number_at(numbers: &[usize], place: usize) -> usize
    ensures { result ≡ get_or numbers.now place 0 }
{
    match numbers.get(place) {
        Some(number) => *number,
        None => 0,
    }
}

/// Puts a number at a place. An error is want of memory.
fn put_number(numbers: &mut Vec<usize>, place: usize, number: usize) -> Result<(), AllocError>
    requires { place < 2 ^ 32 }
    ensures here { OnOk result (get_or numbers.new.items place 0 ≡ number) }
    ensures others { OnOk result ((other : ℕ) → other ≢ place
        → get_or numbers.new.items other 0 ≡ get_or numbers.old.items other 0) }
{
    if numbers.len() <= place {
        numbers.resize(place + 1, 0)?;
    }
    numbers[place] = number;
    Ok(())
}

impl Predicate {
    /// Whether first arguments tell its clauses apart.
    #[inline(always)]
    pub(crate) fn has_keys(&self) -> bool {
        self.by_first.is_some()
    }

    /// The clauses that serve a key of first arguments. Takes no memory.
    #[inline(always)]
    fn under(&self, key: Key) -> &[ClauseNo]
        ensures { result.now ≡ under_key (Some self.now) key }
    {
        match &self.by_first {
            Some(table) => table.pick(key),
            None => &self.clauses,
        }
    }

    /// The clauses that serve a first argument of which this is known. Takes no memory.
    #[inline(always)]
    pub(crate) fn tried(&self, first: NodeKind) -> &[ClauseNo]
        ensures { result.now ≡ tried (Some self.now) first }
    {
        match first {
            NodeKind::Variable(_) => &self.clauses,
            NodeKind::Number(number) => self.under(Key::Number(number)),
            NodeKind::Compound { name, count } => self.under(Key::Name { name, count }),
        }
    }

    /// These clauses, or those that a print leaves at one place, whichever are fewer. Takes no memory.
    #[inline(always)]
    fn sifted<'a>(&'a self, print: Print, clauses: &'a [ClauseNo]) -> &'a [ClauseNo]
        ensures { IsSifted (Some self.now) print clauses.now result.now }
    {
        match &self.sieve {
            Some(sieve) => sieve.shorter(print, clauses),
            None => clauses,
        }
    }
}

impl Determinacy {
    /// The clauses of the predicate that a node calls which serve a first argument of which this is
    /// known.
    #[inline(always)]
    pub fn clauses(&self, node: NodeNo, first: NodeKind) -> &[ClauseNo]
        ensures { result.now ≡ tried (entry_at self.now node.0) first }
    {
        match self
            .predicates
            .get(number_at(&self.numbers, node.0 as usize))
        {
            Some(predicate) => predicate.tried(first),
            None => &[],
        }
    }

    /// The predicate that a node calls, if it is known.
    #[inline(always)]
    pub(crate) fn predicate(&self, node: NodeNo) -> Option<&Predicate>
        ensures { option_copied result ≡ entry_at self.now node.0 }
    {
        self.predicates
            .get(number_at(&self.numbers, node.0 as usize))
    }

    /// What is to be looked at in a call, whose node is given: at each place a mark, if one of the heads of its
    /// predicate has one there.
    #[inline(always)]
    pub(crate) fn asked(&self, node: NodeNo) -> Print {
        match self
            .predicates
            .get(number_at(&self.numbers, node.0 as usize))
        {
            Some(predicate) => predicate.asked,
            None => Print::none(),
        }
    }

    /// These clauses, or those of the predicate that a node calls which a print leaves at one place, whichever are
    /// fewer.
    #[inline(always)]
    pub(crate) fn sifted<'a>(
        &'a self,
        node: NodeNo,
        print: Print,
        clauses: &'a [ClauseNo],
    ) -> &'a [ClauseNo]
        ensures { IsSifted (entry_at self.now node.0) print clauses.now result.now }
    {
        match self
            .predicates
            .get(number_at(&self.numbers, node.0 as usize))
        {
            Some(predicate) => predicate.sifted(print, clauses),
            None => clauses,
        }
    }

    /// The print of the head of a clause.
    pub(crate) fn print(&self, clause: ClauseNo) -> Print
        requires { clause.0 < length self.now.prints.items }
        ensures { result ≡ print_at self.now clause.0 }
    {
        self.prints[clause.0 as usize]
    }
}

/// The clauses of the predicate of a node's term.
fn clauses_of(loaded: &Loaded, node: NodeNo) -> &[ClauseNo]
    requires { node.0 < length (skeleton_of loaded.now).nodes }
    ensures { result.now ≡ clauses_for (program_of loaded.now) (node_term (skeleton_of loaded.now).nodes node.0) }
{
    match loaded.kind(node) {
        NodeKind::Compound { name, count } => loaded.clauses_of(name, count),
        NodeKind::Variable(_) => &[],
        NodeKind::Number(_) => &[],
    }
}

/// What the first argument of a node is. A variable stands for none.
fn first_kind(loaded: &Loaded, node: NodeNo) -> NodeKind
    requires { node.0 < length (skeleton_of loaded.now).nodes }
    ensures { result ≡ first_of (node_term (skeleton_of loaded.now).nodes node.0) }
{
    if count_in(loaded.kind(node)) == 0 {
        return NodeKind::Variable(0);
    }
    loaded.kind(loaded.argument(node, 0))
}

/// A clause by what its first argument is.
fn addition_of(first: NodeKind, clause: ClauseNo) -> Addition
    ensures { result ≡ added first clause }
{
    match first {
        NodeKind::Variable(_) => Addition::Any { clause },
        NodeKind::Number(number) => Addition::Under {
            key: Key::Number(number),
            clause,
        },
        NodeKind::Compound { name, count } => Addition::Under {
            key: Key::Name { name, count },
            clause,
        },
    }
}

/// The clauses by what their first arguments are. An error is want of memory.
fn additions_for(
    alloc: Global,
    loaded: &Loaded,
    clauses: &[ClauseNo],
) -> Result<Vec<Addition>, AllocError>
    requires { All (λ (c : ClauseNo). c.0 ≤ length (program_of loaded.now).clauses) clauses.now }
    ensures { IfOk result (λ additions. additions.items ≡ additions_of (program_of loaded.now) clauses.now) }
{
    let mut additions = Vec::new(alloc);
    for clause in clauses {
        additions.push(addition_of(first_kind(loaded, loaded.head(*clause)), *clause))?;
    }
    Ok(additions)
}

/// How often clauses may stand in the lists of a predicate's keys.
const MOST_LISTED: usize = 1 << 20;

/// Whether a clause has no key, and so stands in the list of each.
fn serves_all(addition: Addition) -> bool {
    match addition {
        Addition::Under { key: _, clause: _ } => false,
        Addition::Any { clause: _ } => true,
    }
}

/// Whether a table of these clauses pays: some have keys, and it stays small, since there are few of them, or of those
/// without a key.
fn pays(additions: &[Addition]) -> bool {
    let shared = additions
        .iter()
        .filter(|addition| serves_all(**addition))
        .count();
    shared < additions.len() && shared.saturating_mul(additions.len()) <= MOST_LISTED
}

/// The table of these clauses by first arguments, if it pays. An error is want of memory.
fn table_of(
    alloc: Global,
    loaded: &Loaded,
    clauses: &[ClauseNo],
) -> Result<Option<FirstArguments>, AllocError>
    requires { All (λ (c : ClauseNo). c.0 ≤ length (program_of loaded.now).clauses) clauses.now }
    ensures { IfOk result (IsTableFor (additions_of (program_of loaded.now) clauses.now)) }
{
    let additions = additions_for(alloc, loaded, clauses)?;
    if !pays(&additions) {
        return Ok(None);
    }
    Ok(Some(FirstArguments::of(alloc, &additions)?))
}

/// What is to be looked at in a call of these clauses: what the prints of their heads tell, and where the first two
/// arguments of a head are one variable, these of the call. The prints of all heads are given.
fn asked_of(loaded: &Loaded, prints: &[Print], clauses: &[ClauseNo]) -> Print
    requires prints { All (λ (c : ClauseNo). c.0 < length prints.now) clauses.now }
    requires clauses { All (λ (c : ClauseNo). c.0 ≤ length (program_of loaded.now).clauses) clauses.now }
{
    let asked = joined(prints, clauses);
    if has_doubled(loaded, clauses) {
        return asked.with_first_two();
    }
    asked
}

/// What is kept of the predicate of these clauses. The prints of all heads are given. An error is want of memory.
fn entry_of(
    alloc: Global,
    loaded: &Loaded,
    prints: &[Print],
    clauses: &[ClauseNo],
) -> Result<Predicate, AllocError>
    requires prints { ArePrints (program_of loaded.now) prints.now }
    requires clauses { All (λ (c : ClauseNo). c.0 ≤ length (program_of loaded.now).clauses) clauses.now }
    ensures { IfOk result (λ predicate. IsEntryFor (program_of loaded.now) clauses.now (Some predicate)) }
{
    let by_first = table_of(alloc, loaded, clauses)?;
    let sieve = sieve_of(alloc, prints, clauses)?;
    let asked = asked_of(loaded, prints, clauses);
    let clauses = Vec::from_slice(alloc, clauses)?;
    Ok(Predicate {
        clauses,
        by_first,
        sieve,
        asked,
    })
}

/// The number of the predicate of a node, whose entry is made where there is none yet. `firsts` has
/// the numbers of the entries by their first clauses. An error is want of memory.
fn predicate_number(
    loaded: &Loaded,
    prints: &[Print],
    node: NodeNo,
    predicates: &mut Vec<Predicate>,
    firsts: &mut Vec<usize>,
) -> Result<usize, AllocError>
    requires prints { ArePrints (program_of loaded.now) prints.now }
    requires node { node.0 < length (skeleton_of loaded.now).nodes }
    requires firsts { AreFirsts (program_of loaded.now) predicates.old.items firsts.old.items }
    ensures firsts { OnOk result (AreFirsts (program_of loaded.now) predicates.new.items firsts.new.items) }
    ensures longer { OnOk result (IsLonger predicates.old.items predicates.new.items) }
    ensures there { IfOk result (λ number. number < length predicates.new.items) }
    ensures entry { IfOk result (λ number.
        IsEntryFor (program_of loaded.now)
        (clauses_for (program_of loaded.now) (node_term (skeleton_of loaded.now).nodes node.0))
        (slice_get predicates.new.items number)) }
{
    let clauses = clauses_of(loaded, node);
    if clauses.is_empty() {
        return Ok(0);
    }
    let first = clauses[0].0 as usize;
    let known = number_at(firsts, first);
    if known != 0 {
        return Ok(known);
    }
    let entry = entry_of(*predicates.allocator(), loaded, prints, clauses)?;
    let number = predicates.len();
    predicates.push(entry)?;
    put_number(firsts, first, number)?;
    Ok(number)
}

impl Determinacy {
    /// A table that knows of no call yet. An error is want of memory.
    pub fn empty(alloc: Global, loaded: &Loaded) -> Result<Determinacy, AllocError>
        ensures { IfOk result (λ table. IsMade (program_of loaded.now) table []) }
    {
        let prints = prints_of(alloc, loaded)?;
        let mut predicates = Vec::new(alloc);
        predicates.push(entry_of(alloc, loaded, &prints, &[])?)?;
        Ok(Determinacy {
            numbers: Vec::new(alloc),
            predicates,
            prints,
        })
    }

    /// Makes known the predicate that a node calls. An error is want of memory.
    fn add_call(
        &mut self,
        loaded: &Loaded,
        node: NodeNo,
        firsts: &mut Vec<usize>,
    ) -> Result<(), AllocError>
        requires node { node.0 < length (skeleton_of loaded.now).nodes }
        requires made { IsMade (program_of loaded.now) self.old firsts.old.items }
        ensures made { OnOk result (IsMade (program_of loaded.now) self.new firsts.new.items) }
        ensures known { OnOk result (IsKnown (named loaded.now) self.new node.0) }
        ensures stays { OnOk result (StaysKnown (named loaded.now) self.old self.new) }
    {
        let number = predicate_number(loaded, &self.prints, node, &mut self.predicates, firsts)?;
        put_number(&mut self.numbers, node.0 as usize, number)
    }

    /// Makes known the predicate that an item calls, if it is a call. An error is want of memory.
    fn add_item(
        &mut self,
        loaded: &Loaded,
        item: ItemNode,
        firsts: &mut Vec<usize>,
    ) -> Result<(), AllocError>
        requires node { (node : ℕ) → node_item item ≡ call node → node < length (skeleton_of loaded.now).nodes }
        requires made { IsMade (program_of loaded.now) self.old firsts.old.items }
        ensures made { OnOk result (IsMade (program_of loaded.now) self.new firsts.new.items) }
        ensures known { OnOk result ((node : ℕ) → node_item item ≡ call node
            → IsKnown (named loaded.now) self.new node) }
        ensures stays { OnOk result (StaysKnown (named loaded.now) self.old self.new) }
    {
        match item {
            ItemNode::Call { goal } => self.add_call(loaded, goal, firsts),
            ItemNode::Equal { left: _, right: _ } => Ok(()),
            ItemNode::Is {
                left: _,
                right: _,
                pair: _,
            } => Ok(()),
            ItemNode::Compare {
                relation: _,
                left: _,
                right: _,
            } => Ok(()),
            ItemNode::Fail => Ok(()),
        }
    }

    /// Makes known the predicates that a clause calls. An error is want of memory.
    pub fn add_calls(
        &mut self,
        loaded: &Loaded,
        clause: ClauseNo,
        firsts: &mut Vec<usize>,
    ) -> Result<(), AllocError>
        requires clause { clause.0 ≤ length (program_of loaded.now).clauses }
        requires made { IsMade (program_of loaded.now) self.old firsts.old.items }
        ensures made { OnOk result (IsMade (program_of loaded.now) self.new firsts.new.items) }
        ensures known { OnOk result (KnowsCalls (named loaded.now) self.new clause.0) }
        ensures stays { OnOk result (StaysKnown (named loaded.now) self.old self.new) }
    {
        for item in loaded.items(clause) {
            self.add_item(loaded, *item, firsts)?;
        }
        Ok(())
    }
}

/// The table of a program. An error is want of memory.
pub fn compile(alloc: Global, loaded: &Loaded) -> Result<Determinacy, AllocError>
    ensures { IfOk result (IsTableOf (named loaded.now)) }
{
    let mut table = Determinacy::empty(alloc, loaded)?;
    let mut firsts = Vec::new(alloc);
    for number in 0..loaded.clause_count() + 1 {
        table.add_calls(loaded, ClauseNo(number as u16), &mut firsts)?;
    }
    Ok(table)
}
