//! Writing what stands in a row of words: terms, goals that wait, and the parts of a line.

ghost use Rattle.std.specs.Prelude.{◌≡◌, ◌++◌, List, [], ◌∷◌, false, codes, map, nat_eq, OnOk, IfOk};
ghost use Rattle.std.specs.Prelude.{MatchOption};
ghost use Rattle.and_model.specs.Terms.{Term, Terms, Substitution, compound, more, none, variables_of, variables_in};
ghost use Rattle.and_model.specs.Terms.{apply};
ghost use Rattle.and_model.specs.Lines.{is_cell, point_name, shown, shown_tail, shown_arguments, shown_rest};
ghost use Rattle.and_model.specs.Lines.{shown_value, shown_variables};
ghost use Rattle.and_model.specs.Lines.{values_or_true, variables_along, with_waiting};
ghost use Rattle.and_model.specs.Stands.{item_term};
ghost use Rattle.and_model.specs.declared.reference.Ref.{Ref};
ghost use Rattle.and_program.specs.Skeletons.{item_of};
ghost use Rattle.and_program.specs.Items.{node_item};
ghost use Rattle.and_cells.specs.Parts.{named};
ghost use Rattle.and_print.specs.Given.{GivesQuery};
ghost use Rattle.and_print.specs.Goals.{ItemMeans, GoalMeans, GoalsMean};
ghost use Rattle.and_print.specs.Roots.{Means, ArgumentsMean, RootMeans, Splits, Pairs, IsListCell, is_list_cell};
ghost use Rattle.and_print.specs.Roots.{is_empty_list};
ghost use Rattle.and_print.specs.Tasks.{Piece, TaskMeans, variables_there, piece_text, in_hand, tasks_left};
ghost use Rattle.and_print.specs.Tasks.{Begins, Does};
ghost use Rattle.and_print.specs.Writing.{Variable, Writes};

use crate::lines::{QUERY, begins_underscore, separator};
use crate::names::{EQUAL, FAIL, IS, comparison};
use crate::roots::{Arguments, Root, end_of, may_be_cell};
use crate::tasks::{Begun, Task, hand_over, next_of, write_number};
use crate::variables::VariableNames;
use and_cells::{Naming, PlainCells};
use and_model::builtins::{NIL, POINT};
use and_model::{Goal, GoalList, NameNo, NodeNo, Ref, Text};
use and_program::{ItemNode, Loaded, NodeKind};
use and_quoting::write_name;
use std::alloc::{AllocError, Global};

/// What terms, goals and lines are read from: the program, and the row of words.
pub(crate) struct Printer<'p, N: Naming> {
    pub loaded: &'p Loaded,
    pub cells: &'p PlainCells<N>,
}

// By hand, so that it is proved once, here.
impl<'p, N: Naming> Drop for Printer<'p, N> {
    fn drop(self) {
        let Printer {
            loaded: _,
            cells: _,
        } = self;
    }
}

impl<N: Naming> Printer<'_, N> {
    /// What the term of a structure begins with. Takes no memory.
    fn structure(&self, node: NodeNo, base: u32) -> Root
        requires { (t : Term) × Means (named self.now.loaded.now) self.now.cells.now (Ref.Node node base) t }
        ensures { (t : Term) → Means (named self.now.loaded.now) self.now.cells.now (Ref.Node node base) t
            → RootMeans (named self.now.loaded.now) self.now.cells.now result t }
    {
        match self.loaded.kind(node) {
            NodeKind::Variable(_) => unreachable!(),
            NodeKind::Number(number) => Root::Number(number),
            NodeKind::Compound { name, count } => Root::Compound {
                name,
                arguments: Arguments {
                    node,
                    base,
                    place: 0,
                    count,
                },
            },
        }
    }

    /// What the term of a reference begins with. Takes no memory.
    #[inline(always)]
    fn root(&self, term: Ref) -> Root
        requires program { N.program ≡ named self.now.loaded.now }
        requires means { (t : Term) × Means (named self.now.loaded.now) self.now.cells.now term t }
        ensures { (t : Term) → Means (named self.now.loaded.now) self.now.cells.now term t
            → RootMeans (named self.now.loaded.now) self.now.cells.now result t }
    {
        match end_of(self.cells, term) {
            Ref::Free => unreachable!(),
            Ref::Cell(cell) => Root::Variable(cell),
            Ref::Node { node, base } => self.structure(node, base),
            Ref::Number(pair) => Root::Number(self.cells.held_number(pair)),
            Ref::Half(_) => unreachable!(),
        }
    }

    /// The first of some arguments, and those after it. Takes no memory.
    fn split_first(&self, arguments: Arguments) -> Option<(Ref, Arguments)>
        requires { (ts : Terms) × ArgumentsMean (named self.now.loaded.now) self.now.cells.now arguments ts }
        ensures { (ts : Terms) → ArgumentsMean (named self.now.loaded.now) self.now.cells.now arguments ts
            → MatchOption result (ts ≡ none) (λ s. Splits (named self.now.loaded.now) self.now.cells.now s.0 s.1 ts) }
    {
        if arguments.place >= arguments.count {
            return None;
        }
        let argument = self.loaded.argument(arguments.node, arguments.place);
        let first = self.loaded.resolve(argument, arguments.base);
        let rest = Arguments {
            place: arguments.place + 1,
            ..arguments
        };
        Some((first, rest))
    }

    /// Both of two arguments. Takes no memory.
    fn pair(&self, arguments: Arguments) -> Option<(Ref, Ref)>
        requires { (ts : Terms) × ArgumentsMean (named self.now.loaded.now) self.now.cells.now arguments ts }
        ensures { (ts : Terms) → ArgumentsMean (named self.now.loaded.now) self.now.cells.now arguments ts
            → MatchOption result (is_cell point_name ts ≡ false)
            (λ p. Pairs (named self.now.loaded.now) self.now.cells.now p.0 p.1 ts) }
    {
        let Some((first, rest)) = self.split_first(arguments) else {
            return None;
        };
        let Some((second, last)) = self.split_first(rest) else {
            return None;
        };
        match self.split_first(last) {
            None => Some((first, second)),
            Some(_) => None,
        }
    }

    /// The head and the tail of a list cell. Takes no memory.
    fn list_cell(&self, root: Root) -> Option<(Ref, Ref)>
        requires { (t : Term) × RootMeans (named self.now.loaded.now) self.now.cells.now root t }
        ensures { (t : Term) → RootMeans (named self.now.loaded.now) self.now.cells.now root t
            → MatchOption result (is_list_cell t ≡ false)
            (λ c. IsListCell (named self.now.loaded.now) self.now.cells.now c.0 c.1 t) }
    {
        match root {
            Root::Variable(_) => None,
            Root::Number(_) => None,
            Root::Compound { name, arguments } => {
                if name.0 != POINT {
                    return None;
                }
                self.pair(arguments)
            }
        }
    }

    /// Whether the term is the empty list. Takes no memory.
    fn is_nil(&self, root: Root) -> bool
        requires { (t : Term) × RootMeans (named self.now.loaded.now) self.now.cells.now root t }
        ensures { (t : Term) → RootMeans (named self.now.loaded.now) self.now.cells.now root t
            → result ≡ is_empty_list t }
    {
        match root {
            Root::Variable(_) => false,
            Root::Number(_) => false,
            Root::Compound { name, arguments } => {
                name.0 == NIL && self.split_first(arguments).is_none()
            }
        }
    }

    /// Writes a term that is a variable, a number or a name without arguments. Of another one it
    /// writes nothing, and says where that is. After want of memory all are spent.
    #[inline(always)]
    fn write_simple(
        &self,
        names: &mut VariableNames,
        out: &mut Text,
        term: Ref,
    ) -> Result<Option<Ref>, AllocError>
        requires program { N.program ≡ named self.now.loaded.now }
        requires means { (t : Term) × Means (named self.now.loaded.now) self.now.cells.now term t }
        ensures { (t : Term) → Means (named self.now.loaded.now) self.now.cells.now term t → IfOk result (λ left.
            MatchOption left
            (Writes (variables_of t) (λ vs. shown (named self.now.loaded.now).program.names vs t) names.old names.new
            out.old out.new)
            (λ structure. Means (named self.now.loaded.now) self.now.cells.now structure t × (names.new ≡ names.old)
            × (out.new ≡ out.old))) }
    {
        let end = end_of(self.cells, term);
        match self.root(end) {
            Root::Variable(cell) => {
                names.write(out, cell)?;
                Ok(None)
            }
            Root::Number(number) => {
                write_number(out, number)?;
                Ok(None)
            }
            Root::Compound { name, arguments } => {
                if arguments.count > 0 {
                    return Ok(Some(end));
                }
                write_name(out, self.loaded.name(name))?;
                Ok(None)
            }
        }
    }

    /// Writes arguments in round brackets, or nothing where there are none: as far as the first that
    /// is a structure. After want of memory all are spent.
    #[inline(always)]
    fn write_arguments(
        &self,
        names: &mut VariableNames,
        out: &mut Text,
        arguments: Arguments,
    ) -> Result<Option<Begun>, AllocError>
        requires program { N.program ≡ named self.now.loaded.now }
        requires means { (ts : Terms) × ArgumentsMean (named self.now.loaded.now) self.now.cells.now arguments ts }
        ensures { (ts : Terms) → ArgumentsMean (named self.now.loaded.now) self.now.cells.now arguments ts
            → IfOk result (λ left. Begins (named self.now.loaded.now) self.now.cells.now (variables_in ts)
            (λ vs. shown_arguments (named self.now.loaded.now).program.names vs ts) names.old names.new out.old
            out.new (tasks_left left) 0) }
    {
        let Some((first, rest)) = self.split_first(arguments) else {
            return Ok(None);
        };
        out.append(b"(")?;
        self.write_from(names, out, first, rest)
    }

    /// Writes arguments after others, and the bracket: as far as the first that is a structure. After
    /// want of memory all are spent.
    fn write_rest(
        &self,
        names: &mut VariableNames,
        out: &mut Text,
        arguments: Arguments,
    ) -> Result<Option<Begun>, AllocError>
        requires program { N.program ≡ named self.now.loaded.now }
        requires means { (ts : Terms) × ArgumentsMean (named self.now.loaded.now) self.now.cells.now arguments ts }
        ensures { (ts : Terms) → ArgumentsMean (named self.now.loaded.now) self.now.cells.now arguments ts
            → IfOk result (λ left. Begins (named self.now.loaded.now) self.now.cells.now (variables_in ts)
            (λ vs. shown_rest (named self.now.loaded.now).program.names vs ts) names.old names.new out.old
            out.new (tasks_left left) 0) }
    {
        let Some((first, rest)) = self.split_first(arguments) else {
            out.append(b")")?;
            return Ok(None);
        };
        out.append(b",")?;
        self.write_from(names, out, first, rest)
    }

    /// Writes an argument and those after it, and the bracket: as far as the first that is a
    /// structure. After want of memory all are spent.
    #[inline(always)]
    fn write_from(
        &self,
        names: &mut VariableNames,
        out: &mut Text,
        first: Ref,
        rest: Arguments,
    ) -> Result<Option<Begun>, AllocError>
        requires program { N.program ≡ named self.now.loaded.now }
        requires first { (t : Term) × Means (named self.now.loaded.now) self.now.cells.now first t }
        requires rest { (ts : Terms) × ArgumentsMean (named self.now.loaded.now) self.now.cells.now rest ts }
        ensures { (t : Term) → Means (named self.now.loaded.now) self.now.cells.now first t
            → (ts : Terms) → ArgumentsMean (named self.now.loaded.now) self.now.cells.now rest ts
            → IfOk result (λ left. Begins (named self.now.loaded.now) self.now.cells.now
            (variables_of t ++ variables_in ts) (λ vs. shown (named self.now.loaded.now).program.names vs t
            ++ shown_rest (named self.now.loaded.now).program.names vs ts) names.old names.new out.old
            out.new (tasks_left left) 2) }
    {
        let mut ahead = first;
        let mut behind = rest;
        'writing: loop {
            if let Some(structure) = self.write_simple(names, out, ahead)? {
                return Ok(Some(Begun {
                    structure,
                    rest: Some(behind),
                }));
            }
            let Some((next, others)) = self.split_first(behind) else {
                out.append(b")")?;
                return Ok(None);
            };
            out.append(b",")?;
            ahead = next;
            behind = others;
            // Each turn writes bytes, of which a text has fewer than 2^64.
            let _length = out.len();
        }
    }

    /// Writes a term that is no list cell, of which it is known what it begins with: as far as the
    /// first argument that is a structure. After want of memory all are spent.
    #[inline(always)]
    fn write_other(
        &self,
        names: &mut VariableNames,
        out: &mut Text,
        root: Root,
    ) -> Result<Option<Begun>, AllocError>
        requires program { N.program ≡ named self.now.loaded.now }
        requires means { (t : Term) × RootMeans (named self.now.loaded.now) self.now.cells.now root t }
        ensures { (t : Term) → RootMeans (named self.now.loaded.now) self.now.cells.now root t → is_list_cell t ≡ false
            → IfOk result (λ left. Begins (named self.now.loaded.now) self.now.cells.now (variables_of t)
            (λ vs. shown (named self.now.loaded.now).program.names vs t) names.old names.new out.old out.new
            (tasks_left left) 0) }
    {
        match root {
            Root::Variable(cell) => {
                names.write(out, cell)?;
                Ok(None)
            }
            Root::Number(number) => {
                write_number(out, number)?;
                Ok(None)
            }
            Root::Compound { name, arguments } => {
                write_name(out, self.loaded.name(name))?;
                self.write_arguments(names, out, arguments)
            }
        }
    }

    /// Writes a term as far as the first argument that is a structure, and nothing of what may be a
    /// list cell. After want of memory all are spent.
    #[inline(always)]
    fn write_flat(
        &self,
        names: &mut VariableNames,
        out: &mut Text,
        term: Ref,
    ) -> Result<Option<Begun>, AllocError>
        requires program { N.program ≡ named self.now.loaded.now }
        requires means { (t : Term) × Means (named self.now.loaded.now) self.now.cells.now term t }
        ensures { (t : Term) → Means (named self.now.loaded.now) self.now.cells.now term t
            → IfOk result (λ left. Begins (named self.now.loaded.now) self.now.cells.now (variables_of t)
            (λ vs. shown (named self.now.loaded.now).program.names vs t) names.old names.new out.old out.new
            (tasks_left left) 1) }
    {
        let end = end_of(self.cells, term);
        let root = self.root(end);
        if may_be_cell(root) {
            return Ok(Some(Begun {
                structure: end,
                rest: None,
            }));
        }
        self.write_other(names, out, root)
    }

    /// Writes a term of which it is known what it begins with: of a list as far as the first element
    /// that is not written at once, of another one as far as the first argument that is a structure.
    /// That is handed back, and what is behind it left on the stack. After want of memory all are
    /// spent.
    fn write_root(
        &self,
        names: &mut VariableNames,
        out: &mut Text,
        work: &mut Vec<Task>,
        root: Root,
    ) -> Result<Option<Ref>, AllocError>
        requires program { N.program ≡ named self.now.loaded.now }
        requires means { (t : Term) × RootMeans (named self.now.loaded.now) self.now.cells.now root t }
        ensures { (t : Term) → RootMeans (named self.now.loaded.now) self.now.cells.now root t
            → IfOk result (λ hand. Does (named self.now.loaded.now) self.now.cells.now (variables_of t)
            (λ vs. shown (named self.now.loaded.now).program.names vs t) names.old names.new out.old out.new
            work.old.items (work.new.items ++ in_hand hand)) }
    {
        let Some((head, tail)) = self.list_cell(root) else {
            let left = self.write_other(names, out, root)?;
            return hand_over(work, left);
        };
        out.append(b"[")?;
        if let Some(begun) = self.write_flat(names, out, head)? {
            work.push(Task::Tail(tail))?;
            return hand_over(work, Some(begun));
        }
        self.write_tail(names, out, work, tail)
    }

    /// Writes the tail of a list after an element, and the bracket: as far as the first element that
    /// is not written at once, of which what comes first is handed back. The rest is left on the
    /// stack. After want of memory all are spent.
    fn write_tail(
        &self,
        names: &mut VariableNames,
        out: &mut Text,
        work: &mut Vec<Task>,
        tail: Ref,
    ) -> Result<Option<Ref>, AllocError>
        requires program { N.program ≡ named self.now.loaded.now }
        requires means { (t : Term) × Means (named self.now.loaded.now) self.now.cells.now tail t }
        ensures { (t : Term) → Means (named self.now.loaded.now) self.now.cells.now tail t
            → IfOk result (λ hand. Does (named self.now.loaded.now) self.now.cells.now (variables_of t)
            (λ vs. shown_tail (named self.now.loaded.now).program.names vs t ++ 93 ∷ []) names.old names.new
            out.old out.new work.old.items (work.new.items ++ in_hand hand)) }
    {
        let mut ahead = self.root(tail);
        while let Some((head, rest)) = self.list_cell(ahead) {
            out.append(b",")?;
            if let Some(begun) = self.write_flat(names, out, head)? {
                work.push(Task::Tail(rest))?;
                return hand_over(work, Some(begun));
            }
            ahead = self.root(rest);
            // Each turn writes bytes, of which a text has fewer than 2^64.
            let _length = out.len();
        }
        self.write_end(names, out, work, ahead)
    }

    /// Writes the end of a list, which is no list cell, and the bracket: as far as the first argument
    /// that is a structure, which is handed back. The rest is left on the stack. After want of memory
    /// all are spent.
    #[inline(never)]
    fn write_end(
        &self,
        names: &mut VariableNames,
        out: &mut Text,
        work: &mut Vec<Task>,
        root: Root,
    ) -> Result<Option<Ref>, AllocError>
        requires program { N.program ≡ named self.now.loaded.now }
        requires means { (t : Term) × RootMeans (named self.now.loaded.now) self.now.cells.now root t }
        ensures { (t : Term) → RootMeans (named self.now.loaded.now) self.now.cells.now root t → is_list_cell t ≡ false
            → IfOk result (λ hand. Does (named self.now.loaded.now) self.now.cells.now (variables_of t)
            (λ vs. shown_tail (named self.now.loaded.now).program.names vs t ++ 93 ∷ []) names.old names.new
            out.old out.new work.old.items (work.new.items ++ in_hand hand)) }
    {
        if self.is_nil(root) {
            out.append(b"]")?;
            return Ok(None);
        }
        out.append(b"|")?;
        work.push(Task::Close)?;
        let left = self.write_other(names, out, root)?;
        hand_over(work, left)
    }

    /// Does a task, and puts what it leaves on the stack, but for a term, which is handed back. After
    /// want of memory all are spent.
    #[inline(always)]
    fn write_task(
        &self,
        names: &mut VariableNames,
        out: &mut Text,
        work: &mut Vec<Task>,
        task: Task,
    ) -> Result<Option<Ref>, AllocError>
        requires program { N.program ≡ named self.now.loaded.now }
        requires means { (p : Piece) × TaskMeans (named self.now.loaded.now) self.now.cells.now task p }
        ensures { (p : Piece) → TaskMeans (named self.now.loaded.now) self.now.cells.now task p
            → IfOk result (λ hand. Does (named self.now.loaded.now) self.now.cells.now (variables_there p)
            (piece_text (named self.now.loaded.now).program.names p) names.old names.new out.old out.new
            work.old.items (work.new.items ++ in_hand hand)) }
    {
        match task {
            Task::Whole(term) => self.write_root(names, out, work, self.root(term)),
            Task::Tail(term) => self.write_tail(names, out, work, term),
            Task::Rest(arguments) => {
                let left = self.write_rest(names, out, arguments)?;
                hand_over(work, left)
            }
            Task::Close => {
                out.append(b"]")?;
                Ok(None)
            }
        }
    }

    /// Puts the term that a reference stands for at the end of the text. After want of memory the
    /// text and the names are spent.
    pub fn write_term(
        &self,
        alloc: Global,
        names: &mut VariableNames,
        out: &mut Text,
        term: Ref,
    ) -> Result<(), AllocError>
        requires program { N.program ≡ named self.now.loaded.now }
        requires means { (t : Term) × Means (named self.now.loaded.now) self.now.cells.now term t }
        ensures { (t : Term) → Means (named self.now.loaded.now) self.now.cells.now term t → OnOk result
            (Writes (variables_of t) (λ vs. shown (named self.now.loaded.now).program.names vs t) names.old
            names.new out.old out.new) }
    {
        let mut work = Vec::new(alloc);
        let mut hand = Some(term);
        while let Some(task) = next_of(&mut work, hand) {
            hand = self.write_task(names, out, &mut work, task)?;
            // Tasks are only put on the stack beside bytes, of which a text has fewer than 2^64.
            let _length = out.len();
        }
        Ok(())
    }

    /// Writes a name, which is not that of list cells, with two arguments. After want of memory the
    /// text and the names are spent.
    fn write_pair(
        &self,
        alloc: Global,
        names: &mut VariableNames,
        out: &mut Text,
        name: NameNo,
        left: Ref,
        right: Ref,
    ) -> Result<(), AllocError>
        requires program { N.program ≡ named self.now.loaded.now }
        requires other { nat_eq name.0 point_name ≡ false }
        requires left { (a : Term) × Means (named self.now.loaded.now) self.now.cells.now left a }
        requires right { (b : Term) × Means (named self.now.loaded.now) self.now.cells.now right b }
        ensures { (a b : Term) → Means (named self.now.loaded.now) self.now.cells.now left a
            → Means (named self.now.loaded.now) self.now.cells.now right b → OnOk result
            (Writes (variables_of (compound name.0 (more a (more b none))))
            (λ vs. shown (named self.now.loaded.now).program.names vs (compound name.0 (more a (more b none))))
            names.old names.new out.old out.new) }
    {
        write_name(out, self.loaded.name(name))?;
        out.append(b"(")?;
        self.write_term(alloc, names, out, left)?;
        out.append(b",")?;
        self.write_term(alloc, names, out, right)?;
        out.append(b")")?;
        Ok(())
    }

    /// Writes an item of a body as a term, in the frame at that base. After want of memory the text
    /// and the names are spent.
    fn write_item(
        &self,
        alloc: Global,
        names: &mut VariableNames,
        out: &mut Text,
        item: ItemNode,
        base: u32,
    ) -> Result<(), AllocError>
        requires program { N.program ≡ named self.now.loaded.now }
        requires means { (s : Substitution)
            × ItemMeans (named self.now.loaded.now) self.now.cells.now (node_item item) base s }
        ensures { (s : Substitution) → ItemMeans (named self.now.loaded.now) self.now.cells.now (node_item item) base s
            → (t : Term) → t ≡ apply s (item_term (item_of (named self.now.loaded.now).skeleton.nodes (node_item item)))
            → OnOk result (Writes (variables_of t) (λ vs. shown (named self.now.loaded.now).program.names vs t)
            names.old names.new out.old out.new) }
    {
        let loaded = self.loaded;
        match item {
            ItemNode::Call { goal } => {
                self.write_term(alloc, names, out, loaded.resolve(goal, base))
            }
            ItemNode::Equal { left, right } => {
                let left = loaded.resolve(left, base);
                let right = loaded.resolve(right, base);
                self.write_pair(alloc, names, out, EQUAL, left, right)
            }
            ItemNode::Is {
                left,
                right,
                pair: _,
            } => {
                let left = loaded.resolve(left, base);
                let right = loaded.resolve(right, base);
                self.write_pair(alloc, names, out, IS, left, right)
            }
            ItemNode::Compare {
                relation,
                left,
                right,
            } => {
                let left = loaded.resolve(left, base);
                let right = loaded.resolve(right, base);
                self.write_pair(alloc, names, out, comparison(relation), left, right)
            }
            ItemNode::Fail => write_name(out, loaded.name(FAIL)),
        }
    }

    /// Writes a goal as a term. After want of memory the text and the names are spent.
    fn write_goal(
        &self,
        alloc: Global,
        names: &mut VariableNames,
        out: &mut Text,
        goal: Goal,
    ) -> Result<(), AllocError>
        requires program { N.program ≡ named self.now.loaded.now }
        requires means { (t : Term) × GoalMeans (named self.now.loaded.now) self.now.cells.now goal t }
        ensures { (t : Term) → GoalMeans (named self.now.loaded.now) self.now.cells.now goal t
            → OnOk result (Writes (variables_of t) (λ vs. shown (named self.now.loaded.now).program.names vs t)
            names.old names.new out.old out.new) }
    {
        let item = self.loaded.items(goal.clause)[goal.item as usize];
        self.write_item(alloc, names, out, item, goal.base)
    }

    /// Writes a variable of the query with its term. After want of memory the text and the names are
    /// spent.
    fn write_value(
        &self,
        alloc: Global,
        names: &mut VariableNames,
        out: &mut Text,
        name: &[u8],
        cell: u32,
    ) -> Result<(), AllocError>
        requires program { N.program ≡ named self.now.loaded.now }
        requires means { (t : Term) × Means (named self.now.loaded.now) self.now.cells.now (Ref.Cell cell) t }
        ensures { (t : Term) → Means (named self.now.loaded.now) self.now.cells.now (Ref.Cell cell) t → OnOk result
            (Writes (variables_of t) (λ vs. name.now ++ codes " = "
            ++ shown (named self.now.loaded.now).program.names vs t) names.old names.new out.old out.new) }
    {
        out.append(name)?;
        out.append(b" = ")?;
        self.write_term(alloc, names, out, Ref::Cell(cell))
    }

    /// Writes the query's variables with their terms, or `true` where none is shown. After want of
    /// memory the text and the names are spent.
    pub fn write_values(
        &self,
        alloc: Global,
        names: &mut VariableNames,
        out: &mut Text,
    ) -> Result<(), AllocError>
        requires program { N.program ≡ named self.now.loaded.now }
        requires gives { (s : Substitution) × GivesQuery (named self.now.loaded.now) self.now.cells.now s }
        ensures { (s : Substitution) → GivesQuery (named self.now.loaded.now) self.now.cells.now s → OnOk result
            (let P = (named self.now.loaded.now).program in
            let shown_ones = shown_variables 0 P.query.written in
            Writes (variables_along (map (λ v. s [] v.1) shown_ones))
            (λ vs. values_or_true (map (shown_value P.names vs s) shown_ones)) names.old
            names.new out.old out.new) }
    {
        let mut is_first = true;
        for number in 0..self.loaded.variables(QUERY) {
            let name = self.loaded.variable_name(QUERY, number);
            if !begins_underscore(name) {
                out.append(separator(is_first, b""))?;
                self.write_value(alloc, names, out, name, 1 + u32::from(number))?;
                is_first = false;
            }
        }
        if is_first {
            out.append(b"true")?;
        }
        Ok(())
    }

    /// Writes the goals that wait, or nothing where there are none. After want of memory the text
    /// and the names are spent.
    pub fn write_waiting(
        &self,
        alloc: Global,
        names: &mut VariableNames,
        out: &mut Text,
        waiting: &GoalList,
    ) -> Result<(), AllocError>
        requires program { N.program ≡ named self.now.loaded.now }
        requires means { (ts : List Term) × GoalsMean (named self.now.loaded.now) self.now.cells.now waiting.now ts }
        ensures { (ts : List Term) → GoalsMean (named self.now.loaded.now) self.now.cells.now waiting.now ts
            → OnOk result
            (Writes (variables_along ts) (λ vs. with_waiting (named self.now.loaded.now).program.names vs ts) names.old
            names.new out.old out.new) }
    {
        for place in 0..waiting.len() {
            out.append(separator(place == 0, b" with "))?;
            self.write_goal(alloc, names, out, *waiting.at(place))?;
        }
        Ok(())
    }
}
