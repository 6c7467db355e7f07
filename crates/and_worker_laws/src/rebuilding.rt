//! The laws by which a branch that was taken apart for a phase is made again: between the cells and goals of the
//! branch, and what the laws of a phase say of its tree.
ghost use Rattle.std.specs.Prelude.{ℕ, ◌+◌, ◌<◌, ◌≡◌, ◌≢◌, true, List, [], ◌∷◌, ◌++◌, map, Contains};
ghost use Rattle.and_model.specs.Terms.{Path, Term, Substitution, framed};
ghost use Rattle.and_model.specs.Solutions.{Equation, Solves, Entails};
ghost use Rattle.and_model.specs.Programs.{Program, Arithmetic};
ghost use Rattle.and_model.specs.Candidates.{Candidate};
ghost use Rattle.and_model.specs.Closure.{Ran};
ghost use Rattle.and_model.specs.Trees.{QueryTree, equations, arithmetics};
ghost use Rattle.and_model.specs.Reductions.{Reduction, PlaceHas, Makes};
ghost use Rattle.and_model.specs.Stands.{Framed};
ghost use Rattle.and_model.specs.OwnVariables.{AreOwn};
ghost use Rattle.and_model.specs.declared.reference.Ref.{Ref};
ghost use Rattle.and_laws.specs.Naming.{under};
ghost use Rattle.and_cells.specs.Ranges.{NamedProgram};
ghost use Rattle.and_cells.specs.Meaning.{equations_of};
ghost use Rattle.and_phase_laws.specs.Sharing.{Meant, Alike};
ghost use Rattle.and_phase_laws.specs.Journals.{TakenOut, goals_run};
ghost use Rattle.and_branch_laws.specs.Variables.{IsVariable, AreNames, EquationsSpeakOf, placed};
ghost use Rattle.and_branch_laws.specs.Kept.{Kept, task_of};
ghost use Rattle.and_branch_laws.specs.OwnVariables.{OwnVariables};
ghost use Rattle.and_branch_laws.specs.Tasks.{Task, RanAmong, arithmetic_among, tasks};
ghost use Rattle.and_worker_laws.specs.Leaving.{Leaves};
ghost use Rattle.and_worker_laws.specs.PhaseCells.{Cells, AreCells, IsCell, IsNamedCell, all_but, put_apart};
ghost use Rattle.and_worker_laws.specs.PhaseCells.{cell_equations};

/// What was run among tasks: where goals of arithmetic were run, and they are just those that some tasks have more
/// than others, which are left in their order, it makes the same equations among the tasks.
pub fn what_was_run_among_tasks()
    ensures { (es ds : List Equation) (goals waits run : List Arithmetic) (all left : List Task)
        → (ran : Ran es goals ds waits) → TakenOut run (goals_run ran) [] → Leaves all run left
        → RanAmong es all ds left }
{}

/// Tasks tell what was run: where goals of arithmetic were run among tasks, they are just those that some tasks have
/// more than others, which are left in their order.
pub fn tasks_tell_what_was_run()
    ensures { (es ds : List Equation) (all left : List Task) → RanAmong es all ds left
        → (run : List Arithmetic) × (ran : Ran es (arithmetic_among all) ds (arithmetic_among left))
        × TakenOut run (goals_run ran) [] × Leaves all run left }
{}

/// Variables have cells: of a tree that reductions make each variable has a cell, by which it is named, no cell
/// stands for two, and some frame, which is no place's of the tree and no call's, has none of them. So it is of the
/// variables of each tree that some of the reductions make.
pub fn variables_have_cells()
    ensures { (P : NamedProgram) (rs : List Reduction) (t : QueryTree P.program) → Makes P.program rs t
        → (apart : Path) × (cells : Cells)
        × ((old : List Reduction) (names : Substitution) → ((r : Reduction) → Contains old r → Contains rs r)
        → AreNames old names
        → AreCells (IsVariable P old) names apart cells)
        × ((v : Path × ℕ) (n : ℕ) → Contains cells (v, n) → IsVariable P rs v)
        × ((node : ℕ) (q : Path) (i : ℕ) → PlaceHas rs node q → (q ≢ apart) × (q ++ i ∷ [] ≢ apart)) }
{}

/// Branches open phases: a branch that is to have these reductions beside its own opens a phase with the cells of all
/// of them. The arithmetic that it has run is what its goals lack of its tree's tasks. And on all variables that are
/// no cell's, its cells and its tree's equations, with those of that arithmetic, are alike.
pub fn kept_branches_open_phases()
    ensures { (P : NamedProgram) → OwnVariables P
        → (rs : List Reduction) (row : List Ref) (kept : List Framed) (t : QueryTree P.program)
        (k : Kept P rs row kept t) (apart : Path) (cells : Cells) → AreCells (IsVariable P rs) k.names apart cells
        → (gone : List Arithmetic)
        × (ran : Ran (equations t) (arithmetics t) k.solved (arithmetic_among (map (task_of P.program) kept)))
        × TakenOut gone (goals_run ran) [] × Leaves (tasks t) gone (map (task_of P.program) kept)
        × Alike (all_but apart) k.solved (under (put_apart apart) (equations_of P row) ++ cell_equations apart cells) }
{}

/// Phases close in cells: where equations of cells, with the variables that have cells, are alike with a tree's on
/// these, they state the tree's, with its variables named by their cells, and nothing else.
pub fn phases_close_in_cells()
    ensures { (P : NamedProgram) (rs : List Reduction) (names : Substitution) (es solved : List Equation)
        (apart : Path) (cells : Cells) (meant : Meant)
        → EquationsSpeakOf (IsVariable P rs) solved → AreCells (IsVariable P rs) names apart cells
        → EquationsSpeakOf (IsNamedCell cells) es
        → ((v : Path × ℕ) (n : ℕ) → Contains cells (v, n) → IsVariable P rs v)
        → ((v : Path × ℕ) (n : ℕ) → Contains cells (v, n) → meant v.0 v.1 ≡ true)
        → Alike meant (under (put_apart apart) es ++ cell_equations apart cells) solved
        → Entails es (under names solved) × Entails (under names solved) es }
{}

/// Candidates of cells of which less is known: where equations say what the equations of cells say, and each variable
/// of a call's frame is its cell, a clause that is a candidate of the call in its frame is one of the call in the
/// cells, in whatever frame that is no cell's.
pub fn candidates_of_fewer_cells()
    ensures { (P : Program) (es cells : List Equation) (t : Term) (base count : ℕ) (p q fresh apart : Path) (c : ℕ)
        → EquationsSpeakOf IsCell cells → AreOwn count t → p ≢ apart → q ≢ [] → fresh ≢ []
        → Entails es (under (put_apart apart) cells)
        → ((s : Substitution) → Solves s es → (k : ℕ) → k < count → s p k ≡ s apart (base + 1 + k))
        → Candidate P es q (framed p t) c → Candidate P cells fresh (placed base t) c }
{}
