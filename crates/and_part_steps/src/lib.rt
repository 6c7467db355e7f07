//! The steps of a branch whose row is part of its whole one: from what `begin`, `take` and `run` of `and_reduction` say
//! of the row follows what the branch keeps, with nothing left to show of what its words name.
//!
//! Each function here does nothing. Its contract is a law over the definitions of `and_moved_laws`, of `and_step_laws`
//! and of `and_reduction`. The proofs' own lemmas stand in `proofs/`.
#![tactic(auto)]

ghost use Rattle.std.specs.Prelude.{ℕ, ◌+◌, ◌≤◌, ◌≡◌, List, [], ◌∷◌, ◌++◌, map, length, replicate, Contains};
ghost use Rattle.and_model.specs.Terms.{Path, Term};
ghost use Rattle.and_model.specs.Programs.{Item, call, arithmetic, Arithmetic, Of, clause_at, clause_weight};
ghost use Rattle.and_model.specs.Trees.{QueryTree, weight, Open, path, call_of, reduce, query_agenda, blank};
ghost use Rattle.and_model.specs.Reductions.{Reduction};
ghost use Rattle.and_model.specs.Reached.{Step, Dead};
ghost use Rattle.and_model.specs.Stands.{Framed, term_of};
ghost use Rattle.and_model.specs.Store.{Frame};
ghost use Rattle.and_model.specs.declared.limits.TheConstants.{MAX_WORDS};
ghost use Rattle.and_model.specs.declared.reference.Ref.{Ref};
ghost use Rattle.and_cells.specs.Ranges.{NamedProgram};
ghost use Rattle.and_cells.specs.Parts.{part_at};
ghost use Rattle.and_branch_laws.specs.OwnVariables.{IsLoaded};
ghost use Rattle.and_branch_laws.specs.Variables.{placed};
ghost use Rattle.and_branch_laws.specs.Settling.{widened, Settled};
ghost use Rattle.and_branch_laws.specs.Goals.{IsNodeOf, CanBeJudged};
ghost use Rattle.and_branch_laws.specs.Judging.{CandidateInCells};
ghost use Rattle.and_branch_laws.specs.Kept.{item_at, node_item_at, goal_of, IsCall};
ghost use Rattle.and_branch_laws.specs.Reducing.{body_equations, reduction_in_cells, reduction_by, body_goals};
ghost use Rattle.and_moved_laws.specs.KeptParts.{PartKept, GrewBeside, framed_at};
ghost use Rattle.and_step_laws.specs.Runs.{HasUnnamedPair, CanBeRun, HasRun, CannotHold};
ghost use Rattle.and_reduction.specs.Writes.{SetsNodes, SetsByRun};

/// Goals of parts can be taken: a kept call can be judged in the part, and kept arithmetic can be run in it, as `take`
/// and `run` ask. No word of the part names the pair of a kept goal.
pub fn goals_of_parts_can_be_taken()
    ensures judged { (P : NamedProgram) (rs : List Reduction) (frames : List Frame) (part : List Ref)
        (kept : List Framed) (t : QueryTree P.program) (f : Framed) (term : Term) → IsLoaded P
        → PartKept P rs frames part kept t → Contains kept f → item_at P.program f.goal ≡ call term
        → CanBeJudged P part f.goal }
    ensures run { (P : NamedProgram) (rs : List Reduction) (frames : List Frame) (part : List Ref)
        (kept : List Framed) (t : QueryTree P.program) (f : Framed) (a : Arithmetic) → IsLoaded P
        → PartKept P rs frames part kept t → Contains kept f → item_at P.program f.goal ≡ arithmetic a
        → CanBeRun P part f.goal }
    ensures unnamed { (P : NamedProgram) (rs : List Reduction) (frames : List Frame) (part : List Ref)
        (kept : List Framed) (t : QueryTree P.program) (f : Framed) → IsLoaded P
        → PartKept P rs frames part kept t → Contains kept f → HasUnnamedPair P part f.goal (node_item_at P f.goal) }
{}

/// Taking keeps parts: where `take` settled in a new frame behind the part what a reduction of a kept call by a clause
/// asks, the branch keeps the body's goals in the place of the call, and the whole row grew beside the part. Where no
/// other clause is a candidate of the call in the part, the reduction is a Step. (The paths of a body's frames play no
/// part in its goals.)
pub fn taking_keeps_parts()
    ensures kept { (P : NamedProgram) (rs : List Reduction) (frames : List Frame) (part new : List Ref)
        (front : List Framed) (f : Framed) (back : List Framed) (t : QueryTree P.program) (o : Open t) (c : ℕ)
        (of_it : Of P.program (call_of t o) c) (node : ℕ) → IsLoaded P
        → (k : PartKept P rs frames part (front ++ f ∷ back) t)
        → IsCall P.program f → path t o ≡ f.frame ++ f.goal.item ∷ []
        → weight t + clause_weight (clause_at P.program c) ≤ MAX_WORDS → IsNodeOf P part f.goal node
        → Settled P (widened part (clause_weight (clause_at P.program c))) new
        (reduction_in_cells P.program f.goal c (length part))
        → SetsNodes P (widened part (clause_weight (clause_at P.program c))) new (length part)
        (part_at P f.goal.base node ∷ [])
        → (l : PartKept P (rs ++ reduction_by f.goal c (weight t) ∷ [])
        (frames ++ record { base = length part; weight = clause_weight (clause_at P.program c) } ∷ []) new
        (front ++ (map (framed_at (length part))
        (body_goals c (weight t) (f.frame ++ f.goal.item ∷ []) 0 (clause_at P.program c).body) ++ back))
        (reduce t o c of_it)) × GrewBeside k.at l.at k.whole l.whole }
    ensures step { (P : NamedProgram) (rs : List Reduction) (frames : List Frame) (part : List Ref)
        (kept : List Framed) (t : QueryTree P.program) (f : Framed) (c : ℕ) → IsLoaded P
        → PartKept P rs frames part kept t → Contains kept f → IsCall P.program f
        → Of P.program (term_of P.program f.goal) c → ((d : ℕ) → CandidateInCells P part f.goal d → d ≡ c)
        → (o : Open t) × (of_it : Of P.program (call_of t o) c) × (path t o ≡ f.frame ++ f.goal.item ∷ [])
        × Step t (reduce t o c of_it) }
    ensures sole { (P : NamedProgram) (rs : List Reduction) (frames : List Frame) (part new : List Ref)
        (front : List Framed) (f : Framed) (back : List Framed) (t : QueryTree P.program) (c node : ℕ) → IsLoaded P
        → (k : PartKept P rs frames part (front ++ f ∷ back) t) → IsCall P.program f
        → Of P.program (term_of P.program f.goal) c → ((d : ℕ) → CandidateInCells P part f.goal d → d ≡ c)
        → weight t + clause_weight (clause_at P.program c) ≤ MAX_WORDS → IsNodeOf P part f.goal node
        → Settled P (widened part (clause_weight (clause_at P.program c))) new
        (reduction_in_cells P.program f.goal c (length part))
        → SetsNodes P (widened part (clause_weight (clause_at P.program c))) new (length part)
        (part_at P f.goal.base node ∷ [])
        → (u : QueryTree P.program) × Step t u × (l : PartKept P (rs ++ reduction_by f.goal c (weight t) ∷ [])
        (frames ++ record { base = length part; weight = clause_weight (clause_at P.program c) } ∷ []) new
        (front ++ (map (framed_at (length part))
        (body_goals c (weight t) (f.frame ++ f.goal.item ∷ []) 0 (clause_at P.program c).body) ++ back)) u)
        × GrewBeside k.at l.at k.whole l.whole }
    ensures body { (base c n : ℕ) (q r : Path) (i : ℕ) (items : List Item)
        → map goal_of (map (framed_at base) (body_goals c n q i items))
        ≡ map goal_of (map (framed_at base) (body_goals c n r i items)) }
{}

/// Beginning keeps parts: where `begin` made the query's frame the row, and settled the query's `=` items in it, the
/// branch keeps the query's goals.
pub fn beginning_keeps_parts()
    ensures { (P : NamedProgram) (new : List Ref) → IsLoaded P
        → Settled P (replicate (clause_weight P.program.query) Ref.Free) new
        (body_equations (placed 0) P.program.query.body)
        → SetsNodes P (replicate (clause_weight P.program.query) Ref.Free) new 0 []
        → PartKept P [] (record { base = 0; weight = clause_weight P.program.query } ∷ []) new
        (body_goals 0 0 [] 0 P.program.query.body) (blank (query_agenda P.program)) }
{}

/// Running keeps parts: where `run` ran a kept goal of arithmetic, the branch keeps the others, and the whole row grew
/// beside the part.
pub fn running_keeps_parts()
    ensures { (P : NamedProgram) (rs : List Reduction) (frames : List Frame) (part new : List Ref)
        (front : List Framed) (f : Framed) (back : List Framed) (t : QueryTree P.program) → IsLoaded P
        → (k : PartKept P rs frames part (front ++ f ∷ back) t)
        → HasRun P part new f.goal → SetsByRun P part new f.goal
        → (l : PartKept P rs frames new (front ++ back) t) × GrewBeside k.at l.at k.whole l.whole }
{}

/// What cannot hold is dead: where a kept goal of arithmetic cannot hold in the part, as `run` says, the tree has no
/// outcome. (That a reduced tree is dead where what `take` asked has no solution, says `dead_parts` as it is.)
pub fn what_cannot_hold_is_dead()
    ensures { (P : NamedProgram) (rs : List Reduction) (frames : List Frame) (part : List Ref)
        (front : List Framed) (f : Framed) (back : List Framed) (t : QueryTree P.program) → IsLoaded P
        → PartKept P rs frames part (front ++ f ∷ back) t → CannotHold P part f.goal → Dead t }
{}
