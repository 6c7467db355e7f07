//! The laws of rows of cells that are part of others: a branch of which some frames are left out,
//! since nothing names them, and of which the others were moved down, says what the whole one says.
//!
//! Each function here does nothing. Its contract is a law over the definitions of `and_cells`, of
//! `and_branch_laws` and of `specs/`. The proofs' own lemmas stand in `proofs/`.
#![tactic(auto)]

ghost use Rattle.std.specs.Prelude.{ℕ, ℤ, suc, true, false, ◌+◌, ◌<◌, ◌≤◌, ◌≡◌, ◌≢◌, ◌↔◌, List, [], ◌∷◌};
ghost use Rattle.std.specs.Prelude.{◌++◌, map, length, replicate, AllPairs, Contains, Option, Some, None};
ghost use Rattle.and_model.specs.Terms.{Path, Term, number, variables_of, is_ground, apply};
ghost use Rattle.and_model.specs.Solutions.{Equation, Solvable, Entails};
ghost use Rattle.and_model.specs.Arithmetic.{Relation, value, holds};
ghost use Rattle.and_model.specs.Programs.{fail, arithmetic, Arithmetic, is, compare, Of, clause_at, clause_weight};
ghost use Rattle.and_model.specs.Closure.{Ran};
ghost use Rattle.and_model.specs.Trees.{QueryTree, weight, Open, path, call_of, reduce};
ghost use Rattle.and_model.specs.Trees.{query_agenda, blank, equations, arithmetics, Closed};
ghost use Rattle.and_model.specs.Reductions.{Reduction, Makes};
ghost use Rattle.and_model.specs.Reached.{CandidateOf, Step, Dead, Shut, ReachedBy};
ghost use Rattle.and_model.specs.Lines.{line};
ghost use Rattle.and_model.specs.Listing.{outcome_of, Ends};
ghost use Rattle.and_model.specs.Stands.{Framed, IsFramed, term_of, in_tree, calls_left};
ghost use Rattle.and_model.specs.Store.{Frame, is_half};
ghost use Rattle.and_model.specs.declared.limits.TheConstants.{MAX_WORDS};
ghost use Rattle.and_model.specs.declared.goal.Goal.{Goal};
ghost use Rattle.and_model.specs.declared.reference.Ref.{Ref};
ghost use Rattle.and_program.specs.Skeletons;
ghost use Rattle.and_program.specs.Skeletons.{node_term, AllFall};
ghost use Rattle.and_cells.specs.Ranges.{NamedProgram, IsInRange, IsGoalInRange, pair_of};
ghost use Rattle.and_cells.specs.Rows.{IsSound, OnlySet};
ghost use Rattle.and_cells.specs.Parts.{part_at, parts_of};
ghost use Rattle.and_cells.specs.Seen.{word_at, IsSetTo, Grows};
ghost use Rattle.and_cells.specs.Meaning.{StandsFor, IsSettled, equations_of, shallow_cells};
ghost use Rattle.and_unify.specs.declared.pairs.Pair.{Pair};
ghost use Rattle.and_unify.specs.Places.{sides};
ghost use Rattle.and_unify.specs.Settling.{SetsPlaces};
ghost use Rattle.and_laws.specs.Naming.{under};
ghost use Rattle.and_branch_laws.specs.Variables.{EquationsSpeakOf, IsWholeCell, placed};
ghost use Rattle.and_branch_laws.specs.Settling.{widened, Settled, IsWritten};
ghost use Rattle.and_branch_laws.specs.OwnVariables.{OwnVariables, IsLoaded};
ghost use Rattle.and_branch_laws.specs.Running.{IsRead};
ghost use Rattle.and_branch_laws.specs.Judging.{CandidateInCells, SoleInCells, NoneIsGround, EachHasOne};
ghost use Rattle.and_branch_laws.specs.Judging.{EachHasTwo, NoCall};
ghost use Rattle.and_branch_laws.specs.States.{Fits, IsFirst, determinate, over_one, over_all, fork};
ghost use Rattle.and_branch_laws.specs.States.{floundered, answer, StateOf};
ghost use Rattle.and_branch_laws.specs.Tasks.{arithmetic_among};
ghost use Rattle.and_branch_laws.specs.Kept.{item_at, node_item_at, task_of, Kept, Unsettled, goal_of, IsCall};
ghost use Rattle.and_branch_laws.specs.Kept.{HasFreePair, calls_kept, arithmetic_kept};
ghost use Rattle.and_branch_laws.specs.Reducing.{body_equations, reduction_in_cells, reduction_by, body_goals};
ghost use Rattle.and_branch_laws.specs.Views.{View, StandsIn};
ghost use Rattle.and_branch_laws.specs.Lines.{LineIsRead};
ghost use Rattle.and_moved_laws.specs.Parts.{moved, moving, IsTogether, IsPartOf, NamesTogether};
ghost use Rattle.and_moved_laws.specs.Parts.{MovesTogether, IsGoalOfPart, goal_moved, framed_moved};
ghost use Rattle.and_moved_laws.specs.KeptFrames.{AreFrames, Fill, frame_of_goal, NamesFrame, NamesFrames};
ghost use Rattle.and_moved_laws.specs.KeptFrames.{IsInFrame, AreKept, AreEnough};
ghost use Rattle.and_moved_laws.specs.KeptFrames.{raised, lowered, frame_lowered, side_by_side, MovesWhole};
ghost use Rattle.and_moved_laws.specs.KeptFrames.{frame_moved};
ghost use Rattle.and_moved_laws.specs.KeptParts.{PartKept, GrewBeside, framed_at, PartKeptIn};

/// Parts of parts: a row is part of itself, with each place where it is, and a part of a part is
/// a part. Where free words are put behind a part, as many are put behind the whole row.
pub fn parts_of_parts()
    ensures itself { (P : NamedProgram) (row : List Ref) → IsPartOf P (λ (p : ℕ). p) row row }
    ensures twice { (P : NamedProgram) (inner outer : ℕ → ℕ) (part between whole : List Ref)
        → IsPartOf P inner part between → IsPartOf P outer between whole
        → IsPartOf P (λ (p : ℕ). outer (inner p)) part whole }
    ensures behind { (P : NamedProgram) (at : ℕ → ℕ) (part whole : List Ref) (by : ℕ)
        → IsPartOf P at part whole → IsPartOf P at (widened part by) (widened whole by) }
{}

/// Parts read the same: what a reference stands for in the part is what the moved one stands for
/// in the whole row, but that its cells are named anew, and the other way round. Where the whole
/// row is sound, or settled, so is the part.
pub fn parts_read_the_same()
    ensures there { (P : NamedProgram) (at : ℕ → ℕ) (part whole : List Ref) (r : Ref) (t : Term)
        → IsPartOf P at part whole → IsTogether P at r → StandsFor P part r t
        → StandsFor P whole (moved at r) (apply (moving at) t) }
    ensures here { (P : NamedProgram) (at : ℕ → ℕ) (part whole : List Ref) (r : Ref) (u : Term)
        → IsPartOf P at part whole → IsTogether P at r → StandsFor P whole (moved at r) u
        → (t : Term) × StandsFor P part r t × (u ≡ apply (moving at) t) }
    ensures sound { (P : NamedProgram) (at : ℕ → ℕ) (part whole : List Ref)
        → IsPartOf P at part whole → IsSound P whole → IsSound P part }
    ensures settled { (P : NamedProgram) (at : ℕ → ℕ) (part whole : List Ref)
        → IsPartOf P at part whole → IsSound P whole → IsSettled P whole → IsSettled P part }
{}

/// Settling of parts: where a part is settled with equations, and names frames that were moved
/// together, the whole row is settled with the same equations, their cells named anew: it has the
/// part's new words at their places, and all others stay. So it is where free words were put
/// behind both before. Where the part and the equations have no solution, the whole row has none,
/// and the other way round.
pub fn settling_of_parts()
    ensures settled { (P : NamedProgram) (at : ℕ → ℕ) (part whole new : List Ref) (es : List Equation)
        → IsPartOf P at part whole → IsSound P whole → IsSettled P whole
        → EquationsSpeakOf (IsWholeCell part) es → Settled P part new es → NamesTogether P at new
        → (later : List Ref) × IsPartOf P at new later × Settled P whole later (under (moving at) es)
        × ((p : ℕ) → ((c : ℕ) → at c ≡ p → ⊥) → word_at later p ≡ word_at whole p) }
    ensures behind { (P : NamedProgram) (at : ℕ → ℕ) (part whole new : List Ref) (by : ℕ) (es : List Equation)
        → IsPartOf P at part whole → IsSound P whole → IsSettled P whole → length whole + by ≤ MAX_WORDS
        → EquationsSpeakOf (IsWholeCell (widened part by)) es → Settled P (widened part by) new es
        → NamesTogether P at new
        → (later : List Ref) × IsPartOf P at new later × Settled P (widened whole by) later (under (moving at) es)
        × ((p : ℕ) → ((c : ℕ) → at c ≡ p → ⊥) → word_at later p ≡ word_at (widened whole by) p) }
    ensures unsolved { (P : NamedProgram) (at : ℕ → ℕ) (part whole : List Ref) (es : List Equation)
        → IsPartOf P at part whole → (Solvable (equations_of P part ++ es) → ⊥)
        → Solvable (equations_of P whole ++ under (moving at) es) → ⊥ }
    ensures solvable { (P : NamedProgram) (at : ℕ → ℕ) (part whole : List Ref) (es : List Equation)
        → IsPartOf P at part whole → IsSound P whole → IsSettled P whole
        → EquationsSpeakOf (IsWholeCell part) es → Solvable (equations_of P part ++ es)
        → Solvable (equations_of P whole ++ under (moving at) es) }
{}

/// Candidates of parts: a goal whose frame was moved together has just the candidates in the part
/// that it has, at its base there, in the whole row. (What the whole row has besides takes nothing
/// away: it is settled, so that each of its cells has a term, whatever the free cells are.) That
/// those there are candidates here asks nothing of its cells.
pub fn candidates_of_parts()
    ensures same { (P : NamedProgram) (at : ℕ → ℕ) (part whole : List Ref) (g : Goal) (c : ℕ)
        → IsPartOf P at part whole → IsSound P whole → IsSettled P whole → IsGoalOfPart P at part g
        → CandidateInCells P part g c ↔ CandidateInCells P whole (goal_moved at g) c }
    ensures here { (P : NamedProgram) (at : ℕ → ℕ) (part whole : List Ref) (g : Goal) (c : ℕ)
        → IsPartOf P at part whole → MovesTogether at g.base (term_of P.program g)
        → CandidateInCells P whole (goal_moved at g) c → CandidateInCells P part g c }
{}

/// Reads of parts: a term of a clause, in a frame that was moved together, reads in the whole row
/// as it does in the part, but that its cells are named anew. So no arithmetic that waits reads as
/// ground terms in the one where none does in the other.
pub fn reads_of_parts()
    ensures there { (P : NamedProgram) (at : ℕ → ℕ) (part whole : List Ref) (base : ℕ) (t u : Term)
        → IsPartOf P at part whole → MovesTogether at base t → IsRead P part base t u
        → IsRead P whole (at base) t (apply (moving at) u) }
    ensures here { (P : NamedProgram) (at : ℕ → ℕ) (part whole : List Ref) (base : ℕ) (t u : Term)
        → IsPartOf P at part whole → IsSound P whole → IsSettled P whole → MovesTogether at base t
        → IsRead P whole (at base) t u → (w : Term) × IsRead P part base t w × (u ≡ apply (moving at) w) }
    ensures same_ground { (at : ℕ → ℕ) (t : Term) → is_ground (apply (moving at) t) ≡ is_ground t }
    ensures none_ground { (P : NamedProgram) (at : ℕ → ℕ) (part whole : List Ref) (kept : List Framed)
        → IsPartOf P at part whole → IsSound P whole → IsSettled P whole
        → ((f : Framed) → Contains kept f → IsGoalOfPart P at part f.goal)
        → NoneIsGround P part kept ↔ NoneIsGround P whole (map (framed_moved at) kept) }
{}

/// Lines of parts: where the query's frame stays where it is, the line that is read in the part,
/// with goals whose frames were moved together, is that of the whole row: the same goals wait, and
/// the text is the same.
pub fn lines_of_parts()
    ensures { (P : NamedProgram) (at : ℕ → ℕ) (part whole : List Ref) (waiting : List Goal)
        (r : LineIsRead P part waiting) → IsLoaded P → IsPartOf P at part whole
        → ((k : ℕ) → k < P.program.query.variables → at (0 + 1 + k) ≡ 0 + 1 + k)
        → ((g : Goal) → Contains waiting g → IsGoalOfPart P at part g)
        → (w : LineIsRead P whole (map (goal_moved at) waiting)) × (w.waits ≡ r.waits)
        × (line P.program w.terms w.waits ≡ line P.program r.terms r.waits) }
{}

/// Frames fill rows: a tree that reductions make has its frames, which fill a row as long as the tree
/// weighs, and each goal that is kept has its frame among them; with a frame more behind, they fill
/// the longer row.
pub fn frames_fill_rows()
    ensures some { (P : NamedProgram) (rs : List Reduction) (t : QueryTree P.program) → Makes P.program rs t
        → (frames : List Frame) × AreFrames P rs frames }
    ensures tree { (P : NamedProgram) (rs : List Reduction) (t : QueryTree P.program) (frames : List Frame)
        → Makes P.program rs t → AreFrames P rs frames → Fill 0 frames (weight t) }
    ensures goals { (P : NamedProgram) (rs : List Reduction) (row : List Ref) (kept : List Framed)
        (t : QueryTree P.program) (frames : List Frame) (f : Framed) → OwnVariables P → Kept P rs row kept t
        → AreFrames P rs frames → Contains kept f → Contains frames (frame_of_goal P f.goal) }
    ensures behind { (frames : List Frame) (words weight : ℕ) → Fill 0 frames words → 0 < weight
        → Fill 0 (frames ++ record { base = words; weight = weight } ∷ []) (words + weight) }
{}

/// Kept frames are part: where frames fill a row, and its words name what lies in them, those that
/// are kept, and others that may stay with them, side by side, are part of the row. Each is moved
/// whole; they fill their row, and its words name what lies in them, so that frames of this row can
/// be dropped again. The query's frame stays where it is, and each goal is moved with its frame.
pub fn kept_frames_are_part()
    ensures part { (P : NamedProgram) (row : List Ref) (goals : List Goal) (frames kept : List Frame)
        → IsSound P row → Fill 0 frames (length row) → NamesFrames P frames row → AreEnough frames row goals kept
        → IsPartOf P (raised kept (length row)) (side_by_side kept row) row }
    ensures moved { (P : NamedProgram) (row : List Ref) (goals : List Goal) (frames kept : List Frame) (f : Frame)
        → IsSound P row → Fill 0 frames (length row) → NamesFrames P frames row → AreEnough frames row goals kept
        → Contains kept f → MovesWhole (raised kept (length row)) (frame_lowered kept f)
        × (frame_moved (raised kept (length row)) (frame_lowered kept f) ≡ f) }
    ensures fill { (P : NamedProgram) (row : List Ref) (goals : List Goal) (frames kept : List Frame)
        → IsSound P row → Fill 0 frames (length row) → NamesFrames P frames row → AreEnough frames row goals kept
        → Fill 0 (map (frame_lowered kept) kept) (length (side_by_side kept row)) }
    ensures names { (P : NamedProgram) (row : List Ref) (goals : List Goal) (frames kept : List Frame)
        → IsSound P row → Fill 0 frames (length row) → NamesFrames P frames row → AreEnough frames row goals kept
        → NamesFrames P (map (frame_lowered kept) kept) (side_by_side kept row) }
    ensures query { (P : NamedProgram) (row : List Ref) (goals : List Goal) (frames kept : List Frame) (f : Frame)
        (n : ℕ) → IsSound P row → Fill 0 frames (length row) → NamesFrames P frames row
        → AreEnough frames row goals kept → Contains frames f → f.base ≡ 0 → n < f.weight
        → raised kept (length row) n ≡ n }
    ensures goals { (P : NamedProgram) (row : List Ref) (goals : List Goal) (frames kept : List Frame) (g : Goal)
        → OwnVariables P → IsSound P row → Fill 0 frames (length row) → NamesFrames P frames row
        → AreEnough frames row goals kept → Contains goals g → Contains frames (frame_of_goal P g)
        → ((v : Path × ℕ) → Contains (variables_of (term_of P.program g)) v
        → is_half (word_at row (g.base + 1 + v.1)) ≡ false)
        → IsGoalOfPart P (raised kept (length row)) (side_by_side kept row) (goal_moved (lowered kept) g)
        × (goal_moved (raised kept (length row)) (goal_moved (lowered kept) g) ≡ g)
        × Contains (map (frame_lowered kept) kept) (frame_of_goal P (goal_moved (lowered kept) g)) }
{}

/// Frames of parts: a row that names frames alone which were moved whole names what was moved
/// together, as is asked where a part is settled. The whole row that is so settled names frames
/// where the part names those that were moved there, and the row before named frames.
pub fn frames_of_parts()
    ensures together { (P : NamedProgram) (at : ℕ → ℕ) (frames : List Frame) (row : List Ref)
        → ((f : Frame) → Contains frames f → MovesWhole at f) → ((f : Frame) → Contains frames f → f.base ≤ length row)
        → NamesFrames P frames row → NamesTogether P at row }
    ensures later { (P : NamedProgram) (at : ℕ → ℕ) (frames all : List Frame) (new whole later : List Ref)
        → ((f : Frame) → Contains frames f → MovesWhole at f)
        → ((f : Frame) → Contains frames f → Contains all (frame_moved at f)) → IsPartOf P at new later
        → ((p : ℕ) → ((c : ℕ) → at c ≡ p → ⊥) → word_at later p ≡ word_at whole p)
        → NamesFrames P frames new → NamesFrames P all whole → NamesFrames P all later }
    ensures behind { (P : NamedProgram) (at : ℕ → ℕ) (part whole : List Ref) (weight : ℕ) → IsPartOf P at part whole
        → MovesWhole at (record { base = length part; weight = weight }) }
{}

/// Frames below stay: where all frames that begin below a place are among those that stay, each place
/// below it stays where it is. So an earlier row, whose frames all stay, can be had again of the row
/// side by side as it could of the whole one: by setting the same cells free again.
pub fn frames_below_stay()
    ensures places { (P : NamedProgram) (row : List Ref) (goals : List Goal) (frames kept : List Frame) (low p : ℕ)
        → IsSound P row → Fill 0 frames (length row) → NamesFrames P frames row → AreEnough frames row goals kept
        → ((f : Frame) → Contains frames f → f.base < low → Contains kept f) → p < low → p < length row
        → (lowered kept p ≡ p) × (raised kept (length row) p ≡ p) }
    ensures again { (P : NamedProgram) (first row : List Ref) (cells : List ℕ) (goals : List Goal)
        (early frames kept : List Frame) → IsSound P first → Fill 0 early (length first)
        → NamesFrames P early first → IsSound P row → Fill 0 frames (length row) → NamesFrames P frames row
        → AreEnough frames row goals kept
        → ((f : Frame) → Contains frames f → f.base < length first → Contains kept f) → OnlySet cells first row
        → OnlySet cells first (side_by_side kept row) }
{}

/// Naming frames: a node that is found in a frame names what lies in it, as one of a clause does in
/// the clause's frame, the node of a goal and the pair of an `is` goal in the goal's, and a node that is
/// in range in the last frame of a row; and so do the parts of a structure that does. What lies in some
/// frames lies in more; free words behind a row, and a number that is written into it, name nothing. So
/// where pairs were settled whose sides name what lies in frames, as the words of the row do, the words
/// do then.
pub fn naming_frames()
    ensures node { (P : NamedProgram) (frames : List Frame) (f : Frame) (base node : ℕ) → Contains frames f
        → f.base ≡ base → IsInFrame base f
        → ((v : Path × ℕ) → Contains (variables_of (node_term P.skeleton.nodes node)) v → IsInFrame (base + 1 + v.1) f)
        → NamesFrame P frames (part_at P base node) }
    ensures own { (P : NamedProgram) (frames : List Frame) (clause base node : ℕ)
        → Contains frames (record { base = base; weight = clause_weight (clause_at P.program clause) })
        → ((v : Path × ℕ) → Contains (variables_of (node_term P.skeleton.nodes node)) v
        → v.1 < (clause_at P.program clause).variables)
        → NamesFrame P frames (part_at P base node) }
    ensures number { (P : NamedProgram) (frames : List Frame) (g : Goal) (left right pair : ℕ) → IsLoaded P
        → g.clause.0 ≤ length P.program.clauses → node_item_at P g ≡ Skeletons.is left right pair
        → Contains frames (frame_of_goal P g)
        → NamesFrame P frames (Ref.Number (pair_of P g.clause.0 g.base pair)) }
    ensures goal { (P : NamedProgram) (frames : List Frame) (g : Goal) (node : ℕ) → OwnVariables P
        → Contains frames (frame_of_goal P g) → term_of P.program g ≡ node_term P.skeleton.nodes node
        → NamesFrame P frames (part_at P g.base node) }
    ensures last { (P : NamedProgram) (frames : List Frame) (f : Frame) (node : ℕ) → Contains frames f → 0 < f.weight
        → IsInRange P (f.base + f.weight) (part_at P f.base node) → NamesFrame P frames (part_at P f.base node) }
    ensures parts { (P : NamedProgram) (frames : List Frame) (r q : Ref) → AllFall 0 P.skeleton.nodes
        → NamesFrame P frames r → Contains (parts_of P r) q → NamesFrame P frames q }
    ensures more { (P : NamedProgram) (frames others : List Frame) (row : List Ref)
        → ((f : Frame) → Contains frames f → Contains others f) → NamesFrames P frames row → NamesFrames P others row }
    ensures behind { (P : NamedProgram) (frames : List Frame) (row : List Ref) (by : ℕ)
        → NamesFrames P frames row → NamesFrames P frames (widened row by) }
    ensures written { (P : NamedProgram) (frames : List Frame) (row written : List Ref) (pair : ℕ) (z : ℤ)
        → IsWritten row written pair z → NamesFrames P frames row → NamesFrames P frames written }
    ensures settled { (P : NamedProgram) (frames : List Frame) (old new : List Ref) (pairs : List Pair)
        → AllFall 0 P.skeleton.nodes → NamesFrames P frames old
        → ((r : Ref) → Contains (sides pairs) r → NamesFrame P frames r) → SetsPlaces P old new pairs
        → NamesFrames P frames new }
{}

/// One list of kept frames: of frames that rise some list has just those that are kept, in order,
/// and two such lists are the same. They are enough.
pub fn one_list_of_kept_frames()
    ensures some { (frames : List Frame) (row : List Ref) (goals : List Goal)
        → AllPairs (λ (f g : Frame). f.base < g.base) frames
        → (kept : List Frame) × AreKept frames row goals kept }
    ensures one { (frames : List Frame) (row : List Ref) (goals : List Goal) (kept others : List Frame)
        → AreKept frames row goals kept → AreKept frames row goals others → kept ≡ others }
    ensures enough { (frames : List Frame) (row : List Ref) (goals : List Goal) (kept : List Frame)
        → AreKept frames row goals kept → AreEnough frames row goals kept }
{}

// ---- Branches whose row is a part

/// Roots keep parts: with the query's frame alone, and the `=` items of the query settled in it, a
/// branch keeps the query's goals.
pub fn roots_keep_parts()
    ensures { (P : NamedProgram) (new : List Ref) → IsLoaded P
        → Settled P (replicate (clause_weight P.program.query) Ref.Free) new
        (body_equations (placed 0) P.program.query.body)
        → NamesFrames P (record { base = 0; weight = clause_weight P.program.query } ∷ []) new
        → PartKept P [] (record { base = 0; weight = clause_weight P.program.query } ∷ []) new
        (body_goals 0 0 [] 0 P.program.query.body) (blank (query_agenda P.program)) }
{}

/// Whole rows are parts: a branch that keeps all its frames, and names what lies in them, is one
/// whose row is part of its whole one.
pub fn whole_rows_are_parts()
    ensures { (P : NamedProgram) (rs : List Reduction) (row : List Ref) (kept : List Framed)
        (t : QueryTree P.program) (frames : List Frame) → OwnVariables P → Kept P rs row kept t
        → AreFrames P rs frames → NamesFrames P frames row → PartKept P rs frames row kept t }
{}

/// Goals of parts are the tree's: the reductions make the tree, and the kept goals stand at its places; the kept calls
/// are its open goals, one behind the other, and the kept arithmetic is what was not run of its own.
pub fn goals_of_parts_are_the_trees()
    ensures made { (P : NamedProgram) (rs : List Reduction) (frames : List Frame) (part : List Ref)
        (kept : List Framed) (t : QueryTree P.program) → PartKept P rs frames part kept t → Makes P.program rs t }
    ensures framed { (P : NamedProgram) (rs : List Reduction) (frames : List Frame) (part : List Ref)
        (kept : List Framed) (t : QueryTree P.program) (f : Framed) → PartKept P rs frames part kept t
        → Contains kept f → IsFramed rs f }
    ensures calls { (P : NamedProgram) (rs : List Reduction) (frames : List Frame) (part : List Ref)
        (kept : List Framed) (t : QueryTree P.program) → PartKept P rs frames part kept t
        → map (λ (f : Framed). (f.frame ++ f.goal.item ∷ [], in_tree P.program f)) (calls_kept P.program kept)
        ≡ calls_left t }
    ensures arithmetic { (P : NamedProgram) (rs : List Reduction) (frames : List Frame) (part : List Ref)
        (kept : List Framed) (t : QueryTree P.program) (k : PartKept P rs frames part kept t)
        → Ran (equations t) (arithmetics t) k.keeps.solved (arithmetic_among (map (task_of P.program) kept)) }
    ensures open { (P : NamedProgram) (rs : List Reduction) (frames : List Frame) (part : List Ref)
        (kept : List Framed) (t : QueryTree P.program) (f : Framed) → OwnVariables P
        → PartKept P rs frames part kept t → Contains kept f → IsCall P.program f
        → (o : Open t) × (path t o ≡ f.frame ++ f.goal.item ∷ []) × (call_of t o ≡ in_tree P.program f) }
{}

/// Goals of parts can be judged and run: the part is sound and settled, and has no more words than the tree weighs;
/// each kept goal is in range, no cell of its variables is a word of a pair, and its own pair is free. That pair was
/// moved with the goal, so that no word of the part names it where none of the whole row does.
pub fn goals_of_parts_can_be_seen()
    ensures row { (P : NamedProgram) (rs : List Reduction) (frames : List Frame) (part : List Ref)
        (kept : List Framed) (t : QueryTree P.program) → PartKept P rs frames part kept t
        → IsSound P part × IsSettled P part × (length part ≤ weight t) }
    ensures in_range { (P : NamedProgram) (rs : List Reduction) (frames : List Frame) (part : List Ref)
        (kept : List Framed) (t : QueryTree P.program) (f : Framed) → IsLoaded P
        → PartKept P rs frames part kept t → Contains kept f → IsGoalInRange P (length part) f.goal }
    ensures whole { (P : NamedProgram) (rs : List Reduction) (frames : List Frame) (part : List Ref)
        (kept : List Framed) (t : QueryTree P.program) (f : Framed) (v : Path × ℕ) → OwnVariables P
        → PartKept P rs frames part kept t → Contains kept f → Contains (variables_of (term_of P.program f.goal)) v
        → is_half (word_at part (f.goal.base + 1 + v.1)) ≡ false }
    ensures free { (P : NamedProgram) (rs : List Reduction) (frames : List Frame) (part : List Ref)
        (kept : List Framed) (t : QueryTree P.program) (f : Framed) → IsLoaded P
        → PartKept P rs frames part kept t → Contains kept f
        → HasFreePair P part f.goal (node_item_at P f.goal) }
    ensures pair { (P : NamedProgram) (rs : List Reduction) (frames : List Frame) (part : List Ref)
        (kept : List Framed) (t : QueryTree P.program) (f : Framed) (left right pair : ℕ) → IsLoaded P
        → (k : PartKept P rs frames part kept t) → Contains kept f
        → node_item_at P f.goal ≡ Skeletons.is left right pair
        → (k.at (pair_of P f.goal.clause.0 f.goal.base pair) ≡ pair_of P f.goal.clause.0 (k.at f.goal.base) pair)
        × (k.at (suc (pair_of P f.goal.clause.0 f.goal.base pair))
        ≡ suc (pair_of P f.goal.clause.0 (k.at f.goal.base) pair)) }
    ensures unnamed { (P : NamedProgram) (at : ℕ → ℕ) (part whole : List Ref) (place : ℕ)
        → IsPartOf P at part whole
        → ((by : ℕ) (r : Ref) → IsSetTo whole by r → is_half r ≡ false → Contains (shallow_cells P r) (at place) → ⊥)
        → (by : ℕ) (r : Ref) → IsSetTo part by r → is_half r ≡ false → Contains (shallow_cells P r) place → ⊥ }
{}

/// Nothing dropped is whole: a part that has as many words as its tree weighs has all frames, each where it is, and
/// the branch keeps what one does that never dropped any. (So it can go into a phase, whose laws speak of such a one.)
pub fn nothing_dropped_is_whole()
    ensures { (P : NamedProgram) (rs : List Reduction) (frames : List Frame) (part : List Ref) (kept : List Framed)
        (t : QueryTree P.program) → PartKept P rs frames part kept t → length part ≡ weight t
        → Kept P rs part kept t }
{}

/// Settling keeps parts: where what a phase left of a branch, of which nothing was dropped, is settled, and its words
/// name what lies in the frames, it is again one whose row is part of its whole one. (That its tree is dead where there
/// is no solution, says the law of settling itself.)
pub fn settling_keeps_parts()
    ensures { (P : NamedProgram) (rs : List Reduction) (row new : List Ref) (es : List Equation) (kept : List Framed)
        (t : QueryTree P.program) (frames : List Frame) → IsLoaded P → Unsettled P rs row es kept t
        → Settled P row new es → AreFrames P rs frames → NamesFrames P frames new → PartKept P rs frames new kept t }
{}

/// Dropping keeps: a branch whose row is a part can drop frames that nothing names, all or some, and
/// move the others down side by side with its goals: it keeps of its tree what it kept, and its row
/// is part of the same whole one.
pub fn dropping_keeps()
    ensures { (P : NamedProgram) (rs : List Reduction) (frames : List Frame) (part : List Ref) (kept : List Framed)
        (t : QueryTree P.program) (chosen : List Frame) → OwnVariables P → (k : PartKept P rs frames part kept t)
        → AreEnough frames part (map goal_of kept) chosen
        → (l : PartKept P rs (map (frame_lowered chosen) chosen) (side_by_side chosen part)
        (map (framed_moved (lowered chosen)) kept) t)
        × (l.whole ≡ k.whole) × ((p : ℕ) → l.at p ≡ k.at (raised chosen (length part) p)) }
{}

/// Later rows of fewer frames: what the row side by side grows to, by steps that leave the rest of the
/// whole row, is part of what the row before grows to, which has the dropped frames as they were. (So
/// what is known of all such later rows of a branch is known of them where frames were dropped.)
pub fn later_rows_of_fewer_frames()
    ensures { (P : NamedProgram) (rs : List Reduction) (frames : List Frame) (part : List Ref) (kept : List Framed)
        (t : QueryTree P.program) (chosen : List Frame) (later whole : List Ref) (more : List Frame) → OwnVariables P
        → (k : PartKept P rs frames part kept t) → AreEnough frames part (map goal_of kept) chosen
        → IsPartOf P (λ (p : ℕ). k.at (raised chosen (length part) p)) later whole
        → GrewBeside (λ (p : ℕ). k.at (raised chosen (length part) p))
        (λ (p : ℕ). k.at (raised chosen (length part) p)) k.whole whole
        → Grows (side_by_side chosen part) later
        → Fill 0 (map (frame_lowered chosen) chosen ++ more) (length later)
        → NamesFrames P (map (frame_lowered chosen) chosen ++ more) later
        → (larger : List Ref) × (others : List Frame) × IsPartOf P (raised chosen (length part)) later larger
        × IsPartOf P k.at larger whole × GrewBeside k.at k.at k.whole whole × Grows part larger
        × Fill 0 (frames ++ others) (length larger) × NamesFrames P (frames ++ others) larger }
{}

/// Reductions keep parts: where a kept call is reduced by a clause, whose frame is put behind the
/// part, and the part is settled with what that asks of the cells, it keeps the body's goals in the
/// place of the call, at the new frame's base. Their place in the tree is what the tree weighs. The
/// whole row grows beside the part.
pub fn reductions_keep_parts()
    ensures { (P : NamedProgram) (rs : List Reduction) (frames : List Frame) (part new : List Ref)
        (front : List Framed) (f : Framed) (back : List Framed) (t : QueryTree P.program) (o : Open t) (c : ℕ)
        (of_it : Of P.program (call_of t o) c) → IsLoaded P → (k : PartKept P rs frames part (front ++ f ∷ back) t)
        → IsCall P.program f → path t o ≡ f.frame ++ f.goal.item ∷ []
        → weight t + clause_weight (clause_at P.program c) ≤ MAX_WORDS
        → Settled P (widened part (clause_weight (clause_at P.program c))) new
        (reduction_in_cells P.program f.goal c (length part))
        → NamesFrames P (frames ++ record { base = length part; weight = clause_weight (clause_at P.program c) } ∷ [])
        new
        → (l : PartKept P (rs ++ reduction_by f.goal c (weight t) ∷ [])
        (frames ++ record { base = length part; weight = clause_weight (clause_at P.program c) } ∷ []) new
        (front ++ (map (framed_at (length part))
        (body_goals c (weight t) (f.frame ++ f.goal.item ∷ []) 0 (clause_at P.program c).body) ++ back))
        (reduce t o c of_it)) × GrewBeside k.at l.at k.whole l.whole }
{}

/// Runs keep parts: where the terms that a kept goal of arithmetic needs read in the part as ground
/// terms, a comparison that holds is dropped; and an `is` goal with a value is, where this was
/// written into its pair, which was free, and its left side was settled with it. The whole row grows
/// beside the part. The pair and the left side name what lies in the goal's frame.
pub fn runs_keep_parts()
    ensures comparison { (P : NamedProgram) (rs : List Reduction) (frames : List Frame) (part : List Ref)
        (front : List Framed) (f : Framed) (back : List Framed) (t : QueryTree P.program)
        (r : Relation) (a b u v : Term) → IsLoaded P → (k : PartKept P rs frames part (front ++ f ∷ back) t)
        → item_at P.program f.goal ≡ arithmetic (compare r a b)
        → IsRead P part f.goal.base a u → IsRead P part f.goal.base b v
        → is_ground u ≡ true → is_ground v ≡ true → holds r u v ≡ true
        → (l : PartKept P rs frames part (front ++ back) t) × GrewBeside k.at l.at k.whole l.whole }
    ensures assignment { (P : NamedProgram) (rs : List Reduction) (frames : List Frame) (part written new : List Ref)
        (front : List Framed) (f : Framed) (back : List Framed) (t : QueryTree P.program)
        (l r u : Term) (z : ℤ) (left right pair : ℕ) → IsLoaded P
        → (k : PartKept P rs frames part (front ++ f ∷ back) t)
        → item_at P.program f.goal ≡ arithmetic (is l r)
        → node_item_at P f.goal ≡ Skeletons.is left right pair
        → IsRead P part f.goal.base r u → is_ground u ≡ true → value u ≡ Some z
        → IsWritten part written (pair_of P f.goal.clause.0 f.goal.base pair) z
        → Settled P written new ((placed f.goal.base l, number z) ∷ []) → NamesFrames P frames new
        → (m : PartKept P rs frames new (front ++ back) t) × GrewBeside k.at m.at k.whole m.whole }
    ensures pair_named { (P : NamedProgram) (rs : List Reduction) (frames : List Frame) (part : List Ref)
        (kept : List Framed) (f : Framed) (t : QueryTree P.program) (left right pair : ℕ) → IsLoaded P
        → PartKept P rs frames part kept t → Contains kept f → node_item_at P f.goal ≡ Skeletons.is left right pair
        → NamesFrame P frames (Ref.Number (pair_of P f.goal.clause.0 f.goal.base pair)) }
    ensures left_named { (P : NamedProgram) (rs : List Reduction) (frames : List Frame) (part : List Ref)
        (kept : List Framed) (f : Framed) (t : QueryTree P.program) (words left right pair : ℕ) → IsLoaded P
        → PartKept P rs frames part kept t → Contains kept f → IsGoalInRange P words f.goal
        → node_item_at P f.goal ≡ Skeletons.is left right pair → NamesFrame P frames (part_at P f.goal.base left) }
    ensures pair_is_free { (P : NamedProgram) (rs : List Reduction) (frames : List Frame) (part : List Ref)
        (kept : List Framed) (f : Framed) (t : QueryTree P.program) (left right pair : ℕ) → IsLoaded P
        → PartKept P rs frames part kept t → Contains kept f → node_item_at P f.goal ≡ Skeletons.is left right pair
        → (word_at part (pair_of P f.goal.clause.0 f.goal.base pair) ≡ Ref.Free)
        × (word_at part (suc (pair_of P f.goal.clause.0 f.goal.base pair)) ≡ Ref.Free) }
{}

/// Sole candidates of parts step: where no other clause is a candidate of a kept call in the part,
/// reducing the call by this clause is a Step.
pub fn sole_candidates_of_parts_step()
    ensures { (P : NamedProgram) (rs : List Reduction) (frames : List Frame) (part : List Ref) (kept : List Framed)
        (t : QueryTree P.program) (f : Framed) (o : Open t) (c : ℕ) (of_it : Of P.program (call_of t o) c)
        → IsLoaded P → PartKept P rs frames part kept t → Contains kept f → IsCall P.program f
        → path t o ≡ f.frame ++ f.goal.item ∷ []
        → ((d : ℕ) → CandidateInCells P part f.goal d → d ≡ c) → Step t (reduce t o c of_it) }
{}

/// Dead parts: the tree is dead where a kept call has no candidate in the part; where arithmetic
/// that reads as ground terms is false or has no value; and where the number of an `is` goal has no
/// solution with its left side. A reduced tree is dead where what it asks of the part has no
/// solution, and where the body has `fail`.
pub fn dead_parts()
    ensures candidate { (P : NamedProgram) (rs : List Reduction) (frames : List Frame) (part : List Ref)
        (kept : List Framed) (t : QueryTree P.program) (f : Framed) → IsLoaded P
        → PartKept P rs frames part kept t → Contains kept f
        → IsCall P.program f → ((d : ℕ) → CandidateInCells P part f.goal d → ⊥) → Dead t }
    ensures comparison { (P : NamedProgram) (rs : List Reduction) (frames : List Frame) (part : List Ref)
        (kept : List Framed) (t : QueryTree P.program) (f : Framed) (r : Relation) (a b u v : Term) → IsLoaded P
        → PartKept P rs frames part kept t → Contains kept f
        → item_at P.program f.goal ≡ arithmetic (compare r a b)
        → IsRead P part f.goal.base a u → IsRead P part f.goal.base b v
        → is_ground u ≡ true → is_ground v ≡ true → holds r u v ≡ false → Dead t }
    ensures no_value { (P : NamedProgram) (rs : List Reduction) (frames : List Frame) (part : List Ref)
        (kept : List Framed) (t : QueryTree P.program) (f : Framed) (l r u : Term) → IsLoaded P
        → PartKept P rs frames part kept t → Contains kept f → item_at P.program f.goal ≡ arithmetic (is l r)
        → IsRead P part f.goal.base r u → is_ground u ≡ true → value u ≡ None → Dead t }
    ensures assignment { (P : NamedProgram) (rs : List Reduction) (frames : List Frame) (part written : List Ref)
        (front : List Framed) (f : Framed) (back : List Framed) (t : QueryTree P.program)
        (l r u : Term) (z : ℤ) (left right pair : ℕ) → IsLoaded P
        → PartKept P rs frames part (front ++ f ∷ back) t
        → item_at P.program f.goal ≡ arithmetic (is l r)
        → node_item_at P f.goal ≡ Skeletons.is left right pair
        → IsRead P part f.goal.base r u → is_ground u ≡ true → value u ≡ Some z
        → IsWritten part written (pair_of P f.goal.clause.0 f.goal.base pair) z
        → (Solvable (equations_of P written ++ (placed f.goal.base l, number z) ∷ []) → ⊥) → Dead t }
    ensures reduction { (P : NamedProgram) (rs : List Reduction) (frames : List Frame) (part : List Ref)
        (front : List Framed) (f : Framed) (back : List Framed) (t : QueryTree P.program) (o : Open t) (c : ℕ)
        (of_it : Of P.program (call_of t o) c) → IsLoaded P → PartKept P rs frames part (front ++ f ∷ back) t
        → IsCall P.program f → path t o ≡ f.frame ++ f.goal.item ∷ []
        → (Solvable (equations_of P (widened part (clause_weight (clause_at P.program c)))
        ++ reduction_in_cells P.program f.goal c (length part)) → ⊥)
        → Dead (reduce t o c of_it) }
    ensures failing { (P : NamedProgram) (rs : List Reduction) (frames : List Frame) (part : List Ref)
        (front : List Framed) (f : Framed) (back : List Framed) (t : QueryTree P.program) (o : Open t) (c : ℕ)
        (of_it : Of P.program (call_of t o) c) → IsLoaded P → PartKept P rs frames part (front ++ f ∷ back) t
        → IsCall P.program f → path t o ≡ f.frame ++ f.goal.item ∷ []
        → Contains (clause_at P.program c).body fail → Dead (reduce t o c of_it) }
{}

/// Closed where none of a part is ground: where no kept arithmetic reads as ground terms in the part, what was solved
/// is the tree's closure, and the candidates in the part are those under it.
pub fn closed_where_none_of_a_part_is_ground()
    ensures closed { (P : NamedProgram) (rs : List Reduction) (frames : List Frame) (part : List Ref)
        (kept : List Framed) (t : QueryTree P.program) (k : PartKept P rs frames part kept t) (es : List Equation)
        (gs : List Arithmetic) → IsLoaded P → NoneIsGround P part kept → Closed t es gs
        → Entails es k.keeps.solved × Entails k.keeps.solved es
        × (gs ≡ arithmetic_among (map (task_of P.program) kept)) }
    ensures candidates { (P : NamedProgram) (rs : List Reduction) (frames : List Frame) (part : List Ref)
        (kept : List Framed) (t : QueryTree P.program) (es : List Equation) (gs : List Arithmetic) (f : Framed)
        (o : Open t) (c : ℕ) → IsLoaded P → PartKept P rs frames part kept t → NoneIsGround P part kept
        → Closed t es gs → Contains kept f → IsCall P.program f → path t o ≡ f.frame ++ f.goal.item ∷ []
        → CandidateInCells P part f.goal c ↔ CandidateOf t es o c }
    ensures shut { (P : NamedProgram) (rs : List Reduction) (frames : List Frame) (part : List Ref)
        (kept : List Framed) (t : QueryTree P.program) → IsLoaded P → PartKept P rs frames part kept t
        → NoneIsGround P part kept → EachHasTwo P part kept → Shut t }
{}

/// States of parts: where no kept arithmetic reads as ground terms, what the calls' candidates in
/// the part are, and which fit the tree, says the state of the tree.
pub fn states_of_parts()
    ensures determinate { (P : NamedProgram) (rs : List Reduction) (frames : List Frame) (part : List Ref)
        (front : List Framed) (f : Framed) (back : List Framed) (t : QueryTree P.program) (limit : ℕ) (o : Open t)
        (c : ℕ) → IsLoaded P → PartKept P rs frames part (front ++ f ∷ back) t
        → NoneIsGround P part (front ++ f ∷ back) → IsCall P.program f → path t o ≡ f.frame ++ f.goal.item ∷ []
        → EachHasOne P part (front ++ f ∷ back) → SoleInCells P part f.goal c → Fits limit t c
        → ((h : Framed) (d : ℕ) → Contains front h → IsCall P.program h → SoleInCells P part h.goal d
        → Fits limit t d → ⊥)
        → StateOf P.program limit t (determinate o c) }
    ensures over_one { (P : NamedProgram) (rs : List Reduction) (frames : List Frame) (part : List Ref)
        (front : List Framed) (f : Framed) (back : List Framed) (t : QueryTree P.program) (limit : ℕ) (o : Open t)
        (c : ℕ) → IsLoaded P → PartKept P rs frames part (front ++ f ∷ back) t
        → NoneIsGround P part (front ++ f ∷ back) → IsCall P.program f → path t o ≡ f.frame ++ f.goal.item ∷ []
        → EachHasOne P part (front ++ f ∷ back) → SoleInCells P part f.goal c
        → ((h : Framed) (d : ℕ) → Contains (front ++ f ∷ back) h → IsCall P.program h → SoleInCells P part h.goal d
        → Fits limit t d → ⊥)
        → ((h : Framed) (d : ℕ) → Contains front h → IsCall P.program h → SoleInCells P part h.goal d → ⊥)
        → StateOf P.program limit t (over_one o c) }
    ensures over_all { (P : NamedProgram) (rs : List Reduction) (frames : List Frame) (part : List Ref)
        (front : List Framed) (f : Framed) (back : List Framed) (t : QueryTree P.program) (limit : ℕ) (o : Open t)
        (c : ℕ) → IsLoaded P → PartKept P rs frames part (front ++ f ∷ back) t
        → NoneIsGround P part (front ++ f ∷ back) → IsCall P.program f → path t o ≡ f.frame ++ f.goal.item ∷ []
        → EachHasTwo P part (front ++ f ∷ back) → NoCall P front
        → ((d : ℕ) → CandidateInCells P part f.goal d → Fits limit t d → ⊥)
        → IsFirst (λ d. CandidateInCells P part f.goal d) (Some c)
        → StateOf P.program limit t (over_all o c) }
    ensures fork { (P : NamedProgram) (rs : List Reduction) (frames : List Frame) (part : List Ref)
        (front : List Framed) (f : Framed) (back : List Framed) (t : QueryTree P.program) (limit : ℕ) (o : Open t)
        (cs : List ℕ) (cut : Option ℕ) → IsLoaded P → PartKept P rs frames part (front ++ f ∷ back) t
        → NoneIsGround P part (front ++ f ∷ back) → IsCall P.program f → path t o ≡ f.frame ++ f.goal.item ∷ []
        → EachHasTwo P part (front ++ f ∷ back) → NoCall P front → cs ≢ [] → AllPairs (λ (c d : ℕ). c < d) cs
        → ((c : ℕ) → Contains cs c ↔ (CandidateInCells P part f.goal c × Fits limit t c))
        → IsFirst (λ d. CandidateInCells P part f.goal d × (Fits limit t d → ⊥)) cut
        → StateOf P.program limit t (fork o cs cut) }
    ensures floundered { (P : NamedProgram) (rs : List Reduction) (frames : List Frame) (part : List Ref)
        (kept : List Framed) (t : QueryTree P.program) (limit : ℕ) → IsLoaded P
        → PartKept P rs frames part kept t → NoneIsGround P part kept → NoCall P kept → kept ≢ []
        → StateOf P.program limit t floundered }
    ensures answer { (P : NamedProgram) (rs : List Reduction) (frames : List Frame) (part : List Ref)
        (t : QueryTree P.program) (limit : ℕ) → IsLoaded P → PartKept P rs frames part [] t
        → StateOf P.program limit t answer }
{}

/// Parts stand: what a branch keeps whose row is a part makes it stand for the key by which its
/// tree is reached. What it used is what the tree weighs, and not the length of its row.
pub fn parts_stand()
    ensures { (P : NamedProgram) (limit : ℕ) (key : List ℕ) (v : View)
        (t : QueryTree P.program) → IsLoaded P → PartKeptIn P v t → ReachedBy P.program limit key t
        → v.limit ≡ limit → v.key ≡ key → StandsIn v key P limit }
{}

/// Lines of kept parts: from a part the terms of a line can be read; and where no call is left and
/// no arithmetic can run, the tree ends with the line of these.
pub fn lines_of_kept_parts()
    ensures { (P : NamedProgram) (rs : List Reduction) (frames : List Frame) (part : List Ref) (kept : List Framed)
        (t : QueryTree P.program) → IsLoaded P → PartKept P rs frames part kept t
        → (r : LineIsRead P part (map goal_of (arithmetic_kept P.program kept)))
        × (NoneIsGround P part kept → NoCall P kept → Ends t (outcome_of r.waits (line P.program r.terms r.waits))) }
{}
