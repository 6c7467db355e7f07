//! What the programs of texts are, and so what their codes and listings mean: SLD resolution.
//!
//! Each function here does nothing. Its contract is a law.
#![tactic(auto)]

ghost use Rattle.std.specs.Prelude.{ℕ, ◌≡◌, ◌≤◌, ◌↔◌, List, Some, Contains, length, map};
ghost use Rattle.and_model.specs.Terms.{Path, Term, apply};
ghost use Rattle.and_model.specs.Programs.{Program, Arithmetic, clause_at};
ghost use Rattle.and_model.specs.OwnVariables.{terms_of_clause};
ghost use Rattle.and_model.specs.Lines.{Bytes};
ghost use Rattle.and_model.specs.Trees.{QueryTree, HasOutcome, unfold_code};
ghost use Rattle.and_model.specs.Listing.{Outcome, answer, Entry, Listing, Ends};
ghost use Rattle.and_model.specs.Stands.{AreVariants};
ghost use Rattle.and_language.specs.Refusals.{Reads, IsLiftedFrom};
ghost use Rattle.and_model.specs.Listing.{Exhausted};
ghost use Rattle.and_model.specs.Output.{Finish, Output};
ghost use Rattle.and_source.specs.Source.{SourceProgram};
ghost use Rattle.and_source.specs.Unfolding.{source_unfold};
ghost use Rattle.and_source.specs.SourceListing.{SourceListing, SourceExhausted, SourceOutput};
ghost use Rattle.and_source.specs.Lifted.{lift};
ghost use Rattle.and_lifting.specs.Alike.{AreAlike};
ghost use Rattle.and_sld.specs.Resolution.{moved, Computes, IsRefuted, Shows};
ghost use Rattle.and_sld.specs.Atoms.{HasAtoms};
ghost use Rattle.and_sld.specs.Computed.{IsComputed};

/// In the program to which that of a text is lifted all heads and calls are atoms, and the query's variables have as
/// many written names as they are.
pub fn read_programs_are_of_atoms()
    ensures atoms { (bytes : Bytes) (P : Program) → IsLiftedFrom bytes P → HasAtoms P }
    ensures written { (bytes : Bytes) (P : Program) → IsLiftedFrom bytes P
        → length P.query.written ≡ P.query.variables }
{}

/// Texts mean SLD resolution. Of each text and the program to which its own is lifted: a code has an outcome exactly
/// where there is a computation by these input clauses, a refutation or one that flounders. The
/// outcome is the one that shows its answer, with the goals that wait, so that there is an answer
/// exactly where there is a refutation. The entries of a listing are what computations show whose
/// clauses weigh no more than the limit. And in whatever frame an input clause is a variant of its
/// clause.
pub fn texts_mean_sld()
    ensures codes { (bytes : Bytes) (P : Program) (cs : List ℕ) → IsLiftedFrom bytes P
        → ((answer : List Term) × (waiting : List Arithmetic) × Computes P cs answer waiting)
        ↔ ((t : QueryTree P) × (unfold_code P cs ≡ Some t) × HasOutcome t) }
    ensures lines { (bytes : Bytes) (P : Program) (cs : List ℕ) (answer : List Term) (waiting : List Arithmetic)
        (t : QueryTree P) (o : Outcome) → IsLiftedFrom bytes P → Computes P cs answer waiting
        → unfold_code P cs ≡ Some t
        → Ends t o ↔ Shows P answer waiting o }
    ensures refutations { (bytes : Bytes) (P : Program) (cs : List ℕ) → IsLiftedFrom bytes P
        → ((values : List Term) × IsRefuted P cs values)
        ↔ ((t : QueryTree P) × (unfold_code P cs ≡ Some t) × ((text : Bytes) × Ends t (answer text))) }
    ensures listings { (bytes : Bytes) (P : Program) (limit : ℕ) (ls : List Entry) → IsLiftedFrom bytes P
        → Listing P limit ls → (e : Entry) → Contains ls e ↔ IsComputed P limit e }
    ensures variants { (bytes : Bytes) (P : Program) (c : ℕ) (q : Path) → IsLiftedFrom bytes P
        → AreVariants (terms_of_clause (clause_at P c)) (map (apply (moved q)) (terms_of_clause (clause_at P c))) }
{}

/// Texts list their own programs. Of each text that reads as a program with disjunctions: what is
/// found in the program to which it is lifted is what it lists itself. Codes unfold alike, and the
/// listings, what every larger limit lists, and what a run writes are the same.
pub fn texts_list_their_programs()
    ensures unfoldings { (bytes : Bytes) (S : SourceProgram) (cs : List ℕ) → Reads bytes S
        → AreAlike S (source_unfold S cs) (unfold_code (lift S) cs) }
    ensures listings { (bytes : Bytes) (S : SourceProgram) (limit : ℕ) (ls : List Entry) → Reads bytes S
        → SourceListing S limit ls ↔ Listing (lift S) limit ls }
    ensures exhausted { (bytes : Bytes) (S : SourceProgram) (limit : ℕ) → Reads bytes S
        → SourceExhausted S limit ↔ Exhausted (lift S) limit }
    ensures outputs { (bytes : Bytes) (S : SourceProgram) (limit : ℕ) (finish : Finish) (out : Bytes) → Reads bytes S
        → SourceOutput S limit finish out ↔ Output (lift S) limit finish out }
{}
