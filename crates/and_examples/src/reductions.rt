//! What a branch stands for after a reduction.

ghost use Rattle.std.specs.Prelude.{[], ◌∷◌};
ghost use Rattle.and_model.specs.Reductions.{Makes};
ghost use Rattle.and_model.specs.Stands.{IsLive};
ghost use Rattle.and_examples.specs.BasesExamples.{P, tree, by_first, item_at_nine, reduced, read_at_base};

/// `p(X) :- q(X), X < 3. q(1). q(2). ?- p(Y).` After the first reduction, whose frame begins at cell 9, the
/// branch has the call of q pending and the comparison waiting. None of its goals may be left out.
/// They are read at the frame's base: what is read at the number of its place does not matter.
pub fn branch_after_a_reduction()
    ensures made { Makes P (by_first ∷ []) tree }
    ensures live { IsLive P (reduced (item_at_nine 0 ∷ [])) tree }
    ensures at_base { IsLive P read_at_base tree }
    ensures lost_goal { IsLive P (reduced []) tree → ⊥ }
{}
