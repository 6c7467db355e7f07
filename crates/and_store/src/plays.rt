//! What each step on a store's table tells.

ghost use Rattle.std.specs.Prelude.{◌≡◌, ◌+◌, [], ◌∷◌, ℕ};
ghost use Rattle.and_model.specs.Words.{HasWord, word_of};
ghost use Rattle.and_model.specs.declared.reference.Ref.{Ref};
ghost use Rattle.and_model.specs.declared.goal.Goal.{Goal};
ghost use Rattle.and_store.specs.Kept.{UpperIs, LowerIs};
ghost use Rattle.and_store.specs.Sight.{one_more, newcomer, taken_in, spent};
ghost use Rattle.and_store.specs.Told.{LookTold, BindTold, TakeTold, FrameTold, FailTold, FailedTold, NoteTold};
ghost use Rattle.and_store.specs.Told.{HangTold, GoalTold};

use crate::view::View;
use and_cells::Naming;
use atomic_table::{Join, Play, Split};
use std::marker::PhantomData;

/// A look at the word of a cell.
pub struct LooksAtCell<N: Naming> {
    of: PhantomData<N>,
}

impl<N: Naming> Play<(), View> for LooksAtCell<N> {
    ghost then = { λ step v found w. LookTold N.program step.word v.0 found w.0 × (w.1 ≡ []) };
}

/// An exchange of the word of a cell, from the one of `Free`.
pub struct SetsCell<N: Naming> {
    of: PhantomData<N>,
}

impl<N: Naming> Play<(), View> for SetsCell<N> {
    ghost then = { λ step v found w.
        ((to : Ref) → HasWord to → word_of to ≡ step.second → BindTold N.program step.word to v.0 found w.0)
        × (w.1 ≡ []) };
}

/// The place of a cell becomes closed.
pub struct ClosesPlace<N: Naming> {
    of: PhantomData<N>,
}

impl<N: Naming> Play<(), View> for ClosesPlace<N> {
    ghost then = { λ step v found w.
        ((cell : ℕ) → step.word ≡ v.0.about.words + cell → TakeTold N.program cell v.0 found w.0) × (w.1 ≡ []) };
}

/// The mark is raised.
pub struct RaisesMark<N: Naming> {
    of: PhantomData<N>,
}

impl<N: Naming> Play<(), View> for RaisesMark<N> {
    ghost then = { λ step v found w. FrameTold N.program step.first v.0 found w.0 × (w.1 ≡ []) };
}

/// The fail word is raised.
pub struct RaisesFail<N: Naming> {
    of: PhantomData<N>,
}

impl<N: Naming> Play<(), View> for RaisesFail<N> {
    ghost then = { λ step v found w. FailTold N.program v.0 w.0 × (w.1 ≡ []) };
}

/// A look at the fail word.
pub struct LooksAtFail<N: Naming> {
    of: PhantomData<N>,
}

impl<N: Naming> Play<(), View> for LooksAtFail<N> {
    ghost then = { λ step v found w. FailedTold N.program v.0 found w.0 × (w.1 ≡ []) };
}

/// A word of a goal is written, for a waiter that hangs nowhere yet.
pub struct NotesWord<N: Naming> {
    of: PhantomData<N>,
}

impl<N: Naming> Play<(), View> for NotesWord<N> {
    ghost then = { λ step v found w. NoteTold N.program step.first v.0 w.0 × (w.1 ≡ []) };
}

/// An exchange of a place, from an empty one to one with a waiter.
pub struct HangsWaiter<N: Naming> {
    of: PhantomData<N>,
}

impl<N: Naming> Play<(), View> for HangsWaiter<N> {
    ghost then = { λ step v found w.
        ((cell upper lower : ℕ) (goal : Goal) → step.word ≡ v.0.about.words + cell → v.0.noted ≡ upper ∷ lower ∷ []
        → UpperIs upper goal → LowerIs lower goal → HangTold N.program cell goal v.0 found w.0) × (w.1 ≡ []) };
}

/// A look at one of the words of goals.
pub struct LooksAtGoal<N: Naming> {
    of: PhantomData<N>,
}

impl<N: Naming> Play<(), View> for LooksAtGoal<N> {
    ghost then = { λ step v found w.
        ((index : ℕ) → step.word ≡ v.0.about.words + (v.0.about.words + index) → GoalTold N.program index v.0 found w.0)
        × (w.1 ≡ []) };
}

/// One more share, and a pass for it.
pub struct Deals;

impl Split<View> for Deals {
    ghost left = { one_more };

    ghost right = { newcomer };
}

/// One seat takes in another's shares and passes.
pub struct Gathers;

impl Join<View> for Gathers {
    ghost both = { taken_in };

    ghost spent = { spent };
}
