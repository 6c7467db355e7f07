//! What each step on a tree's table tells.

ghost use Rattle.std.specs.Prelude.{◌≡◌, [], ℕ};
ghost use Rattle.and_histories.specs.PlainTree.{Event, Key};
ghost use Rattle.and_tree.specs.Sight.{mine_of, dealing_left, dealing_right, taken_in, unchanged, note_of, hears};
ghost use Rattle.and_tree.specs.Sight.{spent};
ghost use Rattle.and_tree.specs.Told.{CallTold, PublishTold, ClaimTold, HearTold};

use crate::keyed::Keyed;
use crate::view::View;
use atomic_table::{Join, Play, Split};
use std::marker::{Brand, PhantomData};

/// Names the call that a step makes, for proofs alone.
pub trait Calling {
    /// The call.
    ghost event: { Event };
}

impl Calling for Brand {
    ghost event = { Event.left 0 };
}

/// A step that is a call by itself.
pub struct Calls<C: Calling> {
    of: PhantomData<C>,
}

impl<B, C: Calling> Play<Option<B>, View> for Calls<C> {
    ghost then = { λ step v found w. CallTold C.event v.0 found w.0 × (w.1 ≡ []) };
}

/// A load of a cell, to publish there.
pub struct LooksToPublish<C: Calling> {
    of: PhantomData<C>,
}

impl<B, C: Calling> Play<Option<B>, View> for LooksToPublish<C> {
    ghost then = { λ step v found w.
        (cell : ℕ) (key : Key) → C.event ≡ Event.publish (mine_of v.0).team cell key
        → PublishTold cell key v.0 found w };
}

/// An exchange of a cell, from an open one.
pub struct Claims<C: Calling> {
    of: PhantomData<C>,
}

impl<B: Keyed, C: Calling> Play<Option<B>, View> for Claims<C> {
    ghost then = { λ step v found w.
        (cell serial : ℕ) → C.event ≡ Event.claim (mine_of v.0).team cell serial
        → ClaimTold B.key_of B.Stands cell serial v.0 found w };
}

/// A load by which a pass sees all that was done.
pub struct Learns;

impl<B> Play<Option<B>, View> for Learns {
    ghost then = { λ step v found w. HearTold v.0 w.0 × (w.1 ≡ []) };
}

/// The first of the passes gets a seat of its own.
pub struct Deals;

impl Split<View> for Deals {
    ghost left = { dealing_left };

    ghost right = { dealing_right };
}

/// One seat takes in another's passes.
pub struct Gathers;

impl Join<View> for Gathers {
    ghost both = { taken_in };

    ghost spent = { spent };
}

/// A note of what a pass has seen.
pub struct Notes;

impl Split<View> for Notes {
    ghost left = { unchanged };

    ghost right = { note_of };
}

/// A pass is told what stands in a note.
pub struct Tells;

impl Join<View> for Tells {
    ghost both = { hears };

    ghost spent = { spent };
}
