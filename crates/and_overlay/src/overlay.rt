//! Cells over other cells, in which something is tried.

ghost use Rattle.std.specs.Prelude.{◌≡◌, ◌≢◌, ◌<◌, ◌≤◌, ◌+◌, ◌^◌, ◌⊎◌, ◌↔◌, [], ℕ, suc, map, All, Contains, IfSome};
ghost use Rattle.and_model.specs.declared.reference.Ref.{Ref};
ghost use Rattle.and_model.specs.Store.{AreDistinct, word};
ghost use Rattle.and_cells.specs.Ranges.{CanHold, IsPairInRange};
ghost use Rattle.and_cells.specs.Seen.{Knows, Finds, Misses, Sets, Fills, OnlyReads, Keeps, IsKnownWritten};
ghost use Rattle.and_cells.specs.Seen.{IsWrittenIfNumber, word_at};
ghost use Rattle.and_overlay.specs.Overlaid.{IsOver, IsKnownFit, IsUnknown, seen_over};
ghost use Rattle.and_overlay.specs.Settings.{own_in};
ghost use Rattle.and_overlay.specs.Props.{over_prop};

use crate::scratch::{OwnSetting, Scratch};
use and_cells::{Bound, Cells, halves, joined};
use and_model::Ref;
use std::snapshot::Snapshot;

/// Cells over other cells, with a frame of words behind theirs, in which something can be tried.
///
/// They read through, set nothing below, and keep what is set to themselves. What they found free below is
/// on a list: as long as none of these cells is set, what was done would go the same way again.
#[derive(Drop)]
pub struct Overlay<'a, C: Cells> {
    cells: &'a mut C,
    scratch: &'a mut Scratch<C>,
    /// How many words the cells below have,
    below: u32,
    /// and the frame behind them.
    frame: u32,
    ghost words: { below ≡ (C.seen cells.now).words },
    ghost few: { below + frame < 2 ^ 32 },
    ghost room: { (below + frame ≤ scratch.now.places.room) × (below ≤ scratch.now.looked.room) },
    ghost kept: { IsOver C.program (C.seen cells.now) frame (own_in C.seen scratch.now.settings.items)
        scratch.now.looked.listed } by { over_prop C.program (C.seen cells.now) frame
            (own_in C.seen scratch.now.settings.items) scratch.now.looked.listed },
}

impl<'a, C: Cells> Overlay<'a, C> {
    /// Cells over these, which have so many words, with a frame of so many. Nothing is set in them yet.
    /// Takes no memory.
    pub fn over(
        cells: &'a mut C,
        below: u32,
        frame: u32,
        scratch: &'a mut Scratch<C>,
    ) -> Overlay<'a, C>
        requires words { below ≡ (C.seen cells.old).words }
        requires few { below + frame < 2 ^ 32 }
        requires fits { IsKnownFit C.program (C.seen cells.old) }
        requires room { (below + frame ≤ scratch.old.places.room) × (below ≤ scratch.old.looked.room) }
        ensures cells_name { result.cells.ghost_name ≡ cells.entry.ghost_name }
        ensures scratch_name { result.scratch.ghost_name ≡ scratch.entry.ghost_name }
        ensures cells { result.cells.now ≡ cells.old }
        ensures knows { (place : ℕ) (r : Ref)
            → Knows (C.seen cells.old) place r ↔ Knows (⟦<Overlay<'a, C> as Cells>⟧.seen result) place r }
        ensures below { result.below ≡ below }
        ensures frame { result.frame ≡ frame }
        ensures settings { result.scratch.now.settings.items ≡ [] }
        ensures looked { result.scratch.now.looked.listed ≡ [] }
    {
        scratch.forget_settings();
        scratch.forget_looks();
        Overlay {
            cells,
            scratch,
            below,
            frame,
        }
    }

    /// Forgets what was set, for the next trial, with a frame of so many words. What was found free below
    /// stays on the list. Takes no memory.
    pub fn begin_again(&mut self, frame: u32)
        requires few { self.old.below + frame < 2 ^ 32 }
        requires room { self.old.below + frame ≤ self.old.scratch.now.places.room }
        ensures cells_name { self.new.cells.ghost_name ≡ self.old.cells.ghost_name }
        ensures scratch_name { self.new.scratch.ghost_name ≡ self.old.scratch.ghost_name }
        ensures cells { self.new.cells.now ≡ self.old.cells.now }
        ensures below { self.new.below ≡ self.old.below }
        ensures frame { self.new.frame ≡ frame }
        ensures settings { self.new.scratch.now.settings.items ≡ [] }
        ensures looked { self.new.scratch.now.looked.listed ≡ self.old.scratch.now.looked.listed }
        ensures room { self.new.scratch.now.places.room ≡ self.old.scratch.now.places.room }
    {
        self.scratch.forget_settings();
        self.frame = frame;
    }

    /// The places below that were found free, each once. As long as none of them is set, what was tried goes
    /// the same way again (`a_trial_goes_the_same_way`). Takes no memory.
    pub fn looked(&self) -> &[u32]
        ensures places { result.now ≡ self.now.scratch.now.looked.listed }
        ensures once { AreDistinct result.now }
        ensures below { All (λ place. place < self.now.below) result.now }
    {
        self.scratch.looked()
    }

    /// The places that are set here, in the order of setting. Those below were found free there. Takes no
    /// memory.
    pub fn bound(&self) -> &[u32]
        ensures places { result.now ≡ map (λ s. s.place) self.now.scratch.now.settings.items }
        ensures noted { (place : ℕ) → Contains result.now place → place < self.now.below
            → Contains self.now.scratch.now.looked.listed place }
    {
        self.scratch.bound()
    }

    /// Sets a place that is not known to be set.
    fn keep(&mut self, place: u32, value: Ref)
        requires place { place < (⟦<Overlay<'a, C> as Cells>⟧.seen self.old).words }
        requires unknown { IsUnknown (⟦<Overlay<'a, C> as Cells>⟧.seen self.old) place }
        requires free { IfSome (⟦<Overlay<'a, C> as Cells>⟧.seen self.old).told (λ row. word_at row place ≡ Ref.Free) }
        requires noted { place < self.old.below
            → Contains (⟦<Overlay<'a, C> as Cells>⟧.seen self.old).missed (word place) }
        requires set { value ≢ Ref.Free }
        requires fits { CanHold C.program (⟦<Overlay<'a, C> as Cells>⟧.seen self.old).words place value }
        requires written { IsWrittenIfNumber (⟦<Overlay<'a, C> as Cells>⟧.seen self.old) value }
        ensures grew { ⟦<Overlay<'a, C> as Cells>⟧.Grew self.old self.new }
        ensures sets { Sets place value (⟦<Overlay<'a, C> as Cells>⟧.seen self.old)
            (⟦<Overlay<'a, C> as Cells>⟧.seen self.new) }
        ensures missed { (⟦<Overlay<'a, C> as Cells>⟧.seen self.new).missed
            ≡ (⟦<Overlay<'a, C> as Cells>⟧.seen self.old).missed }
    {
        let setting = OwnSetting {
            place,
            value,
            below: Snapshot::of(&*self.cells),
        };
        self.scratch.set(setting);
    }

    /// What a place is that is not set here.
    fn look_below(&mut self, place: u32) -> Ref
        requires place { place < (⟦<Overlay<'a, C> as Cells>⟧.seen self.old).words }
        requires other { Contains (map (λ s. s.place) self.old.scratch.now.settings.items) place → ⊥ }
        ensures grew { ⟦<Overlay<'a, C> as Cells>⟧.Grew self.old self.new }
        ensures only_reads { OnlyReads (⟦<Overlay<'a, C> as Cells>⟧.seen self.old)
            (⟦<Overlay<'a, C> as Cells>⟧.seen self.new) }
        ensures found { result ≢ Ref.Free
            → Finds C.program place result (⟦<Overlay<'a, C> as Cells>⟧.seen self.old)
            (⟦<Overlay<'a, C> as Cells>⟧.seen self.new) }
        ensures free { result ≡ Ref.Free
            → Misses self.old.below place (⟦<Overlay<'a, C> as Cells>⟧.seen self.old)
            (⟦<Overlay<'a, C> as Cells>⟧.seen self.new) }
    {
        if place >= self.below {
            return Ref::Free;
        }
        let word = self.cells.look(place);
        self.scratch.note_if_free(place, word);
        word
    }

    /// A word of a pair that is known to be written.
    fn written_word(&mut self, pair: u32, place: u32) -> Ref
        requires word { (place ≡ pair) ⊎ (place ≡ suc pair) }
        requires pair { IsPairInRange (⟦<Overlay<'a, C> as Cells>⟧.seen self.old).words pair }
        requires written { IsKnownWritten (⟦<Overlay<'a, C> as Cells>⟧.seen self.old) pair }
        ensures grew { ⟦<Overlay<'a, C> as Cells>⟧.Grew self.old self.new }
        ensures only_reads { OnlyReads (⟦<Overlay<'a, C> as Cells>⟧.seen self.old)
            (⟦<Overlay<'a, C> as Cells>⟧.seen self.new) }
        ensures known { Knows (⟦<Overlay<'a, C> as Cells>⟧.seen self.new) place result }
        ensures fits { CanHold C.program (⟦<Overlay<'a, C> as Cells>⟧.seen self.old).words place result }
        ensures only { (p : ℕ) (r : Ref) → Knows (⟦<Overlay<'a, C> as Cells>⟧.seen self.new) p r
            → Knows (⟦<Overlay<'a, C> as Cells>⟧.seen self.old) p r ⊎ (p ≡ pair) ⊎ (p ≡ suc pair) }
    {
        match self.look(place) {
            Ref::Free => self.word_below(pair, place),
            set => set,
        }
    }

    /// The same of a word that was found free, where it is set below and was seen too late.
    fn word_below(&mut self, pair: u32, place: u32) -> Ref
        requires word { (place ≡ pair) ⊎ (place ≡ suc pair) }
        requires written { IsKnownWritten (⟦<Overlay<'a, C> as Cells>⟧.seen self.old) pair }
        requires unknown { IsUnknown (⟦<Overlay<'a, C> as Cells>⟧.seen self.old) place }
        ensures grew { ⟦<Overlay<'a, C> as Cells>⟧.Grew self.old self.new }
        ensures only_reads { OnlyReads (⟦<Overlay<'a, C> as Cells>⟧.seen self.old)
            (⟦<Overlay<'a, C> as Cells>⟧.seen self.new) }
        ensures known { Knows (⟦<Overlay<'a, C> as Cells>⟧.seen self.new) place result }
        ensures fits { CanHold C.program (⟦<Overlay<'a, C> as Cells>⟧.seen self.old).words place result }
        ensures only { (p : ℕ) (r : Ref) → Knows (⟦<Overlay<'a, C> as Cells>⟧.seen self.new) p r
            → Knows (⟦<Overlay<'a, C> as Cells>⟧.seen self.old) p r ⊎ (p ≡ pair) ⊎ (p ≡ suc pair) }
    {
        self.cells.number(pair);
        self.cells.look(place)
    }

    /// Sets a word of a pair to a half, if it is not set, and answers what the word is then.
    fn fill(&mut self, place: u32, half: Ref) -> Ref
        requires place { place < (⟦<Overlay<'a, C> as Cells>⟧.seen self.old).words }
        requires half { (bits : ℕ) × (half ≡ Ref.Half bits) }
        ensures grew { ⟦<Overlay<'a, C> as Cells>⟧.Grew self.old self.new }
        ensures filled { Fills C.program place half result (⟦<Overlay<'a, C> as Cells>⟧.seen self.old)
            (⟦<Overlay<'a, C> as Cells>⟧.seen self.new) }
    {
        match self.look(place) {
            Ref::Free => {
                self.keep(place, half);
                half
            }
            set => set,
        }
    }
}

impl<'a, C: Cells> Cells for Overlay<'a, C> {
    ghost use Rattle.std.specs.Prelude.{ℕ, refl};
    ghost use Rattle.std.proofs.Common.{◌∙◌};
    ghost use Rattle.and_cells.proofs.Chains.{reads_nothing, reads_more};

    ghost Row = { C.Row × ℕ };

    ghost over = { λ o. (C.over o.cells.now, o.below) };

    ghost shared = { λ row. row.1 };

    ghost program = { C.program };

    ghost seen = { λ o. seen_over (C.seen o.cells.now) o.frame (own_in C.seen o.scratch.now.settings.items)
        o.scratch.now.looked.listed };

    ghost Grew = { λ a b. record {
      cells_name : b.cells.ghost_name ≡ a.cells.ghost_name;
      scratch_name : b.scratch.ghost_name ≡ a.scratch.ghost_name;
      below : b.below ≡ a.below;
      frame : b.frame ≡ a.frame;
      over : C.over b.cells.now ≡ C.over a.cells.now;
      grew : C.Grew a.cells.now b.cells.now;
      only_reads : OnlyReads (C.seen a.cells.now) (C.seen b.cells.now);
      room : (b.scratch.now.places.room ≡ a.scratch.now.places.room)
          × (b.scratch.now.looked.room ≡ a.scratch.now.looked.room);
    } };

    ghost coherent = { λ o. o.kept.coherent };

    ghost grew_nothing = { λ o. record {
      cells_name = refl;
      scratch_name = refl;
      below = refl;
      frame = refl;
      over = refl;
      grew = C.grew_nothing o.cells.now;
      only_reads = reads_nothing (C.seen o.cells.now);
      room = (refl, refl);
    } };

    ghost grew_on = { λ a b c h k. record {
      cells_name = k.cells_name ∙ h.cells_name;
      scratch_name = k.scratch_name ∙ h.scratch_name;
      below = k.below ∙ h.below;
      frame = k.frame ∙ h.frame;
      over = k.over ∙ h.over;
      grew = C.grew_on a.cells.now b.cells.now c.cells.now h.grew k.grew;
      only_reads = reads_more (C.seen a.cells.now) (C.seen b.cells.now) (C.seen c.cells.now) h.only_reads k.only_reads;
      room = (k.room.0 ∙ h.room.0, k.room.1 ∙ h.room.1);
    } };

    fn look(&mut self, cell: u32) -> Ref {
        match self.scratch.value_at(cell) {
            Some(value) => value,
            None => self.look_below(cell),
        }
    }

    fn bind(&mut self, cell: u32, to: Ref) -> Bound {
        match self.look(cell) {
            Ref::Free => {
                self.keep(cell, to);
                Bound::Won
            }
            set => Bound::Already(set),
        }
    }

    fn write_number(&mut self, pair: u32, value: i64) -> i64 {
        let (high, low) = halves(value);
        let high = self.fill(pair, high);
        let low = self.fill(pair + 1, low);
        joined(high, low)
    }

    fn number(&mut self, pair: u32) -> i64 {
        let high = self.written_word(pair, pair);
        let low = self.written_word(pair, pair + 1);
        joined(high, low)
    }
}
