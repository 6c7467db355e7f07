//! Entries are cut into runs of rising codes, and the entries of one run are put back.

ghost use Rattle.std.specs.Prelude.{◌≡◌, ◌≤◌, ℕ, List, [], ◌∷◌, ◌++◌, length, map, reverse, IfOk, OnOk};
ghost use Rattle.std.specs.List.Sorted.{IsPermutation};
ghost use Rattle.and_model.specs.Listing;
ghost use Rattle.and_answers.specs.Kept.{entry_of};
ghost use Rattle.and_answers.specs.Runs.{Rises, IsPut, entries_of};
ghost use Rattle.and_answers.specs.Merged.{all_entries, IsPutBack};

use crate::codes::CodeList;
use crate::found::Entry;
use crate::piece::Piece;
use crate::run::Run;
use crate::tail::Tail;
use std::alloc::AllocError;

/// The entries in runs of rising codes; none are left. An error is want of memory.
pub(crate) fn runs_of(entries: &mut Vec<Entry>, codes: CodeList) -> Result<Vec<Run>, AllocError>
    requires { map (λ (e : Listing.Entry). e.code) (map entry_of entries.old.items) ≡ codes }
    ensures same { IfOk result (λ runs. IsPermutation entries.old.items (all_entries runs.items)) }
    ensures none { OnOk result (entries.new.items ≡ []) }
{
    let mut pieces = codes.into_pieces();
    let mut runs = Vec::new(*entries.allocator());
    let mut tails = Vec::new(*entries.allocator());
    'cutting: while let Some(entry) = entries.pop() {
        let Some(piece) = pieces.pop() else {
            return Err(AllocError);
        };
        tails = put_before(&mut runs, tails, tail_of(entry, piece))?;
    }
    runs.push(Run { tails })?;
    Ok(runs)
}

/// The entry of a piece's code.
fn tail_of(entry: Entry, piece: Piece) -> Tail
    ensures entry { result.entry ≡ entry }
    ensures common { result.common ≡ piece.common }
    ensures rest { (result.from ≡ 0) × (result.rest ≡ piece.rest) }
{
    let Piece { common, rest } = piece;
    Tail {
        entry,
        common,
        from: 0,
        rest,
    }
}

/// Puts a tail before others. Where its code has nothing from the one before it they are a run, and none are left.
/// An error is want of memory.
fn put_before(
    runs: &mut Vec<Run>,
    mut tails: Vec<Tail>,
    tail: Tail,
) -> Result<Vec<Tail>, AllocError>
    requires { (last : List ℕ) × IsPut last tail × Rises tail.entry.code.value (reverse tails.items) }
    ensures rises { IfOk result (λ left. (last : List ℕ) → IsPut last tail → Rises last (reverse left.items)) }
    ensures same { IfOk result
        (λ left. IsPermutation (tail.entry ∷ (entries_of tails.items ++ all_entries runs.old.items))
        (entries_of left.items ++ all_entries runs.new.items)) }
{
    let has_some = tail.common > 0;
    tails.push(tail)?;
    if has_some {
        return Ok(tails);
    }
    let left = Vec::new(*tails.allocator());
    runs.push(Run { tails })?;
    Ok(left)
}

/// Puts the entries of a run behind others, if there is a run. An error is want of memory.
pub(crate) fn put_back(entries: &mut Vec<Entry>, mut runs: Vec<Run>) -> Result<(), AllocError>
    requires { length runs.items ≤ 1 }
    ensures { OnOk result (IsPutBack entries.old.items runs.items entries.new.items) }
{
    let Some(run) = runs.pop() else {
        return Ok(());
    };
    let Run { mut tails } = run;
    'putting: while let Some(tail) = tails.pop() {
        entries.push(tail.entry)?;
    }
    Ok(())
}
