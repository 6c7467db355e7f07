//! What two references call for that are to be made the same.

ghost use Rattle.std.specs.Prelude.{◌≡◌, ◌≢◌, ◌⊎◌, ℕ, true, false};
ghost use Rattle.and_model.specs.Store.{is_half};
ghost use Rattle.and_model.specs.declared.reference.Ref.{Ref};
ghost use Rattle.and_unify.specs.Heads.{IsEnd};
ghost use Rattle.and_unify.specs.Meeting.{IsToBeSet};

use and_model::Ref;

/// What two references call for.
#[derive(Clone, Copy, PartialEq, Eq, Debug)]
pub enum Case {
    /// One of them is a word of a pair.
    Half,
    /// They are one cell.
    OneCell,
    /// The left side is this cell, which is to be set to the right side.
    SetLeft(u32),
    /// The right side is this cell, which is to be set to the left side.
    SetRight(u32),
    /// Neither is a cell or a word of a pair.
    Compare,
}

/// What two references call for. Of two cells the one with the larger number is to be set.
#[inline(always)]
pub fn case_of(one: Ref, other: Ref) -> Case
    requires { (one ≢ Ref.Free) × (other ≢ Ref.Free) }
    ensures half { result ≡ Case.Half → (is_half one ≡ true) ⊎ (is_half other ≡ true) }
    ensures one_cell { result ≡ Case.OneCell → (one ≡ other) × (is_half one ≡ false) }
    ensures left { (cell : ℕ) → result ≡ Case.SetLeft cell → IsToBeSet cell one other }
    ensures right { (cell : ℕ) → result ≡ Case.SetRight cell → IsToBeSet cell other one }
    ensures ends { result ≡ Case.Compare → IsEnd one × IsEnd other }
{
    match one {
        Ref::Free => unreachable!(),
        Ref::Cell(cell) => beside_cell(cell, other),
        Ref::Node { .. } => beside_end(other),
        Ref::Number(_) => beside_end(other),
        Ref::Half(_) => Case::Half,
    }
}

/// What a cell and a reference call for.
fn beside_cell(cell: u32, other: Ref) -> Case
    requires { other ≢ Ref.Free }
    ensures half { result ≡ Case.Half → is_half other ≡ true }
    ensures one_cell { result ≡ Case.OneCell → other ≡ Ref.Cell cell }
    ensures left { (set : ℕ) → result ≡ Case.SetLeft set → IsToBeSet set (Ref.Cell cell) other }
    ensures right { (set : ℕ) → result ≡ Case.SetRight set → IsToBeSet set other (Ref.Cell cell) }
    ensures ends { result ≢ Case.Compare }
{
    match other {
        Ref::Free => unreachable!(),
        Ref::Cell(there) => between_cells(cell, there),
        Ref::Node { .. } => Case::SetLeft(cell),
        Ref::Number(_) => Case::SetLeft(cell),
        Ref::Half(_) => Case::Half,
    }
}

/// What two cells call for.
fn between_cells(left: u32, right: u32) -> Case
    ensures half { result ≢ Case.Half }
    ensures one_cell { result ≡ Case.OneCell → right ≡ left }
    ensures left { (set : ℕ) → result ≡ Case.SetLeft set → IsToBeSet set (Ref.Cell left) (Ref.Cell right) }
    ensures right { (set : ℕ) → result ≡ Case.SetRight set → IsToBeSet set (Ref.Cell right) (Ref.Cell left) }
    ensures ends { result ≢ Case.Compare }
{
    if left == right {
        Case::OneCell
    } else if left < right {
        Case::SetRight(right)
    } else {
        Case::SetLeft(left)
    }
}

/// What a number or a structure and a reference call for.
fn beside_end(other: Ref) -> Case
    requires { other ≢ Ref.Free }
    ensures half { result ≡ Case.Half → is_half other ≡ true }
    ensures one_cell { result ≢ Case.OneCell }
    ensures left { (set : ℕ) → result ≢ Case.SetLeft set }
    ensures right { (set : ℕ) → result ≡ Case.SetRight set → other ≡ Ref.Cell set }
    ensures ends { result ≡ Case.Compare → IsEnd other }
{
    match other {
        Ref::Free => unreachable!(),
        Ref::Cell(cell) => Case::SetRight(cell),
        Ref::Node { .. } => Case::Compare,
        Ref::Number(_) => Case::Compare,
        Ref::Half(_) => Case::Half,
    }
}
