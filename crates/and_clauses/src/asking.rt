//! What is looked at where one query after another is put to clauses.

ghost use Rattle.std.specs.Prelude.{◌≡◌, List, ◌∷◌, [], true, length, None, IfOk, IfSome};
ghost use Rattle.and_syntax.specs.Written.{Written};
ghost use Rattle.and_syntax.specs.Tables.{Table};
ghost use Rattle.and_model.specs.Programs.{Clause};
ghost use Rattle.and_program.specs.Nodes.{shapes_of, names_of};
ghost use Rattle.and_program.specs.Predicates.{Finds};
ghost use Rattle.and_clauses.specs.Asking.{IsSetSo};
ghost use Rattle.and_drafts.specs.Drafts.{draft_of};
ghost use Rattle.and_clauses.specs.Makes.{Keeps, HasRoom, Grows};
ghost use Rattle.and_judging.specs.Unknown.{first_called};

use crate::making::{Lengths, Lists, query_added};
use crate::scratch::Scratch;
use and_drafts::ClauseDraft;
use and_judging::{TableFault, Used, first_unknown_call};
use and_program::{ClauseEntry, ClauseNumbers};
use std::alloc::{AllocError, Global};

/// Sets the query of a draft in these lists, if it is not refused. They may have grown. An error is want of memory.
pub(crate) fn set(
    alloc: Global,
    lists: &mut Lists,
    scratch: &mut Scratch,
    draft: &ClauseDraft,
    used: Used,
) -> Result<Option<ClauseEntry>, AllocError>
    requires one { length (draft_of draft.now).finished ≡ 1 }
    requires room { HasRoom (shapes_of lists.old.nodes.items) (names_of lists.old.names.keys) used }
    ensures set { (T : Table) (w : Written) → Keeps lists.old None used T
        → (draft_of draft.now).finished ≡ w ∷ []
        → IfOk result (λ o. IfSome o (IsSetSo lists.new T w (draft_of draft.now).line)) }
    ensures grown { Grows lists.old lists.new }
{
    match query_added(alloc, lists, scratch, draft, used) {
        Ok((query, _)) => Ok(Some(query)),
        Err(TableFault::Memory) => Err(AllocError),
        Err(_) => Ok(None),
    }
}

/// Whether the clauses are as many as they were, and each of their calls has one.
pub(crate) fn is_plain(lists: &Lists, lengths: Lengths, numbers: &ClauseNumbers) -> bool
    ensures count { result ≡ true → length lists.now.clauses.items ≡ lengths.clauses }
    ensures known { result ≡ true → (cs : List Clause) → Finds numbers.now cs
        → first_called cs lists.now.calls.items ≡ None }
{
    if lists.lengths().clauses != lengths.clauses {
        return false;
    }
    first_unknown_call(numbers, &lists.calls).is_none()
}
