//! Who is told what a walk comes to.

ghost use Rattle.std.specs.Prelude.{ℕ, ◌≡◌, ◌∷◌, ◌++◌, [], List, Bool, true, false, Option, Some, OnOk};
ghost use Rattle.and_branch.specs.States.{numbers};
ghost use Rattle.and_answers.specs.Kept.{outcome_with};
ghost use Rattle.and_traces.specs.Traces.{Report, forked, cut, failed, ended, cut_report};

use and_model::{ClauseList, Code, Cut, Text};
use std::alloc::AllocError;
use std::snapshot::Snapshot;

/// Who is told what a walk comes to, branch by branch, until it has enough. An error of a call is want of memory.
pub trait Visitor: Drop {
    /// It was told this, in order.
    ghost has_seen: { Self → List Report → Type 0 };

    /// It has enough, and is to be told no more.
    ghost has_enough: { Self → Bool };

    /// It wants the code of the next branch that ends.
    ghost wants: { Self → Bool };

    /// It asks for so many branches that end, if for any number.
    ghost asks: { Self → Option ℕ };

    /// Whether it has enough.
    fn is_done(&self) -> bool
        ensures { result ≡ has_enough self.now };

    /// Whether it wants the code of the next branch that ends.
    fn wants_code(&self) -> bool
        ensures { result ≡ wants self.now };

    /// A branch below so many forks forks by these clauses; and here something was cut off, if any clause did not fit.
    fn see_fork(
        &mut self,
        depth: u32,
        clauses: &ClauseList,
        heavy: Option<Cut>,
    ) -> Result<(), AllocError>
        requires going { has_enough self.old ≡ false }
        ensures asks { asks self.new ≡ asks self.old }
        ensures told { (seen : List Report) → has_seen self.old seen → OnOk result (has_seen self.new
            (seen ++ record { depth = depth; event = forked (numbers clauses.now) } ∷ cut_report depth heavy)) };

    /// A branch below so many forks failed.
    fn see_failed(&mut self, depth: u32) -> Result<(), AllocError>
        requires going { has_enough self.old ≡ false }
        ensures asks { asks self.new ≡ asks self.old }
        ensures told { (seen : List Report) → has_seen self.old seen → OnOk result
            (has_seen self.new (seen ++ record { depth = depth; event = failed } ∷ [])) };

    /// The limit keeps a branch below so many forks from going on.
    fn see_cut(&mut self, depth: u32, heavy: Cut) -> Result<(), AllocError>
        requires going { has_enough self.old ≡ false }
        ensures asks { asks self.new ≡ asks self.old }
        ensures told { (seen : List Report) → has_seen self.old seen → OnOk result
            (has_seen self.new (seen ++ record { depth = depth; event = cut heavy } ∷ [])) };

    /// A branch below so many forks ended: as an answer, or floundered. Its code is there for contracts; and in fact,
    /// where it is wanted.
    fn see_end(
        &mut self,
        depth: u32,
        named: Snapshot<Code>,
        code: Option<Code>,
        line: Text,
        floundered: bool,
    ) -> Result<(), AllocError>
        requires going { has_enough self.old ≡ false }
        requires code { wants self.old ≡ true → code ≡ Some named.value }
        ensures asks { asks self.new ≡ asks self.old }
        ensures told { (seen : List Report) → has_seen self.old seen → OnOk result (has_seen self.new
            (seen ++ record { depth = depth; event = ended named.value (outcome_with floundered line) } ∷ [])) };
}
