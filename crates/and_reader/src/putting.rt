//! Clauses, queries and grammar rules that are over, on their way into the table.

ghost use Rattle.std.specs.Prelude.{◌≡◌, ◌∷◌, [], length, Some, IsTrue, OnOk, IfErr, IfSome};
ghost use Rattle.and_model.specs.Lines.{Bytes};
ghost use Rattle.and_syntax.specs.Written.{Written};
ghost use Rattle.and_translation.specs.Bodies.{is_rule};
ghost use Rattle.and_language.specs.Grammar.{Statement, Sort as StatementSort};
ghost use Rattle.and_language.specs.Refusals.{statement_fault, rule_fault as fault_of_rule};
ghost use Rattle.and_drafts.specs.Drafts.{draft_of};
ghost use Rattle.and_clauses.specs.Views.{table_of, is_query as asks};
ghost use Rattle.and_judging.specs.Faults.{fault_of};
ghost use Rattle.and_clauses.specs.Added.{RefusesClause};
ghost use Rattle.and_grammar.specs.Checked.{fault_of as fault_in_rule};
ghost use Rattle.and_reader.specs.Views.{sort_of};
ghost use Rattle.and_reader.specs.Reading.{IsDraftOf, IsAdded, IsPut, IsRulePut};

use crate::state::Sort;
use and_clauses::{ClauseDraft, ClauseTable, TableFault, What};
use and_grammar::{RuleFault, translate};
use std::alloc::Global;

/// The table's fault that a rule's is.
fn rule_fault(fault: RuleFault) -> TableFault
    ensures { fault_of result ≡ fault_in_rule fault }
{
    match fault {
        RuleFault::NotPure => TableFault::NotPure,
        RuleFault::TooManyArguments => TableFault::TooBig {
            what: What::Arguments,
        },
        RuleFault::Memory => TableFault::Memory,
    }
}

/// Puts a whole clause into the table.
fn put_clause(table: &mut ClauseTable, draft: &ClauseDraft) -> Result<(), TableFault>
    requires { length (draft_of draft.now).finished ≡ 1 }
    ensures added { (w : Written) → (draft_of draft.now).finished ≡ w ∷ []
        → OnOk result (IsPut (table_of table.old) w (draft_of draft.now).line (table_of table.new)) }
    ensures refused { RefusesClause (table_of table.old) (draft_of draft.now) result }
{
    match table.add_clause(draft) {
        Ok(_) => Ok(()),
        Err(fault) => Err(fault),
    }
}

/// The spare draft, or a new one. Takes no memory.
fn taken(alloc: Global, spare: &mut Option<ClauseDraft>) -> ClauseDraft {
    match spare.take() {
        Some(draft) => draft,
        None => ClauseDraft::new(alloc, 1),
    }
}

/// Puts the clause for which a whole grammar rule stands into the table. Its draft is made of the spare one, and is the
/// spare one for the next.
fn put_rule(
    alloc: Global,
    table: &mut ClauseTable,
    rule: &ClauseDraft,
    spare: &mut Option<ClauseDraft>,
) -> Result<(), TableFault>
    requires { IsTrue (is_rule (draft_of rule.now).finished) }
    ensures added { (w : Written) → (draft_of rule.now).finished ≡ w ∷ []
        → OnOk result (IsRulePut (table_of table.old) w (draft_of rule.now).line (table_of table.new)) }
    ensures refused { (w : Written) → (draft_of rule.now).finished ≡ w ∷ []
        → IfErr result (λ e. IfSome (fault_of e)
        (λ f. fault_of_rule (table_of table.old) w ≡ Some f)) }
{
    match translate(alloc, rule, taken(alloc, spare)) {
        Ok(clause) => {
            let put = put_clause(table, &clause);
            *spare = Some(clause);
            put
        }
        Err(fault) => Err(rule_fault(fault)),
    }
}

/// Puts a whole clause, query or grammar rule into the table.
pub(crate) fn put(
    alloc: Global,
    table: &mut ClauseTable,
    draft: &ClauseDraft,
    sort: Sort,
    spare: &mut Option<ClauseDraft>,
) -> Result<(), TableFault>
    requires whole { length (draft_of draft.now).finished ≡ 1 }
    requires query { sort_of sort ≡ StatementSort.query → IsTrue (asks (draft_of draft.now).finished) }
    requires rule { sort_of sort ≡ StatementSort.grammar_rule
        → IsTrue (is_rule (draft_of draft.now).finished) }
    ensures added { (bytes : Bytes) (s : Statement)
        → IsDraftOf bytes (draft_of draft.now) (sort_of sort) s
        → OnOk result (IsAdded bytes (table_of table.old) s (table_of table.new)) }
    ensures refused { (bytes : Bytes) (s : Statement)
        → IsDraftOf bytes (draft_of draft.now) (sort_of sort) s
        → IfErr result (λ e. IfSome (fault_of e)
        (λ f. statement_fault (table_of table.old) s ≡ Some f)) }
{
    match sort {
        Sort::Query => table.set_query(draft),
        Sort::Clause => put_clause(table, draft),
        Sort::GrammarRule => put_rule(alloc, table, draft, spare),
    }
}
