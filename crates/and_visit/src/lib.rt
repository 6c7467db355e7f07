//! The search on one thread: branches are walked depth first, and a visitor is told what is come to.
#![tactic(auto)]

ghost use Rattle.std.specs.Prelude.{◌≡◌, ◌≤◌, [], IfOk};
ghost use Rattle.and_model.specs.declared.limits.TheConstants.{MAX_LIMIT};
ghost use Rattle.and_program.specs.Loaded.{program_of};
ghost use Rattle.and_cells.specs.Parts.{named};
ghost use Rattle.and_clause_index.specs.Tables.{IsTableOf};
ghost use Rattle.and_visit.specs.Searched.{IsSearched};

mod seeing;
mod stack;
mod visitor;
mod walker;

use crate::walker::search_named;
use and_clause_index::Determinacy;
use and_gate::Gate;
use and_program::Loaded;
use std::alloc::{AllocError, Global};
use std::marker::Brand;
pub use visitor::Visitor;

/// Walks a program's query within a limit, depth first and by determinate goals first, and tells a visitor what it
/// comes to, until that has enough. A gate is told of each reduction before it is made, and of each branch that ended.
/// An error is want of memory.
pub fn search<V: Visitor, G: Gate>(
    alloc: Global,
    loaded: &Loaded,
    table: &Determinacy,
    limit: u32,
    gate: &G,
    visitor: V,
) -> Result<V, AllocError>
    requires table { IsTableOf (named loaded.now) table.now }
    requires limit { limit ≤ MAX_LIMIT }
    requires begins { V.has_seen visitor [] }
    ensures searched { IfOk result (λ v. IsSearched (program_of loaded.now) limit (V.has_seen v) (V.has_enough v)) }
    ensures asks { IfOk result (λ v. V.asks v ≡ V.asks visitor) }
{
    search_named::<Brand, V, G>(alloc, loaded, table, limit, gate, visitor)
}
