//! The fork tree of a query: what determinate goals first leave of a search, to be read.
#![tactic(auto)]

ghost use Rattle.std.specs.Prelude.{◌≤◌, IfOk};
ghost use Rattle.and_model.specs.declared.limits.TheConstants.{MAX_LIMIT};
ghost use Rattle.and_program.specs.Loaded.{program_of};
ghost use Rattle.and_cells.specs.Parts.{named};
ghost use Rattle.and_clause_index.specs.Tables.{IsTableOf};
ghost use Rattle.and_forks.specs.Trees.{IsForkTree};

pub mod laws;
mod lines;
mod tree;
mod writer;

use crate::writer::Writer;
use and_clause_index::Determinacy;
use and_gate::Gate;
use and_program::Loaded;
use and_visit::search;
pub use laws::{one_text, trees_count_what_runs_count};
use std::alloc::{AllocError, Global};
pub use tree::Walk;

/// The fork tree of a program's query within a limit, as a text with the numbers of its lines; or where the limit kept
/// the search from going on. A gate is told of each reduction before it is made, and of each line of an outcome. An
/// error is want of memory.
pub fn fork_tree<G: Gate>(
    alloc: Global,
    loaded: &Loaded,
    table: &Determinacy,
    limit: u32,
    gate: &G,
) -> Result<Walk, AllocError>
    requires table { IsTableOf (named loaded.now) table.now }
    requires limit { limit ≤ MAX_LIMIT }
    ensures { IfOk result (IsForkTree (program_of loaded.now) limit) }
{
    let writer = search(alloc, loaded, table, limit, gate, Writer::new(alloc))?;
    Ok(writer.into_walk())
}
