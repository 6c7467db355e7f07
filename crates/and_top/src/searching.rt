//! A search by several workers.

ghost use Rattle.std.specs.Prelude.{◌≤◌, IfOk};
ghost use Rattle.and_cells.specs.Parts.{named};
ghost use Rattle.and_clause_index.specs.Tables.{IsTableOf};
ghost use Rattle.and_model.specs.Limits.{AreInRange};
ghost use Rattle.and_model.specs.declared.limits.TheConstants.{MAX_LIMIT};
ghost use Rattle.and_program.specs.Loaded.{program_of};
ghost use Rattle.and_search_laws.specs.Found.{IsFound};
ghost use Rattle.and_replies.specs.Finding.{Finds};

use and_answers::Found;
use and_clause_index::{Determinacy, compile};
use and_gate::Gate;
use and_model::limits::Hands;
use and_program::Loaded;
use and_teams::{Explored, explore};
use std::alloc::{AllocError, Global};
use std::sync::Wait;
use std::thread::Threads;

/// All answers of a program within a limit, in the order of their codes, and how the search ended, by its table and
/// these workers. An error is want of memory.
pub fn explored_by<R: Threads + Wait + Sync, G: Gate>(
    rt: &R,
    alloc: Global,
    loaded: &Loaded,
    table: &Determinacy,
    limit: u32,
    hands: Hands,
    gate: &G,
) -> Result<Found, AllocError>
    requires table { IsTableOf (named loaded.now) table.now }
    requires limit { limit ≤ MAX_LIMIT }
    requires hands { AreInRange hands }
    ensures { IfOk result (IsFound (program_of loaded.now) limit) }
{
    let explored = explore(rt, alloc, loaded, table, limit, hands, gate)?;
    let Explored { found, closed: _ } = explored;
    Ok(found)
}

/// The answers of a program that are wanted, within a limit, by these workers, who find all. An error is want of
/// memory.
pub fn found_by<R: Threads + Wait + Sync, G: Gate>(
    rt: &R,
    alloc: Global,
    loaded: &Loaded,
    limit: u32,
    wanted: Option<u32>,
    hands: Hands,
    gate: &G,
) -> Result<Found, AllocError>
    requires limit { limit ≤ MAX_LIMIT }
    requires hands { AreInRange hands }
    ensures { IfOk result (Finds (program_of loaded.now) limit wanted) }
{
    let table = compile(alloc, loaded)?;
    explored_by(rt, alloc, loaded, &table, limit, hands, gate)
}
