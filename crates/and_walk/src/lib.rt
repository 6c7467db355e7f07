//! The search on one thread: branches are walked depth first.
#![tactic(auto)]

ghost use Rattle.std.specs.Prelude.{◌≤◌, length, IfOk};
ghost use Rattle.and_model.specs.declared.limits.TheConstants.{MAX_LIMIT};
ghost use Rattle.and_program.specs.Loaded.{program_of};
ghost use Rattle.and_cells.specs.Parts.{named};
ghost use Rattle.and_clause_index.specs.Tables.{IsTableOf};
ghost use Rattle.and_answers.specs.Kept.{listed};
ghost use Rattle.and_search_laws.specs.Found.{IsFound, FindsFirst};
ghost use Rattle.and_walk.specs.Walked.{WasWalked};

mod finder;

use crate::finder::{Coder, Finder};
use and_answers::{Found, Latest};
use and_clause_index::Determinacy;
use and_gate::Gate;
use and_program::Loaded;
use and_visit::search;
use std::alloc::{AllocError, Global};

/// All answers of a program within a limit, in the order of their codes, and how the search ended. A gate is told
/// of each reduction before it is made, and of each answer. An error is want of memory.
pub fn walk_watched<G: Gate>(
    alloc: Global,
    loaded: &Loaded,
    table: &Determinacy,
    limit: u32,
    gate: &G,
) -> Result<Found, AllocError>
    requires table { IsTableOf (named loaded.now) table.now }
    requires limit { limit ≤ MAX_LIMIT }
    ensures found { IfOk result (IsFound (program_of loaded.now) limit) }
    ensures walked { IfOk result (WasWalked (program_of loaded.now) limit) }
{
    let finder = search(alloc, loaded, table, limit, gate, Finder::new(alloc, None))?;
    Ok(finder.found)
}

/// The first answers of a program within a limit, in the order of their codes: as many as are asked for, or all where
/// there are fewer, and how the search ended then. It stops where it has so many. A gate is told of each reduction
/// before it is made, and of each answer. An error is want of memory.
pub fn walk_first<G: Gate>(
    alloc: Global,
    loaded: &Loaded,
    table: &Determinacy,
    limit: u32,
    count: usize,
    gate: &G,
) -> Result<Found, AllocError>
    requires table { IsTableOf (named loaded.now) table.now }
    requires limit { limit ≤ MAX_LIMIT }
    ensures first { IfOk result (FindsFirst (program_of loaded.now) limit count) }
    ensures few { IfOk result (λ found. length (listed found) ≤ count) }
{
    let finder = search(
        alloc,
        loaded,
        table,
        limit,
        gate,
        Finder::new(alloc, Some(count)),
    )?;
    Ok(finder.found)
}

/// The first answers of a program within a limit, in the order of their codes: as many as are asked for, or all where
/// there are fewer, and how the search ended then; and the code of the last of them. It stops where it has so many. A
/// gate is told of each reduction before it is made, and of each answer. An error is want of memory.
pub fn walk_to<G: Gate>(
    alloc: Global,
    loaded: &Loaded,
    table: &Determinacy,
    limit: u32,
    count: usize,
    gate: &G,
) -> Result<Latest, AllocError>
    requires table { IsTableOf (named loaded.now) table.now }
    requires limit { limit ≤ MAX_LIMIT }
    ensures first { IfOk result (FindsFirst (program_of loaded.now) limit count) }
    ensures few { IfOk result (λ found. length (listed found) ≤ count) }
{
    let coder = search(
        alloc,
        loaded,
        table,
        limit,
        gate,
        Coder::new(alloc, Some(count)),
    )?;
    Ok(coder.latest)
}
