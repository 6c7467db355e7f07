//! A search on the thread of the caller.

ghost use Rattle.std.specs.Prelude.{◌≤◌, length, IfOk};
ghost use Rattle.and_answers.specs.Kept.{listed};
ghost use Rattle.and_model.specs.declared.limits.TheConstants.{MAX_LIMIT};
ghost use Rattle.and_program.specs.Loaded.{program_of};
ghost use Rattle.and_replies.specs.Finding.{Finds};
ghost use Rattle.and_search_laws.specs.Found.{FindsFirst};

use and_answers::{Found, Latest};
use and_clause_index::compile;
use and_gate::Gate;
use and_program::Loaded;
use and_walk::{walk_first, walk_to, walk_watched};
use std::alloc::{AllocError, Global};

/// The answers of a program that are wanted, within a limit, on the thread of the caller, who waits for nobody. An
/// error is want of memory.
pub fn found_alone<G: Gate>(
    alloc: Global,
    loaded: &Loaded,
    limit: u32,
    wanted: Option<u32>,
    gate: &G,
) -> Result<Found, AllocError>
    requires { limit ≤ MAX_LIMIT }
    ensures { IfOk result (Finds (program_of loaded.now) limit wanted) }
{
    let table = compile(alloc, loaded)?;
    match wanted {
        None => walk_watched(alloc, loaded, &table, limit, gate),
        Some(count) => walk_first(alloc, loaded, &table, limit, count as usize, gate),
    }
}

/// The first answers of a program, as many as are asked for, or all within a limit where there are fewer, and the code
/// of the last, found on the thread of the caller. An error is want of memory.
pub fn found_to<G: Gate>(
    alloc: Global,
    loaded: &Loaded,
    limit: u32,
    count: u32,
    gate: &G,
) -> Result<Latest, AllocError>
    requires { limit ≤ MAX_LIMIT }
    ensures first { IfOk result (FindsFirst (program_of loaded.now) limit count) }
    ensures few { IfOk result (λ found. length (listed found) ≤ count) }
{
    let table = compile(alloc, loaded)?;
    walk_to(alloc, loaded, &table, limit, count as usize, gate)
}
