//! Workers that are sent off, and what they leave.

ghost use Rattle.std.specs.Prelude.{◌≡◌, ◌<◌, ◌≤◌, All, length, IfSome, IfOk};
ghost use Rattle.and_model.specs.declared.limits.TheConstants.{MAX_LIMIT};
ghost use Rattle.and_cells.specs.Parts.{named};
ghost use Rattle.and_clause_index.specs.Tables.{IsTableOf};
ghost use Rattle.and_store.specs.Passes.{fresh};
ghost use Rattle.and_handed.specs.Handed.{HandsOn};
ghost use Rattle.and_closing_laws.specs.Phases.{HasPhased};

use crate::dealing::{deal, taken_in};
use and_cells::{LooseCells, Naming, PlainCells};
use and_clause_index::Determinacy;
use and_gate::Gate;
use and_handed::{Ended, HandedOn};
use and_model::Goal;
use and_program::Loaded;
use and_store::Store;
use and_workers::{Beginning, Shared, work};
use std::alloc::{AllocError, Global};
use std::thread;
use std::thread::Threads;

/// How many goals each worker may hang on cells.
const WAITERS: u32 = 1024;

/// Sends so many workers off over a store of so many words, and waits for them. Answers the row that they leave, and
/// what each of them hands on. An error is want of memory.
pub(crate) fn reduce_all<N: Naming + Send + Sync, R: Threads + Sync, G: Gate>(
    rt: &R,
    alloc: Global,
    loaded: &Loaded,
    table: &Determinacy,
    cells: &PlainCells<N>,
    goals: &[Goal],
    words: u32,
    workers: u32,
    gate: &G,
) -> Result<(LooseCells, Vec<HandedOn>), AllocError>
    requires program { N.program ≡ named loaded.now }
    requires table { IsTableOf N.program table.now }
    requires words { (length cells.now ≤ words) × (words ≤ MAX_LIMIT) }
    requires workers { (0 < workers) × (workers ≤ 8) }
    ensures { IfOk result (λ r. HasPhased N.program cells.now r.0 r.1.items) }
{
    let (store, passes) = Store::open(alloc, cells, words, workers, WAITERS)?;
    let jobs = deal(alloc, goals, passes, workers)?;
    let ended = send_off(
        rt,
        alloc,
        loaded,
        table,
        &store,
        gate,
        cells.len(),
        words,
        jobs,
    )?;
    let (passes, tolds) = taken_in(alloc, ended)?;
    match store.close(passes) {
        Ok(closed) => Ok((closed.cells, tolds)),
        Err(_) => Err(AllocError),
    }
}

/// Does all jobs, each in a thread of its own where one can be started. An error is want of memory.
fn send_off<N: Naming + Send + Sync, R: Threads + Sync, G: Gate>(
    rt: &R,
    alloc: Global,
    loaded: &Loaded,
    table: &Determinacy,
    store: &Store<N>,
    gate: &G,
    opening: u32,
    words: u32,
    jobs: Vec<Beginning>,
) -> Result<Vec<Ended>, AllocError>
    requires program { N.program ≡ named loaded.now }
    requires table { IsTableOf N.program table.now }
    requires words { (words ≡ store.now.about.words) × (words ≤ MAX_LIMIT) }
    requires opening { opening ≡ length store.now.about.first }
    requires jobs { All (λ j. j.pass ≡ fresh store.now j.number) jobs.items }
    ensures len { IfOk result (λ ended. length ended.items ≡ length jobs.items) }
    ensures store { IfOk result (λ ended. All (λ e. e.pass.store ≡ store.now) ended.items) }
    ensures hands_on { IfOk result
        (λ ended. All (λ e. IfSome e.told (λ told. HandsOn N.program told e.pass)) ended.items) }
{
    let shared = Shared {
        alloc,
        loaded,
        table,
        store,
        gate,
        words,
        opening,
    };
    thread::map_vec(
        rt,
        jobs,
        &|job: Beginning| -> Ended
            requires program { N.program ≡ named shared.loaded.now }
            requires table { IsTableOf N.program shared.table.now }
            requires fresh { job.pass ≡ fresh shared.store.now job.number }
            ensures store { result.pass.store ≡ shared.entry.store.now }
            ensures hands_on { IfSome result.told (λ told. HandsOn N.program told result.pass) }
        { work(&shared, job) },
    )
}
