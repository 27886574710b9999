//! What a part is walked over.

ghost use Rattle.std.specs.Prelude.{◌≡◌, ◌≤◌, ◌<◌, length, IfOk};
ghost use Rattle.std.specs.List.{AllByRecursion};
ghost use Rattle.sequence_grids.specs.Successors.{AreSuccessors};
ghost use Rattle.snapshot_project.specs.Terrains.{IsTerrain, IsTerrainOf, AreAll};

use mine_model::NoMemory;
use mining_job::{Bound, Job};
use place_records::{Records, records, records_of_all, records_of_all_alone};
use sequence_grids::{KeptGrids, Successors, successors_of};
use state_bits::StateSet;
use std::alloc::Global;
use std::thread::Threads;

/// The records of a part, and for each state those to which edges lead.
#[derive(Drop)]
pub(crate) struct Terrain<const W: usize> {
    pub(crate) records: Records<W>,
    pub(crate) rows: Vec<StateSet<W>>,
}

/// The terrain in sets of the least width that has room for all states.
pub(crate) enum AnyTerrain {
    One(Terrain<1>),
    Four(Terrain<4>),
    Wide(Terrain<17>),
}

// Written out, so that it is let go of by a call, and not part by part wherever one is.
impl Drop for AnyTerrain {
    fn drop(self) {
        match self {
            AnyTerrain::One(_over) => {}
            AnyTerrain::Four(_over) => {}
            AnyTerrain::Wide(_over) => {}
        }
    }
}

impl AnyTerrain {
    /// How many places it has.
    pub(crate) fn count(&self) -> usize {
        match self {
            AnyTerrain::One(over) => over.records.places().len(),
            AnyTerrain::Four(over) => over.records.places().len(),
            AnyTerrain::Wide(over) => over.records.places().len(),
        }
    }
}

/// The terrain of these grids.
pub(crate) fn terrain_of(alloc: Global, job: &Job, grids: KeptGrids) -> Result<AnyTerrain, NoMemory>
    requires problem { grids.problem ≡ job.now }
    requires within { AllByRecursion (λ i. i < length job.now.sequences) grids.sequences }
    ensures { IfOk result (IsTerrainOf grids.entry) }
{
    match successors_of(alloc, job.fst())? {
        Successors::One(rows) => Ok(AnyTerrain::One(terrain_over(alloc, grids, rows)?)),
        Successors::Four(rows) => Ok(AnyTerrain::Four(terrain_over(alloc, grids, rows)?)),
        Successors::Wide(rows) => Ok(AnyTerrain::Wide(terrain_over(alloc, grids, rows)?)),
    }
}

// The same in sets of one width.
fn terrain_over<const W: usize>(
    alloc: Global,
    grids: KeptGrids,
    rows: Vec<StateSet<W>>,
) -> Result<Terrain<W>, NoMemory>
    requires width { W ≤ 17 }
    requires within { AllByRecursion (λ i. i < length grids.problem.sequences) grids.sequences }
    requires rows { AreSuccessors W grids.problem.transducer rows.items }
    ensures { IfOk result (IsTerrain grids.entry) }
{
    let records = records(alloc, grids)?;
    Ok(Terrain { records, rows })
}

/// The sequences that have a pattern within the bound, and their terrain.
pub(crate) fn terrain_of_all<R: Threads + Sync>(
    rt: &R,
    workers: u32,
    alloc: Global,
    job: &Job,
    bound: Bound,
) -> Result<(Vec<u32>, AnyTerrain), NoMemory>
    requires some { 1 ≤ workers }
    ensures sequences { IfOk result (λ all. AreAll job.now bound all.0.items) }
    ensures terrain { IfOk result (λ all. IsTerrainOf
        (record { problem = job.now; bound = bound; sequences = all.0.items }) all.1) }
{
    match successors_of(alloc, job.fst())? {
        Successors::One(rows) => {
            let (sequences, terrain) = terrain_over_all(rt, workers, alloc, job, bound, rows)?;
            Ok((sequences, AnyTerrain::One(terrain)))
        }
        Successors::Four(rows) => {
            let (sequences, terrain) = terrain_over_all(rt, workers, alloc, job, bound, rows)?;
            Ok((sequences, AnyTerrain::Four(terrain)))
        }
        Successors::Wide(rows) => {
            let (sequences, terrain) = terrain_over_all(rt, workers, alloc, job, bound, rows)?;
            Ok((sequences, AnyTerrain::Wide(terrain)))
        }
    }
}

// The same in sets of one width.
fn terrain_over_all<R: Threads + Sync, const W: usize>(
    rt: &R,
    workers: u32,
    alloc: Global,
    job: &Job,
    bound: Bound,
    rows: Vec<StateSet<W>>,
) -> Result<(Vec<u32>, Terrain<W>), NoMemory>
    requires some { 1 ≤ workers }
    requires width { W ≤ 17 }
    requires rows { AreSuccessors W job.now.transducer rows.items }
    ensures sequences { IfOk result (λ all. AreAll job.now bound all.0.items) }
    ensures terrain { IfOk result (λ all. IsTerrain
        (record { problem = job.now; bound = bound; sequences = all.0.items }) all.1) }
{
    let (sequences, records) = records_of_all::<R, W>(rt, workers, alloc, job, bound)?;
    Ok((sequences, Terrain { records, rows }))
}

/// The same as `terrain_of_all`, in one thread.
pub(crate) fn terrain_of_all_alone(
    alloc: Global,
    job: &Job,
    bound: Bound,
) -> Result<(Vec<u32>, AnyTerrain), NoMemory>
    ensures sequences { IfOk result (λ all. AreAll job.now bound all.0.items) }
    ensures terrain { IfOk result (λ all. IsTerrainOf
        (record { problem = job.now; bound = bound; sequences = all.0.items }) all.1) }
{
    match successors_of(alloc, job.fst())? {
        Successors::One(rows) => {
            let (sequences, terrain) = terrain_over_all_alone(alloc, job, bound, rows)?;
            Ok((sequences, AnyTerrain::One(terrain)))
        }
        Successors::Four(rows) => {
            let (sequences, terrain) = terrain_over_all_alone(alloc, job, bound, rows)?;
            Ok((sequences, AnyTerrain::Four(terrain)))
        }
        Successors::Wide(rows) => {
            let (sequences, terrain) = terrain_over_all_alone(alloc, job, bound, rows)?;
            Ok((sequences, AnyTerrain::Wide(terrain)))
        }
    }
}

// The same in sets of one width.
fn terrain_over_all_alone<const W: usize>(
    alloc: Global,
    job: &Job,
    bound: Bound,
    rows: Vec<StateSet<W>>,
) -> Result<(Vec<u32>, Terrain<W>), NoMemory>
    requires width { W ≤ 17 }
    requires rows { AreSuccessors W job.now.transducer rows.items }
    ensures sequences { IfOk result (λ all. AreAll job.now bound all.0.items) }
    ensures terrain { IfOk result (λ all. IsTerrain
        (record { problem = job.now; bound = bound; sequences = all.0.items }) all.1) }
{
    let (sequences, records) = records_of_all_alone::<W>(alloc, job, bound)?;
    Ok((sequences, Terrain { records, rows }))
}
