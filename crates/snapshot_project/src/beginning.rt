//! A part, with the snapshots of the empty prefix.

ghost use Rattle.std.specs.Prelude.{◌≡◌, ℕ, ◌+◌, ◌^◌, ◌≤◌, ◌<◌, ◌++◌, true, false, None, [], length, replicate, AllPairs, IfSome, IfOk, OnOk, IsTrue};
ghost use Rattle.std.specs.List.{AllByRecursion};
ghost use Rattle.snapshot_project.specs.Snapshots.{bound_of, IsPart};
ghost use Rattle.snapshot_project.specs.Stands.{IsProjected};
ghost use Rattle.snapshot_project.specs.Grouped.{AreWeights};
ghost use Rattle.snapshot_project.specs.Terrains.{AreStarts, AreAll, IsWholePart, IsTerrainOf};
ghost use Rattle.snapshot_project.specs.Layouts.{HasStarts, MayHaveStarts};
ghost use Rattle.mine_model.specs.Database.{sequence_at};
ghost use Rattle.mine_model.specs.Limits.{most_length};
ghost use Rattle.mining_job.specs.declared.bound.Bound.{Bound as Bounded};
ghost use Rattle.mining_job.specs.Problems.{IsWhole, items_of};
ghost use Rattle.sequence_grids.specs.Grids.{Completes};
ghost use Rattle.sequence_grids.specs.Wholes.{IsWholeAlphabet};

use super::part::{Part, bound_by, part_of};
use super::snapshots::Snapshots;
use super::terrain::{AnyTerrain, terrain_of, terrain_of_all, terrain_of_all_alone};
use fst_compile::State;
use mine_model::NoMemory;
use mining_job::{Bound, Job};
use place_walk::{Stand, fits};
use sequence_grids::{Alphabet, KeptGrids};
use stand_sums::Run;
use std::alloc::Global;
use std::sync::Arc;
use std::thread::Threads;

/// The part of these sequences, and what is kept of the empty prefix: it stands at the starts of those that
/// have a pattern within the bound. With a pivot the part's patterns are those whose greatest rank it is.
/// What its items may do is cut from the alphabet.
pub fn begin<'a>(
    alloc: Global,
    job: &'a Job,
    alphabet: &Alphabet,
    pivot: Option<u32>,
    sequences: Vec<u32>,
) -> Result<(Part<'a>, Snapshots), NoMemory>
    requires rising { AllPairs (λ low high. low < high) sequences.items }
    requires within { AllByRecursion (λ i. i < length job.now.sequences) sequences.items }
    requires least { IfSome pivot (λ rank. 1 ≤ rank) }
    requires most { IfSome pivot (λ rank. rank ≤ length job.now.ranking.order) }
    requires alphabet { IsWholeAlphabet job.now alphabet.now }
    ensures part { IfOk result (λ begun. begun.0 ≡ record {
      problem = job.now;
      bound = bound_of (length job.now.ranking.order) pivot;
      sequences = sequences.items;
    }) }
    ensures start { IfOk result (λ begun. (least : ℕ) → IsProjected begun.0 least [] begun.1) }
{
    let bound = bound_by(job.ranks().count(), pivot);
    let grids = grids_of(alloc, job, alphabet, bound, sequences.as_slice())?;
    let starts = starts_of(alloc, job, &grids)?;
    let last = starts.len();
    let weights = weights_of(alloc, job, sequences.as_slice())?;
    let terrain = terrain_of(alloc, job, grids)?;
    let firsts = starts_if_wide(alloc, job, sequences.as_slice(), &terrain)?;
    let part = part_of(alloc, job, bound, sequences, terrain, weights, firsts)?;
    let run = Arc::new(alloc, Run::of(alloc, starts))?;
    Ok((part, Snapshots::new(false, 0, run, 0, last)))
}

/// The part of all sequences that have a pattern of frequent items, found by so many threads, and what is
/// kept of the empty prefix, which stands at the start of each.
pub fn begin_whole<'a, R: Threads + Sync>(
    rt: &R,
    workers: u32,
    alloc: Global,
    job: &'a Job,
) -> Result<(Part<'a>, Snapshots), NoMemory>
    requires some { 1 ≤ workers }
    ensures part { IfOk result (λ begun. IsWholePart job.now begun.0) }
    ensures start { IfOk result (λ begun. (least : ℕ) → IsProjected begun.0 least [] begun.1) }
{
    let bound = whole_bound(job);
    let (sequences, terrain) = terrain_of_all(rt, workers, alloc, job, bound)?;
    whole_begun(alloc, job, sequences, terrain)
}

/// The same in one thread.
pub fn begin_whole_alone<'a>(alloc: Global, job: &'a Job) -> Result<(Part<'a>, Snapshots), NoMemory>
    ensures part { IfOk result (λ begun. IsWholePart job.now begun.0) }
    ensures start { IfOk result (λ begun. (least : ℕ) → IsProjected begun.0 least [] begun.1) }
{
    let bound = whole_bound(job);
    let (sequences, terrain) = terrain_of_all_alone(alloc, job, bound)?;
    whole_begun(alloc, job, sequences, terrain)
}

// The bound of patterns of frequent items.
fn whole_bound(job: &Job) -> Bound
    ensures bound { result ≡ bound_of (length job.now.ranking.order) None }
    ensures whole { IsWhole job.now }
{
    bound_by(job.ranks().count(), None)
}

// The part of this terrain of all sequences that have a pattern of frequent items, and what is kept of the
// empty prefix.
fn whole_begun<'a>(
    alloc: Global,
    job: &'a Job,
    sequences: Vec<u32>,
    terrain: AnyTerrain,
) -> Result<(Part<'a>, Snapshots), NoMemory>
    requires all { AreAll job.now (bound_of (length job.now.ranking.order) None) sequences.items }
    requires terrain { IsTerrainOf (record {
      problem = job.now;
      bound = bound_of (length job.now.ranking.order) None;
      sequences = sequences.items;
    }) terrain }
    ensures part { IfOk result (λ begun. IsWholePart job.now begun.0) }
    ensures start { IfOk result (λ begun. (least : ℕ) → IsProjected begun.0 least [] begun.1) }
{
    let bound = whole_bound(job);
    let starts = starts_of_all(alloc, job, sequences.as_slice())?;
    begun_at(alloc, job, bound, sequences, terrain, starts)
}

// The part of this terrain, and what is kept of the empty prefix, which stands at these starts.
fn begun_at<'a>(
    alloc: Global,
    job: &'a Job,
    bound: Bound,
    sequences: Vec<u32>,
    terrain: AnyTerrain,
    starts: Vec<Stand>,
) -> Result<(Part<'a>, Snapshots), NoMemory>
    requires part { IsPart (record {
      problem = job.now;
      bound = bound;
      sequences = sequences.items;
    }) }
    requires terrain { IsTerrainOf (record {
      problem = job.now;
      bound = bound;
      sequences = sequences.items;
    }) terrain }
    requires starts { AreStarts (record {
      problem = job.now;
      bound = bound;
      sequences = sequences.items;
    }) (length sequences.items) starts.items }
    ensures part { IfOk result (λ begun. begun.0 ≡ record {
      problem = job.now;
      bound = bound;
      sequences = sequences.items;
    }) }
    ensures start { IfOk result (λ begun. (least : ℕ) → IsProjected begun.0 least [] begun.1) }
{
    let last = starts.len();
    let weights = weights_of(alloc, job, sequences.as_slice())?;
    let firsts = starts_if_wide(alloc, job, sequences.as_slice(), &terrain)?;
    let part = part_of(alloc, job, bound, sequences, terrain, weights, firsts)?;
    let run = Arc::new(alloc, Run::of(alloc, starts))?;
    Ok((part, Snapshots::new(false, 0, run, 0, last)))
}

// The grids of these sequences, by the alphabet.
fn grids_of<'a>(
    alloc: Global,
    job: &'a Job,
    alphabet: &Alphabet,
    bound: Bound,
    sequences: &[u32],
) -> Result<KeptGrids<'a>, NoMemory>
    requires within { AllByRecursion (λ i. i < length job.now.sequences) sequences.now }
    requires alphabet { IsWholeAlphabet job.now alphabet.now }
    ensures { IfOk result (λ grids. grids
        ≡ record { problem = job.now; bound = bound; sequences = sequences.now }) }
{
    KeptGrids::cut(
        alloc,
        job,
        bound,
        alphabet,
        Vec::from_slice(alloc, sequences)?,
    )
}

// The stands at the starts of those sequences that have a pattern within the bound.
fn starts_of(alloc: Global, job: &Job, grids: &KeptGrids) -> Result<Vec<Stand>, NoMemory>
    requires problem { grids.now.problem ≡ job.now }
    requires within { AllByRecursion (λ i. i < length job.now.sequences) grids.now.sequences }
    requires few { length grids.now.sequences ≤ 2 ^ 32 }
    ensures { IfOk result (λ starts. AreStarts grids.now (length grids.now.sequences) starts.items) }
{
    let mut starts = Vec::new(alloc);
    let mut place: usize = 0;
    for (grid, number) in grids.sequences().iter().enumerate() {
        if grids.completes(grid as u32, 0, State(0), false) {
            starts.push(start_at(place)?)?;
        }
        place += places_of(job, *number);
    }
    Ok(starts)
}

// The stands at the starts of these sequences, each of which has a pattern within the bound.
fn starts_of_all(alloc: Global, job: &Job, sequences: &[u32]) -> Result<Vec<Stand>, NoMemory>
    requires { AllByRecursion (λ i. i < length job.now.sequences) sequences.now }
    ensures { (bound : Bounded)
        → AllByRecursion (λ i. Completes job.now bound (items_of job.now i) 0 false) sequences.now
        → IfOk result (λ starts. AreStarts (record {
          problem = job.now;
          bound = bound;
          sequences = sequences.now;
        }) (length sequences.now) starts.items) }
{
    let mut starts = Vec::with_capacity(alloc, sequences.len())?;
    let mut place: usize = 0;
    for number in sequences {
        starts.push(start_at(place)?)?;
        place += places_of(job, *number);
    }
    Ok(starts)
}

// The place of the first item of each of the sequences, where a stand may not fit into four bytes, and else
// nothing.
fn starts_if_wide(
    alloc: Global,
    job: &Job,
    sequences: &[u32],
    terrain: &AnyTerrain,
) -> Result<Vec<u32>, NoMemory>
    requires { AllByRecursion (λ i. i < length job.now.sequences) sequences.now }
    ensures { IfOk result (λ starts. (bound : Bounded) → MayHaveStarts (record {
      problem = job.now;
      bound = bound;
      sequences = sequences.now;
    }) starts.items) }
{
    let places = terrain.count().min(u32::MAX as usize) as u32;
    if fits(places, job.fst().states() as u16) {
        return Ok(Vec::new(alloc));
    }
    first_places(alloc, job, sequences)
}

/// The place of the first item of each of the sequences.
pub(crate) fn first_places(
    alloc: Global,
    job: &Job,
    sequences: &[u32],
) -> Result<Vec<u32>, NoMemory>
    requires { AllByRecursion (λ i. i < length job.now.sequences) sequences.now }
    ensures { IfOk result (λ starts. (bound : Bounded) → HasStarts (record {
      problem = job.now;
      bound = bound;
      sequences = sequences.now;
    }) starts.items) }
{
    let mut starts = Vec::with_capacity(alloc, sequences.len())?;
    let mut place: usize = 0;
    for number in sequences {
        starts.push(to_place(place)?)?;
        place += places_of(job, *number);
    }
    // The place behind the last sequence has to be one too.
    let _end = to_place(place)?;
    Ok(starts)
}

// The stand at the start of a sequence that begins at the place, if there is room for its number.
fn start_at(place: usize) -> Result<Stand, NoMemory>
    ensures { IfOk result (λ start. start ≡ record { place = place; state = 0; first = true }) }
{
    Ok(Stand {
        place: to_place(place)?,
        state: 0,
        first: true,
    })
}

// How many places the sequence has: one for each item, and one behind them.
fn places_of(job: &Job, number: u32) -> usize
    requires { number < length job.now.sequences }
    ensures places { result ≡ length (items_of job.now number) + 1 }
    ensures most { result ≤ most_length + 1 }
{
    job.db().sequence(number).len() + 1
}

// The number of a place, if it has room for it.
fn to_place(place: usize) -> Result<u32, NoMemory>
    ensures { IfOk result (λ number. number ≡ place) }
{
    if place > u32::MAX as usize {
        return Err(NoMemory);
    }
    Ok(place as u32)
}

// What the sequence of each place weighs, or nothing where each weighs 1.
fn weights_of(alloc: Global, job: &Job, sequences: &[u32]) -> Result<Vec<u32>, NoMemory>
    requires { AllByRecursion (λ i. i < length job.now.sequences) sequences.now }
    ensures { IfOk result (λ weights. (bound : Bounded) → AreWeights (record {
      problem = job.now;
      bound = bound;
      sequences = sequences.now;
    }) weights.items) }
{
    if all_are_one(job, sequences) {
        return Ok(Vec::new(alloc));
    }
    let mut weights = Vec::new(alloc);
    for number in sequences {
        let weight = job.db().weight(*number) as u32;
        push_all(&mut weights, weight, places_of(job, *number))?;
    }
    Ok(weights)
}

// Whether each of the sequences weighs 1.
fn all_are_one(job: &Job, sequences: &[u32]) -> bool
    requires { AllByRecursion (λ i. i < length job.now.sequences) sequences.now }
    ensures { IsTrue result
        → AllByRecursion (λ i. (sequence_at job.now.sequences i).weight ≡ 1) sequences.now }
{
    for number in sequences {
        if job.db().weight(*number) != 1 {
            return false;
        }
    }
    true
}

// Appends so many of the weight.
fn push_all(weights: &mut Vec<u32>, weight: u32, places: usize) -> Result<(), NoMemory>
    ensures { OnOk result (weights.new.items ≡ weights.old.items ++ replicate places weight) }
{
    for _place in 0..places {
        weights.push(weight)?;
    }
    Ok(())
}
