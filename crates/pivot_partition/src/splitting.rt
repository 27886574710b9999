//! The parts of the pivots.

ghost use Rattle.std.specs.Prelude.{◌≡◌, ℕ, ◌+◌, ◌≤◌, ◌<◌, ◌↔◌, ◌++◌, ◌∷◌, [], false, Some, IsTrue, length, All, AllPairs, Contains, IfOk, OnOk};
ghost use Rattle.mine_model.specs.Pivots.{IsAliveLabel};
ghost use Rattle.mining_job.specs.declared.part_seed.PartSeed.{PartSeed as Seed};
ghost use Rattle.mining_job.specs.Problems.{data_of};
ghost use Rattle.mining_job.specs.Parts.{IsComplete};
ghost use Rattle.pivot_partition.specs.Pivots.{pivots_in};
ghost use Rattle.pivot_partition.specs.Pairs.{ArePairs, AreWeights, AreLists, all_of};

use super::pairs::{Pair, pairs_of};
use super::pieces::pieces_of;
use super::weighing::weights;
use mine_model::NoMemory;
use mining_job::{Job, PartSeed};
use std::alloc::Global;
use std::thread::Threads;

/// The seeds of the pivots whose sequences weigh at least the threshold, by rising pivot. The sequences are
/// cut into as many pieces as there are to be threads, and the pivots of each are found by a thread of its
/// own. Where no item has a rank there is no pivot, and no sequence is looked at.
pub fn split<R: Threads + Sync>(
    rt: &R,
    alloc: Global,
    job: &Job,
    threads: u32,
) -> Result<Vec<PartSeed>, NoMemory>
    requires least { 1 ≤ threads }
    requires most { threads ≤ 64 }
    ensures complete { IfOk result (λ seeds. All (IsComplete job.now) seeds.items) }
    ensures rising { IfOk result (λ seeds. AllPairs (λ low high. low < high) (pivots_in seeds.items)) }
    ensures alive { IfOk result (λ seeds. (pivot : ℕ) → Contains (pivots_in seeds.items) pivot
        ↔ ((1 ≤ pivot) × IsAliveLabel (data_of job.now) job.now.ranking.order pivot [])) }
{
    if job.ranks().count() == 0 {
        return Ok(Vec::new(alloc));
    }
    let size = job.db().sequences() / threads + 1;
    let parts = pieces_of(rt, alloc, job, size, threads)?;
    seeds_of(alloc, job, parts.as_slice())
}

/// The same seeds, found in this thread.
pub fn split_alone(alloc: Global, job: &Job) -> Result<Vec<PartSeed>, NoMemory>
    ensures complete { IfOk result (λ seeds. All (IsComplete job.now) seeds.items) }
    ensures rising { IfOk result (λ seeds. AllPairs (λ low high. low < high) (pivots_in seeds.items)) }
    ensures alive { IfOk result (λ seeds. (pivot : ℕ) → Contains (pivots_in seeds.items) pivot
        ↔ ((1 ≤ pivot) × IsAliveLabel (data_of job.now) job.now.ranking.order pivot [])) }
{
    if job.ranks().count() == 0 {
        return Ok(Vec::new(alloc));
    }
    let pairs = pairs_of(alloc, job, 0, job.db().sequences())?;
    let mut parts = Vec::new(alloc);
    parts.push(pairs)?;
    seeds_of(alloc, job, parts.as_slice())
}

/// The seeds of the pivots whose sequences weigh at least the threshold, where these are all pairs.
fn seeds_of(alloc: Global, job: &Job, parts: &[Vec<Pair>]) -> Result<Vec<PartSeed>, NoMemory>
    requires { ArePairs job.now 0 (length job.now.sequences) (all_of parts.now) }
    ensures complete { IfOk result (λ seeds. All (IsComplete job.now) seeds.items) }
    ensures rising { IfOk result (λ seeds. AllPairs (λ low high. low < high) (pivots_in seeds.items)) }
    ensures alive { IfOk result (λ seeds. (pivot : ℕ) → Contains (pivots_in seeds.items) pivot
        ↔ ((1 ≤ pivot) × IsAliveLabel (data_of job.now) job.now.ranking.order pivot [])) }
{
    let threshold = job.threshold();
    let sums = weights(alloc, job, parts)?;
    let mut lists = Vec::new(alloc);
    push_empty(alloc, sums.len(), &mut lists)?;
    for part in parts {
        file(part.as_slice(), threshold, sums.as_slice(), &mut lists)?;
    }
    seeds_with(alloc, job, sums.as_slice(), lists)
}

/// So many empty lists.
fn push_empty(alloc: Global, count: usize, lists: &mut Vec<Vec<u32>>) -> Result<(), NoMemory>
    requires { lists.old.items ≡ [] }
    ensures long { OnOk result (length lists.new.items ≡ count) }
    ensures empty { OnOk result (All (λ list. list.items ≡ []) lists.new.items) }
{
    for _place in 0..count {
        lists.push(Vec::new(alloc))?;
    }
    Ok(())
}

/// Appends the sequence of each pair to the list of its pivot, where that weighs enough.
fn file(
    pairs: &[Pair],
    threshold: u64,
    sums: &[u64],
    lists: &mut Vec<Vec<u32>>,
) -> Result<(), NoMemory>
    requires sums { length sums.now ≡ length lists.old.items }
    requires pivots { All (λ pair. pair.pivot < length lists.old.items) pairs.now }
    ensures long { length lists.new.items ≡ length lists.old.items }
    ensures filed { OnOk result ((done : _) → AreLists threshold sums.now done lists.old.items
        → AreLists threshold sums.now (done ++ pairs.now) lists.new.items) }
{
    for pair in pairs {
        let pivot = pair.pivot as usize;
        if sums[pivot] >= threshold {
            lists[pivot].push(pair.sequence)?;
        }
    }
    Ok(())
}

/// The seeds of these lists that weigh at least the threshold, by their places.
fn seeds_with(
    alloc: Global,
    job: &Job,
    sums: &[u64],
    lists: Vec<Vec<u32>>,
) -> Result<Vec<PartSeed>, NoMemory>
    requires long { length lists.items ≡ length sums.now }
    requires ranks { length sums.now ≡ length job.now.ranking.order + 1 }
    requires pairs { (pairs : _) × ArePairs job.now 0 (length job.now.sequences) pairs
        × AreWeights job.now pairs sums.now × AreLists job.now.threshold sums.now pairs lists.items }
    ensures complete { IfOk result (λ seeds. All (IsComplete job.now) seeds.items) }
    ensures rising { IfOk result (λ seeds. AllPairs (λ low high. low < high) (pivots_in seeds.items)) }
    ensures alive { IfOk result (λ seeds. (pivot : ℕ) → Contains (pivots_in seeds.items) pivot
        ↔ ((1 ≤ pivot) × IsAliveLabel (data_of job.now) job.now.ranking.order pivot [])) }
{
    let threshold = job.threshold();
    let mut seeds = Vec::new(alloc);
    let mut place = 0;
    'lists: for sequences in lists {
        push_seed(place, sequences, sums[place] >= threshold, &mut seeds)?;
        place += 1;
    }
    Ok(seeds)
}

/// Appends the seed of these sequences, where they weigh enough.
fn push_seed(
    place: usize,
    sequences: Vec<u32>,
    is_enough: bool,
    seeds: &mut Vec<PartSeed>,
) -> Result<(), NoMemory>
    ensures enough { OnOk result (IsTrue is_enough → (seed : Seed)
        × (seeds.new.items ≡ seeds.old.items ++ seed ∷ [])
        × (seed.pivot ≡ Some place) × (seed.sequences.items ≡ sequences.items)) }
    ensures less { OnOk result (is_enough ≡ false → seeds.new.items ≡ seeds.old.items) }
{
    if is_enough {
        let pivot = Some(to_rank(place)?);
        seeds.push(PartSeed { pivot, sequences })?;
    }
    Ok(())
}

/// The place as a rank.
fn to_rank(place: usize) -> Result<u32, NoMemory>
    ensures { IfOk result (λ rank. rank ≡ place) }
{
    match u32::try_from(place) {
        Ok(rank) => Ok(rank),
        Err(_) => Err(NoMemory),
    }
}
