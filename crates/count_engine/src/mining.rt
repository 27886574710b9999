ghost use Rattle.std.specs.Prelude.{◌≡◌, ◌≤◌, ◌<◌, Bool, List, true, IfOk, Contains};
ghost use Rattle.std.specs.List.{AllByRecursion};
ghost use Rattle.mine_model.specs.declared.row.Row.{Row as TheRow};
ghost use Rattle.mine_model.specs.Numbered.{AreFrequent};
ghost use Rattle.mine_model.specs.Counted.{HasPairs, IsTold, IsCountingWork};
ghost use Rattle.mining_job.specs.Problems.{data_of};
ghost use Rattle.sieved_counts.specs.Counted.{AreCounted};
ghost use Rattle.sieve_passes.specs.Sums.{AreLevelsOf};

use super::depth::depth_for;
use candidate_pairs::pairs_of;
use counting_passes::{counts_of, nothing_is_counted_where_no_item_is_frequent};
use frequent_rows::rows_of;
use mine_model::{Gate, Mined, NoMemory, Row, Work};
use mining_job::Job;
use prefix_counts::PrefixCounts;
use sieve_passes::{shares_of, sieve_of};
use std::alloc::Global;
use std::thread::Threads;

/// The frequent patterns of a job with their supports, each once, in no stated order, and the counted work
/// where it is to be told: the pairs take a walk of their own, as the sieve looks at few of them. Each worker
/// has a thread of its own, where one can be made.
pub fn mine<R: Threads + Sync, G: Gate>(
    rt: &R,
    alloc: Global,
    job: &Job,
    workers: u32,
    told: bool,
    gate: &G,
) -> Result<Mined, NoMemory>
    requires workers { 1 ≤ workers }
    ensures frequent { IfOk result (λ mined. AreFrequent (data_of job.now) mined.rows.items) }
    ensures items { IfOk result (λ mined. (row : TheRow) → Contains mined.rows.items row
        → AllByRecursion (λ t. t.0 < job.now.hierarchy.items) row.pattern) }
    ensures work { told ≡ true → IfOk result (λ mined. IsCountingWork (data_of job.now) mined.work) }
{
    let candidates = pairs_told(rt, alloc, job, workers, told)?;
    let rows = rows(rt, alloc, job, workers, gate)?;
    Ok(Mined {
        rows,
        work: Work {
            nodes: 0,
            parts: 0,
            candidates,
        },
    })
}

// How many pairs there are, where that is to be told, and else none.
fn pairs_told<R: Threads + Sync>(
    rt: &R,
    alloc: Global,
    job: &Job,
    workers: u32,
    told: bool,
) -> Result<u64, NoMemory>
    requires { 1 ≤ workers }
    ensures { told ≡ true → IfOk result (IsTold (HasPairs (data_of job.now) job.now.sequences)) }
{
    if told {
        pairs_of(rt, alloc, job, workers)
    } else {
        Ok(0)
    }
}

// The rows, once all candidates that pass the sieve are counted.
fn rows<R: Threads + Sync, G: Gate>(
    rt: &R,
    alloc: Global,
    job: &Job,
    workers: u32,
    gate: &G,
) -> Result<Vec<Row>, NoMemory>
    requires { 1 ≤ workers }
    ensures frequent { IfOk result (λ rows. AreFrequent (data_of job.now) rows.items) }
    ensures items { IfOk result (λ rows. (row : TheRow) → Contains rows.items row
        → AllByRecursion (λ t. t.0 < job.now.hierarchy.items) row.pattern) }
{
    let counts = counted(rt, alloc, job, workers, gate)?;
    rows_of(alloc, job, &counts)
}

// The candidates that pass a sieve of the job, counted. Where no item is frequent, no sequence is gone over.
fn counted<R: Threads + Sync, G: Gate>(
    rt: &R,
    alloc: Global,
    job: &Job,
    workers: u32,
    gate: &G,
) -> Result<PrefixCounts, NoMemory>
    requires { 1 ≤ workers }
    ensures { IfOk result (λ counts. (levels : List (List Bool)) × AreLevelsOf job.now levels
        × AreCounted (data_of job.now) job.now.ranking.order levels job.now.sequences counts) }
{
    nothing_is_counted_where_no_item_is_frequent();
    if job.ranks().count() == 0 {
        return Ok(PrefixCounts::new(alloc));
    }
    let shares = shares_of(rt, alloc, job, workers, bits_for(workers))?;
    let (sieve, shares) = sieve_of(rt, alloc, job, workers, depth_for(job), shares, gate)?;
    counts_of(rt, alloc, job, &sieve, workers, shares, gate)
}

// The bits of a hash by which a worker finds a bucket: with few workers 2 MiB of buckets each, and with the
// most 32 MiB together.
fn bits_for(workers: u32) -> u32
    ensures least { 6 ≤ result }
    ensures most { result ≤ 31 }
{
    match workers {
        0..=4 => 19,
        5..=16 => 18,
        _ => 17,
    }
}
