//! The counts of all workers together.

ghost use Rattle.std.specs.Prelude.{ℕ, ◌≤◌, Bool, List, ◌∷◌, IfOk, OnOk};
ghost use Rattle.worker_shares.specs.Shares.{share_of};
ghost use Rattle.sieve_passes.specs.Shares.{AreShares, IsShareOf};
ghost use Rattle.counting_passes.specs.Counts.{AreSumsOf, HaveAllCounted};

use super::share::counted;
use mine_model::{Gate, NoMemory};
use mining_job::Job;
use prefix_counts::PrefixCounts;
use prefix_sieve::Sieve;
use sieve_passes::Share;
use sieved_counts::joined_shares_are_counted;
use std::alloc::Global;
use std::thread::Threads;
use worker_threads::done_by_each;

/// The candidates of a job that pass the sieve, each with what its sequences weigh. Each worker has a thread
/// of its own, where one can be made, and counts of its own, which are joined when all have ended.
pub fn counts_of<'a, R: Threads + Sync, G: Gate>(
    rt: &R,
    alloc: Global,
    job: &Job,
    sieve: &Sieve,
    workers: u32,
    shares: Vec<Share<'a>>,
    gate: &G,
) -> Result<PrefixCounts, NoMemory>
    requires workers { 1 ≤ workers }
    requires shares { (buckets : ℕ) × AreShares job.now workers buckets shares.items }
    ensures { IfOk result (AreSumsOf job.now sieve.now job.now.sequences) }
{
    let counts = counted_by_all(rt, alloc, job, sieve, workers, shares, gate)?;
    joined(job, workers, counts)
}

// What each worker counts, once all have ended.
fn counted_by_all<'a, R: Threads + Sync, G: Gate>(
    rt: &R,
    alloc: Global,
    job: &Job,
    sieve: &Sieve,
    workers: u32,
    shares: Vec<Share<'a>>,
    gate: &G,
) -> Result<Vec<PrefixCounts>, NoMemory>
    requires { (buckets : ℕ) × AreShares job.now workers buckets shares.items }
    ensures { IfOk result (λ counts. HaveAllCounted job.now sieve.now workers counts.items) }
{
    let counts = done_by_each(
        rt,
        alloc,
        shares,
        &|share: Share| -> Result<PrefixCounts, NoMemory>
            requires { (worker : ℕ) × IsShareOf job.now workers worker share }
            ensures { (worker : ℕ) → IsShareOf job.entry.now workers worker share.entry
                → IfOk result (AreSumsOf job.entry.now sieve.entry.now
                (share_of job.entry.now.sequences workers worker)) }
        { counted(alloc, job, sieve, workers, share, gate) },
    )?;
    Ok(counts)
}

// Joins the counts of the workers from the second on to those of the first.
fn joined(job: &Job, workers: u32, mut shares: Vec<PrefixCounts>) -> Result<PrefixCounts, NoMemory>
    requires some { 1 ≤ workers }
    requires shares { (levels : List (List Bool)) × HaveAllCounted job.now levels workers shares.items }
    ensures { IfOk result (λ counts. (levels : List (List Bool))
        → HaveAllCounted job.now levels workers shares.items
        → AreSumsOf job.now levels job.now.sequences counts) }
{
    let mut counts = shares.remove(0);
    join_others(job, workers, &mut counts, shares.as_slice())?;
    Ok(counts)
}

// Joins the counts of the others, worker by worker.
fn join_others(
    job: &Job,
    workers: u32,
    counts: &mut PrefixCounts,
    others: &[PrefixCounts],
) -> Result<(), NoMemory>
    requires { (levels : List (List Bool))
        × HaveAllCounted job.now levels workers (counts.old ∷ others.now) }
    ensures { OnOk result ((levels : List (List Bool))
        → HaveAllCounted job.now levels workers (counts.old ∷ others.now)
        → AreSumsOf job.now levels job.now.sequences counts.new) }
{
    // There is room for the sums of all sequences.
    let _few = job.db().sequences();
    joined_shares_are_counted();
    for share in others {
        counts.join(share)?;
    }
    Ok(())
}
