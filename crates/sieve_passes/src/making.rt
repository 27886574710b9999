ghost use Rattle.std.specs.Prelude.{◌≡◌, ℕ, ◌^◌, ◌≤◌, ◌<◌, length, replicate, IfOk};
ghost use Rattle.prefix_sieve.specs.Buckets.{top, flags_of};
ghost use Rattle.sieve_passes.specs.Shares.{AreShares, IsShareOf, IsShareWith, IsPassedBy, HaveAll};
ghost use Rattle.sieve_passes.specs.Sums.{AreLevelsOf};

use super::share::{Share, entered, passed};
use super::sums::level_of;
use mine_model::{Gate, NoMemory};
use mining_job::Job;
use prefix_sieve::{Buckets, Level, Sieve};
use std::alloc::Global;
use std::thread::Threads;
use worker_shares::worker_numbers;
use worker_threads::done_by_each;

// The bits of a hash for the least number of buckets: a level has a word of 64 flags at least.
const LEAST_BITS: u32 = 6;

/// Each worker's share of the sequences of a job, with so many buckets, 2^`bits`, which take four bytes each.
/// Each share is entered in a thread of its own, where one can be made.
pub fn shares_of<'a, R: Threads + Sync>(
    rt: &R,
    alloc: Global,
    job: &'a Job,
    workers: u32,
    bits: u32,
) -> Result<Vec<Share<'a>>, NoMemory>
    requires least { 6 ≤ bits }
    requires most { bits ≤ 31 }
    ensures { IfOk result (λ shares. AreShares job.now workers (2 ^ bits) shares.items) }
{
    let numbers = worker_numbers(alloc, workers)?;
    let shares = done_by_each(
        rt,
        alloc,
        numbers,
        &|worker: u32| -> Result<Share, NoMemory>
            requires worker { worker < workers }
            requires least { 6 ≤ bits }
            requires most { bits ≤ 31 }
            ensures { IfOk result (IsShareWith job.entry.now workers (2 ^ bits) worker) }
        { entered(alloc, job, workers, worker, bits) },
    )?;
    Ok(shares)
}

/// The sieve of a job, with so many levels. The first lets all prefixes pass, since each rank is frequent.
/// For each other all workers go over their shares once; it is made when all have ended, so no worker passes
/// by a level to which another still adds. The shares are given back.
pub fn sieve_of<'a, R: Threads + Sync, G: Gate>(
    rt: &R,
    alloc: Global,
    job: &Job,
    workers: u32,
    depth: u32,
    shares: Vec<Share<'a>>,
    gate: &G,
) -> Result<(Sieve, Vec<Share<'a>>), NoMemory>
    requires workers { 1 ≤ workers }
    requires depth { 1 ≤ depth }
    requires shares { (buckets : ℕ) × AreShares job.now workers buckets shares.items }
    ensures levels { IfOk result (λ r. AreLevelsOf job.now r.0) }
    ensures depth { IfOk result (λ r. length r.0 ≡ depth) }
    ensures shares { IfOk result (λ r. (buckets : ℕ)
        → AreShares job.now workers buckets shares.entry.items
        → AreShares job.now workers buckets r.1.items) }
{
    let mut sieve = open_sieve(alloc, job)?;
    let mut shares = shares;
    for _ in 1..depth {
        let passed = passed_by_all(rt, alloc, job, &sieve, workers, shares, gate)?;
        let (level, joined) = level_of(alloc, job, workers, passed)?;
        sieve.push(level)?;
        shares = joined;
    }
    Ok((sieve, shares))
}

// A sieve of one level, which lets all prefixes pass.
fn open_sieve(alloc: Global, job: &Job) -> Result<Sieve, NoMemory>
    ensures levels { IfOk result (λ sieve. AreLevelsOf job.now sieve) }
    ensures depth { IfOk result (λ sieve. length sieve ≡ 1) }
{
    let level = open_level(alloc)?;
    let mut sieve = Sieve::new(alloc);
    sieve.push(level)?;
    Ok(sieve)
}

// A level that lets all pass, as sums do that all stopped.
fn open_level(alloc: Global) -> Result<Level, NoMemory>
    ensures { IfOk result (λ level. (threshold : ℕ) → level ≡ flags_of threshold (replicate 64 top)) }
{
    let buckets = Buckets::new(alloc, LEAST_BITS)?;
    let level = buckets.level(alloc, 0)?;
    Ok(level)
}

// The pass of each worker for the next level, which all have ended.
fn passed_by_all<'a, R: Threads + Sync, G: Gate>(
    rt: &R,
    alloc: Global,
    job: &Job,
    sieve: &Sieve,
    workers: u32,
    shares: Vec<Share<'a>>,
    gate: &G,
) -> Result<Vec<Share<'a>>, NoMemory>
    requires { (buckets : ℕ) × AreShares job.now workers buckets shares.items }
    ensures shares { IfOk result (λ passed. (buckets : ℕ)
        → AreShares job.now workers buckets shares.entry.items
        → AreShares job.now workers buckets passed.items) }
    ensures all { IfOk result (λ passed. HaveAll job.now sieve.now workers passed.items) }
{
    let shares = done_by_each(
        rt,
        alloc,
        shares,
        &|share: Share| -> Result<Share, NoMemory>
            requires { IsShareOf job.now workers share.worker share }
            ensures { IfOk result (IsPassedBy job.entry.now sieve.entry.now workers share.entry) }
        { passed(alloc, job, sieve, workers, share, gate) },
    )?;
    Ok(shares)
}
