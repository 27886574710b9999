//! The pairs of all workers together.

ghost use Rattle.std.specs.Prelude.{◌≡◌, ◌≤◌, ◌<◌, IfOk};
ghost use Rattle.std.specs.List.{sum};
ghost use Rattle.mine_model.specs.Counted.{HasPairs, IsTold, told_of};
ghost use Rattle.mining_job.specs.Problems.{data_of};
ghost use Rattle.worker_shares.specs.Shares.{share_of};
ghost use Rattle.candidate_pairs.specs.Shares.{HaveAllTold};

use super::share::pairs_of_share;
use mine_model::NoMemory;
use mining_job::Job;
use std::alloc::Global;
use std::thread::Threads;
use worker_shares::worker_numbers;
use worker_threads::done_by_each;

/// How many pairs of a sequence of the job and one of its candidates there are: what is told of the number,
/// 2^64 - 1 where there are more. Each worker has a thread of its own, where one can be made, and goes over
/// the graphs of its own share.
pub fn pairs_of<R: Threads + Sync>(
    rt: &R,
    alloc: Global,
    job: &Job,
    workers: u32,
) -> Result<u64, NoMemory>
    requires { 1 ≤ workers }
    ensures { IfOk result (IsTold (HasPairs (data_of job.now) job.now.sequences)) }
{
    // With no frequent item there is no candidate.
    if job.ranks().count() == 0 {
        return Ok(0);
    }
    let shares = told_by_all(rt, alloc, job, workers)?;
    Ok(sum_of_told(shares.as_slice()))
}

// What each worker tells, once all have ended.
fn told_by_all<R: Threads + Sync>(
    rt: &R,
    alloc: Global,
    job: &Job,
    workers: u32,
) -> Result<Vec<u64>, NoMemory>
    ensures { IfOk result (λ shares. HaveAllTold job.now workers shares.items) }
{
    let numbers = worker_numbers(alloc, workers)?;
    let shares = done_by_each(
        rt,
        alloc,
        numbers,
        &|worker: u32| -> Result<u64, NoMemory>
            requires { worker < workers }
            ensures { IfOk result (IsTold (HasPairs (data_of job.entry.now)
                (share_of job.entry.now.sequences workers worker))) }
        { pairs_of_share(alloc, job, workers, worker) },
    )?;
    Ok(shares)
}

// What is told of the sum of numbers of which these are told. A sum that would be too large stops at the
// greatest number, so what is told of parts is enough to tell of the whole.
fn sum_of_told(shares: &[u64]) -> u64
    ensures { result ≡ told_of (sum shares.now) }
{
    let mut sum: u64 = 0;
    for told in shares {
        sum = sum.saturating_add(*told);
    }
    sum
}
