//! The sums of all workers together.

ghost use Rattle.std.specs.Prelude.{◌≡◌, ℕ, ◌+◌, ◌≤◌, Bool, Some, List, length, slice_get, IfOk};
ghost use Rattle.mining_job.specs.Problems.{Problem};
ghost use Rattle.prefix_sieve.specs.Buckets.{flags_of};
ghost use Rattle.sieve_passes.specs.declared.share.Share.{Share as Shared};
ghost use Rattle.sieve_passes.specs.Shares.{IsShareOf, AreShares, HaveAll};
ghost use Rattle.worker_shares.specs.Shares.{share_of};
ghost use Rattle.sieve_passes.specs.Sums.{HasAll};

use super::share::Share;
use mine_model::NoMemory;
use mining_job::Job;
use prefix_sieve::{Level, shares_join};
use std::alloc::Global;

/// The level of the sums of all workers together, which are those of the first one then, and the shares.
pub(crate) fn level_of<'a>(
    alloc: Global,
    job: &Job,
    workers: u32,
    mut shares: Vec<Share<'a>>,
) -> Result<(Level, Vec<Share<'a>>), NoMemory>
    requires some { 1 ≤ workers }
    requires shares { (buckets : ℕ) × AreShares job.now workers buckets shares.items }
    ensures shares { IfOk result (λ r. (buckets : ℕ)
        → AreShares job.now workers buckets shares.entry.items
        → AreShares job.now workers buckets r.1.items) }
    ensures level { IfOk result (λ r. (levels : List (List Bool))
        → HaveAll job.now levels workers shares.entry.items
        → (sums : List ℕ) × (r.0 ≡ flags_of job.now.threshold sums)
        × HasAll job.now levels job.now.sequences sums) }
{
    let mut first = shares.remove(0);
    join_all(&mut first, shares.as_slice());
    let level = first.buckets.level(alloc, job.threshold())?;
    shares.insert(0, first)?;
    Ok((level, shares))
}

// Joins the sums of the workers from the second on to those of the first.
fn join_all(first: &mut Share, others: &[Share])
    requires { (k : ℕ) (share : Shared) → slice_get others.now k ≡ Some share
        → length share.buckets ≡ length first.old.buckets }
    ensures own { (problem : Problem) (workers worker : ℕ) → IsShareOf problem workers worker first.old
        → IsShareOf problem workers worker first.new }
    ensures long { length first.new.buckets ≡ length first.old.buckets }
    ensures joined { (problem : Problem) (levels : List (List Bool)) (workers : ℕ)
        → workers ≡ length others.now + 1
        → HasAll problem levels (share_of problem.sequences workers 0) first.old.buckets
        → ((k : ℕ) (share : Shared) → slice_get others.now k ≡ Some share
        → HasAll problem levels (share_of problem.sequences workers (k + 1)) share.buckets)
        → HasAll problem levels problem.sequences first.new.buckets }
{
    shares_join();
    for share in others {
        first.buckets.join(&share.buckets);
    }
}
