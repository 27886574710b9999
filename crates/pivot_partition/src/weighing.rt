//! What the sequences with each pivot weigh together.

ghost use Rattle.std.specs.Prelude.{◌≡◌, ℕ, ◌+◌, ◌^◌, ◌<◌, length, slice_index, All, IfOk};
ghost use Rattle.pivot_partition.specs.Pairs.{ArePairs, AreWeights, all_of, weight_with};

use super::pairs::Pair;
use mine_model::NoMemory;
use mining_job::Job;
use std::alloc::Global;

/// By pivot the weights of the sequences that have it, where these are all pairs.
pub(crate) fn weights(alloc: Global, job: &Job, parts: &[Vec<Pair>]) -> Result<Vec<u64>, NoMemory>
    requires { ArePairs job.now 0 (length job.now.sequences) (all_of parts.now) }
    ensures long { IfOk result (λ sums. length sums.items ≡ length job.now.ranking.order + 1) }
    ensures weights { IfOk result (λ sums. AreWeights job.now (all_of parts.now) sums.items) }
{
    // For the proof alone: no sequence weighs more than its limit, and there are not too many, so no sum
    // wraps.
    let _sequences = job.db().sequences();
    let top = job.ranks().count();
    let mut sums = vec![in alloc; 0u64; top as usize + 1]?;
    for part in parts {
        add_weights(job, part.as_slice(), sums.as_mut_slice());
    }
    Ok(sums)
}

/// Adds the weight of the sequence of each pair to the sum of its pivot.
fn add_weights(job: &Job, pairs: &[Pair], sums: &mut [u64])
    requires pivots { All (λ pair. pair.pivot < length sums.old) pairs.now }
    requires sequences { All (λ pair. pair.sequence < length job.now.sequences) pairs.now }
    requires room { (pivot : ℕ) → slice_index sums.old pivot + weight_with job.now pivot pairs.now < 2 ^ 64 }
    ensures long { length sums.new ≡ length sums.old }
    ensures added { (pivot : ℕ) → slice_index sums.new pivot
        ≡ slice_index sums.old pivot + weight_with job.now pivot pairs.now }
{
    let db = job.db();
    for pair in pairs {
        sums[pair.pivot as usize] += db.weight(pair.sequence);
    }
}
