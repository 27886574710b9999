//! What a worker counts of its share of the sequences.

ghost use Rattle.std.specs.Prelude.{◌≡◌, ℕ, List, ◌+◌, ◌^◌, ◌≤◌, ◌<◌, ◌∷◌, [], length, slice_index, IfOk, OnOk};
ghost use Rattle.std.specs.List.{AllByRecursion};
ghost use Rattle.mine_model.specs.Database.{sequence_at};
ghost use Rattle.mine_model.specs.Limits.{most_weight};
ghost use Rattle.mining_job.specs.Problems.{IsWhole};
ghost use Rattle.prefix_counts.specs.Sums.{sum_of};
ghost use Rattle.worker_shares.specs.Shares.{sequences_at, share_of};
ghost use Rattle.sieve_passes.specs.Branches.{part_of};
ghost use Rattle.sieve_passes.specs.Shares.{IsShareOf};
ghost use Rattle.counting_passes.specs.Counts.{AreSumsOf, CountsAll, GrowsUpTo};

use super::laws::graphs_lead_to_candidates;
use mine_model::{Gate, NoMemory};
use mining_job::Job;
use prefix_counts::PrefixCounts;
use prefix_sieve::Sieve;
use sieve_passes::{PartBranches, Share, pass_gate};
use sieved_counts::{
    Room, count, nothing_is_counted_of_no_sequences, one_more_sequence_is_counted,
};
use std::alloc::Global;

/// What a worker counts of its share. The share is let go of.
pub(crate) fn counted<'a, G: Gate>(
    alloc: Global,
    job: &Job,
    sieve: &Sieve,
    workers: u32,
    share: Share<'a>,
    gate: &G,
) -> Result<PrefixCounts, NoMemory>
    requires { (worker : ℕ) × IsShareOf job.now workers worker share }
    ensures { (worker : ℕ) → IsShareOf job.now workers worker share.entry
        → IfOk result (AreSumsOf job.now sieve.now (share_of job.now.sequences workers worker)) }
{
    let (worker, numbers, mut branches) = share.into_parts();
    // There are no more sequences than numbers of 32 bits.
    let _few = job.db().sequences();
    let mut room = Room::new(alloc);
    let mut counts = PrefixCounts::new(alloc);
    nothing_is_counted_of_no_sequences();
    count_all(
        job,
        sieve,
        worker,
        numbers.as_slice(),
        &mut branches,
        &mut room,
        &mut counts,
        gate,
    )?;
    Ok(counts)
}

// Counts the sequences with these numbers, which were entered.
fn count_all<G: Gate>(
    job: &Job,
    sieve: &Sieve,
    worker: u32,
    numbers: &[u32],
    branches: &mut PartBranches,
    room: &mut Room,
    counts: &mut PrefixCounts,
    gate: &G,
) -> Result<(), NoMemory>
    requires part { branches.old.part ≡ part_of job.now numbers.now }
    requires within { AllByRecursion (λ i. i < length job.now.sequences) numbers.now }
    requires few { length numbers.now ≤ length job.now.sequences }
    requires nothing { AreSumsOf job.now sieve.now [] counts.old }
    ensures { OnOk result (AreSumsOf job.now sieve.now
        (sequences_at job.now.sequences numbers.now) counts.new) }
{
    // There is room for the sums of all sequences.
    let _few = job.db().sequences();
    let db = job.db();
    for index in 0..numbers.len() {
        pass_gate(gate, worker, sieve.depth(), numbers.len(), index);
        let number = numbers[index];
        let weight = db.weight(number);
        let longest = db.sequence(number).len();
        count_next(branches, sieve, index as u32, weight, longest, room, counts)?;
    }
    Ok(())
}

// Counts one of them, by its index.
fn count_next(
    branches: &mut PartBranches,
    sieve: &Sieve,
    index: u32,
    weight: u64,
    longest: usize,
    room: &mut Room,
    counts: &mut PrefixCounts,
) -> Result<(), NoMemory>
    requires whole { IsWhole branches.old.part.problem }
    requires part { branches.old.part ≡ part_of branches.old.part.problem branches.old.part.sequences }
    requires index { index < length branches.old.part.sequences }
    requires weight { weight ≡ (sequence_at branches.old.part.problem.sequences
        (slice_index branches.old.part.sequences index)).weight }
    requires light { weight ≤ most_weight }
    requires longest { longest ≡ length (sequence_at branches.old.part.problem.sequences
        (slice_index branches.old.part.sequences index)).items }
    requires room { (list : List ℕ) → sum_of counts.old list + weight < 2 ^ 64 }
    ensures part { branches.new.part ≡ branches.old.part }
    ensures grown { OnOk result (GrowsUpTo most_weight counts.old counts.new) }
    ensures counted { OnOk result (CountsAll branches.old.part.problem sieve.now
        (sequence_at branches.old.part.problem.sequences
        (slice_index branches.old.part.sequences index) ∷ []) counts.old counts.new) }
{
    branches.begin(index)?;
    count(branches, sieve, weight, longest, room, counts)?;
    graphs_lead_to_candidates();
    one_more_sequence_is_counted();
    Ok(())
}
