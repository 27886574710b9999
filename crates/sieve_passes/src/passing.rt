//! A worker's pass over its sequences.

ghost use Rattle.std.specs.Prelude.{◌≡◌, ℕ, ◌<◌, ◌≤◌, ◌^◌, ◌∷◌, [], length, slice_index, OnOk};
ghost use Rattle.std.specs.List.{AllByRecursion};
ghost use Rattle.mine_model.specs.Database.{sequence_at};
ghost use Rattle.mining_job.specs.Problems.{IsWhole};
ghost use Rattle.worker_shares.specs.Shares.{sequences_at};
ghost use Rattle.sieve_passes.specs.Branches.{part_of};
ghost use Rattle.sieve_passes.specs.Sums.{AddsAll};

use super::branches::PartBranches;
use super::laws::candidates_lead_to_all;
use super::rounds::pass_gate;
use mine_model::{Gate, NoMemory};
use mining_job::Job;
use prefix_sieve::{Buckets, Room, Sieve, a_pass_raises_what_it_has_to, one_more_sequence, pass};

/// The pass over the sequences with these numbers, which were entered.
pub(crate) fn pass_over_all<G: Gate>(
    job: &Job,
    sieve: &Sieve,
    worker: u32,
    numbers: &[u32],
    branches: &mut PartBranches,
    room: &mut Room,
    buckets: &mut Buckets,
    gate: &G,
) -> Result<(), NoMemory>
    requires part { branches.old.part ≡ part_of job.now numbers.now }
    requires within { AllByRecursion (λ i. i < length job.now.sequences) numbers.now }
    requires few { length numbers.now < 2 ^ 32 }
    ensures part { branches.new.part ≡ branches.old.part }
    ensures long { length buckets.new ≡ length buckets.old }
    ensures added { OnOk result (AddsAll job.now sieve.now (sequences_at job.now.sequences numbers.now)
        buckets.old buckets.new) }
{
    let db = job.db();
    for index in 0..numbers.len() {
        pass_gate(gate, worker, sieve.depth(), numbers.len(), index);
        let weight = db.weight(numbers[index]);
        pass_over(branches, sieve, index as u32, weight, room, buckets)?;
    }
    Ok(())
}

// The pass over one of them, by its index.
fn pass_over(
    branches: &mut PartBranches,
    sieve: &Sieve,
    index: u32,
    weight: u64,
    room: &mut Room,
    buckets: &mut Buckets,
) -> Result<(), NoMemory>
    requires whole { IsWhole branches.old.part.problem }
    requires part { branches.old.part ≡ part_of branches.old.part.problem branches.old.part.sequences }
    requires index { index < length branches.old.part.sequences }
    requires weight { weight ≡ (sequence_at branches.old.part.problem.sequences
        (slice_index branches.old.part.sequences index)).weight }
    ensures part { branches.new.part ≡ branches.old.part }
    ensures long { length buckets.new ≡ length buckets.old }
    ensures added { OnOk result (AddsAll branches.old.part.problem sieve.now
        (sequence_at branches.old.part.problem.sequences
        (slice_index branches.old.part.sequences index) ∷ []) buckets.old buckets.new) }
{
    branches.begin(index)?;
    pass(branches, sieve, weight, room, buckets)?;
    candidates_lead_to_all();
    a_pass_raises_what_it_has_to();
    one_more_sequence();
    Ok(())
}
