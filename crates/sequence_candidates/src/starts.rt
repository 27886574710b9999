//! Where the sequences of a part begin among its places.

ghost use Rattle.std.specs.Prelude.{◌≡◌, ◌<◌, length, IfOk};
ghost use Rattle.std.specs.List.{AllByRecursion};
ghost use Rattle.mining_job.specs.declared.bound.Bound.{Bound as Bounded};
ghost use Rattle.sequence_candidates.specs.Terrains.{AreStarts};

use mine_model::NoMemory;
use mining_job::Job;
use std::alloc::Global;

/// The place where each sequence begins. It also wants memory where the part has more than 2^32 - 1 places.
pub(crate) fn starts_of(alloc: Global, job: &Job, sequences: &[u32]) -> Result<Vec<u32>, NoMemory>
    requires { AllByRecursion (λ i. i < length job.now.sequences) sequences.now }
    ensures { IfOk result (λ starts. (bound : Bounded) → AreStarts (record {
      problem = job.now;
      bound = bound;
      sequences = sequences.now;
    }) starts.items) }
{
    let mut starts = Vec::new(alloc);
    let mut place: usize = 0;
    for number in sequences {
        starts.push(to_place(place)?)?;
        place += job.db().sequence(*number).len() + 1;
    }
    Ok(starts)
}

// The number of a place, if it has room for it.
fn to_place(place: usize) -> Result<u32, NoMemory>
    ensures { IfOk result (λ number. number ≡ place) }
{
    if place > u32::MAX as usize {
        return Err(NoMemory);
    }
    Ok(place as u32)
}
