//! A worker's share of the sequences.

ghost use Rattle.std.specs.Prelude.{◌≡◌, ◌<◌, None, length, AllPairs, IfOk};
ghost use Rattle.std.specs.List.{AllByRecursion};
ghost use Rattle.mine_model.specs.Counted.{HasCandidates, HasPairs, IsTold};
ghost use Rattle.mining_job.specs.Problems.{data_of};
ghost use Rattle.sequence_grids.specs.Grids.{items_at};
ghost use Rattle.snapshot_project.specs.Snapshots.{bound_of};
ghost use Rattle.worker_shares.specs.Shares.{sequences_at, share_of};

use super::counting::count_candidates;
use super::room::Room;
use mine_model::NoMemory;
use mining_job::Job;
use sequence_candidates::Candidates;
use std::alloc::Global;
use worker_shares::numbers_of;

/// What a worker tells of the pairs of its share.
pub(crate) fn pairs_of_share(
    alloc: Global,
    job: &Job,
    workers: u32,
    worker: u32,
) -> Result<u64, NoMemory>
    requires { worker < workers }
    ensures { IfOk result (IsTold (HasPairs (data_of job.now)
        (share_of job.now.sequences workers worker))) }
{
    let numbers = numbers_of(alloc, job, workers, worker)?;
    pairs_of_numbers(alloc, job, numbers.as_slice())
}

// The same of the sequences with these numbers, in room that is made for them.
fn pairs_of_numbers(alloc: Global, job: &Job, numbers: &[u32]) -> Result<u64, NoMemory>
    requires rising { AllPairs (λ low high. low < high) numbers.now }
    requires within { AllByRecursion (λ i. i < length job.now.sequences) numbers.now }
    ensures { IfOk result (IsTold (HasPairs (data_of job.now)
        (sequences_at job.now.sequences numbers.now))) }
{
    let mut candidates = Candidates::new(alloc, job)?;
    let mut room = Room::new(alloc);
    candidates.enter(None, numbers)?;
    // There are no more of them than sequences of the job.
    let _few = job.db().sequences();
    pairs_of_entered(job, &mut candidates, numbers.len() as u32, &mut room)
}

// The same of those that were entered, of which there are so many.
// It stands apart for the proof alone: who owns the room has to show at each exit that it is let go.
fn pairs_of_entered(
    job: &Job,
    candidates: &mut Candidates,
    count: u32,
    room: &mut Room,
) -> Result<u64, NoMemory>
    requires problem { candidates.old.part.problem ≡ job.now }
    requires bound { candidates.old.part.bound ≡ bound_of (length job.now.ranking.order) None }
    requires count { count ≡ length candidates.old.part.sequences }
    ensures { IfOk result (IsTold (HasPairs (data_of job.now)
        (sequences_at job.now.sequences candidates.old.part.sequences))) }
{
    let mut sum: u64 = 0;
    for index in 0..count {
        let told = candidates_of_next(job, candidates, index, room)?;
        sum = sum.saturating_add(told);
    }
    Ok(sum)
}

// What is told of the candidates of one of them, by its index.
fn candidates_of_next(
    job: &Job,
    candidates: &mut Candidates,
    index: u32,
    room: &mut Room,
) -> Result<u64, NoMemory>
    requires problem { candidates.old.part.problem ≡ job.now }
    requires bound { candidates.old.part.bound ≡ bound_of (length job.now.ranking.order) None }
    requires index { index < length candidates.old.part.sequences }
    ensures part { candidates.new.part ≡ candidates.old.part }
    ensures told { IfOk result (IsTold (HasCandidates (data_of job.now)
        (items_at candidates.old.part index))) }
{
    candidates.begin(index)?;
    count_candidates(job, candidates, room)
}
