//! The candidates of a sequence by their number.

ghost use Rattle.std.specs.Prelude.{◌≡◌, ℕ, Some, None, length, IfOk, OnOk};
ghost use Rattle.mine_model.specs.Counted.{HasCandidates, IsTold};
ghost use Rattle.mining_job.specs.Problems.{data_of};
ghost use Rattle.sequence_grids.specs.Grids.{items_at};
ghost use Rattle.candidate_graph.specs.Graphs.{IsWhole, Grows};
ghost use Rattle.snapshot_project.specs.Snapshots.{bound_of};

use super::paths::count_paths;
use super::room::Room;
use mine_model::NoMemory;
use mining_job::Job;
use sequence_candidates::{Candidates, whole_graphs_accept_the_patterns};

/// How many candidates the sequence has that was begun last: what is told of the number, 2^64 - 1 where there
/// are more. The part is one of the job's with no pivot. All edges of the sequence's graph are found on the
/// way, where they are not known yet.
pub fn count_candidates(
    job: &Job,
    candidates: &mut Candidates,
    room: &mut Room,
) -> Result<u64, NoMemory>
    requires problem { candidates.old.part.problem ≡ job.now }
    requires bound { candidates.old.part.bound ≡ bound_of (length job.now.ranking.order) None }
    requires begun { (index : ℕ) × (candidates.old.begun ≡ Some index) }
    ensures part { candidates.new.part ≡ candidates.old.part }
    ensures begun { candidates.new.begun ≡ candidates.old.begun }
    ensures grows { Grows candidates.old.nodes candidates.new.nodes }
    ensures whole { OnOk result (IsWhole candidates.new.nodes) }
    ensures count { IfOk result (λ told. (index : ℕ) → candidates.old.begun ≡ Some index
        → IsTold (HasCandidates (data_of job.now) (items_at candidates.old.part index)) told) }
{
    // For the proof alone: exactly the frequent items have ranks, each one.
    let _threshold = job.threshold();
    candidates.expand_all()?;
    whole_graphs_accept_the_patterns();
    count_paths(candidates.graph(), room)
}
