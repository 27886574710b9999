//! The rows of groups.

ghost use Rattle.std.specs.Prelude.{ℕ, IfOk};
ghost use Rattle.mining_job.specs.Problems.{data_of};
ghost use Rattle.automaton_model.specs.Groups.{AreGroupRows, AreGroupsOfPivot};

use automaton_model::Group;
use group_search::groups_are_searched;
use mine_model::{NoMemory, Row};
use mining_job::Job;
use std::alloc::Global;

/// The patterns that lie in groups which weigh at least the threshold together, each once, with what these
/// weigh, in any order. The groups are those of a part of the job.
pub fn rows(alloc: Global, job: &Job, groups: &[Group]) -> Result<Vec<Row>, NoMemory>
    requires { (pivot : ℕ) × AreGroupsOfPivot (data_of job.now) job.now.ranking.order pivot groups.now }
    ensures { IfOk result (λ rows.
        AreGroupRows job.now.ranking.order job.now.threshold groups.now rows.items) }
{
    // For the proof alone: no weights add up to 2^64.
    let _sequences = job.db().sequences();
    groups_are_searched();
    group_search::rows(alloc, job.ranks(), groups, job.threshold())
}
