//! The search of a job by the schedule machine, in one thread.
ghost use Rattle.std.specs.Prelude.{◌≡◌, ℕ, ◌≤◌, ◌<◌, List, Contains, IfOk};
ghost use Rattle.std.specs.List.{AllByRecursion, filter_map};
ghost use Rattle.mine_model.specs.declared.row.Row.{Row};
ghost use Rattle.mine_model.specs.Limits.{most_workers};
ghost use Rattle.mine_model.specs.Numbered.{AreFrequent};
ghost use Rattle.search_tree.specs.SearchTree.{SearchTree, IsSearchTree};
ghost use Rattle.mining_job.specs.Problems.{data_of};
ghost use Rattle.pool_schedule.specs.Schedule.{ArePosted};
ghost use Rattle.search_engine.specs.Choices.{choices_of};
ghost use Rattle.search_engine.specs.Partition.{ArePivotsFor, IsWorkFor};

use super::choices::choices;
use super::division::Division;
use super::search::Search;
use mine_model::{Mined, NoMemory, Work};
use mining_job::Job;
use pool_schedule::{Posted, run_schedule};
use search_tree::Grow;
use std::alloc::Global;

/// The frequent patterns of a job with their supports, each once, and the work of a search of so many
/// workers, split by pivots or not, simulated in one thread. The rows stand in the order in which the
/// schedule of the seed's choices posts their labels.
pub fn simulate(
    alloc: Global,
    job: &Job,
    division: Division,
    workers: u32,
    seed: u64,
) -> Result<Mined, NoMemory>
    requires some { 1 ≤ workers }
    requires few { workers ≤ most_workers }
    ensures frequent { IfOk result (λ mined. AreFrequent (data_of job.now) mined.rows.items) }
    ensures items { IfOk result (λ mined. (row : Row) → Contains mined.rows.items row
        → AllByRecursion (λ t. t.0 < job.now.hierarchy.items) row.pattern) }
    ensures work { IfOk result (λ mined.
        IsWorkFor division (data_of job.now) job.now.ranking.order mined.work) }
    ensures posted { IfOk result (λ mined. (pivots : List ℕ)
        × ArePivotsFor division (data_of job.now) job.now.ranking.order pivots
        × (tree : SearchTree) × IsSearchTree (data_of job.now) job.now.ranking.order pivots tree
        × (labels : List (List ℕ)) × ArePosted tree.roots tree.kids workers (choices_of seed) labels
        × (mined.rows.items ≡ filter_map tree.row labels)) }
{
    // For the proof alone: no link leads out of the items, so neither does a pattern.
    let _items = job.hierarchy().items();
    let search = Search::alone(alloc, job, division)?;
    let parts = search.roots(alloc)?.len() as u64;
    let choices = choices(alloc, seed)?;
    let Posted { labels, rows } = run_schedule(alloc, &search, workers, choices.as_slice())?;
    Ok(Mined {
        rows,
        work: Work {
            nodes: labels.len() as u64,
            parts,
            candidates: 0,
        },
    })
}
