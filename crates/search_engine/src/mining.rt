//! Mining by workers that steal.

ghost use Rattle.std.specs.Prelude.{◌≡◌, ℕ, ◌≤◌, ◌<◌, ◌↔◌, List, [], map, All, AllPairs, Contains, length, IfOk};
ghost use Rattle.std.specs.List.{AllByRecursion, filter_map};
ghost use Rattle.mine_model.specs.declared.row.Row.{Row};
ghost use Rattle.mine_model.specs.Answer.{IsFrequent};
ghost use Rattle.search_tree.specs.Cover.{Covers};
ghost use Rattle.mine_model.specs.Limits.{most_workers};
ghost use Rattle.mine_model.specs.Numbered.{PatternsDiffer, AreFrequent};
ghost use Rattle.mine_model.specs.Pivots.{IsAliveLabel};
ghost use Rattle.mining_job.specs.Problems.{data_of};
ghost use Rattle.mining_job.specs.Parts.{IsComplete};
ghost use Rattle.pivot_partition.specs.Pivots.{pivots_in, HasPivotIn};
ghost use Rattle.dfs_growth.specs.Nodes.{Prefix, label_at};
ghost use Rattle.search_engine.specs.Partition.{IsPartsWork, IsWorkFor};
ghost use Rattle.search_engine.specs.Searches.{tree_of};

use super::division::Division;
use super::search::Search;
use super::workers::posted;
use dfs_growth::{Node, whole_roots};
use mine_model::{Gate, Mined, NoMemory, Work};
use mining_job::{Job, PartSeed};
use pivot_partition::split;
use search_tree::Grow;
use std::alloc::Global;
use std::sync::Wait;
use std::thread::Threads;

/// The frequent patterns of a job with their supports, each once and in any order, and the work of the search
/// for them, split by pivots or not. Each worker has a thread of its own, where one can be made, and passes
/// the gate before each node that it grows.
pub fn mine<R: Threads + Wait + Sync, G: Gate>(
    rt: &R,
    alloc: Global,
    job: &Job,
    division: Division,
    workers: u32,
    gate: &G,
) -> Result<Mined, NoMemory>
    requires some { 1 ≤ workers }
    requires few { workers ≤ most_workers }
    ensures frequent { IfOk result (λ mined. AreFrequent (data_of job.now) mined.rows.items) }
    ensures items { IfOk result (λ mined. (row : Row) → Contains mined.rows.items row
        → AllByRecursion (λ t. t.0 < job.now.hierarchy.items) row.pattern) }
    ensures work { IfOk result (λ mined.
        IsWorkFor division (data_of job.now) job.now.ranking.order mined.work) }
{
    // For the proof alone: no link leads out of the items, so neither does a pattern.
    let _items = job.hierarchy().items();
    match division {
        Division::Whole => {
            let roots = whole_roots(rt, workers, alloc, job)?;
            let search = Search::new(job);
            let mined = mined_by(rt, alloc, job, &search, roots, workers, gate)?;
            Ok(mined)
        }
        Division::ByPivots => {
            let seeds = split(rt, alloc, job, workers)?;
            let mined = mine_parts(rt, alloc, job, seeds, workers, gate)?;
            Ok(mined)
        }
    }
}

/// The frequent patterns of a job whose pivots are those of the seeds, each once and in any order, with their
/// supports, and the work of the search for them. Each worker has a thread of its own, where one can be made,
/// and passes the gate before each node that it grows.
pub fn mine_parts<R: Threads + Wait + Sync, G: Gate>(
    rt: &R,
    alloc: Global,
    job: &Job,
    seeds: Vec<PartSeed>,
    workers: u32,
    gate: &G,
) -> Result<Mined, NoMemory>
    requires complete { All (IsComplete job.now) seeds.items }
    requires rising { AllPairs (λ low high. low < high) (pivots_in seeds.items) }
    requires alive { (pivot : ℕ) → Contains (pivots_in seeds.items) pivot
        → (1 ≤ pivot) × IsAliveLabel (data_of job.now) job.now.ranking.order pivot [] }
    requires some { 1 ≤ workers }
    requires few { workers ≤ most_workers }
    ensures once { IfOk result (λ mined. PatternsDiffer mined.rows.items) }
    ensures rows { IfOk result (λ mined. (row : Row) → Contains mined.rows.items row
        ↔ (IsFrequent (data_of job.now) row.pattern row.support
        × HasPivotIn job.now.ranking.order (pivots_in seeds.items) row.pattern)) }
    ensures items { IfOk result (λ mined. (row : Row) → Contains mined.rows.items row
        → AllByRecursion (λ t. t.0 < job.now.hierarchy.items) row.pattern) }
    ensures work { IfOk result (λ mined.
        IsPartsWork (data_of job.now) job.now.ranking.order (pivots_in seeds.items) mined.work) }
{
    // For the proof alone, as in `mine`.
    let _items = job.hierarchy().items();
    let search = Search::by_seeds(job, seeds);
    let roots = search.roots(alloc)?;
    let mined = mined_by(rt, alloc, job, &search, roots, workers, gate)?;
    Ok(mined)
}

// The rows of the labels of the search's tree, and how many labels and roots there are.
fn mined_by<'a, R: Threads + Wait + Sync, G: Gate>(
    rt: &R,
    alloc: Global,
    job: &'a Job,
    search: &Search<'a>,
    roots: Vec<Node<'a>>,
    workers: u32,
    gate: &G,
) -> Result<Mined, NoMemory>
    requires problem { search.now.problem ≡ job.now }
    requires roots { map label_at roots.items ≡ (tree_of search.now).roots }
    requires own { All (λ (node : Prefix). node.problem ≡ search.now.problem) roots.items }
    requires some { 1 ≤ workers }
    requires few { workers ≤ most_workers }
    ensures { IfOk result (λ mined. (labels : List (List ℕ))
        × Covers (tree_of search.now).roots (tree_of search.now).kids labels
        × (mined.rows.items ≡ filter_map (tree_of search.now).row labels)
        × (mined.work ≡ record {
          nodes = length labels;
          parts = length (tree_of search.now).roots;
          candidates = 0;
        })) }
{
    // For the proof alone: the job is whole, as each accessor of it says.
    let _threshold = job.threshold();
    let parts = roots.len() as u64;
    let board = posted(rt, alloc, search, job, roots, workers, gate)?;
    let (rows, nodes) = board.into_parts();
    Ok(Mined {
        rows,
        work: Work {
            nodes,
            parts,
            candidates: 0,
        },
    })
}
