//! The search by the pivots of one share.

ghost use Rattle.std.specs.Prelude.{◌↔◌, ◌≤◌, ◌<◌, ℕ, List, Some, All, AllPairs, Contains, IsTrue, IfOk};
ghost use Rattle.std.specs.List.{AllByRecursion};
ghost use Rattle.mine_model.specs.declared.row.Row.{Row as TheRow};
ghost use Rattle.mine_model.specs.Limits.{most_workers};
ghost use Rattle.mine_model.specs.Numbered.{PatternsDiffer};
ghost use Rattle.mine_model.specs.PartitionWork.{IsNamedBefore};
ghost use Rattle.mine_model.specs.Ranks.{AreTiesByName};
ghost use Rattle.mining_job.specs.Problems.{Problem, data_of};
ghost use Rattle.mining_job.specs.Parts.{IsComplete, pivot_of};
ghost use Rattle.pivot_partition.specs.Pivots.{pivots_in};
ghost use Rattle.split_merge.specs.Shares.{IsInShare};
ghost use Rattle.desq_run.specs.Inputs.{AreFound};
ghost use Rattle.desq_run.specs.Parts.{IsShareWork};

use command_line::Share;
use mine_model::{Gate, Mined, NoMemory};
use mining_job::{Job, PartSeed};
use pivot_partition::split;
use search_engine::mine_parts;
use split_merge::is_in_share;
use std::alloc::Global;
use std::sync::Wait;
use std::thread::Threads;

/// Whether the pivot of the seed is in the share. A share that there cannot be has none.
fn has_seed(share: Share, seed: &PartSeed) -> bool
    ensures { 1 ≤ share.index → share.index ≤ share.of
        → IsTrue result ↔ IsInShare share.index share.of (pivot_of seed.now.pivot) }
{
    match seed.pivot {
        Some(rank) if 1 <= share.index && share.index <= share.of => {
            is_in_share(share.index, share.of, rank)
        }
        _ => false,
    }
}

/// The seeds whose pivots are in the share, in order. Takes no memory.
fn own_seeds(seeds: Vec<PartSeed>, share: Share) -> Vec<PartSeed>
    requires least { 1 ≤ share.index }
    requires within { share.index ≤ share.of }
    ensures complete { (problem : Problem) → All (IsComplete problem) seeds.items
        → All (IsComplete problem) result.items }
    ensures rising { AllPairs (λ low high. low < high) (pivots_in seeds.items)
        → AllPairs (λ low high. low < high) (pivots_in result.items) }
    ensures exact { (pivot : ℕ) → Contains (pivots_in result.items) pivot
        ↔ (Contains (pivots_in seeds.items) pivot × IsInShare share.index share.of pivot) }
{
    let mut own = seeds;
    own.retain(|seed| has_seed(share, seed));
    own
}

/// The frequent patterns of the job whose pivots are in the share, each once and in no stated order, and the
/// work of the search for them. The other parts are not made.
pub(crate) fn mined_share<R: Threads + Wait + Sync, G: Gate>(
    rt: &R,
    alloc: Global,
    job: &Job,
    share: Share,
    workers: u32,
    gate: &G,
) -> Result<Mined, NoMemory>
    requires workers { 1 ≤ workers }
    requires few { workers ≤ most_workers }
    requires least { 1 ≤ share.index }
    requires within { share.index ≤ share.of }
    ensures once { IfOk result (λ mined. PatternsDiffer mined.rows.items) }
    ensures found { (names : List (List ℕ)) → AreTiesByName names job.now.ranking → IfOk result (λ mined.
        AreFound (IsNamedBefore names) (Some share) (data_of job.now) mined.rows.items) }
    ensures items { IfOk result (λ mined. (row : TheRow) → Contains mined.rows.items row
        → AllByRecursion (λ t. t.0 < job.now.hierarchy.items) row.pattern) }
    ensures work { (names : List (List ℕ)) → AreTiesByName names job.now.ranking → IfOk result (λ mined.
        IsShareWork (IsNamedBefore names) (data_of job.now) share mined.work) }
{
    // The contract of `items` says that no link leads out of the items, so each ranked item is one of them.
    let _items = job.hierarchy().items();
    let seeds = split(rt, alloc, job, workers)?;
    let own = own_seeds(seeds, share);
    mine_parts(rt, alloc, job, own, workers, gate)
}
