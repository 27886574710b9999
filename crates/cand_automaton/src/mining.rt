//! Mining by pivots, each sequence's candidates as a state of a registry.

ghost use Rattle.std.specs.Prelude.{◌≡◌, ◌^◌, ◌≤◌, ◌<◌, Contains, IfOk};
ghost use Rattle.std.specs.List.{AllByRecursion};
ghost use Rattle.mine_model.specs.declared.row.Row.{Row as FoundRow};
ghost use Rattle.mine_model.specs.Limits.{most_workers};
ghost use Rattle.mine_model.specs.Numbered.{AreFrequent};
ghost use Rattle.mining_job.specs.Problems.{data_of};
ghost use Rattle.automaton_model.specs.Work.{IsAutomatonWork};
ghost use Rattle.cand_automaton.specs.Workers.{AreSeeds, IsDone, AreTried, AreGathered};

use super::parts::Done;
use super::working::work;
use mine_model::{Gate, Mined, NoMemory, Work};
use mining_job::{Job, PartSeed};
use pivot_partition::split;
use std::alloc::Global;
use std::thread;
use std::thread::Threads;

/// The frequent patterns of a job with their supports, each once and in any order, and the counted work. The
/// job is split by pivots. Each worker has a thread of its own, where one can be made. Its parts are those
/// whose numbers, divided by the number of workers, leave its own. It takes them in order, and passes the
/// gate before each.
pub fn mine<R: Threads + Sync, G: Gate>(
    rt: &R,
    alloc: Global,
    job: &Job,
    workers: u32,
    gate: &G,
) -> Result<Mined, NoMemory>
    requires some { 1 ≤ workers }
    requires few { workers ≤ most_workers }
    ensures frequent { IfOk result (λ mined. AreFrequent (data_of job.now) mined.rows.items) }
    ensures items { IfOk result (λ mined. (row : FoundRow) → Contains mined.rows.items row
        → AllByRecursion (λ t. t.0 < job.now.hierarchy.items) row.pattern) }
    ensures work { IfOk result (λ mined.
        IsAutomatonWork (data_of job.now) job.now.ranking.order mined.work) }
{
    // For the proof alone: no link leads out of the items, so neither does a pattern.
    let _items = job.hierarchy().items();
    let seeds = split(rt, alloc, job, workers)?;
    let results = tried(rt, alloc, job, seeds.as_slice(), workers, gate)?;
    let done = gathered(alloc, results)?;
    Ok(Mined {
        rows: done.rows,
        work: Work {
            nodes: 0,
            parts: done.sets,
            candidates: 0,
        },
    })
}

/// Lets each worker run, in a thread of its own where one can be made.
fn tried<R: Threads + Sync, G: Gate>(
    rt: &R,
    alloc: Global,
    job: &Job,
    seeds: &[PartSeed],
    workers: u32,
    gate: &G,
) -> Result<Vec<Result<Done, NoMemory>>, NoMemory>
    requires seeds { AreSeeds job.now seeds.now }
    requires few { workers ≤ most_workers }
    ensures { IfOk result (λ results. AreTried job.now seeds.now workers results.items) }
{
    let results = thread::map_indices(
        rt,
        alloc,
        workers as usize,
        &|worker: usize| -> Result<Done, NoMemory>
            requires seeds { AreSeeds job.now seeds.now }
            requires worker { (worker < workers) × (workers < 2 ^ 32) }
            ensures { IfOk result (IsDone job.entry.now seeds.entry.now workers worker) }
        { work(alloc, job, seeds, worker as u32, workers, gate) },
    )?;
    Ok(results)
}

/// What all workers found, unless one wanted memory. It wants memory, too, where there are 2^64 sets.
fn gathered(alloc: Global, results: Vec<Result<Done, NoMemory>>) -> Result<Done, NoMemory>
    ensures { IfOk result (λ all. AreGathered results.items all) }
{
    let mut rows = Vec::new(alloc);
    let mut sets: u64 = 0;
    'results: for result in results {
        let mut done = result?;
        rows.append(&mut done.rows)?;
        let Some(more) = sets.checked_add(done.sets) else {
            return Err(NoMemory);
        };
        sets = more;
    }
    Ok(Done { rows, sets })
}
