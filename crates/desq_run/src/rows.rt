//! From a job to the rows of the answer.

ghost use Rattle.std.specs.Prelude.{◌≡◌, ◌≤◌, ◌<◌, ℕ, true, List, None, length, All, IfOk, IfErr, Contains};
ghost use Rattle.std.specs.List.{AllByRecursion};
ghost use Rattle.mine_model.specs.declared.fault.Fault.TheVariants.{NoMemory as OutOfMemory};
ghost use Rattle.mine_model.specs.Limits.{most_workers};
ghost use Rattle.mine_model.specs.declared.row.Row.{Row as TheRow};
ghost use Rattle.mine_model.specs.Numbered.{AreFrequent, PatternsDiffer};
ghost use Rattle.mine_model.specs.Names.{HasName};
ghost use Rattle.mine_model.specs.Ranks.{AreTiesByName};
ghost use Rattle.mining_job.specs.Problems.{data_of};
ghost use Rattle.search_engine.specs.Partition.{IsWorkFor};
ghost use Rattle.mine_model.specs.PartitionWork.{IsNamedBefore};
ghost use Rattle.desq_run.specs.Ends.{IsWorkOf};
ghost use Rattle.desq_run.specs.Inputs.{AreFound, AreOrdered, HasShare};

use super::shares::mined_share;
use command_line::{Command, Engine};
use item_names::Names;
use mine_model::{Fault, Gate, Mined, NoMemory};
use mining_job::Job;
use pattern_writer::order;
use search_engine::Division;
use std::alloc::Global;
use std::sync::Wait;
use std::thread::Threads;

/// The frequent patterns of the job, found by a search, split by pivots or not, in no stated order. With a
/// seed the search is simulated.
fn searched<R: Threads + Wait + Sync, G: Gate>(
    rt: &R,
    alloc: Global,
    job: &Job,
    division: Division,
    command: &Command,
    gate: &G,
) -> Result<Mined, NoMemory>
    requires workers { 1 ≤ command.now.workers }
    requires few { command.now.workers ≤ most_workers }
    ensures frequent { IfOk result (λ mined. AreFrequent (data_of job.now) mined.rows.items) }
    ensures items { IfOk result (λ mined. (row : TheRow) → Contains mined.rows.items row
        → AllByRecursion (λ t. t.0 < job.now.hierarchy.items) row.pattern) }
    ensures work { IfOk result (λ mined.
        IsWorkFor division (data_of job.now) job.now.ranking.order mined.work) }
{
    match command.seed {
        Some(seed) => search_engine::simulate(alloc, job, division, command.workers, seed),
        None => search_engine::mine(rt, alloc, job, division, command.workers, gate),
    }
}

/// The frequent patterns of the job, found by the engine of the command, in no stated order, and where the
/// command asks for it the work.
fn mined_by<R: Threads + Wait + Sync, G: Gate>(
    rt: &R,
    alloc: Global,
    job: &Job,
    command: &Command,
    gate: &G,
) -> Result<Mined, NoMemory>
    requires workers { 1 ≤ command.now.workers }
    requires few { command.now.workers ≤ most_workers }
    ensures frequent { IfOk result (λ mined. AreFrequent (data_of job.now) mined.rows.items) }
    ensures items { IfOk result (λ mined. (row : TheRow) → Contains mined.rows.items row
        → AllByRecursion (λ t. t.0 < job.now.hierarchy.items) row.pattern) }
    ensures work { command.now.stats ≡ true → (names : List (List ℕ)) → AreTiesByName names job.now.ranking
        → IfOk result (λ mined.
        IsWorkOf (IsNamedBefore names) None command.now.engine (data_of job.now) mined.work) }
{
    // The contract of `items` says that no link leads out of the items, so each ranked item is one of them.
    let _items = job.hierarchy().items();
    match command.engine {
        Engine::Count => {
            count_engine::mine(rt, alloc, job, command.workers, command.stats, gate)
        }
        Engine::Dfs => searched(rt, alloc, job, Division::Whole, command, gate),
        Engine::Pivot => searched(rt, alloc, job, Division::ByPivots, command, gate),
        Engine::Cand => cand_automaton::mine(rt, alloc, job, command.workers, gate),
    }
}

/// The frequent patterns of the job that the command is to find, all or those of its share, in no stated
/// order, and where the command asks for it the work.
fn found<R: Threads + Wait + Sync, G: Gate>(
    rt: &R,
    alloc: Global,
    job: &Job,
    command: &Command,
    gate: &G,
) -> Result<Mined, NoMemory>
    requires workers { 1 ≤ command.now.workers }
    requires few { command.now.workers ≤ most_workers }
    requires share { HasShare command.now.share }
    ensures once { IfOk result (λ mined. PatternsDiffer mined.rows.items) }
    ensures found { (names : List (List ℕ)) → AreTiesByName names job.now.ranking → IfOk result (λ mined.
        AreFound (IsNamedBefore names) command.now.share (data_of job.now) mined.rows.items) }
    ensures items { IfOk result (λ mined. (row : TheRow) → Contains mined.rows.items row
        → AllByRecursion (λ t. t.0 < job.now.hierarchy.items) row.pattern) }
    ensures work { command.now.stats ≡ true → (names : List (List ℕ)) → AreTiesByName names job.now.ranking
        → IfOk result (λ mined. IsWorkOf (IsNamedBefore names) command.now.share command.now.engine
        (data_of job.now) mined.work) }
{
    match command.share {
        Some(share) => mined_share(rt, alloc, job, share, command.workers, gate),
        None => mined_by(rt, alloc, job, command, gate),
    }
}

/// The frequent rows of the job in order, all or those of a share, where its items have these names, and
/// where the command asks for it the work of finding them.
pub(crate) fn ordered_rows<R: Threads + Wait + Sync, G: Gate>(
    rt: &R,
    alloc: Global,
    names: &Names,
    job: &Job,
    command: &Command,
    gate: &G,
) -> Result<Mined, Fault>
    requires workers { 1 ≤ command.now.workers }
    requires few { command.now.workers ≤ most_workers }
    requires share { HasShare command.now.share }
    requires items { job.now.hierarchy.items ≡ length names.now }
    requires ties { AreTiesByName names.now job.now.ranking }
    ensures rows { IfOk result (λ mined.
        AreOrdered names.now command.now.share (data_of job.now) mined.rows.items) }
    ensures named { IfOk result (λ mined. All (λ row. All (HasName names.now) row.pattern) mined.rows.items) }
    ensures work { command.now.stats ≡ true → IfOk result (λ mined. IsWorkOf (IsNamedBefore names.now)
        command.now.share command.now.engine (data_of job.now) mined.work) }
    ensures fails { IfErr result (λ fault. fault ≡ OutOfMemory) }
{
    let Mined { mut rows, work } = found(rt, alloc, job, command, gate)?;
    order(rows.as_mut_slice(), names);
    Ok(Mined { rows, work })
}
