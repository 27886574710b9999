//! One worker's run.

ghost use Rattle.std.specs.Prelude.{◌≡◌, ◌%◌, ◌≤◌, ◌<◌, [], IfOk, OnOk};
ghost use Rattle.mining_job.specs.Problems.{data_of};
ghost use Rattle.pivot_partition.specs.Pivots.{pivots_in};
ghost use Rattle.cand_automaton.specs.Pivots.{AreFound};
ghost use Rattle.cand_automaton.specs.Wholes.{IsKept};
ghost use Rattle.cand_automaton.specs.Workers.{AreSeeds};

use super::parts::{Done, Room, mine_part};
use mine_model::{Gate, NoMemory};
use mining_job::{Job, PartSeed};
use sequence_candidates::Candidates;
use std::alloc::Global;

/// One worker's whole run. Its parts are those whose numbers, divided by the number of workers, leave its
/// own. It takes them in order, and passes the gate before each.
pub(crate) fn work<G: Gate>(
    alloc: Global,
    job: &Job,
    seeds: &[PartSeed],
    worker: u32,
    workers: u32,
    gate: &G,
) -> Result<Done, NoMemory>
    requires seeds { AreSeeds job.now seeds.now }
    requires worker { worker < workers }
    ensures { IfOk result (λ done. AreFound (data_of job.now) job.now.ranking.order (pivots_in seeds.now)
        (λ place. place % workers ≡ worker) done.rows.items done.sets) }
{
    let mut done = Done {
        rows: Vec::new(alloc),
        sets: 0,
    };
    let mut room = Room::new(alloc);
    let mut candidates = Candidates::new(alloc, job)?;
    work_with(
        alloc,
        job,
        seeds,
        worker,
        workers,
        gate,
        &mut candidates,
        &mut room,
        &mut done,
    )?;
    Ok(done)
}

/// The same in this room.
// It stands apart from `work` for the proof alone: who owns the room has to show at each exit that it is let
// go, part by part.
fn work_with<G: Gate>(
    alloc: Global,
    job: &Job,
    seeds: &[PartSeed],
    worker: u32,
    workers: u32,
    gate: &G,
    candidates: &mut Candidates,
    room: &mut Room,
    done: &mut Done,
) -> Result<(), NoMemory>
    requires seeds { AreSeeds job.now seeds.now }
    requires worker { worker < workers }
    requires problem { candidates.old.part.problem ≡ job.now }
    requires kept { IsKept job.now candidates.old room.old.kept.order room.old.kept.alone }
    requires rows { done.old.rows.items ≡ [] }
    requires sets { done.old.sets ≡ 0 }
    ensures { OnOk result (AreFound (data_of job.now) job.now.ranking.order (pivots_in seeds.now)
        (λ place. place % workers ≡ worker) done.new.rows.items done.new.sets) }
{
    // For the proof alone: no item has two ranks.
    let _threshold = job.threshold();
    for number in 0..seeds.len() {
        if number % workers as usize != worker as usize {
            continue;
        }
        gate.pass(worker, number as u64 / u64::from(workers));
        mine_part(alloc, job, &seeds[number], candidates, room, done)?;
    }
    Ok(())
}
