//! The search engine, with threads and simulated.
use super::data::{A, A1, B, Lines, RUNNING, Shape, are_rows, job, text_of_rows};
use mine_model::{NoMemory, OpenGate, Work};
use mining_job::Job;
use search_engine::{Division, mine, simulate};
use std::alloc::Global;
use std::sync::Wait;
use std::thread::Threads;

/// The work of the running data with the threshold 2.
const WORK: Work = Work {
    nodes: 7,
    parts: 1,
    candidates: 0,
};

const ROWS: Lines<'static> = &[(3, &[A1, B]), (2, &[A1, A, B]), (2, &[A1, A1, B])];

/// Whether so many workers find the rows and count the work.
fn is_found<R: Threads + Wait + Sync>(
    rt: &R,
    alloc: Global,
    job: &Job,
    division: Division,
    workers: u32,
) -> Result<bool, NoMemory> {
    let found = mine(rt, alloc, job, division, workers.clamp(1, 64), &OpenGate)?;
    Ok(found.work == WORK && are_rows(found.rows.as_slice(), ROWS))
}

/// What the search begins with, and its workers.
const SEARCHES: [(Division, u32); 4] = [
    (Division::Whole, 1),
    (Division::Whole, 4),
    (Division::ByPivots, 1),
    (Division::ByPivots, 4),
];

/// The number of the first search that finds something else.
fn wrong_of<R: Threads + Wait + Sync>(
    rt: &R,
    alloc: Global,
    job: &Job,
) -> Result<Option<usize>, NoMemory> {
    for (number, (division, workers)) in SEARCHES.iter().enumerate() {
        if !is_found(rt, alloc, job, *division, *workers)? {
            return Ok(Some(number));
        }
    }
    Ok(None)
}

fn first_wrong<R: Threads + Wait + Sync>(rt: &R, alloc: Global) -> Result<Option<usize>, NoMemory> {
    let job = job(rt, alloc, Shape::Climbing, &RUNNING, 1, 2)?;
    wrong_of(rt, alloc, &job)
}

#[test]
fn workers_find_all_rows(rt: HostRuntime) {
    assert_eq!(rt; first_wrong(&rt, rt.alloc()), Ok(None));
}

/// The rows in the order in which so many simulated workers post them.
fn simulated(
    alloc: Global,
    job: &Job,
    division: Division,
    workers: u32,
    seed: u64,
) -> Result<String, NoMemory> {
    let found = simulate(alloc, job, division, workers.clamp(1, 64), seed)?;
    text_of_rows(alloc, found.rows.as_slice())
}

/// What the search begins with, its workers, its seed, and its rows. The orders were worked out by the rules
/// of the machine. The only part has the pivot a1, and its tree is that of all ranks but for the labels'
/// first numbers.
const SIMULATED: [(Division, u32, u64, &str); 5] = [
    (Division::Whole, 1, 7, "2 a1 a1 b,2 a1 A b,3 a1 b,"),
    (Division::Whole, 3, 0, "2 a1 A b,3 a1 b,2 a1 a1 b,"),
    (Division::Whole, 3, 7, "3 a1 b,2 a1 a1 b,2 a1 A b,"),
    (Division::Whole, 4, u64::MAX, "2 a1 a1 b,2 a1 A b,3 a1 b,"),
    (Division::ByPivots, 1, 7, "2 a1 a1 b,2 a1 A b,3 a1 b,"),
];

/// The number of the first simulated search with other rows.
fn other_of(alloc: Global, job: &Job) -> Result<Option<usize>, NoMemory> {
    for (number, (division, workers, seed, want)) in SIMULATED.iter().enumerate() {
        if simulated(alloc, job, *division, *workers, *seed)?.as_str() != *want {
            return Ok(Some(number));
        }
    }
    Ok(None)
}

fn first_other<T: Threads + Sync>(rt: &T, alloc: Global) -> Result<Option<usize>, NoMemory> {
    let job = job(rt, alloc, Shape::Climbing, &RUNNING, 1, 2)?;
    other_of(alloc, &job)
}

#[test]
fn rows_stand_in_the_order_of_the_schedule(rt: HostRuntime) {
    assert_eq!(rt; first_other(&rt, rt.alloc()), Ok(None));
}
