//! The pivots of sequences, and the parts of a job.
ghost use Rattle.std.specs.Prelude.{◌≢◌, ◌<◌, ◌≤◌, [], AllPairs};

use super::data::{RUNNING, Shape, add_numbers, job};
use mine_model::NoMemory;
use mining_job::{Job, PartSeed};
use pivot_partition::{merge_pivots, pivots_of, split, split_alone};
use std::alloc::Global;
use std::fmt::Write;
use std::thread::Threads;
use test_facts::first_false;

/// The pivots of each sequence, and then the parts, as text.
fn told(alloc: Global, job: &Job) -> Result<String, NoMemory> {
    let mut text = String::new(alloc);
    for sequence in 0..job.db().sequences() {
        add_numbers(&mut text, pivots_of(alloc, job, sequence)?.as_slice())?;
        text.push(',')?;
    }
    add_parts(&mut text, split_alone(alloc, job)?.as_slice())?;
    Ok(text)
}

fn add_parts(text: &mut String, seeds: &[PartSeed]) -> Result<(), NoMemory> {
    for seed in seeds {
        write!(text, " {}:", seed.pivot.unwrap_or(0))?;
        add_numbers(text, seed.sequences.as_slice())?;
    }
    Ok(())
}

/// The pivots and the parts of the shape over the running sequences.
fn split_by<T: Threads + Sync>(
    rt: &T,
    alloc: Global,
    shape: Shape,
    threshold: u64,
) -> Result<String, NoMemory>
    requires { 1 ≤ threshold }
{
    let job = job(rt, alloc, shape, &RUNNING, 1, threshold)?;
    told(alloc, &job)
}

// With the threshold 1 also a2 and e have ranks, 6 and 7. No sequence holds A itself.
const SPLIT: [(Shape, u64, &str); 4] = [
    (Shape::Climbing, 2, " 3 4 5, 3,,, 3, 3: 0 1 4"),
    (
        Shape::Climbing,
        1,
        " 3 4 5, 3 7,, 6, 3, 3: 0 1 4 4: 0 5: 0 6: 3 7: 1",
    ),
    (Shape::Forced, 2, " 2, 2,, 2, 2, 2: 0 1 3 4"),
    (Shape::Silent, 1, ",,,,,"),
];

/// The number of the first shape that is split otherwise.
fn first_wrong<T: Threads + Sync>(rt: &T, alloc: Global) -> Result<Option<usize>, NoMemory> {
    for (number, (shape, threshold, want)) in SPLIT.iter().enumerate() {
        if split_by(rt, alloc, *shape, (*threshold).max(1))?.as_str() != *want {
            return Ok(Some(number));
        }
    }
    Ok(None)
}

#[test]
fn splits_the_running_data(rt: HostRuntime) {
    assert_eq!(rt; first_wrong(&rt, rt.alloc()), Ok(None));
}

/// The parts, as text.
fn text_of(alloc: Global, seeds: &[PartSeed]) -> Result<String, NoMemory> {
    let mut text = String::new(alloc);
    add_parts(&mut text, seeds)?;
    Ok(text)
}

/// The parts of the running data, found by so many threads.
fn parts_by<T: Threads + Sync>(rt: &T, alloc: Global, threads: u32) -> Result<String, NoMemory> {
    let job = job(rt, alloc, Shape::Climbing, &RUNNING, 1, 2)?;
    let seeds = split(rt, alloc, &job, threads.clamp(1, 64))?;
    text_of(alloc, seeds.as_slice())
}

const THREADS: [u32; 4] = [1, 2, 5, 64];

/// The place of the first of these numbers of threads that finds other parts.
fn wrong_threads<T: Threads + Sync>(rt: &T, alloc: Global) -> Result<Option<usize>, NoMemory> {
    for (number, threads) in THREADS.iter().enumerate() {
        if parts_by(rt, alloc, *threads)?.as_str() != " 3: 0 1 4" {
            return Ok(Some(number));
        }
    }
    Ok(None)
}

#[test]
fn threads_find_the_same_parts(rt: HostRuntime) {
    assert_eq!(rt; wrong_threads(&rt, rt.alloc()), Ok(None));
}

/// Whether this is the merge of the two lists.
fn is_merged(alloc: Global, first: &[u32], second: &[u32], want: &[u32]) -> Result<bool, NoMemory>
    requires first { AllPairs (λ low high. low < high) first.now }
    requires second { AllPairs (λ low high. low < high) second.now }
    requires some { first.now ≢ [] }
    requires other { second.now ≢ [] }
{
    let mut numbers = Vec::from_slice(alloc, first)?;
    merge_pivots(&mut numbers, second)?;
    Ok(numbers.as_slice() == want)
}

/// The number of the first lists with another merge.
fn wrong_merge(alloc: Global) -> Result<Option<usize>, NoMemory> {
    let facts = [
        is_merged(alloc, &[2, 5], &[3, 4], &[3, 4, 5])?,
        is_merged(alloc, &[0], &[0, 7], &[0, 7])?,
    ];
    Ok(first_false(&facts))
}

#[test]
fn merges_pivots(rt: HostRuntime) {
    assert_eq!(rt; wrong_merge(rt.alloc()), Ok(None));
}
