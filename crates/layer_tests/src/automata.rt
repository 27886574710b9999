//! The automata of candidates, and the groups of sequences that have the same.

use super::data::{RUNNING, Shape, add_numbers, job};
use automaton_model::Group;
use cand_automaton::{build, groups_of};
use mine_model::NoMemory;
use mining_job::Job;
use pivot_partition::split_alone;
use std::alloc::Global;
use std::fmt::Write;
use std::thread::Threads;

/// Writes the automaton of a sequence's candidates with the pivot, if it is a rank.
fn add_automaton(
    text: &mut String,
    alloc: Global,
    job: &Job,
    sequence: u32,
    pivot: u32,
) -> Result<(), NoMemory> {
    if sequence < job.db().sequences() && pivot >= 1 && pivot <= job.ranks().count() {
        add_numbers(text, build(alloc, job, sequence, pivot)?.code())?;
    }
    Ok(())
}

/// `a1 b`
const ALONE: &str = " 0 1 3 1 0 1 1 2 1 0";

/// `a1 b`, `a1 A b` and `a1 a1 b`
const THREE: &str = " 0 1 3 1 0 3 1 2 2 3 3 3 1 0 0 1 1 2";

/// No candidate.
const NONE: &str = " 0 0";

/// The number of the first sequence with another automaton.
fn wrong_of(alloc: Global, job: &Job) -> Result<Option<usize>, NoMemory> {
    for (sequence, want) in [ALONE, THREE, NONE, NONE, THREE].iter().enumerate() {
        let mut text = String::new(alloc);
        add_automaton(&mut text, alloc, job, sequence as u32, 3)?;
        if text.as_str() != *want {
            return Ok(Some(sequence));
        }
    }
    Ok(None)
}

fn first_wrong<T: Threads + Sync>(rt: &T, alloc: Global) -> Result<Option<usize>, NoMemory> {
    let job = job(rt, alloc, Shape::Climbing, &RUNNING, 1, 2)?;
    wrong_of(alloc, &job)
}

#[test]
fn builds_the_minimal_automata(rt: HostRuntime) {
    assert_eq!(rt; first_wrong(&rt, rt.alloc()), Ok(None));
}

/// Writes each group's count and code.
fn add_groups(text: &mut String, groups: &[Group]) -> Result<(), NoMemory> {
    for group in groups {
        write!(text, "{}:", group.count)?;
        add_numbers(text, group.automaton.code())?;
        text.push(',')?;
    }
    Ok(())
}

/// The groups of each part.
fn told(alloc: Global, job: &Job) -> Result<String, NoMemory> {
    let mut text = String::new(alloc);
    for seed in split_alone(alloc, job)?.as_slice() {
        let Some(_pivot) = seed.pivot else {
            continue;
        };
        add_groups(&mut text, groups_of(alloc, job, seed)?.as_slice())?;
        text.push(' ')?;
    }
    Ok(text)
}

fn grouped<T: Threads + Sync>(rt: &T, alloc: Global) -> Result<String, NoMemory> {
    let job = job(rt, alloc, Shape::Climbing, &RUNNING, 1, 2)?;
    told(alloc, &job)
}

#[test]
fn groups_sequences_with_equal_candidates(rt: HostRuntime) {
    let want = "1: 0 1 3 1 0 1 1 2 1 0,2: 0 1 3 1 0 3 1 2 2 3 3 3 1 0 0 1 1 2, ";
    assert_eq!(rt; grouped(&rt, rt.alloc()).as_deref(), Ok(want));
}
