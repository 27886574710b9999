//! Paths, and proofs as they are written.

use super::data::{A, A1, A2, B, Lines, RUNNING, Shape, job};
use super::judging::{PAIRS, are_named, file_names};
use fst_compile::State;
use mine_model::{Item, NoMemory, Row};
use mining_job::Job;
use pattern_proof::{ProofWriter, path};
use search_engine::{Division, simulate};
use std::alloc::Global;
use std::fmt::Write;
use std::thread::Threads;
use text_ports::MemSink;

fn add_states(text: &mut String, states: &[State]) -> Result<(), NoMemory> {
    for state in states {
        let number = state.0;
        write!(text, " {number}")?;
    }
    Ok(())
}

/// The states of a path over the sequence with this number that writes the pattern.
fn path_text(alloc: Global, job: &Job, seq: u32, pattern: &[Item]) -> Result<String, NoMemory> {
    let mut text = String::new(alloc);
    if seq < job.db().sequences() {
        match path(alloc, job, seq, pattern)? {
            Some(states) => add_states(&mut text, states.as_slice())?,
            None => text.push_str("none")?,
        }
    }
    Ok(text)
}

/// The number of a sequence, a pattern, and the first path that writes it.
type Case = (u32, &'static [Item], &'static str);

// Of `.*(A)[(.^)|.]*(b).*` over the running data.
const CLIMBING: &[Case] = &[
    (0, &[A1, B], " 2 4 4 4 5"),
    (1, &[A1, B], " 1 1 1 1 2 4 5"),
    (1, &[A1, A, B], " 1 1 2 4 3 4 5"),
    (1, &[A, A1, B], "none"),
    (2, &[A1, B], "none"),
    (3, &[A2, B], " 2 4 5"),
    (3, &[A1, B], "none"),
    (4, &[A1, A1, B], " 2 3 5"),
    (4, &[A1, A1, B, B], "none"),
    (4, &[], "none"),
];

// Of `.*(a1)(b).*` over the pairs.
const PAIRED: &[Case] = &[
    (0, &[A1, B], " 2 3"),
    (1, &[A1, B], " 2 3"),
    (2, &[A1, B], "none"),
];

/// The number of the first case in which another path is found.
fn wrong_of(alloc: Global, job: &Job, cases: &[Case]) -> Result<Option<usize>, NoMemory> {
    for (number, (seq, pattern, want)) in cases.iter().enumerate() {
        if path_text(alloc, job, *seq, pattern)?.as_str() != *want {
            return Ok(Some(number));
        }
    }
    Ok(None)
}

fn first_wrong<T: Threads + Sync>(
    rt: &T,
    alloc: Global,
    shape: Shape,
    lines: Lines,
    cases: &[Case],
) -> Result<Option<usize>, NoMemory> {
    let job = job(rt, alloc, shape, lines, 1, 2)?;
    wrong_of(alloc, &job, cases)
}

#[test]
fn paths_are_found(rt: HostRuntime) {
    let wrong = first_wrong(&rt, rt.alloc(), Shape::Climbing, &RUNNING, CLIMBING);
    assert_eq!(rt; wrong, Ok(None));
}

#[test]
fn sequences_without_a_pattern_have_no_path(rt: HostRuntime) {
    let wrong = first_wrong(&rt, rt.alloc(), Shape::Pair, &PAIRS, PAIRED);
    assert_eq!(rt; wrong, Ok(None));
}

fn is_text(sink: &MemSink, want: &str) -> bool {
    sink.bytes() == want.as_bytes()
}

/// Whether a sink that fails at these calls has this of the proof of the job's answer, which is whole or not.
fn is_written(
    alloc: Global,
    job: &Job,
    fails: Vec<u64>,
    want: &str,
    is_whole: bool,
) -> Result<bool, NoMemory> {
    let names = file_names(alloc)?;
    let mined = simulate(alloc, job, Division::Whole, 1, 7)?;
    if !are_named(mined.rows.as_slice(), &names) {
        return Ok(false);
    }
    let mut sink = MemSink::new(alloc, 4096, 5, fails)?;
    let mut writer = ProofWriter::new(alloc, job, &names, mined.rows.as_slice())?;
    Ok(writer.write(&mut sink).is_ok() == is_whole && is_text(&sink, want))
}

/// The same on the job of the shape and these lines.
fn is_proved<T: Threads + Sync>(
    rt: &T,
    alloc: Global,
    shape: Shape,
    lines: Lines,
    fails: &[u64],
    want: &str,
    is_whole: bool,
) -> Result<bool, NoMemory> {
    let job = job(rt, alloc, shape, lines, 1, 2)?;
    is_written(alloc, &job, Vec::from_slice(alloc, fails)?, want, is_whole)
}

// Among the texts that are judged this one is good.
#[test]
fn a_written_proof_is_good(rt: HostRuntime) {
    let want = "2\ta1 b\n\t1 2 3\n\t2 2 3\n";
    let is_proved = is_proved(&rt, rt.alloc(), Shape::Pair, &PAIRS, &[], want, true);
    assert_eq!(rt; is_proved, Ok(true));
}

#[test]
fn all_rows_are_proved(rt: HostRuntime) {
    let want = "2\ta1 a1 b\n\t2 1 1 2 4 3 4 5\n\t5 2 3 5\n\
         2\ta1 A b\n\t2 1 1 2 4 3 4 5\n\t5 2 3 5\n\
         3\ta1 b\n\t1 2 4 4 4 5\n\t2 1 1 1 1 2 4 5\n\t5 1 2 5\n";
    let is_proved = is_proved(&rt, rt.alloc(), Shape::Climbing, &RUNNING, &[], want, true);
    assert_eq!(rt; is_proved, Ok(true));
}

#[test]
fn a_fault_cuts_a_proof(rt: HostRuntime) {
    let want = "2\ta1 b\n\t1 ";
    let is_proved = is_proved(&rt, rt.alloc(), Shape::Pair, &PAIRS, &[3], want, false);
    assert_eq!(rt; is_proved, Ok(true));
}
