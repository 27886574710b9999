//! The engines that count: by candidates, and by sets of candidates.
ghost use Rattle.std.specs.Prelude.{◌≤◌};

use super::data::{A, A1, B, C, D, E, Lines, RUNNING, Shape, are_rows, job};
use mine_model::{Gate, Item, Mined, NoMemory, OpenGate, Work};
use mining_job::Job;
use std::alloc::Global;
use std::sync::Wait;
use std::sync::atomic::{AtomicU64, Ordering};
use std::thread::Threads;

#[derive(Clone, Copy)]
enum Engine {
    Count,
    Cand,
}

/// What is mined, how often its lines stand, the threshold, how many candidates and how many sets are
/// counted, and the rows.
#[derive(Clone, Copy)]
struct Case {
    shape: Shape,
    lines: Lines<'static>,
    times: u32,
    threshold: u64,
    candidates: u64,
    sets: u64,
    rows: Lines<'static>,
}

const SHARED: [(u64, &[Item]); 4] = [
    (1, &[B, C, D]),
    (2, &[B, C, E]),
    (1_000_000_000, &[D, C]),
    (8, &[B, B, C]),
];

// Of 1,025 sequences the first of four workers has 257, and each other 256. A pattern has two items.
const MANY: Case = Case {
    shape: Shape::Pair,
    lines: &RUNNING,
    times: 205,
    threshold: 205,
    candidates: 205,
    sets: 1,
    rows: &[(205, &[A1, B])],
};

const ONE_ITEM_EACH: [(u64, &[Item]); 2] = [(1, &[B]), (1, &[C])];

// Two parts.
const TWO: Case = Case {
    shape: Shape::Subsequence,
    lines: &ONE_ITEM_EACH,
    times: 1,
    threshold: 1,
    candidates: 2,
    sets: 2,
    rows: &ONE_ITEM_EACH,
};

// In SHARED all have the same set with `c` alone, two have different ones with `d`, and three with `b`.
const FOUND: [Case; 7] = [
    Case {
        shape: Shape::Climbing,
        lines: &RUNNING,
        times: 1,
        threshold: 2,
        candidates: 13,
        sets: 2,
        rows: &[(3, &[A1, B]), (2, &[A1, A, B]), (2, &[A1, A1, B])],
    },
    Case {
        shape: Shape::Climbing,
        lines: &RUNNING,
        times: 1,
        threshold: 6,
        candidates: 0,
        sets: 0,
        rows: &[],
    },
    Case {
        shape: Shape::Climbing,
        lines: &RUNNING,
        times: 300,
        threshold: 601,
        candidates: 2_400,
        sets: 2,
        rows: &[(900, &[A1, B])],
    },
    MANY,
    TWO,
    Case {
        shape: Shape::Subsequence,
        lines: &SHARED,
        times: 1,
        threshold: 8,
        candidates: 18,
        sets: 6,
        rows: &[
            (11, &[B]),
            (1_000_000_011, &[C]),
            (1_000_000_001, &[D]),
            (11, &[B, C]),
            (1_000_000_000, &[D, C]),
            (8, &[B, B]),
            (8, &[B, B, C]),
        ],
    },
    Case {
        shape: Shape::Subsequence,
        lines: &[],
        times: 1,
        threshold: 1,
        candidates: 0,
        sets: 0,
        rows: &[],
    },
];

/// The work of the engine on the case.
fn work_of(engine: Engine, case: Case) -> Work {
    let (parts, candidates) = match engine {
        Engine::Count => (0, case.candidates),
        Engine::Cand => (case.sets, 0),
    };
    Work {
        nodes: 0,
        parts,
        candidates,
    }
}

/// What so many workers find.
fn mined<R: Threads + Wait + Sync, G: Gate>(
    rt: &R,
    alloc: Global,
    engine: Engine,
    job: &Job,
    workers: u32,
    gate: &G,
) -> Result<Mined, NoMemory>
    requires least { 1 ≤ workers }
    requires most { workers ≤ 64 }
{
    match engine {
        Engine::Count => count_engine::mine(rt, alloc, job, workers, true, gate),
        Engine::Cand => cand_automaton::mine(rt, alloc, job, workers, gate),
    }
}

/// Whether so many workers find the rows of the case by its work.
fn is_found<R: Threads + Wait + Sync, G: Gate>(
    rt: &R,
    alloc: Global,
    engine: Engine,
    case: Case,
    workers: u32,
    gate: &G,
) -> Result<bool, NoMemory> {
    let job = job(
        rt,
        alloc,
        case.shape,
        case.lines,
        case.times,
        case.threshold.max(1),
    )?;
    let found = mined(rt, alloc, engine, &job, workers.clamp(1, 64), gate)?;
    Ok(found.work == work_of(engine, case) && are_rows(found.rows.as_slice(), case.rows))
}

/// The number of the first case in which so many workers find something else.
fn first_wrong<R: Threads + Wait + Sync>(
    rt: &R,
    alloc: Global,
    engine: Engine,
    workers: u32,
) -> Result<Option<usize>, NoMemory> {
    for (number, case) in FOUND.iter().enumerate() {
        if !is_found(rt, alloc, engine, *case, workers, &OpenGate)? {
            return Ok(Some(number));
        }
    }
    Ok(None)
}

/// The first number of workers that finds something else, and the number of the first such case.
fn wrong_workers<R: Threads + Wait + Sync>(
    rt: &R,
    alloc: Global,
    engine: Engine,
) -> Result<Option<(u32, usize)>, NoMemory> {
    for workers in [1, 2, 4, 64] {
        if let Some(number) = first_wrong(rt, alloc, engine, workers)? {
            return Ok(Some((workers, number)));
        }
    }
    Ok(None)
}

#[test]
fn candidates_find_the_frequent_patterns(rt: HostRuntime) {
    assert_eq!(rt; wrong_workers(&rt, rt.alloc(), Engine::Count), Ok(None));
}

#[test]
fn sets_find_the_frequent_patterns(rt: HostRuntime) {
    assert_eq!(rt; wrong_workers(&rt, rt.alloc(), Engine::Cand), Ok(None));
}

/// How often each of four workers passed for each of its first four rounds, and how often for any other, or
/// anybody else.
#[derive(Drop)]
struct Passed {
    rounds: [[AtomicU64; 4]; 4],
    others: AtomicU64,
}

fn no_rounds() -> [AtomicU64; 4] {
    [
        AtomicU64::new(0),
        AtomicU64::new(0),
        AtomicU64::new(0),
        AtomicU64::new(0),
    ]
}

fn counts_of(rounds: &[AtomicU64; 4]) -> [u64; 4] {
    [
        rounds[0].load(Ordering::SeqCst),
        rounds[1].load(Ordering::SeqCst),
        rounds[2].load(Ordering::SeqCst),
        rounds[3].load(Ordering::SeqCst),
    ]
}

impl Passed {
    fn new() -> Passed {
        Passed {
            rounds: [no_rounds(), no_rounds(), no_rounds(), no_rounds()],
            others: AtomicU64::new(0),
        }
    }

    /// Whether these are the passes, and there were no others.
    fn are(&self, want: [[u64; 4]; 4]) -> bool {
        for (rounds, want) in self.rounds.iter().zip(&want) {
            if counts_of(rounds) != *want {
                return false;
            }
        }
        self.others.load(Ordering::SeqCst) == 0
    }
}

impl Gate for Passed {
    fn pass(&self, worker: u32, round: u64) {
        let rounds = self.rounds.get(worker as usize);
        let count = rounds.and_then(|rounds| rounds.get(round as usize));
        count.unwrap_or(&self.others).fetch_add(1, Ordering::SeqCst);
    }
}

// Where patterns are short a worker goes over its sequences once for the sieve, and once more to count. Each
// time it passes once for each 256 of them, or fewer at the end.
#[test]
fn each_worker_passes_the_gate_once_in_each_round(rt: HostRuntime) {
    let gate = Passed::new();
    let is_found = is_found(&rt, rt.alloc(), Engine::Count, MANY, 4, &gate);
    assert_eq!(rt; is_found, Ok(true));
    assert!(rt; gate.are([[1, 1, 1, 1], [1, 1, 0, 0], [1, 1, 0, 0], [1, 1, 0, 0]]));
}

// Each worker has one part.
#[test]
fn each_part_passes_the_gate_once(rt: HostRuntime) {
    let gate = Passed::new();
    let is_found = is_found(&rt, rt.alloc(), Engine::Cand, TWO, 2, &gate);
    assert_eq!(rt; is_found, Ok(true));
    assert!(rt; gate.are([[1, 0, 0, 0], [1, 0, 0, 0], [0, 0, 0, 0], [0, 0, 0, 0]]));
}
