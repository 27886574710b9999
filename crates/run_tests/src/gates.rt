//! Runs through a gate that holds the first worker until the second has passed: both work.

use super::runs::{Left, NO_FAULTS, leaves_through, of_sequences};
use mine_model::{Gate, NoMemory};
use std::alloc::Global;
use std::sync::Wait;
use std::sync::atomic::{AtomicU64, Ordering};
use std::thread;
use std::thread::Threads;

/// A gate that counts its passes. In one round worker 0 waits there until worker 1 has passed in its first,
/// or until its turns run out.
#[derive(Drop)]
struct SecondFirst {
    held: u64,
    passes: AtomicU64,
    of_second: AtomicU64,
    given_up: AtomicU64,
}

const TURNS: u32 = 100_000;

impl SecondFirst {
    /// Worker 0 is held in this round.
    fn new(held: u64) -> SecondFirst {
        SecondFirst {
            held,
            passes: AtomicU64::new(0),
            of_second: AtomicU64::new(0),
            given_up: AtomicU64::new(0),
        }
    }

    /// Whether worker 1 has passed in its first round before the turns ran out.
    fn waits(&self) -> bool {
        for _ in 0..TURNS {
            if self.of_second.load(Ordering::SeqCst) > 0 {
                return true;
            }
            thread::yield_now();
        }
        false
    }
}

impl Gate for SecondFirst {
    fn pass(&self, worker: u32, round: u64) {
        self.passes.fetch_add(1, Ordering::SeqCst);
        if round == 0 && worker == 1 {
            self.of_second.fetch_add(1, Ordering::SeqCst);
        }
        if round == self.held && worker == 0 && !self.waits() {
            self.given_up.fetch_add(1, Ordering::SeqCst);
        }
    }
}

/// Whether the words leave this answer on these lines, and the gate so many passes, none of which was given
/// up.
fn is_shared<R: Threads + Wait + Sync>(
    rt: &R,
    alloc: Global,
    words: &str,
    lines: &str,
    out: &str,
    held: u64,
    passes: u64,
) -> Result<bool, NoMemory> {
    let gate = SecondFirst::new(held);
    let left = Left {
        status: 0,
        out,
        err: "",
    };
    let is_left = leaves_through(
        rt,
        alloc,
        words,
        of_sequences(lines),
        NO_FAULTS,
        &gate,
        left,
    );
    let is_passed = gate.passes.load(Ordering::SeqCst) == passes
        && gate.given_up.load(Ordering::SeqCst) == 0;
    Ok(is_left? && is_passed)
}

fn is_shared_by_sequences<R: Threads + Wait + Sync>(
    rt: &R,
    alloc: Global,
) -> Result<bool, NoMemory> {
    let lines = "a b\n".repeat(alloc, 512)?;
    let words = "--support=512 --engine=count --workers=2 (a)(b) f";
    is_shared(rt, alloc, words, lines.as_str(), "512\ta b\n", 0, 4)
}

// Each worker has 256 sequences, and passes each time that it goes over them: for the sieve, and to count.
#[test]
fn a_second_worker_counts_while_the_first_is_held(rt: HostRuntime) {
    assert_eq!(rt; is_shared_by_sequences(&rt, rt.alloc()), Ok(true));
}

// Each of the two items is the pivot of one part.
#[test]
fn a_second_worker_has_a_part_while_the_first_is_held(rt: HostRuntime) {
    let words = "--support=1 --engine=cand --workers=2 (.) f";
    let is_shared = is_shared(&rt, rt.alloc(), words, "a\nb\n", "1\ta\n1\tb\n", 0, 2);
    assert_eq!(rt; is_shared, Ok(true));
}

/// Lines, each twice, and the rows of the patterns that they generate by `(.)[(.)|.]`.
#[derive(Drop)]
struct Pairs {
    lines: String,
    rows: String,
}

/// Adds the line of the `x` and the `y` with this number.
fn push_pair(alloc: Global, pairs: &mut Pairs, number: &str) -> Result<(), NoMemory> {
    let lines = format!(in alloc; "x{number} y{number}\nx{number} y{number}\n")?;
    let rows = format!(in alloc; "2\tx{number}\n2\tx{number} y{number}\n")?;
    pairs.lines.push_str(lines.as_str())?;
    pairs.rows.push_str(rows.as_str())?;
    Ok(())
}

/// The numbers 0 to 39, in the order of their digits.
const NUMBERS: &[&str] = &[
    "0", "1", "10", "11", "12", "13", "14", "15", "16", "17", "18", "19", "2", "20", "21", "22",
    "23", "24", "25", "26", "27", "28", "29", "3", "30", "31", "32", "33", "34", "35", "36", "37",
    "38", "39", "4", "5", "6", "7", "8", "9",
];

fn forty_pairs(alloc: Global) -> Result<Pairs, NoMemory> {
    let mut pairs = Pairs {
        lines: String::new(alloc),
        rows: String::new(alloc),
    };
    for number in NUMBERS {
        push_pair(alloc, &mut pairs, number)?;
    }
    Ok(pairs)
}

/// Words, the round in which worker 0 is held, and how many passes there are. The root has 40 kids, each with
/// one: 81 nodes. Each `x` is the pivot of one pattern and has two nodes, and each `y` is that of one and has
/// three. A simulated search passes no gate.
const SHARED: &[(&str, u64, u64)] = &[
    ("--support=2 --engine=dfs --workers=2 (.)[(.)|.] f", 2, 81),
    (
        "--support=2 --engine=pivot --workers=2 (.)[(.)|.] f",
        2,
        200,
    ),
    ("--support=2 --simulate=7 (.)[(.)|.] f", 0, 0),
    ("--support=2 --engine=pivot --simulate=7 (.)[(.)|.] f", 0, 0),
];

/// The first words by which the work on the pairs is not shared so.
fn first_unshared<R: Threads + Wait + Sync>(
    rt: &R,
    alloc: Global,
    pairs: &Pairs,
) -> Result<Option<&'static str>, NoMemory> {
    for (words, held, passes) in SHARED {
        let (lines, rows) = (pairs.lines.as_str(), pairs.rows.as_str());
        if !is_shared(rt, alloc, words, lines, rows, *held, *passes)? {
            return Ok(Some(*words));
        }
    }
    Ok(None)
}

fn first_unshared_of_forty<R: Threads + Wait + Sync>(
    rt: &R,
    alloc: Global,
) -> Result<Option<&'static str>, NoMemory> {
    let pairs = forty_pairs(alloc)?;
    first_unshared(rt, alloc, &pairs)
}

#[test]
fn a_second_worker_steals_while_the_first_is_held(rt: HostRuntime) {
    assert_eq!(rt; first_unshared_of_forty(&rt, rt.alloc()), Ok(None));
}
