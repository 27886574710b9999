//! Files and sinks that fail, at each of their calls in turn.

use super::runs::{
    ANSWER, FailedCalls, Faults, HIERARCHY, Held, Left, RUNNING, SEQUENCES, first_wrong_read,
    first_wrong_write, leaves_with,
};
use mine_model::NoMemory;
use std::alloc::Global;
use std::sync::Wait;
use std::thread::Threads;

const WORDS: &str = "--support 2 --hierarchy h .*(A)[(.^)|.]*(b).* f";

// Five calls are those of the hierarchy, and fifteen those of the sequences: each file is opened once, and
// not read behind its end.
const READS: &[FailedCalls] = &[
    (
        1,
        5,
        Left {
            status: 5,
            out: "",
            err: "desq: hierarchy: read fault\n",
        },
    ),
    (
        6,
        20,
        Left {
            status: 5,
            out: "",
            err: "desq: sequences: read fault\n",
        },
    ),
    (
        21,
        21,
        Left {
            status: 0,
            out: ANSWER,
            err: "",
        },
    ),
];

#[test]
fn a_read_that_fails_names_its_file(rt: HostRuntime) {
    let wrong = first_wrong_read(&rt, rt.alloc(), WORDS, RUNNING, 4, READS);
    assert_eq!(rt; wrong, Ok(None));
}

#[test]
fn a_write_that_fails_leaves_the_first_bytes(rt: HostRuntime) {
    let wrong = first_wrong_write(&rt, rt.alloc(), WORDS, RUNNING, ANSWER);
    assert_eq!(rt; wrong, Ok(None));
}

/// Words, the hierarchy and the sequences, which calls of the files, of out and of err fail, how many bytes a
/// call takes, the status, and what is left.
type Failing = (
    &'static str,
    &'static str,
    &'static str,
    Faults,
    u8,
    &'static str,
    &'static str,
);

// A read fault comes before a bad byte. Three calls read the hierarchy, so a cycle is told before the fourth,
// which would open the sequences. An empty answer is no write, and a longer one is one. A second write that
// fails leaves what the first took. A fault of err changes no status.
const FAILING: &[Failing] = &[
    (
        "--support 1 (.) f",
        "",
        "\x01\nabc\n",
        Faults {
            files: 3,
            out: 0,
            err: 0,
            cut: 4,
        },
        5,
        "",
        "desq: sequences: read fault\n",
    ),
    (
        WORDS,
        "x x\n",
        SEQUENCES,
        Faults {
            files: 4,
            out: 0,
            err: 0,
            cut: 100_000,
        },
        3,
        "",
        "desq: hierarchy: line 1: cycle\n",
    ),
    (
        "--support 2 (.) f",
        "",
        "a\nb\n",
        Faults {
            files: 0,
            out: 1,
            err: 0,
            cut: 100_000,
        },
        0,
        "",
        "",
    ),
    (
        WORDS,
        HIERARCHY,
        SEQUENCES,
        Faults {
            files: 0,
            out: 2,
            err: 0,
            cut: 100_000,
        },
        0,
        ANSWER,
        "",
    ),
    (
        WORDS,
        HIERARCHY,
        SEQUENCES,
        Faults {
            files: 0,
            out: 2,
            err: 0,
            cut: 5,
        },
        6,
        "3\ta1 ",
        "desq: write fault\n",
    ),
    (
        "--help",
        "",
        "",
        Faults {
            files: 0,
            out: 0,
            err: 1,
            cut: 100_000,
        },
        2,
        "",
        "",
    ),
];

/// The number of the first case that leaves something else.
fn first_wrong<R: Threads + Wait + Sync>(rt: &R, alloc: Global) -> Result<Option<usize>, NoMemory> {
    for (number, (words, hierarchy, sequences, faults, status, out, err)) in FAILING
        .iter()
        .enumerate()
    {
        let held = Held {
            hierarchy,
            sequences,
            proof: "",
        };
        let left = Left {
            status: *status,
            out,
            err,
        };
        if !leaves_with(rt, alloc, words, held, *faults, left)? {
            return Ok(Some(number));
        }
    }
    Ok(None)
}

#[test]
fn faults_are_told_in_their_order(rt: HostRuntime) {
    assert_eq!(rt; first_wrong(&rt, rt.alloc()), Ok(None));
}
