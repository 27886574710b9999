//! Proofs of answers, and their check.

use super::runs::{FailedCalls, Held, Left, first_wrong_read, first_wrong_write, leaves};
use mine_model::NoMemory;
use std::alloc::Global;
use std::sync::Wait;
use std::thread::Threads;

const MINED: &str = "a b\na b\na c\n";

/// What a proof of the answer of support 2 to these words is: one path over each of the first two sequences.
const PROVES: &str = "--support 2 --proof .*(a)(b).* f";

const CHECKS: &str = "--support 2 --check p .*(a)(b).* f";

const PROOF: &str = "2\ta b\n\t1 2 3\n\t2 2 3\n";

/// The files with these sequences and this proof. The hierarchy is refused.
fn held(sequences: &'static str, proof: &'static str) -> Held<'static> {
    Held {
        hierarchy: "a a\n",
        sequences,
        proof,
    }
}

/// Words, the sequences and the proof, and what a run leaves.
type Checked = (
    &'static str,
    &'static str,
    &'static str,
    u8,
    &'static str,
    &'static str,
);

// A proof is told, and it is accepted; so are numbers with leading zeros, and a lower threshold. A path that
// leads elsewhere, a path too few and a path twice are refused, the first and the last at their own line. An
// empty file is a proof of no row. A proof is judged last, and a bad byte comes before what a line says.
const CASES: &[Checked] = &[
    (PROVES, MINED, "", 0, PROOF, ""),
    (CHECKS, MINED, PROOF, 0, "checked 1 rows\n", ""),
    (
        CHECKS,
        MINED,
        "2\ta b\n\t1 2 3\n\t2 2 4\n",
        3,
        "",
        "desq: proof: line 3: refused\n",
    ),
    (
        CHECKS,
        MINED,
        "2\ta b\n\t1 2 3\n",
        3,
        "",
        "desq: proof: line 1: refused\n",
    ),
    (
        CHECKS,
        MINED,
        "2\ta b\n\t1 2 3\n\t1 2 3\n",
        3,
        "",
        "desq: proof: line 3: refused\n",
    ),
    (CHECKS, MINED, "", 0, "checked 0 rows\n", ""),
    (
        CHECKS,
        MINED,
        "02\ta b\n\t01 2 003\n\t2 02 3\n",
        0,
        "checked 1 rows\n",
        "",
    ),
    (
        "--support 1 --check p --engine count --workers 2 .*(a)(b).* f",
        MINED,
        "1\ta b\n\t2 2 3\n",
        0,
        "checked 1 rows\n",
        "",
    ),
    (
        CHECKS,
        MINED,
        "2\ta b\n\t1 2 3\n\x01",
        3,
        "",
        "desq: proof: line 3 column 1: bad byte\n",
    ),
    (
        "--support 2 --check p --hierarchy h .*(a)(b).* f",
        "\x01\n",
        "2",
        3,
        "",
        "desq: hierarchy: line 1: cycle\n",
    ),
    (
        CHECKS,
        "a b\na\x01\n",
        "2",
        3,
        "",
        "desq: sequences: line 2 column 2: bad byte\n",
    ),
    (
        "--support 2 --check p (z) f",
        MINED,
        "2",
        3,
        "",
        "desq: expression: column 2: unknown name\n",
    ),
    (
        "--support 2 --check q .*(a)(b).* f",
        MINED,
        PROOF,
        5,
        "",
        "desq: proof: read fault\n",
    ),
    (
        "--support 2 --check p --proof .*(a)(b).* f",
        MINED,
        PROOF,
        2,
        "",
        "desq: usage: desq --support N [options] EXPR [FILE]\n",
    ),
];

/// The number of the first case that leaves something else.
fn first_wrong<R: Threads + Wait + Sync>(rt: &R, alloc: Global) -> Result<Option<usize>, NoMemory> {
    for (number, (words, sequences, proof, status, out, err)) in CASES.iter().enumerate() {
        let left = Left {
            status: *status,
            out,
            err,
        };
        if !leaves(rt, alloc, words, held(sequences, proof), left)? {
            return Ok(Some(number));
        }
    }
    Ok(None)
}

#[test]
fn proofs_are_written_and_checked(rt: HostRuntime) {
    assert_eq!(rt; first_wrong(&rt, rt.alloc()), Ok(None));
}

/// The first engine that does not write the proof.
fn first_without_proof<R: Threads + Wait + Sync>(
    rt: &R,
    alloc: Global,
) -> Result<Option<&'static str>, NoMemory> {
    let left = Left {
        status: 0,
        out: PROOF,
        err: "",
    };
    for engine in ["count", "dfs", "pivot", "cand"] {
        let words = format!(in alloc; "{PROVES} --engine {engine}")?;
        if !leaves(rt, alloc, words.as_str(), held(MINED, ""), left)? {
            return Ok(Some(engine));
        }
    }
    Ok(None)
}

#[test]
fn each_engine_writes_the_proof(rt: HostRuntime) {
    assert_eq!(rt; first_without_proof(&rt, rt.alloc()), Ok(None));
}

// Three calls read the sequences, and three the proof: it is opened once, and not read behind its end.
const READS: &[FailedCalls] = &[
    (
        3,
        3,
        Left {
            status: 5,
            out: "",
            err: "desq: sequences: read fault\n",
        },
    ),
    (
        4,
        6,
        Left {
            status: 5,
            out: "",
            err: "desq: proof: read fault\n",
        },
    ),
    (
        7,
        7,
        Left {
            status: 0,
            out: "checked 1 rows\n",
            err: "",
        },
    ),
];

#[test]
fn a_read_that_fails_is_told(rt: HostRuntime) {
    let wrong = first_wrong_read(&rt, rt.alloc(), CHECKS, held(MINED, PROOF), 100_000, READS);
    assert_eq!(rt; wrong, Ok(None));
}

#[test]
fn a_write_that_fails_is_told(rt: HostRuntime) {
    let wrong = first_wrong_write(&rt, rt.alloc(), PROVES, held(MINED, ""), PROOF);
    assert_eq!(rt; wrong, Ok(None));
}
