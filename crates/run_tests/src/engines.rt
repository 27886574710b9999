//! Each engine with one worker and with several, simulated or not, and the counted work that it tells.

use super::runs::{ANSWER, Case, HIERARCHY, Left, SEQUENCES, first_wrong_by, leaves, of_sequences};
use mine_model::NoMemory;
use std::alloc::Global;
use std::sync::Wait;
use std::thread::Threads;

/// Three runs of the running example: its work is that of a whole search and of a split one, since all
/// patterns have one pivot.
const RUNNING: &[Case] = &[
    (
        "--support=2 --hierarchy h .*(A)[(.^)|.]*(b).* f",
        HIERARCHY,
        SEQUENCES,
        0,
        ANSWER,
        "desq: nodes 7 parts 1 candidates 0\n",
    ),
    (
        "--support=3 --hierarchy h .*(A)[(.^)|.]*(b).* f",
        HIERARCHY,
        SEQUENCES,
        0,
        "3\ta1 b\n",
        "desq: nodes 3 parts 1 candidates 0\n",
    ),
    (
        "--support=6 --hierarchy h .*(A)[(.^)|.]*(b).* f",
        HIERARCHY,
        SEQUENCES,
        0,
        "",
        "desq: nodes 0 parts 0 candidates 0\n",
    ),
];

const SEARCHES: &[&str] = &[
    "--stats",
    "--stats --workers=1",
    "--stats --engine=dfs --workers=64",
    "--stats --engine=pivot",
    "--stats --engine=pivot --workers=1",
    "--stats --engine=pivot --workers=64",
    "--stats --simulate=7",
    "--stats --engine=dfs --simulate=0 --workers=1",
    "--stats --engine=dfs --simulate=18446744073709551615",
    "--stats --engine=dfs --simulate=007 --workers=64",
    "--stats --engine=pivot --simulate=7",
    "--stats --engine=pivot --simulate=0 --workers=1",
    "--stats --engine=pivot --simulate=18446744073709551615 --workers=64",
];

#[test]
fn any_workers_and_any_order_of_steps_give_the_same_answer(rt: HostRuntime) {
    assert_eq!(rt;
        first_wrong_by(&rt, rt.alloc(), SEARCHES, RUNNING),
        Ok(None)
    );
}

// A prefix that is no pattern of its own; two edges that write at one place; places that many silent paths
// reach; nothing; a root that is not alive; the empty output alone, which is in no part; equal sequences; one
// chain of prefixes, in which there is no work to share.
const GROWN: &[Case] = &[
    (
        "--support=2 .*(a)(b).* f",
        "",
        "a b\na b\na c\n",
        0,
        "2\ta b\n",
        "desq: nodes 3 parts 1 candidates 0\n",
    ),
    (
        "--support=2 (a)[(b)|.] f",
        "",
        "a b\na b\n",
        0,
        "2\ta\n2\ta b\n",
        "desq: nodes 3 parts 1 candidates 0\n",
    ),
    (
        "--support=1 [.*]{8}(a) f",
        "",
        "b b b b b b b b b b b a\n",
        0,
        "1\ta\n",
        "desq: nodes 2 parts 1 candidates 0\n",
    ),
    (
        "--support=1 (.) f",
        "",
        "",
        0,
        "",
        "desq: nodes 0 parts 0 candidates 0\n",
    ),
    (
        "--support=3 .*(a)(b).* f",
        "",
        "a b\na b\na c\n",
        0,
        "",
        "desq: nodes 0 parts 0 candidates 0\n",
    ),
    (
        "--support=1 .* f",
        "",
        "a b\na b\n\n",
        0,
        "",
        "desq: nodes 0 parts 0 candidates 0\n",
    ),
    (
        "--support=1 [(a)*]* f",
        "",
        "a a\na a\n",
        0,
        "2\ta a\n",
        "desq: nodes 3 parts 1 candidates 0\n",
    ),
    (
        "--support=1 (a)* f",
        "",
        "a a a a a a\n",
        0,
        "1\ta a a a a a\n",
        "desq: nodes 7 parts 1 candidates 0\n",
    ),
];

const GROWTHS: &[&str] = &["--stats", "--stats --engine=dfs --simulate=3"];

#[test]
fn finds_what_prefixes_grow_into(rt: HostRuntime) {
    assert_eq!(rt; first_wrong_by(&rt, rt.alloc(), GROWTHS, GROWN), Ok(None));
}

// Two pivots; patterns that are all empty; a pivot that no sequence holds, as it is written for what stands
// below it; frequent items, in sequences of which few have the pivot; sequences that weigh just enough for a
// part, and too little; a pivot whose sequences have patterns with a smaller one, too; items of which fewer
// lines hold the one that weighs more.
const SPLIT: &[Case] = &[
    (
        "--support=2 (a)[(b)|.] f",
        "",
        "a b\na b\n",
        0,
        "2\ta\n2\ta b\n",
        "desq: nodes 5 parts 2 candidates 0\n",
    ),
    (
        "--support=1 --hierarchy h .* f",
        HIERARCHY,
        SEQUENCES,
        0,
        "",
        "desq: nodes 0 parts 0 candidates 0\n",
    ),
    (
        "--support=2 --hierarchy h (k^=)(c) f",
        "x k\ny k\n",
        "x c\ny c\n",
        0,
        "2\tk c\n",
        "desq: nodes 3 parts 1 candidates 0\n",
    ),
    (
        "--support=2 (a)(b) f",
        "",
        "a b\nb a\na b\nb a\n",
        0,
        "2\ta b\n",
        "desq: nodes 3 parts 1 candidates 0\n",
    ),
    (
        "--support=3 (a)(b) f",
        "",
        "a b\nb a\na b\nb a\n",
        0,
        "",
        "desq: nodes 0 parts 0 candidates 0\n",
    ),
    (
        "--weighted --support=3 (a)(b) f",
        "",
        "3 a b\n3 b a\n",
        0,
        "3\ta b\n",
        "desq: nodes 3 parts 1 candidates 0\n",
    ),
    (
        "--weighted --support=4 (a)(b) f",
        "",
        "3 a b\n3 b a\n",
        0,
        "",
        "desq: nodes 0 parts 0 candidates 0\n",
    ),
    (
        "--weighted --support=5 .*(.).* f",
        "",
        "5 a b\n3 a c\n1 a\n",
        0,
        "9\ta\n5\tb\n",
        "desq: nodes 4 parts 2 candidates 0\n",
    ),
    (
        "--weighted --support=6 .*(.).* f",
        "",
        "5 a b\n3 a c\n1 a\n",
        0,
        "9\ta\n",
        "desq: nodes 2 parts 1 candidates 0\n",
    ),
    (
        "--weighted --support=1 (a)[(b)|.] f",
        "",
        "9 b\n1 a\n1 a\n1 a b\n",
        0,
        "1\ta\n1\ta b\n",
        "desq: nodes 3 parts 1 candidates 0\n",
    ),
];

const SPLITS: &[&str] = &[
    "--stats --engine=pivot",
    "--stats --engine=pivot --simulate=3",
];

#[test]
fn splits_by_pivots(rt: HostRuntime) {
    assert_eq!(rt; first_wrong_by(&rt, rt.alloc(), SPLITS, SPLIT), Ok(None));
}

// Of weights 5, 3 and 1 the `c` has less than 5 in all, and the `b` has 5: the lines have the candidates `a`
// and `b`; `a`; `a`.
const COUNTED: &[Case] = &[
    (
        "--support=2 --hierarchy h .*(A)[(.^)|.]*(b).* f",
        HIERARCHY,
        SEQUENCES,
        0,
        ANSWER,
        "desq: nodes 0 parts 0 candidates 13\n",
    ),
    (
        "--weighted --support 5 .*(.).* f",
        "",
        "5 a b\n3 a c\n1 a\n",
        0,
        "9\ta\n5\tb\n",
        "desq: nodes 0 parts 0 candidates 4\n",
    ),
    (
        "--weighted --support 1 (b) f",
        "",
        "5 a b\n3 a c\n1 a\n",
        0,
        "",
        "desq: nodes 0 parts 0 candidates 0\n",
    ),
];

const COUNTS: &[&str] = &[
    "--stats --engine=count",
    "--stats --engine=count --workers=1",
    "--stats --engine=count --workers=64",
];

#[test]
fn any_number_of_workers_counts_the_same(rt: HostRuntime) {
    assert_eq!(rt; first_wrong_by(&rt, rt.alloc(), COUNTS, COUNTED), Ok(None));
}

/// Words, the answer on 300 lines of an `a` and a `b`, and the number of candidates: the lines are two
/// blocks, of which the second has fewer.
const BLOCKS: &[(&str, &str, &str)] = &[
    (
        "--stats --engine=count --support 300 --workers 1 (a)(b) f",
        "300\ta b\n",
        "desq: nodes 0 parts 0 candidates 300\n",
    ),
    (
        "--stats --engine=count --support 300 --workers 64 (a)(b) f",
        "300\ta b\n",
        "desq: nodes 0 parts 0 candidates 300\n",
    ),
    (
        "--stats --engine=count --support 301 --workers 2 (a)(b) f",
        "",
        "desq: nodes 0 parts 0 candidates 0\n",
    ),
];

/// The first words that leave something else on the lines.
fn first_wrong_on<R: Threads + Wait + Sync>(
    rt: &R,
    alloc: Global,
    lines: &str,
) -> Result<Option<&'static str>, NoMemory> {
    for (words, out, err) in BLOCKS {
        let left = Left {
            status: 0,
            out,
            err,
        };
        if !leaves(rt, alloc, words, of_sequences(lines), left)? {
            return Ok(Some(*words));
        }
    }
    Ok(None)
}

fn first_wrong_of_blocks<R: Threads + Wait + Sync>(
    rt: &R,
    alloc: Global,
) -> Result<Option<&'static str>, NoMemory> {
    let lines = "a b\n".repeat(alloc, 300)?;
    first_wrong_on(rt, alloc, lines.as_str())
}

#[test]
fn more_sequences_than_a_block_holds_are_all_counted(rt: HostRuntime) {
    assert_eq!(rt; first_wrong_of_blocks(&rt, rt.alloc()), Ok(None));
}

// Two sets with one pivot, one of which two sequences have; equal sequences with a set for each of two
// pivots; sets that have nothing in common, so that no row is found; sequences with one set, though they
// differ; a pivot whose sequences weigh just enough, and too little; sequences that have no candidate.
const SETS: &[Case] = &[
    (
        "--support=2 --hierarchy h .*(A)[(.^)|.]*(b).* f",
        HIERARCHY,
        SEQUENCES,
        0,
        ANSWER,
        "desq: nodes 0 parts 2 candidates 0\n",
    ),
    (
        "--support=2 (a)[(b)|.] f",
        "",
        "a b\na b\n",
        0,
        "2\ta\n2\ta b\n",
        "desq: nodes 0 parts 2 candidates 0\n",
    ),
    (
        "--support=2 (.)(.) f",
        "",
        "a b\nb a\n",
        0,
        "",
        "desq: nodes 0 parts 2 candidates 0\n",
    ),
    (
        "--support=3 .*(a)(b).* f",
        "",
        "a b\na b a b\nx a b\na c\n",
        0,
        "3\ta b\n",
        "desq: nodes 0 parts 1 candidates 0\n",
    ),
    (
        "--weighted --support=5 .*(.).* f",
        "",
        "5 a b\n3 a c\n1 a\n",
        0,
        "9\ta\n5\tb\n",
        "desq: nodes 0 parts 2 candidates 0\n",
    ),
    (
        "--weighted --support=6 .*(.).* f",
        "",
        "5 a b\n3 a c\n1 a\n",
        0,
        "9\ta\n",
        "desq: nodes 0 parts 1 candidates 0\n",
    ),
    (
        "--support=1 .* f",
        "",
        "a b\na b\n\n",
        0,
        "",
        "desq: nodes 0 parts 0 candidates 0\n",
    ),
    (
        "--support=1 (.) f",
        "",
        "",
        0,
        "",
        "desq: nodes 0 parts 0 candidates 0\n",
    ),
];

const SET_COUNTS: &[&str] = &[
    "--stats --engine=cand",
    "--stats --engine=cand --workers=1",
    "--stats --engine=cand --workers=64",
];

#[test]
fn any_number_of_workers_counts_the_same_sets(rt: HostRuntime) {
    assert_eq!(rt; first_wrong_by(&rt, rt.alloc(), SET_COUNTS, SETS), Ok(None));
}
