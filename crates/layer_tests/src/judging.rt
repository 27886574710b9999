//! Paths, and proofs of answers.
ghost use Rattle.std.specs.Prelude.{◌≢◌, true, [], IfOk, IsTrue, All};
ghost use Rattle.mine_model.specs.Names.{HasName};
ghost use Rattle.mine_model.specs.Text.{is_name_byte};
ghost use Rattle.mine_model.specs.Tokens.{Each};
ghost use Rattle.pattern_proof.specs.ProofLines.{AreFileNames};

use super::data::{A1, B, C, Shape, WORDS, job};
use fst_compile::State;
use item_names::Names;
use mine_model::{Item, NoMemory, Row};
use mining_job::Job;
use pattern_proof::{ProofFault, checks, read_proof};
use std::alloc::Global;
use std::thread::Threads;
use text_ports::{MemFile, MemFiles};

/// `a1 b` twice, and `a1 c`.
pub(crate) const PAIRS: [(u64, &[Item]); 3] = [(1, &[A1, B]), (1, &[A1, B]), (1, &[A1, C])];

/// Whether these bytes are a name of a file.
fn is_name(bytes: &[u8]) -> bool
    ensures { IsTrue result → (bytes.now ≢ []) × Each is_name_byte true bytes.now }
{
    for byte in bytes {
        if *byte <= b' ' || *byte == 127 {
            return false;
        }
    }
    !bytes.is_empty()
}

/// The names of the items.
pub(crate) fn file_names(alloc: Global) -> Result<Names, NoMemory>
    ensures { IfOk result AreFileNames }
{
    let mut names = Names::new(alloc)?;
    for word in &WORDS {
        let bytes = word.as_bytes();
        if !is_name(bytes) {
            return Err(NoMemory);
        }
        match names.intern(bytes) {
            Ok(_) => {}
            Err(_) => return Err(NoMemory),
        }
    }
    // No two of them are the same.
    let _count = names.count();
    Ok(names)
}

/// Whether each of the items has a name.
fn have_names(items: &[Item], names: &Names) -> bool
    ensures { IsTrue result → All (HasName names.now) items.now }
{
    for item in items {
        if item.0 >= names.count() {
            return false;
        }
    }
    true
}

/// Whether each item of the rows has a name.
pub(crate) fn are_named(rows: &[Row], names: &Names) -> bool
    ensures { IsTrue result → All (λ row. All (HasName names.now) row.pattern) rows.now }
{
    for row in rows {
        if !have_names(row.pattern.items(), names) {
            return false;
        }
    }
    true
}

/// The file `f` with this text.
fn one_file(alloc: Global, text: &str) -> Result<MemFiles, NoMemory> {
    let file = MemFile {
        name: Vec::from_slice(alloc, b"f")?,
        bytes: Vec::from_slice(alloc, text.as_bytes())?,
    };
    Ok(MemFiles::new(vec![in alloc; file]?, Vec::new(alloc), 5))
}

/// What is said of a proof file with this text.
pub(crate) fn judged(
    alloc: Global,
    job: &Job,
    text: &str,
) -> Result<Result<u64, ProofFault>, NoMemory> {
    let names = file_names(alloc)?;
    let mut files = one_file(alloc, text)?;
    Ok(read_proof(alloc, &mut files, "f", job, &names))
}

/// Texts of proofs of `.*(a1)(b).*` over the pairs, with how many rows they have or why they are refused.
const JUDGED: &[(&str, Result<u64, ProofFault>)] = &[
    ("", Ok(0)),
    ("2\ta1 b\n\t1 2 3\n\t2 2 3\n", Ok(1)),
    ("002\ta1 b\r\n\t01 002 3\r\n\t2 2 03\r", Ok(1)),
    ("\u{feff}2\ta1 b\n\t1 2 3\n\t2 2 3", Ok(1)),
    (
        "2\ta1 b\n\t1 2 3\n\t2 2 4\n",
        Err(ProofFault::BadProof { line: 3 }),
    ),
    ("2\ta1 b\n\t1 2 3\n", Err(ProofFault::BadProof { line: 1 })),
    (
        "2\ta1 b\n\t1 2 3\n\t1 2 3\n",
        Err(ProofFault::BadProof { line: 3 }),
    ),
    (
        "2\ta1 b\n\t2 2 3\n\t1 2 3\n",
        Err(ProofFault::BadProof { line: 3 }),
    ),
    (
        "3\ta1 b\n\t1 2 3\n\t2 2 3\n",
        Err(ProofFault::BadProof { line: 1 }),
    ),
    (
        "1\ta1 b\n\t1 2 3\n\t2 2 3\n",
        Err(ProofFault::BadProof { line: 1 }),
    ),
    (
        "2\tb a1\n\t1 2 3\n\t2 2 3\n",
        Err(ProofFault::BadProof { line: 2 }),
    ),
    (
        "2\ta1  b\n\t1 2 3\n\t2 2 3\n",
        Err(ProofFault::BadProof { line: 1 }),
    ),
    (
        "2\ta1 y\n\t1 2 3\n\t2 2 3\n",
        Err(ProofFault::BadProof { line: 1 }),
    ),
    (
        "2\ta1 b\n\t1 2\n\t2 2 3\n",
        Err(ProofFault::BadProof { line: 2 }),
    ),
    (
        "2\ta1 b\n\t1 2 3 4\n\t2 2 3\n",
        Err(ProofFault::BadProof { line: 2 }),
    ),
    (
        "2\ta1 b\n\t0 2 3\n\t2 2 3\n",
        Err(ProofFault::BadProof { line: 2 }),
    ),
    ("2\ta1 b\n\t3 2 3\n", Err(ProofFault::BadProof { line: 2 })),
    (
        "2\ta1 b\n\t1 2 3\n\t2 2 3 \n",
        Err(ProofFault::BadProof { line: 3 }),
    ),
    ("\t1 2 3\n", Err(ProofFault::BadProof { line: 1 })),
    (
        "2\ta1 b\n\t1 2 3\n\t2 2 3\n\n",
        Err(ProofFault::BadProof { line: 4 }),
    ),
    (
        "2\ta1 b\n\t1 2 3\n\t2 2 3\n2\ta1 b\n\t1 2 3\n\t2 2 3\n",
        Err(ProofFault::BadProof { line: 4 }),
    ),
    (
        "2\ta1 b\n\t1 2 3\n\u{1}",
        Err(ProofFault::BadByte { line: 3, column: 1 }),
    ),
];

/// The first text of which something else is said.
fn wrong_of(alloc: Global, job: &Job) -> Result<Option<&'static str>, NoMemory> {
    for (text, want) in JUDGED {
        if judged(alloc, job, text)? != *want {
            return Ok(Some(*text));
        }
    }
    Ok(None)
}

fn first_wrong<T: Threads + Sync>(rt: &T, alloc: Global) -> Result<Option<&'static str>, NoMemory> {
    let job = job(rt, alloc, Shape::Pair, &PAIRS, 1, 2)?;
    wrong_of(alloc, &job)
}

#[test]
fn proofs_are_good_or_refused(rt: HostRuntime) {
    assert_eq!(rt; first_wrong(&rt, rt.alloc()), Ok(None));
}

/// Whether the states are a path over the sequence with this number that writes the pattern.
fn is_path(job: &Job, seq: u32, pattern: &[Item], path: &[State]) -> bool {
    seq < job.db().sequences() && checks(job, seq, pattern, path)
}

/// The number of a sequence, a pattern, states, and whether they are a path that writes it.
const CHECKED: &[(u32, &[Item], &[State], bool)] = &[
    (0, &[A1, B], &[State(2), State(3)], true),
    (1, &[A1, B], &[State(2), State(3)], true),
    (2, &[A1, B], &[State(2), State(3)], false),
    (0, &[A1, B], &[], false),
    (0, &[A1, B], &[State(2)], false),
    (0, &[A1, B], &[State(1), State(4)], false),
    (0, &[A1, B], &[State(2), State(4)], false),
    (0, &[A1, B], &[State(3), State(2)], false),
    (0, &[A1, B], &[State(2), State(4_294_967_295)], false),
    (0, &[A1, B, B], &[State(2), State(3)], false),
];

/// The number of the first states of which something else is found.
fn wrong_path_of(job: &Job) -> Option<usize> {
    for (number, (seq, pattern, path, want)) in CHECKED.iter().enumerate() {
        if is_path(job, *seq, pattern, path) != *want {
            return Some(number);
        }
    }
    None
}

fn first_wrong_path<T: Threads + Sync>(rt: &T, alloc: Global) -> Result<Option<usize>, NoMemory> {
    let job = job(rt, alloc, Shape::Pair, &PAIRS, 1, 2)?;
    Ok(wrong_path_of(&job))
}

#[test]
fn paths_are_checked(rt: HostRuntime) {
    assert_eq!(rt; first_wrong_path(&rt, rt.alloc()), Ok(None));
}
