//! Runs over files and sinks in memory, and what they leave.

ghost use Rattle.std.specs.Prelude.{◌<◌};

use desq_run::run;
use mine_model::{Gate, NoMemory, OpenGate};
use std::alloc::Global;
use std::sync::Wait;
use std::thread::Threads;
use text_ports::{MemFile, MemFiles, MemSink};

/// The running example: two kinds of an A, five sequences, and its patterns of support 2.
pub(crate) const HIERARCHY: &str = "a1 A\na2 A\n";

pub(crate) const SEQUENCES: &str = "a1 c d c b\ne e a1 e a1 e b\nc d c b\na2 d b\na1 a1 b\n";

pub(crate) const ANSWER: &str = "3\ta1 b\n2\ta1 A b\n2\ta1 a1 b\n";

/// Words with one blank between, the files `h` and `f`, and what a run leaves: its status, output and error
/// output.
pub(crate) type Case = (
    &'static str,
    &'static str,
    &'static str,
    u8,
    &'static str,
    &'static str,
);

/// What a run leaves behind.
#[derive(Clone, Copy)]
pub(crate) struct Left<'a> {
    pub(crate) status: u8,
    pub(crate) out: &'a str,
    pub(crate) err: &'a str,
}

/// Which calls fail, of the files, of out and of err, and how many bytes a call takes at most. Calls are
/// counted from 1, so with 0 none fails.
#[derive(Clone, Copy)]
pub(crate) struct Faults {
    pub(crate) files: u64,
    pub(crate) out: u64,
    pub(crate) err: u64,
    pub(crate) cut: usize,
}

pub(crate) const NO_FAULTS: Faults = Faults {
    files: 0,
    out: 0,
    err: 0,
    cut: 100_000,
};

pub(crate) fn words_of(alloc: Global, words: &str) -> Result<Vec<String>, NoMemory> {
    let mut all = Vec::new(alloc);
    for word in words.split(' ') {
        all.push(String::from_str(alloc, word)?)?;
    }
    Ok(all)
}

pub(crate) fn file(alloc: Global, name: &[u8], bytes: &[u8]) -> Result<MemFile, NoMemory> {
    Ok(MemFile {
        name: Vec::from_slice(alloc, name)?,
        bytes: Vec::from_slice(alloc, bytes)?,
    })
}

/// What the files `h`, `f` and `p` hold.
#[derive(Clone, Copy)]
pub(crate) struct Held<'a> {
    pub(crate) hierarchy: &'a str,
    pub(crate) sequences: &'a str,
    pub(crate) proof: &'a str,
}

/// The files that hold these sequences alone.
pub(crate) fn of_sequences(sequences: &str) -> Held<'_> {
    Held {
        hierarchy: "",
        sequences,
        proof: "",
    }
}

/// The files of the running example.
pub(crate) const RUNNING: Held<'static> = Held {
    hierarchy: HIERARCHY,
    sequences: SEQUENCES,
    proof: "",
};

/// The files `h`, `f` and `p`, of which this call fails.
fn files_of(alloc: Global, held: Held<'_>, fail: u64, cut: usize) -> Result<MemFiles, NoMemory>
    requires { 0 < cut }
{
    let above = file(alloc, b"h", held.hierarchy.as_bytes())?;
    let mined = file(alloc, b"f", held.sequences.as_bytes())?;
    let files = vec![in alloc; above, mined, file(alloc, b"p", held.proof.as_bytes())?]?;
    Ok(MemFiles::new(files, vec![in alloc; fail]?, cut))
}

fn sink(alloc: Global, room: usize, fail: u64, cut: usize) -> Result<MemSink, NoMemory>
    requires { 0 < cut }
{
    Ok(MemSink::new(alloc, room, cut, vec![in alloc; fail]?)?)
}

/// Whether a run by the words over these files, with these sinks and through this gate, leaves this.
fn leaves_in<R: Threads + Wait + Sync, G: Gate>(
    rt: &R,
    alloc: Global,
    words: &[String],
    files: &mut MemFiles,
    out: &mut MemSink,
    err: &mut MemSink,
    gate: &G,
    left: Left<'_>,
) -> bool {
    let status = run(rt, alloc, words, files, out, err, gate);
    status == left.status
        && out.bytes() == left.out.as_bytes()
        && err.bytes() == left.err.as_bytes()
}

/// Whether a run by the words on these files, with these faults and through this gate, leaves this.
pub(crate) fn leaves_through<R: Threads + Wait + Sync, G: Gate>(
    rt: &R,
    alloc: Global,
    words: &str,
    held: Held<'_>,
    faults: Faults,
    gate: &G,
    left: Left<'_>,
) -> Result<bool, NoMemory> {
    let cut = faults.cut.max(1);
    let words = words_of(alloc, words)?;
    let mut files = files_of(alloc, held, faults.files, cut)?;
    let mut out = sink(alloc, 100_000, faults.out, cut)?;
    let mut err = sink(alloc, 200, faults.err, cut)?;
    Ok(leaves_in(
        rt,
        alloc,
        words.as_slice(),
        &mut files,
        &mut out,
        &mut err,
        gate,
        left,
    ))
}

/// The same through an open gate.
pub(crate) fn leaves_with<R: Threads + Wait + Sync>(
    rt: &R,
    alloc: Global,
    words: &str,
    held: Held<'_>,
    faults: Faults,
    left: Left<'_>,
) -> Result<bool, NoMemory> {
    leaves_through(rt, alloc, words, held, faults, &OpenGate, left)
}

/// The same with no fault.
pub(crate) fn leaves<R: Threads + Wait + Sync>(
    rt: &R,
    alloc: Global,
    words: &str,
    held: Held<'_>,
    left: Left<'_>,
) -> Result<bool, NoMemory> {
    leaves_with(rt, alloc, words, held, NO_FAULTS, left)
}

/// The words of the first case that leaves something else, with these words before its own.
pub(crate) fn first_wrong<R: Threads + Wait + Sync>(
    rt: &R,
    alloc: Global,
    before: &str,
    cases: &[Case],
) -> Result<Option<&'static str>, NoMemory> {
    for (words, hierarchy, sequences, status, out, err) in cases {
        let all = format!(in alloc; "{before} {words}")?;
        let held = Held {
            hierarchy,
            sequences,
            proof: "",
        };
        let left = Left {
            status: *status,
            out,
            err,
        };
        if !leaves(rt, alloc, all.as_str(), held, left)? {
            return Ok(Some(*words));
        }
    }
    Ok(None)
}

/// The first words of these, before those of the cases, by which a case leaves something else, and its words.
pub(crate) fn first_wrong_by<R: Threads + Wait + Sync>(
    rt: &R,
    alloc: Global,
    befores: &[&'static str],
    cases: &[Case],
) -> Result<Option<(&'static str, &'static str)>, NoMemory> {
    for before in befores {
        if let Some(words) = first_wrong(rt, alloc, before, cases)? {
            return Ok(Some((*before, words)));
        }
    }
    Ok(None)
}

/// Calls of the files, from one to another, and what is left where one of them fails.
pub(crate) type FailedCalls = (usize, usize, Left<'static>);

/// The first of the calls that leaves something else where it fails, and takes at most so many bytes.
pub(crate) fn first_wrong_read<R: Threads + Wait + Sync>(
    rt: &R,
    alloc: Global,
    words: &str,
    held: Held<'_>,
    cut: usize,
    calls: &[FailedCalls],
) -> Result<Option<usize>, NoMemory> {
    for (from, to, left) in calls {
        for call in *from..=*to {
            let faults = Faults {
                files: call as u64,
                cut,
                ..NO_FAULTS
            };
            if !leaves_with(rt, alloc, words, held, faults, *left)? {
                return Ok(Some(call));
            }
        }
    }
    Ok(None)
}

/// The number of the first byte of the answer that leaves something else where its write fails: each leaves
/// those before it.
pub(crate) fn first_wrong_write<R: Threads + Wait + Sync>(
    rt: &R,
    alloc: Global,
    words: &str,
    held: Held<'_>,
    answer: &str,
) -> Result<Option<usize>, NoMemory> {
    for (before, _) in answer.as_bytes().iter().enumerate() {
        let faults = Faults {
            out: before as u64 + 1,
            cut: 1,
            ..NO_FAULTS
        };
        let left = Left {
            status: 6,
            out: answer.get(..before).unwrap_or(answer),
            err: "desq: write fault\n",
        };
        if !leaves_with(rt, alloc, words, held, faults, left)? {
            return Ok(Some(before));
        }
    }
    Ok(None)
}
