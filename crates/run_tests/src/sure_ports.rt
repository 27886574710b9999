//! Runs over files and into a sink that never fail: that no fault of theirs ends them is proved, for all
//! words and whatever the files hold.

ghost use Rattle.std.specs.Prelude.{◌≢◌, ◌<◌};

use super::runs::{SEQUENCES, file, words_of};
use desq_run::run;
use mine_model::{Gate, NoMemory, OpenGate};
use std::alloc::Global;
use std::sync::Wait;
use std::thread::Threads;
use text_ports::{Sink, SureFiles, SureSink};

/// A run over files that never fail. No fault of reading ends it.
fn run_over_sure_files<R: Threads + Wait + Sync, O: Sink, E: Sink, G: Gate>(
    rt: &R,
    alloc: Global,
    words: &[String],
    files: &mut SureFiles,
    out: &mut O,
    err: &mut E,
    gate: &G,
) -> u8
    ensures { result ≢ 5 }
{
    run(rt, alloc, words, files, out, err, gate)
}

/// A run whose answer goes into a sink that never fails. No fault of writing ends it.
fn run_into_a_sure_sink<R: Threads + Wait + Sync, E: Sink, G: Gate>(
    rt: &R,
    alloc: Global,
    words: &[String],
    files: &mut SureFiles,
    out: &mut SureSink,
    err: &mut E,
    gate: &G,
) -> u8
    ensures { result ≢ 6 }
{
    run(rt, alloc, words, files, out, err, gate)
}

fn sequences(alloc: Global) -> Result<SureFiles, NoMemory> {
    let file = file(alloc, b"f", SEQUENCES.as_bytes())?;
    Ok(SureFiles::new(vec![in alloc; file]?, 7))
}

/// What a run over files that never fail ends with.
fn status_over_files<R: Threads + Wait + Sync>(
    rt: &R,
    alloc: Global,
    words: &[String],
) -> Result<u8, NoMemory> {
    let mut files = sequences(alloc)?;
    let (out, err) = (&mut SureSink, &mut SureSink);
    Ok(run_over_sure_files(rt, alloc, words, &mut files, out, err, &OpenGate))
}

/// What a run into a sink that never fails ends with.
fn status_into_sink<R: Threads + Wait + Sync>(
    rt: &R,
    alloc: Global,
    words: &[String],
) -> Result<u8, NoMemory> {
    let mut files = sequences(alloc)?;
    let (out, err) = (&mut SureSink, &mut SureSink);
    Ok(run_into_a_sure_sink(rt, alloc, words, &mut files, out, err, &OpenGate))
}

/// The first of the two that does not end with 0, counted from 1.
fn first_fault<R: Threads + Wait + Sync>(rt: &R, alloc: Global) -> Result<Option<usize>, NoMemory> {
    let words = words_of(alloc, "--support 2 .*(b) f")?;
    let over = status_over_files(rt, alloc, words.as_slice())?;
    let into = status_into_sink(rt, alloc, words.as_slice())?;
    Ok(if over != 0 {
        Some(1)
    } else if into != 0 {
        Some(2)
    } else {
        None
    })
}

#[test]
fn ports_that_never_fail_end_no_run(rt: HostRuntime) {
    assert_eq!(rt; first_fault(&rt, rt.alloc()), Ok(None));
}
