//! Progress of a long run, for eyes alone: how much is done, on one line of the terminal behind standard
//! error.

use command_line::{Engine, read_words};
use mine_model::Gate;
use std::io::{IsTerminal, Write};
use std::sync::atomic::{AtomicU64, Ordering};
use std::time::Instant;
use text_ports::{Failed, Sink};

/// Milliseconds that a run takes before its first line.
const QUIET: u64 = 1000;

/// Milliseconds from one line to the next, at least.
const PAUSE: u64 = 100;

/// A worker tells what it has done in each of its first rounds, so many, and then once in so many rounds.
const ROUNDS: u64 = 64;

/// Takes away the line in which the cursor stands.
const CLEAR: &[u8] = b"\r\x1b[K";

/// The gate that counts what the workers have done, and after the first second shows the count, at most ten
/// times a second, on one line that is written over itself. Where standard error is no terminal it writes
/// nothing.
#[derive(Drop)]
pub(crate) struct Progress<'a> {
    rt: &'a HostRuntime,
    /// When the run began. None where nothing is to be shown.
    start: Option<Instant>,
    /// What is counted.
    what: &'static str,
    /// How much of it was told by the workers.
    done: AtomicU64,
    /// Milliseconds from the start before which no more is shown.
    due: AtomicU64,
    /// 1 where a line stands on the terminal, else 0.
    stands: AtomicU64,
}

/// What a worker has done once more in each round.
fn what_is_done(rt: &HostRuntime, words: &[String]) -> &'static str {
    match read_words(rt.alloc(), words) {
        Ok(Some(command)) => match command.engine {
            Engine::Count => "blocks gone over",
            Engine::Dfs | Engine::Pivot => "nodes grown",
            Engine::Cand => "parts counted",
        },
        _ => "steps done",
    }
}

/// The time, where it can be told and standard error is a terminal.
fn time_to_show(rt: &HostRuntime) -> Option<Instant> {
    if rt.stderr().is_terminal() {
        Instant::now(rt).ok()
    } else {
        None
    }
}

impl<'a> Progress<'a> {
    /// The gate of a run of these words, which begins now.
    pub(crate) fn new(rt: &'a HostRuntime, words: &[String]) -> Progress<'a> {
        let start = time_to_show(rt);
        let what = if start.is_some() {
            what_is_done(rt, words)
        } else {
            ""
        };
        Progress {
            rt,
            start,
            what,
            done: AtomicU64::new(0),
            due: AtomicU64::new(QUIET),
            stands: AtomicU64::new(0),
        }
    }

    /// Whether so long after the start a line is due. It is due to one caller alone.
    fn is_due(&self, start: Instant) -> bool {
        let Ok(gone) = start.elapsed(self.rt) else {
            return false;
        };
        let now = u64::try_from(gone.as_millis()).unwrap_or(u64::MAX);
        let due = self.due.load(Ordering::SeqCst);
        now >= due
            && self
                .due
                .compare_exchange(
                    due,
                    now.saturating_add(PAUSE),
                    Ordering::SeqCst,
                    Ordering::SeqCst,
                )
                .is_ok()
    }

    /// Writes the line over what stands there. Without memory for it, there is none.
    fn show(&self, done: u64) {
        let what = self.what;
        if let Ok(line) = format!(in self.rt.alloc(); "\rdesq: {done} {what}\x1b[K") {
            self.stands.store(1, Ordering::SeqCst);
            let _ = self.rt.stderr().write(line.as_bytes());
        }
    }

    /// Takes the line away, where one stands.
    pub(crate) fn clear(&self) {
        if self.stands.swap(0, Ordering::SeqCst) == 1 {
            let _ = self.rt.stderr().write(CLEAR);
        }
    }
}

impl<'a> Gate for Progress<'a> {
    fn pass(&self, _worker: u32, round: u64) {
        let Some(start) = self.start else {
            return;
        };
        if round <= ROUNDS || round % ROUNDS == 0 {
            let more = rounds_since(round);
            let before = self.done.fetch_add(more, Ordering::SeqCst);
            if self.is_due(start) {
                self.show(before.saturating_add(more));
            }
        }
    }
}

/// How many rounds a worker has done that it has not told, where it tells them at the beginning of this one.
fn rounds_since(round: u64) -> u64 {
    match round {
        0 => 0,
        1..=ROUNDS => 1,
        _ => ROUNDS,
    }
}

/// A sink before whose bytes the line of progress is taken away.
#[derive(Drop)]
pub(crate) struct Cleared<'a, S> {
    progress: &'a Progress<'a>,
    sink: S,
}

impl<'a, S: Sink> Cleared<'a, S> {
    pub(crate) fn new(progress: &'a Progress<'a>, sink: S) -> Cleared<'a, S> {
        Cleared { progress, sink }
    }
}

impl<'a, S: Sink> Sink for Cleared<'a, S> {
    ghost written = { λ cleared. S.written cleared.sink };

    ghost faults = { λ cleared. S.faults cleared.sink };

    fn write(&mut self, piece: &[u8]) -> Result<usize, Failed> {
        self.progress.clear();
        self.sink.write(piece)
    }
}
