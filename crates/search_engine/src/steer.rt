//! What steers the workers of a search.

use std::sync::Wait;
use std::sync::atomic::{AtomicBool, AtomicU64, Ordering};
use std::thread::yield_now;
use std::time::Duration;

// A worker without a node yields so many times between two looks, and then sleeps.
const YIELDS: u32 = 16;

// How long it sleeps at first. Each later sleep is twice as long, up to so many doublings.
const FIRST_SLEEP_MICROS: u64 = 50;

const DOUBLINGS: u32 = 4;

/// Whether a worker met want of memory, and how many nodes are not posted yet. Nothing that is proved rests
/// on it: a worker that leaves early costs time alone, since the caller grows what is left over.
#[derive(Drop)]
pub struct Steer {
    stopped: AtomicBool,
    pending: AtomicU64,
}

impl Steer {
    /// For workers among whom so many roots were put. Takes no memory.
    pub fn new(roots: u64) -> Steer {
        Steer {
            stopped: AtomicBool::new(false),
            pending: AtomicU64::new(roots),
        }
    }

    /// A worker met want of memory.
    pub(crate) fn stop(&self) {
        self.stopped.store(true, Ordering::SeqCst);
        self.pending.wake_all();
    }

    pub(crate) fn is_stopped(&self) -> bool {
        self.stopped.load(Ordering::SeqCst)
    }

    /// So many kids are to be posted, too.
    pub(crate) fn expect(&self, kids: u64) {
        self.pending.fetch_add(kids, Ordering::SeqCst);
    }

    /// A node was posted, whose kids are expected.
    pub(crate) fn posted(&self) {
        if self.pending.fetch_sub(1, Ordering::SeqCst) == 1 {
            self.pending.wake_all();
        }
    }

    /// Whether all nodes are posted.
    pub(crate) fn is_done(&self) -> bool {
        self.pending.load(Ordering::SeqCst) == 0
    }

    /// Lets other threads run, and from some round on sleeps a while, longer each time.
    pub(crate) fn rest(&self, rt: &impl Wait, round: u32) {
        if round < YIELDS {
            yield_now();
            return;
        }
        let doublings = (round - YIELDS).min(DOUBLINGS);
        let sleep = Duration::from_micros(FIRST_SLEEP_MICROS << doublings);
        let seen = self.pending.load(Ordering::SeqCst);
        self.pending
            .park_timeout(rt, (seen & 0xffff_ffff) as u32, sleep);
    }
}
