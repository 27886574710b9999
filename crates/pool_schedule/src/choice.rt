//! Which event a choice picks. The enabled events are counted by worker, and no list of them is made.
ghost use Rattle.std.specs.Prelude.{◌≡◌, ◌<◌, ◌≤◌, ℕ, List, [], Some, MatchOption};
ghost use Rattle.std.specs.Prelude.{count_by, length, map, slice_get, sum_by};
ghost use Rattle.pool_schedule.specs.Worker.{is_filled, events_by};
ghost use Rattle.pool_schedule.specs.Schedule.{enabled, events_of, listed, steals, Picks};
ghost use Rattle.pool_schedule.specs.Machine.{load, seen};
ghost use Rattle.pool_schedule.specs.declared.worker.Worker.{Worker};

use crate::event::Event;
use crate::machine::Machine;
use crate::worker::{Stage, Worker};

/// How many events of the worker are enabled, where this many deques hold something.
fn events_of_worker<N: Drop>(worker: &Worker<N>, filled: usize) -> usize
    ensures { result ≡ events_by filled worker.now }
{
    match worker.stage() {
        Stage::Pending => 1,
        Stage::Busy => 2,
        // A deque that holds something gives it one event, its own a take, another's a steal.
        Stage::Free => filled,
    }
}

/// How many deques hold something.
fn filled_deques<N: Drop>(workers: &[Worker<N>]) -> usize
    ensures { result ≡ count_by is_filled workers.now }
{
    workers
        .iter()
        .filter(|worker| !worker.deque.is_empty())
        .count()
}

/// How many events are enabled.
fn enabled_events<N: Drop>(workers: &[Worker<N>], filled: usize) -> usize
    requires few { length workers.now ≤ 64 }
    requires filled { filled ≤ 64 }
    ensures { result ≡ sum_by (events_by filled) workers.now }
{
    let mut count = 0;
    for worker in workers {
        count += events_of_worker(worker, filled);
    }
    count
}

/// The steal of `w` with this number among its steals.
fn theft<N: Drop>(workers: &[Worker<N>], w: usize, number: usize) -> Event
    requires few { length workers.now ≤ 64 }
    requires within { w < length workers.now }
    requires number { (label : N → List ℕ) → number < length (steals (map (load label) workers.now) w) }
    ensures { (label : N → List ℕ) →
        slice_get (steals (map (load label) workers.now) w) number ≡ Some result }
{
    let mut left = number;
    for (from, victim) in workers.iter().enumerate() {
        if from != w && !victim.deque.is_empty() {
            if left == 0 {
                return Event::Steal {
                    w: w as u32,
                    from: from as u32,
                };
            }
            left -= 1;
        }
    }
    unreachable!()
}

/// The event of `w` with this number among its events.
fn own_event<N: Drop>(workers: &[Worker<N>], filled: usize, w: usize, number: usize) -> Event
    requires few { length workers.now ≤ 64 }
    requires filled { filled ≡ count_by is_filled workers.now }
    requires within { w < length workers.now }
    requires number { (worker : Worker N) × (slice_get workers.now w ≡ Some worker) ×
        (number < events_by filled worker) }
    ensures { (label : N → List ℕ) → let loads = map (load label) workers.now in
        slice_get (events_of loads w (slice_get loads w)) number ≡ Some result }
{
    let worker = &workers[w];
    match worker.stage() {
        Stage::Pending => Event::Post { w: w as u32 },
        Stage::Busy if number == 0 => Event::Grow { w: w as u32 },
        Stage::Busy => Event::Put { w: w as u32 },
        Stage::Free if worker.deque.is_empty() => theft(workers, w, number),
        Stage::Free if number == 0 => Event::Take { w: w as u32 },
        Stage::Free => theft(workers, w, number - 1),
    }
}

/// The event with this number among the enabled ones.
fn numbered<N: Drop>(workers: &[Worker<N>], filled: usize, number: usize) -> Event
    requires few { length workers.now ≤ 64 }
    requires filled { filled ≡ count_by is_filled workers.now }
    requires number { number < sum_by (events_by filled) workers.now }
    ensures { (label : N → List ℕ) → slice_get (listed (map (load label) workers.now)) number ≡ Some result }
{
    let mut left = number;
    for (w, worker) in workers.iter().enumerate() {
        let events = events_of_worker(worker, filled);
        if left < events {
            return own_event(workers, filled, w, left);
        }
        left -= events;
    }
    unreachable!()
}

impl<N: Drop> Machine<N> {
    /// The event that the choice picks, where one is enabled.
    pub(crate) fn chosen(&self, choice: u64) -> Option<Event>
        ensures { (label : N → List ℕ) → MatchOption result (enabled (seen label self.now) ≡ [])
            (Picks (enabled (seen label self.now)) choice) }
    {
        let workers = self.workers.as_slice();
        let filled = filled_deques(workers);
        let count = enabled_events(workers, filled);
        if count == 0 {
            return None;
        }
        Some(numbered(workers, filled, (choice % count as u64) as usize))
    }
}
