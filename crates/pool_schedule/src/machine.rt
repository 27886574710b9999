//! The machine.
ghost use Rattle.std.specs.Prelude.{◌≡◌, ◌≢◌, ◌≤◌, ◌↔◌, ℕ, Some, List, All, IsTrue, IfOk, length, slice_get};
ghost use Rattle.pool_schedule.specs.Worker.{HasNothing};

use crate::event::Event;
use crate::labels::Labels;
use crate::worker::{Stage, Worker};
use mine_model::{NoMemory, Row};
use search_tree::Grow;
use std::alloc::Global;

/// What was posted: the labels of the grown nodes, and the rows of those that have one, in one order.
#[derive(Drop)]
pub struct Posted {
    pub labels: Labels,
    pub rows: Vec<Row>,
}

/// Workers with the nodes that they share, and what they have posted so far.
#[derive(Drop)]
pub struct Machine<N> {
    pub(crate) workers: Vec<Worker<N>>,
    pub(crate) posted: Posted,
    ghost few: { length workers.items ≤ 64 },
}

/// Whether no worker has anything.
fn are_idle<N: Drop>(workers: &[Worker<N>]) -> bool
    ensures { IsTrue result ↔ All HasNothing workers.now }
{
    workers.iter().all(|worker| worker.is_idle())
}

impl<N: Drop> Machine<N> {
    ghost use Rattle.pool_schedule.specs.State.{start, IsBalanced};
    ghost use Rattle.pool_schedule.specs.Steps.{IsQuiet};
    ghost use Rattle.pool_schedule.specs.Machine.{seen, IsOwned, HasRows, MayStep};
    ghost use Rattle.pool_schedule.specs.Worker.{IsAt, IsFilled};
    ghost use Rattle.pool_schedule.specs.declared.worker.Worker.{Worker};

    /// A machine of 1 to 64 workers with all roots in the deque of worker 0.
    pub fn new<G: Grow<Node = N>>(
        alloc: Global,
        g: &G,
        workers: u32,
    ) -> Result<Machine<N>, NoMemory>
        requires some { 1 ≤ workers }
        requires few { workers ≤ 64 }
        ensures start { IfOk result (λ machine.
            seen (G.label_of g.now) machine ≡ start (G.roots_of g.now) workers) }
        ensures own { IfOk result (IsOwned (G.IsOwn g.now)) }
        ensures rows { IfOk result (HasRows (G.row_of g.now)) }
        ensures balance { IfOk result (λ machine.
            IsBalanced (G.roots_of g.now) (G.kids_of g.now) (seen (G.label_of g.now) machine)) }
    {
        let mut all = Vec::with_capacity(alloc, workers as usize)?;
        all.push(Worker::new(alloc, g.roots(alloc)?))?;
        for _ in 1..workers {
            all.push(Worker::new(alloc, Vec::new(alloc)))?;
        }
        let posted = Posted {
            labels: Labels::new(alloc),
            rows: Vec::new(alloc),
        };
        Ok(Machine {
            workers: all,
            posted,
        })
    }

    /// Whether no event is enabled. Takes no memory.
    pub fn quiet(&self) -> bool
        ensures { (label : N → List ℕ) (kids : List ℕ → List (List ℕ)) →
            IsTrue result ↔ IsQuiet kids (seen label self.now) }
    {
        are_idle(self.workers.as_slice())
    }

    /// Whether there is such a worker at this stage.
    fn is_at(&self, w: u32, stage: Stage) -> bool
        ensures { IsTrue result ↔
            ((worker : Worker N) × (slice_get self.now.workers.items w ≡ Some worker) × IsAt worker stage) }
    {
        let Some(worker) = self.workers.get(w as usize) else {
            return false;
        };
        worker.stage() == stage
    }

    /// Whether there is such a worker and its deque holds something.
    fn is_filled(&self, w: u32) -> bool
        ensures { IsTrue result ↔
            ((worker : Worker N) × (slice_get self.now.workers.items w ≡ Some worker) × IsFilled worker) }
    {
        let Some(worker) = self.workers.get(w as usize) else {
            return false;
        };
        !worker.deque.is_empty()
    }

    /// Whether `from` is another worker than `w`, and its deque holds something.
    fn is_victim(&self, from: u32, w: u32) -> bool
        ensures { IsTrue result ↔ ((from ≢ w) ×
            ((worker : Worker N) × (slice_get self.now.workers.items from ≡ Some worker) × IsFilled worker)) }
    {
        from != w && self.is_filled(from)
    }

    /// Whether the event is enabled.
    pub(crate) fn enables(&self, event: Event) -> bool
        ensures { IsTrue result ↔ MayStep event self.now.workers.items }
    {
        match event {
            Event::Post { w } => self.is_at(w, Stage::Pending),
            Event::Grow { w } => self.is_at(w, Stage::Busy),
            Event::Put { w } => self.is_at(w, Stage::Busy),
            Event::Take { w } => self.is_at(w, Stage::Free) && self.is_filled(w),
            Event::Steal { w, from } => self.is_at(w, Stage::Free) && self.is_victim(from, w),
        }
    }

    /// What was posted.
    pub(crate) fn into_posted(self) -> Posted
        ensures { result ≡ self.posted }
    {
        let Machine { workers: _, posted } = self;
        posted
    }
}
