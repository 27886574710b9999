//! One worker of the machine.
ghost use Rattle.std.specs.Prelude.{◌≡◌, ◌<◌, ◌↔◌, None, [], All, IsTrue, OnOk, length};

use mine_model::{NoMemory, Row};
use search_tree::{Grow, Label};
use std::alloc::Global;
use std::collections::VecDeque;

/// A label that was grown and is not posted yet, with its row.
#[derive(Drop)]
pub(crate) struct Pending {
    pub(crate) label: Label,
    pub(crate) row: Option<Row>,
}

/// What a worker has.
#[derive(Drop)]
pub(crate) struct Worker<N> {
    pub(crate) deque: VecDeque<N>,
    pub(crate) stack: VecDeque<N>,
    pub(crate) pending: Option<Pending>,
}

/// What a worker can go on with.
#[derive(Clone, Copy, PartialEq, Eq)]
pub(crate) enum Stage {
    /// It has a label to post.
    Pending,
    /// It has nodes in its stack.
    Busy,
    /// It has neither, and looks into the deques.
    Free,
}

impl<N: Drop> Worker<N> {
    ghost use Rattle.pool_schedule.specs.Worker.{IsAt, HasNothing, PutsNode, TakesNode, GrowsNode};

    /// A worker with these nodes in its deque. Takes no memory.
    pub(crate) fn new(alloc: Global, nodes: Vec<N>) -> Worker<N>
        ensures deque { result.deque.items ≡ nodes.items }
        ensures stack { result.stack.items ≡ [] }
        ensures pending { result.pending ≡ None }
    {
        Worker {
            deque: VecDeque::from_vec(nodes),
            stack: VecDeque::new(alloc),
            pending: None,
        }
    }

    pub(crate) fn stage(&self) -> Stage
        ensures { IsAt self.now result }
    {
        if self.pending.is_some() {
            Stage::Pending
        } else if self.stack.is_empty() {
            Stage::Free
        } else {
            Stage::Busy
        }
    }

    /// Whether it has nothing at all.
    pub(crate) fn is_idle(&self) -> bool
        ensures { IsTrue result ↔ HasNothing self.now }
    {
        self.pending.is_none() && self.stack.is_empty() && self.deque.is_empty()
    }

    /// Moves the first node of the stack to the back of the deque.
    pub(crate) fn put(&mut self) -> Result<(), NoMemory>
        requires { 0 < length self.old.stack.items }
        ensures { OnOk result (PutsNode self.old self.new) }
    {
        if let Some(node) = self.stack.pop_front() {
            self.deque.push_back(node)?;
        }
        Ok(())
    }

    /// Moves the last node of the deque into the stack.
    pub(crate) fn take(&mut self) -> Result<(), NoMemory>
        requires { 0 < length self.old.deque.items }
        ensures { OnOk result (TakesNode self.old self.new) }
    {
        if let Some(node) = self.deque.pop_back() {
            self.stack.push_back(node)?;
        }
        Ok(())
    }

    /// Grows the last node of the stack, and puts its kids there in order.
    pub(crate) fn grow<G: Grow<Node = N>>(
        &mut self,
        alloc: Global,
        g: &G,
        room: &mut G::Room,
    ) -> Result<(), NoMemory>
        requires some { 0 < length self.old.stack.items }
        requires own { All (G.IsOwn g.now) self.old.stack.items }
        requires room { G.IsRoomy g.now room.old }
        ensures room { OnOk result (G.IsRoomy g.now room.new) }
        ensures grown { OnOk result (GrowsNode
            (G.label_of g.now) (G.kids_of g.now) (G.row_of g.now) (G.IsOwn g.now) self.old self.new) }
    {
        if let Some(node) = self.stack.pop_back() {
            let grown = g.grow(alloc, node, room)?;
            self.stack.append(&mut VecDeque::from_vec(grown.kids))?;
            self.pending = Some(Pending {
                label: grown.label,
                row: grown.row,
            });
        }
        Ok(())
    }
}
