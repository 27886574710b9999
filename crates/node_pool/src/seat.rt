//! The types of a pool's seats.
ghost use Rattle.std.specs.Prelude.{◌≡◌, ◌+◌, ◌≤◌, Some, length, slice_get};
ghost use Rattle.crossbeam_deque.specs.Handles.{IsPassOf, stealer_deque, worker_deque, worker_view};
ghost use Rattle.node_pool.specs.Deques.{pool_by};
ghost use Rattle.node_pool.specs.Ways.{AreRights};

use crate::rule::Owner;
use crate::task::Task;
use crate::way::Way;

/// One worker's place in a pool: the owner's end of its own deque, and a way into each deque.
/// The way into its own deque has no part in it, and is not used.
#[derive(Drop)]
pub struct Seat<T: Task> {
    pub(crate) owner: Owner<T>,
    pub(crate) ways: Vec<Way<T>>,
    pub(crate) number: u32,
    /// Bit k stands for deque k.
    pub(crate) dry: u64,
    ghost own: { slice_get (pool_by ways.items) number ≡ Some (worker_deque owner) },
    ghost few: { length ways.items ≤ 64 },
    ghost parts: { (worker_view owner).parts + length ways.items ≡ 65 },
    ghost rights: { AreRights number (worker_view owner).known_ground ways.items },
}
