use node_pool::{Seat, Task};
use result_board::Board;
use turn_lock::Pass;

/// What a worker has to itself: its seat in the pool, and its pass for the board.
#[derive(Drop)]
pub struct Worker<T: Task> {
    pub seat: Seat<T>,
    pub pass: Pass<Board>,
}
