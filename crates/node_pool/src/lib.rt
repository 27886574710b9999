//! Work-stealing pools: each seat has a deque of its own, and takes the oldest tasks of the others.
#![tactic(auto)]

mod closing;
mod play;
mod rule;
mod seat;
mod setup;
mod task;
mod way;

pub use closing::finish;
pub use seat::Seat;
pub use setup::open;
pub use task::Task;
