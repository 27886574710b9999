//! A way into a deque.
ghost use Rattle.crossbeam_deque.specs.Handles.{IsPassOf, stealer_deque};

use crate::rule::{Right, Thief};
use crate::task::Task;

/// A deque that a seat may steal from, and the right to do so.
#[derive(Drop)]
pub struct Way<T: Task> {
    pub(crate) thief: Thief<T>,
    pub(crate) right: Right<T>,
    ghost there: { IsPassOf (stealer_deque thief) right },
}
