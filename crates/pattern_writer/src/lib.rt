//! The answer as text: its rows in order, and their lines, written through a room that the caller lends.
//! Nothing here takes memory.
#![tactic(auto)]

mod ordering;
mod write_fault;
mod writing;

pub use ordering::order;
pub use write_fault::WriteFault;
pub use writing::{hand_over, put, put_line, write};
