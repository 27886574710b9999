//! Reads a sequence file.
#![tactic(auto)]

mod block;
mod cutting;
mod joining;
mod piece;
mod pieces;
mod reading;
mod sequence_fault;
mod weighing;

pub use reading::read;
pub use sequence_fault::SequenceFault;
