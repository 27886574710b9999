//! The pivots of sequences, which are the greatest ranks of their patterns, and the split of a job into the
//! parts of its pivots.
#![tactic(auto)]

mod edges;
mod finding;
mod marks;
mod merging;
mod pairs;
mod pieces;
mod pivots;
mod reading;
mod splitting;
mod table;
mod weighing;

pub use merging::merge_pivots;
pub use pivots::{Pivots, pivots_of};
pub use splitting::{split, split_alone};
