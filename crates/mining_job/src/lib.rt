//! A mining problem: the sequences with their hierarchy, the transducer of the expression, the ranks and the
//! threshold, and the parts that a pivot makes of it.
#![tactic(auto)]

mod bound;
mod job;
mod part_seed;

pub use bound::Bound;
pub use job::Job;
pub use part_seed::PartSeed;
