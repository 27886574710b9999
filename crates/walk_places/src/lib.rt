//! What stands at the places of sequences, one sequence behind another, as a walk reads it.
#![tactic(auto)]

mod places;

pub use places::{Places, Record};
