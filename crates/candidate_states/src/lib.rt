//! The candidates of a sequence as a state of a registry. A whole graph of candidates is made into states
//! from its ends on: each state comes after those to which its edges lead. So sequences with equal candidates
//! have one state. The candidates with one pivot as their greatest rank are made from the same graph, pivot
//! by pivot.
#![tactic(auto)]

mod asked;
mod asking;
mod making;
mod numbers;
mod pivot;
mod pivot_making;
mod room;
mod root;
mod stages;
mod states;
mod steps;

pub use pivot::pivot_state;
pub use room::Room;
pub use root::root_state;
